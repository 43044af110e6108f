//! The replies of all lines.
ghost use Rattle.std.specs.Prelude.{◌≡◌, ◌<◌, ℕ, [], ◌∷◌, ◌++◌, IfOk, IfErr, OnOk, length};
ghost use Rattle.std.specs.Prelude.{slice_index_or, slice_set};
ghost use Rattle.fidl_verify.specs.Lookups.{IsProtocolOfTable};
ghost use Rattle.fidl_script.specs.Faults.{IsLinesFault};
ghost use Rattle.fidl_script.specs.Held.{body_view, lines_view};
ghost use Rattle.fidl_script.specs.Collected.{AreCollected, places_view};

use crate::fault::ScriptFault;
use crate::lines::SaidLine;
use crate::methods::Methods;
use crate::reply::read_reply;
use fidl_encode::Message;
use fidl_verify::Table;
use std::alloc::{AllocError, Global};

/// No bodies for so many methods.
fn no_bodies(alloc: Global, count: u32) -> Result<Vec<Vec<Message>>, AllocError>
    ensures long { IfOk result (λ places. length (places_view places.items) ≡ count) }
    ensures none { IfOk result (λ places. (place : ℕ) → place < count
        → slice_index_or (places_view places.items) place [] ≡ []) }
{
    let mut places = Vec::new(alloc);
    for _place in 0..count {
        places.push(Vec::new(alloc))?;
    }
    Ok(places)
}

/// Puts a body behind those of its method.
fn add_body(places: &mut [Vec<Message>], place: usize, message: Message) -> Result<(), AllocError>
    requires { place < length places.old }
    ensures { OnOk result (places_view places.new ≡ slice_set (places_view places.old) place
        (slice_index_or (places_view places.old) place [] ++ body_view message ∷ [])) }
{
    places[place].push(message)?;
    Ok(())
}

/// The bodies of the replies that the lines give, for each method in the order of the lines.
pub(crate) fn collect_bodies(
    alloc: Global,
    table: &Table<'_>,
    methods: &Methods<'_, '_>,
    lines: &[SaidLine<'_>],
) -> Result<Vec<Vec<Message>>, ScriptFault>
    requires table { methods.now.table ≡ table.now }
    requires protocol { IsProtocolOfTable methods.now }
    ensures ok { IfOk result (λ places. AreCollected methods.now (lines_view lines.now)
        (places_view places.items)) }
    ensures fault_is_true { IfErr result (IsLinesFault methods.now (lines_view lines.now)) }
{
    let mut places = no_bodies(alloc, methods.len())?;
    for line in lines {
        let reply = read_reply(alloc, table, methods, line)?;
        add_body(&mut places, reply.place as usize, reply.message)?;
    }
    Ok(places)
}
