//! The replies of all methods.
ghost use Rattle.std.specs.Prelude.{◌≡◌, ◌<◌, ◌++◌, [], ◌∷◌, IfOk, IsTrue, IsFalse, MatchOption, length};
ghost use Rattle.fidl_verify.specs.Lookups.{protocol_record};
ghost use Rattle.fidl_script.specs.Script.{IsTwoWay};
ghost use Rattle.fidl_script.specs.Held.{bodies_view};
ghost use Rattle.fidl_script.specs.Collected.{places_view, held_from, LacksBody, IsHeld};

use crate::methods::Methods;
use crate::replies::Replies;
use fidl_encode::Message;
use std::alloc::{AllocError, Global};

/// Holds the replies of the method at a place, if it is two-way. False where it is, and has none.
fn hold(
    held: &mut Vec<Replies>,
    methods: &Methods<'_, '_>,
    place: u32,
    bodies: Vec<Message>,
) -> Result<bool, AllocError>
    requires { place < (protocol_record methods.now).methods }
    ensures held { IfOk result (λ has. IsTrue has → held.new.items
        ≡ held.old.items ++ held_from methods.now place (bodies_view bodies.items ∷ [])) }
    ensures some { IfOk result (λ has. IsTrue has → IsTwoWay methods.now place
        → 0 < length bodies.items) }
    ensures none { IfOk result (λ has. IsFalse has
        → IsTwoWay methods.now place × (bodies.items ≡ [])) }
{
    let Some(method) = methods.two_way_at(place) else {
        return Ok(true);
    };
    if bodies.is_empty() {
        return Ok(false);
    }
    held.push(Replies::new(&method, bodies))?;
    Ok(true)
}

/// The replies of all two-way methods, or nothing where one has none. `AllocError`: memory ran out.
pub(crate) fn held_replies(
    alloc: Global,
    methods: &Methods<'_, '_>,
    places: Vec<Vec<Message>>,
) -> Result<Option<Vec<Replies>>, AllocError>
    requires { length places.items ≡ (protocol_record methods.now).methods }
    ensures { IfOk result (λ found. MatchOption found
        (LacksBody methods.now (places_view places.items))
        (λ held. IsHeld methods.now (places_view places.items) held.items)) }
{
    // Read, so that the number of methods is known to have 32 bits.
    let _methods = methods.len();
    let mut held = Vec::new(alloc);
    let mut place = 0;
    for bodies in places {
        let has = hold(&mut held, methods, place, bodies)?;
        if !has {
            return Ok(None);
        }
        place += 1;
    }
    Ok(Some(held))
}
