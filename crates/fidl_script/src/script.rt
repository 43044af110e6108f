//! Scripts by their texts.
ghost use Rattle.std.specs.Prelude.{◌≡◌, IfOk, IfErr, IsTrue, IsFalse, IsUtf8};
ghost use Rattle.fidl_verify.specs.Lookups.{TableProtocol, IsProtocolOfTable};
ghost use Rattle.fidl_script.specs.Faults.{IsLinesFault};
ghost use Rattle.fidl_script.specs.Held.{lines_view};
ghost use Rattle.fidl_script.specs.Collected.{AreGiven};

use crate::collecting::collect_bodies;
use crate::fault::ScriptFault;
use crate::holding::held_replies;
use crate::lines::{SaidLine, said_lines};
use crate::methods::Methods;
use crate::phrases::protocol_name;
use crate::replies::Replies;
use fidl_verify::{Protocol, Table};
use std::alloc::Global;
use std::marker::Model;
use std::str::from_utf8;

/// Which replies a service gives: for each two-way method of a protocol one or more.
#[derive(Drop)]
pub struct Script {
    protocol: Vec<u8>,
    methods: Vec<Replies>,
}

impl Model for Script {
    ghost use Rattle.fidl_script.specs.Script.{Script as Data};

    ghost Value = { Data };

    ghost view = { λ s. record { protocol = s.protocol.items; methods = s.methods.items } };
}

/// Whether a text is UTF-8.
fn is_utf8(text: &[u8]) -> bool
    ensures yes { IsTrue result → IsUtf8 text.now }
    ensures no { IsFalse result → ¬ (IsUtf8 text.now) }
{
    match from_utf8(text) {
        Ok(_) => true,
        Err(_) => false,
    }
}

/// The replies of a protocol's methods that lines give.
fn replies_of(
    alloc: Global,
    table: &Table<'_>,
    protocol: &Protocol<'_>,
    lines: &[SaidLine<'_>],
) -> Result<Vec<Replies>, ScriptFault>
    requires table { protocol.now.table ≡ table.now }
    requires protocol { IsProtocolOfTable protocol.now }
    ensures ok { IfOk result (λ held. AreGiven protocol.now (lines_view lines.now) held.items) }
    ensures fault_is_true { IfErr result (IsLinesFault protocol.now (lines_view lines.now)) }
{
    let methods = Methods::new(alloc, protocol)?;
    let bodies = collect_bodies(alloc, table, &methods, lines)?;
    let found = held_replies(alloc, &methods, bodies)?;
    match found {
        Some(held) => Ok(held),
        None => Err(ScriptFault::Missing),
    }
}

impl Script {
    ghost use Rattle.fidl_script.specs.Text.{IsScript};
    ghost use Rattle.fidl_script.specs.Faults.{IsTold};

    /// The script that a text is, for a protocol of the table (docs/service.md, "Scripts").
    ///
    /// `Ok` exactly where the text is one, unless memory runs out. A fault is true of the text, and
    /// tells the first line that is at fault: `Missing` is judged behind the last line. A text that
    /// is not UTF-8 is `Syntax` at line 1. The time is that of a search for each line in a map of the
    /// protocol's methods, and of reading each text once.
    pub fn read(alloc: Global, table: &Table<'_>, text: &[u8]) -> Result<Script, ScriptFault>
        ensures ok { IfOk result (λ script. (p : TableProtocol) × (p.table ≡ table.now)
            × IsScript p text.now script) }
        ensures fault_is_true { IfErr result (IsTold table.now text.now) }
    {
        // Read, so that the table is known to be well formed.
        let _entries = table.entries();
        if !is_utf8(text) {
            return Err(ScriptFault::Syntax { line: 1 });
        }
        let lines = said_lines(alloc, text)?;
        let Some((first, rest)) = lines.split_first() else {
            return Err(ScriptFault::Syntax { line: 1 });
        };
        let Some(name) = protocol_name(first.bytes) else {
            let line = first.number;
            return Err(ScriptFault::Syntax { line });
        };
        let Some(protocol) = table.protocol(name) else {
            return Err(ScriptFault::UnknownProtocol);
        };
        let methods = replies_of(alloc, table, &protocol, rest)?;
        let protocol = Vec::from_slice(alloc, name)?;
        Ok(Script { protocol, methods })
    }

    /// The full name of its protocol.
    pub fn protocol(&self) -> &[u8]
        ensures { result.now ≡ self.now.protocol }
    {
        &self.protocol
    }

    /// The replies of its protocol's two-way methods, by rising ordinals.
    pub fn methods(&self) -> &[Replies]
        ensures { result.now ≡ self.now.methods }
    {
        &self.methods
    }
}
