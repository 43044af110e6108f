//! The reply that a line gives.
ghost use Rattle.std.specs.Prelude.{◌≡◌, IfOk, IfErr};
ghost use Rattle.fidl_script.specs.Script.{IsTwoWay, method_of};
ghost use Rattle.fidl_script.specs.Text.{IsReply};
ghost use Rattle.fidl_script.specs.Faults.{IsLineFault};
ghost use Rattle.fidl_script.specs.Held.{body_view, line_view};

use crate::body::body_of;
use crate::fault::ScriptFault;
use crate::lines::SaidLine;
use crate::methods::Methods;
use crate::phrases::reply_words;
use fidl_encode::Message;
use fidl_verify::Table;
use std::alloc::Global;

/// A reply that was read.
#[derive(Drop)]
pub(crate) struct ReadReply {
    /// The place of its method in the protocol.
    pub(crate) place: u32,
    /// Its body, without the header.
    pub(crate) message: Message,
}

/// The reply that a line gives.
pub(crate) fn read_reply(
    alloc: Global,
    table: &Table<'_>,
    methods: &Methods<'_, '_>,
    line: &SaidLine<'_>,
) -> Result<ReadReply, ScriptFault>
    requires { methods.now.table ≡ table.now }
    ensures two_way { IfOk result (λ reply. IsTwoWay methods.now reply.place) }
    ensures ok { IfOk result (λ reply. IsReply methods.now (line_view line.now) (record {
      ordinal = (method_of methods.now reply.place).ordinal;
      body = body_view reply.message;
    })) }
    ensures fault_is_true { IfErr result (IsLineFault methods.now (line_view line.now)) }
{
    let number = line.number;
    let Some(words) = reply_words(line.bytes) else {
        return Err(ScriptFault::Syntax { line: number });
    };
    let Some(named) = methods.named(words.method) else {
        return Err(ScriptFault::UnknownMethod { line: number });
    };
    let found = body_of(alloc, table, named.method.response(), &words)?;
    match found {
        Some(message) => {
            let place = named.place;
            Ok(ReadReply { place, message })
        }
        None => Err(ScriptFault::BadValue { line: number }),
    }
}
