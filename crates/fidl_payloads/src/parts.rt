//! What is written in parentheses.
ghost use Rattle.std.specs.Prelude.{◌<◌, length, IfErr, IfOk};
ghost use Rattle.fidl_tree.specs.Views.{payload_view};
ghost use Rattle.fidl_lower_types.specs.TermViews.{AreKnown};
ghost use Rattle.fidl_payloads.specs.Payloads.{PartIs};
ghost use Rattle.fidl_payloads.specs.Members.{part_types, TypesBreak, IsReportIn};

use crate::fault::PayloadFault;
use crate::kinds::payload_number;
use crate::payload::Payload;
use fidl_constraints::{type_span, use_of};
use fidl_lower_types::Sources;
use fidl_named::Place;
use fidl_tree::Payload as Written;

/// What a message carries by what is written in parentheses.
pub(crate) fn part(
    sources: &Sources<'_, '_, '_>,
    file_index: usize,
    written: &Written,
) -> Result<Payload, PayloadFault>
    requires within { file_index < length sources.now.named.now }
    requires known { AreKnown sources.now }
    ensures ok { IfOk result (PartIs sources.now.named.now file_index
        (payload_view written.now)) }
    ensures fault_is_true { IfErr result (IsReportIn file_index (TypesBreak sources.now.named.now
        file_index (part_types (payload_view written.now)))) }
{
    let Some(constructor) = &written.constructor else {
        return Ok(Payload::Empty);
    };
    let of = use_of(constructor);
    match payload_number(sources, file_index, of)? {
        None => Err(PayloadFault::BadPayload {
            place: Place {
                file: file_index,
                span: type_span(of),
            },
        }),
        Some(number) => Ok(Payload::Type(number)),
    }
}
