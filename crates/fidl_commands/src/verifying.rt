//! The table of a file, where it is accepted.
ghost use Rattle.std.specs.Prelude.{◌≡◌, ◌↔◌, None, Err, IfOk, IfErr, OnOk, IsSome};
ghost use Rattle.fidl_table_format.specs.WellFormed.{WellFormed};
ghost use Rattle.fidl_commands.specs.Listing.{CanEndVerified, IsTableRefusal};
ghost use Rattle.fidl_commands.specs.Outputs.{AppendsOne};
ghost use Rattle.fidl_commands.specs.declared.outcome.Outcome.TheVariants as outcome;

use crate::lines::write_refusal;
use crate::outcome::Outcome;
use fidl_text::Output;
use fidl_verify::{Table, verify};
use std::io::Write;

/// The table that these bytes are, where it is accepted; otherwise prints the line of the refusal.
pub fn verified<'t, E: Write>(bytes: &'t [u8], errors: &mut Output<E>) -> Result<Table<'t>, Outcome>
    ensures well_formed { OnOk result (WellFormed bytes.now) }
    ensures value { IfOk result (λ table. table ≡ bytes.now) }
    ensures kept { OnOk result (errors.new ≡ errors.old) }
    ensures ends { IfErr result CanEndVerified }
    ensures refused { result ≡ Err outcome.Refused → AppendsOne (IsTableRefusal bytes.now)
        (E.contents errors.old.writer) (E.contents errors.new.writer) }
    ensures unwritten { IfErr result (λ ended. errors.old.failure ≡ None
        → (ended ≡ outcome.Unwritten ↔ IsSome errors.new.failure)) }
{
    match verify(bytes) {
        Ok(table) => Ok(table),
        Err(fault) => {
            let place = fault.at() as usize;
            let written = write_refusal(errors, "table", fault.number(), fault.name(), place);
            Err(Outcome::Refused.where_written(&written))
        }
    }
}
