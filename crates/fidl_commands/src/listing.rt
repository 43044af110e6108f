//! The command `table`: the records of a table as text, or names of it.
ghost use Rattle.std.specs.Prelude.{◌≡◌, ◌≢◌, OnOk, OnErr, IsSome};
ghost use Rattle.fidl_text.specs.Outputs.{Writes};
ghost use Rattle.fidl_commands.specs.Listing.{CanEndTable, IsListing, IsTableRefusal, listed};
ghost use Rattle.fidl_commands.specs.Outputs.{AppendsOne, AppendsFrontOfOne, ReportsFailures};
ghost use Rattle.fidl_commands.specs.declared.outcome.Outcome.TheVariants as outcome;

use crate::files::File;
use crate::lines::write_no_output;
use crate::naming::{Named, write_names};
use crate::outcome::Outcome;
use crate::verifying::verified;
use fidl_command_line::Listing;
use fidl_text::{Failed, Output, write_records};
use fidl_verify::Table;
use std::io::Write;

/// Writes what is printed of a table.
fn write_listing<W: Write>(
    table: &Table<'_>,
    listing: Listing,
    out: &mut Output<W>,
) -> Result<(), Failed>
    ensures text { Writes (W.contents out.old.writer) (W.contents out.new.writer)
        (listed listing table.now) result }
    ensures kept { OnOk result (out.new.failure ≡ out.old.failure) }
    ensures failed { OnErr result (IsSome out.new.failure) }
{
    match listing {
        Listing::Records => write_records(table, out),
        Listing::Roots => write_names(table, Named::Roots, out),
        Listing::Protocols => write_names(table, Named::Protocols, out),
    }
}

/// Prints the records of a table, or the names of its roots or its protocols, a line for each.
///
/// `Done` where all lines stand on `out`; `Refused` where the table is not accepted, with one line
/// on `errors`. `Unwritten` comes where a write of this call fails.
pub fn table<W: Write, E: Write>(
    file: &File<'_>,
    listing: Listing,
    out: &mut Output<W>,
    errors: &mut Output<E>,
) -> Outcome
    ensures ends { CanEndTable result }
    ensures done { result ≡ outcome.Done → AppendsOne (IsListing listing file.now.bytes.now)
        (W.contents out.old.writer) (W.contents out.new.writer) }
    ensures refused { result ≡ outcome.Refused
        → AppendsOne (IsTableRefusal file.now.bytes.now)
        (E.contents errors.old.writer) (E.contents errors.new.writer) }
    ensures unwritten { ReportsFailures result out.old.failure out.new.failure
        errors.old.failure errors.new.failure }
    ensures front { result ≡ outcome.Unwritten
        → AppendsFrontOfOne (IsListing listing file.now.bytes.now)
        (W.contents out.old.writer) (W.contents out.new.writer) }
    ensures out { result ≢ outcome.Done → result ≢ outcome.Unwritten
        → W.contents out.new.writer ≡ W.contents out.old.writer }
    ensures errors { result ≡ outcome.Done
        → E.contents errors.new.writer ≡ E.contents errors.old.writer }
{
    let table = match verified(file.bytes, errors) {
        Ok(table) => table,
        Err(ended) => return ended,
    };
    match write_listing(&table, listing, out) {
        Ok(()) => Outcome::Done,
        Err(Failed) => Outcome::Unwritten.where_written(&write_no_output(errors, out)),
    }
}
