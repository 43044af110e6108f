//! Reading the value of a text again and again.
ghost use Rattle.std.specs.Prelude.{◌<◌, ℕ, List, OnOk, IfErr};
ghost use Rattle.fidl_wire.specs.Term as ty;
ghost use Rattle.fidl_wire.specs.Term.{Term};
ghost use Rattle.fidl_wire.specs.Figure.{Declarations};
ghost use Rattle.fidl_wire.specs.Value.{Value as Data};
ghost use Rattle.fidl_spelling.specs.Spells.{SpellsWithin};
ghost use Rattle.fidl_reading.specs.Reads.{IfJudged};
ghost use Rattle.fidl_table_format.specs.Section.{header_of};
ghost use Rattle.fidl_table_format.specs.Terms.{declarations_of};
ghost use Rattle.fidl_bench.specs.Spelled.{IsSpelled, IsWhyUnspelled, SpellsOneOf, IsWhyNone};

use crate::failure::Failure;
use fidl_reading::{NotationFault, read_value};
use fidl_verify::{Table, verify};
use std::alloc::Global;

/// The failure that stands for a refusal of a text.
fn failure_of(fault: NotationFault) -> Failure
    ensures { (ds : Declarations) → (t : Term) → (text : List ℕ)
        → IfJudged ((v : Data) → ¬ (SpellsWithin ds t text v)) fault
        → IsWhyUnspelled ds t text result }
{
    match fault {
        NotationFault::Syntax { .. } => Failure::Refused,
        NotationFault::UnknownName { .. } => Failure::Refused,
        NotationFault::OutOfRange { .. } => Failure::Refused,
        NotationFault::Repeated { .. } => Failure::Refused,
        NotationFault::Memory => Failure::NoMemory,
    }
}

/// Reads the value of an entry's type that a text spells, and drops it.
fn read_once(alloc: Global, table: &Table<'_>, entry: u32, text: &[u8]) -> Result<(), Failure>
    requires { entry < (header_of table.now).entries }
    ensures ok { OnOk result (IsSpelled (declarations_of table.now) (ty.named entry) text.now) }
    ensures err { IfErr result
        (IsWhyUnspelled (declarations_of table.now) (ty.named entry) text.now) }
{
    let _value = match read_value(alloc, table, entry, text) {
        Ok(value) => value,
        Err(fault) => return Err(failure_of(fault)),
    };
    Ok(())
}

/// Reads it once, and then so many times again.
fn read_again(
    alloc: Global,
    table: &Table<'_>,
    entry: u32,
    text: &[u8],
    again: u64,
) -> Result<(), Failure>
    requires { entry < (header_of table.now).entries }
    ensures ok { OnOk result (IsSpelled (declarations_of table.now) (ty.named entry) text.now) }
    ensures err { IfErr result
        (IsWhyUnspelled (declarations_of table.now) (ty.named entry) text.now) }
{
    for _ in 0..again {
        read_once(alloc, table, entry, text)?;
    }
    read_once(alloc, table, entry, text)
}

/// Reads the value that a text spells as one of a root of a table, once and then so many times again.
pub(crate) fn read_text_root(
    alloc: Global,
    table: &[u8],
    root: &[u8],
    text: &[u8],
    again: u64,
) -> Result<(), Failure>
    ensures ok { OnOk result (SpellsOneOf table.now root.now text.now) }
    ensures err { IfErr result (IsWhyNone table.now root.now text.now) }
{
    let Ok(table) = verify(table) else {
        return Err(Failure::BadTable);
    };
    let Some(entry) = table.root(root) else {
        return Err(Failure::NoRoot);
    };
    match read_again(alloc, &table, entry, text, again) {
        Ok(()) => Ok(()),
        Err(failure) => Err(failure),
    }
}
