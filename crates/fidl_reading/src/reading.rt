//! From a text to a value.
ghost use Rattle.std.specs.Prelude.{◌≡◌, ◌<◌, IfOk, IfErr, MatchResult};
ghost use Rattle.fidl_wire.specs.Term as ty;
ghost use Rattle.fidl_wire.specs.Value.{Value as Data};
ghost use Rattle.fidl_wire.specs.Views.{value_view};
ghost use Rattle.fidl_table_format.specs.Section.{header_of};
ghost use Rattle.fidl_table_format.specs.Terms.{declarations_of};
ghost use Rattle.fidl_spelling.specs.Spells.{SpellsWithin};
ghost use Rattle.fidl_reading.specs.declared.fault.NotationFault.TheVariants.{Memory};
ghost use Rattle.fidl_reading.specs.Reads.{IfJudged};
ghost use Rattle.fidl_reading.specs.Written.{HasDistinctNames, IsWritten};

use crate::fault::NotationFault;
use crate::indexed_table::IndexedTable;
use crate::reader::Reader;
use crate::words::words_of;
use fidl_verify::Table;
use fidl_wire::Value;
use std::alloc::Global;

/// Reads the value of an entry's type that a text spells (docs/notation.md, "What a text spells").
///
/// `Ok` exactly where the text spells a value with at most 4,096 brackets open at once, unless
/// memory runs out. A refusal says that the text spells none; its place is an offset in bytes.
/// Bounds, strict values, lengths of arrays and whether an ordinal is known are for the encoder to
/// judge. The call takes room on the machine's stack for as many values as are open at once.
pub fn read_value(
    alloc: Global,
    table: &Table<'_>,
    entry: u32,
    text: &[u8],
) -> Result<Value, NotationFault>
    requires { entry < (header_of table.now).entries }
    ensures ok { IfOk result (λ value. SpellsWithin (declarations_of table.now) (ty.named entry)
        text.now (value_view value)) }
    ensures fault_is_true { IfErr result (IfJudged ((v : Data)
        → ¬ (SpellsWithin (declarations_of table.now) (ty.named entry) text.now v))) }
    ensures written { HasDistinctNames table.now → (v : Data) → IsWritten table.now entry text.now v
        → MatchResult result (λ value. value_view value ≡ v) (λ fault. fault ≡ Memory) }
{
    // Read, so that the table is known to be well formed.
    let _entries = table.entries();
    let cut = words_of(alloc, text)?;
    let indexed = IndexedTable::new(alloc, table, cut.words.len())?;
    let reader = Reader {
        alloc,
        table: &indexed,
        end: cut.end,
    };
    let (value, rest) = reader.read_value(entry, &cut.words)?;
    if cut.end < text.len() || !rest.is_empty() {
        return Err(reader.syntax(rest));
    }
    Ok(value)
}
