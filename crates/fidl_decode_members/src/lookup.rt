//! A table's members, looked up.
ghost use Rattle.std.specs.Prelude.{◌≡◌, ℕ, ◌<◌, ◌≤◌, List, IfSome, Some};
ghost use Rattle.fidl_decode_model.specs.State.{Message};
ghost use Rattle.fidl_table_format.specs.declared.kind.EntryKind.TheVariants as kinds;
ghost use Rattle.fidl_table_format.specs.Kind.{kind_of};
ghost use Rattle.fidl_table_format.specs.Section.{header_of, entry_at};
ghost use Rattle.fidl_decode_values.specs.Reading.{message};
ghost use Rattle.fidl_decode_members.specs.Members.{IsPassage, AreMembersOf};

use crate::member::{Member, Passage};
use crate::members::{MOST_MEMBERS, Members};
use fidl_decode_columns::is_free;
use fidl_decode_values::Decoder;
use fidl_table_format::{Entry, EntryKind};

/// How the envelope of a number is passed over, or of another member of this entry of which any
/// bytes are a value.
fn passage_of_free(e: &Entry, kind: EntryKind) -> Passage
    ensures { (t : List ℕ) → (m : Message) → (entry : ℕ) → entry_at t entry ≡ e.now
        → kind_of e.now.kind ≡ Some kind → IsPassage t m entry result }
{
    if !is_free(e, kind) {
        return Passage::Other;
    }
    if e.size <= 4 {
        return Passage::Inside { size: e.size };
    }
    if e.size == 8 {
        return Passage::Below;
    }
    Passage::Other
}

/// How the envelope of a member of this entry is passed over.
fn passage_of(decoder: &Decoder<'_, '_, '_>, entry: u32) -> Passage
    requires { entry < (header_of decoder.now.table.now).entries }
    ensures { IsPassage decoder.now.table.now (message decoder.now) entry result }
{
    let e = decoder.entry(entry);
    let Some(kind) = EntryKind::from_number(e.kind) else {
        unreachable!()
    };
    match kind {
        EntryKind::Bool => Passage::Bool,
        EntryKind::String => Passage::Text,
        EntryKind::Struct => match decoder.free_struct(entry) {
            Some(known) => Passage::Struct { known },
            None => Passage::Other,
        },
        _ => passage_of_free(&e, kind),
    }
}

impl Members {
    /// Looks up the members of a table entry. None, where they are more than are noted, or the
    /// ordinal 1 is missing.
    #[inline(never)]
    pub fn look_up(decoder: &Decoder<'_, '_, '_>, entry: u32) -> Option<Members>
        requires entry { entry < (header_of decoder.now.table.now).entries }
        requires kind { kind_of (entry_at decoder.now.table.now entry).kind ≡ Some kinds.Table }
        ensures { IfSome result (AreMembersOf decoder.now.table.now (message decoder.now) entry) }
    {
        let e = decoder.entry(entry);
        if e.count as usize > MOST_MEMBERS {
            return None;
        }
        let none = Member {
            entry,
            passage: Passage::Other,
        };
        // Read, so that the number of rows, and with it each row's, is known to have 32 bits.
        let _rows = decoder.table.rows();
        let mut members = [none; MOST_MEMBERS];
        let mut count = 0;
        while count != e.count {
            let row = decoder.row(e.first + count);
            if row.key != count + 1 {
                break;
            }
            members[count as usize] = Member {
                entry: row.entry,
                passage: passage_of(decoder, row.entry),
            };
            count += 1;
        }
        if count == 0 {
            return None;
        }
        Some(Members {
            entry,
            count,
            members,
        })
    }
}
