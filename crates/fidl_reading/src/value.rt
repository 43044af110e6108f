//! Values of any type.
ghost use Rattle.std.specs.Prelude.{◌≡◌, ◌≢◌, ◌<◌, ℕ, Bool, IfOk, IfErr, IsTrue, length};
ghost use Rattle.fidl_wire.specs.Term as ty;
ghost use Rattle.fidl_wire.specs.Value.{Value as Data, Member as DataMember, absent};
ghost use Rattle.fidl_wire.specs.Views.{value_view, member_view};
ghost use Rattle.fidl_table_format.specs.declared.kind.EntryKind.TheVariants as EntryKind;
ghost use Rattle.fidl_table_format.specs.Section.{header_of, entry_at};
ghost use Rattle.fidl_table_format.specs.Entry.{IsOf, kind_is};
ghost use Rattle.fidl_table_format.specs.Terms.{declarations_of, members_of, fields_from};
ghost use Rattle.fidl_table_format.specs.Terms.{is_optional, is_strict};
ghost use Rattle.fidl_table_format.specs.Uses.{uses_ordinals};
ghost use Rattle.fidl_table_format.specs.WellFormed.{WellFormed};
ghost use Rattle.fidl_spelling.specs.Spells.{Spelled, AMember};
ghost use Rattle.fidl_reading.specs.Cuts.{texts_of};
ghost use Rattle.fidl_reading.specs.Reads.{StandsNot, IfJudged, type_at};

use crate::counted::rises;
use crate::fault::NotationFault;
use crate::reader::{Reader, begins};
use crate::word::Word;
use fidl_table_format::EntryKind;
use fidl_wire::{Content, Member, Members, Value, Values};

impl<'r, 't> Reader<'r, 't> {
    /// Elements of an entry between brackets.
    #[cycle(read)]
    fn read_list<'w, 'x>(
        &self,
        element: u32,
        words: &'w [Word<'x>],
    ) -> Result<(Value, &'w [Word<'x>]), NotationFault>
        requires well_formed { WellFormed self.now.table.now }
        requires element { element < (header_of self.now.table.now).entries }
        ensures ok { IfOk result (λ r. Spelled (declarations_of self.now.table.now)
            (ty.array (ty.named element) 0) (value_view r.0) (texts_of words.now)
            (texts_of r.1.now)) }
        ensures fewer { IfOk result (λ r. length r.1.now < length words.now) }
        ensures fault_is_true { IfErr result (IfJudged ((v : Data)
            → StandsNot (Spelled (declarations_of self.now.table.now)
            (ty.array (ty.named element) 0) v) (texts_of words.now))) }
    {
        let mut left = self.take(words, b"[")?;
        let mut values = Values::new(self.alloc);
        while !begins(left, b"]") {
            let next = self.separate(left, !values.is_empty())?;
            let (value, rest) = self.read_value(element, next)?;
            values.push(value)?;
            left = rest;
        }
        let rest = self.take(left, b"]")?;
        Ok((Value::List(values), rest))
    }

    /// The members of a struct's entry between braces.
    #[cycle(read)]
    fn read_struct<'w, 'x>(
        &self,
        index: u32,
        words: &'w [Word<'x>],
    ) -> Result<(Value, &'w [Word<'x>]), NotationFault>
        requires well_formed { WellFormed self.now.table.now }
        requires index { index < (header_of self.now.table.now).entries }
        requires of_struct { IsOf EntryKind.Struct (entry_at self.now.table.now index) }
        ensures ok { IfOk result (λ r. Spelled (declarations_of self.now.table.now)
            (type_at self.now.table.now index) (value_view r.0) (texts_of words.now)
            (texts_of r.1.now)) }
        ensures fewer { IfOk result (λ r. length r.1.now < length words.now) }
        ensures fault_is_true { IfErr result (IfJudged ((v : Data)
            → StandsNot (Spelled (declarations_of self.now.table.now)
            (type_at self.now.table.now index) v) (texts_of words.now))) }
    {
        let mut left = self.take(words, b"{")?;
        let mut values = Values::new(self.alloc);
        for k in 0..self.table.entry(index).count {
            let next = self.separate(left, !values.is_empty())?;
            let (entry, behind) = self.read_name(index, k, next)?;
            let (value, rest) = self.read_value(entry, behind)?;
            values.push(value)?;
            left = rest;
        }
        let rest = self.take(left, b"}")?;
        Ok((Value::Fields(values), rest))
    }

    /// A member of a table or union, with its ordinal.
    #[cycle(read)]
    fn read_member<'w, 'x>(
        &self,
        index: u32,
        words: &'w [Word<'x>],
    ) -> Result<(u64, Member, &'w [Word<'x>]), NotationFault>
        requires well_formed { WellFormed self.now.table.now }
        requires index { index < (header_of self.now.table.now).entries }
        requires kind { IsTrue (kind_is uses_ordinals (entry_at self.now.table.now index)) }
        ensures ok { IfOk result (λ r. AMember (declarations_of self.now.table.now)
            (members_of self.now.table.now index) r.0 (member_view r.1) (texts_of words.now)
            (texts_of r.2.now)) }
        ensures fewer { IfOk result (λ r. length r.2.now < length words.now) }
        ensures fault_is_true { IfErr result (IfJudged ((ordinal : ℕ) (m : DataMember)
            → StandsNot (AMember (declarations_of self.now.table.now)
            (members_of self.now.table.now index) ordinal m) (texts_of words.now))) }
    {
        let (key, behind) = self.read_key(index, words)?;
        let Some(entry) = key.entry else {
            let (member, rest) = self.read_unknown(behind)?;
            return Ok((key.ordinal, member, rest));
        };
        let (value, rest) = self.read_value(entry, behind)?;
        Ok((key.ordinal, Member::Known(value), rest))
    }

    /// A table: how many envelopes it has, and its members by rising ordinals.
    #[cycle(read)]
    fn read_table<'w, 'x>(
        &self,
        index: u32,
        words: &'w [Word<'x>],
    ) -> Result<(Value, &'w [Word<'x>]), NotationFault>
        requires well_formed { WellFormed self.now.table.now }
        requires index { index < (header_of self.now.table.now).entries }
        requires of_table { IsOf EntryKind.Table (entry_at self.now.table.now index) }
        ensures ok { IfOk result (λ r. Spelled (declarations_of self.now.table.now)
            (ty.table (members_of self.now.table.now index)) (value_view r.0)
            (texts_of words.now) (texts_of r.1.now)) }
        ensures fewer { IfOk result (λ r. length r.1.now < length words.now) }
        ensures fault_is_true { IfErr result (IfJudged ((v : Data)
            → StandsNot (Spelled (declarations_of self.now.table.now)
            (ty.table (members_of self.now.table.now index)) v) (texts_of words.now))) }
    {
        let (count, mut left) = self.read_count(words)?;
        let mut members = Members::new(self.alloc);
        let mut last = None;
        while !begins(left, b"}") {
            let next = self.separate(left, !members.is_empty())?;
            let (ordinal, member, rest) = self.read_member(index, next)?;
            if !rises(last, ordinal) {
                return Err(self.repeated(next));
            }
            members.push(ordinal, member)?;
            last = Some(ordinal);
            left = rest;
        }
        let rest = self.take(left, b"}")?;
        Ok((Value::Table { count, members }, rest))
    }

    /// A union that is present.
    #[cycle(read)]
    fn read_union<'w, 'x>(
        &self,
        index: u32,
        words: &'w [Word<'x>],
    ) -> Result<(Value, &'w [Word<'x>]), NotationFault>
        requires well_formed { WellFormed self.now.table.now }
        requires index { index < (header_of self.now.table.now).entries }
        requires of_union { IsOf EntryKind.Union (entry_at self.now.table.now index) }
        ensures ok { IfOk result (λ r. (o s : Bool) → Spelled (declarations_of self.now.table.now)
            (ty.union o s (members_of self.now.table.now index)) (value_view r.0)
            (texts_of words.now) (texts_of r.1.now)) }
        ensures fewer { IfOk result (λ r. length r.1.now < length words.now) }
        ensures fault_is_true { IfErr result (IfJudged ((o s : Bool) (v : Data) → v ≢ absent
            → StandsNot (Spelled (declarations_of self.now.table.now)
            (ty.union o s (members_of self.now.table.now index)) v) (texts_of words.now))) }
    {
        let left = self.take(words, b"union")?;
        let left = self.take(left, b"(")?;
        let (ordinal, member, left) = self.read_member(index, left)?;
        let rest = self.take(left, b")")?;
        let content = Content::new(self.alloc, member)?;
        Ok((Value::Union(ordinal, content), rest))
    }

    /// A value of an entry, and the words that follow it.
    #[cycle(read)]
    pub(crate) fn read_value<'w, 'x>(
        &self,
        index: u32,
        words: &'w [Word<'x>],
    ) -> Result<(Value, &'w [Word<'x>]), NotationFault>
        requires { index < (header_of self.now.table.now).entries }
        ensures ok { IfOk result (λ r. Spelled (declarations_of self.now.table.now)
            (type_at self.now.table.now index) (value_view r.0) (texts_of words.now)
            (texts_of r.1.now)) }
        ensures fewer { IfOk result (λ r. length r.1.now < length words.now) }
        ensures fault_is_true { IfErr result (IfJudged ((v : Data)
            → StandsNot (Spelled (declarations_of self.now.table.now)
            (type_at self.now.table.now index) v) (texts_of words.now))) }
    {
        let entry = self.table.entry(index);
        let kind = EntryKind::from_number(entry.kind).unwrap();
        if let Some(rest) = self.absent(kind, words) {
            return Ok((Value::Absent, rest));
        }
        match kind {
            EntryKind::Array => self.read_list(entry.first, words),
            EntryKind::Vector => self.read_list(entry.first, words),
            EntryKind::Struct => self.read_struct(index, words),
            EntryKind::Box => self.read_struct(entry.first, words),
            EntryKind::Table => self.read_table(index, words),
            EntryKind::Union => self.read_union(index, words),
            _ => self.read_leaf(kind, &entry, words),
        }
    }
}
