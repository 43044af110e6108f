//! Bools, numbers, strings and handles.
ghost use Rattle.std.specs.Prelude.{◌≡◌, ◌≢◌, ◌<◌, ◌^◌, ℕ, ℤ, Bool, List, IfOk, IfErr, OnErr};
ghost use Rattle.std.specs.Prelude.{IfSome, IfNone, length};
ghost use Rattle.fidl_wire.specs.declared.handle.HandleInfo.{HandleInfo};
ghost use Rattle.fidl_wire.specs.Term as ty;
ghost use Rattle.fidl_wire.specs.Value.{Value as Data, absent};
ghost use Rattle.fidl_wire.specs.Views.{value_view};
ghost use Rattle.fidl_wire.specs.Figure.{Declarations};
ghost use Rattle.fidl_table_format.specs.declared.record.Header.{Header};
ghost use Rattle.fidl_table_format.specs.declared.record.Entry.{Entry};
ghost use Rattle.fidl_table_format.specs.Section.{header_of};
ghost use Rattle.fidl_table_format.specs.Terms.{as_number, term_as};
ghost use Rattle.fidl_spelling.specs.Words.{Words, IsQuoted};
ghost use Rattle.fidl_spelling.specs.Spells.{One, IsNumberOf, IsNumberBelow, AHandle, Absence};
ghost use Rattle.fidl_spelling.specs.Spells.{Spelled};
ghost use Rattle.fidl_reading.specs.Cuts.{texts_of};
ghost use Rattle.fidl_reading.specs.Reads.{StandsNot, IfJudged, IsLeaf};

use crate::fault::NotationFault;
use crate::number::number_of;
use crate::reader::{Reader, begins};
use crate::text::text_of;
use crate::word::Word;
use fidl_table_format::{Entry, EntryKind};
use fidl_wire::{HandleInfo, Value};

impl<'r, 't> Reader<'r, 't> {
    /// A number of a kind.
    pub(crate) fn read_number<'w, 'x>(
        &self,
        kind: EntryKind,
        words: &'w [Word<'x>],
    ) -> Result<(i128, &'w [Word<'x>]), NotationFault>
        ensures ok { IfOk result (λ r. One (IsNumberOf (as_number kind) r.0) (texts_of words.now)
            (texts_of r.1.now)) }
        ensures fewer { IfOk result (λ r. length r.1.now < length words.now) }
        ensures fault_is_true { OnErr result ((z : ℤ)
            → StandsNot (One (IsNumberOf (as_number kind) z)) (texts_of words.now)) }
    {
        let (word, rest) = self.first(words)?;
        let number = number_of(&word, kind)?;
        Ok((number, rest))
    }

    /// A number of 64 bits.
    pub(crate) fn read_natural<'w, 'x>(
        &self,
        words: &'w [Word<'x>],
    ) -> Result<(u64, &'w [Word<'x>]), NotationFault>
        ensures ok { IfOk result (λ r. One (IsNumberBelow (2 ^ 64) r.0) (texts_of words.now)
            (texts_of r.1.now)) }
        ensures fewer { IfOk result (λ r. length r.1.now < length words.now) }
        ensures fault_is_true { OnErr result ((n : ℕ)
            → StandsNot (One (IsNumberBelow (2 ^ 64) n)) (texts_of words.now)) }
    {
        let (number, rest) = self.read_number(EntryKind::Uint64, words)?;
        let number = u64::try_from(number).unwrap();
        Ok((number, rest))
    }

    /// A number of 32 bits.
    fn read_natural32<'w, 'x>(
        &self,
        words: &'w [Word<'x>],
    ) -> Result<(u32, &'w [Word<'x>]), NotationFault>
        ensures ok { IfOk result (λ r. One (IsNumberBelow (2 ^ 32) r.0) (texts_of words.now)
            (texts_of r.1.now)) }
        ensures fewer { IfOk result (λ r. length r.1.now < length words.now) }
        ensures fault_is_true { OnErr result ((n : ℕ)
            → StandsNot (One (IsNumberBelow (2 ^ 32) n)) (texts_of words.now)) }
    {
        let (number, rest) = self.read_number(EntryKind::Uint32, words)?;
        let number = u32::try_from(number).unwrap();
        Ok((number, rest))
    }

    /// A handle that is present.
    pub(crate) fn read_handle<'w, 'x>(
        &self,
        words: &'w [Word<'x>],
    ) -> Result<(HandleInfo, &'w [Word<'x>]), NotationFault>
        ensures ok { IfOk result (λ r. AHandle r.0 (texts_of words.now) (texts_of r.1.now)) }
        ensures fewer { IfOk result (λ r. length r.1.now < length words.now) }
        ensures fault_is_true { OnErr result ((h : HandleInfo)
            → StandsNot (AHandle h) (texts_of words.now)) }
    {
        let words = self.take(words, b"handle")?;
        let words = self.take(words, b"(")?;
        let (id, words) = self.read_natural32(words)?;
        let words = self.take(words, b",")?;
        let (object_type, words) = self.read_natural32(words)?;
        let words = self.take(words, b",")?;
        let (rights, words) = self.read_natural32(words)?;
        let words = self.take(words, b")")?;
        let handle = HandleInfo {
            id,
            object_type,
            rights,
        };
        Ok((handle, words))
    }

    /// A bool.
    fn read_bool<'w, 'x>(
        &self,
        words: &'w [Word<'x>],
    ) -> Result<(Value, &'w [Word<'x>]), NotationFault>
        ensures ok { IfOk result (λ r. (ds : Declarations) → Spelled ds ty.bool (value_view r.0)
            (texts_of words.now) (texts_of r.1.now)) }
        ensures fewer { IfOk result (λ r. length r.1.now < length words.now) }
        ensures fault_is_true { OnErr result ((ds : Declarations) (v : Data)
            → StandsNot (Spelled ds ty.bool v) (texts_of words.now)) }
    {
        if begins(words, b"true") {
            let rest = self.take(words, b"true")?;
            return Ok((Value::Bool(true), rest));
        }
        let rest = self.take(words, b"false")?;
        Ok((Value::Bool(false), rest))
    }

    /// A number, also of bits or an enum, as a value.
    fn read_numeral<'w, 'x>(
        &self,
        kind: EntryKind,
        words: &'w [Word<'x>],
    ) -> Result<(Value, &'w [Word<'x>]), NotationFault>
        ensures ok { IfOk result (λ r. (ds : Declarations) → Spelled ds (ty.number (as_number kind))
            (value_view r.0) (texts_of words.now) (texts_of r.1.now)) }
        ensures fewer { IfOk result (λ r. length r.1.now < length words.now) }
        ensures fault_is_true { OnErr result ((ds : Declarations) (v : Data)
            → StandsNot (Spelled ds (ty.number (as_number kind)) v) (texts_of words.now)) }
    {
        let (number, rest) = self.read_number(kind, words)?;
        Ok((Value::Number(number), rest))
    }

    /// A string that is present.
    fn read_string<'w, 'x>(
        &self,
        words: &'w [Word<'x>],
    ) -> Result<(Value, &'w [Word<'x>]), NotationFault>
        ensures ok { IfOk result (λ r. (ds : Declarations) (o : Bool) (n : ℕ)
            → Spelled ds (ty.string o n) (value_view r.0) (texts_of words.now)
            (texts_of r.1.now)) }
        ensures fewer { IfOk result (λ r. length r.1.now < length words.now) }
        ensures fault_is_true { IfErr result (IfJudged ((ds : Declarations) (o : Bool) (n : ℕ) (v : Data)
            → v ≢ absent → StandsNot (Spelled ds (ty.string o n) v) (texts_of words.now))) }
    {
        let (word, rest) = self.first(words)?;
        match text_of(self.alloc, word.text)? {
            Some(bytes) => Ok((Value::Text(bytes), rest)),
            None => Err(NotationFault::Syntax { at: word.at }),
        }
    }

    /// The words that follow `absent`, where a value of this kind can be absent and is so.
    #[inline(always)]
    pub(crate) fn absent<'w, 'x>(
        &self,
        kind: EntryKind,
        words: &'w [Word<'x>],
    ) -> Option<&'w [Word<'x>]>
        ensures some { IfSome result (λ rest. (b : List ℕ) (h : Header) (e : Entry)
            → Absence (term_as kind b h e) (texts_of words.now) (texts_of rest.now)) }
        ensures fewer { IfSome result (λ rest. length rest.now < length words.now) }
        ensures none { IfNone result ((b : List ℕ) (h : Header) (e : Entry)
            → StandsNot (Absence (term_as kind b h e)) (texts_of words.now)) }
    {
        match kind {
            EntryKind::String
            | EntryKind::Vector
            | EntryKind::Box
            | EntryKind::Union
            | EntryKind::Handle => self.take(words, b"absent").ok(),
            _ => None,
        }
    }

    /// A value of an entry that is present, and in which there is no other value.
    pub(crate) fn read_leaf<'w, 'x>(
        &self,
        kind: EntryKind,
        entry: &Entry,
        words: &'w [Word<'x>],
    ) -> Result<(Value, &'w [Word<'x>]), NotationFault>
        requires { IsLeaf kind }
        ensures ok { IfOk result (λ r. (ds : Declarations) (b : List ℕ) → Spelled ds
            (term_as kind b (header_of b) entry.now) (value_view r.0) (texts_of words.now)
            (texts_of r.1.now)) }
        ensures fewer { IfOk result (λ r. length r.1.now < length words.now) }
        ensures fault_is_true { IfErr result (IfJudged ((ds : Declarations) (b : List ℕ) (v : Data)
            → v ≢ absent → StandsNot (Spelled ds (term_as kind b (header_of b) entry.now) v)
            (texts_of words.now))) }
    {
        match kind {
            EntryKind::Bool => self.read_bool(words),
            EntryKind::String => self.read_string(words),
            EntryKind::Handle => {
                let (handle, rest) = self.read_handle(words)?;
                Ok((Value::Handle(handle), rest))
            }
            EntryKind::Bits | EntryKind::Enum => self.read_numeral(entry.underlying(), words),
            _ => self.read_numeral(kind, words),
        }
    }
}
