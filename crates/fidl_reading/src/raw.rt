//! Members that a layout does not have.
ghost use Rattle.std.specs.Prelude.{◌≡◌, ◌<◌, List, ℕ, Bool, IfOk, IfErr, OnErr, length};
ghost use Rattle.fidl_wire.specs.declared.handle.HandleInfo.{HandleInfo};
ghost use Rattle.fidl_wire.specs.Value.{Member as Data};
ghost use Rattle.fidl_wire.specs.Views.{member_view};
ghost use Rattle.fidl_spelling.specs.Spells.{One, AreHex};
ghost use Rattle.fidl_reading.specs.Cuts.{texts_of};
ghost use Rattle.fidl_reading.specs.Reads.{StandsNot, IfJudged, AHandleList, ASide, ARaw};

use crate::fault::NotationFault;
use crate::hex::hex_of;
use crate::reader::{Reader, begins};
use crate::word::Word;
use fidl_wire::{Bytes, Handles, Member};

impl<'r, 't> Reader<'r, 't> {
    /// Handles between brackets.
    fn read_handles<'w, 'x>(
        &self,
        words: &'w [Word<'x>],
    ) -> Result<(Handles, &'w [Word<'x>]), NotationFault>
        ensures ok { IfOk result (λ r. AHandleList r.0 (texts_of words.now) (texts_of r.1.now)) }
        ensures fewer { IfOk result (λ r. length r.1.now < length words.now) }
        ensures fault_is_true { IfErr result (IfJudged ((hs : List HandleInfo)
            → StandsNot (AHandleList hs) (texts_of words.now))) }
    {
        let mut left = self.take(words, b"[")?;
        let mut handles = Handles::new(self.alloc);
        while !begins(left, b"]") {
            let next = self.separate(left, !handles.is_empty())?;
            let (handle, rest) = self.read_handle(next)?;
            handles.push(handle)?;
            left = rest;
        }
        let rest = self.take(left, b"]")?;
        Ok((handles, rest))
    }

    /// One byte or more, by two hexadecimal digits each.
    fn read_hex<'w, 'x>(
        &self,
        words: &'w [Word<'x>],
    ) -> Result<(Bytes, &'w [Word<'x>]), NotationFault>
        ensures ok { IfOk result (λ r. One (AreHex r.0) (texts_of words.now) (texts_of r.1.now)) }
        ensures fewer { IfOk result (λ r. length r.1.now < length words.now) }
        ensures fault_is_true { IfErr result (IfJudged ((bytes : List ℕ)
            → StandsNot (One (AreHex bytes)) (texts_of words.now))) }
    {
        let (word, rest) = self.first(words)?;
        match hex_of(self.alloc, word.text)? {
            Some(bytes) => Ok((bytes, rest)),
            None => Err(NotationFault::Syntax { at: word.at }),
        }
    }

    /// Whether an unknown member is inline, or out of line.
    fn read_side<'w, 'x>(
        &self,
        words: &'w [Word<'x>],
    ) -> Result<(bool, &'w [Word<'x>]), NotationFault>
        ensures ok { IfOk result (λ r. ASide r.0 (texts_of words.now) (texts_of r.1.now)) }
        ensures fewer { IfOk result (λ r. length r.1.now < length words.now) }
        ensures fault_is_true { OnErr result ((inline : Bool)
            → StandsNot (ASide inline) (texts_of words.now)) }
    {
        if begins(words, b"in") {
            let rest = self.take(words, b"in")?;
            return Ok((true, rest));
        }
        let rest = self.take(words, b"out")?;
        Ok((false, rest))
    }

    /// A member that the layout does not have, by its raw parts.
    pub(crate) fn read_unknown<'w, 'x>(
        &self,
        words: &'w [Word<'x>],
    ) -> Result<(Member, &'w [Word<'x>]), NotationFault>
        ensures ok { IfOk result (λ r. ARaw (member_view r.0) (texts_of words.now)
            (texts_of r.1.now)) }
        ensures fewer { IfOk result (λ r. length r.1.now < length words.now) }
        ensures fault_is_true { IfErr result (IfJudged ((m : Data)
            → StandsNot (ARaw m) (texts_of words.now))) }
    {
        let words = self.take(words, b"unknown")?;
        let (inline, words) = self.read_side(words)?;
        let (bytes, words) = self.read_hex(words)?;
        let (handles, words) = self.read_handles(words)?;
        let member = Member::Unknown {
            inline,
            bytes,
            handles,
        };
        Ok((member, words))
    }
}
