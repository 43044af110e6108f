//! One member of a table, whose envelope is passed over as is noted of its entry.
ghost use Rattle.std.specs.Prelude.{◌≡◌, ◌+◌, ◌-◌, ◌^◌, ◌<◌, ◌≤◌, IsTrue, IsFalse, Some, None};
ghost use Rattle.std.specs.Prelude.{length};
ghost use Rattle.fidl_limits.specs.declared.limits.TheConstants.{MAX_DEPTH};
ghost use Rattle.fidl_wire.specs.Term as ty;
ghost use Rattle.fidl_table_format.specs.Section.{header_of};
ghost use Rattle.fidl_decode_model.specs.Machine.{StateFine, Opens, at_of};
ghost use Rattle.fidl_decode_values.specs.Reading.{came, message, Holds};
ghost use Rattle.fidl_decode_values.specs.Ready.{CanReadPlace};
ghost use Rattle.fidl_decode_members.specs.Members.{IsPassage};

use fidl_decode_model::frame::State;
use fidl_decode_values::{Decoder, FreeStruct};

/// How the envelope of a member is passed over.
#[derive(Clone, Copy, Drop)]
pub(crate) enum Passage {
    /// A number of so many bytes stands in it, and any bytes are one.
    Inside { size: u32 },
    /// A bool stands in it.
    Bool,
    /// A number of eight bytes is the next object, and any bytes are one.
    Below,
    /// A text is the next object.
    Text,
    /// A struct of numbers is the next object.
    Struct { known: FreeStruct },
    /// It is not passed over.
    Other,
}

/// A member: its entry, and how its envelope is passed over.
#[derive(Clone, Copy, Drop)]
pub(crate) struct Member {
    pub entry: u32,
    pub passage: Passage,
}

impl Member {
    /// Passes over the member's envelope at a place, where its numbers are right. Else nothing is
    /// read.
    #[inline(always)]
    pub(crate) fn pass(
        &self,
        decoder: &Decoder<'_, '_, '_>,
        envelope: usize,
        depth: u8,
        state: &mut State<'_, '_>,
    ) -> bool
        requires entry { self.now.entry < (header_of decoder.now.table.now).entries }
        requires passage { IsPassage decoder.now.table.now (message decoder.now) self.now.entry
            self.now.passage }
        requires room { envelope + 8 ≤ length (came decoder.now) }
        requires holds { Holds decoder.now state.old }
        requires state { StateFine (message decoder.now) (at_of state.old) }
        requires ready { CanReadPlace decoder.now state.old envelope 8 8 }
        requires depth { depth ≤ MAX_DEPTH }
        requires budget { state.old.steps < 2 ^ 44 }
        ensures holds { Holds decoder.now state.new }
        ensures passed { IsTrue result → Opens decoder.now.table.now (message decoder.now) depth
            (Some (ty.named self.now.entry)) envelope (at_of state.old) (at_of state.new)
            (state.new.steps - state.old.steps) None }
        ensures kept { IsFalse result → at_of state.new ≡ at_of state.old }
        ensures grows { state.old.steps ≤ state.new.steps }
        ensures pays { state.new.steps + state.old.next ≤ state.old.steps + state.new.next }
    {
        match self.passage {
            Passage::Inside { size } => {
                decoder.pass_inside(self.entry, size as usize, envelope, depth, state)
            }
            Passage::Bool => decoder.pass_bool(self.entry, envelope, depth, state),
            Passage::Below => decoder.pass_below(self.entry, envelope, depth, state),
            Passage::Text => decoder.pass_text(self.entry, envelope, depth, state),
            Passage::Struct { known } => decoder.pass_object(&known, envelope, depth, state),
            Passage::Other => false,
        }
    }
}
