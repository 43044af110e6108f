//! Boxes: a marker, and the struct that it stands for, which is the next object.
ghost use Rattle.std.specs.Prelude.{◌≡◌, ◌+◌, ◌-◌, ◌<◌, ◌≤◌, ℕ, IfOk, IfErr, Some, length};
ghost use Rattle.fidl_limits.specs.declared.limits.TheConstants.{MAX_DEPTH};
ghost use Rattle.fidl_table_format.specs.declared.kind.EntryKind.TheVariants as kinds;
ghost use Rattle.fidl_table_format.specs.Kind.{kind_of};
ghost use Rattle.fidl_table_format.specs.Section.{header_of, entry_at};
ghost use Rattle.fidl_decode_model.specs.Breaks.{BreaksBox};
ghost use Rattle.fidl_decode_model.specs.Machine.{StateFine, Visits, VisitFine, at_of};
ghost use Rattle.fidl_decode_values.specs.Reading.{came, message, Holds};
ghost use Rattle.fidl_decode_values.specs.Ready.{CanReadPlace};

use crate::decoder::Decoder;
use fidl_decode_model::DecodeFault;
use fidl_decode_model::frame::{Frame, Remaining, State};
use fidl_wire::MAX_DEPTH;

impl<'t, 'm, 's> Decoder<'t, 'm, 's> {
    /// Reads the marker of a box at a place, and links its content, whose members are left to read.
    #[inline(always)]
    pub fn read_box(
        &self,
        entry: u32,
        place: usize,
        depth: u8,
        state: &mut State<'_, '_>,
    ) -> Result<Option<Frame>, DecodeFault>
        requires entry { entry < (header_of self.now.table.now).entries }
        requires kind { kind_of (entry_at self.now.table.now entry).kind ≡ Some kinds.Box }
        requires room { place + 8 ≤ length (came self.now) }
        requires holds { Holds self.now state.old }
        requires state { StateFine (message self.now) (at_of state.old) }
        requires ready { CanReadPlace self.now state.old place 8 8 }
        requires depth { depth ≤ MAX_DEPTH }
        ensures holds { Holds self.now state.new }
        ensures ok { IfOk result (λ found. Visits self.now.table.now (message self.now) depth entry
            place (at_of state.old) (at_of state.new) (state.new.steps - state.old.steps) found) }
        ensures fine { (in_envelope : ℕ) → in_envelope ≤ 1 → IfOk result (VisitFine
            self.now.table.now (message self.now) depth in_envelope entry) }
        ensures fault_is_true { let t = self.now.table.now in
            let content = entry_at t (entry_at t entry).first in
            IfErr result (BreaksBox (message self.now) depth content.size
            place state.old.next) }
        ensures steps { state.new.steps ≡ state.old.steps }
    {
        if !self.is_present(place, state) {
            if self.is_absent(place, state) {
                return Ok(None);
            }
            return Err(DecodeFault::BadMarker { at: place });
        }
        if depth as usize == MAX_DEPTH {
            return Err(DecodeFault::TooDeep { at: place });
        }
        let content = self.entry(self.entry(entry).first);
        let from = state.next;
        let size = (content.size as usize).next_multiple_of(8);
        if size > self.size - from {
            return Err(DecodeFault::Truncated { at: from });
        }
        state.links.link_marker(place, from);
        state.next = from + size;
        let left = Remaining::Rows {
            first: content.first,
            count: content.count,
        };
        Ok(Some(Frame {
            left,
            base: from as u32,
            done: 0,
            size: size as u32,
            nest: content.nest,
            depth: depth + 1,
            in_envelope: 0,
        }))
    }
}
