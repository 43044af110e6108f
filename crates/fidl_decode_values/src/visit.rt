//! One value of an entry, and one row of a struct.
ghost use Rattle.std.specs.Prelude.{◌≡◌, ◌+◌, ◌-◌, ◌^◌, ◌<◌, ◌≤◌, IfOk, IfErr, None, length};
ghost use Rattle.fidl_limits.specs.declared.limits.TheConstants.{MAX_DEPTH, MAX_MESSAGE_BYTES};
ghost use Rattle.fidl_wire.specs.Term as ty;
ghost use Rattle.fidl_wire.specs.Term.{resolve};
ghost use Rattle.fidl_table_format.specs.Section.{header_of, entry_at};
ghost use Rattle.fidl_table_format.specs.Terms.{declarations_of};
ghost use Rattle.fidl_decode_model.specs.Breaks.{Breaks};
ghost use Rattle.fidl_decode_model.specs.declared.frame.Remaining.TheVariants as left;
ghost use Rattle.fidl_decode_model.specs.Machine.{StateFine, IsInside, VisitFine, Visits, at_of};
ghost use Rattle.fidl_decode_model.specs.Machine.{probes};
ghost use Rattle.fidl_decode_model.specs.Steps.{Spends};
ghost use Rattle.fidl_decode_values.specs.Reading.{came, message, Holds};
ghost use Rattle.fidl_decode_values.specs.Ready.{CanReadValue};

use crate::decoder::Decoder;
use fidl_decode_model::DecodeFault;
use fidl_decode_model::frame::{Frame, Remaining, State};
use fidl_table_format::{Entry, EntryKind};

/// The frame of a struct at a place, of which all is left to read.
#[inline(always)]
fn struct_frame(entry: &Entry, place: usize, depth: u8, in_envelope: u8) -> Frame
    requires near { place ≤ MAX_MESSAGE_BYTES }
    ensures { result ≡ record {
      left = left.Rows entry.now.first entry.now.count;
      base = place;
      done = 0;
      size = entry.now.size;
      nest = entry.now.nest;
      depth = depth;
      in_envelope = in_envelope;
    } }
{
    Frame {
        left: Remaining::Rows {
            first: entry.first,
            count: entry.count,
        },
        base: place as u32,
        done: 0,
        size: entry.size,
        nest: entry.nest,
        depth,
        in_envelope,
    }
}

impl<'t, 'm, 's> Decoder<'t, 'm, 's> {
    /// Reads an entry at a place as `visit` does. Of a struct all is left to read, and nothing is
    /// called.
    #[inline(always)]
    pub fn begin(
        &self,
        entry: u32,
        place: usize,
        depth: u8,
        in_envelope: u8,
        state: &mut State<'_, '_>,
    ) -> Result<Option<Frame>, DecodeFault>
        requires entry { entry < (header_of self.now.table.now).entries }
        requires room { place + (entry_at self.now.table.now entry).size ≤ length (came self.now) }
        requires holds { Holds self.now state.old }
        requires state { StateFine (message self.now) (at_of state.old) }
        requires ready { CanReadValue self.now state.old entry place }
        requires depth { depth ≤ MAX_DEPTH }
        requires in_envelope { IsInside in_envelope (entry_at self.now.table.now entry).size }
        requires budget { state.old.steps < 2 ^ 41 }
        ensures holds { Holds self.now state.new }
        ensures ok { IfOk result (λ found. Visits self.now.table.now (message self.now) depth entry
            place (at_of state.old) (at_of state.new) (state.new.steps - state.old.steps) found) }
        ensures fine { IfOk result (VisitFine self.now.table.now (message self.now) depth
            in_envelope entry) }
        ensures fault_is_true { IfErr result (Breaks (declarations_of self.now.table.now)
            (message self.now) depth (resolve (declarations_of self.now.table.now).terms
            (ty.named entry)) place (at_of state.old)) }
        ensures spends { Spends state.old.steps state.new.steps 0 (1 + probes + (length
            (came self.now) - state.old.next)) }
    {
        let e = self.entry(entry);
        let Some(EntryKind::Struct) = EntryKind::from_number(e.kind) else {
            return self.visit(entry, place, depth, in_envelope, state);
        };
        Ok(Some(struct_frame(&e, place, depth, in_envelope)))
    }

    /// Reads an entry at a place, up to what it holds.
    #[inline(never)]
    pub fn visit(
        &self,
        entry: u32,
        place: usize,
        depth: u8,
        in_envelope: u8,
        state: &mut State<'_, '_>,
    ) -> Result<Option<Frame>, DecodeFault>
        requires entry { entry < (header_of self.now.table.now).entries }
        requires room { place + (entry_at self.now.table.now entry).size ≤ length (came self.now) }
        requires holds { Holds self.now state.old }
        requires state { StateFine (message self.now) (at_of state.old) }
        requires ready { CanReadValue self.now state.old entry place }
        requires depth { depth ≤ MAX_DEPTH }
        requires in_envelope { IsInside in_envelope (entry_at self.now.table.now entry).size }
        requires budget { state.old.steps < 2 ^ 41 }
        ensures holds { Holds self.now state.new }
        ensures ok { IfOk result (λ found. Visits self.now.table.now (message self.now) depth entry
            place (at_of state.old) (at_of state.new) (state.new.steps - state.old.steps) found) }
        ensures fine { IfOk result (VisitFine self.now.table.now (message self.now) depth
            in_envelope entry) }
        ensures fault_is_true { IfErr result (Breaks (declarations_of self.now.table.now)
            (message self.now) depth (resolve (declarations_of self.now.table.now).terms
            (ty.named entry)) place (at_of state.old)) }
        ensures spends { Spends state.old.steps state.new.steps 0 (1 + probes + (length
            (came self.now) - state.old.next)) }
    {
        let e = self.entry(entry);
        let Some(kind) = EntryKind::from_number(e.kind) else {
            unreachable!()
        };
        match kind {
            EntryKind::Struct => Ok(Some(struct_frame(&e, place, depth, in_envelope))),
            EntryKind::Array => {
                let size = self.entry(e.first).size as usize;
                let left = Remaining::Elements {
                    entry: e.first,
                    size: size as u32,
                    count: e.count,
                };
                Ok(Some(Frame {
                    left,
                    base: place as u32,
                    done: 0,
                    size: e.size,
                    nest: e.nest,
                    depth,
                    in_envelope,
                }))
            }
            EntryKind::Box => self.read_box(entry, place, depth, state),
            EntryKind::Vector => self.read_vector(entry, place, depth, state),
            EntryKind::Table => self.read_table(entry, place, depth, state),
            EntryKind::Union => self.read_union(entry, place, depth, state),
            _ => {
                self.read_leaf(entry, kind, place, depth, state)?;
                Ok(None)
            }
        }
    }
}
