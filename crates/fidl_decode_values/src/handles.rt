//! Handles: a marker of four bytes, and the next of the records that came.
ghost use Rattle.std.specs.Prelude.{◌≡◌, ◌+◌, ◌<◌, ◌≤◌, ◌↔◌, OnOk, IfErr, IsTrue, length};
ghost use Rattle.fidl_limits.specs.declared.limits.TheConstants.{MAX_DEPTH};
ghost use Rattle.fidl_wire.specs.Term as ty;
ghost use Rattle.fidl_wire.specs.Typed.{IsHandle, IsAllowed};
ghost use Rattle.fidl_table_format.specs.Terms.{declarations_of, is_optional};
ghost use Rattle.fidl_decode_model.specs.Breaks.{BreaksHandle};
ghost use Rattle.fidl_decode_model.specs.Machine.{StateFine, Leads, at_of};
ghost use Rattle.fidl_decode_values.specs.Reading.{came, message, Holds};
ghost use Rattle.fidl_decode_values.specs.Ready.{CanReadPlace};

use crate::decoder::Decoder;
use fidl_decode_model::DecodeFault;
use fidl_decode_model::frame::State;
use fidl_table_format::Entry;
use fidl_wire::{HandleInfo, Presence, SAME_RIGHTS};

/// Whether values of the entry can be absent.
pub(crate) fn is_optional(entry: &Entry) -> bool
    ensures { result ≡ is_optional entry.now }
{
    entry.flags % 2 == 1
}

/// Whether a record is allowed by a handle type: a subtype of 0 takes any object.
fn is_allowed(subtype: u32, rights: u32, info: HandleInfo) -> bool
    ensures handle { IsHandle info }
    ensures allowed { IsTrue result ↔ IsAllowed subtype rights info }
{
    let of_type = info.object_type == subtype || subtype == 0;
    let has_rights = info.rights & rights == rights || rights == SAME_RIGHTS;
    of_type && has_rights
}

impl<'t, 'm, 's> Decoder<'t, 'm, 's> {
    /// Reads a handle at a place: its marker, and the next record, which is noted.
    pub(crate) fn read_handle(
        &self,
        entry: &Entry,
        place: usize,
        depth: u8,
        state: &mut State<'_, '_>,
    ) -> Result<(), DecodeFault>
        requires room { place + 4 ≤ length (came self.now) }
        requires depth { depth ≤ MAX_DEPTH }
        requires holds { Holds self.now state.old }
        requires state { StateFine (message self.now) (at_of state.old) }
        requires ready { CanReadPlace self.now state.old place 4 4 }
        ensures holds { Holds self.now state.new }
        ensures ok { OnOk result (Leads (declarations_of self.now.table.now) (message self.now)
            depth (ty.handle (is_optional entry.now) entry.now.subtype entry.now.rights) place
            (at_of state.old) (at_of state.new)) }
        ensures fault_is_true { IfErr result (BreaksHandle (message self.now)
            (is_optional entry.now) entry.now.subtype entry.now.rights place state.old.handle) }
        ensures state { OnOk result (StateFine (message self.now) (at_of state.new)) }
        ensures next { state.new.next ≡ state.old.next }
        ensures steps { state.new.steps ≡ state.old.steps }
    {
        match self.presence_at(place, state) {
            Presence::Absent => {
                if !is_optional(entry) {
                    return Err(DecodeFault::AbsentRequired { at: place });
                }
                Ok(())
            }
            Presence::Neither => Err(DecodeFault::BadMarker { at: place }),
            Presence::Present => {
                if state.handle == self.handles.len() {
                    return Err(DecodeFault::HandleMissing { at: place });
                }
                let info = self.handles[state.handle];
                if !is_allowed(entry.subtype, entry.rights, info) {
                    return Err(DecodeFault::WrongHandle { at: place });
                }
                state.links.link_handle(place, state.handle);
                state.handle += 1;
                Ok(())
            }
        }
    }
}
