//! Elements of a vector or array that are structs of numbers.
ghost use Rattle.std.specs.Prelude.{◌≡◌, ℕ, ◌+◌, ◌-◌, ◌^◌, ◌<◌, ◌≤◌, IfOk, IfErr, IsTrue, IsFalse};
ghost use Rattle.std.specs.Prelude.{Some, None, length, slice_index};
ghost use Rattle.fidl_limits.specs.declared.limits.TheConstants.{MAX_MESSAGE_BYTES};
ghost use Rattle.fidl_table_format.specs.declared.kind.EntryKind.TheVariants as kinds;
ghost use Rattle.fidl_table_format.specs.Kind.{kind_of};
ghost use Rattle.fidl_table_format.specs.Section.{header_of, entry_at};
ghost use Rattle.fidl_decode_model.specs.Invariants.{IsFine};
ghost use Rattle.fidl_decode_model.specs.Fine.{fine_prop};
ghost use Rattle.fidl_decode_model.specs.Faults.{message_of};
ghost use Rattle.fidl_decode_model.specs.declared.frame.Remaining.TheVariants as left;
ghost use Rattle.fidl_decode_model.specs.Machine.{StateFine, FrameFine, BreaksFrame, Turns};
ghost use Rattle.fidl_decode_model.specs.Machine.{frame_work};
ghost use Rattle.fidl_decode_model.specs.State.{Position};
ghost use Rattle.fidl_links.specs.Links.{AreFree};

use crate::structs::Structs;
use crate::zeros::zeros_at;
use fidl_decode_model::DecodeFault;
use fidl_decode_model::frame::Frame;
use fidl_links::Links;
use fidl_verify::Table;
use fidl_wire::HandleInfo;

/// What is read and never changes: a verified table, and a message within the limit of bytes, with
/// the links in it.
#[derive(Clone, Copy)]
pub struct Columns<'t, 'a, 'm, 's> {
    pub table: &'t Table<'t>,
    pub links: &'a Links<'m, 's>,
    pub handles: &'m [HandleInfo],
    ghost octets: { (i : ℕ) → slice_index links.now.came i < 256 },
    ghost fine: { IsFine table.now } by { fine_prop table.now },
    ghost short: { length links.now.came ≤ MAX_MESSAGE_BYTES },
}

impl<'t, 'a, 'm, 's> Columns<'t, 'a, 'm, 's> {
    /// Checks the structs that a frame begins with, and the zeros behind them, where all members of
    /// such a struct are numbers: one member of all structs after the other. Where one member is no
    /// number, nothing is read.
    pub fn check_structs(
        &self,
        frame: Frame,
        entry: u32,
        size: usize,
        count: u32,
        steps: &mut u64,
    ) -> Result<bool, DecodeFault>
        requires left { frame.left ≡ left.Elements entry size count }
        requires some { 0 < count }
        requires entry { entry < (header_of self.now.table.now).entries }
        requires kind { kind_of (entry_at self.now.table.now entry).kind ≡ Some kinds.Struct }
        requires frame { FrameFine self.now.table.now self.now.links.now.came frame }
        requires free { AreFree self.now.links.now (frame.base + frame.done)
            (frame.base + frame.size) }
        requires budget { steps.old + frame_work frame < 2 ^ 40 }
        ensures ok { let m = message_of self.now.links.now.came self.now.handles.now in
            IfOk result (λ all. IsTrue all → (at : Position) → StateFine m at
            → Turns self.now.table.now m frame at at (steps.new - steps.old)
            (record { below = None; rest = None })) }
        ensures rises { IfOk result (λ all. IsTrue all → steps.old < steps.new) }
        ensures kept { IfOk result (λ all. IsFalse all → steps.new ≡ steps.old) }
        ensures cost { steps.new ≤ steps.old + frame_work frame }
        ensures fault_is_true { let m = message_of self.now.links.now.came self.now.handles.now in
            IfErr result (λ fault. (at : Position) → StateFine m at
            → BreaksFrame self.now.table.now m frame at fault) }
    {
        let e = self.table.entry(entry);
        if !self.are_numbers(e.first, e.count) {
            return Ok(false);
        }
        let structs = Structs {
            entry: e,
            count,
            base: frame.base as usize + frame.done as usize,
            depth: frame.depth,
            in_envelope: frame.in_envelope,
        };
        if let Some(wrong) = self.check_rows(&structs, steps) {
            return Err(wrong.fault);
        }
        let behind = structs.base + size * count as usize;
        let stop = frame.base as usize + frame.size as usize;
        *steps += u64::from(count) + (stop - behind) as u64 + 1;
        zeros_at(self.links.raw(), behind, stop)?;
        Ok(true)
    }
}
