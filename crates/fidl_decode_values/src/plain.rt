//! Numbers and bools that stand behind one another in a struct, without a gap: they need no more
//! than a look at their rows, and at the byte of a bool.
ghost use Rattle.std.specs.Prelude.{◌≡◌, ◌⊎◌, ◌+◌, ◌-◌, ◌^◌, ◌<◌, ◌≤◌, ℕ, IfSome, IsTrue, Some};
ghost use Rattle.std.specs.Prelude.{None, true, length};
ghost use Rattle.std.proofs.Props.{props};
ghost use Rattle.fidl_limits.specs.declared.limits.TheConstants.{MAX_DEPTH, MAX_MESSAGE_BYTES};
ghost use Rattle.fidl_table_format.specs.declared.kind.EntryKind.{EntryKind};
ghost use Rattle.fidl_table_format.specs.Kind.{kind_of};
ghost use Rattle.fidl_table_format.specs.Section.{header_of, entry_at};
ghost use Rattle.fidl_decode_model.specs.Invariants.{is_free};
ghost use Rattle.fidl_decode_model.specs.declared.frame.Remaining.TheVariants as left;
ghost use Rattle.fidl_decode_columns.specs.declared.kinds.TheConstants.{MOST_ROWS};
ghost use Rattle.fidl_decode_model.specs.State.{Position};
ghost use Rattle.fidl_decode_model.specs.Frontier.{AreFree};
ghost use Rattle.fidl_decode_model.specs.Machine.{StateFine, FrameFine, Visits, Turns, IsGood};
ghost use Rattle.fidl_decode_model.specs.Machine.{Passes, IsKnown, turn_work, at_of};
ghost use Rattle.fidl_decode_values.specs.Reading.{came, message, Holds};
ghost use Rattle.fidl_decode_values.specs.Ready.{CanReadFrame};

use crate::decoder::Decoder;
use fidl_decode_columns::{MOST_ROWS, is_free};
use fidl_decode_model::frame::{Frame, Remaining, State};
use fidl_table_format::{EntryKind, Row};

/// So many rows, but no more than are looked at.
fn few_rows(count: u32) -> u32
    ensures few { result ≤ count }
    ensures most { result ≤ MOST_ROWS }
{
    if count < MOST_ROWS { count } else { MOST_ROWS }
}

/// The rows of a struct before the first that has to be looked at closer: any bytes are values of
/// them, wherever the struct stands, but for one bool.
#[derive(Clone, Copy, Drop)]
pub struct Plain {
    /// How many rows these are, and how many bytes their members have.
    pub rows: u32,
    pub done: usize,
    /// The rows behind them: the first, and how many.
    pub first: u32,
    pub count: u32,
    /// How far behind the struct's start the bool among these stands, if there is one.
    pub flag: Option<u32>,
    ghost inside: { IfSome flag (λ k. k < done) } by { Prim.hlevel props },
}

/// A frame with so many rows left, from the first on, and so many of its bytes read.
#[inline(always)]
pub fn rows_from(frame: Frame, first: u32, count: u32, done: usize) -> Frame
    requires small { done ≤ MAX_MESSAGE_BYTES }
    ensures { result ≡ record {
      left = left.Rows first count;
      base = frame.base;
      done = done;
      size = frame.size;
      nest = frame.nest;
      depth = frame.depth;
      in_envelope = frame.in_envelope;
    } }
{
    Frame {
        left: Remaining::Rows { first, count },
        base: frame.base,
        done: done as u32,
        size: frame.size,
        nest: frame.nest,
        depth: frame.depth,
        in_envelope: frame.in_envelope,
    }
}

impl<'t, 'm, 's> Decoder<'t, 'm, 's> {
    /// Whether the member of a row stands this far behind its struct's start, and any bytes are its
    /// value.
    #[inline(always)]
    pub(crate) fn takes_any(&self, row: &Row, done: usize) -> bool
        requires row { row.now.entry < (header_of self.now.table.now).entries }
        ensures stands { IsTrue result → row.now.key ≡ done }
        ensures free { IsTrue result → (kind : EntryKind)
            × (kind_of (entry_at self.now.table.now row.now.entry).kind ≡ Some kind)
            × (is_free kind (entry_at self.now.table.now row.now.entry) ≡ true) }
    {
        if row.key as usize != done {
            return false;
        }
        let e = self.entry(row.entry);
        let Some(kind) = EntryKind::from_number(e.kind) else {
            unreachable!()
        };
        is_free(&e, kind)
    }

    /// The bool among the rows up to this one, where it can be passed over behind rows with this
    /// bool: its member stands this far behind its struct's start, and any bytes are its value, or
    /// it is the only bool.
    #[inline(always)]
    fn next_flag(&self, row: &Row, done: usize, flag: Option<u32>) -> Option<Option<u32>>
        requires row { row.now.entry < (header_of self.now.table.now).entries }
        ensures stands { IfSome result (λ next. row.now.key ≡ done) }
        ensures keeps { IfSome result (λ next. (base : ℕ) → IsGood (came self.now) base next →
            IsGood (came self.now) base flag) }
        ensures visits { IfSome result (λ next. (base depth : ℕ) → (s : Position) → depth ≤
            MAX_DEPTH → StateFine (message self.now) s → base + row.now.key + (entry_at
            self.now.table.now row.now.entry).size ≤ length (came self.now) → IsGood
            (came self.now) base next → Visits self.now.table.now (message self.now) depth
            row.now.entry (base + row.now.key) s s 0 None) }
        ensures inside { IfSome result (λ next. (end : ℕ) → row.now.key < end →
            IfSome flag (λ k. k < end) → IfSome next (λ k. k < end)) }
    {
        if self.takes_any(row, done) {
            return Some(flag);
        }
        if let Some(_) = flag {
            return None;
        }
        if done != row.key as usize {
            return None;
        }
        let e = self.entry(row.entry);
        match EntryKind::from_number(e.kind) {
            Some(EntryKind::Bool) => Some(Some(row.key)),
            _ => None,
        }
    }

    /// The first rows of a struct, `MOST_ROWS` at most, before the first that has to be looked at
    /// closer: numbers, and bits and enums that are not strict, and one bool, that stand behind one
    /// another without a gap.
    pub fn plain_rows(&self, first: u32, count: u32) -> Plain
        requires within { first + count ≤ (header_of self.now.table.now).rows }
        ensures few { result.rows ≤ count }
        ensures first { result.first ≡ first + result.rows }
        ensures count { result.rows + result.count ≡ count }
        ensures wide { result.rows ≤ result.done }
        ensures passes { Passes self.now.table.now (message self.now) (left.Rows first count)
            result.rows result.first result.count result.done result.flag }
    {
        let _rows = self.table.rows();
        let end = first + count;
        let few = few_rows(count);
        let stop = first + few;
        let mut done = 0;
        let mut flag = None;
        for i in first..stop {
            let row = self.row(i);
            let Some(next) = self.next_flag(&row, done, flag) else {
                return Plain {
                    rows: i - first,
                    done,
                    first: i,
                    count: end - i,
                    flag,
                };
            };
            flag = next;
            done = row.key as usize + self.entry(row.entry).size as usize;
        }
        Plain {
            rows: few,
            done,
            first: stop,
            count: count - few,
            flag,
        }
    }

    /// The same rows of the struct in the box that is the last of these rows; none where it is no
    /// box.
    pub fn plain_below(&self, first: u32, count: u32) -> Plain
        requires within { first + count ≤ (header_of self.now.table.now).rows }
        ensures known { IsKnown self.now.table.now (message self.now) result.rows result.first
            result.count result.done result.flag }
    {
        if count == 0 {
            return self.plain_rows(first, 0);
        }
        let _rows = self.table.rows();
        let row = self.row(first + (count - 1));
        let e = self.entry(row.entry);
        match EntryKind::from_number(e.kind) {
            Some(EntryKind::Box) => {
                let content = self.entry(e.first);
                self.plain_rows(content.first, content.count)
            }
            _ => self.plain_rows(first, 0),
        }
    }

    /// Whether the bool so far behind a struct's start, if there is one, is 0 or 1.
    #[inline(always)]
    fn is_good(&self, base: usize, flag: Option<u32>, state: &State<'_, '_>) -> bool
        requires holds { Holds self.now state.now }
        requires short { base ≤ MAX_MESSAGE_BYTES }
        requires free { IfSome flag (λ k. AreFree (at_of state.now) (base + k) (base + k + 1)) }
        ensures { IsTrue result → IsGood (came self.now) base flag }
    {
        let Some(offset) = flag else {
            return true;
        };
        let at = base + offset as usize;
        at < self.size && self.byte_at(at, state) <= 1
    }

    /// Passes over the first rows of a struct, which are known to take any bytes but for a bool.
    /// Where the bool is wrong, the frame is left as it is.
    #[inline(always)]
    pub fn pass_over(&self, frame: Frame, plain: &Plain, state: &mut State<'_, '_>) -> Frame
        requires frame { FrameFine self.now.table.now (came self.now) frame }
        requires start { frame.done ≡ 0 }
        requires passes { Passes self.now.table.now (message self.now) frame.left plain.now.rows
            plain.now.first plain.now.count plain.now.done plain.now.flag }
        requires holds { Holds self.now state.old }
        requires state { StateFine (message self.now) (at_of state.old) }
        requires ready { CanReadFrame self.now state.old frame }
        requires budget { state.old.steps + turn_work (came self.now) state.old.next frame < 2 ^ 40 }
        ensures holds { Holds self.now state.new }
        ensures turns { Turns self.now.table.now
            (message self.now) frame (at_of state.old)
            (at_of state.new) (state.new.steps - state.old.steps)
            (record { below = None; rest = Some result }) }
        ensures grows { state.old.steps ≤ state.new.steps }
        ensures left { (result.left ≡ frame.left)
            ⊎ (result.left ≡ left.Rows plain.now.first plain.now.count) }
    {
        if !self.is_good(frame.base as usize, plain.flag, state) {
            return frame;
        }
        state.steps += u64::from(plain.rows);
        rows_from(frame, plain.first, plain.count, plain.done)
    }

    /// Passes over the first rows of a struct, where they are those that are known.
    #[inline(always)]
    pub fn pass_known(&self, frame: Frame, known: &Plain, state: &mut State<'_, '_>) -> Frame
        requires frame { FrameFine self.now.table.now (came self.now) frame }
        requires known { IsKnown self.now.table.now (message self.now) known.now.rows
            known.now.first known.now.count known.now.done known.now.flag }
        requires holds { Holds self.now state.old }
        requires state { StateFine (message self.now) (at_of state.old) }
        requires ready { CanReadFrame self.now state.old frame }
        requires budget { state.old.steps + turn_work (came self.now) state.old.next frame < 2 ^ 40 }
        ensures holds { Holds self.now state.new }
        ensures turns { Turns self.now.table.now
            (message self.now) frame (at_of state.old)
            (at_of state.new) (state.new.steps - state.old.steps)
            (record { below = None; rest = Some result }) }
        ensures grows { state.old.steps ≤ state.new.steps }
    {
        let Remaining::Rows { first, count } = frame.left else {
            return frame;
        };
        if frame.done != 0 {
            return frame;
        }
        if u64::from(first) + u64::from(known.rows) != u64::from(known.first) {
            return frame;
        }
        if u64::from(known.rows) + u64::from(known.count) != u64::from(count) {
            return frame;
        }
        self.pass_over(frame, known, state)
    }
}
