//! Structs that stand behind one another, checked row after row.
ghost use Rattle.std.specs.Prelude.{◌≡◌, ℕ, ◌+◌, ◌-◌, ◌*◌, ◌^◌, ◌<◌, ◌≤◌, Some, None, IfNone};
ghost use Rattle.std.specs.Prelude.{length};
ghost use Rattle.fidl_wire.specs.Encoding.{zeros};
ghost use Rattle.fidl_wire.specs.Standing.{Stands};
ghost use Rattle.fidl_table_format.specs.declared.kind.EntryKind.{EntryKind};
ghost use Rattle.fidl_table_format.specs.Kind.{kind_of};
ghost use Rattle.fidl_table_format.specs.Section.{header_of, entry_at, row_at};
ghost use Rattle.fidl_table_format.specs.Terms.{declarations_of, term_as};
ghost use Rattle.fidl_decode_model.specs.Breaks.{IsPadding, BreaksField};
ghost use Rattle.fidl_decode_model.specs.Rows.{table_rows, RowsRise};
ghost use Rattle.fidl_decode_model.specs.Faults.{message_of};
ghost use Rattle.fidl_links.specs.Links.{AreFree};
ghost use Rattle.fidl_decode_columns.specs.Columns.{IsNumericAt, AreNumbers, StructsFine};
ghost use Rattle.fidl_decode_columns.specs.Columns.{IsFirstWrong, IsReadTo, IsRead, IsBroken};
ghost use Rattle.fidl_decode_columns.specs.Columns.{right_before, first_of, Narrows, IsGoodAt};
ghost use Rattle.fidl_decode_columns.specs.Columns.{IsWindow};

use crate::column::{Column, Wrong};
use crate::columns::Columns;
use crate::window::Window;
use fidl_table_format::{Entry, EntryKind, Row};

/// Structs of one entry that stand behind one another in a frame.
#[derive(Clone, Copy, Drop)]
pub(crate) struct Structs {
    pub entry: Entry,
    pub count: u32,
    /// Where the first begins.
    pub base: usize,
    pub depth: u8,
    pub in_envelope: u8,
}

/// How many of so many structs come before the first that is wrong.
fn right_before(count: u32, wrong: Option<Wrong>) -> u32
    ensures { result ≡ right_before count wrong }
{
    match wrong {
        None => count,
        Some(known) => known.element,
    }
}

/// The first wrong struct, where one may have been found among those before the one that was known.
fn first_of(known: Option<Wrong>, found: Option<Wrong>) -> Option<Wrong>
    ensures { result ≡ first_of known found }
{
    match found {
        None => known,
        Some(earlier) => Some(earlier),
    }
}

impl<'t, 'a, 'm, 's> Columns<'t, 'a, 'm, 's> {
    /// Checks the zeros between two places of each struct before the one that is known to be wrong.
    fn check_gap(
        &self,
        structs: &Structs,
        from: usize,
        to: usize,
        known: Option<Wrong>,
        window: &mut Window,
        steps: &mut u64,
    ) -> Option<Wrong>
        requires order { from ≤ to }
        requires end { to ≤ structs.now.entry.size }
        requires within { structs.now.base + structs.now.entry.size * structs.now.count
            ≤ length self.now.links.now.came }
        requires free { AreFree self.now.links.now structs.now.base
            (structs.now.base + structs.now.entry.size * structs.now.count) }
        requires known { right_before structs.now.count known ≤ structs.now.count }
        requires window { IsWindow self.now.links.now.came structs.now.base
            structs.now.entry.size window.old }
        requires budget { steps.old < 2 ^ 43 }
        ensures window { IsWindow self.now.links.now.came structs.now.base
            structs.now.entry.size window.new }
        ensures value { let at = λ (k : ℕ). structs.now.base + structs.now.entry.size * k + from in
            Narrows (λ k. Stands self.now.links.now.came (at k) (zeros (to - from)))
            (λ k. IsPadding self.now.links.now.came (at k) (at k + (to - from)))
            structs.now.count known result }
        ensures grows { steps.old ≤ steps.new }
        ensures cost { steps.new ≤ steps.old + structs.now.count * (to - from) }
    {
        let limit = right_before(structs.count, known);
        let width = to - from;
        *steps += u64::from(limit) * width as u64;
        let column = Column {
            base: structs.base,
            size: structs.entry.size as usize,
            offset: from,
        };
        if self.are_seen_zeros(column, width, limit, window) {
            return known;
        }
        first_of(known, self.first_gap(column, width, limit))
    }

    /// Checks the member with this row of each struct before the one that is known to be wrong.
    fn check_member(
        &self,
        structs: &Structs,
        row: &Row,
        known: Option<Wrong>,
        window: &mut Window,
        steps: &mut u64,
    ) -> Option<Wrong>
        requires entry { row.now.entry < (header_of self.now.table.now).entries }
        requires numeric { IsNumericAt self.now.table.now row.now.entry }
        requires end { row.now.key + (entry_at self.now.table.now row.now.entry).size
            ≤ structs.now.entry.size }
        requires within { structs.now.base + structs.now.entry.size * structs.now.count
            ≤ length self.now.links.now.came }
        requires free { AreFree self.now.links.now structs.now.base
            (structs.now.base + structs.now.entry.size * structs.now.count) }
        requires known { right_before structs.now.count known ≤ structs.now.count }
        requires window { IsWindow self.now.links.now.came structs.now.base
            structs.now.entry.size window.old }
        requires budget { steps.old < 2 ^ 41 }
        ensures window { IsWindow self.now.links.now.came structs.now.base
            structs.now.entry.size window.new }
        ensures value { let at = λ (k : ℕ). structs.now.base + structs.now.entry.size * k
            + row.now.key in
            let t = self.now.table.now in
            let e = entry_at t row.now.entry in
            (kind : EntryKind) × (kind_of e.kind ≡ Some kind)
            × Narrows (λ k. IsGoodAt t self.now.links.now.came e kind (at k))
            (λ k. BreaksField (message_of self.now.links.now.came self.now.handles.now)
            (term_as kind t (header_of t) e) (at k)) structs.now.count known result }
        ensures least { IfNone result (steps.old + structs.now.count ≤ steps.new) }
        ensures grows { steps.old ≤ steps.new }
        ensures cost { steps.new ≤ steps.old + 17 * structs.now.count }
    {
        let Some(kind) = EntryKind::from_number(self.table.entry(row.entry).kind) else {
            unreachable!()
        };
        let limit = right_before(structs.count, known);
        *steps += u64::from(limit);
        let column = Column {
            base: structs.base,
            size: structs.entry.size as usize,
            offset: row.key as usize,
        };
        if self.are_seen_good(column, row.entry, kind, limit, window) {
            return known;
        }
        first_of(
            known,
            self.first_wrong(column, row.entry, kind, limit, steps),
        )
    }

    /// Checks a row of each struct before the one that is known to be wrong: the zeros before the
    /// member, and the member.
    fn check_row(
        &self,
        structs: &Structs,
        index: u32,
        done: usize,
        known: Option<Wrong>,
        window: &mut Window,
        steps: &mut u64,
    ) -> Option<Wrong>
        requires structs { StructsFine self.now.table.now self.now.links.now.came structs.now }
        requires free { AreFree self.now.links.now structs.now.base
            (structs.now.base + structs.now.entry.size * structs.now.count) }
        requires index { structs.now.entry.first ≤ index }
        requires below { index < structs.now.entry.first + structs.now.entry.count }
        requires rise { let t = self.now.table.now in
            RowsRise (declarations_of t) (header_of t).entries structs.now.entry.nest
            structs.now.entry.size done
            (table_rows t (header_of t) index
            (structs.now.entry.first + structs.now.entry.count - index)) }
        requires numeric { let t = self.now.table.now in
            IsNumericAt t (row_at t (header_of t) index).entry }
        requires known { let m = message_of self.now.links.now.came self.now.handles.now in
            IsFirstWrong (IsReadTo self.now.table.now m structs.now index done)
            (IsBroken self.now.table.now m structs.now) structs.now.count known }
        requires window { IsWindow self.now.links.now.came structs.now.base
            structs.now.entry.size window.old }
        requires budget { steps.old < 2 ^ 40 + 2 ^ 39 }
        ensures window { IsWindow self.now.links.now.came structs.now.base
            structs.now.entry.size window.new }
        ensures value { let t = self.now.table.now in
            let m = message_of self.now.links.now.came self.now.handles.now in
            let r = row_at t (header_of t) index in
            IsFirstWrong (IsReadTo t m structs.now (index + 1)
            (r.key + (entry_at t r.entry).size))
            (IsBroken t m structs.now) structs.now.count result }
        ensures least { IfNone result
            ((known ≡ None) × (steps.old + structs.now.count ≤ steps.new)) }
        ensures grows { steps.old ≤ steps.new }
        ensures cost { let t = self.now.table.now in
            steps.new ≤ steps.old + structs.now.count
            * ((row_at t (header_of t) index).key - done) + 17 * structs.now.count }
    {
        let row = self.table.row(index);
        let front = self.check_gap(structs, done, row.key as usize, known, window, steps);
        self.check_member(structs, &row, front, window, steps)
    }

    /// Checks each row of structs. The first struct that is wrong has the fault of its first wrong
    /// row.
    pub(crate) fn check_rows(&self, structs: &Structs, steps: &mut u64) -> Option<Wrong>
        requires structs { StructsFine self.now.table.now self.now.links.now.came structs.now }
        requires free { AreFree self.now.links.now structs.now.base
            (structs.now.base + structs.now.entry.size * structs.now.count) }
        requires rows { structs.now.entry.first + structs.now.entry.count
            ≤ (header_of self.now.table.now).rows }
        requires numbers { AreNumbers self.now.table.now structs.now.entry.first
            structs.now.entry.count }
        requires budget { steps.old < 2 ^ 40 }
        ensures value { let m = message_of self.now.links.now.came self.now.handles.now in
            IsFirstWrong (IsRead self.now.table.now m structs.now)
            (IsBroken self.now.table.now m structs.now) structs.now.count result }
        ensures least { IfNone result
            (steps.old + structs.now.count * structs.now.entry.count ≤ steps.new) }
        ensures grows { steps.old ≤ steps.new }
        ensures cost { steps.new
            ≤ steps.old + 17 * (structs.now.count * structs.now.entry.size) }
    {
        // Read, so that the number of rows, and with it each row's, is known to have 32 bits.
        let _rows = self.table.rows();
        let first = structs.entry.first;
        let end = first + structs.entry.count;
        let mut done = 0;
        let mut wrong = None;
        let mut window = Window {
            start: 0,
            seen: 0,
            count: 0,
        };
        for i in first..end {
            wrong = self.check_row(structs, i, done, wrong, &mut window, steps);
            let row = self.table.row(i);
            done = row.key as usize + self.table.entry(row.entry).size as usize;
        }
        self.check_gap(
            structs,
            done,
            structs.entry.size as usize,
            wrong,
            &mut window,
            steps,
        )
    }
}
