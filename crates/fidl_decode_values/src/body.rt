//! The envelopes that a table's value begins with, which are read where they stand: absent ones, and
//! those of numbers, bools, texts and structs of numbers.
ghost use Rattle.std.specs.Prelude.{◌≡◌, ◌+◌, ◌-◌, ◌*◌, ◌^◌, ◌<◌, ◌≤◌, IsTrue, IsFalse, Some, None};
ghost use Rattle.fidl_table_format.specs.declared.kind.EntryKind.TheVariants as kinds;
ghost use Rattle.fidl_wire.specs.Term as ty;
ghost use Rattle.fidl_wire.specs.Term.{find};
ghost use Rattle.fidl_table_format.specs.Kind.{kind_of};
ghost use Rattle.fidl_table_format.specs.Section.{header_of, entry_at, row_at};
ghost use Rattle.fidl_table_format.specs.Terms.{members_of};
ghost use Rattle.fidl_decode_values.specs.Body.{BodyFine, IsNext, IsPassing, rest_of, envelopes_of};
ghost use Rattle.fidl_decode_values.specs.Body.{envelopes_behind};
ghost use Rattle.fidl_decode_model.specs.Machine.{StateFine, FrameFine, Turns, at_of};
ghost use Rattle.fidl_decode_values.specs.Reading.{came, message, Holds};
ghost use Rattle.fidl_decode_values.specs.Ready.{CanReadFrame};

use crate::decoder::Decoder;
use fidl_decode_model::frame::State;
use fidl_table_format::{EntryKind, Row, read_entry, row_from};

/// The envelopes of a table's value, and the rows that its entry has.
#[derive(Clone, Copy, Drop)]
pub(crate) struct TableBody<'t> {
    /// The bytes of the coding table.
    pub table: &'t [u8],
    /// The entry, where the first of its rows stands in these bytes, and how many of them are looked
    /// at.
    pub entry: u32,
    pub rows: usize,
    pub known: u32,
    /// Where the first envelope stands, and how many envelopes there are.
    pub base: usize,
    pub count: u32,
    pub depth: u8,
}

/// How far the envelopes are read: how many are, and where the row of the next stands in the table
/// where no ordinal below it is missing, in bytes.
#[derive(Clone, Copy, Drop)]
pub(crate) struct Cursor {
    pub read: u32,
    pub row: usize,
}

/// How numbers of one type are passed over.
#[derive(Clone, Copy, Drop)]
pub(crate) enum Passing {
    /// They stand in their envelopes, and have four bytes that may be any.
    Inside,
    /// They are the next objects, and have eight bytes that may be any.
    Below,
}

impl<'t> TableBody<'t> {
    /// The row of the next envelope, where no ordinal below it is missing.
    #[inline(always)]
    fn row(&self, at: Cursor) -> Row
        requires body { BodyFine self.now.table.now self.now }
        requires more { at.read < self.now.known }
        requires at { IsNext self.now at }
        ensures value { let t = self.now.table.now in
            result ≡ row_at t (header_of t) ((entry_at t self.now.entry).first + at.read) }
        ensures entry { result.entry < (header_of self.now.table.now).entries }
    {
        row_from(self.table, at.row)
    }

    /// The cursor behind the next envelope.
    #[inline(always)]
    fn behind(&self, at: Cursor) -> Cursor
        requires body { BodyFine self.now.table.now self.now }
        requires more { at.read < self.now.known }
        requires at { IsNext self.now at }
        ensures read { result.read ≡ at.read + 1 }
        ensures at { IsNext self.now result }
    {
        Cursor {
            read: at.read + 1,
            row: at.row + 16,
        }
    }

    /// The number of an entry's kind.
    #[inline(always)]
    fn kind_of(&self, entry: u32) -> u8
        requires body { BodyFine self.now.table.now self.now }
        requires entry { entry < (header_of self.now.table.now).entries }
        ensures { result ≡ (entry_at self.now.table.now entry).kind }
    {
        read_entry(self.table, entry).kind
    }
}

impl<'t, 'm, 's> Decoder<'t, 'm, 's> {
    /// The envelopes of a value of a table entry, so many of them from a place on.
    #[inline(always)]
    pub(crate) fn body_of(&self, entry: u32, base: usize, count: u32, depth: u8) -> TableBody<'t>
        requires entry { entry < (header_of self.now.table.now).entries }
        requires kind { kind_of (entry_at self.now.table.now entry).kind ≡ Some kinds.Table }
        ensures fine { BodyFine self.now.table.now result }
        ensures entry { result.entry ≡ entry }
        ensures base { result.base ≡ base }
        ensures count { result.count ≡ count }
        ensures depth { result.depth ≡ depth }
    {
        let parts = self.entry(entry);
        TableBody {
            table: self.coding,
            entry,
            rows: self.rows + 16 * parts.first as usize,
            known: count.min(parts.count),
            base,
            count,
            depth,
        }
    }

    /// Passes over the next envelope, where its member is one of this entry. Else nothing is read.
    /// The step that this takes is not counted yet.
    #[inline(always)]
    fn pass_next(
        &self,
        body: &TableBody<'_>,
        at: Cursor,
        entry: u32,
        how: Passing,
        state: &mut State<'_, '_>,
    ) -> bool
        requires body { BodyFine self.now.table.now body.now }
        requires more { at.read < body.now.known }
        requires at { IsNext body.now at }
        requires entry { entry < (header_of self.now.table.now).entries }
        requires how { IsPassing self.now.table.now entry how }
        requires frame { FrameFine self.now.table.now (came self.now) (rest_of body.now at.read) }
        requires holds { Holds self.now state.old }
        requires state { StateFine (message self.now) (at_of state.old) }
        requires ready { CanReadFrame self.now state.old (rest_of body.now at.read) }
        requires budget { state.old.steps < 2 ^ 43 }
        ensures holds { Holds self.now state.new }
        ensures passed { IsTrue result → Turns self.now.table.now
            (message self.now) (rest_of body.now at.read)
            (at_of state.old) (at_of state.new) (state.new.steps + 1 - state.old.steps)
            (record { below = None; rest = Some (rest_of body.now (at.read + 1)) }) }
        ensures kept { IsFalse result → at_of state.new ≡ at_of state.old }
        ensures grows { state.old.steps ≤ state.new.steps }
        ensures pays { state.new.steps + state.old.next ≤ state.old.steps + state.new.next }
    {
        let row = body.row(at);
        if row.entry != entry || row.key != at.read + 1 {
            return false;
        }
        let place = body.base + 8 * at.read as usize;
        match how {
            Passing::Inside => self.pass_inside(entry, 4, place, body.depth, state),
            Passing::Below => self.pass_below(entry, place, body.depth, state),
        }
    }

    /// Passes over the next envelopes, as long as their members are of this entry, and answers how
    /// far they are read then. The steps, one for each, are not counted yet.
    #[inline(always)]
    fn pass_run(
        &self,
        body: &TableBody<'_>,
        from: Cursor,
        entry: u32,
        how: Passing,
        state: &mut State<'_, '_>,
    ) -> Cursor
        requires body { BodyFine self.now.table.now body.now }
        requires more { from.read ≤ body.now.known }
        requires at { IsNext body.now from }
        requires entry { entry < (header_of self.now.table.now).entries }
        requires how { IsPassing self.now.table.now entry how }
        requires frame { FrameFine self.now.table.now (came self.now) (rest_of body.now from.read) }
        requires holds { Holds self.now state.old }
        requires state { StateFine (message self.now) (at_of state.old) }
        requires ready { CanReadFrame self.now state.old (rest_of body.now from.read) }
        requires budget { state.old.steps < 2 ^ 42 }
        ensures holds { Holds self.now state.new }
        ensures turns { Turns self.now.table.now
            (message self.now) (rest_of body.now from.read)
            (at_of state.old) (at_of state.new)
            (state.new.steps + (result.read - from.read) - state.old.steps)
            (record { below = None; rest = Some (rest_of body.now result.read) }) }
        ensures order { from.read ≤ result.read }
        ensures few { result.read ≤ body.now.known }
        ensures at { IsNext body.now result }
        ensures grows { state.old.steps ≤ state.new.steps }
        ensures pays { state.new.steps + state.old.next ≤ state.old.steps + state.new.next }
    {
        let mut at = from;
        while at.read != body.known && self.pass_next(body, at, entry, how, state) {
            at = body.behind(at);
        }
        at
    }

    /// Passes over the next envelope, whose member is of this entry and kind, and answers how far
    /// they are read then. The step that this takes is not counted yet.
    #[inline(always)]
    fn pass_one(
        &self,
        body: &TableBody<'_>,
        from: Cursor,
        entry: u32,
        kind: EntryKind,
        state: &mut State<'_, '_>,
    ) -> Cursor
        requires body { BodyFine self.now.table.now body.now }
        requires more { from.read < body.now.known }
        requires at { IsNext body.now from }
        requires found { find (members_of self.now.table.now body.now.entry) (from.read + 1)
            ≡ Some (ty.named entry) }
        requires entry { entry < (header_of self.now.table.now).entries }
        requires kind { kind_of (entry_at self.now.table.now entry).kind ≡ Some kind }
        requires frame { FrameFine self.now.table.now (came self.now) (rest_of body.now from.read) }
        requires holds { Holds self.now state.old }
        requires state { StateFine (message self.now) (at_of state.old) }
        requires ready { CanReadFrame self.now state.old (rest_of body.now from.read) }
        requires budget { state.old.steps < 2 ^ 42 }
        ensures holds { Holds self.now state.new }
        ensures turns { Turns self.now.table.now
            (message self.now) (rest_of body.now from.read)
            (at_of state.old) (at_of state.new)
            (state.new.steps + (result.read - from.read) - state.old.steps)
            (record { below = None; rest = Some (rest_of body.now result.read) }) }
        ensures order { from.read ≤ result.read }
        ensures few { result.read ≤ body.now.known }
        ensures at { IsNext body.now result }
        ensures grows { state.old.steps ≤ state.new.steps }
        ensures pays { state.new.steps + state.old.next ≤ state.old.steps + state.new.next }
    {
        let place = body.base + 8 * from.read as usize;
        if self.pass_kind(entry, kind, place, body.depth, state) {
            return body.behind(from);
        }
        from
    }

    /// Passes over the next envelopes with members of one entry, and answers how far they are read
    /// then. The steps, one for each, are not counted yet.
    #[inline(always)]
    fn pass_alike(&self, body: &TableBody<'_>, from: Cursor, state: &mut State<'_, '_>) -> Cursor
        requires body { BodyFine self.now.table.now body.now }
        requires more { from.read < body.now.known }
        requires at { IsNext body.now from }
        requires frame { FrameFine self.now.table.now (came self.now) (rest_of body.now from.read) }
        requires holds { Holds self.now state.old }
        requires state { StateFine (message self.now) (at_of state.old) }
        requires ready { CanReadFrame self.now state.old (rest_of body.now from.read) }
        requires budget { state.old.steps < 2 ^ 42 }
        ensures holds { Holds self.now state.new }
        ensures turns { Turns self.now.table.now
            (message self.now) (rest_of body.now from.read)
            (at_of state.old) (at_of state.new)
            (state.new.steps + (result.read - from.read) - state.old.steps)
            (record { below = None; rest = Some (rest_of body.now result.read) }) }
        ensures order { from.read ≤ result.read }
        ensures few { result.read ≤ body.now.known }
        ensures at { IsNext body.now result }
        ensures grows { state.old.steps ≤ state.new.steps }
        ensures pays { state.new.steps + state.old.next ≤ state.old.steps + state.new.next }
    {
        let row = body.row(from);
        if row.key != from.read + 1 {
            return from;
        }
        let entry = row.entry;
        let Some(kind) = EntryKind::from_number(body.kind_of(entry)) else {
            unreachable!()
        };
        match kind {
            EntryKind::Int32 | EntryKind::Uint32 => {
                self.pass_run(body, from, entry, Passing::Inside, state)
            }
            EntryKind::Int64 | EntryKind::Uint64 => {
                self.pass_run(body, from, entry, Passing::Below, state)
            }
            _ => self.pass_one(body, from, entry, kind, state),
        }
    }

    /// Passes over the next envelopes: one that is absent, or those with members of one entry;
    /// answers how far they are read then. The steps, one for each, are not counted yet.
    #[inline(always)]
    fn pass_some(&self, body: &TableBody<'_>, from: Cursor, state: &mut State<'_, '_>) -> Cursor
        requires body { BodyFine self.now.table.now body.now }
        requires more { from.read < body.now.known }
        requires at { IsNext body.now from }
        requires frame { FrameFine self.now.table.now (came self.now) (rest_of body.now from.read) }
        requires holds { Holds self.now state.old }
        requires state { StateFine (message self.now) (at_of state.old) }
        requires ready { CanReadFrame self.now state.old (rest_of body.now from.read) }
        requires budget { state.old.steps < 2 ^ 42 }
        ensures holds { Holds self.now state.new }
        ensures turns { Turns self.now.table.now
            (message self.now) (rest_of body.now from.read)
            (at_of state.old) (at_of state.new)
            (state.new.steps + (result.read - from.read) - state.old.steps)
            (record { below = None; rest = Some (rest_of body.now result.read) }) }
        ensures order { from.read ≤ result.read }
        ensures few { result.read ≤ body.now.known }
        ensures at { IsNext body.now result }
        ensures grows { state.old.steps ≤ state.new.steps }
        ensures pays { state.new.steps + state.old.next ≤ state.old.steps + state.new.next }
    {
        if self.is_absent(body.base + 8 * from.read as usize, state) {
            return body.behind(from);
        }
        self.pass_alike(body, from, state)
    }

    /// Passes over the first envelopes of a table's value, and answers how many are read then.
    #[inline(always)]
    fn pass_body(&self, body: &TableBody<'_>, state: &mut State<'_, '_>) -> u32
        requires body { BodyFine self.now.table.now body.now }
        requires frame { FrameFine self.now.table.now (came self.now) (rest_of body.now 0) }
        requires holds { Holds self.now state.old }
        requires state { StateFine (message self.now) (at_of state.old) }
        requires ready { CanReadFrame self.now state.old (rest_of body.now 0) }
        requires budget { state.old.steps < 2 ^ 41 }
        ensures holds { Holds self.now state.new }
        ensures turns { Turns self.now.table.now
            (message self.now) (rest_of body.now 0)
            (at_of state.old) (at_of state.new) (state.new.steps - state.old.steps)
            (record { below = None; rest = Some (rest_of body.now result) }) }
        ensures few { result ≤ body.now.known }
        ensures grows { state.old.steps ≤ state.new.steps }
        ensures pays { state.new.steps + state.old.next
            ≤ state.old.steps + result + state.new.next }
    {
        // A copy, so that writing a link is known to leave it.
        let own = *body;
        let mut at = Cursor {
            read: 0,
            row: own.rows,
        };
        while at.read != own.known {
            let next = self.pass_some(&own, at, state);
            if next.read == at.read {
                break;
            }
            at = next;
        }
        state.steps += u64::from(at.read);
        at.read
    }

    /// Passes over the first of so many envelopes of a value of a table entry, from a place on, and
    /// answers how many are read then.
    #[inline(never)]
    pub(crate) fn pass_front(
        &self,
        entry: u32,
        base: usize,
        count: u32,
        depth: u8,
        state: &mut State<'_, '_>,
    ) -> u32
        requires entry { entry < (header_of self.now.table.now).entries }
        requires kind { kind_of (entry_at self.now.table.now entry).kind ≡ Some kinds.Table }
        requires frame { FrameFine self.now.table.now (came self.now)
            (envelopes_of entry base count depth) }
        requires holds { Holds self.now state.old }
        requires state { StateFine (message self.now) (at_of state.old) }
        requires ready { CanReadFrame self.now state.old (envelopes_of entry base count depth) }
        requires budget { state.old.steps < 2 ^ 41 }
        ensures holds { Holds self.now state.new }
        ensures turns { Turns self.now.table.now (message self.now)
            (envelopes_of entry base count depth) (at_of state.old) (at_of state.new)
            (state.new.steps - state.old.steps)
            (record {
              below = None;
              rest = Some (envelopes_behind entry base count depth result);
            }) }
        ensures few { result ≤ count }
        ensures grows { state.old.steps ≤ state.new.steps }
        ensures pays { state.new.steps + state.old.next
            ≤ state.old.steps + result + state.new.next }
    {
        let body = self.body_of(entry, base, count, depth);
        self.pass_body(&body, state)
    }
}
