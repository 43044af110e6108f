//! Which bytes of the names are known to be of a class, so that names that share bytes are not
//! looked at again for each of them.
ghost use Rattle.std.specs.Prelude.{◌≡◌, ◌≢◌, ◌↔◌, ◌+◌, ◌*◌, ◌<◌, ◌≤◌, length, slice_index, IsTrue};
ghost use Rattle.std.specs.Prelude.{IfSome, IfNone};
ghost use Rattle.std.specs.List.{list_all};
ghost use Rattle.fidl_verify.specs.Runs.{is_of, AreOf, AreRuns, AreSeen};

use crate::name::{are_name_bytes, are_word_bytes};
use crate::sections::Sections;

/// How many blocks the names have at the most.
const BLOCKS: u32 = 1024;

/// How many bytes are looked at without a look at the blocks.
const FEW_BYTES: u32 = 64;

/// Which bytes a name may have.
#[derive(Clone, Copy, Drop)]
pub(crate) enum Class {
    /// Letters, digits and `_`.
    Word,
    /// These, `.` and `/`.
    Name,
}

/// Where the bytes of a class that begin with a block are known to end. The names are cut into
/// blocks of one size, and 0 says that nothing is known of a block.
#[derive(Drop)]
pub(crate) struct Runs<'t> {
    names: &'t [u8],
    class: Class,
    block: u32,
    ends: [u32; 1024],
}

fn are_of(class: Class, bytes: &[u8]) -> bool
    ensures { result ≡ list_all (is_of class) bytes.now }
{
    match class {
        Class::Word => are_word_bytes(bytes),
        Class::Name => are_name_bytes(bytes),
    }
}

impl<'t> Runs<'t> {
    /// Runs of which nothing is known.
    pub(crate) fn new(names: &'t [u8], count: u32, class: Class) -> Runs<'t>
        ensures { AreRuns class names.now result }
    {
        Runs {
            names,
            class,
            block: count / BLOCKS + 1,
            ends: [0; 1024],
        }
    }

    /// Where the run of a block is known to end.
    fn end_of(&self, block: u32) -> u32
        ensures { result ≡ slice_index self.now.ends block }
    {
        match self.ends.get(block as usize) {
            Some(end) => *end,
            None => 0,
        }
    }

    /// Keeps that the run of a block ends no earlier than here.
    fn keep(&mut self, block: u32, end: u32)
        requires runs { AreRuns self.old.class self.old.names.now self.old }
        requires within { end ≤ length self.old.names.now }
        requires known { AreOf self.old.class self.old.names.now (block * self.old.block) end }
        ensures { AreRuns self.old.class self.old.names.now self.new }
    {
        if block < BLOCKS && self.end_of(block) < end {
            self.ends[block as usize] = end;
        }
    }

    /// A place behind this one, where the bytes up to it are of the class; the end is not passed
    /// but by bytes that are known. None where a byte before the end is not of the class.
    fn step(&mut self, at: u32, end: u32) -> Option<u32>
        requires runs { AreRuns self.old.class self.old.names.now self.old }
        requires before { at < end }
        requires within { end ≤ length self.old.names.now }
        ensures runs { AreRuns self.old.class self.old.names.now self.new }
        ensures on { IfSome result (λ next. at < next) }
        ensures within { IfSome result (λ next. next ≤ length self.old.names.now) }
        ensures of_class { IfSome result (AreOf self.old.class self.old.names.now at) }
        ensures none { IfNone result (AreOf self.old.class self.old.names.now at end → ⊥) }
    {
        let block = at / self.block;
        let into = at % self.block;
        let known = self.end_of(block);
        if at < known {
            return Some(known);
        }
        let stop = at + (end - at).min(self.block - into);
        if !are_of(self.class, &self.names[at as usize..stop as usize]) {
            return None;
        }
        if into == 0 || known == at {
            self.keep(block, stop);
        }
        Some(stop)
    }

    /// Whether the bytes from one place up to another are of the class.
    pub(crate) fn covers(&mut self, start: u32, end: u32) -> bool
        requires runs { AreRuns self.old.class self.old.names.now self.old }
        requires order { start ≤ end }
        requires within { end ≤ length self.old.names.now }
        ensures value { IsTrue result ↔ AreOf self.old.class self.old.names.now start end }
        ensures runs { AreRuns self.old.class self.old.names.now self.new }
    {
        if end - start <= FEW_BYTES {
            return are_of(self.class, &self.names[start as usize..end as usize]);
        }
        let mut at = start;
        while at < end {
            let Some(next) = self.step(at, end) else {
                return false;
            };
            at = next;
        }
        self.keep_from(start, at);
        true
    }

    /// Keeps what is known of the bytes between two places, at the first block behind the first.
    fn keep_from(&mut self, start: u32, end: u32)
        requires runs { AreRuns self.old.class self.old.names.now self.old }
        requires within { end ≤ length self.old.names.now }
        requires known { AreOf self.old.class self.old.names.now start end }
        ensures { AreRuns self.old.class self.old.names.now self.new }
    {
        let block = start / self.block;
        if block < BLOCKS {
            self.keep(block + 1, end);
        }
    }
}

/// What is known of the bytes of the names of a table.
#[derive(Drop)]
pub(crate) struct Seen<'t> {
    pub(crate) words: Runs<'t>,
    pub(crate) names: Runs<'t>,
}

impl<'t> Seen<'t> {
    /// Nothing is known of the table's names.
    pub(crate) fn new(table: &Sections<'t>) -> Seen<'t>
        ensures { AreSeen table.now.bytes.now table.now.header result }
    {
        let count = table.header.names;
        let names = table.name(0, count);
        Seen {
            words: Runs::new(names, count, Class::Word),
            names: Runs::new(names, count, Class::Name),
        }
    }
}
