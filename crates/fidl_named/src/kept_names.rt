//! The meanings of names that were read, by the places of the names.
ghost use Rattle.std.specs.Prelude.{◌≡◌, ◌++◌, ◌∷◌, [], ℕ, List, map, IsTrue, IfOk, IfSome};
ghost use Rattle.std.specs.Prelude.{OnOk};
ghost use Rattle.fidl_tree.specs.declared.file.File.{File as Tree};
ghost use Rattle.fidl_named.specs.Meanings.{components, Means};
ghost use Rattle.fidl_named.specs.KeptNames.{AreKept};

use crate::meaning::{Meaning, Wanted};
use fidl_span::Span;
use fidl_tree::{Path, PathPart};
use std::alloc::{AllocError, Global};

/// What a name means in its file, where this kind is wanted.
#[derive(Clone, Copy, Drop)]
pub struct KeptName<'f> {
    pub path: &'f Path,
    pub wanted: Wanted,
    pub meaning: Meaning,
}

/// The names of a file whose meanings are kept. For each byte of the source it has the number of
/// the name that begins there; where none does, any number.
#[derive(Drop)]
pub struct KeptNames<'f> {
    pub numbers: Vec<usize>,
    pub names: Vec<KeptName<'f>>,
}

/// Whether two spans are the same.
fn same_span(one: Span, other: Span) -> bool
    ensures { IsTrue result → one ≡ other }
{
    one == other
}

/// Whether two kinds are the same.
fn same_kind(one: Wanted, other: Wanted) -> bool
    ensures { IsTrue result → one ≡ other }
{
    matches!(
        (one, other),
        (Wanted::Type, Wanted::Type)
            | (Wanted::Protocol, Wanted::Protocol)
            | (Wanted::Value, Wanted::Value)
    )
}

/// Whether parts of paths have their names at the same spans.
fn same_parts(one: &[PathPart], other: &[PathPart]) -> bool
    ensures { IsTrue result → map (λ q. q.name) one.now ≡ map (λ q. q.name) other.now }
{
    if one.len() != other.len() {
        return false;
    }
    for index in 0..one.len() {
        if !same_span(one[index].name, other[index].name) {
            return false;
        }
    }
    true
}

/// Whether paths have their components at the same spans.
fn same_path(one: &Path, other: &Path) -> bool
    ensures { IsTrue result
        → (src : List ℕ) → components src one.now ≡ components src other.now }
{
    same_span(one.first, other.first) && same_parts(&one.rest, &other.rest)
}

impl<'f> KeptNames<'f> {
    /// No names of a source of this many bytes.
    pub fn new(alloc: Global, bytes: usize) -> Result<KeptNames<'f>, AllocError>
        ensures { IfOk result (λ kept. kept.names.items ≡ []) }
    {
        Ok(KeptNames {
            numbers: vec![in alloc; 0; bytes]?,
            names: Vec::new(alloc),
        })
    }

    /// Keeps what a name means.
    pub fn add(&mut self, name: KeptName<'f>) -> Result<(), AllocError>
        ensures { OnOk result (self.new.names.items ≡ self.old.names.items ++ name.entry ∷ []) }
    {
        let from = name.path.first.from;
        let number = self.names.len();
        self.names.push(name)?;
        if from < self.numbers.len() {
            self.numbers[from] = number;
        }
        Ok(())
    }

    /// What is kept of a name, where this kind is wanted.
    pub fn find(&self, path: &Path, wanted: Wanted) -> Option<Meaning>
        ensures { IfSome result (λ m. (files : List Tree) (f : Tree)
            → AreKept files f self.now.names.items
            → Means files f wanted (components f.src.now path.now) m) }
    {
        let number = *self.numbers.get(path.first.from)?;
        let name = self.names.get(number)?;
        if same_kind(name.wanted, wanted) && same_path(name.path, path) {
            return Some(name.meaning);
        }
        None
    }
}
