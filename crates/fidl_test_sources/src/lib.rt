//! Sources, their trees and their names, which the tests of several stages begin with.
#![tactic(auto)]

use fidl_names::{LibrarySet, NameFault, Named};
use fidl_parse::parse;
use fidl_span::lex;
use fidl_tree::File;
use std::alloc::Global;
use std::test::Fail;

/// The trees of sources.
///
/// Its drop is a function of this crate. So a crate that holds one does not prove the drops of all
/// that stands in a tree again.
pub struct Parsed<'s> {
    files: Vec<File<'s>>,
}

impl Drop for Parsed<'_> {
    fn drop(self) {
        let Parsed { files: _files } = self;
    }
}

impl<'s> Parsed<'s> {
    /// The trees, in the order of their sources.
    pub fn files(&self) -> &[File<'s>] {
        self.files.as_slice()
    }

    /// The tree of the source of this number.
    pub fn file(&self, number: usize) -> Result<&File<'s>, Fail> {
        Ok(self.files.get(number).ok_or("a file")?)
    }
}

/// The tree of a source.
fn tree<'s>(alloc: Global, src: &'s [u8]) -> Result<File<'s>, Fail> {
    let tokens = lex(alloc, src)?;
    Ok(parse(alloc, &tokens, src)?)
}

/// The trees of sources.
pub fn trees<'s>(alloc: Global, sources: &[&'s [u8]]) -> Result<Parsed<'s>, Fail> {
    let mut files = Vec::new(alloc);
    for src in sources {
        files.push(tree(alloc, src)?)?;
    }
    Ok(Parsed { files })
}

/// Parsed with their names resolved.
pub fn named<'f, 's>(alloc: Global, trees: &'f Parsed<'s>) -> Result<Named<'f, 's>, NameFault> {
    let mut set = LibrarySet::new(alloc);
    for file in &trees.files {
        set.add(file)?;
    }
    set.resolve()
}
