ghost use Rattle.std.specs.Prelude.{◌≡◌, IfOk};
ghost use Rattle.fidl_tree.specs.Leaf.{text_at};
ghost use Rattle.fidl_tree.specs.File.{library_leaves, import_leaves, import_alias_leaves};
ghost use Rattle.fidl_tree.specs.File.{yield_of};

use crate::attribute::Attribute;
use crate::declaration::Declaration;
use crate::path::Path;
use crate::production::{Production, push_all, push_optional, push_word};
use fidl_span::{Span, Word, WordKind};
use std::alloc::{AllocError, Global};

/// A source file as a tree, with the source that its spans lie in.
#[derive(Drop)]
pub struct File<'s> {
    pub src: &'s [u8],
    pub library: Library,
    pub imports: Vec<Import>,
    pub declarations: Vec<Declaration>,
}

/// The declaration of the library that a file belongs to.
#[derive(Drop)]
pub struct Library {
    pub attributes: Vec<Attribute>,
    pub keyword: Span,
    pub path: Path,
    pub semicolon: Span,
}

/// The import of a library, under its own name or another.
#[derive(Drop)]
pub struct Import {
    pub attributes: Vec<Attribute>,
    pub keyword: Span,
    pub path: Path,
    pub alias: Option<ImportAlias>,
    pub semicolon: Span,
}

/// `as` and the name behind it.
#[derive(Drop)]
pub struct ImportAlias {
    pub keyword: Span,
    pub name: Span,
}

impl<'s> File<'s> {
    /// The bytes of the source that lie in the span: none where it begins at the end of the source
    /// or later, or where it ends before it begins.
    pub fn text(&self, span: Span) -> &'s [u8]
        ensures bytes { result.now ≡ text_at self.now.src.now span }
    {
        let to = span.to.min(self.src.len());
        let from = span.from.min(to);
        &self.src[from..to]
    }
}

/// The words that the tree was read from, in the order of the source.
///
/// `AllocError`: memory ran out.
pub fn yield_tokens(alloc: Global, file: &File) -> Result<Vec<Word>, AllocError>
    ensures ok { IfOk result (λ found. found.items ≡ yield_of file.now) }
{
    let mut out = Vec::new(alloc);
    file.library.push_words(&mut out)?;
    push_all(&mut out, &file.imports)?;
    push_all(&mut out, &file.declarations)?;
    Ok(out)
}

impl Production for Library {
    ghost leaves = { library_leaves };

    fn push_words(&self, out: &mut Vec<Word>) -> Result<(), AllocError> {
        push_all(out, &self.attributes)?;
        push_word(out, WordKind::Identifier, self.keyword)?;
        self.path.push_words(out)?;
        push_word(out, WordKind::Semicolon, self.semicolon)
    }
}

impl Production for Import {
    ghost leaves = { import_leaves };

    fn push_words(&self, out: &mut Vec<Word>) -> Result<(), AllocError> {
        push_all(out, &self.attributes)?;
        push_word(out, WordKind::Identifier, self.keyword)?;
        self.path.push_words(out)?;
        push_optional(out, &self.alias)?;
        push_word(out, WordKind::Semicolon, self.semicolon)
    }
}

impl Production for ImportAlias {
    ghost leaves = { import_alias_leaves };

    fn push_words(&self, out: &mut Vec<Word>) -> Result<(), AllocError> {
        push_word(out, WordKind::Identifier, self.keyword)?;
        push_word(out, WordKind::Identifier, self.name)
    }
}
