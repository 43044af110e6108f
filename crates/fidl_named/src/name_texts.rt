//! Where names stand, and the full names of declarations.
ghost use Rattle.std.specs.Prelude.{◌≡◌, ◌++◌, IfOk, flat_map, codes};
ghost use Rattle.fidl_tree.specs.Leaf.{text_at};
ghost use Rattle.fidl_named.specs.Names.{path_text, part_text, name_span};
ghost use Rattle.fidl_named.specs.Imports.{path_span};

use fidl_span::Span;
use fidl_tree::{DeclarationBody, File, Path, PathPart};
use std::alloc::{AllocError, Global};

/// Where a declaration's name stands.
pub fn name_span(body: &DeclarationBody) -> Span
    ensures { result ≡ name_span body.now }
{
    match body {
        DeclarationBody::Const(declaration) => declaration.name,
        DeclarationBody::Alias(declaration) => declaration.name,
        DeclarationBody::Type(declaration) => declaration.name,
        DeclarationBody::Protocol(declaration) => declaration.name,
        DeclarationBody::Service(declaration) => declaration.name,
        DeclarationBody::Resource(declaration) => declaration.name,
    }
}

/// Where a path stands.
pub fn path_span(path: &Path) -> Span
    ensures { result ≡ path_span path.now }
{
    let mut last = path.first;
    for part in &path.rest {
        last = part.name;
    }
    Span {
        from: path.first.from,
        to: last.to,
    }
}

/// A name and those of parts, with dots between.
pub(crate) fn dotted_text(
    alloc: Global,
    file: &File<'_>,
    first: Span,
    parts: &[PathPart],
) -> Result<Vec<u8>, AllocError>
    ensures { IfOk result (λ text. text.items ≡ text_at file.now.src.now first
        ++ flat_map (part_text file.now.src.now) parts.now) }
{
    let mut text = Vec::new(alloc);
    text.extend_from_slice(file.text(first))?;
    for part in parts {
        text.push(b'.')?;
        text.extend_from_slice(file.text(part.name))?;
    }
    Ok(text)
}

/// The components of a path, with dots between.
pub fn path_text(alloc: Global, file: &File<'_>, path: &Path) -> Result<Vec<u8>, AllocError>
    ensures { IfOk result (λ text. text.items ≡ path_text file.now.src.now path.now) }
{
    dotted_text(alloc, file, path.first, &path.rest)
}

/// The full name of a library's declaration: the library's name, a slash and its own.
pub fn full_name(alloc: Global, library: &[u8], name: &[u8]) -> Result<Vec<u8>, AllocError>
    ensures { IfOk result (λ text. text.items ≡ library.now ++ codes "/" ++ name.now) }
{
    let mut text = Vec::new(alloc);
    text.extend_from_slice(library)?;
    text.push(b'/')?;
    text.extend_from_slice(name)?;
    Ok(text)
}
