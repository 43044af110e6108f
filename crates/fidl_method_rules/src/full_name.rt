//! The full names of methods.
ghost use Rattle.std.specs.Prelude.{◌≡◌, ◌++◌, ◌∷◌, [], flat_map, IfOk, OnOk};
ghost use Rattle.fidl_tree.specs.Views.{file_view};
ghost use Rattle.fidl_named.specs.Names.{part_text};
ghost use Rattle.fidl_declarations.specs.declared.step.Step.TheVariants as Steps;
ghost use Rattle.fidl_declarations.specs.Forms.{name_by_path};
ghost use Rattle.fidl_method_rules.specs.Methods.{named_in};

use fidl_span::Span;
use fidl_tree::{File, PathPart};
use std::alloc::{AllocError, Global};

/// Appends each part of a path with a dot before it.
fn push_parts(text: &mut Vec<u8>, file: &File<'_>, parts: &[PathPart]) -> Result<(), AllocError>
    ensures { OnOk result (text.new.items ≡ text.old.items
        ++ flat_map (part_text file.now.src.now) parts.now) }
{
    for part in parts {
        text.push(b'.')?;
        text.extend_from_slice(file.text(part.name))?;
    }
    Ok(())
}

/// The full name of a declaration, by the place of its name in the file: `library.name/Name`.
///
/// `AllocError`: memory ran out.
pub fn declared_name(alloc: Global, file: &File<'_>, name: Span) -> Result<Vec<u8>, AllocError>
    ensures { IfOk result (λ text. text.items
        ≡ name_by_path (file_view file.now) (Steps.Name name ∷ [])) }
{
    let mut text = Vec::new(alloc);
    text.extend_from_slice(file.text(file.library.path.first))?;
    push_parts(&mut text, file, &file.library.path.rest)?;
    text.push(b'/')?;
    text.extend_from_slice(file.text(name))?;
    Ok(text)
}

/// The full name of what is called by this text in a protocol.
pub(crate) fn named_in(
    alloc: Global,
    file: &File<'_>,
    protocol: Span,
    name: &[u8],
) -> Result<Vec<u8>, AllocError>
    ensures { IfOk result (λ text. text.items
        ≡ named_in (file_view file.now) protocol name.now) }
{
    let mut text = declared_name(alloc, file, protocol)?;
    text.push(b'.')?;
    text.extend_from_slice(name)?;
    Ok(text)
}

/// The full name of a method of a protocol, by the places of their names in the file:
/// `library.name/Protocol.Method` (public source: the FIDL language specification, "Method
/// ordinals"). No attribute is read.
///
/// `AllocError`: memory ran out.
pub fn method_full_name(
    alloc: Global,
    file: &File<'_>,
    protocol: Span,
    method: Span,
) -> Result<Vec<u8>, AllocError>
    ensures { IfOk result (λ text. text.items ≡ name_by_path (file_view file.now)
        (Steps.Name protocol ∷ Steps.Name method ∷ [])) }
{
    named_in(alloc, file, protocol, file.text(method))
}
