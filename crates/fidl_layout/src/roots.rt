//! The forms of declared types.
ghost use Rattle.std.specs.Prelude.{◌≡◌, ℕ, List, [], ◌∷◌, length, map, IfOk, IfErr, IfSome, IsNone};
ghost use Rattle.std.specs.Bool.{Decides};
ghost use Rattle.std.specs.List.{AllZip, Contains};
ghost use Rattle.fidl_tree.specs.declared.file.File.{File as Tree};
ghost use Rattle.fidl_span.specs.declared.words.Span.{Span as Place};
ghost use Rattle.fidl_declarations.specs.declared.step.Step.TheVariants as Steps;
ghost use Rattle.fidl_declarations.specs.FormViews.{form_view, forms_view};
ghost use Rattle.fidl_lower_types.specs.Numbers.{all_forms};
ghost use Rattle.fidl_layout.specs.declared.fault.LayoutFault.TheVariants.{Memory};
ghost use Rattle.fidl_layout.specs.Roots.{type_starts, AreStarts, IsPlain, IsRoot, AreRoots};

use crate::fault::LayoutFault;
use fidl_declarations::{Form, FormKind, Step};
use fidl_named::Named;
use fidl_span::Span;
use fidl_tree::{DeclarationBody, File};
use fidl_types::Types;
use indexmap::IndexSet;
use std::alloc::{AllocError, Global};

/// Where the names of the declared types of a file begin.
fn type_starts(alloc: Global, file: &File<'_>) -> Result<IndexSet<usize>, AllocError>
    ensures { IfOk result (λ found. AreStarts file.now found.keys) }
{
    let mut found = IndexSet::new(alloc);
    for declaration in &file.declarations {
        if let DeclarationBody::Type(declared) = &declaration.body {
            found.insert(declared.name.from)?;
        }
    }
    Ok(found)
}

/// The same of each file.
fn all_starts(alloc: Global, named: &Named<'_, '_>) -> Result<Vec<IndexSet<usize>>, AllocError>
    ensures { IfOk result (λ found. AllZip AreStarts named.now (map (λ s. s.keys) found.items)) }
{
    let mut found = Vec::new(alloc);
    for file_index in 0..named.count() {
        found.push(type_starts(alloc, named.file(file_index))?)?;
    }
    Ok(found)
}

/// The name that a path is, where it is just one.
fn only_name(path: &[Step]) -> Option<Span>
    ensures found { IfSome result (λ s. path.now ≡ Steps.Name s ∷ []) }
    ensures none { IsNone result → (s : Place) → path.now ≡ Steps.Name s ∷ [] → ⊥ }
{
    if path.len() != 1 {
        return None;
    }
    match path[0] {
        Step::Name(name) => Some(name),
        Step::Request | Step::Response | Step::Error | Step::Result => None,
    }
}

/// Whether a layout is numbered as it is, and not for where it may be absent.
fn is_plain_layout(form: &Form<'_, '_>) -> bool
    ensures { Decides result (IsPlain (form_view form.now).kind) }
{
    match form.kind {
        FormKind::Layout { optional, .. } => !optional,
        FormKind::Result { .. } => false,
        FormKind::EmptyResponse => false,
    }
}

/// Whether a form is that of a declared type.
fn is_root(form: &Form<'_, '_>, starts: &[IndexSet<usize>]) -> bool
    ensures { (files : List Tree) → AllZip AreStarts files (map (λ s. s.keys) starts.now)
        → Decides result (IsRoot files (form_view form.now)) }
{
    if !is_plain_layout(form) {
        return false;
    }
    let Some(name) = only_name(&form.path) else {
        return false;
    };
    match starts.get(form.file_index) {
        None => false,
        Some(starts) => starts.contains(&name.from),
    }
}

/// The numbers of the forms of declared types.
fn root_numbers(
    alloc: Global,
    forms: &[Form<'_, '_>],
    starts: &[IndexSet<usize>],
) -> Result<Vec<u32>, LayoutFault>
    ensures roots { (files : List Tree) → forms_view forms.now ≡ all_forms files
        → AllZip AreStarts files (map (λ s. s.keys) starts.now)
        → IfOk result (λ found. AreRoots files found.items) }
    ensures fault { IfErr result (λ fault. fault ≡ Memory) }
{
    let mut found = Vec::new(alloc);
    for number in 0..forms.len() {
        if is_root(&forms[number], starts) {
            let Ok(number) = u32::try_from(number) else {
                // A number of a definition has 32 bits, so more forms are as good as no memory.
                return Err(LayoutFault::Memory);
            };
            found.push(number)?;
        }
    }
    Ok(found)
}

/// The numbers of the definitions of declared types, which are the roots of a table. Refused with
/// Memory alone: where memory ran out, or where there are more than 2^32 forms.
pub fn declared_types(alloc: Global, types: &Types<'_, '_>) -> Result<Vec<u32>, LayoutFault>
    ensures ok { IfOk result (λ found. AreRoots types.now found.items) }
    ensures fault { IfErr result (λ fault. fault ≡ Memory) }
{
    let starts = all_starts(alloc, types.named())?;
    root_numbers(alloc, types.forms(), &starts)
}
