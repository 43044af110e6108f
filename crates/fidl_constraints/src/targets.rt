//! What types refer to at once.
ghost use Rattle.std.specs.Prelude.{◌≡◌, IfOk, IfSome, IsNone, option_map, option_copied};
ghost use Rattle.fidl_tree.specs.Views.{declared_view, named_view, layout_view, body_view};
ghost use Rattle.fidl_constraints.specs.Behind.{Target as Plain, body_target, IsDeclared, RefersTo};
ghost use Rattle.fidl_constraints.specs.Behind.{MeaningRefersTo, LeadsTo};
ghost use Rattle.fidl_constraints.specs.BehindViews.{arguments_view, target_view, use_view};

use crate::heads::Head;
use crate::type_use::{TypeUse, use_of};
use fidl_consts::found::declaration_at;
use fidl_named::{DeclarationId, Meaning, Named};
use fidl_tree::{DeclarationBody, Layout, LayoutBody, NamedType, TypeArguments};
use std::alloc::AllocError;

/// What a type refers to at once.
#[derive(Clone, Copy, Drop)]
pub enum Target<'f> {
    /// The end of its aliases, in the file of this number.
    Ends {
        file_index: usize,
        head: Head<'f>,
    },
    /// The type of an alias in the file of this number.
    Follows {
        file_index: usize,
        next: TypeUse<'f>,
    },
}

/// What the name of a declaration refers to as a type.
fn body_target<'f>(id: DeclarationId, body: &'f DeclarationBody) -> Option<Target<'f>>
    ensures { option_map target_view result ≡ body_target id (declared_view body.now) }
{
    match body {
        DeclarationBody::Alias(alias) => Some(Target::Follows {
            file_index: id.file,
            next: use_of(&alias.constructor),
        }),
        DeclarationBody::Type(declaration) => Some(Target::Ends {
            file_index: id.file,
            head: Head::Layout(&declaration.layout.body),
        }),
        DeclarationBody::Resource(_) => Some(Target::Ends {
            file_index: id.file,
            head: Head::Handle(id),
        }),
        DeclarationBody::Const(_) | DeclarationBody::Protocol(_) | DeclarationBody::Service(_) =>
            None,
    }
}

/// The same of the declaration of an id.
fn declared_target<'f>(named: &Named<'f, '_>, id: DeclarationId) -> Option<Target<'f>>
    ensures found { IfSome result (λ t. IsDeclared named.now id (target_view t)) }
    ensures none { IsNone result → (t : Plain) → IsDeclared named.now id t → ⊥ }
{
    let found = declaration_at(named, id)?;
    body_target(id, &found.declaration.body)
}

/// What a meaning refers to as a type, with these arguments in the file of this number.
fn meaning_target<'f>(
    named: &Named<'f, '_>,
    file_index: usize,
    arguments: Option<&'f TypeArguments>,
    meaning: Meaning,
) -> Option<Target<'f>>
    ensures found { IfSome result (λ t. MeaningRefersTo named.now file_index
        (arguments_view (option_copied arguments.entry)) meaning (target_view t)) }
    ensures none { IsNone result → (t : Plain) → MeaningRefersTo named.now file_index
        (arguments_view (option_copied arguments.entry)) meaning t → ⊥ }
{
    match meaning {
        Meaning::Predeclared(name) => Some(Target::Ends {
            file_index,
            head: Head::Word { name, arguments },
        }),
        Meaning::Declared(id) => declared_target(named, id),
        Meaning::Member { .. } | Meaning::PropertyMember { .. } => None,
    }
}

/// What a name with its arguments refers to in the file of this number.
fn named_target<'f>(
    named: &Named<'f, '_>,
    file_index: usize,
    of: &'f NamedType,
) -> Result<Option<Target<'f>>, AllocError>
    ensures found { IfOk result (λ found. IfSome found
        (λ t. RefersTo named.now file_index (named_view of.now) (target_view t))) }
    ensures none { IfOk result (λ found. IsNone found
        → (t : Plain) → RefersTo named.now file_index (named_view of.now) t → ⊥) }
{
    if file_index >= named.count() {
        return Ok(None);
    }
    let Some(meaning) = named.type_meaning(file_index, &of.path)? else {
        return Ok(None);
    };
    let arguments = of.arguments.as_ref();
    let target = meaning_target(named, file_index, arguments, meaning);
    Ok(target)
}

/// The layout without its attributes.
fn body_of(layout: &Layout) -> &LayoutBody
    ensures { body_view result.now ≡ (layout_view layout.now).1 }
{
    &layout.body
}

/// What a type refers to in the file of this number: the type of the alias that it names, or
/// itself. Nothing where its name means no type.
///
/// `AllocError`: memory ran out.
pub fn refers_to<'f>(
    named: &Named<'f, '_>,
    file_index: usize,
    of: TypeUse<'f>,
) -> Result<Option<Target<'f>>, AllocError>
    ensures found { IfOk result (λ found. IfSome found
        (λ t. RefersTo named.now file_index (use_view of.entry) (target_view t))) }
    ensures none { IfOk result (λ found. IsNone found
        → (t : Plain) → RefersTo named.now file_index (use_view of.entry) t → ⊥) }
{
    match of {
        TypeUse::Named(of_name) => named_target(named, file_index, of_name),
        TypeUse::Written { layout, .. } => Ok(Some(Target::Ends {
            file_index,
            head: Head::Layout(body_of(layout)),
        })),
    }
}

/// What a name with its arguments leads to in the file of this number.
fn named_next<'f>(
    named: &Named<'f, '_>,
    file_index: usize,
    of: &'f NamedType,
) -> Result<Option<Target<'f>>, AllocError>
    ensures found { IfOk result (λ found. IfSome found
        (λ t. LeadsTo named.now file_index (named_view of.now) (target_view t))) }
    ensures none { IfOk result (λ found. IsNone found
        → (t : Plain) → RefersTo named.now file_index (named_view of.now) t → ⊥) }
{
    if file_index >= named.count() {
        return Ok(None);
    }
    let Some(meaning) = named.type_meaning(file_index, &of.path)? else {
        return Ok(None);
    };
    let arguments = of.arguments.as_ref();
    let passed = named.passed(meaning);
    match meaning_target(named, file_index, arguments, passed) {
        Some(target) => Ok(Some(target)),
        None => Ok(meaning_target(named, file_index, arguments, meaning)),
    }
}

/// What a type leads to in the file of this number: what it refers to, past the aliases that add no
/// constraints.
pub(crate) fn leads_to<'f>(
    named: &Named<'f, '_>,
    file_index: usize,
    of: TypeUse<'f>,
) -> Result<Option<Target<'f>>, AllocError>
    ensures found { IfOk result (λ found. IfSome found
        (λ t. LeadsTo named.now file_index (use_view of.entry) (target_view t))) }
    ensures none { IfOk result (λ found. IsNone found
        → (t : Plain) → RefersTo named.now file_index (use_view of.entry) t → ⊥) }
{
    match of {
        TypeUse::Named(of_name) => named_next(named, file_index, of_name),
        TypeUse::Written { .. } => refers_to(named, file_index, of),
    }
}
