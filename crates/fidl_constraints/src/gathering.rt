//! What all constraints of a type give.
ghost use Rattle.std.specs.Prelude.{◌<◌, List, length, IfOk, IfSome};
ghost use Rattle.std.specs.Prelude.{IsNone};
ghost use Rattle.fidl_consts.specs.Tables.{AreConsts};
ghost use Rattle.fidl_constraints.specs.declared.parts.Part.{Part as GivenPart};
ghost use Rattle.fidl_constraints.specs.Behind.{Core as Plain};
ghost use Rattle.fidl_constraints.specs.Parts.{GivenOnce};
ghost use Rattle.fidl_constraints.specs.Gives.{EachGives, IsGathered};
ghost use Rattle.fidl_constraints.specs.BehindViews.{core_view, head_view, use_view};
ghost use Rattle.fidl_constraints.specs.ItemViews.{items_view, ItemsInSet};

use crate::aliases::behind_few;
use crate::giving::{Scope, part_of};
use crate::items::{Item, all_items};
use crate::parts::{Parts, has_kind};
use crate::{Core, Head, TypeUse};
use fidl_consts::Consts;
use fidl_named::Named;
use std::alloc::{AllocError, Global};

/// What constraints give to a type, if each gives a part and none what another gives.
fn all_parts(
    scope: Scope<'_, '_, '_, '_>,
    head: Head<'_>,
    items: &[Item<'_>],
) -> Result<Option<Parts>, AllocError>
    requires within { ItemsInSet scope.named.now (items_view items.now) }
    requires known { AreConsts scope.named.now scope.consts.now }
    ensures gives { IfOk result (λ found. IfSome found (λ parts. EachGives scope.entry.named.now
        (head_view head.entry) (items_view items.now) parts.list.items)) }
    ensures once { IfOk result (λ found. IfSome found (λ parts. GivenOnce parts.list.items)) }
    ensures none { IfOk result (λ found. IsNone found → (parts : List GivenPart)
        → EachGives scope.entry.named.now (head_view head.entry) (items_view items.now) parts
        → GivenOnce parts → ⊥) }
{
    let mut list = Vec::new(scope.alloc);
    for item in items {
        let Some(part) = part_of(scope, head, *item)? else {
            return Ok(None);
        };
        if has_kind(&list, part.kind) {
            return Ok(None);
        }
        list.push(part)?;
    }
    Ok(Some(Parts { list }))
}

/// A type behind its aliases, with what all its constraints give.
#[derive(Drop)]
pub struct Gathered<'f> {
    pub core: Core<'f>,
    pub parts: Parts,
}

/// What a type in the file of this number is behind its aliases, and what all its constraints give
/// to it (public source: the FIDL language specification, "Constraints"). Nothing where a name on
/// the way means no type, a constraint may not be given to it, or one gives what another gives.
/// `consts` are the values of `named`.
///
/// `AllocError`: memory ran out.
pub fn gather<'f>(
    alloc: Global,
    named: &Named<'f, '_>,
    consts: &Consts,
    file_index: usize,
    of: TypeUse<'f>,
) -> Result<Option<Gathered<'f>>, AllocError>
    requires within { file_index < length named.now }
    requires known { AreConsts named.now consts.now }
    ensures found { IfOk result (λ found. IfSome found (λ g. IsGathered named.now file_index
        (use_view of.entry) (core_view g.core) g.parts.list.items)) }
    ensures none { IfOk result (λ found. IsNone found → (core : Plain) (parts : List GivenPart)
        → IsGathered named.now file_index (use_view of.entry) core parts → ⊥) }
{
    let Some(core) = behind_few(alloc, named, file_index, of)? else {
        return Ok(None);
    };
    let items = all_items(alloc, named, &core.given)?;
    let scope = Scope {
        alloc,
        named,
        consts,
    };
    match all_parts(scope, core.head, &items)? {
        None => Ok(None),
        Some(parts) => Ok(Some(Gathered { core, parts })),
    }
}
