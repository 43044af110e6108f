//! What a constraint gives to a type.
ghost use Rattle.std.specs.Prelude.{◌≡◌, ◌<◌, ◌^◌, ℕ, pos, length, Some, IfOk, IfSome};
ghost use Rattle.std.specs.Prelude.{IsNone};
ghost use Rattle.fidl_consts.specs.PlainValues.{seen, a_number};
ghost use Rattle.fidl_consts.specs.Tables.{AreConsts};
ghost use Rattle.fidl_constraints.specs.declared.parts.Part.{Part as Given};
ghost use Rattle.fidl_constraints.specs.Gives.{may_be_absent, property_kind, ordinary_kind, item_kind};
ghost use Rattle.fidl_constraints.specs.Gives.{IsAmount, Gives};
ghost use Rattle.fidl_constraints.specs.Behind.{handle_head};
ghost use Rattle.fidl_constraints.specs.BehindViews.{head_view};
ghost use Rattle.fidl_constraints.specs.ItemViews.{item_view, IsBoundOf, IsProtocolOf};
ghost use Rattle.fidl_constraints.specs.ItemViews.{IsHandleOf};

use crate::Head;
use crate::items::Item;
use crate::parts::{Part, PartKind};
use fidl_consts::{ConstType, ConstValue, Constraint, Consts, NumberKind, is_memory};
use fidl_named::{
    DeclarationId, Meaning, Named, Predeclared, Wanted, is_memory as is_name_memory, path_alone,
};
use fidl_tree::{LayoutBody, Value};
use std::alloc::{AllocError, Global};

/// A set of files with the values of its constants.
#[derive(Clone, Copy, Drop)]
pub(crate) struct Scope<'c, 'a, 'f, 's> {
    pub alloc: Global,
    pub named: &'a Named<'f, 's>,
    pub consts: &'c Consts,
}

/// Whether a type may be given the word `optional`, as the last constraint of a list or not.
fn may_be_absent(head: Head<'_>, last: bool) -> bool
    ensures { result ≡ may_be_absent (head_view head.entry) last }
{
    match head {
        Head::Word { name, .. } => matches!(
            name,
            Predeclared::String
                | Predeclared::Vector
                | Predeclared::Bytes
                | Predeclared::ClientEnd
                | Predeclared::ServerEnd
        ),
        Head::Layout(body) => matches!(body, LayoutBody::Union(_)),
        Head::Handle(_) => last,
    }
}

/// What an ordinary constraint of a handle is for.
fn property_kind(rank: usize) -> Option<PartKind>
    ensures { result ≡ property_kind rank }
{
    match rank {
        0 => Some(PartKind::Subtype),
        1 => Some(PartKind::Rights),
        _ => None,
    }
}

/// What an ordinary constraint of a type is for.
fn ordinary_kind(head: Head<'_>, rank: usize) -> Option<PartKind>
    ensures { result ≡ ordinary_kind (head_view head.entry) rank }
{
    match head {
        Head::Word { name, .. } => match name {
            Predeclared::String | Predeclared::Vector | Predeclared::Bytes => Some(PartKind::Bound),
            Predeclared::ClientEnd | Predeclared::ServerEnd => Some(PartKind::Protocol),
            _ => None,
        },
        Head::Layout(_) => None,
        Head::Handle(_) => property_kind(rank),
    }
}

/// What a constraint of a type is for.
fn item_kind(head: Head<'_>, item: Item<'_>) -> Option<PartKind>
    ensures { result ≡ item_kind (head_view head.entry) (item_view item.entry) }
{
    if item.word {
        return Some(PartKind::Optional);
    }
    ordinary_kind(head, item.rank)
}

/// The number of 32 bits that a value is.
pub fn amount_of(value: &ConstValue) -> Option<u32>
    ensures found { IfSome result (λ n. (n < 2 ^ 32) × (seen value.now ≡ a_number (pos n))) }
    ensures none { IsNone result → (n : ℕ) → n < 2 ^ 32 → seen value.now ≡ a_number (pos n) → ⊥ }
{
    match value {
        ConstValue::Number(number) => match u32::try_from(*number) {
            Ok(amount) => Some(amount),
            Err(_) => None,
        },
        ConstValue::Bool(_) | ConstValue::Text(_) => None,
    }
}

/// The bound that a constraint gives.
fn bound_amount(scope: Scope<'_, '_, '_, '_>, item: Item<'_>) -> Result<Option<u32>, AllocError>
    requires within { item.file_index < length scope.named.now }
    requires known { AreConsts scope.named.now scope.consts.now }
    ensures found { IfOk result (λ found. IfSome found
        (IsBoundOf scope.entry.named.now item.entry)) }
    ensures none { IfOk result (λ found. IsNone found → (n : ℕ)
        → IsBoundOf scope.entry.named.now item.entry n → ⊥) }
{
    let wanted = ConstType::Number(NumberKind::Uint32);
    let found = scope.consts.value_of_expression(
        scope.alloc,
        scope.named,
        item.file_index,
        wanted,
        item.value,
    );
    match found {
        Ok(value) => Ok(amount_of(&value)),
        Err(fault) => {
            if is_memory(fault) {
                return Err(AllocError);
            }
            Ok(None)
        }
    }
}

/// Whether a constraint names a protocol: its number is 0 then.
fn protocol_amount(scope: Scope<'_, '_, '_, '_>, item: Item<'_>) -> Result<Option<u32>, AllocError>
    requires within { item.file_index < length scope.named.now }
    ensures found { IfOk result (λ found. IfSome found
        (IsProtocolOf scope.entry.named.now item.entry)) }
    ensures none { IfOk result (λ found. IsNone found → (n : ℕ)
        → IsProtocolOf scope.entry.named.now item.entry n → ⊥) }
{
    let Some(path) = path_alone(item.value) else {
        return Ok(None);
    };
    match scope.named.meaning(item.file_index, path, Wanted::Protocol) {
        Ok(_) => Ok(Some(0)),
        Err(fault) => {
            if is_name_memory(fault) {
                return Err(AllocError);
            }
            Ok(None)
        }
    }
}

/// The number that a constraint gives to a handle of this resource definition.
fn property_amount(
    scope: Scope<'_, '_, '_, '_>,
    id: DeclarationId,
    item: Item<'_>,
) -> Result<Option<u32>, AllocError>
    requires within { item.file_index < length scope.named.now }
    requires known { AreConsts scope.named.now scope.consts.now }
    ensures found { IfOk result (λ found. IfSome found
        (IsHandleOf scope.entry.named.now (handle_head id) item.entry)) }
    ensures none { IfOk result (λ found. IsNone found → (n : ℕ)
        → IsHandleOf scope.entry.named.now (handle_head id) item.entry n → ⊥) }
{
    let constraint = Constraint {
        end: Meaning::Declared(id),
        rank: item.rank,
        value: item.value,
    };
    match scope
        .consts
        .handle_value(scope.alloc, scope.named, item.file_index, constraint)
    {
        Ok(None) => Ok(None),
        Ok(Some(value)) => Ok(amount_of(&value)),
        Err(fault) => {
            if is_memory(fault) {
                return Err(AllocError);
            }
            Ok(None)
        }
    }
}

/// The number that a constraint gives to a type that is a handle.
fn handle_amount(
    scope: Scope<'_, '_, '_, '_>,
    head: Head<'_>,
    item: Item<'_>,
) -> Result<Option<u32>, AllocError>
    requires within { item.file_index < length scope.named.now }
    requires known { AreConsts scope.named.now scope.consts.now }
    ensures found { IfOk result (λ found. IfSome found
        (IsHandleOf scope.entry.named.now (head_view head.entry) item.entry)) }
    ensures none { IfOk result (λ found. IsNone found → (n : ℕ)
        → IsHandleOf scope.entry.named.now (head_view head.entry) item.entry n → ⊥) }
{
    match head {
        Head::Handle(id) => property_amount(scope, id, item),
        Head::Word { .. } => Ok(None),
        Head::Layout(_) => Ok(None),
    }
}

/// The number that a constraint gives to a type, where it is for this.
fn amount(
    scope: Scope<'_, '_, '_, '_>,
    head: Head<'_>,
    item: Item<'_>,
    kind: PartKind,
) -> Result<Option<u32>, AllocError>
    requires within { item.file_index < length scope.named.now }
    requires known { AreConsts scope.named.now scope.consts.now }
    ensures found { IfOk result (λ found. IfSome found (IsAmount scope.entry.named.now
        (head_view head.entry) (item_view item.entry) kind)) }
    ensures none { IfOk result (λ found. IsNone found → (n : ℕ) → IsAmount scope.entry.named.now
        (head_view head.entry) (item_view item.entry) kind n → ⊥) }
{
    match kind {
        PartKind::Optional => {
            if may_be_absent(head, item.last) {
                return Ok(Some(0));
            }
            Ok(None)
        }
        PartKind::Bound => bound_amount(scope, item),
        PartKind::Protocol => protocol_amount(scope, item),
        PartKind::Subtype => handle_amount(scope, head, item),
        PartKind::Rights => handle_amount(scope, head, item),
    }
}

/// What a constraint gives to a type.
pub(crate) fn part_of(
    scope: Scope<'_, '_, '_, '_>,
    head: Head<'_>,
    item: Item<'_>,
) -> Result<Option<Part>, AllocError>
    requires within { item.file_index < length scope.named.now }
    requires known { AreConsts scope.named.now scope.consts.now }
    ensures found { IfOk result (λ found. IfSome found (Gives scope.entry.named.now
        (head_view head.entry) (item_view item.entry))) }
    ensures none { IfOk result (λ found. IsNone found → (p : Given) → Gives scope.entry.named.now
        (head_view head.entry) (item_view item.entry) p → ⊥) }
{
    let Some(kind) = item_kind(head, item) else {
        return Ok(None);
    };
    match amount(scope, head, item, kind)? {
        None => Ok(None),
        Some(found) => Ok(Some(Part {
            kind,
            amount: found,
        })),
    }
}
