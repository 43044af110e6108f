//! The values of expressions.
ghost use Rattle.std.specs.Prelude.{◌≡◌, ◌↔◌, ◌≤◌, ◌^◌, ◌∷◌, [], List, true, IfOk, IfErr, IfSome};
ghost use Rattle.std.specs.Prelude.{IsNone, IsTrue};
ghost use Rattle.fidl_tree.specs.declared.file.File.{File as Tree};
ghost use Rattle.fidl_named.specs.declared.meaning.Meaning.TheVariants as Given;
ghost use Rattle.fidl_named.specs.declared.meaning.Predeclared.TheVariants as Word;
ghost use Rattle.fidl_tree.specs.Views.{path_view, value_view, operand_view};
ghost use Rattle.fidl_consts.specs.declared.const_type.NumberKind.TheVariants as Kinds;
ghost use Rattle.fidl_consts.specs.declared.const_type.ConstType.TheVariants as ty;
ghost use Rattle.fidl_consts.specs.Literals.{number_of};
ghost use Rattle.fidl_consts.specs.PlainValues.{a_number, Fits, greatest, is_literal_of, seen};
ghost use Rattle.fidl_consts.specs.Values.{HasValue, Gives, is_member, signed_if};
ghost use Rattle.fidl_consts.specs.Dependencies.{IsKnownNode};
ghost use Rattle.fidl_consts.specs.Refusals.{Misfits, LiteralFails, operand_span, value_span};
ghost use Rattle.fidl_consts.specs.Tables.{AreTrue, IsDone, IsMemoryOr, HasEntry};
ghost use Rattle.fidl_consts.specs.Scopes.{KnowsTrue, OrOperandsSettled, ReadsName};
ghost use Rattle.fidl_consts.specs.Scopes.{ReadsOrOperands};
ghost use Rattle.fidl_consts.specs.Scopes.{ReadsOperand, ReadsValue, RefusesName};
ghost use Rattle.fidl_consts.specs.Scopes.{RefusesOrOperands};
ghost use Rattle.fidl_consts.specs.Scopes.{RefusesOperand, RefusesValue, Settled, OperandSettled};
ghost use Rattle.fidl_consts.specs.Scopes.{ValueSettled};

use crate::const_type::{ConstType, NumberKind, suits};
use crate::const_value::ConstValue;
use crate::consts::Entry;
use crate::fault::ConstFault;
use crate::names::{find, path_place};
use crate::nodes::is_node;
use crate::numbers::number_value;
use crate::scope::{FileScope, Scope};
use crate::strings::string_bytes;
use crate::types::joins;
use fidl_named::{Meaning, Place, Predeclared, Wanted};
use fidl_span::Span;
use fidl_tree::{Operand, OrOperand, Path, Value};
use std::alloc::AllocError;

/// The place of an operand.
pub fn operand_span(operand: &Operand) -> Span
    ensures { result ≡ operand_span (operand_view operand.now) }
{
    match operand {
        Operand::Number {
            minus: Some(minus),
            number,
        } => Span {
            from: minus.from,
            to: number.to,
        },
        Operand::Number {
            minus: None,
            number,
        } => *number,
        Operand::String(word) | Operand::True(word) | Operand::False(word) => *word,
        Operand::Path(path) => path_place(path),
        Operand::Group { left, right, .. } => Span {
            from: left.from,
            to: right.to,
        },
    }
}

/// The place of a value: from its first operand to its last.
pub fn value_span(value: &Value) -> Span
    ensures { result ≡ value_span (value_view value.now) }
{
    let first = operand_span(&value.first);
    match value.rest.last() {
        None => first,
        Some(or_operand) => Span {
            from: first.from,
            to: operand_span(&or_operand.operand).to,
        },
    }
}

/// The whole number of a number word, below zero after a minus, where it is less than 2^64 from
/// zero.
fn signed_number(text: &[u8], minus: bool) -> Option<i128>
    ensures found { IfSome result (λ z. z ≡ signed_if minus (number_of text.now)) }
    ensures none { IsNone result → 2 ^ 64 ≤ number_of text.now }
{
    let number = i128::from(number_value(text)?);
    Some(if minus { -number } else { number })
}

/// Whether a meaning is a member of bits or an enum.
fn is_member(meaning: Meaning) -> bool
    ensures { result ≡ is_member meaning }
{
    matches!(
        meaning,
        Meaning::Member { .. } | Meaning::PropertyMember { .. }
    )
}

/// Whether a meaning is the greatest bound.
fn is_maximum(meaning: Meaning) -> bool
    ensures { IsTrue result ↔ (meaning ≡ Given.Predeclared Word.Max) }
{
    matches!(meaning, Meaning::Predeclared(Predeclared::Max))
}

/// The greatest bound.
fn greatest() -> Entry
    ensures own { result.own ≡ ty.Number Kinds.Uint32 }
    ensures value { seen result.value ≡ a_number greatest }
{
    Entry {
        own: ConstType::Number(NumberKind::Uint32),
        value: ConstValue::Number(4_294_967_295),
    }
}

/// The value of its own that a meaning has.
pub fn value_of(
    scope: &Scope<'_, '_, '_, '_>,
    meaning: Meaning,
) -> Result<Option<Entry>, AllocError>
    requires known { AreTrue scope.now.named.now scope.now.consts.now }
    requires done { IsKnownNode scope.now.named.now meaning
        → IsDone scope.now.named.now scope.now.consts.now meaning }
    ensures found { IfOk result (λ found. IfSome found (HasEntry scope.now.named.now meaning)) }
    ensures none { IfOk result (λ found. IsNone found → HasValue scope.now.named.now meaning → ⊥) }
{
    if is_maximum(meaning) {
        return Ok(Some(greatest()));
    }
    if !is_node(scope.named, meaning) {
        return Ok(None);
    }
    scope.consts.value(scope.alloc, meaning)
}

/// What a meaning gives where a type is wanted, by the value of its own; a refusal is reported at a
/// place.
pub fn given(
    meaning: Meaning,
    entry: Entry,
    wanted: ConstType,
    place: Place,
) -> Result<ConstValue, ConstFault>
    ensures ok { IfOk result (λ v. (files : List Tree) → HasEntry files meaning entry
        → Gives files meaning wanted (seen v)) }
    ensures fits { IfOk result (λ v. Fits wanted (seen v)) }
    ensures fault_is_true { IfErr result (λ fault. (files : List Tree)
        → HasEntry files meaning entry → Misfits files meaning wanted place fault) }
{
    if !suits(is_member(meaning), entry.own, wanted) {
        return Err(ConstFault::WrongKind { place });
    }
    if !entry.value.fits(wanted) {
        return Err(ConstFault::OutOfRange { place });
    }
    Ok(entry.value)
}

/// The value of a name of a file where a type is wanted.
pub fn name_value(
    scope: &FileScope<'_, '_, '_, '_>,
    wanted: ConstType,
    path: &Path,
) -> Result<ConstValue, ConstFault>
    requires known { KnowsTrue scope.now }
    requires settled { Settled scope.now (path_view path.now ∷ []) }
    ensures ok { IfOk result (ReadsName scope.now wanted path.now) }
    ensures fits { IfOk result (λ v. Fits wanted (seen v)) }
    ensures fault_is_true { IfErr result (IsMemoryOr (RefusesName scope.now wanted path.now)) }
{
    let file = scope.file;
    let place = Place {
        file: file.file_index,
        span: path_place(path),
    };
    let Some(meaning) = find(file.named, file.file_index, path, Wanted::Value)? else {
        return Err(ConstFault::WrongKind { place });
    };
    let set = Scope {
        alloc: scope.alloc,
        named: file.named,
        consts: scope.consts,
    };
    match value_of(&set, meaning)? {
        None => Err(ConstFault::WrongKind { place }),
        Some(entry) => given(meaning, entry, wanted, place),
    }
}

/// A literal's value where a type is wanted; a refusal is reported at a place.
fn fitting(literal: ConstValue, wanted: ConstType, place: Place) -> Result<ConstValue, ConstFault>
    ensures ok { IfOk result (λ v. (seen v ≡ seen literal)
        × ((is_literal_of wanted (seen v) ≡ true) × Fits wanted (seen v))) }
    ensures fault_is_true { IfErr result (LiteralFails wanted (seen literal) place) }
{
    if !literal.is_literal_of(wanted) {
        return Err(ConstFault::WrongKind { place });
    }
    if !literal.fits(wanted) {
        return Err(ConstFault::OutOfRange { place });
    }
    Ok(literal)
}

/// The value of a number word where a type is wanted.
fn number_literal(
    text: &[u8],
    minus: bool,
    wanted: ConstType,
    place: Place,
) -> Result<ConstValue, ConstFault>
    ensures ok { IfOk result (λ v. (seen v ≡ a_number (signed_if minus (number_of text.now)))
        × ((is_literal_of wanted (seen v) ≡ true) × Fits wanted (seen v))) }
    ensures fault_is_true { IfErr result (LiteralFails wanted
        (a_number (signed_if minus (number_of text.now))) place) }
{
    match signed_number(text, minus) {
        Some(value) => fitting(ConstValue::Number(value), wanted, place),
        None => match wanted {
            ConstType::Number(_) => Err(ConstFault::OutOfRange { place }),
            _ => Err(ConstFault::WrongKind { place }),
        },
    }
}

/// The value of an operand where a type is wanted.
#[cycle(values)]
fn operand_value(
    scope: &FileScope<'_, '_, '_, '_>,
    wanted: ConstType,
    operand: &Operand,
) -> Result<ConstValue, ConstFault>
    requires known { KnowsTrue scope.now }
    requires settled { OperandSettled scope.now operand.now }
    ensures ok { IfOk result (ReadsOperand scope.now wanted operand.now) }
    ensures fits { IfOk result (λ v. Fits wanted (seen v)) }
    ensures fault_is_true { IfErr result
        (IsMemoryOr (RefusesOperand scope.now wanted operand.now)) }
{
    let tree = scope.file.tree;
    let place = Place {
        file: scope.file.file_index,
        span: operand_span(operand),
    };
    match operand {
        Operand::Number { minus, number } => {
            number_literal(tree.text(*number), minus.is_some(), wanted, place)
        }
        Operand::String(word) => {
            let bytes = string_bytes(scope.alloc, tree.text(*word))?;
            fitting(ConstValue::Text(bytes), wanted, place)
        }
        Operand::True(_) => fitting(ConstValue::Bool(true), wanted, place),
        Operand::False(_) => fitting(ConstValue::Bool(false), wanted, place),
        Operand::Path(path) => name_value(scope, wanted, path),
        Operand::Group { value, .. } => value_in(scope, wanted, value),
    }
}

/// What a value is joined to by the operands after it.
#[cycle(values)]
fn or_operands_value(
    scope: &FileScope<'_, '_, '_, '_>,
    wanted: ConstType,
    before: ConstValue,
    or_operands: &[OrOperand],
) -> Result<ConstValue, ConstFault>
    requires known { KnowsTrue scope.now }
    requires settled { OrOperandsSettled scope.now or_operands.now }
    ensures ok { IfOk result (ReadsOrOperands scope.now wanted before or_operands.now) }
    ensures fault_is_true { IfErr result (IsMemoryOr
        (RefusesOrOperands scope.now wanted or_operands.now)) }
{
    let mut all = before;
    for or_operand in or_operands {
        let next = operand_value(scope, wanted, &or_operand.operand)?;
        all = all.joined(&next);
    }
    Ok(all)
}

/// The value of an expression of a file where a type is wanted.
#[cycle(values)]
pub fn value_in(
    scope: &FileScope<'_, '_, '_, '_>,
    wanted: ConstType,
    value: &Value,
) -> Result<ConstValue, ConstFault>
    requires known { KnowsTrue scope.now }
    requires settled { ValueSettled scope.now value.now }
    ensures ok { IfOk result (ReadsValue scope.now wanted value.now) }
    ensures fits { IfOk result (λ v. Fits wanted (seen v)) }
    ensures fault_is_true { IfErr result (IsMemoryOr (RefusesValue scope.now wanted value.now)) }
{
    let first = operand_value(scope, wanted, &value.first)?;
    if value.rest.is_empty() {
        return Ok(first);
    }
    let place = Place {
        file: scope.file.file_index,
        span: value_span(value),
    };
    if !joins(scope.file.named, wanted) {
        return Err(ConstFault::NotBits { place });
    }
    let all = or_operands_value(scope, wanted, first, &value.rest)?;
    if !all.fits(wanted) {
        return Err(ConstFault::OutOfRange { place });
    }
    Ok(all)
}
