//! The typed nodes of expressions: one function for each form, which is given its typed parts (ISO/IEC 9899:1999, 6.5).
ghost use Rattle.std.specs.Prelude.{◌≡◌, Ok, IfOk, not};
ghost use Rattle.std.specs.Option.{option_map};
ghost use Rattle.c_types.specs.Types.{type_of};
ghost use Rattle.clight_syntax.specs.TypedTrees.{Prefix};
ghost use Rattle.clight_source.specs.Code.Views.{expr_of as source_of};
ghost use Rattle.clight_syntax.specs.Code.TypedViews.{expr_of};
ghost use Rattle.cerco_base.specs.declared.reasons.TypeKind.TheVariants.{Operand as OperandKind};
ghost use Rattle.c_types.specs.Kinds.{is_array};
ghost use Rattle.clight_types.specs.Operands.{operand};
ghost use Rattle.clight_types.specs.Code.Held.{row_type};
ghost use Rattle.clight_types.specs.Code.HeldJudged.{judged_of, expr_in, cond_in};
ghost use Rattle.clight_types.specs.Outcomes.{Gives};
ghost use Rattle.clight_types.specs.TypedExpressions.{Typed, Logical, or_fault, of_values, of_conditions, binary_kind, is_logical_operator, promoted_type, dereferenced_type, address_of, cast_form, cast_judged, element_form, element_judged};
ghost use Rattle.clight_types.specs.Code.HeldStructs.{structs_of};

use crate::boxes::boxed;
use crate::judged::{Judged, refused, value_in};
use crate::operands::{
    carried, is_integer_value, is_place, is_pointer_and_steps, target, value_integer,
};
use crate::rows::{Row, binary_row};
use crate::structs::Structs;
use cerco_base::{Fault, NoMemory, TypeKind};
use clight_source::tree::{self, BinaryOperator, PrefixOperator, Specifiers};
use clight_syntax::typed::Expr;
use clight_syntax::{Cond, Span, Ty};
use std::alloc::Global;

/// The type of an expression's value. That of an array is the pointer to its first element.
fn value_type(alloc: Global, e: &Expr) -> Result<Ty, NoMemory>
    ensures { IfOk result (λ x. type_of x ≡ (operand (expr_of e.now)).type) }
{
    match carried(e) {
        Ty::Array(element, _) => {
            let copy = element.duplicate(alloc)?;
            Ok(Ty::Pointer(boxed(alloc, copy)?))
        }
        ty => ty.duplicate(alloc),
    }
}

/// The type that a row gives these operands.
fn typed_row(alloc: Global, row: Row, left: &Expr, right: &Expr) -> Result<Ty, NoMemory>
    ensures { IfOk result (λ x. type_of x ≡ row_type (operand (expr_of left.now)) (operand (expr_of right.now)) row) }
{
    match row {
        Row::Of(integer) => Ok(integer.as_type()),
        Row::Left => value_type(alloc, left),
        Row::Right => value_type(alloc, right),
    }
}

/// What is wrong where an operator doesn't take its operands.
fn refusal(operator: BinaryOperator) -> TypeKind
    ensures { result ≡ binary_kind operator }
{
    match operator {
        BinaryOperator::Divide | BinaryOperator::Remainder => TypeKind::Division,
        BinaryOperator::ShiftLeft | BinaryOperator::ShiftRight => TypeKind::Shift,
        _ => TypeKind::Operand,
    }
}

/// Whether an operator is `&&` or `||`.
pub fn is_logical(operator: BinaryOperator) -> bool
    ensures { result ≡ is_logical_operator operator }
{
    match operator {
        BinaryOperator::LogicalAnd | BinaryOperator::LogicalOr => true,
        _ => false,
    }
}

/// Two values joined by an operator. Refused with `Operand`, `Division` or `Shift` where it doesn't take them.
pub fn binary(
    alloc: Global,
    structs: &Structs,
    operator: BinaryOperator,
    at: Span,
    left: Box<Expr>,
    right: Box<Expr>,
) -> Result<Judged, Fault>
    ensures { Gives judged_of result (of_values (structs_of structs.now) operator at (expr_in left) (expr_in right)) }
{
    match binary_row(structs, operator, &left, &right) {
        Some(row) => {
            let ty = typed_row(alloc, row, &left, &right)?;
            let node = boxed(alloc, Expr::Binary(ty, left, operator, at, right))?;
            Ok(Judged::Typed(node))
        }
        None => Err(refused(at.from, refusal(operator))),
    }
}

/// Two conditions joined by `&&`, or by another operator, which is read as `||`.
pub fn logical(
    alloc: Global,
    operator: BinaryOperator,
    at: Span,
    left: Box<Cond<()>>,
    right: Box<Cond<()>>,
) -> Result<Judged, Fault>
    ensures { Gives judged_of result (Ok (Logical (of_conditions operator at (cond_in left) (cond_in right)))) }
{
    match operator {
        BinaryOperator::LogicalAnd => {
            let node = boxed(alloc, Cond::Both(left, at, (), (), right))?;
            Ok(Judged::Logical(node))
        }
        _ => {
            let node = boxed(alloc, Cond::Either(left, at, (), (), right))?;
            Ok(Judged::Logical(node))
        }
    }
}

/// `-e` and `~e`. Refused with `Operand` where e is no integer.
pub fn promoted(
    alloc: Global,
    operator: PrefixOperator,
    at: Span,
    e: Box<Expr>,
) -> Result<Judged, Fault>
    ensures { Gives judged_of result (or_fault (promoted_type (expr_in e)) (λ type. Typed (Prefix type operator at (expr_in e))) at.from OperandKind) }
{
    match value_integer(&e) {
        Some(integer) => {
            let ty = integer.promoted().as_type();
            let node = boxed(alloc, Expr::Prefix(ty, operator, at, e))?;
            Ok(Judged::Typed(node))
        }
        None => Err(refused(at.from, TypeKind::Operand)),
    }
}

/// `*e`. Refused with `Operand` where e is no pointer.
pub fn dereferenced(alloc: Global, at: Span, e: Box<Expr>) -> Result<Judged, Fault>
    ensures { Gives judged_of result (or_fault (dereferenced_type (expr_in e)) (λ type. Typed (Prefix type PrefixOperator.Dereference at (expr_in e))) at.from OperandKind) }
{
    match target(&e) {
        Some(pointee) => {
            let ty = pointee.duplicate(alloc)?;
            let node = boxed(alloc, Expr::Prefix(ty, PrefixOperator::Dereference, at, e))?;
            Ok(Judged::Typed(node))
        }
        None => Err(refused(at.from, TypeKind::Operand)),
    }
}

/// `&e`. Refused with `Operand` where e is no place, or an array.
pub fn address(alloc: Global, at: Span, e: Option<Box<Expr>>) -> Result<Judged, Fault>
    ensures { Gives judged_of result (address_of at (option_map expr_in e)) }
{
    match e {
        Some(e) => {
            if !is_place(&e) || carried(&e).is_array() {
                return Err(refused(at.from, TypeKind::Operand));
            }
            let target = carried(&e).duplicate(alloc)?;
            let ty = Ty::Pointer(boxed(alloc, target)?);
            let node = boxed(alloc, Expr::Prefix(ty, PrefixOperator::AddressOf, at, e))?;
            Ok(Judged::Typed(node))
        }
        None => Err(refused(at.from, TypeKind::Operand)),
    }
}

/// `base[index]`. Refused with `Operand` where the base is no pointer, or the index doesn't step over what it points to.
fn element_of(
    alloc: Global,
    structs: &Structs,
    left: Span,
    right: Span,
    base: Box<Expr>,
    index: Box<Expr>,
) -> Result<Judged, Fault>
    ensures { Gives judged_of result (element_form (structs_of structs.now) left right (expr_in base) (expr_in index)) }
{
    if !is_pointer_and_steps(structs, &base, &index) {
        return Err(refused(left.from, TypeKind::Operand));
    }
    match target(&base) {
        Some(pointee) => {
            let ty = pointee.duplicate(alloc)?;
            let node = boxed(alloc, Expr::Index(ty, base, left, index, right))?;
            Ok(Judged::Typed(node))
        }
        None => Err(refused(left.from, TypeKind::Operand)),
    }
}

/// `(words) e`, where the words give this type. Refused with `Operand` where it or e is no integer.
fn cast_of(
    alloc: Global,
    ty: Ty,
    left: Span,
    words: Specifiers,
    right: Span,
    e: Box<Expr>,
) -> Result<Judged, Fault>
    ensures { Gives judged_of result (cast_form left words right (type_of ty) (expr_in e)) }
{
    if !ty.is_integer() || !is_integer_value(&e) {
        return Err(refused(left.from, TypeKind::Operand));
    }
    let node = boxed(alloc, Expr::Cast(ty, left, words, right, e))?;
    Ok(Judged::Typed(node))
}

/// `base[index]`, where the index is judged. Refused with `Value` where the index has none, and with `Operand` where the base is no
/// pointer, or the index doesn't step over what it points to.
pub fn element(
    alloc: Global,
    structs: &Structs,
    left: Span,
    right: Span,
    base: Box<Expr>,
    source: &tree::Expr,
    index: Judged,
) -> Result<Judged, Fault>
    ensures { Gives judged_of result (element_judged (structs_of structs.now) left right (source_of source.now) (expr_in base) (judged_of index)) }
{
    let index = value_in(source, index)?;
    element_of(alloc, structs, left, right, base, index)
}

/// `(words) e`, where the words give this type and e is judged. Refused with `Value` where e has none, and with `Operand` where the
/// type or e is no integer.
pub fn cast(
    alloc: Global,
    ty: Ty,
    left: Span,
    words: Specifiers,
    right: Span,
    source: &tree::Expr,
    e: Judged,
) -> Result<Judged, Fault>
    ensures { Gives judged_of result (cast_judged left words right (source_of source.now) (type_of ty) (judged_of e)) }
{
    let e = value_in(source, e)?;
    cast_of(alloc, ty, left, words, right, e)
}
