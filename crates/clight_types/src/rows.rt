//! The types of the forms of expressions, given those of their operands: one function for each row of the table in
//! `docs/language.md` (ISO/IEC 9899:1999, 6.5).
ghost use Rattle.std.specs.Prelude.{◌≡◌, Some, None, if◌then◌else◌};
ghost use Rattle.std.specs.Option.{option_map};
ghost use Rattle.c_types.specs.Types.{type_of};
ghost use Rattle.clight_syntax.specs.Code.TypedViews.{expr_of};
ghost use Rattle.clight_types.specs.Operands.{operand};
ghost use Rattle.clight_types.specs.Expressions.{is_shift_count, are_integers, are_unsigned_chars, are_like_pointers, are_pointer_and_null};
ghost use Rattle.clight_types.specs.TypedExpressions.{sum_type, difference_type, bits_type, product_type, shift_type, order_type, equality_type, binary_type};
ghost use Rattle.clight_types.specs.Code.Held.{row_type};
ghost use Rattle.clight_types.specs.Code.HeldStructs.{structs_of};

use crate::operands::{
    is_integer_value, is_pointer_and_steps, is_unsigned_char, is_zero_number, number_of, target,
    value_integer,
};
use crate::structs::Structs;
use c_types::IntegerType;
use clight_source::tree::BinaryOperator;
use clight_syntax::typed::Expr;

/// The type of a binary form.
#[derive(Clone, Copy)]
pub enum Row {
    /// An integer type.
    Of(IntegerType),
    /// The type of the left operand's value.
    Left,
    /// The type of the right operand's value.
    Right,
}

fn are_two_unsigned_chars(left: &Expr, right: &Expr) -> bool
    ensures { result ≡ are_unsigned_chars (operand (expr_of left.now)) (operand (expr_of right.now)) }
{
    is_unsigned_char(left) && is_unsigned_char(right)
}

fn are_two_integers(left: &Expr, right: &Expr) -> bool
    ensures { result ≡ are_integers (operand (expr_of left.now)) (operand (expr_of right.now)) }
{
    is_integer_value(left) && is_integer_value(right)
}

fn are_two_like_pointers(left: &Expr, right: &Expr) -> bool
    ensures { result ≡ are_like_pointers (operand (expr_of left.now)) (operand (expr_of right.now)) }
{
    match (target(left), target(right)) {
        (Some(one), Some(other)) => one.is_same(other),
        (_, _) => false,
    }
}

fn is_pointer_and_null(pointer: &Expr, null: &Expr) -> bool
    ensures { result ≡ are_pointer_and_null (operand (expr_of pointer.now)) (operand (expr_of null.now)) }
{
    target(pointer).is_some() && is_zero_number(null)
}

fn is_a_shift_count(e: &Expr) -> bool
    ensures { result ≡ is_shift_count (operand (expr_of e.now)) }
{
    match number_of(e) {
        Some(count) => is_integer_value(e) && count <= 15,
        None => false,
    }
}

/// `&`, `|` and `^`
fn bits_row(left: &Expr, right: &Expr) -> Option<Row>
    ensures { option_map (row_type (operand (expr_of left.now)) (operand (expr_of right.now))) result ≡ bits_type (operand (expr_of left.now)) (operand (expr_of right.now)) }
{
    match (value_integer(left), value_integer(right)) {
        (Some(one), Some(other)) => Some(Row::Of(one.common(other))),
        (_, _) => None,
    }
}

/// `+`
fn sum_row(structs: &Structs, left: &Expr, right: &Expr) -> Option<Row>
    ensures { option_map (row_type (operand (expr_of left.now)) (operand (expr_of right.now))) result ≡ sum_type (structs_of structs.now) (operand (expr_of left.now)) (operand (expr_of right.now)) }
{
    if are_two_integers(left, right) {
        return bits_row(left, right);
    }
    if is_pointer_and_steps(structs, left, right) {
        return Some(Row::Left);
    }
    if is_pointer_and_steps(structs, right, left) {
        return Some(Row::Right);
    }
    None
}

/// `-` between two operands
fn difference_row(structs: &Structs, left: &Expr, right: &Expr) -> Option<Row>
    ensures { option_map (row_type (operand (expr_of left.now)) (operand (expr_of right.now))) result ≡ difference_type (structs_of structs.now) (operand (expr_of left.now)) (operand (expr_of right.now)) }
{
    if are_two_integers(left, right) {
        return bits_row(left, right);
    }
    if is_pointer_and_steps(structs, left, right) {
        return Some(Row::Left);
    }
    None
}

/// `*`, `/` and `%`
fn product_row(left: &Expr, right: &Expr) -> Option<Row>
    ensures { option_map (row_type (operand (expr_of left.now)) (operand (expr_of right.now))) result ≡ product_type (operand (expr_of left.now)) (operand (expr_of right.now)) }
{
    if are_two_unsigned_chars(left, right) {
        return Some(Row::Of(IntegerType::int()));
    }
    None
}

/// `<<` and `>>`
fn shift_row(left: &Expr, right: &Expr) -> Option<Row>
    ensures { option_map (row_type (operand (expr_of left.now)) (operand (expr_of right.now))) result ≡ shift_type (operand (expr_of left.now)) (operand (expr_of right.now)) }
{
    match value_integer(left) {
        Some(integer) if is_a_shift_count(right) => Some(Row::Of(integer.promoted())),
        _ => None,
    }
}

/// `<`, `>`, `<=` and `>=`
fn order_row(left: &Expr, right: &Expr) -> Option<Row>
    ensures { option_map (row_type (operand (expr_of left.now)) (operand (expr_of right.now))) result ≡ order_type (operand (expr_of left.now)) (operand (expr_of right.now)) }
{
    if are_two_integers(left, right) || are_two_like_pointers(left, right) {
        return Some(Row::Of(IntegerType::int()));
    }
    None
}

/// `==` and `!=`
fn equality_row(left: &Expr, right: &Expr) -> Option<Row>
    ensures { option_map (row_type (operand (expr_of left.now)) (operand (expr_of right.now))) result ≡ equality_type (operand (expr_of left.now)) (operand (expr_of right.now)) }
{
    let alike = are_two_integers(left, right) || are_two_like_pointers(left, right);
    if alike || is_pointer_and_null(left, right) || is_pointer_and_null(right, left) {
        return Some(Row::Of(IntegerType::int()));
    }
    None
}

/// The type of two values joined by an operator, if there is one.
pub fn binary_row(
    structs: &Structs,
    operator: BinaryOperator,
    left: &Expr,
    right: &Expr,
) -> Option<Row>
    ensures { option_map (row_type (operand (expr_of left.now)) (operand (expr_of right.now))) result ≡ binary_type (structs_of structs.now) operator (operand (expr_of left.now)) (operand (expr_of right.now)) }
{
    match operator {
        BinaryOperator::LogicalOr | BinaryOperator::LogicalAnd => None,
        BinaryOperator::BitOr | BinaryOperator::BitXor | BinaryOperator::BitAnd => bits_row(
            left, right,
        ),
        BinaryOperator::Equal | BinaryOperator::NotEqual => equality_row(left, right),
        BinaryOperator::Less
        | BinaryOperator::Greater
        | BinaryOperator::LessOrEqual
        | BinaryOperator::GreaterOrEqual => order_row(left, right),
        BinaryOperator::ShiftLeft | BinaryOperator::ShiftRight => shift_row(left, right),
        BinaryOperator::Add => sum_row(structs, left, right),
        BinaryOperator::Subtract => difference_row(structs, left, right),
        BinaryOperator::Multiply | BinaryOperator::Divide | BinaryOperator::Remainder =>
            product_row(left, right),
    }
}
