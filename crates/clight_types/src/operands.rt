//! What an expression is to the operator beside it (ISO/IEC 9899:1999, 6.3.2.1 and 6.5).
ghost use Rattle.std.specs.Prelude.{◌≡◌, Some, None, if◌then◌else◌};
ghost use Rattle.std.specs.Option.{option_map};
ghost use Rattle.c_types.specs.Types.{type_of, type_eq};
ghost use Rattle.clight_syntax.specs.TypedTrees.{type_at};
ghost use Rattle.clight_syntax.specs.Code.TypedViews.{expr_of};
ghost use Rattle.c_types.specs.Kinds.{is_integer, is_pointer, is_scalar, target_of, type_for};
ghost use Rattle.clight_types.specs.Operands.{is_value, is_zero, operand};
ghost use Rattle.clight_types.specs.Operands.{number_of as number_of_lem, is_place as is_place_lem, steps_over as steps_over_lem};
ghost use Rattle.clight_types.specs.Expressions.{are_pointer_and_steps};
ghost use Rattle.c_types.specs.Conversions.{unsigned_char};
ghost use Rattle.clight_types.specs.Code.HeldStructs.{structs_of};

use crate::declared::capped_size;
use crate::structs::Structs;
use c_types::{IntegerType, Ty};
use clight_source::tree::PrefixOperator;
use clight_syntax::typed::Expr;

/// The type that an expression carries.
pub fn carried(e: &Expr) -> &Ty
    ensures { type_of result.now ≡ type_at (expr_of e.now) }
{
    match e {
        Expr::Variable(ty, _, _)
        | Expr::Number(ty, _, _)
        | Expr::Parenthesis(ty, _, _, _)
        | Expr::Binary(ty, _, _, _, _)
        | Expr::Prefix(ty, _, _, _)
        | Expr::Cast(ty, _, _, _, _)
        | Expr::Index(ty, _, _, _, _)
        | Expr::Member(ty, _, _, _, _, _) => ty,
    }
}

/// The number that an expression is, in any parentheses.
pub fn number_of(e: &Expr) -> Option<u32>
    ensures { result ≡ number_of_lem (expr_of e.now) }
{
    match e {
        Expr::Number(_, literal, _) => Some(literal.value),
        Expr::Parenthesis(_, _, part, _) => number_of(part),
        _ => None,
    }
}

/// Whether an expression is a place: a variable, an element, a member, or what a pointer points to, in any parentheses.
pub fn is_place(e: &Expr) -> bool
    ensures { result ≡ is_place_lem (expr_of e.now) }
{
    match e {
        Expr::Variable(_, _, _) | Expr::Index(_, _, _, _, _) | Expr::Member(_, _, _, _, _, _) =>
            true,
        Expr::Parenthesis(_, _, part, _) => is_place(part),
        Expr::Prefix(_, PrefixOperator::Dereference, _, _) => true,
        _ => false,
    }
}

/// The integer type of an expression's value, if it is one.
pub fn value_integer(e: &Expr) -> Option<IntegerType>
    ensures { option_map type_for result ≡ (if is_integer (operand (expr_of e.now)).type then Some (operand (expr_of e.now)).type else None) }
{
    IntegerType::of(carried(e))
}

/// Whether the value of an expression is an integer.
pub fn is_integer_value(e: &Expr) -> bool
    ensures { result ≡ is_integer (operand (expr_of e.now)).type }
{
    carried(e).is_integer()
}

/// What the value of an expression points to, if it is a pointer. An array is the pointer to its first element.
pub fn target(e: &Expr) -> Option<&Ty>
    ensures { option_map (λ x. type_of x.now) result ≡ (if is_pointer (operand (expr_of e.now)).type then Some (target_of (operand (expr_of e.now)).type) else None) }
{
    carried(e).target()
}

/// Whether the value of an expression is an integer or a pointer.
pub fn is_scalar_value(e: &Expr) -> bool
    ensures { result ≡ is_scalar (operand (expr_of e.now)).type }
{
    match carried(e) {
        Ty::Void | Ty::Struct(_) => false,
        _ => true,
    }
}

/// Whether an expression has a value that an operator can take: it is neither a struct nor nothing.
pub fn has_value(e: &Expr) -> bool
    ensures { result ≡ is_value (type_at (expr_of e.now)) }
{
    match carried(e) {
        Ty::Void | Ty::Struct(_) => false,
        _ => true,
    }
}

/// Whether an expression is the number 0.
pub fn is_zero_number(e: &Expr) -> bool
    ensures { result ≡ is_zero (operand (expr_of e.now)) }
{
    match number_of(e) {
        Some(value) => value == 0,
        None => false,
    }
}

/// Whether the value of an expression is an `unsigned char`.
pub fn is_unsigned_char(e: &Expr) -> bool
    ensures { result ≡ type_eq (operand (expr_of e.now)).type unsigned_char }
{
    match carried(e) {
        Ty::U8 => true,
        _ => false,
    }
}

/// The powers of two that are sizes.
const POWERS: [u32; 16] = [
    1, 2, 4, 8, 16, 32, 64, 128, 256, 512, 1024, 2048, 4096, 8192, 16384, 32768,
];

/// Whether an integer may step over so many bytes: they are a power of two, or it is a number, or it is an `unsigned char` and
/// they are at most 255.
pub fn steps_over(e: &Expr, bytes: u32) -> bool
    ensures { result ≡ steps_over_lem (operand (expr_of e.now)) bytes }
{
    if !is_integer_value(e) {
        return false;
    }
    POWERS.contains(&bytes) || number_of(e).is_some() || (is_unsigned_char(e) && bytes <= 255)
}

/// Whether one expression is a pointer and the other an integer that may step over what it points to.
pub fn is_pointer_and_steps(structs: &Structs, pointer: &Expr, steps: &Expr) -> bool
    ensures { result ≡ are_pointer_and_steps (structs_of structs.now) (operand (expr_of pointer.now)) (operand (expr_of steps.now)) }
{
    match target(pointer) {
        Some(element) => steps_over(steps, capped_size(structs, element)),
        None => false,
    }
}
