//! What may be assigned to what (ISO/IEC 9899:1999, 6.5.2.2 and 6.5.16.1).
ghost use Rattle.std.specs.Prelude.{◌≡◌, map};
ghost use Rattle.c_types.specs.Types.{type_of};
ghost use Rattle.clight_syntax.specs.Code.TypedViews.{expr_of, earlier_argument_of, arguments_of};
ghost use Rattle.clight_types.specs.Operands.{is_assignable, operand};
ghost use Rattle.clight_types.specs.Assignable.{takes as takes_lem, variable_of as variable_of_lem, values_of, values_onto, are_assignable as are_assignable_lem, result_operand};

use crate::operands::{carried, is_integer_value, is_place, is_zero_number, target};
use c_types::Ty;
use clight_syntax::typed::{Arguments, EarlierArgument, Expr};

/// Whether a value may be assigned to a place of this type (ISO/IEC 9899:1999, 6.5.16.1).
pub fn is_assignable_to(value: &Expr, ty: &Ty) -> bool
    ensures { result ≡ is_assignable (operand (expr_of value.now)) (type_of ty.now) }
{
    match ty {
        Ty::U8 | Ty::I8 | Ty::I16 | Ty::U16 | Ty::I32 | Ty::U32 => is_integer_value(value),
        Ty::Pointer(wanted) => match target(value) {
            Some(pointee) => pointee.is_same(wanted) || is_zero_number(value),
            None => is_zero_number(value),
        },
        _ => false,
    }
}

/// Whether the value may be assigned to the target.
pub fn takes(target: &Expr, value: &Expr) -> bool
    ensures { result ≡ takes_lem (expr_of target.now) (expr_of value.now) }
{
    is_place(target) && carried(target).is_scalar() && is_assignable_to(value, carried(target))
}

/// The variable that an expression is, in any parentheses.
pub fn variable_of(e: &Expr) -> Option<u32>
    ensures { result ≡ variable_of_lem (expr_of e.now) }
{
    match e {
        Expr::Variable(_, variable, _) => Some(*variable),
        Expr::Parenthesis(_, _, part, _) => variable_of(part),
        _ => None,
    }
}

/// Whether the result of a call may be assigned to a variable of this type.
pub fn is_result_assignable(result_type: &Ty, ty: &Ty) -> bool
    ensures { result ≡ is_assignable (result_operand (type_of result_type.now)) (type_of ty.now) }
{
    match (result_type, ty) {
        (Ty::Pointer(one), Ty::Pointer(other)) => one.is_same(other),
        (_, _) => result_type.is_integer() && ty.is_integer(),
    }
}

/// Whether the values before the last one and the last one may be assigned to parameters of these types, of which there are as many.
fn are_listed_assignable(earlier: &[EarlierArgument], last: &Expr, types: &[Ty]) -> bool
    ensures { result ≡ are_assignable_lem (values_onto (map earlier_argument_of earlier.now) (expr_of last.now)) (map type_of types.now) }
{
    let mut parameter = 0;
    for x in earlier {
        match types.get(parameter) {
            Some(ty) if is_assignable_to(&x.value, ty) => parameter += 1,
            _ => return false,
        }
    }
    match types.get(parameter) {
        Some(ty) => is_assignable_to(last, ty) && types.get(parameter + 1).is_none(),
        None => false,
    }
}

/// Whether the arguments may be assigned to parameters of these types, of which there are as many.
pub fn are_assignable(x: &Arguments, types: &[Ty]) -> bool
    ensures { result ≡ are_assignable_lem (values_of (arguments_of x.now)) (map type_of types.now) }
{
    match x {
        Arguments::Nothing => types.is_empty(),
        Arguments::Listed(earlier, last) => are_listed_assignable(earlier, last, types),
    }
}
