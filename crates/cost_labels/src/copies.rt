//! Copies of expressions and calls.
ghost use Rattle.std.specs.Prelude.{◌≡◌, map, option_map, IfOk};
ghost use Rattle.clight_syntax.specs.Code.TypedViews.{expr_of, assignment_of, earlier_argument_of, arguments_of, call_of};
ghost use Rattle.c_types.specs.Types.{type_of};
ghost use Rattle.clight_syntax.specs.TypedTrees.{type_at};
ghost use Rattle.cost_labels.specs.Code.Boxes.{in_optional_box};

use crate::boxes::boxed;
use c_types::Ty;
use cerco_base::NoMemory;
use clight_syntax::typed::{Arguments, Assignment, Call, EarlierArgument, Expr};
use std::alloc::Global;

// The type that an expression carries.
fn carried(e: &Expr) -> &Ty
    ensures { type_of result.now ≡ type_at (expr_of e.now) }
{
    match e {
        Expr::Variable(ty, _, _)
        | Expr::Number(ty, _, _)
        | Expr::Parenthesis(ty, _, _, _)
        | Expr::Binary(ty, _, _, _, _)
        | Expr::Prefix(ty, _, _, _)
        | Expr::Cast(ty, _, _, _, _)
        | Expr::Index(ty, _, _, _, _)
        | Expr::Member(ty, _, _, _, _, _) => ty,
    }
}

/// A copy of an expression.
pub fn copy_expr(alloc: Global, e: &Expr) -> Result<Box<Expr>, NoMemory>
    ensures { IfOk result (λ r. expr_of r.value ≡ expr_of e.now) }
{
    let ty = carried(e).duplicate(alloc)?;
    match e {
        Expr::Variable(_, variable, name) => boxed(alloc, Expr::Variable(ty, *variable, *name)),
        Expr::Number(_, number, span) => boxed(alloc, Expr::Number(ty, *number, *span)),
        Expr::Parenthesis(_, left, inner, right) => {
            let inner = copy_expr(alloc, inner)?;
            boxed(alloc, Expr::Parenthesis(ty, *left, inner, *right))
        }
        Expr::Binary(_, left, operator, at, right) => {
            let left = copy_expr(alloc, left)?;
            let right = copy_expr(alloc, right)?;
            boxed(alloc, Expr::Binary(ty, left, *operator, *at, right))
        }
        Expr::Prefix(_, operator, at, operand) => {
            let operand = copy_expr(alloc, operand)?;
            boxed(alloc, Expr::Prefix(ty, *operator, *at, operand))
        }
        Expr::Cast(_, left, words, right, operand) => {
            let operand = copy_expr(alloc, operand)?;
            boxed(alloc, Expr::Cast(ty, *left, *words, *right, operand))
        }
        Expr::Index(_, base, left, index, right) => {
            let base = copy_expr(alloc, base)?;
            let index = copy_expr(alloc, index)?;
            boxed(alloc, Expr::Index(ty, base, *left, index, *right))
        }
        Expr::Member(_, base, operator, at, name, offset) => {
            let base = copy_expr(alloc, base)?;
            boxed(
                alloc,
                Expr::Member(ty, base, *operator, *at, *name, *offset),
            )
        }
    }
}

/// A copy of an expression, if there is one.
pub fn copy_optional_expr(alloc: Global, e: &Option<Expr>) -> Result<Option<Expr>, NoMemory>
    ensures { IfOk result (λ r. option_map expr_of r ≡ option_map expr_of e.now) }
{
    match e {
        None => Ok(None),
        Some(e) => {
            let e = copy_expr(alloc, e)?;
            Ok(Some(Box::into_inner(e)))
        }
    }
}

/// A copy of an assignment.
pub fn copy_assignment(alloc: Global, x: &Assignment) -> Result<Box<Assignment>, NoMemory>
    ensures { IfOk result (λ r. assignment_of r.value ≡ assignment_of x.now) }
{
    let target = copy_expr(alloc, &x.target)?;
    let value = copy_expr(alloc, &x.value)?;
    boxed(
        alloc,
        Assignment {
            target: Box::into_inner(target),
            equals: x.equals,
            value: Box::into_inner(value),
        },
    )
}

/// A copy of an assignment, if there is one.
pub fn copy_optional_assignment(
    alloc: Global,
    x: &Option<Assignment>,
) -> Result<Option<Box<Assignment>>, NoMemory>
    ensures { IfOk result (λ r. option_map assignment_of (in_optional_box r) ≡ option_map assignment_of x.now) }
{
    match x {
        None => Ok(None),
        Some(x) => Ok(Some(copy_assignment(alloc, x)?)),
    }
}

// A copy of an argument and the comma after it.
fn copy_earlier_argument(alloc: Global, x: &EarlierArgument) -> Result<EarlierArgument, NoMemory>
    ensures { IfOk result (λ r. earlier_argument_of r ≡ earlier_argument_of x.now) }
{
    let value = copy_expr(alloc, &x.value)?;
    Ok(EarlierArgument {
        value: Box::into_inner(value),
        comma: x.comma,
    })
}

// A copy of all arguments but the last one.
fn copy_earlier_arguments(
    alloc: Global,
    xs: &[EarlierArgument],
) -> Result<Vec<EarlierArgument>, NoMemory>
    ensures { IfOk result (λ r. map earlier_argument_of r.items ≡ map earlier_argument_of xs.now) }
{
    let mut copies = Vec::new(alloc);
    for x in xs {
        copies.push(copy_earlier_argument(alloc, x)?)?;
    }
    Ok(copies)
}

// A copy of the arguments of a call.
fn copy_arguments(alloc: Global, x: &Arguments) -> Result<Arguments, NoMemory>
    ensures { IfOk result (λ r. arguments_of r ≡ arguments_of x.now) }
{
    match x {
        Arguments::Nothing => Ok(Arguments::Nothing),
        Arguments::Listed(earlier, last) => {
            let earlier = copy_earlier_arguments(alloc, earlier.as_slice())?;
            let last = copy_expr(alloc, last)?;
            Ok(Arguments::Listed(earlier, Box::into_inner(last)))
        }
    }
}

/// A copy of a call.
pub fn copy_call(alloc: Global, x: &Call) -> Result<Call, NoMemory>
    ensures { IfOk result (λ r. call_of r ≡ call_of x.now) }
{
    Ok(Call {
        target: x.target,
        function: x.function,
        name: x.name,
        left: x.left,
        arguments: copy_arguments(alloc, &x.arguments)?,
        right: x.right,
    })
}
