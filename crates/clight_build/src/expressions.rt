//! The nodes of expressions.

ghost use Rattle.std.specs.Prelude.{◌≡◌, OnOk};
ghost use Rattle.clight_build.specs.Code.Stacks as s;
ghost use Rattle.clight_build.specs.Code.Views.{views, expr_in, arguments_in};

use crate::stacks::{put_arguments, put_expr, take_arguments, take_expr};
use cerco_base::NoMemory;
use clight_source::span::Span;
use clight_source::tree::{
    BinaryOperator, EarlierArgument, Expr, MemberOperator, Name, PrefixOperator, Specifiers,
};
use std::alloc::Global;

/// An expression in parentheses.
pub fn parenthesis(
    alloc: Global,
    exprs: &mut Vec<Box<Expr>>,
    left: Span,
    right: Span,
) -> Result<(), NoMemory>
    ensures { OnOk result (views expr_in exprs.new.items ≡ s.parenthesis left right (views expr_in exprs.old.items)) }
{
    let Some(e) = take_expr(exprs) else {
        return Ok(());
    };
    put_expr(alloc, exprs, Expr::Parenthesis(left, e, right))
}

/// A binary operator between its operands.
pub fn binary(
    alloc: Global,
    exprs: &mut Vec<Box<Expr>>,
    operator: BinaryOperator,
    at: Span,
) -> Result<(), NoMemory>
    ensures { OnOk result (views expr_in exprs.new.items ≡ s.binary operator at (views expr_in exprs.old.items)) }
{
    let Some(r) = take_expr(exprs) else {
        return Ok(());
    };
    let Some(l) = take_expr(exprs) else {
        return Ok(());
    };
    put_expr(alloc, exprs, Expr::Binary(l, operator, at, r))
}

/// A prefix operator before its operand.
pub fn prefix(
    alloc: Global,
    exprs: &mut Vec<Box<Expr>>,
    operator: PrefixOperator,
    at: Span,
) -> Result<(), NoMemory>
    ensures { OnOk result (views expr_in exprs.new.items ≡ s.prefix operator at (views expr_in exprs.old.items)) }
{
    let Some(e) = take_expr(exprs) else {
        return Ok(());
    };
    put_expr(alloc, exprs, Expr::Prefix(operator, at, e))
}

/// A cast of its operand.
pub fn cast(
    alloc: Global,
    exprs: &mut Vec<Box<Expr>>,
    left: Span,
    specifiers: Specifiers,
    right: Span,
) -> Result<(), NoMemory>
    ensures { OnOk result (views expr_in exprs.new.items ≡ s.cast left specifiers right (views expr_in exprs.old.items)) }
{
    let Some(e) = take_expr(exprs) else {
        return Ok(());
    };
    put_expr(alloc, exprs, Expr::Cast(left, specifiers, right, e))
}

/// An element of an array.
pub fn index(
    alloc: Global,
    exprs: &mut Vec<Box<Expr>>,
    left: Span,
    right: Span,
) -> Result<(), NoMemory>
    ensures { OnOk result (views expr_in exprs.new.items ≡ s.index left right (views expr_in exprs.old.items)) }
{
    let Some(i) = take_expr(exprs) else {
        return Ok(());
    };
    let Some(e) = take_expr(exprs) else {
        return Ok(());
    };
    put_expr(alloc, exprs, Expr::Index(e, left, i, right))
}

/// A member.
pub fn select(
    alloc: Global,
    exprs: &mut Vec<Box<Expr>>,
    operator: MemberOperator,
    at: Span,
    member: Name,
) -> Result<(), NoMemory>
    ensures { OnOk result (views expr_in exprs.new.items ≡ s.select operator at member (views expr_in exprs.old.items)) }
{
    let Some(e) = take_expr(exprs) else {
        return Ok(());
    };
    put_expr(alloc, exprs, Expr::Member(e, operator, at, member))
}

/// One argument more.
#[tactic(auto, using(crate::proofs::Pushes::pushes))]
pub fn one_argument(
    exprs: &mut Vec<Box<Expr>>,
    arguments: &mut Vec<Vec<EarlierArgument>>,
    comma: Span,
) -> Result<(), NoMemory>
    ensures arguments { OnOk result (views arguments_in arguments.new.items ≡ s.one_argument comma (views expr_in exprs.old.items) (views arguments_in arguments.old.items)) }
    ensures exprs { OnOk result (views expr_in exprs.new.items ≡ s.rest (views expr_in exprs.old.items)) }
{
    let Some(e) = take_expr(exprs) else {
        return Ok(());
    };
    let Some(mut l) = take_arguments(arguments) else {
        return Ok(());
    };
    l.push(EarlierArgument {
        value: Box::into_inner(e),
        comma,
    })?;
    put_arguments(arguments, l)
}
