//! The nodes of statements.

ghost use Rattle.std.specs.Prelude.{◌≡◌, OnOk, option_map};
ghost use Rattle.clight_source.specs.Trees as t;
ghost use Rattle.clight_source.specs.Code.Views.{stmt_of, for_head_of, assignment_of, expr_of};
ghost use Rattle.clight_build.specs.Code.Stacks as s;
ghost use Rattle.clight_build.specs.Code.Views.{views, expr_in, stmt_in, list_in, arguments_in, assignment_in, boxed_assignment, condition_in};

use crate::stacks::{
    put_assignment, put_condition, put_list, put_stmt, take_arguments, take_assignment,
    take_condition, take_expr, take_list, take_stmt,
};
use cerco_base::NoMemory;
use clight_nodes::forms::ForMiddle;
use clight_source::span::Span;
use clight_source::tree::{
    Arguments, Assignment, Call, CallTarget, EarlierArgument, Expr, ForHead, Name, Stmt, Test,
};
use std::alloc::Global;

/// One statement more.
#[tactic(auto, using(crate::proofs::Pushes::pushes))]
pub fn one_statement(stmts: &mut Vec<Box<Stmt>>, lists: &mut Vec<Vec<Stmt>>) -> Result<(), NoMemory>
    ensures lists { OnOk result (views list_in lists.new.items ≡ s.one_statement (views stmt_in stmts.old.items) (views list_in lists.old.items)) }
    ensures stmts { OnOk result (views stmt_in stmts.new.items ≡ s.rest (views stmt_in stmts.old.items)) }
{
    let Some(x) = take_stmt(stmts) else {
        return Ok(());
    };
    let Some(mut xs) = take_list(lists) else {
        return Ok(());
    };
    xs.push(Box::into_inner(x))?;
    put_list(lists, xs)
}

// A block of its statements.
fn block_of(left: Span, xs: Vec<Stmt>, right: Span) -> Stmt
    ensures { stmt_of result ≡ t.Block left (list_in xs) right }
{
    Stmt::Block(left, xs, right)
}

/// A block.
pub fn block(
    alloc: Global,
    lists: &mut Vec<Vec<Stmt>>,
    stmts: &mut Vec<Box<Stmt>>,
    left: Span,
    right: Span,
) -> Result<(), NoMemory>
    ensures stmts { OnOk result (views stmt_in stmts.new.items ≡ s.block left right (views list_in lists.old.items) (views stmt_in stmts.old.items)) }
    ensures lists { OnOk result (views list_in lists.new.items ≡ s.rest (views list_in lists.old.items)) }
{
    let Some(xs) = take_list(lists) else {
        return Ok(());
    };
    put_stmt(alloc, stmts, block_of(left, xs, right))
}

/// `target = value;`
pub fn assign(
    alloc: Global,
    exprs: &mut Vec<Box<Expr>>,
    stmts: &mut Vec<Box<Stmt>>,
    equals: Span,
    semicolon: Span,
) -> Result<(), NoMemory>
    ensures stmts { OnOk result (views stmt_in stmts.new.items ≡ s.assign equals semicolon (views expr_in exprs.old.items) (views stmt_in stmts.old.items)) }
    ensures exprs { OnOk result (views expr_in exprs.new.items ≡ s.rest (s.rest (views expr_in exprs.old.items))) }
{
    let Some(value) = take_expr(exprs) else {
        return Ok(());
    };
    let Some(target) = take_expr(exprs) else {
        return Ok(());
    };
    let assignment = Assignment {
        target: Box::into_inner(target),
        equals,
        value: Box::into_inner(value),
    };
    put_stmt(alloc, stmts, Stmt::Assign(assignment, semicolon))
}

/// `target = P1;`
pub fn read_port(
    alloc: Global,
    exprs: &mut Vec<Box<Expr>>,
    stmts: &mut Vec<Box<Stmt>>,
    equals: Span,
    port: Span,
    semicolon: Span,
) -> Result<(), NoMemory>
    ensures stmts { OnOk result (views stmt_in stmts.new.items ≡ s.read_port equals port semicolon (views expr_in exprs.old.items) (views stmt_in stmts.old.items)) }
    ensures exprs { OnOk result (views expr_in exprs.new.items ≡ s.rest (views expr_in exprs.old.items)) }
{
    let Some(target) = take_expr(exprs) else {
        return Ok(());
    };
    put_stmt(
        alloc,
        stmts,
        Stmt::ReadPort(Box::into_inner(target), equals, port, semicolon),
    )
}

/// `P1 = value;`
pub fn write_port(
    alloc: Global,
    exprs: &mut Vec<Box<Expr>>,
    stmts: &mut Vec<Box<Stmt>>,
    port: Span,
    equals: Span,
    semicolon: Span,
) -> Result<(), NoMemory>
    ensures stmts { OnOk result (views stmt_in stmts.new.items ≡ s.write_port port equals semicolon (views expr_in exprs.old.items) (views stmt_in stmts.old.items)) }
    ensures exprs { OnOk result (views expr_in exprs.new.items ≡ s.rest (views expr_in exprs.old.items)) }
{
    let Some(value) = take_expr(exprs) else {
        return Ok(());
    };
    put_stmt(
        alloc,
        stmts,
        Stmt::WritePort(port, equals, Box::into_inner(value), semicolon),
    )
}

/// `target = function(arguments);`
pub fn call(
    alloc: Global,
    exprs: &mut Vec<Box<Expr>>,
    arguments: &mut Vec<Vec<EarlierArgument>>,
    stmts: &mut Vec<Box<Stmt>>,
    target: Option<CallTarget>,
    function: Name,
    left: Span,
    right: Span,
    semicolon: Span,
) -> Result<(), NoMemory>
    ensures stmts { OnOk result (views stmt_in stmts.new.items ≡ s.call target function left right semicolon (views expr_in exprs.old.items) (views arguments_in arguments.old.items) (views stmt_in stmts.old.items)) }
    ensures exprs { OnOk result (views expr_in exprs.new.items ≡ s.rest (views expr_in exprs.old.items)) }
    ensures arguments { OnOk result (views arguments_in arguments.new.items ≡ s.rest_with (views expr_in exprs.old.items) (views arguments_in arguments.old.items)) }
{
    let Some(last) = take_expr(exprs) else {
        return Ok(());
    };
    let Some(earlier) = take_arguments(arguments) else {
        return Ok(());
    };
    let call = Call {
        target,
        function,
        left,
        arguments: Arguments::Listed(earlier, Box::into_inner(last)),
        right,
    };
    put_stmt(alloc, stmts, Stmt::Call(call, semicolon))
}

/// `if` without an `else`.
pub fn if_statement(
    alloc: Global,
    exprs: &mut Vec<Box<Expr>>,
    stmts: &mut Vec<Box<Stmt>>,
    keyword: Span,
    left: Span,
    right: Span,
) -> Result<(), NoMemory>
    ensures stmts { OnOk result (views stmt_in stmts.new.items ≡ s.if_statement keyword left right (views expr_in exprs.old.items) (views stmt_in stmts.old.items)) }
    ensures exprs { OnOk result (views expr_in exprs.new.items ≡ s.rest (views expr_in exprs.old.items)) }
{
    let Some(e) = take_expr(exprs) else {
        return Ok(());
    };
    let Some(x) = take_stmt(stmts) else {
        return Ok(());
    };
    let test = Test {
        keyword,
        left,
        condition: Box::into_inner(e),
        right,
    };
    put_stmt(alloc, stmts, Stmt::If(test, x))
}

/// `if` with an `else`.
pub fn if_else(
    alloc: Global,
    exprs: &mut Vec<Box<Expr>>,
    stmts: &mut Vec<Box<Stmt>>,
    keyword: Span,
    left: Span,
    right: Span,
    at: Span,
) -> Result<(), NoMemory>
    ensures stmts { OnOk result (views stmt_in stmts.new.items ≡ s.if_else keyword left right at (views expr_in exprs.old.items) (views stmt_in stmts.old.items)) }
    ensures exprs { OnOk result (views expr_in exprs.new.items ≡ s.rest (views expr_in exprs.old.items)) }
{
    let Some(e) = take_expr(exprs) else {
        return Ok(());
    };
    let Some(y) = take_stmt(stmts) else {
        return Ok(());
    };
    let Some(x) = take_stmt(stmts) else {
        return Ok(());
    };
    let test = Test {
        keyword,
        left,
        condition: Box::into_inner(e),
        right,
    };
    put_stmt(alloc, stmts, Stmt::IfElse(test, x, at, y))
}

/// `while`
pub fn while_statement(
    alloc: Global,
    exprs: &mut Vec<Box<Expr>>,
    stmts: &mut Vec<Box<Stmt>>,
    keyword: Span,
    left: Span,
    right: Span,
) -> Result<(), NoMemory>
    ensures stmts { OnOk result (views stmt_in stmts.new.items ≡ s.while_statement keyword left right (views expr_in exprs.old.items) (views stmt_in stmts.old.items)) }
    ensures exprs { OnOk result (views expr_in exprs.new.items ≡ s.rest (views expr_in exprs.old.items)) }
{
    let Some(e) = take_expr(exprs) else {
        return Ok(());
    };
    let Some(x) = take_stmt(stmts) else {
        return Ok(());
    };
    let test = Test {
        keyword,
        left,
        condition: Box::into_inner(e),
        right,
    };
    put_stmt(alloc, stmts, Stmt::While(test, x))
}

/// `do`
pub fn do_statement(
    alloc: Global,
    exprs: &mut Vec<Box<Expr>>,
    stmts: &mut Vec<Box<Stmt>>,
    keyword: Span,
    inner: Span,
    left: Span,
    right: Span,
    semicolon: Span,
) -> Result<(), NoMemory>
    ensures stmts { OnOk result (views stmt_in stmts.new.items ≡ s.do_statement keyword inner left right semicolon (views expr_in exprs.old.items) (views stmt_in stmts.old.items)) }
    ensures exprs { OnOk result (views expr_in exprs.new.items ≡ s.rest (views expr_in exprs.old.items)) }
{
    let Some(e) = take_expr(exprs) else {
        return Ok(());
    };
    let Some(x) = take_stmt(stmts) else {
        return Ok(());
    };
    let test = Test {
        keyword: inner,
        left,
        condition: Box::into_inner(e),
        right,
    };
    put_stmt(alloc, stmts, Stmt::Do(keyword, x, test, semicolon))
}

/// An assignment of a `for`.
pub fn assignment(
    alloc: Global,
    exprs: &mut Vec<Box<Expr>>,
    assignments: &mut Vec<Option<Box<Assignment>>>,
    equals: Span,
) -> Result<(), NoMemory>
    ensures assignments { OnOk result (views assignment_in assignments.new.items ≡ s.assignment equals (views expr_in exprs.old.items) (views assignment_in assignments.old.items)) }
    ensures exprs { OnOk result (views expr_in exprs.new.items ≡ s.rest (s.rest (views expr_in exprs.old.items))) }
{
    let Some(value) = take_expr(exprs) else {
        return Ok(());
    };
    let Some(target) = take_expr(exprs) else {
        return Ok(());
    };
    let assignment = Assignment {
        target: Box::into_inner(target),
        equals,
        value: Box::into_inner(value),
    };
    put_assignment(alloc, assignments, assignment)
}

/// The condition of a `for`.
pub fn condition(
    exprs: &mut Vec<Box<Expr>>,
    conditions: &mut Vec<Option<Box<Expr>>>,
) -> Result<(), NoMemory>
    ensures conditions { OnOk result (views condition_in conditions.new.items ≡ s.condition (views expr_in exprs.old.items) (views condition_in conditions.old.items)) }
    ensures exprs { OnOk result (views expr_in exprs.new.items ≡ s.rest (views expr_in exprs.old.items)) }
{
    let Some(e) = take_expr(exprs) else {
        return Ok(());
    };
    put_condition(conditions, Some(e))
}

fn unboxed_assignment(x: Option<Box<Assignment>>) -> Option<Assignment>
    ensures { option_map assignment_of result ≡ assignment_in x }
{
    match x {
        Some(assignment) => Some(Box::into_inner(assignment)),
        None => None,
    }
}

fn unboxed(e: Option<Box<Expr>>) -> Option<Expr>
    ensures { option_map expr_of result ≡ condition_in e }
{
    match e {
        Some(e) => Some(Box::into_inner(e)),
        None => None,
    }
}

// `for (first; condition; step)`
fn take_head(
    assignments: &mut Vec<Option<Box<Assignment>>>,
    conditions: &mut Vec<Option<Box<Expr>>>,
    middle: ForMiddle,
    right: Span,
) -> Option<ForHead>
    ensures head { option_map for_head_of result ≡ s.head middle right (views assignment_in assignments.old.items) (views condition_in conditions.old.items) }
    ensures assignments { views assignment_in assignments.new.items ≡ s.rest_with (views condition_in conditions.old.items) (s.rest (views assignment_in assignments.old.items)) }
    ensures conditions { views condition_in conditions.new.items ≡ s.rest_with (views assignment_in assignments.old.items) (views condition_in conditions.old.items) }
{
    let Some(step) = take_assignment(assignments) else {
        return None;
    };
    let Some(condition) = take_condition(conditions) else {
        return None;
    };
    let Some(first) = take_assignment(assignments) else {
        return None;
    };
    Some(ForHead {
        keyword: middle.start.keyword,
        left: middle.start.left,
        first: unboxed_assignment(first),
        first_semicolon: middle.start.semicolon,
        condition: unboxed(condition),
        second_semicolon: middle.semicolon,
        step: unboxed_assignment(step),
        right,
    })
}

/// `for`
pub fn for_statement(
    alloc: Global,
    assignments: &mut Vec<Option<Box<Assignment>>>,
    conditions: &mut Vec<Option<Box<Expr>>>,
    stmts: &mut Vec<Box<Stmt>>,
    middle: ForMiddle,
    right: Span,
) -> Result<(), NoMemory>
    ensures stmts { OnOk result (views stmt_in stmts.new.items ≡ s.for_statement (s.head middle right (views assignment_in assignments.old.items) (views condition_in conditions.old.items)) (views stmt_in stmts.old.items)) }
    ensures assignments { OnOk result (views assignment_in assignments.new.items ≡ s.after (views stmt_in stmts.old.items) (views assignment_in assignments.old.items) (s.rest_with (views condition_in conditions.old.items) (s.rest (views assignment_in assignments.old.items)))) }
    ensures conditions { OnOk result (views condition_in conditions.new.items ≡ s.after (views stmt_in stmts.old.items) (views condition_in conditions.old.items) (s.rest_with (views assignment_in assignments.old.items) (views condition_in conditions.old.items))) }
{
    let Some(x) = take_stmt(stmts) else {
        return Ok(());
    };
    let Some(head) = take_head(assignments, conditions, middle, right) else {
        return Ok(());
    };
    put_stmt(alloc, stmts, Stmt::For(head, x))
}

/// `return` with a value.
pub fn return_value(
    alloc: Global,
    exprs: &mut Vec<Box<Expr>>,
    stmts: &mut Vec<Box<Stmt>>,
    keyword: Span,
    semicolon: Span,
) -> Result<(), NoMemory>
    ensures stmts { OnOk result (views stmt_in stmts.new.items ≡ s.return_value keyword semicolon (views expr_in exprs.old.items) (views stmt_in stmts.old.items)) }
    ensures exprs { OnOk result (views expr_in exprs.new.items ≡ s.rest (views expr_in exprs.old.items)) }
{
    let Some(e) = take_expr(exprs) else {
        return Ok(());
    };
    put_stmt(
        alloc,
        stmts,
        Stmt::Return(keyword, Some(Box::into_inner(e)), semicolon),
    )
}
