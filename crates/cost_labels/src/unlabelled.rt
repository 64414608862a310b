//! Copies of the parts of a program without their labels.
ghost use Rattle.std.specs.Prelude.{◌≡◌, map, option_map, IfOk};
ghost use Rattle.clight_syntax.specs.Code.TypedViews.{cond_of, test_of, for_head_of, stmt_of, stmts_of, function_of};
ghost use Rattle.clight_syntax.specs.Labelling.{cond_without, test_without, head_without, stmt_without, stmts_without, function_without};

use crate::boxes::{boxed, unboxed};
use crate::copies::{
    copy_assignment, copy_call, copy_expr, copy_optional_assignment, copy_optional_expr,
};
use crate::declarations::{copy_header, copy_locals};
use cerco_base::{Label, NoMemory};
use clight_syntax::typed::{Cond, ForHead, Function, Stmt, Test};
use std::alloc::Global;

// A condition without its labels.
fn cond_alone(alloc: Global, c: &Cond<Label>) -> Result<Box<Cond<()>>, NoMemory>
    ensures { IfOk result (λ r. cond_of r.value ≡ cond_without (cond_of c.now)) }
{
    match c {
        Cond::Value(e) => {
            let e = copy_expr(alloc, e)?;
            boxed(alloc, Cond::Value(Box::into_inner(e)))
        }
        Cond::Parenthesis(left, inner, right) => {
            let inner = cond_alone(alloc, inner)?;
            boxed(alloc, Cond::Parenthesis(*left, inner, *right))
        }
        Cond::Not(at, inner) => {
            let inner = cond_alone(alloc, inner)?;
            boxed(alloc, Cond::Not(*at, inner))
        }
        Cond::Both(left, at, _, _, right) => {
            let left = cond_alone(alloc, left)?;
            let right = cond_alone(alloc, right)?;
            boxed(alloc, Cond::Both(left, *at, (), (), right))
        }
        Cond::Either(left, at, _, _, right) => {
            let left = cond_alone(alloc, left)?;
            let right = cond_alone(alloc, right)?;
            boxed(alloc, Cond::Either(left, *at, (), (), right))
        }
    }
}

// The condition of a statement without its labels.
fn test_alone(alloc: Global, x: &Test<Label>) -> Result<Test<()>, NoMemory>
    ensures { IfOk result (λ r. test_of r ≡ test_without (test_of x.now)) }
{
    let condition = cond_alone(alloc, &x.condition)?;
    Ok(Test {
        keyword: x.keyword,
        left: x.left,
        condition: Box::into_inner(condition),
        right: x.right,
    })
}

// A condition without its labels, if there is one.
fn optional_alone(alloc: Global, c: &Option<Cond<Label>>) -> Result<Option<Cond<()>>, NoMemory>
    ensures { IfOk result (λ r. option_map cond_of r ≡ option_map cond_without (option_map cond_of c.now)) }
{
    match c {
        None => Ok(None),
        Some(c) => {
            let c = cond_alone(alloc, c)?;
            Ok(Some(Box::into_inner(c)))
        }
    }
}

// What stands before the body of a `for`, without its labels.
fn head_alone(alloc: Global, x: &ForHead<Label>) -> Result<ForHead<()>, NoMemory>
    ensures { IfOk result (λ r. for_head_of r ≡ head_without (for_head_of x.now)) }
{
    let first = copy_optional_assignment(alloc, &x.first)?;
    let step = copy_optional_assignment(alloc, &x.step)?;
    let condition = optional_alone(alloc, &x.condition)?;
    Ok(ForHead {
        keyword: x.keyword,
        left: x.left,
        first: unboxed(first),
        first_semicolon: x.first_semicolon,
        condition,
        second_semicolon: x.second_semicolon,
        step: unboxed(step),
        right: x.right,
    })
}

// A statement without its labels.
#[cycle(stmt_alone)]
fn stmt_alone(alloc: Global, s: &Stmt<Label>) -> Result<Box<Stmt<()>>, NoMemory>
    ensures { IfOk result (λ r. stmt_of r.value ≡ stmt_without (stmt_of s.now)) }
{
    match s {
        Stmt::Empty(semicolon) => boxed(alloc, Stmt::Empty(*semicolon)),
        Stmt::Block(left, body, right) => {
            let body = stmts_alone(alloc, body.as_slice())?;
            boxed(alloc, Stmt::Block(*left, body, *right))
        }
        Stmt::Assign(x, semicolon) => {
            let x = copy_assignment(alloc, x)?;
            boxed(alloc, Stmt::Assign(Box::into_inner(x), *semicolon))
        }
        Stmt::ReadPort(target, equals, port, semicolon) => {
            let target = Box::into_inner(copy_expr(alloc, target)?);
            boxed(alloc, Stmt::ReadPort(target, *equals, *port, *semicolon))
        }
        Stmt::WritePort(port, equals, value, semicolon) => {
            let value = Box::into_inner(copy_expr(alloc, value)?);
            boxed(alloc, Stmt::WritePort(*port, *equals, value, *semicolon))
        }
        Stmt::Call(call, semicolon, _) => {
            let call = copy_call(alloc, call)?;
            boxed(alloc, Stmt::Call(call, *semicolon, ()))
        }
        Stmt::If(test, _, arm, _) => {
            let arm = stmt_alone(alloc, arm)?;
            let test = test_alone(alloc, test)?;
            boxed(alloc, Stmt::If(test, (), arm, ()))
        }
        Stmt::IfElse(test, _, arm, at, _, otherwise) => {
            let arm = stmt_alone(alloc, arm)?;
            let otherwise = stmt_alone(alloc, otherwise)?;
            let test = test_alone(alloc, test)?;
            boxed(alloc, Stmt::IfElse(test, (), arm, *at, (), otherwise))
        }
        Stmt::While(test, _, body, _) => {
            let body = stmt_alone(alloc, body)?;
            let test = test_alone(alloc, test)?;
            boxed(alloc, Stmt::While(test, (), body, ()))
        }
        Stmt::Do(keyword, body, test, _, semicolon, _) => {
            let body = stmt_alone(alloc, body)?;
            let test = test_alone(alloc, test)?;
            boxed(alloc, Stmt::Do(*keyword, body, test, (), *semicolon, ()))
        }
        Stmt::For(head, _, body, _) => {
            let body = stmt_alone(alloc, body)?;
            let head = head_alone(alloc, head)?;
            boxed(alloc, Stmt::For(head, (), body, ()))
        }
        Stmt::Break(keyword, semicolon) => boxed(alloc, Stmt::Break(*keyword, *semicolon)),
        Stmt::Continue(keyword, semicolon) => boxed(alloc, Stmt::Continue(*keyword, *semicolon)),
        Stmt::Return(keyword, value, semicolon) => {
            let value = copy_optional_expr(alloc, value)?;
            boxed(alloc, Stmt::Return(*keyword, value, *semicolon))
        }
    }
}

// Statements without their labels.
#[cycle(stmt_alone)]
fn stmts_alone(alloc: Global, statements: &[Stmt<Label>]) -> Result<Vec<Stmt<()>>, NoMemory>
    ensures { IfOk result (λ r. stmts_of r.items ≡ stmts_without (stmts_of statements.now)) }
{
    let mut copies = Vec::new(alloc);
    for statement in statements {
        let statement = stmt_alone(alloc, statement)?;
        copies.push(Box::into_inner(statement))?;
    }
    Ok(copies)
}

// A function without its labels.
fn function_alone(alloc: Global, x: &Function<Label>) -> Result<Function<()>, NoMemory>
    ensures { IfOk result (λ r. function_of r ≡ function_without (function_of x.now)) }
{
    let body = stmts_alone(alloc, x.body.as_slice())?;
    let locals = copy_locals(alloc, x.locals.as_slice())?;
    let result = x.result.duplicate(alloc)?;
    let header = copy_header(alloc, &x.header)?;
    Ok(Function {
        header,
        result,
        first_variable: x.first_variable,
        parameters: x.parameters,
        left: x.left,
        label: (),
        locals,
        body,
        right: x.right,
    })
}

/// The functions without their labels.
pub fn functions_alone(
    alloc: Global,
    functions: &[Function<Label>],
) -> Result<Vec<Function<()>>, NoMemory>
    ensures { IfOk result (λ r. map function_of r.items ≡ map function_without (map function_of functions.now)) }
{
    let mut copies = Vec::new(alloc);
    for function in functions {
        copies.push(function_alone(alloc, function)?)?;
    }
    Ok(copies)
}
