//! Where the parts of a program stand in the source.
ghost use Rattle.std.specs.Prelude.{◌≡◌};
ghost use Rattle.clight_syntax.specs.Code.TypedViews.{expr_of, cond_of, call_of, stmt_of};
ghost use Rattle.clight_syntax.specs.Labelling.{expr_from as from_of_expr, expr_to as to_of_expr, cond_from as from_of_cond, cond_to as to_of_cond, call_from as from_of_call, stmt_from as from_of_stmt, stmt_to as to_of_stmt};

use clight_syntax::typed::{Call, Cond, Expr, Stmt};

// The offset of the first byte of an expression.
fn expr_from(e: &Expr) -> u32
    ensures { result ≡ from_of_expr (expr_of e.now) }
{
    match e {
        Expr::Variable(_, _, name) => name.span.from,
        Expr::Number(_, _, span) => span.from,
        Expr::Parenthesis(_, left, _, _) => left.from,
        Expr::Binary(_, left, _, _, _) => expr_from(left),
        Expr::Prefix(_, _, at, _) => at.from,
        Expr::Cast(_, left, _, _, _) => left.from,
        Expr::Index(_, base, _, _, _) => expr_from(base),
        Expr::Member(_, base, _, _, _, _) => expr_from(base),
    }
}

// The offset behind the last byte of an expression.
fn expr_to(e: &Expr) -> u32
    ensures { result ≡ to_of_expr (expr_of e.now) }
{
    match e {
        Expr::Variable(_, _, name) => name.span.to,
        Expr::Number(_, _, span) => span.to,
        Expr::Parenthesis(_, _, _, right) => right.to,
        Expr::Binary(_, _, _, _, right) => expr_to(right),
        Expr::Prefix(_, _, _, operand) => expr_to(operand),
        Expr::Cast(_, _, _, _, operand) => expr_to(operand),
        Expr::Index(_, _, _, _, right) => right.to,
        Expr::Member(_, _, _, _, name, _) => name.span.to,
    }
}

/// The offset of the first byte of a condition.
pub fn cond_from<L: Drop>(c: &Cond<L>) -> u32
    ensures { result ≡ from_of_cond (cond_of c.now) }
{
    match c {
        Cond::Value(e) => expr_from(e),
        Cond::Parenthesis(left, _, _) => left.from,
        Cond::Not(at, _) => at.from,
        Cond::Both(left, _, _, _, _) => cond_from(left),
        Cond::Either(left, _, _, _, _) => cond_from(left),
    }
}

/// The offset behind the last byte of a condition.
pub fn cond_to<L: Drop>(c: &Cond<L>) -> u32
    ensures { result ≡ to_of_cond (cond_of c.now) }
{
    match c {
        Cond::Value(e) => expr_to(e),
        Cond::Parenthesis(_, _, right) => right.to,
        Cond::Not(_, inner) => cond_to(inner),
        Cond::Both(_, _, _, _, right) => cond_to(right),
        Cond::Either(_, _, _, _, right) => cond_to(right),
    }
}

// The offset of the first byte of a call.
fn call_from(call: &Call) -> u32
    ensures { result ≡ from_of_call (call_of call.now) }
{
    match &call.target {
        None => call.name.span.from,
        Some(target) => target.target.name.span.from,
    }
}

/// The offset of the first byte of a statement.
pub fn stmt_from<L: Drop>(s: &Stmt<L>) -> u32
    ensures { result ≡ from_of_stmt (stmt_of s.now) }
{
    match s {
        Stmt::Empty(semicolon) => semicolon.from,
        Stmt::Block(left, _, _) => left.from,
        Stmt::Assign(assignment, _) => expr_from(&assignment.target),
        Stmt::ReadPort(target, _, _, _) => expr_from(target),
        Stmt::WritePort(port, _, _, _) => port.from,
        Stmt::Call(call, _, _) => call_from(call),
        Stmt::If(test, _, _, _) => test.keyword.from,
        Stmt::IfElse(test, _, _, _, _, _) => test.keyword.from,
        Stmt::While(test, _, _, _) => test.keyword.from,
        Stmt::Do(keyword, _, _, _, _, _) => keyword.from,
        Stmt::For(head, _, _, _) => head.keyword.from,
        Stmt::Break(keyword, _) => keyword.from,
        Stmt::Continue(keyword, _) => keyword.from,
        Stmt::Return(keyword, _, _) => keyword.from,
    }
}

/// The offset behind the last byte of a statement.
pub fn stmt_to<L: Drop>(s: &Stmt<L>) -> u32
    ensures { result ≡ to_of_stmt (stmt_of s.now) }
{
    match s {
        Stmt::Empty(semicolon) => semicolon.to,
        Stmt::Block(_, _, right) => right.to,
        Stmt::Assign(_, semicolon) => semicolon.to,
        Stmt::ReadPort(_, _, _, semicolon) => semicolon.to,
        Stmt::WritePort(_, _, _, semicolon) => semicolon.to,
        Stmt::Call(_, semicolon, _) => semicolon.to,
        Stmt::If(_, _, arm, _) => stmt_to(arm),
        Stmt::IfElse(_, _, _, _, _, otherwise) => stmt_to(otherwise),
        Stmt::While(_, _, body, _) => stmt_to(body),
        Stmt::Do(_, _, _, _, semicolon, _) => semicolon.to,
        Stmt::For(_, _, body, _) => stmt_to(body),
        Stmt::Break(_, semicolon) => semicolon.to,
        Stmt::Continue(_, semicolon) => semicolon.to,
        Stmt::Return(_, _, semicolon) => semicolon.to,
    }
}
