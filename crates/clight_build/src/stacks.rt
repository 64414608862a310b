//! The stacks of the fold.

ghost use Rattle.std.specs.Prelude.{◌≡◌, ◌∷◌, [], OnOk, MatchOption, Some};
ghost use Rattle.clight_source.specs.Code.Views.{expr_of, stmt_of, assignment_of};
ghost use Rattle.clight_build.specs.Code.Views.{views, expr_in, stmt_in, list_in, arguments_in, assignment_in, condition_in, stacks_of};
ghost use Rattle.clight_build.specs.Code.Stacks as s;

use cerco_base::NoMemory;
use clight_source::tree::{Assignment, EarlierArgument, Expr, Stmt};
use std::alloc::Global;

/// What is whole and joins nothing yet, the newest last.
#[derive(Drop)]
pub struct Stacks {
    pub exprs: Vec<Box<Expr>>,
    pub stmts: Vec<Box<Stmt>>,
    pub lists: Vec<Vec<Stmt>>,
    pub arguments: Vec<Vec<EarlierArgument>>,
    pub assignments: Vec<Option<Box<Assignment>>>,
    pub conditions: Vec<Option<Box<Expr>>>,
}

/// Nothing is there yet.
#[tactic(auto, using(crate::proofs::Pushes::pushes))]
pub fn no_stacks(alloc: Global) -> Stacks
    ensures { stacks_of result ≡ s.no_stacks }
{
    Stacks {
        exprs: Vec::new(alloc),
        stmts: Vec::new(alloc),
        lists: Vec::new(alloc),
        arguments: Vec::new(alloc),
        assignments: Vec::new(alloc),
        conditions: Vec::new(alloc),
    }
}

fn put_boxed_expr(exprs: &mut Vec<Box<Expr>>, e: Box<Expr>) -> Result<(), NoMemory>
    ensures { OnOk result (views expr_in exprs.new.items ≡ expr_in e ∷ views expr_in exprs.old.items) }
{
    exprs.push(e)?;
    Ok(())
}

fn put_boxed_stmt(stmts: &mut Vec<Box<Stmt>>, x: Box<Stmt>) -> Result<(), NoMemory>
    ensures { OnOk result (views stmt_in stmts.new.items ≡ stmt_in x ∷ views stmt_in stmts.old.items) }
{
    stmts.push(x)?;
    Ok(())
}

/// One expression more.
pub fn put_expr(alloc: Global, exprs: &mut Vec<Box<Expr>>, e: Expr) -> Result<(), NoMemory>
    ensures { OnOk result (views expr_in exprs.new.items ≡ expr_of e ∷ views expr_in exprs.old.items) }
{
    put_boxed_expr(exprs, Box::new(alloc, e)?)
}

/// One statement more.
pub fn put_stmt(alloc: Global, stmts: &mut Vec<Box<Stmt>>, x: Stmt) -> Result<(), NoMemory>
    ensures { OnOk result (views stmt_in stmts.new.items ≡ stmt_of x ∷ views stmt_in stmts.old.items) }
{
    put_boxed_stmt(stmts, Box::new(alloc, x)?)
}

/// One list of statements more.
pub fn put_list(lists: &mut Vec<Vec<Stmt>>, xs: Vec<Stmt>) -> Result<(), NoMemory>
    ensures { OnOk result (views list_in lists.new.items ≡ list_in xs ∷ views list_in lists.old.items) }
{
    lists.push(xs)?;
    Ok(())
}

/// One list of arguments more.
pub fn put_arguments(
    arguments: &mut Vec<Vec<EarlierArgument>>,
    l: Vec<EarlierArgument>,
) -> Result<(), NoMemory>
    ensures { OnOk result (views arguments_in arguments.new.items ≡ arguments_in l ∷ views arguments_in arguments.old.items) }
{
    arguments.push(l)?;
    Ok(())
}

/// Takes the newest expression.
pub fn take_expr(exprs: &mut Vec<Box<Expr>>) -> Option<Box<Expr>>
    ensures { MatchOption result ((views expr_in exprs.old.items ≡ []) × (views expr_in exprs.new.items ≡ [])) (λ e. views expr_in exprs.old.items ≡ expr_in e ∷ views expr_in exprs.new.items) }
{
    exprs.pop()
}

/// Takes the newest statement.
pub fn take_stmt(stmts: &mut Vec<Box<Stmt>>) -> Option<Box<Stmt>>
    ensures { MatchOption result ((views stmt_in stmts.old.items ≡ []) × (views stmt_in stmts.new.items ≡ [])) (λ x. views stmt_in stmts.old.items ≡ stmt_in x ∷ views stmt_in stmts.new.items) }
{
    stmts.pop()
}

/// Takes the newest list of statements.
pub fn take_list(lists: &mut Vec<Vec<Stmt>>) -> Option<Vec<Stmt>>
    ensures { MatchOption result ((views list_in lists.old.items ≡ []) × (views list_in lists.new.items ≡ [])) (λ xs. views list_in lists.old.items ≡ list_in xs ∷ views list_in lists.new.items) }
{
    lists.pop()
}

/// Takes the newest list of arguments.
pub fn take_arguments(arguments: &mut Vec<Vec<EarlierArgument>>) -> Option<Vec<EarlierArgument>>
    ensures { MatchOption result ((views arguments_in arguments.old.items ≡ []) × (views arguments_in arguments.new.items ≡ [])) (λ l. views arguments_in arguments.old.items ≡ arguments_in l ∷ views arguments_in arguments.new.items) }
{
    arguments.pop()
}

/// An assignment of a `for` more, or none.
pub fn put_optional(
    assignments: &mut Vec<Option<Box<Assignment>>>,
    x: Option<Box<Assignment>>,
) -> Result<(), NoMemory>
    ensures { OnOk result (views assignment_in assignments.new.items ≡ assignment_in x ∷ views assignment_in assignments.old.items) }
{
    assignments.push(x)?;
    Ok(())
}

/// One assignment of a `for` more.
pub fn put_assignment(
    alloc: Global,
    assignments: &mut Vec<Option<Box<Assignment>>>,
    x: Assignment,
) -> Result<(), NoMemory>
    ensures { OnOk result (views assignment_in assignments.new.items ≡ Some (assignment_of x) ∷ views assignment_in assignments.old.items) }
{
    put_optional(assignments, Some(Box::new(alloc, x)?))
}

/// A condition of a `for` more, or none.
pub fn put_condition(
    conditions: &mut Vec<Option<Box<Expr>>>,
    e: Option<Box<Expr>>,
) -> Result<(), NoMemory>
    ensures { OnOk result (views condition_in conditions.new.items ≡ condition_in e ∷ views condition_in conditions.old.items) }
{
    conditions.push(e)?;
    Ok(())
}

/// Takes the newest assignment of a `for`.
pub fn take_assignment(
    assignments: &mut Vec<Option<Box<Assignment>>>,
) -> Option<Option<Box<Assignment>>>
    ensures { MatchOption result ((views assignment_in assignments.old.items ≡ []) × (views assignment_in assignments.new.items ≡ [])) (λ x. views assignment_in assignments.old.items ≡ assignment_in x ∷ views assignment_in assignments.new.items) }
{
    assignments.pop()
}

/// Takes the newest condition of a `for`.
pub fn take_condition(conditions: &mut Vec<Option<Box<Expr>>>) -> Option<Option<Box<Expr>>>
    ensures { MatchOption result ((views condition_in conditions.old.items ≡ []) × (views condition_in conditions.new.items ≡ [])) (λ x. views condition_in conditions.old.items ≡ condition_in x ∷ views condition_in conditions.new.items) }
{
    conditions.pop()
}
