//! The names of statements.
ghost use Rattle.std.specs.Prelude.{◌≡◌, ◌++◌, OnOk};
ghost use Rattle.clight_source.specs.Code.Views.{for_head_of, stmt_of, stmts_of};
ghost use Rattle.clight_names.specs.Occurrences.{for_names, stmt_names, stmts_names};

use crate::expressions::{
    add_assignment, add_call, add_expr, add_optional_assignment, add_optional_expr,
};
use crate::occurrences::Occurrence;
use cerco_base::NoMemory;
use clight_source::tree::{ForHead, Stmt};

// Adds the names that stand before the body of a `for`.
#[tactic(auto, using(crate::proofs::Appending::three_added))]
fn add_head(names: &mut Vec<Occurrence>, item: usize, head: &ForHead) -> Result<(), NoMemory>
    ensures { OnOk result (names.new.items ≡ names.old.items ++ for_names item (for_head_of head.now)) }
{
    add_optional_assignment(names, item, &head.first)?;
    add_optional_expr(names, item, &head.condition)?;
    add_optional_assignment(names, item, &head.step)
}

// Adds the names of a statement.
#[cycle(add_stmt)]
#[tactic(auto, using(crate::proofs::Appending::two_added, crate::proofs::Appending::three_added))]
fn add_stmt(names: &mut Vec<Occurrence>, item: usize, s: &Stmt) -> Result<(), NoMemory>
    ensures { OnOk result (names.new.items ≡ names.old.items ++ stmt_names item (stmt_of s.now)) }
{
    match s {
        Stmt::Empty(_) | Stmt::Break(_, _) | Stmt::Continue(_, _) => Ok(()),
        Stmt::Block(_, body, _) => add_stmts(names, item, body.as_slice()),
        Stmt::Assign(x, _) => add_assignment(names, item, x),
        Stmt::ReadPort(target, _, _, _) => add_expr(names, item, target),
        Stmt::WritePort(_, _, value, _) => add_expr(names, item, value),
        Stmt::Call(call, _) => add_call(names, item, call),
        Stmt::If(test, arm) => {
            add_expr(names, item, &test.condition)?;
            add_stmt(names, item, arm)
        }
        Stmt::IfElse(test, arm, _, otherwise) => {
            add_expr(names, item, &test.condition)?;
            add_stmt(names, item, arm)?;
            add_stmt(names, item, otherwise)
        }
        Stmt::While(test, body) => {
            add_expr(names, item, &test.condition)?;
            add_stmt(names, item, body)
        }
        Stmt::Do(_, body, test, _) => {
            add_stmt(names, item, body)?;
            add_expr(names, item, &test.condition)
        }
        Stmt::For(head, body) => {
            add_head(names, item, head)?;
            add_stmt(names, item, body)
        }
        Stmt::Return(_, value, _) => add_optional_expr(names, item, value),
    }
}

/// Adds the names of statements in the function that is this item.
#[cycle(add_stmt)]
pub fn add_stmts(
    names: &mut Vec<Occurrence>,
    item: usize,
    statements: &[Stmt],
) -> Result<(), NoMemory>
    ensures { OnOk result (names.new.items ≡ names.old.items ++ stmts_names item (stmts_of statements.now)) }
{
    for statement in statements {
        add_stmt(names, item, statement)?;
    }
    Ok(())
}
