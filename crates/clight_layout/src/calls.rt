//! The calls in the bodies of functions.
ghost use Rattle.std.specs.Prelude.{◌≡◌, ◌++◌, OnOk};
ghost use Rattle.clight_syntax.specs.Code.TypedViews.{stmt_of, stmts_of};
ghost use Rattle.clight_layout.specs.Calls.{stmt_calls, stmts_calls};

use cerco_base::NoMemory;
use clight_syntax::typed::Stmt;

// Adds the functions that a statement calls.
#[cycle(add_stmt)]
#[tactic(auto, using(crate::proofs::Appending::two_added))]
fn add_stmt(calls: &mut Vec<u32>, s: &Stmt<()>) -> Result<(), NoMemory>
    ensures { OnOk result (calls.new.items ≡ calls.old.items ++ stmt_calls (stmt_of s.now)) }
{
    match s {
        Stmt::Call(call, _, _) => {
            calls.push(call.function)?;
            Ok(())
        }
        Stmt::Block(_, body, _) => add_stmts(calls, body.as_slice()),
        Stmt::If(_, _, arm, _) => add_stmt(calls, arm),
        Stmt::IfElse(_, _, arm, _, _, otherwise) => {
            add_stmt(calls, arm)?;
            add_stmt(calls, otherwise)
        }
        Stmt::While(_, _, body, _) => add_stmt(calls, body),
        Stmt::Do(_, body, _, _, _, _) => add_stmt(calls, body),
        Stmt::For(_, _, body, _) => add_stmt(calls, body),
        Stmt::Empty(_)
        | Stmt::Assign(_, _)
        | Stmt::ReadPort(_, _, _, _)
        | Stmt::WritePort(_, _, _, _)
        | Stmt::Break(_, _)
        | Stmt::Continue(_, _)
        | Stmt::Return(_, _, _) => Ok(()),
    }
}

/// Adds the functions that statements call, in the order of the text.
#[cycle(add_stmt)]
pub fn add_stmts(calls: &mut Vec<u32>, statements: &[Stmt<()>]) -> Result<(), NoMemory>
    ensures { OnOk result (calls.new.items ≡ calls.old.items ++ stmts_calls (stmts_of statements.now)) }
{
    for statement in statements {
        add_stmt(calls, statement)?;
    }
    Ok(())
}
