//! The labels of statements.
ghost use Rattle.std.specs.Prelude.{◌≡◌, ◌++◌, ◌∷◌, [], IfOk};
ghost use Rattle.clight_syntax.specs.Code.TypedViews.{test_of, stmt_of, stmts_of, cond_of};
ghost use Rattle.clight_syntax.specs.Labelling.{cond_from as from_of_cond, cond_to as to_of_cond, stmt_from as from_of_stmt, stmt_to as to_of_stmt, cond_points, test_without, stmt_without, stmts_without, point, between, arm_points, stmt_points, stmts_points};
ghost use Rattle.clight_syntax.specs.declared.points.Piece.TheVariants as P;
ghost use Rattle.cost_labels.specs.Code.Parts.{piece_of};

use crate::boxes::boxed;
use crate::conditions::{label_head, label_test};
use crate::marker::Marker;
use crate::parts::Part;
use crate::places::{cond_from, cond_to, stmt_from, stmt_to};
use cerco_base::{Label, NoMemory};
use clight_syntax::Piece;
use clight_syntax::typed::{Stmt, Test};
use std::alloc::Global;

// Gives the condition of a `do` its labels, and that of the way back to the body.
fn label_repeat(
    alloc: Global,
    test: Box<Test<()>>,
    marker: &mut Marker,
) -> Result<(Box<Test<Label>>, Label), NoMemory>
    ensures alone { IfOk result (λ r. test_without (test_of r.0.value) ≡ test_of test.value) }
    ensures points { IfOk result (λ r. let c = cond_of r.0.value.condition in marker.new.points
        ≡ marker.old.points ++ between (point (from_of_cond c) P.CondOpen) (cond_points c) (point (to_of_cond c) (P.CondRepeat r.1))) }
{
    marker.add(cond_from(&test.condition), Piece::CondOpen)?;
    let test = label_test(alloc, Box::into_inner(test), marker)?;
    let again = marker.give(cond_to(&test.condition), Part::Repeat)?;
    Ok((test, again))
}

// Gives an arm of an `if` with `else` its labels.
#[cycle(label_stmt)]
fn label_arm(
    alloc: Global,
    arm: Box<Stmt<()>>,
    marker: &mut Marker,
) -> Result<(Label, Box<Stmt<Label>>), NoMemory>
    ensures alone { IfOk result (λ r. stmt_without (stmt_of r.1.value) ≡ stmt_of arm.value) }
    ensures points { IfOk result (λ r. let s = stmt_of r.1.value in marker.new.points
        ≡ marker.old.points ++ arm_points r.0 (from_of_stmt s) (stmt_points s) (to_of_stmt s)) }
{
    let one = marker.give(stmt_from(&arm), Part::Arm)?;
    let arm = label_stmt(alloc, Box::into_inner(arm), marker)?;
    marker.add(stmt_to(&arm), Piece::ArmClose)?;
    Ok((one, arm))
}

// Gives a statement its labels, of which one is given where it begins and one where it ends: the arm of an `if` without `else`, and
// the body of a `while` or `for`.
#[cycle(label_stmt)]
fn label_between(
    alloc: Global,
    part: Box<Stmt<()>>,
    end: Part,
    marker: &mut Marker,
) -> Result<(Label, Box<Stmt<Label>>, Label), NoMemory>
    ensures alone { IfOk result (λ r. stmt_without (stmt_of r.1.value) ≡ stmt_of part.value) }
    ensures points { IfOk result (λ r. let s = stmt_of r.1.value in marker.new.points
        ≡ marker.old.points ++ between (point (from_of_stmt s) (P.ArmOpen r.0)) (stmt_points s) (point (to_of_stmt s) (piece_of end r.2))) }
{
    let one = marker.give(stmt_from(&part), Part::Arm)?;
    let part = label_stmt(alloc, Box::into_inner(part), marker)?;
    let other = marker.give(stmt_to(&part), end)?;
    Ok((one, part, other))
}

// Gives the body of a `do` its labels.
#[cycle(label_stmt)]
fn label_do_body(
    alloc: Global,
    body: Box<Stmt<()>>,
    marker: &mut Marker,
) -> Result<Box<Stmt<Label>>, NoMemory>
    ensures alone { IfOk result (λ r. stmt_without (stmt_of r.value) ≡ stmt_of body.value) }
    ensures points { IfOk result (λ r. let s = stmt_of r.value in marker.new.points
        ≡ marker.old.points ++ between (point (from_of_stmt s) P.DoOpen) (stmt_points s) (point (to_of_stmt s) P.DoClose)) }
{
    marker.add(stmt_from(&body), Piece::DoOpen)?;
    let body = label_stmt(alloc, Box::into_inner(body), marker)?;
    marker.add(stmt_to(&body), Piece::DoClose)?;
    Ok(body)
}

// Gives a statement its labels.
#[cycle(label_stmt)]
fn label_stmt(
    alloc: Global,
    statement: Stmt<()>,
    marker: &mut Marker,
) -> Result<Box<Stmt<Label>>, NoMemory>
    ensures alone { IfOk result (λ s. stmt_without (stmt_of s.value) ≡ stmt_of statement) }
    ensures points { IfOk result (λ s. marker.new.points ≡ marker.old.points ++ stmt_points (stmt_of s.value)) }
{
    match statement {
        Stmt::Empty(semicolon) => boxed(alloc, Stmt::Empty(semicolon)),
        Stmt::Block(left, body, right) => {
            let body = label_stmts(alloc, body, marker)?;
            boxed(alloc, Stmt::Block(left, body, right))
        }
        Stmt::Assign(assignment, semicolon) => boxed(alloc, Stmt::Assign(assignment, semicolon)),
        Stmt::ReadPort(target, equals, port, semicolon) => {
            boxed(alloc, Stmt::ReadPort(target, equals, port, semicolon))
        }
        Stmt::WritePort(port, equals, value, semicolon) => {
            boxed(alloc, Stmt::WritePort(port, equals, value, semicolon))
        }
        Stmt::Call(call, semicolon, ()) => {
            let call = boxed(alloc, call)?;
            let back = marker.give(semicolon.to, Part::After)?;
            boxed(alloc, Stmt::Call(Box::into_inner(call), semicolon, back))
        }
        Stmt::If(test, (), arm, ()) => {
            let test = label_test(alloc, test, marker)?;
            let (one, arm, other) = label_between(alloc, arm, Part::MissingArm, marker)?;
            boxed(alloc, Stmt::If(Box::into_inner(test), one, arm, other))
        }
        Stmt::IfElse(test, (), arm, at, (), otherwise) => {
            let test = label_test(alloc, test, marker)?;
            let (one, arm) = label_arm(alloc, arm, marker)?;
            let (other, otherwise) = label_arm(alloc, otherwise, marker)?;
            let test = Box::into_inner(test);
            boxed(alloc, Stmt::IfElse(test, one, arm, at, other, otherwise))
        }
        Stmt::While(test, (), body, ()) => {
            let test = label_test(alloc, test, marker)?;
            let (turn, body, after) = label_between(alloc, body, Part::AfterBody, marker)?;
            boxed(alloc, Stmt::While(Box::into_inner(test), turn, body, after))
        }
        Stmt::Do(keyword, body, test, (), semicolon, ()) => {
            let test = boxed(alloc, test)?;
            let body = label_do_body(alloc, body, marker)?;
            let (test, again) = label_repeat(alloc, test, marker)?;
            let after = marker.give(semicolon.to, Part::After)?;
            let test = Box::into_inner(test);
            boxed(
                alloc,
                Stmt::Do(keyword, body, test, again, semicolon, after),
            )
        }
        Stmt::For(head, (), body, ()) => {
            let head = label_head(alloc, head, marker)?;
            let (turn, body, after) = label_between(alloc, body, Part::AfterBody, marker)?;
            boxed(alloc, Stmt::For(Box::into_inner(head), turn, body, after))
        }
        Stmt::Break(keyword, semicolon) => boxed(alloc, Stmt::Break(keyword, semicolon)),
        Stmt::Continue(keyword, semicolon) => boxed(alloc, Stmt::Continue(keyword, semicolon)),
        Stmt::Return(keyword, value, semicolon) => {
            boxed(alloc, Stmt::Return(keyword, value, semicolon))
        }
    }
}

/// Gives statements their labels.
#[cycle(label_stmt)]
pub fn label_stmts(
    alloc: Global,
    statements: Vec<Stmt<()>>,
    marker: &mut Marker,
) -> Result<Vec<Stmt<Label>>, NoMemory>
    ensures alone { IfOk result (λ ss. stmts_without (stmts_of ss.items) ≡ stmts_of statements.items) }
    ensures points { IfOk result (λ ss. marker.new.points ≡ marker.old.points ++ stmts_points (stmts_of ss.items)) }
{
    let mut labelled = Vec::new(alloc);
    for statement in statements {
        let statement = label_stmt(alloc, statement, marker)?;
        labelled.push(Box::into_inner(statement))?;
    }
    Ok(labelled)
}
