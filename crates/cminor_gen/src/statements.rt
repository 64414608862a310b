//! Statements.
ghost use Rattle.std.specs.Prelude.{◌≡◌, IfOk, OnOk, option_map};
ghost use Rattle.cerco_middle.specs.Code.Views.{expr_of as cm_of, cond_of as cm_cond_of, stmt_of as cm_stmt_of, stmts_of as cm_stmts_of};
ghost use Rattle.cerco_middle.specs.Cminor.Trees as m;
ghost use Rattle.clight_syntax.specs.Code.TypedViews.{expr_of, cond_of, assignment_of, call_of, for_head_of, stmt_of, stmts_of, program_of};
ghost use Rattle.cminor_gen.specs.Translation.Expressions as x;
ghost use Rattle.cminor_gen.specs.Translation.Statements as s;

use crate::expressions::{arguments, condition, place, value};
use crate::operators::{held_of, type_at};
use crate::variables::{scalar_at, scalar_in};
use cerco_base::{Label, NoMemory};
use cerco_middle::{CmCond, CmExpr, CmStmt};
use clight_syntax::Cond;
use clight_syntax::typed::{Assignment, Call, Expr, ForHead, ResultTarget, Stmt, TypedProgram};
use std::alloc::Global;

// ---- statements in boxes

/// A statement in a box.
pub fn boxed(alloc: Global, s: CmStmt) -> Result<Box<CmStmt>, NoMemory>
    ensures { IfOk result (λ r. cm_stmt_of r.value ≡ cm_stmt_of s) }
{
    Ok(Box::new(alloc, s)?)
}

/// Statements one after the other, as one.
#[tactic(auto, using(crate::proofs::Rows::seq_holds))]
pub fn sequence(alloc: Global, list: Vec<CmStmt>) -> Result<Box<CmStmt>, NoMemory>
    ensures { IfOk result (λ r. cm_stmt_of r.value ≡ m.Seq (cm_stmts_of list.items)) }
{
    boxed(alloc, CmStmt::Seq(list))
}

fn nothing(alloc: Global) -> Result<Box<CmStmt>, NoMemory>
    ensures { IfOk result (λ r. cm_stmt_of r.value ≡ s.nothing) }
{
    sequence(alloc, Vec::new(alloc))
}

// ---- assignments

/// `target = value;`
pub fn assignment(
    alloc: Global,
    program: &TypedProgram<Label>,
    x: &Assignment,
) -> Result<Box<CmStmt>, NoMemory>
    ensures { IfOk result (λ r. cm_stmt_of r.value ≡ s.assignment (program_of program.now) (assignment_of x.now)) }
{
    match scalar_at(program, &x.target) {
        Some(scalar) => {
            let e = value(alloc, program, &x.value)?;
            boxed(alloc, CmStmt::Set(scalar, e))
        }
        None => {
            let address = place(alloc, program, &x.target)?;
            let value = value(alloc, program, &x.value)?;
            let held = held_of(type_at(&x.target));
            boxed(
                alloc,
                CmStmt::Store {
                    held,
                    address,
                    value,
                },
            )
        }
    }
}

fn assignment_if_any(
    alloc: Global,
    program: &TypedProgram<Label>,
    x: &Option<Assignment>,
) -> Result<Box<CmStmt>, NoMemory>
    ensures { IfOk result (λ r. cm_stmt_of r.value ≡ s.assignment_if_any (program_of program.now) (option_map assignment_of x.now)) }
{
    match x {
        None => nothing(alloc),
        Some(x) => assignment(alloc, program, x),
    }
}

// ---- simple statements

fn read_port(
    alloc: Global,
    program: &TypedProgram<Label>,
    target: &Expr,
) -> Result<Box<CmStmt>, NoMemory>
    ensures { IfOk result (λ r. cm_stmt_of r.value ≡ s.read_port (x.scalar_at (program_of program.now) (expr_of target.now))) }
{
    match scalar_at(program, target) {
        Some(scalar) => boxed(alloc, CmStmt::ReadPort(scalar)),
        None => nothing(alloc),
    }
}

fn write_port(
    alloc: Global,
    program: &TypedProgram<Label>,
    e: &Expr,
) -> Result<Box<CmStmt>, NoMemory>
    ensures { IfOk result (λ r. cm_stmt_of r.value ≡ m.WritePort (x.value (program_of program.now) (expr_of e.now))) }
{
    let e = value(alloc, program, e)?;
    boxed(alloc, CmStmt::WritePort(e))
}

fn target_of(program: &TypedProgram<Label>, target: Option<ResultTarget>) -> Option<u32>
    ensures { result ≡ s.target_of (program_of program.now) target }
{
    match target {
        None => None,
        Some(target) => scalar_in(program, target.variable),
    }
}

fn call(
    alloc: Global,
    program: &TypedProgram<Label>,
    x: &Call,
    back: Label,
) -> Result<Box<CmStmt>, NoMemory>
    ensures { IfOk result (λ r. cm_stmt_of r.value ≡ s.call (program_of program.now) (call_of x.now) back) }
{
    let values = arguments(alloc, program, &x.arguments)?;
    let target = target_of(program, x.target);
    boxed(alloc, CmStmt::Call(target, x.function, values, back))
}

fn return_statement(
    alloc: Global,
    program: &TypedProgram<Label>,
    e: &Option<Expr>,
) -> Result<Box<CmStmt>, NoMemory>
    ensures { IfOk result (λ r. cm_stmt_of r.value ≡ m.Return (option_map (x.value (program_of program.now)) (option_map expr_of e.now))) }
{
    match e {
        None => boxed(alloc, CmStmt::Return(None)),
        Some(e) => {
            let e = value(alloc, program, e)?;
            boxed(alloc, CmStmt::Return(Some(e)))
        }
    }
}

// ---- branches and loops

fn branches(
    alloc: Global,
    condition: Box<CmCond>,
    on_true: Label,
    true_branch: Box<CmStmt>,
    on_false: Label,
    false_branch: Box<CmStmt>,
) -> Result<Box<CmStmt>, NoMemory>
    ensures { IfOk result (λ r. cm_stmt_of r.value ≡ m.If (cm_cond_of condition.value) on_true (cm_stmt_of true_branch.value) on_false (cm_stmt_of false_branch.value)) }
{
    boxed(
        alloc,
        CmStmt::If {
            condition: Box::into_inner(condition),
            on_true,
            true_branch,
            on_false,
            false_branch,
        },
    )
}

fn loop_with(
    alloc: Global,
    condition: Option<Box<CmCond>>,
    body_label: Label,
    body: Box<CmStmt>,
    step: Box<CmStmt>,
    exit_label: Label,
) -> Result<Box<CmStmt>, NoMemory>
    ensures { IfOk result (λ r. cm_stmt_of r.value ≡ m.Loop (option_map (λ c. cm_cond_of c.value) condition) body_label (cm_stmt_of body.value) (cm_stmt_of step.value) exit_label) }
{
    let condition = match condition {
        None => None,
        Some(condition) => Some(Box::into_inner(condition)),
    };
    boxed(
        alloc,
        CmStmt::Loop {
            condition,
            body_label,
            body,
            step,
            exit_label,
        },
    )
}

fn do_loop(
    alloc: Global,
    body: Box<CmStmt>,
    condition: Box<CmCond>,
    repeat_label: Label,
    exit_label: Label,
) -> Result<Box<CmStmt>, NoMemory>
    ensures { IfOk result (λ r. cm_stmt_of r.value ≡ m.Do (cm_stmt_of body.value) (cm_cond_of condition.value) repeat_label exit_label) }
{
    boxed(
        alloc,
        CmStmt::Do {
            body,
            condition: Box::into_inner(condition),
            repeat_label,
            exit_label,
        },
    )
}

fn condition_if_any(
    alloc: Global,
    program: &TypedProgram<Label>,
    c: &Option<Cond<Label>>,
) -> Result<Option<Box<CmCond>>, NoMemory>
    ensures { IfOk result (λ r. option_map (λ c. cm_cond_of c.value) r ≡ option_map (x.condition (program_of program.now)) (option_map cond_of c.now)) }
{
    match c {
        None => Ok(None),
        Some(c) => Ok(Some(condition(alloc, program, c)?)),
    }
}

// One statement and then another.
#[tactic(auto, using(crate::proofs::Rows::one_more))]
fn both(alloc: Global, one: Box<CmStmt>, other: Box<CmStmt>) -> Result<Box<CmStmt>, NoMemory>
    ensures { IfOk result (λ r. cm_stmt_of r.value ≡ m.Seq (m.Then (m.Then m.NoStmts (cm_stmt_of one.value)) (cm_stmt_of other.value))) }
{
    let mut list = Vec::new(alloc);
    list.push(Box::into_inner(one))?;
    list.push(Box::into_inner(other))?;
    sequence(alloc, list)
}

// A `for` with its body.
fn for_loop(
    alloc: Global,
    program: &TypedProgram<Label>,
    head: &ForHead<Label>,
    turn: Label,
    body: Box<CmStmt>,
    after: Label,
) -> Result<Box<CmStmt>, NoMemory>
    ensures { IfOk result (λ r. cm_stmt_of r.value ≡ s.for_loop (program_of program.now) (for_head_of head.now) turn (cm_stmt_of body.value) after) }
{
    let first = assignment_if_any(alloc, program, &head.first)?;
    let condition = condition_if_any(alloc, program, &head.condition)?;
    let step = assignment_if_any(alloc, program, &head.step)?;
    let turns = loop_with(alloc, condition, turn, body, step, after)?;
    both(alloc, first, turns)
}

/// A statement.
#[cycle(statement)]
pub fn statement(
    alloc: Global,
    program: &TypedProgram<Label>,
    x: &Stmt<Label>,
) -> Result<Box<CmStmt>, NoMemory>
    ensures { IfOk result (λ r. cm_stmt_of r.value ≡ s.statement (program_of program.now) (stmt_of x.now)) }
{
    match x {
        Stmt::Empty(_) => nothing(alloc),
        Stmt::Block(_, body, _) => {
            let mut list = Vec::new(alloc);
            add_statements(alloc, program, body.as_slice(), &mut list)?;
            sequence(alloc, list)
        }
        Stmt::Assign(x, _) => assignment(alloc, program, x),
        Stmt::ReadPort(target, _, _, _) => read_port(alloc, program, target),
        Stmt::WritePort(_, _, e, _) => write_port(alloc, program, e),
        Stmt::Call(x, _, back) => call(alloc, program, x, *back),
        Stmt::If(test, one, arm, other) => {
            let c = condition(alloc, program, &test.condition)?;
            let arm = statement(alloc, program, arm)?;
            let otherwise = nothing(alloc)?;
            branches(alloc, c, *one, arm, *other, otherwise)
        }
        Stmt::IfElse(test, one, arm, _, other, otherwise) => {
            let c = condition(alloc, program, &test.condition)?;
            let arm = statement(alloc, program, arm)?;
            let otherwise = statement(alloc, program, otherwise)?;
            branches(alloc, c, *one, arm, *other, otherwise)
        }
        Stmt::While(test, turn, body, after) => {
            let c = condition(alloc, program, &test.condition)?;
            let body = statement(alloc, program, body)?;
            let step = nothing(alloc)?;
            loop_with(alloc, Some(c), *turn, body, step, *after)
        }
        Stmt::Do(_, body, test, again, _, after) => {
            let body = statement(alloc, program, body)?;
            let c = condition(alloc, program, &test.condition)?;
            do_loop(alloc, body, c, *again, *after)
        }
        Stmt::For(head, turn, body, after) => {
            let body = statement(alloc, program, body)?;
            for_loop(alloc, program, head, *turn, body, *after)
        }
        Stmt::Break(_, _) => boxed(alloc, CmStmt::Break),
        Stmt::Continue(_, _) => boxed(alloc, CmStmt::Continue),
        Stmt::Return(_, e, _) => return_statement(alloc, program, e),
    }
}

/// Adds statements at the end of a list.
#[cycle(statement)]
pub fn add_statements(
    alloc: Global,
    program: &TypedProgram<Label>,
    statements: &[Stmt<Label>],
    list: &mut Vec<CmStmt>,
) -> Result<(), NoMemory>
    ensures { OnOk result (cm_stmts_of list.new.items ≡ s.statements_after (program_of program.now) (stmts_of statements.now) (cm_stmts_of list.old.items)) }
{
    for x in statements {
        let x = statement(alloc, program, x)?;
        list.push(Box::into_inner(x))?;
    }
    Ok(())
}
