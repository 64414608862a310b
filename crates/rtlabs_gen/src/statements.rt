//! The graphs of statements.
ghost use Rattle.std.specs.Prelude.{◌≡◌, IfOk, Some, map, option_map};
ghost use Rattle.cerco_middle.specs.Code.Views.{expr_of, cond_of, stmt_of, stmts_of, function_of};
ghost use Rattle.rtlabs_gen.specs.Translation as t;

use crate::calls::add_call;
use crate::exits::Exits;
use crate::expressions::{add_condition, add_expression};
use crate::graph::{add_node, close_label};
use cerco_base::{Label, NoMemory};
use cerco_middle::{CmCond, CmExpr, CmFunction, CmStmt, Held, RtNodes, RtOp};

// Adds what puts a value into a variable.
fn add_set(nodes: &mut RtNodes, variable: u32, value: &CmExpr, next: u32) -> Result<u32, NoMemory>
    ensures nodes { IfOk result (λ n. nodes.new.items ≡ (t.add_set nodes.old.items variable (expr_of value.now) next).nodes) }
    ensures entry { IfOk result (λ n. n ≡ (t.add_set nodes.old.items variable (expr_of value.now) next).entry) }
{
    let put = add_node(
        nodes,
        RtOp::Put {
            variable,
            temporary: 0,
        },
        Some(next),
    )?;
    add_expression(nodes, value, 0, put)
}

// Adds what stores a value at an address.
fn add_store(
    nodes: &mut RtNodes,
    held: Held,
    address: &CmExpr,
    value: &CmExpr,
    next: u32,
) -> Result<u32, NoMemory>
    ensures nodes { IfOk result (λ n. nodes.new.items ≡ (t.add_store nodes.old.items held (expr_of address.now) (expr_of value.now) next).nodes) }
    ensures entry { IfOk result (λ n. n ≡ (t.add_store nodes.old.items held (expr_of address.now) (expr_of value.now) next).entry) }
{
    let store = add_node(
        nodes,
        RtOp::Store {
            held,
            address: 0,
            value: 1,
        },
        Some(next),
    )?;
    let second = add_expression(nodes, value, 1, store)?;
    add_expression(nodes, address, 0, second)
}

// Adds what reads the port into a variable.
fn add_read_port(nodes: &mut RtNodes, variable: u32, next: u32) -> Result<u32, NoMemory>
    ensures nodes { IfOk result (λ n. nodes.new.items ≡ (t.add_read_port nodes.old.items variable next).nodes) }
    ensures entry { IfOk result (λ n. n ≡ (t.add_read_port nodes.old.items variable next).entry) }
{
    let put = add_node(
        nodes,
        RtOp::Put {
            variable,
            temporary: 0,
        },
        Some(next),
    )?;
    add_node(nodes, RtOp::ReadPort(0), Some(put))
}

// Adds what writes a value to the port.
fn add_write_port(nodes: &mut RtNodes, value: &CmExpr, next: u32) -> Result<u32, NoMemory>
    ensures nodes { IfOk result (λ n. nodes.new.items ≡ (t.add_write_port nodes.old.items (expr_of value.now) next).nodes) }
    ensures entry { IfOk result (λ n. n ≡ (t.add_write_port nodes.old.items (expr_of value.now) next).entry) }
{
    let write = add_node(nodes, RtOp::WritePort(0), Some(next))?;
    add_expression(nodes, value, 0, write)
}

// Adds a return. Without a value it goes to the end of the function.
fn add_return(nodes: &mut RtNodes, value: &Option<CmExpr>, end: u32) -> Result<u32, NoMemory>
    ensures nodes { IfOk result (λ n. nodes.new.items ≡ (t.add_return nodes.old.items (option_map expr_of value.now) end).nodes) }
    ensures entry { IfOk result (λ n. n ≡ (t.add_return nodes.old.items (option_map expr_of value.now) end).entry) }
{
    match value {
        None => Ok(end),
        Some(value) => {
            let give = add_node(nodes, RtOp::ReturnValue(0), None)?;
            add_expression(nodes, value, 0, give)
        }
    }
}

// Adds a condition with the labels of its two arms, which begin at these nodes.
fn add_arms(
    nodes: &mut RtNodes,
    condition: &CmCond,
    on_true: Label,
    first: u32,
    on_false: Label,
    second: u32,
) -> Result<u32, NoMemory>
    ensures nodes { IfOk result (λ n. nodes.new.items ≡ (t.add_arms nodes.old.items (cond_of condition.now) on_true first on_false second).nodes) }
    ensures entry { IfOk result (λ n. n ≡ (t.add_arms nodes.old.items (cond_of condition.now) on_true first on_false second).entry) }
{
    let no = add_node(nodes, RtOp::Label(on_false), Some(second))?;
    let yes = add_node(nodes, RtOp::Label(on_true), Some(first))?;
    add_condition(nodes, condition, yes, no)
}

// The nodes of a loop that are there before its body.
#[derive(Clone, Copy)]
struct LoopStart {
    // The exit label.
    exit: u32,
    // The label before the body.
    turn: u32,
    // Where the condition begins.
    test: u32,
}

// Adds the labels and the condition of a loop. No condition is a true one.
fn add_loop_start(
    nodes: &mut RtNodes,
    condition: &Option<CmCond>,
    body_label: Label,
    exit_label: Label,
    next: u32,
) -> Result<LoopStart, NoMemory>
    ensures nodes { IfOk result (λ s. nodes.new.items ≡ (t.loop_test nodes.old.items (option_map cond_of condition.now) body_label exit_label next).nodes) }
    ensures exit { IfOk result (λ s. s.exit ≡ (t.loop_exit nodes.old.items exit_label next).entry) }
    ensures turn { IfOk result (λ s. s.turn ≡ (t.loop_turn nodes.old.items body_label exit_label next).entry) }
    ensures test { IfOk result (λ s. s.test ≡ (t.loop_test nodes.old.items (option_map cond_of condition.now) body_label exit_label next).entry) }
{
    let exit = add_node(nodes, RtOp::Label(exit_label), Some(next))?;
    let turn = add_node(nodes, RtOp::Label(body_label), None)?;
    let test = match condition {
        None => turn,
        Some(condition) => add_condition(nodes, condition, turn, exit)?,
    };
    Ok(LoopStart { exit, turn, test })
}

// Adds the labels and the condition of a loop with its condition after the body.
fn add_do_start(
    nodes: &mut RtNodes,
    condition: &CmCond,
    repeat_label: Label,
    exit_label: Label,
    next: u32,
) -> Result<LoopStart, NoMemory>
    ensures nodes { IfOk result (λ s. nodes.new.items ≡ (t.loop_test nodes.old.items (Some (cond_of condition.now)) repeat_label exit_label next).nodes) }
    ensures exit { IfOk result (λ s. s.exit ≡ (t.loop_exit nodes.old.items exit_label next).entry) }
    ensures turn { IfOk result (λ s. s.turn ≡ (t.loop_turn nodes.old.items repeat_label exit_label next).entry) }
    ensures test { IfOk result (λ s. s.test ≡ (t.loop_test nodes.old.items (Some (cond_of condition.now)) repeat_label exit_label next).entry) }
{
    let exit = add_node(nodes, RtOp::Label(exit_label), Some(next))?;
    let turn = add_node(nodes, RtOp::Label(repeat_label), None)?;
    let test = add_condition(nodes, condition, turn, exit)?;
    Ok(LoopStart { exit, turn, test })
}

// Adds a statement before the node `next`.
#[cycle(add_statement)]
pub(crate) fn add_statement(
    nodes: &mut RtNodes,
    functions: &[CmFunction],
    statement: &CmStmt,
    next: u32,
    exits: Exits,
) -> Result<u32, NoMemory>
    ensures nodes { IfOk result (λ n. nodes.new.items ≡ (t.add_stmt (map function_of functions.now) nodes.old.items (stmt_of statement.now) next exits).nodes) }
    ensures entry { IfOk result (λ n. n ≡ (t.add_stmt (map function_of functions.now) nodes.old.items (stmt_of statement.now) next exits).entry) }
{
    match statement {
        CmStmt::Seq(statements) => {
            add_statements(nodes, functions, statements.as_slice(), next, exits)
        }
        CmStmt::Set(variable, value) => add_set(nodes, *variable, value, next),
        CmStmt::Store {
            held,
            address,
            value,
        } => add_store(nodes, *held, address, value, next),
        CmStmt::ReadPort(variable) => add_read_port(nodes, *variable, next),
        CmStmt::WritePort(value) => add_write_port(nodes, value, next),
        CmStmt::Call(target, callee, arguments, label) => add_call(
            nodes,
            functions,
            *target,
            *callee,
            arguments.as_slice(),
            *label,
            next,
        ),
        CmStmt::If {
            condition,
            on_true,
            true_branch,
            on_false,
            false_branch,
        } => {
            let second = add_statement(nodes, functions, false_branch, next, exits)?;
            let first = add_statement(nodes, functions, true_branch, next, exits)?;
            add_arms(nodes, condition, *on_true, first, *on_false, second)
        }
        CmStmt::Loop {
            condition,
            body_label,
            body,
            step,
            exit_label,
        } => {
            let LoopStart { exit, turn, test } = add_loop_start(
                nodes,
                condition,
                *body_label,
                *exit_label,
                next,
            )?;
            let after = add_statement(nodes, functions, step, test, exits.in_loop(exit, test))?;
            let first = add_statement(nodes, functions, body, after, exits.in_loop(exit, after))?;
            close_label(nodes, turn, *body_label, first);
            Ok(test)
        }
        CmStmt::Do {
            body,
            condition,
            repeat_label,
            exit_label,
        } => {
            let LoopStart { exit, turn, test } = add_do_start(
                nodes,
                condition,
                *repeat_label,
                *exit_label,
                next,
            )?;
            let first = add_statement(nodes, functions, body, test, exits.in_loop(exit, test))?;
            close_label(nodes, turn, *repeat_label, first);
            Ok(first)
        }
        CmStmt::Break => Ok(exits.on_break),
        CmStmt::Continue => Ok(exits.on_continue),
        CmStmt::Return(value) => add_return(nodes, value, exits.on_return),
    }
}

// Adds statements, which are done one after the other.
#[cycle(add_statement)]
fn add_statements(
    nodes: &mut RtNodes,
    functions: &[CmFunction],
    statements: &[CmStmt],
    next: u32,
    exits: Exits,
) -> Result<u32, NoMemory>
    ensures nodes { IfOk result (λ n. nodes.new.items ≡ (t.add_stmts (map function_of functions.now) nodes.old.items (stmts_of statements.now) next exits).nodes) }
    ensures entry { IfOk result (λ n. n ≡ (t.add_stmts (map function_of functions.now) nodes.old.items (stmts_of statements.now) next exits).entry) }
{
    let mut entry = next;
    let count = statements.len();
    for i in 0..count {
        entry = add_statement(nodes, functions, &statements[count - 1 - i], entry, exits)?;
    }
    Ok(entry)
}
