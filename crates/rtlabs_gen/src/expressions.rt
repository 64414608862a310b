//! The graphs of expressions, arguments and conditions.
ghost use Rattle.std.specs.Prelude.{◌≡◌, ◌+◌, IfOk, map};
ghost use Rattle.cerco_middle.specs.Operators.{held_bytes as held_bytes_of};
ghost use Rattle.cerco_middle.specs.Code.Views.{expr_of, cond_of};
ghost use Rattle.rtlabs_gen.specs.Translation as t;

use crate::graph::add_node;
use cerco_base::NoMemory;
use cerco_middle::{CmCond, CmExpr, Held, RtNodes, RtOp};

// The temporary after this one.
fn above(temporary: u32) -> Result<u32, NoMemory>
    ensures { IfOk result (λ u. u ≡ temporary + 1) }
{
    temporary.checked_add(1).ok_or(NoMemory)
}

/// Adds what puts the value of an expression into a temporary and uses no temporary below it, before the node `next`.
pub(crate) fn add_expression(
    nodes: &mut RtNodes,
    expression: &CmExpr,
    temporary: u32,
    next: u32,
) -> Result<u32, NoMemory>
    ensures nodes { IfOk result (λ n. nodes.new.items ≡ (t.add_expr nodes.old.items (expr_of expression.now) temporary next).nodes) }
    ensures entry { IfOk result (λ n. n ≡ (t.add_expr nodes.old.items (expr_of expression.now) temporary next).entry) }
{
    match expression {
        CmExpr::Const(number) => add_node(nodes, RtOp::Const(temporary, *number), Some(next)),
        CmExpr::Var(variable) => {
            let variable = *variable;
            add_node(
                nodes,
                RtOp::Get {
                    temporary,
                    variable,
                },
                Some(next),
            )
        }
        CmExpr::Load(held, address) => {
            let load = add_node(nodes, RtOp::Load(*held, temporary), Some(next))?;
            add_expression(nodes, address, temporary, load)
        }
        CmExpr::Neg(operand) => {
            let negation = add_node(nodes, RtOp::Neg(temporary), Some(next))?;
            add_expression(nodes, operand, temporary, negation)
        }
        CmExpr::Not(operand) => {
            let complement = add_node(nodes, RtOp::Not(temporary), Some(next))?;
            add_expression(nodes, operand, temporary, complement)
        }
        CmExpr::Narrow(held, operand) => {
            let narrowing = add_node(nodes, RtOp::Narrow(*held, temporary), Some(next))?;
            add_expression(nodes, operand, temporary, narrowing)
        }
        CmExpr::Bin {
            operator,
            left,
            right,
        } => {
            let above = above(temporary)?;
            let operator = *operator;
            let operation = add_node(
                nodes,
                RtOp::Bin {
                    operator,
                    left: temporary,
                    right: above,
                },
                Some(next),
            )?;
            let second = add_expression(nodes, right, above, operation)?;
            add_expression(nodes, left, temporary, second)
        }
        CmExpr::Shl(bits, operand) => {
            let shift = add_node(nodes, RtOp::Shl(*bits, temporary), Some(next))?;
            add_expression(nodes, operand, temporary, shift)
        }
        CmExpr::Shr(bits, arithmetic, operand) => {
            let shift = add_node(nodes, RtOp::Shr(*bits, *arithmetic, temporary), Some(next))?;
            add_expression(nodes, operand, temporary, shift)
        }
    }
}

// How many bytes a scalar that is held so has.
fn held_bytes(held: Held) -> u32
    ensures { result ≡ held_bytes_of held }
{
    match held {
        Held::U8 => 1,
        Held::I8 => 1,
        Held::W16 => 2,
    }
}

/// Adds what hands over the arguments for parameters that are held so, the first one at this argument byte.
pub(crate) fn add_arguments(
    nodes: &mut RtNodes,
    parameters: &[Held],
    first_byte: u32,
    arguments: &[CmExpr],
    next: u32,
) -> Result<u32, NoMemory>
    ensures nodes { IfOk result (λ n. nodes.new.items ≡ (t.add_arguments nodes.old.items parameters.now first_byte (map expr_of arguments.now) next).nodes) }
    ensures entry { IfOk result (λ n. n ≡ (t.add_arguments nodes.old.items parameters.now first_byte (map expr_of arguments.now) next).entry) }
{
    let Some((held, parameters)) = parameters.split_first() else {
        return Ok(next);
    };
    let Some((argument, arguments)) = arguments.split_first() else {
        return Ok(next);
    };
    let held = *held;
    let Some(after) = first_byte.checked_add(held_bytes(held)) else {
        return Err(NoMemory);
    };
    let others = add_arguments(nodes, parameters, after, arguments, next)?;
    let handing = add_node(
        nodes,
        RtOp::Arg {
            held,
            first_byte,
            temporary: 0,
        },
        Some(others),
    )?;
    add_expression(nodes, argument, 0, handing)
}

/// Adds what goes on at the node `on_true` where a condition is true, else at `on_false`.
pub(crate) fn add_condition(
    nodes: &mut RtNodes,
    condition: &CmCond,
    on_true: u32,
    on_false: u32,
) -> Result<u32, NoMemory>
    ensures nodes { IfOk result (λ n. nodes.new.items ≡ (t.add_cond nodes.old.items (cond_of condition.now) on_true on_false).nodes) }
    ensures entry { IfOk result (λ n. n ≡ (t.add_cond nodes.old.items (cond_of condition.now) on_true on_false).entry) }
{
    match condition {
        CmCond::Test(value) => {
            let test = add_node(
                nodes,
                RtOp::Test {
                    temporary: 0,
                    on_true,
                    on_false,
                },
                None,
            )?;
            add_expression(nodes, value, 0, test)
        }
        CmCond::Not(opposite) => add_condition(nodes, opposite, on_false, on_true),
        CmCond::Both {
            left,
            on_true: true_label,
            on_false: false_label,
            right,
        } => {
            let second = add_condition(nodes, right, on_true, on_false)?;
            let yes = add_node(nodes, RtOp::Label(*true_label), Some(second))?;
            let no = add_node(nodes, RtOp::Label(*false_label), Some(on_false))?;
            add_condition(nodes, left, yes, no)
        }
        CmCond::Either {
            left,
            on_true: true_label,
            on_false: false_label,
            right,
        } => {
            let otherwise = add_condition(nodes, right, on_true, on_false)?;
            let met = add_node(nodes, RtOp::Label(*true_label), Some(on_true))?;
            let open = add_node(nodes, RtOp::Label(*false_label), Some(otherwise))?;
            add_condition(nodes, left, met, open)
        }
    }
}
