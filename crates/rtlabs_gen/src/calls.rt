//! The graphs of calls.
ghost use Rattle.std.specs.Prelude.{◌≡◌, IfOk, map, slice_get, take};
ghost use Rattle.cerco_middle.specs.Cminor.Sums.{parameters_at as parameters_of_callee, result_at as result_of_callee};
ghost use Rattle.cerco_middle.specs.Code.Views.{expr_of, function_of};
ghost use Rattle.rtlabs_gen.specs.Translation as t;

use crate::expressions::add_arguments;
use crate::graph::add_node;
use cerco_base::{Label, NoMemory};
use cerco_middle::{CmExpr, CmFunction, Held, RtNodes, RtOp};

// The front of a list, of so many elements if there are as many.
fn front(held: &[Held], count: u32) -> &[Held]
    ensures { result.now ≡ take count held.now }
{
    if (count as usize) < held.len() {
        &held[..count as usize]
    } else {
        held
    }
}

// How the parameters of a function are held: none, where there is no such function.
fn parameters_at(functions: &[CmFunction], number: u32) -> &[Held]
    ensures { result.now ≡ parameters_of_callee (slice_get (map function_of functions.now) number) }
{
    match functions.get(number as usize) {
        None => &[],
        Some(callee) => front(callee.held.as_slice(), callee.params),
    }
}

// How the result of a function is held, if it has one.
fn result_at(functions: &[CmFunction], number: u32) -> Option<Held>
    ensures { result ≡ result_of_callee (slice_get (map function_of functions.now) number) }
{
    match functions.get(number as usize) {
        None => None,
        Some(callee) => callee.result,
    }
}

// Adds what takes the result of a call into a target, where there are both.
fn add_taking(
    nodes: &mut RtNodes,
    held: Option<Held>,
    target: Option<u32>,
    next: u32,
) -> Result<u32, NoMemory>
    ensures nodes { IfOk result (λ n. nodes.new.items ≡ (t.add_taking nodes.old.items held target next).nodes) }
    ensures entry { IfOk result (λ n. n ≡ (t.add_taking nodes.old.items held target next).entry) }
{
    let Some(held) = held else {
        return Ok(next);
    };
    let Some(variable) = target else {
        return Ok(next);
    };
    let put = add_node(
        nodes,
        RtOp::Put {
            variable,
            temporary: 0,
        },
        Some(next),
    )?;
    add_node(nodes, RtOp::Result(held, 0), Some(put))
}

/// Adds a call of one of the functions, with the label after it, before the node `next`.
pub(crate) fn add_call(
    nodes: &mut RtNodes,
    functions: &[CmFunction],
    target: Option<u32>,
    callee: u32,
    arguments: &[CmExpr],
    label: Label,
    next: u32,
) -> Result<u32, NoMemory>
    ensures nodes { IfOk result (λ n. nodes.new.items ≡ (t.add_call (map function_of functions.now) nodes.old.items target callee (map expr_of arguments.now) label next).nodes) }
    ensures entry { IfOk result (λ n. n ≡ (t.add_call (map function_of functions.now) nodes.old.items target callee (map expr_of arguments.now) label next).entry) }
{
    let taking = add_taking(nodes, result_at(functions, callee), target, next)?;
    let after = add_node(nodes, RtOp::Label(label), Some(taking))?;
    let call = add_node(nodes, RtOp::Call(callee), Some(after))?;
    add_arguments(nodes, parameters_at(functions, callee), 0, arguments, call)
}
