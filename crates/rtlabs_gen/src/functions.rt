//! The graphs of functions.
ghost use Rattle.std.specs.Prelude.{◌≡◌, IfOk, map};
ghost use Rattle.cerco_middle.specs.Code.Views.{function_of, graph_of};
ghost use Rattle.rtlabs_gen.specs.Translation as t;

use crate::exits::Exits;
use crate::graph::add_node;
use crate::statements::add_statement;
use cerco_base::NoMemory;
use cerco_middle::{CmFunction, Held, RtFunction, RtFunctions, RtNodes, RtOp};
use std::alloc::Global;

// Adds the end of a function, which returns 0 where it has a result.
fn add_end(nodes: &mut RtNodes, held: Option<Held>) -> Result<u32, NoMemory>
    ensures nodes { IfOk result (λ n. nodes.new.items ≡ (t.add_end nodes.old.items held).nodes) }
    ensures entry { IfOk result (λ n. n ≡ (t.add_end nodes.old.items held).entry) }
{
    match held {
        None => add_node(nodes, RtOp::Return, None),
        Some(_) => {
            let give = add_node(nodes, RtOp::ReturnValue(0), None)?;
            add_node(nodes, RtOp::Const(0, 0), Some(give))
        }
    }
}

// The graph of one of the functions.
fn function_graph(
    alloc: Global,
    functions: &[CmFunction],
    function: &CmFunction,
) -> Result<RtFunction, NoMemory>
    ensures { IfOk result (λ g. graph_of g ≡ t.translated_function (map function_of functions.now) (function_of function.now)) }
{
    let held = Vec::from_slice(alloc, function.held.as_slice())?;
    let mut nodes = Vec::new(alloc);
    let end = add_end(&mut nodes, function.result)?;
    let exits = Exits::at(end);
    let body = add_statement(&mut nodes, functions, &function.body, end, exits)?;
    let entry = add_node(&mut nodes, RtOp::Label(function.label), Some(body))?;
    Ok(RtFunction {
        held,
        params: function.params,
        result: function.result,
        entry,
        nodes,
    })
}

/// The graphs of functions.
pub(crate) fn function_graphs(
    alloc: Global,
    functions: &[CmFunction],
) -> Result<RtFunctions, NoMemory>
    ensures { IfOk result (λ gs. map graph_of gs.items ≡ map (t.translated_function (map function_of functions.now)) (map function_of functions.now)) }
{
    let mut graphs = Vec::new(alloc);
    for function in functions {
        graphs.push(function_graph(alloc, functions, function)?)?;
    }
    Ok(graphs)
}
