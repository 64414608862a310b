//! The graph of a function, and those of all functions.
ghost use Rattle.std.specs.Prelude.{◌≡◌, ◌<◌, ◌^◌, ◌++◌, OnOk, IfOk, length, map, slice_get};
ghost use Rattle.cerco_middle.specs.Code.Views.{graph_of as labs_graph};
ghost use Rattle.rtl.specs.Code.Views.{node_of as code_node, graph_of};
ghost use Rattle.byte_sequences.specs.Words.{vreg};
ghost use Rattle.rtl_gen.specs.Translation as spec;

use crate::entry::entry_node;
use byte_sequences::node_of;
use byte_sequences::operations::has_small_numbers;
use cerco_base::NoMemory;
use cerco_middle::{RtFunction, RtNode};
use rtl::{Graph, Graphs, Nodes, Vreg};
use std::alloc::Global;

// Functions have fewer variables and nodes than this, so that these have numbers.
const MOST: usize = 268_435_456;

// The next node, where a node that has none goes on at itself.
fn next_or(at: u32, next: Option<u32>) -> u32
    ensures { result ≡ spec.next_or at next }
{
    match next {
        Some(next) => next,
        None => at,
    }
}

// The node after the entry of a function.
fn entry_next(function: &RtFunction) -> u32
    ensures { result ≡ spec.entry_next (labs_graph function.now) }
{
    match function.nodes.get(function.entry as usize) {
        Some(node) => next_or(function.entry, node.next),
        None => function.entry,
    }
}

// Where a node of a function goes on: the entry at the new node.
fn next_of(function: &RtFunction, new: u32, at: u32, node: RtNode) -> u32
    ensures { result ≡ spec.next_of function.now.entry new at node.next }
{
    if at == function.entry {
        new
    } else {
        next_or(at, node.next)
    }
}

// A node of a function in bytes.
fn push_node(
    alloc: Global,
    nodes: &mut Nodes<Vreg>,
    function: &RtFunction,
    node: RtNode,
    next: u32,
) -> Result<(), NoMemory>
    ensures { OnOk result (map code_node nodes.new ≡ map code_node nodes.old ++ spec.one_node vreg function.now.held.items function.now.result node.op next) }
{
    if !has_small_numbers(node.op) {
        return Err(NoMemory);
    }
    nodes.push(node_of(
        alloc,
        function.held.as_slice(),
        function.result,
        node.op,
        next,
    )?)
}

// The nodes of a function in bytes, where the new node has this number.
fn push_nodes(
    alloc: Global,
    nodes: &mut Nodes<Vreg>,
    function: &RtFunction,
    new: u32,
) -> Result<(), NoMemory>
    requires { length function.now.nodes.items < 2 ^ 32 }
    ensures { OnOk result (map code_node nodes.new ≡ map code_node nodes.old ++ spec.nodes_from vreg (labs_graph function.now) new 0 function.now.nodes.items) }
{
    for at in 0..function.nodes.len() {
        let node = function.nodes[at];
        push_node(
            alloc,
            nodes,
            function,
            node,
            next_of(function, new, at as u32, node),
        )?;
    }
    Ok(())
}

// All nodes of a function in bytes, the new one last.
fn push_all_nodes(
    alloc: Global,
    nodes: &mut Nodes<Vreg>,
    function: &RtFunction,
) -> Result<(), NoMemory>
    ensures { OnOk result (map code_node nodes.new ≡ map code_node nodes.old ++ spec.all_nodes vreg (labs_graph function.now)) }
{
    if MOST <= function.nodes.len() || MOST <= function.held.len() {
        return Err(NoMemory);
    }
    push_nodes(alloc, nodes, function, function.nodes.len() as u32)?;
    nodes.push(entry_node(
        alloc,
        function.held.as_slice(),
        function.params,
        entry_next(function),
    )?)
}

// The graph of a function.
fn graph(alloc: Global, function: &RtFunction) -> Result<Graph<Vreg>, NoMemory>
    ensures { IfOk result (λ g. graph_of g ≡ spec.translated_function vreg (labs_graph function.now)) }
{
    let mut nodes = Nodes::new(alloc);
    push_all_nodes(alloc, &mut nodes, function)?;
    Ok(Graph {
        entry: function.entry,
        nodes,
    })
}

/// The graphs of functions.
pub fn push_graphs(
    alloc: Global,
    graphs: &mut Graphs<Vreg>,
    functions: &[RtFunction],
) -> Result<(), NoMemory>
    ensures { OnOk result (map graph_of graphs.new ≡ map graph_of graphs.old ++ map (spec.translated_function vreg) (map labs_graph functions.now)) }
{
    for function in functions {
        graphs.push(graph(alloc, function)?)?;
    }
    Ok(())
}
