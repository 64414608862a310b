//! Graphs with those of their operations that are marked.
ghost use Rattle.std.specs.Prelude.{◌≡◌, ◌+◌, ◌<◌, ◌^◌, length, map, IfOk};
ghost use Rattle.rtl.specs.Code.Views.{op_of, node_of, graph_of};
ghost use Rattle.pruned_graphs.specs.Searches.{selected, selected_nodes, selected_graph};
ghost use Rattle.liveness.specs.Code.Reach.{is_marked};
ghost use Rattle.liveness.specs.Code.Views.{numbered_graph};
ghost use Rattle.liveness.specs.Code.Points.{ArePoints};
ghost use Rattle.dropping.specs.Code.Selecting.{marked_from, marked_at};

use byte_renaming::{Naming, rename_op};
use cerco_base::NoMemory;
use liveness::points::Points;
use liveness::reach::is_marked;
use rtl::{ByteOp, Graph, Node, Nodes, Ops, Sequence, Vreg};
use std::alloc::Global;

// Each virtual register keeps its name.
struct Same;

impl Naming<Vreg, Vreg> for Same {
    ghost named = { λ _ v. v };

    fn name(&self, v: Vreg) -> Vreg {
        v
    }
}

// A copy of an operation.
fn copy_op(alloc: Global, op: &ByteOp<Vreg>) -> Result<ByteOp<Vreg>, NoMemory>
    ensures { IfOk result (λ copy. op_of copy ≡ op_of op.now) }
{
    rename_op(alloc, &Same, op)
}

// The operations whose marks are set, where the marks of the first one have this number.
fn select_ops(
    alloc: Global,
    ops: &[ByteOp<Vreg>],
    marks: &[bool],
    from: usize,
) -> Result<Ops<Vreg>, NoMemory>
    requires { from + length ops.now < 2 ^ 64 }
    ensures { IfOk result (λ list. map op_of list ≡ selected (marked_from marks.now from) (map op_of ops.now)) }
{
    let mut list = Sequence::new(alloc);
    for (k, op) in ops.iter().enumerate() {
        if is_marked(marks, from + k) {
            list.push(copy_op(alloc, op)?)?;
        }
    }
    Ok(list)
}

// The nodes with those of their operations whose marks are set.
fn select_nodes(
    alloc: Global,
    graph: &Graph<Vreg>,
    points: &Points,
    marks: &[bool],
) -> Result<Nodes<Vreg>, NoMemory>
    requires { ArePoints (numbered_graph graph.now) (length graph.now.nodes) points.now }
    ensures { IfOk result (λ list. map node_of list ≡ selected_nodes (marked_at points.now marks.now) (map node_of graph.now.nodes)) }
{
    let mut list = Sequence::new(alloc);
    for (p, node) in graph.nodes.as_slice().iter().enumerate() {
        let ops = select_ops(alloc, node.ops.as_slice(), marks, points.fronts[p])?;
        list.push(Node {
            ops,
            exit: node.exit,
        })?;
    }
    Ok(list)
}

/// The graph with those of its operations whose marks are set: the same entry, and each node with
/// its number and its exit.
pub fn select_graph(
    alloc: Global,
    graph: &Graph<Vreg>,
    points: &Points,
    marks: &[bool],
) -> Result<Graph<Vreg>, NoMemory>
    requires { ArePoints (numbered_graph graph.now) (length graph.now.nodes) points.now }
    ensures { IfOk result (λ selected. graph_of selected ≡ selected_graph (marked_at points.now marks.now) (graph_of graph.now)) }
{
    let nodes = select_nodes(alloc, graph, points, marks)?;
    Ok(Graph {
        entry: graph.entry,
        nodes,
    })
}
