//! The points of a graph that are needed whatever comes after them: exits, and operations that do
//! more than write.
ghost use Rattle.std.specs.Prelude.{◌≡◌, ◌<◌, length, IfOk};
ghost use Rattle.liveness.specs.Code.Views.{numbered_op, numbered_graph};
ghost use Rattle.liveness.specs.Code.Points.{left, ArePoints};
ghost use Rattle.dropping.specs.Code.Marks.{is_deed, begins, first_marks};

use cerco_base::NoMemory;
use liveness::points::{Point, Points};
use rtl::{ByteOp, Graph, Vreg};
use std::alloc::Global;

// Whether an operation does more than write.
fn is_deed(op: &ByteOp<Vreg>) -> bool
    ensures { result ≡ is_deed (numbered_op op.now) }
{
    match op {
        ByteOp::Store(_, _, _) => true,
        ByteOp::ReadPort(_) => true,
        ByteOp::WritePort(_) => true,
        _ => false,
    }
}

// Whether a point is an exit, or an operation that does more than write.
fn begins(graph: &Graph<Vreg>, point: Point) -> bool
    requires { point.node < length graph.now.nodes }
    ensures { result ≡ begins (left (numbered_graph graph.now) point) }
{
    let node = &graph.nodes.as_slice()[point.node];
    match node.ops.as_slice().get(point.op) {
        Some(op) => is_deed(op),
        None => true,
    }
}

/// Of each point, whether it is such a one.
pub fn first_marks(
    alloc: Global,
    graph: &Graph<Vreg>,
    points: &Points,
) -> Result<Vec<bool>, NoMemory>
    requires { ArePoints (numbered_graph graph.now) (length graph.now.nodes) points.now }
    ensures { IfOk result (λ marks. marks.items ≡ first_marks (numbered_graph graph.now) points.now) }
{
    let mut marks = Vec::new(alloc);
    for point in points.places.as_slice() {
        marks.push(begins(graph, *point))?;
    }
    Ok(marks)
}
