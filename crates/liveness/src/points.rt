//! The points of a graph, numbered node by node: before each operation, and before the exit.
ghost use Rattle.std.specs.Prelude.{◌≡◌, ◌+◌, ◌<◌, ◌^◌, ◌++◌, length, OnOk, IfOk};
ghost use Rattle.liveness.specs.Code.Views.{numbered_graph};
ghost use Rattle.liveness.specs.Code.Points.{node_points, ArePoints};

use cerco_base::NoMemory;
use rtl::{Graph, Vreg};
use std::alloc::Global;

/// A point: the node, and the number of its operation, counted from 0; their number is the exit.
#[derive(Clone, Copy)]
pub struct Point {
    pub node: usize,
    pub op: usize,
}

/// The points of a graph, and the number of the first point of each node.
#[derive(Drop)]
pub struct Points {
    pub places: Vec<Point>,
    pub fronts: Vec<usize>,
}

// Adds the points of a node that has so many operations.
fn add_points(places: &mut Vec<Point>, p: usize, ops: usize) -> Result<(), NoMemory>
    requires { ops + 1 < 2 ^ 64 }
    ensures { OnOk result (places.new.items ≡ places.old.items ++ node_points p (ops + 1)) }
{
    for k in 0..ops + 1 {
        places.push(Point { node: p, op: k })?;
    }
    Ok(())
}

/// The points of a graph.
pub fn points_of(alloc: Global, graph: &Graph<Vreg>) -> Result<Points, NoMemory>
    ensures { IfOk result (λ points. ArePoints (numbered_graph graph.now) (length graph.now.nodes) points) }
{
    let mut points = Points {
        places: Vec::new(alloc),
        fronts: Vec::new(alloc),
    };
    for p in 0..graph.nodes.as_slice().len() {
        points.fronts.push(points.places.len())?;
        add_points(
            &mut points.places,
            p,
            graph.nodes.as_slice()[p].ops.as_slice().len(),
        )?;
    }
    Ok(points)
}
