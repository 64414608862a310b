//! The needed operations of a graph.
ghost use Rattle.std.specs.Prelude.{IfOk};
ghost use Rattle.liveness.specs.Code.Views.{numbered_graph};
ghost use Rattle.liveness.specs.Code.Flow.{IsFlow};
ghost use Rattle.dropping.specs.Code.Turns.{AreNeeded};

use crate::deeds::first_marks;
use crate::marks::Needed;
use crate::turns::{Scratch, round};
use cerco_base::NoMemory;
use liveness::flow::Flow;
use rtl::{Graph, Vreg};
use std::alloc::Global;

/// Of each point, whether it is an exit or a needed operation. Each round of searches takes time in
/// proportion to the points, the virtual registers and the live sets. Each but the last one finds a
/// needed operation, and few do where values flow from smaller virtual registers to greater ones.
pub fn needed(alloc: Global, graph: &Graph<Vreg>, flow: &Flow) -> Result<Vec<bool>, NoMemory>
    requires { IsFlow (numbered_graph graph.now) flow.now }
    ensures { IfOk result (λ marks. AreNeeded (numbered_graph graph.now) flow.now.points marks.items) }
{
    let count = flow.points.places.len();
    let mut needed = Needed {
        marks: first_marks(alloc, graph, &flow.points)?,
        changed: true,
    };
    let mut scratch = Scratch {
        reached: vec![in alloc; false; count]?,
        walls: vec![in alloc; false; count]?,
    };
    while needed.changed {
        needed.changed = false;
        round(alloc, flow, &mut needed, &mut scratch)?;
    }
    Ok(needed.marks)
}
