//! Which argument places were written where the exits of nodes are reached, with no call between.
ghost use Rattle.std.specs.Prelude.{◌≡◌, ℕ, ◌<◌, length, IfOk};
ghost use Rattle.rtl.specs.Graphs.{ops_at, exit_at};
ghost use Rattle.rtl.specs.Liveness.{IsAmong};
ghost use Rattle.liveness.specs.Code.Rows.{ways_of, AreTurned};
ghost use Rattle.liveness.specs.Code.Views.{numbered_graph, occurrences_of};
ghost use Rattle.liveness.specs.Code.Flow.{all_writes, calmly_after, IsWritten};

use crate::exits::add_calmly_after;
use crate::occurrences::Occurrences;
use crate::reach::reach;
use crate::storages::{Storage, add_all_writes};
use crate::ways::{Ways, add_to_each, empty_rows};
use cerco_base::NoMemory;
use rtl::{Graph, Vreg};
use std::alloc::Global;

// Which nodes write something.
fn writers(alloc: Global, graph: &Graph<Vreg>) -> Result<Occurrences, NoMemory>
    ensures { IfOk result (λ list. AreTurned (λ p s. IsAmong s (all_writes (ops_at (numbered_graph graph.now) p))) (length graph.now.nodes) (occurrences_of list)) }
{
    let mut list = Occurrences::new(alloc);
    for p in 0..graph.nodes.as_slice().len() {
        let mut writes = Vec::new(alloc);
        add_all_writes(&mut writes, graph.nodes.as_slice()[p].ops.as_slice())?;
        list.add_all(alloc, &writes, p)?;
    }
    Ok(list)
}

// The ways from each node to those after it, with no call between.
fn calm_ways(alloc: Global, graph: &Graph<Vreg>) -> Result<Vec<Ways>, NoMemory>
    ensures long { IfOk result (λ ways. length ways.items ≡ length graph.now.nodes) }
    ensures each { IfOk result (λ ways. (p : ℕ) → p < length graph.now.nodes → ways_of ways.items p ≡ calmly_after (exit_at (numbered_graph graph.now) p) (length graph.now.nodes)) }
{
    let nodes = graph.nodes.as_slice();
    let mut ways = Vec::new(alloc);
    for p in 0..nodes.len() {
        let mut to = Vec::new(alloc);
        add_calmly_after(&mut to, nodes[p].exit, nodes.len())?;
        ways.push(Ways { to })?;
    }
    Ok(ways)
}

/// For each node, the argument places that were written where its exit is reached.
pub fn written(alloc: Global, graph: &Graph<Vreg>) -> Result<Vec<Ways>, NoMemory>
    ensures { IfOk result (λ rows. AreTurned (IsWritten (numbered_graph graph.now) (length graph.now.nodes)) 12 (ways_of rows.items)) }
{
    let writers = writers(alloc, graph)?;
    let ways = calm_ways(alloc, graph)?;
    let mut marks: Vec<bool> = vec![in alloc; false; ways.len()]?;
    let mut rows = empty_rows(alloc, ways.len())?;
    for a in 0..12 {
        let reached = reach(alloc, &ways, writers.of(Storage::Vreg(a)), &[], &mut marks)?;
        add_to_each(&mut rows, &reached, a as usize)?;
    }
    Ok(rows)
}
