//! The live sets of a graph.
ghost use Rattle.std.specs.Prelude.{◌≡◌, ℕ, ◌+◌, ◌<◌, ◌^◌, ◌↔◌, length, map, IfOk, OnOk};
ghost use Rattle.cerco_traces.specs.LabelledGraphs.{In};
ghost use Rattle.rtl.specs.Programs.{Graph as GraphOf};
ghost use Rattle.rtl.specs.Locations.{vreg_number};
ghost use Rattle.rtl.specs.Effects.{Loc, Carry};
ghost use Rattle.rtl.specs.Code.Views.{graph_of};
ghost use Rattle.rtl.specs.Liveness.{AreLiveSets, AreRising};
ghost use Rattle.liveness.specs.Code.Rows.{ways_of, AllBelow, AreDistinct, AreTurned};
ghost use Rattle.liveness.specs.Code.Reach.{is_marked, AreClear};
ghost use Rattle.liveness.specs.Code.Views.{storage_of};
ghost use Rattle.liveness.specs.Code.Points.{count};
ghost use Rattle.liveness.specs.Code.Flow.{IsFlow, HasGraph, IsLive, AreRows, AreRowsOf};

use crate::flow::{Flow, flow_of};
use crate::reach::{is_marked, reach, set_all};
use crate::storages::Storage;
use crate::ways::{Ways, add_to_each, empty_rows, row};
use cerco_base::NoMemory;
use rtl::{Graph, LivePoint, LivePoints, LiveSets, Sequence, Vreg};
use std::alloc::Global;

/// Marks of points, none of which is set between two searches: what a search has reached, and
/// what it doesn't go through.
#[derive(Drop)]
struct Marks {
    reached: Vec<bool>,
    walls: Vec<bool>,
}

// The points at which something is live.
fn live_points(
    alloc: Global,
    flow: &Flow,
    storage: Storage,
    marks: &mut Marks,
) -> Result<Vec<usize>, NoMemory>
    requires reached { AreClear marks.old.reached.items (count flow.now.points) }
    requires walls { AreClear marks.old.walls.items (count flow.now.points) }
    requires flow { HasGraph flow.now }
    ensures exact { IfOk result (λ list. (g : GraphOf ℕ) → IsFlow g flow.now → (i : ℕ) → In i list.items ↔ ((i < count flow.now.points) × IsLive g flow.now.points i (storage_of storage))) }
    ensures distinct { IfOk result (λ list. AreDistinct list.items) }
    ensures below { IfOk result (λ list. AllBelow list.items (count flow.now.points)) }
    ensures reached { OnOk result (AreClear marks.new.reached.items (count flow.now.points)) }
    ensures walls { OnOk result (AreClear marks.new.walls.items (count flow.now.points)) }
{
    let stops = flow.stops.of(storage);
    set_all(&mut marks.walls, stops, true);
    let seeds = flow.uses.of(storage);
    let list = reach(alloc, &flow.back, seeds, &marks.walls, &mut marks.reached)?;
    set_all(&mut marks.walls, stops, false);
    Ok(list)
}

// For each point, the virtual registers that are live there.
fn live_rows(alloc: Global, flow: &Flow, marks: &mut Marks) -> Result<Vec<Ways>, NoMemory>
    requires reached { AreClear marks.old.reached.items (count flow.now.points) }
    requires walls { AreClear marks.old.walls.items (count flow.now.points) }
    requires flow { HasGraph flow.now }
    ensures exact { IfOk result (λ rows. (g : GraphOf ℕ) → IsFlow g flow.now → AreTurned (λ v i. (i < count flow.now.points) × IsLive g flow.now.points i (Loc v)) (length flow.now.uses.vregs.items) (ways_of rows.items)) }
    ensures rising { IfOk result (λ rows. (i : ℕ) → AreRising (ways_of rows.items i)) }
{
    let mut rows = empty_rows(alloc, flow.points.places.len())?;
    for v in 0..flow.uses.vregs.len() {
        let list = live_points(alloc, flow, Storage::Vreg(v as u32), marks)?;
        add_to_each(&mut rows, &list, v)?;
    }
    Ok(rows)
}

/// What is live at each point: a row of virtual registers, and a mark where it is the carry.
#[derive(Drop)]
struct Rows {
    vregs: Vec<Ways>,
    carry: Vec<bool>,
}

// What is live at each point.
fn rows_of(alloc: Global, flow: &Flow) -> Result<Rows, NoMemory>
    requires flow { HasGraph flow.now }
    ensures { IfOk result (λ rows. (g : GraphOf ℕ) → IsFlow g flow.now → AreRowsOf g flow.now rows.vregs.items rows.carry.items) }
{
    let count = flow.points.places.len();
    let mut marks = Marks {
        reached: vec![in alloc; false; count]?,
        walls: vec![in alloc; false; count]?,
    };
    let list = live_points(alloc, flow, Storage::Carry, &mut marks)?;
    let vregs = live_rows(alloc, flow, &mut marks)?;
    let mut carry = vec![in alloc; false; count]?;
    set_all(&mut carry, &list, true);
    Ok(Rows { vregs, carry })
}

// What is live at a point.
fn live_point(alloc: Global, row: &[usize], carry: bool) -> Result<LivePoint, NoMemory>
    requires { AllBelow row.now (2 ^ 32) }
    ensures vregs { IfOk result (λ point. map vreg_number point.vregs ≡ row.now) }
    ensures carry { IfOk result (λ point. point.carry ≡ carry) }
{
    let mut vregs = Sequence::new(alloc);
    for v in row {
        vregs.push(Vreg(*v as u32))?;
    }
    Ok(LivePoint { vregs, carry })
}

// What is live at these points.
fn live_node(alloc: Global, rows: &Rows, from: usize, ops: usize) -> Result<LivePoints, NoMemory>
    requires below { (i : ℕ) → AllBelow (ways_of rows.now.vregs.items i) (2 ^ 32) }
    requires few { from + ops + 1 < 2 ^ 64 }
    ensures { IfOk result (AreRows rows.now.vregs.items rows.now.carry.items from (ops + 1)) }
{
    let mut points = Sequence::new(alloc);
    for k in 0..ops + 1 {
        let vregs = row(&rows.vregs, from + k);
        points.push(live_point(alloc, vregs, is_marked(&rows.carry, from + k))?)?;
    }
    Ok(points)
}

/// What is live at each point of an ERTL graph: exactly the virtual registers, by rising number, and
/// the carry. Takes time and memory in proportion to the graph, its greatest virtual register and
/// the live sets.
pub fn live(alloc: Global, graph: &Graph<Vreg>) -> Result<LiveSets, NoMemory>
    ensures { IfOk result (AreLiveSets 0 (graph_of graph.now)) }
{
    let flow = flow_of(alloc, graph)?;
    let rows = rows_of(alloc, &flow)?;
    let mut nodes = Sequence::new(alloc);
    for p in 0..graph.nodes.as_slice().len() {
        let ops = graph.nodes.as_slice()[p].ops.as_slice().len();
        nodes.push(live_node(alloc, &rows, flow.points.fronts[p], ops)?)?;
    }
    Ok(LiveSets { nodes })
}
