//! The tables of a graph: its points, the ways between them, and where something is used or
//! written.
ghost use Rattle.std.specs.Prelude.{◌≡◌, ℕ, ◌<◌, ◌≤◌, ◌^◌, ◌↔◌, length, map, IfOk};
ghost use Rattle.cerco_traces.specs.LabelledGraphs.{In};
ghost use Rattle.liveness.specs.Code.Rows.{ways_of, AllBelow, AreTurned};
ghost use Rattle.liveness.specs.Code.Views.{storages_of, numbered_graph, occurrences_of};
ghost use Rattle.liveness.specs.Code.Points.{count, front, left, ArePoints};
ghost use Rattle.liveness.specs.Code.Flow.{IsWritten, UsesAt, StopsAt, IsUsed, IsStopped, LeadsOn, IsFlow, AreExactly};

use crate::exits::{add_after, add_overwritten, add_used};
use crate::occurrences::Occurrences;
use crate::points::{Point, Points, points_of};
use crate::storages::{Storage, add_reads, add_writes};
use crate::ways::{Ways, backward, row};
use crate::written::written;
use cerco_base::NoMemory;
use rtl::{Graph, Vreg};
use std::alloc::Global;

/// The points of a graph, the ways that lead to each of them, and the points at which something is
/// used and at which it is written.
#[derive(Drop)]
pub struct Flow {
    pub points: Points,
    pub back: Vec<Ways>,
    pub uses: Occurrences,
    pub stops: Occurrences,
}

// What is written at a point.
fn stops_at(alloc: Global, graph: &Graph<Vreg>, point: Point) -> Result<Vec<Storage>, NoMemory>
    requires { point.node < length graph.now.nodes }
    ensures { IfOk result (λ list. AreExactly (storages_of list.items) (λ s. StopsAt (numbered_graph graph.now) s point.node (left (numbered_graph graph.now) point))) }
{
    let node = &graph.nodes.as_slice()[point.node];
    let mut list = Vec::new(alloc);
    match node.ops.as_slice().get(point.op) {
        Some(op) => {
            add_writes(&mut list, op)?;
            Ok(list)
        }
        None => {
            add_overwritten(&mut list, node.exit)?;
            Ok(list)
        }
    }
}

// What is used at a point, where these are the argument places that were written before each exit.
fn uses_at(
    alloc: Global,
    graph: &Graph<Vreg>,
    written: &[Ways],
    point: Point,
) -> Result<Vec<Storage>, NoMemory>
    requires node { point.node < length graph.now.nodes }
    requires written { AreTurned (IsWritten (numbered_graph graph.now) (length graph.now.nodes)) 12 (ways_of written.now) }
    ensures { IfOk result (λ list. AreExactly (storages_of list.items) (λ s. UsesAt (numbered_graph graph.now) s point.node (left (numbered_graph graph.now) point))) }
{
    let node = &graph.nodes.as_slice()[point.node];
    let mut list = Vec::new(alloc);
    match node.ops.as_slice().get(point.op) {
        Some(op) => {
            add_reads(&mut list, op)?;
            Ok(list)
        }
        None => {
            add_used(&mut list, node.exit, row(written, point.node))?;
            Ok(list)
        }
    }
}

// The points at which something is written.
fn stops(alloc: Global, graph: &Graph<Vreg>, points: &Points) -> Result<Occurrences, NoMemory>
    requires { ArePoints (numbered_graph graph.now) (length graph.now.nodes) points.now }
    ensures { IfOk result (λ stops. AreTurned (IsStopped (numbered_graph graph.now) points.now) (count points.now) (occurrences_of stops)) }
{
    let mut stops = Occurrences::new(alloc);
    for i in 0..points.places.len() {
        let list = stops_at(alloc, graph, points.places[i])?;
        stops.add_all(alloc, &list, i)?;
    }
    Ok(stops)
}

// The points at which something is used.
fn uses(alloc: Global, graph: &Graph<Vreg>, points: &Points) -> Result<Occurrences, NoMemory>
    requires { ArePoints (numbered_graph graph.now) (length graph.now.nodes) points.now }
    ensures turned { IfOk result (λ uses. AreTurned (IsUsed (numbered_graph graph.now) points.now) (count points.now) (occurrences_of uses)) }
    ensures few { IfOk result (λ uses. length uses.vregs.items ≤ 2 ^ 32) }
{
    let written = written(alloc, graph)?;
    let mut uses = Occurrences::new(alloc);
    for i in 0..points.places.len() {
        let list = uses_at(alloc, graph, &written, points.places[i])?;
        uses.add_all(alloc, &list, i)?;
    }
    Ok(uses)
}

// The first points of these nodes.
fn fronts(alloc: Global, points: &Points, nodes: &[usize]) -> Result<Vec<usize>, NoMemory>
    requires { AllBelow nodes.now (length points.now.fronts.items) }
    ensures { IfOk result (λ list. list.items ≡ map (front points.now) nodes.now) }
{
    let mut list = Vec::new(alloc);
    for q in nodes {
        list.push(points.fronts[*q])?;
    }
    Ok(list)
}

// The points after a point.
fn ways_from(
    alloc: Global,
    graph: &Graph<Vreg>,
    points: &Points,
    i: usize,
) -> Result<Vec<usize>, NoMemory>
    requires points { ArePoints (numbered_graph graph.now) (length graph.now.nodes) points.now }
    requires within { i < count points.now }
    ensures { IfOk result (λ list. (j : ℕ) → In j list.items ↔ LeadsOn (numbered_graph graph.now) points.now i j) }
{
    let point = points.places[i];
    let node = &graph.nodes.as_slice()[point.node];
    let mut list = Vec::new(alloc);
    if point.op < node.ops.as_slice().len() {
        list.push(i + 1)?;
        return Ok(list);
    }
    add_after(&mut list, node.exit, points.fronts.len())?;
    fronts(alloc, points, &list)
}

// The ways from each point.
fn forward(alloc: Global, graph: &Graph<Vreg>, points: &Points) -> Result<Vec<Ways>, NoMemory>
    requires { ArePoints (numbered_graph graph.now) (length graph.now.nodes) points.now }
    ensures long { IfOk result (λ ways. length ways.items ≡ count points.now) }
    ensures each { IfOk result (λ ways. (i j : ℕ) → i < count points.now → In j (ways_of ways.items i) ↔ LeadsOn (numbered_graph graph.now) points.now i j) }
{
    let mut ways = Vec::new(alloc);
    for i in 0..points.places.len() {
        ways.push(Ways {
            to: ways_from(alloc, graph, points, i)?,
        })?;
    }
    Ok(ways)
}

/// The tables of a graph.
pub fn flow_of(alloc: Global, graph: &Graph<Vreg>) -> Result<Flow, NoMemory>
    ensures { IfOk result (IsFlow (numbered_graph graph.now)) }
{
    let points = points_of(alloc, graph)?;
    let uses = uses(alloc, graph, &points)?;
    let stops = stops(alloc, graph, &points)?;
    let ways = forward(alloc, graph, &points)?;
    let back = backward(alloc, &ways)?;
    Ok(Flow {
        points,
        back,
        uses,
        stops,
    })
}
