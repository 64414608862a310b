//! The rows of the nodes of a graph.
ghost use Rattle.std.specs.Prelude.{◌≡◌, ℕ, ◌<◌, ◌∷◌, [], length, map, false, OnOk, IfOk};
ghost use Rattle.rtl.specs.LiveSets.{points_of, vregs_before};
ghost use Rattle.rtl.specs.Code.Views.{node_of};
ghost use Rattle.colouring.specs.Code.Rows.{mark_at};
ghost use Rattle.colouring.specs.Code.Neighbours.{HasAdded, Between, ArgumentsBetween, WithArgument, AfterCall, AtStart, AtNode, AtNodes, IsEmpty, AreRowsBy, numbers, VregsBelow, PointsBelow, OpsBelow, EntriesBelow, HasEntries, AreReady};

use crate::greedy::Row;
use crate::rows::{add_ops, add_pairs, add_with};
use cerco_base::NoMemory;
use rtl::{Exit, LivePoint, LiveSets, Node, Vreg};
use std::alloc::Global;

// All that are live at the first point of a node, unless it is covered.
fn add_start(rows: &mut Vec<Row>, covered: bool, live: &[Vreg]) -> Result<(), NoMemory>
    requires { VregsBelow (length rows.old.items) live.now }
    ensures { OnOk result (HasAdded (AtStart covered (numbers live.now)) rows.old.items rows.new.items) }
{
    if covered {
        Ok(())
    } else {
        add_pairs(rows, live, live)
    }
}

// One with each of the others, if it is an argument place.
fn add_argument(rows: &mut Vec<Row>, v: Vreg, others: &[Vreg]) -> Result<(), NoMemory>
    requires first { v.0 < length rows.old.items }
    requires others { VregsBelow (length rows.old.items) others.now }
    ensures { OnOk result (HasAdded (ArgumentsBetween (v.0 ∷ []) (numbers others.now)) rows.old.items rows.new.items) }
{
    if v.0 < 12 {
        add_with(rows, v, others)
    } else {
        Ok(())
    }
}

// The argument places with all that are live beside them.
fn add_arguments(rows: &mut Vec<Row>, live: &[Vreg]) -> Result<(), NoMemory>
    requires { VregsBelow (length rows.old.items) live.now }
    ensures { OnOk result (HasAdded (WithArgument (numbers live.now)) rows.old.items rows.new.items) }
{
    for v in live {
        add_argument(rows, *v, live)?;
    }
    Ok(())
}

// The argument places with all that are live where a node begins.
fn add_returned(rows: &mut Vec<Row>, live: &LiveSets, node: u32) -> Result<(), NoMemory>
    requires below { EntriesBelow (length rows.old.items) live.now }
    requires entries { HasEntries live.now }
    ensures { OnOk result (HasAdded (WithArgument (numbers (vregs_before live.now node 0))) rows.old.items rows.new.items) }
{
    if (node as usize) < live.nodes.as_slice().len() {
        add_arguments(rows, live.before(node, 0))
    } else {
        Ok(())
    }
}

// The same where a call goes on.
fn add_after(rows: &mut Vec<Row>, exit: Exit<Vreg>, live: &LiveSets) -> Result<(), NoMemory>
    requires below { EntriesBelow (length rows.old.items) live.now }
    requires entries { HasEntries live.now }
    ensures { OnOk result (HasAdded (AfterCall exit live.now) rows.old.items rows.new.items) }
{
    match exit {
        Exit::Call(_, next) => add_returned(rows, live, next),
        _ => Ok(()),
    }
}

// The pairs of a node with its points.
fn add_node(
    alloc: Global,
    rows: &mut Vec<Row>,
    node: &Node<Vreg>,
    covered: bool,
    points: &[LivePoint],
    live: &LiveSets,
) -> Result<(), NoMemory>
    requires many { length node.now.ops < length points.now }
    requires ops { OpsBelow (length rows.old.items) (node_of node.now).ops }
    requires points { PointsBelow (length rows.old.items) points.now }
    requires below { EntriesBelow (length rows.old.items) live.now }
    requires entries { HasEntries live.now }
    ensures { OnOk result (HasAdded (AtNode covered (node_of node.now) points.now live.now) rows.old.items rows.new.items) }
{
    add_start(rows, covered, points[0].vregs.as_slice())?;
    add_ops(alloc, rows, node.ops.as_slice(), points)?;
    add_after(rows, node.exit, live)
}

// The pairs of the nodes of a graph.
fn add_nodes(
    alloc: Global,
    rows: &mut Vec<Row>,
    nodes: &[Node<Vreg>],
    covered: &[bool],
    live: &LiveSets,
) -> Result<(), NoMemory>
    requires marks { length covered.now ≡ length nodes.now }
    requires ready { AreReady (length rows.old.items) (map node_of nodes.now) live.now }
    ensures { OnOk result (HasAdded (AtNodes covered.now (map node_of nodes.now) live.now (length nodes.now)) rows.old.items rows.new.items) }
{
    for (p, node) in nodes.iter().enumerate() {
        let points = live.nodes.as_slice()[p].as_slice();
        add_node(alloc, rows, node, covered[p], points, live)?;
    }
    Ok(())
}

// So many rows, with nothing in them.
fn empty_rows(alloc: Global, count: usize) -> Result<Vec<Row>, NoMemory>
    ensures long { IfOk result (λ rows. length rows.items ≡ count) }
    ensures none { IfOk result (λ rows. IsEmpty rows.items) }
{
    let mut rows = Vec::new(alloc);
    for _v in 0..count {
        rows.push(Row {
            near: Vec::new(alloc),
        })?;
    }
    Ok(rows)
}

// For so many virtual registers, the rows of a graph.
pub(crate) fn rows_of(
    alloc: Global,
    nodes: &[Node<Vreg>],
    covered: &[bool],
    live: &LiveSets,
    count: usize,
) -> Result<Vec<Row>, NoMemory>
    requires marks { length covered.now ≡ length nodes.now }
    requires ready { AreReady count (map node_of nodes.now) live.now }
    ensures long { IfOk result (λ rows. length rows.items ≡ count) }
    ensures pairs { IfOk result (λ rows. AreRowsBy (AtNodes covered.now (map node_of nodes.now) live.now (length nodes.now)) rows.items) }
{
    let mut rows = empty_rows(alloc, count)?;
    add_nodes(alloc, &mut rows, nodes, covered, live)?;
    Ok(rows)
}
