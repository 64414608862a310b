//! Which nodes are covered, and which virtual registers are live after a call.
ghost use Rattle.std.specs.Prelude.{◌≡◌, ℕ, ◌<◌, ◌≤◌, ◌⊎◌, ◌↔◌, length, map, true, IfOk, OnOk};
ghost use Rattle.cerco_traces.specs.LabelledGraphs.{In};
ghost use Rattle.rtl.specs.Locations.{vreg_number};
ghost use Rattle.rtl.specs.Graphs.{renamed_exit};
ghost use Rattle.rtl.specs.LiveSets.{vregs_before};
ghost use Rattle.rtl.specs.Liveness.{GoesTo};
ghost use Rattle.rtl.specs.Code.Views.{node_of};
ghost use Rattle.colouring.specs.Code.Rows.{mark_at};
ghost use Rattle.colouring.specs.Code.Neighbours.{numbers, VregsBelow, EntriesBelow, HasEntries, IsGoneTo, IsAfterCall, IsAfterCallOf};

use cerco_base::NoMemory;
use rtl::{Exit, LiveSets, Node, Vreg};
use std::alloc::Global;

// The node p leads to q, which is covered if it has the smaller number.
fn cover(marks: &mut Vec<bool>, p: usize, q: u32)
    requires { p ≤ length marks.old.items }
    ensures long { length marks.new.items ≡ length marks.old.items }
    ensures only { (x : ℕ) → mark_at marks.new.items x ≡ true → (mark_at marks.old.items x ≡ true) ⊎ ((q ≡ x) × (x < p)) }
{
    if (q as usize) < p {
        marks[q as usize] = true;
    }
}

// The same of all nodes to which the exit of p leads.
fn cover_next(marks: &mut Vec<bool>, p: usize, exit: Exit<Vreg>)
    requires { p ≤ length marks.old.items }
    ensures long { length marks.new.items ≡ length marks.old.items }
    ensures only { (x : ℕ) → mark_at marks.new.items x ≡ true → (mark_at marks.old.items x ≡ true) ⊎ (GoesTo (renamed_exit vreg_number exit) x × (x < p)) }
{
    match exit {
        Exit::Next(q) => cover(marks, p, q),
        Exit::Test(_, q, r) => {
            cover(marks, p, q);
            cover(marks, p, r)
        }
        Exit::Call(_, q) => cover(marks, p, q),
        Exit::Label(_, q) => cover(marks, p, q),
        Exit::Return => {}
    }
}

// Nodes to which a node with a greater number leads.
pub(crate) fn covered(alloc: Global, nodes: &[Node<Vreg>]) -> Result<Vec<bool>, NoMemory>
    ensures long { IfOk result (λ marks. length marks.items ≡ length nodes.now) }
    ensures only { IfOk result (λ marks. (q : ℕ) → mark_at marks.items q ≡ true → IsGoneTo (map node_of nodes.now) (length nodes.now) q) }
{
    let mut marks = vec![in alloc; false; nodes.len()]?;
    for (p, node) in nodes.iter().enumerate() {
        cover_next(&mut marks, p, node.exit);
    }
    Ok(marks)
}

// Each of these is marked too.
fn mark_each(marks: &mut Vec<bool>, vregs: &[Vreg])
    requires { VregsBelow (length marks.old.items) vregs.now }
    ensures long { length marks.new.items ≡ length marks.old.items }
    ensures marked { (x : ℕ) → (mark_at marks.new.items x ≡ true) ↔ ((mark_at marks.old.items x ≡ true) ⊎ In x (numbers vregs.now)) }
{
    for v in vregs {
        marks[v.0 as usize] = true;
    }
}

// What is live where a node begins is marked too.
fn mark_returned(marks: &mut Vec<bool>, live: &LiveSets, node: u32)
    requires below { EntriesBelow (length marks.old.items) live.now }
    requires entries { HasEntries live.now }
    ensures long { length marks.new.items ≡ length marks.old.items }
    ensures marked { (x : ℕ) → (mark_at marks.new.items x ≡ true) ↔ ((mark_at marks.old.items x ≡ true) ⊎ In x (numbers (vregs_before live.now node 0))) }
{
    if (node as usize) < live.nodes.as_slice().len() {
        mark_each(marks, live.before(node, 0));
    }
}

// What is live where a call goes on is marked too.
fn mark_after(marks: &mut Vec<bool>, exit: Exit<Vreg>, live: &LiveSets)
    requires below { EntriesBelow (length marks.old.items) live.now }
    requires entries { HasEntries live.now }
    ensures long { length marks.new.items ≡ length marks.old.items }
    ensures marked { (x : ℕ) → (mark_at marks.new.items x ≡ true) ↔ ((mark_at marks.old.items x ≡ true) ⊎ IsAfterCall exit live.now x) }
{
    match exit {
        Exit::Call(_, next) => mark_returned(marks, live, next),
        _ => {}
    }
}

// For so many virtual registers, which of them are live directly after a call.
pub(crate) fn live_across(
    alloc: Global,
    nodes: &[Node<Vreg>],
    live: &LiveSets,
    count: usize,
) -> Result<Vec<bool>, NoMemory>
    requires below { EntriesBelow count live.now }
    requires entries { HasEntries live.now }
    ensures long { IfOk result (λ marks. length marks.items ≡ count) }
    ensures marked { IfOk result (λ marks. (v : ℕ) → (mark_at marks.items v ≡ true) ↔ IsAfterCallOf (map node_of nodes.now) live.now (length nodes.now) v) }
{
    let mut marks = vec![in alloc; false; count]?;
    for node in nodes {
        mark_after(&mut marks, node.exit, live);
    }
    Ok(marks)
}
