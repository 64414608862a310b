//! An order of the nodes of a graph in which each false arm comes directly after its test, and each
//! node after a call directly after the call.

ghost use Rattle.std.specs.Prelude.{◌≡◌, ℕ, ◌+◌, ◌<◌, ◌^◌, ◌++◌, ◌∷◌, [], length, IfOk, true, false, slice_set};
ghost use Rattle.rtl.specs.Code.Views.{graph_of};
ghost use Rattle.rtl.specs.Graphs.{exit_at, IsSoundlyLabelled};
ghost use Rattle.rtl.specs.WellFormed.{NamesNodes};
ghost use Rattle.lin_gen.specs.Ordering.{follower_of, IsOrder};
ghost use Rattle.lin_gen.specs.Code.Placing.{is_marked, way_on_of, IsBelow, IsHead, AreFollowers, Placing, Placed};

use cerco_base::NoMemory;
use rtl::{Exit, Graph, Place};
use std::alloc::Global;

/// The nodes placed so far, in their order, and for each node whether it is one of them.
#[derive(Drop)]
struct Placement {
    order: Vec<u32>,
    placed: Vec<bool>,
}

// The exit of a node.
fn exit_of(graph: &Graph<Place>, p: u32) -> Exit<Place>
    requires { p < length graph.now.nodes }
    ensures { result ≡ exit_at (graph_of graph.now) p }
{
    graph.nodes.as_slice()[p as usize].exit
}

// The node that has to come directly after this exit.
fn follower(exit: Exit<Place>) -> Option<u32>
    ensures { result ≡ follower_of exit }
{
    match exit {
        Exit::Test(_, _, false_arm) => Some(false_arm),
        Exit::Call(_, next) => Some(next),
        Exit::Next(_) => None,
        Exit::Label(_, _) => None,
        Exit::Return => None,
    }
}

// The node that may come directly after this exit.
fn way_on(exit: Exit<Place>) -> Option<u32>
    ensures { result ≡ way_on_of exit }
{
    match exit {
        Exit::Next(next) => Some(next),
        Exit::Label(_, next) => Some(next),
        Exit::Test(_, _, _) => None,
        Exit::Call(_, _) => None,
        Exit::Return => None,
    }
}

// Which nodes have to come directly after another.
fn followers(alloc: Global, graph: &Graph<Place>) -> Result<Vec<bool>, NoMemory>
    requires named { NamesNodes (graph_of graph.now) }
    requires few { length graph.now.nodes < 2 ^ 32 }
    ensures { IfOk result (λ marks. AreFollowers (graph_of graph.now) marks.items) }
{
    let count = graph.nodes.as_slice().len();
    let mut marks = vec![in alloc; false; count]?;
    for p in 0..count {
        if let Some(q) = follower(exit_of(graph, p as u32)) {
            marks[q as usize] = true;
        }
    }
    Ok(marks)
}

// Places one node.
fn place(placement: &mut Placement, p: u32) -> Result<(), NoMemory>
    requires { p < length placement.old.placed.items }
    ensures order { IfOk result (λ _. placement.new.order.items ≡ placement.old.order.items ++ p ∷ []) }
    ensures placed { IfOk result (λ _. placement.new.placed.items ≡ slice_set placement.old.placed.items p true) }
{
    placement.order.push(p)?;
    placement.placed[p as usize] = true;
    Ok(())
}

// Places a node and the one that has to come directly after it, and tells which may come next.
fn place_block(
    placement: &mut Placement,
    graph: &Graph<Place>,
    p: u32,
) -> Result<Option<u32>, NoMemory>
    requires labelled { IsSoundlyLabelled (graph_of graph.now) }
    requires named { NamesNodes (graph_of graph.now) }
    requires placing { Placing (graph_of graph.now) placement.old.placed.items placement.old.order.items }
    requires within { p < length graph.now.nodes }
    requires head { IsHead (graph_of graph.now) p }
    requires new { is_marked placement.old.placed.items p ≡ false }
    ensures placing { IfOk result (λ _. Placing (graph_of graph.now) placement.new.placed.items placement.new.order.items) }
    ensures done { IfOk result (λ _. Placed p placement.old.order.items placement.new.order.items placement.old.placed.items placement.new.placed.items) }
    ensures next { IfOk result (λ next. IsBelow next (length graph.now.nodes)) }
{
    let exit = exit_of(graph, p);
    place(placement, p)?;
    match follower(exit) {
        Some(q) => {
            place(placement, q)?;
            Ok(way_on(exit_of(graph, q)))
        }
        None => Ok(way_on(exit)),
    }
}

// Places a node, and goes on as long as the node that may come next is free to.
fn place_run(
    placement: &mut Placement,
    graph: &Graph<Place>,
    followers: &[bool],
    p: u32,
) -> Result<(), NoMemory>
    requires labelled { IsSoundlyLabelled (graph_of graph.now) }
    requires named { NamesNodes (graph_of graph.now) }
    requires followers { AreFollowers (graph_of graph.now) followers.now }
    requires placing { Placing (graph_of graph.now) placement.old.placed.items placement.old.order.items }
    requires within { p < length graph.now.nodes }
    requires head { IsHead (graph_of graph.now) p }
    requires new { is_marked placement.old.placed.items p ≡ false }
    ensures placing { IfOk result (λ _. Placing (graph_of graph.now) placement.new.placed.items placement.new.order.items) }
    ensures done { IfOk result (λ _. Placed p placement.old.order.items placement.new.order.items placement.old.placed.items placement.new.placed.items) }
{
    let mut next = place_block(placement, graph, p)?;
    while let Some(q) = next {
        if followers[q as usize] || placement.placed[q as usize] {
            return Ok(());
        }
        next = place_block(placement, graph, q)?;
    }
    Ok(())
}

/// An order of the nodes: the entry first, each node once, unreachable ones too.
pub fn order(alloc: Global, graph: &Graph<Place>) -> Result<Vec<u32>, NoMemory>
    requires labelled { IsSoundlyLabelled (graph_of graph.now) }
    requires named { NamesNodes (graph_of graph.now) }
    ensures { IfOk result (λ order. IsOrder (graph_of graph.now) order.items) }
{
    let Ok(count) = u32::try_from(graph.nodes.as_slice().len()) else {
        return Err(NoMemory);
    };
    let followers = followers(alloc, graph)?;
    let mut placement = Placement {
        order: Vec::new(alloc),
        placed: vec![in alloc; false; graph.nodes.as_slice().len()]?,
    };
    place_run(&mut placement, graph, &followers, graph.entry)?;
    for p in 0..count {
        if !followers[p as usize] && !placement.placed[p as usize] {
            place_run(&mut placement, graph, &followers, p)?;
        }
    }
    Ok(placement.order)
}
