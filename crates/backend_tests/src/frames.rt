//! Frames of cells: functions on one call path have different ones, and others share them.

ghost use Rattle.std.specs.Prelude.{◌≤◌, ◌↔◌, IsTrue, All};

use call_graph::{CallGraph, OrderFault};
use cerco_base::{Fault, NoMemory, Reason};
use ltl_alloc::{Bases, place_frames};
use std::alloc::Global;

// A program of so many functions with these calls.
fn program(alloc: Global, functions: u32, calls: &[(u32, u32)]) -> Result<CallGraph, NoMemory> {
    let mut graph = CallGraph::new(alloc, functions)?;
    let count = graph.functions();
    for &(caller, callee) in calls {
        if caller < count && callee < count {
            graph.add_call(caller, callee)?;
        }
    }
    Ok(graph)
}

fn are_small(sizes: &[u32]) -> bool
    ensures { IsTrue result ↔ All (λ size. size ≤ 1000) sizes.now }
{
    sizes.iter().all(|&size| size <= 1000)
}

// The frames of a program of few functions with small sizes, or why it has none.
fn bases_of(
    alloc: Global,
    graph: &CallGraph,
    sizes: &[u32],
) -> Result<Result<Bases, Fault>, OrderFault> {
    let order = graph.order(alloc)?;
    let functions = graph.functions() as usize;
    if functions >= 1000 || sizes.len() != functions || !are_small(sizes) {
        return Err(OrderFault::OutOfMemory);
    }
    Ok(place_frames(alloc, &order, sizes))
}

// The frames of a program of three functions with these calls.
fn frames(
    alloc: Global,
    calls: &[(u32, u32)],
    sizes: [u32; 3],
) -> Result<Result<Bases, Fault>, OrderFault> {
    let graph = program(alloc, 3, calls)?;
    bases_of(alloc, &graph, &sizes)
}

// Whether these are the first cells, and so many are needed.
fn are_frames(bases: &Bases, firsts: [u8; 3], need: u8) -> bool {
    bases.firsts.as_slice() == firsts.as_slice() && bases.need() == need
}

// With so many cells for the callee of a function with 100 cells: the need, of a refused program too.
fn need_of_callee(alloc: Global, cells: u32) -> Option<Result<u8, Reason>> {
    match frames(alloc, &[(0, 1)], [100, cells, 0]).ok()? {
        Ok(bases) => Some(Ok(bases.need())),
        Err(Fault::Refused(reason)) => Some(Err(reason)),
        Err(Fault::OutOfMemory) => None,
    }
}

#[test]
fn a_callee_has_cells_after_its_caller(rt: HostRuntime) {
    let found = frames(rt.alloc(), &[(0, 1)], [100, 12, 0]);
    assert!(rt; matches!(&found, Ok(Ok(bases)) if are_frames(bases, [0, 100, 0], 112)));
}

#[test]
fn there_are_one_hundred_and_twelve_cells(rt: HostRuntime) {
    assert!(rt; need_of_callee(rt.alloc(), 12) == Some(Ok(112)));
    let full = need_of_callee(rt.alloc(), 13);
    assert!(rt; full == Some(Err(Reason::CellsFull { need: 113 })));
}

#[test]
fn functions_on_different_paths_share_their_cells(rt: HostRuntime) {
    let found = frames(rt.alloc(), &[(0, 1), (0, 2)], [10, 20, 30]);
    assert!(rt; matches!(&found, Ok(Ok(bases)) if are_frames(bases, [0, 10, 10], 40)));
    let apart = frames(rt.alloc(), &[], [100, 90, 80]);
    assert!(rt; matches!(&apart, Ok(Ok(bases)) if are_frames(bases, [0, 0, 0], 100)));
}
