//! The order of calls, cycles, and the largest sums along call paths.

ghost use Rattle.std.specs.Prelude.{◌≤◌, ◌↔◌, IsTrue, All};

use call_graph::{CallGraph, OrderFault, Sums, largest_sums};
use cerco_base::NoMemory;
use std::alloc::Global;
use std::test::Fail;

// A program of so many functions with these calls.
fn program(alloc: Global, functions: u32, calls: &[(u32, u32)]) -> Result<CallGraph, NoMemory> {
    let mut graph = CallGraph::new(alloc, functions)?;
    let count = graph.functions();
    for &(caller, callee) in calls {
        if caller < count && callee < count {
            graph.add_call(caller, callee)?;
        }
    }
    Ok(graph)
}

fn are_small(sizes: &[u32]) -> bool
    ensures { IsTrue result ↔ All (λ size. size ≤ 1000) sizes.now }
{
    sizes.iter().all(|&size| size <= 1000)
}

// The largest sums of a program of few functions with small sizes.
fn sums_of(alloc: Global, graph: &CallGraph, sizes: &[u32]) -> Result<Option<Sums>, OrderFault> {
    let order = graph.order(alloc)?;
    let functions = graph.functions() as usize;
    if functions >= 1000 || sizes.len() != functions || !are_small(sizes) {
        return Ok(None);
    }
    let sums = largest_sums(alloc, &order, sizes)?;
    Ok(Some(sums))
}

// The functions in the order of their calls, or the first of them that is on a cycle.
fn order_text(alloc: Global, functions: u32, calls: &[(u32, u32)]) -> Result<String, OrderFault> {
    let graph = program(alloc, functions, calls)?;
    match graph.order(alloc) {
        Ok(order) => Ok(format!(in alloc; "{:?}", order.functions())?),
        Err(OrderFault::Cycle(function)) => Ok(format!(in alloc; "cycle at {function}")?),
        Err(OrderFault::OutOfMemory) => Err(OrderFault::OutOfMemory),
    }
}

// The largest sum before each function, and the largest sum of all.
fn sums_text(
    alloc: Global,
    functions: u32,
    calls: &[(u32, u32)],
    sizes: &[u32],
) -> Result<String, OrderFault> {
    let graph = program(alloc, functions, calls)?;
    match sums_of(alloc, &graph, sizes)? {
        Some(sums) => Ok(format!(in alloc; "{:?} {}", sums.before.as_slice(), sums.largest)?),
        None => Ok(String::new(alloc)),
    }
}

// How many functions, the calls of each by another, and their order. Of the first program two ways lead from 3 to 1, and 4 is alone.
#[rattlefmt::skip]
const ORDERS: [(u32, &[(u32, u32)], &str); 5] = [
    (5, &[(3, 0), (3, 2), (0, 1), (2, 1), (2, 1)], "[3, 0, 2, 1, 4]"),
    (3, &[(2, 1), (1, 0)], "[2, 1, 0]"),
    (0, &[], "[]"),
    (5, &[(0, 4), (4, 3), (3, 1), (1, 4), (2, 2)], "cycle at 1"),
    (3, &[(0, 1), (2, 2)], "cycle at 2"),
];

#[test]
fn callers_come_first(rt: HostRuntime) -> Result<(), Fail> {
    for (functions, calls, order) in &ORDERS {
        let text = order_text(rt.alloc(), *functions, calls)?;
        assert_eq!(rt;
            text.as_str(),
            *order,
            "{functions} functions with {calls:?}"
        );
    }
    Ok(())
}

#[test]
fn sums_go_along_the_largest_path(rt: HostRuntime) -> Result<(), Fail> {
    let calls = [(3, 0), (3, 2), (0, 1), (2, 1)];
    let diamond = sums_text(rt.alloc(), 5, &calls, &[7, 1, 2, 5, 9])?;
    assert_eq!(rt; diamond.as_str(), "[5, 12, 5, 0, 0] 13");
    let empty = sums_text(rt.alloc(), 0, &[], &[])?;
    assert_eq!(rt; empty.as_str(), "[] 0");
    Ok(())
}
