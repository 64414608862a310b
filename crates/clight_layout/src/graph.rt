//! The graph of a program's calls.
ghost use Rattle.std.specs.Prelude.{◌≡◌, ℕ, ◌<◌, ◌++◌, ◌∷◌, [], List, length, map, filter, nat_lt, IfOk, OnOk};
ghost use Rattle.clight_syntax.specs.Code.TypedViews.{function_of};
ghost use Rattle.clight_layout.specs.Calls.{stmts_calls, callees};

use crate::calls::add_stmts;
use call_graph::CallGraph;
use cerco_base::NoMemory;
use clight_syntax::typed::Function;
use std::alloc::Global;

// Adds a call, if there is such a function.
fn add_existing(graph: &mut CallGraph, caller: u32, callee: u32) -> Result<(), NoMemory>
    requires { caller < length graph.old }
    ensures count { length graph.new ≡ length graph.old }
    ensures added { OnOk result ((before : List (List ℕ)) (own : List ℕ) (after : List (List ℕ)) → length before ≡ caller → graph.old ≡ before ++ own ∷ after
        → graph.new ≡ before ++ (own ++ filter (λ g. nat_lt g (length graph.old)) (callee ∷ [])) ∷ after) }
{
    if callee < graph.functions() {
        graph.add_call(caller, callee)?;
    }
    Ok(())
}

// Adds the calls of a function, those of functions that don't exist left out.
fn add_calls(graph: &mut CallGraph, caller: u32, calls: &[u32]) -> Result<(), NoMemory>
    requires { caller < length graph.old }
    ensures count { length graph.new ≡ length graph.old }
    ensures added { OnOk result ((before : List (List ℕ)) (own : List ℕ) (after : List (List ℕ)) → length before ≡ caller → graph.old ≡ before ++ own ∷ after
        → graph.new ≡ before ++ (own ++ filter (λ g. nat_lt g (length graph.old)) calls.now) ∷ after) }
{
    for &callee in calls {
        add_existing(graph, caller, callee)?;
    }
    Ok(())
}

// The functions that a body calls.
fn calls_of(alloc: Global, function: &Function<()>) -> Result<Vec<u32>, NoMemory>
    ensures { IfOk result (λ calls. calls.items ≡ stmts_calls (function_of function.now).body) }
{
    let mut calls = Vec::new(alloc);
    add_stmts(&mut calls, function.body.as_slice())?;
    Ok(calls)
}

/// The graph of the calls of these functions.
pub fn graph_of(alloc: Global, functions: &[Function<()>]) -> Result<CallGraph, NoMemory>
    ensures { IfOk result (λ graph. graph ≡ callees (map function_of functions.now)) }
{
    if functions.len() > u32::MAX as usize {
        return Err(NoMemory);
    }
    let count = functions.len() as u32;
    let mut graph = CallGraph::new(alloc, count)?;
    for caller in 0..count {
        let calls = calls_of(alloc, &functions[caller as usize])?;
        add_calls(&mut graph, caller, calls.as_slice())?;
    }
    Ok(graph)
}
