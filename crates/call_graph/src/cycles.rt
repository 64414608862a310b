//! Which functions are on a cycle of calls, by a search along the calls.
ghost use Rattle.std.specs.Prelude.{◌≡◌, ℕ, ◌<◌, ◌↔◌, true, false, length, All, Contains, IsTrue, IfOk, Ok, Err};
ghost use Rattle.call_graph.specs.CallPaths.{Calls, IsOnCycle, IsFirstOnCycle};
ghost use Rattle.call_graph.specs.Code.Nodes.{callees_of, AreNodes};
ghost use Rattle.call_graph.specs.Code.Searches.{Sees};

use crate::faults::OrderFault;
use crate::nodes::Node;
use std::alloc::Global;

// The functions that a search has seen, and those of them whose callees it has yet to look at.
#[derive(Drop)]
struct Search {
    seen: Vec<bool>,
    work: Vec<u32>,
}

impl Search {
    // Sees these functions up to the goal, and says whether it is among them.
    fn see(&mut self, callees: &[u32], goal: u32) -> Result<bool, OrderFault>
        requires { All (λ c. c < length self.old.seen.items) callees.now }
        ensures goal { result ≡ Ok true → Contains callees.now goal }
        ensures others { result ≡ Ok false → Sees callees.now goal self.old.seen.items self.old.work.items self.new.seen.items self.new.work.items }
        ensures fault { (f : ℕ) → result ≡ Err (OrderFault.Cycle f) → ⊥ }
    {
        for &callee in callees {
            if callee == goal {
                return Ok(true);
            }
            if !self.seen[callee as usize] {
                self.work.push(callee)?;
                self.seen[callee as usize] = true;
            }
        }
        Ok(false)
    }
}

// Whether a function is on a cycle of calls.
fn is_on_cycle(alloc: Global, nodes: &[Node], function: u32) -> Result<bool, OrderFault>
    requires nodes { AreNodes nodes.now }
    requires function { function < length nodes.now }
    ensures cycle { IfOk result (λ on. IsTrue on ↔ IsOnCycle (length nodes.now) (Calls (callees_of nodes.now)) function) }
    ensures fault { (f : ℕ) → result ≡ Err (OrderFault.Cycle f) → ⊥ }
{
    let mut search = Search {
        seen: vec![in alloc; false; nodes.len()]?,
        work: vec![in alloc; function]?,
    };
    while let Some(from) = search.work.pop() {
        if search.see(&nodes[from as usize].callees, function)? {
            return Ok(true);
        }
    }
    Ok(false)
}

// The first function on a cycle of calls, of which one is known.
pub(crate) fn first_on_cycle(alloc: Global, nodes: &[Node], known: u32) -> Result<u32, OrderFault>
    requires nodes { AreNodes nodes.now }
    requires known { IsOnCycle (length nodes.now) (Calls (callees_of nodes.now)) known }
    ensures first { IfOk result (IsFirstOnCycle (length nodes.now) (Calls (callees_of nodes.now))) }
    ensures fault { (f : ℕ) → result ≡ Err (OrderFault.Cycle f) → ⊥ }
{
    for function in 0..known {
        if is_on_cycle(alloc, nodes, function)? {
            return Ok(function);
        }
    }
    Ok(known)
}
