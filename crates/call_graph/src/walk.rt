//! The order of calls, by a walk from each function to its callers, depth first.
ghost use Rattle.std.specs.Prelude.{◌≡◌, ℕ, ◌<◌, ◌≤◌, List, [], ◌∷◌, ◌++◌, length, All, Contains, IfOk, OnOk, Err, slice_index};
ghost use Rattle.cerco_base.specs.CallOrder.{functions_of};
ghost use Rattle.call_graph.specs.CallPaths.{IsOnCycle};
ghost use Rattle.call_graph.specs.Code.Nodes.{callers_of, CallsTo, AreNodes};
ghost use Rattle.call_graph.specs.Code.Walks.{mark_of, IsWalkOf, IsStart, Opens, Places, Steps, IsOrderByCallers};

use crate::faults::OrderFault;
use crate::nodes::Node;
use cerco_base::CallOrder;
use std::alloc::Global;

// How far the walk is with a function.
#[derive(Clone, Copy, PartialEq, Eq)]
enum Mark {
    // It has not been met.
    New,
    // It waits on the stack for its callers.
    Open,
    // It is in the order.
    Placed,
}

// Of each function its mark, and how many of its callers, from the first on, are known to be in the
// order. Each function on the stack is called by the one above it.
#[derive(Drop)]
struct Walk {
    marks: Vec<Mark>,
    known: Vec<usize>,
    stack: Vec<u32>,
    order: CallOrder,
}

// The place of the first of these callers, from one on, that isn't in the order.
fn first_missing(callers: &[u32], from: usize, marks: &[Mark]) -> usize
    requires from { from ≤ length callers.now }
    requires marked { All (λ c. c < length marks.now) callers.now }
    requires before { (j : ℕ) → j < from → mark_of marks.now (slice_index callers.now j) ≡ Mark.Placed }
    ensures within { result ≤ length callers.now }
    ensures before { (j : ℕ) → j < result → mark_of marks.now (slice_index callers.now j) ≡ Mark.Placed }
    ensures missing { result < length callers.now → mark_of marks.now (slice_index callers.now result) ≡ Mark.Placed → ⊥ }
{
    let mut at = from;
    while at < callers.len() && marks[callers[at] as usize] == Mark::Placed {
        at += 1;
    }
    at
}

impl Walk {
    fn new(alloc: Global, functions: usize) -> Result<Walk, OrderFault>
        ensures start { IfOk result (IsStart functions) }
        ensures fault { (f : ℕ) → result ≡ Err (OrderFault.Cycle f) → ⊥ }
    {
        Ok(Walk {
            marks: vec![in alloc; Mark::New; functions]?,
            known: vec![in alloc; 0; functions]?,
            stack: Vec::new(alloc),
            order: CallOrder::new(alloc),
        })
    }

    // Puts a function on the stack.
    fn open(&mut self, function: u32) -> Result<(), OrderFault>
        requires { function < length self.old.marks.items }
        ensures opens { OnOk result (Opens function self.old self.new) }
        ensures fault { (f : ℕ) → result ≡ Err (OrderFault.Cycle f) → ⊥ }
    {
        self.stack.push(function)?;
        self.marks[function as usize] = Mark::Open;
        Ok(())
    }

    // Puts the topmost function of the stack, whose callers are in the order, into it.
    fn place(&mut self, function: u32, callers: &[u32]) -> Result<(), OrderFault>
        requires marked { function < length self.old.marks.items }
        requires new { Contains (functions_of self.old.order) function → ⊥ }
        requires callers { All (Contains (functions_of self.old.order)) callers.now }
        ensures places { OnOk result (Places function callers.now self.old self.new) }
        ensures fault { (f : ℕ) → result ≡ Err (OrderFault.Cycle f) → ⊥ }
    {
        self.order.add(function, callers)?;
        self.marks[function as usize] = Mark::Placed;
        let _ = self.stack.pop();
        Ok(())
    }

    // Puts the topmost function into the order, or the next of its callers on the stack.
    fn step(&mut self, nodes: &[Node], top: u32) -> Result<(), OrderFault>
        requires nodes { AreNodes nodes.now }
        requires walk { IsWalkOf (callers_of nodes.now) self.old }
        requires top { (below : List ℕ) × (self.old.stack.items ≡ below ++ top ∷ []) }
        ensures steps { OnOk result (Steps (callers_of nodes.now) self.old self.new) }
        ensures cycle { (f : ℕ) → result ≡ Err (OrderFault.Cycle f) → IsOnCycle (length nodes.now) (CallsTo (callers_of nodes.now)) f }
    {
        let callers = nodes[top as usize].callers.as_slice();
        let at = first_missing(callers, self.known[top as usize], &self.marks);
        self.known[top as usize] = at;
        if at == callers.len() {
            return self.place(top, callers);
        }
        let caller = callers[at];
        match self.marks[caller as usize] {
            Mark::New => self.open(caller),
            _ => Err(OrderFault::Cycle(caller)),
        }
    }

    // Puts a function and those that lead to it into the order, callers first.
    fn place_with_callers(&mut self, nodes: &[Node], function: u32) -> Result<(), OrderFault>
        requires nodes { AreNodes nodes.now }
        requires walk { IsWalkOf (callers_of nodes.now) self.old }
        requires stack { self.old.stack.items ≡ [] }
        requires function { function < length nodes.now }
        ensures walk { OnOk result (IsWalkOf (callers_of nodes.now) self.new) }
        ensures stack { OnOk result (self.new.stack.items ≡ []) }
        ensures placed { OnOk result (mark_of self.new.marks.items function ≡ Mark.Placed) }
        ensures still { OnOk result ((f : ℕ) → mark_of self.old.marks.items f ≡ Mark.Placed → mark_of self.new.marks.items f ≡ Mark.Placed) }
        ensures cycle { (f : ℕ) → result ≡ Err (OrderFault.Cycle f) → IsOnCycle (length nodes.now) (CallsTo (callers_of nodes.now)) f }
    {
        let Mark::New = self.marks[function as usize] else {
            return Ok(());
        };
        self.open(function)?;
        while let Some(&top) = self.stack.last() {
            self.step(nodes, top)?;
        }
        Ok(())
    }
}

// The functions in the order of their calls, or a function that is on a cycle of calls.
pub(crate) fn callers_first(alloc: Global, nodes: &[Node]) -> Result<CallOrder, OrderFault>
    requires { AreNodes nodes.now }
    ensures order { IfOk result (IsOrderByCallers (callers_of nodes.now)) }
    ensures cycle { (f : ℕ) → result ≡ Err (OrderFault.Cycle f) → IsOnCycle (length nodes.now) (CallsTo (callers_of nodes.now)) f }
{
    let mut walk = Walk::new(alloc, nodes.len())?;
    for function in 0..nodes.len() {
        walk.place_with_callers(nodes, function as u32)?;
    }
    Ok(walk.order)
}
