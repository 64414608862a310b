//! The functions of a program and the calls between them.
ghost use Rattle.std.specs.Prelude.{◌≡◌, ℕ, ◌<◌, [], length, replicate, IfOk, OnOk, OnErr, Err};
ghost use Rattle.call_graph.specs.CallPaths.{list_added, Calls, IsOnCycle, IsFirstOnCycle, IsOrderOf};

use crate::cycles::first_on_cycle;
use crate::faults::OrderFault;
use crate::nodes::{Node, connect};
use crate::walk::callers_first;
use cerco_base::{CallOrder, NoMemory};
use std::alloc::Global;
use std::marker::Model;

/// The functions of a program, numbered from 0, and the calls between them. Contracts see it as
/// the list that has, at the place of each function, the functions that it calls: one entry for
/// each call that was added, in that order.
#[derive(Drop)]
pub struct CallGraph {
    nodes: Vec<Node>,
}

impl Model for CallGraph {
    ghost use Rattle.std.specs.Prelude.{List, ℕ};

    ghost Value = { List (List ℕ) };

    ghost use Rattle.call_graph.specs.Code.Nodes.{callees_of, AreNodes};

    ghost view = { λ g. callees_of g.nodes.items };

    ghost invariant = { λ g. AreNodes g.nodes.items };
}

impl CallGraph {
    /// So many functions, without calls.
    pub fn new(alloc: Global, functions: u32) -> Result<CallGraph, NoMemory>
        ensures { IfOk result (λ g. g ≡ replicate functions []) }
    {
        let mut nodes = Vec::new(alloc);
        for _ in 0..functions {
            nodes.push(Node {
                callees: Vec::new(alloc),
                callers: Vec::new(alloc),
            })?;
        }
        Ok(CallGraph { nodes })
    }

    /// How many functions there are.
    pub fn functions(&self) -> u32
        ensures count { result ≡ length self.now }
        ensures callees { (f g : ℕ) → Calls self.now f g → g < result }
    {
        self.nodes.len() as u32
    }

    /// One more call: `caller` calls `callee`. A function may call another several times. When
    /// out of memory, the calls are unchanged.
    pub fn add_call(&mut self, caller: u32, callee: u32) -> Result<(), NoMemory>
        requires caller { caller < length self.old }
        requires callee { callee < length self.old }
        ensures added { OnOk result (self.new ≡ list_added self.old caller callee) }
        ensures same { OnErr result (self.new ≡ self.old) }
    {
        connect(&mut self.nodes, caller, callee)
    }

    /// The functions in the order of their calls, each with those that call it, or the first
    /// function that is on a cycle of calls. A fault names such a function exactly where there is
    /// one, unless out of memory.
    pub fn order(&self, alloc: Global) -> Result<CallOrder, OrderFault>
        ensures order { IfOk result (IsOrderOf self.now) }
        ensures no_cycle { OnOk result ((f : ℕ) → IsOnCycle (length self.now) (Calls self.now) f → ⊥) }
        ensures cycle { (f : ℕ) → result ≡ Err (OrderFault.Cycle f) → IsFirstOnCycle (length self.now) (Calls self.now) f }
    {
        match callers_first(alloc, &self.nodes) {
            Err(OrderFault::Cycle(function)) => {
                let first = first_on_cycle(alloc, &self.nodes, function)?;
                Err(OrderFault::Cycle(first))
            }
            found => found,
        }
    }
}
