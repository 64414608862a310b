//! Linear code from graphs: the nodes of a function one after the other, with jumps where the next
//! node isn't the one that is gone to (A. W. Appel, Modern Compiler Implementation: basic blocks and
//! traces; CerCo, deliverable 4.2: from LTL to LIN).
#![tactic(auto)]

ghost use Rattle.std.specs.Prelude.{◌≤◌, map, IfOk};
ghost use Rattle.rtl.specs.Code.Views.{graph_of, item_of};
ghost use Rattle.rtl.specs.Graphs.{IsSoundlyLabelled};
ghost use Rattle.rtl.specs.WellFormed.{IsGraph, NamesPlaces, IsLin};
ghost use Rattle.rtl.specs.Lengths.{items_length};
ghost use Rattle.lin_gen.specs.Ordering.{IsOrdering};
ghost use Rattle.lin_gen.specs.Kept.{KeepsLabels, KeepsCalls, place_length};
ghost use Rattle.lin_gen.specs.Linearised.{LinearisedPreserves, LinearisedIsFormed, LinearisedIsShort};

mod items;
mod placing;
mod programs;

use cerco_base::NoMemory;
use items::lay;
use placing::order;
pub use programs::linearise_program;
use rtl::{Graph, Lin, Place};
use std::alloc::Global;

/// The linear code of a graph. Each node stands there once, the entry first. The false arm of each
/// test and the node after each call come directly after it, and every other way to a node is a
/// jump, or nothing exactly where that node comes next.
pub fn linearise(alloc: Global, graph: &Graph<Place>) -> Result<Lin, NoMemory>
    requires labelled { IsSoundlyLabelled (graph_of graph.now) }
    requires formed { IsGraph (graph_of graph.now) }
    requires places { NamesPlaces (graph_of graph.now) }
    ensures is { IfOk result (λ lin. IsOrdering (graph_of graph.now) (map item_of lin)) }
    ensures preserves { LinearisedPreserves }
    ensures formed { IfOk result (λ lin. IsLin (map item_of lin)) }
    ensures program { LinearisedIsFormed }
    ensures labels { IfOk result (λ lin. KeepsLabels (graph_of graph.now) (map item_of lin)) }
    ensures calls { IfOk result (λ lin. KeepsCalls (graph_of graph.now) (map item_of lin)) }
    ensures length { IfOk result (λ lin. items_length (map item_of lin) ≤ place_length (graph_of graph.now)) }
    ensures program_length { LinearisedIsShort }
{
    let order = order(alloc, graph)?;
    lay(alloc, graph, &order)
}
