//! The greedy colouring of a graph.
ghost use Rattle.std.specs.Prelude.{◌≡◌, ℕ, suc, ◌<◌, ◌≤◌, ◌^◌, length, map, IfOk};
ghost use Rattle.cerco_traces.specs.LabelledGraphs.{In};
ghost use Rattle.rtl.specs.declared.locations.Place.TheVariants.{Cell};
ghost use Rattle.rtl.specs.Locations.{vreg_number};
ghost use Rattle.rtl.specs.Graphs.{renamed_graph};
ghost use Rattle.rtl.specs.WellFormed.{locations_in};
ghost use Rattle.rtl.specs.Liveness.{AreLiveSets};
ghost use Rattle.rtl.specs.Interference.{IsGreedyColouring};
ghost use Rattle.rtl.specs.Code.Views.{graph_of};
ghost use Rattle.colouring.specs.Colours.{place_by, CellsAreCounted};

use crate::greedy::{Colouring, colour_rows};
use crate::marks::{covered, live_across};
use crate::nodes::rows_of;
use cerco_base::NoMemory;
use rtl::{Graph, LiveSets, Vreg};
use std::alloc::Global;

/// The greedy colouring of a graph (Appel, Modern Compiler Implementation, chapter 11), from its
/// live sets, for so many virtual registers, among which are all that the graph names. It fails only
/// when out of memory.
///
/// The work and the memory grow with the sum of the live sets, and with the square of those of nodes
/// to which no node with a greater number leads.
pub fn colour_graph(
    alloc: Global,
    graph: &Graph<Vreg>,
    live: &LiveSets,
    count: usize,
) -> Result<Colouring, NoMemory>
    requires live { AreLiveSets 0 (graph_of graph.now) live.now }
    requires named { (v : ℕ) → In v (map vreg_number (locations_in (graph_of graph.now))) → v < count }
    requires few { count ≤ 2 ^ 32 }
    ensures greedy { IfOk result (λ c. IsGreedyColouring (renamed_graph vreg_number (graph_of graph.now)) (place_by c.colours)) }
    ensures long { IfOk result (λ c. count ≤ length c.colours) }
    ensures cells { IfOk result (λ c. CellsAreCounted (map vreg_number (locations_in (graph_of graph.now))) c.colours c.cells) }
{
    let nodes = graph.nodes.as_slice();
    let across = live_across(alloc, nodes, live, count)?;
    let marks = covered(alloc, nodes)?;
    let rows = rows_of(alloc, nodes, &marks, live, count)?;
    colour_rows(alloc, &rows, &across)
}
