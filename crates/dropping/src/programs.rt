//! Graphs and programs without the operations that nothing needs.
ghost use Rattle.std.specs.Prelude.{ℕ, ◌≤◌, map, IfOk};
ghost use Rattle.cerco_traces.specs.Preservation.{Preserves};
ghost use Rattle.rtl.specs.Locations.{vreg_number};
ghost use Rattle.rtl.specs.Graphs.{graph_at, numbered, renamed_graph, AreSoundlyLabelled};
ghost use Rattle.rtl.specs.Meaning.{ertl as ertl_run};
ghost use Rattle.rtl.specs.Liveness.{NoneIsDead};
ghost use Rattle.rtl.specs.WellFormed.{IsErtl};
ghost use Rattle.rtl.specs.CallingConvention.{RespectsConvention, CarryStaysInside};
ghost use Rattle.rtl.specs.Lengths.{vreg_length, register_need};
ghost use Rattle.rtl.specs.Code.Views.{graph_of, program_of};
ghost use Rattle.pruned_graphs.specs.Pruning.{IsPrunedGraph, ArePruned, IsPrunedProgram};
ghost use Rattle.pruned_graphs.specs.Laws.{PruningPreserves, PruningRespectsConvention, KeepsGraph, KeepsOutline};

use crate::needs::needed;
use crate::selecting::select_graph;
use byte_renaming::copy_start;
use cerco_base::NoMemory;
use liveness::flow::flow_of;
use rtl::{Bytes, Graph, Graphs, Sequence, Vreg};
use std::alloc::Global;

/// The ERTL graph without the operations that nothing needs: they do nothing but write, and what
/// they write is used by no exit and by no needed operation. The entry stays, and each node with
/// its number and its exit. It fails only when out of memory.
///
/// A program whose functions are such graphs does what the one before does, if that respects the
/// calling convention, and respects it too.
pub fn drop_dead(alloc: Global, graph: &Graph<Vreg>) -> Result<Graph<Vreg>, NoMemory>
    ensures is { IfOk result (λ pruned. IsPrunedGraph (graph_of graph.now) (graph_of pruned)) }
    ensures preserves { PruningPreserves }
    ensures conventional { PruningRespectsConvention }
    ensures same { IfOk result (λ pruned. KeepsGraph (graph_of graph.now) (graph_of pruned)) }
    ensures none_dead { IfOk result (λ pruned. NoneIsDead 0 (renamed_graph vreg_number (graph_of pruned))) }
{
    let flow = flow_of(alloc, graph)?;
    let marks = needed(alloc, graph, &flow)?;
    select_graph(alloc, graph, &flow.points, &marks)
}

// The same of each graph.
fn drop_each(alloc: Global, graphs: &[Graph<Vreg>]) -> Result<Graphs<Vreg>, NoMemory>
    ensures { IfOk result (λ pruned. ArePruned (map graph_of graphs.now) (map graph_of pruned)) }
{
    let mut pruned = Sequence::new(alloc);
    for graph in graphs {
        pruned.push(drop_dead(alloc, graph)?)?;
    }
    Ok(pruned)
}

/// The ERTL program without the operations that nothing needs: each of its functions without them,
/// and all else the same. It fails only when out of memory.
pub fn drop_dead_program(alloc: Global, program: &Bytes<Vreg>) -> Result<Bytes<Vreg>, NoMemory>
    ensures is { IfOk result (λ pruned. IsPrunedProgram (program_of program.now) (program_of pruned)) }
    ensures preserves { IfOk result (λ pruned. IsErtl (program_of program.now) → RespectsConvention 0 (graph_at (numbered vreg_number (program_of program.now))) → Preserves (ertl_run (program_of program.now)) (ertl_run (program_of pruned))) }
    ensures formed { IfOk result (λ pruned. IsErtl (program_of program.now) → IsErtl (program_of pruned)) }
    ensures labelled { IfOk result (λ pruned. AreSoundlyLabelled (program_of program.now).graphs → AreSoundlyLabelled (program_of pruned).graphs) }
    ensures conventional { IfOk result (λ pruned. RespectsConvention 0 (graph_at (numbered vreg_number (program_of program.now))) → RespectsConvention 0 (graph_at (numbered vreg_number (program_of pruned)))) }
    ensures carry { IfOk result (λ pruned. (f : ℕ) → CarryStaysInside 0 (graph_at (numbered vreg_number (program_of program.now)) f) → CarryStaysInside 0 (graph_at (numbered vreg_number (program_of pruned)) f)) }
    ensures same { IfOk result (λ pruned. KeepsOutline (program_of program.now) (program_of pruned)) }
    ensures length { IfOk result (λ pruned. vreg_length (program_of pruned) ≤ vreg_length (program_of program.now)) }
    ensures need { IfOk result (λ pruned. (f : ℕ) → register_need (graph_at (program_of pruned).graphs f) ≤ register_need (graph_at (program_of program.now).graphs f)) }
    ensures none_dead { IfOk result (λ pruned. (f : ℕ) → NoneIsDead 0 (graph_at (numbered vreg_number (program_of pruned)) f)) }
{
    let calls = program.calls.duplicate()?;
    let start = copy_start(alloc, &program.start)?;
    let graphs = drop_each(alloc, program.graphs.as_slice())?;
    Ok(Bytes {
        graphs,
        calls,
        main: program.main,
        start,
    })
}
