//! Graphs and programs over the places of allocations.
ghost use Rattle.std.specs.Prelude.{◌≡◌, ℕ, ◌+◌, ◌<◌, ◌≤◌, ◌^◌, length, map, Some, IfOk};
ghost use Rattle.cerco_traces.specs.Preservation.{Preserves};
ghost use Rattle.rtl.specs.Locations.{vreg_number};
ghost use Rattle.rtl.specs.Graphs.{renamed_graph, graph_at, numbered, AreSoundlyLabelled};
ghost use Rattle.rtl.specs.Meaning.{ertl as ertl_run, ltl as ltl_run};
ghost use Rattle.rtl.specs.WellFormed.{IsErtl, IsLtl};
ghost use Rattle.rtl.specs.CallingConvention.{RespectsConvention};
ghost use Rattle.rtl.specs.Lengths.{vreg_length, ltl_length};
ghost use Rattle.rtl.specs.Code.Views.{graph_of, program_of};
ghost use Rattle.ltl_alloc.specs.declared.allocation.Spot.TheVariants as Spot;
ghost use Rattle.ltl_alloc.specs.Allocations.{any_place, place_or_any, IsExact};
ghost use Rattle.ltl_alloc.specs.Translation.{at_base, placed, FitsAt, EachFits, renamed_graphs, ltl_of};
ghost use Rattle.ltl_alloc.specs.Allocated.{Serves, PlacesAll, EachHas, sizes_of};
ghost use Rattle.ltl_alloc.specs.Frames.{AreBases};
ghost use Rattle.ltl_alloc.specs.Renamed.{RenamingPreserves, RenamingForms, RenamingKeeps, KeepsOutline};
ghost use Rattle.ltl_alloc.specs.Code.PlaceTables.{place_in_table, IsTableOf};

use crate::allocation::{Allocation, Spot};
use crate::frames::Bases;
use byte_renaming::{Naming, copy_start, rename_graph};
use cerco_base::NoMemory;
use rtl::{Bytes, Graph, Graphs, Place, Sequence, Vreg};
use std::alloc::Global;

// The place of each virtual register, by number.
#[derive(Drop)]
struct Places {
    places: Vec<Place>,
}

impl Naming<Vreg, Place> for Places {
    ghost named = { λ table v. place_in_table table.places.items v.0 };

    fn name(&self, v: Vreg) -> Place {
        match self.places.get(v.0 as usize) {
            Some(place) => *place,
            None => spare_place(v.0 as usize),
        }
    }
}

// A place for a virtual register that the function doesn't have.
fn spare_place(v: usize) -> Place
    ensures { result ≡ any_place v }
{
    match v {
        0..=5 => Place::Reg(v as u8 + 2),
        6..=11 => Place::Arg(v as u8 - 6),
        _ => Place::Reg(2),
    }
}

// The place of a spot in a frame that begins at this cell.
fn place_at(base: u8, v: usize, spot: Option<Spot>) -> Place
    requires { (n : ℕ) → spot ≡ Some (Spot.Cell n) → base + n < 2 ^ 8 }
    ensures { result ≡ at_base base (place_or_any v spot) }
{
    match spot {
        Some(Spot::Reg(n)) => Place::Reg(n),
        Some(Spot::Arg(n)) => Place::Arg(n),
        Some(Spot::Cell(n)) => Place::Cell((base as u32 + n) as u8),
        None => spare_place(v),
    }
}

// The place of each virtual register in a frame that begins at this cell.
fn places_at(alloc: Global, a: &Allocation, base: u8) -> Result<Places, NoMemory>
    requires { FitsAt a.now base }
    ensures { IfOk result (λ table. IsTableOf a.now base table.places.items) }
{
    let mut places = Vec::new(alloc);
    for (v, &spot) in a.spots.as_slice().iter().enumerate() {
        places.push(place_at(base, v, spot))?;
    }
    Ok(Places { places })
}

/// The graph over places (CerCo, deliverable 4.2: ERTL to LTL): each virtual register is where the
/// allocation keeps it, its cells counted from `base` on. The entry and the nodes with their
/// numbers, operations and exits stay. It fails only when out of memory.
///
/// A program whose functions are renamed so, by proper colourings and by the bases of
/// `place_frames`, preserves the traces of one that respects the calling convention.
pub fn rename(
    alloc: Global,
    graph: &Graph<Vreg>,
    a: &Allocation,
    base: u8,
) -> Result<Graph<Place>, NoMemory>
    requires { FitsAt a.now base }
    ensures is { IfOk result (λ renamed. graph_of renamed ≡ renamed_graph (placed a.now base) (graph_of graph.now)) }
    ensures preserves { RenamingPreserves }
    ensures formed { RenamingForms }
    ensures same { RenamingKeeps }
{
    let places = places_at(alloc, a, base)?;
    rename_graph(alloc, &places, graph)
}

// Graphs over places, each by its own allocation at its own first cell.
fn rename_all(
    alloc: Global,
    graphs: &[Graph<Vreg>],
    allocations: &[Allocation],
    firsts: &[u8],
) -> Result<Graphs<Place>, NoMemory>
    requires allocations { length allocations.now ≡ length graphs.now }
    requires firsts { length firsts.now ≡ length graphs.now }
    requires fits { EachFits allocations.now firsts.now }
    ensures { IfOk result (λ renamed. map graph_of renamed ≡ renamed_graphs (map graph_of graphs.now) allocations.now firsts.now) }
{
    let mut renamed = Sequence::new(alloc);
    for (f, graph) in graphs.iter().enumerate() {
        renamed.push(rename(alloc, graph, &allocations[f], firsts[f])?)?;
    }
    Ok(renamed)
}

/// The LTL program of an ERTL program: each function over the places of its allocation, which is a
/// proper colouring, with the bases of `place_frames`. It fails only when out of memory.
pub fn to_ltl(
    alloc: Global,
    program: &Bytes<Vreg>,
    allocations: &[Allocation],
    bases: &Bases,
) -> Result<Bytes<Place>, NoMemory>
    requires allocations { EachHas Serves (program_of program.now).graphs allocations.now }
    requires bases { AreBases program.now.calls (sizes_of allocations.now) bases.now }
    requires enough { bases.now.need ≤ 112 }
    ensures is { IfOk result (λ ltl. program_of ltl ≡ ltl_of (program_of program.now) allocations.now bases.now.firsts) }
    ensures preserves { IfOk result (λ ltl. IsErtl (program_of program.now) → RespectsConvention 0 (graph_at (numbered vreg_number (program_of program.now))) → Preserves (ertl_run (program_of program.now)) (ltl_run (program_of ltl))) }
    ensures formed { IfOk result (λ ltl. IsErtl (program_of program.now) → EachHas PlacesAll (program_of program.now).graphs allocations.now → EachHas (λ graph a. IsExact a) (program_of program.now).graphs allocations.now → IsLtl (program_of ltl)) }
    ensures labelled { IfOk result (λ ltl. AreSoundlyLabelled (program_of program.now).graphs → AreSoundlyLabelled (program_of ltl).graphs) }
    ensures same { IfOk result (λ ltl. KeepsOutline (program_of program.now) (program_of ltl)) }
    ensures length { IfOk result (λ ltl. ltl_length (program_of ltl) ≤ vreg_length (program_of program.now)) }
{
    let calls = program.calls.duplicate()?;
    let start = copy_start(alloc, &program.start)?;
    let graphs = rename_all(
        alloc,
        program.graphs.as_slice(),
        allocations,
        bases.firsts.as_slice(),
    )?;
    Ok(Bytes {
        graphs,
        calls,
        main: program.main,
        start,
    })
}
