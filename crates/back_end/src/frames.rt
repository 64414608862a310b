//! Where the virtual registers of a program are kept: an allocation for each function, and frames of cells.

ghost use Rattle.std.specs.Prelude.{◌≡◌, ◌≤◌, map, length, All, Err, IfOk};
ghost use Rattle.cerco_base.specs.declared.reasons.Reason.{Reason};
ghost use Rattle.cerco_base.specs.declared.reasons.Reason.TheVariants.{CellsFull};
ghost use Rattle.cerco_base.specs.declared.reasons.Fault.TheVariants.{Refused};
ghost use Rattle.cerco_middle.specs.Programs.{HoldsFunctions};
ghost use Rattle.rtl.specs.Code.Views.{graph_of};
ghost use Rattle.ltl_alloc.specs.Allocated.{EachHas, sizes_of};
ghost use Rattle.ltl_alloc.specs.Frames.{AreBases};
ghost use Rattle.back_end.specs.Chain.{IsPlainest};
ghost use Rattle.back_end.specs.Refusals.{IsLack};

use crate::assembled::Allocations;
use cerco_base::{Fault, NoMemory};
use ltl_alloc::{Allocation, Bases, one_cell_each, place_frames};
use rtl::{Bytes, Graph, Sequence, Vreg};
use std::alloc::{AllocError, Global};

/// From this number on, a sum of sizes along a call path is out of memory.
const SUM_LIMIT: usize = 1 << 31;

/// The allocation of each function.
pub fn allocate(alloc: Global, graphs: &[Graph<Vreg>]) -> Result<Allocations, NoMemory>
    ensures { IfOk result (EachHas IsPlainest (map graph_of graphs.now)) }
{
    let mut allocations = Sequence::new(alloc);
    for graph in graphs {
        allocations.push(one_cell_each(alloc, graph)?)?;
    }
    Ok(allocations)
}

// How many cells each function has.
fn sizes(alloc: Global, allocations: &[Allocation]) -> Result<Vec<u32>, AllocError>
    ensures { IfOk result (λ sizes. sizes.items ≡ sizes_of allocations.now) }
{
    allocations.iter().map(|a| a.cells).collect(alloc)
}

// The largest of these numbers, 0 where there is none.
fn largest(sizes: &[u32]) -> u32
    ensures { All (λ s. s ≤ result) sizes.now }
{
    let mut largest = 0;
    for &size in sizes {
        largest = largest.max(size);
    }
    largest
}

/// The first cell of each function. The program is refused where it needs more than 112 cells. It is out
/// of memory where the size of its largest function times the number of functions is 2 to the 31st or more.
pub fn frame_bases(
    alloc: Global,
    ertl: &Bytes<Vreg>,
    allocations: &[Allocation],
) -> Result<Bases, Fault>
    requires { HoldsFunctions ertl.now.calls (length allocations.now) }
    ensures bases { IfOk result (AreBases ertl.now.calls (sizes_of allocations.now)) }
    ensures enough { IfOk result (λ bases. bases.need ≤ 112) }
    ensures refused { (reason : Reason) → result ≡ Err (Refused reason) → IsLack ertl.now.calls (sizes_of allocations.now) reason }
{
    let sizes = sizes(alloc, allocations)?;
    let functions = ertl.calls.functions().len();
    if functions.saturating_mul(largest(&sizes) as usize) >= SUM_LIMIT {
        return Err(Fault::OutOfMemory);
    }
    place_frames(alloc, &ertl.calls, &sizes)
}
