//! Frames of cells: functions on one call path have different cells.
ghost use Rattle.std.specs.Prelude.{◌≡◌, ℕ, ◌+◌, ◌^◌, ◌<◌, ◌≤◌, ◌↔◌, ◌⊎◌, List, length, All, Contains, IfOk, IfErr, slice_index};
ghost use Rattle.cerco_base.specs.CallOrder.{functions_of};
ghost use Rattle.cerco_base.specs.declared.reasons.Fault.TheVariants.{Refused, OutOfMemory};
ghost use Rattle.cerco_base.specs.declared.reasons.Reason.TheVariants.{CellsFull};
ghost use Rattle.call_graph.specs.CallPaths.{CallsIn, IsCallPath, IsLargestSum, sum_along};
ghost use Rattle.ltl_alloc.specs.Frames.{first_of, AreBases};

use call_graph::largest_sums;
use cerco_base::{CallOrder, Fault, NoMemory, Reason, limits};
use rtl::Sequence;
use std::alloc::Global;

/// The first cell of each function, by number.
pub type Firsts = Sequence<u8>;

/// The first cell of each function, and how many cells the program needs.
#[derive(Drop)]
pub struct Bases {
    pub firsts: Firsts,
    pub need: u8,
}

impl Bases {
    /// The first cell of a function.
    pub fn first(&self, function: u32) -> u8
        requires { function < length self.now.firsts }
        ensures { result ≡ first_of self.now function }
    {
        self.firsts.as_slice()[function as usize]
    }

    /// How many cells the program needs.
    pub fn need(&self) -> u8
        ensures { result ≡ self.now.need }
    {
        self.need
    }
}

// Numbers that one byte holds.
fn bytes_of(alloc: Global, numbers: &[u32]) -> Result<Firsts, NoMemory>
    requires { (k : ℕ) → k < length numbers.now → slice_index numbers.now k < 2 ^ 8 }
    ensures { IfOk result (λ bytes. bytes ≡ numbers.now) }
{
    let mut bytes = Sequence::new(alloc);
    for &number in numbers {
        bytes.push(number as u8)?;
    }
    Ok(bytes)
}

/// The first cell of each function, where it has so many cells as its size: the largest sum of sizes
/// along a call path that leads to it. The order of calls has exactly the functions that have a size,
/// and the sizes along a call path come to less than 2 to the 31st.
///
/// A program that needs more than 112 cells is refused, with its need: the largest sum of sizes
/// along a call path.
pub fn place_frames(alloc: Global, calls: &CallOrder, sizes: &[u32]) -> Result<Bases, Fault>
    requires functions { (f : ℕ) → Contains (functions_of calls.now) f ↔ (f < length sizes.now) }
    requires small { (path : List ℕ) → IsCallPath (length sizes.now) (CallsIn calls.now) path → sum_along sizes.now path < 2 ^ 31 }
    ensures bases { IfOk result (AreBases calls.now sizes.now) }
    ensures enough { IfOk result (λ bases. bases.need ≤ 112) }
    ensures refused { IfErr result (λ fault. (fault ≡ OutOfMemory) ⊎ ((need : ℕ) × (fault ≡ Refused (CellsFull need)) × IsLargestSum (length sizes.now) (CallsIn calls.now) sizes.now need × (112 < need))) }
{
    let sums = largest_sums(alloc, calls, sizes)?;
    if sums.largest > limits::CELLS {
        return Err(Fault::Refused(Reason::CellsFull { need: sums.largest }));
    }
    let firsts = bytes_of(alloc, &sums.before)?;
    Ok(Bases {
        firsts,
        need: sums.largest as u8,
    })
}
