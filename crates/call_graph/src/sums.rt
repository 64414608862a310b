//! The largest sums along call paths.
ghost use Rattle.std.specs.Prelude.{◌≡◌, ℕ, ◌+◌, ◌^◌, ◌<◌, ◌↔◌, List, length, All, Contains, IfOk, slice_index};
ghost use Rattle.cerco_base.specs.CallOrder.{functions_of};
ghost use Rattle.call_graph.specs.CallPaths.{CallsIn, IsCallPath, IsLargestSum, IsLargestSumBefore, sum_along};
ghost use Rattle.call_graph.specs.Code.Largest.{IsLargestWith};

use cerco_base::{CallOrder, NoMemory};
use std::alloc::Global;

/// The largest sums of the sizes of functions along call paths.
#[derive(Drop)]
pub struct Sums {
    /// For each function, by number: the largest sum of the sizes of the functions before it on a
    /// call path that ends at it; 0 where nobody calls it.
    pub before: Vec<u32>,
    /// The largest sum along a call path, 0 where there is none.
    pub largest: u32,
}

// The largest sum of what stands before one of these callers and its size, 0 without callers.
fn largest_with(callers: &[u32], before: &[u32], sizes: &[u32]) -> u32
    requires before { All (λ c. c < length before.now) callers.now }
    requires sizes { length before.now ≡ length sizes.now }
    requires fits { All (λ c. slice_index before.now c + slice_index sizes.now c < 2 ^ 32) callers.now }
    ensures { IsLargestWith callers.now before.now sizes.now result }
{
    let mut largest = 0;
    for &caller in callers {
        largest = largest.max(before[caller as usize] + sizes[caller as usize]);
    }
    largest
}

/// The largest sums along the call paths of an order of calls, where each function has the size
/// at its place. The order has exactly the functions that have a size, and no sum is above the
/// greatest number of four bytes.
pub fn largest_sums(alloc: Global, order: &CallOrder, sizes: &[u32]) -> Result<Sums, NoMemory>
    requires functions { (f : ℕ) → Contains (functions_of order.now) f ↔ (f < length sizes.now) }
    requires fits { (path : List ℕ) → IsCallPath (length sizes.now) (CallsIn order.now) path → sum_along sizes.now path < 2 ^ 32 }
    ensures length { IfOk result (λ sums. length sums.before.items ≡ length sizes.now) }
    ensures before { IfOk result (λ sums. (f : ℕ) → f < length sizes.now → IsLargestSumBefore (length sizes.now) (CallsIn order.now) sizes.now f (slice_index sums.before.items f)) }
    ensures largest { IfOk result (λ sums. IsLargestSum (length sizes.now) (CallsIn order.now) sizes.now sums.largest) }
{
    let mut before = vec![in alloc; 0; sizes.len()]?;
    let mut largest = 0;
    let functions = order.functions();
    for (i, &function) in functions.iter().enumerate() {
        let sum = largest_with(order.callers(i), &before, sizes);
        before[function as usize] = sum;
        largest = largest.max(sum + sizes[function as usize]);
    }
    Ok(Sums { before, largest })
}
