//! Sums along the call paths of a program.
ghost use Rattle.std.specs.Prelude.{◌≡◌, ℕ, ◌<◌, ◌^◌, ◌+◌, ◌↔◌, length, map, replicate, Contains, IfOk, OnOk, slice_index};
ghost use Rattle.cerco_base.specs.CallOrder.{functions_of, IsCallOrder};
ghost use Rattle.call_graph.specs.CallPaths.{CallsIn, IsLargestSum, IsLargestSumBefore, sum_along};

use call_graph::{Sums, largest_sums};
use cerco_base::{CallOrder, NoMemory};
use clight_syntax::typed::Function;
use std::alloc::Global;

// The size of a function, 0 where it has none.
fn size_at(sizes: &[u32], function: u32) -> u32
    ensures { result ≡ slice_index sizes.now function }
{
    match sizes.get(function as usize) {
        Some(size) => *size,
        None => 0,
    }
}

/// The sum of two numbers. Want of memory where no `u32` counts it.
pub fn add(a: u32, b: u32) -> Result<u32, NoMemory>
    ensures sum { IfOk result (λ n. n ≡ a + b) }
    ensures small { IfOk result (λ n. n < 2 ^ 32) }
{
    a.checked_add(b).ok_or(NoMemory)
}

// Whether a `u32` counts the sum of the sizes of all functions of an order. Want of memory where none does.
fn check_sum(order: &CallOrder, sizes: &[u32]) -> Result<(), NoMemory>
    ensures { OnOk result (sum_along sizes.now (functions_of order.now) < 2 ^ 32) }
{
    let mut sum = 0;
    for &function in order.functions() {
        sum = add(sum, size_at(sizes, function))?;
    }
    Ok(())
}

/// A size of 1 for each of these functions.
pub fn ones(alloc: Global, functions: &[Function<()>]) -> Result<Vec<u32>, NoMemory>
    ensures { IfOk result (λ sizes. sizes.items ≡ replicate (length functions.now) 1) }
{
    let sizes = vec![in alloc; 1; functions.len()]?;
    Ok(sizes)
}

/// The largest sums along the call paths of an order of calls, where each function has the size at its place. Want of memory where
/// no `u32` counts the sum of all sizes.
pub fn sums_of(alloc: Global, order: &CallOrder, sizes: &[u32]) -> Result<Sums, NoMemory>
    requires functions { (f : ℕ) → Contains (functions_of order.now) f ↔ (f < length sizes.now) }
    requires in_order { IsCallOrder order.now }
    ensures length { IfOk result (λ sums. length sums.before.items ≡ length sizes.now) }
    ensures before { IfOk result (λ sums. (f : ℕ) → f < length sizes.now → IsLargestSumBefore (length sizes.now) (CallsIn order.now) sizes.now f (slice_index sums.before.items f)) }
    ensures largest { IfOk result (λ sums. IsLargestSum (length sizes.now) (CallsIn order.now) sizes.now sums.largest) }
{
    check_sum(order, sizes)?;
    largest_sums(alloc, order, sizes)
}

// The address at which a frame begins, behind the globals and so many bytes of frames.
fn start_of(globals: u32, before: u32) -> Result<u16, NoMemory>
    ensures { IfOk result (λ at. at ≡ 1 + globals + before) }
{
    let first = globals.checked_add(1).ok_or(NoMemory)?;
    let at = first.checked_add(before).ok_or(NoMemory)?;
    if at > u16::MAX as u32 {
        return Err(NoMemory);
    }
    Ok(at as u16)
}

/// The addresses at which frames begin, each behind the globals and so many bytes of frames.
pub fn starts_of(alloc: Global, globals: u32, before: &[u32]) -> Result<Vec<u16>, NoMemory>
    ensures { IfOk result (λ starts. starts.items ≡ map (λ n. 1 + globals + n) before.now) }
{
    let mut starts = Vec::new(alloc);
    for &bytes in before {
        starts.push(start_of(globals, bytes)?)?;
    }
    Ok(starts)
}
