//! The addresses of a layout, kept as its items grow.
ghost use Rattle.std.specs.Prelude.{◌≡◌, ℕ, ◌+◌, ◌-◌, ◌/◌, ◌<◌, ◌≤◌, ◌^◌, length, slice_index, IfOk, OnOk};
ghost use Rattle.jump_expand.specs.Code.Blocks.{address_in, IsTable};

use std::alloc::{AllocError, AllocFailed, Global};

const BLOCK: usize = 256;

/// The addresses of items, in blocks of 256 items: where each block begins, and how far each item stands from there. When an item
/// grows, the rest of its own block changes and the beginnings of the later ones.
#[derive(Drop)]
pub struct Addresses {
    starts: Vec<u32>,
    within: Vec<u32>,
}

// Some numbers in a row rise.
fn raise_all(numbers: &mut [u32], from: usize, to: usize, by: u32)
    requires order { from ≤ to }
    requires within { to ≤ length numbers.old }
    requires bound { (k : ℕ) → k < length numbers.old → slice_index numbers.old k + by < 2 ^ 32 }
    ensures raised { (k : ℕ) → from ≤ k → k < to → slice_index numbers.new k ≡ slice_index numbers.old k + by }
    ensures below { (k : ℕ) → k < from → slice_index numbers.new k ≡ slice_index numbers.old k }
    ensures above { (k : ℕ) → to ≤ k → slice_index numbers.new k ≡ slice_index numbers.old k }
{
    for k in from..to {
        numbers[k] += by;
    }
}

impl Addresses {
    /// One address alone, 0.
    pub(crate) fn new(alloc: Global) -> Result<Addresses, AllocError>
        ensures within { IfOk result (λ a. length a.within.items ≡ 1) }
        ensures starts { IfOk result (λ a. length a.starts.items ≡ 1) }
        ensures zero { IfOk result (λ a. address_in a 0 ≡ 0) }
    {
        let starts = vec![in alloc; 0; 1]?;
        let within = vec![in alloc; 0; 1]?;
        Ok(Addresses { starts, within })
    }

    /// One more address, so many bytes after the last.
    pub(crate) fn push(&mut self, bytes: u32) -> Result<(), AllocFailed<u32>>
        requires table { (count bound : ℕ) × IsTable self.old count bound × (1 ≤ count) × (bound + bytes < 2 ^ 32) × (count ≤ 2 ^ 40) }
        ensures within { OnOk result (length self.new.within.items ≡ length self.old.within.items + 1) }
        ensures starts { OnOk result (length self.new.starts.items ≡ (length self.old.within.items + 256) / 256) }
        ensures same { OnOk result ((k : ℕ) → k < length self.old.within.items → address_in self.new k ≡ address_in self.old k) }
        ensures last { OnOk result (address_in self.new (length self.old.within.items) ≡ address_in self.old (length self.old.within.items - 1) + bytes) }
    {
        let count = self.within.len();
        if count % BLOCK == 0 {
            let at = self.at(count - 1) + bytes;
            self.starts.push(at)?;
            self.within.push(0)
        } else {
            let at = self.within[count - 1] + bytes;
            self.within.push(at)
        }
    }

    /// The address of an item.
    pub(crate) fn at(&self, item: usize) -> u32
        requires table { (count bound : ℕ) × IsTable self.now count bound × (item < count) × (bound < 2 ^ 32) }
        ensures { result ≡ address_in self.now item }
    {
        self.starts[item / BLOCK] + self.within[item]
    }

    /// An item grows: all that comes after it moves up.
    pub(crate) fn raise(&mut self, item: usize, by: u32)
        requires table { (count bound : ℕ) × IsTable self.old count bound × (item < count) × (bound + by < 2 ^ 32) × (count ≤ 2 ^ 40) }
        ensures within { length self.new.within.items ≡ length self.old.within.items }
        ensures starts { length self.new.starts.items ≡ length self.old.starts.items }
        ensures before { (k : ℕ) → k ≤ item → address_in self.new k ≡ address_in self.old k }
        ensures after { (k : ℕ) → item < k → k < length self.old.within.items → address_in self.new k ≡ address_in self.old k + by }
    {
        let block = item / BLOCK + 1;
        let blocks = self.starts.len();
        let end = self.within.len().min(block * BLOCK);
        raise_all(&mut self.within, item + 1, end, by);
        raise_all(&mut self.starts, block, blocks, by);
    }
}
