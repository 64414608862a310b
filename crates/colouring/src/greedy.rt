//! The greedy pass: each virtual register in turn gets the first colour that is free.
ghost use Rattle.std.specs.Prelude.{◌≡◌, ℕ, ◌+◌, ◌^◌, ◌<◌, ◌≤◌, ◌↔◌, length, All, true, false, IfOk};
ghost use Rattle.colouring.specs.Colours.{colour_at};
ghost use Rattle.colouring.specs.Code.Rows.{mark_at, near_of, AreEarlier, Holds, IsFirstFree, AreGiven};

use cerco_base::NoMemory;
use rtl::Sequence;
use std::alloc::Global;

/// The neighbours of a virtual register that have smaller numbers.
#[derive(Drop)]
pub struct Row {
    pub near: Vec<u32>,
}

/// The colour of each virtual register by number, and how many cells there are. The colours below 12
/// are the argument places, and those from 12 on the cells.
#[derive(Drop)]
pub struct Colouring {
    pub colours: Sequence<u32>,
    pub cells: u32,
}

// For each colour below the end, whether a virtual register of the row has it.
fn held_colours(
    alloc: Global,
    given: &[u32],
    row: &[u32],
    end: usize,
) -> Result<Vec<bool>, NoMemory>
    requires row { All (λ w. w < length given.now) row.now }
    requires below { All (λ c. c < end) given.now }
    ensures long { IfOk result (λ held. length held.items ≡ end) }
    ensures held { IfOk result (λ held. (c : ℕ) → (mark_at held.items c ≡ true) ↔ Holds given.now row.now c) }
{
    let mut held = vec![in alloc; false; end]?;
    for &w in row {
        held[given[w as usize] as usize] = true;
    }
    Ok(held)
}

// The first place from here on, and before the end, that isn't marked.
fn first_free(held: &[bool], from: usize, end: usize) -> usize
    requires order { from ≤ end }
    requires within { end ≤ length held.now }
    ensures at_least { from ≤ result }
    ensures at_most { result ≤ end }
    ensures free { result < end → mark_at held.now result ≡ false }
    ensures first { (k : ℕ) → from ≤ k → k < result → mark_at held.now k ≡ true }
{
    let mut k = from;
    while k < end && held[k] {
        k += 1;
    }
    k
}

// The first colour that isn't held: a register, unless the virtual register is live across a call,
// or else a cell.
fn free_colour(held: &[bool], across: bool) -> usize
    requires { 12 ≤ length held.now }
    ensures first { IsFirstFree (λ c. mark_at held.now c ≡ true) across result }
    ensures next { result ≤ length held.now }
{
    if !across {
        let register = first_free(held, 0, 6);
        if register < 6 {
            return register;
        }
    }
    first_free(held, 12, held.len())
}

// The colours of the argument places.
fn argument_colours(alloc: Global) -> Result<Sequence<u32>, NoMemory>
    ensures twelve { IfOk result (λ colours. length colours ≡ 12) }
    ensures own { IfOk result (λ colours. (v : ℕ) → v < 12 → colour_at colours v ≡ v) }
{
    let mut colours = Sequence::new(alloc);
    for v in 0..12u32 {
        colours.push(v)?;
    }
    Ok(colours)
}

/// Colours the virtual registers that have rows, and those below 12, by rising number. It fails only
/// when out of memory.
pub fn colour_rows(alloc: Global, rows: &[Row], across: &[bool]) -> Result<Colouring, NoMemory>
    requires few { length rows.now ≤ 2 ^ 32 }
    requires earlier { AreEarlier (near_of rows.now) }
    requires across { length across.now ≡ length rows.now }
    ensures long { IfOk result (λ c. length rows.now ≤ length c.colours) }
    ensures given { IfOk result (λ c. AreGiven (near_of rows.now) (mark_at across.now) c.colours (12 + c.cells)) }
{
    let mut colours = argument_colours(alloc)?;
    let mut end: usize = 12;
    for v in 12..rows.len() {
        let held = held_colours(alloc, colours.as_slice(), &rows[v].near, end)?;
        let colour = free_colour(&held, across[v]);
        colours.push(colour as u32)?;
        end = end.max(colour + 1);
    }
    Ok(Colouring {
        colours,
        cells: (end - 12) as u32,
    })
}
