//! Where the virtual registers of a function are kept.

ghost use Rattle.std.specs.Prelude.{◌≡◌};
ghost use Rattle.ltl_alloc.specs.Allocations.{spot_of};

use rtl::{Sequence, Vreg};

/// Where a virtual register is kept.
#[derive(Clone, Copy)]
pub enum Spot {
    /// In a register of the register bank, 2 to 7.
    Reg(u8),
    /// In one of the six bytes from 08H on, by number.
    Arg(u8),
    /// In a cell of the function's own, counted from 0.
    Cell(u32),
}

/// The spot of each virtual register by number, where it has one.
pub type Spots = Sequence<Option<Spot>>;

/// Where the virtual registers of a function are kept, and how many cells it has.
#[derive(Drop)]
pub struct Allocation {
    pub spots: Spots,
    pub cells: u32,
}

impl Allocation {
    /// Where a virtual register is kept; none for one that the function doesn't have.
    pub fn place(&self, v: Vreg) -> Option<Spot>
        ensures { result ≡ spot_of self.now v.0 }
    {
        match self.spots.as_slice().get(v.0 as usize) {
            Some(spot) => *spot,
            None => None,
        }
    }

    /// How many cells the function has.
    pub fn cells(&self) -> u32
        ensures { result ≡ self.now.cells }
    {
        self.cells
    }
}
