//! What byte operations work on: virtual registers, or places of the processor.
ghost use Rattle.std.specs.Prelude.{◌≡◌, ℕ};
ghost use Rattle.rtl.specs.Locations.{vreg_number, place_number};
ghost use Rattle.rtl.specs.Code.Numbering.{one_vreg, one_place};
ghost use Rattle.std.specs.Mem.{FitsInMemory, type_size};
ghost use Rattle.std.specs.Align.{type_align};
ghost use Rattle.std.specs.Prelude.{◌⊎◌};
ghost use Rattle.std.proofs.Common.{inl, inr, refl};
ghost use Rattle.rtl.specs.contracts.operations.ByteOp.{the_row};
ghost use Rattle.std.proofs.Common.{rules};

/// A location that holds a byte.
pub trait Location: Copy + Eq + Ord {
    /// The number of a location.
    ghost number: { Self → ℕ };

    /// Its number.
    fn code(self) -> u32
        ensures { result ≡ number self };

    /// Equal numbers, equal locations.
    ghost one_location: { (a b : Self) → number a ≡ number b → a ≡ b };

    /// An operation over locations fits in memory. What drops a list of them asks for it.
    ghost fits: { FitsInMemory (the_row Self.row) };

    /// Its size in memory is one of two.
    ghost known: { ((type_size Self.row ≡ 4) × (type_align Self.row ≡ 4)) ⊎ ((type_size Self.row ≡ 2) × (type_align Self.row ≡ 1)) };
}

/// A virtual register. Those below 24 are shared by all calls of a program, those from 24 on belong
/// to the call. In ERTL the first twelve hand over arguments and results, in RTL the next twelve do.
#[derive(Clone, Copy, PartialEq, Eq, PartialOrd, Ord, Default)]
pub struct Vreg(pub u32);

impl Location for Vreg {
    ghost number = { vreg_number };

    fn code(self) -> u32 {
        self.0
    }

    ghost one_location = { one_vreg };

    ghost known = { inl (refl, refl) };

    ghost fits = { Prim.search rules };
}

/// A place in the processor.
#[derive(Clone, Copy, PartialEq, Eq, PartialOrd, Ord)]
pub enum Place {
    /// A register of the register bank, 2 to 7.
    Reg(u8),
    /// One of the six bytes from 08H on, which hand over what the registers don't hold, by number.
    Arg(u8),
    /// A cell of the frames that functions have in internal RAM, by its number from 10H on.
    Cell(u8),
}

impl Default for Place {
    fn default() -> Place {
        Place::Reg(0)
    }
}

impl Location for Place {
    ghost number = { place_number };

    fn code(self) -> u32 {
        match self {
            Place::Reg(n) => 3 * n as u32,
            Place::Arg(n) => 3 * n as u32 + 1,
            Place::Cell(n) => 3 * n as u32 + 2,
        }
    }

    ghost one_location = { one_place };

    ghost known = { inr (refl, refl) };

    ghost fits = { Prim.search rules };
}
