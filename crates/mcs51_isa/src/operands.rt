//! The operands that an opcode itself holds: registers, indirect registers and 11-bit addresses.

/// A register of the current bank.
#[derive(Clone, Copy)]
pub enum Reg {
    R0,
    R1,
    R2,
    R3,
    R4,
    R5,
    R6,
    R7,
}

/// A register that holds an address, written `@R0` or `@R1`.
#[derive(Clone, Copy)]
pub enum Ind {
    At0,
    At1,
}

/// Bits 10 to 8 of an address: one of the eight pages of 256 bytes in a block of 2,048.
#[derive(Clone, Copy)]
pub enum Page {
    Page0,
    Page1,
    Page2,
    Page3,
    Page4,
    Page5,
    Page6,
    Page7,
}

/// The low 11 bits of an address, the operand of AJMP and ACALL.
#[derive(Clone, Copy)]
pub struct Addr11 {
    /// Bits 10 to 8, which stand in the opcode.
    pub page: Page,
    /// Bits 7 to 0, the second byte.
    pub low: u8,
}

impl Reg {
    ghost use Rattle.std.specs.Prelude.{◌≡◌, ◌<◌};
    ghost use Rattle.mcs51_isa.specs.Operands.{reg_number, reg_of};

    /// The register with this number, which is below 8.
    pub fn of(number: u8) -> Reg
        requires { number < 8 }
        ensures value { result ≡ reg_of number }
        ensures number { reg_number result ≡ number }
    {
        match number {
            0 => Reg::R0,
            1 => Reg::R1,
            2 => Reg::R2,
            3 => Reg::R3,
            4 => Reg::R4,
            5 => Reg::R5,
            6 => Reg::R6,
            _ => Reg::R7,
        }
    }

    /// Its number, 0 to 7.
    pub fn number(self) -> u8
        ensures value { result ≡ reg_number self }
        ensures below { result < 8 }
    {
        match self {
            Reg::R0 => 0,
            Reg::R1 => 1,
            Reg::R2 => 2,
            Reg::R3 => 3,
            Reg::R4 => 4,
            Reg::R5 => 5,
            Reg::R6 => 6,
            Reg::R7 => 7,
        }
    }
}

impl Ind {
    ghost use Rattle.std.specs.Prelude.{◌≡◌, ◌<◌};
    ghost use Rattle.mcs51_isa.specs.Operands.{ind_number, ind_of};

    /// The indirect register with this number, which is below 2.
    pub fn of(number: u8) -> Ind
        requires { number < 2 }
        ensures value { result ≡ ind_of number }
        ensures number { ind_number result ≡ number }
    {
        match number {
            0 => Ind::At0,
            _ => Ind::At1,
        }
    }

    /// Its number, 0 or 1.
    pub fn number(self) -> u8
        ensures value { result ≡ ind_number self }
        ensures below { result < 2 }
    {
        match self {
            Ind::At0 => 0,
            Ind::At1 => 1,
        }
    }
}

impl Page {
    ghost use Rattle.std.specs.Prelude.{◌≡◌, ◌<◌};
    ghost use Rattle.mcs51_isa.specs.Operands.{page_number, page_of};

    /// The page with this number, which is below 8.
    pub fn of(number: u8) -> Page
        requires { number < 8 }
        ensures value { result ≡ page_of number }
        ensures number { page_number result ≡ number }
    {
        match number {
            0 => Page::Page0,
            1 => Page::Page1,
            2 => Page::Page2,
            3 => Page::Page3,
            4 => Page::Page4,
            5 => Page::Page5,
            6 => Page::Page6,
            _ => Page::Page7,
        }
    }

    /// Its number, 0 to 7.
    pub fn number(self) -> u8
        ensures value { result ≡ page_number self }
        ensures below { result < 8 }
    {
        match self {
            Page::Page0 => 0,
            Page::Page1 => 1,
            Page::Page2 => 2,
            Page::Page3 => 3,
            Page::Page4 => 4,
            Page::Page5 => 5,
            Page::Page6 => 6,
            Page::Page7 => 7,
        }
    }
}

impl Addr11 {
    ghost use Rattle.std.specs.Prelude.{◌≡◌, ℕ, ◌/◌};
    ghost use Rattle.mcs51_isa.specs.Operands.{addr11_of, page_target};

    /// The low 11 bits of an address.
    pub fn of(address: u16) -> Addr11
        ensures value { result ≡ addr11_of address }
        // AJMP and ACALL lead to the address from everywhere in its 2,048 bytes
        ensures target { (next : ℕ) → next / 2048 ≡ address / 2048 → page_target next result ≡ address }
    {
        Addr11 {
            page: Page::of((address / 256 % 8) as u8),
            low: (address % 256) as u8,
        }
    }

    /// The address that AJMP or ACALL leads to, where `next` is the address of the next
    /// instruction: its top five bits stay.
    pub fn target(self, next: u16) -> u16
        ensures { result ≡ page_target next self }
    {
        next / 2048 * 2048 + self.page.number() as u16 * 256 + self.low as u16
    }
}
