//! Sums, differences and products of bytes.
ghost use Rattle.std.specs.Prelude.{◌≡◌, ◌+◌, ◌*◌};
ghost use Rattle.cerco_base.specs.Bytes.{sum_byte, carries, difference_byte, borrows, SumsAreRight, DifferencesAreRight};

/// The sum of two bytes and a carry, modulo 256, and the carry out of it.
#[tactic(auto, unfolding(crate::specs::Bytes::sum_byte, crate::specs::Bytes::carries))]
pub fn add_carry(a: u8, b: u8, c: bool) -> (u8, bool)
    ensures sum { result.0 ≡ sum_byte a b c }
    ensures carry { result.1 ≡ carries 256 a b c }
{
    let carry = if c { 1 } else { 0 };
    let sum: u16 = a as u16 + b as u16 + carry;
    ((sum % 256) as u8, 256 <= sum)
}

/// The difference of two bytes less a borrow, modulo 256, and whether it borrows.
#[tactic(auto, unfolding(crate::specs::Bytes::difference_byte, crate::specs::Bytes::borrows))]
pub fn sub_borrow(a: u8, b: u8, c: bool) -> (u8, bool)
    ensures difference { result.0 ≡ difference_byte a b c }
    ensures borrow { result.1 ≡ borrows 256 a b c }
{
    let borrow = if c { 1 } else { 0 };
    let taken: u16 = b as u16 + borrow;
    (((a as u16 + 256 - taken) % 256) as u8, (a as u16) < taken)
}

/// The low and the high byte of the product of two bytes.
pub fn mul_wide(a: u8, b: u8) -> (u8, u8)
    ensures { result.0 + 256 * result.1 ≡ a * b }
{
    let product = a as u16 * b as u16;
    ((product % 256) as u8, (product / 256) as u8)
}

/// A law, proved: sums of lists of bytes by [`add_carry`], low byte first, are those of their numbers.
pub fn sums_are_right()
    ensures { SumsAreRight }
{}

/// A law, proved: differences of lists of bytes by [`sub_borrow`], low byte first, are those of their numbers.
pub fn differences_are_right()
    ensures { DifferencesAreRight }
{}
