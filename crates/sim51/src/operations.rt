//! Operations on bytes and bits.
ghost use Rattle.std.specs.Prelude.{◌≡◌};
ghost use Rattle.sim51.specs.Effect.{logical, carry_logical, stepped, changed, whole_byte};

use mcs51_isa::{BitChange, ByOne, CarryOp, Logic, Whole};

pub(crate) fn logical(op: Logic, a: u8, b: u8) -> u8
    ensures { result ≡ logical op a b }
{
    match op {
        Logic::Orl => a | b,
        Logic::Anl => a & b,
        Logic::Xrl => a ^ b,
    }
}

pub(crate) fn carry_logical(op: CarryOp, carry: bool, bit: bool) -> bool
    ensures { result ≡ carry_logical op carry bit }
{
    match op {
        CarryOp::OrlBit => carry || bit,
        CarryOp::AnlBit => carry && bit,
        CarryOp::OrlNotBit => carry || !bit,
        CarryOp::AnlNotBit => carry && !bit,
    }
}

/// The byte increased or decreased by 1, modulo 256.
pub(crate) fn stepped(op: ByOne, byte: u8) -> u8
    ensures { result ≡ stepped op byte }
{
    match op {
        ByOne::Inc => byte.wrapping_add(1),
        ByOne::Dec => byte.wrapping_add(255),
    }
}

pub(crate) fn changed(op: BitChange, bit: bool) -> bool
    ensures { result ≡ changed op bit }
{
    match op {
        BitChange::Cpl => !bit,
        BitChange::Clr => false,
        BitChange::Setb => true,
    }
}

pub(crate) fn whole_byte(op: Whole, byte: u8) -> u8
    ensures { result ≡ whole_byte op byte }
{
    match op {
        Whole::ClearAcc => 0,
        Whole::ComplementAcc => 255 - byte,
    }
}
