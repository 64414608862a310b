//! Operations on bytes.
ghost use Rattle.std.specs.Prelude.{◌≡◌, ⊤};

use crate::locations::Location;
use crate::sequence::Sequence;
use smallvec::SmallVec;
use std::alloc::{AllocError, Global};

/// The operand of an operation.
pub enum Src<L> {
    /// The byte at a location.
    At(L),
    /// This byte.
    Byte(u8),
}

impl<L: Copy> Clone for Src<L> {
    ghost is_clone = { λ a b. b ≡ a };

    ghost is_infallible = { λ _. ⊤ };

    fn clone(&self) -> Result<Src<L>, AllocError> {
        Ok(*self)
    }
}

impl<L: Copy> Copy for Src<L> {}

/// An operation on two bytes. Sums and differences set the carry, and the last two of them use it.
#[derive(Clone, Copy)]
pub enum Arith {
    /// The sum.
    Add,
    /// The sum with the carry.
    Addc,
    /// The difference less the carry, which it sets where it borrows.
    Subb,
    /// The bits that both have.
    And,
    /// The bits that one of them has.
    Or,
    /// The bits in which they differ.
    Xor,
}

/// An operation on the bytes at locations, the carry, external RAM and the port. The location that
/// is set comes first.
#[derive(Drop)]
pub enum ByteOp<L: Location> {
    /// The location holds this byte.
    Const(L, u8),
    /// The first location holds the byte of the second.
    Move(L, L),
    /// The location holds what the operation gives of two operands.
    Op(Arith, L, Src<L>, Src<L>),
    /// The locations hold the low and the high byte of the product. The carry is cleared.
    Mul(L, L, Src<L>, Src<L>),
    /// The location holds the quotient, or the dividend where the divisor is 0. The carry is cleared.
    Div(L, L, L),
    /// The location holds the remainder, or 0 where the divisor is 0. The carry is cleared.
    Rem(L, L, L),
    /// The byte turned left by one bit, through the carry.
    Rlc(L, L),
    /// The byte turned right by one bit, through the carry.
    Rrc(L, L),
    /// The carry is the highest bit of the byte.
    Top(L),
    /// The carry is 0.
    ClearCarry,
    /// The carry is 1.
    SetCarry,
    /// The carry is what it wasn't.
    FlipCarry,
    /// The location holds the carry as a number, 0 or 1. The carry is cleared.
    FromCarry(L),
    /// The locations hold the bytes of external RAM from an address on, whose low byte is at the
    /// next location and whose high byte at the last one.
    Load(SmallVec<L, 4, Global>, L, L),
    /// External RAM holds the bytes of the locations from an address on, whose low byte is at the
    /// first location and whose high byte at the next one.
    Store(L, L, SmallVec<L, 4, Global>),
    /// The location holds the byte that the port shows.
    ReadPort(L),
    /// The port is written the byte of the location.
    WritePort(L),
}

/// A list of operations.
pub type Ops<L> = Sequence<ByteOp<L>>;
