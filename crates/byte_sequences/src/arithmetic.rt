//! Sums, differences, products, and operations on bits.
ghost use Rattle.std.specs.Prelude.{◌≡◌, ◌∷◌, ◌++◌, [], OnOk};
ghost use Rattle.byte_sequences.specs.Sequences as spec;
ghost use Rattle.byte_sequences.specs.Code.Views.{ops_of, vregs, sources};

use crate::sequence::push;
use crate::words::Word;
use cerco_base::NoMemory;
use rtl::{Arith, ByteOp, Ops, Src, Vreg};

/// The two bytes of an operand.
#[derive(Clone, Copy)]
pub struct Operand {
    /// The low one.
    pub low: Src<Vreg>,
    /// The high one.
    pub high: Src<Vreg>,
}

/// What a word holds.
pub fn held_in(word: Word) -> Operand
    ensures { sources result ≡ spec.ats (vregs word) }
{
    Operand {
        low: Src::At(word.low),
        high: Src::At(word.high),
    }
}

/// This byte twice.
pub fn twice(byte: u8, word: Word) -> Operand
    ensures { sources result ≡ spec.literals byte (vregs word) }
{
    Operand {
        low: Src::Byte(byte),
        high: Src::Byte(byte),
    }
}

/// The operation on the bytes of two operands in turn.
pub fn push_each(
    ops: &mut Ops<Vreg>,
    operation: Arith,
    to: Word,
    left: Operand,
    right: Operand,
) -> Result<(), NoMemory>
    ensures { OnOk result (ops_of ops.new ≡ ops_of ops.old ++ spec.chain operation (vregs to) (sources left) (sources right)) }
{
    push(ops, ByteOp::Op(operation, to.low, left.low, right.low))?;
    push(ops, ByteOp::Op(operation, to.high, left.high, right.high))
}

/// The word becomes its sum with another one.
pub fn push_sum(ops: &mut Ops<Vreg>, to: Word, other: Word) -> Result<(), NoMemory>
    ensures { OnOk result (ops_of ops.new ≡ ops_of ops.old ++ spec.sum (vregs to) (vregs other)) }
{
    push(
        ops,
        ByteOp::Op(Arith::Add, to.low, Src::At(to.low), Src::At(other.low)),
    )?;
    push(
        ops,
        ByteOp::Op(Arith::Addc, to.high, Src::At(to.high), Src::At(other.high)),
    )
}

/// The word becomes the difference of two operands. The carry says whether it borrows.
pub fn push_difference(
    ops: &mut Ops<Vreg>,
    to: Word,
    left: Operand,
    right: Operand,
) -> Result<(), NoMemory>
    ensures { OnOk result (ops_of ops.new ≡ ops_of ops.old ++ spec.difference (vregs to) (sources left) (sources right)) }
{
    push(ops, ByteOp::ClearCarry)?;
    push_each(ops, Arith::Subb, to, left, right)
}

/// The word becomes the product of its low byte and that of another one.
pub fn push_product(ops: &mut Ops<Vreg>, to: Word, other: Word) -> Result<(), NoMemory>
    ensures { OnOk result (ops_of ops.new ≡ ops_of ops.old ++ spec.product (vregs to) (vregs other)) }
{
    push(
        ops,
        ByteOp::Mul(to.low, to.high, Src::At(to.low), Src::At(other.low)),
    )
}

/// The word becomes the quotient of its low byte by that of another one.
pub fn push_quotient(ops: &mut Ops<Vreg>, to: Word, other: Word) -> Result<(), NoMemory>
    ensures { OnOk result (ops_of ops.new ≡ ops_of ops.old ++ spec.quotient (vregs to) (vregs other)) }
{
    push(ops, ByteOp::Div(to.low, to.low, other.low))?;
    push(ops, ByteOp::Const(to.high, 0))
}

/// The word becomes the remainder of its low byte by that of another one.
pub fn push_remainder(ops: &mut Ops<Vreg>, to: Word, other: Word) -> Result<(), NoMemory>
    ensures { OnOk result (ops_of ops.new ≡ ops_of ops.old ++ spec.remainder (vregs to) (vregs other)) }
{
    push(ops, ByteOp::Rem(to.low, to.low, other.low))?;
    push(ops, ByteOp::Const(to.high, 0))
}
