//! Comparisons, which give 1 or 0, and tests.
ghost use Rattle.std.specs.Prelude.{◌≡◌, ◌∷◌, ◌++◌, [], OnOk, Bool};
ghost use Rattle.byte_sequences.specs.Sequences as spec;
ghost use Rattle.byte_sequences.specs.Code.Views.{ops_of, vregs, sources};

use crate::arithmetic::{Operand, held_in, push_difference};
use crate::sequence::push;
use crate::words::Word;
use cerco_base::NoMemory;
use rtl::{Arith, ByteOp, Ops, Src, Vreg};

/// The word becomes the carry, or what the carry isn't.
pub fn push_flag(ops: &mut Ops<Vreg>, to: Word, is_turned: bool) -> Result<(), NoMemory>
    ensures { OnOk result (ops_of ops.new ≡ ops_of ops.old ++ spec.flag is_turned (vregs to)) }
{
    if is_turned {
        push(ops, ByteOp::FlipCarry)?;
    }
    push(ops, ByteOp::FromCarry(to.low))?;
    push(ops, ByteOp::Const(to.high, 0))
}

/// Whether the left operand is less than the right one, or whether it isn't.
pub fn push_order(
    ops: &mut Ops<Vreg>,
    to: Word,
    left: Operand,
    right: Operand,
    is_turned: bool,
) -> Result<(), NoMemory>
    ensures { OnOk result (ops_of ops.new ≡ ops_of ops.old ++ spec.order is_turned (vregs to) (sources left) (sources right)) }
{
    push_difference(ops, to, left, right)?;
    push_flag(ops, to, is_turned)
}

/// Whether the word differs from another one, or whether it doesn't.
pub fn push_inequality(
    ops: &mut Ops<Vreg>,
    to: Word,
    other: Word,
    is_turned: bool,
) -> Result<(), NoMemory>
    ensures { OnOk result (ops_of ops.new ≡ ops_of ops.old ++ spec.inequality is_turned (vregs to) (vregs other)) }
{
    push_difference(ops, to, held_in(to), held_in(other))?;
    push(
        ops,
        ByteOp::Op(Arith::Or, to.low, Src::At(to.low), Src::At(to.high)),
    )?;
    push(
        ops,
        ByteOp::Op(Arith::Add, to.low, Src::At(to.low), Src::Byte(255)),
    )?;
    push_flag(ops, to, is_turned)
}

// The high bytes of both words are moved on by half of all bytes, the second one into another virtual register.
fn push_moved_tops(
    ops: &mut Ops<Vreg>,
    moved: Vreg,
    word: Word,
    other: Word,
) -> Result<(), NoMemory>
    ensures { OnOk result (ops_of ops.new ≡ ops_of ops.old ++ spec.moved_tops moved (vregs word) (vregs other)) }
{
    push(
        ops,
        ByteOp::Op(Arith::Add, moved, Src::At(other.high), Src::Byte(128)),
    )?;
    push(
        ops,
        ByteOp::Op(Arith::Add, word.high, Src::At(word.high), Src::Byte(128)),
    )
}

/// Whether the word is less than another one, as signed numbers.
pub fn push_signed_less(
    ops: &mut Ops<Vreg>,
    moved: Vreg,
    to: Word,
    other: Word,
) -> Result<(), NoMemory>
    ensures { OnOk result (ops_of ops.new ≡ ops_of ops.old ++ spec.signed_less moved (vregs to) (vregs other)) }
{
    push_moved_tops(ops, moved, to, other)?;
    push_order(
        ops,
        to,
        held_in(to),
        held_in(Word {
            low: other.low,
            high: moved,
        }),
        false,
    )
}

/// Whether the word is less than another one or equal, as signed numbers.
pub fn push_signed_up_to(
    ops: &mut Ops<Vreg>,
    moved: Vreg,
    to: Word,
    other: Word,
) -> Result<(), NoMemory>
    ensures { OnOk result (ops_of ops.new ≡ ops_of ops.old ++ spec.signed_up_to moved (vregs to) (vregs other)) }
{
    push_moved_tops(ops, moved, to, other)?;
    push_order(
        ops,
        to,
        held_in(Word {
            low: other.low,
            high: moved,
        }),
        held_in(to),
        true,
    )
}

/// The virtual register is 0 where the word is.
pub fn push_joined(ops: &mut Ops<Vreg>, to: Vreg, word: Word) -> Result<(), NoMemory>
    ensures { OnOk result (ops_of ops.new ≡ ops_of ops.old ++ spec.joined to (vregs word)) }
{
    push(
        ops,
        ByteOp::Op(Arith::Or, to, Src::At(word.low), Src::At(word.high)),
    )
}
