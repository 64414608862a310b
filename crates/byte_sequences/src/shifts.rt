//! Shifts, bit by bit.
ghost use Rattle.std.specs.Prelude.{◌≡◌, ◌∷◌, ◌++◌, [], OnOk};
ghost use Rattle.byte_sequences.specs.Sequences as spec;
ghost use Rattle.byte_sequences.specs.Code.Views.{ops_of, vregs};

use crate::arithmetic::push_sum;
use crate::sequence::push;
use crate::words::Word;
use cerco_base::NoMemory;
use rtl::{ByteOp, Ops, Vreg};

/// The word is shifted left by so many bits.
#[tactic(auto, using(crate::proofs::Pushes::growing))]
pub fn push_shift_left(ops: &mut Ops<Vreg>, bits: u8, word: Word) -> Result<(), NoMemory>
    ensures { OnOk result (ops_of ops.new ≡ ops_of ops.old ++ spec.shift_left bits (vregs word)) }
{
    for _ in 0..bits {
        push_sum(ops, word, word)?;
    }
    Ok(())
}

// The carry becomes the bit that is shifted in.
fn push_shifted_in(ops: &mut Ops<Vreg>, keeps_sign: bool, word: Word) -> Result<(), NoMemory>
    ensures { OnOk result (ops_of ops.new ≡ ops_of ops.old ++ spec.shifted_in keeps_sign (vregs word)) }
{
    if keeps_sign {
        push(ops, ByteOp::Top(word.high))
    } else {
        push(ops, ByteOp::ClearCarry)
    }
}

/// The word is halved. It keeps its sign where the flag is true.
pub fn push_half(ops: &mut Ops<Vreg>, keeps_sign: bool, word: Word) -> Result<(), NoMemory>
    ensures { OnOk result (ops_of ops.new ≡ ops_of ops.old ++ spec.half keeps_sign (vregs word)) }
{
    push_shifted_in(ops, keeps_sign, word)?;
    push(ops, ByteOp::Rrc(word.high, word.high))?;
    push(ops, ByteOp::Rrc(word.low, word.low))
}

/// The word is shifted right by so many bits. It keeps its sign where the flag is true.
#[tactic(auto, using(crate::proofs::Pushes::growing))]
pub fn push_shift_right(
    ops: &mut Ops<Vreg>,
    bits: u8,
    keeps_sign: bool,
    word: Word,
) -> Result<(), NoMemory>
    ensures { OnOk result (ops_of ops.new ≡ ops_of ops.old ++ spec.shift_right bits keeps_sign (vregs word)) }
{
    for _ in 0..bits {
        push_half(ops, keeps_sign, word)?;
    }
    Ok(())
}
