//! Constants, moves of what is held in one byte or two, external RAM, and the port.
ghost use Rattle.std.specs.Prelude.{◌≡◌, ◌∷◌, ◌++◌, [], OnOk};
ghost use Rattle.byte_sequences.specs.Sequences as spec;
ghost use Rattle.byte_sequences.specs.Code.Views.{ops_of, vregs};

use crate::sequence::push;
use crate::words::Word;
use cerco_base::NoMemory;
use cerco_middle::Held;
use rtl::{Arith, ByteOp, Ops, Src, Vreg};
use smallvec::SmallVec;
use std::alloc::Global;

/// The word becomes the number.
pub fn push_constant(ops: &mut Ops<Vreg>, word: Word, number: u16) -> Result<(), NoMemory>
    ensures { OnOk result (ops_of ops.new ≡ ops_of ops.old ++ spec.constants (vregs word) number) }
{
    push(ops, ByteOp::Const(word.low, (number % 256) as u8))?;
    push(ops, ByteOp::Const(word.high, (number / 256 % 256) as u8))
}

/// The bytes of a word that hold a scalar become 0.
pub fn push_zeros(ops: &mut Ops<Vreg>, held: Held, word: Word) -> Result<(), NoMemory>
    ensures { OnOk result (ops_of ops.new ≡ ops_of ops.old ++ spec.zeros (spec.held_part held (vregs word))) }
{
    match held {
        Held::W16 => {
            push(ops, ByteOp::Const(word.low, 0))?;
            push(ops, ByteOp::Const(word.high, 0))
        }
        _ => push(ops, ByteOp::Const(word.low, 0)),
    }
}

/// The bytes of a word that hold a scalar become those of another one.
pub fn push_moves(ops: &mut Ops<Vreg>, held: Held, to: Word, from: Word) -> Result<(), NoMemory>
    ensures { OnOk result (ops_of ops.new ≡ ops_of ops.old ++ spec.moves (spec.held_part held (vregs to)) (spec.held_part held (vregs from))) }
{
    match held {
        Held::W16 => {
            push(ops, ByteOp::Move(to.low, from.low))?;
            push(ops, ByteOp::Move(to.high, from.high))
        }
        _ => push(ops, ByteOp::Move(to.low, from.low)),
    }
}

/// What a word holds of a scalar becomes all of the word.
pub fn push_extension(ops: &mut Ops<Vreg>, held: Held, word: Word) -> Result<(), NoMemory>
    ensures { OnOk result (ops_of ops.new ≡ ops_of ops.old ++ spec.extension held (vregs word)) }
{
    match held {
        Held::U8 => push(ops, ByteOp::Const(word.high, 0)),
        Held::I8 => {
            let sign = Src::At(word.low);
            push(ops, ByteOp::Top(word.low))?;
            push(ops, ByteOp::Op(Arith::Subb, word.high, sign, sign))
        }
        Held::W16 => Ok(()),
    }
}

/// The word becomes the scalar that another one holds.
pub fn push_reading(ops: &mut Ops<Vreg>, held: Held, to: Word, from: Word) -> Result<(), NoMemory>
    ensures { OnOk result (ops_of ops.new ≡ ops_of ops.old ++ spec.reading held (vregs to) (vregs from)) }
{
    push_moves(ops, held, to, from)?;
    push_extension(ops, held, to)
}

// The virtual registers of a word that hold a scalar.
fn held_part(alloc: Global, held: Held, word: Word) -> SmallVec<Vreg, 4, Global>
    ensures { result.items ≡ spec.held_part held (vregs word) }
{
    let mut part = SmallVec::new(alloc);
    part.push_reserved(word.low);
    if let Held::W16 = held {
        part.push_reserved(word.high);
    }
    part
}

/// The word becomes the scalar at its address.
pub fn push_load(alloc: Global, ops: &mut Ops<Vreg>, held: Held, word: Word) -> Result<(), NoMemory>
    ensures { OnOk result (ops_of ops.new ≡ ops_of ops.old ++ spec.load held (vregs word)) }
{
    push(
        ops,
        ByteOp::Load(held_part(alloc, held, word), word.low, word.high),
    )?;
    push_extension(ops, held, word)
}

/// The scalar at an address becomes the value of a word.
pub fn push_store(
    alloc: Global,
    ops: &mut Ops<Vreg>,
    held: Held,
    address: Word,
    value: Word,
) -> Result<(), NoMemory>
    ensures { OnOk result (ops_of ops.new ≡ ops_of ops.old ++ spec.store held (vregs address) (vregs value)) }
{
    push(
        ops,
        ByteOp::Store(address.low, address.high, held_part(alloc, held, value)),
    )
}

/// The word becomes the byte that the port shows.
pub fn push_port_reading(ops: &mut Ops<Vreg>, word: Word) -> Result<(), NoMemory>
    ensures { OnOk result (ops_of ops.new ≡ ops_of ops.old ++ spec.port_reading (vregs word)) }
{
    push(ops, ByteOp::ReadPort(word.low))?;
    push(ops, ByteOp::Const(word.high, 0))
}

/// The low byte of the word is written to the port.
pub fn push_port_writing(ops: &mut Ops<Vreg>, word: Word) -> Result<(), NoMemory>
    ensures { OnOk result (ops_of ops.new ≡ ops_of ops.old ++ spec.port_writing (vregs word)) }
{
    push(ops, ByteOp::WritePort(word.low))
}
