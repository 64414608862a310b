//! The bytes of instructions.
ghost use Rattle.std.specs.Prelude.{◌≡◌, ℕ, List, Some, ◌++◌, length};
ghost use Rattle.mcs51_isa.specs.Table.{encode_of, padded_code_of};
ghost use Rattle.mcs51_isa.specs.Decoding.{decoded};

use crate::instr::Instr;

/// The bytes of an instruction, 0 in those that it does not use, and how many it uses: 1 to 3.
pub fn encode(i: Instr) -> ([u8; 3], u8)
    ensures bytes { result.0 ≡ padded_code_of i }
    ensures size { result.1 ≡ length (encode_of i) }
    // decoding these bytes, whatever stands behind them, gives the instruction back
    ensures decodes_back { (behind : List ℕ) → decoded (encode_of i ++ behind) ≡ Some (i, result.1) }
{
    padded_code(i)
}

/// The number of bytes of an instruction, 1 to 3.
pub fn length(i: Instr) -> u8
    ensures { result ≡ length (encode_of i) }
{
    padded_code(i).1
}

fn padded_code(i: Instr) -> ([u8; 3], u8)
    ensures bytes { result.0 ≡ padded_code_of i }
    ensures size { result.1 ≡ length (encode_of i) }
{
    match i {
        Instr::Nop => ([0x00, 0, 0], 1),
        Instr::Ajmp(target) => ([0x01 + target.page.number() * 0x20, target.low, 0], 2),
        Instr::Acall(target) => ([0x11 + target.page.number() * 0x20, target.low, 0], 2),
        Instr::Long(op, word) => ([op.opcode(), (word / 256) as u8, (word % 256) as u8], 3),
        Instr::Ret(op) => ([op.opcode(), 0, 0], 1),
        Instr::RotateAcc(op) => ([op.opcode(), 0, 0], 1),
        Instr::StepAcc(op) => ([op.row() + 0x04, 0, 0], 1),
        Instr::StepDirect(op, direct) => ([op.row() + 0x05, direct, 0], 2),
        Instr::StepIndirect(op, ind) => ([op.row() + 0x06 + ind.number(), 0, 0], 1),
        Instr::StepRegister(op, reg) => ([op.row() + 0x08 + reg.number(), 0, 0], 1),
        Instr::BranchBit(op, bit, offset) => ([op.opcode(), bit, offset], 3),
        Instr::BranchFlag(op, offset) => ([op.opcode(), offset, 0], 2),
        Instr::Sjmp(offset) => ([0x80, offset, 0], 2),
        Instr::ArithImmediate(op, value) => ([op.row() + 0x04, value, 0], 2),
        Instr::ArithDirect(op, direct) => ([op.row() + 0x05, direct, 0], 2),
        Instr::ArithIndirect(op, ind) => ([op.row() + 0x06 + ind.number(), 0, 0], 1),
        Instr::ArithRegister(op, reg) => ([op.row() + 0x08 + reg.number(), 0, 0], 1),
        Instr::LogicDirectAcc(op, direct) => ([op.row() + 0x02, direct, 0], 2),
        Instr::LogicDirectImmediate(op, direct, value) => ([op.row() + 0x03, direct, value], 3),
        Instr::LogicImmediate(op, value) => ([op.row() + 0x04, value, 0], 2),
        Instr::LogicDirect(op, direct) => ([op.row() + 0x05, direct, 0], 2),
        Instr::LogicIndirect(op, ind) => ([op.row() + 0x06 + ind.number(), 0, 0], 1),
        Instr::LogicRegister(op, reg) => ([op.row() + 0x08 + reg.number(), 0, 0], 1),
        Instr::CarryLogic(op, bit) => ([op.opcode(), bit, 0], 2),
        Instr::JmpIndirect => ([0x73, 0, 0], 1),
        Instr::MovAccImmediate(value) => ([0x74, value, 0], 2),
        Instr::MovDirectImmediate(direct, value) => ([0x75, direct, value], 3),
        Instr::MovIndirectImmediate(ind, value) => ([0x76 + ind.number(), value, 0], 2),
        Instr::MovRegisterImmediate(reg, value) => ([0x78 + reg.number(), value, 0], 2),
        Instr::Movc(op) => ([op.opcode(), 0, 0], 1),
        Instr::Multiplier(op) => ([op.opcode(), 0, 0], 1),
        Instr::MovDirectDirect { source, target } => ([0x85, source, target], 3),
        Instr::MovDirectIndirect(direct, ind) => ([0x86 + ind.number(), direct, 0], 2),
        Instr::MovDirectRegister(direct, reg) => ([0x88 + reg.number(), direct, 0], 2),
        Instr::MovDptr(word) => ([0x90, (word / 256) as u8, (word % 256) as u8], 3),
        Instr::MovBitCarry(bit) => ([0x92, bit, 0], 2),
        Instr::MovCarryBit(bit) => ([0xA2, bit, 0], 2),
        Instr::IncDptr => ([0xA3, 0, 0], 1),
        Instr::MovIndirectDirect(ind, direct) => ([0xA6 + ind.number(), direct, 0], 2),
        Instr::MovRegisterDirect(reg, direct) => ([0xA8 + reg.number(), direct, 0], 2),
        Instr::ChangeBit(op, bit) => ([op.row() + 0x02, bit, 0], 2),
        Instr::ChangeCarry(op) => ([op.row() + 0x03, 0, 0], 1),
        Instr::CjneImmediate(value, offset) => ([0xB4, value, offset], 3),
        Instr::CjneDirect(direct, offset) => ([0xB5, direct, offset], 3),
        Instr::CjneIndirect(ind, value, offset) => ([0xB6 + ind.number(), value, offset], 3),
        Instr::CjneRegister(reg, value, offset) => ([0xB8 + reg.number(), value, offset], 3),
        Instr::Stack(op, direct) => ([op.opcode(), direct, 0], 2),
        Instr::Adjust(op) => ([op.opcode(), 0, 0], 1),
        Instr::XchDirect(direct) => ([0xC5, direct, 0], 2),
        Instr::XchIndirect(ind) => ([0xC6 + ind.number(), 0, 0], 1),
        Instr::XchRegister(reg) => ([0xC8 + reg.number(), 0, 0], 1),
        Instr::Xchd(ind) => ([0xD6 + ind.number(), 0, 0], 1),
        Instr::DjnzDirect(direct, offset) => ([0xD5, direct, offset], 3),
        Instr::DjnzRegister(reg, offset) => ([0xD8 + reg.number(), offset, 0], 2),
        Instr::MovxDptr(op) => ([op.row(), 0, 0], 1),
        Instr::MovxIndirect(op, ind) => ([op.row() + 0x02 + ind.number(), 0, 0], 1),
        Instr::WholeAcc(op) => ([op.opcode(), 0, 0], 1),
        Instr::MovDirect(op, direct) => ([op.row() + 0x05, direct, 0], 2),
        Instr::MovIndirect(op, ind) => ([op.row() + 0x06 + ind.number(), 0, 0], 1),
        Instr::MovRegister(op, reg) => ([op.row() + 0x08 + reg.number(), 0, 0], 1),
    }
}
