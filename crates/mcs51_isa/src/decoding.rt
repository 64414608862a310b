//! The instructions that bytes stand for, by the columns of the opcode map.
ghost use Rattle.std.specs.Prelude.{◌≡◌, ℕ, Some, ◌<◌, ◌+◌, ◌*◌, ◌-◌, ◌++◌, ◌↔◌, None, IfSome, slice_index_or, slice_index, take, replicate};
ghost use Rattle.mcs51_isa.specs.Table.{padded_code_of};
ghost use Rattle.mcs51_isa.specs.Decoding.{decode_of, decoded, reserved, column_0, column_page, column_2, column_3, column_4, column_5, column_indirect, column_register};

use crate::encoding::length;
use crate::instr::{
    Adjustment, BitChange, BitTest, ByOne, CarryOp, FlagTest, Instr, Logic, LongJump, Move, MulDiv,
    ReturnKind, Rotate, StackOp, SumOp, TableBase, Whole,
};
use crate::operands::{Addr11, Ind, Page, Reg};

/// The instruction that these bytes begin with, and its length. None exactly where the first byte is
/// A5H, the one opcode that stands for nothing.
pub fn decode(bytes: [u8; 3]) -> Option<(Instr, u8)>
    ensures table { result ≡ decoded bytes }
    ensures reserved { (result ≡ None) ↔ (slice_index bytes 0 ≡ 0xA5) }
    // encoding the instruction gives the bytes that were read, and 0 behind them
    ensures encodes_back { IfSome result (λ p. padded_code_of p.0 ≡ take p.1 bytes ++ replicate (3 - p.1) 0) }
{
    let instr = instruction(bytes[0], bytes[1], bytes[2])?;
    Some((instr, length(instr)))
}

fn instruction(opcode: u8, first: u8, second: u8) -> Option<Instr>
    ensures { result ≡ decode_of opcode first second }
{
    let row = opcode / 16;
    match opcode % 16 {
        0x0 => column_0(row, first, second),
        0x1 => Some(column_page(row, first)),
        0x2 => column_2(row, first, second),
        0x3 => column_3(row, first, second),
        0x4 => column_4(row, first, second),
        0x5 => column_5(row, first, second),
        0x6 => column_indirect(row, Ind::At0, first, second),
        0x7 => column_indirect(row, Ind::At1, first, second),
        column => column_register(row, Reg::of(column - 8), first, second),
    }
}

fn word(high: u8, low: u8) -> u16
    ensures { result ≡ 256 * high + low }
{
    256 * high as u16 + low as u16
}

fn column_page(row: u8, first: u8) -> Instr
    requires { row < 16 }
    ensures { (y : ℕ) → Some result ≡ column_page row first y }
{
    let target = Addr11 {
        page: Page::of(row / 2),
        low: first,
    };
    if row % 2 == 0 {
        Instr::Ajmp(target)
    } else {
        Instr::Acall(target)
    }
}

fn column_0(row: u8, first: u8, second: u8) -> Option<Instr>
    requires { row < 16 }
    ensures { result ≡ slice_index_or column_0 row reserved first second }
{
    match row {
        0x0 => Some(Instr::Nop),
        0x1 => Some(Instr::BranchBit(BitTest::Jbc, first, second)),
        0x2 => Some(Instr::BranchBit(BitTest::Jb, first, second)),
        0x3 => Some(Instr::BranchBit(BitTest::Jnb, first, second)),
        0x4 => Some(Instr::BranchFlag(FlagTest::Jc, first)),
        0x5 => Some(Instr::BranchFlag(FlagTest::Jnc, first)),
        0x6 => Some(Instr::BranchFlag(FlagTest::Jz, first)),
        0x7 => Some(Instr::BranchFlag(FlagTest::Jnz, first)),
        0x8 => Some(Instr::Sjmp(first)),
        0x9 => Some(Instr::MovDptr(word(first, second))),
        0xA => Some(Instr::CarryLogic(CarryOp::OrlNotBit, first)),
        0xB => Some(Instr::CarryLogic(CarryOp::AnlNotBit, first)),
        0xC => Some(Instr::Stack(StackOp::Push, first)),
        0xD => Some(Instr::Stack(StackOp::Pop, first)),
        0xE => Some(Instr::MovxDptr(Move::IntoAcc)),
        _ => Some(Instr::MovxDptr(Move::FromAcc)),
    }
}

fn column_2(row: u8, first: u8, second: u8) -> Option<Instr>
    requires { row < 16 }
    ensures { result ≡ slice_index_or column_2 row reserved first second }
{
    match row {
        0x0 => Some(Instr::Long(LongJump::Ljmp, word(first, second))),
        0x1 => Some(Instr::Long(LongJump::Lcall, word(first, second))),
        0x2 => Some(Instr::Ret(ReturnKind::FromCall)),
        0x3 => Some(Instr::Ret(ReturnKind::FromInterrupt)),
        0x4 => Some(Instr::LogicDirectAcc(Logic::Orl, first)),
        0x5 => Some(Instr::LogicDirectAcc(Logic::Anl, first)),
        0x6 => Some(Instr::LogicDirectAcc(Logic::Xrl, first)),
        0x7 => Some(Instr::CarryLogic(CarryOp::OrlBit, first)),
        0x8 => Some(Instr::CarryLogic(CarryOp::AnlBit, first)),
        0x9 => Some(Instr::MovBitCarry(first)),
        0xA => Some(Instr::MovCarryBit(first)),
        0xB => Some(Instr::ChangeBit(BitChange::Cpl, first)),
        0xC => Some(Instr::ChangeBit(BitChange::Clr, first)),
        0xD => Some(Instr::ChangeBit(BitChange::Setb, first)),
        0xE => Some(Instr::MovxIndirect(Move::IntoAcc, Ind::At0)),
        _ => Some(Instr::MovxIndirect(Move::FromAcc, Ind::At0)),
    }
}

fn column_3(row: u8, first: u8, second: u8) -> Option<Instr>
    requires { row < 16 }
    ensures { result ≡ slice_index_or column_3 row reserved first second }
{
    match row {
        0x0 => Some(Instr::RotateAcc(Rotate::Rr)),
        0x1 => Some(Instr::RotateAcc(Rotate::Rrc)),
        0x2 => Some(Instr::RotateAcc(Rotate::Rl)),
        0x3 => Some(Instr::RotateAcc(Rotate::Rlc)),
        0x4 => Some(Instr::LogicDirectImmediate(Logic::Orl, first, second)),
        0x5 => Some(Instr::LogicDirectImmediate(Logic::Anl, first, second)),
        0x6 => Some(Instr::LogicDirectImmediate(Logic::Xrl, first, second)),
        0x7 => Some(Instr::JmpIndirect),
        0x8 => Some(Instr::Movc(TableBase::Pc)),
        0x9 => Some(Instr::Movc(TableBase::Dptr)),
        0xA => Some(Instr::IncDptr),
        0xB => Some(Instr::ChangeCarry(BitChange::Cpl)),
        0xC => Some(Instr::ChangeCarry(BitChange::Clr)),
        0xD => Some(Instr::ChangeCarry(BitChange::Setb)),
        0xE => Some(Instr::MovxIndirect(Move::IntoAcc, Ind::At1)),
        _ => Some(Instr::MovxIndirect(Move::FromAcc, Ind::At1)),
    }
}

fn column_4(row: u8, first: u8, second: u8) -> Option<Instr>
    requires { row < 16 }
    ensures { result ≡ slice_index_or column_4 row reserved first second }
{
    match row {
        0x0 => Some(Instr::StepAcc(ByOne::Inc)),
        0x1 => Some(Instr::StepAcc(ByOne::Dec)),
        0x2 => Some(Instr::ArithImmediate(SumOp::Add, first)),
        0x3 => Some(Instr::ArithImmediate(SumOp::Addc, first)),
        0x4 => Some(Instr::LogicImmediate(Logic::Orl, first)),
        0x5 => Some(Instr::LogicImmediate(Logic::Anl, first)),
        0x6 => Some(Instr::LogicImmediate(Logic::Xrl, first)),
        0x7 => Some(Instr::MovAccImmediate(first)),
        0x8 => Some(Instr::Multiplier(MulDiv::DivAb)),
        0x9 => Some(Instr::ArithImmediate(SumOp::Subb, first)),
        0xA => Some(Instr::Multiplier(MulDiv::MulAb)),
        0xB => Some(Instr::CjneImmediate(first, second)),
        0xC => Some(Instr::Adjust(Adjustment::Swap)),
        0xD => Some(Instr::Adjust(Adjustment::Da)),
        0xE => Some(Instr::WholeAcc(Whole::ClearAcc)),
        _ => Some(Instr::WholeAcc(Whole::ComplementAcc)),
    }
}

fn column_5(row: u8, first: u8, second: u8) -> Option<Instr>
    requires { row < 16 }
    ensures { result ≡ slice_index_or column_5 row reserved first second }
{
    match row {
        0x0 => Some(Instr::StepDirect(ByOne::Inc, first)),
        0x1 => Some(Instr::StepDirect(ByOne::Dec, first)),
        0x2 => Some(Instr::ArithDirect(SumOp::Add, first)),
        0x3 => Some(Instr::ArithDirect(SumOp::Addc, first)),
        0x4 => Some(Instr::LogicDirect(Logic::Orl, first)),
        0x5 => Some(Instr::LogicDirect(Logic::Anl, first)),
        0x6 => Some(Instr::LogicDirect(Logic::Xrl, first)),
        0x7 => Some(Instr::MovDirectImmediate(first, second)),
        0x8 => Some(Instr::MovDirectDirect {
            source: first,
            target: second,
        }),
        0x9 => Some(Instr::ArithDirect(SumOp::Subb, first)),
        0xA => None,
        0xB => Some(Instr::CjneDirect(first, second)),
        0xC => Some(Instr::XchDirect(first)),
        0xD => Some(Instr::DjnzDirect(first, second)),
        0xE => Some(Instr::MovDirect(Move::IntoAcc, first)),
        _ => Some(Instr::MovDirect(Move::FromAcc, first)),
    }
}

fn column_indirect(row: u8, ind: Ind, first: u8, second: u8) -> Option<Instr>
    requires { row < 16 }
    ensures { result ≡ slice_index_or (column_indirect ind) row reserved first second }
{
    match row {
        0x0 => Some(Instr::StepIndirect(ByOne::Inc, ind)),
        0x1 => Some(Instr::StepIndirect(ByOne::Dec, ind)),
        0x2 => Some(Instr::ArithIndirect(SumOp::Add, ind)),
        0x3 => Some(Instr::ArithIndirect(SumOp::Addc, ind)),
        0x4 => Some(Instr::LogicIndirect(Logic::Orl, ind)),
        0x5 => Some(Instr::LogicIndirect(Logic::Anl, ind)),
        0x6 => Some(Instr::LogicIndirect(Logic::Xrl, ind)),
        0x7 => Some(Instr::MovIndirectImmediate(ind, first)),
        0x8 => Some(Instr::MovDirectIndirect(first, ind)),
        0x9 => Some(Instr::ArithIndirect(SumOp::Subb, ind)),
        0xA => Some(Instr::MovIndirectDirect(ind, first)),
        0xB => Some(Instr::CjneIndirect(ind, first, second)),
        0xC => Some(Instr::XchIndirect(ind)),
        0xD => Some(Instr::Xchd(ind)),
        0xE => Some(Instr::MovIndirect(Move::IntoAcc, ind)),
        _ => Some(Instr::MovIndirect(Move::FromAcc, ind)),
    }
}

fn column_register(row: u8, reg: Reg, first: u8, second: u8) -> Option<Instr>
    requires { row < 16 }
    ensures { result ≡ slice_index_or (column_register reg) row reserved first second }
{
    match row {
        0x0 => Some(Instr::StepRegister(ByOne::Inc, reg)),
        0x1 => Some(Instr::StepRegister(ByOne::Dec, reg)),
        0x2 => Some(Instr::ArithRegister(SumOp::Add, reg)),
        0x3 => Some(Instr::ArithRegister(SumOp::Addc, reg)),
        0x4 => Some(Instr::LogicRegister(Logic::Orl, reg)),
        0x5 => Some(Instr::LogicRegister(Logic::Anl, reg)),
        0x6 => Some(Instr::LogicRegister(Logic::Xrl, reg)),
        0x7 => Some(Instr::MovRegisterImmediate(reg, first)),
        0x8 => Some(Instr::MovDirectRegister(first, reg)),
        0x9 => Some(Instr::ArithRegister(SumOp::Subb, reg)),
        0xA => Some(Instr::MovRegisterDirect(reg, first)),
        0xB => Some(Instr::CjneRegister(reg, first, second)),
        0xC => Some(Instr::XchRegister(reg)),
        0xD => Some(Instr::DjnzRegister(reg, first)),
        0xE => Some(Instr::MovRegister(Move::IntoAcc, reg)),
        _ => Some(Instr::MovRegister(Move::FromAcc, reg)),
    }
}
