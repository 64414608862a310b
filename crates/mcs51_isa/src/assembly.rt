//! The operands of instructions as the assembler has them.
ghost use Rattle.std.specs.Prelude.{◌≡◌};
ghost use Rattle.mcs51_isa.specs.Table.{entry_of};
ghost use Rattle.mcs51_isa.specs.Operators.{carry_operand, table_operand, move_operands};
ghost use Rattle.mcs51_isa.specs.Code.OperandLists.{operand_list};

use crate::instr::{CarryOp, Instr, Move, TableBase};
use crate::operands::{Addr11, Ind, Reg};

/// An operand in assembler text.
#[derive(Clone, Copy)]
pub enum Operand {
    /// `A`
    Acc,
    /// `AB`
    Ab,
    /// `C`
    Carry,
    /// `DPTR`
    DataPointer,
    /// `@DPTR`
    AtDptr,
    /// `@A+DPTR`
    AtAccDptr,
    /// `@A+PC`
    AtAccPc,
    /// A direct address.
    Direct(u8),
    /// A bit address.
    Bit(u8),
    /// The complement of a bit.
    NotBit(u8),
    /// An immediate byte.
    Immediate(u8),
    /// An immediate word.
    ImmediateWord(u16),
    /// `@R0` or `@R1`
    Indirect(Ind),
    /// `R0` to `R7`
    Register(Reg),
    /// The target of a relative jump.
    Relative(u8),
    /// The target of AJMP or ACALL.
    Paged(Addr11),
    /// The target of LJMP or LCALL.
    Absolute(u16),
}

/// The operands of an instruction, in the order of the assembler.
#[derive(Clone, Copy)]
pub enum OperandList {
    Nothing,
    One(Operand),
    Two(Operand, Operand),
    Three(Operand, Operand, Operand),
}

/// The operands of an instruction, in the order of the assembler.
pub fn operands(i: Instr) -> OperandList
    ensures { operand_list result ≡ (entry_of i).operands }
{
    use Operand::{
        Ab, Absolute, Acc, AtAccDptr, AtDptr, Bit, Carry, DataPointer, Direct, Immediate,
        ImmediateWord, Indirect, Paged, Register, Relative,
    };
    use OperandList::{Nothing, One, Three, Two};
    match i {
        Instr::Nop => Nothing,
        Instr::Ajmp(target) => One(Paged(target)),
        Instr::Acall(target) => One(Paged(target)),
        Instr::Long(_, word) => One(Absolute(word)),
        Instr::Ret(_) => Nothing,
        Instr::RotateAcc(_) => One(Acc),
        Instr::StepAcc(_) => One(Acc),
        Instr::StepDirect(_, direct) => One(Direct(direct)),
        Instr::StepIndirect(_, ind) => One(Indirect(ind)),
        Instr::StepRegister(_, reg) => One(Register(reg)),
        Instr::BranchBit(_, bit, offset) => Two(Bit(bit), Relative(offset)),
        Instr::BranchFlag(_, offset) => One(Relative(offset)),
        Instr::Sjmp(offset) => One(Relative(offset)),
        Instr::ArithImmediate(_, value) => Two(Acc, Immediate(value)),
        Instr::ArithDirect(_, direct) => Two(Acc, Direct(direct)),
        Instr::ArithIndirect(_, ind) => Two(Acc, Indirect(ind)),
        Instr::ArithRegister(_, reg) => Two(Acc, Register(reg)),
        Instr::LogicDirectAcc(_, direct) => Two(Direct(direct), Acc),
        Instr::LogicDirectImmediate(_, direct, value) => Two(Direct(direct), Immediate(value)),
        Instr::LogicImmediate(_, value) => Two(Acc, Immediate(value)),
        Instr::LogicDirect(_, direct) => Two(Acc, Direct(direct)),
        Instr::LogicIndirect(_, ind) => Two(Acc, Indirect(ind)),
        Instr::LogicRegister(_, reg) => Two(Acc, Register(reg)),
        Instr::CarryLogic(op, bit) => Two(Carry, carry_operand(op, bit)),
        Instr::JmpIndirect => One(AtAccDptr),
        Instr::MovAccImmediate(value) => Two(Acc, Immediate(value)),
        Instr::MovDirectImmediate(direct, value) => Two(Direct(direct), Immediate(value)),
        Instr::MovIndirectImmediate(ind, value) => Two(Indirect(ind), Immediate(value)),
        Instr::MovRegisterImmediate(reg, value) => Two(Register(reg), Immediate(value)),
        Instr::Movc(op) => Two(Acc, table_operand(op)),
        Instr::Multiplier(_) => One(Ab),
        Instr::MovDirectDirect { source, target } => Two(Direct(target), Direct(source)),
        Instr::MovDirectIndirect(direct, ind) => Two(Direct(direct), Indirect(ind)),
        Instr::MovDirectRegister(direct, reg) => Two(Direct(direct), Register(reg)),
        Instr::MovDptr(word) => Two(DataPointer, ImmediateWord(word)),
        Instr::MovBitCarry(bit) => Two(Bit(bit), Carry),
        Instr::MovCarryBit(bit) => Two(Carry, Bit(bit)),
        Instr::IncDptr => One(DataPointer),
        Instr::MovIndirectDirect(ind, direct) => Two(Indirect(ind), Direct(direct)),
        Instr::MovRegisterDirect(reg, direct) => Two(Register(reg), Direct(direct)),
        Instr::ChangeBit(_, bit) => One(Bit(bit)),
        Instr::ChangeCarry(_) => One(Carry),
        Instr::CjneImmediate(value, offset) => Three(Acc, Immediate(value), Relative(offset)),
        Instr::CjneDirect(direct, offset) => Three(Acc, Direct(direct), Relative(offset)),
        Instr::CjneIndirect(ind, value, offset) => Three(
            Indirect(ind),
            Immediate(value),
            Relative(offset),
        ),
        Instr::CjneRegister(reg, value, offset) => Three(
            Register(reg),
            Immediate(value),
            Relative(offset),
        ),
        Instr::Stack(_, direct) => One(Direct(direct)),
        Instr::Adjust(_) => One(Acc),
        Instr::XchDirect(direct) => Two(Acc, Direct(direct)),
        Instr::XchIndirect(ind) => Two(Acc, Indirect(ind)),
        Instr::XchRegister(reg) => Two(Acc, Register(reg)),
        Instr::Xchd(ind) => Two(Acc, Indirect(ind)),
        Instr::DjnzDirect(direct, offset) => Two(Direct(direct), Relative(offset)),
        Instr::DjnzRegister(reg, offset) => Two(Register(reg), Relative(offset)),
        Instr::MovxDptr(op) => move_operands(op, AtDptr),
        Instr::MovxIndirect(op, ind) => move_operands(op, Indirect(ind)),
        Instr::WholeAcc(_) => One(Acc),
        Instr::MovDirect(op, direct) => move_operands(op, Direct(direct)),
        Instr::MovIndirect(op, ind) => move_operands(op, Indirect(ind)),
        Instr::MovRegister(op, reg) => move_operands(op, Register(reg)),
    }
}

fn carry_operand(op: CarryOp, bit: u8) -> Operand
    ensures { result ≡ carry_operand op bit }
{
    match op {
        CarryOp::OrlBit | CarryOp::AnlBit => Operand::Bit(bit),
        CarryOp::OrlNotBit | CarryOp::AnlNotBit => Operand::NotBit(bit),
    }
}

fn table_operand(op: TableBase) -> Operand
    ensures { result ≡ table_operand op }
{
    match op {
        TableBase::Pc => Operand::AtAccPc,
        TableBase::Dptr => Operand::AtAccDptr,
    }
}

fn move_operands(op: Move, place: Operand) -> OperandList
    ensures { operand_list result ≡ move_operands op place }
{
    match op {
        Move::IntoAcc => OperandList::Two(Operand::Acc, place),
        Move::FromAcc => OperandList::Two(place, Operand::Acc),
    }
}
