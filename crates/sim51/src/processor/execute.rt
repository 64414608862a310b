//! One instruction.

use super::Processor;
use crate::executed::Executed;
use mcs51_isa::{Instr, LongJump, Move, StackOp, relative_target};

impl<'a> Processor<'a> {
    ghost use Rattle.std.specs.Prelude.{◌≡◌};
    ghost use Rattle.sim51.specs.Effect.{effect};
    ghost use Rattle.sim51.specs.Code.Slots.{effect_of};

    /// Makes the effect of an instruction of this code, where `next` is the address behind it.
    #[inline(always)]
    pub(crate) fn execute(&mut self, code: &[u8], instr: Instr, next: u16) -> Executed
        ensures { effect_of self.new result ≡ effect code.now instr next self.old }
    {
        match instr {
            Instr::Nop => Executed::at(next),
            Instr::Ajmp(target) => Executed::at(target.target(next)),
            Instr::Acall(target) => self.acall(target, next),
            Instr::Long(LongJump::Ljmp, target) => Executed::at(target),
            Instr::Long(LongJump::Lcall, target) => self.lcall(target, next),
            Instr::Ret(kind) => self.return_from(kind, next),
            Instr::RotateAcc(op) => self.rotate_acc(op, next),
            Instr::StepAcc(op) => self.step_acc(op, next),
            Instr::StepDirect(op, direct) => self.step_direct(op, direct, next),
            Instr::StepIndirect(op, ind) => self.step_indirect(op, ind, next),
            Instr::StepRegister(op, reg) => self.step_register(op, reg, next),
            Instr::BranchBit(op, bit, offset) => {
                self.branch_bit(op, bit, relative_target(next, offset), next)
            }
            Instr::BranchFlag(test, offset) => self.branch_flag(test, offset, next),
            Instr::Sjmp(offset) => Executed::at(relative_target(next, offset)),
            Instr::ArithImmediate(op, value) => self.arith_immediate(op, value, next),
            Instr::ArithDirect(op, direct) => self.arith_direct(op, direct, next),
            Instr::ArithIndirect(op, ind) => self.arith_indirect(op, ind, next),
            Instr::ArithRegister(op, reg) => self.arith_register(op, reg, next),
            Instr::LogicDirectAcc(op, direct) => self.logic_direct_acc(op, direct, next),
            Instr::LogicDirectImmediate(op, direct, value) => {
                self.logic_direct_immediate(op, direct, value, next)
            }
            Instr::LogicImmediate(op, value) => self.logic_immediate(op, value, next),
            Instr::LogicDirect(op, direct) => self.logic_direct(op, direct, next),
            Instr::LogicIndirect(op, ind) => self.logic_indirect(op, ind, next),
            Instr::LogicRegister(op, reg) => self.logic_register(op, reg, next),
            Instr::CarryLogic(op, bit) => self.carry_logic(op, bit, next),
            Instr::JmpIndirect => self.jmp_indirect(next),
            Instr::MovAccImmediate(value) => self.mov_acc_immediate(value, next),
            Instr::MovDirectImmediate(direct, value) => {
                self.mov_direct_immediate(direct, value, next)
            }
            Instr::MovIndirectImmediate(ind, value) => {
                self.mov_indirect_immediate(ind, value, next)
            }
            Instr::MovRegisterImmediate(reg, value) => {
                self.mov_register_immediate(reg, value, next)
            }
            Instr::Movc(base) => self.load_code(code, base, next),
            Instr::Multiplier(op) => self.multiplier(op, next),
            Instr::MovDirectDirect { source, target } => {
                self.mov_direct_direct(source, target, next)
            }
            Instr::MovDirectIndirect(direct, ind) => self.mov_direct_indirect(direct, ind, next),
            Instr::MovDirectRegister(direct, reg) => self.mov_direct_register(direct, reg, next),
            Instr::MovDptr(word) => self.mov_dptr(word, next),
            Instr::MovBitCarry(bit) => self.mov_bit_carry(bit, next),
            Instr::MovCarryBit(bit) => self.mov_carry_bit(bit, next),
            Instr::IncDptr => self.inc_dptr(next),
            Instr::MovIndirectDirect(ind, direct) => self.mov_indirect_direct(ind, direct, next),
            Instr::MovRegisterDirect(reg, direct) => self.mov_register_direct(reg, direct, next),
            Instr::ChangeBit(op, bit) => self.change_bit(op, bit, next),
            Instr::ChangeCarry(op) => self.change_carry(op, next),
            Instr::CjneImmediate(value, offset) => self.cjne_immediate(value, offset, next),
            Instr::CjneDirect(direct, offset) => self.cjne_direct(direct, offset, next),
            Instr::CjneIndirect(ind, value, offset) => {
                self.cjne_indirect(ind, value, offset, next)
            }
            Instr::CjneRegister(reg, value, offset) => {
                self.cjne_register(reg, value, offset, next)
            }
            Instr::Stack(StackOp::Push, direct) => self.push_direct(direct, next),
            Instr::Stack(StackOp::Pop, direct) => self.pop_direct(direct, next),
            Instr::Adjust(op) => self.adjust_acc(op, next),
            Instr::XchDirect(direct) => self.xch_direct(direct, next),
            Instr::XchIndirect(ind) => self.xch_indirect(ind, next),
            Instr::XchRegister(reg) => self.xch_register(reg, next),
            Instr::Xchd(ind) => self.xchd(ind, next),
            Instr::DjnzDirect(direct, offset) => self.djnz_direct(direct, offset, next),
            Instr::DjnzRegister(reg, offset) => self.djnz_register(reg, offset, next),
            Instr::MovxDptr(Move::IntoAcc) => self.load_external(next),
            Instr::MovxDptr(Move::FromAcc) => self.store_external(next),
            Instr::MovxIndirect(Move::IntoAcc, ind) => self.load_external_indirect(ind, next),
            Instr::MovxIndirect(Move::FromAcc, ind) => self.store_external_indirect(ind, next),
            Instr::WholeAcc(op) => self.whole_acc(op, next),
            Instr::MovDirect(Move::IntoAcc, direct) => self.load_direct(direct, next),
            Instr::MovDirect(Move::FromAcc, direct) => self.store_direct(direct, next),
            Instr::MovIndirect(Move::IntoAcc, ind) => self.load_indirect(ind, next),
            Instr::MovIndirect(Move::FromAcc, ind) => self.store_indirect(ind, next),
            Instr::MovRegister(Move::IntoAcc, reg) => self.load_register(reg, next),
            Instr::MovRegister(Move::FromAcc, reg) => self.store_register(reg, next),
        }
    }
}
