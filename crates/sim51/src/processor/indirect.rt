//! The instructions with the byte at the address in R0 or R1.

use super::Processor;
use crate::executed::Executed;
use crate::location::location_of;
use crate::operations::{logical, stepped};
use mcs51_isa::{ByOne, Ind, Instr, Logic, Move, SumOp};

impl<'a> Processor<'a> {
    ghost use Rattle.std.specs.Prelude.{◌≡◌, []};
    ghost use Rattle.sim51.specs.Effect.{effect};
    ghost use Rattle.sim51.specs.Code.Slots.{effect_of};

    #[inline(always)]
    pub(super) fn step_indirect(&mut self, op: ByOne, ind: Ind, next: u16) -> Executed
        ensures { effect_of self.new result ≡ effect [] (Instr.StepIndirect op ind) next self.old }
    {
        let byte = stepped(op, self.indirect(ind));
        self.set_indirect(ind, byte);
        Executed::at(next)
    }

    #[inline(always)]
    pub(super) fn arith_indirect(&mut self, op: SumOp, ind: Ind, next: u16) -> Executed
        ensures { effect_of self.new result ≡ effect [] (Instr.ArithIndirect op ind) next self.old }
    {
        let byte = self.indirect(ind);
        self.arithmetic(op, byte);
        Executed::at(next)
    }

    #[inline(always)]
    pub(super) fn logic_indirect(&mut self, op: Logic, ind: Ind, next: u16) -> Executed
        ensures { effect_of self.new result ≡ effect [] (Instr.LogicIndirect op ind) next self.old }
    {
        self.acc = logical(op, self.acc, self.indirect(ind));
        Executed::at(next)
    }

    #[inline(always)]
    pub(super) fn mov_indirect_immediate(&mut self, ind: Ind, value: u8, next: u16) -> Executed
        ensures { effect_of self.new result ≡ effect [] (Instr.MovIndirectImmediate ind value) next self.old }
    {
        self.set_indirect(ind, value);
        Executed::at(next)
    }

    #[inline(always)]
    pub(super) fn mov_indirect_direct(&mut self, ind: Ind, direct: u8, next: u16) -> Executed
        ensures { effect_of self.new result ≡ effect [] (Instr.MovIndirectDirect ind direct) next self.old }
    {
        let (byte, read) = self.read(location_of(direct));
        self.set_indirect(ind, byte);
        Executed::reading(next, read)
    }

    #[inline(always)]
    pub(super) fn load_indirect(&mut self, ind: Ind, next: u16) -> Executed
        ensures { effect_of self.new result ≡ effect [] (Instr.MovIndirect Move.IntoAcc ind) next self.old }
    {
        self.acc = self.indirect(ind);
        Executed::at(next)
    }

    #[inline(always)]
    pub(super) fn store_indirect(&mut self, ind: Ind, next: u16) -> Executed
        ensures { effect_of self.new result ≡ effect [] (Instr.MovIndirect Move.FromAcc ind) next self.old }
    {
        self.set_indirect(ind, self.acc);
        Executed::at(next)
    }

    #[inline(always)]
    pub(super) fn xch_indirect(&mut self, ind: Ind, next: u16) -> Executed
        ensures { effect_of self.new result ≡ effect [] (Instr.XchIndirect ind) next self.old }
    {
        let byte = self.indirect(ind);
        self.set_indirect(ind, self.acc);
        self.acc = byte;
        Executed::at(next)
    }

    #[inline(always)]
    pub(super) fn xchd(&mut self, ind: Ind, next: u16) -> Executed
        ensures { effect_of self.new result ≡ effect [] (Instr.Xchd ind) next self.old }
    {
        let byte = self.indirect(ind);
        let acc = self.acc;
        self.set_indirect(ind, byte / 16 * 16 + acc % 16);
        self.acc = acc / 16 * 16 + byte % 16;
        Executed::at(next)
    }
}
