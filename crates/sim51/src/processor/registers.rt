//! The instructions with a register of the current bank.

use super::Processor;
use crate::executed::Executed;
use crate::location::location_of;
use crate::operations::{logical, stepped};
use mcs51_isa::{ByOne, Instr, Logic, Move, Reg, SumOp};

impl<'a> Processor<'a> {
    ghost use Rattle.std.specs.Prelude.{◌≡◌, []};
    ghost use Rattle.sim51.specs.Effect.{effect};
    ghost use Rattle.sim51.specs.Code.Slots.{effect_of};

    #[inline(always)]
    pub(super) fn step_register(&mut self, op: ByOne, reg: Reg, next: u16) -> Executed
        ensures { effect_of self.new result ≡ effect [] (Instr.StepRegister op reg) next self.old }
    {
        let byte = stepped(op, self.register(reg));
        self.set_register(reg, byte);
        Executed::at(next)
    }

    #[inline(always)]
    pub(super) fn arith_register(&mut self, op: SumOp, reg: Reg, next: u16) -> Executed
        ensures { effect_of self.new result ≡ effect [] (Instr.ArithRegister op reg) next self.old }
    {
        let byte = self.register(reg);
        self.arithmetic(op, byte);
        Executed::at(next)
    }

    #[inline(always)]
    pub(super) fn logic_register(&mut self, op: Logic, reg: Reg, next: u16) -> Executed
        ensures { effect_of self.new result ≡ effect [] (Instr.LogicRegister op reg) next self.old }
    {
        self.acc = logical(op, self.acc, self.register(reg));
        Executed::at(next)
    }

    #[inline(always)]
    pub(super) fn mov_register_immediate(&mut self, reg: Reg, value: u8, next: u16) -> Executed
        ensures { effect_of self.new result ≡ effect [] (Instr.MovRegisterImmediate reg value) next self.old }
    {
        self.set_register(reg, value);
        Executed::at(next)
    }

    #[inline(always)]
    pub(super) fn mov_register_direct(&mut self, reg: Reg, direct: u8, next: u16) -> Executed
        ensures { effect_of self.new result ≡ effect [] (Instr.MovRegisterDirect reg direct) next self.old }
    {
        let (byte, read) = self.read(location_of(direct));
        self.set_register(reg, byte);
        Executed::reading(next, read)
    }

    #[inline(always)]
    pub(super) fn load_register(&mut self, reg: Reg, next: u16) -> Executed
        ensures { effect_of self.new result ≡ effect [] (Instr.MovRegister Move.IntoAcc reg) next self.old }
    {
        self.acc = self.register(reg);
        Executed::at(next)
    }

    #[inline(always)]
    pub(super) fn store_register(&mut self, reg: Reg, next: u16) -> Executed
        ensures { effect_of self.new result ≡ effect [] (Instr.MovRegister Move.FromAcc reg) next self.old }
    {
        self.set_register(reg, self.acc);
        Executed::at(next)
    }

    #[inline(always)]
    pub(super) fn xch_register(&mut self, reg: Reg, next: u16) -> Executed
        ensures { effect_of self.new result ≡ effect [] (Instr.XchRegister reg) next self.old }
    {
        let byte = self.register(reg);
        self.set_register(reg, self.acc);
        self.acc = byte;
        Executed::at(next)
    }
}
