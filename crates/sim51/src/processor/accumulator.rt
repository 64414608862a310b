//! The instructions on the accumulator, the carry and the data pointer.

use super::Processor;
use crate::executed::Executed;
use crate::operations::{changed, logical, stepped, whole_byte};
use mcs51_isa::{Adjustment, BitChange, ByOne, Instr, Logic, MulDiv, Rotate, SumOp, Whole};

impl<'a> Processor<'a> {
    ghost use Rattle.std.specs.Prelude.{◌≡◌, []};
    ghost use Rattle.sim51.specs.Effect.{effect};
    ghost use Rattle.sim51.specs.Code.Slots.{effect_of};

    #[inline(always)]
    pub(super) fn rotate_acc(&mut self, op: Rotate, next: u16) -> Executed
        ensures { effect_of self.new result ≡ effect [] (Instr.RotateAcc op) next self.old }
    {
        self.rotate(op);
        Executed::at(next)
    }

    #[inline(always)]
    pub(super) fn step_acc(&mut self, op: ByOne, next: u16) -> Executed
        ensures { effect_of self.new result ≡ effect [] (Instr.StepAcc op) next self.old }
    {
        self.acc = stepped(op, self.acc);
        Executed::at(next)
    }

    #[inline(always)]
    pub(super) fn arith_immediate(&mut self, op: SumOp, value: u8, next: u16) -> Executed
        ensures { effect_of self.new result ≡ effect [] (Instr.ArithImmediate op value) next self.old }
    {
        self.arithmetic(op, value);
        Executed::at(next)
    }

    #[inline(always)]
    pub(super) fn logic_immediate(&mut self, op: Logic, value: u8, next: u16) -> Executed
        ensures { effect_of self.new result ≡ effect [] (Instr.LogicImmediate op value) next self.old }
    {
        self.acc = logical(op, self.acc, value);
        Executed::at(next)
    }

    #[inline(always)]
    pub(super) fn mov_acc_immediate(&mut self, value: u8, next: u16) -> Executed
        ensures { effect_of self.new result ≡ effect [] (Instr.MovAccImmediate value) next self.old }
    {
        self.acc = value;
        Executed::at(next)
    }

    #[inline(always)]
    pub(super) fn whole_acc(&mut self, op: Whole, next: u16) -> Executed
        ensures { effect_of self.new result ≡ effect [] (Instr.WholeAcc op) next self.old }
    {
        self.acc = whole_byte(op, self.acc);
        Executed::at(next)
    }

    #[inline(always)]
    pub(super) fn adjust_acc(&mut self, op: Adjustment, next: u16) -> Executed
        ensures { effect_of self.new result ≡ effect [] (Instr.Adjust op) next self.old }
    {
        self.adjust(op);
        Executed::at(next)
    }

    #[inline(always)]
    pub(super) fn multiplier(&mut self, op: MulDiv, next: u16) -> Executed
        ensures { effect_of self.new result ≡ effect [] (Instr.Multiplier op) next self.old }
    {
        self.multiply(op);
        Executed::at(next)
    }

    #[inline(always)]
    pub(super) fn change_carry(&mut self, op: BitChange, next: u16) -> Executed
        ensures { effect_of self.new result ≡ effect [] (Instr.ChangeCarry op) next self.old }
    {
        self.cy = changed(op, self.cy);
        Executed::at(next)
    }

    #[inline(always)]
    pub(super) fn mov_dptr(&mut self, word: u16, next: u16) -> Executed
        ensures { effect_of self.new result ≡ effect [] (Instr.MovDptr word) next self.old }
    {
        self.set_dptr(word);
        Executed::at(next)
    }

    #[inline(always)]
    pub(super) fn inc_dptr(&mut self, next: u16) -> Executed
        ensures { effect_of self.new result ≡ effect [] Instr.IncDptr next self.old }
    {
        let word = self.dptr().wrapping_add(1);
        self.set_dptr(word);
        Executed::at(next)
    }
}
