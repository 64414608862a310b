//! The instructions on bits.

use super::Processor;
use crate::executed::Executed;
use crate::location::{bit_location, bit_of, with_bit};
use crate::operations::{carry_logical, changed};
use crate::quiet::names_port;
use crate::slots::Planned;
use mcs51_isa::{BitChange, BitTest, CarryOp, Instr};

impl<'a> Processor<'a> {
    ghost use Rattle.std.specs.Prelude.{◌≡◌, []};
    ghost use Rattle.sim51.specs.Effect.{effect, branches_on_bit};
    ghost use Rattle.sim51.specs.Code.Slots.{effect_of};
    ghost use Rattle.sim51.specs.Code.Quiets.{leaves_bit, is_silent_planned};

    #[inline(always)]
    pub(super) fn carry_logic(&mut self, op: CarryOp, bit: u8, next: u16) -> Executed
        ensures { effect_of self.new result ≡ effect [] (Instr.CarryLogic op bit) next self.old }
    {
        let carry = self.cy;
        let (byte, read) = self.read(bit_location(bit));
        self.cy = carry_logical(op, carry, bit_of(byte, bit % 8));
        Executed::reading(next, read)
    }

    #[inline(always)]
    pub(super) fn mov_carry_bit(&mut self, bit: u8, next: u16) -> Executed
        ensures { effect_of self.new result ≡ effect [] (Instr.MovCarryBit bit) next self.old }
    {
        let (byte, read) = self.read(bit_location(bit));
        self.cy = bit_of(byte, bit % 8);
        Executed::reading(next, read)
    }

    #[inline(always)]
    pub(super) fn mov_bit_carry(&mut self, bit: u8, next: u16) -> Executed
        ensures { effect_of self.new result ≡ effect [] (Instr.MovBitCarry bit) next self.old }
    {
        let location = bit_location(bit);
        let byte = with_bit(self.held(location), bit % 8, self.cy);
        self.write_and_go(location, byte, next)
    }

    #[inline(always)]
    pub(super) fn change_bit(&mut self, op: BitChange, bit: u8, next: u16) -> Executed
        ensures { effect_of self.new result ≡ effect [] (Instr.ChangeBit op bit) next self.old }
    {
        let location = bit_location(bit);
        let byte = self.held(location);
        let on = changed(op, bit_of(byte, bit % 8));
        self.write_and_go(location, with_bit(byte, bit % 8, on), next)
    }

    #[inline(always)]
    fn branch_and_clear(&mut self, bit: u8, target: u16, next: u16) -> Executed
        ensures { effect_of self.new result ≡ branches_on_bit BitTest.Jbc bit target next self.old }
    {
        let location = bit_location(bit);
        let byte = self.held(location);
        if bit_of(byte, bit % 8) {
            self.write_and_go(location, with_bit(byte, bit % 8, false), target)
        } else {
            Executed::at(next)
        }
    }

    /// Goes to one address where the bit is 1 and to another where it is 0.
    #[inline(always)]
    fn branch_on_bit(&mut self, bit: u8, if_set: u16, if_clear: u16) -> Executed
        ensures { effect_of self.new result ≡ branches_on_bit BitTest.Jb bit if_set if_clear self.old }
    {
        let (byte, read) = self.read(bit_location(bit));
        Executed {
            pc: if bit_of(byte, bit % 8) {
                if_set
            } else {
                if_clear
            },
            read,
            write: None,
        }
    }

    /// JBC, JB and JNB with their target.
    #[inline(always)]
    pub(super) fn branch_bit(&mut self, op: BitTest, bit: u8, target: u16, next: u16) -> Executed
        ensures { effect_of self.new result ≡ branches_on_bit op bit target next self.old }
    {
        match op {
            BitTest::Jbc => self.branch_and_clear(bit, target, next),
            BitTest::Jb => self.branch_on_bit(bit, target, next),
            BitTest::Jnb => self.branch_on_bit(bit, next, target),
        }
    }

    // Whether an instruction is a JBC whose bit is 0. It writes nothing then.
    fn leaves_bit(&self, instr: Instr) -> bool
        ensures { result ≡ leaves_bit instr self.now }
    {
        match instr {
            Instr::BranchBit(BitTest::Jbc, bit, _) => {
                !bit_of(self.held(bit_location(bit)), bit % 8)
            }
            _ => false,
        }
    }

    /// Whether an instruction would show nothing.
    pub(crate) fn is_silent(&self, planned: Planned) -> bool
        ensures { result ≡ is_silent_planned planned self.now }
    {
        planned.label.is_none() && (!names_port(planned.instr) || self.leaves_bit(planned.instr))
    }
}
