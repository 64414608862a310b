//! The instructions with a direct address.

use super::Processor;
use crate::executed::Executed;
use crate::location::{Location, location_of};
use crate::operations::{logical, stepped};
use mcs51_isa::{ByOne, Ind, Instr, Logic, Move, Reg, StackOp, SumOp};

impl<'a> Processor<'a> {
    ghost use Rattle.std.specs.Prelude.{◌≡◌, []};
    ghost use Rattle.sim51.specs.Effect.{effect, writes, exchanged};
    ghost use Rattle.sim51.specs.Locations.{read_event, write_event};
    ghost use Rattle.sim51.specs.Code.Slots.{effect_of};

    /// Writes a byte at a location and goes on.
    #[inline(always)]
    pub(super) fn write_and_go(&mut self, location: Location, byte: u8, pc: u16) -> Executed
        ensures { effect_of self.new result ≡ writes location byte pc self.old }
    {
        let write = self.write(location, byte);
        Executed {
            pc,
            read: None,
            write,
        }
    }

    #[inline(always)]
    pub(super) fn step_direct(&mut self, op: ByOne, direct: u8, next: u16) -> Executed
        ensures { effect_of self.new result ≡ effect [] (Instr.StepDirect op direct) next self.old }
    {
        let location = location_of(direct);
        let byte = stepped(op, self.held(location));
        self.write_and_go(location, byte, next)
    }

    #[inline(always)]
    pub(super) fn arith_direct(&mut self, op: SumOp, direct: u8, next: u16) -> Executed
        ensures { effect_of self.new result ≡ effect [] (Instr.ArithDirect op direct) next self.old }
    {
        let (byte, read) = self.read(location_of(direct));
        self.arithmetic(op, byte);
        Executed::reading(next, read)
    }

    #[inline(always)]
    pub(super) fn logic_direct_acc(&mut self, op: Logic, direct: u8, next: u16) -> Executed
        ensures { effect_of self.new result ≡ effect [] (Instr.LogicDirectAcc op direct) next self.old }
    {
        let location = location_of(direct);
        let byte = logical(op, self.held(location), self.acc);
        self.write_and_go(location, byte, next)
    }

    #[inline(always)]
    pub(super) fn logic_direct_immediate(
        &mut self,
        op: Logic,
        direct: u8,
        value: u8,
        next: u16,
    ) -> Executed
        ensures { effect_of self.new result ≡ effect [] (Instr.LogicDirectImmediate op direct value) next self.old }
    {
        let location = location_of(direct);
        let byte = logical(op, self.held(location), value);
        self.write_and_go(location, byte, next)
    }

    #[inline(always)]
    pub(super) fn logic_direct(&mut self, op: Logic, direct: u8, next: u16) -> Executed
        ensures { effect_of self.new result ≡ effect [] (Instr.LogicDirect op direct) next self.old }
    {
        let acc = self.acc;
        let (byte, read) = self.read(location_of(direct));
        self.acc = logical(op, acc, byte);
        Executed::reading(next, read)
    }

    #[inline(always)]
    pub(super) fn mov_direct_immediate(&mut self, direct: u8, value: u8, next: u16) -> Executed
        ensures { effect_of self.new result ≡ effect [] (Instr.MovDirectImmediate direct value) next self.old }
    {
        self.write_and_go(location_of(direct), value, next)
    }

    #[inline(always)]
    pub(super) fn mov_direct_direct(&mut self, source: u8, target: u8, next: u16) -> Executed
        ensures { effect_of self.new result ≡ effect [] (Instr.MovDirectDirect source target) next self.old }
    {
        let (byte, read) = self.read(location_of(source));
        let write = self.write(location_of(target), byte);
        Executed {
            pc: next,
            read,
            write,
        }
    }

    #[inline(always)]
    pub(super) fn mov_direct_indirect(&mut self, direct: u8, ind: Ind, next: u16) -> Executed
        ensures { effect_of self.new result ≡ effect [] (Instr.MovDirectIndirect direct ind) next self.old }
    {
        let byte = self.indirect(ind);
        self.write_and_go(location_of(direct), byte, next)
    }

    #[inline(always)]
    pub(super) fn mov_direct_register(&mut self, direct: u8, reg: Reg, next: u16) -> Executed
        ensures { effect_of self.new result ≡ effect [] (Instr.MovDirectRegister direct reg) next self.old }
    {
        let byte = self.register(reg);
        self.write_and_go(location_of(direct), byte, next)
    }

    #[inline(always)]
    pub(super) fn load_direct(&mut self, direct: u8, next: u16) -> Executed
        ensures { effect_of self.new result ≡ effect [] (Instr.MovDirect Move.IntoAcc direct) next self.old }
    {
        let (byte, read) = self.read(location_of(direct));
        self.acc = byte;
        Executed::reading(next, read)
    }

    #[inline(always)]
    pub(super) fn store_direct(&mut self, direct: u8, next: u16) -> Executed
        ensures { effect_of self.new result ≡ effect [] (Instr.MovDirect Move.FromAcc direct) next self.old }
    {
        let acc = self.acc;
        self.write_and_go(location_of(direct), acc, next)
    }

    #[inline(always)]
    fn exchange(&mut self, location: Location, next: u16) -> Executed
        ensures { effect_of self.new result ≡ record { core = exchanged self.old location; pc = next; read = read_event self.old location; write = write_event location self.old.acc } }
    {
        let acc = self.acc;
        let (byte, read) = self.read(location);
        let write = self.write(location, acc);
        self.acc = byte;
        Executed {
            pc: next,
            read,
            write,
        }
    }

    #[inline(always)]
    pub(super) fn xch_direct(&mut self, direct: u8, next: u16) -> Executed
        ensures { effect_of self.new result ≡ effect [] (Instr.XchDirect direct) next self.old }
    {
        self.exchange(location_of(direct), next)
    }

    #[inline(always)]
    pub(super) fn push_direct(&mut self, direct: u8, next: u16) -> Executed
        ensures { effect_of self.new result ≡ effect [] (Instr.Stack StackOp.Push direct) next self.old }
    {
        self.raise();
        let (byte, read) = self.read(location_of(direct));
        self.set_top(byte);
        Executed::reading(next, read)
    }

    #[inline(always)]
    pub(super) fn pop_direct(&mut self, direct: u8, next: u16) -> Executed
        ensures { effect_of self.new result ≡ effect [] (Instr.Stack StackOp.Pop direct) next self.old }
    {
        let byte = self.pop();
        self.write_and_go(location_of(direct), byte, next)
    }
}
