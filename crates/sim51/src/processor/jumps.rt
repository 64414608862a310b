//! Calls, returns, and jumps that compare or count.

use super::Processor;
use crate::executed::Executed;
use crate::location::location_of;
use crate::operations::stepped;
use mcs51_isa::{Addr11, ByOne, FlagTest, Ind, Instr, LongJump, Reg, ReturnKind, relative_target};

impl<'a> Processor<'a> {
    ghost use Rattle.std.specs.Prelude.{◌≡◌, []};
    ghost use Rattle.sim51.specs.Effect.{effect, compares, flag_holds};
    ghost use Rattle.sim51.specs.Code.Slots.{effect_of};

    #[inline(always)]
    pub(super) fn acall(&mut self, target: Addr11, next: u16) -> Executed
        ensures { effect_of self.new result ≡ effect [] (Instr.Acall target) next self.old }
    {
        self.push_address(next);
        Executed::at(target.target(next))
    }

    #[inline(always)]
    pub(super) fn lcall(&mut self, target: u16, next: u16) -> Executed
        ensures { effect_of self.new result ≡ effect [] (Instr.Long LongJump.Lcall target) next self.old }
    {
        self.push_address(next);
        Executed::at(target)
    }

    #[inline(always)]
    pub(super) fn return_from(&mut self, kind: ReturnKind, next: u16) -> Executed
        ensures { effect_of self.new result ≡ effect [] (Instr.Ret kind) next self.old }
    {
        let high = self.pop();
        let low = self.pop();
        Executed::at(256 * high as u16 + low as u16)
    }

    fn flag_holds(&self, test: FlagTest) -> bool
        ensures { result ≡ flag_holds test self.now }
    {
        match test {
            FlagTest::Jc => self.cy,
            FlagTest::Jnc => !self.cy,
            FlagTest::Jz => self.acc == 0,
            FlagTest::Jnz => self.acc != 0,
        }
    }

    #[inline(always)]
    pub(super) fn branch_flag(&mut self, test: FlagTest, offset: u8, next: u16) -> Executed
        ensures { effect_of self.new result ≡ effect [] (Instr.BranchFlag test offset) next self.old }
    {
        let pc = if self.flag_holds(test) {
            relative_target(next, offset)
        } else {
            next
        };
        Executed::at(pc)
    }

    #[inline(always)]
    pub(super) fn jmp_indirect(&mut self, next: u16) -> Executed
        ensures { effect_of self.new result ≡ effect [] Instr.JmpIndirect next self.old }
    {
        Executed::at(self.dptr().wrapping_add(self.acc as u16))
    }

    #[inline(always)]
    fn compare(&mut self, a: u8, b: u8, target: u16, next: u16) -> Executed
        ensures { effect_of self.new result ≡ compares a b target next self.old }
    {
        self.cy = a < b;
        Executed::at(if a == b { next } else { target })
    }

    #[inline(always)]
    pub(super) fn cjne_immediate(&mut self, value: u8, offset: u8, next: u16) -> Executed
        ensures { effect_of self.new result ≡ effect [] (Instr.CjneImmediate value offset) next self.old }
    {
        let acc = self.acc;
        self.compare(acc, value, relative_target(next, offset), next)
    }

    #[inline(always)]
    pub(super) fn cjne_direct(&mut self, direct: u8, offset: u8, next: u16) -> Executed
        ensures { effect_of self.new result ≡ effect [] (Instr.CjneDirect direct offset) next self.old }
    {
        let acc = self.acc;
        let (byte, read) = self.read(location_of(direct));
        let compared = self.compare(acc, byte, relative_target(next, offset), next);
        Executed {
            pc: compared.pc,
            read,
            write: None,
        }
    }

    #[inline(always)]
    pub(super) fn cjne_indirect(&mut self, ind: Ind, value: u8, offset: u8, next: u16) -> Executed
        ensures { effect_of self.new result ≡ effect [] (Instr.CjneIndirect ind value offset) next self.old }
    {
        let byte = self.indirect(ind);
        self.compare(byte, value, relative_target(next, offset), next)
    }

    #[inline(always)]
    pub(super) fn cjne_register(&mut self, reg: Reg, value: u8, offset: u8, next: u16) -> Executed
        ensures { effect_of self.new result ≡ effect [] (Instr.CjneRegister reg value offset) next self.old }
    {
        let byte = self.register(reg);
        self.compare(byte, value, relative_target(next, offset), next)
    }

    #[inline(always)]
    pub(super) fn djnz_direct(&mut self, direct: u8, offset: u8, next: u16) -> Executed
        ensures { effect_of self.new result ≡ effect [] (Instr.DjnzDirect direct offset) next self.old }
    {
        let location = location_of(direct);
        let byte = stepped(ByOne::Dec, self.held(location));
        let pc = if byte == 0 {
            next
        } else {
            relative_target(next, offset)
        };
        self.write_and_go(location, byte, pc)
    }

    #[inline(always)]
    pub(super) fn djnz_register(&mut self, reg: Reg, offset: u8, next: u16) -> Executed
        ensures { effect_of self.new result ≡ effect [] (Instr.DjnzRegister reg offset) next self.old }
    {
        let byte = stepped(ByOne::Dec, self.register(reg));
        self.set_register(reg, byte);
        let pc = if byte == 0 {
            next
        } else {
            relative_target(next, offset)
        };
        Executed::at(pc)
    }
}
