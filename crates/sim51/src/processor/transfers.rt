//! The instructions that read and write external RAM, and MOVC, which reads the code.

use super::Processor;
use crate::code::byte_at;
use crate::executed::Executed;
use mcs51_isa::{Ind, Instr, Move, TableBase};

impl<'a> Processor<'a> {
    ghost use Rattle.std.specs.Prelude.{◌≡◌, []};
    ghost use Rattle.sim51.specs.Effect.{effect};
    ghost use Rattle.sim51.specs.Code.Slots.{effect_of};

    #[inline(always)]
    pub(super) fn load_external(&mut self, next: u16) -> Executed
        ensures { effect_of self.new result ≡ effect [] (Instr.MovxDptr Move.IntoAcc) next self.old }
    {
        self.acc = self.xram[self.dptr() as usize];
        Executed::at(next)
    }

    #[inline(always)]
    pub(super) fn store_external(&mut self, next: u16) -> Executed
        ensures { effect_of self.new result ≡ effect [] (Instr.MovxDptr Move.FromAcc) next self.old }
    {
        let address = self.dptr();
        let acc = self.acc;
        self.xram[address as usize] = acc;
        Executed::at(next)
    }

    #[inline(always)]
    pub(super) fn load_external_indirect(&mut self, ind: Ind, next: u16) -> Executed
        ensures { effect_of self.new result ≡ effect [] (Instr.MovxIndirect Move.IntoAcc ind) next self.old }
    {
        self.acc = self.xram[self.external_pointer(ind) as usize];
        Executed::at(next)
    }

    #[inline(always)]
    pub(super) fn store_external_indirect(&mut self, ind: Ind, next: u16) -> Executed
        ensures { effect_of self.new result ≡ effect [] (Instr.MovxIndirect Move.FromAcc ind) next self.old }
    {
        let address = self.external_pointer(ind);
        let acc = self.acc;
        self.xram[address as usize] = acc;
        Executed::at(next)
    }

    #[inline(always)]
    pub(super) fn load_code(&mut self, code: &[u8], base: TableBase, next: u16) -> Executed
        ensures { effect_of self.new result ≡ effect code.now (Instr.Movc base) next self.old }
    {
        let base = match base {
            TableBase::Pc => next,
            TableBase::Dptr => self.dptr(),
        };
        self.acc = byte_at(code, base.wrapping_add(self.acc as u16));
        Executed::at(next)
    }
}
