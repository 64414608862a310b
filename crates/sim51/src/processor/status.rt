//! The program status word.

use super::Processor;
use crate::location::{bit_of, bit_value};

impl<'a> Processor<'a> {
    ghost use Rattle.std.specs.Prelude.{◌≡◌};
    ghost use Rattle.sim51.specs.Locations.{psw, with_psw};

    pub(super) fn psw(&self) -> u8
        ensures { result ≡ psw self.now }
    {
        128 * bit_value(self.cy)
            + 64 * bit_value(self.ac)
            + 32 * bit_value(self.f0)
            + 16 * bit_value(self.rs1)
            + 8 * bit_value(self.rs0)
            + 4 * bit_value(self.ov)
            + 2 * bit_value(self.user)
            + (self.acc.count_ones() % 2) as u8
    }

    pub(super) fn set_psw(&mut self, byte: u8)
        ensures { self.new ≡ with_psw self.old byte }
    {
        self.cy = bit_of(byte, 7);
        self.ac = bit_of(byte, 6);
        self.f0 = bit_of(byte, 5);
        self.rs1 = bit_of(byte, 4);
        self.rs0 = bit_of(byte, 3);
        self.ov = bit_of(byte, 2);
        self.user = bit_of(byte, 1);
    }
}
