//! Sums, differences, products, rotations and other operations on the accumulator.

use super::Processor;
use crate::location::{bit_of, bit_value};
use cerco_base::{add_carry, sub_borrow};
use mcs51_isa::{Adjustment, MulDiv, Rotate, SumOp};

impl<'a> Processor<'a> {
    ghost use Rattle.std.specs.Prelude.{◌≡◌};
    ghost use Rattle.sim51.specs.Effect.{added, subtracted, arithmetic, rotated, multiplied, low_adjusted, high_adjusted, adjusted};

    #[tactic(auto, unfolding(cerco_base::specs::Bytes::carries))]
    fn add(&mut self, byte: u8, carry: bool)
        ensures { self.new ≡ added self.old byte carry }
    {
        let (sum, out) = add_carry(self.acc, byte, carry);
        let carry = bit_value(carry) as u16;
        let into_top = (self.acc % 128) as u16 + (byte % 128) as u16 + carry >= 128;
        self.ac = (self.acc % 16) as u16 + (byte % 16) as u16 + carry >= 16;
        self.cy = out;
        self.ov = out != into_top;
        self.acc = sum;
    }

    #[tactic(auto, unfolding(cerco_base::specs::Bytes::borrows))]
    fn subtract(&mut self, byte: u8)
        ensures { self.new ≡ subtracted self.old byte }
    {
        let (difference, out) = sub_borrow(self.acc, byte, self.cy);
        let borrow = bit_value(self.cy) as u16;
        let from_top = ((self.acc % 128) as u16) < (byte % 128) as u16 + borrow;
        self.ac = ((self.acc % 16) as u16) < (byte % 16) as u16 + borrow;
        self.cy = out;
        self.ov = out != from_top;
        self.acc = difference;
    }

    /// A sum or difference of the accumulator and a byte.
    pub(super) fn arithmetic(&mut self, op: SumOp, byte: u8)
        ensures { self.new ≡ arithmetic op self.old byte }
    {
        match op {
            SumOp::Add => self.add(byte, false),
            SumOp::Addc => self.add(byte, self.cy),
            SumOp::Subb => self.subtract(byte),
        }
    }

    pub(super) fn rotate(&mut self, op: Rotate)
        ensures { self.new ≡ rotated op self.old }
    {
        let acc = self.acc;
        match op {
            Rotate::Rr => self.acc = acc / 2 + 128 * (acc % 2),
            Rotate::Rrc => {
                self.acc = acc / 2 + 128 * bit_value(self.cy);
                self.cy = bit_of(acc, 0);
            }
            Rotate::Rl => self.acc = (acc as u16 * 2 % 256) as u8 + acc / 128,
            Rotate::Rlc => {
                self.acc = (acc as u16 * 2 % 256) as u8 + bit_value(self.cy);
                self.cy = bit_of(acc, 7);
            }
        }
    }

    pub(super) fn multiply(&mut self, op: MulDiv)
        ensures { self.new ≡ multiplied op self.old }
    {
        match op {
            MulDiv::MulAb => {
                let product = self.acc as u16 * self.b as u16;
                self.acc = (product % 256) as u8;
                self.b = (product / 256) as u8;
                self.cy = false;
                self.ov = product > 255;
            }
            MulDiv::DivAb => {
                self.cy = false;
                if self.b == 0 {
                    self.ov = true;
                } else {
                    let quotient = self.acc / self.b;
                    let remainder = self.acc % self.b;
                    self.acc = quotient;
                    self.b = remainder;
                    self.ov = false;
                }
            }
        }
    }

    fn adjust_low(&mut self)
        ensures { self.new ≡ low_adjusted self.old }
    {
        if self.acc % 16 > 9 || self.ac {
            let sum = self.acc as u16 + 6;
            self.acc = (sum % 256) as u8;
            self.cy = self.cy || sum >= 256;
        }
    }

    fn adjust_high(&mut self)
        ensures { self.new ≡ high_adjusted self.old }
    {
        if self.acc / 16 > 9 || self.cy {
            let sum = self.acc as u16 + 0x60;
            self.acc = (sum % 256) as u8;
            self.cy = self.cy || sum >= 256;
        }
    }

    /// Exchanges the digits of the accumulator, or makes a sum decimal.
    pub(super) fn adjust(&mut self, op: Adjustment)
        ensures { self.new ≡ adjusted op self.old }
    {
        match op {
            Adjustment::Swap => self.acc = self.acc % 16 * 16 + self.acc / 16,
            Adjustment::Da => {
                self.adjust_low();
                self.adjust_high();
            }
        }
    }
}
