//! A plain machine for byte operations: bytes under the numbers of virtual registers, and a carry.

use rtl::{Arith, ByteOp, Src, Vreg};

/// How many virtual registers the machine has.
const SIZE: usize = 64;

/// The bytes at virtual registers, and the carry.
#[derive(Drop)]
pub struct Machine {
    bytes: [u8; 64],
    carry: bool,
}

impl Machine {
    /// All bytes are 0, and the carry is clear.
    pub fn new() -> Machine {
        Machine {
            bytes: [0; 64],
            carry: false,
        }
    }

    fn at(&self, v: Vreg) -> u8 {
        let i = v.0 as usize;
        if i < SIZE { self.bytes[i] } else { 0 }
    }

    fn set(&mut self, v: Vreg, byte: u32) {
        let i = v.0 as usize;
        if i < SIZE {
            self.bytes[i] = (byte % 256) as u8;
        }
    }

    fn source(&self, x: Src<Vreg>) -> u32 {
        match x {
            Src::At(v) => self.at(v) as u32,
            Src::Byte(byte) => byte as u32,
        }
    }

    fn arith(&mut self, operation: Arith, d: Vreg, a: u32, b: u32) {
        let carry = if self.carry { 1 } else { 0 };
        match operation {
            Arith::Add => {
                self.set(d, a % 256 + b % 256);
                self.carry = 256 <= a % 256 + b % 256;
            }
            Arith::Addc => {
                self.set(d, a % 256 + b % 256 + carry);
                self.carry = 256 <= a % 256 + b % 256 + carry;
            }
            Arith::Subb => {
                self.set(d, 512 + a % 256 - b % 256 - carry);
                self.carry = a % 256 < b % 256 + carry;
            }
            Arith::And => self.set(d, a & b),
            Arith::Or => self.set(d, a | b),
            Arith::Xor => self.set(d, a ^ b),
        }
    }

    fn turn_right(&mut self, d: Vreg, a: u8) {
        let high = if self.carry { 128 } else { 0 };
        self.set(d, a as u32 / 2 + high);
        self.carry = a % 2 == 1;
    }

    /// One operation. Those on external RAM and the port, and those that no operation on words needs, do nothing.
    pub fn make(&mut self, op: &ByteOp<Vreg>) {
        match op {
            ByteOp::Const(d, byte) => self.set(*d, *byte as u32),
            ByteOp::Move(d, s) => {
                let byte = self.at(*s);
                self.set(*d, byte as u32);
            }
            ByteOp::Op(operation, d, a, b) => {
                let left = self.source(*a);
                let right = self.source(*b);
                self.arith(*operation, *d, left, right);
            }
            ByteOp::Rrc(d, a) => {
                let byte = self.at(*a);
                self.turn_right(*d, byte);
            }
            ByteOp::Top(a) => self.carry = 128 <= self.at(*a),
            ByteOp::ClearCarry => self.carry = false,
            ByteOp::SetCarry => self.carry = true,
            ByteOp::FlipCarry => self.carry = !self.carry,
            ByteOp::FromCarry(d) => {
                let byte = if self.carry { 1 } else { 0 };
                self.set(*d, byte);
                self.carry = false;
            }
            _ => {}
        }
    }

    /// The temporary with this number becomes a value.
    pub fn put(&mut self, temporary: u32, value: u16) {
        self.set(Vreg(27 + 4 * (temporary % 8)), value as u32 % 256);
        self.set(Vreg(28 + 4 * (temporary % 8)), value as u32 / 256);
    }

    /// The value of the temporary with this number.
    pub fn get(&self, temporary: u32) -> u16 {
        let low = self.at(Vreg(27 + 4 * (temporary % 8))) as u16;
        let high = self.at(Vreg(28 + 4 * (temporary % 8))) as u16;
        low + 256 * high
    }
}
