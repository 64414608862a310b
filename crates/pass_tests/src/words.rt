//! What the operators of RTLabs give on words of two bytes.

use cerco_middle::{CmOp, Held};

/// In how many bytes a scalar is held so.
pub fn bytes_of(held: Held) -> u32 {
    match held {
        Held::U8 => 1,
        Held::I8 => 1,
        Held::W16 => 2,
    }
}

/// The part of a word that is held so, as it is read.
pub fn kept(held: Held, x: u16) -> u16 {
    let low = x % 256;
    match held {
        Held::U8 => low,
        Held::I8 => { if low < 128 { low } else { low + 0xFF00 } }
        Held::W16 => x,
    }
}

fn flag(holds: bool) -> u16 {
    if holds { 1 } else { 0 }
}

// A word whose unsigned order is the signed order of this one.
fn lifted(x: u16) -> u16 {
    x.wrapping_add(0x8000)
}

// A quotient and a remainder, by 0 the dividend and 0.
fn divided(x: u16, y: u16) -> (u16, u16) {
    if y == 0 { (x, 0) } else { (x / y, x % y) }
}

/// What an operator gives.
pub fn value_of(operator: CmOp, x: u16, y: u16) -> u16 {
    match operator {
        CmOp::Add => x.wrapping_add(y),
        CmOp::Sub => x.wrapping_sub(y),
        CmOp::Mul => (x % 256).wrapping_mul(y % 256),
        CmOp::Div => divided(x % 256, y % 256).0,
        CmOp::Rem => divided(x % 256, y % 256).1,
        CmOp::And => x & y,
        CmOp::Or => x | y,
        CmOp::Xor => x ^ y,
        CmOp::Eq => flag(x == y),
        CmOp::Ne => flag(x != y),
        CmOp::LtS => flag(lifted(x) < lifted(y)),
        CmOp::LtU => flag(x < y),
        CmOp::LeS => flag(lifted(x) <= lifted(y)),
        CmOp::LeU => flag(x <= y),
    }
}

/// A word shifted left by so many bits.
pub fn shifted_left(bits: u8, x: u16) -> u16 {
    let mut shifted = x;
    for _ in 0..bits {
        shifted = shifted.wrapping_add(shifted);
    }
    shifted
}

/// A word shifted right by so many bits, with its sign where it is an arithmetic shift.
pub fn shifted_right(bits: u8, arithmetic: bool, x: u16) -> u16 {
    let sign = if arithmetic { x & 0x8000 } else { 0 };
    let mut shifted = x;
    for _ in 0..bits {
        shifted = shifted / 2 | sign;
    }
    shifted
}
