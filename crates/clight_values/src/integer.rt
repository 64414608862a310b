//! The arithmetic of integers, by the bits of their types (ISO/IEC 9899:1999, 6.3.1 and 6.5.3 to 6.5.12).
ghost use Rattle.std.specs.Prelude.{◌≡◌, ◌<◌, ◌≤◌, ◌^◌, ◌%◌, ◌/◌, false};
ghost use Rattle.c_types.specs.declared.integers.Size.TheVariants.{One};
ghost use Rattle.c_types.specs.Conversions as c;
ghost use Rattle.clight_values.specs.Values as v;

use crate::value::Value;
use c_types::{IntegerType, Size};
use cerco_base::FaultKind;
use clight_source::tree::BinaryOperator;

// How many values a type has.
fn count(ty: IntegerType) -> u64
    ensures value { result ≡ c.count ty.size }
    ensures some { 0 < result }
    ensures few { result ≤ 2 ^ 32 }
{
    match ty.size {
        Size::One => 0x100,
        Size::Two => 0x1_0000,
        Size::Four => 0x1_0000_0000,
    }
}

// How many of them aren't negative in a signed type.
fn half(ty: IntegerType) -> u64
    ensures value { result ≡ v.half ty.size }
    ensures few { result < 2 ^ 33 }
{
    match ty.size {
        Size::One => 0x80,
        Size::Two => 0x8000,
        Size::Four => 0x8000_0000,
    }
}

/// Whether a value of this type is negative.
pub fn is_negative(ty: IntegerType, x: u32) -> bool
    ensures { result ≡ v.is_negative ty x }
{
    ty.signed && half(ty) <= u64::from(x)
}

/// How far a value of this type is from 0.
pub fn magnitude(ty: IntegerType, x: u32) -> u64
    ensures value { result ≡ v.magnitude ty x }
    ensures few { result ≤ 2 ^ 32 }
{
    if is_negative(ty, x) {
        count(ty).saturating_sub(u64::from(x))
    } else {
        u64::from(x)
    }
}

// The whole number with this magnitude, negative or not.
fn from_magnitude(ty: IntegerType, negative: bool, n: u64) -> u32
    ensures { result ≡ v.from_magnitude ty negative n }
{
    let n = if negative {
        count(ty).saturating_sub(n)
    } else {
        n
    };
    wrapped(ty, n)
}

// Modulo what a type can hold.
fn wrapped(ty: IntegerType, n: u64) -> u32
    ensures { result ≡ n % c.count ty.size }
{
    (n % count(ty)) as u32
}

/// A value of this type in another.
pub fn converted(ty: IntegerType, to: IntegerType, x: u32) -> u32
    ensures { result ≡ v.converted ty to x }
{
    let wide = if is_negative(ty, x) {
        u64::from(x) + (0x1_0000_0000 - count(ty))
    } else {
        u64::from(x)
    };
    wrapped(to, wide)
}

/// A value of this type as an `unsigned char`.
pub fn low_byte(ty: IntegerType, x: u32) -> u8
    ensures { result ≡ v.converted ty (record { size = One; signed = false }) x }
{
    let to = IntegerType {
        size: Size::One,
        signed: false,
    };
    (converted(ty, to, x) % 0x100) as u8
}

fn sum(ty: IntegerType, x: u32, y: u32) -> u32
    ensures { result ≡ v.sum ty x y }
{
    wrapped(ty, u64::from(x) + u64::from(y))
}

/// The difference of two values of this type.
pub fn difference(ty: IntegerType, x: u32, y: u32) -> u32
    ensures { result ≡ v.difference ty x y }
{
    wrapped(ty, u64::from(x) + count(ty).saturating_sub(u64::from(y)))
}

fn product(ty: IntegerType, x: u32, y: u32) -> u32
    ensures { result ≡ v.product ty x y }
{
    wrapped(ty, u64::from(x) * u64::from(y))
}

fn quotient(ty: IntegerType, x: u32, y: u32) -> Result<Value, FaultKind>
    ensures { result ≡ v.quotient ty x y }
{
    let divisor = magnitude(ty, y);
    if divisor == 0 {
        return Err(FaultKind::Zero);
    }
    let negative = is_negative(ty, x) != is_negative(ty, y);
    Ok(Value::Integer(from_magnitude(ty, negative, magnitude(ty, x) / divisor)))
}

fn remainder(ty: IntegerType, x: u32, y: u32) -> Result<Value, FaultKind>
    ensures { result ≡ v.remainder ty x y }
{
    let divisor = magnitude(ty, y);
    if divisor == 0 {
        return Err(FaultKind::Zero);
    }
    Ok(Value::Integer(from_magnitude(ty, is_negative(ty, x), magnitude(ty, x) % divisor)))
}

/// The complement of a value of this type.
pub fn complement(ty: IntegerType, x: u32) -> u32
    ensures { result ≡ v.complement ty x }
{
    (count(ty) - 1).saturating_sub(u64::from(x)) as u32
}

fn shifted_left(ty: IntegerType, x: u32, by: u32) -> u32
    ensures { result ≡ v.shifted_left ty x by }
{
    if by < 32 {
        wrapped(ty, u64::from(x) << by)
    } else {
        0
    }
}

fn shifted_right(ty: IntegerType, x: u32, by: u32) -> u32
    ensures { result ≡ v.shifted_right ty x by }
{
    if is_negative(ty, x) {
        complement(ty, shifted(complement(ty, x), by))
    } else {
        shifted(x, by)
    }
}

// What the order of values is that of.
fn ordered_bits(ty: IntegerType, x: u32) -> u32
    ensures { result ≡ v.ordered_bits ty x }
{
    if ty.signed {
        wrapped(ty, u64::from(x) + half(ty))
    } else {
        x
    }
}

fn is_less(ty: IntegerType, x: u32, y: u32) -> bool
    ensures { result ≡ v.is_less ty x y }
{
    ordered_bits(ty, x) < ordered_bits(ty, y)
}

// An operator but a shift, on values of this type.
fn calculated(operator: BinaryOperator, ty: IntegerType, x: u32, y: u32) -> Result<Value, FaultKind>
    ensures { result ≡ v.calculated operator ty x y }
{
    match operator {
        BinaryOperator::BitOr => Ok(Value::Integer(x | y)),
        BinaryOperator::BitXor => Ok(Value::Integer(x ^ y)),
        BinaryOperator::BitAnd => Ok(Value::Integer(x & y)),
        BinaryOperator::Equal => Ok(truth(x == y)),
        BinaryOperator::NotEqual => Ok(truth(x != y)),
        BinaryOperator::Less => Ok(truth(is_less(ty, x, y))),
        BinaryOperator::Greater => Ok(truth(is_less(ty, y, x))),
        BinaryOperator::LessOrEqual => Ok(truth(!is_less(ty, y, x))),
        BinaryOperator::GreaterOrEqual => Ok(truth(!is_less(ty, x, y))),
        BinaryOperator::Add => Ok(Value::Integer(sum(ty, x, y))),
        BinaryOperator::Subtract => Ok(Value::Integer(difference(ty, x, y))),
        BinaryOperator::Multiply => Ok(Value::Integer(product(ty, x, y))),
        BinaryOperator::Divide => quotient(ty, x, y),
        BinaryOperator::Remainder => remainder(ty, x, y),
        _ => Err(FaultKind::Outside),
    }
}

fn shifted(x: u32, by: u32) -> u32
    ensures { result ≡ x / 2 ^ by }
{
    if by < 32 { x >> by } else { 0 }
}

/// 1 or 0.
pub fn truth(b: bool) -> Value
    ensures { result ≡ v.truth b }
{
    Value::Integer(u32::from(b))
}

/// An operator on values of two integer types.
pub fn combined(
    operator: BinaryOperator,
    left: IntegerType,
    right: IntegerType,
    x: u32,
    y: u32,
) -> Result<Value, FaultKind>
    ensures { result ≡ v.combined operator left right x y }
{
    match operator {
        BinaryOperator::ShiftLeft => {
            let promoted = left.promoted();
            Ok(Value::Integer(shifted_left(promoted, converted(left, promoted, x), y)))
        }
        BinaryOperator::ShiftRight => {
            let promoted = left.promoted();
            Ok(Value::Integer(shifted_right(promoted, converted(left, promoted, x), y)))
        }
        _ => {
            let common = left.common(right);
            let x = converted(left, common, x);
            let y = converted(right, common, y);
            calculated(operator, common, x, y)
        }
    }
}
