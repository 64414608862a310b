//! Integer constants (ISO/IEC 9899:1999, 6.4.4.1).
ghost use Rattle.std.specs.Prelude.{◌≡◌, ◌<◌, ◌≤◌, ◌^◌, map, length, Some, None, OnSome, IfSome};
ghost use Rattle.std.specs.List.{list_all};
ghost use Rattle.clight_tokens.specs.Constants as s;
ghost use Rattle.clight_tokens.specs.Code.Views.{IsValue};

use clight_source::{Literal, Radix};

/// The largest value of a constant.
const LARGEST: u32 = 65535;

fn base(radix: Radix) -> u32
    ensures value { result ≡ s.base radix }
    ensures bound { result ≤ 16 }
{
    match radix {
        Radix::Decimal => 10,
        Radix::Octal => 8,
        Radix::Hexadecimal => 16,
    }
}

// The value of a byte as a digit, 16 where it is none.
fn digit_value(b: u8) -> u32
    ensures value { result ≡ s.digit_value b }
    ensures bound { result ≤ 16 }
{
    match b {
        b'0'..=b'9' => b as u32 - 48,
        b'A'..=b'F' => b as u32 - 55,
        b'a'..=b'f' => b as u32 - 87,
        _ => 16,
    }
}

fn is_unsigned(text: &[u8]) -> bool
    ensures { result ≡ s.is_unsigned text.now }
{
    match text.last() {
        Some(b) => *b == b'u' || *b == b'U',
        None => false,
    }
}

fn without_suffix(text: &[u8]) -> &[u8]
    ensures { result.now ≡ s.without_suffix text.now }
{
    if is_unsigned(text) && !text.is_empty() {
        &text[..text.len() - 1]
    } else {
        text
    }
}

fn radix_of(text: &[u8]) -> Radix
    ensures { result ≡ s.radix_of text.now }
{
    if text.len() < 2 || text[0] != b'0' {
        return Radix::Decimal;
    }
    if text[1] == b'x' || text[1] == b'X' {
        Radix::Hexadecimal
    } else {
        Radix::Octal
    }
}

fn digits_of(radix: Radix, text: &[u8]) -> &[u8]
    ensures { result.now ≡ s.digits_of radix text.now }
{
    match radix {
        Radix::Hexadecimal => { if text.len() < 2 { b"" } else { &text[2..] } }
        Radix::Decimal | Radix::Octal => text,
    }
}

// The value of these digits, where they are digits of the radix, and it is at most 65,535.
fn value(radix: Radix, digits: &[u8]) -> Option<u32>
    ensures { IsValue radix (map s.digit_value digits.now) result }
{
    if digits.is_empty() {
        return None;
    }
    let base = base(radix);
    let mut value = 0;
    for b in digits {
        let digit = digit_value(*b);
        if digit >= base {
            return None;
        }
        value = value * base + digit;
        if value > LARGEST {
            return None;
        }
    }
    Some(value)
}

/// The constant that the text is, if it is one.
pub fn constant(text: &[u8]) -> Option<Literal>
    ensures { result ≡ s.constant_of text.now }
{
    let body = without_suffix(text);
    let radix = radix_of(body);
    let value = value(radix, digits_of(radix, body))?;
    Some(Literal {
        value,
        radix,
        unsigned: is_unsigned(text),
    })
}
