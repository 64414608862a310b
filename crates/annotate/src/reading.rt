//! The costs in an annotated text.
ghost use Rattle.std.specs.Prelude.{◌≡◌, ℕ, ◌≤◌, ◌^◌, Some, MatchOption, IsTrue, take_while};
ghost use Rattle.std.specs.Char.{is_ascii_digit};
ghost use Rattle.std.specs.List.{list_all};
ghost use Rattle.std.specs.Option.{option_map};
ghost use Rattle.std.specs.Str.Parse.{digits_value};
ghost use Rattle.annotate.specs.Numbers.{leading_cost, leading_number, number, numbers_in};
ghost use Rattle.annotate.specs.Code.Reading.{IsSoughtIn, capped};

use crate::cuts::first_annotation;

// What is told of all numbers that are no `u32`.
const TOO_LARGE: u64 = 1 << 32;

// The value of digits, capped.
fn value_of(digits: &[u8]) -> u64
    requires { IsTrue (list_all is_ascii_digit digits.now) }
    ensures { result ≡ capped (digits_value 10 digits.now) }
{
    let mut value = 0;
    for digit in digits {
        value = TOO_LARGE.min(value * 10 + u64::from(*digit - b'0'));
    }
    value
}

// The digits that a text begins with.
fn leading_digits(text: &[u8]) -> &[u8]
    ensures { result.now ≡ take_while is_ascii_digit text.now }
{
    for (at, byte) in text.iter().enumerate() {
        if !byte.is_ascii_digit() {
            return &text[..at];
        }
    }
    text
}

// The decimal number that a text begins with, capped.
fn leading_number(text: &[u8]) -> Option<u64>
    ensures { result ≡ option_map capped (leading_number text.now) }
{
    let digits = leading_digits(text);
    if digits.is_empty() || digits.len() > 1 && digits[0] == b'0' {
        return None;
    }
    Some(value_of(digits))
}

// The number directly after `__cost=` or `__cost+=`, capped, where a text begins so.
fn leading_cost(text: &[u8]) -> Option<u64>
    ensures { result ≡ option_map capped (leading_cost text.now) }
{
    if text.starts_with(b"__cost=") {
        return leading_number(&text[7..]);
    }
    if text.starts_with(b"__cost+=") {
        return leading_number(&text[8..]);
    }
    None
}

// How a search for the number with some place goes.
enum Sought {
    // It is this one, capped.
    Found(u64),
    // It is later, and this many numbers come before it there.
    Later(u32),
}

// Looks for a number in an annotation, before which `skipped` other numbers come.
fn seek(annotation: &[u8], skipped: u32) -> Sought
    ensures { IsSoughtIn (numbers_in annotation.now) skipped result }
{
    let mut left = skipped;
    for at in 0..annotation.len() {
        if let Some(cost) = leading_cost(&annotation[at..]) {
            if left == 0 {
                return Sought::Found(cost);
            }
            left -= 1;
        }
    }
    Sought::Later(left)
}

/// The number with a place in an annotated text, in the order in which they stand there: number 0 is
/// the cost of the start, and number l + 1 that of label l. None where the text has no such number or
/// one that exceeds a `u32`. It takes no memory.
pub fn read_cost(text: &[u8], i: u32) -> Option<u32>
    ensures { MatchOption result ((n : ℕ) → number text.now i ≡ Some n → 2 ^ 32 ≤ n)
        (λ cost. number text.now i ≡ Some cost) }
{
    let mut rest = text;
    let mut skipped = i;
    while let Some(cut) = first_annotation(rest) {
        match seek(cut.annotation, skipped) {
            Sought::Found(cost) => return u32::try_from(cost).ok(),
            Sought::Later(left) => skipped = left,
        }
        rest = cut.rest;
    }
    None
}
