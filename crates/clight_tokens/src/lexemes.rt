//! The longest of what can stand at a place of a source (ISO/IEC 9899:1999, 6.4).
ghost use Rattle.std.specs.Prelude.{◌≡◌, true, false, ◌<◌, ◌≤◌, ◌+◌, [], ◌∷◌, length, drop, slice_index, IfSome};
ghost use Rattle.clight_tokens.specs.Lexemes as s;
ghost use Rattle.clight_tokens.specs.Tokens as t;
ghost use Rattle.clight_tokens.specs.Code.Views as v;
ghost use Rattle.clight_tokens.specs.Code.Views.{test_of, kind_of, IsLexeme, IsLexemeAt, run_length};

use crate::bytes::{
    Pair, in_line, is_blank, is_digit, is_double, is_letter, is_pair, is_single, is_triple,
    is_word_byte,
};
use crate::constants::constant;

/// What can stand at a place.
#[derive(Clone, Copy)]
pub enum Kind {
    /// A blank, a tab or a line end.
    Blank,
    /// `//` and what follows it up to the line's end.
    LineComment,
    /// `/*` up to the next `*/`.
    BlockComment,
    /// `/*` with no `*/` behind it, up to the text's end.
    OpenComment,
    /// A name or a keyword.
    Word,
    /// A number, well formed or not.
    Number,
    /// An operator, a bracket, or another mark.
    Punctuator,
}

/// What stands at a place, and how many bytes it has.
#[derive(Clone, Copy)]
pub struct Lexeme {
    pub kind: Kind,
    pub len: usize,
}

// The end of the run of word bytes from a place.
fn word_end(rest: &[u8], from: usize) -> usize
    requires { from ≤ length rest.now }
    ensures { result ≡ from + run_length s.is_word_byte (drop from rest.now) }
{
    let mut end = from;
    while end < rest.len() && is_word_byte(rest[end]) {
        end += 1;
    }
    end
}

// The end of the line from a place.
fn line_end(rest: &[u8], from: usize) -> usize
    requires { from ≤ length rest.now }
    ensures { result ≡ from + run_length s.in_line (drop from rest.now) }
{
    let mut end = from;
    while end < rest.len() && in_line(rest[end]) {
        end += 1;
    }
    end
}

/// Where the first such pair stands, counted from a place.
pub fn find_pair(rest: &[u8], from: usize, pair: Pair) -> Option<usize>
    requires { from ≤ length rest.now }
    ensures value { t.first_pair (test_of pair) (drop from rest.now) ≡ result }
    ensures within { IfSome result (λ n. n + from + 2 ≤ length rest.now) }
{
    let mut at = from;
    while at + 1 < rest.len() {
        if is_pair(pair, rest[at], rest[at + 1]) {
            return Some(at - from);
        }
        at += 1;
    }
    None
}

/// The comment that begins there, if one does.
#[tactic(auto, using(crate::proofs::Places::places))]
fn comment(rest: &[u8]) -> Option<Lexeme>
    ensures { IsLexemeAt v.begins_comment rest.now result }
{
    if rest.len() < 2 || rest[0] != b'/' {
        return None;
    }
    match rest[1] {
        b'/' => Some(Lexeme {
            kind: Kind::LineComment,
            len: line_end(rest, 2),
        }),
        b'*' => Some(block(rest)),
        _ => None,
    }
}

// The comment that `/*` begins there.
#[tactic(auto, using(crate::proofs::Places::places))]
fn block(rest: &[u8]) -> Lexeme
    requires some { 1 < length rest.now }
    requires slash { slice_index rest.now 0 ≡ 47 }
    requires star { slice_index rest.now 1 ≡ 42 }
    ensures { s.IsLongest rest.now result.len (kind_of result.kind) }
{
    match find_pair(rest, 2, Pair::Close) {
        Some(n) => Lexeme {
            kind: Kind::BlockComment,
            len: n + 4,
        },
        None => Lexeme {
            kind: Kind::OpenComment,
            len: rest.len(),
        },
    }
}

// Whether a punctuator of three bytes stands there.
fn begins_triple(rest: &[u8]) -> bool
    ensures { result ≡ v.begins_triple rest.now }
{
    rest.len() > 2 && is_triple(rest[0], rest[1], rest[2])
}

// Whether a punctuator of two bytes stands there.
fn begins_double(rest: &[u8]) -> bool
    ensures { result ≡ v.begins_double rest.now }
{
    rest.len() > 1 && is_double(rest[0], rest[1])
}

// How many bytes the longest punctuator has that stands there.
#[tactic(auto, using(crate::proofs::Places::places))]
fn punctuator_len(rest: &[u8]) -> usize
    requires some { 0 < length rest.now }
    requires mark { s.is_punctuator (slice_index rest.now 0 ∷ []) ≡ true }
    requires comment { v.begins_comment rest.now ≡ false }
    ensures { s.IsLongest rest.now result s.Punctuator }
{
    if begins_triple(rest) {
        3
    } else if begins_double(rest) {
        2
    } else {
        1
    }
}

/// The longest of what can stand at the front, if something does.
#[tactic(auto, using(crate::proofs::Places::places))]
pub fn longest(rest: &[u8]) -> Option<Lexeme>
    requires { 0 < length rest.now }
    ensures { IsLexeme rest.now result }
{
    if let Some(found) = comment(rest) {
        return Some(found);
    }
    let b = rest[0];
    if is_blank(b) {
        Some(Lexeme {
            kind: Kind::Blank,
            len: 1,
        })
    } else if is_letter(b) {
        Some(Lexeme {
            kind: Kind::Word,
            len: word_end(rest, 1),
        })
    } else if is_digit(b) {
        Some(Lexeme {
            kind: Kind::Number,
            len: word_end(rest, 1),
        })
    } else if is_single(b) {
        Some(Lexeme {
            kind: Kind::Punctuator,
            len: punctuator_len(rest),
        })
    } else {
        None
    }
}

/// What is wrong with the first bytes, by its place in them.
pub fn flaw(found: Lexeme, rest: &[u8]) -> Option<usize>
    requires { found.len ≤ length rest.now }
    ensures value { result ≡ t.flaw (kind_of found.kind) found.len rest.now }
    ensures within { IfSome result (λ d. d ≤ length rest.now) }
{
    match found.kind {
        Kind::OpenComment => Some(0),
        Kind::Number => {
            if constant(&rest[..found.len]).is_some() {
                None
            } else {
                Some(0)
            }
        }
        Kind::LineComment => {
            let end = rest.len().min(found.len + 1);
            find_pair(&rest[..end], 0, Pair::Splice)
        }
        Kind::BlockComment => find_pair(&rest[..found.len], 0, Pair::Splice),
        _ => None,
    }
}
