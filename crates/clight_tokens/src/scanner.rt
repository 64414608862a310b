//! Divides a source into its tokens.
ghost use Rattle.std.specs.Prelude.{ℕ, List, ◌≡◌, ◌<◌, ◌++◌, ◌∷◌, [], length, map, take, drop, ◌≤◌, IfOk, IfErr, OnOk, IsOk, MatchOption, Some, None};
ghost use Rattle.cerco_base.specs.declared.reasons.Fault.TheVariants as Fault;
ghost use Rattle.cerco_base.specs.declared.reasons.Reason.{Reason};
ghost use Rattle.clight_source.specs.Markers.{HasNoMarker};
ghost use Rattle.clight_tokens.specs.Tokens.{Token, TokensFrom, FaultFrom, HasFault, HasTokens, HasSourceBytes, IsFirstMarker, IsFirstWrongByte};
ghost use Rattle.clight_tokens.specs.Code.Views.{kind_of};
ghost use Rattle.clight_tokens.specs.Code.TokenViews.{token_of, kept, AllSourceBytes, IsScanFault};
ghost use Rattle.clight_tokens.specs.Tokens as s;

use crate::bytes::is_source_byte;
use crate::lexemes::{Kind, flaw, longest};
use crate::token_list::{Token, TokenList};
use cerco_base::{Fault, Reason};
use clight_source::Span;
use std::alloc::{AllocError, Global};

fn is_token(kind: Kind) -> bool
    ensures { result ≡ s.is_token (kind_of kind) }
{
    match kind {
        Kind::Word | Kind::Number | Kind::Punctuator => true,
        Kind::Blank | Kind::LineComment | Kind::BlockComment | Kind::OpenComment => false,
    }
}

// Adds a token, where it is one.
fn keep<'a>(all: &mut Vec<Token<'a>>, kind: Kind, token: Token<'a>) -> Result<(), AllocError>
    ensures { OnOk result (map token_of all.new.items ≡ map token_of all.old.items ++ kept (kind_of kind) (token_of token.entry)) }
{
    if is_token(kind) {
        all.push(token)?;
    }
    Ok(())
}

// The bytes from a place on.
fn from(text: &[u8], at: usize) -> &[u8]
    requires { at ≤ length text.now }
    ensures { result.now ≡ drop at text.now }
{
    &text[at..]
}

// The first bytes.
fn front(text: &[u8], len: usize) -> &[u8]
    requires { len ≤ length text.now }
    ensures { result.now ≡ take len text.now }
{
    &text[..len]
}

// The place of the first byte that no source has.
fn wrong_byte(text: &[u8]) -> Option<usize>
    ensures { MatchOption result (AllSourceBytes text.now) (IsFirstWrongByte text.now) }
{
    for (at, b) in text.iter().enumerate() {
        if !is_source_byte(*b) {
            return Some(at);
        }
    }
    None
}

// The place of the first `/*@`.
fn marker(text: &[u8]) -> Option<usize>
    ensures { MatchOption result (HasNoMarker text.now) (IsFirstMarker text.now) }
{
    for at in 0..text.len() {
        if from(text, at).starts_with(b"/*@") {
            return Some(at);
        }
    }
    None
}

// Divides a short text into tokens.
fn scan<'a>(alloc: Global, text: &'a [u8]) -> Result<Vec<Token<'a>>, Fault>
    requires { length text.now ≤ 65535 }
    ensures tokens { IfOk result (λ v. TokensFrom 0 text.now (map token_of v.items)) }
    ensures fault { IfErr result (IsScanFault text.now) }
{
    let mut all = Vec::new(alloc);
    let mut at = 0;
    while at < text.len() {
        let rest = from(text, at);
        let Some(found) = longest(rest) else {
            return Err(Fault::Refused(Reason::Token { at: at as u32 }));
        };
        if let Some(d) = flaw(found, rest) {
            return Err(Fault::Refused(Reason::Token {
                at: (at + d) as u32,
            }));
        }
        let span = Span {
            from: at as u32,
            to: (at + found.len) as u32,
        };
        let bytes = front(rest, found.len);
        keep(&mut all, found.kind, Token { text: bytes, span })?;
        at += found.len;
    }
    Ok(all)
}

/// The tokens of a source, each a slice of it, in order; or why it has none: it has more than 65,535
/// bytes, a byte that no source has, the opening of an annotation, or a place at which no token stands.
pub fn tokens<'a>(alloc: Global, text: &'a [u8]) -> Result<TokenList<'a>, Fault>
    ensures tokens { IfOk result (λ l. HasTokens text.now l.tokens) }
    ensures length { IfOk result (λ l. l.length ≡ length text.now) }
    ensures fault { IfErr result (HasFault text.now) }
{
    if text.len() > 65535 {
        return Err(Fault::Refused(Reason::TooLong));
    }
    if let Some(at) = wrong_byte(text) {
        return Err(Fault::Refused(Reason::Byte { at: at as u32 }));
    }
    if let Some(at) = marker(text) {
        return Err(Fault::Refused(Reason::Marker { at: at as u32 }));
    }
    let items = scan(alloc, text)?;
    Ok(TokenList::from_parts(text, items))
}

/// A source has one list of tokens at most, or one reason why it has none, and not both.
pub fn one_answer()
    ensures tokens { (text : List ℕ) (l m : List s.Token) → HasTokens text l → HasTokens text m → l ≡ m }
    ensures not_both { (text : List ℕ) (l : List s.Token) (r : Reason) → HasTokens text l → HasFault text (Fault.Refused r) → ⊥ }
    ensures reason { (text : List ℕ) (r q : Reason) → HasFault text (Fault.Refused r) → HasFault text (Fault.Refused q) → r ≡ q }
{}
