//! The tokens of a source as a list.
ghost use Rattle.std.specs.Prelude.{◌≡◌, map, length};

use clight_source::Span;
use std::marker::Model;

/// A token: a slice of the source, and where it stands there.
#[derive(Clone, Copy)]
pub struct Token<'a> {
    /// Its bytes.
    pub text: &'a [u8],
    /// Its place.
    pub span: Span,
}

/// The tokens of a source of at most 65,535 bytes, in order. Contracts see it as their list with the
/// source's length.
#[derive(Drop)]
pub struct TokenList<'a> {
    items: Vec<Token<'a>>,
    length: u32,
}

impl<'a> Model for TokenList<'a> {
    ghost use Rattle.clight_tokens.specs.Tokens.{Tokenised, IsTokenised};

    ghost Value = { Tokenised };

    ghost use Rattle.std.specs.Prelude.{map};
    ghost use Rattle.clight_tokens.specs.Code.TokenViews.{token_of};

    ghost view = { λ l. record { tokens = map token_of l.items.items; length = l.length } };

    ghost invariant = { λ l. IsTokenised (record { tokens = map token_of l.items.items; length = l.length }) };
}

impl<'a> TokenList<'a> {
    ghost use Rattle.clight_tokens.specs.Tokens.{HasTokens, IsTokenised, AreAscending};
    ghost use Rattle.clight_tokens.specs.Code.TokenViews.{token_of};

    // These are the tokens of this text.
    pub(crate) fn from_parts(text: &'a [u8], items: Vec<Token<'a>>) -> TokenList<'a>
        requires { HasTokens text.now (map token_of items.items) }
        ensures { result ≡ record { tokens = map token_of items.entry.items; length = length text.now } }
    {
        TokenList {
            items,
            length: text.len() as u32,
        }
    }

    /// How many bytes the source has, at most 65,535.
    pub fn length(&self) -> u32
        ensures length { result ≡ self.now.length }
        ensures of_a_text { IsTokenised self.now }
    {
        self.length
    }

    /// The tokens, in the order of the source.
    pub fn as_slice(&self) -> &[Token<'a>]
        ensures tokens { map token_of result.now ≡ self.now.tokens }
        ensures of_a_text { IsTokenised self.now }
        ensures ascending { AreAscending 0 self.now.tokens self.now.length }
    {
        self.items.as_slice()
    }
}
