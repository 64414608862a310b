//! The words of types.

ghost use Rattle.std.specs.Prelude.{◌≡◌};
ghost use Rattle.clight_nodes.specs.Code.Expressions as s;

use clight_source::span::Span;
use clight_source::symbol::Symbol;
use clight_source::tree::Specifiers;

/// The type that one word is.
pub fn first_word(symbol: Symbol, at: Span) -> Option<Specifiers>
    ensures { result ≡ s.first_word symbol at }
{
    match symbol {
        Symbol::Void => Some(Specifiers::Void(at)),
        Symbol::Char => Some(Specifiers::Char(at)),
        Symbol::Int => Some(Specifiers::Int(at)),
        Symbol::Signed => Some(Specifiers::Signed(at)),
        Symbol::Unsigned => Some(Specifiers::Unsigned(at)),
        Symbol::Long => Some(Specifiers::Long(at)),
        _ => None,
    }
}

/// The type that some words and one more are.
pub fn next_word(words: Specifiers, symbol: Symbol, at: Span) -> Option<Specifiers>
    ensures { result ≡ s.next_word words symbol at }
{
    match symbol {
        Symbol::Char => with_char(words, at),
        Symbol::Int => with_int(words, at),
        Symbol::Long => with_long(words, at),
        _ => None,
    }
}

fn with_char(words: Specifiers, at: Span) -> Option<Specifiers>
    ensures { result ≡ s.with_char words at }
{
    match words {
        Specifiers::Signed(first) => Some(Specifiers::SignedChar(first, at)),
        Specifiers::Unsigned(first) => Some(Specifiers::UnsignedChar(first, at)),
        _ => None,
    }
}

fn with_int(words: Specifiers, at: Span) -> Option<Specifiers>
    ensures { result ≡ s.with_int words at }
{
    match words {
        Specifiers::Signed(first) => Some(Specifiers::SignedInt(first, at)),
        Specifiers::Unsigned(first) => Some(Specifiers::UnsignedInt(first, at)),
        Specifiers::Long(first) => Some(Specifiers::LongInt(first, at)),
        Specifiers::SignedLong(first, second) => Some(Specifiers::SignedLongInt(first, second, at)),
        Specifiers::UnsignedLong(first, second) => {
            Some(Specifiers::UnsignedLongInt(first, second, at))
        }
        _ => None,
    }
}

fn with_long(words: Specifiers, at: Span) -> Option<Specifiers>
    ensures { result ≡ s.with_long words at }
{
    match words {
        Specifiers::Signed(first) => Some(Specifiers::SignedLong(first, at)),
        Specifiers::Unsigned(first) => Some(Specifiers::UnsignedLong(first, at)),
        _ => None,
    }
}
