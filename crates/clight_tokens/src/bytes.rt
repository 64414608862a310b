//! The bytes of a source, one by one and side by side.
ghost use Rattle.std.specs.Prelude.{◌≡◌, ◌∷◌, []};
ghost use Rattle.clight_tokens.specs.Lexemes as s;
ghost use Rattle.clight_tokens.specs.Code.Views.{test_of};

/// Two neighbours that mean something.
#[derive(Clone, Copy)]
pub enum Pair {
    /// `*/`
    Close,
    /// A backslash before a line end.
    Splice,
}

/// Whether a source may have this byte.
pub fn is_source_byte(b: u8) -> bool
    ensures { result ≡ s.is_source_byte b }
{
    (32 <= b && b <= 126) || b == b'\t' || b == b'\n' || b == b'\r'
}

/// Whether it is a blank, a tab or a line end.
pub fn is_blank(b: u8) -> bool
    ensures { result ≡ s.is_blank b }
{
    b == b' ' || b == b'\t' || b == b'\n' || b == b'\r'
}

/// Whether it is a decimal digit.
pub fn is_digit(b: u8) -> bool
    ensures { result ≡ s.is_digit b }
{
    b'0' <= b && b <= b'9'
}

/// Whether it is a letter or `_`.
pub fn is_letter(b: u8) -> bool
    ensures { result ≡ s.is_letter b }
{
    (b'A' <= b && b <= b'Z') || (b'a' <= b && b <= b'z') || b == b'_'
}

/// Whether it is a letter, `_` or a digit.
pub fn is_word_byte(b: u8) -> bool
    ensures { result ≡ s.is_word_byte b }
{
    is_letter(b) || is_digit(b)
}

/// Whether it ends no line.
pub fn in_line(b: u8) -> bool
    ensures { result ≡ s.in_line b }
{
    !(b == b'\n' || b == b'\r')
}

/// Whether these neighbours are such a pair.
pub fn is_pair(pair: Pair, a: u8, b: u8) -> bool
    ensures { result ≡ test_of pair a b }
{
    match pair {
        Pair::Close => a == b'*' && b == b'/',
        Pair::Splice => a == b'\\' && (b == b'\n' || b == b'\r'),
    }
}

/// Whether it is a punctuator.
#[tactic(auto, unfolding(crate::specs::Lexemes::is_punctuator))]
pub fn is_single(b: u8) -> bool
    ensures { result ≡ s.is_punctuator (b ∷ []) }
{
    match b {
        b'(' | b')' | b'{' | b'}' | b'[' | b']' | b';' | b',' => true,
        b'=' | b'+' | b'-' | b'*' | b'/' | b'%' | b'&' | b'|' => true,
        b'^' | b'~' | b'!' | b'<' | b'>' | b'.' | b'?' | b':' => true,
        _ => false,
    }
}

/// Whether these bytes are a punctuator.
#[tactic(auto, unfolding(crate::specs::Lexemes::is_punctuator))]
pub fn is_double(a: u8, b: u8) -> bool
    ensures { result ≡ s.is_punctuator (a ∷ b ∷ []) }
{
    match a {
        b'<' => b == b'<' || b == b'=',
        b'>' => b == b'>' || b == b'=',
        b'&' => b == b'&' || b == b'=',
        b'|' => b == b'|' || b == b'=',
        b'+' => b == b'+' || b == b'=',
        b'-' => b == b'-' || b == b'=' || b == b'>',
        b'=' | b'!' | b'*' | b'/' | b'%' | b'^' => b == b'=',
        _ => false,
    }
}

/// Whether these bytes are a punctuator.
#[tactic(auto, unfolding(crate::specs::Lexemes::is_punctuator))]
pub fn is_triple(a: u8, b: u8, c: u8) -> bool
    ensures { result ≡ s.is_punctuator (a ∷ b ∷ c ∷ []) }
{
    match a {
        b'<' => b == b'<' && c == b'=',
        b'>' => b == b'>' && c == b'=',
        b'.' => b == b'.' && c == b'.',
        _ => false,
    }
}
