//! The spellings of keywords and punctuators (ISO/IEC 9899:1999, 6.4.1 and 6.4.6).
ghost use Rattle.std.specs.Prelude.{◌≡◌, map};
ghost use Rattle.std.specs.Str.{bytes_eq};
ghost use Rattle.std.specs.Map.{lookup};
ghost use Rattle.clight_tokens.specs.Symbols as s;
ghost use Rattle.clight_tokens.specs.Code.SymbolViews.{entry_of};

use clight_source::Symbol;

/// A spelling and what it is to the grammar.
#[derive(Clone, Copy)]
pub struct Entry {
    pub spelling: &'static [u8],
    pub symbol: Symbol,
}

const KEYWORDS: [Entry; 38] = [
    Entry {
        spelling: b"break",
        symbol: Symbol::Break,
    },
    Entry {
        spelling: b"char",
        symbol: Symbol::Char,
    },
    Entry {
        spelling: b"continue",
        symbol: Symbol::Continue,
    },
    Entry {
        spelling: b"do",
        symbol: Symbol::Do,
    },
    Entry {
        spelling: b"else",
        symbol: Symbol::Else,
    },
    Entry {
        spelling: b"for",
        symbol: Symbol::For,
    },
    Entry {
        spelling: b"if",
        symbol: Symbol::If,
    },
    Entry {
        spelling: b"int",
        symbol: Symbol::Int,
    },
    Entry {
        spelling: b"long",
        symbol: Symbol::Long,
    },
    Entry {
        spelling: b"P1",
        symbol: Symbol::PortOne,
    },
    Entry {
        spelling: b"return",
        symbol: Symbol::Return,
    },
    Entry {
        spelling: b"signed",
        symbol: Symbol::Signed,
    },
    Entry {
        spelling: b"struct",
        symbol: Symbol::Struct,
    },
    Entry {
        spelling: b"unsigned",
        symbol: Symbol::Unsigned,
    },
    Entry {
        spelling: b"void",
        symbol: Symbol::Void,
    },
    Entry {
        spelling: b"while",
        symbol: Symbol::While,
    },
    Entry {
        spelling: b"auto",
        symbol: Symbol::Other,
    },
    Entry {
        spelling: b"case",
        symbol: Symbol::Other,
    },
    Entry {
        spelling: b"const",
        symbol: Symbol::Other,
    },
    Entry {
        spelling: b"default",
        symbol: Symbol::Other,
    },
    Entry {
        spelling: b"double",
        symbol: Symbol::Other,
    },
    Entry {
        spelling: b"enum",
        symbol: Symbol::Other,
    },
    Entry {
        spelling: b"extern",
        symbol: Symbol::Other,
    },
    Entry {
        spelling: b"float",
        symbol: Symbol::Other,
    },
    Entry {
        spelling: b"goto",
        symbol: Symbol::Other,
    },
    Entry {
        spelling: b"inline",
        symbol: Symbol::Other,
    },
    Entry {
        spelling: b"register",
        symbol: Symbol::Other,
    },
    Entry {
        spelling: b"restrict",
        symbol: Symbol::Other,
    },
    Entry {
        spelling: b"short",
        symbol: Symbol::Other,
    },
    Entry {
        spelling: b"sizeof",
        symbol: Symbol::Other,
    },
    Entry {
        spelling: b"static",
        symbol: Symbol::Other,
    },
    Entry {
        spelling: b"switch",
        symbol: Symbol::Other,
    },
    Entry {
        spelling: b"typedef",
        symbol: Symbol::Other,
    },
    Entry {
        spelling: b"union",
        symbol: Symbol::Other,
    },
    Entry {
        spelling: b"volatile",
        symbol: Symbol::Other,
    },
    Entry {
        spelling: b"_Bool",
        symbol: Symbol::Other,
    },
    Entry {
        spelling: b"_Complex",
        symbol: Symbol::Other,
    },
    Entry {
        spelling: b"_Imaginary",
        symbol: Symbol::Other,
    },
];

const MARKS: [Entry; 31] = [
    Entry {
        spelling: b"(",
        symbol: Symbol::LeftParenthesis,
    },
    Entry {
        spelling: b")",
        symbol: Symbol::RightParenthesis,
    },
    Entry {
        spelling: b"[",
        symbol: Symbol::LeftBracket,
    },
    Entry {
        spelling: b"]",
        symbol: Symbol::RightBracket,
    },
    Entry {
        spelling: b"{",
        symbol: Symbol::LeftBrace,
    },
    Entry {
        spelling: b"}",
        symbol: Symbol::RightBrace,
    },
    Entry {
        spelling: b";",
        symbol: Symbol::Semicolon,
    },
    Entry {
        spelling: b",",
        symbol: Symbol::Comma,
    },
    Entry {
        spelling: b".",
        symbol: Symbol::Dot,
    },
    Entry {
        spelling: b"->",
        symbol: Symbol::Arrow,
    },
    Entry {
        spelling: b"=",
        symbol: Symbol::Assign,
    },
    Entry {
        spelling: b"+",
        symbol: Symbol::Plus,
    },
    Entry {
        spelling: b"-",
        symbol: Symbol::Minus,
    },
    Entry {
        spelling: b"*",
        symbol: Symbol::Star,
    },
    Entry {
        spelling: b"/",
        symbol: Symbol::Slash,
    },
    Entry {
        spelling: b"%",
        symbol: Symbol::Percent,
    },
    Entry {
        spelling: b"&",
        symbol: Symbol::Ampersand,
    },
    Entry {
        spelling: b"|",
        symbol: Symbol::Bar,
    },
    Entry {
        spelling: b"^",
        symbol: Symbol::Caret,
    },
    Entry {
        spelling: b"~",
        symbol: Symbol::Tilde,
    },
    Entry {
        spelling: b"!",
        symbol: Symbol::Exclamation,
    },
    Entry {
        spelling: b"<",
        symbol: Symbol::Less,
    },
    Entry {
        spelling: b">",
        symbol: Symbol::Greater,
    },
    Entry {
        spelling: b"<=",
        symbol: Symbol::LessOrEqual,
    },
    Entry {
        spelling: b">=",
        symbol: Symbol::GreaterOrEqual,
    },
    Entry {
        spelling: b"==",
        symbol: Symbol::EqualTo,
    },
    Entry {
        spelling: b"!=",
        symbol: Symbol::NotEqualTo,
    },
    Entry {
        spelling: b"<<",
        symbol: Symbol::ShiftLeft,
    },
    Entry {
        spelling: b">>",
        symbol: Symbol::ShiftRight,
    },
    Entry {
        spelling: b"&&",
        symbol: Symbol::AndAnd,
    },
    Entry {
        spelling: b"||",
        symbol: Symbol::OrOr,
    },
];

// What a spelling is by a table.
fn find(table: &[Entry], text: &[u8]) -> Option<Symbol>
    ensures { result ≡ lookup (bytes_eq text.now) (map entry_of table.now) }
{
    for entry in table {
        if text == entry.spelling {
            return Some(entry.symbol);
        }
    }
    None
}

/// What a word is, if it is a keyword.
pub fn keyword(text: &[u8]) -> Option<Symbol>
    ensures { result ≡ s.keyword_of text.now }
{
    find(&KEYWORDS, text)
}

/// What a punctuator is, if the grammar has it.
pub fn mark(text: &[u8]) -> Option<Symbol>
    ensures { result ≡ lookup (bytes_eq text.now) s.marks }
{
    find(&MARKS, text)
}
