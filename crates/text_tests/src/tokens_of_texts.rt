//! The tokens of a source: their places, their symbols, and the first fault of a text that has none.

use cerco_base::{Fault, NoMemory, Reason};
use clight_source::{Literal, Radix, Symbol, Terminal};
use clight_tokens::{TokenList, terminals, tokens};
use std::alloc::Global;
use std::test::Fail;

// Texts, and where each of their tokens begins and ends.
#[rattlefmt::skip]
const PLACES: [(&str, &[(u32, u32)]); 16] = [
    ("", &[]),
    (" \t\r\n", &[]),
    ("a_1 _b;P1", &[(0, 3), (4, 6), (6, 7), (7, 9)]),
    ("0 7u 0177U 0xfFu", &[(0, 1), (2, 4), (5, 10), (11, 16)]),
    ("65535 0xFFFF 0177777", &[(0, 5), (6, 12), (13, 20)]),
    ("a<<=b", &[(0, 1), (1, 4), (4, 5)]),
    (">>=<=>>", &[(0, 3), (3, 5), (5, 7)]),
    ("---->", &[(0, 2), (2, 4), (4, 5)]),
    ("-->x", &[(0, 2), (2, 3), (3, 4)]),
    ("......", &[(0, 3), (3, 6)]),
    ("a..b", &[(0, 1), (1, 2), (2, 3), (3, 4)]),
    ("?:~[]{}", &[(0, 1), (1, 2), (2, 3), (3, 4), (4, 5), (5, 6), (6, 7)]),
    ("a/b/=c", &[(0, 1), (1, 2), (2, 3), (3, 5), (5, 6)]),
    ("1/**/2", &[(0, 1), (5, 6)]),
    ("/***/a/* * / **/b", &[(5, 6), (16, 17)]),
    ("//a/*\nb//", &[(6, 7)]),
];

// Texts, and where the first piece begins that is no token.
#[rattlefmt::skip]
const NO_TOKENS: [(&str, u32); 20] = [
    ("a 08", 2),
    ("a 00u1", 2),
    (" 0x", 1),
    (" 0xg", 1),
    (" 1uu", 1),
    (" 1L", 1),
    (" 0b1", 1),
    ("a=65536;", 2),
    ("a=0x10000;", 2),
    ("a=0200000;", 2),
    ("a # b", 2),
    ("a \\b", 2),
    ("a 'b'", 2),
    ("a /*", 2),
    ("a /* \\\n *", 2),
    ("a /*/", 2),
    ("a /* \\\n */", 5),
    ("a // \\\r", 5),
    ("void main(void){}/* x", 17),
    ("void main(void){P1=65536;}", 19),
];

// Texts with faults of several kinds, and the one that comes first.
#[rattlefmt::skip]
const EARLIER: [(&str, Reason); 3] = [
    ("/*@*/void main(void){}\\", Reason::Marker { at: 0 }),
    ("\\ /* /*@ */", Reason::Marker { at: 5 }),
    ("/*@\x0B", Reason::Byte { at: 3 }),
];

fn places(alloc: Global, text: &str) -> Result<Vec<(u32, u32)>, Fault> {
    let list = tokens(alloc, text.as_bytes())?;
    let mut places = Vec::new(alloc);
    for token in list.as_slice() {
        places.push((token.span.from, token.span.to))?;
    }
    Ok(places)
}

fn fault_of(alloc: Global, text: &[u8]) -> Option<Fault> {
    tokens(alloc, text).err()
}

#[test]
fn the_longest_token_is_taken(rt: HostRuntime) -> Result<(), Fail> {
    for (text, wanted) in &PLACES {
        let found = places(rt.alloc(), text)?;
        assert_eq!(rt; found.as_slice(), *wanted, "{text}");
    }
    Ok(())
}

#[test]
fn faults_have_their_place(rt: HostRuntime) {
    for (text, at) in &NO_TOKENS {
        let wanted = Fault::Refused(Reason::Token { at: *at });
        assert_eq!(rt;
            fault_of(rt.alloc(), text.as_bytes()),
            Some(wanted),
            "{text}"
        );
    }
}

#[test]
fn earlier_reasons_come_first(rt: HostRuntime) {
    for (text, reason) in &EARLIER {
        let wanted = Fault::Refused(*reason);
        assert_eq!(rt;
            fault_of(rt.alloc(), text.as_bytes()),
            Some(wanted),
            "{text}"
        );
    }
}

#[test]
fn a_source_has_65535_bytes_at_most(rt: HostRuntime) -> Result<(), Fail> {
    let alloc = rt.alloc();
    let mut text = b"void main(void){}".to_vec(alloc)?;
    for _ in 0..65518 {
        text.push(b' ')?;
    }
    assert_eq!(rt; tokens(alloc, &text)?.length(), 65535);
    text.push(b' ')?;
    assert_eq!(rt;
        fault_of(alloc, &text),
        Some(Fault::Refused(Reason::TooLong))
    );
    Ok(())
}

fn radix_letter(radix: Radix) -> &'static str {
    match radix {
        Radix::Decimal => "d",
        Radix::Octal => "o",
        Radix::Hexadecimal => "x",
    }
}

// The value of a constant, the letter of its radix, and `u` where the constant has one.
fn literal_text(alloc: Global, literal: Literal) -> Result<String, NoMemory> {
    let radix = radix_letter(literal.radix);
    let suffix = if literal.unsigned { "u" } else { "" };
    Ok(format!(in alloc; "{}{radix}{suffix}", literal.value)?)
}

// How the symbols of the test below are written; `?` where they are in no rule of the grammar.
fn spelling(symbol: Symbol) -> &'static str {
    match symbol {
        Symbol::Int => "int",
        Symbol::While => "while",
        Symbol::PortOne => "P1",
        Symbol::Assign => "=",
        Symbol::Plus => "+",
        Symbol::Semicolon => ";",
        Symbol::Arrow => "->",
        Symbol::Other => "?",
        _ => "another",
    }
}

fn symbol_text(alloc: Global, symbol: Symbol) -> Result<String, NoMemory> {
    match symbol {
        Symbol::Name(number) => Ok(format!(in alloc; "name{number}")?),
        Symbol::Number(literal) => literal_text(alloc, literal),
        _ => Ok(String::from_str(alloc, spelling(symbol))?),
    }
}

// The symbols with a blank after each, and the place of the last.
fn symbols_text(alloc: Global, symbols: &[Terminal]) -> Result<String, NoMemory> {
    let mut words = String::new(alloc);
    for terminal in symbols {
        words.push_str(&symbol_text(alloc, terminal.symbol)?)?;
        words.push_str(" ")?;
    }
    match symbols.last() {
        Some(last) => Ok(format!(in alloc; "{words}{}-{}", last.span.from, last.span.to)?),
        None => Ok(words),
    }
}

// How many names the tokens have, and their symbols.
fn grammar_text(alloc: Global, list: &TokenList<'_>) -> Result<String, NoMemory> {
    let found = terminals(alloc, list)?;
    let symbols = symbols_text(alloc, found.terminals.as_slice())?;
    Ok(format!(in alloc; "{} names: {symbols}", found.names.len())?)
}

#[test]
fn tokens_have_their_symbols(rt: HostRuntime) -> Result<(), Fail> {
    let text = b"int b=a1+b;P1=P;Int 0 00 017u 0X1f 65535U<<=->?goto while";
    let list = tokens(rt.alloc(), text)?;
    let found = grammar_text(rt.alloc(), &list)?;
    assert_eq!(rt;
        found.as_str(),
        "4 names: int name0 = name1 + name0 ; P1 = name2 ; name3 0d 0o 15ou 31x 65535du ? -> ? ? while 52-57"
    );
    Ok(())
}
