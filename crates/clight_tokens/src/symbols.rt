//! The tokens of a source as the grammar sees them.
ghost use Rattle.std.specs.Prelude.{◌≡◌, ◌<◌, ◌≤◌, ◌+◌, ◌^◌, ◌++◌, ◌∷◌, List, length, map, IfOk, OnOk, IsTrue};
ghost use Rattle.indexmap.specs.IndexSet.{index_set_len};
ghost use Rattle.clight_tokens.specs.Symbols as s;
ghost use Rattle.clight_tokens.specs.Tokens as k;
ghost use Rattle.clight_tokens.specs.Code.TokenViews.{token_of};
ghost use Rattle.clight_tokens.specs.Code.SymbolViews.{spellings, with_token};

use crate::bytes::{is_digit, is_letter};
use crate::constants::constant;
use crate::tables::{keyword, mark};
use crate::token_list::{Token, TokenList};
use cerco_base::NoMemory;
use clight_source::{Names, Symbol, Terminal};
use indexmap::IndexSet;
use std::alloc::{AllocError, Global};

/// The terminal symbols of a source, with its names.
#[derive(Drop)]
pub struct TerminalList {
    /// The names, by the numbers that the symbols have.
    pub names: Names,
    /// The symbols, in the order of the source.
    pub terminals: Vec<Terminal>,
}

// Whether it is a word and no keyword.
fn is_name(text: &[u8]) -> bool
    ensures { result ≡ s.is_name text.now }
{
    !text.is_empty() && is_letter(text[0]) && keyword(text).is_none()
}

// Notes the name, if the token is one that isn't there yet.
fn note<'a>(names: &mut IndexSet<&'a [u8]>, token: Token<'a>) -> Result<(), AllocError>
    ensures names { OnOk result (spellings names.new ≡ with_token (spellings names.old) token.entry.text.now) }
    ensures count { OnOk result (index_set_len names.new ≤ index_set_len names.old + 1) }
{
    if is_name(token.text) {
        names.insert_full(token.text)?;
    }
    Ok(())
}

// The names of these tokens.
fn names_of<'a>(alloc: Global, tokens: &[Token<'a>]) -> Result<IndexSet<&'a [u8]>, NoMemory>
    ensures names { IfOk result (λ n. spellings n ≡ s.names_of (map token_of tokens.now)) }
    ensures count { IfOk result (λ n. index_set_len n ≤ length tokens.now) }
{
    let mut names = IndexSet::new(alloc);
    for token in tokens {
        note(&mut names, *token)?;
    }
    Ok(names)
}

// What a word is.
fn word_symbol(names: &IndexSet<&[u8]>, text: &[u8]) -> Symbol
    requires { index_set_len names.now < 2 ^ 32 }
    ensures { result ≡ s.word_symbol (spellings names.now) text.now }
{
    if let Some(symbol) = keyword(text) {
        return symbol;
    }
    match names.get_index_of(text) {
        Some(number) => Symbol::Name(number as u32),
        None => Symbol::Other,
    }
}

// What a token is.
fn symbol_of(names: &IndexSet<&[u8]>, text: &[u8]) -> Symbol
    requires { index_set_len names.now < 2 ^ 32 }
    ensures { result ≡ s.symbol_of (spellings names.now) text.now }
{
    let first = text.first().copied().unwrap_or(0);
    if is_letter(first) {
        return word_symbol(names, text);
    }
    if is_digit(first) {
        return match constant(text) {
            Some(literal) => Symbol::Number(literal),
            None => Symbol::Other,
        };
    }
    mark(text).unwrap_or(Symbol::Other)
}

// The names, each with its own bytes.
fn own_names(alloc: Global, names: &IndexSet<&[u8]>) -> Result<Names, NoMemory>
    ensures { IfOk result (λ own. own ≡ spellings names.now) }
{
    let mut own = Names::new(alloc);
    for spelling in names.as_slice() {
        own.push(spelling)?;
    }
    Ok(own)
}

// The symbols of these tokens.
fn symbols_of(
    alloc: Global,
    names: &IndexSet<&[u8]>,
    tokens: &[Token<'_>],
) -> Result<Vec<Terminal>, NoMemory>
    requires { index_set_len names.now < 2 ^ 32 }
    ensures { IfOk result (λ v. v.items ≡ map (s.terminal_of (spellings names.now)) (map token_of tokens.now)) }
{
    let mut list = Vec::new(alloc);
    for token in tokens {
        list.push(Terminal {
            symbol: symbol_of(names, token.text),
            span: token.span,
        })?;
    }
    Ok(list)
}

/// The terminal symbols of a source's tokens, in order, and its names, numbered by their first appearance.
pub fn terminals(alloc: Global, tokens: &TokenList<'_>) -> Result<TerminalList, NoMemory>
    ensures names { IfOk result (λ t. t.names ≡ s.names_of tokens.now.tokens) }
    ensures symbols { IfOk result (λ t. t.terminals.items ≡ s.terminals_of tokens.now.tokens) }
{
    let items = tokens.as_slice();
    let names = names_of(alloc, items)?;
    let terminals = symbols_of(alloc, &names, items)?;
    let names = own_names(alloc, &names)?;
    Ok(TerminalList { names, terminals })
}

/// Each name of a list of tokens has a number, by which its spelling is found.
pub fn names_have_numbers()
    ensures { (before after : List k.Token) (t : k.Token) → IsTrue (s.is_name t.text) → s.IsNumbered (s.names_of (before ++ t ∷ after)) t.text }
{}
