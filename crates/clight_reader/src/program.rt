//! From tokens to the syntax tree.

ghost use Rattle.std.specs.Prelude.{◌≡◌, IfOk, IfErr, map, slice_index_or};
ghost use Rattle.clight_tokens.specs.SourceTrees.{IsTreeOf};
ghost use Rattle.clight_tokens.specs.Symbols.{terminals_of};
ghost use Rattle.clight_tokens.specs.Tokens.{Tokenised};
ghost use Rattle.clight_source.specs.Code.Views.{program_of};
ghost use Rattle.clight_reader.specs.Code.Readings.{IsFault};
ghost use Rattle.clight_reader.specs.Reasons.{HasNoTree};

use crate::reading::{ParseFault, parse_terminals};
use cerco_base::{Fault, Reason};
use clight_source::{Program, Span, Terminal};
use clight_tokens::{TerminalList, TokenList, terminals};
use std::alloc::Global;

/// Where a terminal symbol begins, or the text's length after the last one.
fn place(symbols: &[Terminal], i: usize, length: u32) -> u32
    ensures { result ≡ slice_index_or (map (λ t. t.span.from) symbols.now) i length }
{
    match symbols.get(i) {
        Some(t) => t.span.from,
        None => length,
    }
}

/// Why the source is refused, where its terminal symbols aren't those of a program within the limit.
fn refusal(fault: ParseFault, symbols: &[Terminal], length: u32) -> Fault
    ensures { (t : Tokenised) → symbols.now ≡ terminals_of t.tokens → length ≡ t.length → IsFault fault symbols.now → HasNoTree t result }
{
    match fault {
        ParseFault::Syntax(i) => Fault::Refused(Reason::Syntax {
            at: place(symbols, i, length),
        }),
        ParseFault::Nesting(at) => Fault::Refused(Reason::Nesting { at }),
        ParseFault::OutOfMemory => Fault::OutOfMemory,
    }
}

/// The syntax tree of a source's tokens. Otherwise the source is refused, as one whose tokens are no program
/// ([`Reason::Syntax`], at the first token with which no program goes on, or at the text's length), else as one with a node
/// that is deeper than 64 ([`Reason::Nesting`], at the least start of such a node).
pub fn parse(alloc: Global, tokens: &TokenList<'_>) -> Result<Program, Fault>
    ensures tree { IfOk result (λ p. IsTreeOf tokens.now (program_of p)) }
    ensures fault { IfErr result (HasNoTree tokens.now) }
{
    let length = tokens.length();
    let TerminalList { names, terminals } = terminals(alloc, tokens)?;
    match parse_terminals(alloc, &terminals) {
        Ok(items) => Ok(Program {
            names,
            items,
            span: Span {
                from: 0,
                to: length,
            },
        }),
        Err(fault) => Err(refusal(fault, &terminals, length)),
    }
}
