//! Terminal symbols in the first value of a global.

ghost use Rattle.std.specs.Prelude.{◌≡◌, ◌∷◌, IfOk, List};
ghost use Rattle.clight_nodes.specs.Code.Declarations as s;
ghost use Rattle.clight_nodes.specs.Code.States.{newest, now, state};

use cerco_base::NoMemory;
use clight_nodes::forms::Form;
use clight_nodes::modes::{DeclarationMode, InitialiserMode, Mode};
use clight_nodes::nodes::Node;
use clight_nodes::stack::emit_for;
use clight_source::span::Span;
use clight_source::symbol::{Literal, Symbol, Terminal};
use clight_source::tree::SignedNumber;

fn initialise(mode: InitialiserMode) -> Mode
    ensures { result ≡ Mode.Declaration (DeclarationMode.Initialiser mode) }
{
    Mode::Declaration(DeclarationMode::Initialiser(mode))
}

fn signed(minus: Option<Span>, number: Literal, span: Span) -> SignedNumber
    ensures { result ≡ s.signed minus number span }
{
    SignedNumber {
        minus,
        number,
        span,
    }
}

// The first value is a number.
fn single(nodes: &mut Vec<Node>, equals: Span, number: SignedNumber) -> Result<Mode, NoMemory>
    ensures { IfOk result (λ m. (k : List Form) → state m k (newest nodes.new.items) ≡ s.initialise InitialiserMode.End (Node.Single equals number ∷ newest nodes.old.items)) }
{
    emit_for(
        nodes,
        Node::Single(equals, number),
        initialise(InitialiserMode::End),
    )
}

fn initialiser_start(nodes: &mut Vec<Node>, equals: Span, t: Terminal) -> Result<Mode, NoMemory>
    ensures { IfOk result (λ m. (k : List Form) → state m k (newest nodes.new.items) ≡ s.initialiser_start equals (newest nodes.old.items) t.symbol t.span) }
{
    match t.symbol {
        Symbol::Minus => Ok(initialise(InitialiserMode::Number(equals, t.span))),
        Symbol::Number(number) => single(nodes, equals, signed(None, number, t.span)),
        Symbol::LeftBrace => {
            let mode = initialise(InitialiserMode::ListStart(equals, t.span));
            emit_for(nodes, Node::NoNumbers, mode)
        }
        _ => Ok(Mode::Refused),
    }
}

fn initialiser_number(
    nodes: &mut Vec<Node>,
    equals: Span,
    minus: Span,
    t: Terminal,
) -> Result<Mode, NoMemory>
    ensures { IfOk result (λ m. (k : List Form) → state m k (newest nodes.new.items) ≡ s.initialiser_number equals minus (newest nodes.old.items) t.symbol t.span) }
{
    match t.symbol {
        Symbol::Number(number) => single(nodes, equals, signed(Some(minus), number, t.span)),
        _ => Ok(Mode::Refused),
    }
}

fn initialiser_end(nodes: &mut Vec<Node>, t: Terminal) -> Result<Mode, NoMemory>
    ensures { IfOk result (λ m. (k : List Form) → state m k (newest nodes.new.items) ≡ s.initialiser_end (newest nodes.old.items) t.symbol t.span) }
{
    match t.symbol {
        Symbol::Semicolon => emit_for(nodes, Node::Global(t.span), Mode::Finished),
        _ => Ok(Mode::Refused),
    }
}

fn list_start(equals: Span, left: Span, t: Terminal) -> Mode
    ensures { (k : List Form) (z : List Node) → state result k z ≡ s.list_start equals left z t.symbol t.span }
{
    match t.symbol {
        Symbol::Minus => initialise(InitialiserMode::ListNumber(equals, left, t.span)),
        Symbol::Number(number) => {
            let number = signed(None, number, t.span);
            initialise(InitialiserMode::ListEnd(equals, left, number))
        }
        _ => Mode::Refused,
    }
}

fn list_number(equals: Span, left: Span, minus: Span, t: Terminal) -> Mode
    ensures { (k : List Form) (z : List Node) → state result k z ≡ s.list_number equals left minus z t.symbol t.span }
{
    match t.symbol {
        Symbol::Number(number) => {
            let number = signed(Some(minus), number, t.span);
            initialise(InitialiserMode::ListEnd(equals, left, number))
        }
        _ => Mode::Refused,
    }
}

fn list_end(
    nodes: &mut Vec<Node>,
    equals: Span,
    left: Span,
    number: SignedNumber,
    t: Terminal,
) -> Result<Mode, NoMemory>
    ensures { IfOk result (λ m. (k : List Form) → state m k (newest nodes.new.items) ≡ s.list_end equals left number (newest nodes.old.items) t.symbol t.span) }
{
    match t.symbol {
        Symbol::Comma => {
            let mode = initialise(InitialiserMode::ListStart(equals, left));
            emit_for(nodes, Node::EarlierNumber(number, t.span), mode)
        }
        Symbol::RightBrace => {
            let node = Node::Listed(equals, left, number, t.span);
            emit_for(nodes, node, initialise(InitialiserMode::End))
        }
        _ => Ok(Mode::Refused),
    }
}

/// A symbol in the first value of a global.
pub fn in_initialiser(
    nodes: &mut Vec<Node>,
    mode: InitialiserMode,
    t: Terminal,
) -> Result<Mode, NoMemory>
    ensures { IfOk result (λ m. (k : List Form) → state m k (newest nodes.new.items) ≡ s.in_initialiser mode (newest nodes.old.items) t.symbol t.span) }
{
    match mode {
        InitialiserMode::Start(equals) => initialiser_start(nodes, equals, t),
        InitialiserMode::Number(equals, minus) => initialiser_number(nodes, equals, minus, t),
        InitialiserMode::End => initialiser_end(nodes, t),
        InitialiserMode::ListStart(equals, left) => Ok(list_start(equals, left, t)),
        InitialiserMode::ListNumber(equals, left, minus) => {
            Ok(list_number(equals, left, minus, t))
        }
        InitialiserMode::ListEnd(equals, left, number) => list_end(nodes, equals, left, number, t),
    }
}
