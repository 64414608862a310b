//! Terminal symbols in expressions.

ghost use Rattle.std.specs.Prelude.{◌≡◌, IfOk, List};
ghost use Rattle.clight_nodes.specs.Code.Expressions as s;
ghost use Rattle.clight_nodes.specs.Code.States.{newest, now, state};

use crate::words::{first_word, next_word};
use cerco_base::NoMemory;
use clight_nodes::forms::{Form, Place};
use clight_nodes::modes::{Mode, Pending, StatementMode};
use clight_nodes::nodes::Node;
use clight_nodes::operators::is_target;
use clight_nodes::stack::{operand_in, operand_node, pop, push};
use clight_source::span::Span;
use clight_source::symbol::{Symbol, Terminal};
use clight_source::tree::{BinaryOperator, MemberOperator, Name, PrefixOperator, Specifiers};

/// A binary operator after an operand whose operators are closed.
#[tactic(auto, using(crate::proofs::Branches::target_is))]
pub fn infix_at(
    forms: &mut Vec<Form>,
    nodes: &mut Vec<Node>,
    operator: BinaryOperator,
    at: Span,
) -> Result<Mode, NoMemory>
    ensures { IfOk result (λ m. now m forms.new.items nodes.new.items ≡ s.infix_at operator at (newest forms.old.items) (newest nodes.old.items)) }
{
    let Some(form) = pop(forms) else {
        return operand_in(forms, Form::Binary(operator, at));
    };
    if is_target(form) {
        return Ok(Mode::Refused);
    }
    push(forms, form)?;
    operand_in(forms, Form::Binary(operator, at))
}

fn cast_words(forms: &mut Vec<Form>, nodes: &mut Vec<Node>, specifiers: Specifiers) -> Mode
    ensures { now result forms.new.items nodes.new.items ≡ s.cast_words specifiers (newest forms.old.items) (newest nodes.old.items) }
{
    match pop(forms) {
        Some(Form::Parenthesis(left)) => Mode::CastWords(left, specifiers),
        _ => Mode::Refused,
    }
}

fn cast_tag(forms: &mut Vec<Form>, nodes: &mut Vec<Node>, at: Span) -> Mode
    ensures { now result forms.new.items nodes.new.items ≡ s.cast_tag at (newest forms.old.items) (newest nodes.old.items) }
{
    match pop(forms) {
        Some(Form::Parenthesis(left)) => Mode::CastTag(left, at),
        _ => Mode::Refused,
    }
}

fn read_pending(forms: &mut Vec<Form>, nodes: &mut Vec<Node>, at: Span) -> Mode
    ensures { now result forms.new.items nodes.new.items ≡ s.read_pending at (newest forms.old.items) (newest nodes.old.items) }
{
    match pop(forms) {
        Some(Form::Value(Place::AsStatement, equals)) => {
            Mode::Statement(StatementMode::End(Pending::Read(equals, at)))
        }
        _ => Mode::Refused,
    }
}

fn first_in_cast(forms: &mut Vec<Form>, nodes: &mut Vec<Node>, t: Terminal) -> Mode
    ensures { now result forms.new.items nodes.new.items ≡ s.cast_start (newest forms.old.items) (newest nodes.old.items) t.symbol t.span }
{
    match first_word(t.symbol, t.span) {
        Some(specifiers) => cast_words(forms, nodes, specifiers),
        None => Mode::Refused,
    }
}

/// A symbol where an operand is due.
pub fn operand(forms: &mut Vec<Form>, nodes: &mut Vec<Node>, t: Terminal) -> Result<Mode, NoMemory>
    ensures { IfOk result (λ m. now m forms.new.items nodes.new.items ≡ s.operand (newest forms.old.items) (newest nodes.old.items) t.symbol t.span) }
{
    match t.symbol {
        Symbol::Name(number) => operand_node(
            nodes,
            Node::Name(Name {
                number,
                span: t.span,
            }),
        ),
        Symbol::Number(number) => operand_node(nodes, Node::Number(number, t.span)),
        Symbol::LeftParenthesis => operand_in(forms, Form::Parenthesis(t.span)),
        Symbol::Minus => operand_in(forms, Form::Prefix(PrefixOperator::Negate, t.span)),
        Symbol::Tilde => operand_in(forms, Form::Prefix(PrefixOperator::Complement, t.span)),
        Symbol::Exclamation => operand_in(forms, Form::Prefix(PrefixOperator::Not, t.span)),
        Symbol::Star => operand_in(forms, Form::Prefix(PrefixOperator::Dereference, t.span)),
        Symbol::Ampersand => operand_in(forms, Form::Prefix(PrefixOperator::AddressOf, t.span)),
        Symbol::Struct => Ok(cast_tag(forms, nodes, t.span)),
        Symbol::PortOne => Ok(read_pending(forms, nodes, t.span)),
        _ => Ok(first_in_cast(forms, nodes, t)),
    }
}

/// A symbol where the name of a member is due.
pub fn member_name(
    forms: &mut Vec<Form>,
    nodes: &mut Vec<Node>,
    operator: MemberOperator,
    at: Span,
    t: Terminal,
) -> Result<Mode, NoMemory>
    ensures { IfOk result (λ m. now m forms.new.items nodes.new.items ≡ s.member_name operator at (newest forms.old.items) (newest nodes.old.items) t.symbol t.span) }
{
    match t.symbol {
        Symbol::Name(number) => {
            let name = Name {
                number,
                span: t.span,
            };
            operand_node(nodes, Node::Select(operator, at, name))
        }
        _ => Ok(Mode::Refused),
    }
}

/// A symbol where the tag of a cast is due.
pub fn tag_of_cast(left: Span, keyword: Span, t: Terminal) -> Mode
    ensures { (k : List Form) (z : List Node) → state result k z ≡ s.tag_of_cast left keyword k z t.symbol t.span }
{
    match t.symbol {
        Symbol::Name(number) => {
            let name = Name {
                number,
                span: t.span,
            };
            Mode::CastWords(left, Specifiers::Struct(keyword, name))
        }
        _ => Mode::Refused,
    }
}

/// A symbol after the words of a cast.
pub fn in_cast(
    forms: &mut Vec<Form>,
    nodes: &mut Vec<Node>,
    left: Span,
    specifiers: Specifiers,
    t: Terminal,
) -> Result<Mode, NoMemory>
    ensures { IfOk result (λ m. now m forms.new.items nodes.new.items ≡ s.in_cast left specifiers (newest forms.old.items) (newest nodes.old.items) t.symbol t.span) }
{
    match t.symbol {
        Symbol::RightParenthesis => operand_in(forms, Form::Cast(left, specifiers, t.span)),
        _ => Ok(more_of_cast(left, specifiers, t)),
    }
}

fn more_of_cast(left: Span, specifiers: Specifiers, t: Terminal) -> Mode
    ensures { (k : List Form) (z : List Node) → state result k z ≡ s.cast_more left specifiers k z t.symbol t.span }
{
    match next_word(specifiers, t.symbol, t.span) {
        Some(longer) => Mode::CastWords(left, longer),
        None => Mode::Refused,
    }
}
