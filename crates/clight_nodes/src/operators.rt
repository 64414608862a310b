//! Operators and how tightly they bind.

ghost use Rattle.std.specs.Prelude.{◌≡◌, ◌∷◌, [], OnOk};
ghost use Rattle.clight_source.specs.Spelling as g;
ghost use Rattle.clight_nodes.specs.Code.Expressions as s;
ghost use Rattle.clight_nodes.specs.Code.States.{newest};

use crate::forms::Form;
use crate::nodes::Node;
use crate::stack::{emit, pop, push};
use cerco_base::NoMemory;
use clight_source::symbol::Symbol;
use clight_source::tree::BinaryOperator;

const UNARY_LEVEL: u32 = 12;

const POSTFIX_LEVEL: u32 = 13;

/// How tightly a binary operator binds.
pub fn level(operator: BinaryOperator) -> u32
    ensures { result ≡ g.level operator }
{
    match operator {
        BinaryOperator::LogicalOr => 2,
        BinaryOperator::LogicalAnd => 3,
        BinaryOperator::BitOr => 4,
        BinaryOperator::BitXor => 5,
        BinaryOperator::BitAnd => 6,
        BinaryOperator::Equal | BinaryOperator::NotEqual => 7,
        BinaryOperator::Less
        | BinaryOperator::Greater
        | BinaryOperator::LessOrEqual
        | BinaryOperator::GreaterOrEqual => 8,
        BinaryOperator::ShiftLeft | BinaryOperator::ShiftRight => 9,
        BinaryOperator::Add | BinaryOperator::Subtract => 10,
        BinaryOperator::Multiply | BinaryOperator::Divide | BinaryOperator::Remainder => 11,
    }
}

/// The binary operator that a symbol is.
pub fn binary_of(symbol: Symbol) -> Option<BinaryOperator>
    ensures { result ≡ s.binary_of symbol }
{
    match symbol {
        Symbol::OrOr => Some(BinaryOperator::LogicalOr),
        Symbol::AndAnd => Some(BinaryOperator::LogicalAnd),
        Symbol::Bar => Some(BinaryOperator::BitOr),
        Symbol::Caret => Some(BinaryOperator::BitXor),
        Symbol::Ampersand => Some(BinaryOperator::BitAnd),
        Symbol::EqualTo => Some(BinaryOperator::Equal),
        Symbol::NotEqualTo => Some(BinaryOperator::NotEqual),
        Symbol::Less => Some(BinaryOperator::Less),
        Symbol::Greater => Some(BinaryOperator::Greater),
        Symbol::LessOrEqual => Some(BinaryOperator::LessOrEqual),
        Symbol::GreaterOrEqual => Some(BinaryOperator::GreaterOrEqual),
        Symbol::ShiftLeft => Some(BinaryOperator::ShiftLeft),
        Symbol::ShiftRight => Some(BinaryOperator::ShiftRight),
        Symbol::Plus => Some(BinaryOperator::Add),
        Symbol::Minus => Some(BinaryOperator::Subtract),
        Symbol::Star => Some(BinaryOperator::Multiply),
        Symbol::Slash => Some(BinaryOperator::Divide),
        Symbol::Percent => Some(BinaryOperator::Remainder),
        _ => None,
    }
}

fn mark_level(symbol: Symbol) -> u32
    ensures { result ≡ s.mark_level symbol }
{
    match symbol {
        Symbol::Assign => UNARY_LEVEL,
        Symbol::LeftBracket => POSTFIX_LEVEL,
        Symbol::Dot => POSTFIX_LEVEL,
        Symbol::Arrow => POSTFIX_LEVEL,
        Symbol::LeftParenthesis => POSTFIX_LEVEL,
        _ => 1,
    }
}

/// The least strength of an operator that a symbol after an operand closes.
pub fn binds(symbol: Symbol) -> u32
    ensures { result ≡ s.binds symbol }
{
    match binary_of(symbol) {
        Some(operator) => level(operator),
        None => mark_level(symbol),
    }
}

fn strength(form: Form) -> u32
    ensures { result ≡ s.strength form }
{
    match form {
        Form::Binary(operator, _) => level(operator),
        Form::Prefix(_, _) => UNARY_LEVEL,
        Form::Cast(_, _, _) => UNARY_LEVEL,
        _ => 0,
    }
}

fn close(nodes: &mut Vec<Node>, form: Form) -> Result<(), NoMemory>
    ensures { OnOk result (newest nodes.new.items ≡ s.close form (newest nodes.old.items)) }
{
    match form {
        Form::Binary(operator, at) => emit(nodes, Node::Binary(operator, at)),
        Form::Prefix(operator, at) => emit(nodes, Node::Prefix(operator, at)),
        Form::Cast(left, specifiers, right) => emit(nodes, Node::Cast(left, specifiers, right)),
        _ => Ok(()),
    }
}

/// Closes the operators that bind at least as tightly as `least`.
pub fn settle(forms: &mut Vec<Form>, nodes: &mut Vec<Node>, least: u32) -> Result<(), NoMemory>
    ensures { OnOk result (s.settle least (newest forms.old.items) (newest nodes.old.items) ≡ s.settled (newest forms.new.items) (newest nodes.new.items)) }
{
    while let Some(form) = pop(forms) {
        if strength(form) < least {
            return push(forms, form);
        }
        close(nodes, form)?;
    }
    Ok(())
}

/// Whether the left side of an assignment is due in a form.
pub fn is_target(form: Form) -> bool
    ensures { result ≡ s.is_target (form ∷ []) }
{
    match form {
        Form::Target(_) => true,
        _ => false,
    }
}
