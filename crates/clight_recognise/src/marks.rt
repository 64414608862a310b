//! Terminal symbols after an operand whose operators are closed.

ghost use Rattle.std.specs.Prelude.{◌≡◌, ◌∷◌, IfOk};
ghost use Rattle.clight_nodes.specs.Code.Expressions as x;
ghost use Rattle.clight_nodes.specs.Code.Statements as s;
ghost use Rattle.clight_nodes.specs.Code.States.{newest, now};

use crate::closing::finished;
use crate::expressions::infix_at;
use cerco_base::NoMemory;
use clight_nodes::forms::{ForMiddle, ForStart, Form, Place};
use clight_nodes::modes::{Mode, Pending, StatementMode};
use clight_nodes::nodes::Node;
use clight_nodes::operators::{binary_of, binds, settle};
use clight_nodes::stack::{emit, emit_for, operand_in, operand_node, pop, statement_in, take};
use clight_source::span::Span;
use clight_source::symbol::{Symbol, Terminal};
use clight_source::tree::{CallTarget, MemberOperator};

fn ending(x: Pending) -> Mode
    ensures { result ≡ Mode.Statement (StatementMode.End x) }
{
    Mode::Statement(StatementMode::End(x))
}

// `)` after the last assignment of a `for`.
fn for_step_end(
    forms: &mut Vec<Form>,
    nodes: &mut Vec<Node>,
    form: Form,
    equals: Span,
) -> Result<Mode, NoMemory>
    ensures { IfOk result (λ m. now m forms.new.items nodes.new.items ≡ s.begin (form ∷ newest forms.old.items) (Node.Assignment equals ∷ newest nodes.old.items)) }
{
    emit(nodes, Node::Assignment(equals))?;
    statement_in(forms, form)
}

// `)`
fn close_parenthesis(
    forms: &mut Vec<Form>,
    nodes: &mut Vec<Node>,
    at: Span,
) -> Result<Mode, NoMemory>
    ensures { IfOk result (λ m. now m forms.new.items nodes.new.items ≡ s.close_parenthesis at (newest forms.old.items) (newest nodes.old.items)) }
{
    let Some(form) = pop(forms) else {
        return Ok(Mode::Refused);
    };
    match form {
        Form::Parenthesis(left) => operand_node(nodes, Node::Parenthesis(left, at)),
        Form::IfTest(keyword, left) => statement_in(forms, Form::If(keyword, left, at)),
        Form::WhileTest(keyword, left) => statement_in(forms, Form::While(keyword, left, at)),
        Form::DoTest(keyword, inner, left) => { Ok(ending(Pending::Do(keyword, inner, left, at))) }
        Form::Arguments(target, function, left) => {
            Ok(ending(Pending::Call(target, function, left, at)))
        }
        Form::Value(Place::AsStep(middle), equals) => {
            for_step_end(forms, nodes, Form::For(middle, at), equals)
        }
        _ => Ok(Mode::Refused),
    }
}

// `]`
fn close_bracket(forms: &mut Vec<Form>, nodes: &mut Vec<Node>, at: Span) -> Result<Mode, NoMemory>
    ensures { IfOk result (λ m. now m forms.new.items nodes.new.items ≡ s.close_bracket at (newest forms.old.items) (newest nodes.old.items)) }
{
    match pop(forms) {
        Some(Form::Index(left)) => operand_node(nodes, Node::Index(left, at)),
        _ => Ok(Mode::Refused),
    }
}

// `,`
fn next_argument(forms: &mut Vec<Form>, nodes: &mut Vec<Node>, at: Span) -> Result<Mode, NoMemory>
    ensures { IfOk result (λ m. now m forms.new.items nodes.new.items ≡ s.next_argument at (newest forms.old.items) (newest nodes.old.items)) }
{
    match pop(forms) {
        Some(Form::Arguments(target, function, left)) => {
            emit(nodes, Node::Argument(at))?;
            operand_in(forms, Form::Arguments(target, function, left))
        }
        _ => Ok(Mode::Refused),
    }
}

// `;` after the first assignment of a `for`.
fn for_first_end(
    nodes: &mut Vec<Node>,
    keyword: Span,
    left: Span,
    equals: Span,
    semicolon: Span,
) -> Result<Mode, NoMemory>
    ensures { IfOk result (λ m. (m ≡ Mode.Statement (StatementMode.ForCondition (s.make_start keyword left semicolon))) × (newest nodes.new.items ≡ Node.Assignment equals ∷ newest nodes.old.items)) }
{
    let start = ForStart {
        keyword,
        left,
        semicolon,
    };
    let mode = Mode::Statement(StatementMode::ForCondition(start));
    emit_for(nodes, Node::Assignment(equals), mode)
}

// `;` after the condition of a `for`.
fn for_condition_end(
    nodes: &mut Vec<Node>,
    start: ForStart,
    semicolon: Span,
) -> Result<Mode, NoMemory>
    ensures { IfOk result (λ m. (m ≡ Mode.Statement (StatementMode.ForStep (s.make_middle start semicolon))) × (newest nodes.new.items ≡ Node.Condition ∷ newest nodes.old.items)) }
{
    let middle = ForMiddle { start, semicolon };
    let mode = Mode::Statement(StatementMode::ForStep(middle));
    emit_for(nodes, Node::Condition, mode)
}

// `;` after the first value of a local.
fn local_end(
    forms: &mut Vec<Form>,
    nodes: &mut Vec<Node>,
    left: Span,
    equals: Span,
    at: Span,
) -> Result<Mode, NoMemory>
    ensures { IfOk result (λ m. now m forms.new.items nodes.new.items ≡ s.begin (Form.Locals left ∷ newest forms.old.items) (Node.LocalValue equals at ∷ newest nodes.old.items)) }
{
    emit(nodes, Node::LocalValue(equals, at))?;
    statement_in(forms, Form::Locals(left))
}

// `;`
fn end_expression(forms: &mut Vec<Form>, nodes: &mut Vec<Node>, at: Span) -> Result<Mode, NoMemory>
    ensures { IfOk result (λ m. now m forms.new.items nodes.new.items ≡ s.end_expression at (newest forms.old.items) (newest nodes.old.items)) }
{
    match pop(forms) {
        Some(Form::Value(Place::AsStatement, equals)) => {
            finished(forms, nodes, Node::Assign(equals, at))
        }
        Some(Form::Value(Place::AsFirst(keyword, left), equals)) => {
            for_first_end(nodes, keyword, left, equals, at)
        }
        Some(Form::PortValue(port, equals)) => {
            finished(forms, nodes, Node::WritePort(port, equals, at))
        }
        Some(Form::Condition(start)) => for_condition_end(nodes, start, at),
        Some(Form::Return(keyword)) => finished(forms, nodes, Node::ReturnValue(keyword, at)),
        Some(Form::LocalValue(left, equals)) => local_end(forms, nodes, left, equals, at),
        _ => Ok(Mode::Refused),
    }
}

// `=`
fn begin_value(forms: &mut Vec<Form>, nodes: &mut Vec<Node>, at: Span) -> Result<Mode, NoMemory>
    ensures { IfOk result (λ m. now m forms.new.items nodes.new.items ≡ s.begin_value at (newest forms.old.items) (newest nodes.old.items)) }
{
    match pop(forms) {
        Some(Form::Target(place)) => operand_in(forms, Form::Value(place, at)),
        _ => Ok(Mode::Refused),
    }
}

// `(` after an expression alone.
fn begin_call(forms: &mut Vec<Form>, nodes: &mut Vec<Node>, at: Span) -> Mode
    ensures { now result forms.new.items nodes.new.items ≡ s.begin_call at (newest forms.old.items) (newest nodes.old.items) }
{
    match take(nodes) {
        Some(Node::Name(function)) => {
            Mode::Statement(StatementMode::FirstArgument(None, function, at))
        }
        _ => Mode::Refused,
    }
}

// `(` after `target =` and an expression.
fn begin_call_to(forms: &mut Vec<Form>, nodes: &mut Vec<Node>, equals: Span, at: Span) -> Mode
    ensures { now result forms.new.items nodes.new.items ≡ s.begin_call_to equals at (newest forms.old.items) (newest nodes.old.items) }
{
    let Some(Node::Name(function)) = take(nodes) else {
        return Mode::Refused;
    };
    match take(nodes) {
        Some(Node::Name(name)) => {
            let target = Some(CallTarget { name, equals });
            Mode::Statement(StatementMode::FirstArgument(target, function, at))
        }
        _ => Mode::Refused,
    }
}

// `(`
fn call_at(forms: &mut Vec<Form>, nodes: &mut Vec<Node>, at: Span) -> Mode
    ensures { now result forms.new.items nodes.new.items ≡ s.call_at at (newest forms.old.items) (newest nodes.old.items) }
{
    match pop(forms) {
        Some(Form::Target(Place::AsStatement)) => begin_call(forms, nodes, at),
        Some(Form::Value(Place::AsStatement, equals)) => { begin_call_to(forms, nodes, equals, at) }
        _ => Mode::Refused,
    }
}

fn mark(forms: &mut Vec<Form>, nodes: &mut Vec<Node>, t: Terminal) -> Result<Mode, NoMemory>
    ensures { IfOk result (λ m. now m forms.new.items nodes.new.items ≡ s.mark t.symbol t.span (newest forms.old.items) (newest nodes.old.items)) }
{
    match t.symbol {
        Symbol::RightParenthesis => close_parenthesis(forms, nodes, t.span),
        Symbol::RightBracket => close_bracket(forms, nodes, t.span),
        Symbol::Comma => next_argument(forms, nodes, t.span),
        Symbol::Semicolon => end_expression(forms, nodes, t.span),
        Symbol::Assign => begin_value(forms, nodes, t.span),
        Symbol::LeftParenthesis => Ok(call_at(forms, nodes, t.span)),
        Symbol::LeftBracket => operand_in(forms, Form::Index(t.span)),
        Symbol::Dot => Ok(Mode::MemberName(MemberOperator::Dot, t.span)),
        Symbol::Arrow => Ok(Mode::MemberName(MemberOperator::Arrow, t.span)),
        _ => Ok(Mode::Refused),
    }
}

fn act(forms: &mut Vec<Form>, nodes: &mut Vec<Node>, t: Terminal) -> Result<Mode, NoMemory>
    ensures { IfOk result (λ m. now m forms.new.items nodes.new.items ≡ s.act t.symbol t.span (x.settled (newest forms.old.items) (newest nodes.old.items))) }
{
    match binary_of(t.symbol) {
        Some(operator) => infix_at(forms, nodes, operator, t.span),
        None => mark(forms, nodes, t),
    }
}

/// A symbol after an operand.
pub fn after(forms: &mut Vec<Form>, nodes: &mut Vec<Node>, t: Terminal) -> Result<Mode, NoMemory>
    ensures { IfOk result (λ m. now m forms.new.items nodes.new.items ≡ s.act t.symbol t.span (x.settle (x.binds t.symbol) (newest forms.old.items) (newest nodes.old.items))) }
{
    settle(forms, nodes, binds(t.symbol))?;
    act(forms, nodes, t)
}
