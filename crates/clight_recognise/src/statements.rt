//! Terminal symbols in statements.

ghost use Rattle.std.specs.Prelude.{◌≡◌, ◌∷◌, IfOk, List};
ghost use Rattle.clight_nodes.specs.Code.Expressions as x;
ghost use Rattle.clight_nodes.specs.Code.Statements as s;
ghost use Rattle.clight_nodes.specs.Code.States.{newest, now, state};

use crate::closing::{else_arm, finished, flush};
use crate::expressions::operand;
use crate::words::first_word;
use cerco_base::NoMemory;
use clight_nodes::forms::{ForMiddle, ForStart, Form, Place};
use clight_nodes::modes::{DeclarationMode, Mode, Owner, Pending, StatementMode};
use clight_nodes::nodes::Node;
use clight_nodes::stack::{emit, emit_for, operand_in, pop, push, statement_in};
use clight_source::span::Span;
use clight_source::symbol::{Symbol, Terminal};
use clight_source::tree::{CallTarget, Name, Specifiers};

// A simple statement with its `;`.
fn ended(x: Pending, semicolon: Span) -> Node
    ensures { result ≡ s.ended x semicolon }
{
    match x {
        Pending::CallAlone(target, function, left, right) => {
            Node::CallAlone(target, function, left, right, semicolon)
        }
        Pending::Call(target, function, left, right) => {
            Node::Call(target, function, left, right, semicolon)
        }
        Pending::Read(equals, port) => Node::ReadPort(equals, port, semicolon),
        Pending::Do(keyword, inner, left, right) => {
            Node::Do(keyword, inner, left, right, semicolon)
        }
        Pending::Break(keyword) => Node::Break(keyword, semicolon),
        Pending::Continue(keyword) => Node::Continue(keyword, semicolon),
    }
}

fn ending(x: Pending) -> Mode
    ensures { result ≡ Mode.Statement (StatementMode.End x) }
{
    Mode::Statement(StatementMode::End(x))
}

// `}`
fn close_brace(forms: &mut Vec<Form>, nodes: &mut Vec<Node>, at: Span) -> Result<Mode, NoMemory>
    ensures { IfOk result (λ m. now m forms.new.items nodes.new.items ≡ s.close_brace at (newest forms.old.items) (newest nodes.old.items)) }
{
    match pop(forms) {
        Some(Form::Block(left)) => finished(forms, nodes, Node::Block(left, at)),
        Some(Form::Locals(left)) => emit_for(nodes, Node::Function(left, at), Mode::Finished),
        Some(Form::Body(left)) => emit_for(nodes, Node::Function(left, at), Mode::Finished),
        _ => Ok(Mode::Refused),
    }
}

// A symbol that begins an operand, in a form.
fn operand_of(
    forms: &mut Vec<Form>,
    nodes: &mut Vec<Node>,
    form: Form,
    t: Terminal,
) -> Result<Mode, NoMemory>
    ensures { IfOk result (λ m. now m forms.new.items nodes.new.items ≡ x.operand (form ∷ newest forms.old.items) (newest nodes.old.items) t.symbol t.span) }
{
    push(forms, form)?;
    operand(forms, nodes, t)
}

// Words of a type where a statement may begin.
fn local_words(forms: &mut Vec<Form>, nodes: &mut Vec<Node>, specifiers: Specifiers) -> Mode
    ensures { now result forms.new.items nodes.new.items ≡ s.local_words specifiers (newest forms.old.items) (newest nodes.old.items) }
{
    match pop(forms) {
        Some(Form::Locals(left)) => {
            Mode::Declaration(DeclarationMode::Words(Owner::InFunction(left), specifiers))
        }
        _ => Mode::Refused,
    }
}

// `struct` where a statement may begin.
fn local_tag(forms: &mut Vec<Form>, nodes: &mut Vec<Node>, at: Span) -> Mode
    ensures { now result forms.new.items nodes.new.items ≡ s.local_tag at (newest forms.old.items) (newest nodes.old.items) }
{
    match pop(forms) {
        Some(Form::Locals(left)) => {
            Mode::Declaration(DeclarationMode::TagName(Owner::InFunction(left), at))
        }
        _ => Mode::Refused,
    }
}

// A local, or a statement that begins with an expression.
fn begin_simple(forms: &mut Vec<Form>, nodes: &mut Vec<Node>, t: Terminal) -> Result<Mode, NoMemory>
    ensures { IfOk result (λ m. now m forms.new.items nodes.new.items ≡ s.begin_simple (newest forms.old.items) (newest nodes.old.items) t.symbol t.span) }
{
    match first_word(t.symbol, t.span) {
        Some(specifiers) => Ok(local_words(forms, nodes, specifiers)),
        None => operand_of(forms, nodes, Form::Target(Place::AsStatement), t),
    }
}

// `{`
fn open_block(forms: &mut Vec<Form>, nodes: &mut Vec<Node>, at: Span) -> Result<Mode, NoMemory>
    ensures { IfOk result (λ m. now m forms.new.items nodes.new.items ≡ s.statement (newest forms.old.items) (newest nodes.old.items) Symbol.LeftBrace at) }
{
    emit(nodes, Node::NoStatements)?;
    statement_in(forms, Form::Block(at))
}

// A symbol where a statement may begin.
fn statement(forms: &mut Vec<Form>, nodes: &mut Vec<Node>, t: Terminal) -> Result<Mode, NoMemory>
    ensures { IfOk result (λ m. now m forms.new.items nodes.new.items ≡ s.statement (newest forms.old.items) (newest nodes.old.items) t.symbol t.span) }
{
    match t.symbol {
        Symbol::Semicolon => finished(forms, nodes, Node::Empty(t.span)),
        Symbol::LeftBrace => open_block(forms, nodes, t.span),
        Symbol::RightBrace => close_brace(forms, nodes, t.span),
        Symbol::If => Ok(Mode::Statement(StatementMode::IfWord(t.span))),
        Symbol::While => Ok(Mode::Statement(StatementMode::WhileWord(t.span))),
        Symbol::Do => statement_in(forms, Form::Do(t.span)),
        Symbol::For => Ok(Mode::Statement(StatementMode::ForWord(t.span))),
        Symbol::Break => Ok(ending(Pending::Break(t.span))),
        Symbol::Continue => Ok(ending(Pending::Continue(t.span))),
        Symbol::Return => Ok(Mode::Statement(StatementMode::ReturnWord(t.span))),
        Symbol::PortOne => Ok(Mode::Statement(StatementMode::PortWord(t.span))),
        Symbol::Struct => Ok(local_tag(forms, nodes, t.span)),
        _ => begin_simple(forms, nodes, t),
    }
}

fn do_while(keyword: Span, t: Terminal) -> Mode
    ensures { (k : List Form) (z : List Node) → state result k z ≡ s.do_while keyword k z t.symbol t.span }
{
    match t.symbol {
        Symbol::While => Mode::Statement(StatementMode::DoWhile(keyword, t.span)),
        _ => Mode::Refused,
    }
}

// A symbol after a statement that an `if` ends with, which is no `else`.
fn again(
    forms: &mut Vec<Form>,
    nodes: &mut Vec<Node>,
    mode: Mode,
    t: Terminal,
) -> Result<Mode, NoMemory>
    ensures { IfOk result (λ m. now m forms.new.items nodes.new.items ≡ s.again (now mode forms.old.items nodes.old.items) t.symbol t.span) }
{
    match mode {
        Mode::Statement(StatementMode::Start) => statement(forms, nodes, t),
        Mode::Statement(StatementMode::DoBody(keyword)) => Ok(do_while(keyword, t)),
        _ => Ok(Mode::Refused),
    }
}

// A symbol after a statement in an `if`.
fn may_else(forms: &mut Vec<Form>, nodes: &mut Vec<Node>, t: Terminal) -> Result<Mode, NoMemory>
    ensures { IfOk result (λ m. now m forms.new.items nodes.new.items ≡ s.may_else (newest forms.old.items) (newest nodes.old.items) t.symbol t.span) }
{
    match t.symbol {
        Symbol::Else => else_arm(forms, nodes, t.span),
        _ => {
            let mode = flush(forms, nodes)?;
            again(forms, nodes, mode, t)
        }
    }
}

// A symbol where `(` is due.
fn opened(
    forms: &mut Vec<Form>,
    nodes: &mut Vec<Node>,
    form: Form,
    t: Terminal,
) -> Result<Mode, NoMemory>
    ensures { IfOk result (λ m. now m forms.new.items nodes.new.items ≡ s.opened form (newest forms.old.items) (newest nodes.old.items) t.symbol) }
{
    match t.symbol {
        Symbol::LeftParenthesis => operand_in(forms, form),
        _ => Ok(Mode::Refused),
    }
}

fn for_word(keyword: Span, t: Terminal) -> Mode
    ensures { (k : List Form) (z : List Node) → state result k z ≡ s.for_word keyword k z t.symbol t.span }
{
    match t.symbol {
        Symbol::LeftParenthesis => Mode::Statement(StatementMode::ForFirst(keyword, t.span)),
        _ => Mode::Refused,
    }
}

// A `for` without a first assignment.
fn no_first(nodes: &mut Vec<Node>, start: ForStart) -> Result<Mode, NoMemory>
    ensures { IfOk result (λ m. (m ≡ Mode.Statement (StatementMode.ForCondition start)) × (newest nodes.new.items ≡ Node.NoAssignment ∷ newest nodes.old.items)) }
{
    emit_for(
        nodes,
        Node::NoAssignment,
        Mode::Statement(StatementMode::ForCondition(start)),
    )
}

fn for_first(
    forms: &mut Vec<Form>,
    nodes: &mut Vec<Node>,
    keyword: Span,
    left: Span,
    t: Terminal,
) -> Result<Mode, NoMemory>
    ensures { IfOk result (λ m. now m forms.new.items nodes.new.items ≡ s.for_first keyword left (newest forms.old.items) (newest nodes.old.items) t.symbol t.span) }
{
    match t.symbol {
        Symbol::Semicolon => {
            let start = ForStart {
                keyword,
                left,
                semicolon: t.span,
            };
            no_first(nodes, start)
        }
        _ => operand_of(forms, nodes, Form::Target(Place::AsFirst(keyword, left)), t),
    }
}

// A `for` without a condition.
fn no_condition(nodes: &mut Vec<Node>, middle: ForMiddle) -> Result<Mode, NoMemory>
    ensures { IfOk result (λ m. (m ≡ Mode.Statement (StatementMode.ForStep middle)) × (newest nodes.new.items ≡ Node.NoCondition ∷ newest nodes.old.items)) }
{
    emit_for(
        nodes,
        Node::NoCondition,
        Mode::Statement(StatementMode::ForStep(middle)),
    )
}

fn for_condition(
    forms: &mut Vec<Form>,
    nodes: &mut Vec<Node>,
    start: ForStart,
    t: Terminal,
) -> Result<Mode, NoMemory>
    ensures { IfOk result (λ m. now m forms.new.items nodes.new.items ≡ s.for_condition start (newest forms.old.items) (newest nodes.old.items) t.symbol t.span) }
{
    match t.symbol {
        Symbol::Semicolon => {
            let middle = ForMiddle {
                start,
                semicolon: t.span,
            };
            no_condition(nodes, middle)
        }
        _ => operand_of(forms, nodes, Form::Condition(start), t),
    }
}

// A `for` without a last assignment.
fn no_step(forms: &mut Vec<Form>, nodes: &mut Vec<Node>, form: Form) -> Result<Mode, NoMemory>
    ensures { IfOk result (λ m. now m forms.new.items nodes.new.items ≡ s.begin (form ∷ newest forms.old.items) (Node.NoAssignment ∷ newest nodes.old.items)) }
{
    emit(nodes, Node::NoAssignment)?;
    statement_in(forms, form)
}

fn for_step(
    forms: &mut Vec<Form>,
    nodes: &mut Vec<Node>,
    middle: ForMiddle,
    t: Terminal,
) -> Result<Mode, NoMemory>
    ensures { IfOk result (λ m. now m forms.new.items nodes.new.items ≡ s.for_step middle (newest forms.old.items) (newest nodes.old.items) t.symbol t.span) }
{
    match t.symbol {
        Symbol::RightParenthesis => no_step(forms, nodes, Form::For(middle, t.span)),
        _ => operand_of(forms, nodes, Form::Target(Place::AsStep(middle)), t),
    }
}

fn return_word(
    forms: &mut Vec<Form>,
    nodes: &mut Vec<Node>,
    keyword: Span,
    t: Terminal,
) -> Result<Mode, NoMemory>
    ensures { IfOk result (λ m. now m forms.new.items nodes.new.items ≡ s.return_word keyword (newest forms.old.items) (newest nodes.old.items) t.symbol t.span) }
{
    match t.symbol {
        Symbol::Semicolon => finished(forms, nodes, Node::Return(keyword, t.span)),
        _ => operand_of(forms, nodes, Form::Return(keyword), t),
    }
}

fn port_word(
    forms: &mut Vec<Form>,
    nodes: &mut Vec<Node>,
    port: Span,
    t: Terminal,
) -> Result<Mode, NoMemory>
    ensures { IfOk result (λ m. now m forms.new.items nodes.new.items ≡ s.port_word port (newest forms.old.items) (newest nodes.old.items) t.symbol t.span) }
{
    match t.symbol {
        Symbol::Assign => operand_in(forms, Form::PortValue(port, t.span)),
        _ => Ok(Mode::Refused),
    }
}

fn first_argument(
    forms: &mut Vec<Form>,
    nodes: &mut Vec<Node>,
    target: Option<CallTarget>,
    function: Name,
    left: Span,
    t: Terminal,
) -> Result<Mode, NoMemory>
    ensures { IfOk result (λ m. now m forms.new.items nodes.new.items ≡ s.first_argument target function left (newest forms.old.items) (newest nodes.old.items) t.symbol t.span) }
{
    match t.symbol {
        Symbol::RightParenthesis => {
            Ok(ending(Pending::CallAlone(target, function, left, t.span)))
        }
        _ => {
            emit(nodes, Node::NoArguments)?;
            operand_of(forms, nodes, Form::Arguments(target, function, left), t)
        }
    }
}

fn statement_end(
    forms: &mut Vec<Form>,
    nodes: &mut Vec<Node>,
    x: Pending,
    t: Terminal,
) -> Result<Mode, NoMemory>
    ensures { IfOk result (λ m. now m forms.new.items nodes.new.items ≡ s.statement_end x (newest forms.old.items) (newest nodes.old.items) t.symbol t.span) }
{
    match t.symbol {
        Symbol::Semicolon => finished(forms, nodes, ended(x, t.span)),
        _ => Ok(Mode::Refused),
    }
}

/// A symbol in a statement.
pub fn in_statement(
    forms: &mut Vec<Form>,
    nodes: &mut Vec<Node>,
    mode: StatementMode,
    t: Terminal,
) -> Result<Mode, NoMemory>
    ensures { IfOk result (λ m. now m forms.new.items nodes.new.items ≡ s.in_statement mode (newest forms.old.items) (newest nodes.old.items) t.symbol t.span) }
{
    match mode {
        StatementMode::Start => statement(forms, nodes, t),
        StatementMode::MayElse => may_else(forms, nodes, t),
        StatementMode::IfWord(keyword) => opened(forms, nodes, Form::IfTest(keyword, t.span), t),
        StatementMode::WhileWord(keyword) => {
            opened(forms, nodes, Form::WhileTest(keyword, t.span), t)
        }
        StatementMode::DoBody(keyword) => Ok(do_while(keyword, t)),
        StatementMode::DoWhile(keyword, inner) => {
            opened(forms, nodes, Form::DoTest(keyword, inner, t.span), t)
        }
        StatementMode::ForWord(keyword) => Ok(for_word(keyword, t)),
        StatementMode::ForFirst(keyword, left) => for_first(forms, nodes, keyword, left, t),
        StatementMode::ForCondition(start) => for_condition(forms, nodes, start, t),
        StatementMode::ForStep(middle) => for_step(forms, nodes, middle, t),
        StatementMode::ReturnWord(keyword) => return_word(forms, nodes, keyword, t),
        StatementMode::PortWord(port) => port_word(forms, nodes, port, t),
        StatementMode::FirstArgument(target, function, left) => {
            first_argument(forms, nodes, target, function, left, t)
        }
        StatementMode::End(x) => statement_end(forms, nodes, x, t),
    }
}
