//! What a whole statement ends.

ghost use Rattle.std.specs.Prelude.{◌≡◌, ◌∷◌, IfOk};
ghost use Rattle.clight_nodes.specs.Code.Statements as s;
ghost use Rattle.clight_nodes.specs.Code.States.{newest, now};

use cerco_base::NoMemory;
use clight_nodes::forms::Form;
use clight_nodes::modes::{Mode, StatementMode};
use clight_nodes::nodes::Node;
use clight_nodes::stack::{emit, pop, push, statement_in};
use clight_source::span::Span;

// A statement joins what holds statements.
fn join(forms: &mut Vec<Form>, nodes: &mut Vec<Node>, form: Form) -> Result<Mode, NoMemory>
    ensures { IfOk result (λ m. (m ≡ Mode.Statement StatementMode.Start) × (newest forms.new.items ≡ form ∷ newest forms.old.items) × (newest nodes.new.items ≡ Node.Then ∷ newest nodes.old.items)) }
{
    emit(nodes, Node::Then)?;
    statement_in(forms, form)
}

// A statement joins what holds statements, or is the body of a `do`.
fn gather(forms: &mut Vec<Form>, nodes: &mut Vec<Node>, form: Form) -> Result<Mode, NoMemory>
    ensures { IfOk result (λ m. now m forms.new.items nodes.new.items ≡ s.gather (form ∷ newest forms.old.items) (newest nodes.old.items)) }
{
    match form {
        Form::Do(keyword) => Ok(Mode::Statement(StatementMode::DoBody(keyword))),
        Form::Block(_) | Form::Body(_) => join(forms, nodes, form),
        Form::Locals(left) => join(forms, nodes, Form::Body(left)),
        _ => Ok(Mode::Refused),
    }
}

fn await_else(forms: &mut Vec<Form>, form: Form) -> Result<Mode, NoMemory>
    ensures { IfOk result (λ m. (m ≡ Mode.Statement StatementMode.MayElse) × (newest forms.new.items ≡ form ∷ newest forms.old.items)) }
{
    push(forms, form)?;
    Ok(Mode::Statement(StatementMode::MayElse))
}

/// A statement is whole: closes what ends with it, but no `if` that may go on with `else`.
pub fn finish(forms: &mut Vec<Form>, nodes: &mut Vec<Node>) -> Result<Mode, NoMemory>
    ensures { IfOk result (λ m. now m forms.new.items nodes.new.items ≡ s.finish (newest forms.old.items) (newest nodes.old.items)) }
{
    while let Some(form) = pop(forms) {
        match form {
            Form::While(keyword, left, right) => emit(nodes, Node::While(keyword, left, right))?,
            Form::For(middle, right) => emit(nodes, Node::For(middle, right))?,
            Form::Else(keyword, left, right, at) => {
                emit(nodes, Node::IfElse(keyword, left, right, at))?
            }
            Form::If(_, _, _) => return await_else(forms, form),
            _ => return gather(forms, nodes, form),
        }
    }
    Ok(Mode::Refused)
}

/// A statement is whole, and no `else` comes.
pub fn flush(forms: &mut Vec<Form>, nodes: &mut Vec<Node>) -> Result<Mode, NoMemory>
    ensures { IfOk result (λ m. now m forms.new.items nodes.new.items ≡ s.flush (newest forms.old.items) (newest nodes.old.items)) }
{
    while let Some(form) = pop(forms) {
        match form {
            Form::While(keyword, left, right) => emit(nodes, Node::While(keyword, left, right))?,
            Form::For(middle, right) => emit(nodes, Node::For(middle, right))?,
            Form::Else(keyword, left, right, at) => {
                emit(nodes, Node::IfElse(keyword, left, right, at))?
            }
            Form::If(keyword, left, right) => emit(nodes, Node::If(keyword, left, right))?,
            _ => return gather(forms, nodes, form),
        }
    }
    Ok(Mode::Refused)
}

/// A simple statement with its last token.
pub fn finished(forms: &mut Vec<Form>, nodes: &mut Vec<Node>, node: Node) -> Result<Mode, NoMemory>
    ensures { IfOk result (λ m. now m forms.new.items nodes.new.items ≡ s.finish (newest forms.old.items) (node ∷ newest nodes.old.items)) }
{
    emit(nodes, node)?;
    finish(forms, nodes)
}

/// `else` after a statement: the `if` that this one ends, the innermost one, has a second arm.
pub fn else_arm(forms: &mut Vec<Form>, nodes: &mut Vec<Node>, at: Span) -> Result<Mode, NoMemory>
    ensures { IfOk result (λ m. now m forms.new.items nodes.new.items ≡ s.else_arm (newest forms.old.items) (newest nodes.old.items) at) }
{
    match pop(forms) {
        Some(Form::If(keyword, left, right)) => {
            statement_in(forms, Form::Else(keyword, left, right, at))
        }
        _ => Ok(Mode::Refused),
    }
}
