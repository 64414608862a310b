//! The open forms and the nodes, the newest last.

ghost use Rattle.std.specs.Prelude.{◌≡◌, ◌∷◌, [], ◌≤◌, ◌+◌, length, OnOk, IfOk, MatchOption};
ghost use Rattle.clight_nodes.specs.Code.States.{newest};

use crate::forms::Form;
use crate::modes::{Mode, StatementMode};
use crate::nodes::Node;
use cerco_base::NoMemory;

/// Opens a form.
pub fn push(forms: &mut Vec<Form>, form: Form) -> Result<(), NoMemory>
    ensures { OnOk result (newest forms.new.items ≡ form ∷ newest forms.old.items) }
{
    forms.push(form)?;
    Ok(())
}

/// Emits a node.
pub fn emit(nodes: &mut Vec<Node>, node: Node) -> Result<(), NoMemory>
    ensures { OnOk result (newest nodes.new.items ≡ node ∷ newest nodes.old.items) }
{
    nodes.push(node)?;
    Ok(())
}

/// Takes the innermost form.
pub fn pop(forms: &mut Vec<Form>) -> Option<Form>
    ensures value { MatchOption result ((newest forms.old.items ≡ []) × (newest forms.new.items ≡ [])) (λ f. newest forms.old.items ≡ f ∷ newest forms.new.items) }
    ensures falls { MatchOption result (length forms.new.items ≤ length forms.old.items) (λ f. length forms.old.items ≡ 1 + length forms.new.items) }
{
    forms.pop()
}

/// Takes the newest node.
pub fn take(nodes: &mut Vec<Node>) -> Option<Node>
    ensures { MatchOption result ((newest nodes.old.items ≡ []) × (newest nodes.new.items ≡ [])) (λ n. newest nodes.old.items ≡ n ∷ newest nodes.new.items) }
{
    nodes.pop()
}

/// Opens a form that an operand is due in.
pub fn operand_in(forms: &mut Vec<Form>, form: Form) -> Result<Mode, NoMemory>
    ensures { IfOk result (λ m. (m ≡ Mode.Operand) × (newest forms.new.items ≡ form ∷ newest forms.old.items)) }
{
    push(forms, form)?;
    Ok(Mode::Operand)
}

/// Opens a form that a statement is due in.
pub fn statement_in(forms: &mut Vec<Form>, form: Form) -> Result<Mode, NoMemory>
    ensures { IfOk result (λ m. (m ≡ Mode.Statement StatementMode.Start) × (newest forms.new.items ≡ form ∷ newest forms.old.items)) }
{
    push(forms, form)?;
    Ok(Mode::Statement(StatementMode::Start))
}

// Opens a form as the only one.
fn restart(forms: &mut Vec<Form>, form: Form) -> Result<(), NoMemory>
    ensures { OnOk result (newest forms.new.items ≡ form ∷ []) }
{
    forms.clear();
    push(forms, form)?;
    Ok(())
}

/// Opens a form that an operand is due in, as the only one.
pub fn operand_alone(forms: &mut Vec<Form>, form: Form) -> Result<Mode, NoMemory>
    ensures { IfOk result (λ m. (m ≡ Mode.Operand) × (newest forms.new.items ≡ form ∷ [])) }
{
    restart(forms, form)?;
    Ok(Mode::Operand)
}

/// Opens a form that a statement is due in, as the only one.
pub fn statement_alone(forms: &mut Vec<Form>, form: Form) -> Result<Mode, NoMemory>
    ensures { IfOk result (λ m. (m ≡ Mode.Statement StatementMode.Start) × (newest forms.new.items ≡ form ∷ [])) }
{
    restart(forms, form)?;
    Ok(Mode::Statement(StatementMode::Start))
}

/// Emits a node, after which the mode is this one.
pub fn emit_for(nodes: &mut Vec<Node>, node: Node, mode: Mode) -> Result<Mode, NoMemory>
    ensures { IfOk result (λ m. (m ≡ mode) × (newest nodes.new.items ≡ node ∷ newest nodes.old.items)) }
{
    emit(nodes, node)?;
    Ok(mode)
}

/// Emits the node of an operand.
pub fn operand_node(nodes: &mut Vec<Node>, node: Node) -> Result<Mode, NoMemory>
    ensures { IfOk result (λ m. (m ≡ Mode.AfterOperand) × (newest nodes.new.items ≡ node ∷ newest nodes.old.items)) }
{
    emit(nodes, node)?;
    Ok(Mode::AfterOperand)
}
