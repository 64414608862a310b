//! The recogniser.

ghost use Rattle.std.specs.Prelude.{◌≡◌, IfOk};
ghost use Rattle.clight_nodes.specs.Code.Recogniser as r;
ghost use Rattle.clight_nodes.specs.Code.States.{now};

use crate::declarations::in_declaration;
use cerco_base::NoMemory;
use clight_nodes::forms::Form;
use clight_nodes::modes::{DeclarationMode, Mode};
use clight_nodes::nodes::Node;
use clight_recognise::expressions::{in_cast, member_name, operand, tag_of_cast};
use clight_recognise::marks::after;
use clight_recognise::statements::in_statement;
use clight_source::symbol::Terminal;

/// Reads one terminal symbol.
pub fn next_mode(
    forms: &mut Vec<Form>,
    nodes: &mut Vec<Node>,
    mode: Mode,
    t: Terminal,
) -> Result<Mode, NoMemory>
    ensures { IfOk result (λ m. now m forms.new.items nodes.new.items ≡ r.next (now mode forms.old.items nodes.old.items) t.symbol t.span) }
{
    match mode {
        Mode::Operand => operand(forms, nodes, t),
        Mode::AfterOperand => after(forms, nodes, t),
        Mode::MemberName(operator, at) => member_name(forms, nodes, operator, at, t),
        Mode::CastTag(left, keyword) => Ok(tag_of_cast(left, keyword, t)),
        Mode::CastWords(left, specifiers) => in_cast(forms, nodes, left, specifiers, t),
        Mode::Statement(mode) => in_statement(forms, nodes, mode, t),
        Mode::Declaration(mode) => in_declaration(forms, nodes, mode, t),
        Mode::Finished | Mode::Refused => Ok(Mode::Refused),
    }
}

/// After an item that is whole another one may begin.
pub fn again(mode: Mode) -> Mode
    ensures { result ≡ r.again mode }
{
    match mode {
        Mode::Finished => Mode::Declaration(DeclarationMode::ItemStart),
        _ => mode,
    }
}

/// Whether the symbol can't be there.
pub fn is_refused(mode: Mode) -> bool
    ensures { result ≡ r.is_refused mode }
{
    match mode {
        Mode::Refused => true,
        _ => false,
    }
}

/// Whether the text may end.
pub fn may_end(mode: Mode) -> bool
    ensures { result ≡ r.may_end mode }
{
    match mode {
        Mode::Declaration(DeclarationMode::ItemStart) => true,
        _ => false,
    }
}
