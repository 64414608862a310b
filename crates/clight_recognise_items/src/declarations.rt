//! Terminal symbols in declarations.

ghost use Rattle.std.specs.Prelude.{◌≡◌, ◌∷◌, IfOk, List};
ghost use Rattle.clight_nodes.specs.Code.Declarations as s;
ghost use Rattle.clight_nodes.specs.Code.Expressions as x;
ghost use Rattle.clight_nodes.specs.Code.States.{newest, now, state};

use crate::initialisers::in_initialiser;
use cerco_base::NoMemory;
use clight_nodes::forms::Form;
use clight_nodes::modes::{DeclarationMode, InitialiserMode, Mode, Owner, StructFront};
use clight_nodes::nodes::Node;
use clight_nodes::stack::{emit, emit_for, operand_alone, statement_alone};
use clight_recognise::words::{first_word, next_word};
use clight_source::span::Span;
use clight_source::symbol::{Literal, Symbol, Terminal};
use clight_source::tree::{Length, Name, Specifiers};

fn type_words(owner: Owner, t: Terminal) -> Mode
    ensures { (k : List Form) (z : List Node) → state result k z ≡ s.type_words owner z t.symbol t.span }
{
    match first_word(t.symbol, t.span) {
        Some(specifiers) => Mode::Declaration(DeclarationMode::Words(owner, specifiers)),
        None => Mode::Refused,
    }
}

// A symbol where the type of a declaration is due.
fn type_start(owner: Owner, t: Terminal) -> Mode
    ensures { (k : List Form) (z : List Node) → state result k z ≡ s.type_start owner z t.symbol t.span }
{
    match t.symbol {
        Symbol::Struct => Mode::Declaration(DeclarationMode::TagName(owner, t.span)),
        _ => type_words(owner, t),
    }
}

fn tag_name(owner: Owner, keyword: Span, t: Terminal) -> Mode
    ensures { (k : List Form) (z : List Node) → state result k z ≡ s.tag_name owner keyword z t.symbol t.span }
{
    match t.symbol {
        Symbol::Name(number) => {
            let name = Name {
                number,
                span: t.span,
            };
            let specifiers = Specifiers::Struct(keyword, name);
            Mode::Declaration(DeclarationMode::Words(owner, specifiers))
        }
        _ => Mode::Refused,
    }
}

// `void` alone between the parentheses of a function.
fn void_only(
    nodes: &mut Vec<Node>,
    owner: Owner,
    specifiers: Specifiers,
    at: Span,
) -> Result<Mode, NoMemory>
    ensures { IfOk result (λ m. (k : List Form) → state m k (newest nodes.new.items) ≡ s.void_only owner specifiers (newest nodes.old.items) at) }
{
    match (owner, specifiers) {
        (Owner::InFirstParameter(left), Specifiers::Void(keyword)) => {
            let mode = Mode::Declaration(DeclarationMode::HeaderEnd);
            emit_for(nodes, Node::VoidHeader(left, keyword, at), mode)
        }
        _ => Ok(Mode::Refused),
    }
}

fn struct_front(keyword: Span, tag: Name, left: Span) -> StructFront
    ensures { result ≡ s.make_front keyword tag left }
{
    StructFront { keyword, tag, left }
}

// `struct tag {`
fn struct_start(
    nodes: &mut Vec<Node>,
    owner: Owner,
    specifiers: Specifiers,
    at: Span,
) -> Result<Mode, NoMemory>
    ensures { IfOk result (λ m. (k : List Form) → state m k (newest nodes.new.items) ≡ s.struct_start owner specifiers (newest nodes.old.items) at) }
{
    match (owner, specifiers) {
        (Owner::InSource, Specifiers::Struct(keyword, tag)) => {
            let owner = Owner::InStruct(struct_front(keyword, tag, at));
            let mode = Mode::Declaration(DeclarationMode::TypeStart(owner));
            emit_for(nodes, Node::NoMembers, mode)
        }
        _ => Ok(Mode::Refused),
    }
}

fn more_words(owner: Owner, specifiers: Specifiers, t: Terminal) -> Mode
    ensures { (k : List Form) (z : List Node) → state result k z ≡ s.more_words owner specifiers z t.symbol t.span }
{
    match next_word(specifiers, t.symbol, t.span) {
        Some(longer) => Mode::Declaration(DeclarationMode::Words(owner, longer)),
        None => Mode::Refused,
    }
}

// The first star after the words of a type.
fn first_star(
    nodes: &mut Vec<Node>,
    owner: Owner,
    specifiers: Specifiers,
    at: Span,
) -> Result<Mode, NoMemory>
    ensures { IfOk result (λ m. (m ≡ Mode.Declaration (DeclarationMode.Stars owner specifiers)) × (newest nodes.new.items ≡ Node.Star at ∷ (Node.NoStars ∷ newest nodes.old.items))) }
{
    emit(nodes, Node::NoStars)?;
    let mode = Mode::Declaration(DeclarationMode::Stars(owner, specifiers));
    emit_for(nodes, Node::Star(at), mode)
}

// The name that is declared, after the stars.
fn name_declared(
    nodes: &mut Vec<Node>,
    owner: Owner,
    specifiers: Specifiers,
    number: u32,
    span: Span,
) -> Result<Mode, NoMemory>
    ensures { IfOk result (λ m. (m ≡ Mode.Declaration (DeclarationMode.Named owner)) × (newest nodes.new.items ≡ Node.Declared specifiers (x.make_name number span) ∷ newest nodes.old.items)) }
{
    let node = Node::Declared(specifiers, Name { number, span });
    emit_for(
        nodes,
        node,
        Mode::Declaration(DeclarationMode::Named(owner)),
    )
}

// The name that is declared, directly after the words of its type.
fn name_alone(
    nodes: &mut Vec<Node>,
    owner: Owner,
    specifiers: Specifiers,
    number: u32,
    span: Span,
) -> Result<Mode, NoMemory>
    ensures { IfOk result (λ m. (m ≡ Mode.Declaration (DeclarationMode.Named owner)) × (newest nodes.new.items ≡ Node.Declared specifiers (x.make_name number span) ∷ (Node.NoStars ∷ newest nodes.old.items))) }
{
    emit(nodes, Node::NoStars)?;
    name_declared(nodes, owner, specifiers, number, span)
}

// A symbol after words of a type.
fn words(
    nodes: &mut Vec<Node>,
    owner: Owner,
    specifiers: Specifiers,
    t: Terminal,
) -> Result<Mode, NoMemory>
    ensures { IfOk result (λ m. (k : List Form) → state m k (newest nodes.new.items) ≡ s.words owner specifiers (newest nodes.old.items) t.symbol t.span) }
{
    match t.symbol {
        Symbol::Star => first_star(nodes, owner, specifiers, t.span),
        Symbol::Name(number) => name_alone(nodes, owner, specifiers, number, t.span),
        Symbol::RightParenthesis => void_only(nodes, owner, specifiers, t.span),
        Symbol::LeftBrace => struct_start(nodes, owner, specifiers, t.span),
        _ => Ok(more_words(owner, specifiers, t)),
    }
}

// A symbol after a star.
fn in_stars(
    nodes: &mut Vec<Node>,
    owner: Owner,
    specifiers: Specifiers,
    t: Terminal,
) -> Result<Mode, NoMemory>
    ensures { IfOk result (λ m. (k : List Form) → state m k (newest nodes.new.items) ≡ s.in_stars owner specifiers (newest nodes.old.items) t.symbol t.span) }
{
    match t.symbol {
        Symbol::Star => {
            let mode = Mode::Declaration(DeclarationMode::Stars(owner, specifiers));
            emit_for(nodes, Node::Star(t.span), mode)
        }
        Symbol::Name(number) => name_declared(nodes, owner, specifiers, number, t.span),
        _ => Ok(Mode::Refused),
    }
}

fn open_parameters(nodes: &mut Vec<Node>, owner: Owner, at: Span) -> Result<Mode, NoMemory>
    ensures { IfOk result (λ m. (k : List Form) → state m k (newest nodes.new.items) ≡ s.open_parameters owner (newest nodes.old.items) at) }
{
    match owner {
        Owner::InSource => {
            let owner = Owner::InFirstParameter(at);
            let mode = Mode::Declaration(DeclarationMode::TypeStart(owner));
            emit_for(nodes, Node::NoParameters, mode)
        }
        _ => Ok(Mode::Refused),
    }
}

// `[`, which no parameter has.
fn open_length(owner: Owner, at: Span) -> Mode
    ensures { (k : List Form) (z : List Node) → state result k z ≡ s.open_length owner z at }
{
    match owner {
        Owner::InFirstParameter(_) => Mode::Refused,
        Owner::InLaterParameter(_) => Mode::Refused,
        _ => Mode::Declaration(DeclarationMode::LengthNumber(owner, at)),
    }
}

// `;` after a global without a first value.
fn global(nodes: &mut Vec<Node>, at: Span) -> Result<Mode, NoMemory>
    ensures { IfOk result (λ m. (m ≡ Mode.Finished) × (newest nodes.new.items ≡ Node.Global at ∷ (Node.NoInitialiser ∷ newest nodes.old.items))) }
{
    emit(nodes, Node::NoInitialiser)?;
    emit_for(nodes, Node::Global(at), Mode::Finished)
}

// `;` after a local without a first value.
fn local(
    forms: &mut Vec<Form>,
    nodes: &mut Vec<Node>,
    left: Span,
    at: Span,
) -> Result<Mode, NoMemory>
    ensures { IfOk result (λ m. now m forms.new.items nodes.new.items ≡ s.end_declaration (Owner.InFunction left) (newest nodes.old.items) at) }
{
    emit(nodes, Node::Local(at))?;
    statement_alone(forms, Form::Locals(left))
}

// `;` after a declaration.
fn end_declaration(
    forms: &mut Vec<Form>,
    nodes: &mut Vec<Node>,
    owner: Owner,
    at: Span,
) -> Result<Mode, NoMemory>
    ensures { IfOk result (λ m. now m forms.new.items nodes.new.items ≡ s.end_declaration owner (newest nodes.old.items) at) }
{
    match owner {
        Owner::InSource => global(nodes, at),
        Owner::InStruct(front) => {
            let mode = Mode::Declaration(DeclarationMode::Members(front));
            emit_for(nodes, Node::Member(at), mode)
        }
        Owner::InFunction(left) => local(forms, nodes, left, at),
        _ => Ok(Mode::Refused),
    }
}

// `=` after a declaration.
fn begin_initialiser(forms: &mut Vec<Form>, owner: Owner, at: Span) -> Result<Mode, NoMemory>
    ensures { IfOk result (λ m. (z : List Node) → state m (newest forms.new.items) z ≡ s.begin_initialiser owner z at) }
{
    match owner {
        Owner::InSource => {
            let mode = InitialiserMode::Start(at);
            Ok(Mode::Declaration(DeclarationMode::Initialiser(mode)))
        }
        Owner::InFunction(left) => operand_alone(forms, Form::LocalValue(left, at)),
        _ => Ok(Mode::Refused),
    }
}

// One parameter more, after which another one comes.
fn parameter(nodes: &mut Vec<Node>, left: Span, at: Span) -> Result<Mode, NoMemory>
    ensures { IfOk result (λ m. (m ≡ Mode.Declaration (DeclarationMode.TypeStart (Owner.InLaterParameter left))) × (newest nodes.new.items ≡ Node.Parameter at ∷ newest nodes.old.items)) }
{
    let owner = Owner::InLaterParameter(left);
    let mode = Mode::Declaration(DeclarationMode::TypeStart(owner));
    emit_for(nodes, Node::Parameter(at), mode)
}

// `,` after a parameter.
fn next_parameter(nodes: &mut Vec<Node>, owner: Owner, at: Span) -> Result<Mode, NoMemory>
    ensures { IfOk result (λ m. (k : List Form) → state m k (newest nodes.new.items) ≡ s.next_parameter owner (newest nodes.old.items) at) }
{
    match owner {
        Owner::InFirstParameter(left) => parameter(nodes, left, at),
        Owner::InLaterParameter(left) => parameter(nodes, left, at),
        _ => Ok(Mode::Refused),
    }
}

// The parameters are whole.
fn header(nodes: &mut Vec<Node>, left: Span, at: Span) -> Result<Mode, NoMemory>
    ensures { IfOk result (λ m. (m ≡ Mode.Declaration DeclarationMode.HeaderEnd) × (newest nodes.new.items ≡ Node.Header left at ∷ newest nodes.old.items)) }
{
    let mode = Mode::Declaration(DeclarationMode::HeaderEnd);
    emit_for(nodes, Node::Header(left, at), mode)
}

// `)` after a parameter.
fn end_parameters(nodes: &mut Vec<Node>, owner: Owner, at: Span) -> Result<Mode, NoMemory>
    ensures { IfOk result (λ m. (k : List Form) → state m k (newest nodes.new.items) ≡ s.end_parameters owner (newest nodes.old.items) at) }
{
    match owner {
        Owner::InFirstParameter(left) => header(nodes, left, at),
        Owner::InLaterParameter(left) => header(nodes, left, at),
        _ => Ok(Mode::Refused),
    }
}

// A symbol after a declaration that goes on with a length, ends or has a first value.
fn lengths(
    forms: &mut Vec<Form>,
    nodes: &mut Vec<Node>,
    owner: Owner,
    t: Terminal,
) -> Result<Mode, NoMemory>
    ensures { IfOk result (λ m. now m forms.new.items nodes.new.items ≡ s.lengths owner (newest nodes.old.items) t.symbol t.span) }
{
    match t.symbol {
        Symbol::LeftBracket => Ok(open_length(owner, t.span)),
        Symbol::Semicolon => end_declaration(forms, nodes, owner, t.span),
        Symbol::Assign => begin_initialiser(forms, owner, t.span),
        _ => Ok(Mode::Refused),
    }
}

// The same, of a declaration without lengths so far.
fn without_lengths(
    forms: &mut Vec<Form>,
    nodes: &mut Vec<Node>,
    owner: Owner,
    t: Terminal,
) -> Result<Mode, NoMemory>
    ensures { IfOk result (λ m. now m forms.new.items nodes.new.items ≡ s.lengths owner (Node.NoLengths ∷ newest nodes.old.items) t.symbol t.span) }
{
    emit(nodes, Node::NoLengths)?;
    lengths(forms, nodes, owner, t)
}

// A symbol after the name that is declared.
fn named(
    forms: &mut Vec<Form>,
    nodes: &mut Vec<Node>,
    owner: Owner,
    t: Terminal,
) -> Result<Mode, NoMemory>
    ensures { IfOk result (λ m. now m forms.new.items nodes.new.items ≡ s.named owner (newest nodes.old.items) t.symbol t.span) }
{
    match t.symbol {
        Symbol::LeftParenthesis => open_parameters(nodes, owner, t.span),
        Symbol::Comma => next_parameter(nodes, owner, t.span),
        Symbol::RightParenthesis => end_parameters(nodes, owner, t.span),
        _ => without_lengths(forms, nodes, owner, t),
    }
}

fn length_number(owner: Owner, left: Span, t: Terminal) -> Mode
    ensures { (k : List Form) (z : List Node) → state result k z ≡ s.length_number owner left z t.symbol t.span }
{
    match t.symbol {
        Symbol::Number(number) => {
            Mode::Declaration(DeclarationMode::LengthEnd(owner, left, number, t.span))
        }
        _ => Mode::Refused,
    }
}

fn length_end(
    nodes: &mut Vec<Node>,
    owner: Owner,
    left: Span,
    number: Literal,
    span: Span,
    t: Terminal,
) -> Result<Mode, NoMemory>
    ensures { IfOk result (λ m. (k : List Form) → state m k (newest nodes.new.items) ≡ s.length_end owner left number span (newest nodes.old.items) t.symbol t.span) }
{
    match t.symbol {
        Symbol::RightBracket => {
            let length = Length {
                left,
                number,
                span,
                right: t.span,
            };
            let mode = Mode::Declaration(DeclarationMode::Lengths(owner));
            emit_for(nodes, Node::Length(length), mode)
        }
        _ => Ok(Mode::Refused),
    }
}

fn next_member(front: StructFront, t: Terminal) -> Mode
    ensures { (k : List Form) (z : List Node) → state result k z ≡ s.next_member front z t.symbol t.span }
{
    match t.symbol {
        Symbol::RightBrace => Mode::Declaration(DeclarationMode::StructEnd(front, t.span)),
        _ => type_start(Owner::InStruct(front), t),
    }
}

fn struct_end(
    nodes: &mut Vec<Node>,
    front: StructFront,
    right: Span,
    t: Terminal,
) -> Result<Mode, NoMemory>
    ensures { IfOk result (λ m. (k : List Form) → state m k (newest nodes.new.items) ≡ s.struct_end front right (newest nodes.old.items) t.symbol t.span) }
{
    match t.symbol {
        Symbol::Semicolon => emit_for(nodes, Node::Struct(front, right, t.span), Mode::Finished),
        _ => Ok(Mode::Refused),
    }
}

// The `{` of a function.
fn open_function(forms: &mut Vec<Form>, nodes: &mut Vec<Node>, at: Span) -> Result<Mode, NoMemory>
    ensures { IfOk result (λ m. now m forms.new.items nodes.new.items ≡ s.header_end (newest nodes.old.items) Symbol.LeftBrace at) }
{
    emit(nodes, Node::NoLocals)?;
    emit(nodes, Node::NoStatements)?;
    statement_alone(forms, Form::Locals(at))
}

fn header_end(forms: &mut Vec<Form>, nodes: &mut Vec<Node>, t: Terminal) -> Result<Mode, NoMemory>
    ensures { IfOk result (λ m. now m forms.new.items nodes.new.items ≡ s.header_end (newest nodes.old.items) t.symbol t.span) }
{
    match t.symbol {
        Symbol::Semicolon => emit_for(nodes, Node::Prototype(t.span), Mode::Finished),
        Symbol::LeftBrace => open_function(forms, nodes, t.span),
        _ => Ok(Mode::Refused),
    }
}

/// A symbol in a declaration.
pub fn in_declaration(
    forms: &mut Vec<Form>,
    nodes: &mut Vec<Node>,
    mode: DeclarationMode,
    t: Terminal,
) -> Result<Mode, NoMemory>
    ensures { IfOk result (λ m. now m forms.new.items nodes.new.items ≡ s.in_declaration mode (newest nodes.old.items) t.symbol t.span) }
{
    match mode {
        DeclarationMode::ItemStart => Ok(type_start(Owner::InSource, t)),
        DeclarationMode::TypeStart(owner) => Ok(type_start(owner, t)),
        DeclarationMode::TagName(owner, keyword) => Ok(tag_name(owner, keyword, t)),
        DeclarationMode::Words(owner, specifiers) => words(nodes, owner, specifiers, t),
        DeclarationMode::Stars(owner, specifiers) => in_stars(nodes, owner, specifiers, t),
        DeclarationMode::Named(owner) => named(forms, nodes, owner, t),
        DeclarationMode::Lengths(owner) => lengths(forms, nodes, owner, t),
        DeclarationMode::LengthNumber(owner, left) => Ok(length_number(owner, left, t)),
        DeclarationMode::LengthEnd(owner, left, number, span) => {
            length_end(nodes, owner, left, number, span, t)
        }
        DeclarationMode::Members(front) => Ok(next_member(front, t)),
        DeclarationMode::StructEnd(front, right) => struct_end(nodes, front, right, t),
        DeclarationMode::Initialiser(mode) => in_initialiser(nodes, mode, t),
        DeclarationMode::HeaderEnd => header_end(forms, nodes, t),
    }
}
