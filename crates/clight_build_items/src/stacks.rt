//! The stacks of the fold over declarations.

ghost use Rattle.std.specs.Prelude.{◌≡◌, ◌∷◌, ◌++◌, [], OnOk, MatchOption, map};
ghost use Rattle.clight_source.specs.Code.Views.{declared_of, declaration_of, initialiser_of, header_of, item_of};
ghost use Rattle.clight_build.specs.Code.Views.{views};
ghost use Rattle.clight_build_items.specs.Code.Stacks as s;
ghost use Rattle.clight_build_items.specs.Code.Views.{spans_in, members_in, numbers_in, parameters_in, locals_in, items_in, declarations_of};

use cerco_base::NoMemory;
use clight_source::span::Span;
use clight_source::tree::{
    Declaration, Declared, EarlierNumber, EarlierParameter, Header, Initialiser, Item, Local,
    Member,
};
use std::alloc::Global;

/// What joins nothing yet of declarations, the newest last.
#[derive(Drop)]
pub struct Declarations {
    pub stars: Vec<Vec<Span>>,
    pub declareds: Vec<Declared>,
    pub declarations: Vec<Declaration>,
    pub members: Vec<Vec<Member>>,
    pub numbers: Vec<Vec<EarlierNumber>>,
    pub initialisers: Vec<Initialiser>,
    pub parameters: Vec<Vec<EarlierParameter>>,
    pub headers: Vec<Header>,
    pub locals: Vec<Vec<Local>>,
}

/// Nothing is there yet.
#[tactic(auto, using(crate::proofs::Pushes::pushes))]
pub fn no_declarations(alloc: Global) -> Declarations
    ensures { declarations_of result ≡ s.no_declarations }
{
    Declarations {
        stars: Vec::new(alloc),
        declareds: Vec::new(alloc),
        declarations: Vec::new(alloc),
        members: Vec::new(alloc),
        numbers: Vec::new(alloc),
        initialisers: Vec::new(alloc),
        parameters: Vec::new(alloc),
        headers: Vec::new(alloc),
        locals: Vec::new(alloc),
    }
}

/// One list of stars more.
pub fn put_stars(stars: &mut Vec<Vec<Span>>, x: Vec<Span>) -> Result<(), NoMemory>
    ensures { OnOk result (views spans_in stars.new.items ≡ spans_in x ∷ views spans_in stars.old.items) }
{
    stars.push(x)?;
    Ok(())
}

/// Takes the newest list of stars.
pub fn take_stars(stars: &mut Vec<Vec<Span>>) -> Option<Vec<Span>>
    ensures { MatchOption result ((views spans_in stars.old.items ≡ []) × (views spans_in stars.new.items ≡ [])) (λ x. views spans_in stars.old.items ≡ spans_in x ∷ views spans_in stars.new.items) }
{
    stars.pop()
}

/// One declared thing more.
pub fn put_declared(declareds: &mut Vec<Declared>, x: Declared) -> Result<(), NoMemory>
    ensures { OnOk result (views declared_of declareds.new.items ≡ declared_of x ∷ views declared_of declareds.old.items) }
{
    declareds.push(x)?;
    Ok(())
}

/// Takes the newest declared thing.
pub fn take_declared(declareds: &mut Vec<Declared>) -> Option<Declared>
    ensures { MatchOption result ((views declared_of declareds.old.items ≡ []) × (views declared_of declareds.new.items ≡ [])) (λ x. views declared_of declareds.old.items ≡ declared_of x ∷ views declared_of declareds.new.items) }
{
    declareds.pop()
}

/// One declaration more.
pub fn put_declaration(declarations: &mut Vec<Declaration>, x: Declaration) -> Result<(), NoMemory>
    ensures { OnOk result (views declaration_of declarations.new.items ≡ declaration_of x ∷ views declaration_of declarations.old.items) }
{
    declarations.push(x)?;
    Ok(())
}

/// Takes the newest declaration.
pub fn take_declaration(declarations: &mut Vec<Declaration>) -> Option<Declaration>
    ensures { MatchOption result ((views declaration_of declarations.old.items ≡ []) × (views declaration_of declarations.new.items ≡ [])) (λ x. views declaration_of declarations.old.items ≡ declaration_of x ∷ views declaration_of declarations.new.items) }
{
    declarations.pop()
}

/// One list of members more.
pub fn put_members(members: &mut Vec<Vec<Member>>, x: Vec<Member>) -> Result<(), NoMemory>
    ensures { OnOk result (views members_in members.new.items ≡ members_in x ∷ views members_in members.old.items) }
{
    members.push(x)?;
    Ok(())
}

/// Takes the newest list of members.
pub fn take_members(members: &mut Vec<Vec<Member>>) -> Option<Vec<Member>>
    ensures { MatchOption result ((views members_in members.old.items ≡ []) × (views members_in members.new.items ≡ [])) (λ x. views members_in members.old.items ≡ members_in x ∷ views members_in members.new.items) }
{
    members.pop()
}

/// One list of numbers more.
pub fn put_numbers(
    numbers: &mut Vec<Vec<EarlierNumber>>,
    x: Vec<EarlierNumber>,
) -> Result<(), NoMemory>
    ensures { OnOk result (views numbers_in numbers.new.items ≡ numbers_in x ∷ views numbers_in numbers.old.items) }
{
    numbers.push(x)?;
    Ok(())
}

/// Takes the newest list of numbers.
pub fn take_numbers(numbers: &mut Vec<Vec<EarlierNumber>>) -> Option<Vec<EarlierNumber>>
    ensures { MatchOption result ((views numbers_in numbers.old.items ≡ []) × (views numbers_in numbers.new.items ≡ [])) (λ x. views numbers_in numbers.old.items ≡ numbers_in x ∷ views numbers_in numbers.new.items) }
{
    numbers.pop()
}

/// One first value more.
pub fn put_initialiser(initialisers: &mut Vec<Initialiser>, x: Initialiser) -> Result<(), NoMemory>
    ensures { OnOk result (views initialiser_of initialisers.new.items ≡ initialiser_of x ∷ views initialiser_of initialisers.old.items) }
{
    initialisers.push(x)?;
    Ok(())
}

/// Takes the newest first value.
pub fn take_initialiser(initialisers: &mut Vec<Initialiser>) -> Option<Initialiser>
    ensures { MatchOption result ((views initialiser_of initialisers.old.items ≡ []) × (views initialiser_of initialisers.new.items ≡ [])) (λ x. views initialiser_of initialisers.old.items ≡ initialiser_of x ∷ views initialiser_of initialisers.new.items) }
{
    initialisers.pop()
}

/// One list of parameters more.
pub fn put_parameters(
    parameters: &mut Vec<Vec<EarlierParameter>>,
    x: Vec<EarlierParameter>,
) -> Result<(), NoMemory>
    ensures { OnOk result (views parameters_in parameters.new.items ≡ parameters_in x ∷ views parameters_in parameters.old.items) }
{
    parameters.push(x)?;
    Ok(())
}

/// Takes the newest list of parameters.
pub fn take_parameters(parameters: &mut Vec<Vec<EarlierParameter>>) -> Option<Vec<EarlierParameter>>
    ensures { MatchOption result ((views parameters_in parameters.old.items ≡ []) × (views parameters_in parameters.new.items ≡ [])) (λ x. views parameters_in parameters.old.items ≡ parameters_in x ∷ views parameters_in parameters.new.items) }
{
    parameters.pop()
}

/// One header more.
pub fn put_header(headers: &mut Vec<Header>, x: Header) -> Result<(), NoMemory>
    ensures { OnOk result (views header_of headers.new.items ≡ header_of x ∷ views header_of headers.old.items) }
{
    headers.push(x)?;
    Ok(())
}

/// Takes the newest header.
pub fn take_header(headers: &mut Vec<Header>) -> Option<Header>
    ensures { MatchOption result ((views header_of headers.old.items ≡ []) × (views header_of headers.new.items ≡ [])) (λ x. views header_of headers.old.items ≡ header_of x ∷ views header_of headers.new.items) }
{
    headers.pop()
}

/// One list of locals more.
pub fn put_locals(locals: &mut Vec<Vec<Local>>, x: Vec<Local>) -> Result<(), NoMemory>
    ensures { OnOk result (views locals_in locals.new.items ≡ locals_in x ∷ views locals_in locals.old.items) }
{
    locals.push(x)?;
    Ok(())
}

/// Takes the newest list of locals.
pub fn take_locals(locals: &mut Vec<Vec<Local>>) -> Option<Vec<Local>>
    ensures { MatchOption result ((views locals_in locals.old.items ≡ []) × (views locals_in locals.new.items ≡ [])) (λ x. views locals_in locals.old.items ≡ locals_in x ∷ views locals_in locals.new.items) }
{
    locals.pop()
}

/// One item more.
#[tactic(auto, using(crate::proofs::Pushes::pushes))]
pub fn put_item(items: &mut Vec<Item>, x: Item) -> Result<(), NoMemory>
    ensures { OnOk result (items_in items.new.items ≡ items_in items.old.items ++ item_of x ∷ []) }
{
    items.push(x)?;
    Ok(())
}
