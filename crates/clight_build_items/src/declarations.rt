//! The nodes of declarations.

ghost use Rattle.std.specs.Prelude.{◌≡◌, OnOk};
ghost use Rattle.clight_build.specs.Code.Stacks as i;
ghost use Rattle.clight_build.specs.Code.Views.{views, expr_in, list_in};
ghost use Rattle.clight_build_items.specs.Code.Stacks as s;
ghost use Rattle.clight_source.specs.Code.Views.{declared_of, declaration_of, initialiser_of, header_of};
ghost use Rattle.clight_build_items.specs.Code.Views.{spans_in, members_in, numbers_in, parameters_in, locals_in};

use crate::stacks::{
    put_declaration, put_declared, put_header, put_initialiser, put_locals, put_members,
    put_numbers, put_parameters, put_stars, take_declaration, take_declared, take_locals,
    take_members, take_numbers, take_parameters, take_stars,
};
use cerco_base::NoMemory;
use clight_build::stacks::take_expr;
use clight_source::span::Span;
use clight_source::tree::{
    Declaration, Declared, EarlierNumber, EarlierParameter, Expr, Header, Initialiser, Length,
    Local, LocalInitialiser, Member, Name, Parameters, SignedNumber, Specifiers,
};
use std::alloc::Global;

/// One star more.
#[tactic(auto, using(crate::proofs::Pushes::pushes))]
pub fn star(stars: &mut Vec<Vec<Span>>, at: Span) -> Result<(), NoMemory>
    ensures { OnOk result (views spans_in stars.new.items ≡ s.star at (views spans_in stars.old.items)) }
{
    let Some(mut l) = take_stars(stars) else {
        return Ok(());
    };
    l.push(at)?;
    put_stars(stars, l)
}

/// A name after its stars.
#[tactic(auto, using(crate::proofs::Pushes::pushes))]
pub fn declared(
    stars: &mut Vec<Vec<Span>>,
    declareds: &mut Vec<Declared>,
    specifiers: Specifiers,
    name: Name,
) -> Result<(), NoMemory>
    ensures declareds { OnOk result (views declared_of declareds.new.items ≡ s.declared specifiers name (views spans_in stars.old.items) (views declared_of declareds.old.items)) }
    ensures stars { OnOk result (views spans_in stars.new.items ≡ i.rest (views spans_in stars.old.items)) }
{
    let Some(l) = take_stars(stars) else {
        return Ok(());
    };
    let x = Declared {
        specifiers,
        stars: l,
        name,
    };
    put_declared(declareds, x)
}

/// A declaration without lengths.
#[tactic(auto, using(crate::proofs::Pushes::pushes))]
pub fn no_lengths(
    alloc: Global,
    declareds: &mut Vec<Declared>,
    declarations: &mut Vec<Declaration>,
) -> Result<(), NoMemory>
    ensures declarations { OnOk result (views declaration_of declarations.new.items ≡ s.no_lengths (views declared_of declareds.old.items) (views declaration_of declarations.old.items)) }
    ensures declareds { OnOk result (views declared_of declareds.new.items ≡ i.rest (views declared_of declareds.old.items)) }
{
    let Some(x) = take_declared(declareds) else {
        return Ok(());
    };
    let declaration = Declaration {
        declared: x,
        lengths: Vec::new(alloc),
    };
    put_declaration(declarations, declaration)
}

/// One length more.
#[tactic(auto, using(crate::proofs::Pushes::pushes))]
pub fn one_length(declarations: &mut Vec<Declaration>, length: Length) -> Result<(), NoMemory>
    ensures { OnOk result (views declaration_of declarations.new.items ≡ s.one_length length (views declaration_of declarations.old.items)) }
{
    let Some(x) = take_declaration(declarations) else {
        return Ok(());
    };
    let Declaration {
        declared,
        mut lengths,
    } = x;
    lengths.push(length)?;
    put_declaration(declarations, Declaration { declared, lengths })
}

/// One member more.
#[tactic(auto, using(crate::proofs::Pushes::pushes))]
pub fn one_member(
    declarations: &mut Vec<Declaration>,
    members: &mut Vec<Vec<Member>>,
    semicolon: Span,
) -> Result<(), NoMemory>
    ensures members { OnOk result (views members_in members.new.items ≡ s.one_member semicolon (views declaration_of declarations.old.items) (views members_in members.old.items)) }
    ensures declarations { OnOk result (views declaration_of declarations.new.items ≡ i.rest (views declaration_of declarations.old.items)) }
{
    let Some(x) = take_declaration(declarations) else {
        return Ok(());
    };
    let Some(mut l) = take_members(members) else {
        return Ok(());
    };
    l.push(Member {
        declaration: x,
        semicolon,
    })?;
    put_members(members, l)
}

/// One number of a list more.
#[tactic(auto, using(crate::proofs::Pushes::pushes))]
pub fn one_number(
    numbers: &mut Vec<Vec<EarlierNumber>>,
    number: SignedNumber,
    comma: Span,
) -> Result<(), NoMemory>
    ensures { OnOk result (views numbers_in numbers.new.items ≡ s.one_number number comma (views numbers_in numbers.old.items)) }
{
    let Some(mut l) = take_numbers(numbers) else {
        return Ok(());
    };
    l.push(EarlierNumber { number, comma })?;
    put_numbers(numbers, l)
}

/// A list of numbers is the first value.
#[tactic(auto, using(crate::proofs::Pushes::pushes))]
pub fn listed(
    numbers: &mut Vec<Vec<EarlierNumber>>,
    initialisers: &mut Vec<Initialiser>,
    equals: Span,
    left: Span,
    number: SignedNumber,
    right: Span,
) -> Result<(), NoMemory>
    ensures initialisers { OnOk result (views initialiser_of initialisers.new.items ≡ s.listed equals left number right (views numbers_in numbers.old.items) (views initialiser_of initialisers.old.items)) }
    ensures numbers { OnOk result (views numbers_in numbers.new.items ≡ i.rest (views numbers_in numbers.old.items)) }
{
    let Some(l) = take_numbers(numbers) else {
        return Ok(());
    };
    put_initialiser(
        initialisers,
        Initialiser::Listed(equals, left, l, number, right),
    )
}

/// One parameter more.
#[tactic(auto, using(crate::proofs::Pushes::pushes))]
pub fn one_parameter(
    declareds: &mut Vec<Declared>,
    parameters: &mut Vec<Vec<EarlierParameter>>,
    comma: Span,
) -> Result<(), NoMemory>
    ensures parameters { OnOk result (views parameters_in parameters.new.items ≡ s.one_parameter comma (views declared_of declareds.old.items) (views parameters_in parameters.old.items)) }
    ensures declareds { OnOk result (views declared_of declareds.new.items ≡ i.rest (views declared_of declareds.old.items)) }
{
    let Some(x) = take_declared(declareds) else {
        return Ok(());
    };
    let Some(mut l) = take_parameters(parameters) else {
        return Ok(());
    };
    l.push(EarlierParameter {
        parameter: x,
        comma,
    })?;
    put_parameters(parameters, l)
}

/// The header of a function without parameters.
#[tactic(auto, using(crate::proofs::Pushes::pushes))]
pub fn void_header(
    parameters: &mut Vec<Vec<EarlierParameter>>,
    declareds: &mut Vec<Declared>,
    headers: &mut Vec<Header>,
    left: Span,
    keyword: Span,
    right: Span,
) -> Result<(), NoMemory>
    ensures headers { OnOk result (views header_of headers.new.items ≡ s.void_header left keyword right (views parameters_in parameters.old.items) (views declared_of declareds.old.items) (views header_of headers.old.items)) }
    ensures declareds { OnOk result (views declared_of declareds.new.items ≡ i.rest_with (views parameters_in parameters.old.items) (views declared_of declareds.old.items)) }
    ensures parameters { OnOk result (views parameters_in parameters.new.items ≡ i.rest (views parameters_in parameters.old.items)) }
{
    let Some(_none) = take_parameters(parameters) else {
        return Ok(());
    };
    let Some(x) = take_declared(declareds) else {
        return Ok(());
    };
    let header = Header {
        declared: x,
        left,
        parameters: Parameters::Void(keyword),
        right,
    };
    put_header(headers, header)
}

/// The header of a function with parameters.
#[tactic(auto, using(crate::proofs::Pushes::pushes))]
pub fn one_header(
    declareds: &mut Vec<Declared>,
    parameters: &mut Vec<Vec<EarlierParameter>>,
    headers: &mut Vec<Header>,
    left: Span,
    right: Span,
) -> Result<(), NoMemory>
    ensures headers { OnOk result (views header_of headers.new.items ≡ s.one_header left right (views declared_of declareds.old.items) (views parameters_in parameters.old.items) (views header_of headers.old.items)) }
    ensures declareds { OnOk result (views declared_of declareds.new.items ≡ i.rest_with (views parameters_in parameters.old.items) (i.rest (views declared_of declareds.old.items))) }
    ensures parameters { OnOk result (views parameters_in parameters.new.items ≡ i.rest_with (views declared_of declareds.old.items) (views parameters_in parameters.old.items)) }
{
    let Some(last) = take_declared(declareds) else {
        return Ok(());
    };
    let Some(l) = take_parameters(parameters) else {
        return Ok(());
    };
    let Some(x) = take_declared(declareds) else {
        return Ok(());
    };
    let header = Header {
        declared: x,
        left,
        parameters: Parameters::Listed(l, last),
        right,
    };
    put_header(headers, header)
}

/// One local more.
#[tactic(auto, using(crate::proofs::Pushes::pushes))]
pub fn one_local(
    declarations: &mut Vec<Declaration>,
    locals: &mut Vec<Vec<Local>>,
    semicolon: Span,
) -> Result<(), NoMemory>
    ensures locals { OnOk result (views locals_in locals.new.items ≡ s.one_local semicolon (views declaration_of declarations.old.items) (views locals_in locals.old.items)) }
    ensures declarations { OnOk result (views declaration_of declarations.new.items ≡ i.rest (views declaration_of declarations.old.items)) }
{
    let Some(x) = take_declaration(declarations) else {
        return Ok(());
    };
    let Some(mut l) = take_locals(locals) else {
        return Ok(());
    };
    l.push(Local {
        declaration: x,
        initialiser: LocalInitialiser::Nothing,
        semicolon,
    })?;
    put_locals(locals, l)
}

/// One local with a first value more.
#[tactic(auto, using(crate::proofs::Pushes::pushes))]
pub fn local_value(
    exprs: &mut Vec<Box<Expr>>,
    declarations: &mut Vec<Declaration>,
    locals: &mut Vec<Vec<Local>>,
    equals: Span,
    semicolon: Span,
) -> Result<(), NoMemory>
    ensures locals { OnOk result (views locals_in locals.new.items ≡ s.local_value equals semicolon (views expr_in exprs.old.items) (views declaration_of declarations.old.items) (views locals_in locals.old.items)) }
    ensures declarations { OnOk result (views declaration_of declarations.new.items ≡ i.rest_with (views expr_in exprs.old.items) (views declaration_of declarations.old.items)) }
    ensures exprs { OnOk result (views expr_in exprs.new.items ≡ i.rest (views expr_in exprs.old.items)) }
{
    let Some(e) = take_expr(exprs) else {
        return Ok(());
    };
    let Some(x) = take_declaration(declarations) else {
        return Ok(());
    };
    let Some(mut l) = take_locals(locals) else {
        return Ok(());
    };
    l.push(Local {
        declaration: x,
        initialiser: LocalInitialiser::Value(equals, Box::into_inner(e)),
        semicolon,
    })?;
    put_locals(locals, l)
}
