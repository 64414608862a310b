//! Copies of declarations and of what a program knows of its variables and structs.
ghost use Rattle.std.specs.Prelude.{◌≡◌, map, IfOk};
ghost use Rattle.clight_source.specs.Code.Views.{declared_of, declaration_of, member_of as declared_member_of, struct_of, initialiser_of, global_of, earlier_parameter_of, parameters_of, header_of, prototype_of};
ghost use Rattle.c_types.specs.Types.{member_of, struct_type_of};
ghost use Rattle.clight_syntax.specs.Code.TypedViews.{local_initialiser_of, local_of, item_of, variable_of};

use crate::copies::copy_expr;
use c_types::{MemberType, StructType};
use cerco_base::NoMemory;
use clight_source::tree::{
    Declaration, Declared, EarlierParameter, Global as GlobalVariable, Header, Initialiser, Member,
    Parameters, Prototype, StructDefinition,
};
use clight_syntax::typed::{Item, Local, LocalInitialiser, Variable};
use std::alloc::Global;

// A copy of a declarator with the words before it.
fn copy_declared(x: &Declared) -> Result<Declared, NoMemory>
    ensures { IfOk result (λ r. declared_of r ≡ declared_of x.now) }
{
    Ok(Declared {
        specifiers: x.specifiers,
        stars: x.stars.clone()?,
        name: x.name,
    })
}

// A copy of a declaration.
fn copy_declaration(x: &Declaration) -> Result<Declaration, NoMemory>
    ensures { IfOk result (λ r. declaration_of r ≡ declaration_of x.now) }
{
    let lengths = x.lengths.clone()?;
    Ok(Declaration {
        declared: copy_declared(&x.declared)?,
        lengths,
    })
}

// A copy of the declaration of a member.
fn copy_member(x: &Member) -> Result<Member, NoMemory>
    ensures { IfOk result (λ r. declared_member_of r ≡ declared_member_of x.now) }
{
    Ok(Member {
        declaration: copy_declaration(&x.declaration)?,
        semicolon: x.semicolon,
    })
}

// A copy of the declarations of members.
fn copy_members(alloc: Global, xs: &[Member]) -> Result<Vec<Member>, NoMemory>
    ensures { IfOk result (λ r. map declared_member_of r.items ≡ map declared_member_of xs.now) }
{
    let mut copies = Vec::new(alloc);
    for x in xs {
        copies.push(copy_member(x)?)?;
    }
    Ok(copies)
}

// A copy of the definition of a struct.
fn copy_struct(alloc: Global, x: &StructDefinition) -> Result<StructDefinition, NoMemory>
    ensures { IfOk result (λ r. struct_of r ≡ struct_of x.now) }
{
    Ok(StructDefinition {
        keyword: x.keyword,
        tag: x.tag,
        left: x.left,
        members: copy_members(alloc, x.members.as_slice())?,
        right: x.right,
        semicolon: x.semicolon,
    })
}

// A copy of the first value of a global.
fn copy_initialiser(x: &Initialiser) -> Result<Initialiser, NoMemory>
    ensures { IfOk result (λ r. initialiser_of r ≡ initialiser_of x.now) }
{
    match x {
        Initialiser::Nothing => Ok(Initialiser::Nothing),
        Initialiser::Single(equals, number) => Ok(Initialiser::Single(*equals, *number)),
        Initialiser::Listed(equals, left, earlier, last, right) => {
            let earlier = earlier.clone()?;
            Ok(Initialiser::Listed(*equals, *left, earlier, *last, *right))
        }
    }
}

// A copy of the declaration of a global.
fn copy_global(x: &GlobalVariable) -> Result<GlobalVariable, NoMemory>
    ensures { IfOk result (λ r. global_of r ≡ global_of x.now) }
{
    Ok(GlobalVariable {
        declaration: copy_declaration(&x.declaration)?,
        initialiser: copy_initialiser(&x.initialiser)?,
        semicolon: x.semicolon,
    })
}

// A copy of a parameter and the comma after it.
fn copy_earlier_parameter(x: &EarlierParameter) -> Result<EarlierParameter, NoMemory>
    ensures { IfOk result (λ r. earlier_parameter_of r ≡ earlier_parameter_of x.now) }
{
    Ok(EarlierParameter {
        parameter: copy_declared(&x.parameter)?,
        comma: x.comma,
    })
}

// A copy of all parameters but the last one.
fn copy_earlier_parameters(
    alloc: Global,
    xs: &[EarlierParameter],
) -> Result<Vec<EarlierParameter>, NoMemory>
    ensures { IfOk result (λ r. map earlier_parameter_of r.items ≡ map earlier_parameter_of xs.now) }
{
    let mut copies = Vec::new(alloc);
    for x in xs {
        copies.push(copy_earlier_parameter(x)?)?;
    }
    Ok(copies)
}

// A copy of parameters.
fn copy_parameters(alloc: Global, x: &Parameters) -> Result<Parameters, NoMemory>
    ensures { IfOk result (λ r. parameters_of r ≡ parameters_of x.now) }
{
    match x {
        Parameters::Void(span) => Ok(Parameters::Void(*span)),
        Parameters::Listed(earlier, last) => {
            let earlier = copy_earlier_parameters(alloc, earlier.as_slice())?;
            Ok(Parameters::Listed(earlier, copy_declared(last)?))
        }
    }
}

/// A copy of what stands before a function's body.
pub fn copy_header(alloc: Global, x: &Header) -> Result<Header, NoMemory>
    ensures { IfOk result (λ r. header_of r ≡ header_of x.now) }
{
    Ok(Header {
        declared: copy_declared(&x.declared)?,
        left: x.left,
        parameters: copy_parameters(alloc, &x.parameters)?,
        right: x.right,
    })
}

// A copy of a prototype.
fn copy_prototype(alloc: Global, x: &Prototype) -> Result<Prototype, NoMemory>
    ensures { IfOk result (λ r. prototype_of r ≡ prototype_of x.now) }
{
    Ok(Prototype {
        header: copy_header(alloc, &x.header)?,
        semicolon: x.semicolon,
    })
}

// A copy of a declaration or definition of the program.
fn copy_item(alloc: Global, x: &Item) -> Result<Item, NoMemory>
    ensures { IfOk result (λ r. item_of r ≡ item_of x.now) }
{
    match x {
        Item::Struct(definition) => Ok(Item::Struct(copy_struct(alloc, definition)?)),
        Item::Global(global, number) => Ok(Item::Global(copy_global(global)?, *number)),
        Item::Prototype(prototype) => Ok(Item::Prototype(copy_prototype(alloc, prototype)?)),
        Item::Function(number) => Ok(Item::Function(*number)),
    }
}

/// A copy of the declarations and definitions of the program.
pub fn copy_items(alloc: Global, xs: &[Item]) -> Result<Vec<Item>, NoMemory>
    ensures { IfOk result (λ r. map item_of r.items ≡ map item_of xs.now) }
{
    let mut copies = Vec::new(alloc);
    for x in xs {
        copies.push(copy_item(alloc, x)?)?;
    }
    Ok(copies)
}

// A copy of the first value of a local.
fn copy_local_initialiser(alloc: Global, x: &LocalInitialiser) -> Result<LocalInitialiser, NoMemory>
    ensures { IfOk result (λ r. local_initialiser_of r ≡ local_initialiser_of x.now) }
{
    match x {
        LocalInitialiser::Nothing => Ok(LocalInitialiser::Nothing),
        LocalInitialiser::Value(equals, value) => {
            let value = copy_expr(alloc, value)?;
            Ok(LocalInitialiser::Value(*equals, Box::into_inner(value)))
        }
    }
}

// A copy of the declaration of a local.
fn copy_local(alloc: Global, x: &Local) -> Result<Local, NoMemory>
    ensures { IfOk result (λ r. local_of r ≡ local_of x.now) }
{
    Ok(Local {
        declaration: copy_declaration(&x.declaration)?,
        initialiser: copy_local_initialiser(alloc, &x.initialiser)?,
        semicolon: x.semicolon,
    })
}

/// A copy of the declarations of locals.
pub fn copy_locals(alloc: Global, xs: &[Local]) -> Result<Vec<Local>, NoMemory>
    ensures { IfOk result (λ r. map local_of r.items ≡ map local_of xs.now) }
{
    let mut copies = Vec::new(alloc);
    for x in xs {
        copies.push(copy_local(alloc, x)?)?;
    }
    Ok(copies)
}

// A copy of a variable.
fn copy_variable(alloc: Global, x: &Variable) -> Result<Variable, NoMemory>
    ensures { IfOk result (λ r. variable_of r ≡ variable_of x.now) }
{
    Ok(Variable {
        name: x.name,
        ty: x.ty.duplicate(alloc)?,
        home: x.home,
        address: x.address,
    })
}

/// A copy of the variables.
pub fn copy_variables(alloc: Global, xs: &[Variable]) -> Result<Vec<Variable>, NoMemory>
    ensures { IfOk result (λ r. map variable_of r.items ≡ map variable_of xs.now) }
{
    let mut copies = Vec::new(alloc);
    for x in xs {
        copies.push(copy_variable(alloc, x)?)?;
    }
    Ok(copies)
}

// A copy of a member.
fn copy_member_type(alloc: Global, x: &MemberType) -> Result<MemberType, NoMemory>
    ensures { IfOk result (λ r. member_of r ≡ member_of x.now) }
{
    Ok(MemberType {
        name: x.name,
        ty: x.ty.duplicate(alloc)?,
        offset: x.offset,
    })
}

// A copy of the members of a struct.
fn copy_member_types(alloc: Global, xs: &[MemberType]) -> Result<Vec<MemberType>, NoMemory>
    ensures { IfOk result (λ r. map member_of r.items ≡ map member_of xs.now) }
{
    let mut copies = Vec::new(alloc);
    for x in xs {
        copies.push(copy_member_type(alloc, x)?)?;
    }
    Ok(copies)
}

// A copy of a struct.
fn copy_struct_type(alloc: Global, x: &StructType) -> Result<StructType, NoMemory>
    ensures { IfOk result (λ r. struct_type_of r ≡ struct_type_of x.now) }
{
    Ok(StructType {
        tag: x.tag,
        members: copy_member_types(alloc, x.members.as_slice())?,
        size: x.size,
    })
}

/// A copy of the structs.
pub fn copy_struct_types(alloc: Global, xs: &[StructType]) -> Result<Vec<StructType>, NoMemory>
    ensures { IfOk result (λ r. map struct_type_of r.items ≡ map struct_type_of xs.now) }
{
    let mut copies = Vec::new(alloc);
    for x in xs {
        copies.push(copy_struct_type(alloc, x)?)?;
    }
    Ok(copies)
}
