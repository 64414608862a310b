//! Global variables and their first values (ISO/IEC 9899:1999, 6.7.8).
ghost use Rattle.std.specs.Prelude.{◌≡◌, IfOk, map};
ghost use Rattle.clight_source.specs.Trees.{Single, Listed};
ghost use Rattle.c_types.specs.Types.{type_of};
ghost use Rattle.clight_source.specs.Code.Views.{declaration_of, initialiser_of, global_of};
ghost use Rattle.clight_types.specs.Declarations.{declaration_type as declaration_type_lem};
ghost use Rattle.clight_typing.specs.Functions.{is_number as is_number_lem, takes_list as takes_list_lem};
ghost use Rattle.clight_typing.specs.Code.HeldScopes.{scope_of};
ghost use Rattle.clight_types.specs.Outcomes.{Gives};
ghost use Rattle.clight_typing.specs.TypedPrograms.{checked_number as checked_number_lem, checked_numbers as checked_numbers_lem, checked_initialiser as checked_initialiser_lem, checked_global as checked_global_lem};

use crate::scope::Scope;
use c_types::Size;
use cerco_base::{Fault, TypeKind};
use clight_source::tree::{EarlierNumber, Global, Initialiser, SignedNumber};
use clight_syntax::{Span, Ty, literal_type};
use clight_types::judged::refused;

/// Whether a number has a type of one or two bytes.
fn is_number(x: SignedNumber) -> bool
    ensures { result ≡ is_number_lem x }
{
    match literal_type(x.number).size {
        Size::Four => false,
        _ => true,
    }
}

/// Refused with `Long` where the number's type would have four bytes.
fn checked_number(x: SignedNumber) -> Result<(), Fault>
    ensures { Gives (λ y. y) result (checked_number_lem x) }
{
    if is_number(x) {
        return Ok(());
    }
    Err(refused(x.span.from, TypeKind::Long))
}

/// Refused at the first number whose type would have four bytes.
fn checked_numbers(xs: &[EarlierNumber]) -> Result<(), Fault>
    ensures { Gives (λ y. y) result (checked_numbers_lem xs.now) }
{
    for x in xs {
        checked_number(x.number)?;
    }
    Ok(())
}

/// Whether a type is an array of integers that has so many elements at least.
fn takes_list(ty: &Ty, numbers: usize) -> bool
    ensures { result ≡ takes_list_lem (type_of ty.now) numbers }
{
    match ty {
        Ty::Array(element, count) => element.is_integer() && numbers <= *count as usize,
        _ => false,
    }
}

/// `= number` for a variable of this type. Refused with `Long` at the number, or with `Init`.
fn checked_single(ty: &Ty, equals: Span, number: SignedNumber) -> Result<(), Fault>
    ensures { Gives (λ y. y) result (checked_initialiser_lem (type_of ty.now) (Single equals number)) }
{
    checked_number(number)?;
    if ty.is_integer() {
        return Ok(());
    }
    Err(refused(equals.from, TypeKind::Init))
}

/// `= { numbers }` for a variable of this type. Refused with `Long` at a number, or with `Init`.
fn checked_list(
    ty: &Ty,
    equals: Span,
    left: Span,
    earlier: &[EarlierNumber],
    last: SignedNumber,
    right: Span,
) -> Result<(), Fault>
    ensures { Gives (λ y. y) result (checked_initialiser_lem (type_of ty.now) (Listed equals left earlier.now last right)) }
{
    checked_numbers(earlier)?;
    checked_number(last)?;
    if takes_list(ty, earlier.len() + 1) {
        return Ok(());
    }
    Err(refused(equals.from, TypeKind::Init))
}

/// The first value of a global of this type. Refused with `Long` at a number, or with `Init` where the type doesn't take it.
fn checked_initialiser(ty: &Ty, x: &Initialiser) -> Result<(), Fault>
    ensures { Gives (λ y. y) result (checked_initialiser_lem (type_of ty.now) (initialiser_of x.now)) }
{
    match x {
        Initialiser::Nothing => Ok(()),
        Initialiser::Single(equals, number) => checked_single(ty, *equals, *number),
        Initialiser::Listed(equals, left, earlier, last, right) => checked_list(
            ty, *equals, *left, earlier, *last, *right,
        ),
    }
}

impl Scope {
    /// The type of a global. Refused at its declaration or at its first value.
    pub fn checked_global(&self, x: &Global) -> Result<Ty, Fault>
        ensures gives { Gives (λ t. tt) result (checked_global_lem (scope_of self.now).structs (global_of x.now)) }
        ensures typed { IfOk result (λ t. type_of t ≡ declaration_type_lem (scope_of self.now).structs (declaration_of x.now.declaration)) }
    {
        let ty = self.checked_declaration(&x.declaration)?;
        checked_initialiser(&ty, &x.initialiser)?;
        Ok(ty)
    }
}
