//! The types that declarations give, and their sizes (ISO/IEC 9899:1999, 6.7.2 to 6.7.5).
ghost use Rattle.std.specs.Prelude.{◌≡◌, ◌≤◌, ◌+◌, IfOk, min};
ghost use Rattle.clight_source.specs.Depth.{declared_start as declared_start_lem};
ghost use Rattle.c_types.specs.Types.{type_of, size_of};
ghost use Rattle.clight_source.specs.Code.Views.{declared_of, declaration_of};
ghost use Rattle.clight_types.specs.Declarations.{pointers_to as pointers_to_lem, arrays_of as arrays_of_lem, declared_type as declared_type_lem, declaration_type as declaration_type_lem, is_size};
ghost use Rattle.clight_types.specs.Code.Held.{size_cap};
ghost use Rattle.clight_types.specs.Code.HeldStructs.{structs_of};

use crate::members::named_type;
use crate::structs::Structs;
use c_types::sizes::size_of as bytes_in;
use cerco_base::NoMemory;
use clight_source::tree::{Declaration, Declared, Length};
use clight_syntax::{Span, Ty};
use std::alloc::Global;

/// A pointer for each star (ISO/IEC 9899:1999, 6.7.5.1).
fn pointers_to(alloc: Global, stars: &[Span], ty: Ty) -> Result<Ty, NoMemory>
    ensures { IfOk result (λ x. type_of x ≡ pointers_to_lem stars.now (type_of ty)) }
{
    let mut pointer = ty;
    for _star in stars {
        pointer = Ty::Pointer(Box::new(alloc, pointer)?);
    }
    Ok(pointer)
}

/// An array for each length, of which the first is that of the whole array (ISO/IEC 9899:1999, 6.7.5.2).
fn arrays_of(alloc: Global, lengths: &[Length], ty: Ty) -> Result<Ty, NoMemory>
    ensures { IfOk result (λ x. type_of x ≡ arrays_of_lem lengths.now (type_of ty)) }
{
    match lengths {
        [] => Ok(ty),
        [first, rest @ ..] => {
            let element = arrays_of(alloc, rest, ty)?;
            Ok(Ty::Array(Box::new(alloc, element)?, first.number.value))
        }
    }
}

/// The type of a parameter or result, or of an element of a declared array.
pub fn declared_type(alloc: Global, structs: &Structs, x: &Declared) -> Result<Ty, NoMemory>
    ensures { IfOk result (λ t. type_of t ≡ declared_type_lem (structs_of structs.now) (declared_of x.now)) }
{
    let ty = named_type(structs, x.specifiers)?;
    pointers_to(alloc, &x.stars, ty)
}

/// The type of a variable or member.
pub fn declaration_type(alloc: Global, structs: &Structs, x: &Declaration) -> Result<Ty, NoMemory>
    ensures { IfOk result (λ t. type_of t ≡ declaration_type_lem (structs_of structs.now) (declaration_of x.now)) }
{
    let ty = declared_type(alloc, structs, &x.declared)?;
    arrays_of(alloc, &x.lengths, ty)
}

/// The place of a declared thing: its first star, or its name.
pub fn declared_start(x: &Declared) -> u32
    ensures { result ≡ declared_start_lem (declared_of x.now) }
{
    match x.stars.first() {
        Some(star) => star.from,
        None => x.name.span.from,
    }
}

/// How many bytes a type has, counted up to 65,536.
pub fn capped_size(structs: &Structs, ty: &Ty) -> u32
    ensures { result ≡ min (size_of (structs_of structs.now) (type_of ty.now)) size_cap }
{
    match bytes_in(&structs.types, ty) {
        Some(bytes) => bytes.min(65_536),
        None => 65_536,
    }
}

/// Whether a number of bytes, which is counted up to 65,536, is one that a type may have: 1 to 65,534.
pub fn is_capped_size(bytes: u32) -> bool
    ensures { result ≡ is_size bytes }
{
    1 <= bytes && bytes <= 65_534
}

/// Whether a type has 1 to 65,534 bytes.
pub fn has_size(structs: &Structs, ty: &Ty) -> bool
    ensures { result ≡ is_size (size_of (structs_of structs.now) (type_of ty.now)) }
{
    is_capped_size(capped_size(structs, ty))
}

/// A sum, or 65,536 where it is more.
pub fn capped_sum(left: u32, right: u32) -> u32
    requires left_capped { left ≤ size_cap }
    requires right_capped { right ≤ size_cap }
    ensures { result ≡ min (left + right) size_cap }
{
    (left + right).min(65_536)
}

/// The offset behind a member of this type at an offset, if it is below 2 to the 32nd.
pub fn offset_behind(offset: u32, structs: &Structs, ty: &Ty) -> Result<u32, NoMemory>
    ensures { IfOk result (λ n. n ≡ offset + size_of (structs_of structs.now) (type_of ty.now)) }
{
    let size = bytes_in(&structs.types, ty).ok_or(NoMemory)?;
    offset.checked_add(size).ok_or(NoMemory)
}
