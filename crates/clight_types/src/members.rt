//! The struct that a tag means, and the members of structs (ISO/IEC 9899:1999, 6.5.2.3 and 6.7.2).
ghost use Rattle.std.specs.Prelude.{◌≡◌, IfOk};
ghost use Rattle.std.specs.Option.{option_map};
ghost use Rattle.c_types.specs.Types.{type_of, member_of as member_type_of};
ghost use Rattle.clight_syntax.specs.Code.TypedViews.{expr_of};
ghost use Rattle.clight_types.specs.Scopes.{member_of as member_of_lem};
ghost use Rattle.clight_types.specs.Declarations.{named_type as named_type_lem};
ghost use Rattle.clight_types.specs.Code.HeldJudged.{judged_of, expr_in};
ghost use Rattle.clight_types.specs.Outcomes.{Gives};
ghost use Rattle.clight_types.specs.TypedExpressions.{selected_type, select_from};
ghost use Rattle.clight_types.specs.Code.HeldStructs.{structs_of};

use crate::boxes::boxed;
use crate::judged::{Judged, refused};
use crate::operands::{carried, target};
use crate::structs::Structs;
use c_types::MemberType;
use cerco_base::{Fault, NoMemory, TypeKind};
use clight_source::tree::{MemberOperator, Name, Specifiers};
use clight_syntax::typed::Expr;
use clight_syntax::{Span, Ty};
use std::alloc::Global;

/// The member of this name in a type, if the type is a struct that has it.
fn member_of<'a>(structs: &'a Structs, ty: &Ty, name: u32) -> Option<&'a MemberType>
    ensures { option_map (λ x. member_type_of x.now) result ≡ member_of_lem (structs_of structs.now) (type_of ty.now) name }
{
    let Ty::Struct(number) = ty else {
        return None;
    };
    structs.member(*number, name)
}

/// The member that is selected from an expression, if there is one.
fn selected<'a>(
    structs: &'a Structs,
    operator: MemberOperator,
    e: &Expr,
    name: u32,
) -> Option<&'a MemberType>
    ensures { option_map (λ x. member_type_of x.now) result ≡ member_of_lem (structs_of structs.now) (selected_type operator (expr_of e.now)) name }
{
    match operator {
        MemberOperator::Dot => member_of(structs, carried(e), name),
        MemberOperator::Arrow => match target(e) {
            Some(pointee) => member_of(structs, pointee, name),
            None => None,
        },
    }
}

/// `e.member` and `e->member`. Refused with `Member` where there is none.
pub fn select(
    alloc: Global,
    structs: &Structs,
    operator: MemberOperator,
    at: Span,
    member: Name,
    e: Option<Box<Expr>>,
) -> Result<Judged, Fault>
    ensures { Gives judged_of result (select_from (structs_of structs.now) operator at member (option_map expr_in e)) }
{
    let Some(e) = e else {
        return Err(refused(at.from, TypeKind::Member));
    };
    match selected(structs, operator, &e, member.number) {
        Some(found) => {
            let ty = found.ty.duplicate(alloc)?;
            let offset = found.offset;
            let node = boxed(alloc, Expr::Member(ty, e, operator, at, member, offset))?;
            Ok(Judged::Typed(node))
        }
        None => Err(refused(at.from, TypeKind::Member)),
    }
}

/// The type that the words of a type give (ISO/IEC 9899:1999, 6.7.2). A struct's number above 2 to the 32nd counts as out of
/// memory.
pub fn named_type(structs: &Structs, words: Specifiers) -> Result<Ty, NoMemory>
    ensures { IfOk result (λ x. type_of x ≡ named_type_lem (structs_of structs.now) words) }
{
    match words {
        Specifiers::Void(_) => Ok(Ty::Void),
        Specifiers::Struct(_, tag) => match u32::try_from(structs.number(tag.number)) {
            Ok(number) => Ok(Ty::Struct(number)),
            Err(_) => Err(NoMemory),
        },
        Specifiers::Char(_) | Specifiers::UnsignedChar(_, _) => Ok(Ty::U8),
        Specifiers::SignedChar(_, _) => Ok(Ty::I8),
        Specifiers::Int(_) | Specifiers::Signed(_) | Specifiers::SignedInt(_, _) => Ok(Ty::I16),
        Specifiers::Unsigned(_) | Specifiers::UnsignedInt(_, _) => Ok(Ty::U16),
        Specifiers::Long(_)
        | Specifiers::LongInt(_, _)
        | Specifiers::SignedLong(_, _)
        | Specifiers::SignedLongInt(_, _, _) => Ok(Ty::I32),
        Specifiers::UnsignedLong(_, _) | Specifiers::UnsignedLongInt(_, _, _) => Ok(Ty::U32),
    }
}
