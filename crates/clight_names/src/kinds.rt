//! What may be wrong with a name where it stands (ISO/IEC 9899:1999, 6.2.1, 6.7, 6.9 and 7.1.3, in the compiler's profile).
ghost use Rattle.std.specs.Prelude.{◌≡◌, ◌∷◌, [], List, length, slice_index_or, nat_lt, IfOk};
ghost use Rattle.cerco_base.specs.declared.reasons.NameKind.TheVariants as k;
ghost use Rattle.clight_names.specs.declared.occurrences.Occurrence.{Occurrence};
ghost use Rattle.clight_names.specs.Spellings.{main_name as main_name_lem};
ghost use Rattle.clight_names.specs.Code.Knowledge.{AreDefined, Knows};
ghost use Rattle.clight_names.specs.NameFaults.{is_reserved as is_reserved_lem, is_long as is_long_lem, is_undefined as is_undefined_lem, is_other_form as is_other_form_lem, first_kind as first_kind_lem, name_kind};

use crate::known::{Known, is_prototype};
use crate::occurrences::{Occurrence, Role};
use cerco_base::{NameKind, NoMemory};
use clight_source::Names;
use indexmap::IndexSet;

const GREATEST_NAME: usize = 63;

// The byte at this place of a spelling, 0 where there is none.
fn byte_at(spelling: &[u8], i: usize) -> u8
    ensures { result ≡ slice_index_or spelling.now i 0 }
{
    match spelling.get(i) {
        Some(byte) => *byte,
        None => 0,
    }
}

// Whether a name begins with `__`.
#[tactic(auto, using(crate::proofs::NameSpellings::reserved_is))]
fn is_reserved(spelling: &[u8]) -> bool
    ensures { result ≡ is_reserved_lem spelling.now }
{
    byte_at(spelling, 0) == b'_' && byte_at(spelling, 1) == b'_'
}

// Whether a name has too many bytes.
fn is_long(spelling: &[u8]) -> bool
    ensures { result ≡ is_long_lem spelling.now }
{
    GREATEST_NAME < spelling.len()
}

// Whether a name declares a function that the program doesn't define, where these are the defined ones.
fn is_undefined(defined: &IndexSet<u32>, x: Occurrence) -> bool
    ensures { (all : List Occurrence) → AreDefined defined.now all → result ≡ is_undefined_lem all x }
{
    is_prototype(x.role) && !defined.contains(&x.name.number)
}

// Whether a name in the file's scope is declared otherwise than `main` has to be.
fn is_other_form(role: Role) -> bool
    ensures { result ≡ is_other_form_lem role }
{
    match role {
        Role::DeclaresGlobal => true,
        Role::DeclaresPrototype(plain) | Role::DefinesFunction(plain) => !plain,
        Role::DefinesTag
        | Role::NamesTag(_, _)
        | Role::DeclaresMember(_)
        | Role::DeclaresLocal(_)
        | Role::Uses(_)
        | Role::Selects => false,
    }
}

// The first kind that is there.
fn first_kind(
    reserved: bool,
    long: bool,
    twice: bool,
    unknown: bool,
    undefined: bool,
    main: bool,
) -> Option<NameKind>
    ensures { result ≡ first_kind_lem (
        (reserved, k.Reserved) ∷ (long, k.Long) ∷ (twice, k.Twice) ∷ (unknown, k.Unknown) ∷ (undefined, k.Undefined) ∷ (main, k.Main) ∷ []) }
{
    if reserved {
        Some(NameKind::Reserved)
    } else if long {
        Some(NameKind::Long)
    } else if twice {
        Some(NameKind::Twice)
    } else if unknown {
        Some(NameKind::Unknown)
    } else if undefined {
        Some(NameKind::Undefined)
    } else if main {
        Some(NameKind::Main)
    } else {
        None
    }
}

/// What is wrong with a name, where `main` has this number, these functions are defined, and this is known of the names before.
pub fn kind_of(
    names: &Names,
    main: u32,
    defined: &IndexSet<u32>,
    known: &Known,
    x: Occurrence,
) -> Option<NameKind>
    requires { main ≡ main_name_lem names.now }
    ensures { (all earlier : List Occurrence) → AreDefined defined.now all → Knows known.now earlier → result ≡ name_kind names.now all earlier x }
{
    let spelling = names.spelling(x.name.number);
    let reserved = is_reserved(spelling);
    let long = is_long(spelling);
    let twice = known.is_twice(x);
    let unknown = known.is_unknown(x);
    let undefined = is_undefined(defined, x);
    let wrong_main = is_other_form(x.role) && x.name.number == main;
    first_kind(reserved, long, twice, unknown, undefined, wrong_main)
}

/// The number of the name `main`, or how many names there are if it isn't one of them.
pub fn main_name(names: &Names) -> Result<u32, NoMemory>
    ensures { IfOk result (λ number. number ≡ main_name_lem names.now) }
{
    if names.len() > u32::MAX as usize {
        return Err(NoMemory);
    }
    let count = names.len() as u32;
    for number in 0..count {
        if names.spelling(number) == b"main".as_slice() {
            return Ok(number);
        }
    }
    Ok(count)
}
