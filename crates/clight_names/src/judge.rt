//! The first wrong name of a program.
ghost use Rattle.std.specs.Prelude.{◌≡◌, ◌++◌, ◌∷◌, [], List, IfOk, OnOk};
ghost use Rattle.cerco_base.specs.declared.reasons.Fault.TheVariants as f;
ghost use Rattle.cerco_base.specs.declared.reasons.Reason.TheVariants as r;
ghost use Rattle.clight_source.specs.Code.Views.{program_of};
ghost use Rattle.clight_names.specs.declared.occurrences.Occurrence.{Occurrence};
ghost use Rattle.clight_names.specs.Spellings.{main_name as main_name_lem};
ghost use Rattle.clight_names.specs.Code.Knowledge.{AreDefined};
ghost use Rattle.clight_names.specs.NameFaults.{first_wrong as first_wrong_lem, first_name_fault};
ghost use Rattle.clight_names.specs.Outcomes.{AnswersFault};

use crate::declarations::names_of;
use crate::kinds::{kind_of, main_name};
use crate::known::{Known, is_definition};
use crate::occurrences::Occurrence;
use cerco_base::{Fault, NameKind, NoMemory, Reason};
use clight_source::{Names, Program};
use indexmap::IndexSet;
use std::alloc::Global;

// The refusal of a name.
fn refused(at: u32, kind: NameKind) -> Fault
    ensures { result ≡ f.Refused (r.Name at kind) }
{
    Fault::Refused(Reason::Name { at, kind })
}

// Adds a name, if it defines a function.
fn add_defined(defined: &mut IndexSet<u32>, x: Occurrence) -> Result<(), NoMemory>
    ensures { OnOk result ((names : List Occurrence) → AreDefined defined.old names → AreDefined defined.new (names ++ x ∷ [])) }
{
    if is_definition(x.role) {
        defined.insert_full(x.name.number)?;
    }
    Ok(())
}

// The names of the functions that these names define.
fn defined_names(alloc: Global, names: &[Occurrence]) -> Result<IndexSet<u32>, NoMemory>
    ensures { IfOk result (λ defined. AreDefined defined names.now) }
{
    let mut defined = IndexSet::new(alloc);
    for x in names {
        add_defined(&mut defined, *x)?;
    }
    Ok(defined)
}

// Refuses the first of these names that is wrong, where `main` has this number and these functions are defined.
fn judge(
    alloc: Global,
    names: &Names,
    main: u32,
    defined: &IndexSet<u32>,
    all: &[Occurrence],
) -> Result<(), Fault>
    requires main { main ≡ main_name_lem names.now }
    requires defined { AreDefined defined.now all.now }
    ensures { AnswersFault result (first_wrong_lem names.now all.now [] all.now) }
{
    let mut known = Known::new(alloc);
    for x in all {
        if let Some(kind) = kind_of(names, main, defined, &known, *x) {
            return Err(refused(x.name.span.from, kind));
        }
        known.add(*x)?;
    }
    Ok(())
}

/// Whether all names of a program are right: declared where they have to be, once in their scope, and spelled as they may be.
///
/// # Errors
///
/// The first wrong name in the order of the text, with its place and what is wrong with it (ISO/IEC 9899:1999, 6.2.1, 6.7, 6.9 and
/// 7.1.3, in the compiler's profile). A missing `main` stands at the text's end. Or out of memory.
pub fn check_names(alloc: Global, program: &Program) -> Result<(), Fault>
    ensures { AnswersFault result (first_name_fault (program_of program.now)) }
{
    let all = names_of(alloc, program)?;
    let main = main_name(&program.names)?;
    let defined = defined_names(alloc, all.as_slice())?;
    judge(alloc, &program.names, main, &defined, all.as_slice())?;
    if defined.contains(&main) {
        Ok(())
    } else {
        Err(refused(program.span.to, NameKind::Main))
    }
}
