//! The typed tree of a program with its layout, or why it has none.
ghost use Rattle.std.specs.Prelude.{IfOk, IfErr};
ghost use Rattle.clight_syntax.specs.Code.TypedViews.{program_of};
ghost use Rattle.clight_source.specs.Code.Views.{program_of as program_source_of};
ghost use Rattle.clight_check.specs.Soundness.{IsSound, IsRefused};

use cerco_base::Fault;
use clight_layout::lay_out;
use clight_names::check_names;
use clight_syntax::{Program, Typed};
use clight_typing::programs::typed_program;
use std::alloc::Global;

/// The typed tree of a program, with the order of its calls, its addresses and its frames, where its names, types, calls and data are
/// right. Types, order, addresses and frames are those that the definitions give it.
///
/// # Errors
///
/// The first reason against the program, the kinds of reasons in this order:
///
/// - `Name`: the first wrong name in the order of the text;
/// - `Typing`: the first part without a type, where all names are right;
/// - `Recursion`: the first function that calls itself, directly or not, where names and types are right;
/// - `StackFull`: a path of calls has more than 64 functions, where none of these reasons is there;
/// - `DataFull`: the globals and the largest frames of a call path have more than 65,534 bytes, where none of these reasons is there.
///
/// Or out of memory. The program is dropped then.
pub fn check(alloc: Global, program: Program) -> Result<Typed, Fault>
    ensures sound { IfOk result (λ t. IsSound (program_source_of program) (program_of t)) }
    ensures unsound { IfErr result (IsRefused (program_source_of program)) }
{
    check_names(alloc, &program)?;
    let typed = typed_program(alloc, program)?;
    lay_out(alloc, typed)
}
