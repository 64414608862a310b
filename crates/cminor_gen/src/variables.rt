//! The variables of a program, as its expressions name them.
ghost use Rattle.std.specs.Prelude.{◌≡◌, slice_get};
ghost use Rattle.c_types.specs.Types.{type_of};
ghost use Rattle.clight_syntax.specs.Code.TypedViews.{expr_of, program_of};
ghost use Rattle.clight_values.specs.Code.Views.{type_held};
ghost use Rattle.clight_meaning.specs.Meaning as n;
ghost use Rattle.cminor_gen.specs.Translation.Expressions as x;

use c_types::Ty;
use cerco_base::Label;
use clight_syntax::typed::{Expr, Home, TypedProgram};

/// The number of a scalar that lives in no block.
pub fn scalar_of(home: Home) -> Option<u32>
    ensures { result ≡ x.scalar_of home }
{
    match home {
        Home::Global(_) => None,
        Home::Block(_) => None,
        Home::Scalar(number) => Some(number),
    }
}

/// The same of the variable with a number.
pub fn scalar_in(program: &TypedProgram<Label>, variable: u32) -> Option<u32>
    ensures { result ≡ x.scalar_in (slice_get (program_of program.now).variables variable) }
{
    match program.variables.get(variable as usize) {
        Some(found) => scalar_of(found.home),
        None => None,
    }
}

/// The scalar in no block that a place is.
pub fn scalar_at(program: &TypedProgram<Label>, place: &Expr) -> Option<u32>
    ensures { result ≡ x.scalar_at (program_of program.now) (expr_of place.now) }
{
    match place {
        Expr::Variable(_, number, _) => scalar_in(program, *number),
        Expr::Parenthesis(_, _, inner, _) => scalar_at(program, inner),
        _ => None,
    }
}

/// The type of the variable with a number, if there is one.
pub fn variable_type(program: &TypedProgram<Label>, variable: u32) -> Option<&Ty>
    ensures { type_held result ≡ n.variable_type (program_of program.now) variable }
{
    match program.variables.get(variable as usize) {
        Some(found) => Some(&found.ty),
        None => None,
    }
}
