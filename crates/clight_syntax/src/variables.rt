//! The variables of a function among those of its program.
ghost use Rattle.std.specs.Prelude.{◌≡◌, map, take, drop};
ghost use Rattle.clight_syntax.specs.Code.TypedViews.{function_of, variable_of};
ghost use Rattle.clight_syntax.specs.TypedTrees as spec;

use crate::typed::{Function, Variable};

// The variables from a number on.
fn rest_of(variables: &[Variable], first: usize) -> &[Variable]
    ensures { result.now ≡ drop first variables.now }
{
    let from = first.min(variables.len());
    &variables[from..]
}

// The first so many variables.
fn front_of(variables: &[Variable], count: usize) -> &[Variable]
    ensures { result.now ≡ take count variables.now }
{
    let to = count.min(variables.len());
    &variables[..to]
}

impl<L: Drop> Function<L> {
    /// How many parameters and locals it has.
    pub fn own_count(&self) -> usize
        ensures { result ≡ spec.own_count (function_of self.now) }
    {
        self.parameters as usize + self.locals.len()
    }

    /// Its parameters and locals, where these are the variables of its program.
    pub fn own_variables<'a>(&self, variables: &'a [Variable]) -> &'a [Variable]
        ensures { map variable_of result.now ≡ spec.own_variables (function_of self.now) (map variable_of variables.now) }
    {
        let rest = rest_of(variables, self.first_variable as usize);
        front_of(rest, self.own_count())
    }
}
