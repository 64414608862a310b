//! How a call begins and ends.
ghost use Rattle.std.specs.Prelude.{◌≡◌, ℕ, ◌+◌, ◌++◌, ◌<◌, ◌^◌, drop, length, map, IfOk, OnOk, MatchResult, Ok};
ghost use Rattle.c_types.specs.Types.{type_of};
ghost use Rattle.clight_syntax.specs.Code.TypedViews.{arguments_of, expr_of, function_of, local_of, local_initialiser_of, program_of};
ghost use Rattle.clight_syntax.specs.TypedTrees.{type_at};
ghost use Rattle.clight_values.specs.Memory as m;
ghost use Rattle.clight_meaning.specs.Expressions as e;
ghost use Rattle.clight_meaning.specs.Meaning as n;
ghost use Rattle.clight_meaning.specs.Code.Missing.{MayMiss, AddsArgument};
ghost use Rattle.clight_values.specs.Code.Views.{Makes, memory_held, structs_held, variables_held};
ghost use Rattle.clight_meaning.specs.Code.Views.{frame_held, state_held};

use crate::state::{Frame, State, type_at};
use crate::statements::{converted_to, variable_type};
use c_types::{StructType, Ty};
use cerco_base::{FaultKind, Label, NoMemory};
use clight_syntax::typed::{
    Arguments, Expr, Function, Home, Local, LocalInitialiser, TypedProgram, Variable,
};
use clight_values::lookup::{item_at, items_from};
use clight_values::memory::{Memory, initial};
use clight_values::value::Value;
use std::alloc::Global;
use std::mem;

/// Why there are no values.
#[derive(Clone, Copy)]
pub(crate) enum Missing {
    Fault(FaultKind),
    Memory,
}

/// The first values of the scalars among some variables.
fn initials(alloc: Global, variables: &[Variable]) -> Result<Vec<Value>, NoMemory>
    ensures { IfOk result (λ values. values.items ≡ n.initials (variables_held variables.now)) }
{
    let mut values = Vec::new(alloc);
    for variable in variables {
        if variable.ty.is_scalar() {
            values.push(initial(&variable.ty))?;
        }
    }
    Ok(values)
}

impl<'a> State<'a> {
    /// The value of an argument, as one of the type of its parameter.
    fn argument(
        &self,
        program: &TypedProgram<Label>,
        expression: &Expr,
        parameter: usize,
    ) -> Result<Value, FaultKind>
        ensures { result ≡ n.converted_answer (type_at (expr_of expression.now)) (n.variable_type (program_of program.now) parameter) (e.value (program_of program.now) (expr_of expression.now) (state_held self.now)) }
    {
        let value = self.value(program, expression);
        converted_to(
            type_at(expression),
            variable_type(&program.variables, parameter),
            value,
        )
    }

    /// Adds the value of the next argument.
    fn add_argument(
        &self,
        program: &TypedProgram<Label>,
        expression: &Expr,
        first: u32,
        values: &mut Vec<Value>,
    ) -> Result<(), Missing>
        ensures { MatchResult result (λ _. AddsArgument (n.converted_answer (type_at (expr_of expression.now)) (n.variable_type (program_of program.now) (first + length values.old.items)) (e.value (program_of program.now) (expr_of expression.now) (state_held self.now))) values.old.items values.new.items) (MayMiss (n.converted_answer (type_at (expr_of expression.now)) (n.variable_type (program_of program.now) (first + length values.old.items)) (e.value (program_of program.now) (expr_of expression.now) (state_held self.now)))) }
    {
        let Some(parameter) = (first as usize).checked_add(values.len()) else {
            return Err(Missing::Memory);
        };
        match self.argument(program, expression, parameter) {
            Err(kind) => Err(Missing::Fault(kind)),
            Ok(value) => {
                if values.push(value).is_err() {
                    return Err(Missing::Memory);
                }
                Ok(())
            }
        }
    }

    /// The values of the arguments of a call from left to right, each as one of the type of its parameter. The parameters are
    /// numbered from `first`.
    pub(crate) fn argument_values(
        &self,
        alloc: Global,
        program: &TypedProgram<Label>,
        arguments: &Arguments,
        first: u32,
    ) -> Result<Vec<Value>, Missing>
        ensures { MatchResult result (λ values. n.argument_values (program_of program.now) (n.argument_list (arguments_of arguments.now)) first (state_held self.now) ≡ Ok values.items) (MayMiss (n.argument_values (program_of program.now) (n.argument_list (arguments_of arguments.now)) first (state_held self.now))) }
    {
        let mut values = Vec::new(alloc);
        match arguments {
            Arguments::Nothing => Ok(values),
            Arguments::Listed(earlier, last) => {
                for argument in earlier {
                    self.add_argument(program, &argument.value, first, &mut values)?;
                }
                self.add_argument(program, last, first, &mut values)?;
                Ok(values)
            }
        }
    }

    /// The call is over, and its caller goes on with its own frame.
    pub(crate) fn come_back(&mut self, frame: Frame<'a>)
        ensures { state_held self.new ≡ n.returned (frame_held frame.entry) (state_held self.old) }
    {
        self.memory
            .leave(self.frame.blocks as usize, self.frame.cells);
        self.frame = frame;
    }

    /// Gives a scalar that lives in a block its first value.
    fn home(&mut self, variable: &Variable, value: Option<Value>) -> Result<(), FaultKind>
        ensures { Makes (n.homed_in variable.now.home (type_of variable.now.ty) value (state_held self.old)) (state_held self.new) result }
    {
        match variable.home {
            Home::Block(_) => match value {
                None => Ok(()),
                Some(value) => {
                    let position = self.frame.home_position(variable.home);
                    self.store(&variable.ty, position, value)
                }
            },
            _ => Ok(()),
        }
    }

    /// Runs the initialiser of a local, the variable with this number.
    fn initialise(
        &mut self,
        program: &TypedProgram<Label>,
        number: usize,
        initialiser: &LocalInitialiser,
    ) -> Result<(), FaultKind>
        ensures { Makes (n.initialised_by (program_of program.now) number (local_initialiser_of initialiser.now) (state_held self.old)) (state_held self.new) result }
    {
        match initialiser {
            LocalInitialiser::Nothing => Ok(()),
            LocalInitialiser::Value(_, expression) => {
                let value = self.value(program, expression);
                self.assign_variable(program, number, type_at(expression), value)
            }
        }
    }

    /// Gives the scalars among these variables that live in a block their first values.
    fn home_all(&mut self, variables: &[Variable]) -> Result<(), FaultKind>
        ensures { Makes (n.homed (variables_held variables.now) 0 (state_held self.old)) (state_held self.new) result }
    {
        let mut number = 0;
        for variable in variables {
            if variable.ty.is_scalar() {
                let value = item_at(&self.frame.scalars, number).copied();
                self.home(variable, value)?;
                number += 1;
            }
        }
        Ok(())
    }

    /// Runs the initialisers of a function's locals, which are variables from this number on.
    fn initialise_all(
        &mut self,
        program: &TypedProgram<Label>,
        locals: &[Local],
        first: usize,
    ) -> Result<(), FaultKind>
        requires low { first < 2 ^ 33 }
        requires few { length locals.now < 2 ^ 63 }
        ensures { Makes (n.initialised (program_of program.now) (map local_of locals.now) first (state_held self.old)) (state_held self.new) result }
    {
        for (i, local) in locals.iter().enumerate() {
            self.initialise(program, first + i, &local.initialiser)?;
        }
        Ok(())
    }

    /// What comes before the statements of a function's body.
    pub(crate) fn prepare(
        &mut self,
        program: &TypedProgram<Label>,
        function: &Function<Label>,
    ) -> Result<(), FaultKind>
        ensures { Makes (n.prepared (program_of program.now) (function_of function.now) (state_held self.old)) (state_held self.new) result }
    {
        self.home_all(function.own_variables(&program.variables))?;
        let first = function.first_variable as usize + function.parameters as usize;
        self.initialise_all(program, &function.locals, first)
    }

    /// A call of a function begins with these arguments. The frame of its caller is given back.
    pub(crate) fn enter(
        &mut self,
        alloc: Global,
        program: &'a TypedProgram<Label>,
        function: &'a Function<Label>,
        arguments: Vec<Value>,
    ) -> Result<Frame<'a>, NoMemory>
        ensures state { OnOk result (state_held self.new ≡ n.entered (program_of program.now) (function_of function.now) arguments.items (state_held self.old)) }
        ensures frame { IfOk result (λ frame. frame_held frame ≡ frame_held self.old.frame) }
    {
        let variables = function.own_variables(&program.variables);
        let scalars = scalars_of(alloc, variables, arguments)?;
        let Ok(blocks) = u32::try_from(self.memory.blocks()) else {
            return Err(NoMemory);
        };
        let cells = self.memory.cells();
        let Some(made) = self.made.checked_add(1) else {
            return Err(NoMemory);
        };
        let Some(depth) = self.frame.depth.checked_add(1) else {
            return Err(NoMemory);
        };
        self.memory
            .begin_blocks(self.made, &program.structs, variables)?;
        let frame = Frame {
            blocks,
            cells,
            call: self.made,
            depth,
            result: Some(&function.result),
            scalars,
        };
        self.made = made;
        Ok(mem::replace(&mut self.frame, frame))
    }
}

/// The scalars with which a call begins: its arguments, and the first values of the others.
fn scalars_of(
    alloc: Global,
    variables: &[Variable],
    arguments: Vec<Value>,
) -> Result<Vec<Value>, NoMemory>
    ensures { IfOk result (λ values. values.items ≡ arguments.items ++ drop (length arguments.items) (n.initials (variables_held variables.now))) }
{
    let firsts = initials(alloc, variables)?;
    let mut scalars = arguments;
    let count = scalars.len();
    scalars.extend_from_slice(items_from(&firsts, count))?;
    Ok(scalars)
}
