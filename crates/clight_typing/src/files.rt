//! What is declared before a place of a file (ISO/IEC 9899:1999, 6.9).
ghost use Rattle.std.specs.Prelude.{◌≡◌, ◌++◌, IfOk, OnOk, length, map, nat_eq};
ghost use Rattle.c_types.specs.Types.{type_of, struct_type_of};
ghost use Rattle.clight_syntax.specs.Code.TypedViews.{variable_of};
ghost use Rattle.clight_source.specs.Code.Views.{struct_of, global_of, header_of};
ghost use Rattle.clight_typing.specs.Functions.{function_number as function_number_lem, variables_from, has_block as has_block_lem, home_of, counted as counted_lem};
ghost use Rattle.clight_typing.specs.Code.HeldFile.{a_variable, file_for};
ghost use Rattle.clight_typing.specs.Code.HeldOwn.{own_of};
ghost use Rattle.clight_types.specs.Outcomes.{Gives};
ghost use Rattle.clight_typing.specs.Programs.{no_file, after_struct, after_global, after_prototype};
ghost use Rattle.clight_typing.specs.TypedPrograms.{checked_struct, checked_global, checked_prototype as checked_prototype_lem};
ghost use Rattle.indexmap.specs.IndexSet.{contains};

use crate::headers::Own;
use crate::locals::next_number;
use crate::scope::{Meaning, Scope};
use c_types::{StructType, Ty};
use cerco_base::{Fault, NoMemory};
use clight_source::tree::{self, Header, StructDefinition};
use clight_syntax::typed::{Home, Variable};
use clight_types::places::Places;
use clight_types::structs::Structs;
use indexmap::IndexSet;
use std::alloc::Global;
use std::mem;

/// What is declared before a place of a file.
#[derive(Drop)]
pub struct File {
    pub scope: Scope,
    /// The names of all functions that the program defines, in order.
    pub definitions: Places,
    /// The variables, in order, with no addresses yet.
    pub variables: Vec<Variable>,
    /// How many of them are globals.
    pub globals: u32,
    /// How many functions are defined.
    pub functions: u32,
}

impl File {
    /// Nothing is declared in a program that defines these functions.
    pub fn new(alloc: Global, definitions: Places) -> File
        ensures { file_for result ≡ no_file definitions }
    {
        File {
            scope: Scope::new(alloc),
            definitions,
            variables: Vec::new(alloc),
            globals: 0,
            functions: 0,
        }
    }

    /// Takes the structs.
    pub fn take_structs(&mut self) -> Vec<StructType>
        ensures structs { map struct_type_of result.items ≡ (file_for self.old).structs }
        ensures variables { self.new.variables ≡ self.old.variables }
    {
        let none = Structs::new(self.scope.alloc);
        mem::replace(&mut self.scope.structs, none).into_types()
    }
}

/// A number of things. More than 2 to the 32nd count as out of memory.
pub fn number_of_all(count: usize) -> Result<u32, NoMemory>
    ensures { IfOk result (λ n. n ≡ count) }
{
    match u32::try_from(count) {
        Ok(number) => Ok(number),
        Err(_) => Err(NoMemory),
    }
}

/// The number of the function with this name, or how many there are.
pub fn function_number(definitions: &Places, name: u32) -> Result<u32, NoMemory>
    ensures { IfOk result (λ n. n ≡ function_number_lem definitions.now name) }
{
    number_of_all(definitions.place(name))
}

impl File {
    /// A struct. Refused with the first fault of its members, or with `Size`.
    pub fn add_struct(&mut self, x: &StructDefinition) -> Result<(), Fault>
        ensures gives { Gives (λ y. y) result (checked_struct (file_for self.old).structs (struct_of x.now)) }
        ensures after { OnOk result (file_for self.new ≡ after_struct (file_for self.old) (struct_of x.now)) }
    {
        let found = self.scope.typed_struct(x)?;
        self.scope.add_struct(found)?;
        Ok(())
    }

    /// A global variable: its number. Refused at its declaration or at its first value.
    pub fn add_global(&mut self, x: &tree::Global) -> Result<u32, Fault>
        ensures gives { Gives (λ n. tt) result (checked_global (file_for self.old).structs (global_of x.now)) }
        ensures number { IfOk result (λ n. n ≡ length (file_for self.old).variables) }
        ensures after { OnOk result (file_for self.new ≡ after_global (file_for self.old) (global_of x.now)) }
    {
        let ty = self.scope.checked_global(x)?;
        let number = number_of_all(self.variables.len())?;
        let name = x.declaration.declared.name;
        let copy = ty.duplicate(self.scope.alloc)?;
        self.scope
            .declare(name.number, Meaning::Object(number, copy))?;
        self.variables.push(Variable {
            name,
            ty,
            home: Home::Global(self.globals),
            address: 0,
        })?;
        self.globals = next_number(self.globals)?;
        Ok(number)
    }

    /// Declares a function.
    pub fn declare_function(&mut self, x: &Header) -> Result<(), NoMemory>
        ensures after { OnOk result (file_for self.new ≡ after_prototype (file_for self.old) (header_of x.now)) }
        ensures scope { OnOk result (self.new.scope.structs ≡ self.old.scope.structs) }
    {
        let name = x.declared.name.number;
        let signature = self.scope.signature(x)?;
        let number = function_number(&self.definitions, name)?;
        self.scope.declare(name, Meaning::Code(number, signature))
    }

    /// A prototype. Refused at its first part without a type, or with `Params`.
    pub fn add_prototype(&mut self, x: &Header) -> Result<(), Fault>
        ensures gives { Gives (λ y. y) result (checked_prototype_lem (file_for self.old).structs (header_of x.now)) }
        ensures after { OnOk result (file_for self.new ≡ after_prototype (file_for self.old) (header_of x.now)) }
    {
        self.scope.checked_prototype(x)?;
        self.declare_function(x)?;
        Ok(())
    }
}

/// Where a parameter or local lives, where so many blocks and scalars stand before it in its function.
fn home(in_block: bool, blocks: u32, scalars: u32) -> Home
    ensures { result ≡ home_of in_block blocks scalars }
{
    if in_block {
        return Home::Block(blocks);
    }
    Home::Scalar(scalars)
}

/// How many there are with one more, if it counts. 2 to the 32nd count as out of memory.
fn counted(counts: bool, number: u32) -> Result<u32, NoMemory>
    ensures { IfOk result (λ n. n ≡ counted_lem counts number) }
{
    if counts {
        return next_number(number);
    }
    Ok(number)
}

/// Whether a parameter or local lives in a block: it is an array or a struct, or its address is taken.
fn has_block(addressed: &IndexSet<u32>, variable: u32, ty: &Ty) -> bool
    ensures { result ≡ has_block_lem (contains nat_eq addressed.now) variable (type_of ty.now) }
{
    !ty.is_scalar() || addressed.contains(&variable)
}

/// A parameter or local, where so many blocks and scalars stand before it in its function.
fn own_variable(own: Own, in_block: bool, blocks: u32, scalars: u32) -> Variable
    ensures { variable_of result ≡ a_variable (own_of own) (home_of in_block blocks scalars) }
{
    let Own { name, ty } = own;
    Variable {
        name,
        ty,
        home: home(in_block, blocks, scalars),
        address: 0,
    }
}

/// Adds the parameters and locals of a function, of which the first has this number, to the variables.
pub fn add_variables(
    all: &mut Vec<Variable>,
    addressed: &IndexSet<u32>,
    first: u32,
    owns: Vec<Own>,
) -> Result<(), NoMemory>
    ensures { OnOk result (map variable_of all.new.items ≡ map variable_of all.old.items ++ variables_from (contains nat_eq addressed.now) first 0 0 (map own_of owns.items)) }
{
    let mut variable = first;
    let mut blocks = 0;
    let mut scalars = 0;
    for own in owns {
        let in_block = has_block(addressed, variable, &own.ty);
        let scalar = own.ty.is_scalar();
        all.push(own_variable(own, in_block, blocks, scalars))?;
        variable = next_number(variable)?;
        blocks = counted(in_block, blocks)?;
        scalars = counted(scalar, scalars)?;
    }
    Ok(())
}
