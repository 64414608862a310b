//! The parameters and locals of a function (ISO/IEC 9899:1999, 6.7.8 and 6.9.1).
ghost use Rattle.std.specs.Prelude.{◌≡◌, ◌++◌, ◌+◌, ◌∷◌, [], ◌&&◌, IfOk, OnOk, length, map, suc};
ghost use Rattle.c_types.specs.Kinds.{is_scalar};
ghost use Rattle.c_types.specs.Types.{type_of};
ghost use Rattle.clight_syntax.specs.Code.TypedViews.{expr_of, local_of, local_initialiser_of};
ghost use Rattle.clight_types.specs.Operands.{is_assignable, operand};
ghost use Rattle.clight_source.specs.Code.Views.{declaration_of, local_of as local_source_of, local_initialiser_of as initialiser_source_of, parameters_of as parameters_source_of};
ghost use Rattle.clight_types.specs.Declarations.{parameters_of};
ghost use Rattle.clight_typing.specs.Functions.{object, with_parameters, parameter_own};
ghost use Rattle.clight_typing.specs.Code.HeldFile.{an_own, source_own, with_owns};
ghost use Rattle.clight_typing.specs.Code.HeldOwn.{own_of};
ghost use Rattle.clight_typing.specs.Code.HeldScopes.{scope_of, declared_in, file_names};
ghost use Rattle.clight_types.specs.Outcomes.{Gives};
ghost use Rattle.clight_types.specs.Scopes.{visible};
ghost use Rattle.clight_typing.specs.TypedPrograms.{typed_first_value as typed_first_value_lem, typed_local as typed_local_lem, typed_locals as typed_locals_lem, scope_at, behind_locals, first_value_taken, locals_taken};

use crate::functions::asked;
use crate::headers::Own;
use crate::scope::{Meaning, Scope};
use c_types::Ty;
use cerco_base::{Fault, NoMemory, TypeKind};
use clight_source::tree::{self, Declaration, Declared, Name, Parameters};
use clight_syntax::typed::{Expr, Local, LocalInitialiser};
use clight_types::assignable::is_assignable_to;
use clight_types::boxes::boxed;
use std::alloc::Global;
use std::mem;

/// The parameters and locals of a function that are declared so far.
#[derive(Drop)]
pub struct Variables {
    /// The number of the next one.
    pub next: u32,
    /// Their names and types, in order.
    pub owns: Vec<Own>,
    /// The variables to which `&` was applied.
    pub taken: Vec<u32>,
}

/// The next number. 2 to the 32nd counts as out of memory.
pub fn next_number(number: u32) -> Result<u32, NoMemory>
    ensures { IfOk result (λ n. n ≡ suc number) }
{
    match number.checked_add(1) {
        Some(next) => Ok(next),
        None => Err(NoMemory),
    }
}

// Whether a local of this type takes a first value.
fn takes_first_value(ty: &Ty, value: &Expr) -> bool
    ensures { result ≡ (is_scalar (type_of ty.now) && is_assignable (operand (expr_of value.now)) (type_of ty.now)) }
{
    ty.is_scalar() && is_assignable_to(value, ty)
}

// Takes a declaration, and leaves none of its stars and lengths.
fn take_declaration(alloc: Global, x: &mut Declaration) -> Declaration
    ensures { declaration_of result ≡ declaration_of x.old }
{
    Declaration {
        declared: Declared {
            specifiers: x.declared.specifiers,
            stars: mem::replace(&mut x.declared.stars, Vec::new(alloc)),
            name: x.declared.name,
        },
        lengths: mem::replace(&mut x.lengths, Vec::new(alloc)),
    }
}

impl Scope {
    /// Declares a parameter or local.
    fn declare_own(&mut self, variables: &mut Variables, name: Name, ty: Ty) -> Result<(), NoMemory>
        ensures scope { OnOk result (scope_of self.new ≡ declared_in (object name variables.old.next (type_of ty)) (scope_of self.old)) }
        ensures names { OnOk result (file_names self.new ≡ file_names self.old) }
        ensures structs { OnOk result (self.new.structs ≡ self.old.structs) }
        ensures next { OnOk result (variables.new.next ≡ suc variables.old.next) }
        ensures owns { OnOk result (map own_of variables.new.owns.items ≡ map own_of variables.old.owns.items ++ an_own name (type_of ty) ∷ []) }
        ensures taken { OnOk result (variables.new.taken ≡ variables.old.taken) }
    {
        let copy = ty.duplicate(self.alloc)?;
        self.declare_local(name.number, Meaning::Object(variables.next, copy))?;
        variables.owns.push(Own { name, ty })?;
        variables.next = next_number(variables.next)?;
        Ok(())
    }
}

impl Scope {
    /// Declares parameters, in order.
    pub fn declare_owns(
        &mut self,
        variables: &mut Variables,
        owns: Vec<Own>,
    ) -> Result<(), NoMemory>
        ensures scope { OnOk result (scope_of self.new ≡ visible (scope_of self.old).structs (with_owns variables.old.next (map own_of owns.items) (scope_of self.old).meaning)) }
        ensures names { OnOk result (file_names self.new ≡ file_names self.old) }
        ensures structs { OnOk result (self.new.structs ≡ self.old.structs) }
        ensures next { OnOk result (variables.new.next ≡ variables.old.next + length owns.items) }
        ensures owns { OnOk result (map own_of variables.new.owns.items ≡ map own_of variables.old.owns.items ++ map own_of owns.items) }
        ensures taken { OnOk result (variables.new.taken ≡ variables.old.taken) }
    {
        for own in owns {
            let Own { name, ty } = own;
            self.declare_own(variables, name, ty)?;
        }
        Ok(())
    }

    /// The first value of a local of this type. Refused at its first node without a type, or with `Init` where the local doesn't
    /// take it.
    fn typed_first_value(
        &self,
        ty: &Ty,
        x: &tree::LocalInitialiser,
    ) -> Result<LocalInitialiser, Fault>
        ensures { Gives local_initialiser_of result (typed_first_value_lem (scope_of self.now) (type_of ty.now) (initialiser_source_of x.now)) }
    {
        match x {
            tree::LocalInitialiser::Nothing => Ok(LocalInitialiser::Nothing),
            tree::LocalInitialiser::Value(equals, value) => {
                let e = self.typed_value(value)?;
                asked(takes_first_value(ty, &e), equals.from, TypeKind::Init)?;
                Ok(LocalInitialiser::Value(*equals, Box::into_inner(e)))
            }
        }
    }

    /// Adds the variables to which a first value applies `&`.
    fn add_first_value(
        &self,
        x: &tree::LocalInitialiser,
        taken: &mut Vec<u32>,
    ) -> Result<(), NoMemory>
        ensures { OnOk result (taken.new.items ≡ taken.old.items ++ first_value_taken (scope_of self.now) (initialiser_source_of x.now)) }
    {
        match x {
            tree::LocalInitialiser::Nothing => Ok(()),
            tree::LocalInitialiser::Value(_, value) => self.add_taken(value, taken),
        }
    }

    /// A local, which is visible in its own first value. Refused at its declaration or at its first value.
    fn typed_local(&mut self, variables: &mut Variables, x: tree::Local) -> Result<Local, Fault>
        ensures gives { Gives local_of result (typed_local_lem (scope_at (scope_of self.old).structs variables.old.next (scope_of self.old).meaning (local_source_of x)) (local_source_of x)) }
        ensures scope { OnOk result (scope_of self.new ≡ scope_at (scope_of self.old).structs variables.old.next (scope_of self.old).meaning (local_source_of x)) }
        ensures names { OnOk result (file_names self.new ≡ file_names self.old) }
        ensures structs { OnOk result (self.new.structs ≡ self.old.structs) }
        ensures next { OnOk result (variables.new.next ≡ suc variables.old.next) }
        ensures owns { OnOk result (map own_of variables.new.owns.items ≡ map own_of variables.old.owns.items ++ source_own (scope_of self.old).structs (local_source_of x) ∷ []) }
        ensures taken { OnOk result (variables.new.taken.items ≡ variables.old.taken.items ++ first_value_taken (scope_at (scope_of self.old).structs variables.old.next (scope_of self.old).meaning (local_source_of x)) (initialiser_source_of x.initialiser)) }
    {
        let mut x = boxed(self.alloc, x)?;
        let ty = self.checked_declaration(&x.declaration)?;
        let copy = ty.duplicate(self.alloc)?;
        self.declare_own(variables, x.declaration.declared.name, copy)?;
        self.add_first_value(&x.initialiser, &mut variables.taken)?;
        let initialiser = self.typed_first_value(&ty, &x.initialiser)?;
        Ok(Local {
            declaration: take_declaration(self.alloc, &mut x.declaration),
            initialiser,
            semicolon: x.semicolon,
        })
    }

    /// Locals, in order. Refused at the first node without a type.
    pub fn typed_locals(
        &mut self,
        variables: &mut Variables,
        xs: Vec<tree::Local>,
    ) -> Result<Vec<Local>, Fault>
        ensures gives { Gives (λ r. map local_of r.items) result (typed_locals_lem (scope_of self.old).structs variables.old.next (scope_of self.old).meaning (map local_source_of xs.items)) }
        ensures scope { OnOk result (scope_of self.new ≡ visible (scope_of self.old).structs (behind_locals (scope_of self.old).structs variables.old.next (scope_of self.old).meaning (map local_source_of xs.items))) }
        ensures names { OnOk result (file_names self.new ≡ file_names self.old) }
        ensures structs { OnOk result (self.new.structs ≡ self.old.structs) }
        ensures owns { OnOk result (map own_of variables.new.owns.items ≡ map own_of variables.old.owns.items ++ map (source_own (scope_of self.old).structs) (map local_source_of xs.items)) }
        ensures taken { OnOk result (variables.new.taken.items ≡ variables.old.taken.items ++ locals_taken (scope_of self.old).structs variables.old.next (scope_of self.old).meaning (map local_source_of xs.items)) }
    {
        let mut typed = Vec::new(self.alloc);
        for x in xs {
            typed.push(self.typed_local(variables, x)?)?;
        }
        Ok(typed)
    }
}
