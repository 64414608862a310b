//! What names mean where they stand (ISO/IEC 9899:1999, 6.2.1).
ghost use Rattle.std.specs.Prelude.{◌≡◌, ◌++◌, ◌∷◌, [], OnOk};
ghost use Rattle.std.specs.Option.{option_map};
ghost use Rattle.c_types.specs.Types.{struct_type_of};
ghost use Rattle.clight_typing.specs.Code.HeldScopes.{meaning_for, scope_of, file_names, named, declared_in};
ghost use Rattle.clight_types.specs.Code.HeldStructs.{structs_of};
ghost use Rattle.clight_types.specs.Scopes.{nothing, visible, declare as declare_lem};

use c_types::{StructType, Ty};
use cerco_base::NoMemory;
use clight_types::structs::Structs;
use indexmap::IndexMap;
use std::alloc::Global;
use std::mem;

/// The types of a function's result and parameters.
#[derive(Drop)]
pub struct Signature {
    pub result: Ty,
    pub parameters: Vec<Ty>,
}

/// What a name means.
#[derive(Drop)]
pub enum Meaning {
    /// The variable with this number, and its type.
    Object(u32, Ty),
    /// The function with this number, in the order of the definitions.
    Code(u32, Signature),
}

/// What is visible at a place.
#[derive(Drop)]
pub struct Scope {
    pub alloc: Global,
    /// The structs, in the order of their definitions.
    pub structs: Structs,
    /// The declarations of the file.
    pub file: IndexMap<u32, Meaning>,
    /// The parameters and locals of the function, which hide those of the file.
    pub locals: IndexMap<u32, Meaning>,
}

impl Scope {
    /// What the name with this number means, if it is declared.
    pub fn look_up(&self, name: u32) -> Option<&Meaning>
        ensures { option_map (λ x. meaning_for x.now) result ≡ (scope_of self.now).meaning name }
    {
        match self.locals.get(&name) {
            Some(found) => Some(found),
            None => self.file.get(&name),
        }
    }
}

impl Scope {
    /// Nothing is declared.
    pub fn new(alloc: Global) -> Scope
        ensures names { file_names result ≡ nothing }
        ensures structs { structs_of result.structs ≡ [] }
    {
        Scope {
            alloc,
            structs: Structs::new(alloc),
            file: IndexMap::new(alloc),
            locals: IndexMap::new(alloc),
        }
    }

    /// Adds a struct. When out of memory, the scope is of no use.
    pub fn add_struct(&mut self, ty: StructType) -> Result<(), NoMemory>
        ensures names { OnOk result (file_names self.new ≡ file_names self.old) }
        ensures structs { OnOk result (structs_of self.new.structs ≡ structs_of self.old.structs ++ struct_type_of ty ∷ []) }
    {
        let before = mem::replace(&mut self.structs, Structs::new(self.alloc));
        self.structs = before.push(ty)?;
        Ok(())
    }

    /// Declares a name in the file. When out of memory, the scope is of no use.
    pub fn declare(&mut self, name: u32, meaning: Meaning) -> Result<(), NoMemory>
        ensures names { OnOk result (file_names self.new ≡ declare_lem (named name meaning) (file_names self.old)) }
        ensures structs { OnOk result (self.new.structs ≡ self.old.structs) }
    {
        self.file.insert(name, meaning)?;
        Ok(())
    }

    /// Declares a parameter or local of the function. When out of memory, the scope is of no use.
    pub fn declare_local(&mut self, name: u32, meaning: Meaning) -> Result<(), NoMemory>
        ensures scope { OnOk result (scope_of self.new ≡ declared_in (named name meaning) (scope_of self.old)) }
        ensures names { OnOk result (file_names self.new ≡ file_names self.old) }
        ensures structs { OnOk result (self.new.structs ≡ self.old.structs) }
    {
        self.locals.insert(name, meaning)?;
        Ok(())
    }

    /// Forgets the parameters and locals of the function before.
    pub fn forget_locals(&mut self)
        ensures scope { scope_of self.new ≡ visible (structs_of self.old.structs) (file_names self.old) }
        ensures names { file_names self.new ≡ file_names self.old }
        ensures structs { self.new.structs ≡ self.old.structs }
    {
        self.locals.clear();
    }
}
