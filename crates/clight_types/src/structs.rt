//! The structs of a program, found by their tags (ISO/IEC 9899:1999, 6.7.2.3).
ghost use Rattle.std.specs.Prelude.{◌≡◌, ◌++◌, ◌∷◌, [], IfOk, map, slice_get};
ghost use Rattle.std.specs.Option.{option_map};
ghost use Rattle.c_types.specs.Types.{Struct, struct_type_of, member_of};
ghost use Rattle.clight_types.specs.Declarations.{struct_number};
ghost use Rattle.clight_types.specs.FoundStructs.{tags_of, all_names_of};
ghost use Rattle.clight_types.specs.Code.HeldNames.{names_in};
ghost use Rattle.clight_types.specs.Scopes.{member_of as member_of_lem};

use crate::names::{MemberNames, member_at, names_at};
use crate::places::Places;
use c_types::{MemberType, StructType};
use cerco_base::NoMemory;
use std::alloc::Global;

/// The structs of a program, in the order of their definitions.
#[derive(Drop)]
pub struct Structs {
    alloc: Global,
    pub types: Vec<StructType>,
    /// Their tags.
    tags: Places,
    /// The names of the members of each.
    names: Vec<MemberNames>,
    ghost tagged: { tags ≡ tags_of (map struct_type_of types.items) },
    ghost named: { map names_in names.items ≡ all_names_of (map struct_type_of types.items) },
}

// The struct with this number.
fn struct_at(types: &[StructType], number: usize) -> Option<&StructType>
    ensures { option_map (λ x. struct_type_of x.now) result ≡ slice_get (map struct_type_of types.now) number }
{
    types.get(number)
}

impl Structs {
    ghost use Rattle.clight_types.specs.Code.HeldStructs.{structs_of};

    /// No structs.
    pub fn new(alloc: Global) -> Structs
        ensures { structs_of result ≡ [] }
    {
        Structs {
            alloc,
            types: Vec::new(alloc),
            tags: Places::new(alloc),
            names: Vec::new(alloc),
        }
    }

    /// The structs with one more behind the others.
    pub fn push(self, ty: StructType) -> Result<Structs, NoMemory>
        ensures { IfOk result (λ more. structs_of more ≡ structs_of self ++ struct_type_of ty ∷ []) }
    {
        let Structs {
            alloc,
            mut types,
            tags,
            mut names,
        } = self;
        let tags = tags.push(ty.tag)?;
        let found = MemberNames::new(alloc, &ty.members)?;
        names.push(found)?;
        types.push(ty)?;
        Ok(Structs {
            alloc,
            types,
            tags,
            names,
        })
    }

    /// The member of this name in the struct with this number, if there is one.
    pub fn member(&self, number: u32, name: u32) -> Option<&MemberType>
        ensures { option_map (λ x. member_of x.now) result ≡ member_of_lem (structs_of self.now) (Struct number) name }
    {
        let Some(found) = struct_at(&self.types, number as usize) else {
            return None;
        };
        let Some(names) = names_at(&self.names, number as usize) else {
            return None;
        };
        member_at(&found.members, names.place(name))
    }

    /// The number of the struct with this tag, or how many there are.
    pub fn number(&self, tag: u32) -> usize
        ensures { result ≡ struct_number (structs_of self.now) tag }
    {
        self.tags.place(tag)
    }

    /// The structs by themselves.
    pub fn into_types(self) -> Vec<StructType>
        ensures { map struct_type_of result.items ≡ structs_of self }
    {
        let Structs {
            alloc: _,
            types,
            tags: _,
            names: _,
        } = self;
        types
    }
}
