//! The types that declarations give, and whether they may stand (ISO/IEC 9899:1999, 6.7.2 to 6.7.5).
ghost use Rattle.std.specs.Prelude.{◌≡◌, IfOk, map, min};
ghost use Rattle.c_types.specs.Types.{type_of, struct_type_of, member_of as member_type_of};
ghost use Rattle.clight_source.specs.Code.Views.{declaration_of, member_of, struct_of};
ghost use Rattle.clight_types.specs.Declarations.{declaration_type as declaration_type_lem, size_of_members, members_from as members_from_lem, struct_type as struct_type_lem};
ghost use Rattle.clight_types.specs.Code.Held.{size_cap};
ghost use Rattle.clight_typing.specs.Code.HeldScopes.{scope_of};
ghost use Rattle.clight_types.specs.Outcomes.{Gives};
ghost use Rattle.clight_typing.specs.TypedPrograms.{checked_declaration as checked_declaration_lem, checked_members as checked_members_lem, checked_struct as checked_struct_lem};

use crate::scope::Scope;
use c_types::{MemberType, StructType, Ty};
use cerco_base::{Fault, NoMemory, TypeKind};
use clight_source::tree::{Declaration, Member, StructDefinition};
use clight_types::declared::{
    capped_size, capped_sum, declaration_type, declared_start, has_size, is_capped_size,
    offset_behind,
};
use clight_types::judged::refused;

impl Scope {
    /// The type of a variable or member. Refused with `Void`, `Long` or `Size` where it has none.
    pub fn checked_declaration(&self, x: &Declaration) -> Result<Ty, Fault>
        ensures gives { Gives type_of result (checked_declaration_lem (scope_of self.now).structs (declaration_of x.now)) }
        ensures typed { IfOk result (λ t. type_of t ≡ declaration_type_lem (scope_of self.now).structs (declaration_of x.now)) }
    {
        let _words = self.object_words(x.declared.specifiers)?;
        let ty = declaration_type(self.alloc, &self.structs, x)?;
        if !has_size(&self.structs, &ty) {
            return Err(refused(declared_start(&x.declared), TypeKind::Size));
        }
        Ok(ty)
    }

    /// Refused at the first member without a type.
    fn checked_members(&self, xs: &[Member]) -> Result<(), Fault>
        ensures { Gives (λ y. y) result (checked_members_lem (scope_of self.now).structs (map member_of xs.now)) }
    {
        for x in xs {
            let _ty = self.checked_declaration(&x.declaration)?;
        }
        Ok(())
    }

    /// The size of members together, or 65,536 where it is more.
    fn members_size(&self, xs: &[Member]) -> Result<u32, NoMemory>
        ensures { IfOk result (λ n. n ≡ min (size_of_members (scope_of self.now).structs (map member_of xs.now)) size_cap) }
    {
        let mut size = 0;
        for x in xs {
            let ty = declaration_type(self.alloc, &self.structs, &x.declaration)?;
            size = capped_sum(size, capped_size(&self.structs, &ty));
        }
        Ok(size)
    }

    /// The members, one after the other without gaps. An offset above 2 to the 32nd counts as out of memory.
    fn members(&self, xs: &[Member]) -> Result<Vec<MemberType>, NoMemory>
        ensures { IfOk result (λ r. map member_type_of r.items ≡ members_from_lem (scope_of self.now).structs 0 (map member_of xs.now)) }
    {
        let mut members = Vec::new(self.alloc);
        let mut offset: u32 = 0;
        for x in xs {
            let ty = declaration_type(self.alloc, &self.structs, &x.declaration)?;
            let next = offset_behind(offset, &self.structs, &ty)?;
            members.push(MemberType {
                name: x.declaration.declared.name.number,
                ty,
                offset,
            })?;
            offset = next;
        }
        Ok(members)
    }

    /// The struct that a definition defines. Refused with the first fault of its members, or with `Size` where it has no size.
    pub fn typed_struct(&self, x: &StructDefinition) -> Result<StructType, Fault>
        ensures gives { Gives (λ s. tt) result (checked_struct_lem (scope_of self.now).structs (struct_of x.now)) }
        ensures typed { IfOk result (λ s. struct_type_of s ≡ struct_type_lem (scope_of self.now).structs (struct_of x.now)) }
    {
        self.checked_members(&x.members)?;
        let size = self.members_size(&x.members)?;
        if !is_capped_size(size) {
            return Err(refused(x.keyword.from, TypeKind::Size));
        }
        let members = self.members(&x.members)?;
        Ok(StructType {
            tag: x.tag.number,
            members,
            size,
        })
    }
}
