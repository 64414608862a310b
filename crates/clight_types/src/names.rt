//! The names of a struct's members, in which each is found at once (ISO/IEC 9899:1999, 6.5.2.3).
ghost use Rattle.std.specs.Prelude.{◌≡◌, IfOk, map, slice_get};
ghost use Rattle.std.specs.Option.{option_map};
ghost use Rattle.c_types.specs.Types.{member_of};
ghost use Rattle.clight_types.specs.FoundStructs.{names_of};
ghost use Rattle.clight_types.specs.Code.HeldNames.{names_in};
ghost use Rattle.clight_types.specs.Places.{place_among};

use crate::places::Places;
use c_types::MemberType;
use cerco_base::NoMemory;
use std::alloc::Global;

/// The names of a struct's members.
#[derive(Drop)]
pub struct MemberNames {
    names: Places,
}

impl MemberNames {
    /// The names of these members, in order.
    pub fn new(alloc: Global, members: &[MemberType]) -> Result<MemberNames, NoMemory>
        ensures { IfOk result (λ found. names_in found ≡ names_of (map member_of members.now)) }
    {
        let mut names = Places::new(alloc);
        for member in members {
            names = names.push(member.name)?;
        }
        Ok(MemberNames { names })
    }

    /// The place of the member of this name, or how many members there are.
    pub fn place(&self, name: u32) -> usize
        ensures { result ≡ place_among (names_in self.now) name }
    {
        self.names.place(name)
    }
}

/// The names with this number.
pub fn names_at(names: &[MemberNames], number: usize) -> Option<&MemberNames>
    ensures { option_map (λ x. names_in x.now) result ≡ slice_get (map names_in names.now) number }
{
    names.get(number)
}

/// The member at a place.
pub fn member_at(members: &[MemberType], place: usize) -> Option<&MemberType>
    ensures { option_map (λ x. member_of x.now) result ≡ slice_get (map member_of members.now) place }
{
    members.get(place)
}
