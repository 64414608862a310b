//! The scopes of a program and its name spaces (ISO/IEC 9899:1999, 6.2.1 and 6.2.3).
ghost use Rattle.std.specs.Prelude.{◌≡◌};
ghost use Rattle.clight_names.specs.Regions.{declared_in as declared_in_lem};

use crate::occurrences::Role;

/// Where a name can be declared. Items of the program are meant by their numbers, from 0.
#[derive(Clone, Copy, Debug, PartialEq, Eq, Hash)]
pub enum Region {
    /// The tags of structs.
    Tags,
    /// The members of the struct that is this item.
    Members(usize),
    /// The globals and functions.
    WholeFile,
    /// The parameters and locals of the function that is this item.
    Within(usize),
}

/// A name in a region.
#[derive(Clone, Copy, Debug, PartialEq, Eq, Hash)]
pub struct Place {
    pub region: Region,
    pub name: u32,
}

/// Where a name declares something, if it does.
pub fn declared_in(role: Role) -> Option<Region>
    ensures { result ≡ declared_in_lem role }
{
    match role {
        Role::DefinesTag => Some(Region::Tags),
        Role::DeclaresMember(item) => Some(Region::Members(item)),
        Role::DeclaresGlobal | Role::DeclaresPrototype(_) | Role::DefinesFunction(_) => {
            Some(Region::WholeFile)
        }
        Role::DeclaresLocal(item) => Some(Region::Within(item)),
        Role::NamesTag(_, _) | Role::Uses(_) | Role::Selects => None,
    }
}
