//! What is declared before a place of the text.
ghost use Rattle.std.specs.Prelude.{◌≡◌, ◌&&◌, ◌++◌, ◌∷◌, [], true, List, OnOk, if◌then◌else◌};
ghost use Rattle.indexmap.specs.IndexSet.{contains};
ghost use Rattle.clight_names.specs.declared.occurrences.Occurrence.{Occurrence};
ghost use Rattle.clight_names.specs.declared.regions.Place.{Place};
ghost use Rattle.clight_names.specs.Regions.{place_eq, is_prototype as is_prototype_lem, is_definition as is_definition_lem};
ghost use Rattle.clight_names.specs.NameFaults.{is_same as is_same_lem, is_twice as is_twice_lem, is_unknown as is_unknown_lem};
ghost use Rattle.clight_names.specs.Code.Knowledge.{Knows};

use crate::occurrences::{Occurrence, Role};
use crate::regions::{Place, Region, declared_in};
use cerco_base::NoMemory;
use indexmap::IndexSet;
use std::alloc::Global;

/// What the names before a place of the text declare.
#[derive(Drop)]
pub struct Known {
    /// All declared names, each with its region.
    pub declared: IndexSet<Place>,
    /// Those that are declared otherwise than by a prototype.
    pub settled: IndexSet<Place>,
}

// Adds a place, if it counts.
fn add_place(places: &mut IndexSet<Place>, counts: bool, place: Place) -> Result<(), NoMemory>
    ensures { OnOk result ((other : Place) → contains place_eq places.new other ≡ (if counts && place_eq place other then true else contains place_eq places.old other)) }
{
    if counts {
        places.insert_full(place)?;
    }
    Ok(())
}

// Whether a name is there in a region.
fn has_place(places: &IndexSet<Place>, region: Region, name: u32) -> bool
    ensures { result ≡ contains place_eq places.now (record { region = region; name = name }) }
{
    places.contains(&Place { region, name })
}

/// Whether a name declares a function without a body.
pub fn is_prototype(role: Role) -> bool
    ensures { result ≡ is_prototype_lem role }
{
    matches!(role, Role::DeclaresPrototype(_))
}

/// Whether a name defines a function.
pub fn is_definition(role: Role) -> bool
    ensures { result ≡ is_definition_lem role }
{
    matches!(role, Role::DefinesFunction(_))
}

// Whether there is a name, and it is this one.
fn is_same(around: Option<u32>, name: u32) -> bool
    ensures { result ≡ is_same_lem around name }
{
    match around {
        None => false,
        Some(tag) => tag == name,
    }
}

impl Known {
    /// Nothing is declared.
    pub fn new(alloc: Global) -> Known
        ensures { Knows result [] }
    {
        Known {
            declared: IndexSet::new(alloc),
            settled: IndexSet::new(alloc),
        }
    }

    /// One more name.
    pub fn add(&mut self, x: Occurrence) -> Result<(), NoMemory>
        ensures { OnOk result ((names : List Occurrence) → Knows self.old names → Knows self.new (names ++ x ∷ [])) }
    {
        match declared_in(x.role) {
            None => Ok(()),
            Some(region) => {
                let place = Place {
                    region,
                    name: x.name.number,
                };
                add_place(&mut self.declared, true, place)?;
                add_place(&mut self.settled, !is_prototype(x.role), place)?;
                Ok(())
            }
        }
    }

    /// Whether a name was declared before in its scope, a function otherwise than by a prototype before its definition.
    pub fn is_twice(&self, x: Occurrence) -> bool
        ensures { (earlier : List Occurrence) → Knows self.now earlier → result ≡ is_twice_lem earlier x }
    {
        match declared_in(x.role) {
            None => false,
            Some(region) => {
                if is_definition(x.role) {
                    has_place(&self.settled, region, x.name.number)
                } else {
                    has_place(&self.declared, region, x.name.number)
                }
            }
        }
    }

    /// Whether a name isn't declared. A struct's tag is known only behind a star among its own members.
    pub fn is_unknown(&self, x: Occurrence) -> bool
        ensures { (earlier : List Occurrence) → Knows self.now earlier → result ≡ is_unknown_lem earlier x }
    {
        let name = x.name.number;
        match x.role {
            Role::Uses(item) => {
                !has_place(&self.declared, Region::Within(item), name)
                    && !has_place(&self.declared, Region::WholeFile, name)
            }
            Role::NamesTag(starred, around) => {
                !has_place(&self.declared, Region::Tags, name)
                    || (!starred && is_same(around, name))
            }
            Role::DefinesTag
            | Role::DeclaresMember(_)
            | Role::DeclaresGlobal
            | Role::DeclaresPrototype(_)
            | Role::DefinesFunction(_)
            | Role::DeclaresLocal(_)
            | Role::Selects => false,
        }
    }
}
