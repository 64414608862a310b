//! The first places of numbers in a list, found without a walk.
ghost use Rattle.std.specs.Prelude.{◌≡◌, ◌++◌, ◌∷◌, [], ℕ, Some, None, IfOk, OnOk, nat_eq, if◌then◌else◌};
ghost use Rattle.indexmap.specs.IndexMap.{get};
ghost use Rattle.clight_types.specs.Places.{place_among, or_found};

use cerco_base::NoMemory;
use indexmap::IndexMap;
use std::alloc::Global;
use std::marker::Model;

/// A list of numbers, in which the first place of each is found at once. Contracts see it as the list.
#[derive(Drop)]
pub struct Places {
    numbers: Vec<u32>,
    /// The first place of each number.
    first: IndexMap<u32, usize>,
}

impl Model for Places {
    ghost use Rattle.std.specs.Prelude.{List, ℕ, nat_eq};
    ghost use Rattle.indexmap.specs.IndexMap.{get};
    ghost use Rattle.clight_types.specs.Places.{FindsPlaces};

    ghost Value = { List ℕ };

    ghost view = { λ x. x.numbers.items };

    ghost invariant = { λ x. FindsPlaces (get nat_eq x.first) x.numbers.items };
}

// Notes where a number stands, if no place of it is known.
fn note(first: &mut IndexMap<u32, usize>, number: u32, place: usize) -> Result<(), NoMemory>
    ensures { OnOk result ((other : ℕ) → get nat_eq first.new other ≡ or_found (get nat_eq first.old other) (if nat_eq number other then Some place else None)) }
{
    if first.get(&number).is_some() {
        return Ok(());
    }
    first.insert(number, place)?;
    Ok(())
}

impl Places {
    /// No numbers.
    pub fn new(alloc: Global) -> Places
        ensures { result ≡ [] }
    {
        Places {
            numbers: Vec::new(alloc),
            first: IndexMap::new(alloc),
        }
    }

    /// The list with one more number behind the others.
    pub fn push(self, number: u32) -> Result<Places, NoMemory>
        ensures { IfOk result (λ more. more ≡ self ++ number ∷ []) }
    {
        let Places {
            mut numbers,
            mut first,
        } = self;
        note(&mut first, number, numbers.len())?;
        numbers.push(number)?;
        Ok(Places { numbers, first })
    }

    /// The place of the first such number, or how many numbers there are.
    pub fn place(&self, number: u32) -> usize
        ensures { result ≡ place_among self.now number }
    {
        match self.first.get(&number) {
            Some(place) => *place,
            None => self.numbers.len(),
        }
    }
}
