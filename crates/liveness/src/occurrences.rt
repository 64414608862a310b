//! Where virtual registers and the carry occur.
ghost use Rattle.std.specs.Prelude.{◌≡◌, ℕ, ◌<◌, ◌≤◌, ◌^◌, length, OnOk};
ghost use Rattle.rtl.specs.Liveness.{IsAmong};
ghost use Rattle.liveness.specs.Code.Rows.{ways_of, AddedTo};
ghost use Rattle.liveness.specs.Code.Views.{storage_of, storages_of, occurrences_of, NothingOccurs};

use crate::storages::Storage;
use crate::ways::{Ways, add_way, row};
use cerco_base::NoMemory;
use std::alloc::Global;

/// Lists of numbers, for each virtual register by number and for the carry.
#[derive(Drop)]
pub struct Occurrences {
    pub vregs: Vec<Ways>,
    pub carry: Ways,
}

// Adds empty rows, until there is this one.
fn grow(alloc: Global, ways: &mut Vec<Ways>, x: u32) -> Result<(), NoMemory>
    requires { length ways.old.items ≤ 2 ^ 32 }
    ensures within { OnOk result (x < length ways.new.items) }
    ensures few { OnOk result (length ways.new.items ≤ 2 ^ 32) }
    ensures same { OnOk result ((y : ℕ) → ways_of ways.new.items y ≡ ways_of ways.old.items y) }
{
    while ways.len() <= x as usize {
        ways.push(Ways {
            to: Vec::new(alloc),
        })?;
    }
    Ok(())
}

impl Occurrences {
    /// Nothing occurs.
    pub fn new(alloc: Global) -> Occurrences
        ensures none { NothingOccurs result }
        ensures few { length result.vregs.items ≤ 2 ^ 32 }
    {
        Occurrences {
            vregs: Vec::new(alloc),
            carry: Ways {
                to: Vec::new(alloc),
            },
        }
    }

    /// Where this occurs.
    pub fn of(&self, storage: Storage) -> &[usize]
        ensures { result.now ≡ occurrences_of self.now (storage_of storage) }
    {
        match storage {
            Storage::Vreg(v) => row(&self.vregs, v as usize),
            Storage::Carry => self.carry.to.as_slice(),
        }
    }

    // Adds that this occurs there.
    fn add(&mut self, alloc: Global, storage: Storage, i: usize) -> Result<(), NoMemory>
        requires { length self.old.vregs.items ≤ 2 ^ 32 }
        ensures few { OnOk result (length self.new.vregs.items ≤ 2 ^ 32) }
        ensures added { OnOk result (AddedTo (occurrences_of self.old) (λ s. storage_of storage ≡ s) i (occurrences_of self.new)) }
    {
        match storage {
            Storage::Vreg(v) => {
                grow(alloc, &mut self.vregs, v)?;
                add_way(&mut self.vregs, v as usize, i)
            }
            Storage::Carry => Ok(self.carry.to.push(i)?),
        }
    }

    /// Adds that each of these occurs there.
    pub fn add_all(&mut self, alloc: Global, storages: &[Storage], i: usize) -> Result<(), NoMemory>
        requires { length self.old.vregs.items ≤ 2 ^ 32 }
        ensures few { OnOk result (length self.new.vregs.items ≤ 2 ^ 32) }
        ensures added { OnOk result (AddedTo (occurrences_of self.old) (λ s. IsAmong s (storages_of storages.now)) i (occurrences_of self.new)) }
    {
        for storage in storages {
            self.add(alloc, *storage, i)?;
        }
        Ok(())
    }
}
