//! The identifiers of a source.
ghost use Rattle.std.specs.Prelude.{◌≡◌, ◌++◌, ◌∷◌, [], length, slice_index_or, IfOk, OnOk, OnErr};

use cerco_base::NoMemory;
use std::alloc::Global;
use std::marker::Model;

/// The identifiers of a source, each once, in the order of their first appearance. Contracts see them as the list of
/// their spellings, each of which is a list of bytes.
#[derive(Drop)]
pub struct Names {
    alloc: Global,
    spellings: Vec<Vec<u8>>,
}

impl Model for Names {
    ghost use Rattle.std.specs.Prelude.{List, ℕ, map};

    ghost Value = { List (List ℕ) };

    ghost view = { λ n. map (λ spelling. spelling.items) n.spellings.items };
}

impl Names {
    /// No identifiers.
    pub fn new(alloc: Global) -> Names
        ensures { result ≡ [] }
    {
        Names {
            alloc,
            spellings: Vec::new(alloc),
        }
    }

    /// Adds the spelling of the next identifier. When out of memory, the list is unchanged.
    pub fn push(&mut self, spelling: &[u8]) -> Result<(), NoMemory>
        ensures added { OnOk result (self.new ≡ self.old ++ spelling.now ∷ []) }
        ensures same { OnErr result (self.new ≡ self.old) }
    {
        let mut own = Vec::new(self.alloc);
        own.extend_from_slice(spelling)?;
        self.spellings.push(own)?;
        Ok(())
    }

    /// A copy of the list.
    pub fn duplicate(&self) -> Result<Names, NoMemory>
        ensures { IfOk result (λ copy. copy ≡ self.now) }
    {
        let mut copy = Names::new(self.alloc);
        for spelling in &self.spellings {
            copy.push(spelling.as_slice())?;
        }
        Ok(copy)
    }

    /// The spelling of the identifier with this number, nothing where there is none.
    pub fn spelling(&self, number: u32) -> &[u8]
        ensures { result.now ≡ slice_index_or self.now number [] }
    {
        match self.spellings.get(number as usize) {
            Some(spelling) => spelling.as_slice(),
            None => &[],
        }
    }

    /// How many there are.
    pub fn len(&self) -> usize
        ensures { result ≡ length self.now }
    {
        self.spellings.len()
    }
}
