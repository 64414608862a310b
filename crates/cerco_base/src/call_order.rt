//! The functions of a program in the order of its calls.
ghost use Rattle.std.specs.Prelude.{◌≡◌, ◌<◌, ◌++◌, ◌∷◌, [], length, map, All, Contains, IfOk, OnOk, OnErr};
ghost use Rattle.cerco_base.specs.Code.CallOrderView.{called};

use crate::no_memory::NoMemory;
use std::alloc::Global;
use std::marker::Model;

// A function with those that call it.
#[derive(Drop)]
struct Entry {
    function: u32,
    callers: Vec<u32>,
}

/// The functions of a program by number, each with the functions that call it. Each caller stands
/// before those that it calls, and no function stands twice. Contracts see it as the list of
/// `Called`.
#[derive(Drop)]
pub struct CallOrder {
    alloc: Global,
    functions: Vec<u32>,
    entries: Vec<Entry>,
}

// A copy of a function with its callers.
fn duplicate_entry(alloc: Global, entry: &Entry) -> Result<Entry, NoMemory>
    ensures { IfOk result (λ copy. called copy ≡ called entry.now) }
{
    Ok(Entry {
        function: entry.function,
        callers: Vec::from_slice(alloc, entry.callers.as_slice())?,
    })
}

// A copy of functions with their callers.
fn duplicate_entries(alloc: Global, entries: &[Entry]) -> Result<Vec<Entry>, NoMemory>
    ensures { IfOk result (λ copies. map called copies.items ≡ map called entries.now) }
{
    let mut copies = Vec::new(alloc);
    for entry in entries {
        copies.push(duplicate_entry(alloc, entry)?)?;
    }
    Ok(copies)
}

impl Model for CallOrder {
    ghost use Rattle.std.specs.Prelude.{◌≡◌, List, map};
    ghost use Rattle.cerco_base.specs.CallOrder.{Called, IsCallOrder};

    ghost Value = { List Called };

    ghost use Rattle.cerco_base.specs.Code.CallOrderView.{called, IsInOrder};

    ghost view = { λ o. map called o.entries.items };

    ghost invariant = { λ o. IsInOrder o.functions.items (map called o.entries.items) };
}

impl CallOrder {
    ghost use Rattle.cerco_base.specs.CallOrder.{functions_of, callers_at, IsCallOrder};

    /// No functions.
    pub fn new(alloc: Global) -> CallOrder
        ensures { result ≡ [] }
    {
        CallOrder {
            alloc,
            functions: Vec::new(alloc),
            entries: Vec::new(alloc),
        }
    }

    /// Puts a function last, with those that call it. When out of memory, the list is unchanged.
    pub fn add(&mut self, function: u32, callers: &[u32]) -> Result<(), NoMemory>
        requires new { Contains (functions_of self.old) function → ⊥ }
        requires callers { All (Contains (functions_of self.old)) callers.now }
        ensures added { OnOk result (self.new ≡ self.old ++ record { function = function; callers = callers.now } ∷ []) }
        ensures same { OnErr result (self.new ≡ self.old) }
    {
        let callers = Vec::from_slice(self.alloc, callers)?;
        self.functions.push(function)?;
        if self.entries.push(Entry { function, callers }).is_err() {
            let _ = self.functions.pop();
            return Err(NoMemory);
        }
        Ok(())
    }

    /// A copy of the list.
    pub fn duplicate(&self) -> Result<CallOrder, NoMemory>
        ensures { IfOk result (λ copy. copy ≡ self.now) }
    {
        Ok(CallOrder {
            alloc: self.alloc,
            functions: Vec::from_slice(self.alloc, self.functions.as_slice())?,
            entries: duplicate_entries(self.alloc, self.entries.as_slice())?,
        })
    }

    /// The numbers of the functions, callers first.
    pub fn functions(&self) -> &[u32]
        ensures functions { result.now ≡ functions_of self.now }
        ensures order { IsCallOrder self.now }
    {
        self.functions.as_slice()
    }

    /// The functions that call the function at this place of the list, counted from 0.
    pub fn callers(&self, i: usize) -> &[u32]
        requires { i < length self.now }
        ensures { result.now ≡ callers_at self.now i }
    {
        self.entries[i].callers.as_slice()
    }
}
