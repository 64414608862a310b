//! Where the exits of nodes lead, and what they use and write.
ghost use Rattle.std.specs.Prelude.{◌≡◌, ◌++◌, ◌∷◌, [], map, OnOk};
ghost use Rattle.rtl.specs.Effects.{Loc};
ghost use Rattle.liveness.specs.Code.Rows.{AllBelow};
ghost use Rattle.liveness.specs.Code.Views.{storages_of, numbered_exit};
ghost use Rattle.liveness.specs.Code.Flow.{within, after, calmly_after, places_below, overwritten, used};

use crate::storages::Storage;
use cerco_base::NoMemory;
use rtl::{Exit, Vreg};

// Adds a node that there is.
fn add_within(list: &mut Vec<usize>, q: u32, count: usize) -> Result<(), NoMemory>
    ensures { OnOk result (list.new.items ≡ list.old.items ++ within q count) }
{
    if (q as usize) < count {
        list.push(q as usize)?;
    }
    Ok(())
}

/// Adds the nodes after an exit that there are.
pub fn add_after(list: &mut Vec<usize>, exit: Exit<Vreg>, count: usize) -> Result<(), NoMemory>
    ensures { OnOk result (list.new.items ≡ list.old.items ++ after (numbered_exit exit) count) }
{
    match exit {
        Exit::Next(q) => add_within(list, q, count),
        Exit::Test(_, true_arm, false_arm) => {
            add_within(list, true_arm, count)?;
            add_within(list, false_arm, count)
        }
        Exit::Call(_, q) => add_within(list, q, count),
        Exit::Label(_, q) => add_within(list, q, count),
        Exit::Return => Ok(()),
    }
}

/// The same, but none after a call.
pub fn add_calmly_after(
    list: &mut Vec<usize>,
    exit: Exit<Vreg>,
    count: usize,
) -> Result<(), NoMemory>
    ensures { OnOk result (list.new.items ≡ list.old.items ++ calmly_after (numbered_exit exit) count) }
{
    match exit {
        Exit::Call(_, _) => Ok(()),
        _ => add_after(list, exit, count),
    }
}

// Adds the argument places and the carry.
fn add_shared(list: &mut Vec<Storage>) -> Result<(), NoMemory>
    ensures { OnOk result (storages_of list.new.items ≡ storages_of list.old.items ++ (places_below 12 ++ Rattle.rtl.specs.Effects.Carry ∷ [])) }
{
    for v in 0..12 {
        list.push(Storage::Vreg(v))?;
    }
    Ok(list.push(Storage::Carry)?)
}

/// Adds what an exit writes.
pub fn add_overwritten(list: &mut Vec<Storage>, exit: Exit<Vreg>) -> Result<(), NoMemory>
    ensures { OnOk result (storages_of list.new.items ≡ storages_of list.old.items ++ overwritten (numbered_exit exit)) }
{
    match exit {
        Exit::Call(_, _) => add_shared(list),
        _ => Ok(()),
    }
}

// Adds the virtual registers with these numbers.
fn add_numbered(list: &mut Vec<Storage>, numbers: &[usize]) -> Result<(), NoMemory>
    requires { AllBelow numbers.now 12 }
    ensures { OnOk result (storages_of list.new.items ≡ storages_of list.old.items ++ map Loc numbers.now) }
{
    for v in numbers {
        list.push(Storage::Vreg(*v as u32))?;
    }
    Ok(())
}

/// Adds what an exit uses, where these are the argument places that were written when it is
/// reached.
pub fn add_used(
    list: &mut Vec<Storage>,
    exit: Exit<Vreg>,
    written: &[usize],
) -> Result<(), NoMemory>
    requires { AllBelow written.now 12 }
    ensures { OnOk result (storages_of list.new.items ≡ storages_of list.old.items ++ used (numbered_exit exit) written.now) }
{
    match exit {
        Exit::Test(v, _, _) => Ok(list.push(Storage::Vreg(v.0))?),
        Exit::Call(_, _) => add_numbered(list, written),
        Exit::Return => add_numbered(list, written),
        _ => Ok(()),
    }
}
