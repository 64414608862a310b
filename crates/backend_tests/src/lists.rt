//! Lists grow at their end.

use asm51::{Asm, AsmItem};
use cerco_base::{Label, NoMemory};
use rtl::{Location, Place, Sequence, Vreg};
use std::alloc::Global;
use std::test::Fail;

// The number of the last of two locations in a list.
fn last_number<L: Location>(alloc: Global, first: L, second: L) -> Result<u32, NoMemory> {
    let mut list = Sequence::new(alloc);
    list.push(first)?;
    list.push(second)?;
    Ok(list.as_slice()[1].code())
}

// The label that an assembly program marks after the entry of a function.
fn marked_label(alloc: Global, label: Label) -> Result<Option<Label>, NoMemory> {
    let mut asm = Asm::new(alloc);
    asm.push(AsmItem::Enter(0))?;
    asm.push(AsmItem::Mark(label))?;
    match asm.as_slice()[1] {
        AsmItem::Mark(found) => Ok(Some(found)),
        _ => Ok(None),
    }
}

#[test]
fn a_list_of_locations_grows_at_its_end(rt: HostRuntime) -> Result<(), Fail> {
    assert_eq!(rt; last_number(rt.alloc(), Vreg(24), Vreg(7))?, 7);
    assert_eq!(rt; last_number(rt.alloc(), Place::Reg(2), Place::Cell(5))?, 17);
    assert_eq!(rt; last_number(rt.alloc(), Place::Reg(2), Place::Arg(5))?, 16);
    Ok(())
}

#[test]
fn an_assembly_program_grows_at_its_end(rt: HostRuntime) -> Result<(), Fail> {
    assert_eq!(rt; marked_label(rt.alloc(), Label(9))?, Some(Label(9)));
    Ok(())
}
