//! What is written down for a point of a graph, and for an item of a layout, is read again.
ghost use Rattle.std.specs.Prelude.{IfOk};
ghost use Rattle.rtl.specs.LiveSets.{HasPoint};

use asm51::{Form, FormList, JumpLayout, NumberList};
use cerco_base::NoMemory;
use rtl::{LivePoint, LiveSets, Sequence, Vreg};
use std::alloc::Global;
use std::test::Fail;

// Live sets of one node with one operation: this virtual register and the carry before it, nothing before its exit.
fn live_sets(alloc: Global, vreg: Vreg) -> Result<LiveSets, NoMemory>
    ensures { IfOk result (λ s. HasPoint s 0 0 × HasPoint s 0 1) }
{
    let mut vregs = Sequence::new(alloc);
    vregs.push(vreg)?;
    let mut points = Sequence::new(alloc);
    points.push(LivePoint { vregs, carry: true })?;
    points.push(LivePoint {
        vregs: Sequence::new(alloc),
        carry: false,
    })?;
    let mut nodes = Sequence::new(alloc);
    nodes.push(points)?;
    Ok(LiveSets { nodes })
}

// How many virtual registers are live before the operation and before the exit, and whether the carry is.
fn live_counts(alloc: Global, vreg: Vreg) -> Result<(usize, bool, usize, bool), NoMemory> {
    let sets = live_sets(alloc, vreg)?;
    Ok((
        sets.before(0, 0).len(),
        sets.carry(0, 0),
        sets.before(0, 1).len(),
        sets.carry(0, 1),
    ))
}

// A layout of a short jump and of what is no jump.
fn layout(alloc: Global) -> Result<JumpLayout, NoMemory> {
    let mut forms = Vec::new(alloc);
    forms.push(Some(Form::Short))?;
    forms.push(None)?;
    let mut addresses = Vec::new(alloc);
    addresses.push(0)?;
    addresses.push(2)?;
    addresses.push(3)?;
    let mut targets = Vec::new(alloc);
    targets.push(1)?;
    targets.push(2)?;
    Ok(JumpLayout {
        forms: FormList::of(forms),
        addresses: NumberList::of(addresses),
        targets: NumberList::of(targets),
    })
}

// The address of the second item, where the first one is a short jump and the second none.
fn second_address(alloc: Global) -> Result<Option<u32>, NoMemory> {
    let layout = layout(alloc)?;
    if layout.forms.as_slice().len() < 2 || layout.addresses.as_slice().len() < 2 {
        return Ok(None);
    }
    match (layout.form(0), layout.form(1)) {
        (Some(Form::Short), None) => Ok(Some(layout.at(1))),
        _ => Ok(None),
    }
}

#[test]
fn live_sets_are_read_by_point(rt: HostRuntime) -> Result<(), Fail> {
    let counts = live_counts(rt.alloc(), Vreg(24))?;
    assert_eq!(rt; counts, (1, true, 0, false));
    Ok(())
}

#[test]
fn a_layout_is_read_by_item(rt: HostRuntime) -> Result<(), Fail> {
    assert_eq!(rt; second_address(rt.alloc())?, Some(2));
    Ok(())
}
