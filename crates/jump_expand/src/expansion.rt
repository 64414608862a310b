//! The layout of an assembly program: the form of each jump, and the address of each item.
ghost use Rattle.std.specs.Prelude.{◌≡◌, ℕ, ◌+◌, ◌<◌, ◌^◌, length, slice_index, IfOk, Err, Some, None, if◌then◌else◌};
ghost use Rattle.asm51.specs.Items.{is_jump as is_jump_of};
ghost use Rattle.cerco_base.specs.declared.reasons.Reason.{Reason};
ghost use Rattle.asm51.specs.Layouts.{all_in};
ghost use Rattle.asm51.specs.Relaxation.{IsRelaxed};
ghost use Rattle.asm51.specs.JumpLayouts.{addresses_of, targets_of, IsLayoutOf, IsTooLong};
ghost use Rattle.jump_expand.specs.Code.Blocks.{AreAddresses};

use crate::addresses::Addresses;
use crate::items::{is_jump, size_of};
use crate::rounds::relax;
use crate::targets::{jumps, targets};
use asm51::{Asm, AsmItem, Form, FormList, JumpLayout, NumberList};
use cerco_base::{Fault, NoMemory, Reason};
use std::alloc::Global;

// The form of each item of a program, and their addresses.
#[derive(Drop)]
struct Relaxed {
    forms: Vec<Option<Form>>,
    addresses: Addresses,
}

// The form with which the rounds begin at an item.
fn short_form(item: AsmItem) -> Option<Form>
    ensures { result ≡ (if is_jump_of item then Some Form.Short else None) }
{
    if is_jump(item) {
        Some(Form::Short)
    } else {
        None
    }
}

fn first_forms(alloc: Global, items: &[AsmItem]) -> Result<Vec<Option<Form>>, NoMemory>
    ensures { IfOk result (λ v. v.items ≡ all_in Form.Short items.now) }
{
    let mut forms = Vec::new(alloc);
    for &item in items {
        forms.push(short_form(item))?;
    }
    Ok(forms)
}

// The addresses of the layout with these forms.
fn first_addresses(
    alloc: Global,
    items: &[AsmItem],
    forms: &[Option<Form>],
) -> Result<Addresses, NoMemory>
    requires few { length items.now < 2 ^ 28 }
    requires forms { length forms.now ≡ length items.now }
    ensures { IfOk result (λ a. AreAddresses a items.now forms.now) }
{
    let mut addresses = Addresses::new(alloc)?;
    for k in 0..items.len() {
        addresses.push(size_of(items[k], forms[k]))?;
    }
    Ok(addresses)
}

// The relaxed layout, wherever it ends.
fn relax_items(alloc: Global, items: &[AsmItem], targets: &[u32]) -> Result<Relaxed, NoMemory>
    requires few { length items.now < 2 ^ 28 }
    requires targets { targets.now ≡ targets_of items.now }
    ensures relaxed { IfOk result (λ r. IsRelaxed items.now r.forms.items) }
    ensures addresses { IfOk result (λ r. AreAddresses r.addresses items.now r.forms.items) }
{
    let jumps = jumps(alloc, items)?;
    let mut forms = first_forms(alloc, items)?;
    let mut addresses = first_addresses(alloc, items, &forms)?;
    let mut next = vec![in alloc; None; jumps.len()]?;
    relax(
        items,
        targets,
        &jumps,
        &mut forms,
        &mut addresses,
        &mut next,
    );
    Ok(Relaxed { forms, addresses })
}

// The addresses of the items, one after the other, and last that of their end.
fn in_a_row(alloc: Global, items: &[AsmItem], relaxed: &Relaxed) -> Result<Vec<u32>, NoMemory>
    requires few { length items.now < 2 ^ 28 }
    requires addresses { AreAddresses relaxed.now.addresses items.now relaxed.now.forms.items }
    ensures { IfOk result (λ v. v.items ≡ addresses_of items.now relaxed.now.forms.items) }
{
    let mut row = Vec::new(alloc);
    for k in 0..items.len() + 1 {
        row.push(relaxed.addresses.at(k))?;
    }
    Ok(row)
}

/// The relaxed layout of an assembly program: each jump and each test has the first form that reaches its target after whole rounds of
/// growth (T. G. Szymanski, CACM 21, 1978). It is refused as `CodeFull` with its number of bytes where that is more than 65,536.
pub fn expand(alloc: Global, asm: &Asm) -> Result<JumpLayout, Fault>
    requires { length asm.now < 2 ^ 28 }
    ensures layout { IfOk result (IsLayoutOf asm.now) }
    // no other reason is given
    ensures full { (reason : Reason) → result ≡ Err (Fault.Refused reason) → (bytes : ℕ) × (reason ≡ Reason.CodeFull bytes) × IsTooLong asm.now bytes }
{
    let items = asm.as_slice();
    let targets = targets(alloc, items)?;
    let relaxed = relax_items(alloc, items, &targets)?;
    let len = relaxed.addresses.at(items.len());
    if len > 65536 {
        return Err(Fault::Refused(Reason::CodeFull { len }));
    }
    let row = in_a_row(alloc, items, &relaxed)?;
    Ok(JumpLayout {
        forms: FormList::of(relaxed.forms),
        addresses: NumberList::of(row),
        targets: NumberList::of(targets),
    })
}
