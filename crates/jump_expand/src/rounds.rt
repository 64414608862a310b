//! Branch relaxation by whole rounds.
ghost use Rattle.std.specs.Prelude.{◌≡◌, ℕ, ◌+◌, ◌<◌, ◌≤◌, ◌^◌, true, false, length, slice_set, Some};
ghost use Rattle.asm51.specs.Instructions.{item_size};
ghost use Rattle.asm51.specs.Layouts.{all_in};
ghost use Rattle.asm51.specs.Relaxation.{is_near as is_near_to, same_page as is_same_page, reaches as reaches_in, least_from, grown as grown_form, round as round_of, IsRelaxed};
ghost use Rattle.asm51.specs.JumpLayouts.{targets_of};
ghost use Rattle.asm51.proofs.Addresses.{item_at, form_at};
ghost use Rattle.jump_expand.specs.Code.Blocks.{AreAddresses};
ghost use Rattle.jump_expand.specs.Code.Rounds.{rank as rank_of, AreJumps};

use crate::addresses::Addresses;
use crate::items::size_of;
use asm51::{AsmItem, Form};

fn is_near(next: u32, target: u32) -> bool
    requires { (next < 2 ^ 31) × (target < 2 ^ 31) }
    ensures { result ≡ is_near_to next target }
{
    next <= target + 128 && target <= next + 127
}

fn same_page(next: u32, target: u32) -> bool
    ensures { result ≡ is_same_page next target }
{
    next / 2048 == target / 2048
}

fn jump_reaches(next: u32, target: u32, form: Form) -> bool
    requires { (next < 2 ^ 31) × (target < 2 ^ 31) }
    ensures { (f n : ℕ) → result ≡ reaches_in next target (AsmItem.Jump f n) form }
{
    match form {
        Form::Short => is_near(next, target),
        Form::Page => same_page(next, target),
        Form::Long => true,
    }
}

fn test_reaches(next: u32, target: u32, form: Form) -> bool
    requires { (next < 2 ^ 31) × (target < 2 ^ 31) }
    ensures { (f n : ℕ) → result ≡ reaches_in next target (AsmItem.Test f n) form }
{
    match form {
        Form::Short => is_near(next, target),
        Form::Page => false,
        Form::Long => true,
    }
}

// Whether an item reaches its target in a form, where the instruction after it stands at `next`.
fn reaches(next: u32, target: u32, item: AsmItem, form: Form) -> bool
    requires { (next < 2 ^ 31) × (target < 2 ^ 31) }
    ensures { result ≡ reaches_in next target item form }
{
    match item {
        AsmItem::Jump(_, _) => jump_reaches(next, target, form),
        AsmItem::Test(_, _) => test_reaches(next, target, form),
        AsmItem::Plain(_) => true,
        AsmItem::Mark(_) => true,
        AsmItem::Enter(_) => true,
        AsmItem::Here(_, _) => true,
        AsmItem::Call(_) => true,
    }
}

// The first form from this one on in which an item reaches its target.
fn least_form(next: u32, target: u32, item: AsmItem, form: Form) -> Form
    requires { (next < 2 ^ 31) × (target < 2 ^ 31) }
    ensures { result ≡ least_from (reaches_in next target item) form }
{
    match form {
        Form::Short => {
            if reaches(next, target, item, Form::Short) {
                Form::Short
            } else if reaches(next, target, item, Form::Page) {
                Form::Page
            } else {
                Form::Long
            }
        }
        Form::Page => {
            if reaches(next, target, item, Form::Page) {
                Form::Page
            } else {
                Form::Long
            }
        }
        Form::Long => Form::Long,
    }
}

fn grown(next: u32, target: u32, item: AsmItem, form: Option<Form>) -> Option<Form>
    requires { (next < 2 ^ 31) × (target < 2 ^ 31) }
    ensures { result ≡ grown_form next target item form }
{
    match form {
        Some(form) => Some(least_form(next, target, item, form)),
        None => None,
    }
}

// The place of a form in the order in which forms grow.
fn rank(form: Option<Form>) -> u8
    ensures { result ≡ rank_of form }
{
    match form {
        None => 0,
        Some(Form::Short) => 1,
        Some(Form::Page) => 2,
        Some(Form::Long) => 3,
    }
}

// The form of an item after a round that begins with these addresses.
fn judged(
    items: &[AsmItem],
    targets: &[u32],
    forms: &[Option<Form>],
    addresses: &Addresses,
    k: usize,
) -> Option<Form>
    requires few { length items.now < 2 ^ 28 }
    requires targets { targets.now ≡ targets_of items.now }
    requires forms { length forms.now ≡ length items.now }
    requires addresses { AreAddresses addresses.now items.now forms.now }
    requires item { k < length items.now }
    ensures { result ≡ form_at (round_of items.now forms.now) k }
{
    let next = addresses.at(k) + 2;
    let target = addresses.at(targets[k] as usize);
    grown(next, target, items[k], forms[k])
}

// An item takes a form, and all that comes after it moves. Whether the form is another one.
fn take_form(
    items: &[AsmItem],
    forms: &mut [Option<Form>],
    addresses: &mut Addresses,
    k: usize,
    form: Option<Form>,
) -> bool
    requires few { length items.now < 2 ^ 28 }
    requires forms { length forms.old ≡ length items.now }
    requires addresses { AreAddresses addresses.old items.now forms.old }
    requires item { k < length items.now }
    requires size { item_size (item_at items.now k) (form_at forms.old k) ≤ item_size (item_at items.now k) form }
    ensures forms { forms.new ≡ slice_set forms.old k form }
    ensures addresses { AreAddresses addresses.new items.now forms.new }
    ensures same { result ≡ false → form_at forms.old k ≡ form }
    ensures other { result ≡ true → form_at forms.old k ≡ form → ⊥ }
{
    let old = forms[k];
    if rank(old) == rank(form) {
        return false;
    }
    let by = size_of(items[k], form) - size_of(items[k], old);
    forms[k] = form;
    addresses.raise(k, by);
    true
}

// A round: all jumps are judged by the addresses at its beginning, and then take their forms. Whether a form changed. `next` has room
// for the forms of the jumps.
fn round(
    items: &[AsmItem],
    targets: &[u32],
    jumps: &[u32],
    forms: &mut [Option<Form>],
    addresses: &mut Addresses,
    next: &mut [Option<Form>],
) -> bool
    requires few { length items.now < 2 ^ 28 }
    requires targets { targets.now ≡ targets_of items.now }
    requires jumps { AreJumps items.now jumps.now }
    requires forms { length forms.old ≡ length items.now }
    requires addresses { AreAddresses addresses.old items.now forms.old }
    requires next { length next.old ≡ length jumps.now }
    ensures forms { forms.new ≡ round_of items.now forms.old }
    ensures addresses { AreAddresses addresses.new items.now forms.new }
    ensures same { result ≡ false → forms.new ≡ forms.old }
    ensures other { result ≡ true → forms.new ≡ forms.old → ⊥ }
{
    for j in 0..jumps.len() {
        let k = jumps[j] as usize;
        next[j] = judged(items, targets, forms, addresses, k);
    }
    let mut changed = false;
    for i in 0..jumps.len() {
        let k = jumps[i] as usize;
        let form = next[i];
        if take_form(items, forms, addresses, k, form) {
            changed = true;
        }
    }
    changed
}

/// The jumps grow, round by round, up to the first layout that repeats.
pub(crate) fn relax(
    items: &[AsmItem],
    targets: &[u32],
    jumps: &[u32],
    forms: &mut [Option<Form>],
    addresses: &mut Addresses,
    next: &mut [Option<Form>],
)
    requires few { length items.now < 2 ^ 28 }
    requires targets { targets.now ≡ targets_of items.now }
    requires jumps { AreJumps items.now jumps.now }
    requires forms { forms.old ≡ all_in Form.Short items.now }
    requires addresses { AreAddresses addresses.old items.now forms.old }
    requires next { length next.old ≡ length jumps.now }
    ensures relaxed { IsRelaxed items.now forms.new }
    ensures addresses { AreAddresses addresses.new items.now forms.new }
{
    let mut changed = true;
    while changed {
        changed = round(items, targets, jumps, forms, addresses, next);
    }
}
