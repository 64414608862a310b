//! The items to which jumps, tests and calls lead, found once.
ghost use Rattle.std.specs.Prelude.{◌≡◌, ℕ, ◌<◌, ◌^◌, length, IfOk};
ghost use Rattle.std.specs.HashMap.{get};
ghost use Rattle.std.specs.List.{position_from};
ghost use Rattle.asm51.specs.Items.{target_of};
ghost use Rattle.asm51.specs.JumpLayouts.{targets_of};
ghost use Rattle.jump_expand.specs.Code.Anchors.{anchor_of, wanted_of, key_eq, is_anchor};
ghost use Rattle.jump_expand.specs.Code.Rounds.{AreJumps};

use crate::items::is_jump;
use asm51::AsmItem;
use cerco_base::NoMemory;
use std::alloc::Global;
use std::collections::HashMap;

// The key of the place that an item is.
fn anchor(item: AsmItem) -> Option<(u32, u32, u32)>
    ensures { result ≡ anchor_of item }
{
    match item {
        AsmItem::Here(function, node) => Some((0, function, node)),
        AsmItem::Enter(function) => Some((1, function, 0)),
        AsmItem::Plain(_) => None,
        AsmItem::Mark(_) => None,
        AsmItem::Jump(_, _) => None,
        AsmItem::Test(_, _) => None,
        AsmItem::Call(_) => None,
    }
}

// The key of the place that an item names.
fn wanted(item: AsmItem) -> Option<(u32, u32, u32)>
    ensures { result ≡ wanted_of item }
{
    match item {
        AsmItem::Jump(function, node) => Some((0, function, node)),
        AsmItem::Test(function, node) => Some((0, function, node)),
        AsmItem::Call(function) => Some((1, function, 0)),
        AsmItem::Plain(_) => None,
        AsmItem::Mark(_) => None,
        AsmItem::Enter(_) => None,
        AsmItem::Here(_, _) => None,
    }
}

// The first item of each key.
fn anchors(alloc: Global, items: &[AsmItem]) -> Result<HashMap<(u32, u32, u32), u32>, NoMemory>
    requires { length items.now < 2 ^ 32 }
    ensures { IfOk result (λ m. (q : ℕ × ℕ × ℕ) → get key_eq m q ≡ position_from (is_anchor q) 0 items.now) }
{
    let mut map = HashMap::new(alloc);
    let mut k = items.len();
    while k > 0 {
        k -= 1;
        if let Some(key) = anchor(items[k]) {
            map.insert(key, k as u32)?;
        }
    }
    Ok(map)
}

fn target_in(map: &HashMap<(u32, u32, u32), u32>, items: &[AsmItem], item: AsmItem) -> u32
    requires few { length items.now < 2 ^ 32 }
    requires map { (q : ℕ × ℕ × ℕ) → get key_eq map.now q ≡ position_from (is_anchor q) 0 items.now }
    ensures { result ≡ target_of items.now item }
{
    match wanted(item) {
        Some(key) => match map.get(&key) {
            Some(&k) => k,
            None => items.len() as u32,
        },
        None => items.len() as u32,
    }
}

/// The number of the item to which each item leads.
pub(crate) fn targets(alloc: Global, items: &[AsmItem]) -> Result<Vec<u32>, NoMemory>
    requires { length items.now < 2 ^ 32 }
    ensures { IfOk result (λ v. v.items ≡ targets_of items.now) }
{
    let map = anchors(alloc, items)?;
    let mut targets = Vec::new(alloc);
    for &item in items {
        targets.push(target_in(&map, items, item))?;
    }
    Ok(targets)
}

/// The numbers of the jumps and tests.
pub(crate) fn jumps(alloc: Global, items: &[AsmItem]) -> Result<Vec<u32>, NoMemory>
    requires { length items.now < 2 ^ 32 }
    ensures { IfOk result (λ v. AreJumps items.now v.items) }
{
    let mut jumps = Vec::new(alloc);
    for k in 0..items.len() {
        if is_jump(items[k]) {
            jumps.push(k as u32)?;
        }
    }
    Ok(jumps)
}
