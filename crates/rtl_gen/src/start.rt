//! The bytes that the start of a program writes.
ghost use Rattle.std.specs.Prelude.{◌≡◌, IfOk};

use cerco_base::{NoMemory, StartBytes};
use std::alloc::Global;

/// A copy of the bytes.
pub fn duplicate(alloc: Global, start: &StartBytes) -> Result<StartBytes, NoMemory>
    ensures { IfOk result (λ copy. copy ≡ start.now) }
{
    let mut copy = StartBytes::new(alloc);
    for (at, byte) in start.bytes() {
        copy.push(*at, *byte)?;
    }
    Ok(copy)
}
