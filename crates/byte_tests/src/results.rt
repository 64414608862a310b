//! What operations on words leave, by the byte operations that they become.

use crate::machine::Machine;
use byte_sequences::node_of;
use byte_sequences::operations::has_small_numbers;
use cerco_base::NoMemory;
use cerco_middle::{Held, RtOp};
use std::alloc::Global;

/// What the temporary 0 holds after the operation, with these values in it and in the temporary 1.
///
/// # Errors
///
/// Out of memory, also where the operation has numbers that no program names.
pub fn result_of(alloc: Global, op: RtOp, x: u16, y: u16) -> Result<u16, NoMemory> {
    if !has_small_numbers(op) {
        return Err(NoMemory);
    }
    let held: [Held; 0] = [];
    let node = node_of(alloc, &held, None, op, 0)?;
    let mut machine = Machine::new();
    machine.put(1, y);
    machine.put(0, x);
    for op in node.ops.as_slice() {
        machine.make(op);
    }
    Ok(machine.get(0))
}
