//! The exact costs of an object.
ghost use Rattle.std.specs.Prelude.{◌≡◌, ℕ, ◌≤◌, List, Bool, Ok, IfOk, length};
ghost use Rattle.block_costs.specs.Ways.{AreMarks, cost as cost_at, start_cost as cost_at_start};
ghost use Rattle.cerco_pipeline.specs.Built.{AreCostsOf};
ghost use Rattle.cerco_pipeline.specs.Compiled.{HasCosts};

use block_costs::{Marks, cost_of, start_cost};
use cerco_base::NoMemory;
use jump_expand::Object;
use std::alloc::Global;

/// The cost of an object's start, and those of its labels by their numbers, in machine cycles.
#[derive(Drop)]
pub struct ObjectCosts {
    pub start: u32,
    pub labels: Vec<u32>,
}

// The cost of an address that has one.
fn cost_from(code: &[u8], marks: &Marks, from: u16) -> u32
    requires few { length code.now ≤ 65536 }
    requires costed { (cycles : ℕ) × (cost_at code.now marks.now from ≡ Ok cycles) }
    ensures { cost_at code.now marks.now from ≡ Ok result }
{
    cost_of(code, marks, from).unwrap()
}

// The cost of the start, where it has one.
fn cost_to_first_label(code: &[u8], marks: &Marks) -> u32
    requires few { length code.now ≤ 65536 }
    requires costed { (cycles : ℕ) × (cost_at_start code.now marks.now ≡ Ok cycles) }
    ensures { cost_at_start code.now marks.now ≡ Ok result }
{
    start_cost(code, marks).unwrap()
}

/// The costs of an object that has them.
pub fn costs_of(alloc: Global, object: &Object) -> Result<ObjectCosts, NoMemory>
    requires few { length object.now.code ≤ 65536 }
    requires costed { HasCosts object.now.code object.now.labels }
    ensures costs { IfOk result (λ c. AreCostsOf object.now.code object.now.labels (record { start = c.start; labels = c.labels.items })) }
    ensures marks { IfOk result (λ c. (marks : List Bool) × AreMarks object.now.labels marks) }
{
    let code = object.code.as_slice();
    let marks = Marks::new(alloc, object.labels.as_slice())?;
    let mut labels = Vec::new(alloc);
    for address in object.labels.as_slice() {
        labels.push(cost_from(code, &marks, *address))?;
    }
    Ok(ObjectCosts {
        start: cost_to_first_label(code, &marks),
        labels,
    })
}
