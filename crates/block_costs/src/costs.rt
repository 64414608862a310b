//! The cost of an address.
ghost use Rattle.std.specs.Prelude.{◌≡◌, ◌≤◌, ℕ, List, IfOk, length};
ghost use Rattle.block_costs.specs.Ways.{cost, start_cost};
ghost use Rattle.block_costs.specs.Sound.{IsExact};

use crate::faults::CostFault;
use crate::marks::Marks;
use crate::walks::walk_way;

/// The cycles of the ways from an address to the next label, a halt or a return. It takes no memory.
pub fn cost_of(code: &[u8], marks: &Marks, from: u16) -> Result<u32, CostFault>
    requires { length code.now ≤ 65536 }
    ensures cost { result ≡ cost code.now marks.now from }
    // the machine takes exactly these cycles from there, whatever it holds
    ensures exact { (labels : List ℕ) → IfOk result (λ cycles. IsExact code.now labels marks.now from cycles) }
{
    let plain = walk_way(code, marks, false, from)?;
    let taken = walk_way(code, marks, true, from)?;
    if plain.cycles == taken.cycles {
        return Ok(plain.cycles);
    }
    Err(CostFault::Unequal {
        at: plain.branch.unwrap_or(0),
        a: plain.cycles,
        b: taken.cycles,
    })
}

/// The cycles from address 0 to the first label: none where that is labelled itself. It takes no memory.
pub fn start_cost(code: &[u8], marks: &Marks) -> Result<u32, CostFault>
    requires { length code.now ≤ 65536 }
    ensures { result ≡ start_cost code.now marks.now }
{
    if marks.is_marked(0) {
        return Ok(0);
    }
    cost_of(code, marks, 0)
}
