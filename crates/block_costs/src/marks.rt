//! Which addresses have labels.
ghost use Rattle.std.specs.Prelude.{◌≡◌, IfOk};
ghost use Rattle.block_costs.specs.Ways.{is_marked, AreMarks};

use cerco_base::NoMemory;
use std::alloc::Global;
use std::marker::Model;

/// The marked addresses of a code, at which labels stand. Contracts see them as a list of truth values, one for each address.
#[derive(Drop)]
pub struct Marks {
    flags: Vec<bool>,
}

impl Model for Marks {
    ghost use Rattle.std.specs.Prelude.{◌≡◌, List, Bool, length};

    ghost Value = { List Bool };

    ghost view = { λ m. m.flags.items };

    ghost invariant = { λ m. length m.flags.items ≡ 65536 };
}

impl Marks {
    /// The addresses of these labels, some of which may be equal.
    pub fn new(alloc: Global, labels: &[u16]) -> Result<Marks, NoMemory>
        ensures { IfOk result (λ marks. AreMarks labels.now marks) }
    {
        let mut flags = vec![in alloc; false; 65536]?;
        for at in labels {
            flags[*at as usize] = true;
        }
        Ok(Marks { flags })
    }

    /// Whether a label stands at an address.
    pub fn is_marked(&self, address: u16) -> bool
        ensures { result ≡ is_marked self.now address }
    {
        self.flags[address as usize]
    }
}
