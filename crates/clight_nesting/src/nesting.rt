//! The least start of a node that is too deep.

ghost use Rattle.std.specs.Prelude.{◌≡◌, IfOk, List};
ghost use Rattle.clight_source.specs.Trees.{Item};
ghost use Rattle.clight_nodes.specs.Code.States.{newest};
ghost use Rattle.clight_nodes.specs.Code.Postfix.{out_items};
ghost use Rattle.clight_nesting.specs.Code.Nesting.{IsNesting};

use crate::levels::{Levels, measure};
use cerco_base::NoMemory;
use clight_nodes::nodes::Node;
use std::alloc::Global;

/// The least start of a node that is too deep, in the items whose nodes these are.
pub fn nesting(alloc: Global, nodes: &[Node]) -> Result<Option<u32>, NoMemory>
    ensures { (items : List Item) → newest nodes.now ≡ out_items items → IfOk result (IsNesting items) }
{
    let mut x = Levels {
        list: Vec::new(alloc),
        deep: None,
    };
    for node in nodes.iter() {
        measure(&mut x, *node)?;
    }
    Ok(x.deep)
}
