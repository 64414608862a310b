//! The nodes of a graph that is being built, from its end to its entry.
ghost use Rattle.std.specs.Prelude.{◌≡◌, IfOk, Some, slice_set};
ghost use Rattle.cerco_middle.specs.declared.rtlabs.RtOp.TheVariants as o;
ghost use Rattle.rtlabs_gen.specs.Translation.{added};

use cerco_base::{Label, NoMemory};
use cerco_middle::{RtNode, RtNodes, RtOp};

/// Adds a node, and answers its number.
pub(crate) fn add_node(nodes: &mut RtNodes, op: RtOp, next: Option<u32>) -> Result<u32, NoMemory>
    ensures nodes { IfOk result (λ n. nodes.new.items ≡ (added nodes.old.items op next).nodes) }
    ensures entry { IfOk result (λ n. n ≡ (added nodes.old.items op next).entry) }
{
    let Ok(number) = u32::try_from(nodes.len()) else {
        return Err(NoMemory);
    };
    nodes.push(RtNode { op, next })?;
    Ok(number)
}

/// Lets a label that was added before what comes after it go on there.
pub(crate) fn close_label(nodes: &mut RtNodes, number: u32, label: Label, next: u32)
    ensures { nodes.new.items ≡ slice_set nodes.old.items number (record { op = o.Label label; next = Some next }) }
{
    if let Some(node) = nodes.get_mut(number as usize) {
        *node = RtNode {
            op: RtOp::Label(label),
            next: Some(next),
        };
    }
}
