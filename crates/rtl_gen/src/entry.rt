//! The new node after the entry of a function.
ghost use Rattle.std.specs.Prelude.{◌≡◌, ◌<◌, ◌+◌, ◌^◌, ◌++◌, OnOk, IfOk, length, take, drop};
ghost use Rattle.cerco_middle.specs.Operators.{held_bytes};
ghost use Rattle.rtl.specs.Code.Views.{node_of};
ghost use Rattle.byte_sequences.specs.Words.{vreg};
ghost use Rattle.byte_sequences.specs.Code.Views.{ops_of};
ghost use Rattle.rtl_gen.specs.Translation as spec;

use byte_sequences::moves::{push_moves, push_zeros};
use byte_sequences::words::{argument, variable};
use cerco_base::NoMemory;
use cerco_middle::Held;
use rtl::{Exit, Node, Ops, Vreg};
use std::alloc::Global;

// In how many bytes a scalar is held.
fn bytes_of(held: Held) -> u32
    ensures { result ≡ held_bytes held }
{
    match held {
        Held::W16 => 2,
        _ => 1,
    }
}

// The parameters take what is in the argument places.
fn push_taken(ops: &mut Ops<Vreg>, parameters: &[Held]) -> Result<(), NoMemory>
    requires { length parameters.now < 2 ^ 28 }
    ensures { OnOk result (ops_of ops.new ≡ ops_of ops.old ++ spec.taken vreg parameters.now 0 0) }
{
    let mut first_byte = 0;
    for x in 0..parameters.len() {
        let held = parameters[x];
        push_moves(ops, held, variable(x as u32), argument(first_byte))?;
        first_byte += bytes_of(held);
    }
    Ok(())
}

// The variables from this number on become 0.
fn push_cleared(ops: &mut Ops<Vreg>, variables: &[Held], first: u32) -> Result<(), NoMemory>
    requires { first + length variables.now < 2 ^ 29 }
    ensures { OnOk result (ops_of ops.new ≡ ops_of ops.old ++ spec.cleared vreg variables.now first) }
{
    for x in 0..variables.len() {
        push_zeros(ops, variables[x], variable(first + x as u32))?;
    }
    Ok(())
}

// The operations of the new node, where so many of these variables are parameters.
fn push_entry(ops: &mut Ops<Vreg>, held: &[Held], parameters: usize) -> Result<(), NoMemory>
    requires few { length held.now < 2 ^ 28 }
    ensures { OnOk result (ops_of ops.new ≡ ops_of ops.old ++ spec.entry_code vreg held.now parameters) }
{
    if held.len() < parameters {
        return push_taken(ops, held);
    }
    push_taken(ops, &held[..parameters])?;
    push_cleared(ops, &held[parameters..], parameters as u32)
}

/// The new node, which goes on at the next one.
pub fn entry_node(
    alloc: Global,
    held: &[Held],
    parameters: u32,
    next: u32,
) -> Result<Node<Vreg>, NoMemory>
    requires { length held.now < 2 ^ 28 }
    ensures { IfOk result (λ node. node_of node ≡ spec.entry_node vreg held.now parameters next) }
{
    let mut ops = Ops::new(alloc);
    push_entry(&mut ops, held, parameters as usize)?;
    Ok(Node {
        ops,
        exit: Exit::Next(next),
    })
}
