//! The items of the nodes of a graph in an order, with jumps where the next node isn't the one that
//! is gone to.

ghost use Rattle.std.specs.Prelude.{◌≡◌, ℕ, ◌+◌, ◌<◌, ◌++◌, ◌∷◌, [], length, map, drop, IfOk};
ghost use Rattle.rtl.specs.Items as Item;
ghost use Rattle.rtl.specs.Code.Views.{op_of, item_of, graph_of};
ghost use Rattle.rtl.specs.Graphs.{node_at};
ghost use Rattle.lin_gen.specs.Ordering.{head_of, way_to, exit_items, node_items, laid, IsOrder};

use cerco_base::NoMemory;
use rtl::{ByteOp, Exit, Graph, Lin, LinItem, Place, Sequence};
use smallvec::SmallVec;
use std::alloc::Global;

// The node after the k-th of the order.
fn next_of(order: &[u32], k: usize) -> Option<u32>
    requires { k < length order.now }
    ensures { result ≡ head_of (drop (k + 1) order.now) }
{
    match order.get(k + 1) {
        Some(next) => Some(*next),
        None => None,
    }
}

// Adds one item.
fn add(items: &mut Lin, item: LinItem) -> Result<(), NoMemory>
    ensures { IfOk result (λ _. map item_of items.new ≡ map item_of items.old ++ item_of item ∷ []) }
{
    items.push(item)
}

// Adds the way from the end of a node to q, where the node `next` comes after it.
fn add_way(items: &mut Lin, q: u32, next: Option<u32>) -> Result<(), NoMemory>
    ensures { IfOk result (λ _. map item_of items.new ≡ map item_of items.old ++ way_to q next []) }
{
    match next {
        Some(p) => {
            if q == p {
                Ok(())
            } else {
                add(items, LinItem::Jump(q))
            }
        }
        None => add(items, LinItem::Jump(q)),
    }
}

// Adds the exit of a node that the node `next` comes after.
fn add_exit(items: &mut Lin, exit: Exit<Place>, next: Option<u32>) -> Result<(), NoMemory>
    ensures { IfOk result (λ _. map item_of items.new ≡ map item_of items.old ++ exit_items exit next []) }
{
    match exit {
        Exit::Next(q) => add_way(items, q, next),
        Exit::Test(place, true_arm, _) => add(items, LinItem::Test(place, true_arm)),
        Exit::Call(function, _) => add(items, LinItem::Call(function)),
        Exit::Label(label, q) => {
            add(items, LinItem::Label(label))?;
            add_way(items, q, next)
        }
        Exit::Return => add(items, LinItem::Return),
    }
}

// A copy of a list of places.
fn copy_places(
    alloc: Global,
    places: &SmallVec<Place, 4, Global>,
) -> Result<SmallVec<Place, 4, Global>, NoMemory>
    ensures { IfOk result (λ copy. copy.items ≡ places.now.items) }
{
    Ok(SmallVec::from_slice(alloc, places.as_slice())?)
}

// A copy of an operation.
fn copy_op(alloc: Global, op: &ByteOp<Place>) -> Result<ByteOp<Place>, NoMemory>
    ensures { IfOk result (λ copy. op_of copy ≡ op_of op.now) }
{
    match op {
        ByteOp::Const(d, n) => Ok(ByteOp::Const(*d, *n)),
        ByteOp::Move(d, s) => Ok(ByteOp::Move(*d, *s)),
        ByteOp::Op(o, d, a, b) => Ok(ByteOp::Op(*o, *d, *a, *b)),
        ByteOp::Mul(l, h, a, b) => Ok(ByteOp::Mul(*l, *h, *a, *b)),
        ByteOp::Div(d, a, b) => Ok(ByteOp::Div(*d, *a, *b)),
        ByteOp::Rem(d, a, b) => Ok(ByteOp::Rem(*d, *a, *b)),
        ByteOp::Rlc(d, a) => Ok(ByteOp::Rlc(*d, *a)),
        ByteOp::Rrc(d, a) => Ok(ByteOp::Rrc(*d, *a)),
        ByteOp::Top(a) => Ok(ByteOp::Top(*a)),
        ByteOp::ClearCarry => Ok(ByteOp::ClearCarry),
        ByteOp::SetCarry => Ok(ByteOp::SetCarry),
        ByteOp::FlipCarry => Ok(ByteOp::FlipCarry),
        ByteOp::FromCarry(d) => Ok(ByteOp::FromCarry(*d)),
        ByteOp::Load(ds, l, h) => Ok(ByteOp::Load(copy_places(alloc, ds)?, *l, *h)),
        ByteOp::Store(l, h, ss) => Ok(ByteOp::Store(*l, *h, copy_places(alloc, ss)?)),
        ByteOp::ReadPort(d) => Ok(ByteOp::ReadPort(*d)),
        ByteOp::WritePort(s) => Ok(ByteOp::WritePort(*s)),
    }
}

fn add_ops(alloc: Global, items: &mut Lin, ops: &[ByteOp<Place>]) -> Result<(), NoMemory>
    ensures { IfOk result (λ _. map item_of items.new ≡ map item_of items.old ++ map Item.Op (map op_of ops.now)) }
{
    for op in ops {
        add(items, LinItem::Op(copy_op(alloc, op)?))?;
    }
    Ok(())
}

// Adds a node that the node `next` comes after.
fn add_node(
    alloc: Global,
    items: &mut Lin,
    graph: &Graph<Place>,
    p: u32,
    next: Option<u32>,
) -> Result<(), NoMemory>
    requires { p < length graph.now.nodes }
    ensures { IfOk result (λ _. map item_of items.new ≡ map item_of items.old ++ node_items p (node_at (graph_of graph.now) p) next []) }
{
    let node = &graph.nodes.as_slice()[p as usize];
    add(items, LinItem::Here(p))?;
    add_ops(alloc, items, node.ops.as_slice())?;
    add_exit(items, node.exit, next)
}

/// The nodes in this order.
pub fn lay(alloc: Global, graph: &Graph<Place>, order: &[u32]) -> Result<Lin, NoMemory>
    requires { IsOrder (graph_of graph.now) order.now }
    ensures { IfOk result (λ lin. map item_of lin ≡ laid (graph_of graph.now) order.now) }
{
    let mut items = Sequence::new(alloc);
    for k in 0..order.len() {
        add_node(alloc, &mut items, graph, order[k], next_of(order, k))?;
    }
    Ok(items)
}
