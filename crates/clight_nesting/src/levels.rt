//! Levels of nodes.

ghost use Rattle.std.specs.Prelude.{◌≡◌, ◌∷◌, [], OnOk, MatchOption, Some, max};
ghost use Rattle.clight_nodes.specs.Code.States.{newest};
ghost use Rattle.clight_nesting.specs.Code.Levels as s;
ghost use Rattle.clight_nesting.specs.Code.Views.{levels_of};

use cerco_base::NoMemory;
use clight_nodes::nodes::Node;
use clight_source::tree::{CallTarget, Name};

/// The greatest depth that a node of a program may have.
const DEPTH_LIMIT: u32 = 64;

/// How deep something is, at most 65, and where it begins.
#[derive(Clone, Copy)]
pub struct Level {
    pub depth: u32,
    pub start: u32,
}

/// The levels of what is whole, the newest last, and the least start of a node that is too deep.
#[derive(Drop)]
pub struct Levels {
    pub list: Vec<Level>,
    pub deep: Option<u32>,
}

fn pop(list: &mut Vec<Level>) -> Option<Level>
    ensures { MatchOption result ((newest list.old.items ≡ []) × (newest list.new.items ≡ [])) (λ x. newest list.old.items ≡ x ∷ newest list.new.items) }
{
    list.pop()
}

fn push(list: &mut Vec<Level>, level: Level) -> Result<(), NoMemory>
    ensures { OnOk result (newest list.new.items ≡ level ∷ newest list.old.items) }
{
    list.push(level)?;
    Ok(())
}

// Takes the newest one.
fn take(x: &mut Levels) -> Level
    ensures level { result ≡ s.top (newest x.old.list.items) }
    ensures rest { newest x.new.list.items ≡ s.below (newest x.old.list.items) }
    ensures deep { x.new.deep ≡ x.old.deep }
{
    match pop(&mut x.list) {
        Some(level) => level,
        None => Level { depth: 0, start: 0 },
    }
}

fn put(x: &mut Levels, depth: u32, start: u32) -> Result<(), NoMemory>
    ensures { OnOk result (levels_of x.new ≡ s.levels (s.level depth start ∷ newest x.old.list.items) x.old.deep) }
{
    push(&mut x.list, Level { depth, start })
}

fn least(deep: Option<u32>, start: u32) -> Option<u32>
    ensures { result ≡ s.least deep (Some start) }
{
    match deep {
        None => Some(start),
        Some(i) => Some(i.min(start)),
    }
}

// A node over parts of which the deepest has this depth.
fn node(x: &mut Levels, depth: u32, start: u32) -> Result<(), NoMemory>
    ensures { OnOk result (levels_of x.new ≡ s.node depth start (newest x.old.list.items) x.old.deep) }
{
    if depth < DEPTH_LIMIT {
        return put(x, 1 + depth, start);
    }
    x.deep = least(x.deep, start);
    put(x, 1 + DEPTH_LIMIT, start)
}

// A node over the newest one.
fn over(x: &mut Levels, start: u32) -> Result<(), NoMemory>
    ensures { OnOk result (levels_of x.new ≡ s.over start (newest x.old.list.items) x.old.deep) }
{
    let part = take(x);
    node(x, part.depth, start)
}

// A member, which begins where its left side does.
fn member(x: &mut Levels) -> Result<(), NoMemory>
    ensures { OnOk result (levels_of x.new ≡ s.over (s.top (newest x.old.list.items)).start (newest x.old.list.items) x.old.deep) }
{
    let part = take(x);
    node(x, part.depth, part.start)
}

// A node over two, which begins where the first of them does.
fn between(x: &mut Levels) -> Result<(), NoMemory>
    ensures { OnOk result (levels_of x.new ≡ s.over_two (s.top (s.below (newest x.old.list.items))).start (newest x.old.list.items) x.old.deep) }
{
    let right = take(x);
    let left = take(x);
    node(x, left.depth.max(right.depth), left.start)
}

// A statement more.
fn then(x: &mut Levels) -> Result<(), NoMemory>
    ensures { OnOk result (levels_of x.new ≡ s.measure Node.Then (newest x.old.list.items) x.old.deep) }
{
    let last = take(x);
    let earlier = take(x);
    put(x, earlier.depth.max(last.depth), 0)
}

// `target = value;`
fn assign(x: &mut Levels) -> Result<(), NoMemory>
    ensures { OnOk result (levels_of x.new ≡ s.leaf (s.top (s.below (newest x.old.list.items))).start (s.below (s.below (newest x.old.list.items))) x.old.deep) }
{
    take(x);
    let target = take(x);
    put(x, 0, target.start)
}

// `target = P1;`
fn read_port(x: &mut Levels) -> Result<(), NoMemory>
    ensures { OnOk result (levels_of x.new ≡ s.leaf (s.top (newest x.old.list.items)).start (s.below (newest x.old.list.items)) x.old.deep) }
{
    let target = take(x);
    put(x, 0, target.start)
}

// A simple statement with an expression.
fn simple(x: &mut Levels, start: u32) -> Result<(), NoMemory>
    ensures { OnOk result (levels_of x.new ≡ s.leaf start (s.below (newest x.old.list.items)) x.old.deep) }
{
    take(x);
    put(x, 0, start)
}

fn call_start(target: Option<CallTarget>, function: Name) -> u32
    ensures { result ≡ s.call_start target function }
{
    match target {
        Some(target) => target.name.span.from,
        None => function.span.from,
    }
}

// A statement over a condition and one statement.
fn guarded(x: &mut Levels, start: u32) -> Result<(), NoMemory>
    ensures { OnOk result (levels_of x.new ≡ s.node (s.top (newest x.old.list.items)).depth start (s.below (s.below (newest x.old.list.items))) x.old.deep) }
{
    let body = take(x);
    take(x);
    node(x, body.depth, start)
}

fn if_else(x: &mut Levels, start: u32) -> Result<(), NoMemory>
    ensures { OnOk result (levels_of x.new ≡ s.node (max (s.top (s.below (newest x.old.list.items))).depth (s.top (newest x.old.list.items)).depth) start (s.below (s.below (s.below (newest x.old.list.items)))) x.old.deep) }
{
    let other = take(x);
    let arm = take(x);
    take(x);
    node(x, arm.depth.max(other.depth), start)
}

fn do_statement(x: &mut Levels, start: u32) -> Result<(), NoMemory>
    ensures { OnOk result (levels_of x.new ≡ s.over start (s.below (newest x.old.list.items)) x.old.deep) }
{
    take(x);
    over(x, start)
}

// The newest one joins something that it isn't a level of.
fn drop_one(x: &mut Levels)
    ensures { levels_of x.new ≡ s.levels (s.below (newest x.old.list.items)) x.old.deep }
{
    take(x);
}

// The same of the newest two.
fn drop_two(x: &mut Levels)
    ensures { levels_of x.new ≡ s.levels (s.below (s.below (newest x.old.list.items))) x.old.deep }
{
    take(x);
    take(x);
}

fn more(depth: u32) -> u32
    ensures { result ≡ s.more depth }
{
    if depth < 1 + DEPTH_LIMIT {
        1 + depth
    } else {
        depth
    }
}

fn begun(start: u32, part: Level) -> u32
    ensures { result ≡ s.begun start part }
{
    if part.depth < 1 { start } else { part.start }
}

// One star more.
fn star(x: &mut Levels, start: u32) -> Result<(), NoMemory>
    ensures { OnOk result (levels_of x.new ≡ s.star start (newest x.old.list.items) x.old.deep) }
{
    let part = take(x);
    put(x, more(part.depth), begun(start, part))
}

// A name after its stars.
fn declared(x: &mut Levels, start: u32) -> Result<(), NoMemory>
    ensures { OnOk result (levels_of x.new ≡ s.declared start (newest x.old.list.items) x.old.deep) }
{
    let part = take(x);
    put(x, part.depth, begun(start, part))
}

// One length more.
fn one_length(x: &mut Levels) -> Result<(), NoMemory>
    ensures { OnOk result (levels_of x.new ≡ s.one_length (newest x.old.list.items) x.old.deep) }
{
    let part = take(x);
    put(x, more(part.depth), part.start)
}

fn note(part: Level, deep: Option<u32>) -> Option<u32>
    ensures { result ≡ s.note part deep }
{
    if part.depth <= DEPTH_LIMIT {
        deep
    } else {
        least(deep, part.start)
    }
}

// What is declared is a node.
fn noted(x: &mut Levels)
    ensures { levels_of x.new ≡ s.noted (newest x.old.list.items) x.old.deep }
{
    let part = take(x);
    x.deep = note(part, x.deep);
}

// The same below the first value of a local.
fn local_value(x: &mut Levels)
    ensures { levels_of x.new ≡ s.noted (s.below (newest x.old.list.items)) x.old.deep }
{
    take(x);
    noted(x);
}

// A node that needs no memory.
fn settle(x: &mut Levels, n: Node)
    ensures { levels_of x.new ≡ s.settle n (newest x.old.list.items) x.old.deep }
{
    match n {
        Node::Argument(_) => drop_one(x),
        Node::Assignment(_) => drop_two(x),
        Node::Condition => drop_one(x),
        Node::Function(_, _) => drop_one(x),
        Node::Member(_) => noted(x),
        Node::Global(_) => noted(x),
        Node::NoParameters => noted(x),
        Node::Parameter(_) => noted(x),
        Node::Header(_, _) => noted(x),
        Node::Local(_) => noted(x),
        Node::LocalValue(_, _) => local_value(x),
        _ => {}
    }
}

// A node of an expression, or of what is declared.
fn measure_expression(x: &mut Levels, n: Node) -> Result<(), NoMemory>
    ensures { OnOk result (levels_of x.new ≡ s.measure_expression n (newest x.old.list.items) x.old.deep) }
{
    match n {
        Node::Name(name) => put(x, 0, name.span.from),
        Node::Number(_, at) => put(x, 0, at.from),
        Node::Parenthesis(left, _) => over(x, left.from),
        Node::Binary(_, _) => between(x),
        Node::Prefix(_, at) => over(x, at.from),
        Node::Cast(left, _, _) => over(x, left.from),
        Node::Index(_, _) => between(x),
        Node::Select(_, _, _) => member(x),
        Node::NoStars => put(x, 0, 0),
        Node::Star(at) => star(x, at.from),
        Node::Declared(_, name) => declared(x, name.span.from),
        Node::Length(_) => one_length(x),
        _ => {
            settle(x, n);
            Ok(())
        }
    }
}

// A simple statement.
fn measure_simple(x: &mut Levels, n: Node) -> Result<(), NoMemory>
    ensures { OnOk result (levels_of x.new ≡ s.measure_simple n (newest x.old.list.items) x.old.deep) }
{
    match n {
        Node::Empty(at) => put(x, 0, at.from),
        Node::Assign(_, _) => assign(x),
        Node::ReadPort(_, _, _) => read_port(x),
        Node::WritePort(port, _, _) => simple(x, port.from),
        Node::CallAlone(target, function, _, _, _) => put(x, 0, call_start(target, function)),
        Node::Call(target, function, _, _, _) => simple(x, call_start(target, function)),
        Node::Break(keyword, _) => put(x, 0, keyword.from),
        Node::Continue(keyword, _) => put(x, 0, keyword.from),
        Node::Return(keyword, _) => put(x, 0, keyword.from),
        Node::ReturnValue(keyword, _) => simple(x, keyword.from),
        _ => measure_expression(x, n),
    }
}

/// One node more.
pub fn measure(x: &mut Levels, n: Node) -> Result<(), NoMemory>
    ensures { OnOk result (levels_of x.new ≡ s.measure n (newest x.old.list.items) x.old.deep) }
{
    match n {
        Node::NoStatements => put(x, 0, 0),
        Node::Then => then(x),
        Node::Block(left, _) => over(x, left.from),
        Node::If(keyword, _, _) => guarded(x, keyword.from),
        Node::IfElse(keyword, _, _, _) => if_else(x, keyword.from),
        Node::While(keyword, _, _) => guarded(x, keyword.from),
        Node::Do(keyword, _, _, _, _) => do_statement(x, keyword.from),
        Node::For(middle, _) => over(x, middle.start.keyword.from),
        _ => measure_simple(x, n),
    }
}
