//! The fold.

ghost use Rattle.std.specs.Prelude.{◌≡◌, OnOk, IfOk, List};
ghost use Rattle.clight_source.specs.Trees.{Item as Tree};
ghost use Rattle.clight_nodes.specs.Code.States.{newest};
ghost use Rattle.clight_nodes.specs.Code.Postfix.{out_items};
ghost use Rattle.clight_build_items.specs.Code.Stacks as s;
ghost use Rattle.clight_build_items.specs.Code.Views.{items_in, declarations_of, whole_of};

use crate::declarations::{
    declared, listed, local_value, no_lengths, one_header, one_length, one_local, one_member,
    one_number, one_parameter, star, void_header,
};
use crate::items::{one_function, one_global, one_prototype, one_struct};
use crate::stacks::{
    Declarations, no_declarations, put_initialiser, put_locals, put_members, put_numbers,
    put_parameters, put_stars,
};
use cerco_base::NoMemory;
use clight_build::fold::add as add_part;
use clight_build::stacks::{Stacks, no_stacks};
use clight_nodes::nodes::Node;
use clight_source::tree::{Initialiser, Item};
use std::alloc::Global;

// A node of a declaration more.
#[tactic(auto, using(crate::proofs::Pushes::pushes))]
fn add_declared(alloc: Global, x: &mut Declarations, node: Node) -> Result<(), NoMemory>
    ensures { OnOk result (declarations_of x.new ≡ s.add_declared node (declarations_of x.old)) }
{
    match node {
        Node::NoStars => put_stars(&mut x.stars, Vec::new(alloc)),
        Node::Star(at) => star(&mut x.stars, at),
        Node::Declared(specifiers, name) => {
            declared(&mut x.stars, &mut x.declareds, specifiers, name)
        }
        Node::NoLengths => no_lengths(alloc, &mut x.declareds, &mut x.declarations),
        Node::Length(length) => one_length(&mut x.declarations, length),
        Node::NoMembers => put_members(&mut x.members, Vec::new(alloc)),
        Node::Member(at) => one_member(&mut x.declarations, &mut x.members, at),
        Node::NoLocals => put_locals(&mut x.locals, Vec::new(alloc)),
        Node::Local(at) => one_local(&mut x.declarations, &mut x.locals, at),
        _ => Ok(()),
    }
}

// A node of a first value or of a header more.
#[tactic(auto, using(crate::proofs::Pushes::pushes))]
fn add_first(alloc: Global, x: &mut Declarations, node: Node) -> Result<(), NoMemory>
    ensures { OnOk result (declarations_of x.new ≡ s.add_first node (declarations_of x.old)) }
{
    match node {
        Node::NoInitialiser => put_initialiser(&mut x.initialisers, Initialiser::Nothing),
        Node::Single(equals, number) => {
            put_initialiser(&mut x.initialisers, Initialiser::Single(equals, number))
        }
        Node::NoNumbers => put_numbers(&mut x.numbers, Vec::new(alloc)),
        Node::EarlierNumber(number, at) => one_number(&mut x.numbers, number, at),
        Node::Listed(equals, left, number, right) => listed(
            &mut x.numbers,
            &mut x.initialisers,
            equals,
            left,
            number,
            right,
        ),
        Node::NoParameters => put_parameters(&mut x.parameters, Vec::new(alloc)),
        Node::Parameter(at) => one_parameter(&mut x.declareds, &mut x.parameters, at),
        Node::VoidHeader(left, keyword, right) => void_header(
            &mut x.parameters,
            &mut x.declareds,
            &mut x.headers,
            left,
            keyword,
            right,
        ),
        Node::Header(left, right) => one_header(
            &mut x.declareds,
            &mut x.parameters,
            &mut x.headers,
            left,
            right,
        ),
        _ => add_declared(alloc, x, node),
    }
}

// A node inside an item more, which is of its statements or of its declarations.
fn add_either(
    alloc: Global,
    parts: &mut Stacks,
    x: &mut Declarations,
    node: Node,
) -> Result<(), NoMemory>
    ensures { (items : List Item) → OnOk result (whole_of parts.new x.new items ≡ s.add_either node (whole_of parts.old x.old items)) }
{
    add_part(alloc, parts, node)?;
    add_first(alloc, x, node)
}

// A node inside an item more.
fn add_inside(
    alloc: Global,
    parts: &mut Stacks,
    x: &mut Declarations,
    node: Node,
) -> Result<(), NoMemory>
    ensures { (items : List Item) → OnOk result (whole_of parts.new x.new items ≡ s.add_inside node (whole_of parts.old x.old items)) }
{
    match node {
        Node::LocalValue(equals, at) => local_value(
            &mut parts.exprs,
            &mut x.declarations,
            &mut x.locals,
            equals,
            at,
        ),
        _ => add_either(alloc, parts, x, node),
    }
}

// One node more.
fn add(
    alloc: Global,
    parts: &mut Stacks,
    x: &mut Declarations,
    items: &mut Vec<Item>,
    node: Node,
) -> Result<(), NoMemory>
    ensures { OnOk result (whole_of parts.new x.new items.new.items ≡ s.add node (whole_of parts.old x.old items.old.items)) }
{
    match node {
        Node::Struct(front, right, at) => one_struct(&mut x.members, items, front, right, at),
        Node::Global(at) => one_global(&mut x.initialisers, &mut x.declarations, items, at),
        Node::Prototype(at) => one_prototype(&mut x.headers, items, at),
        Node::Function(left, right) => one_function(
            &mut parts.lists,
            &mut x.locals,
            &mut x.headers,
            items,
            left,
            right,
        ),
        _ => add_inside(alloc, parts, x, node),
    }
}

/// The items whose nodes these are.
pub fn build(alloc: Global, nodes: &[Node]) -> Result<Vec<Item>, NoMemory>
    ensures { (trees : List Tree) → newest nodes.now ≡ out_items trees → IfOk result (λ v. items_in v.items ≡ trees) }
{
    let mut parts = no_stacks(alloc);
    let mut declarations = no_declarations(alloc);
    let mut items = Vec::new(alloc);
    for node in nodes.iter() {
        add(alloc, &mut parts, &mut declarations, &mut items, *node)?;
    }
    Ok(items)
}
