//! The nodes of items.

ghost use Rattle.std.specs.Prelude.{◌≡◌, OnOk};
ghost use Rattle.clight_build.specs.Code.Stacks as i;
ghost use Rattle.clight_build.specs.Code.Views.{views, expr_in, list_in};
ghost use Rattle.clight_build_items.specs.Code.Stacks as s;
ghost use Rattle.clight_source.specs.Code.Views.{declaration_of, initialiser_of, header_of};
ghost use Rattle.clight_build_items.specs.Code.Views.{members_in, locals_in, items_in};

use crate::stacks::{
    put_item, take_declaration, take_header, take_initialiser, take_locals, take_members,
};
use cerco_base::NoMemory;
use clight_build::stacks::take_list;
use clight_nodes::modes::StructFront;
use clight_source::span::Span;
use clight_source::tree::{
    Declaration, Function, Global as GlobalVariable, Header, Initialiser, Item, Local, Member,
    Prototype, Stmt, StructDefinition,
};

/// A struct.
pub fn one_struct(
    members: &mut Vec<Vec<Member>>,
    items: &mut Vec<Item>,
    front: StructFront,
    right: Span,
    semicolon: Span,
) -> Result<(), NoMemory>
    ensures items { OnOk result (items_in items.new.items ≡ s.one_struct front right semicolon (views members_in members.old.items) (items_in items.old.items)) }
    ensures members { OnOk result (views members_in members.new.items ≡ i.rest (views members_in members.old.items)) }
{
    let Some(l) = take_members(members) else {
        return Ok(());
    };
    let x = StructDefinition {
        keyword: front.keyword,
        tag: front.tag,
        left: front.left,
        members: l,
        right,
        semicolon,
    };
    put_item(items, Item::Struct(x))
}

/// A global.
pub fn one_global(
    initialisers: &mut Vec<Initialiser>,
    declarations: &mut Vec<Declaration>,
    items: &mut Vec<Item>,
    semicolon: Span,
) -> Result<(), NoMemory>
    ensures items { OnOk result (items_in items.new.items ≡ s.one_global semicolon (views initialiser_of initialisers.old.items) (views declaration_of declarations.old.items) (items_in items.old.items)) }
    ensures initialisers { OnOk result (views initialiser_of initialisers.new.items ≡ i.rest (views initialiser_of initialisers.old.items)) }
    ensures declarations { OnOk result (views declaration_of declarations.new.items ≡ i.rest_with (views initialiser_of initialisers.old.items) (views declaration_of declarations.old.items)) }
{
    let Some(initialiser) = take_initialiser(initialisers) else {
        return Ok(());
    };
    let Some(declaration) = take_declaration(declarations) else {
        return Ok(());
    };
    let x = GlobalVariable {
        declaration,
        initialiser,
        semicolon,
    };
    put_item(items, Item::Global(x))
}

/// A prototype.
pub fn one_prototype(
    headers: &mut Vec<Header>,
    items: &mut Vec<Item>,
    semicolon: Span,
) -> Result<(), NoMemory>
    ensures items { OnOk result (items_in items.new.items ≡ s.one_prototype semicolon (views header_of headers.old.items) (items_in items.old.items)) }
    ensures headers { OnOk result (views header_of headers.new.items ≡ i.rest (views header_of headers.old.items)) }
{
    let Some(header) = take_header(headers) else {
        return Ok(());
    };
    put_item(items, Item::Prototype(Prototype { header, semicolon }))
}

/// A function.
pub fn one_function(
    lists: &mut Vec<Vec<Stmt>>,
    locals: &mut Vec<Vec<Local>>,
    headers: &mut Vec<Header>,
    items: &mut Vec<Item>,
    left: Span,
    right: Span,
) -> Result<(), NoMemory>
    ensures items { OnOk result (items_in items.new.items ≡ s.one_function left right (views list_in lists.old.items) (views locals_in locals.old.items) (views header_of headers.old.items) (items_in items.old.items)) }
    ensures lists { OnOk result (views list_in lists.new.items ≡ i.rest (views list_in lists.old.items)) }
    ensures locals { OnOk result (views locals_in locals.new.items ≡ i.rest_with (views list_in lists.old.items) (views locals_in locals.old.items)) }
    ensures headers { OnOk result (views header_of headers.new.items ≡ i.after (views list_in lists.old.items) (views header_of headers.old.items) (i.rest_with (views locals_in locals.old.items) (views header_of headers.old.items))) }
{
    let Some(body) = take_list(lists) else {
        return Ok(());
    };
    let Some(l) = take_locals(locals) else {
        return Ok(());
    };
    let Some(header) = take_header(headers) else {
        return Ok(());
    };
    let x = Function {
        header,
        left,
        locals: l,
        body,
        right,
    };
    put_item(items, Item::Function(x))
}
