//! The typed tree of a whole program (ISO/IEC 9899:1999, 6.9).
ghost use Rattle.std.specs.Prelude.{◌≡◌, ◌++◌, IfOk, OnOk, map};
ghost use Rattle.std.specs.Option.{option_map};
ghost use Rattle.clight_typing.specs.Statements.{option_list};
ghost use Rattle.clight_syntax.specs.Code.TypedViews.{item_of, function_of, program_of};
ghost use Rattle.clight_source.specs.Code.Views.{item_of as item_source_of, program_of as program_source_of};
ghost use Rattle.clight_typing.specs.Code.HeldFile.{file_for};
ghost use Rattle.clight_typing.specs.Code.HeldFunction.{items_with, step_of, typed_item as typed_item_lem};
ghost use Rattle.clight_typing.specs.Laws.{IsTypingOf, HasNoTyping, IfRefused};
ghost use Rattle.clight_types.specs.Outcomes.{Gives};
ghost use Rattle.clight_typing.specs.Programs.{definitions as definitions_lem};
ghost use Rattle.clight_typing.specs.TypedPrograms.{typed_items as typed_items_lem, typed_program as typed_program_lem};

use crate::files::{File, function_number};
use cerco_base::{CallOrder, Fault, NoMemory};
use clight_names::main_name;
use clight_source::tree;
use clight_syntax::typed::{Function, Item};
use clight_syntax::{Program, Typed};
use clight_types::boxes::boxed;
use clight_types::places::Places;
use std::alloc::Global;
use std::mem;

/// Typed items and the functions that they define.
#[derive(Drop)]
pub struct Items {
    pub items: Vec<Item>,
    pub functions: Vec<Function<()>>,
}

impl File {
    /// An item, and the function that it defines. Refused at its first node without a type.
    fn typed_item(&mut self, x: tree::Item) -> Result<(Item, Option<Function<()>>), Fault>
        ensures { Gives (λ r. step_of r (file_for self.new)) result (typed_item_lem (file_for self.old) (item_source_of x)) }
    {
        match x {
            tree::Item::Struct(x) => {
                self.add_struct(&x)?;
                Ok((Item::Struct(x), None))
            }
            tree::Item::Global(x) => {
                let number = self.add_global(&x)?;
                Ok((Item::Global(x, number), None))
            }
            tree::Item::Prototype(x) => {
                self.add_prototype(&x.header)?;
                Ok((Item::Prototype(x), None))
            }
            tree::Item::Function(x) => {
                let number = self.functions;
                let function = self.typed_function(x)?;
                Ok((Item::Function(number), Some(function)))
            }
        }
    }

    /// Items in order. Refused at the first node without a type.
    fn typed_items(&mut self, alloc: Global, xs: Vec<tree::Item>) -> Result<Items, Fault>
        ensures { Gives (λ r. items_with (map item_of r.items.items) (map function_of r.functions.items) (file_for self.new)) result (typed_items_lem (file_for self.old) (map item_source_of xs.items)) }
    {
        let mut items = Vec::new(alloc);
        let mut functions = Vec::new(alloc);
        for x in xs {
            let step = self.typed_item(x)?;
            let (item, function) = step;
            items.push(item)?;
            push_function(&mut functions, function)?;
        }
        Ok(Items { items, functions })
    }
}

/// Adds a function to others, if there is one.
fn push_function(
    functions: &mut Vec<Function<()>>,
    function: Option<Function<()>>,
) -> Result<(), NoMemory>
    ensures { OnOk result (map function_of functions.new.items ≡ map function_of functions.old.items ++ option_list (option_map function_of function)) }
{
    if let Some(function) = function {
        functions.push(function)?;
    }
    Ok(())
}

/// The names of the functions that items define, in order.
fn definitions(alloc: Global, items: &[tree::Item]) -> Result<Places, NoMemory>
    ensures { IfOk result (λ r. r ≡ definitions_lem (map item_source_of items.now)) }
{
    let mut names = Places::new(alloc);
    for item in items {
        if let tree::Item::Function(f) = item {
            names = names.push(f.header.declared.name.number)?;
        }
    }
    Ok(names)
}

/// The typed tree of a program, without addresses and frames.
fn typed_tree(alloc: Global, program: Program) -> Result<Typed, Fault>
    ensures { Gives program_of result (typed_program_lem (program_source_of program)) }
{
    let Program { names, items, span } = program;
    let name = main_name(&names)?;
    let definitions = definitions(alloc, &items)?;
    let mut file = boxed(alloc, File::new(alloc, definitions))?;
    let Items { items, functions } = file.typed_items(alloc, items)?;
    let main = function_number(&file.definitions, name)?;
    Ok(Typed {
        names,
        items,
        span,
        structs: file.take_structs(),
        variables: mem::replace(&mut file.variables, Vec::new(alloc)),
        functions,
        main,
        frames: Vec::new(alloc),
        data_bytes: 0,
        calls: CallOrder::new(alloc),
    })
}

/// The typed tree of a program, without addresses and frames: it is well typed, and the program is its source; there is one such tree
/// at most. Refused with `Typing` at the first node without a type: then no well-typed tree has this source.
pub fn typed_program(alloc: Global, program: Program) -> Result<Typed, Fault>
    ensures gives { Gives program_of result (typed_program_lem (program_source_of program)) }
    ensures typing { IfOk result (λ t. IsTypingOf (program_source_of program) (program_of t)) }
    ensures no_typing { IfRefused result (HasNoTyping (program_source_of program)) }
{
    typed_tree(alloc, program)
}
