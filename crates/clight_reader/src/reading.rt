//! From terminal symbols to the items of a program.

ghost use Rattle.std.specs.Prelude.{◌≡◌, List, map, IfOk, IfErr};
ghost use Rattle.clight_source.specs.Trees as t;
ghost use Rattle.clight_source.specs.Spelling.{Spells};
ghost use Rattle.clight_source.specs.Depth.{IsShallow};
ghost use Rattle.clight_source.specs.Code.Views.{item_of};
ghost use Rattle.clight_nodes.specs.Code.States.{newest};
ghost use Rattle.clight_nodes.specs.Code.Postfix.{out_items};
ghost use Rattle.clight_reader.specs.Code.Readings.{IsFault};

use cerco_base::NoMemory;
use clight_build_items::build::build;
use clight_nesting::nesting::nesting;
use clight_nodes::modes::{DeclarationMode, Mode};
use clight_nodes::nodes::Node;
use clight_recognise_items::recogniser::{again, is_refused, may_end, next_mode};
use clight_source::symbol::Terminal;
use clight_source::tree::Item;
use std::alloc::Global;

/// Why terminal symbols aren't those of a program within the limit.
#[derive(Clone, Copy)]
pub enum ParseFault {
    /// The number of the first terminal symbol that can't stand there, or the number of all.
    Syntax(usize),
    /// The least start of a node that is too deep.
    Nesting(u32),
    /// There was no memory for the call.
    OutOfMemory,
}

impl From<NoMemory> for ParseFault {
    ghost use Rattle.clight_reader.specs.declared.reading.ParseFault.TheVariants.{OutOfMemory};

    ghost from_gives = { λ _ fault. fault ≡ OutOfMemory };

    fn from(_error: NoMemory) -> ParseFault {
        ParseFault::OutOfMemory
    }
}

// The nodes of the program that the terminal symbols spell.
fn recognise(alloc: Global, terminals: &[Terminal]) -> Result<Vec<Node>, ParseFault>
    ensures nodes { IfOk result (λ v. (items : List t.Item) × Spells items terminals.now × (newest v.items ≡ out_items items)) }
    ensures fault { IfErr result (λ e. IsFault e terminals.now) }
{
    let mut forms = Vec::new(alloc);
    let mut nodes = Vec::new(alloc);
    let mut mode = Mode::Declaration(DeclarationMode::ItemStart);
    for (i, t) in terminals.iter().enumerate() {
        let next = next_mode(&mut forms, &mut nodes, mode, *t)?;
        mode = again(next);
        if is_refused(mode) {
            return Err(ParseFault::Syntax(i));
        }
    }
    if may_end(mode) {
        return Ok(nodes);
    }
    Err(ParseFault::Syntax(terminals.len()))
}

/// The items that the terminal symbols spell. A fault of the grammar comes before one of the depth.
pub fn parse_terminals(alloc: Global, terminals: &[Terminal]) -> Result<Vec<Item>, ParseFault>
    ensures spelled { IfOk result (λ v. Spells (map item_of v.items) terminals.now) }
    ensures shallow { IfOk result (λ v. IsShallow (map item_of v.items)) }
    ensures fault { IfErr result (λ e. IsFault e terminals.now) }
{
    let nodes = recognise(alloc, terminals)?;
    match nesting(alloc, &nodes)? {
        Some(at) => Err(ParseFault::Nesting(at)),
        None => Ok(build(alloc, &nodes)?),
    }
}
