//! How a run begins.
ghost use Rattle.std.specs.Prelude.{◌≡◌, [], ◌∷◌, List, IfOk, OnOk};
ghost use Rattle.clight_syntax.specs.TypedTrees as t;
ghost use Rattle.clight_syntax.specs.Code.TypedViews.{function_of, item_of, program_of};
ghost use Rattle.clight_values.specs.Memory as m;
ghost use Rattle.clight_meaning.specs.Meaning as e;
ghost use Rattle.clight_meaning.specs.Code.Evaluation as n;
ghost use Rattle.clight_meaning.specs.Code.Holding.{Announces, work_held, works_held};
ghost use Rattle.clight_meaning.specs.Code.Turns.{rest_held};
ghost use Rattle.clight_values.specs.Code.Views.{memory_held};
ghost use Rattle.clight_meaning.specs.Code.Views.{state_held};

use crate::running::{Running, Work};
use crate::state::{Frame, State};
use crate::statements::variable_type;
use cerco_base::{Label, NoMemory};
use clight_syntax::typed::{Function, Item, TypedProgram};
use clight_values::memory::Memory;
use std::alloc::Global;

/// A global becomes a block with its first values. No other part of the text makes one.
fn begin_item<'a>(
    memory: &mut Memory<'a>,
    alloc: Global,
    program: &'a TypedProgram<Label>,
    item: &Item,
) -> Result<(), NoMemory>
    ensures { (more : List t.Item) → OnOk result (m.with_blocks 0 (e.global_blocks (program_of program.now) more) (memory_held memory.new) ≡ m.with_blocks 0 (e.global_blocks (program_of program.now) (item_of item.now ∷ more)) (memory_held memory.old)) }
{
    match item {
        Item::Global(global, number) => {
            match variable_type(&program.variables, *number as usize) {
                None => memory.begin_empty(),
                Some(ty) => {
                    memory.begin_global(alloc, &program.structs, ty, &global.initialiser)
                }
            }
        }
        Item::Struct(_) => Ok(()),
        Item::Prototype(_) => Ok(()),
        Item::Function(_) => Ok(()),
    }
}

/// The globals with their first values.
fn globals<'a>(alloc: Global, program: &'a TypedProgram<Label>) -> Result<Memory<'a>, NoMemory>
    ensures { IfOk result (λ memory. memory_held memory ≡ m.with_blocks 0 (e.global_blocks (program_of program.now) (program_of program.now).items) (record { cells = []; blocks = [] })) }
{
    let mut memory = Memory::new(alloc);
    for item in &program.items {
        begin_item(&mut memory, alloc, program, item)?;
    }
    Ok(memory)
}

/// The state before `main` is called.
fn beginning<'a>(
    alloc: Global,
    program: &'a TypedProgram<Label>,
    script: &'a [u8],
) -> Result<State<'a>, NoMemory>
    ensures { IfOk result (λ st. state_held st ≡ e.beginning (program_of program.now) script.now) }
{
    let memory = globals(alloc, program)?;
    let frame = Frame {
        blocks: 0,
        cells: 0,
        call: 0,
        depth: 0,
        result: None,
        scalars: Vec::new(alloc),
    };
    Ok(State {
        memory,
        made: 1,
        frame,
        script,
    })
}

impl<'a> Running<'a> {
    /// A label is due, and then this work.
    fn announce(&mut self, label: Label, work: Work<'a>) -> Result<(), NoMemory>
        ensures { OnOk result (Announces label (work_held work.entry) self.old self.new) }
    {
        self.push(work)?;
        self.push(Work::Pass(label))?;
        Ok(())
    }

    /// A function is called without arguments, and what is left to do comes behind it.
    #[tactic(auto, using(crate::proofs::Stacks::work_laws))]
    fn open(&mut self, function: &'a Function<Label>) -> Result<(), NoMemory>
        ensures { OnOk result (rest_held self.new ≡ e.passes function.now.label (e.with_state (e.prepared (program_of self.old.program.now) (function_of function.now) (e.entered (program_of self.old.program.now) (function_of function.now) [] (state_held self.old.state))) (n.run_list (program_of self.old.program.now) (n.listed (function_of function.now).body []) (n.standing (program_of self.old.program.now) (works_held self.old.work.items)).goes))) }
    {
        let arguments = Vec::new(self.alloc);
        self.state
            .enter(self.alloc, self.program, function, arguments)?;
        match self.state.prepare(self.program, function) {
            Err(kind) => self.announce(function.label, Work::Faulty(kind)),
            Ok(()) => self.announce(function.label, Work::All(function.body.as_slice())),
        }
    }

    /// The run of a program on a port script: `main` is called.
    pub(crate) fn new(
        alloc: Global,
        program: &'a TypedProgram<Label>,
        script: &'a [u8],
    ) -> Result<Running<'a>, NoMemory>
        ensures { IfOk result (λ r. rest_held r ≡ e.source (program_of program.now) script.now) }
    {
        let mut running = Running {
            alloc,
            program,
            state: beginning(alloc, program, script)?,
            work: Vec::new(alloc),
        };
        match running.function(program.main) {
            None => Ok(running),
            Some(main) => {
                running.open(main)?;
                Ok(running)
            }
        }
    }
}
