//! The layout of a program.
ghost use Rattle.std.specs.Prelude.{◌≡◌, ℕ, ◌<◌, ◌≤◌, length, map, IfOk, slice_get};
ghost use Rattle.call_graph.specs.CallPaths.{IsOrderOf};
ghost use Rattle.clight_syntax.specs.Code.TypedViews.{function_of, program_of};
ghost use Rattle.clight_layout.specs.Calls.{callees};
ghost use Rattle.clight_layout.specs.Layout.{HasNoCycle, IsDepth, greatest_depth, global_bytes, frame_sizes as frame_sizes_lem, laid_out, IsLayout};
ghost use Rattle.clight_layout.specs.Reasons.{defined_at as defined_at_lem};
ghost use Rattle.clight_layout.specs.Code.Outcomes.{Answers, IsMeasured};

use crate::graph::graph_of;
use crate::sizes::{Area, bytes_of, frame_sizes};
use crate::starts::{add, ones, starts_of, sums_of};
use crate::variables::{place, place_frames};
use call_graph::OrderFault;
use cerco_base::{CallOrder, Fault, NoMemory, Reason};
use clight_syntax::Typed;
use clight_syntax::typed::Function;
use std::alloc::Global;

const GREATEST_DEPTH: u32 = 64;

const GREATEST_DATA: u32 = 65_534;

/// Where the frames of a program begin, and how many bytes the globals and the largest frames of a call path have.
#[derive(Drop)]
pub struct Measured {
    pub starts: Vec<u16>,
    pub total: u16,
}

// Where the name of a function stands in its definition, 0 where there is no such function.
fn defined_at(functions: &[Function<()>], number: u32) -> u32
    ensures { result ≡ defined_at_lem (slice_get (map function_of functions.now) number) }
{
    match functions.get(number as usize) {
        Some(function) => function.header.declared.name.span.from,
        None => 0,
    }
}

// The order of a program's calls.
fn order_of(alloc: Global, program: &Typed) -> Result<CallOrder, Fault>
    ensures { Answers (program_of program.now) (λ order. IsOrderOf (callees (program_of program.now).functions) order × HasNoCycle (callees (program_of program.now).functions)) result }
{
    let graph = graph_of(alloc, program.functions.as_slice())?;
    match graph.order(alloc) {
        Ok(order) => Ok(order),
        Err(OrderFault::OutOfMemory) => Err(Fault::OutOfMemory),
        Err(OrderFault::Cycle(first)) => {
            let at = defined_at(program.functions.as_slice(), first);
            Err(Fault::Refused(Reason::Recursion { at }))
        }
    }
}

// Refuses a program with too long a call path.
fn check_depth(alloc: Global, program: &Typed, order: &CallOrder) -> Result<(), Fault>
    requires order { IsOrderOf (callees (program_of program.now).functions) order.now }
    requires no_cycle { HasNoCycle (callees (program_of program.now).functions) }
    ensures { Answers (program_of program.now) (λ _. (n : ℕ) × IsDepth (callees (program_of program.now).functions) n × (n ≤ greatest_depth)) result }
{
    let functions = program.functions.as_slice();
    let ones = ones(alloc, functions)?;
    let sums = sums_of(alloc, order, ones.as_slice())?;
    let depth = sums.largest;
    if depth > GREATEST_DEPTH {
        return Err(Fault::Refused(Reason::StackFull { depth }));
    }
    Ok(())
}

// The bytes of the globals.
fn globals_of(program: &Typed) -> Result<u32, NoMemory>
    ensures { IfOk result (λ n. n ≡ global_bytes (program_of program.now)) }
{
    let bytes = bytes_of(
        Area::Globals,
        program.structs.as_slice(),
        program.variables.as_slice(),
    )?;
    Ok(bytes)
}

// The bytes of the frames.
fn sizes_of(alloc: Global, program: &Typed) -> Result<Vec<u32>, NoMemory>
    ensures { IfOk result (λ sizes. sizes.items ≡ frame_sizes_lem (program_of program.now)) }
{
    let structs = program.structs.as_slice();
    let variables = program.variables.as_slice();
    let sizes = frame_sizes(alloc, structs, variables, program.functions.as_slice())?;
    Ok(sizes)
}

// Where the frames of a program begin. Refuses a program with too many bytes.
fn measure(alloc: Global, program: &Typed, order: &CallOrder) -> Result<Measured, Fault>
    requires order { IsOrderOf (callees (program_of program.now).functions) order.now }
    requires no_cycle { HasNoCycle (callees (program_of program.now).functions) }
    requires depth { (n : ℕ) × IsDepth (callees (program_of program.now).functions) n × (n ≤ greatest_depth) }
    ensures { Answers (program_of program.now) (λ measured. IsMeasured (program_of program.now) measured) result }
{
    let globals = globals_of(program)?;
    let sizes = sizes_of(alloc, program)?;
    let sums = sums_of(alloc, order, sizes.as_slice())?;
    let total = add(globals, sums.largest)?;
    if total > GREATEST_DATA {
        return Err(Fault::Refused(Reason::DataFull { total }));
    }
    let starts = starts_of(alloc, globals, sums.before.as_slice())?;
    Ok(Measured {
        starts,
        total: total as u16,
    })
}

// Gives a program its addresses and the order of its calls.
fn with_addresses(program: Typed, measured: Measured, order: CallOrder) -> Result<Typed, NoMemory>
    ensures { IfOk result (λ q. program_of q ≡ laid_out (program_of program) measured.starts.items measured.total order) }
{
    let mut program = program;
    let structs = program.structs.as_slice();
    place(Area::Globals, structs, 1, program.variables.as_mut_slice())?;
    place_frames(
        structs,
        program.functions.as_slice(),
        measured.starts.as_slice(),
        program.variables.as_mut_slice(),
    )?;
    program.frames = measured.starts;
    program.data_bytes = measured.total;
    program.calls = order;
    Ok(program)
}

/// Gives a program the order of its calls, and lays it out in external RAM: the globals from address 1 on, and the frame of each
/// function behind them and behind the largest sum of frames over a call path that leads to it.
///
/// # Errors
///
/// The first of these: `Recursion` at the name of the first function on a cycle of calls, `StackFull` where a call path has more than
/// 64 functions, `DataFull` where the globals and the largest frames of a call path have more than 65,534 bytes. Or out of memory. The
/// program is dropped then.
pub fn lay_out(alloc: Global, program: Typed) -> Result<Typed, Fault>
    ensures { Answers (program_of program) (λ q. IsLayout (program_of program) (program_of q)) result }
{
    let order = order_of(alloc, &program)?;
    check_depth(alloc, &program, &order)?;
    let measured = measure(alloc, &program, &order)?;
    let program = with_addresses(program, measured, order)?;
    Ok(program)
}
