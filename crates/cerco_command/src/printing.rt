//! The lines of events, addresses and costs.
ghost use Rattle.std.specs.Prelude.{◌≡◌, ◌<◌, ◌++◌, ◌∷◌, [], codes, decimal, length, IfOk, IfErr};
ghost use Rattle.cerco_base.specs.HexDigits.{hex_word};
ghost use Rattle.cerco_base.specs.Outside.IoCalls.{PutsText};
ghost use Rattle.sim51.specs.Runs.{events_of, label_events};
ghost use Rattle.cerco_command.specs.Messages.{line_about, reserved_line, port_lines, event_lines, cost_line, fault_line, uncosted_line};
ghost use Rattle.block_costs.specs.declared.faults.CostFault.TheVariants.{Unequal};

use block_costs::CostFault;
use cerco_base::{IoFault, Label, Port, Sink, hex_word, put_all};
use printed_lines::{Line, put_count, put_number, put_pair};
use sim51::Events;

// Puts a line with a word and an address.
fn put_address<O: Sink>(word: &str, address: u16, out: &mut O) -> Result<(), IoFault>
    ensures { PutsText (O.state out.old) (O.state out.new) (line_about word.now (hex_word address)) result }
{
    put_all(out, word.as_bytes())?;
    put_all(out, &hex_word(address))?;
    put_all(out, b"\n")
}

/// Puts the line of the reserved opcode at an address.
pub fn put_reserved<O: Sink>(address: u16, out: &mut O) -> Result<(), IoFault>
    ensures { PutsText (O.state out.old) (O.state out.new) (reserved_line address) result }
{
    put_address("reserved ", address, out)
}

// Puts the line of a label that is passed, if there is one.
fn put_label<O: Sink>(label: Option<Label>, cycles: u64, out: &mut O) -> Result<(), IoFault>
    ensures { PutsText (O.state out.old) (O.state out.new) (event_lines cycles (label_events label)) result }
{
    let Some(Label(number)) = label else {
        return Ok(());
    };
    put_pair(b'L', number as u64, cycles, out)
}

// Puts the line of a byte at a port, if there is one.
fn put_port<O: Sink>(
    letter: u8,
    at: Option<(Port, u8)>,
    cycles: u64,
    out: &mut O,
) -> Result<(), IoFault>
    ensures { PutsText (O.state out.old) (O.state out.new) (port_lines (letter ∷ []) at cycles) result }
{
    let Some((port, byte)) = at else {
        return Ok(());
    };
    let mut line = Line::new();
    line.push(letter);
    line.push_number(port.number() as u64);
    line.push(b' ');
    line.push_number(byte as u64);
    line.push(b' ');
    line.push_number(cycles);
    line.push(b'\n');
    put_all(out, line.as_slice())
}

/// Puts the lines of the events that a step makes, with the machine cycles before it.
pub fn put_events<O: Sink>(events: Events, cycles: u64, out: &mut O) -> Result<(), IoFault>
    ensures { PutsText (O.state out.old) (O.state out.new) (event_lines cycles (events_of events)) result }
{
    put_label(events.label, cycles, out)?;
    put_port(b'R', events.read, cycles, out)?;
    put_port(b'P', events.write, cycles, out)
}

/// Puts the line of a cost, with the name of what has it.
pub fn put_cost<O: Sink>(name: &[u8], cycles: u32, out: &mut O) -> Result<(), IoFault>
    ensures { PutsText (O.state out.old) (O.state out.new) (cost_line name.now cycles) result }
{
    put_all(out, name)?;
    put_count(" ", cycles as u64, out)
}

// Puts the words for a conditional jump at an address whose ways have different cycles.
fn put_unequal<O: Sink>(address: u16, plain: u32, taken: u32, out: &mut O) -> Result<(), IoFault>
    ensures { PutsText (O.state out.old) (O.state out.new) (fault_line (Unequal address plain taken)) result }
{
    put_all(out, b"unequal ")?;
    put_all(out, &hex_word(address))?;
    put_number(" ", plain as u64, out)?;
    put_count(" ", taken as u64, out)
}

// Puts the words for the fault of a cost.
fn put_fault<O: Sink>(fault: CostFault, out: &mut O) -> Result<(), IoFault>
    ensures { PutsText (O.state out.old) (O.state out.new) (fault_line fault) result }
{
    match fault {
        CostFault::NoLabel { at } => put_address("nolabel ", at, out),
        CostFault::Unequal { at, a, b } => put_unequal(at, a, b, out),
        CostFault::Reserved { at } => put_reserved(at, out),
        CostFault::NoTarget { at } => put_address("notarget ", at, out),
        CostFault::Second { at } => put_address("second ", at, out),
    }
}

/// Puts the line of a cost that is a fault, with the name of what has none.
pub fn put_uncosted<O: Sink>(name: &[u8], fault: CostFault, out: &mut O) -> Result<(), IoFault>
    ensures { PutsText (O.state out.old) (O.state out.new) (uncosted_line name.now fault) result }
{
    put_all(out, b"uncosted ")?;
    put_all(out, name)?;
    put_all(out, b" ")?;
    put_fault(fault, out)
}
