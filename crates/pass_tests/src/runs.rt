//! The events of the graphs of sources are those that the sources mean.

use crate::machine::{GraphMachine, Shown};
use crate::sources::{SOURCES, graphs_of, graphs_of_text, labelled};
use cerco_base::{Event, Fault, NoMemory};
use cerco_middle::{RtLabs, RtOp};
use clight_meaning::{Evaluator, Turn};
use clight_syntax::Labelled;
use std::alloc::Global;

/// How many labels are told of at most.
const MOST_LABELS: u64 = 40;

/// How many steps or events are told of at most.
const MOST_STEPS: u32 = 20_000;

#[rattlefmt::skip]
const SCRIPTS: [&[u8]; 5] = [b"", b"\x00\x00", b"\x01\x00", b"\x00\x01", b"\x01\x01\x09"];

// Adds what a step of a graph shows. The answer is how many labels that are.
fn tell_shown(alloc: Global, shown: Shown, words: &mut String) -> Result<u64, NoMemory> {
    let word = match shown {
        Shown::Nothing => return Ok(0),
        Shown::Label(label) => format!(in alloc; "L{} ", label.0)?,
        Shown::Read(byte) => format!(in alloc; "R{byte} ")?,
        Shown::Write(byte) => format!(in alloc; "P{byte} ")?,
        Shown::Ended => String::from_str(alloc, "end")?,
    };
    words.push_str(&word)?;
    Ok(if matches!(shown, Shown::Label(_)) {
        1
    } else {
        0
    })
}

// Adds what is told of the run of graphs, up to its end or so many labels.
fn tell_graphs(
    alloc: Global,
    graphs: &RtLabs,
    script: &[u8],
    words: &mut String,
) -> Result<(), NoMemory> {
    let mut machine = GraphMachine::new(alloc, graphs)?;
    let mut labels: u64 = 0;
    for _ in 0..MOST_STEPS {
        let shown = machine.step(graphs.functions.as_slice(), script)?;
        labels = labels.saturating_add(tell_shown(alloc, shown, words)?);
        if labels >= MOST_LABELS || matches!(shown, Shown::Ended) {
            return Ok(());
        }
    }
    Ok(())
}

// Adds an event of the meaning, or its end. The answer is whether it goes on.
fn tell_turn(alloc: Global, turn: Turn, words: &mut String) -> Result<bool, NoMemory> {
    let word = match turn {
        Turn::Event(Event::Label(label)) => format!(in alloc; "L{} ", label.0)?,
        Turn::Event(Event::Read(_, byte)) => format!(in alloc; "R{byte} ")?,
        Turn::Event(Event::Write(_, byte)) => format!(in alloc; "P{byte} ")?,
        Turn::Ended => String::from_str(alloc, "end")?,
        Turn::Fault(_) => return Ok(false),
    };
    words.push_str(&word)?;
    Ok(matches!(&turn, Turn::Event(_)))
}

// Adds what is told of a run by its meaning, up to its end, a fault or so many labels. The answer is whether it met no fault.
fn tell_turns(
    alloc: Global,
    evaluator: &mut Evaluator<'_>,
    words: &mut String,
) -> Result<bool, NoMemory> {
    for _ in 0..MOST_STEPS {
        if evaluator.labels() >= MOST_LABELS {
            return Ok(true);
        }
        let turn = evaluator.next()?;
        if !tell_turn(alloc, turn, words)? {
            return Ok(matches!(&turn, Turn::Ended));
        }
    }
    Ok(true)
}

// The same of a program on a script.
fn tell_meaning(
    alloc: Global,
    program: &Labelled,
    script: &[u8],
    words: &mut String,
) -> Result<bool, NoMemory> {
    let mut evaluator = Evaluator::new(alloc, program, script)?;
    tell_turns(alloc, &mut evaluator, words)
}

// Whether the graphs of a program make the events that it means; after a fault anything.
fn agrees_on(
    alloc: Global,
    program: &Labelled,
    graphs: &RtLabs,
    script: &[u8],
) -> Result<bool, NoMemory> {
    let mut found = String::new(alloc);
    tell_graphs(alloc, graphs, script, &mut found)?;
    let mut wanted = String::new(alloc);
    let is_whole = tell_meaning(alloc, program, script, &mut wanted)?;
    let begins = found.as_bytes().starts_with(wanted.as_bytes());
    Ok(found == wanted || !is_whole && begins)
}

// The same on all scripts.
fn agrees_on_all(alloc: Global, program: &Labelled, graphs: &RtLabs) -> Result<bool, Fault> {
    for script in &SCRIPTS {
        if !agrees_on(alloc, program, graphs, script)? {
            return Ok(false);
        }
    }
    Ok(true)
}

fn agrees(alloc: Global, text: &str) -> Result<bool, Fault> {
    let program = labelled(alloc, text)?;
    let graphs = graphs_of(alloc, &program)?;
    agrees_on_all(alloc, &program, &graphs)
}

#[test]
fn graphs_do_what_sources_mean(rt: HostRuntime) -> Result<(), Fault> {
    for text in &SOURCES {
        assert!(rt; agrees(rt.alloc(), text)?, "{text}");
    }
    Ok(())
}

// ---- addresses

// The numbers, loads and stores of the first function, in the order in which they are made.
fn memory_words(alloc: Global, graphs: &RtLabs) -> Result<String, NoMemory> {
    let mut words = String::new(alloc);
    let Some(function) = graphs.functions.first() else {
        return Ok(words);
    };
    let mut next = Some(function.entry);
    for _ in 0..function.nodes.len() {
        let Some(node) = function.nodes.as_slice().get(next.unwrap_or(0) as usize) else {
            return Ok(words);
        };
        let word = match node.op {
            RtOp::Const(_, number) => format!(in alloc; "{number} ")?,
            RtOp::Load(_, _) => String::from_str(alloc, "load ")?,
            RtOp::Store { .. } => String::from_str(alloc, "store ")?,
            _ => String::new(alloc),
        };
        words.push_str(&word)?;
        next = node.next;
    }
    Ok(words)
}

// What the graph of a text does with external RAM.
fn memory_words_of(alloc: Global, text: &str) -> Result<String, Fault> {
    let graphs = graphs_of_text(alloc, text)?;
    Ok(memory_words(alloc, &graphs)?)
}

#[test]
fn globals_are_at_the_addresses_from_one_on(rt: HostRuntime) -> Result<(), Fault> {
    let text = "unsigned char a;unsigned int b;void main(void){b=a;}";
    let words = memory_words_of(rt.alloc(), text)?;
    assert!(rt;
        words.as_bytes() == b"2 1 load store ".as_slice(),
        "{words}"
    );
    Ok(())
}

// Bytes of external RAM after the run of a text.
fn bytes_after(alloc: Global, text: &str, addresses: [u16; 4]) -> Result<[u8; 4], Fault> {
    let graphs = graphs_of_text(alloc, text)?;
    let mut machine = GraphMachine::new(alloc, &graphs)?;
    for _ in 0..MOST_STEPS {
        machine.step(graphs.functions.as_slice(), b"")?;
    }
    let [a, b, c, d] = addresses;
    Ok([
        machine.byte_at(a),
        machine.byte_at(b),
        machine.byte_at(c),
        machine.byte_at(d),
    ])
}

#[test]
fn frames_on_a_call_path_are_disjoint(rt: HostRuntime) -> Result<(), Fault> {
    let text =
        "void g(void){unsigned char x[3];x[0]=1;}void f(void){unsigned char y[5];y[0]=2;g();}void main(void){f();}";
    assert!(rt; bytes_after(rt.alloc(), text, [0, 1, 5, 6])? == [0, 2, 0, 1]);
    Ok(())
}

#[test]
fn the_low_byte_comes_first(rt: HostRuntime) -> Result<(), Fault> {
    let text = "unsigned char a=7;unsigned int b;int c=-2;void main(void){b=a<<7;}";
    assert!(rt; bytes_after(rt.alloc(), text, [1, 2, 3, 5])? == [7, 128, 3, 255]);
    Ok(())
}
