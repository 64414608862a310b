//! The graphs of sources are soundly labelled, as a plain checker sees it: the entry and the node after each call are labels with no
//! other way in, both arms of a test are labels, no node is the false arm of two tests, and each way around a loop passes a label.
//! Labels are there once, those of unreachable code too.

use crate::sources::{ARMS, DO_LOOP, RING, SOURCES, UNREACHABLE, WHILE_BOTH, graphs_of_text};
use cerco_base::{Fault, NoMemory};
use cerco_middle::{RtFunction, RtNode, RtOp};
use std::alloc::Global;

// Sources, and how many labels each of them has.
const LABELLED: [(&str, u32); 5] = [
    (ARMS, 3),
    (DO_LOOP, 5),
    (WHILE_BOTH, 5),
    (UNREACHABLE, 3),
    (RING, 15),
];

// How the nodes of a graph are reached, and which of them each way on passes a label or ends.
#[derive(Drop)]
struct Marks {
    ways_in: Vec<u32>,
    false_arms: Vec<u32>,
    bounded: Vec<bool>,
}

fn is_label(nodes: &[RtNode], p: u32) -> bool {
    match nodes.get(p as usize) {
        Some(node) => matches!(node.op, RtOp::Label(_)),
        None => false,
    }
}

fn raise(counts: &mut [u32], p: u32) {
    if let Some(count) = counts.get_mut(p as usize) {
        *count = count.saturating_add(1);
    }
}

// Counts the ways into each node, and of how many tests it is the false arm.
fn count_ways(nodes: &[RtNode], marks: &mut Marks) {
    for node in nodes {
        if let RtOp::Test {
            on_true,
            on_false,
            ..
        } = node.op
        {
            raise(&mut marks.ways_in, on_true);
            raise(&mut marks.ways_in, on_false);
            raise(&mut marks.false_arms, on_false);
        }
        if let Some(next) = node.next {
            raise(&mut marks.ways_in, next);
        }
    }
}

fn is_bounded(bounded: &[bool], p: u32) -> bool {
    matches!(bounded.get(p as usize), Some(true))
}

// Whether each way on from a node passes a label or ends, by what is known so far.
fn leads_on(node: &RtNode, bounded: &[bool]) -> bool {
    match (node.op, node.next) {
        (RtOp::Label(_), _) => true,
        (
            RtOp::Test {
                on_true,
                on_false,
                ..
            },
            _,
        ) => { is_bounded(bounded, on_true) && is_bounded(bounded, on_false) }
        (_, Some(next)) => is_bounded(bounded, next),
        (_, None) => true,
    }
}

// Marks the nodes from which each way on passes a label or ends, in as many rounds as there are nodes.
fn mark_bounded(nodes: &[RtNode], bounded: &mut [bool]) {
    for _ in 0..nodes.len() {
        for (p, node) in nodes.iter().enumerate() {
            let known = leads_on(node, bounded);
            if let Some(mark) = bounded.get_mut(p) {
                *mark = known;
            }
        }
    }
}

fn marks_of(alloc: Global, nodes: &[RtNode]) -> Result<Marks, NoMemory> {
    let mut marks = Marks {
        ways_in: vec![in alloc; 0; nodes.len()]?,
        false_arms: vec![in alloc; 0; nodes.len()]?,
        bounded: vec![in alloc; false; nodes.len()]?,
    };
    count_ways(nodes, &mut marks);
    mark_bounded(nodes, &mut marks.bounded);
    Ok(marks)
}

fn is_count(counts: &[u32], p: u32, wanted: u32) -> bool {
    counts.get(p as usize) == Some(&wanted)
}

fn is_sound_node(nodes: &[RtNode], marks: &Marks, node: &RtNode) -> bool {
    match (node.op, node.next) {
        (
            RtOp::Test {
                on_true,
                on_false,
                ..
            },
            _,
        ) => {
            is_label(nodes, on_true)
                && is_label(nodes, on_false)
                && is_count(&marks.false_arms, on_false, 1)
        }
        (RtOp::Call(_), Some(next)) => is_label(nodes, next) && is_count(&marks.ways_in, next, 1),
        (RtOp::Call(_), None) => false,
        _ => true,
    }
}

fn is_sound(alloc: Global, function: &RtFunction) -> Result<bool, NoMemory> {
    let nodes = function.nodes.as_slice();
    let marks = marks_of(alloc, nodes)?;
    let entry = function.entry;
    Ok(
        is_label(nodes, entry)
            && is_count(&marks.ways_in, entry, 0)
            && marks.bounded.iter().all(|known| *known)
            && nodes.iter().all(|node| is_sound_node(nodes, &marks, node)),
    )
}

// Whether the graphs of a source are soundly labelled.
fn has_sound_graphs(alloc: Global, text: &str) -> Result<bool, Fault> {
    let graphs = graphs_of_text(alloc, text)?;
    for function in graphs.functions.as_slice() {
        if !is_sound(alloc, function)? {
            return Ok(false);
        }
    }
    Ok(graphs.functions.len() > 0)
}

// How many nodes have each of the labels below a number.
fn label_counts(
    alloc: Global,
    functions: &[RtFunction],
    labels: u32,
) -> Result<Vec<u32>, NoMemory> {
    let mut counts = vec![in alloc; 0; labels as usize]?;
    for function in functions {
        for node in function.nodes.as_slice() {
            if let RtOp::Label(label) = node.op {
                raise(&mut counts, u32::from(label.0));
            }
        }
    }
    Ok(counts)
}

// Whether the graphs of a source have each of the labels below a number once, and no other.
fn has_each_label_once(alloc: Global, text: &str, labels: u32) -> Result<bool, Fault> {
    let graphs = graphs_of_text(alloc, text)?;
    let counts = label_counts(alloc, graphs.functions.as_slice(), labels.saturating_add(1))?;
    let (last, others) = counts.split_last().unwrap_or((&0, &[]));
    Ok(*last == 0 && others.iter().all(|count| *count == 1))
}

// How many ways lead to a label in these nodes, and of how many tests it is the false arm.
fn ways_to(alloc: Global, nodes: &[RtNode], label: u32) -> Result<Option<(u32, u32)>, NoMemory> {
    let marks = marks_of(alloc, nodes)?;
    let found = nodes.iter().position(
        |node| matches!(node.op, RtOp::Label(l) if u32::from(l.0) == label),
    );
    Ok(match found {
        Some(p) => match (marks.ways_in.get(p), marks.false_arms.get(p)) {
            (Some(ways), Some(arms)) => Some((*ways, *arms)),
            _ => None,
        },
        None => None,
    })
}

fn ways_to_label(alloc: Global, text: &str, label: u32) -> Result<Option<(u32, u32)>, Fault> {
    let graphs = graphs_of_text(alloc, text)?;
    match graphs.functions.first() {
        Some(function) => Ok(ways_to(alloc, function.nodes.as_slice(), label)?),
        None => Ok(None),
    }
}

#[test]
fn graphs_are_soundly_labelled(rt: HostRuntime) -> Result<(), Fault> {
    for text in &SOURCES {
        assert!(rt; has_sound_graphs(rt.alloc(), text)?, "{text}");
    }
    Ok(())
}

#[test]
fn labels_are_there_once(rt: HostRuntime) -> Result<(), Fault> {
    for (text, labels) in &LABELLED {
        assert!(rt; has_each_label_once(rt.alloc(), text, *labels)?, "{text}");
    }
    Ok(())
}

// From the `break`, and from the false way of the loop's test.
#[test]
fn the_exit_label_has_two_ways_in(rt: HostRuntime) -> Result<(), Fault> {
    assert!(rt; ways_to_label(rt.alloc(), DO_LOOP, 4)? == Some((2, 1)));
    Ok(())
}

#[test]
fn a_graph_without_labels_is_refused(rt: HostRuntime) -> Result<(), Fault> {
    let alloc = rt.alloc();
    let mut nodes = Vec::new(alloc);
    nodes.push(RtNode {
        op: RtOp::Const(0, 1),
        next: Some(0),
    })?;
    let function = RtFunction {
        held: Vec::new(alloc),
        params: 0,
        result: None,
        entry: 0,
        nodes,
    };
    assert!(rt; !is_sound(alloc, &function)?);
    Ok(())
}
