//! A plain machine for programs of RTLabs: it makes one node after the other, and tells what happens.

use crate::words::{bytes_of, kept, shifted_left, shifted_right, value_of};
use cerco_base::{Label, NoMemory};
use cerco_middle::{Held, RtFunction, RtLabs, RtOp};
use std::alloc::Global;

/// How many temporaries there are: one for each level of an expression that nests as deep as it can, and more.
const TEMPORARIES: usize = 128;

/// How many bytes of arguments there are.
const ARGUMENTS: usize = 12;

/// How many bytes of external RAM there are.
const MEMORY: usize = 65536;

/// What a step shows.
#[derive(Clone, Copy)]
pub enum Shown {
    Nothing,
    Label(Label),
    Read(u8),
    Write(u8),
    Ended,
}

// An open call: its function, the node that it comes to next, and where its variables begin.
#[derive(Clone, Copy)]
struct Call {
    function: u32,
    node: u32,
    first: usize,
}

/// A run: the open calls, the last one of which is running, with the variables of all of them; temporaries, arguments by their first
/// bytes, the last result, external RAM, and how many bytes of the script were read.
#[derive(Drop)]
pub struct GraphMachine {
    calls: Vec<Call>,
    variables: Vec<u16>,
    temporaries: Vec<u16>,
    arguments: Vec<u16>,
    result: u16,
    memory: Vec<u8>,
    read: usize,
}

// The word at a place, 0 where there is none.
fn word_at(words: &[u16], place: usize) -> u16 {
    *words.get(place).unwrap_or(&0)
}

fn set_word(words: &mut [u16], place: usize, word: u16) {
    if let Some(found) = words.get_mut(place) {
        *found = word;
    }
}

fn set_byte(bytes: &mut [u8], address: u16, byte: u16) {
    if let Some(found) = bytes.get_mut(address as usize) {
        *found = (byte % 256) as u8;
    }
}

impl GraphMachine {
    /// The start of a program.
    pub fn new(alloc: Global, program: &RtLabs) -> Result<GraphMachine, NoMemory> {
        let mut memory = vec![in alloc; 0; MEMORY]?;
        for (address, byte) in program.start.bytes() {
            set_byte(&mut memory, *address, u16::from(*byte));
        }
        let mut machine = GraphMachine {
            calls: Vec::new(alloc),
            variables: Vec::new(alloc),
            temporaries: vec![in alloc; 0; TEMPORARIES]?,
            arguments: vec![in alloc; 0; ARGUMENTS]?,
            result: 0,
            memory,
            read: 0,
        };
        machine.enter(program.functions.as_slice(), program.main)?;
        Ok(machine)
    }

    /// The byte at an address of external RAM.
    pub fn byte_at(&self, address: u16) -> u8 {
        *self.memory.get(address as usize).unwrap_or(&0)
    }

    fn running(&self) -> Option<Call> {
        match self.calls.last() {
            Some(call) => Some(*call),
            None => None,
        }
    }

    fn temporary(&self, t: u32) -> u16 {
        word_at(&self.temporaries, t as usize)
    }

    // Where a variable of the running call is.
    fn place_of(&self, variable: u32) -> usize {
        match self.running() {
            Some(call) => call.first.saturating_add(variable as usize),
            None => 0,
        }
    }

    fn loaded(&self, held: Held, address: u16) -> u16 {
        let low = u16::from(self.byte_at(address));
        let high = u16::from(self.byte_at(address.wrapping_add(1)));
        kept(held, low + 256 * high)
    }

    fn store(&mut self, held: Held, address: u16, value: u16) {
        set_byte(&mut self.memory, address, value);
        if bytes_of(held) == 2 {
            set_byte(&mut self.memory, address.wrapping_add(1), value / 256);
        }
    }

    // The temporary that an operation sets, and its value.
    fn computed(&self, op: RtOp) -> Option<(u32, u16)> {
        match op {
            RtOp::Const(t, number) => Some((t, number)),
            RtOp::Get {
                temporary,
                variable,
            } => Some((temporary, word_at(&self.variables, self.place_of(variable)))),
            RtOp::Neg(t) => Some((t, 0_u16.wrapping_sub(self.temporary(t)))),
            RtOp::Not(t) => Some((t, 0xFFFF - self.temporary(t))),
            RtOp::Narrow(held, t) => Some((t, kept(held, self.temporary(t)))),
            RtOp::Bin {
                operator,
                left,
                right,
            } => Some((
                left,
                value_of(operator, self.temporary(left), self.temporary(right)),
            )),
            RtOp::Shl(bits, t) => Some((t, shifted_left(bits, self.temporary(t)))),
            RtOp::Shr(bits, arithmetic, t) => {
                Some((t, shifted_right(bits, arithmetic, self.temporary(t))))
            }
            RtOp::Load(held, t) => Some((t, self.loaded(held, self.temporary(t)))),
            RtOp::Result(held, t) => Some((t, kept(held, self.result))),
            _ => None,
        }
    }

    // Makes an operation that shows nothing and goes on at the next node.
    fn make(&mut self, op: RtOp, variable_held: Held) {
        match op {
            RtOp::Put {
                variable,
                temporary,
            } => {
                let value = kept(variable_held, self.temporary(temporary));
                let place = self.place_of(variable);
                set_word(&mut self.variables, place, value);
            }
            RtOp::Store {
                held,
                address,
                value,
            } => {
                let address = self.temporary(address);
                let value = self.temporary(value);
                self.store(held, address, value);
            }
            RtOp::Arg {
                held,
                first_byte,
                temporary,
            } => {
                let value = kept(held, self.temporary(temporary));
                set_word(&mut self.arguments, first_byte as usize, value);
            }
            _ => {
                if let Some((t, value)) = self.computed(op) {
                    set_word(&mut self.temporaries, t as usize, value);
                }
            }
        }
    }

    // The running call goes on at this node.
    fn go_on(&mut self, node: u32) {
        let last = self.calls.len().saturating_sub(1);
        if let Some(call) = self.calls.get_mut(last) {
            call.node = node;
        }
    }

    // A new call of a function: its parameters take the arguments, its other variables are 0.
    fn enter(&mut self, functions: &[RtFunction], function: u32) -> Result<(), NoMemory> {
        let Some(called) = functions.get(function as usize) else {
            return Ok(());
        };
        let first = self.variables.len();
        let mut byte: u32 = 0;
        for (x, held) in called.held.as_slice().iter().enumerate() {
            let argument = word_at(&self.arguments, byte as usize);
            let is_parameter = x < called.params as usize;
            self.variables
                .push(if is_parameter { argument } else { 0 })?;
            byte = byte.saturating_add(bytes_of(*held));
        }
        self.calls.push(Call {
            function,
            node: called.entry,
            first,
        })?;
        Ok(())
    }

    // The running call returns.
    fn leave(&mut self) {
        if let Some(call) = self.calls.pop() {
            self.variables.truncate(call.first);
        }
    }

    // The next byte of the script, 255 past its end.
    fn next_reading(&mut self, script: &[u8]) -> u8 {
        let byte = *script.get(self.read).unwrap_or(&255);
        self.read = self.read.saturating_add(1);
        byte
    }

    // Leaves a function with a result.
    fn answer(&mut self, held: Option<Held>, value: u16) {
        if let Some(held) = held {
            self.result = kept(held, value);
        }
        self.leave();
    }

    // Makes an operation, and then goes on at the next node unless it is a test or a return.
    fn pass(
        &mut self,
        functions: &[RtFunction],
        function: &RtFunction,
        op: RtOp,
        script: &[u8],
    ) -> Result<Shown, NoMemory> {
        match op {
            RtOp::Label(label) => return Ok(Shown::Label(label)),
            RtOp::ReadPort(t) => {
                let byte = self.next_reading(script);
                set_word(&mut self.temporaries, t as usize, u16::from(byte));
                return Ok(Shown::Read(byte));
            }
            RtOp::WritePort(t) => return Ok(Shown::Write((self.temporary(t) % 256) as u8)),
            RtOp::Call(callee) => self.enter(functions, callee)?,
            RtOp::Test {
                temporary,
                on_true,
                on_false,
            } => {
                let holds = self.temporary(temporary) != 0;
                self.go_on(if holds { on_true } else { on_false });
            }
            RtOp::Return => self.leave(),
            RtOp::ReturnValue(t) => self.answer(function.result, self.temporary(t)),
            RtOp::Put { variable, .. } => {
                let held = *function
                    .held
                    .as_slice()
                    .get(variable as usize)
                    .unwrap_or(&Held::W16);
                self.make(op, held);
            }
            _ => self.make(op, Held::W16),
        }
        Ok(Shown::Nothing)
    }

    /// One step on a port script. A run without a node to go to stays there.
    pub fn step(&mut self, functions: &[RtFunction], script: &[u8]) -> Result<Shown, NoMemory> {
        let Some(call) = self.running() else {
            return Ok(Shown::Ended);
        };
        let Some(function) = functions.get(call.function as usize) else {
            return Ok(Shown::Nothing);
        };
        let Some(node) = function.nodes.as_slice().get(call.node as usize) else {
            return Ok(Shown::Nothing);
        };
        let node = *node;
        if let Some(next) = node.next {
            self.go_on(next);
        }
        self.pass(functions, function, node.op, script)
    }
}
