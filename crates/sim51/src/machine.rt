//! The machine with its code.
ghost use Rattle.std.specs.Prelude.{◌≡◌, ◌<◌, ◌≤◌, ◌^◌, false, length, slice_index, IfOk, nat_eq};
ghost use Rattle.std.specs.List.{IsDistinct};
ghost use Rattle.cerco_traces.specs.Headline.{ArrivesOnce};
ghost use Rattle.sim51.specs.State.{reset};
ghost use Rattle.sim51.specs.Step.{step, moved, KeepsState};
ghost use Rattle.sim51.specs.Skips.{is_silent, Skips};
ghost use Rattle.sim51.specs.Code.Quiets.{MakesSilent};
ghost use Rattle.sim51.specs.Runs.{object, cycles_of_run};

use crate::events::{Events, Step};
use crate::processor::Processor;
use crate::quiet::{Quiet, quiets};
use crate::slots::{Slot, slots};
use cerco_base::NoMemory;
use std::alloc::Global;
use std::marker::Model;

/// A machine with code, with the addresses of labels in it, and with a script of the bytes that the
/// pins of ports show. Contracts see it as the record of code, label addresses and state.
#[derive(Drop)]
pub struct Machine<'a> {
    code: Vec<u8>,
    labels: Vec<u16>,
    slots: Vec<Slot>,
    quiets: Vec<Option<Quiet>>,
    processor: Processor<'a>,
    pc: u16,
    cycles: u64,
}

impl<'a> Model for Machine<'a> {
    ghost use Rattle.sim51.specs.State.{LoadedMachine};
    ghost use Rattle.sim51.specs.Code.Quiets.{AreTables};

    ghost Value = { LoadedMachine };

    ghost view = { λ m. record {
      code = m.code.items;
      labels = m.labels.items;
      state = record { core = m.processor; pc = m.pc; cycles = m.cycles };
    } };

    ghost invariant = { λ m. AreTables m.code.items m.labels.items m.slots.items m.quiets.items };
}

impl<'a> Machine<'a> {
    /// A machine at reset: the code stands from address 0 on, and label k stands at `labels[k]`.
    pub fn load(
        alloc: Global,
        code: &[u8],
        labels: &[u16],
        script: &'a [u8],
    ) -> Result<Machine<'a>, NoMemory>
        requires fits { length code.now ≤ 65536 }
        requires distinct { IsDistinct nat_eq labels.now }
        ensures reset { IfOk result (λ m. m ≡ record { code = code.now; labels = labels.now; state = reset script.now }) }
        // whatever script it runs on, it comes to an n-th stop in one way at most
        ensures arrives_once { ArrivesOnce (object code.now labels.now) cycles_of_run }
    {
        let slots = slots(alloc, code, labels)?;
        let quiets = quiets(alloc, &slots)?;
        let processor = Processor::reset(alloc, script)?;
        Ok(Machine {
            code: code.to_vec(alloc)?,
            labels: labels.to_vec(alloc)?,
            slots,
            quiets,
            processor,
            pc: 0,
            cycles: 0,
        })
    }

    /// One step. It takes no memory.
    #[inline(always)]
    pub fn step(&mut self) -> Step
        requires { self.old.state.cycles < 2 ^ 62 }
        ensures code { self.new.code ≡ self.old.code }
        ensures labels { self.new.labels ≡ self.old.labels }
        ensures moved { step self.old.code self.old.labels self.old.state ≡ moved result self.new.state }
        ensures keeps_state { KeepsState result self.old.state self.new.state }
    {
        match self.slots[self.pc as usize] {
            Slot::Halt => Step::Halted,
            Slot::Reserved => Step::Reserved,
            Slot::Runs(planned) => {
                let executed = self
                    .processor
                    .execute(&self.code, planned.instr, planned.next);
                self.pc = executed.pc;
                self.cycles += planned.cycles as u64;
                Step::Went(Events {
                    label: planned.label,
                    read: executed.read,
                    write: executed.write,
                })
            }
        }
    }

    // Makes steps while their instructions show nothing wherever they are made, and the cycles are below a limit.
    #[inline(always)]
    fn run_quiet(&mut self, limit: u64)
        requires { limit ≤ 2 ^ 62 }
        ensures code { self.new.code ≡ self.old.code }
        ensures labels { self.new.labels ≡ self.old.labels }
        ensures skips { Skips self.old.code self.old.labels limit self.old.state self.new.state }
    {
        let mut pc = self.pc;
        let mut cycles = self.cycles;
        while cycles < limit {
            let Some(quiet) = self.quiets[pc as usize] else {
                break;
            };
            let executed = self.processor.execute(&self.code, quiet.instr, quiet.next);
            pc = executed.pc;
            cycles += quiet.cycles as u64;
        }
        self.pc = pc;
        self.cycles = cycles;
    }

    // Whether a step would show nothing.
    fn is_silent(&self) -> bool
        ensures { result ≡ is_silent (step self.now.code self.now.labels self.now.state) }
    {
        match self.slots[self.pc as usize] {
            Slot::Halt => false,
            Slot::Reserved => false,
            Slot::Runs(planned) => self.processor.is_silent(planned),
        }
    }

    // Makes a step, if it shows nothing and the cycles are below a limit. The result says whether it was made.
    #[cold]
    fn step_silent(&mut self, limit: u64) -> bool
        requires { limit ≤ 2 ^ 62 }
        ensures code { self.new.code ≡ self.old.code }
        ensures labels { self.new.labels ≡ self.old.labels }
        ensures made { MakesSilent self.old.code self.old.labels limit self.old.state self.new.state result }
    {
        if self.cycles >= limit || !self.is_silent() {
            return false;
        }
        let _step = self.step();
        true
    }

    /// Makes steps as long as they show nothing and begin with fewer cycles than the limit.
    pub fn skip(&mut self, limit: u64)
        requires { limit ≤ 2 ^ 62 }
        ensures code { self.new.code ≡ self.old.code }
        ensures labels { self.new.labels ≡ self.old.labels }
        ensures skips { Skips self.old.code self.old.labels limit self.old.state self.new.state }
        ensures stops { self.new.state.cycles < limit → is_silent (step self.old.code self.old.labels self.new.state) ≡ false }
    {
        self.run_quiet(limit);
        while self.step_silent(limit) {
            self.run_quiet(limit);
        }
    }

    /// The machine cycles so far.
    pub fn cycles(&self) -> u64
        ensures { result ≡ self.now.state.cycles }
    {
        self.cycles
    }

    /// The address of the next instruction.
    pub fn pc(&self) -> u16
        ensures { result ≡ self.now.state.pc }
    {
        self.pc
    }

    /// A byte of internal RAM.
    pub fn iram(&self, a: u8) -> u8
        ensures { result ≡ slice_index self.now.state.core.iram a }
    {
        self.processor.iram(a)
    }

    /// A byte of external RAM.
    pub fn xram(&self, a: u16) -> u8
        ensures { result ≡ slice_index self.now.state.core.xram a }
    {
        self.processor.xram(a)
    }
}
