//! How locations, registers, internal RAM and the stack are read and written.

use super::Processor;
use crate::location::{Location, bit_value};
use cerco_base::Port;
use mcs51_isa::{Ind, Reg};

impl<'a> Processor<'a> {
    ghost use Rattle.std.specs.Prelude.{◌≡◌, ◌<◌, ◌+◌, ◌*◌, drop};
    ghost use Rattle.cerco_base.specs.Events.{next_reading};
    ghost use Rattle.sim51.specs.Locations.{held, read_value, after_read, read_event, written, write_event, register_address, register, with_register, pointer, indirect, with_indirect, external_pointer, dptr, with_dptr, raised, with_top, pushed, top, popped, called_from};

    /// The byte at a location. A port gives its latch.
    pub(super) fn held(&self, location: Location) -> u8
        ensures { result ≡ held self.now location }
    {
        match location {
            Location::Ram(address) => self.iram[address as usize],
            Location::Latch(port) => self.ports[port.number() as usize],
            Location::Acc => self.acc,
            Location::B => self.b,
            Location::Psw => self.psw(),
            Location::Sp => self.sp,
            Location::Dpl => self.dpl,
            Location::Dph => self.dph,
            Location::Other(address) => self.rest[(address % 128) as usize],
        }
    }

    fn take_pins(&mut self) -> u8
        ensures value { result ≡ next_reading self.old.script }
        ensures taken { self.new ≡ record self.old { script = drop 1 self.old.script } }
    {
        match self.script {
            [] => 255,
            [first, rest @ ..] => {
                self.script = rest;
                *first
            }
        }
    }

    /// The byte that an instruction reads at a location, with its event. A port shows its pins.
    pub(super) fn read(&mut self, location: Location) -> (u8, Option<(Port, u8)>)
        ensures value { result.0 ≡ read_value self.old location }
        ensures event { result.1 ≡ read_event self.old location }
        ensures after { self.new ≡ after_read self.old location }
    {
        match location {
            Location::Latch(port) => {
                let byte = self.take_pins();
                (byte, Some((port, byte)))
            }
            _ => (self.held(location), None),
        }
    }

    /// Writes a byte at a location. A port makes the event.
    pub(super) fn write(&mut self, location: Location, byte: u8) -> Option<(Port, u8)>
        ensures event { result ≡ write_event location byte }
        ensures after { self.new ≡ written self.old location byte }
    {
        match location {
            Location::Ram(address) => self.iram[address as usize] = byte,
            Location::Latch(port) => {
                self.ports[port.number() as usize] = byte;
                return Some((port, byte));
            }
            Location::Acc => self.acc = byte,
            Location::B => self.b = byte,
            Location::Psw => self.set_psw(byte),
            Location::Sp => self.sp = byte,
            Location::Dpl => self.dpl = byte,
            Location::Dph => self.dph = byte,
            Location::Other(address) => self.rest[(address % 128) as usize] = byte,
        }
        None
    }

    fn register_address(&self, number: u8) -> u8
        requires { number < 8 }
        ensures { result ≡ register_address self.now number }
    {
        8 * (2 * bit_value(self.rs1) + bit_value(self.rs0)) + number
    }

    pub(super) fn register(&self, reg: Reg) -> u8
        ensures { result ≡ register self.now reg }
    {
        self.iram[self.register_address(reg.number()) as usize]
    }

    pub(super) fn set_register(&mut self, reg: Reg, byte: u8)
        ensures { self.new ≡ with_register self.old reg byte }
    {
        let address = self.register_address(reg.number());
        self.iram[address as usize] = byte;
    }

    /// The address that R0 or R1 holds.
    fn pointer(&self, ind: Ind) -> u8
        ensures { result ≡ pointer self.now ind }
    {
        self.iram[self.register_address(ind.number()) as usize]
    }

    pub(super) fn indirect(&self, ind: Ind) -> u8
        ensures { result ≡ indirect self.now ind }
    {
        self.iram[self.pointer(ind) as usize]
    }

    pub(super) fn set_indirect(&mut self, ind: Ind, byte: u8)
        ensures { self.new ≡ with_indirect self.old ind byte }
    {
        let address = self.pointer(ind);
        self.iram[address as usize] = byte;
    }

    /// The address in external RAM that MOVX @Ri uses.
    pub(super) fn external_pointer(&self, ind: Ind) -> u16
        ensures { result ≡ external_pointer self.now ind }
    {
        256 * self.ports[2] as u16 + self.pointer(ind) as u16
    }

    pub(super) fn dptr(&self) -> u16
        ensures { result ≡ dptr self.now }
    {
        256 * self.dph as u16 + self.dpl as u16
    }

    pub(super) fn set_dptr(&mut self, word: u16)
        ensures { self.new ≡ with_dptr self.old word }
    {
        self.dph = (word / 256) as u8;
        self.dpl = (word % 256) as u8;
    }

    pub(super) fn raise(&mut self)
        ensures { self.new ≡ raised self.old }
    {
        self.sp = self.sp.wrapping_add(1);
    }

    pub(super) fn set_top(&mut self, byte: u8)
        ensures { self.new ≡ with_top self.old byte }
    {
        self.iram[self.sp as usize] = byte;
    }

    fn push(&mut self, byte: u8)
        ensures { self.new ≡ pushed self.old byte }
    {
        self.raise();
        self.set_top(byte);
    }

    /// Takes a byte from the stack.
    pub(super) fn pop(&mut self) -> u8
        ensures value { result ≡ top self.old }
        ensures after { self.new ≡ popped self.old }
    {
        let byte = self.iram[self.sp as usize];
        self.sp = self.sp.wrapping_add(255);
        byte
    }

    /// Pushes the address that a call returns to.
    pub(super) fn push_address(&mut self, address: u16)
        ensures { self.new ≡ called_from self.old address }
    {
        self.push((address % 256) as u8);
        self.push((address / 256) as u8);
    }
}
