//! The registers and memories.
ghost use Rattle.std.specs.Prelude.{◌≡◌, IfOk, slice_index};
ghost use Rattle.sim51.specs.State.{reset_core};

mod accumulator;
mod arithmetic;
mod bits;
mod direct;
mod execute;
mod indirect;
mod jumps;
mod memory;
mod registers;
mod status;
mod transfers;

use cerco_base::NoMemory;
use std::alloc::Global;
use std::marker::Model;

/// All that a machine holds besides its program counter and its cycles. Contracts see it as the record
/// of its parts.
#[derive(Drop)]
pub(crate) struct Processor<'a> {
    iram: [u8; 256],
    acc: u8,
    b: u8,
    sp: u8,
    dpl: u8,
    dph: u8,
    cy: bool,
    ac: bool,
    f0: bool,
    rs1: bool,
    rs0: bool,
    ov: bool,
    user: bool,
    ports: [u8; 4],
    rest: [u8; 128],
    xram: Vec<u8>,
    script: &'a [u8],
}

impl<'a> Model for Processor<'a> {
    ghost use Rattle.std.specs.Prelude.{◌≡◌, length};
    ghost use Rattle.sim51.specs.State.{Core};

    ghost Value = { Core };

    ghost view = { λ p. record {
      iram = p.iram;
      acc = p.acc;
      b = p.b;
      sp = p.sp;
      dpl = p.dpl;
      dph = p.dph;
      cy = p.cy;
      ac = p.ac;
      f0 = p.f0;
      rs1 = p.rs1;
      rs0 = p.rs0;
      ov = p.ov;
      user = p.user;
      ports = p.ports;
      rest = p.rest;
      xram = p.xram.items;
      script = p.script.now;
    } };

    ghost invariant = { λ p. length p.xram.items ≡ 65536 };
}

impl<'a> Processor<'a> {
    /// The registers and memories at reset, with this port script to read.
    pub(crate) fn reset(alloc: Global, script: &'a [u8]) -> Result<Processor<'a>, NoMemory>
        ensures { IfOk result (λ p. p ≡ reset_core script.now) }
    {
        let xram = vec![in alloc; 0; 65536]?;
        Ok(Processor {
            iram: [0; 256],
            acc: 0,
            b: 0,
            sp: 7,
            dpl: 0,
            dph: 0,
            cy: false,
            ac: false,
            f0: false,
            rs1: false,
            rs0: false,
            ov: false,
            user: false,
            ports: [255; 4],
            rest: [0; 128],
            xram,
            script,
        })
    }

    /// A byte of internal RAM.
    pub(crate) fn iram(&self, address: u8) -> u8
        ensures { result ≡ slice_index self.now.iram address }
    {
        self.iram[address as usize]
    }

    /// A byte of external RAM.
    pub(crate) fn xram(&self, address: u16) -> u8
        ensures { result ≡ slice_index self.now.xram address }
    {
        self.xram[address as usize]
    }
}
