//! Object code, the addresses of its labels, and the bytes that its start writes.
ghost use Rattle.std.specs.Prelude.{◌≡◌, ◌++◌, ◌∷◌, [], OnOk, OnErr};

use crate::no_memory::NoMemory;
use std::alloc::Global;
use std::marker::Model;

/// Object code: bytes from address 0 on. Contracts see it as the list of its bytes.
#[derive(Drop)]
pub struct Code {
    bytes: Vec<u8>,
}

impl Model for Code {
    ghost use Rattle.std.specs.Prelude.{List, ℕ};

    ghost Value = { List ℕ };

    ghost view = { λ c. c.bytes.items };
}

impl Code {
    /// No code.
    pub fn new(alloc: Global) -> Code
        ensures { result ≡ [] }
    {
        Code {
            bytes: Vec::new(alloc),
        }
    }

    /// Adds a byte at the end. When out of memory, the code is unchanged.
    pub fn push(&mut self, byte: u8) -> Result<(), NoMemory>
        ensures added { OnOk result (self.new ≡ self.old ++ byte ∷ []) }
        ensures same { OnErr result (self.new ≡ self.old) }
    {
        self.bytes.push(byte)?;
        Ok(())
    }

    /// Adds bytes at the end, in their order. When out of memory the code is unchanged.
    pub fn push_all(&mut self, bytes: &[u8]) -> Result<(), NoMemory>
        ensures added { OnOk result (self.new ≡ self.old ++ bytes.now) }
        ensures same { OnErr result (self.new ≡ self.old) }
    {
        self.bytes.extend_from_slice(bytes)?;
        Ok(())
    }

    /// Its bytes.
    pub fn as_slice(&self) -> &[u8]
        ensures { result.now ≡ self.now }
    {
        self.bytes.as_slice()
    }
}

/// The address of each label, by its number. Contracts see it as the list of the addresses.
#[derive(Drop)]
pub struct LabelList {
    addresses: Vec<u16>,
}

impl Model for LabelList {
    ghost use Rattle.std.specs.Prelude.{List, ℕ};

    ghost Value = { List ℕ };

    ghost view = { λ l. l.addresses.items };
}

impl LabelList {
    /// No labels.
    pub fn new(alloc: Global) -> LabelList
        ensures { result ≡ [] }
    {
        LabelList {
            addresses: Vec::new(alloc),
        }
    }

    /// Adds the address of the next label. When out of memory, the list is unchanged.
    pub fn push(&mut self, at: u16) -> Result<(), NoMemory>
        ensures added { OnOk result (self.new ≡ self.old ++ at ∷ []) }
        ensures same { OnErr result (self.new ≡ self.old) }
    {
        self.addresses.push(at)?;
        Ok(())
    }

    /// Its addresses.
    pub fn as_slice(&self) -> &[u16]
        ensures { result.now ≡ self.now }
    {
        self.addresses.as_slice()
    }
}

/// The bytes of the initialised variables with their addresses in XRAM, in the order in which the
/// program's start writes them. Contracts see it as the list of these pairs.
#[derive(Drop)]
pub struct StartBytes {
    bytes: Vec<(u16, u8)>,
}

impl Model for StartBytes {
    ghost use Rattle.std.specs.Prelude.{List, ℕ};

    ghost Value = { List (ℕ × ℕ) };

    ghost view = { λ b. b.bytes.items };
}

impl StartBytes {
    /// No bytes.
    pub fn new(alloc: Global) -> StartBytes
        ensures { result ≡ [] }
    {
        StartBytes {
            bytes: Vec::new(alloc),
        }
    }

    /// Adds a byte and its address at the end. When out of memory, the list is unchanged.
    pub fn push(&mut self, at: u16, byte: u8) -> Result<(), NoMemory>
        ensures added { OnOk result (self.new ≡ self.old ++ (at, byte) ∷ []) }
        ensures same { OnErr result (self.new ≡ self.old) }
    {
        self.bytes.push((at, byte))?;
        Ok(())
    }

    /// Its addresses and bytes.
    pub fn bytes(&self) -> &[(u16, u8)]
        ensures { result.now ≡ self.now }
    {
        self.bytes.as_slice()
    }
}
