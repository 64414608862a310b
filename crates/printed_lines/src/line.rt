//! A line of text that is put together in place and takes no memory.
ghost use Rattle.std.specs.Prelude.{◌≡◌, ◌<◌, ◌≤◌, ◌+◌, ◌++◌, ◌∷◌, [], length, decimal};

use itoa::Buffer;
use std::marker::Model;

/// The most bytes of a line. Three numbers of at most 40 bytes and a few letters are fewer.
pub const CAPACITY: usize = 144;

/// A text of at most `CAPACITY` bytes. Contracts see it as the list of its bytes.
#[derive(Drop)]
pub struct Line {
    bytes: [u8; CAPACITY],
    len: usize,
}

impl Model for Line {
    ghost use Rattle.std.specs.Prelude.{List, ℕ, take, ◌≤◌};
    ghost use Rattle.printed_lines.specs.declared.line.TheConstants.{CAPACITY};

    ghost Value = { List ℕ };

    ghost view = { λ l. take l.len l.bytes };

    ghost invariant = { λ l. l.len ≤ CAPACITY };
}

impl Line {
    /// The empty line.
    pub fn new() -> Line
        ensures { result ≡ [] }
    {
        Line {
            bytes: [0; CAPACITY],
            len: 0,
        }
    }

    /// Its bytes.
    pub fn as_slice(&self) -> &[u8]
        ensures { result.now ≡ self.now }
    {
        &self.bytes[..self.len]
    }

    /// Adds a byte.
    pub fn push(&mut self, byte: u8)
        requires { length self.old < CAPACITY }
        ensures added { self.new ≡ self.old ++ byte ∷ [] }
        ensures size { length self.new ≡ length self.old + 1 }
    {
        self.bytes[self.len] = byte;
        self.len += 1;
    }

    // Adds a text.
    fn push_text(&mut self, text: &str)
        requires { length self.old + length text.now ≤ CAPACITY }
        ensures { self.new ≡ self.old ++ text.now }
    {
        for byte in text.as_bytes() {
            self.push(*byte);
        }
    }

    /// Adds a number in decimal digits.
    pub fn push_number(&mut self, number: u64)
        requires { length self.old + 40 ≤ CAPACITY }
        ensures added { self.new ≡ self.old ++ decimal number }
        ensures size { length self.new ≤ length self.old + 40 }
    {
        self.push_text(Buffer::new().format(number));
    }
}
