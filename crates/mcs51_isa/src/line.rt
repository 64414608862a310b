//! A line of text that is put together in place and takes no memory.
ghost use Rattle.std.specs.Prelude.{◌≡◌, ◌<◌, ◌≤◌, ◌+◌, ◌*◌, ◌++◌, ◌∷◌, [], length};
ghost use Rattle.std.specs.List.{flat_map};
ghost use Rattle.cerco_base.specs.HexDigits.{hex_digit, hex_byte, hex_word};

use cerco_base::hex_digit;
use std::marker::Model;

/// The most bytes of a line: 4 digits, 6 digits, a mnemonic of 5 letters, three operands of 7
/// characters, 5 blanks and commas and the end are 42.
pub const CAPACITY: usize = 48;

/// A text of at most `CAPACITY` bytes. Contracts see it as the list of its bytes.
#[derive(Drop)]
pub struct Line {
    bytes: [u8; CAPACITY],
    len: usize,
}

impl Model for Line {
    ghost use Rattle.std.specs.Prelude.{List, ℕ, take, ◌≤◌};
    ghost use Rattle.mcs51_isa.specs.declared.line.TheConstants.{CAPACITY};

    ghost Value = { List ℕ };

    ghost view = { λ l. take l.len l.bytes };

    ghost invariant = { λ l. l.len ≤ CAPACITY };
}

impl Line {
    /// The empty line.
    pub fn new() -> Line
        ensures { result ≡ [] }
    {
        Line {
            bytes: [0; CAPACITY],
            len: 0,
        }
    }

    /// Its bytes.
    pub fn as_slice(&self) -> &[u8]
        ensures { result.now ≡ self.now }
    {
        &self.bytes[..self.len]
    }

    /// Adds a byte.
    pub fn push(&mut self, byte: u8)
        requires { length self.old < CAPACITY }
        ensures { self.new ≡ self.old ++ byte ∷ [] }
    {
        self.bytes[self.len] = byte;
        self.len += 1;
    }

    /// Adds a text.
    pub fn push_text(&mut self, text: &str)
        requires { length self.old + length text.now ≤ CAPACITY }
        ensures { self.new ≡ self.old ++ text.now }
    {
        for byte in text.as_bytes() {
            self.push(*byte);
        }
    }

    /// Adds a hexadecimal digit.
    pub fn push_hex_digit(&mut self, digit: u8)
        requires room { length self.old < CAPACITY }
        requires digit { digit < 16 }
        ensures { self.new ≡ self.old ++ hex_digit digit ∷ [] }
    {
        self.push(hex_digit(digit));
    }

    /// Adds a byte in two hexadecimal digits.
    pub fn push_hex_byte(&mut self, byte: u8)
        requires { length self.old + 2 ≤ CAPACITY }
        ensures { self.new ≡ self.old ++ hex_byte byte }
    {
        self.push_hex_digit(byte / 16);
        self.push_hex_digit(byte % 16);
    }

    /// Adds an address or a word in four hexadecimal digits.
    pub fn push_hex_word(&mut self, word: u16)
        requires { length self.old + 4 ≤ CAPACITY }
        ensures { self.new ≡ self.old ++ hex_word word }
    {
        self.push_hex_byte((word / 256) as u8);
        self.push_hex_byte((word % 256) as u8);
    }

    /// Adds each byte in two hexadecimal digits.
    pub fn push_hex_bytes(&mut self, bytes: &[u8])
        requires { length self.old + 2 * length bytes.now ≤ CAPACITY }
        ensures text { self.new ≡ self.old ++ flat_map hex_byte bytes.now }
        ensures size { length self.new ≡ length self.old + 2 * length bytes.now }
    {
        for byte in bytes {
            self.push_hex_byte(*byte);
        }
    }
}
