//! The virtual registers that hold the values of a call.
ghost use Rattle.std.specs.Prelude.{◌≡◌, ◌+◌, ◌<◌, ◌^◌};
ghost use Rattle.byte_sequences.specs.Words as spec;
ghost use Rattle.byte_sequences.specs.Words.{vreg};
ghost use Rattle.byte_sequences.specs.Code.Views.{vregs};

use rtl::Vreg;

/// The two virtual registers of a value.
#[derive(Clone, Copy)]
pub struct Word {
    /// The one of its low byte.
    pub low: Vreg,
    /// The one of its high byte.
    pub high: Vreg,
}

/// Variables, temporaries and argument bytes have numbers below this one, so that there are virtual registers for them.
pub const MOST_NUMBERS: u32 = 536_870_912;

/// The virtual register of no value, to work with.
pub fn scratch() -> Vreg
    ensures { result ≡ spec.scratch vreg }
{
    Vreg(24)
}

// The word from this virtual register on.
fn word_from(first: u32) -> Word
    requires { first + 1 < 2 ^ 32 }
    ensures { vregs result ≡ spec.word_from vreg first }
{
    Word {
        low: Vreg(first),
        high: Vreg(first + 1),
    }
}

/// The word of the variable with this number.
pub fn variable(number: u32) -> Word
    requires { number < 2 ^ 29 }
    ensures { vregs result ≡ spec.variable vreg number }
{
    word_from(25 + 4 * number)
}

/// The word of the temporary with this number.
pub fn temporary(number: u32) -> Word
    requires { number < 2 ^ 29 }
    ensures { vregs result ≡ spec.temporary vreg number }
{
    word_from(27 + 4 * number)
}

/// The word in which an argument is handed over that begins at this argument byte. A result has the one that begins at 0.
pub fn argument(first_byte: u32) -> Word
    requires { first_byte < 2 ^ 29 }
    ensures { vregs result ≡ spec.argument vreg first_byte }
{
    word_from(12 + first_byte)
}
