//! What direct addresses and bit addresses name.
ghost use Rattle.std.specs.Prelude.{◌≡◌, ◌<◌};
ghost use Rattle.cerco_base.specs.Bytes.{bit_value};
ghost use Rattle.sim51.specs.Locations.{bit_of, with_bit, location_of, special_at, byte_of_bit};

use cerco_base::Port;

/// A byte that an instruction can name by a direct address.
#[derive(Clone, Copy)]
pub(crate) enum Location {
    /// Internal RAM, at an address below 128.
    Ram(u8),
    /// A port, with its latch and its pins.
    Latch(Port),
    Acc,
    B,
    /// The program status word.
    Psw,
    Sp,
    Dpl,
    Dph,
    /// A special register without a function, at its address.
    Other(u8),
}

/// What a direct address names.
pub(crate) fn location_of(address: u8) -> Location
    ensures { result ≡ location_of address }
{
    if address < 0x80 {
        Location::Ram(address)
    } else {
        special(address)
    }
}

fn special(address: u8) -> Location
    ensures { result ≡ special_at address }
{
    match address {
        0x80 => Location::Latch(Port::P0),
        0x81 => Location::Sp,
        0x82 => Location::Dpl,
        0x83 => Location::Dph,
        0x90 => Location::Latch(Port::P1),
        0xA0 => Location::Latch(Port::P2),
        0xB0 => Location::Latch(Port::P3),
        0xD0 => Location::Psw,
        0xE0 => Location::Acc,
        0xF0 => Location::B,
        _ => Location::Other(address),
    }
}

/// The byte that a bit address stands in.
pub(crate) fn bit_location(bit: u8) -> Location
    ensures { result ≡ location_of (byte_of_bit bit) }
{
    let byte = if bit < 0x80 {
        0x20 + bit / 8
    } else {
        bit - bit % 8
    };
    location_of(byte)
}

/// A bit as a number.
pub(crate) fn bit_value(bit: bool) -> u8
    ensures { result ≡ bit_value bit }
{
    if bit { 1 } else { 0 }
}

/// Bit k of a byte.
pub(crate) fn bit_of(byte: u8, k: u8) -> bool
    requires { k < 8 }
    ensures { result ≡ bit_of byte k }
{
    byte / (1 << k) % 2 == 1
}

/// The byte with its bit k set or cleared.
pub(crate) fn with_bit(byte: u8, k: u8, on: bool) -> u8
    requires { k < 8 }
    ensures { result ≡ with_bit byte k on }
{
    if on {
        byte | (1 << k)
    } else {
        byte & (255 - (1 << k))
    }
}
