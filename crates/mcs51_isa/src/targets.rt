//! Where relative jumps lead.
ghost use Rattle.std.specs.Prelude.{◌≡◌};
ghost use Rattle.mcs51_isa.specs.Operands.{relative_target};

/// The address that a relative jump leads to, where `next` is the address of the next instruction:
/// from 128 addresses before it to 127 behind it, modulo 65,536.
pub fn relative_target(next: u16, offset: u8) -> u16
    ensures { result ≡ relative_target next offset }
{
    let signed = if offset < 0x80 {
        offset as u16
    } else {
        offset as u16 + 0xFF00
    };
    next.wrapping_add(signed)
}
