//! Bytes of the code.
ghost use Rattle.std.specs.Prelude.{◌≡◌};
ghost use Rattle.sim51.specs.Effect.{code_at};

/// A byte of the code, which is 0 past its end.
pub(crate) fn byte_at(code: &[u8], address: u16) -> u8
    ensures { result ≡ code_at code.now address }
{
    let at = address as usize;
    if at < code.len() { code[at] } else { 0 }
}
