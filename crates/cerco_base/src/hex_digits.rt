//! Numbers in hexadecimal digits.
ghost use Rattle.std.specs.Prelude.{◌≡◌, ◌<◌};
ghost use Rattle.cerco_base.specs.HexDigits.{hex_digit, hex_word};

/// The digit of a number below 16, as an ASCII character in upper case.
pub fn hex_digit(n: u8) -> u8
    requires { n < 16 }
    ensures { result ≡ hex_digit n }
{
    b"0123456789ABCDEF"[n as usize]
}

/// The four digits of a word, as ASCII characters in upper case.
pub fn hex_word(word: u16) -> [u8; 4]
    ensures { result ≡ hex_word word }
{
    let high = (word / 256) as u8;
    let low = (word % 256) as u8;
    [
        hex_digit(high / 16),
        hex_digit(high % 16),
        hex_digit(low / 16),
        hex_digit(low % 16),
    ]
}
