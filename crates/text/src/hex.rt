// Hexadecimal digits, in uppercase.
ghost use Rattle.std.specs.Prelude.{◌≡◌, ◌%◌};
ghost use Rattle.text.specs.Hex.{hex_digit};

/// The digit of the last four bits of a value, as a character of ASCII.
pub fn hex_digit(value: u8) -> u8
    ensures value { result ≡ hex_digit (value % 16) }
{
    let digit = value % 16;
    match digit {
        0..=9 => b'0' + digit,
        _ => b'A' + (digit - 10),
    }
}
