// Hexadecimal digits, in uppercase.
ghost use Rattle.std.specs.Prelude.{◌≡◌, length};
ghost use Rattle.font.specs.Labels.{hex};

use text::hex::hex_digit;

/// Fills `places` with as many of the last digits of `number`.
pub fn write_hex(places: &mut [u32], number: u32)
    ensures after { places.new ≡ hex (length places.old) number }
{
    let mut rest = number;
    // By places: `places.iter_mut().rev()` was tried, and behind `rev` a proof no longer sees the elements.
    for i in (0..places.len()).rev() {
        places[i] = u32::from(hex_digit((rest % 16) as u8));
        rest /= 16;
    }
}
