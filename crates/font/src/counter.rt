// The counter font: Latin-1 and nothing else.
ghost use Rattle.font.specs.Counter.{counter_columns};
ghost use Rattle.std.proofs.Common.{rules};

use crate::{Columns, Font};

/// The font of the counters.
pub struct CounterFont;

impl Font for CounterFont {
    ghost columns = { counter_columns };

    ghost ascii_has_one_column = { Prim.search rules };

    ghost low_controls_have_no_width = { Prim.search rules };

    ghost high_controls_have_no_width = { Prim.search rules };

    fn columns_of(code: u32) -> Columns {
        match code {
            0x20..=0x7E | 0xA0..=0xFF => Columns::One,
            _ => Columns::NoWidth,
        }
    }
}
