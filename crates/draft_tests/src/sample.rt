// A small font to try drafts with.
ghost use Rattle.draft_tests.specs.Fonts.{sample_columns};
ghost use Rattle.std.proofs.Common.{rules};

use font::{Columns, Font};

// The values of the tests here stand on these ranges, and those of the glasses' tests on others.
/// ASCII in one column, accents in none, ideographs in two, and labels for all else.
pub struct SampleFont;

impl Font for SampleFont {
    ghost columns = { sample_columns };

    ghost ascii_has_one_column = { Prim.search rules };

    ghost low_controls_have_no_width = { Prim.search rules };

    ghost high_controls_have_no_width = { Prim.search rules };

    fn columns_of(code: u32) -> Columns {
        match code {
            0x20..=0x7E => Columns::One,
            0x300..=0x36F => Columns::Zero,
            0x4E00..=0x9FFF => Columns::Two,
            _ => Columns::NoWidth,
        }
    }
}
