// Tests of the glasses. They stand apart, so that no glass is proved twice.
#![tactic(auto)]

ghost use Rattle.glass_tests.specs.Trial.{trial_columns};
ghost use Rattle.std.proofs.Common.{rules};

use font::{Columns, Font};

// The values of the tests here stand on these ranges, and those of the drafts' tests on others.
/// A small font for trials.
pub struct Trial;

impl Font for Trial {
    ghost columns = { trial_columns };

    ghost ascii_has_one_column = { Prim.search rules };

    ghost low_controls_have_no_width = { Prim.search rules };

    ghost high_controls_have_no_width = { Prim.search rules };

    fn columns_of(code: u32) -> Columns {
        if code < 0x20 || (code >= 0x7F && code <= 0x9F) {
            Columns::NoWidth
        } else if code >= 0x300 && code <= 0x36F {
            Columns::Zero
        } else if code >= 0x3041 && code <= 0x309F {
            Columns::Two
        } else {
            Columns::One
        }
    }
}

#[cfg(test)]
mod cells_tests;
#[cfg(test)]
mod recorder_tests;
