// The foyer font: a table of ranges, searched by halves.
ghost use Rattle.std.specs.Prelude.{◌≡◌, ◌<◌, ◌≤◌, true};
ghost use Rattle.std.specs.List.Sorted.{IsPartitionPoint};
ghost use Rattle.font.specs.Foyer.{foyer_columns, no_width_ranges, zero_column_ranges, two_column_ranges};
ghost use Rattle.font.specs.Labels.{has_label, is_mark, is_wide};
ghost use Rattle.font.specs.Ranges.{listed, ranges_of, rises_from};
ghost use Rattle.std.proofs.Common.{rules};

use crate::{Columns, Font};

/// The first and the last of some codes, and the columns that each of them takes.
pub type CodeRange = (u32, u32, Columns);

/// In rising order. A code in none of the ranges takes one column, and so does a number that is no scalar value.
const RANGES: &[CodeRange] = &[
    (0x00, 0x1F, Columns::NoWidth),
    (0x7F, 0x9F, Columns::NoWidth),
    (0x0300, 0x036F, Columns::Zero),
    (0x0483, 0x0489, Columns::Zero),
    (0x1100, 0x115F, Columns::Two),
    (0x200B, 0x200F, Columns::Zero),
    (0x20D0, 0x20F0, Columns::Zero),
    (0x2E80, 0x303E, Columns::Two),
    (0x3041, 0x4DBF, Columns::Two),
    (0x4E00, 0xA4CF, Columns::Two),
    (0xAC00, 0xD7A3, Columns::Two),
    (0xF900, 0xFAFF, Columns::Two),
    (0xFE00, 0xFE0F, Columns::Zero),
    (0xFE30, 0xFE6F, Columns::Two),
    (0xFEFF, 0xFEFF, Columns::Zero),
    (0xFF01, 0xFF60, Columns::Two),
    (0xFFE0, 0xFFE6, Columns::Two),
    (0x1F300, 0x1F64F, Columns::Two),
    (0x20000, 0x3FFFD, Columns::Two),
];

/// The table of the foyer font. It rises without overlapping, and its ranges of no width, of 0 and of 2 columns are those that the rule names.
pub fn foyer_table() -> &'static [CodeRange]
    ensures rises { rises_from 0 result.now ≡ true }
    ensures no_width { ranges_of has_label result.now ≡ no_width_ranges }
    ensures zero_columns { ranges_of is_mark result.now ≡ zero_column_ranges }
    ensures two_columns { ranges_of is_wide result.now ≡ two_column_ranges }
{
    RANGES
}

/// How many ranges of a rising table end before `code`. They stand first.
fn ended_before(table: &[CodeRange], code: u32) -> usize
    requires rises { rises_from 0 table.now ≡ true }
    ensures ended { IsPartitionPoint (λ range. range.1 < code) (λ range. code ≤ range.1) table.now result }
{
    table.partition_point(|range| range.1 < code)
}

/// What a rising table says of `code`, found by halves.
#[tactic(auto, using(crate::proofs::Tables::before_next, crate::proofs::Tables::past_all, crate::proofs::Tables::rising))]
fn look_up(table: &[CodeRange], code: u32) -> Columns
    requires rises { rises_from 0 table.now ≡ true }
    ensures value { result ≡ listed table.now code }
{
    // The middle range first: it holds the ideographs, of which a text that comes here mostly is.
    if let Some((first, last, columns)) = table.get(table.len() / 2) {
        if *first <= code && code <= *last {
            return *columns;
        }
    }
    match table.get(ended_before(table, code)) {
        Some((first, _, columns)) if *first <= code => *columns,
        _ => Columns::One,
    }
}

/// The font of the foyer console.
pub struct FoyerFont;

impl Font for FoyerFont {
    ghost columns = { foyer_columns };

    ghost ascii_has_one_column = { Prim.search rules };

    ghost low_controls_have_no_width = { Prim.search rules };

    ghost high_controls_have_no_width = { Prim.search rules };

    fn columns_of(code: u32) -> Columns {
        match code {
            0x20..=0x7E => Columns::One,
            _ => look_up(foyer_table(), code),
        }
    }
}
