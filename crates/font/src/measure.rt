// How many columns a character and a text take.
ghost use Rattle.std.specs.Prelude.{◌≡◌, ◌-◌, ◌^◌, ◌≤◌, min, ◌⊎◌, length};
ghost use Rattle.font.specs.Labels.{label, longest_label, char_columns, text_columns, has_label, has_short_label, is_mark};

use crate::{Columns, Font};

/// The most characters that a label has.
pub const LONGEST_LABEL: usize = 10;

/// Whether the label of a character is the short one, as `<07>`.
pub(crate) fn has_short_label(code: u32) -> bool
    ensures value { result ≡ has_short_label code }
{
    code < 0x20 || code == 0x7F
}

/// The columns of the label of a character: one for each of its characters.
pub fn label_columns(code: u32) -> usize
    ensures value { result ≡ length (label code) }
    ensures lengths { (result ≡ 4) ⊎ ((result ≡ 8) ⊎ ((result ≡ 9) ⊎ (result ≡ longest_label))) }
{
    if has_short_label(code) {
        4
    } else if code < 0x10000 {
        8
    } else if code < 0x100000 {
        9
    } else {
        LONGEST_LABEL
    }
}

/// The columns that a character takes on a row.
pub fn columns_in<F: Font>(code: u32) -> usize
    ensures value { result ≡ char_columns F.Font.columns code }
    ensures bound { result ≤ longest_label }
{
    match F::columns_of(code) {
        Columns::NoWidth => label_columns(code),
        Columns::Zero => 0,
        Columns::One => 1,
        Columns::Two => 2,
    }
}

// The rules ask these two by name. One function over the case would make every caller spell the case.

/// Whether a character is shown by its label.
pub fn has_label<F: Font>(code: u32) -> bool
    ensures value { result ≡ has_label (F.Font.columns code) }
{
    matches!(F::columns_of(code), Columns::NoWidth)
}

/// Whether a character is a mark on the one before it: it takes 0 columns.
pub fn is_mark<F: Font>(code: u32) -> bool
    ensures value { result ≡ is_mark (F.Font.columns code) }
{
    matches!(F::columns_of(code), Columns::Zero)
}

/// The columns that a text takes, or the largest number there is where it takes more.
// Inlined: each key measures.
#[inline(always)]
pub fn measured<F: Font>(text: &[u32]) -> usize
    ensures value { result ≡ min (text_columns F.Font.columns text.now) (2 ^ 64 - 1) }
    ensures exact { length text.now ≤ 2 ^ 60 → result ≡ text_columns F.Font.columns text.now }
{
    let mut columns = 0usize;
    for code in text {
        columns = columns.saturating_add(columns_in::<F>(*code));
    }
    columns
}
