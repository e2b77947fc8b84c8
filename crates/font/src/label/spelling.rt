// Spelling a label, reading it and cutting it.
ghost use Rattle.std.specs.Prelude.{◌≡◌, length, take};
ghost use Rattle.std.specs.List.{AllByRecursion};
ghost use Rattle.font.specs.Labels.{label, Printable};
ghost use Rattle.font.specs.LabelText.{label_text};

use crate::hex::write_hex;
use crate::label::Label;
use crate::measure::{has_short_label, label_columns};

impl Label {
    /// The label of `code`: as `<07>` for a character below 20 and for 7F, and as `<U+0085>` for any other.
    /// No code past 10FFFF comes here; such a one would show its last six digits.
    pub fn of(code: u32) -> Label
        ensures value { label_text result ≡ label code }
        ensures printable { AllByRecursion Printable (label_text result) }
    {
        let len = label_columns(code);
        // The digits stand after `<`, or after `<U+`.
        let start = if has_short_label(code) { 1 } else { 3 };
        let mut chars = ['<' as u32, 'U' as u32, '+' as u32, 0, 0, 0, 0, 0, 0, 0];
        write_hex(&mut chars[start..len - 1], code);
        chars[len - 1] = '>' as u32;
        Label { chars, len }
    }

    /// How many characters the label has. Each takes one column.
    pub fn len(&self) -> usize
        ensures value { result ≡ length (label_text self.now) }
    {
        self.as_slice().len()
    }

    /// The label as a text.
    pub fn as_slice(&self) -> &[u32]
        ensures value { result.now ≡ label_text self.now }
    {
        &self.chars[..self.len]
    }

    /// As much of the label as fits in `columns`.
    pub fn truncated(&self, columns: usize) -> &[u32]
        ensures value { result.now ≡ take columns (label_text self.now) }
    {
        let text = self.as_slice();
        text.get(..columns).unwrap_or(text)
    }
}
