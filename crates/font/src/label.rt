// A label in memory of its own: how a character without a width is spelled.
ghost use Rattle.std.specs.Prelude.{◌≡◌, ◌≤◌, length};
ghost use Rattle.font.specs.Labels.{longest_label};

use crate::measure::LONGEST_LABEL;

pub mod spelling;

/// A label: the first `len` of `chars`, each a character of 20 to 7E.
// An array with its length beside it, no `ArrayVec` and no model: a label is Copy.
#[derive(Clone, Copy)]
pub struct Label {
    chars: [u32; LONGEST_LABEL],
    len: usize,
    ghost room: { length chars ≡ longest_label },
    ghost inside: { len ≤ longest_label },
}
