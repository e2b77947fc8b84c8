// A draft in memory. It allocates nothing: its characters stand in an array of its own.
ghost use Rattle.std.specs.Prelude.{◌≡◌, ◌≤◌, true, length, take};
ghost use Rattle.std.proofs.Math.Utf8.{scalars};
ghost use Rattle.draft.specs.Line.{capacity};

mod edits;
mod questions;
mod scroll;

/// The characters that a draft holds at most.
pub const CAPACITY: usize = 256;

/// The columns that scrolling keeps in sight on the left of the cursor, and free on the right of it.
pub const MARGIN: usize = 5;

// No model: a refused call leaves the whole array as it was, and a view of the text would forget what lies past it.
/// A line of text with the place of the cursor in it, and the offset from which it is shown.
#[derive(Clone, Copy)]
pub struct PromptState {
    /// The text is the first `len` of these.
    // An array with its length beside it, and no ArrayVec: a draft is Copy, and a refused call leaves the whole array as it was.
    value: [u32; CAPACITY],
    len: usize,
    /// The number of characters that lie out of sight on the left.
    offset: usize,
    /// The place of the cursor: the number of characters before it.
    position: usize,
    ghost ok: { (offset ≤ position) × (position ≤ len) × (len ≤ capacity) × (length value ≡ capacity) × (scalars (take len value) ≡ true) },
}
