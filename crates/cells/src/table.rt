// What a cell row is made of: a slot for each column, and the marks.
use glass::{Ink, PLAIN, Pen, WIDEST};

/// A cell without its marks.
#[derive(Clone, Copy, PartialEq, Eq, Debug, Default)]
pub struct Slot {
    pub ink: Ink,
    pub pen: Pen,
}

/// A mark on the cell of a column.
#[derive(Clone, Copy, PartialEq, Eq, Debug, Default)]
pub struct Mark {
    pub column: usize,
    pub code: u32,
}

/// The slot of a blank cell.
pub const BLANK: Slot = Slot {
    ink: Ink::Blank,
    pen: PLAIN,
};

/// The slots of the widest blank row.
pub(crate) static BLANKS: [Slot; WIDEST] = [BLANK; WIDEST];

/// How many mark records a cell row has.
pub const MARKS: usize = 2048;
