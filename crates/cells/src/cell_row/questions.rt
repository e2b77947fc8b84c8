// What a host reads back. The width is a question of every glass.
ghost use Rattle.std.specs.Prelude.{◌≡◌, ◌-◌, map, slice_index_or};
ghost use Rattle.glass.specs.Row.{blank_cell};
ghost use Rattle.cells.specs.Slots.{code_of, most_marks};
ghost use Rattle.cells.specs.Shows.{shows, spare_of, marks_on, slot_shown};

use super::CellRow;
use crate::table::{Mark, Slot};
use glass::Pen;

impl<F> CellRow<F> {
    /// The column of the cursor.
    pub fn cursor(&self) -> usize
        ensures value { result ≡ (shows self.now).column }
    {
        self.column
    }

    /// The pen that the next character is written with.
    pub fn current_pen(&self) -> Pen
        ensures value { result ≡ (shows self.now).pen }
    {
        self.pen
    }

    /// The ink and the pen of the cell in a column; none past the width.
    pub fn cell(&self, column: usize) -> Option<Slot>
        ensures value { result ≡ slot_shown (shows self.now) column }
    {
        self.slots.get(column).copied()
    }

    /// The marks of the cell in a column, as they came; none past the width.
    pub fn marks(&self, column: usize) -> &[Mark]
        ensures value { map code_of result.now ≡ (slice_index_or (shows self.now).cells column blank_cell).marks }
    {
        self.marks.of(column)
    }

    /// How many marks the row has. The spare is 2,048 less these.
    pub fn mark_count(&self) -> usize
        ensures value { result ≡ marks_on (shows self.now) }
        ensures spare { spare_of self.now ≡ most_marks - result }
    {
        self.marks.len()
    }
}
