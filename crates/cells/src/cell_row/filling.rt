// How cells are filled and marked. None of this is refused: the calls have seen to that. Each function says by how much the number of
// marks may grow, since a text adds these up.
ghost use Rattle.std.specs.Prelude.{◌≡◌, ◌+◌, ◌<◌, ◌≤◌, length, IfSome, slice_set};
ghost use Rattle.arrayvec.specs.ArrayVec.{array_vec_len};
ghost use Rattle.font.specs.declared.Columns.TheVariants.{Zero};
ghost use Rattle.glass.specs.Row.{cell};
ghost use Rattle.glass.specs.Calls.{cell_left_of, with_cells, if_it_fits, with_character, with_text, cleared};
ghost use Rattle.cells.specs.Slots.{most_marks};
ghost use Rattle.cells.specs.Shows.{shows, spare_of, mark_records, inked};

use super::CellRow;
use crate::table::{BLANK, MARKS, Mark, Slot};
use font::{Columns, Font};
use glass::Ink;

impl<F> CellRow<F> {
    // What is left of the table of marks.
    pub(super) fn spare(&self) -> usize
        ensures value { result ≡ spare_of self.now }
    {
        MARKS - self.marks.len()
    }

    // The nearest cell to the left of the cursor that is no right half.
    fn left_cell(&self) -> Option<usize>
        ensures nearest { result ≡ cell_left_of self.now.column (shows self.now).cells }
        ensures below { IfSome result (λ k. k < self.now.column) }
    {
        for column in (0..self.column).rev() {
            if self.slots[column].ink != Ink::RightHalf {
                return Some(column);
            }
        }
        None
    }

    // Joins a mark to the nearest cell to the left; there may be none.
    fn join(&mut self, code: u32)
        requires { mark_records self.old + 1 < most_marks }
        ensures row { shows self.new ≡ with_character Zero code (shows self.old) }
        ensures more { mark_records self.new ≤ mark_records self.old + 1 }
    {
        if let Some(column) = self.left_cell() {
            self.marks.add(Mark { column, code });
        }
    }

    // Fills one cell, without marks.
    fn put(&mut self, at: usize, slot: Slot)
        requires { at < array_vec_len self.old.slots }
        ensures row { shows self.new ≡ with_cells (slice_set (shows self.old).cells at (cell slot.ink slot.pen)) (shows self.old) }
        ensures width { array_vec_len self.new.slots ≡ array_vec_len self.old.slots }
        ensures fewer { mark_records self.new ≤ mark_records self.old }
    {
        self.marks.remove(at);
        self.slots[at] = slot;
    }

    // Fills cells from the cursor on, which moves behind them, where they all fit.
    fn put_inks(&mut self, inks: &[Ink])
        ensures row { shows self.new ≡ if_it_fits (length inks.now) (inked inks.now (shows self.old)) (shows self.old) }
        ensures fewer { mark_records self.new ≤ mark_records self.old }
    {
        if inks.len() > self.slots.len() - self.column {
            return;
        }
        let pen = self.pen;
        for &ink in inks {
            self.put(self.column, Slot { ink, pen });
            self.column += 1;
        }
    }

    // Makes the cells from the cursor on blank.
    pub(super) fn clear_rest(&mut self)
        ensures row { shows self.new ≡ cleared (shows self.old) }
        ensures fewer { mark_records self.new ≤ mark_records self.old }
    {
        self.marks.truncate(self.column);
        self.slots[self.column..].fill(BLANK);
    }
}

impl<F: Font> CellRow<F> {
    fn put_character(&mut self, c: u32)
        requires { mark_records self.old + 1 < most_marks }
        ensures row { shows self.new ≡ with_character (F.Font.columns c) c (shows self.old) }
        ensures more { mark_records self.new ≤ mark_records self.old + 1 }
    {
        match F::columns_of(c) {
            Columns::NoWidth => {}
            Columns::Zero => self.join(c),
            Columns::One => self.put_inks(&[Ink::Shown(c)]),
            Columns::Two => self.put_inks(&[Ink::Shown(c), Ink::RightHalf]),
        }
    }

    pub(super) fn put_text(&mut self, characters: &[u32])
        requires { mark_records self.old + length characters.now < most_marks }
        ensures row { shows self.new ≡ with_text F.Font.columns characters.now (shows self.old) }
        ensures more { mark_records self.new ≤ mark_records self.old + length characters.now }
    {
        for &c in characters {
            self.put_character(c);
        }
    }
}
