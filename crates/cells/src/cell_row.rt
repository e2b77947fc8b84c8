// The cell row itself.
ghost use Rattle.std.specs.Prelude.{◌≡◌, ℕ, ◌≤◌, []};
ghost use Rattle.glass.specs.Row.{widest};
ghost use Rattle.arrayvec.specs.ArrayVec.{array_vec_len};
ghost use Rattle.cells.specs.Slots.{marks_of};

use crate::marks::Marks;
use crate::table::Slot;
use arrayvec::ArrayVec;
use glass::{Pen, WIDEST};
use std::marker::PhantomData;

pub mod calls;
pub mod filling;
pub mod questions;

/// A glass in memory of its own, with a slot for each column. A text costs one more than it has characters, so that one
/// mark record is always free.
#[derive(Drop)]
pub struct CellRow<F> {
    slots: ArrayVec<Slot, WIDEST>,
    pen: Pen,
    column: usize,
    marks: Marks,
    font: PhantomData<F>,
    ghost within: { (1 ≤ array_vec_len slots) × (array_vec_len slots ≤ widest) × (column ≤ array_vec_len slots) },
    ghost inside: { (k : ℕ) → array_vec_len slots ≤ k → marks_of k marks.table.items ≡ [] },
}
