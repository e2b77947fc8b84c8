// A new cell row, and its calls.
ghost use Rattle.std.specs.Prelude.{◌≡◌, ◌≤◌, replicate};
ghost use Rattle.glass.specs.Row.{widest};
ghost use Rattle.glass.specs.Calls.{changed_pen};
ghost use Rattle.glass.specs.Ties.{untied};
ghost use Rattle.cells.specs.Slots.{blank_slot};
ghost use Rattle.cells.specs.Shows.{shows, spare_of, Made};

use super::CellRow;
use crate::marks::Marks;
use crate::table::{BLANK, BLANKS, Slot};
use arrayvec::ArrayVec;
use font::Font;
use glass::{Colours, Glass, PLAIN, Pen, PenChange, WIDEST};
use std::marker::PhantomData;
use text::refusal::Refusal;
use text::scalar::all_scalars;

fn changed(change: PenChange, pen: Pen) -> Pen
    ensures value { result ≡ changed_pen change pen }
{
    match change {
        PenChange::Plain => PLAIN,
        PenChange::Prompt => Pen {
            colours: Colours::Prompt,
            reversed: false,
        },
        PenChange::ReverseOn => Pen {
            reversed: true,
            ..pen
        },
        PenChange::ReverseOff => Pen {
            reversed: false,
            ..pen
        },
    }
}

// The slots of a blank row.
fn blank_slots(width: usize) -> ArrayVec<Slot, WIDEST>
    requires { width ≤ widest }
    ensures value { result.items ≡ replicate width blank_slot }
{
    let mut slots = ArrayVec::from([BLANK; WIDEST]);
    slots.truncate(width);
    slots
}

// Makes the slots those of a blank row, where they lie: those that stay are written over, and only the difference in width is taken away
// or added.
fn make_blank(slots: &mut ArrayVec<Slot, WIDEST>, width: usize)
    requires { width ≤ widest }
    ensures value { slots.new.items ≡ replicate width blank_slot }
{
    slots.truncate(width);
    let kept = slots.len();
    slots.copy_from_slice(&BLANKS[..kept]);
    slots.try_extend_from_slice(&BLANKS[kept..width]).unwrap();
}

impl<F: Font> CellRow<F> {
    /// A blank row of 1 to 512 columns; any other width is outside the glass.
    pub fn new(width: usize) -> Result<CellRow<F>, Refusal>
        ensures made { Made width result }
    {
        if !(1..=WIDEST).contains(&width) {
            return Err(Refusal::OutsideGlass);
        }
        Ok(CellRow {
            slots: blank_slots(width),
            pen: PLAIN,
            column: 0,
            marks: Marks::new(),
            font: PhantomData,
        })
    }
}

// The spare is what is left of the table of marks, and never 0: the calls of cost 1 need not ask.
impl<F: Font> Glass for CellRow<F> {
    type Font = F;

    ghost row = { λ s. shows s };

    ghost spare = { λ s. spare_of s };

    ghost tied = { λ _. untied };

    fn width(&self) -> usize {
        self.slots.len()
    }

    fn spare_left(&self) -> usize {
        self.spare()
    }

    fn place(&mut self, column: usize) -> Result<(), Refusal> {
        if column >= self.slots.len() {
            return Err(Refusal::OutsideGlass);
        }
        self.column = column;
        Ok(())
    }

    fn pen(&mut self, change: PenChange) -> Result<(), Refusal> {
        self.pen = changed(change, self.pen);
        Ok(())
    }

    fn text(&mut self, characters: &[u32]) -> Result<(), Refusal> {
        if self.spare() <= characters.len() {
            return Err(Refusal::LowSpare);
        }
        if !all_scalars(characters) {
            return Err(Refusal::NotScalar);
        }
        self.put_text(characters);
        Ok(())
    }

    fn clear(&mut self) -> Result<(), Refusal> {
        self.clear_rest();
        Ok(())
    }

    fn reshape(&mut self, width: usize) -> Result<(), Refusal> {
        if !(1..=WIDEST).contains(&width) {
            return Err(Refusal::OutsideGlass);
        }
        make_blank(&mut self.slots, width);
        self.marks.truncate(0);
        self.column = 0;
        self.pen = PLAIN;
        Ok(())
    }
}
