// A glass: one row of a screen, and the calls that draw on it.
// What a glass shows is its row: cells, a pen and the column of the cursor. Its spare is what it can still pay: each call
// has a cost, and is refused where the spare is below it.
#![tactic(auto)]

ghost use Rattle.std.specs.Prelude.{◌≡◌, ℕ, ◌∷◌};
ghost use Rattle.glass.specs.Row.{Row, Showable, width_of};
ghost use Rattle.glass.specs.Calls.{GlassCall, Obeys};
ghost use Rattle.glass.specs.Ties.{Tied, StaysTied, accepted};

use font::Font;
use text::refusal::Refusal;

pub mod calls;

/// The colours of a pen.
#[derive(Clone, Copy, PartialEq, Eq, Debug, Default)]
pub enum Colours {
    #[default]
    Plain,
    Prompt,
}

/// What a cell is written with.
#[derive(Clone, Copy, PartialEq, Eq, Debug, Default)]
pub struct Pen {
    pub colours: Colours,
    pub reversed: bool,
}

/// What a cell shows: nothing, a character, or the right half of the wide character to its left.
#[derive(Clone, Copy, PartialEq, Eq, Debug, Default)]
pub enum Ink {
    #[default]
    Blank,
    Shown(u32),
    RightHalf,
}

/// What `pen` does to the pen: plain or prompt colours, both with the reverse off, or the reverse on or off.
#[derive(Clone, Copy, PartialEq, Eq, Debug)]
pub enum PenChange {
    Plain,
    Prompt,
    ReverseOn,
    ReverseOff,
}

/// The widest row.
pub const WIDEST: usize = 512;

/// The pen of a new row.
// A constant beside `Default`, since other constants are made of it.
pub const PLAIN: Pen = Pen {
    colours: Colours::Plain,
    reversed: false,
};

// What is said of a glass takes its font's columns, its row and its spare one by one, so that it holds of any value that has a row,
// as bytes that are read back; a record of the three would be made anew in each clause.

/// A row that can be drawn on. A refused call leaves the glass as it was; any other does to the row what `apply` says,
/// and lowers the spare by its cost at most.
pub trait Glass {
    /// The font that the glass shows with.
    type Font: Font;

    // What the glass shows.
    ghost row: { Self → Row };

    // What it can still pay.
    ghost spare: { Self → ℕ };

    // What it is tied to: references, a line of the screen, a lent buffer, a record of calls.
    ghost tied: { Self → Tied };

    /// How many columns the row has: 1 to 512. The cursor is on one of them, or right after the last.
    fn width(&self) -> usize
        ensures value { result ≡ width_of (row self.now) }
        ensures showable { Showable (row self.now) };

    /// What the glass can still pay.
    fn spare_left(&self) -> usize
        ensures value { result ≡ spare self.now };

    /// Sets the cursor's column. Cost 1.
    fn place(&mut self, column: usize) -> Result<(), Refusal>
        ensures obeys { Obeys Self.Font.Font.columns row spare (GlassCall.place column) self.old result self.new }
        ensures keeps { StaysTied (accepted (GlassCall.place column) result) (tied self.old) (tied self.new) };

    /// Changes the pen. Cost 1.
    fn pen(&mut self, change: PenChange) -> Result<(), Refusal>
        ensures obeys { Obeys Self.Font.Font.columns row spare (GlassCall.pen change) self.old result self.new }
        ensures keeps { StaysTied (accepted (GlassCall.pen change) result) (tied self.old) (tied self.new) };

    /// Shows characters at the cursor, which moves on. Cost 1, and 1 for each character.
    fn text(&mut self, characters: &[u32]) -> Result<(), Refusal>
        ensures obeys { Obeys Self.Font.Font.columns row spare (GlassCall.text characters.now) self.old result self.new }
        ensures keeps { StaysTied (accepted (GlassCall.text characters.now) result) (tied self.old) (tied self.new) };

    /// Makes the cells from the cursor on blank. Cost 1.
    fn clear(&mut self) -> Result<(), Refusal>
        ensures obeys { Obeys Self.Font.Font.columns row spare GlassCall.clear self.old result self.new }
        ensures keeps { StaysTied (accepted GlassCall.clear result) (tied self.old) (tied self.new) };

    /// Makes the row a blank one of a new width. Cost 1.
    fn reshape(&mut self, width: usize) -> Result<(), Refusal>
        ensures obeys { Obeys Self.Font.Font.columns row spare (GlassCall.reshape width) self.old result self.new }
        ensures keeps { StaysTied (accepted (GlassCall.reshape width) result) (tied self.old) (tied self.new) };
}

// A glass behind a reference is a glass.
impl<G: Glass> Glass for &mut G {
    type Font = G::Font;

    ghost row = { λ s. G.Glass.row s.now };

    ghost spare = { λ s. G.Glass.spare s.now };

    ghost tied = { λ s. record { names = s.ghost_name ∷ (G.Glass.tied s.now).names; line = (G.Glass.tied s.now).line; used = (G.Glass.tied s.now).used; bytes = (G.Glass.tied s.now).bytes; told = (G.Glass.tied s.now).told } };

    fn width(&self) -> usize {
        (**self).width()
    }

    fn spare_left(&self) -> usize {
        (**self).spare_left()
    }

    fn place(&mut self, column: usize) -> Result<(), Refusal> {
        (**self).place(column)
    }

    fn pen(&mut self, change: PenChange) -> Result<(), Refusal> {
        (**self).pen(change)
    }

    fn text(&mut self, characters: &[u32]) -> Result<(), Refusal> {
        (**self).text(characters)
    }

    fn clear(&mut self) -> Result<(), Refusal> {
        (**self).clear()
    }

    fn reshape(&mut self, width: usize) -> Result<(), Refusal> {
        (**self).reshape(width)
    }
}
