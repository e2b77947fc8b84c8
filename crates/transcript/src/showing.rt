// What a text, a row of cells and bytes look like in a transcript.
ghost use Rattle.std.specs.Prelude.{◌≡◌, [], ◌∷◌, Some, map, take};
ghost use Rattle.std.specs.Char.{encode_utf8};
ghost use Rattle.std.specs.Fmt.{DisplaysOnOk};
ghost use Rattle.std.specs.List.{flat_map};
ghost use Rattle.cells.specs.Slots.{code_of};
ghost use Rattle.cells.specs.Shows.{shows};
ghost use Rattle.transcript.specs.Showing.{byte_text, char_text, readable, text_of, ink_text, row_text, pens_text, sign};

use cells::cell_row::CellRow;
use cells::table::{BLANK, Mark};
use font::Font;
use font::label::Label;
use font::measure::has_label;
use glass::{Colours, Glass, Ink, Pen};
use std::fmt;
use std::marker::PhantomData;

/// The character of a code, and `?` for a code that is none.
fn char_of(code: u32) -> char
    ensures value { encode_utf8 result ≡ char_text code }
{
    char::from_u32(code).unwrap_or('?')
}

/// Writes the character of a code.
// By its UTF-8, as a part of a text: `write_char` would look again whether the bytes are UTF-8.
fn write_code<W: fmt::Write>(f: &mut fmt::Formatter<W>, code: u32) -> fmt::Result
    ensures text { DisplaysOnOk W.write_str_gives f.old result (Some (char_text code)) f.new }
{
    f.write_str(char_of(code).encode_utf8(&mut [0; 4]))
}

fn write_text<W: fmt::Write>(f: &mut fmt::Formatter<W>, text: &[u32]) -> fmt::Result
    ensures text { DisplaysOnOk W.write_str_gives f.old result (Some (flat_map char_text text.now)) f.new }
{
    for code in text {
        write_code(f, *code)?;
    }
    Ok(())
}

/// A text as a person reads it under a font: a character without a width by its label.
#[derive(Drop)]
pub struct Readable<'a, F> {
    text: &'a [u32],
    font: PhantomData<F>,
}

impl<'a, F: Font> Readable<'a, F> {
    pub fn new(codes: &'a [u32]) -> Readable<'a, F>
        ensures text { text_of result ≡ codes.now }
    {
        Readable {
            text: codes,
            font: PhantomData,
        }
    }
}

impl<F: Font> fmt::Display for Readable<'_, F> {
    ghost output = { λ t. Some (flat_map (readable F.Font.columns) (text_of t)) };

    fn fmt<W: fmt::Write>(&self, f: &mut fmt::Formatter<W>) -> fmt::Result {
        for code in self.text {
            if has_label::<F>(*code) {
                write_text(f, Label::of(*code).as_slice())?;
            } else {
                write_code(f, *code)?;
            }
        }
        Ok(())
    }
}

fn write_ink<W: fmt::Write>(f: &mut fmt::Formatter<W>, ink: Ink) -> fmt::Result
    ensures text { DisplaysOnOk W.write_str_gives f.old result (Some (ink_text ink)) f.new }
{
    match ink {
        Ink::Blank => f.write_str(" "),
        Ink::Shown(code) => write_code(f, code),
        Ink::RightHalf => Ok(()),
    }
}

fn write_marks<W: fmt::Write>(f: &mut fmt::Formatter<W>, marks: &[Mark]) -> fmt::Result
    ensures text { DisplaysOnOk W.write_str_gives f.old result (Some (flat_map char_text (map code_of marks.now))) f.new }
{
    for mark in marks {
        write_code(f, mark.code)?;
    }
    Ok(())
}

/// The characters and the marks of a row, each in the columns that it takes.
#[derive(Drop)]
pub struct Cells<'a, F>(pub &'a CellRow<F>);

impl<F: Font> fmt::Display for Cells<'_, F> {
    ghost output = { λ r. Some (row_text (shows r.0.now)) };

    fn fmt<W: fmt::Write>(&self, f: &mut fmt::Formatter<W>) -> fmt::Result {
        // A row is asked for the ink and for the marks of a column; it has no iterator over its cells.
        for column in 0..self.0.width() {
            write_ink(f, self.0.cell(column).unwrap_or(BLANK).ink)?;
            write_marks(f, self.0.marks(column))?;
        }
        Ok(())
    }
}

/// The sign of a pen: `.` plain, `p` the prompt's colours, and `:` or `P` the same reversed.
fn sign_of(pen: Pen) -> &'static str
    ensures value { result.now ≡ sign pen ∷ [] }
{
    match (pen.colours, pen.reversed) {
        (Colours::Plain, false) => ".",
        (Colours::Plain, true) => ":",
        (Colours::Prompt, false) => "p",
        (Colours::Prompt, true) => "P",
    }
}

/// The signs of the pens of a row, and `_` for the cell that the cursor is on.
#[derive(Drop)]
pub struct Pens<'a, F>(pub &'a CellRow<F>);

impl<F: Font> fmt::Display for Pens<'_, F> {
    ghost output = { λ r. Some (pens_text (shows r.0.now)) };

    fn fmt<W: fmt::Write>(&self, f: &mut fmt::Formatter<W>) -> fmt::Result {
        for column in 0..self.0.width() {
            if column == self.0.cursor() {
                f.write_str("_")?;
            } else {
                f.write_str(sign_of(self.0.cell(column).unwrap_or(BLANK).pen))?;
            }
        }
        Ok(())
    }
}

/// Bytes in hexadecimal, each after a space.
#[derive(Drop)]
pub struct Hex<'a>(pub &'a [u8]);

impl fmt::Display for Hex<'_> {
    ghost output = { λ h. Some (flat_map byte_text h.0.now) };

    fn fmt<W: fmt::Write>(&self, f: &mut fmt::Formatter<W>) -> fmt::Result {
        for &byte in self.0 {
            write!(f, " {byte:02X}")?;
        }
        Ok(())
    }
}

/// The first `count` bytes, or all where there are fewer.
pub fn front(bytes: &[u8], count: usize) -> &[u8]
    ensures value { result.now ≡ take count bytes.now }
{
    bytes.get(..count).unwrap_or(bytes)
}
