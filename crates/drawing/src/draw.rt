// Draws the pieces of a draft, and a label in front of them, on any glass that can pay for it.
ghost use Rattle.std.specs.Prelude.{◌≡◌, ℕ, ◌+◌, ◌-◌, ◌<◌, ◌≤◌, [], ◌∷◌, ◌++◌, length, take, slice_index};
ghost use Rattle.font.specs.Labels.{label as spelling, char_columns, text_columns};
ghost use Rattle.glass.specs.Calls.{Allowed, Drew};
ghost use Rattle.glass.specs.Ties.{StaysTied};
ghost use Rattle.drawing.specs.Drawing.{sent, reversed, pieces, framed, longest_label};

use crate::piece::{Piece, next_piece};
use crate::sure;
use arrayvec::ArrayVec;
use font::Font;
use font::label::Label;
use font::measure::columns_in;
use glass::calls::Call;
use glass::{Glass, PenChange};

/// How much of a run fits, and the columns that it takes.
#[derive(Clone, Copy)]
struct Fit {
    count: usize,
    columns: usize,
}

/// How many characters of a run fit in so many columns.
fn fitting<F: Font>(run: &[u32], room: usize) -> Fit
    ensures some { result.count ≤ length run.now }
    ensures taken { result.columns ≡ text_columns F.Font.columns (take result.count run.now) }
    ensures fits { result.columns ≤ room }
    ensures stops { result.count < length run.now → room < result.columns + char_columns F.Font.columns (slice_index run.now result.count) }
{
    let mut columns = 0;
    for (count, code) in run.iter().enumerate() {
        let more = columns_in::<F>(*code);
        if more > room - columns {
            return Fit { count, columns };
        }
        columns += more;
    }
    Fit {
        count: run.len(),
        columns,
    }
}

/// A run goes out as one text, unless it is empty.
fn send<G: Glass>(glass: &mut G, run: &[u32])
    requires allowed { Allowed G.Font.Font.columns (sent run.now []) (G.Glass.row glass.old) (G.Glass.spare glass.old) }
    ensures drew { Drew G.Font.Font.columns G.Glass.row G.Glass.spare (sent run.now []) glass.old glass.new }
    ensures keeps { StaysTied (sent run.now []) (G.Glass.tied glass.old) (G.Glass.tied glass.new) }
{
    if !run.is_empty() {
        sure::perform(glass, Call::Text(run));
    }
}

/// A label, reversed and cut to so many columns. Gives the columns that it takes.
fn draw_label<G: Glass>(glass: &mut G, code: u32, room: usize) -> usize
    requires allowed { Allowed G.Font.Font.columns (reversed (take room (spelling code)) []) (G.Glass.row glass.old) (G.Glass.spare glass.old) }
    ensures value { result ≡ length (take room (spelling code)) }
    ensures fits { result ≤ room }
    ensures drew { Drew G.Font.Font.columns G.Glass.row G.Glass.spare (reversed (take room (spelling code)) []) glass.old glass.new }
    ensures keeps { StaysTied (reversed (take room (spelling code)) []) (G.Glass.tied glass.old) (G.Glass.tied glass.new) }
{
    let label = Label::of(code);
    let shown = label.truncated(room);
    sure::perform(glass, Call::Pen(PenChange::ReverseOn));
    sure::perform(glass, Call::Text(shown));
    sure::perform(glass, Call::Pen(PenChange::ReverseOff));
    shown.len()
}

/// The characters from a column on, and the rest of the row cleared. Drawing stops after a label that fills the row, and before a
/// character that would pass its end.
pub fn draw_text<G: Glass>(glass: &mut G, chars: &[u32], start: usize, width: usize)
    requires inside { start ≤ width }
    requires allowed { Allowed G.Font.Font.columns (pieces G.Font.Font.columns width start [] chars.now) (G.Glass.row glass.old) (G.Glass.spare glass.old) }
    ensures drew { Drew G.Font.Font.columns G.Glass.row G.Glass.spare (pieces G.Font.Font.columns width start [] chars.now) glass.old glass.new }
    ensures keeps { StaysTied (pieces G.Font.Font.columns width start [] chars.now) (G.Glass.tied glass.old) (G.Glass.tied glass.new) }
{
    let mut rest = chars;
    let mut column = start;
    while let Some((piece, after)) = next_piece::<G::Font>(rest) {
        match piece {
            Piece::Run(run) => {
                let Fit { count, columns } = fitting::<G::Font>(run, width - column);
                send(glass, &run[..count]);
                column += columns;
                if count < run.len() {
                    break;
                }
            }
            Piece::Label(code) => {
                column += draw_label(glass, code, width - column);
                if column == width {
                    break;
                }
            }
        }
        rest = after;
    }
    if column < width {
        sure::perform(glass, Call::Clear);
    }
}

/// The most characters of a label.
pub const LONGEST_LABEL: usize = 32;

/// Two spaces come before a label, and one after it.
const LONGEST_TITLE: usize = LONGEST_LABEL + 3;

/// Two spaces, the label, and a space.
fn titled(label: &[u32]) -> ArrayVec<u32, LONGEST_TITLE>
    requires short { length label.now ≤ longest_label }
    ensures value { result.items ≡ 0x20 ∷ 0x20 ∷ (label.now ++ (0x20 ∷ [])) }
{
    let mut title = ArrayVec::new();
    title.push(0x20);
    title.push(0x20);
    title.try_extend_from_slice(label).unwrap();
    title.push(0x20);
    title
}

/// The label, the characters after it, and the cursor placed.
pub fn draw<G: Glass>(glass: &mut G, label: &[u32], shown: &[u32], cursor: usize, width: usize)
    requires inside { (length label.now ≤ longest_label) × (length label.now + 4 ≤ width) }
    requires allowed { Allowed G.Font.Font.columns (framed G.Font.Font.columns label.now shown.now cursor width) (G.Glass.row glass.old) (G.Glass.spare glass.old) }
    ensures drew { Drew G.Font.Font.columns G.Glass.row G.Glass.spare (framed G.Font.Font.columns label.now shown.now cursor width) glass.old glass.new }
    ensures keeps { StaysTied (framed G.Font.Font.columns label.now shown.now cursor width) (G.Glass.tied glass.old) (G.Glass.tied glass.new) }
{
    sure::perform(glass, Call::Place(0));
    sure::perform(glass, Call::Pen(PenChange::Prompt));
    sure::perform(glass, Call::Text(&titled(label)));
    sure::perform(glass, Call::Pen(PenChange::Plain));
    sure::perform(glass, Call::Text(&[0x20]));
    draw_text(glass, shown, label.len() + 4, width);
    sure::perform(glass, Call::Place(cursor));
}
