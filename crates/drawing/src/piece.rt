// A draft in pieces: runs of characters, and labels between them.
ghost use Rattle.std.specs.Prelude.{◌≡◌, ◌≤◌, not, length, MatchOption};
ghost use Rattle.std.specs.List.{prefix_len};
ghost use Rattle.font.specs.Labels.{has_label};
ghost use Rattle.drawing.specs.Piece.{StandsFirst};

use font::Font;
use font::measure::has_label;

/// A piece of a draft as it is drawn.
#[derive(Clone, Copy)]
pub enum Piece<'a> {
    /// Characters that go out as one text.
    Run(&'a [u32]),
    /// A character that shows as its label.
    Label(u32),
}

/// How many characters stand before the first that shows as its label.
fn run_length<F: Font>(chars: &[u32]) -> usize
    ensures value { result ≡ prefix_len (λ c. not (has_label (F.Font.columns c))) chars.now }
    ensures bound { result ≤ length chars.now }
{
    chars.iter().take_while(|c| !has_label::<F>(**c)).count()
}

/// The piece that stands first, and the characters after it.
// Inlined: its one caller asks in a loop.
#[inline(always)]
pub fn next_piece<F: Font>(chars: &[u32]) -> Option<(Piece<'_>, &[u32])>
    ensures value { MatchOption result (length chars.now ≡ 0) (λ found. StandsFirst F.Font.columns chars.now found.0 found.1.now) }
{
    let (first, after) = chars.split_first()?;
    if has_label::<F>(*first) {
        return Some((Piece::Label(*first), after));
    }
    let (run, after) = chars.split_at(run_length::<F>(chars));
    Some((Piece::Run(run), after))
}
