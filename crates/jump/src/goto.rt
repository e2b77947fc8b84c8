// Where a typed text jumps to.
ghost use Rattle.std.specs.Prelude.{◌≡◌, ◌≤◌};
ghost use Rattle.jump.specs.Numeral.{number_read};
ghost use Rattle.jump.specs.Goto.{line_at, line_at_percent, target_of, most_lines, goes_to, LeadsBy};

use crate::number::number;
use text::refusal::Refusal;

/// The longest listing that can be jumped in.
pub const MOST_LINES: u64 = 4_294_967_296;

/// What a finished text asks for.
#[derive(Clone, Copy, PartialEq, Eq, Debug)]
pub enum Jump {
    Quit,
    Stay,
    /// A line of the listing, counted from 0.
    Line(u64),
}

const QUIT: u32 = 'q' as u32;

const PERCENT: u32 = '%' as u32;

/// A listing that can be jumped in.
#[derive(Clone, Copy)]
struct Listing {
    lines: u64,
    ghost fits: { lines ≤ most_lines },
}

impl Listing {
    /// The line that a number names.
    fn absolute(self, n: i64) -> u64
        requires some_lines { 1 ≤ self.lines }
        ensures value { result ≡ line_at n self.lines }
    {
        let lines = self.lines as i64;
        let line = if n <= -lines || n == 0 {
            0
        } else if n > lines {
            lines - 1
        } else if n < 0 {
            lines + n - 1
        } else {
            n - 1
        };
        line as u64
    }

    /// The line that a percentage names.
    fn relative(self, percent: i64) -> u64
        requires some_lines { 1 ≤ self.lines }
        ensures value { result ≡ line_at_percent percent self.lines }
    {
        let held = percent.clamp(-100, 100);
        let held = if held < 0 { held + 100 } else { held };
        held as u64 * (self.lines - 1) / 100
    }

    /// The line that `line_of` finds for the number that a text spells.
    fn line_by<F: Fn(Listing, i64) -> u64>(
        self,
        spelling: &[u32],
        line_of: F,
    ) -> Result<Jump, Refusal>
        requires some_lines_serve { 1 ≤ self.lines → (n : _) → F.pre line_of self n }
        ensures value { LeadsBy (λ n line. F.post line_of self n line) self.lines (number_read spelling.now) result }
    {
        let n = number(spelling)?;
        if self.lines == 0 {
            return Err(Refusal::NoLines);
        }
        Ok(Jump::Line(line_of(self, n)))
    }

    /// The line that a text of one character and more names. A final % makes it a percentage.
    fn target(self, text: &[u32]) -> Result<Jump, Refusal>
        ensures value { result ≡ target_of text.now self.lines }
    {
        match text {
            [spelling @ .., PERCENT] => self.line_by(spelling, Listing::relative),
            spelling => self.line_by(spelling, Listing::absolute),
        }
    }
}

/// Where a finished text goes in a listing of so many lines.
pub fn goto(text: &[u32], lines: u64) -> Result<Jump, Refusal>
    ensures value { result ≡ goes_to text.now lines }
{
    if lines > MOST_LINES {
        return Err(Refusal::ListingTooLong);
    }
    match text {
        [] => Ok(Jump::Stay),
        [QUIT] => Ok(Jump::Quit),
        _ => Listing { lines }.target(text),
    }
}
