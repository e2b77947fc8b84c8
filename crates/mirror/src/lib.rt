// The two glasses side by side: the same calls show the same row on both.
#![tactic(auto)]

ghost use Rattle.std.specs.Prelude.{◌≡◌, ◌∷◌, ◌++◌, map, length, take, drop, IfOk, Some, None, MatchResult, OnErr};
ghost use Rattle.glass.specs.Calls.{GlassCall, apply_all};
ghost use Rattle.glass.specs.Row.{blank_row};
ghost use Rattle.glass.specs.Performed.{call_of, made};
ghost use Rattle.recorder.specs.Log.{log_of, log_row, making_refused, first_calls, first_width};
ghost use Rattle.mirror.specs.Mirror.{Mirrors};

use cells::cell_row::CellRow;
use font::Font;
use glass::calls::{Call, Stopped, perform_all};
use recorder::recorder::Recorder;
use recorder::recorder::making::can_record;
use text::refusal::Refusal;

/// A cell row that calls were performed on, how many bytes of the buffer a recorder of the same width used for them, and
/// whether each came to the end of the calls.
#[derive(Drop)]
pub struct Mirrored<F> {
    pub cells: CellRow<F>,
    // The buffer is lent: how much of it is in use is told beside it.
    pub used: usize,
    pub drawn: Result<(), Stopped>,
    pub recorded: Result<(), Stopped>,
}

// The two functions below take the same four things, as a host has them: a struct of them would be made for one call.

/// Makes a cell row and a recorder of one width, and performs the same calls on both.
#[tactic(auto, using(crate::proofs::Ends::answer_allows))]
pub fn draw_both<F: Font>(
    line: u16,
    width: usize,
    calls: &[Call<'_>],
    buffer: &mut [u8],
) -> Result<Mirrored<F>, Refusal>
    ensures refused_exactly { MatchResult result (λ _. making_refused width (length buffer.old) ≡ None) (λ e. making_refused width (length buffer.old) ≡ Some e) }
    ensures unchanged_if_refused { OnErr result (buffer.new ≡ buffer.old) }
    ensures same_row { IfOk result (λ m. Mirrors F.Font.columns width (map call_of calls.now) m buffer.new) }
    ensures bytes { IfOk result (λ m. take m.used buffer.new ≡ log_of line (GlassCall.reshape width ∷ made (map call_of calls.now) m.recorded)) }
    ensures rest_kept { IfOk result (λ m. drop m.used buffer.new ≡ drop m.used buffer.old) }
{
    let mut cells: CellRow<F> = CellRow::new(width)?;
    can_record(width, buffer.len())?;
    let drawn = perform_all(&mut cells, calls);
    let mut recorder: Recorder<F> = Recorder::new(line, width, buffer);
    let recorded = perform_all(&mut recorder, calls);
    let used = recorder.finish();
    Ok(Mirrored {
        cells,
        used,
        drawn,
        recorded,
    })
}

/// Makes a recorder, performs calls on it and lets it go, and says how many bytes it used and whether it came to the end
/// of the calls. The maker of the buffer knows what it holds then.
pub fn record_and_let_go<F: Font>(
    line: u16,
    width: usize,
    calls: &[Call<'_>],
    buffer: &mut [u8],
) -> (usize, Result<(), Stopped>)
    ensures bytes { take result.0 buffer.new ≡ log_of line (first_calls (making_refused width (length buffer.old)) width ++ made (map call_of calls.now) result.1) }
    ensures rest_kept { drop result.0 buffer.new ≡ drop result.0 buffer.old }
    ensures row { log_row F.Font.columns (take result.0 buffer.new) ≡ apply_all F.Font.columns (made (map call_of calls.now) result.1) (blank_row (first_width (making_refused width (length buffer.old)) width)) }
{
    let mut recorder: Recorder<F> = Recorder::new(line, width, buffer);
    let recorded = perform_all(&mut recorder, calls);
    (recorder.bytes_so_far().len(), recorded)
}
