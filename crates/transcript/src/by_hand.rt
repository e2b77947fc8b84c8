// One drawing made by hand, on both glasses.
ghost use Rattle.std.specs.Prelude.{◌≡◌, ◌∷◌, length, take, drop, IfOk, Some, None, MatchResult, OnErr};
ghost use Rattle.glass.specs.Calls.{GlassCall};
ghost use Rattle.glass.specs.Performed.{made};
ghost use Rattle.recorder.specs.Log.{log_of, making_refused};
ghost use Rattle.mirror.specs.Mirror.{Mirrors};
ghost use Rattle.transcript.specs.ByHand.{by_hand};

use font::Font;
use glass::PenChange;
use glass::calls::Call;
use mirror::{Mirrored, draw_both};
use text::refusal::Refusal;

/// The bytes that the drawing is recorded in.
pub const RECORD_BYTES: usize = 256;

/// The line of the screen that the record names.
const LINE: u16 = 24;

/// "Seat: "
const LABEL: [u32; 6] = [0x53, 0x65, 0x61, 0x74, 0x3A, 0x20];

/// A letter, the acute accent that joins it, a wide character, and a digit.
const SEAT: [u32; 4] = [0x65, 0x301, 0x5EA7, 0x37];

/// "<09>", as a label is shown: reversed.
const TAB: [u32; 4] = [0x3C, 0x30, 0x39, 0x3E];

/// Draws by hand on a cell row and a recorder of one width.
pub fn draw_by_hand<F: Font>(width: usize, buffer: &mut [u8]) -> Result<Mirrored<F>, Refusal>
    ensures refused_exactly { MatchResult result (λ _. making_refused width (length buffer.old) ≡ None) (λ e. making_refused width (length buffer.old) ≡ Some e) }
    ensures unchanged_if_refused { OnErr result (buffer.new ≡ buffer.old) }
    ensures same_row { IfOk result (λ m. Mirrors F.Font.columns width by_hand m buffer.new) }
    ensures bytes { IfOk result (λ m. take m.used buffer.new ≡ log_of 24 (GlassCall.reshape width ∷ made by_hand m.recorded)) }
    ensures rest_kept { IfOk result (λ m. drop m.used buffer.new ≡ drop m.used buffer.old) }
{
    let calls = [
        Call::Pen(PenChange::Prompt),
        Call::Place(0),
        Call::Text(&LABEL),
        Call::Text(&SEAT),
        Call::Pen(PenChange::ReverseOn),
        Call::Text(&TAB),
        Call::Pen(PenChange::Plain),
        Call::Clear,
        Call::Place(9),
    ];
    draw_both(LINE, width, &calls, buffer)
}
