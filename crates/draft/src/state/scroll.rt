// Scrolling a draft, so that the cursor stays in sight.
ghost use Rattle.std.specs.Prelude.{◌≡◌};
ghost use Rattle.draft.specs.Draft.{draft_of};
ghost use Rattle.draft.specs.Edits.{clamping};

use super::{MARGIN, PromptState};
use font::Font;
use font::measure::columns_in;

impl PromptState {
    /// Scrolls the draft, with `room` columns for its text. The draft is measured once, and the sum is kept up to date:
    /// the work grows with the draft's length. That the offset is lowered to the place first, the type sees to.
    pub fn clamp_offset<F: Font>(&mut self, room: usize)
        ensures after { draft_of self.new ≡ clamping F.Font.columns room (draft_of self.old) }
    {
        let most = room.saturating_sub(MARGIN);
        let mut columns = self.cursor_position::<F>();
        let mut offset = self.offset;
        let text = self.as_slice();
        // Down while fewer columns than the margin show on the left of the cursor.
        for code in text[..offset].iter().rev() {
            if columns >= MARGIN {
                break;
            }
            columns += columns_in::<F>(*code);
            offset -= 1;
        }
        // Up while more than `most` columns show there.
        for code in &text[offset..self.position] {
            if columns <= most {
                break;
            }
            columns -= columns_in::<F>(*code);
            offset += 1;
        }
        self.offset = offset;
    }
}
