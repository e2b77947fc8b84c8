// What can be asked of a draft.
ghost use Rattle.std.specs.Prelude.{◌≡◌, ◌*◌, ◌≤◌, true, length};
ghost use Rattle.std.proofs.Math.Utf8.{scalars};
ghost use Rattle.font.specs.Labels.{text_columns, between};
ghost use Rattle.draft.specs.Line.{capacity};
ghost use Rattle.draft.specs.Draft.{draft_of, shown_text};
ghost use Rattle.draft.specs.Scroll.{shown_columns};

use super::PromptState;
use font::Font;
use font::measure::measured;

impl PromptState {
    /// The text.
    pub fn as_slice(&self) -> &[u32]
        ensures value { result.now ≡ (draft_of self.now).line.text }
        ensures bound { length result.now ≤ capacity }
        ensures scalar_values { scalars result.now ≡ true }
    {
        &self.value[..self.len]
    }

    /// The place of the cursor in the text.
    pub fn position(&self) -> usize
        ensures value { result ≡ (draft_of self.now).line.place }
        ensures bound { result ≤ length (draft_of self.now).line.text }
    {
        self.position
    }

    /// The number of characters that lie out of sight on the left.
    pub fn offset(&self) -> usize
        ensures value { result ≡ (draft_of self.now).offset }
        ensures bound { result ≤ (draft_of self.now).line.place }
    {
        self.offset
    }

    /// The characters from the offset on.
    pub fn shown(&self) -> &[u32]
        ensures value { result.now ≡ shown_text (draft_of self.now) }
    {
        &self.as_slice()[self.offset..]
    }

    /// The characters from the offset up to the place.
    fn before_cursor(&self) -> &[u32]
        ensures value { result.now ≡ between (draft_of self.now).offset (draft_of self.now).line.place (draft_of self.now).line.text }
        ensures bound { length result.now ≤ capacity }
    {
        &self.as_slice()[self.offset..self.position]
    }

    /// The columns from the offset up to the place.
    pub fn cursor_position<F: Font>(&self) -> usize
        ensures value { result ≡ shown_columns F.Font.columns (draft_of self.now).line (draft_of self.now).offset }
        ensures bound { result ≤ 10 * capacity }
    {
        measured::<F>(self.before_cursor())
    }
}
