// The edits of a draft. Each makes a line from the line before, and lowers the offset to the place where that lies below it.
ghost use Rattle.std.specs.Prelude.{◌≡◌, ◌≤◌, [], ◌∷◌, OnErr, OnOk};
ghost use Rattle.text.specs.Utf8.{characters};
ghost use Rattle.draft.specs.declared.action.DisplayAction.TheVariants.{Redraw};
ghost use Rattle.draft.specs.Line.{empty_line, prev_char, next_char, prev_word, next_word, line_start, line_end, left_of, right_of};
ghost use Rattle.draft.specs.Draft.{draft, draft_of};
ghost use Rattle.draft.specs.Edits.{inserting, removing, moving, swapping, answer_by, answer_to_swap, answer_to_character, insertion_refused, pasting_refused, unless_refused};

use super::{CAPACITY, MARGIN, PromptState};
use crate::action::DisplayAction;
use crate::words::{move_word_backwards, move_word_forwards};
use font::Font;
use font::measure::{has_label, is_mark};
use text::gap::{close_gap, open_gap};
use text::refusal::Refusal;
use text::scalar::all_scalars;
use text::utf8;
use text::walks::{back_past, on_past};

impl PromptState {
    /// An empty draft.
    pub fn new() -> PromptState
        ensures value { draft_of result ≡ draft empty_line 0 }
    {
        PromptState {
            value: [0; CAPACITY],
            len: 0,
            offset: 0,
            position: 0,
        }
    }

    /// Characters come in at the place, which moves past them.
    fn insert(&mut self, chars: &[u32]) -> Result<(), Refusal>
        ensures answer_is { result ≡ unless_refused (insertion_refused chars.now (draft_of self.old)) tt }
        ensures after { OnOk result (draft_of self.new ≡ inserting chars.now (draft_of self.old)) }
        ensures unchanged_if_refused { OnErr result (self.new ≡ self.old) }
    {
        if !all_scalars(chars) {
            return Err(Refusal::NotScalar);
        }
        let len = self.len;
        let count = chars.len();
        if count > CAPACITY - len {
            return Err(Refusal::DraftFull);
        }
        let at = self.position;
        open_gap(&mut self.value, len, at, count).unwrap();
        self.value[at..at + count].copy_from_slice(chars);
        self.len = len + count;
        self.position = at + count;
        Ok(())
    }

    /// The characters between the place and `reach` go.
    fn remove_to(&mut self, reach: usize) -> DisplayAction
        requires within { reach ≤ self.old.len }
        ensures after { draft_of self.new ≡ removing (λ _. reach) (draft_of self.old) }
        ensures answer_is { result ≡ answer_by (λ _. reach) (draft_of self.old) }
    {
        if reach == self.position {
            return DisplayAction::Nothing;
        }
        let len = self.len;
        let from = self.position.min(reach);
        let count = self.position.max(reach) - from;
        close_gap(&mut self.value, len, from, count).unwrap();
        self.len = len - count;
        self.offset = self.offset.min(from);
        self.position = from;
        DisplayAction::Redraw
    }

    /// The place moves to `reach`.
    fn move_to(&mut self, reach: usize) -> DisplayAction
        requires within { reach ≤ self.old.len }
        ensures after { draft_of self.new ≡ moving (λ _. reach) (draft_of self.old) }
        ensures answer_is { result ≡ answer_by (λ _. reach) (draft_of self.old) }
    {
        if reach == self.position {
            return DisplayAction::Nothing;
        }
        self.offset = self.offset.min(reach);
        self.position = reach;
        DisplayAction::Redraw
    }

    /// Inserts a character at the place, with `room` columns for the text. It goes out alone if it was typed at the end and
    /// has no label, and if more columns than the margin are left on its right.
    pub fn insert_char<F: Font>(&mut self, code: u32, room: usize) -> Result<DisplayAction, Refusal>
        ensures answer_is { result ≡ unless_refused (insertion_refused (code ∷ []) (draft_of self.old)) (answer_to_character F.Font.columns room code (draft_of self.old)) }
        ensures after { OnOk result (draft_of self.new ≡ inserting (code ∷ []) (draft_of self.old)) }
        ensures unchanged_if_refused { OnErr result (self.new ≡ self.old) }
    {
        let at_end = self.position == self.len;
        self.insert(&[code])?;
        let free = room.saturating_sub(MARGIN);
        if !has_label::<F>(code) && at_end && self.cursor_position::<F>() < free {
            Ok(DisplayAction::Letter)
        } else {
            Ok(DisplayAction::Redraw)
        }
    }

    /// Inserts a text at the place.
    pub fn insert_str(&mut self, text: &[u32]) -> Result<DisplayAction, Refusal>
        ensures answer_is { result ≡ unless_refused (insertion_refused text.now (draft_of self.old)) Redraw }
        ensures after { OnOk result (draft_of self.new ≡ inserting text.now (draft_of self.old)) }
        ensures unchanged_if_refused { OnErr result (self.new ≡ self.old) }
    {
        self.insert(text)?;
        Ok(DisplayAction::Redraw)
    }

    /// Inserts the text that bytes spell at the place.
    pub fn insert_bytes(&mut self, bytes: &[u8]) -> Result<DisplayAction, Refusal>
        ensures answer_is { result ≡ unless_refused (pasting_refused bytes.now (draft_of self.old)) Redraw }
        ensures after { OnOk result (draft_of self.new ≡ inserting (characters bytes.now) (draft_of self.old)) }
        ensures unchanged_if_refused { OnErr result (self.new ≡ self.old) }
    {
        let mut text = [0; CAPACITY];
        let count = utf8::decode(bytes, &mut text)?;
        let text = text.get(..count).ok_or(Refusal::DraftFull)?;
        self.insert_str(text)
    }

    // The removals and the motions below go by the original's names. Each is a line over `remove_to` or `move_to`.

    /// Deletes the character before the place.
    pub fn delete_prev_char(&mut self) -> DisplayAction
        ensures after { draft_of self.new ≡ removing prev_char (draft_of self.old) }
        ensures answer_is { result ≡ answer_by prev_char (draft_of self.old) }
    {
        self.remove_to(self.position.saturating_sub(1))
    }

    /// Deletes the character at the place.
    pub fn delete_next_char(&mut self) -> DisplayAction
        ensures after { draft_of self.new ≡ removing next_char (draft_of self.old) }
        ensures answer_is { result ≡ answer_by next_char (draft_of self.old) }
    {
        self.remove_to((self.position + 1).min(self.len))
    }

    /// Deletes back to the word start.
    pub fn delete_prev_word(&mut self) -> DisplayAction
        ensures after { draft_of self.new ≡ removing prev_word (draft_of self.old) }
        ensures answer_is { result ≡ answer_by prev_word (draft_of self.old) }
    {
        let start = move_word_backwards(self.as_slice(), self.position);
        self.remove_to(start)
    }

    /// Deletes on to the word end.
    pub fn delete_next_word(&mut self) -> DisplayAction
        ensures after { draft_of self.new ≡ removing next_word (draft_of self.old) }
        ensures answer_is { result ≡ answer_by next_word (draft_of self.old) }
    {
        let end = move_word_forwards(self.as_slice(), self.position);
        self.remove_to(end)
    }

    /// Moves right one character.
    pub fn move_next_char<F: Font>(&mut self) -> DisplayAction
        ensures after { draft_of self.new ≡ moving (right_of F.Font.columns) (draft_of self.old) }
        ensures answer_is { result ≡ answer_by (right_of F.Font.columns) (draft_of self.old) }
    {
        if self.position == self.len {
            return DisplayAction::Nothing;
        }
        let next = on_past(self.as_slice(), self.position + 1, |c| is_mark::<F>(c));
        self.move_to(next)
    }

    /// Moves left one character.
    pub fn move_prev_char<F: Font>(&mut self) -> DisplayAction
        ensures after { draft_of self.new ≡ moving (left_of F.Font.columns) (draft_of self.old) }
        ensures answer_is { result ≡ answer_by (left_of F.Font.columns) (draft_of self.old) }
    {
        let prev = back_past(self.as_slice(), self.position, |c| is_mark::<F>(c)).saturating_sub(1);
        self.move_to(prev)
    }

    /// Moves right one word.
    pub fn move_next_word(&mut self) -> DisplayAction
        ensures after { draft_of self.new ≡ moving next_word (draft_of self.old) }
        ensures answer_is { result ≡ answer_by next_word (draft_of self.old) }
    {
        let end = move_word_forwards(self.as_slice(), self.position);
        self.move_to(end)
    }

    /// Moves left one word.
    pub fn move_prev_word(&mut self) -> DisplayAction
        ensures after { draft_of self.new ≡ moving prev_word (draft_of self.old) }
        ensures answer_is { result ≡ answer_by prev_word (draft_of self.old) }
    {
        let start = move_word_backwards(self.as_slice(), self.position);
        self.move_to(start)
    }

    /// Deletes to the end of the line.
    pub fn delete_to_end(&mut self) -> DisplayAction
        ensures after { draft_of self.new ≡ removing line_end (draft_of self.old) }
        ensures answer_is { result ≡ answer_by line_end (draft_of self.old) }
    {
        self.remove_to(self.len)
    }

    /// Deletes to the start of the line.
    pub fn delete_to_start(&mut self) -> DisplayAction
        ensures after { draft_of self.new ≡ removing line_start (draft_of self.old) }
        ensures answer_is { result ≡ answer_by line_start (draft_of self.old) }
    {
        self.remove_to(0)
    }

    /// Moves to the end of the line.
    pub fn move_to_end(&mut self) -> DisplayAction
        ensures after { draft_of self.new ≡ moving line_end (draft_of self.old) }
        ensures answer_is { result ≡ Redraw }
    {
        self.move_to(self.len);
        DisplayAction::Redraw
    }

    /// Moves to the start of the line.
    pub fn move_to_start(&mut self) -> DisplayAction
        ensures after { draft_of self.new ≡ moving line_start (draft_of self.old) }
        ensures answer_is { result ≡ Redraw }
    {
        self.move_to(0);
        DisplayAction::Redraw
    }

    /// The place goes on by one, unless it is at the end, and the two characters before it change places.
    pub fn transpose_chars(&mut self) -> DisplayAction
        ensures after { draft_of self.new ≡ swapping (draft_of self.old) }
        ensures answer_is { result ≡ answer_to_swap (draft_of self.old) }
    {
        if self.position == 0 || self.len < 2 {
            return DisplayAction::Nothing;
        }
        let place = (self.position + 1).min(self.len);
        self.value.swap(place - 2, place - 1);
        self.position = place;
        DisplayAction::Redraw
    }
}

impl Default for PromptState {
    ghost is_default = { λ s. draft_of s ≡ draft empty_line 0 };

    fn default() -> PromptState {
        PromptState::new()
    }
}
