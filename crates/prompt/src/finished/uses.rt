// What a finished text is for: history writing, and one jump.
ghost use Rattle.std.specs.Prelude.{◌≡◌, length};
ghost use Rattle.history.specs.Writing.{write_answer, written, buffer_after};
ghost use Rattle.jump.specs.Goto.{goes_to};
ghost use Rattle.prompt.specs.Finished.{finished_text};
ghost use Rattle.prompt.specs.Session.{session, draft_in_hand};

use super::FinishedText;
use crate::state::Prompt;
use history::writing::write;
use jump::goto::{Jump, goto};
use text::refusal::Refusal;

impl Prompt {
    /// Ends the prompt, and gives the text of the draft in hand.
    pub fn finish(self) -> FinishedText
        ensures text_in_hand { finished_text result ≡ (draft_in_hand (session self)).line.text }
    {
        let draft = *self.history.state();
        FinishedText { draft }
    }

    /// Ends the prompt.
    pub fn cancel(self) {}
}

impl FinishedText {
    /// The text.
    pub fn as_slice(&self) -> &[u32]
        ensures value { result.now ≡ finished_text self.now }
    {
        self.draft.as_slice()
    }

    /// Writes the host's history anew to the front of `out`: the last readable lines as they stood, and this text.
    pub fn write_history(&self, history: &[u8], out: &mut [u8]) -> Result<Option<usize>, Refusal>
        ensures answer_is { result ≡ write_answer (finished_text self.now) history.now (length out.old) }
        ensures after { out.new ≡ buffer_after result (written (finished_text self.now) history.now) out.old }
    {
        write(&self.draft, history, out)
    }

    /// Where the text goes in a listing of so many lines. The text is used up, also where the jump is refused.
    pub fn jump(self, lines: u64) -> Result<Jump, Refusal>
        ensures value { result ≡ goes_to (finished_text self) lines }
    {
        goto(self.as_slice(), lines)
    }
}
