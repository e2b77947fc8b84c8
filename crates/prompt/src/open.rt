// A prompt opens with a label and the host's bytes of history.
ghost use Rattle.std.specs.Prelude.{◌≡◌, ◌≤◌, length, IfOk};
ghost use Rattle.drawing.specs.Ascii.{printable};
ghost use Rattle.drawing.specs.Drawing.{longest_label};
ghost use Rattle.prompt.specs.Opening.{opening_refused, refusal_in, opened_with};
ghost use Rattle.prompt.specs.Session.{session};

use crate::state::Prompt;
use arrayvec::ArrayVec;
use drawing::draw::LONGEST_LABEL;
use history::store::PromptHistory;
use text::refusal::Refusal;

/// Whether each of the bytes is a space or a visible character of ASCII.
fn is_printable(label: &[u8]) -> bool
    ensures value { result ≡ printable label.now }
{
    label.iter().all(|byte| matches!(byte, 0x20..=0x7E))
}

/// The label's characters.
fn characters_of(label: &[u8]) -> ArrayVec<u32, LONGEST_LABEL>
    requires short { length label.now ≤ longest_label }
    ensures value { result.items ≡ label.now }
{
    let mut characters = ArrayVec::new();
    for byte in label {
        characters.push(u32::from(*byte));
    }
    characters
}

impl Prompt {
    /// Opens a prompt: the drafts that the history gives, and an empty one, which is in hand. The label is 1 to 32 characters of 20
    /// to 7E.
    pub fn open(label: &[u8], history: &[u8]) -> Result<Prompt, Refusal>
        ensures refused_exactly { refusal_in result ≡ opening_refused label.now history.now }
        ensures newly_opened { IfOk result (λ p. session p ≡ opened_with label.now history.now) }
    {
        if label.is_empty() || label.len() > LONGEST_LABEL || !is_printable(label) {
            return Err(Refusal::BadLabel);
        }
        Ok(Prompt {
            history: PromptHistory::open(history)?,
            label: characters_of(label),
        })
    }
}
