// A session begins with the drafts of the last lines of history.
ghost use Rattle.std.specs.Prelude.{◌≡◌, ◌<◌, true, [], map};
ghost use Rattle.arrayvec.specs.ArrayVec.{array_vec_len};
ghost use Rattle.draft.specs.Draft.{draft_of};
ghost use Rattle.history.specs.Limits.{most_drafts};
ghost use Rattle.history.specs.Readable.{loaded, readable};
ghost use Rattle.history.specs.Session.{remembered, remembered_texts, open_answer, told};

use super::{LONGEST_HISTORY, MOST_DRAFTS, PromptHistory};
use crate::readable::{ReadableLines, last_lines, load};
use arrayvec::ArrayVec;
use draft::state::PromptState;
use text::refusal::Refusal;

/// The lines of history that become drafts at most.
const MOST_REMEMBERED: usize = 31;

/// The draft of a readable line.
fn remembered_draft(line: &[u8]) -> PromptState
    requires is_readable { readable line.now ≡ true }
    ensures value { draft_of result ≡ remembered (loaded line.now) }
{
    let mut draft = PromptState::new();
    if let Some(text) = load(line) {
        let _ = draft.insert_str(text.as_slice());
    }
    draft
}

/// Fills an empty vector with the drafts of the last readable lines.
// Lent, and not handed out: its 33 KB would be moved once more.
#[tactic(auto, using(crate::proofs::Remaining::first_is_readable))]
fn remember(history: &[u8], drafts: &mut ArrayVec<PromptState, MOST_DRAFTS>)
    requires none_yet { drafts.old.items ≡ [] }
    ensures drafts_are { map draft_of drafts.new.items ≡ map remembered (remembered_texts history.now) }
    ensures few { array_vec_len drafts.new < most_drafts }
{
    for line in ReadableLines::new(last_lines(history, MOST_REMEMBERED)) {
        drafts.push(remembered_draft(line));
    }
}

impl PromptHistory {
    /// Begins a session with the host's bytes of history.
    pub fn open(history: &[u8]) -> Result<PromptHistory, Refusal>
        ensures value { told result ≡ open_answer history.now }
    {
        if history.len() > LONGEST_HISTORY {
            return Err(Refusal::HistoryTooLong);
        }
        let mut entries = ArrayVec::new();
        remember(history, &mut entries);
        let active_index = entries.len();
        entries.push(PromptState::new());
        Ok(PromptHistory {
            entries,
            active_index,
        })
    }
}
