// The draft in hand, edited in its place. Every other draft stays as it was.
ghost use Rattle.std.specs.Prelude.{◌≡◌, OnErr, OnOk};
ghost use Rattle.draft.specs.Edits.{clamping, unless_refused};
ghost use Rattle.history.specs.Session.{session_of, draft_in_hand, with_draft};
ghost use Rattle.prompt.specs.Edits.{editing, answer_to_edit, edit_refused};

use crate::keys::Edit;
use crate::perform::perform;
use draft::action::DisplayAction;
use font::Font;
use history::store::PromptHistory;
use text::refusal::Refusal;

/// Carries an edit out on the draft in hand.
#[tactic(auto, using(history::proofs::InHand::hand_edited))]
pub fn edit<F: Font>(
    history: &mut PromptHistory,
    edit: Edit,
    room: usize,
) -> Result<DisplayAction, Refusal>
    ensures answer_is { result ≡ unless_refused (edit_refused edit (draft_in_hand (session_of history.old))) (answer_to_edit F.Font.columns room edit (draft_in_hand (session_of history.old))) }
    ensures after { OnOk result (session_of history.new ≡ with_draft (editing F.Font.columns edit (draft_in_hand (session_of history.old))) (session_of history.old)) }
    ensures unchanged_if_refused { OnErr result (history.new ≡ history.old) }
{
    perform::<F>(history.state_mut(), edit, room)
}

/// Scrolls the draft in hand, with `room` columns for its text.
#[tactic(auto, using(history::proofs::InHand::hand_edited))]
pub fn scroll<F: Font>(history: &mut PromptHistory, room: usize)
    ensures after { session_of history.new ≡ with_draft (clamping F.Font.columns room (draft_in_hand (session_of history.old))) (session_of history.old) }
{
    history.state_mut().clamp_offset::<F>(room);
}
