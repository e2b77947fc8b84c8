// The draft in hand: which it is, and what it holds.
ghost use Rattle.std.specs.Prelude.{◌≡◌, OnErr, OnOk, slice_index_or};
ghost use Rattle.std.specs.Borrow.{sem};
ghost use Rattle.draft.specs.Draft.{draft_of};
ghost use Rattle.history.specs.Session.{session_of, draft_in_hand, with_draft, going_back, answer_back, going_on, answer_on};
ghost use Rattle.text.specs.Utf8.{characters};
ghost use Rattle.draft.specs.Edits.{inserting, insertion_refused, pasting_refused, unless_refused};
ghost use Rattle.draft.specs.declared.action.DisplayAction.TheVariants.{Redraw};

use super::PromptHistory;
use draft::action::DisplayAction;
use draft::state::PromptState;
use text::refusal::Refusal;

impl PromptHistory {
    ghost use Rattle.history.specs.Lending.{lends_hand};

    /// The draft in hand.
    pub fn state(&self) -> &PromptState
        ensures value { draft_of result.now ≡ draft_in_hand (session_of self.now) }
        ensures entry_is { result.now ≡ slice_index_or self.now.entries.items self.now.active_index result.now }
    {
        &self.entries[self.active_index]
    }

    /// The draft in hand, to be edited in its place.
    pub fn state_mut(&mut self) -> &mut PromptState
        ensures* comes_back { sem 𝓛 (lends_hand self.entry result) }
        ensures value { draft_of result.now ≡ draft_in_hand (session_of self.old) }
        ensures entry_is { result.now ≡ slice_index_or self.old.entries.items self.old.active_index result.now }
    {
        let hand = self.active_index;
        self.entries.get_mut(hand).unwrap()
    }

    /// Takes the draft before in hand, if there is one.
    pub fn previous(&mut self) -> DisplayAction
        ensures after { session_of self.new ≡ going_back (session_of self.old) }
        ensures answer_is { result ≡ answer_back (session_of self.old) }
    {
        if self.active_index == 0 {
            return DisplayAction::Nothing;
        }
        self.active_index -= 1;
        DisplayAction::Redraw
    }

    /// Takes the draft after in hand, if there is one.
    pub fn next(&mut self) -> DisplayAction
        ensures after { session_of self.new ≡ going_on (session_of self.old) }
        ensures answer_is { result ≡ answer_on (session_of self.old) }
    {
        if self.active_index + 1 == self.entries.len() {
            return DisplayAction::Nothing;
        }
        self.active_index += 1;
        DisplayAction::Redraw
    }

    /// Inserts a text at the place of the draft in hand.
    #[tactic(auto, using(crate::proofs::InHand::hand_edited))]
    pub fn insert_str(&mut self, text: &[u32]) -> Result<DisplayAction, Refusal>
        ensures answer_is { result ≡ unless_refused (insertion_refused text.now (draft_in_hand (session_of self.old))) Redraw }
        ensures after { OnOk result (session_of self.new ≡ with_draft (inserting text.now (draft_in_hand (session_of self.old))) (session_of self.old)) }
        ensures unchanged_if_refused { OnErr result (self.new ≡ self.old) }
    {
        self.state_mut().insert_str(text)
    }

    /// Inserts the text that bytes spell at the place of the draft in hand.
    #[tactic(auto, using(crate::proofs::InHand::hand_edited))]
    pub fn insert_bytes(&mut self, bytes: &[u8]) -> Result<DisplayAction, Refusal>
        ensures answer_is { result ≡ unless_refused (pasting_refused bytes.now (draft_in_hand (session_of self.old))) Redraw }
        ensures after { OnOk result (session_of self.new ≡ with_draft (inserting (characters bytes.now) (draft_in_hand (session_of self.old))) (session_of self.old)) }
        ensures unchanged_if_refused { OnErr result (self.new ≡ self.old) }
    {
        self.state_mut().insert_bytes(bytes)
    }
}
