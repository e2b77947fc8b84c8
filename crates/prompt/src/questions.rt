// What a host may ask of a prompt.
ghost use Rattle.std.specs.Prelude.{◌≡◌};
ghost use Rattle.draft.specs.Draft.{draft_of};
ghost use Rattle.prompt.specs.Session.{session, draft_in_hand};

use crate::state::Prompt;
use draft::state::PromptState;

impl Prompt {
    /// The draft in hand.
    pub fn state(&self) -> &PromptState
        ensures value { draft_of result.now ≡ draft_in_hand (session self.now) }
    {
        self.history.state()
    }
}
