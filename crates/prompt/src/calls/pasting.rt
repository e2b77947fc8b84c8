// Paste, over any glass.
ghost use Rattle.std.specs.Prelude.{◌≡◌, ◌+◌, ◌≤◌, OnErr, OnOk};
ghost use Rattle.text.specs.Utf8.{characters};
ghost use Rattle.draft.specs.declared.action.DisplayAction.TheVariants.{Redraw};
ghost use Rattle.draft.specs.Edits.{inserting, pasting_refused, unless_refused};
ghost use Rattle.glass.specs.Calls.{Drew};
ghost use Rattle.glass.specs.Ties.{StaysTied};
ghost use Rattle.prompt.specs.Made.{calls_made};
ghost use Rattle.prompt.specs.Requests.{Request, answered_by};
ghost use Rattle.prompt.specs.Refused.{beside_label};
ghost use Rattle.prompt.specs.Session.{session, draft_in_hand, scrolled, with_draft, OneCall};

use crate::state::Prompt;
use draft::action::DisplayAction;
use font::Font;
use glass::Glass;
use text::refusal::Refusal;

impl Prompt {
    /// Inserts the text that bytes spell in the draft in hand, which is scrolled then.
    fn insert<F: Font>(&mut self, bytes: &[u8], width: usize) -> Result<DisplayAction, Refusal>
        ensures answer_is { result ≡ unless_refused (pasting_refused bytes.now (draft_in_hand (session self.old))) Redraw }
        ensures after { OnOk result (session self.new ≡ scrolled F.Font.columns width (with_draft (inserting (characters bytes.now) (draft_in_hand (session self.old))) (session self.old))) }
        ensures unchanged_if_refused { OnErr result (self.new ≡ self.old) }
    {
        let action = self.history.insert_bytes(bytes)?;
        self.scroll::<F>(width);
        Ok(action)
    }

    /// Inserts the text that bytes spell, and shows it.
    pub fn paste<G: Glass>(&mut self, glass: &mut G, bytes: &[u8]) -> Result<DisplayAction, Refusal>
        ensures one_call { OneCall G.Font.Font.columns G.Glass.row G.Glass.spare (Request.paste bytes.now) self.old glass.old (answered_by result) self.new glass.new }
        ensures drew { Drew G.Font.Font.columns G.Glass.row G.Glass.spare (calls_made G.Font.Font.columns G.Glass.row G.Glass.spare (Request.paste bytes.now) self.old glass.old) glass.old glass.new }
        ensures keeps { StaysTied (calls_made G.Font.Font.columns G.Glass.row G.Glass.spare (Request.paste bytes.now) self.old glass.old) (G.Glass.tied glass.old) (G.Glass.tied glass.new) }
    {
        let width = glass.width();
        self.ready(glass, width)?;
        let action = self.insert::<G::Font>(bytes, width)?;
        self.render(glass, width);
        Ok(action)
    }
}
