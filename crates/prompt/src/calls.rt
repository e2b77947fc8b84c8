// Draw, key, paste and resize, over any glass.
ghost use Rattle.std.specs.Prelude.{◌≡◌, ◌+◌, ◌≤◌, length, OnErr, OnOk};
ghost use Rattle.draft.specs.Edits.{unless_refused};
ghost use Rattle.glass.specs.Row.{widest};
ghost use Rattle.glass.specs.Calls.{Allowed, Drew};
ghost use Rattle.glass.specs.Ties.{StaysTied};
ghost use Rattle.prompt.specs.Edits.{editing, answer_to_edit, edit_refused};
ghost use Rattle.prompt.specs.Made.{calls_made};
ghost use Rattle.prompt.specs.Requests.{Request, reply_of, answered_by};
ghost use Rattle.prompt.specs.Opening.{refusal_in};
ghost use Rattle.prompt.specs.Refused.{first_of, glass_reasons, operation_refused, beside_label, carries_scalar};
ghost use Rattle.prompt.specs.Session.{session, draft_in_hand, room, scrolled, drawn, with_draft, after_operation, action_of, calls_by, OneCall};

use crate::in_hand;
use crate::keys::{Edit, KeyCode, KeyEvent, Operation, operation_of};
use crate::state::Prompt;
use draft::action::DisplayAction;
use drawing::{draw, sure};
use font::Font;
use glass::calls::Call;
use glass::{Glass, WIDEST};
use text::refusal::Refusal;
use text::scalar::is_scalar;

mod pasting;

/// The columns that a row needs beside the label: two spaces before it, two after, and five for the text.
const BESIDE_LABEL: usize = 9;

/// What a glass must have to spare, so that no drawing is refused half way.
const LEAST_SPARE: usize = 1300;

/// Whether the character of a character key is one. The other keys carry none.
fn carries_scalar(key: KeyCode) -> bool
    ensures value { result ≡ carries_scalar key }
{
    match key {
        KeyCode::Char(code) => is_scalar(code),
        _ => true,
    }
}

impl Prompt {
    /// Whether a width has room for the label and the text, and a glass enough to spare for a drawing.
    fn ready<G: Glass>(&self, glass: &G, width: usize) -> Result<(), Refusal>
        ensures refused_exactly { refusal_in result ≡ first_of (glass_reasons (length (session self.now).label) width (G.Glass.spare glass.now)) }
    {
        if width < self.label.len() + BESIDE_LABEL || width > WIDEST {
            return Err(Refusal::OutsideGlass);
        }
        if glass.spare_left() < LEAST_SPARE {
            return Err(Refusal::LowSpare);
        }
        Ok(())
    }

    /// The whole drawing of the draft in hand.
    fn render<G: Glass>(&self, glass: &mut G, width: usize)
        requires inside { (length (session self.now).label + beside_label ≤ width) × (width ≤ widest) }
        requires allowed { Allowed G.Font.Font.columns (drawn G.Font.Font.columns width (session self.now)) (G.Glass.row glass.old) (G.Glass.spare glass.old) }
        ensures drew { Drew G.Font.Font.columns G.Glass.row G.Glass.spare (drawn G.Font.Font.columns width (session self.now)) glass.old glass.new }
        ensures keeps { StaysTied (drawn G.Font.Font.columns width (session self.now)) (G.Glass.tied glass.old) (G.Glass.tied glass.new) }
    {
        let draft = self.history.state();
        let cursor = (self.label.len() + 4 + draft.cursor_position::<G::Font>()).min(width - 1);
        draw::draw(glass, self.label.as_slice(), draft.shown(), cursor, width);
    }

    /// The columns that a width has for the text.
    fn room(&self, width: usize) -> usize
        ensures value { result ≡ room width (session self.now) }
    {
        width.saturating_sub(self.label.len() + 4)
    }

    /// Scrolls the draft in hand for a width.
    fn scroll<F: Font>(&mut self, width: usize)
        ensures after { session self.new ≡ scrolled F.Font.columns width (session self.old) }
    {
        let room = self.room(width);
        in_hand::scroll::<F>(&mut self.history, room);
    }

    /// Draws the draft in hand.
    pub fn draw<G: Glass>(&self, glass: &mut G) -> Result<(), Refusal>
        ensures one_call { OneCall G.Font.Font.columns G.Glass.row G.Glass.spare Request.draw self.now glass.old (reply_of result) self.now glass.new }
        ensures drew { Drew G.Font.Font.columns G.Glass.row G.Glass.spare (calls_made G.Font.Font.columns G.Glass.row G.Glass.spare Request.draw self.now glass.old) glass.old glass.new }
        ensures keeps { StaysTied (calls_made G.Font.Font.columns G.Glass.row G.Glass.spare Request.draw self.now glass.old) (G.Glass.tied glass.old) (G.Glass.tied glass.new) }
    {
        let width = glass.width();
        self.ready(glass, width)?;
        self.render(glass, width);
        Ok(())
    }

    /// Gives the glass a new width, scrolls the draft in hand for it, and draws.
    pub fn resize<G: Glass>(&mut self, glass: &mut G, width: usize) -> Result<(), Refusal>
        ensures one_call { OneCall G.Font.Font.columns G.Glass.row G.Glass.spare (Request.resize width) self.old glass.old (reply_of result) self.new glass.new }
        ensures drew { Drew G.Font.Font.columns G.Glass.row G.Glass.spare (calls_made G.Font.Font.columns G.Glass.row G.Glass.spare (Request.resize width) self.old glass.old) glass.old glass.new }
        ensures keeps { StaysTied (calls_made G.Font.Font.columns G.Glass.row G.Glass.spare (Request.resize width) self.old glass.old) (G.Glass.tied glass.old) (G.Glass.tied glass.new) }
    {
        self.ready(glass, width)?;
        sure::perform(glass, Call::Reshape(width));
        self.scroll::<G::Font>(width);
        self.render(glass, width);
        Ok(())
    }

    /// An edit of the draft in hand, which is scrolled then.
    fn edit<F: Font>(&mut self, edit: Edit, width: usize) -> Result<DisplayAction, Refusal>
        ensures answer_is { result ≡ unless_refused (edit_refused edit (draft_in_hand (session self.old))) (answer_to_edit F.Font.columns (room width (session self.old)) edit (draft_in_hand (session self.old))) }
        ensures after { OnOk result (session self.new ≡ scrolled F.Font.columns width (with_draft (editing F.Font.columns edit (draft_in_hand (session self.old))) (session self.old))) }
        ensures unchanged_if_refused { OnErr result (self.new ≡ self.old) }
    {
        let room = self.room(width);
        let action = in_hand::edit::<F>(&mut self.history, edit, room)?;
        self.scroll::<F>(width);
        Ok(action)
    }

    /// What a key asks for, carried out. All but Finish, Cancel and what is ignored is followed by scrolling.
    fn dispatch_key<F: Font>(
        &mut self,
        operation: Operation,
        width: usize,
    ) -> Result<DisplayAction, Refusal>
        ensures answer_is { result ≡ unless_refused (operation_refused operation (draft_in_hand (session self.old))) (action_of F.Font.columns width operation (session self.old)) }
        ensures after { OnOk result (session self.new ≡ after_operation F.Font.columns width operation (session self.old)) }
        ensures unchanged_if_refused { OnErr result (self.new ≡ self.old) }
    {
        // Which operation it is comes as data, with a key.
        match operation {
            Operation::Finish => Ok(DisplayAction::Finish),
            Operation::Cancel => Ok(DisplayAction::Cancel),
            Operation::Ignore => Ok(DisplayAction::Nothing),
            Operation::Edit(edit) => self.edit::<F>(edit, width),
            Operation::Previous => {
                let action = self.history.previous();
                self.scroll::<F>(width);
                Ok(action)
            }
            Operation::Next => {
                let action = self.history.next();
                self.scroll::<F>(width);
                Ok(action)
            }
        }
    }

    /// Shows what a key left: a letter goes out alone, and a redraw draws all.
    fn show<G: Glass>(
        &self,
        glass: &mut G,
        action: DisplayAction,
        operation: Operation,
        width: usize,
    )
        requires inside { (length (session self.now).label + beside_label ≤ width) × (width ≤ widest) }
        requires allowed { Allowed G.Font.Font.columns (calls_by action operation (drawn G.Font.Font.columns width (session self.now))) (G.Glass.row glass.old) (G.Glass.spare glass.old) }
        ensures drew { Drew G.Font.Font.columns G.Glass.row G.Glass.spare (calls_by action operation (drawn G.Font.Font.columns width (session self.now))) glass.old glass.new }
        ensures keeps { StaysTied (calls_by action operation (drawn G.Font.Font.columns width (session self.now))) (G.Glass.tied glass.old) (G.Glass.tied glass.new) }
    {
        // What is to be shown comes as data, from the draft.
        match (action, operation) {
            (DisplayAction::Letter, Operation::Edit(Edit::Insert(code))) => {
                sure::perform(glass, Call::Text(&[code]));
            }
            (DisplayAction::Redraw, _) => self.render(glass, width),
            _ => {}
        }
    }

    /// Does what a key asks for, and shows it.
    pub fn key<G: Glass>(
        &mut self,
        glass: &mut G,
        event: KeyEvent,
    ) -> Result<DisplayAction, Refusal>
        ensures one_call { OneCall G.Font.Font.columns G.Glass.row G.Glass.spare (Request.key event) self.old glass.old (answered_by result) self.new glass.new }
        ensures drew { Drew G.Font.Font.columns G.Glass.row G.Glass.spare (calls_made G.Font.Font.columns G.Glass.row G.Glass.spare (Request.key event) self.old glass.old) glass.old glass.new }
        ensures keeps { StaysTied (calls_made G.Font.Font.columns G.Glass.row G.Glass.spare (Request.key event) self.old glass.old) (G.Glass.tied glass.old) (G.Glass.tied glass.new) }
    {
        let width = glass.width();
        self.ready(glass, width)?;
        if !carries_scalar(event.key) {
            return Err(Refusal::NotScalar);
        }
        let operation = operation_of(event);
        let action = self.dispatch_key::<G::Font>(operation, width)?;
        self.show(glass, action, operation, width);
        Ok(action)
    }
}
