// The calls of a session as values, and the replies to them.
use crate::keys::KeyEvent;
use draft::action::DisplayAction;
use text::refusal::Refusal;

pub mod run;

/// A call of a prompt, with its arguments but for the prompt and the glass.
#[derive(Clone, Copy)]
pub enum Call<'a> {
    Draw,
    Key(KeyEvent),
    Paste(&'a [u8]),
    Resize(usize),
}

/// What a call came to: what it answered, if it answers anything, or why it was refused.
pub type Reply = Result<Option<DisplayAction>, Refusal>;
