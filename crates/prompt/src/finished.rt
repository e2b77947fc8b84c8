// A finished prompt leaves its text.
use draft::state::PromptState;

mod uses;

/// The text of a prompt that was finished. History may be written from it any number of times; a jump uses it up.
#[derive(Drop)]
pub struct FinishedText {
    draft: PromptState,
}
