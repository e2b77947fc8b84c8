// The drafts of a session, and which of them is in hand.
ghost use Rattle.std.specs.Prelude.{◌<◌, ◌≤◌};
ghost use Rattle.arrayvec.specs.ArrayVec.{array_vec_len};
ghost use Rattle.history.specs.Limits.{most_drafts};

use arrayvec::ArrayVec;
use draft::state::PromptState;

mod hand;
mod open;

/// The bytes of history that are read at most.
pub const LONGEST_HISTORY: usize = 65536;

/// The drafts that a session holds at most: 31 that are remembered, and a new one.
pub const MOST_DRAFTS: usize = 32;

// No model: a host reads its fields, and a view of the drafts would forget what lies past their texts.
/// The drafts of a session, of which one is in hand.
#[derive(Drop)]
pub struct PromptHistory {
    pub entries: ArrayVec<PromptState, MOST_DRAFTS>,
    pub active_index: usize,
    ghost one_in_hand: { active_index < array_vec_len entries },
    ghost few: { array_vec_len entries ≤ most_drafts },
}
