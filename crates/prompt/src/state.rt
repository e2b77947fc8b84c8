// A prompt: its label, and the drafts of its session.
ghost use Rattle.std.specs.Prelude.{◌≡◌, ◌≤◌, true, length};
ghost use Rattle.drawing.specs.Ascii.{printable};
ghost use Rattle.drawing.specs.Drawing.{longest_label};

use arrayvec::ArrayVec;
use drawing::draw::LONGEST_LABEL;
use history::store::PromptHistory;

// No model: a refused call leaves the whole prompt as it was, and a view of its drafts would forget what lies past their texts.
/// A prompt: a label of 1 to 32 characters of 20 to 7E, and the drafts of a session. It may be let go; `cancel` says so.
#[derive(Drop)]
pub struct Prompt {
    pub(crate) label: ArrayVec<u32, LONGEST_LABEL>,
    pub(crate) history: PromptHistory,
    ghost titled: { (1 ≤ length label.items) × (length label.items ≤ longest_label) × (printable label.items ≡ true) },
}
