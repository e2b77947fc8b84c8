// Carries an edit out on a draft.
ghost use Rattle.std.specs.Prelude.{◌≡◌, OnErr, OnOk};
ghost use Rattle.draft.specs.Draft.{draft_of};
ghost use Rattle.draft.specs.Edits.{removing, moving, answer_by, unless_refused};
ghost use Rattle.prompt.specs.Edits.{removes_to, goes_to, editing, answer_to_motion, answer_to_edit, edit_refused};

use crate::keys::{Edit, Motion, Removal};
use draft::action::DisplayAction;
use draft::state::PromptState;
use font::Font;
use text::refusal::Refusal;

// Which edit it is comes as data, with a key: each match here names each case once.

fn remove(draft: &mut PromptState, removal: Removal) -> DisplayAction
    ensures after { draft_of draft.new ≡ removing (removes_to removal) (draft_of draft.old) }
    ensures answer_is { result ≡ answer_by (removes_to removal) (draft_of draft.old) }
{
    match removal {
        Removal::PrevChar => draft.delete_prev_char(),
        Removal::NextChar => draft.delete_next_char(),
        Removal::PrevWord => draft.delete_prev_word(),
        Removal::NextWord => draft.delete_next_word(),
        Removal::ToStart => draft.delete_to_start(),
        Removal::ToEnd => draft.delete_to_end(),
    }
}

fn go<F: Font>(draft: &mut PromptState, motion: Motion) -> DisplayAction
    ensures after { draft_of draft.new ≡ moving (goes_to F.Font.columns motion) (draft_of draft.old) }
    ensures answer_is { result ≡ answer_to_motion F.Font.columns motion (draft_of draft.old) }
{
    match motion {
        Motion::Left => draft.move_prev_char::<F>(),
        Motion::Right => draft.move_next_char::<F>(),
        Motion::PrevWord => draft.move_prev_word(),
        Motion::NextWord => draft.move_next_word(),
        Motion::Start => draft.move_to_start(),
        Motion::End => draft.move_to_end(),
    }
}

/// Carries an edit out, with `room` columns for the text.
pub fn perform<F: Font>(
    draft: &mut PromptState,
    edit: Edit,
    room: usize,
) -> Result<DisplayAction, Refusal>
    ensures answer_is { result ≡ unless_refused (edit_refused edit (draft_of draft.old)) (answer_to_edit F.Font.columns room edit (draft_of draft.old)) }
    ensures after { OnOk result (draft_of draft.new ≡ editing F.Font.columns edit (draft_of draft.old)) }
    ensures unchanged_if_refused { OnErr result (draft.new ≡ draft.old) }
{
    match edit {
        Edit::Insert(code) => draft.insert_char::<F>(code, room),
        Edit::Remove(removal) => Ok(remove(draft, removal)),
        Edit::Move(motion) => Ok(go::<F>(draft, motion)),
        Edit::Transpose => Ok(draft.transpose_chars()),
    }
}
