// Edits a draft by a line of keys, under the foyer font, and prints it after each key.
use draft::action::DisplayAction;
use draft::state::PromptState;
use font::foyer::FoyerFont;
use std::{fmt, io};
use transcript::fault::{CallError, Fault};
use transcript::reading::{first_word, typed_code, width};
use transcript::showing::Readable;

/// The columns before the text: two spaces, the label "Go to line:", and two more.
const TEXT_START: usize = 15;

/// Takes a removal out, if the key asks for one.
fn remove(draft: &mut PromptState, key: &str) -> Option<DisplayAction> {
    match key {
        "Backspace" | "^H" => Some(draft.delete_prev_char()),
        "Delete" | "^D" => Some(draft.delete_next_char()),
        "^W" | "M-Backspace" => Some(draft.delete_prev_word()),
        "M-d" => Some(draft.delete_next_word()),
        "^K" => Some(draft.delete_to_end()),
        "^U" => Some(draft.delete_to_start()),
        "^T" => Some(draft.transpose_chars()),
        _ => None,
    }
}

/// Moves the place, if the key asks for it.
fn go(draft: &mut PromptState, key: &str) -> Option<DisplayAction> {
    match key {
        "Left" | "^B" => Some(draft.move_prev_char::<FoyerFont>()),
        "Right" | "^F" => Some(draft.move_next_char::<FoyerFont>()),
        "^Left" | "M-b" => Some(draft.move_prev_word()),
        "^Right" | "M-f" => Some(draft.move_next_word()),
        "Home" | "^A" => Some(draft.move_to_start()),
        "End" | "^E" => Some(draft.move_to_end()),
        _ => None,
    }
}

/// Types the character of a key, in `room` columns for the text.
fn insert(draft: &mut PromptState, key: &str, room: usize) -> Result<DisplayAction, Fault> {
    Ok(draft.insert_char::<FoyerFont>(typed_code(key)?, room)?)
}

/// What a key does to the draft, with `room` columns for its text.
pub fn press(draft: &mut PromptState, key: &str, room: usize) -> Result<DisplayAction, Fault> {
    let action = remove(draft, key).or_else(|| go(draft, key));
    action.map_or_else(|| insert(draft, key, room), Ok)
}

/// A draft as a person reads it: its text, its place and offset, and the column of the cursor.
#[derive(Drop)]
pub struct Shown<'a>(pub &'a PromptState);

impl fmt::Display for Shown<'_> {
    fn fmt<W: fmt::Write>(&self, f: &mut fmt::Formatter<W>) -> fmt::Result {
        let text = Readable::<FoyerFont>::new(self.0.as_slice());
        let place = self.0.position();
        let offset = self.0.offset();
        let column = TEXT_START.saturating_add(self.0.cursor_position::<FoyerFont>());
        write!(
            f,
            "[{text}] place {place}, offset {offset}, column {column}"
        )
    }
}

/// Prints what a key came to, and the draft that it left.
pub fn print_pressed(
    rt: &impl Print,
    draft: &PromptState,
    answer: Result<DisplayAction, Fault>,
) -> io::Result<()> {
    match answer {
        Ok(action) => println!(rt; "{action:?} {}", Shown(draft)),
        Err(fault) => println!(rt; "{fault}"),
    }
}

/// Presses keys one after another on an empty draft, and prints what each left: the width of the row comes first.
pub fn edit(rt: &impl Print, rest: &str) -> Result<(), CallError> {
    let (columns, keys) = first_word(rest);
    let room = width(columns)?.saturating_sub(TEXT_START);
    println!(rt; "an empty draft")?;
    let mut draft = PromptState::new();
    for key in keys.split_whitespace() {
        print!(rt; "  {key} => ")?;
        let answer = press(&mut draft, key, room);
        draft.clamp_offset::<FoyerFont>(room);
        print_pressed(rt, &draft, answer)?;
    }
    Ok(())
}
