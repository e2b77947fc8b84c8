// How a script writes keys.
use prompt::keys::{KeyCode, KeyEvent, Modifiers};
use transcript::fault::Fault;
use transcript::reading::typed_code;

// A function, and no `FromStr`: the code is the prompt's type.
fn named(name: &str) -> Option<KeyCode> {
    match name {
        "Enter" => Some(KeyCode::Enter),
        "Escape" => Some(KeyCode::Escape),
        "Backspace" => Some(KeyCode::Backspace),
        "Delete" => Some(KeyCode::Delete),
        "Left" => Some(KeyCode::Left),
        "Right" => Some(KeyCode::Right),
        "Up" => Some(KeyCode::Up),
        "Down" => Some(KeyCode::Down),
        "Home" => Some(KeyCode::Home),
        "End" => Some(KeyCode::End),
        "F1" => Some(KeyCode::Other),
        _ => None,
    }
}

/// What is held, and the word after its mark: `^` for Ctrl, `M-` for Alt. A `^` alone is itself.
fn held(word: &str) -> (Modifiers, &str) {
    let ctrl = word.strip_prefix('^').filter(|rest| !rest.is_empty());
    match (ctrl, word.strip_prefix("M-")) {
        (Some(rest), _) => (Modifiers::Ctrl, rest),
        (None, Some(rest)) => (Modifiers::Alt, rest),
        (None, None) => (Modifiers::None, word),
    }
}

/// A letter that is written large after `^` is held small, as terminals do.
fn as_held(modifiers: Modifiers, code: u32) -> u32 {
    match (modifiers, code) {
        (Modifiers::Ctrl, 0x41..=0x5A) => code + 0x20,
        _ => code,
    }
}

// A function, and no `FromStr`: the key is the prompt's type.

/// The key that a word stands for.
pub fn key_of(word: &str) -> Result<KeyEvent, Fault> {
    let (modifiers, name) = held(word);
    let key = match named(name) {
        Some(key) => key,
        None => KeyCode::Char(as_held(modifiers, typed_code(name)?)),
    };
    Ok(KeyEvent { key, modifiers })
}
