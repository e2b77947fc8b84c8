// Reads a history, shows its drafts, edits them by a line of keys, and shows the history that would be written.
use crate::editing::{Shown, press, print_pressed};
use draft::action::DisplayAction;
use font::foyer::FoyerFont;
use history::store::PromptHistory;
use history::writing::write;
use std::alloc::AllocGlobal;
use std::rt::Files;
use std::{fs, io};
use transcript::fault::{CallError, Fault};
use transcript::outcomes::{WRITTEN_BYTES, print_written};
use transcript::reading::first_word;

/// The columns for the text on a row of 40, which the drafts are edited on.
const ROOM: usize = 25;

fn print_drafts(rt: &impl Print, history: &PromptHistory) -> io::Result<()> {
    let count = history.entries.len();
    println!(rt; "{count} drafts")?;
    for draft in &history.entries {
        println!(rt; "  {}", Shown(draft))?;
    }
    Ok(())
}

/// Takes another draft in hand, or presses a key on the one in hand, and scrolls the draft that is in hand then.
fn press_on(history: &mut PromptHistory, key: &str) -> Result<DisplayAction, Fault> {
    let answer = match key {
        "Up" | "^P" => Ok(history.previous()),
        "Down" | "^N" => Ok(history.next()),
        _ => press(history.state_mut(), key, ROOM),
    };
    history.state_mut().clamp_offset::<FoyerFont>(ROOM);
    answer
}

/// Reads the history in a file, presses the keys, and prints every step and what would be written: the file comes first.
pub fn recall<R: Print + Files + AllocGlobal>(rt: &R, rest: &str) -> Result<(), CallError> {
    let (path, keys) = first_word(rest);
    let bytes = fs::read(rt, path)?;
    let mut history = PromptHistory::open(bytes.as_slice())?;
    print_drafts(rt, &history)?;
    for key in keys.split_whitespace() {
        print!(rt; "  {key} => ")?;
        let answer = press_on(&mut history, key);
        print_pressed(rt, history.state(), answer)?;
    }
    let mut out = [0; WRITTEN_BYTES];
    let written = write(history.state(), bytes.as_slice(), &mut out);
    print_written(rt, written, &out)?;
    Ok(())
}
