// The smallest host: a prompt is opened, takes a key, is finished, and its text is jumped by. The folder misuse/ has edits of it that
// the compiler refuses.
#![tactic(auto)]

use cells::cell_row::CellRow;
use font::foyer::FoyerFont;
use jump::goto::Jump;
use prompt::keys::{KeyCode, KeyEvent, Modifiers};
use prompt::state::Prompt;
use std::io;
use text::refusal::Refusal;

/// Types a 7, presses no Enter, and goes to that line of ten.
fn seventh() -> Result<Jump, Refusal> {
    let mut row: CellRow<FoyerFont> = CellRow::new(40)?;
    let mut prompt = Prompt::open(b"Go to line:", b"")?;
    prompt.draw(&mut row)?;
    let seven = KeyEvent {
        key: KeyCode::Char(0x37),
        modifiers: Modifiers::None,
    };
    prompt.key(&mut row, seven)?;
    let text = prompt.finish();
    let jump = text.jump(10)?;
    Ok(jump)
}

fn main(rt: HostRuntime) -> io::Result<()> {
    match seventh() {
        Ok(Jump::Line(line)) => println!(rt; "line {line}"),
        Ok(_) => println!(rt; "no line"),
        Err(refusal) => println!(rt; "refused: {}", refusal.words()),
    }
}
