// The booking console's prompt: reads a script from its standard input, one call to a line, and prints what each call did. The
// README describes the script.
#![tactic(auto)]

mod keys;
mod session;
mod showing;

use cells::cell_row::CellRow;
use font::foyer::FoyerFont;
use jump::goto::Jump;
use prompt::state::Prompt;
use session::{Asked, Session};
use std::alloc::AllocGlobal;
use std::rt::Files;
use std::{fs, io};
use text::refusal::Refusal;
use transcript::fault::{CallError, Fault};
use transcript::outcomes::Destination;
use transcript::reading;
use transcript::script::{Console, run};

/// The columns of the row on which a text is typed whole.
const COLUMNS: usize = 40;

/// A console of sessions: the length of the listing, and the session that is open, if one is.
#[derive(Drop)]
struct Sessions {
    lines: u64,
    open: Option<Session>,
}

/// A prompt of its own for one text: it is pasted, finished, and jumped by.
fn jump_by(bytes: &[u8], lines: u64) -> Result<Jump, Refusal> {
    let mut prompt = Prompt::open(b"Go to line:", &[])?;
    let mut row: CellRow<FoyerFont> = CellRow::new(COLUMNS)?;
    prompt.paste(&mut row, bytes)?;
    prompt.finish().jump(lines)
}

/// Opens a session: the width of the row comes first, and then the file of the history, if there is one.
fn open<R: Print + Files + AllocGlobal>(rt: &R, rest: &str) -> Result<Session, CallError> {
    let (width, path) = reading::first_word(rest);
    let width = reading::width(width)?;
    let history = if path.is_empty() {
        Vec::new(rt.alloc())
    } else {
        fs::read(rt, path)?
    };
    let session = Session::open(rt.alloc(), width, history)?;
    println!(rt; "opened")?;
    Ok(session)
}

/// Presses the keys one after another.
fn press(rt: &impl Print, session: &mut Session, words: &str) -> io::Result<()> {
    println!(rt)?;
    for word in words.split_whitespace() {
        print!(rt; " {word} => ")?;
        match keys::key_of(word) {
            Ok(key) => session.make(rt, Asked::Press(key))?,
            Err(fault) => println!(rt; "{fault}")?,
        }
    }
    Ok(())
}

/// A call of the session that is open.
fn call<R: Print + AllocGlobal>(
    rt: &R,
    session: &mut Session,
    verb: &str,
    rest: &str,
) -> Result<(), CallError> {
    // The verb is a word of the script.
    match verb {
        "draw" => session.make(rt, Asked::Draw)?,
        "press" => press(rt, session, rest)?,
        "paste" => session.make(rt, Asked::Paste(reading::bytes(rt.alloc(), rest)?))?,
        "resize" => session.make(rt, Asked::Resize(reading::width(rest)?))?,
        "record" => session.record(rt)?,
        _ => return Err(Fault::NotUnderstood.into()),
    }
    Ok(())
}

impl Sessions {
    /// A line that stands for itself, outside of sessions.
    // The console of single parts has the first two verbs too, but it jumps without a prompt.
    fn single<R: Print + Files + AllocGlobal>(
        &mut self,
        rt: &R,
        verb: &str,
        rest: &str,
    ) -> Result<(), CallError> {
        // The verb is a word of the script.
        match verb {
            "listing" => {
                self.lines = reading::number_of_lines(rest)?;
                println!(rt; "{} lines", self.lines)?;
            }
            "type" => rt.println(Destination(jump_by(rest.as_bytes(), self.lines)?))?,
            "bytes" => {
                let bytes = reading::bytes(rt.alloc(), rest)?;
                rt.println(Destination(jump_by(bytes.as_slice(), self.lines)?))?;
            }
            "both" => showing::show(rt, reading::width(rest)?)?,
            "open" => self.open = Some(open(rt, rest)?),
            _ => return Err(Fault::NotUnderstood.into()),
        }
        Ok(())
    }
}

impl Console for Sessions {
    fn perform<R: Print + Files + AllocGlobal>(
        &mut self,
        rt: &R,
        verb: &str,
        rest: &str,
    ) -> Result<(), CallError> {
        match self.open.take() {
            None => self.single(rt, verb, rest)?,
            Some(session) if verb == "finish" => session.finish(rt, self.lines)?,
            Some(_) if verb == "cancel" => println!(rt; "cancelled")?,
            Some(mut session) => {
                let end = call(rt, &mut session, verb, rest);
                self.open = Some(session);
                end?;
            }
        }
        Ok(())
    }
}

fn main(rt: HostRuntime) -> anyhow::Result<()> {
    let mut sessions = Sessions {
        lines: 0,
        open: None,
    };
    run(&rt, &mut sessions)?;
    Ok(())
}
