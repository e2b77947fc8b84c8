// A session of the prompt "Go to line:" on a row of cells, under the foyer font: each call is made and printed. What was asked is kept,
// and can be asked again on a recorder.
use crate::showing::{print_record, print_row};
use cells::cell_row::CellRow;
use font::foyer::FoyerFont;
use prompt::keys::KeyEvent;
use prompt::session::run::run;
use prompt::session::{Call, Reply};
use prompt::state::Prompt;
use recorder::recorder::Recorder;
use recorder::recorder::making::can_record;
use std::alloc::{AllocGlobal, Global};
use std::{fmt, io};
use text::refusal::Refusal;
use transcript::fault::{CallError, Fault};
use transcript::outcomes::{Destination, WRITTEN_BYTES, print_written};
use transcript::showing::{Readable, front};

/// The label of the prompt.
const LABEL: &[u8] = b"Go to line:";

/// The bytes that a session is recorded in.
const RECORD_BYTES: usize = 65536;

/// The line of the screen that a record names.
const LINE: u16 = 24;

/// A call that was asked for, with its bytes.
#[derive(Drop)]
pub enum Asked {
    Draw,
    Press(KeyEvent),
    Paste(Vec<u8>),
    Resize(usize),
}

impl<'a> From<&'a Asked> for Call<'a> {
    fn from(asked: &'a Asked) -> Call<'a> {
        match asked {
            Asked::Draw => Call::Draw,
            Asked::Press(event) => Call::Key(*event),
            Asked::Paste(bytes) => Call::Paste(bytes.as_slice()),
            Asked::Resize(width) => Call::Resize(*width),
        }
    }
}

/// A prompt on a row of cells, and what was asked of it so far, each with its reply.
#[derive(Drop)]
pub struct Session {
    prompt: Prompt,
    row: CellRow<FoyerFont>,
    width: usize,
    history: Vec<u8>,
    asked: Vec<(Asked, Reply)>,
}

/// A reply as a person reads it.
#[derive(Clone, Copy)]
struct Answer(Reply);

impl fmt::Display for Answer {
    fn fmt<W: fmt::Write>(&self, f: &mut fmt::Formatter<W>) -> fmt::Result {
        match self.0 {
            Ok(None) => write!(f, "done"),
            Ok(Some(action)) => write!(f, "{action:?}"),
            Err(refusal) => write!(f, "{}", Fault::Refused(refusal)),
        }
    }
}

impl Session {
    /// Opens the prompt on a row of a width.
    pub fn open(alloc: Global, width: usize, history: Vec<u8>) -> Result<Session, Refusal> {
        let prompt = Prompt::open(LABEL, history.as_slice())?;
        let row = CellRow::new(width)?;
        let asked = Vec::new(alloc);
        Ok(Session {
            prompt,
            row,
            width,
            history,
            asked,
        })
    }

    /// Makes a call, and prints its reply and the row.
    pub fn make(&mut self, rt: &impl Print, asked: Asked) -> io::Result<()> {
        let prompt = &mut self.prompt;
        let row = &mut self.row;
        let reply = prompt.perform(row, Call::from(&asked));
        self.asked.push((asked, reply))?;
        rt.println(Answer(reply))?;
        print_row(rt, &self.row)
    }

    /// Finishes the prompt: its text, the history that would be written, and the jump in a listing of so many lines.
    pub fn finish<R: Print + AllocGlobal>(self, rt: &R, lines: u64) -> Result<(), CallError> {
        let finished = self.prompt.finish();
        println!(rt; "[{}]", Readable::<FoyerFont>::new(finished.as_slice()))?;
        let mut out = [0; WRITTEN_BYTES];
        let written = finished.write_history(self.history.as_slice(), &mut out);
        print_written(rt, written, &out)?;
        print!(rt; "  jump: ")?;
        rt.println(Destination(finished.jump(lines)?))?;
        Ok(())
    }

    /// Asks the same on a recorder, and prints whether the replies are the same, and the record.
    pub fn record<R: Print + AllocGlobal>(&self, rt: &R) -> Result<(), CallError> {
        let alloc = rt.alloc();
        let calls: Vec<Call> = self
            .asked
            .iter()
            .map(|(asked, _)| Call::from(asked))
            .collect(alloc)?;
        let mut replies = vec![in alloc; Ok(None); calls.len()]?;
        let mut bytes = vec![in alloc; 0; RECORD_BYTES]?;
        can_record(self.width, bytes.len())?;
        let mut recorder: Recorder<FoyerFont> = Recorder::new(
            LINE,
            self.width,
            bytes.as_mut_slice(),
        );
        let history = self.history.as_slice();
        let end = run(
            LABEL,
            history,
            &mut recorder,
            calls.as_slice(),
            replies.as_mut_slice(),
        );
        let used = recorder.finish();
        end?.cancel();
        let same = if self.asked.iter().map(|(_, reply)| *reply).eq(replies) {
            "the same replies"
        } else {
            "other replies"
        };
        println!(rt; "{same}, {used} bytes")?;
        print_record(rt, front(bytes.as_slice(), used))?;
        Ok(())
    }
}
