// What calls came to, printed.
ghost use Rattle.std.specs.Prelude.{Some};
ghost use Rattle.transcript.specs.Outcomes.{destination_text};

use crate::fault::Fault;
use crate::showing::front;
use glass::calls::Stopped;
use jump::goto::Jump;
use std::alloc::AllocGlobal;
use std::{fmt, io};
use text::refusal::Refusal;

/// The longest history that can be written: 31 lines of 1,024 bytes, each with its end.
pub const WRITTEN_BYTES: usize = 31775;

/// Where a jump goes, as a person reads it.
#[derive(Clone, Copy)]
pub struct Destination(pub Jump);

impl fmt::Display for Destination {
    ghost output = { λ d. Some (destination_text d.0) };

    fn fmt<W: fmt::Write>(&self, f: &mut fmt::Formatter<W>) -> fmt::Result {
        match self.0 {
            Jump::Quit => write!(f, "quit"),
            Jump::Stay => write!(f, "stay"),
            Jump::Line(line) => write!(f, "line {line}"),
        }
    }
}

// A function, and no type with a `Display`: where the calls came to their end there is no line at all.

/// Prints where a list of calls came to a stop, if it did.
pub fn print_end(rt: &impl Print, end: Result<(), Stopped>) -> io::Result<()> {
    match end {
        Ok(()) => Ok(()),
        Err(Stopped { made, refusal }) => {
            let fault = Fault::Refused(refusal);
            println!(rt; "  after {made} calls {fault}")
        }
    }
}

// A function, and no type with a `Display`: bytes that are no text are printed by way of memory, which may fail.

/// Prints what history writing came to, and the lines that it wrote to a buffer.
pub fn print_written<R: Print + AllocGlobal>(
    rt: &R,
    answer: Result<Option<usize>, Refusal>,
    out: &[u8],
) -> io::Result<()> {
    print!(rt; "  written: ")?;
    match answer {
        Ok(None) => println!(rt; "nothing to add"),
        Ok(Some(len)) => {
            println!(rt; "{len} bytes")?;
            let text = String::from_utf8_lossy(rt.alloc(), front(out, len))?;
            for line in text.as_str().lines() {
                println!(rt; "  | {line}")?;
            }
            Ok(())
        }
        Err(refusal) => rt.println(Fault::Refused(refusal)),
    }
}
