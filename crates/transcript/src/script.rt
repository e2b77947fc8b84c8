// A script is read whole from the standard input, one call to a line, and a console makes the calls.
use crate::fault::CallError;
use crate::reading::first_word;
use std::alloc::AllocGlobal;
use std::io;
use std::rt::Files;

/// What makes the calls of a script.
pub trait Console {
    /// Makes the call that a verb names, with the rest of its line, and prints what it came to.
    fn perform<R: Print + Files + AllocGlobal>(
        &mut self,
        rt: &R,
        verb: &str,
        rest: &str,
    ) -> Result<(), CallError>;
}

/// Has a console make the calls of a script. A line that is empty or begins with # is passed over.
pub fn run<R: Input + Print + Files + AllocGlobal, C: Console>(
    rt: &R,
    console: &mut C,
) -> io::Result<()> {
    let script = io::read_to_string(rt.alloc(), rt.reader())?;
    for line in script.as_str().lines() {
        if line.is_empty() || line.starts_with('#') {
            continue;
        }
        print!(rt; "{line} => ")?;
        let (verb, rest) = first_word(line);
        match console.perform(rt, verb, rest) {
            Ok(()) => (),
            Err(CallError::Fault(fault)) => println!(rt; "{fault}")?,
            Err(CallError::Host(error)) => return Err(error),
        }
    }
    Ok(())
}
