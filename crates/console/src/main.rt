// The booking console's prompt, as far as it goes: reads a script from its standard input, one call to a line, and prints what
// each call did. The README describes the script.
#![tactic(auto)]

mod editing;
mod remembering;
mod showing;

ghost use Rattle.std.specs.Prelude.{◌≡◌};
ghost use Rattle.console.specs.Typed.{typed_jump};

use jump::goto::{Jump, goto};
use std::alloc::AllocGlobal;
use std::rt::Files;
use text::refusal::Refusal;
use text::utf8;
use transcript::fault::{CallError, Fault};
use transcript::outcomes::Destination;
use transcript::reading;
use transcript::script::{Console, run};

/// The most characters that are typed as one text.
const MOST_CHARACTERS: usize = 256;

/// Takes the bytes as the text that was typed, and jumps by it.
fn jump_by(bytes: &[u8], lines: u64) -> Result<Jump, Refusal>
    ensures value { result ≡ typed_jump bytes.now lines }
{
    // `decode` writes to a lent buffer, and tells beside it how much.
    let mut chars = [0; MOST_CHARACTERS];
    let count = utf8::decode(bytes, &mut chars)?;
    if count > MOST_CHARACTERS {
        return Err(Refusal::DraftFull);
    }
    goto(&chars[0..count], lines)
}

/// A console of the single parts: it keeps the length of the listing.
#[derive(Drop)]
struct Parts {
    lines: u64,
}

impl Console for Parts {
    fn perform<R: Print + Files + AllocGlobal>(
        &mut self,
        rt: &R,
        verb: &str,
        rest: &str,
    ) -> Result<(), CallError> {
        // The verb is a word of the script.
        match verb {
            "listing" => {
                self.lines = reading::number_of_lines(rest)?;
                println!(rt; "{} lines", self.lines)?;
            }
            "type" => rt.println(Destination(jump_by(rest.as_bytes(), self.lines)?))?,
            "paste" => {
                let bytes = reading::bytes(rt.alloc(), rest)?;
                rt.println(Destination(jump_by(bytes.as_slice(), self.lines)?))?;
            }
            "edit" => editing::edit(rt, rest)?,
            "draw" => showing::show(rt, reading::width(rest)?)?,
            "recall" => remembering::recall(rt, rest)?,
            _ => return Err(Fault::NotUnderstood.into()),
        }
        Ok(())
    }
}

fn main(rt: HostRuntime) -> anyhow::Result<()> {
    run(&rt, &mut Parts { lines: 0 })?;
    Ok(())
}
