// How a draft is saved: its text, spelled in one line of bytes.
ghost use Rattle.std.specs.Prelude.{◌≡◌, ◌+◌, ◌≤◌, ◌++◌, true};
ghost use Rattle.std.proofs.Math.Utf8.{scalar};
ghost use Rattle.arrayvec.specs.ArrayVec.{array_vec_len};
ghost use Rattle.draft.specs.Draft.{draft_of};
ghost use Rattle.history.specs.Limits.{longest_spelling};
ghost use Rattle.history.specs.Spelling.{spelled_character, spell};

use crate::loader::BACKSLASH;
use arrayvec::ArrayVec;
use draft::state::PromptState;
use text::hex::hex_digit;
use text::utf8::encode;

/// The bytes that a spelling has at most: four for each character.
pub const LONGEST_SPELLING: usize = 1024;

/// Adds the spelling of a character: at most four bytes.
fn put_character(c: u32, out: &mut ArrayVec<u8, LONGEST_SPELLING>)
    requires is_scalar { scalar c ≡ true }
    requires room { array_vec_len out.old + 4 ≤ longest_spelling }
    ensures after { out.new.items ≡ out.old.items ++ spelled_character c }
    ensures few { array_vec_len out.new ≤ array_vec_len out.old + 4 }
{
    match c {
        BACKSLASH => {
            out.push(b'\\');
            out.push(b'\\');
        }
        0x00..=0x1F | 0x7F => {
            let code = c as u8;
            let (high, low) = (code / 16, code % 16);
            out.push(b'\\');
            out.push(b'x');
            out.push(hex_digit(high));
            out.push(hex_digit(low));
        }
        // Most are one byte, and need no buffer to come from.
        0x20..=0x7E => out.push(c as u8),
        _ => {
            let mut bytes = [0; 4];
            if let Ok(count) = encode(c, &mut bytes) {
                let _ = out.try_extend_from_slice(&bytes[..count]);
            }
        }
    }
}

/// The spelling of a draft's text.
#[tactic(auto, using(crate::proofs::Saving::scalar_there, crate::proofs::Saving::spelled_more), unfolding(crate::specs::Spelling::spell))]
pub fn spell(draft: &PromptState) -> ArrayVec<u8, LONGEST_SPELLING>
    ensures value { result.items ≡ spell (draft_of draft.now).line.text }
{
    let mut out = ArrayVec::new();
    for c in draft.as_slice() {
        put_character(*c, &mut out);
    }
    out
}
