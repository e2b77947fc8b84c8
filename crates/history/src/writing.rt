// History is written anew, into a lent buffer, with a draft as its last line.
ghost use Rattle.std.specs.Prelude.{◌≡◌, ◌+◌, ◌*◌, ◌≤◌, ◌++◌, length, take, drop};
ghost use Rattle.text.specs.Utf8.{overwritten};
ghost use Rattle.draft.specs.Draft.{draft_of};
ghost use Rattle.history.specs.Limits.{most_kept, longest_line};
ghost use Rattle.history.specs.Readable.{readable_lines};
ghost use Rattle.history.specs.Writing.{ended, ended_lines, written, is_last, write_answer, buffer_after};

use crate::lines::NEWLINE;
use crate::readable::{ReadableLines, last_lines};
use crate::spelling::spell;
use crate::store::LONGEST_HISTORY;
use draft::state::PromptState;
use text::refusal::Refusal;

/// The lines of history that are kept at most.
const MOST_KEPT: usize = 30;

/// Whether a line is the last readable line, byte for byte.
fn is_last(line: &[u8], lines: &[u8]) -> bool
    ensures value { result ≡ is_last line.now (readable_lines lines.now) }
{
    ReadableLines::new(lines).last() == Some(line)
}

/// How many bytes the readable lines have, each ended by 0A.
#[tactic(auto, using(crate::proofs::Rewriting::ended_lines_short, crate::proofs::Rewriting::ended_more))]
fn ended_length(lines: &[u8]) -> usize
    requires few { length (readable_lines lines.now) ≤ most_kept }
    ensures value { result ≡ length (ended_lines (readable_lines lines.now)) }
    ensures bound { result ≤ most_kept * (longest_line + 1) }
{
    // No sum of a chain: its bound would be asked of any slice, and only readable lines are short.
    let mut total = 0;
    for line in ReadableLines::new(lines) {
        total += line.len() + 1;
    }
    total
}

/// Writes a line at a place, ended by 0A, and tells the place after it.
#[tactic(auto, using(crate::proofs::Rewriting::line_put))]
fn put_line(line: &[u8], out: &mut [u8], at: usize) -> usize
    requires room { at + length line.now + 1 ≤ length out.old }
    ensures value { result ≡ at + length (ended line.now) }
    ensures after { out.new ≡ take at out.old ++ (ended line.now ++ drop (at + length (ended line.now)) out.old) }
{
    // The buffer is lent, and so of fixed length: a line goes to a place in it.
    let end = at + line.len();
    out[at..end].copy_from_slice(line);
    out[end] = NEWLINE;
    end + 1
}

/// Writes the readable lines to the front, each ended by 0A, and tells how many bytes that are.
fn put_lines(lines: &[u8], out: &mut [u8]) -> usize
    requires room { length (ended_lines (readable_lines lines.now)) ≤ length out.old }
    ensures value { result ≡ length (ended_lines (readable_lines lines.now)) }
    ensures after { out.new ≡ overwritten out.old (ended_lines (readable_lines lines.now)) }
{
    let mut at = 0;
    for line in ReadableLines::new(lines) {
        at = put_line(line, out, at);
    }
    at
}

/// Writes the host's history anew to the front of `out`: the last readable lines as they stood, and the draft. Tells how many
/// bytes were written. None where there is nothing to add: the draft is empty, or is spelled as the last readable line is.
pub fn write(draft: &PromptState, history: &[u8], out: &mut [u8]) -> Result<Option<usize>, Refusal>
    ensures answer_is { result ≡ write_answer (draft_of draft.now).line.text history.now (length out.old) }
    ensures after { out.new ≡ buffer_after result (written (draft_of draft.now).line.text history.now) out.old }
{
    if history.len() > LONGEST_HISTORY {
        return Err(Refusal::HistoryTooLong);
    }
    if draft.as_slice().is_empty() {
        return Ok(None);
    }
    let spelling = spell(draft);
    let line = spelling.as_slice();
    let kept = last_lines(history, MOST_KEPT);
    if is_last(line, kept) {
        return Ok(None);
    }
    let size = ended_length(kept) + line.len() + 1;
    if size > out.len() {
        return Err(Refusal::BufferTooShort);
    }
    let start = put_lines(kept, out);
    put_line(line, out, start);
    Ok(Some(size))
}
