// Walks over words.
ghost use Rattle.std.specs.Prelude.{◌≡◌, ◌≤◌, min, length};
ghost use Rattle.text.specs.Scalars.{white};
ghost use Rattle.draft.specs.Words.{word_start, word_end};

use text::scalar::is_whitespace;
use text::walks::{back_past, on_past};

/// Where the next word ends: on past white space, then past other characters.
/// A place past the text counts as its end.
pub fn move_word_forwards(text: &[u32], place: usize) -> usize
    ensures value { result ≡ word_end white text.now (min place (length text.now)) }
    ensures high_bound { result ≤ length text.now }
{
    let turn = on_past(text, place, is_whitespace);
    on_past(text, turn, |c| !is_whitespace(c))
}

/// Where the word before the place starts: back past white space, then past other characters.
/// A place past the text counts as its end.
pub fn move_word_backwards(text: &[u32], place: usize) -> usize
    ensures value { result ≡ word_start white text.now (min place (length text.now)) }
    ensures high_bound { result ≤ min place (length text.now) }
{
    let turn = back_past(text, place, is_whitespace);
    back_past(text, turn, |c| !is_whitespace(c))
}
