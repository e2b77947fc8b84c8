// Readable lines of history, and the text that they load to.
ghost use Rattle.std.specs.Prelude.{◌≡◌, is_some, IfSome};
ghost use Rattle.std.specs.Iterator.{YieldsFirstRef, item_count};
ghost use Rattle.history.specs.Readable.{loadable, loaded, readable, readable_lines, last_of};

use crate::lines::Lines;
use crate::loader::Loader;
use arrayvec::ArrayVec;
use draft::state::CAPACITY;
use text::utf8::next;

/// The bytes that a readable line has at most.
const LONGEST_LINE: usize = 1024;

/// The text that a line loads to. None where the line is not well formed or loads to more than a draft holds.
pub fn load(line: &[u8]) -> Option<ArrayVec<u32, CAPACITY>>
    ensures loads_exactly { is_some result ≡ loadable line.now }
    ensures text_is { IfSome result (λ text. text.items ≡ loaded line.now) }
{
    let mut loader = Loader::Plain;
    let mut text = ArrayVec::new();
    // A chain that calls the loader would leave its proof without what the loader answered.
    let mut rest = line;
    while let Some((c, after)) = next(rest) {
        if let Some(code) = loader.take(c) {
            text.try_push(code).ok()?;
        }
        rest = after;
    }
    rest.is_empty().then_some(text)
}

/// Whether a line loads.
// It counts what `load` would give: each line of a whole history is asked this, and few of them are loaded.
fn is_loadable(line: &[u8]) -> bool
    ensures value { result ≡ loadable line.now }
{
    let mut loader = Loader::Plain;
    let mut count = 0;
    let mut rest = line;
    while let Some((c, after)) = next(rest) {
        if loader.take(c).is_some() {
            if count == CAPACITY {
                return false;
            }
            count += 1;
        }
        rest = after;
    }
    rest.is_empty()
}

/// Whether a line is readable.
#[tactic(auto, unfolding(crate::specs::Readable::readable))]
fn is_readable(line: &[u8]) -> bool
    ensures value { result ≡ readable line.now }
{
    line.len() <= LONGEST_LINE && is_loadable(line)
}

/// The readable lines of history bytes, from the first on.
#[derive(Drop)]
pub struct ReadableLines<'a> {
    lines: Lines<'a>,
}

impl<'a> ReadableLines<'a> {
    pub fn new(bytes: &'a [u8]) -> ReadableLines<'a>
        ensures starts_at { result.lines.rest.now ≡ bytes.now }
    {
        ReadableLines {
            lines: Lines { rest: bytes },
        }
    }
}

impl<'a> Iterator for ReadableLines<'a> {
    type Item = &'a [u8];

    ghost next_gives = { YieldsFirstRef (λ s. readable_lines s.lines.rest.now) };

    ghost remaining = { item_count (λ s. readable_lines s.lines.rest.now) };

    // A call for each line of a whole history would cost as much as its reading. So would `find`, which LLVM leaves a call.
    #[inline(always)]
    fn next(&mut self) -> Option<&'a [u8]> {
        while let Some(line) = self.lines.next() {
            if is_readable(line) {
                return Some(line);
            }
        }
        None
    }
}

/// The bytes from which on at most `most` readable lines stand, the last ones.
pub fn last_lines(bytes: &[u8], most: usize) -> &[u8]
    ensures value { readable_lines result.now ≡ last_of most (readable_lines bytes.now) }
{
    let surplus = ReadableLines::new(bytes).count().saturating_sub(most);
    let mut kept = ReadableLines::new(bytes);
    for _skipped in 0..surplus {
        kept.next();
    }
    kept.lines.rest
}
