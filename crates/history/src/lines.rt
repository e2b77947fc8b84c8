// History bytes, cut into lines.
ghost use Rattle.std.specs.Prelude.{◌≡◌, ◌<◌, ◌++◌, length};
ghost use Rattle.std.specs.Iterator.{YieldsFirstRef, item_count};
ghost use Rattle.history.specs.Lines.{without_return, unless_empty, lines};

/// The byte that ends a line.
pub const NEWLINE: u8 = 0x0A;

/// One of these may stand before it.
const CARRIAGE_RETURN: u8 = 0x0D;

/// What a 0A ended, without one 0D at the end.
fn without_return(piece: &[u8]) -> &[u8]
    ensures value { result.now ≡ without_return piece.now }
{
    piece.strip_suffix(&[CARRIAGE_RETURN]).unwrap_or(piece)
}

/// The first piece, which is a line if it is not empty, and the bytes after it.
fn cut(bytes: &[u8]) -> (&[u8], &[u8])
    ensures lines_are { lines bytes.now ≡ unless_empty result.0.now ++ lines result.1.now }
    ensures is_shorter { 0 < length bytes.now → length result.1.now < length bytes.now }
{
    match bytes.iter().position(|b| *b == NEWLINE) {
        Some(end) => (without_return(&bytes[..end]), &bytes[end + 1..]),
        None => (bytes, &[]),
    }
}

/// The lines of bytes, from the first on.
#[derive(Drop)]
pub struct Lines<'a> {
    pub rest: &'a [u8],
}

impl<'a> Iterator for Lines<'a> {
    type Item = &'a [u8];

    ghost next_gives = { YieldsFirstRef (λ s. lines s.rest.now) };

    ghost remaining = { item_count (λ s. lines s.rest.now) };

    #[tactic(auto, using(crate::proofs::Cutting::no_lines))]
    fn next(&mut self) -> Option<&'a [u8]> {
        while !self.rest.is_empty() {
            let (line, after) = cut(self.rest);
            self.rest = after;
            if !line.is_empty() {
                return Some(line);
            }
        }
        None
    }
}
