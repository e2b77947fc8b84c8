// The loader: a machine that takes the characters of a line one after another, in place.
ghost use Rattle.std.specs.Prelude.{◌≡◌, ◌<◌, IfSome};
ghost use Rattle.history.specs.Loading.{hex_value, first_value, code_of, stepped, added};

/// It takes the next character as itself, or an x and two more as one code.
pub const BACKSLASH: u32 = '\\' as u32;

const SMALL_X: u32 = 'x' as u32;

const PLUS: u32 = '+' as u32;

/// What the characters so far ask of the next one.
#[derive(Clone, Copy)]
pub enum Loader {
    /// It stands for itself, unless it is a backslash.
    Plain,
    /// It stands for itself, unless it is an x.
    AfterBackslash,
    /// It is the first of two hex places.
    TwoWanted,
    /// It is the second of two hex places, and this was the first.
    OneWanted(u32),
}

/// The value of a hex digit of either case.
fn hex_value(c: u32) -> Option<u32>
    ensures value { result ≡ hex_value c }
    ensures bound { IfSome result (λ v. v < 16) }
{
    char::from_u32(c)?.to_digit(16)
}

/// The value of the first of two hex places, where a + counts as 0.
fn first_value(c: u32) -> Option<u32>
    ensures value { result ≡ first_value c }
    ensures bound { IfSome result (λ v. v < 16) }
{
    if c == PLUS { Some(0) } else { hex_value(c) }
}

/// The code that two hex places stand for.
fn code_of(first: u32, second: u32) -> Option<u32>
    ensures value { result ≡ code_of first second }
{
    Some(first_value(first)? * 16 + hex_value(second)?)
}

impl Loader {
    /// Takes the next character, and answers with the character that it adds to the text, if any.
    pub fn take(&mut self, c: u32) -> Option<u32>
        ensures after { self.new ≡ stepped self.old c }
        ensures answer_is { result ≡ added self.old c }
    {
        let (next, added) = match (*self, c) {
            (Loader::Plain, BACKSLASH) => (Loader::AfterBackslash, None),
            (Loader::Plain, _) => (Loader::Plain, Some(c)),
            (Loader::AfterBackslash, SMALL_X) => (Loader::TwoWanted, None),
            (Loader::AfterBackslash, _) => (Loader::Plain, Some(c)),
            (Loader::TwoWanted, _) => (Loader::OneWanted(c), None),
            (Loader::OneWanted(first), _) => (Loader::Plain, code_of(first, c)),
        };
        *self = next;
        added
    }
}
