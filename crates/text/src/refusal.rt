// Why a call is refused. There is one list for all layers, so that a lower layer's refusal reaches the caller unchanged by `?`.
// A refused call changes nothing.
ghost use Rattle.std.specs.Prelude.{◌≡◌, Some};
ghost use Rattle.text.specs.Refusals.{number_of, layer_of, place_of, words_of, name_of};

use std::error::Error;
use std::fmt;

/// The layer that refuses.
#[derive(Clone, Copy, PartialEq, Eq, Debug)]
pub enum Layer {
    Prompt,
    Bytes,
    Glass,
    Draft,
    Jump,
}

/// A refusal. Where two fit, the one that stands first is returned.
#[derive(Clone, Copy, PartialEq, Eq, Debug)]
pub enum Refusal {
    /// A label that is not 1 to 32 characters of 20–7E.
    BadLabel,
    /// More than 65,536 bytes of history.
    HistoryTooLong,
    /// A width that the call does not allow, or a column that is not below the width.
    OutsideGlass,
    /// A glass with less to spare than the call needs.
    LowSpare,
    /// A code that is no Unicode scalar value.
    NotScalar,
    /// Bytes that are not UTF-8. The longest front of them that is has `place` bytes.
    IllFormed { place: usize },
    /// A draft that would pass 256 characters.
    DraftFull,
    /// A lent buffer that is too short for what is to be written.
    BufferTooShort,
    /// A listing of more than 4,294,967,296 lines.
    ListingTooLong,
    /// A number with no character at all.
    EmptyNumber,
    /// A sign alone, or a character where a digit should stand.
    InvalidDigit,
    /// A number above 2^63 - 1.
    PosOverflow,
    /// A number below -2^63.
    NegOverflow,
    /// A jump in a listing that has no lines.
    NoLines,
}

impl Layer {
    /// The layer's name.
    pub fn name(&self) -> &'static str
        ensures value { result.now ≡ name_of self.now }
    {
        match self {
            Layer::Prompt => "prompt",
            Layer::Bytes => "bytes",
            Layer::Glass => "glass",
            Layer::Draft => "draft",
            Layer::Jump => "jump",
        }
    }
}

impl fmt::Display for Layer {
    ghost output = { λ layer. Some (name_of layer) };

    fn fmt<W: fmt::Write>(&self, f: &mut fmt::Formatter<W>) -> fmt::Result {
        f.write_str(self.name())
    }
}

impl Refusal {
    /// The layer that refused.
    pub fn layer(&self) -> Layer
        ensures value { result ≡ layer_of self.now }
    {
        match self {
            Refusal::BadLabel => Layer::Prompt,
            Refusal::HistoryTooLong | Refusal::IllFormed { .. } | Refusal::BufferTooShort =>
                Layer::Bytes,
            Refusal::OutsideGlass | Refusal::LowSpare => Layer::Glass,
            Refusal::NotScalar | Refusal::DraftFull => Layer::Draft,
            Refusal::ListingTooLong
            | Refusal::EmptyNumber
            | Refusal::InvalidDigit
            | Refusal::PosOverflow
            | Refusal::NegOverflow
            | Refusal::NoLines => Layer::Jump,
        }
    }

    /// The place in the caller's bytes, where the refusal has one.
    pub fn place(&self) -> Option<usize>
        ensures value { result ≡ place_of self.now }
    {
        match self {
            Refusal::IllFormed { place } => Some(*place),
            _ => None,
        }
    }

    /// The refusal in words.
    pub fn words(&self) -> &'static str
        ensures value { result.now ≡ words_of self.now }
    {
        match self {
            Refusal::BadLabel => "the label is not 1 to 32 characters of 20 to 7E",
            Refusal::HistoryTooLong => "more than 65536 bytes of history",
            Refusal::OutsideGlass => "a width or a column outside the glass",
            Refusal::LowSpare => "the glass has too little to spare",
            Refusal::NotScalar => "not a Unicode scalar value",
            Refusal::IllFormed { .. } => "not well-formed UTF-8",
            Refusal::DraftFull => "the draft would pass 256 characters",
            Refusal::BufferTooShort => "the buffer is too short",
            Refusal::ListingTooLong => "the listing has more than 4294967296 lines",
            Refusal::EmptyNumber => "cannot parse integer from empty string",
            Refusal::InvalidDigit => "invalid digit found in string",
            Refusal::PosOverflow => "number too large to fit in target type",
            Refusal::NegOverflow => "number too small to fit in target type",
            Refusal::NoLines => "the listing has no lines",
        }
    }
}

/// The number by which a refusal is known outside.
impl From<Refusal> for u8 {
    ghost from_gives = { λ refusal number. number ≡ number_of refusal };

    fn from(refusal: Refusal) -> u8 {
        match refusal {
            Refusal::BadLabel => 11,
            Refusal::HistoryTooLong => 12,
            Refusal::OutsideGlass => 13,
            Refusal::LowSpare => 14,
            Refusal::NotScalar => 15,
            Refusal::IllFormed { .. } => 16,
            Refusal::DraftFull => 17,
            Refusal::BufferTooShort => 18,
            Refusal::ListingTooLong => 19,
            Refusal::EmptyNumber => 20,
            Refusal::InvalidDigit => 21,
            Refusal::PosOverflow => 22,
            Refusal::NegOverflow => 23,
            Refusal::NoLines => 24,
        }
    }
}

impl fmt::Display for Refusal {
    ghost output = { λ refusal. Some (words_of refusal) };

    fn fmt<W: fmt::Write>(&self, f: &mut fmt::Formatter<W>) -> fmt::Result {
        f.write_str(self.words())
    }
}

impl Error for Refusal {}
