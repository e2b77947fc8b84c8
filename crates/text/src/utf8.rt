// UTF-8, read and written by Table 3-7 of the Unicode Standard.
ghost use Rattle.std.specs.Prelude.{◌≡◌, ◌+◌, ◌%◌, true, take, is_err, IfOk, Decides, MatchOption, OnOk, IfErr, ℕ};
ghost use Rattle.std.proofs.Math.Utf8.{encode as encoding};
ghost use Rattle.std.specs.Str.{IsUtf8, IsValidUpTo};
ghost use Rattle.text.specs.declared.refusal.Refusal.TheVariants.{IllFormed};
ghost use Rattle.text.specs.Utf8.{Pair, Triple, Quad, Sequence, Begins, NoneBegins, characters, counted, RefusedExactly, overwritten, encoded, Utf8Laws};

use crate::refusal::Refusal;
use crate::scalar::is_scalar;

// The rows of the table with two, three and four bytes.

fn is_pair(a: u8, b: u8) -> bool
    ensures value { Decides result (Pair a b) }
{
    matches!((a, b), (0xC2..=0xDF, 0x80..=0xBF))
}

fn is_triple(a: u8, b: u8, c: u8) -> bool
    ensures value { Decides result (Triple a b c) }
{
    matches!(
        (a, b, c),
        (0xE0, 0xA0..=0xBF, 0x80..=0xBF)
            | (0xE1..=0xEC, 0x80..=0xBF, 0x80..=0xBF)
            | (0xED, 0x80..=0x9F, 0x80..=0xBF)
            | (0xEE..=0xEF, 0x80..=0xBF, 0x80..=0xBF)
    )
}

fn is_quad(a: u8, b: u8, c: u8, d: u8) -> bool
    ensures value { Decides result (Quad a b c d) }
{
    matches!(
        (a, b, c, d),
        (0xF0, 0x90..=0xBF, 0x80..=0xBF, 0x80..=0xBF)
            | (0xF1..=0xF3, 0x80..=0xBF, 0x80..=0xBF, 0x80..=0xBF)
            | (0xF4, 0x80..=0x8F, 0x80..=0xBF, 0x80..=0xBF)
    )
}

/// The character that stands first, and the bytes after it. None exactly where no row of the table begins the bytes.
// Its callers read a line byte by byte: a call would cost more than what it does.
#[inline(always)]
pub fn next(bytes: &[u8]) -> Option<(u32, &[u8])>
    ensures value { MatchOption result (NoneBegins bytes.now) (λ found. Begins bytes.now found.0 found.1.now) }
{
    match bytes {
        [a, rest @ ..] if *a <= 0x7F => Some((*a as u32, rest)),
        [a, b, rest @ ..] if is_pair(*a, *b) => Some((
            (*a as u32 - 0xC0) * 64 + (*b as u32 - 0x80),
            rest,
        )),
        [a, b, c, rest @ ..] if is_triple(*a, *b, *c) => {
            let high = (*a as u32 - 0xE0) * 4096;
            Some((high + (*b as u32 - 0x80) * 64 + (*c as u32 - 0x80), rest))
        }
        [a, b, c, d, rest @ ..] if is_quad(*a, *b, *c, *d) => {
            let high = (*a as u32 - 0xF0) * 262144 + (*b as u32 - 0x80) * 4096;
            Some((high + (*c as u32 - 0x80) * 64 + (*d as u32 - 0x80), rest))
        }
        _ => None,
    }
}

// Well-formed bytes as a text.
fn text_of(bytes: &[u8]) -> Result<&str, Refusal>
    ensures read { IfOk result (λ text. (text.now ≡ bytes.now) × IsUtf8 bytes.now) }
    ensures refused { IfErr result (λ refusal. ¬ (IsUtf8 bytes.now) × ((place : ℕ) × (refusal ≡ IllFormed place) × IsValidUpTo bytes.now place)) }
{
    match str::from_utf8(bytes) {
        Ok(text) => Ok(text),
        Err(error) => Err(Refusal::IllFormed {
            place: error.valid_up_to(),
        }),
    }
}

/// How many characters well-formed bytes spell. Refused as `IllFormed` exactly where the bytes are not well formed: the place is
/// the length of their longest front that is.
#[tactic(auto, using(std::proofs::lemmas::Str::chars_from_encodes, crate::proofs::Readings::counted_of_utf8, crate::proofs::Readings::spelled_of_utf8))]
pub fn count(bytes: &[u8]) -> Result<usize, Refusal>
    ensures value { result ≡ counted bytes.now }
    ensures refused_exactly { RefusedExactly bytes.now result }
{
    Ok(text_of(bytes)?.chars().count())
}

// The buffer of `decode` and `encode` is lent, so how much of it was written is told beside it.

/// Writes the characters of well-formed bytes to the front of `out`, as far as it has room, and tells how many there are.
/// Refused as `count` is. The bytes are read through before anything is written, so that a refusal leaves `out` as it was.
#[tactic(auto, using(std::proofs::lemmas::Str::chars_from_encodes, crate::proofs::Readings::counted_of_utf8, crate::proofs::Readings::spelled_of_utf8))]
pub fn decode(bytes: &[u8], out: &mut [u32]) -> Result<usize, Refusal>
    ensures value { result ≡ counted bytes.now }
    ensures refused_exactly { RefusedExactly bytes.now result }
    ensures written { OnOk result (out.new ≡ overwritten out.old (characters bytes.now)) }
    ensures unchanged_if_refused { is_err result ≡ true → out.new ≡ out.old }
{
    let text = text_of(bytes)?;
    let spelled = text.chars().count();
    let mut characters = text.chars();
    for place in out.iter_mut() {
        let Some(character) = characters.next() else {
            break;
        };
        *place = u32::from(character);
    }
    Ok(spelled)
}

// A byte that follows the first: six bits after the mark.
fn following(bits: u32) -> u8
    ensures value { result ≡ 0x80 + bits % 0x40 }
{
    0x80 + (bits % 0x40) as u8
}

/// Writes the bytes of a scalar value to the front of `out`, and tells how many there are. Refused as `NotScalar`, and nothing
/// written, exactly where `code` is no scalar value.
pub fn encode(code: u32, out: &mut [u8; 4]) -> Result<usize, Refusal>
    ensures value { result ≡ encoded code }
    ensures is_sequence { IfOk result (λ n. Sequence (take n out.new) code) }
    ensures written { OnOk result (out.new ≡ overwritten out.old (encoding code)) }
    ensures unchanged_if_refused { is_err result ≡ true → out.new ≡ out.old }
{
    if !is_scalar(code) {
        return Err(Refusal::NotScalar);
    }
    match code {
        0..=0x7F => {
            out[0] = code as u8;
            Ok(1)
        }
        0x80..=0x7FF => {
            out[0] = 0xC0 + (code >> 6) as u8;
            out[1] = following(code);
            Ok(2)
        }
        0x800..=0xFFFF => {
            out[0] = 0xE0 + (code >> 12) as u8;
            out[1] = following(code >> 6);
            out[2] = following(code);
            Ok(3)
        }
        _ => {
            out[0] = 0xF0 + (code >> 18) as u8;
            out[1] = following(code >> 12);
            out[2] = following(code >> 6);
            out[3] = following(code);
            Ok(4)
        }
    }
}

/// What holds of UTF-8 as it is defined here: one spelling, scalar values only, and the encoding's way there and back.
pub fn utf8_stands()
    ensures laws { Utf8Laws }
{}
