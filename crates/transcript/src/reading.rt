// How the words of a script are read.
ghost use Rattle.std.specs.Prelude.{◌≡◌, ℕ, ◌==◌, IfOk, IfErr};
ghost use Rattle.std.specs.List.{before_first, after_first};
ghost use Rattle.std.specs.Str.Parse.{ParsesUnsigned};
ghost use Rattle.transcript.specs.Reading.{IsTypedCode, SpellsByte, SpellsThen, IsBlank, IsNoBytes};

use crate::fault::{CallError, Fault};
use std::alloc::Global;

/// The first word of a line, and what stands after the space that ends it.
pub fn first_word(line: &str) -> (&str, &str)
    ensures word { result.0.now ≡ before_first (λ b. b == 0x20) line.now }
    ensures rest { result.1.now ≡ after_first (λ b. b == 0x20) line.now }
{
    line.split_once(' ').unwrap_or((line, ""))
}

/// The length of a listing.
pub fn number_of_lines(word: &str) -> Result<u64, Fault>
    ensures value { ParsesUnsigned 64 10 word.now result }
    ensures fault { IfErr result (λ e. e ≡ Fault.NotANumberOfLines) }
{
    word.parse().map_err(|_| Fault::NotANumberOfLines)
}

/// The width of a row.
pub fn width(word: &str) -> Result<usize, Fault>
    ensures value { ParsesUnsigned 64 10 word.now result }
    ensures fault { IfErr result (λ e. e ≡ Fault.NotAWidth) }
{
    word.parse().map_err(|_| Fault::NotAWidth)
}

/// The byte that two hexadecimal digits spell.
fn byte(word: &str) -> Result<u8, Fault>
    ensures ok { IfOk result (SpellsByte word.now) }
    ensures err { IfErr result (λ e. (e ≡ Fault.NotBytes) × ((b : ℕ) → ¬ (SpellsByte word.now b))) }
{
    match u8::from_str_radix(word, 16) {
        Ok(byte) if word.len() == 2 => Ok(byte),
        _ => Err(Fault::NotBytes),
    }
}

/// The bytes that words of two hexadecimal digits spell.
pub fn bytes(alloc: Global, words: &str) -> Result<Vec<u8>, CallError>
    ensures ok { IfOk result (λ v. SpellsThen IsBlank v.items words.now) }
    ensures err { IfErr result (IsNoBytes words.now) }
{
    let mut bytes = Vec::new(alloc);
    for word in words.split_whitespace() {
        bytes.push(byte(word)?)?;
    }
    Ok(bytes)
}

/// The code that a word types: one character, `Space`, or `U+` and hexadecimal digits.
pub fn typed_code(word: &str) -> Result<u32, Fault>
    ensures value { IsTypedCode word.now result }
    ensures fault { IfErr result (λ e. e ≡ Fault.NoSuchKey) }
{
    if word == "Space" {
        return Ok(0x20);
    }
    match word.strip_prefix("U+") {
        Some(digits) => u32::from_str_radix(digits, 16).map_err(|_| Fault::NoSuchKey),
        None => word
            .parse::<char>()
            .map(u32::from)
            .map_err(|_| Fault::NoSuchKey),
    }
}
