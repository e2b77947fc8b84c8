// What the tests are made of.
use draft::action::DisplayAction;
use draft::state::PromptState;
use history::store::PromptHistory;
use std::alloc::{AllocError, Global};
use std::process::Abort;
use std::test::Fail;
use text::refusal::Refusal;

/// A part, so many times.
pub fn repeated(heap: Global, part: &[u8], times: usize) -> Result<Vec<u8>, AllocError> {
    let mut bytes = Vec::new(heap);
    for _ in 0..times {
        bytes.extend_from_slice(part)?;
    }
    Ok(bytes)
}

/// A digit of a number.
fn digit(n: usize) -> u8 {
    b'0' + (n % 10) as u8
}

/// A number of four digits.
pub fn digits(n: usize) -> [u8; 4] {
    [digit(n / 1000), digit(n / 100), digit(n / 10), digit(n)]
}

/// The lines 0000, 0001 and so on.
pub fn numbered(heap: Global, lines: usize) -> Result<Vec<u8>, AllocError> {
    let mut bytes = Vec::new(heap);
    for n in 0..lines {
        bytes.extend_from_slice(&digits(n))?;
        bytes.extend_from_slice(b"\n")?;
    }
    Ok(bytes)
}

/// A draft with a text.
pub fn typed(text: &[u32]) -> Result<PromptState, Refusal> {
    let mut draft = PromptState::new();
    draft.insert_str(text)?;
    Ok(draft)
}

/// How often the draft before comes in hand.
pub fn steps_back(history: &mut PromptHistory) -> usize {
    let mut steps: usize = 0;
    for _ in 0..40 {
        if history.previous() == DisplayAction::Nothing {
            return steps;
        }
        steps = steps.saturating_add(1);
    }
    steps
}

/// Whether the draft in hand has these ASCII characters.
pub fn reads(history: &PromptHistory, text: &[u8]) -> bool {
    let chars = history.state().as_slice().iter().copied();
    chars.eq(text.iter().map(|b| u32::from(*b)))
}

/// Whether so many lines are remembered.
pub fn remembers(rt: &impl Abort, history: &[u8], lines: usize) -> Result<(), Fail> {
    let mut opened = PromptHistory::open(history)?;
    assert_eq!(rt; steps_back(&mut opened), lines);
    Ok(())
}

/// Whether the last line loads to this ASCII text.
pub fn loads(rt: &impl Abort, history: &[u8], text: &[u8]) -> Result<(), Fail> {
    let mut opened = PromptHistory::open(history)?;
    assert!(rt; opened.previous() == DisplayAction::Redraw);
    assert!(rt; reads(&opened, text));
    Ok(())
}
