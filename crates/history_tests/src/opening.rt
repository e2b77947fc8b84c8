// How many lines are remembered, and which draft is in hand.
use crate::makes::{digits, numbered, reads, remembers, repeated, steps_back};
use draft::action::DisplayAction;
use history::store::PromptHistory;
use std::alloc::Global;
use std::process::Abort;
use std::test::Fail;
use text::refusal::Refusal;

/// Of so many lines so many are remembered, the last ones.
fn remembers_last(
    rt: &impl Abort,
    heap: Global,
    lines: usize,
    remembered: usize,
) -> Result<(), Fail> {
    let bytes = numbered(heap, lines)?;
    let mut history = PromptHistory::open(bytes.as_slice())?;
    assert!(rt; reads(&history, b""));
    assert!(rt; history.next() == DisplayAction::Nothing);
    assert_eq!(rt; steps_back(&mut history), remembered);
    if remembered == 0 {
        return Ok(());
    }
    assert!(rt; reads(&history, &digits(lines.saturating_sub(remembered))));
    assert_eq!(rt; history.state().position(), 4);
    assert_eq!(rt; history.state().offset(), 0);
    assert!(rt; history.next() == DisplayAction::Redraw);
    Ok(())
}

#[test]
fn few_lines(rt: HostRuntime) -> Result<(), Fail> {
    remembers_last(&rt, rt.alloc(), 0, 0)?;
    remembers_last(&rt, rt.alloc(), 1, 1)?;
    remembers_last(&rt, rt.alloc(), 30, 30)
}

#[test]
fn many_lines(rt: HostRuntime) -> Result<(), Fail> {
    remembers_last(&rt, rt.alloc(), 31, 31)?;
    remembers_last(&rt, rt.alloc(), 32, 31)?;
    remembers_last(&rt, rt.alloc(), 1000, 31)
}

#[test]
fn longest_history(rt: HostRuntime) -> Result<(), Fail> {
    let mut bytes = repeated(rt.alloc(), b"a\n", 32768)?;
    assert_eq!(rt; bytes.len(), 65536);
    remembers(&rt, bytes.as_slice(), 31)?;
    bytes.extend_from_slice(b"a")?;
    match PromptHistory::open(bytes.as_slice()) {
        Err(refusal) => {
            assert_eq!(rt; refusal, Refusal::HistoryTooLong);
            Ok(())
        },
        Ok(_) => Err(Fail::new("65,537 bytes were read")),
    }
}

#[test]
fn the_draft_in_hand_is_edited(rt: HostRuntime) -> Result<(), Fail> {
    let mut history = PromptHistory::open(b"one\ntwo\n")?;
    assert!(rt; history.previous() == DisplayAction::Redraw);
    assert_eq!(rt; history.insert_str(&[0x21])?, DisplayAction::Redraw);
    assert!(rt; reads(&history, b"two!"));
    assert!(rt; history.next() == DisplayAction::Redraw);
    assert!(rt; reads(&history, b""));
    assert_eq!(rt; steps_back(&mut history), 2);
    assert!(rt; reads(&history, b"one"));
    Ok(())
}

#[test]
fn the_draft_in_hand_takes_bytes(rt: HostRuntime) -> Result<(), Fail> {
    let mut history = PromptHistory::open(b"one\ntwo\n")?;
    assert!(rt; history.previous() == DisplayAction::Redraw);
    assert_eq!(rt; history.insert_bytes(b"!")?, DisplayAction::Redraw);
    assert!(rt; reads(&history, b"two!"));
    assert!(rt; history.next() == DisplayAction::Redraw);
    assert!(rt; reads(&history, b""));
    assert_eq!(rt; steps_back(&mut history), 2);
    assert!(rt; reads(&history, b"one"));
    Ok(())
}
