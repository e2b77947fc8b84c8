// What drafts should do on examples, at the edges above all.
use crate::sample::SampleFont;
use draft::action::DisplayAction;
use draft::state::PromptState;
use draft::words::{move_word_backwards, move_word_forwards};
use std::process::Abort;
use std::test::Fail;
use text::refusal::Refusal;

const LETTER: u32 = 0x61;

const SPACE: u32 = 0x20;

const ACCENT: u32 = 0x301;

const WIDE: u32 = 0x4E00;

const SURROGATE: u32 = 0xD800;

/// A draft of a text, with the place at its end.
fn holding(text: &[u32]) -> Result<PromptState, Refusal> {
    let mut state = PromptState::new();
    state.insert_str(text)?;
    Ok(state)
}

fn holds(rt: &impl Abort, state: &PromptState, text: &[u32], place: usize) {
    assert!(rt; state.as_slice() == text);
    assert_eq!(rt; state.position(), place);
}

#[test]
fn nothing_to_do_in_an_empty_draft(rt: HostRuntime) {
    let mut state = PromptState::new();
    assert_eq!(rt; state.delete_prev_char(), DisplayAction::Nothing);
    assert_eq!(rt; state.delete_next_char(), DisplayAction::Nothing);
    assert_eq!(rt; state.delete_prev_word(), DisplayAction::Nothing);
    assert_eq!(rt; state.delete_next_word(), DisplayAction::Nothing);
    assert_eq!(rt;
        state.move_next_char::<SampleFont>(),
        DisplayAction::Nothing
    );
    assert_eq!(rt;
        state.move_prev_char::<SampleFont>(),
        DisplayAction::Nothing
    );
    assert_eq!(rt; state.move_next_word(), DisplayAction::Nothing);
    assert_eq!(rt; state.move_prev_word(), DisplayAction::Nothing);
    assert_eq!(rt; state.delete_to_end(), DisplayAction::Nothing);
    assert_eq!(rt; state.delete_to_start(), DisplayAction::Nothing);
    assert_eq!(rt; state.transpose_chars(), DisplayAction::Nothing);
    assert_eq!(rt; state.move_to_end(), DisplayAction::Redraw);
    assert_eq!(rt; state.move_to_start(), DisplayAction::Redraw);
    assert_eq!(rt; state.insert_str(&[]), Ok(DisplayAction::Redraw));
    holds(&rt, &state, &[], 0);
}

#[test]
fn one_character(rt: HostRuntime) -> Result<(), Fail> {
    let mut state = holding(&[LETTER])?;
    assert_eq!(rt; state.transpose_chars(), DisplayAction::Nothing);
    assert_eq!(rt; state.delete_next_char(), DisplayAction::Nothing);
    assert_eq!(rt; state.move_prev_char::<SampleFont>(), DisplayAction::Redraw);
    holds(&rt, &state, &[LETTER], 0);
    assert_eq!(rt; state.delete_to_end(), DisplayAction::Redraw);
    holds(&rt, &state, &[], 0);
    Ok(())
}

#[test]
fn full_at_256_characters(rt: HostRuntime) -> Result<(), Fail> {
    let mut state = holding(&[LETTER; 255])?;
    assert_eq!(rt;
        state.insert_str(&[LETTER, LETTER]),
        Err(Refusal::DraftFull)
    );
    assert_eq!(rt; state.as_slice().len(), 255);
    assert_eq!(rt;
        state.insert_char::<SampleFont>(SPACE, 507),
        Ok(DisplayAction::Letter)
    );
    assert_eq!(rt; state.as_slice().len(), 256);
    assert_eq!(rt;
        state.insert_char::<SampleFont>(LETTER, 507),
        Err(Refusal::DraftFull)
    );
    assert_eq!(rt;
        state.insert_char::<SampleFont>(SURROGATE, 507),
        Err(Refusal::NotScalar)
    );
    assert_eq!(rt;
        state.insert_str(&[LETTER, SURROGATE]),
        Err(Refusal::NotScalar)
    );
    assert_eq!(rt; state.insert_str(&[]), Ok(DisplayAction::Redraw));
    assert_eq!(rt; state.position(), 256);
    assert_eq!(rt; state.delete_prev_word(), DisplayAction::Redraw);
    holds(&rt, &state, &[], 0);
    Ok(())
}

#[test]
fn only_white_space(rt: HostRuntime) -> Result<(), Fail> {
    let mut state = holding(&[SPACE, 0x3000, 0x85])?;
    assert_eq!(rt; state.move_next_word(), DisplayAction::Nothing);
    assert_eq!(rt; state.move_prev_word(), DisplayAction::Redraw);
    assert_eq!(rt; state.position(), 0);
    assert_eq!(rt; state.move_next_word(), DisplayAction::Redraw);
    assert_eq!(rt; state.position(), 3);
    assert_eq!(rt; state.delete_prev_word(), DisplayAction::Redraw);
    holds(&rt, &state, &[], 0);
    Ok(())
}

#[test]
fn words(rt: HostRuntime) -> Result<(), Fail> {
    let row = [0x72, 0x6F, 0x77, SPACE, 0x46, SPACE, 0x31, 0x32];
    assert_eq!(rt; move_word_backwards(&row, 8), 6);
    assert_eq!(rt; move_word_backwards(&row, 6), 4);
    assert_eq!(rt; move_word_backwards(&row, 1000), 6);
    assert_eq!(rt; move_word_forwards(&row, 3), 5);
    assert_eq!(rt; move_word_forwards(&row, 1000), 8);
    let mut state = holding(&row)?;
    assert_eq!(rt; state.delete_prev_word(), DisplayAction::Redraw);
    holds(&rt, &state, &[0x72, 0x6F, 0x77, SPACE, 0x46, SPACE], 6);
    let mut first = holding(&[SPACE, 0x61, 0x62])?;
    assert_eq!(rt; first.delete_prev_word(), DisplayAction::Redraw);
    holds(&rt, &first, &[SPACE], 1);
    Ok(())
}

#[test]
fn only_marks(rt: HostRuntime) -> Result<(), Fail> {
    let mut state = holding(&[ACCENT; 256])?;
    assert_eq!(rt; state.move_prev_char::<SampleFont>(), DisplayAction::Redraw);
    assert_eq!(rt; state.position(), 0);
    assert_eq!(rt; state.move_next_char::<SampleFont>(), DisplayAction::Redraw);
    assert_eq!(rt; state.position(), 256);
    assert_eq!(rt; state.cursor_position::<SampleFont>(), 0);
    state.clamp_offset::<SampleFont>(5);
    assert_eq!(rt; state.offset(), 0);
    Ok(())
}

#[test]
fn a_letter_with_its_accent(rt: HostRuntime) -> Result<(), Fail> {
    let mut state = holding(&[0x61, ACCENT, 0x62])?;
    assert_eq!(rt; state.move_prev_char::<SampleFont>(), DisplayAction::Redraw);
    assert_eq!(rt; state.position(), 2);
    assert_eq!(rt; state.move_prev_char::<SampleFont>(), DisplayAction::Redraw);
    assert_eq!(rt; state.position(), 0);
    assert_eq!(rt; state.move_next_char::<SampleFont>(), DisplayAction::Redraw);
    assert_eq!(rt; state.position(), 2);
    Ok(())
}

#[test]
fn only_wide_characters(rt: HostRuntime) -> Result<(), Fail> {
    let mut state = holding(&[WIDE; 256])?;
    assert_eq!(rt; state.cursor_position::<SampleFont>(), 512);
    state.clamp_offset::<SampleFont>(507);
    assert_eq!(rt; state.offset(), 5);
    assert_eq!(rt; state.cursor_position::<SampleFont>(), 502);
    assert_eq!(rt; state.shown().len(), 251);
    state.clamp_offset::<SampleFont>(5);
    assert_eq!(rt; state.offset(), 256);
    state.clamp_offset::<SampleFont>(0);
    assert_eq!(rt; state.offset(), 256);
    state.clamp_offset::<SampleFont>(507);
    assert_eq!(rt; state.offset(), 253);
    assert_eq!(rt; state.cursor_position::<SampleFont>(), 6);
    Ok(())
}

#[test]
fn labels(rt: HostRuntime) {
    let mut state = PromptState::new();
    assert_eq!(rt;
        state.insert_char::<SampleFont>(0x07, 507),
        Ok(DisplayAction::Redraw)
    );
    assert_eq!(rt; state.cursor_position::<SampleFont>(), 4);
    assert_eq!(rt;
        state.insert_char::<SampleFont>(0x85, 507),
        Ok(DisplayAction::Redraw)
    );
    assert_eq!(rt; state.cursor_position::<SampleFont>(), 12);
    assert_eq!(rt;
        state.insert_char::<SampleFont>(0x1_0000, 507),
        Ok(DisplayAction::Redraw)
    );
    assert_eq!(rt; state.cursor_position::<SampleFont>(), 21);
    assert_eq!(rt;
        state.insert_char::<SampleFont>(0x10_FFFF, 507),
        Ok(DisplayAction::Redraw)
    );
    assert_eq!(rt; state.cursor_position::<SampleFont>(), 31);
    assert_eq!(rt; state.move_prev_char::<SampleFont>(), DisplayAction::Redraw);
    assert_eq!(rt; state.position(), 3);
}

#[test]
fn longest_labels_fill_a_draft(rt: HostRuntime) -> Result<(), Fail> {
    let mut state = holding(&[0x10_FFFF; 256])?;
    assert_eq!(rt; state.cursor_position::<SampleFont>(), 2560);
    state.clamp_offset::<SampleFont>(507);
    assert_eq!(rt; state.offset(), 206);
    assert_eq!(rt; state.cursor_position::<SampleFont>(), 500);
    Ok(())
}

#[test]
fn letters_until_the_line_scrolls(rt: HostRuntime) {
    let mut state = PromptState::new();
    for _ in 0..19 {
        assert_eq!(rt;
            state.insert_char::<SampleFont>(LETTER, 25),
            Ok(DisplayAction::Letter)
        );
        state.clamp_offset::<SampleFont>(25);
        assert_eq!(rt; state.offset(), 0);
    }
    assert_eq!(rt;
        state.insert_char::<SampleFont>(LETTER, 25),
        Ok(DisplayAction::Redraw)
    );
    state.clamp_offset::<SampleFont>(25);
    assert_eq!(rt; state.offset(), 0);
    assert_eq!(rt;
        state.insert_char::<SampleFont>(LETTER, 25),
        Ok(DisplayAction::Redraw)
    );
    state.clamp_offset::<SampleFont>(25);
    assert_eq!(rt; state.offset(), 1);
    assert_eq!(rt; state.cursor_position::<SampleFont>(), 20);
    assert_eq!(rt; state.delete_to_start(), DisplayAction::Redraw);
    state.clamp_offset::<SampleFont>(25);
    assert_eq!(rt; state.offset(), 0);
    assert_eq!(rt;
        state.insert_char::<SampleFont>(LETTER, 5),
        Ok(DisplayAction::Redraw)
    );
    state.clamp_offset::<SampleFont>(5);
    assert_eq!(rt; state.offset(), 1);
}

#[test]
fn edits_in_the_middle(rt: HostRuntime) -> Result<(), Fail> {
    let mut state = holding(&[0x61, 0x62, 0x64])?;
    assert_eq!(rt; state.transpose_chars(), DisplayAction::Redraw);
    holds(&rt, &state, &[0x61, 0x64, 0x62], 3);
    assert_eq!(rt; state.move_to_start(), DisplayAction::Redraw);
    assert_eq!(rt; state.transpose_chars(), DisplayAction::Nothing);
    assert_eq!(rt; state.move_next_char::<SampleFont>(), DisplayAction::Redraw);
    assert_eq!(rt; state.transpose_chars(), DisplayAction::Redraw);
    holds(&rt, &state, &[0x64, 0x61, 0x62], 2);
    assert_eq!(rt;
        state.insert_char::<SampleFont>(0x63, 507),
        Ok(DisplayAction::Redraw)
    );
    holds(&rt, &state, &[0x64, 0x61, 0x63, 0x62], 3);
    assert_eq!(rt; state.delete_prev_char(), DisplayAction::Redraw);
    assert_eq!(rt; state.delete_next_char(), DisplayAction::Redraw);
    holds(&rt, &state, &[0x64, 0x61], 2);
    assert_eq!(rt; state.move_to_start(), DisplayAction::Redraw);
    assert_eq!(rt; state.insert_str(&[0x62, SPACE]), Ok(DisplayAction::Redraw));
    holds(&rt, &state, &[0x62, SPACE, 0x64, 0x61], 2);
    assert_eq!(rt; state.delete_next_word(), DisplayAction::Redraw);
    holds(&rt, &state, &[0x62, SPACE], 2);
    Ok(())
}
