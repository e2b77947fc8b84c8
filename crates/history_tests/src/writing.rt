// What is written into a lent buffer.
use crate::makes::{numbered, repeated, typed};
use history::writing::write;
use std::process::Abort;
use std::test::Fail;
use text::refusal::Refusal;

/// Whether writing a draft gives these bytes, and leaves the others of the buffer.
fn writes(rt: &impl Abort, text: &[u32], history: &[u8], bytes: &[u8]) -> Result<(), Fail> {
    let mut out = [0xEE; 64];
    let written = write(&typed(text)?, history, &mut out)?;
    assert_eq!(rt; written, Some(bytes.len()));
    let Some((front, rest)) = out.split_at_checked(bytes.len()) else {
        return Err(Fail::new("too many bytes"));
    };
    assert!(rt; front == bytes);
    assert!(rt; rest.iter().all(|b| *b == 0xEE));
    Ok(())
}

#[test]
fn a_line_is_added(rt: HostRuntime) -> Result<(), Fail> {
    writes(&rt, &[0x62], b"", b"b\n")?;
    writes(&rt, &[0x62], b"a", b"a\nb\n")?;
    writes(&rt, &[0x62], b"\n\na\r\n\xFF\nc\n", b"a\nc\nb\n")?;
    writes(
        &rt,
        &[0x5C, 0x07, 0x7F, 0xE9],
        b"",
        b"\\\\\\x07\\x7F\xC3\xA9\n",
    )
}

#[test]
fn nothing_to_add(rt: HostRuntime) -> Result<(), Fail> {
    let mut out = [0xEE; 4];
    assert_eq!(rt; write(&typed(&[])?, b"a\n", &mut out)?, None);
    assert_eq!(rt; write(&typed(&[0x62])?, b"a\nb\n\xFF\n", &mut out)?, None);
    assert!(rt; out == [0xEE; 4]);
    Ok(())
}

#[test]
fn a_full_buffer_and_one_short(rt: HostRuntime) -> Result<(), Fail> {
    let draft = typed(&[0x62])?;
    let mut full = [0xEE; 4];
    assert_eq!(rt; write(&draft, b"a\n", &mut full)?, Some(4));
    assert!(rt; full == *b"a\nb\n");
    let mut short = [0xEE; 3];
    assert!(rt; write(&draft, b"a\n", &mut short) == Err(Refusal::BufferTooShort));
    assert!(rt; short == [0xEE; 3]);
    Ok(())
}

#[test]
fn thirty_lines_are_kept(rt: HostRuntime) -> Result<(), Fail> {
    let history = numbered(rt.alloc(), 31)?;
    let mut out = [0xEE; 160];
    assert_eq!(rt;
        write(&typed(&[0x62])?, history.as_slice(), &mut out)?,
        Some(152)
    );
    assert!(rt; out[0..5] == b"0001\n"[..]);
    assert!(rt; out[145..153] == b"0030\nb\n\xEE"[..]);
    Ok(())
}

#[test]
fn longest_history(rt: HostRuntime) -> Result<(), Fail> {
    let mut history = repeated(rt.alloc(), b"a\n", 32768)?;
    let draft = typed(&[0x62])?;
    let mut out = [0xEE; 62];
    assert_eq!(rt; write(&draft, history.as_slice(), &mut out)?, Some(62));
    history.extend_from_slice(b"a")?;
    assert!(rt; write(&draft, history.as_slice(), &mut []) == Err(Refusal::HistoryTooLong));
    Ok(())
}
