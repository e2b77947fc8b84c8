// What lines load to, and which are readable.
use crate::makes::{loads, remembers, repeated};
use std::test::Fail;

#[test]
fn backslashes(rt: HostRuntime) -> Result<(), Fail> {
    loads(&rt, b"\\x+5", b"\x05")?;
    loads(&rt, b"a\\x4", b"a")?;
    loads(&rt, b"a\\", b"a")?;
    loads(&rt, b"\\xZZb", b"b")?;
    loads(&rt, b"\\x4a\\x4B\\\\\\y", b"JK\\y")
}

#[test]
fn returns_before_newlines(rt: HostRuntime) -> Result<(), Fail> {
    loads(&rt, b"a\r\n", b"a")?;
    loads(&rt, b"a\r\r\n", b"a\r")?;
    loads(&rt, b"a\rb\n", b"a\rb")?;
    loads(&rt, b"a\r", b"a\r")
}

#[test]
fn empty_lines(rt: HostRuntime) -> Result<(), Fail> {
    remembers(&rt, b"", 0)?;
    remembers(&rt, b"\n\r\n\n", 0)?;
    remembers(&rt, b"\n\na\n\n\nb\n\n", 2)?;
    // Alone, and with nothing after it, a 0D is a line.
    remembers(&rt, b"\r", 1)
}

#[test]
fn ill_formed_lines(rt: HostRuntime) -> Result<(), Fail> {
    remembers(&rt, b"a\n\xFF\nb\n", 2)?;
    remembers(&rt, b"a\n\xE2\x82\nb\n", 2)?;
    remembers(&rt, b"\xC0\x80\n", 0)
}

#[test]
fn lines_of_1023_to_1025_bytes(rt: HostRuntime) -> Result<(), Fail> {
    let mut shorter = repeated(rt.alloc(), b"\xF0\x9F\x98\x80", 255)?;
    shorter.extend_from_slice(b"\xE2\x82\xAC")?;
    assert_eq!(rt; shorter.len(), 1023);
    remembers(&rt, shorter.as_slice(), 1)?;
    let longest = repeated(rt.alloc(), b"\xF0\x9F\x98\x80", 256)?;
    remembers(&rt, longest.as_slice(), 1)?;
    // 256 characters as well, of which one stands after a backslash.
    let mut longer = repeated(rt.alloc(), b"\xF0\x9F\x98\x80", 255)?;
    longer.extend_from_slice(b"\\\xF0\x9F\x98\x80")?;
    assert_eq!(rt; longer.len(), 1025);
    remembers(&rt, longer.as_slice(), 0)
}

#[test]
fn lines_of_255_to_257_characters(rt: HostRuntime) -> Result<(), Fail> {
    let one_less = repeated(rt.alloc(), b"a", 255)?;
    loads(&rt, one_less.as_slice(), one_less.as_slice())?;
    let full = repeated(rt.alloc(), b"a", 256)?;
    loads(&rt, full.as_slice(), full.as_slice())?;
    let one_more = repeated(rt.alloc(), b"a", 257)?;
    remembers(&rt, one_more.as_slice(), 0)
}
