// The edges of both fonts, and some labels.
use font::counter::CounterFont;
use font::foyer::FoyerFont;
use font::label::Label;
use font::measure::{columns_in, has_label, is_mark, measured};
use font::{Columns, Font};

/// The ranges of the foyer font as the rule lists them. The codes on either side of each take one column.
const FOYER: &[(u32, u32, Columns)] = &[
    (0x00, 0x1F, Columns::NoWidth),
    (0x7F, 0x9F, Columns::NoWidth),
    (0x0300, 0x036F, Columns::Zero),
    (0x0483, 0x0489, Columns::Zero),
    (0x200B, 0x200F, Columns::Zero),
    (0x20D0, 0x20F0, Columns::Zero),
    (0xFE00, 0xFE0F, Columns::Zero),
    (0xFEFF, 0xFEFF, Columns::Zero),
    (0x1100, 0x115F, Columns::Two),
    (0x2E80, 0x303E, Columns::Two),
    (0x3041, 0x4DBF, Columns::Two),
    (0x4E00, 0xA4CF, Columns::Two),
    (0xAC00, 0xD7A3, Columns::Two),
    (0xF900, 0xFAFF, Columns::Two),
    (0xFE30, 0xFE6F, Columns::Two),
    (0xFF01, 0xFF60, Columns::Two),
    (0xFFE0, 0xFFE6, Columns::Two),
    (0x1F300, 0x1F64F, Columns::Two),
    (0x20000, 0x3FFFD, Columns::Two),
];

#[test]
fn foyer_edges(rt: HostRuntime) {
    for (first, last, columns) in FOYER {
        assert_eq!(rt; FoyerFont::columns_of(*first), *columns);
        assert_eq!(rt; FoyerFont::columns_of(*last), *columns);
        if *first > 0 {
            assert_eq!(rt; FoyerFont::columns_of(*first - 1), Columns::One);
        }
        assert_eq!(rt; FoyerFont::columns_of(last.saturating_add(1)), Columns::One);
    }
    assert_eq!(rt; FoyerFont::columns_of(0x10FFFF), Columns::One);
}

#[test]
fn counter_edges(rt: HostRuntime) {
    for code in [0x20, 0x7E, 0xA0, 0xFF] {
        assert_eq!(rt; CounterFont::columns_of(code), Columns::One);
    }
    for code in [0x00, 0x1F, 0x7F, 0x9F, 0x0100, 0x0301, 0x4E00, 0x10FFFF] {
        assert_eq!(rt; CounterFont::columns_of(code), Columns::NoWidth);
    }
}

/// Whether the label of `code` is `text`.
fn is_spelled(code: u32, text: &str) -> bool {
    let label = Label::of(code);
    label.len() == text.len()
        && label
            .as_slice()
            .iter()
            .copied()
            .eq(text.bytes().map(u32::from))
}

#[test]
fn labels(rt: HostRuntime) {
    for (code, text) in [
        (0x07, "<07>"),
        (0x7F, "<7F>"),
        (0x85, "<U+0085>"),
        (0x0E01, "<U+0E01>"),
        (0x1F300, "<U+1F300>"),
        (0x10FFFF, "<U+10FFFF>"),
    ] {
        assert!(rt; is_spelled(code, text));
    }
    let label = Label::of(0x85);
    assert_eq!(rt; label.truncated(3).len(), 3);
    assert_eq!(rt; label.truncated(9).len(), 8);
}

#[test]
fn columns(rt: HostRuntime) {
    for (code, foyer, counter) in [
        (0x07, 4, 4),
        (0x85, 8, 8),
        (0x0301, 0, 8),
        (0x0E01, 1, 8),
        (0x1F300, 2, 9),
        (0x10FFFF, 1, 10),
    ] {
        assert_eq!(rt; columns_in::<FoyerFont>(code), foyer);
        assert_eq!(rt; columns_in::<CounterFont>(code), counter);
        assert_eq!(rt; is_mark::<FoyerFont>(code), foyer == 0);
        assert_eq!(rt; has_label::<CounterFont>(code), counter >= 4);
    }
    let text = [0x61, 0x0301, 0x4E00, 0x07];
    assert_eq!(rt; measured::<FoyerFont>(&text), 7);
    assert_eq!(rt; measured::<CounterFont>(&text), 21);
}
