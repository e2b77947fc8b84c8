// The cell row on examples.
use crate::Trial;
use cells::cell_row::CellRow;
use cells::table::{BLANK, Slot};
use glass::{Colours, Glass, Ink, PLAIN, Pen, PenChange};
use std::test::Fail;
use text::refusal::Refusal;

const LETTER: u32 = 0x61;

const WIDE: u32 = 0x3042;

const MARK: u32 = 0x301;

const RIGHT_HALF: Slot = Slot {
    ink: Ink::RightHalf,
    pen: PLAIN,
};

fn shown(code: u32) -> Option<Slot> {
    Some(Slot {
        ink: Ink::Shown(code),
        pen: PLAIN,
    })
}

#[test]
fn widths(rt: HostRuntime) -> Result<(), Fail> {
    assert!(rt; CellRow::<Trial>::new(0).is_err());
    assert!(rt; CellRow::<Trial>::new(513).is_err());
    let mut row: CellRow<Trial> = CellRow::new(512)?;
    assert_eq!(rt; row.width(), 512);
    assert_eq!(rt; row.spare_left(), 2048);
    assert_eq!(rt; row.place(512), Err(Refusal::OutsideGlass));
    row.place(511)?;
    assert_eq!(rt; row.reshape(0), Err(Refusal::OutsideGlass));
    assert_eq!(rt; row.reshape(513), Err(Refusal::OutsideGlass));
    row.reshape(1)?;
    assert_eq!(rt; row.width(), 1);
    assert_eq!(rt; row.cursor(), 0);
    assert_eq!(rt; row.cell(1), None);
    Ok(())
}

#[test]
fn wide_at_the_end(rt: HostRuntime) -> Result<(), Fail> {
    let mut row: CellRow<Trial> = CellRow::new(4)?;
    row.place(3)?;
    row.text(&[WIDE])?;
    assert_eq!(rt; row.cursor(), 3);
    assert_eq!(rt; row.cell(3), Some(BLANK));
    row.place(2)?;
    row.text(&[WIDE])?;
    assert_eq!(rt; row.cursor(), 4);
    assert_eq!(rt; row.cell(2), shown(WIDE));
    assert_eq!(rt; row.cell(3), Some(RIGHT_HALF));
    Ok(())
}

#[test]
fn half_overwritten(rt: HostRuntime) -> Result<(), Fail> {
    let mut row: CellRow<Trial> = CellRow::new(4)?;
    row.text(&[WIDE, WIDE])?;
    row.place(1)?;
    row.text(&[LETTER])?;
    assert_eq!(rt; row.cell(0), shown(WIDE));
    assert_eq!(rt; row.cell(1), shown(LETTER));
    row.text(&[LETTER])?;
    assert_eq!(rt; row.cell(2), shown(LETTER));
    assert_eq!(rt; row.cell(3), Some(RIGHT_HALF));
    Ok(())
}

#[test]
fn marks_find_their_cell(rt: HostRuntime) -> Result<(), Fail> {
    let mut row: CellRow<Trial> = CellRow::new(3)?;
    row.text(&[MARK])?;
    assert_eq!(rt; row.marks(0).len(), 0);
    row.text(&[WIDE, MARK, MARK + 1])?;
    assert_eq!(rt; row.marks(0).len(), 2);
    assert_eq!(rt; row.marks(1).len(), 0);
    // The wide character is lost, and the mark goes to the one before it.
    row.text(&[WIDE, MARK])?;
    assert_eq!(rt; row.marks(0).len(), 3);
    row.text(&[LETTER, MARK])?;
    assert_eq!(rt; row.marks(2).len(), 1);
    assert_eq!(rt; row.marks(3).len(), 0);
    assert_eq!(rt; row.mark_count(), 4);
    assert_eq!(rt; row.spare_left(), 2044);
    let marks = row.marks(0);
    assert!(rt; marks.len() == 3);
    assert_eq!(rt; marks[0].code, MARK);
    assert_eq!(rt; marks[1].code, MARK + 1);
    assert_eq!(rt; marks[2].code, MARK);
    Ok(())
}

#[test]
fn marks_go_with_their_cell(rt: HostRuntime) -> Result<(), Fail> {
    let mut row: CellRow<Trial> = CellRow::new(3)?;
    row.text(&[LETTER, MARK, LETTER, MARK, LETTER, MARK])?;
    row.place(1)?;
    row.text(&[LETTER])?;
    assert_eq!(rt; row.marks(1).len(), 0);
    assert_eq!(rt; row.marks(2).len(), 1);
    row.clear()?;
    assert_eq!(rt; row.marks(2).len(), 0);
    assert_eq!(rt; row.cell(2), Some(BLANK));
    assert_eq!(rt; row.marks(0).len(), 1);
    assert_eq!(rt; row.spare_left(), 2047);
    Ok(())
}

#[test]
fn table_full(rt: HostRuntime) -> Result<(), Fail> {
    let mut row: CellRow<Trial> = CellRow::new(2)?;
    row.text(&[LETTER])?;
    // Spare 2,048: a text of 2,048 characters costs one more.
    assert_eq!(rt; row.text(&[MARK; 2048]), Err(Refusal::LowSpare));
    assert_eq!(rt; row.marks(0).len(), 0);
    row.text(&[MARK; 2047])?;
    assert_eq!(rt; row.marks(0).len(), 2047);
    assert_eq!(rt; row.spare_left(), 1);
    assert_eq!(rt; row.text(&[MARK]), Err(Refusal::LowSpare));
    row.text(&[])?;
    row.pen(PenChange::Prompt)?;
    row.place(0)?;
    row.clear()?;
    assert_eq!(rt; row.spare_left(), 2048);
    Ok(())
}

#[test]
fn pens(rt: HostRuntime) -> Result<(), Fail> {
    let mut row: CellRow<Trial> = CellRow::new(2)?;
    row.pen(PenChange::Prompt)?;
    row.pen(PenChange::ReverseOn)?;
    let reversed = Pen {
        colours: Colours::Prompt,
        reversed: true,
    };
    assert_eq!(rt; row.current_pen(), reversed);
    row.text(&[LETTER])?;
    row.pen(PenChange::Plain)?;
    assert_eq!(rt; row.current_pen(), PLAIN);
    assert_eq!(rt;
        row.cell(0),
        Some(Slot {
            ink: Ink::Shown(LETTER),
            pen: reversed,
        })
    );
    Ok(())
}

#[test]
fn no_scalar(rt: HostRuntime) -> Result<(), Fail> {
    let mut row: CellRow<Trial> = CellRow::new(2)?;
    assert_eq!(rt; row.text(&[LETTER, 0xD800]), Err(Refusal::NotScalar));
    assert_eq!(rt; row.cell(0), Some(BLANK));
    row.text(&[0x07, LETTER])?;
    assert_eq!(rt; row.cell(0), shown(LETTER));
    Ok(())
}
