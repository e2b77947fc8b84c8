// What rows and records look like here, and one drawing made by hand on both glasses, under the foyer font.
use cells::cell_row::CellRow;
use font::foyer::FoyerFont;
use std::io;
use transcript::by_hand::{RECORD_BYTES, draw_by_hand};
use transcript::fault::CallError;
use transcript::outcomes::print_end;
use transcript::showing::{Cells, Hex, Pens, front};

/// Prints the row, and below it the pens and the cursor.
pub fn print_row(rt: &impl Print, row: &CellRow<FoyerFont>) -> io::Result<()> {
    println!(rt; "  [{}]", Cells(row))?;
    println!(rt; "  [{}]", Pens(row))
}

/// Prints bytes in hexadecimal, 24 to a line.
pub fn print_record(rt: &impl Print, bytes: &[u8]) -> io::Result<()> {
    for part in bytes.chunks(24) {
        println!(rt; " {}", Hex(part))?;
    }
    Ok(())
}

/// Draws by hand on a cell row and a recorder of one width, and prints what both hold.
pub fn show(rt: &impl Print, width: usize) -> Result<(), CallError> {
    let mut buffer = [0; RECORD_BYTES];
    let both = draw_by_hand::<FoyerFont>(width, &mut buffer)?;
    println!(rt; "drawn")?;
    print_row(rt, &both.cells)?;
    print_end(rt, both.drawn)?;
    print_record(rt, front(&buffer, both.used))?;
    print_end(rt, both.recorded)?;
    Ok(())
}
