// One drawing on both glasses, under the foyer font: the cell row as a person sees it, and the record in hexadecimal.
use font::foyer::FoyerFont;
use transcript::by_hand::{RECORD_BYTES, draw_by_hand};
use transcript::fault::CallError;
use transcript::outcomes::print_end;
use transcript::showing::{Cells, Hex, Pens, front};

/// Draws by hand on a cell row and a recorder of one width, and prints what both hold.
pub fn show(rt: &impl Print, width: usize) -> Result<(), CallError> {
    let mut buffer = [0; RECORD_BYTES];
    let both = draw_by_hand::<FoyerFont>(width, &mut buffer)?;
    println!(rt; "drawn")?;
    println!(rt; "  cells  [{}]", Cells(&both.cells))?;
    println!(rt; "  pens   [{}]", Pens(&both.cells))?;
    print_end(rt, both.drawn)?;
    println!(rt; "  record{}", Hex(front(&buffer, both.used)))?;
    print_end(rt, both.recorded)?;
    Ok(())
}
