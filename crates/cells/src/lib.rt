// The cell row: a glass in memory of its own, which its host can read back.
#![tactic(auto)]

pub mod cell_row;
mod marks;
pub mod table;
