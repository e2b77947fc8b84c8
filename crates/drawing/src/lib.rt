// The drawing of a prompt: the glass calls that show a label and a draft on one row.
#![tactic(auto)]

pub mod draw;
pub mod laws;
pub mod piece;
pub mod sure;
