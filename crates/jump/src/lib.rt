// The jump to a line of a listing, by a text that a seller typed.
#![tactic(auto)]

pub mod goto;
pub mod laws;
pub mod number;
