// What every layer speaks: refusals, scalar values and white space, UTF-8, the gap in a table, and walks over a text.
#![tactic(auto)]

pub mod gap;
pub mod hex;
pub mod refusal;
pub mod scalar;
pub mod utf8;
pub mod walks;
