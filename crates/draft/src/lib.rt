// Drafts: a line of text that is edited, and the offset from which it is shown.
#![tactic(auto)]

pub mod action;
pub mod laws;
pub mod state;
pub mod words;
