// A transcript: how the calls of a script are read, and how what they came to is written for a person.
#![tactic(auto)]

pub mod by_hand;
pub mod fault;
pub mod outcomes;
pub mod reading;
pub mod script;
pub mod showing;
