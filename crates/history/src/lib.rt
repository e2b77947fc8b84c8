// History: what was typed before, as bytes of the host's, and the drafts of a session.
#![tactic(auto)]

pub mod laws;
mod lines;
mod loader;
mod readable;
mod spelling;
pub mod store;
pub mod writing;
