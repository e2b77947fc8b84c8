// The prompt: a label, the drafts of a session, and the calls that show them on a glass.
#![tactic(auto)]

pub mod calls;
pub mod finished;
mod in_hand;
pub mod keys;
pub mod laws;
pub mod open;
mod perform;
pub mod questions;
pub mod session;
pub mod state;
