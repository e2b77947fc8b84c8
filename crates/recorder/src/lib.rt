// The recorder: a glass that keeps what it is told as bytes, in a buffer that its maker lends.
#![tactic(auto)]

pub mod recorder;
