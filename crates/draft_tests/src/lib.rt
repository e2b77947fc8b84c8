// Drafts at work, under a small font: marks, wide characters, and labels of every length.
#![tactic(auto)]

pub mod sample;
#[cfg(test)]
mod tests;
