// Tests of the fonts. They have a crate of their own, so that the crate `font` is proved once.
#![tactic(auto)]

#[cfg(test)]
mod tests;
