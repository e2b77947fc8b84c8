// Tests of history: bytes in, drafts, bytes out.
#![tactic(auto)]

#[cfg(test)]
mod loading;
#[cfg(test)]
mod makes;
#[cfg(test)]
mod opening;
#[cfg(test)]
mod writing;
