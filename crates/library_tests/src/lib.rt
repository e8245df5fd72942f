//! The library on examples: what it answers as it is built, and what the two rules come to.
#![tactic(auto)]

#[cfg(test)]
mod calls;
#[cfg(test)]
mod runs;
#[cfg(test)]
mod words;
