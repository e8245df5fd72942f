//! The text of a schedule: what a schedule is, how its text is read, and what can be wrong with it.
#![tactic(auto)]

pub mod halt;
pub mod reader;
pub mod types;
