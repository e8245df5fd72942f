//! What is printed: the line of a fault, or the listing of a run.
#![tactic(auto)]

mod line;
mod lines;
pub mod printer;
mod reception;
