//! From the text of a schedule to what is printed of it: the text's fault, or the listing of the run.
#![tactic(auto)]

pub mod answer;
mod running;
