//! The shed and its calls.
#![tactic(auto)]

pub mod buffers;
mod cells;
mod rows;
pub mod shed;
pub mod table;
