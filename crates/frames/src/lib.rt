//! Frames, the pool's words and book entries: what the shed keeps as words of 64 bits.
#![tactic(auto)]

use rules::LAST_ROUND;

pub mod book;
pub mod frame;
pub mod index;
pub mod pool;

/// How many rounds the bits of a word tell apart: those up to the last round.
pub const ROUNDS: u16 = LAST_ROUND + 1;
