//! Lemmas on lists by places, on counting, and on options: what the crates above share. It has no code.
#![tactic(auto)]
