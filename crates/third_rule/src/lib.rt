//! OneThirdRule by its definition: a station that hears more than two thirds of the stations takes the value that it hears
//! most often. Here stand the kinds of its states and letters; the crate `third` has its code.
#![tactic(auto)]

/// A station's state.
#[derive(Clone, Copy, Debug, PartialEq, Eq)]
pub struct State {
    /// Its value.
    pub value: u16,
    /// The hull that it shows.
    pub hull: Option<u16>,
}

/// A letter: its sender's value.
#[derive(Clone, Copy, Debug, PartialEq, Eq)]
pub struct Letter {
    pub value: u16,
}
