//! LastVoting by its definition: in each phase of four rounds a coordinator collects the stations' values and commits to
//! one, the stations adopt it, they acknowledge it, and they decide. Here stand the kinds of its states and letters; the
//! crate `last` has its code.
#![tactic(auto)]

/// The largest stamp. A larger number in a stamp's cell counts as this.
pub const LAST_STAMP: u16 = 1024;

/// A station's state.
#[derive(Clone, Copy, Debug, PartialEq, Eq)]
pub struct State {
    /// Its value.
    pub value: u16,
    /// The stamp of its value: 0 at first, and f + 1 where it was taken in phase f.
    pub stamp: u16,
    /// Its vote as a coordinator. It stays where the marks are cleared.
    pub vote: u16,
    /// Whether it proposes its vote, in the second round of the phase.
    pub committed: bool,
    /// Whether it announces its vote, in the fourth round.
    pub ready: bool,
    /// The hull that it shows.
    pub hull: Option<u16>,
}

/// A letter: a value and its stamp.
#[derive(Clone, Copy, Debug, PartialEq, Eq)]
pub struct Letter {
    pub value: u16,
    pub stamp: u16,
}
