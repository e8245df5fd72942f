//! The numbers by which refusals are told, of all crates in one table.
#![tactic(auto)]

ghost use Rattle.std.specs.Prelude.{◌≡◌};
ghost use Rattle.refusal_numbers.specs.Numbers.{number_of, IsTheOnlyOne};

/// Why something is refused, a call of the shed first and then the text of a schedule. Each crate has an enum of its own
/// for what it refuses, and says which of these it is.
#[derive(Clone, Copy, Debug, PartialEq, Eq)]
pub enum Reason {
    Shut = 1,
    AlreadyOpen = 2,
    ValueCount = 3,
    BufferSize = 4,
    BufferMismatch = 5,
    NoSuchStation = 6,
    NoSuchPlace = 7,
    Unreadable = 8,
    StationDown = 9,
    AlreadySent = 10,
    NotListening = 11,
    HoldsLetter = 12,
    PoolFull = 13,
    BookFull = 14,
    LastRound = 15,
    TooLong = 16,
    WrongRule = 17,
    WrongValues = 18,
    WrongStep = 19,
    Unfinished = 20,
}

impl Reason {
    /// The reason's number, which no other reason has.
    pub fn number(&self) -> u8
        ensures number { result ≡ number_of self.now }
        ensures its_own { IsTheOnlyOne self.now result }
    {
        *self as u8
    }
}
