//! Why a call is refused.
ghost use Rattle.std.specs.Prelude.{◌≡◌};
ghost use Rattle.protocol.specs.Refusals.{reason, refusal_number, of_pool};

use frames::pool::PoolRefusal;
use refusal_numbers::Reason;

/// In checking order. Whatever is refused leaves the shed and its buffers as they were.
#[derive(Clone, Copy, Debug, PartialEq, Eq)]
pub enum Refusal {
    /// The shed is not open.
    Shut,
    /// The shed is open already.
    AlreadyOpen,
    /// There are no opening values, or more than the rule's most stations.
    ValueCount,
    /// The pool is empty or too long, or the book is too long.
    BufferSize,
    /// A buffer is too short, or the pool or the book has another length than at opening.
    BufferMismatch,
    NoSuchStation,
    NoSuchPlace,
    /// The word at the place is no frame of these stations and this rule.
    Unreadable,
    StationDown,
    /// The station listens: it has sent in this round.
    AlreadySent,
    /// The station is fresh: it has not sent in this round.
    NotListening,
    /// The station holds a letter for a later round.
    HoldsLetter,
    PoolFull,
    BookFull,
    /// The station is in the last round, or a run is asked for past it.
    LastRound,
}

impl Refusal {
    /// The number by which a listing tells the refusal.
    pub fn number(&self) -> u8
        ensures { result ≡ refusal_number self.now }
    {
        Reason::from(*self).number()
    }
}

impl From<Refusal> for Reason {
    ghost from_gives = { λ f r. r ≡ reason f };

    fn from(refusal: Refusal) -> Reason {
        match refusal {
            Refusal::Shut => Reason::Shut,
            Refusal::AlreadyOpen => Reason::AlreadyOpen,
            Refusal::ValueCount => Reason::ValueCount,
            Refusal::BufferSize => Reason::BufferSize,
            Refusal::BufferMismatch => Reason::BufferMismatch,
            Refusal::NoSuchStation => Reason::NoSuchStation,
            Refusal::NoSuchPlace => Reason::NoSuchPlace,
            Refusal::Unreadable => Reason::Unreadable,
            Refusal::StationDown => Reason::StationDown,
            Refusal::AlreadySent => Reason::AlreadySent,
            Refusal::NotListening => Reason::NotListening,
            Refusal::HoldsLetter => Reason::HoldsLetter,
            Refusal::PoolFull => Reason::PoolFull,
            Refusal::BookFull => Reason::BookFull,
            Refusal::LastRound => Reason::LastRound,
        }
    }
}

// A refusal of the pool goes up unchanged.
impl From<PoolRefusal> for Refusal {
    ghost from_gives = { λ p r. r ≡ of_pool p };

    fn from(refusal: PoolRefusal) -> Refusal {
        match refusal {
            PoolRefusal::NoSuchPlace => Refusal::NoSuchPlace,
            PoolRefusal::Unreadable => Refusal::Unreadable,
            PoolRefusal::Full => Refusal::PoolFull,
        }
    }
}
