//! Why a call that asks for memory came to nothing.
ghost use Rattle.std.specs.Prelude.{◌≡◌};
ghost use Rattle.schedule_text.specs.declared.halt.Halt.TheVariants.{Refused, NoMemory};

use protocol::refusal::Refusal;
use std::alloc::{AllocError, AllocFailed};

/// Why a call came to nothing.
#[derive(Clone, Copy, Debug, PartialEq, Eq)]
pub enum Halt<E> {
    /// It was refused, for a reason of its own kind.
    Refused(E),
    /// It was out of memory.
    NoMemory,
}

impl<E> From<AllocError> for Halt<E> {
    ghost from_gives = { λ _ r. r ≡ NoMemory };

    fn from(_error: AllocError) -> Halt<E> {
        Halt::NoMemory
    }
}

impl<E, T: Drop> From<AllocFailed<T>> for Halt<E> {
    ghost from_gives = { λ _ r. r ≡ NoMemory };

    fn from(_error: AllocFailed<T>) -> Halt<E> {
        Halt::NoMemory
    }
}

impl From<Refusal> for Halt<Refusal> {
    ghost from_gives = { λ f r. r ≡ Refused f };

    fn from(refusal: Refusal) -> Halt<Refusal> {
        Halt::Refused(refusal)
    }
}
