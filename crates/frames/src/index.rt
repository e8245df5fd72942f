//! The words of a book by station and round, so that whom a station heard is found without a search.
ghost use Rattle.std.specs.Prelude.{◌≡◌, ℕ, List};
ghost use Rattle.frames.specs.Book.{heard_sets};
ghost use Rattle.frames.specs.Index.{Indexes};

use crate::ROUNDS;
use crate::book::senders_in;
use stations::{STATIONS, StationSet};
use std::array;

// A word for each station in each round.
const PLACES: usize = STATIONS * ROUNDS as usize;

/// The first word of a book for each station and round, at the place that its upper 16 bits name; 0 where there is none.
/// It takes 512 KiB by value, and no memory from the heap.
#[derive(Clone, Copy)]
pub struct Index {
    words: [u64; PLACES],
}

impl Index {
    /// The words are read from the last to the first, so that the first for a place stays.
    pub fn of(book: &[u64]) -> Index
        ensures { Indexes result.words book.now }
    {
        let mut words = [0; PLACES];
        for word in book.iter().rev() {
            words[(*word >> 48) as usize] = *word;
        }
        Index { words }
    }

    /// Whom the words of the book name for each station in a round.
    pub fn heard_in_round(&self, round: u16) -> [StationSet; STATIONS]
        ensures { (book : List ℕ) → Indexes self.now.words book → result ≡ heard_sets book round }
    {
        if round >= ROUNDS {
            return [StationSet::empty(); STATIONS];
        }
        array::from_fn(|station| senders_in(
            self.words[station * usize::from(ROUNDS) + usize::from(round)],
        ))
    }
}
