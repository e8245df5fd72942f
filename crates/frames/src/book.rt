//! A book entry: a station's finished round with the senders that it heard, as one word; and whom a book's words name.
ghost use Rattle.std.specs.Prelude.{◌≡◌};
ghost use Rattle.frames.specs.Book.{packed_entry, station_in, round_in, senders_in, read_entry, EntryBack, EntryAgain, heard_set, heard_sets};

use crate::ROUNDS;
use stations::{STATIONS, StationSet};

/// The word of a book entry: station 4 bits, round 12, heard set 16, then 32 zero bits.
/// None if the station or the round is too large for its bits. A word reads back as its entry.
pub fn pack_entry(station: usize, round: u16, heard: StationSet) -> Option<u64>
    ensures word { result ≡ packed_entry station round heard }
    ensures reads_back { EntryBack station round heard result }
{
    if station >= STATIONS || round >= ROUNDS {
        return None;
    }
    let head = (station * usize::from(ROUNDS)) as u64 + u64::from(round);
    Some(head * (1 << 48) + u64::from(heard.bits()) * (1 << 32))
}

// The station that a word names.
fn station_in(word: u64) -> usize
    ensures { result ≡ station_in word }
{
    (word >> 60) as usize
}

// The round that a word names.
fn round_in(word: u64) -> u16
    ensures { result ≡ round_in word }
{
    ((word >> 48) % u64::from(ROUNDS)) as u16
}

// The senders that a word names.
pub(crate) fn senders_in(word: u64) -> StationSet
    ensures { result ≡ senders_in word }
{
    StationSet::from_bits(((word >> 32) % (1 << STATIONS)) as u16)
}

/// The station, the round and the heard set of a word. Every word is an entry: its low 32 bits are ignored, and without
/// them the entry packs again into the same word.
pub fn read_entry(word: u64) -> (usize, u16, StationSet)
    ensures entry { result ≡ read_entry word }
    ensures packs_again { EntryAgain word result }
{
    (station_in(word), round_in(word), senders_in(word))
}

/// Whom the words name for a station and a round: the senders of the first word for both, or nobody.
pub fn senders(words: &[u64], station: usize, round: u16) -> StationSet
    ensures { result ≡ heard_set words.now station round }
{
    words
        .iter()
        .copied()
        .find(|word| station_in(*word) == station && round_in(*word) == round)
        .map_or(StationSet::empty(), senders_in)
}

/// Whom the words name for each station in a round, by the first word for both, in one pass over the words.
pub fn heard_in_round(words: &[u64], round: u16) -> [StationSet; STATIONS]
    ensures { result ≡ heard_sets words.now round }
{
    let mut sets = [StationSet::empty(); STATIONS];
    for word in words.iter().rev() {
        if round_in(*word) == round {
            sets[station_in(*word)] = senders_in(*word);
        }
    }
    sets
}
