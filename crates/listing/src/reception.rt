//! How well a station was reached, counted from the book.
ghost use Rattle.std.specs.Prelude.{◌≡◌, ◌*◌, ◌<◌, ◌≤◌, length};
ghost use Rattle.stations.specs.declared.TheConstants.{STATIONS};
ghost use Rattle.protocol.specs.declared.TheConstants.{MAX_BOOK};
ghost use Rattle.listing.specs.Reception.{letters_in, turns_in_book, letters_heard, rounded, reception_of};

use frames::book::read_entry;

// How many letters were heard in an entry's round.
#[inline(never)]
fn letters_in(word: u64) -> usize
    ensures is { result ≡ letters_in word }
    ensures few { result ≤ STATIONS }
{
    let (_, _, heard) = read_entry(word);
    heard.len()
}

// The station's turns in the book, and the letters that it heard in them.
fn count_turns(station: usize, book: &[u64]) -> (usize, usize)
    ensures turns { result.0 ≡ turns_in_book station book.now }
    ensures heard { result.1 ≡ letters_heard station book.now }
    ensures few { (result.0 ≤ length book.now) × (result.1 ≤ STATIONS * result.0) }
{
    let mut turns = 0;
    let mut letters = 0;
    for word in book {
        if read_entry(*word).0 == station {
            turns += 1;
            letters += letters_in(*word);
        }
    }
    (turns, letters)
}

// A quotient as the whole number that is printed for it: rounded down.
fn quotient(part: usize, whole: usize) -> usize
    requires { 0 < whole }
    ensures { result ≡ rounded part whole }
{
    part / whole
}

// What part of the letters due in its turns the station heard, of n stations: in hundredths, and 0 without turns.
pub(crate) fn reception(n: usize, station: usize, book: &[u64]) -> usize
    requires { (0 < n) × ((n ≤ STATIONS) × (length book.now ≤ MAX_BOOK)) }
    ensures is { result ≡ reception_of n station book.now }
    ensures few { result ≤ 100 * STATIONS }
{
    let (turns, heard) = count_turns(station, book);
    if turns == 0 {
        return 0;
    }
    quotient(100 * heard, n * turns)
}
