//! OneThirdRule: a station that hears more than two thirds of the stations takes the value that it hears most often.
#![tactic(auto)]

ghost use Rattle.std.specs.Prelude.{◌≡◌, ◌*◌, ◌≤◌, false, length, nat_lt, refl};
ghost use Rattle.rules.specs.Rule.{outside};
ghost use Rattle.third_rule.specs.Third.{third, letter_fits, occurs, before, most_frequent};
ghost use Rattle.third_rule.specs.Moves.{Moves};
ghost use Rattle.third_rule.proofs.Laws.{third_interface, third_laws, third_ranges};
ghost use Rattle.std.proofs.Common.{rules};

use rules::{Rule, count_letters, is_outside};
pub use third_rule::{Letter, State};

// How many letters have the value.
fn count_of(value: u16, mailbox: &[Option<Letter>]) -> usize
    ensures value { result ≡ occurs value mailbox.now }
    ensures bound { result ≤ length mailbox.now }
{
    let mut count = 0;
    for place in mailbox {
        if *place == Some(Letter { value }) {
            count += 1;
        }
    }
    count
}

// Whether a value goes before the best so far: it occurs more often, or as often and is smaller.
fn goes_before(count: usize, value: u16, most: usize, best: u16) -> bool
    ensures { result ≡ before count value most best }
{
    (most, value) < (count, best)
}

// Whether so many are more than two thirds of n stations.
fn is_quorum(count: usize, n: usize) -> bool
    requires few_letters { count ≤ 16 }
    requires few_stations { n ≤ 16 }
    ensures { result ≡ nat_lt (2 * n) (3 * count) }
{
    3 * count > 2 * n
}

// The value that occurs most often, the smallest of these in a tie, and how often it does; `own` if there is no letter.
// A value is counted from its first sender on, and not again while it is the best.
fn commonest(mailbox: &[Option<Letter>], own: u16) -> (u16, usize)
    requires { length mailbox.now ≤ 16 }
    ensures value { result.0 ≡ most_frequent mailbox.now own }
    ensures count { result.1 ≡ occurs result.0 mailbox.now }
    ensures bound { result.1 ≤ length mailbox.now }
{
    let mut best = own;
    let mut most = count_of(own, mailbox);
    for (sender, place) in mailbox.iter().enumerate() {
        if let Some(l) = place {
            if l.value != best {
                let count = count_of(l.value, &mailbox[sender..]);
                if goes_before(count, l.value, most, best) {
                    best = l.value;
                    most = count;
                }
            }
        }
    }
    (best, most)
}

/// The rule.
#[derive(Clone, Copy)]
pub struct Third;

impl Rule for Third {
    type State = State;

    type Letter = Letter;

    const MAX_STATIONS: usize = 16;

    ghost MAX_STATIONS = { 16 };

    ghost behaviour = { λ _. third };

    ghost letter_fits = { letter_fits };

    ghost most = { λ rule. refl };

    ghost interface = { λ rule. third_interface };

    ghost laws = { λ rule. third_laws };

    ghost ranges = { λ rule. third_ranges };

    ghost room = { Prim.search rules };

    fn first(&self, _n: usize, _station: usize, value: u16) -> State {
        State { value, hull: None }
    }

    // Every station writes its value to every station, itself too, in every round.
    fn letter(
        &self,
        n: usize,
        sender: usize,
        round: u16,
        state: &State,
        receiver: usize,
    ) -> Option<Letter> {
        if is_outside(Self::MAX_STATIONS, n, sender, round) || receiver >= n {
            return None;
        }
        Some(Letter { value: state.value })
    }

    fn next(
        &self,
        n: usize,
        station: usize,
        round: u16,
        state: &State,
        mailbox: &[Option<Letter>],
    ) -> State
        ensures value { result ≡ third.next n station round state.now mailbox.now }
        ensures moves { outside third.most n station round ≡ false → length mailbox.now ≡ n → Moves n state.now mailbox.now result }
    {
        if is_outside(Self::MAX_STATIONS, n, station, round) || mailbox.len() != n {
            return *state;
        }
        let (best, count) = commonest(mailbox, state.value);
        let value = if is_quorum(count_letters(mailbox), n) {
            best
        } else {
            state.value
        };
        let hull = state.hull.or(is_quorum(count, n).then_some(best));
        State { value, hull }
    }

    fn hull(&self, state: &State) -> Option<u16> {
        state.hull
    }

    // The value in 16 bits, then 28 zero bits.
    fn pack(&self, letter: &Letter) -> u64 {
        u64::from(letter.value) << 28
    }

    fn unpack(&self, word: u64) -> Option<Letter> {
        match u16::try_from(word >> 28) {
            Ok(value) if word % (1 << 28) == 0 => Some(Letter { value }),
            _ => None,
        }
    }
}
