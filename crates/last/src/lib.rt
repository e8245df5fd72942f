//! LastVoting: in each phase of four rounds a coordinator collects the stations' values and commits to one, the stations
//! adopt it, they acknowledge it, and they decide.
#![tactic(auto)]

ghost use Rattle.std.specs.Prelude.{◌≡◌, ◌*◌, ◌^◌, ◌<◌, ◌≤◌, Some, nat_lt, refl};
ghost use Rattle.rules.specs.declared.TheConstants.{LAST_ROUND};
ghost use Rattle.last_rule.specs.Last.{last, letter_fits, stamped, counted, phase, coordinator, heard, later, latest, collect, adopt, acknowledge, decide};
ghost use Rattle.last_rule.specs.Moves.{VotesForLatest};
ghost use Rattle.last_rule.proofs.Laws.{last_interface, last_laws, last_ranges};
ghost use Rattle.std.proofs.Common.{rules};

use last_rule::LAST_STAMP;
pub use last_rule::{Letter, State};
use rules::{Rule, count_letters, is_outside};

// How many rounds a phase has.
const PHASE: u16 = 4;

// Where a packed letter's value and stamp begin; the bits below the stamp are 0.
const VALUE_AT: u32 = 28;

const STAMP_AT: u32 = 17;

/// The rule.
#[derive(Clone, Copy)]
pub struct Last;

// What a stamp's cell counts as.
fn capped(stamp: u16) -> u16
    ensures { result ≡ stamped stamp }
{
    stamp.min(LAST_STAMP)
}

// The round's phase.
fn phase_of(round: u16) -> u16
    ensures { result ≡ phase round }
{
    round / PHASE
}

// The coordinator of the round's phase.
fn coordinator_of(n: usize, round: u16) -> usize
    requires { 0 < n }
    ensures value { result ≡ coordinator n round }
    ensures bound { result < n }
{
    usize::from(phase_of(round)) % n
}

// Of the best letter so far and the next one, each with its sender, the one with the larger stamp; the former in a tie.
fn later_of(best: Option<(usize, Letter)>, next: (usize, Letter)) -> (usize, Letter)
    ensures { result ≡ later best next }
{
    match best {
        Some(best) if capped(best.1.stamp) >= capped(next.1.stamp) => best,
        _ => next,
    }
}

// The letter with the largest stamp, the lowest sender's in a tie, and its sender.
fn latest_letter(mailbox: &[Option<Letter>]) -> Option<(usize, Letter)>
    ensures { result ≡ latest mailbox.now }
{
    let mut best = None;
    for (sender, place) in mailbox.iter().enumerate() {
        if let Some(letter) = place {
            best = Some(later_of(best, (sender, *letter)));
        }
    }
    best
}

// Whether a mailbox has letters from more than half of n stations.
fn hears_majority(n: usize, mailbox: &[Option<Letter>]) -> bool
    ensures { result ≡ nat_lt n (2 * heard mailbox.now) }
{
    count_letters(mailbox) > n / 2
}

// First round: a coordinator that hears more than half commits to the value of the latest letter.
fn collected(n: usize, state: &State, mailbox: &[Option<Letter>]) -> State
    ensures { result ≡ collect n mailbox.now state.now }
{
    if !hears_majority(n, mailbox) {
        return *state;
    }
    match latest_letter(mailbox) {
        Some((_, letter)) => State {
            vote: letter.value,
            committed: true,
            ..*state
        },
        None => *state,
    }
}

// Second round: who hears the coordinator takes its vote, and the phase's stamp.
fn adopted(round: u16, state: &State, proposal: Option<Letter>) -> State
    requires { round ≤ LAST_ROUND }
    ensures { result ≡ adopt (phase round) proposal state.now }
{
    match proposal {
        Some(letter) => State {
            value: letter.value,
            stamp: phase_of(round) + 1,
            ..*state
        },
        None => *state,
    }
}

// Third round: a coordinator to whom more than half acknowledge its vote is ready.
fn acknowledged(n: usize, state: &State, mailbox: &[Option<Letter>]) -> State
    ensures { result ≡ acknowledge n mailbox.now state.now }
{
    State {
        ready: state.ready || hears_majority(n, mailbox),
        ..*state
    }
}

// Fourth round: who hears the coordinator shows its vote, if no hull is shown; the coordinator clears its marks.
fn decided(coordinates: bool, state: &State, announcement: Option<Letter>) -> State
    ensures { result ≡ decide coordinates announcement state.now }
{
    State {
        committed: state.committed && !coordinates,
        ready: state.ready && !coordinates,
        hull: state.hull.or(announcement.map(|letter| letter.value)),
        ..*state
    }
}

impl Rule for Last {
    type State = State;

    type Letter = Letter;

    const MAX_STATIONS: usize = 16;

    ghost MAX_STATIONS = { 16 };

    ghost behaviour = { λ _. last };

    ghost letter_fits = { letter_fits };

    ghost most = { λ rule. refl };

    ghost interface = { λ rule. last_interface };

    ghost laws = { λ rule. last_laws };

    ghost ranges = { λ rule. last_ranges };

    ghost room = { Prim.search rules };

    fn first(&self, _n: usize, _station: usize, value: u16) -> State {
        State {
            value,
            stamp: 0,
            vote: 0,
            committed: false,
            ready: false,
            hull: None,
        }
    }

    fn letter(
        &self,
        n: usize,
        sender: usize,
        round: u16,
        state: &State,
        receiver: usize,
    ) -> Option<Letter> {
        if is_outside(Self::MAX_STATIONS, n, sender, round) || receiver >= n {
            return None;
        }
        let coordinator = coordinator_of(n, round);
        // by the round of its phase, the first being 0
        match round % PHASE {
            0 if receiver == coordinator => Some(Letter {
                value: state.value,
                stamp: capped(state.stamp),
            }),
            1 if sender == coordinator && state.committed => Some(Letter {
                value: state.vote,
                stamp: 0,
            }),
            2 if receiver == coordinator && capped(state.stamp) == phase_of(round) + 1 => Some(
                Letter { value: 0, stamp: 0 },
            ),
            3 if sender == coordinator && state.ready => Some(Letter {
                value: state.vote,
                stamp: 0,
            }),
            _ => None,
        }
    }

    // A coordinator that collects votes for the latest letter, if it hears more than half.
    fn next(
        &self,
        n: usize,
        station: usize,
        round: u16,
        state: &State,
        mailbox: &[Option<Letter>],
    ) -> State
        ensures value { result ≡ last.next n station round state.now mailbox.now }
        ensures votes { VotesForLatest n station round state.now mailbox.now result }
    {
        if is_outside(Self::MAX_STATIONS, n, station, round) || mailbox.len() != n {
            return *state;
        }
        let coordinator = coordinator_of(n, round);
        let coordinates = station == coordinator;
        // by the round of its phase, the first being 0
        match round % PHASE {
            0 if coordinates => collected(n, state, mailbox),
            1 => adopted(round, state, mailbox[coordinator]),
            2 if coordinates => acknowledged(n, state, mailbox),
            3 => decided(coordinates, state, mailbox[coordinator]),
            _ => *state,
        }
    }

    fn hull(&self, state: &State) -> Option<u16> {
        state.hull
    }

    // A letter out of range packs as what it counts as.
    fn pack(&self, letter: &Letter) -> u64
        ensures value { result ≡ last.pack letter.now }
        ensures bound { result < 2 ^ 44 }
        ensures counts { last.unpack result ≡ Some (counted letter.now) }
    {
        (u64::from(letter.value) << VALUE_AT) + (u64::from(capped(letter.stamp)) << STAMP_AT)
    }

    fn unpack(&self, word: u64) -> Option<Letter> {
        let value = u16::try_from(word >> VALUE_AT).ok()?;
        let stamp = ((word >> STAMP_AT) % (1 << (VALUE_AT - STAMP_AT))) as u16;
        if word % (1 << STAMP_AT) == 0 && stamp <= LAST_STAMP {
            Some(Letter { value, stamp })
        } else {
            None
        }
    }
}
