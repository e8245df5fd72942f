//! Lockstep runs: what the two rules come to by whom the stations hear.
use last::Last;
use protocol::refusal::Refusal;
use recount::recount;
use recount::round::lockstep_round;
use rules::{Rule, count_letters, is_outside};
use stations::{STATIONS, StationSet};
use std::array;
use third::Third;

// By station the senders that three stations hear in a round, as the heard bits of a word.
type Hears = [u64; 3];

const ALL: Hears = [0xE000; 3];

// Station 2 hears nobody.
const BUT_2: Hears = [0xE000, 0xE000, 0];

// The words of a book that says so of eight rounds.
fn book_of(rounds: &[Hears; 8]) -> [u64; 24] {
    array::from_fn(|place| {
        let station = place % 3;
        let round = place / 3;
        let bits = rounds.get(round).map_or(0, |sets| sets[station]);
        (station as u64) << 60 | (round as u64) << 48 | bits << 32
    })
}

// The hulls of three stations that open with 5, 7 and 9, at a round that a book tells.
fn hulls_at(round: u16, book: &[u64]) -> (Result<u16, Refusal>, [Option<u16>; 3]) {
    let mut states = [Last.first(3, 0, 0); 3];
    let mut scratch = states;
    let mut row = [last::Letter { value: 0, stamp: 0 }; 3];
    let answer = recount(
        &Last,
        &[5, 7, 9],
        book,
        round,
        &mut states,
        &mut scratch,
        &mut row,
    );
    (answer, states.map(|state| Last.hull(&state)))
}

// Two phases of LastVoting, with stations 0 and 1 as coordinators.
#[test]
fn last_voting(rt: HostRuntime) {
    // station 2 does not hear the coordinator, and catches up in the next phase
    let missed = [ALL, BUT_2, ALL, BUT_2, ALL, ALL, ALL, ALL];
    let cases = [
        (missed, 3, [None; 3]),
        (missed, 4, [Some(5), Some(5), None]),
        (missed, 8, [Some(5); 3]),
    ];
    for (rounds, round, hulls) in cases {
        assert_eq!(rt; hulls_at(round, &book_of(&rounds)), (Ok(round), hulls));
    }
}

// One round of OneThirdRule among three stations that hear all, and the questions that a rule asks.
#[test]
fn one_third_rule(rt: HostRuntime) {
    let states = [Third.first(3, 0, 7); 3];
    let mut next = states;
    let heard = [StationSet::from_bits(0xE000); STATIONS];
    let answer = lockstep_round(&Third, 3, 0, &heard, &states, &mut next);
    assert_eq!(rt; answer, Ok(1));
    assert_eq!(rt; next.map(|state| Third.hull(&state)), [Some(7); 3]);
    assert!(rt; !is_outside(16, 3, 2, 4095));
    assert_eq!(rt; count_letters(&[Some(7), None, Some(9)]), 2);
}
