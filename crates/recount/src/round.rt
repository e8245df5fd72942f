//! One round of the lockstep run.
ghost use Rattle.std.specs.Prelude.{◌≡◌, true, is_ok};
ghost use Rattle.recount.specs.Recount.{round_call, Advances};

use crate::advance::LockstepRound;
use crate::check::check;
use protocol::refusal::Refusal;
use rules::{LAST_ROUND, Rule};
use stations::{STATIONS, StationSet};

/// Leaves the states of all n stations after the round in the first n cells of `next`, from those before it in the first
/// n of `states` and from whom each station heard, and answers the round after it. If the states are those of a lockstep
/// run at the round, the new ones are those of the run at the round after it. The other cells are as they were. Refused,
/// nothing is written: for the number of stations, then for a buffer with fewer cells, then in the last round.
pub fn lockstep_round<R: Rule>(
    rule: &R,
    n: usize,
    round: u16,
    heard: &[StationSet; STATIONS],
    states: &[R::State],
    next: &mut [R::State],
) -> Result<u16, Refusal>
    ensures call { (result, next.new) ≡ round_call (R.Rule.behaviour rule.now) n round heard.now states.now next.old }
    ensures advances { is_ok result ≡ true → Advances (R.Rule.behaviour rule.now) n round heard.now states.now next.old next.new }
{
    let shortest = states.len().min(next.len());
    check(rule, n, shortest, round >= LAST_ROUND)?;
    let this_round = LockstepRound {
        rule,
        n,
        round,
        heard,
        states,
    };
    this_round.advance(next);
    Ok(round + 1)
}
