//! The lockstep run up to a round, by the words of a book.
ghost use Rattle.std.specs.Prelude.{◌≡◌, ◌≤◌, ◌++◌, length, take, drop};
ghost use Rattle.stations.specs.declared.TheConstants.{STATIONS};
ghost use Rattle.recount.specs.Recount.{recounted};

use crate::advance::LockstepRound;
use frames::index::Index;
use rules::{Rule, first_states};

/// Leaves the lockstep run at the round in the first cells of `states`.
pub fn run_rounds<R: Rule>(
    rule: &R,
    values: &[u16],
    book: &[u64],
    round: u16,
    states: &mut [R::State],
    scratch: &mut [R::State],
)
    requires { (length values.now ≤ STATIONS) × ((length values.now ≤ length states.old) × (length values.now ≤ length scratch.old)) }
    ensures { states.new ≡ recounted (R.Rule.behaviour rule.now) values.now book.now round states.old }
{
    let n = values.len();
    let index = Index::of(book);
    first_states(rule, values, states);
    for k in 0..round {
        let heard = index.heard_in_round(k);
        let this_round = LockstepRound {
            rule,
            n,
            round: k,
            heard: &heard,
            states,
        };
        this_round.advance(scratch);
        states[..n].copy_from_slice(&scratch[..n]);
    }
}
