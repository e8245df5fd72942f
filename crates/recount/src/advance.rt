//! The states of all stations after a round of the lockstep run, from those before it.
ghost use Rattle.std.specs.Prelude.{◌≡◌, ◌<◌, ◌≤◌, length, take};
ghost use Rattle.lists.specs.Lists.{tabulate, written};
ghost use Rattle.stations.specs.declared.TheConstants.{STATIONS};
ghost use Rattle.stations.specs.Stations.{contains};
ghost use Rattle.rules.specs.Rule.{letter_heard};
ghost use Rattle.recount.specs.Recount.{letter_in, state_in, state_after};

use rules::Rule;
use stations::{STATIONS, StationSet};

/// A round of n stations: whom each of them hears in it, and all states before it.
#[derive(Drop)]
pub struct LockstepRound<'a, R: Rule> {
    pub rule: &'a R,
    pub n: usize,
    pub round: u16,
    pub heard: &'a [StationSet; STATIONS],
    pub states: &'a [R::State],
    ghost few: { n ≤ STATIONS },
    ghost there: { n ≤ length states.now },
}

// The letter that the receiver hears from a sender in a round, or none.
fn letter<R: Rule>(
    rule: &R,
    n: usize,
    round: u16,
    heard: StationSet,
    states: &[R::State],
    sender: usize,
    receiver: usize,
) -> Option<R::Letter>
    requires { (sender < n) × (n ≤ length states.now) }
    ensures { result ≡ letter_heard (R.Rule.behaviour rule.now) n receiver round (contains heard)
        (state_in (R.Rule.behaviour rule.now) n states.now) sender }
{
    if heard.contains(sender) {
        rule.letter(n, sender, round, &states[sender], receiver)
    } else {
        None
    }
}

impl<'a, R: Rule> LockstepRound<'a, R> {
    // Writes the letters that the receiver hears into the first n places. What the round is is read once, and not for each
    // letter again.
    fn hear(&self, receiver: usize, mailbox: &mut [Option<R::Letter>])
        requires { (receiver < self.now.n) × (self.now.n ≤ length mailbox.old) }
        ensures { take self.now.n mailbox.new ≡ tabulate self.now.n
            (letter_in (R.Rule.behaviour self.now.rule.now) self.now.n self.now.round self.now.heard.now self.now.states.now receiver) }
    {
        let (rule, n, round, states) = (self.rule, self.n, self.round, self.states);
        let heard = self.heard[receiver];
        for (sender, place) in mailbox[..n].iter_mut().enumerate() {
            *place = letter(rule, n, round, heard, states, sender, receiver);
        }
    }

    // The station's state after the round. The mailbox is scratch.
    fn next(&self, station: usize, mailbox: &mut [Option<R::Letter>]) -> R::State
        requires { (station < self.now.n) × (self.now.n ≤ length mailbox.old) }
        ensures { result ≡ state_after (R.Rule.behaviour self.now.rule.now) self.now.n self.now.round self.now.heard.now self.now.states.now station }
    {
        self.hear(station, mailbox);
        let letters = &mailbox[..self.n];
        self.rule.next(self.n, station, self.round, &self.states[station], letters)
    }

    /// Writes the states of all n stations after the round.
    pub fn advance(&self, next: &mut [R::State])
        requires { self.now.n ≤ length next.old }
        ensures { next.new ≡ written self.now.n (state_after
            (R.Rule.behaviour self.now.rule.now) self.now.n self.now.round self.now.heard.now self.now.states.now) next.old }
    {
        let mut mailbox = [None; STATIONS];
        for (station, cell) in next[..self.n].iter_mut().enumerate() {
            *cell = self.next(station, &mut mailbox);
        }
    }
}
