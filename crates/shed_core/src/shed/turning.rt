//! A station goes to its next round.
ghost use Rattle.std.specs.Prelude.{◌≡◌, ◌<◌, IfOk, None, if◌then◌else◌, length, nat_lt, slice_index, take};
ghost use Rattle.lists.specs.Lists.{tabulate};
ghost use Rattle.stations.specs.declared.TheConstants.{STATIONS};
ghost use Rattle.shed_core.specs.Of.{world_of, ComesTo, StillLent};
ghost use Rattle.protocol.specs.Sound.{NamesStations};
ghost use Rattle.protocol.specs.Calls.{mail, turn_call};

use crate::buffers::Buffers;
use crate::rows::letter_cell;
use crate::shed::Shed;
use frames::book::pack_entry;
use protocol::refusal::Refusal;
use protocol::types::Stand;
use rules::Rule;
use stations::{STATIONS, StationSet};
use std::array;

impl Shed {
    // The letter that station p has from q, if it heard q.
    fn letter_from<L: Copy>(
        &self,
        letters: &[L],
        p: usize,
        heard: StationSet,
        q: usize,
    ) -> Option<L>
        requires { (p < self.now.count) × (q < STATIONS) }
        ensures { result ≡ if nat_lt q self.now.count then mail self.now.count p heard letters.now q else None }
    {
        if q < self.count && heard.contains(q) {
            letters.get(letter_cell(self.count, p, q)).copied()
        } else {
            None
        }
    }

    // Station p's mailbox: in its first n places what it heard of each station.
    fn mailbox<S, L: Copy>(
        &self,
        buffers: &Buffers<'_, S, L>,
        p: usize,
        heard: StationSet,
    ) -> [Option<L>; STATIONS]
        requires { p < self.now.count }
        ensures places { take self.now.count result
            ≡ tabulate self.now.count (mail self.now.count p heard buffers.now.letters.now) }
        ensures len { length result ≡ STATIONS }
    {
        array::from_fn(|q| self.letter_from(buffers.letters, p, heard, q))
    }

    /// Station p takes its next state from the letters that it heard, the book tells whom it heard, who are stations
    /// of the shed, and p is fresh in the next round; answers that round.
    pub fn turn<R: Rule>(
        &mut self,
        rule: &R,
        buffers: &mut Buffers<'_, R::State, R::Letter>,
        p: usize,
    ) -> Result<u16, Refusal>
        ensures call { ComesTo result (world_of self.new buffers.new)
            (turn_call (R.Rule.behaviour rule.now) (world_of self.old buffers.old) p) }
        ensures named { IfOk result (λ _. NamesStations self.old.count (slice_index buffers.new.book.now self.old.entries)) }
        ensures lent { StillLent buffers.old buffers.new }
    {
        self.ready(buffers)?;
        let mut station = self.turner(p)?;
        let n = self.count;
        let mail = self.mailbox(buffers, p, station.heard);
        let mail = &mail[..n];
        buffers.states[p] = rule.next(n, p, station.round, &buffers.states[p], mail);
        buffers.book[self.entries] = pack_entry(p, station.round, station.heard).unwrap();
        self.entries += 1;
        station.round += 1;
        station.stand = Stand::Fresh;
        station.heard = StationSet::empty();
        self.table.change(p, station);
        Ok(station.round)
    }
}
