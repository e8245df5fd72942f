//! The calls that read and write no letter cell: drop, repeat, crash and look.
ghost use Rattle.std.specs.Prelude.{◌≡◌};
ghost use Rattle.shed_core.specs.Of.{world, world_of, ComesTo, StillLent};
ghost use Rattle.protocol.specs.Calls.{drop_call, repeat_call, crash_call, look_call};

use crate::buffers::Buffers;
use crate::shed::Shed;
use frames::pool::{repeat, take_out};
use protocol::refusal::Refusal;
use protocol::types::{Sight, Stand};
use rules::Rule;

impl Shed {
    /// The frame at place k is lost.
    pub fn drop<R: Rule>(
        &mut self,
        rule: &R,
        buffers: &mut Buffers<'_, R::State, R::Letter>,
        k: usize,
    ) -> Result<usize, Refusal>
        ensures call { ComesTo result (world_of self.new buffers.new)
            (drop_call (R.Rule.behaviour rule.now) (world_of self.old buffers.old) k) }
        ensures lent { StillLent buffers.old buffers.new }
    {
        self.ready(buffers)?;
        self.frames = take_out(buffers.pool, self.frames, k)?;
        Ok(0)
    }

    /// A copy of the frame at place k joins the pool at its end; answers the copy's place.
    pub fn repeat<R: Rule>(
        &mut self,
        rule: &R,
        buffers: &mut Buffers<'_, R::State, R::Letter>,
        k: usize,
    ) -> Result<usize, Refusal>
        ensures call { ComesTo result (world_of self.new buffers.new)
            (repeat_call (R.Rule.behaviour rule.now) (world_of self.old buffers.old) k) }
        ensures lent { StillLent buffers.old buffers.new }
    {
        self.ready(buffers)?;
        let place = repeat(buffers.pool, self.frames, k)?;
        self.frames = place + 1;
        Ok(place)
    }

    /// Station p is down for good.
    pub fn crash<R: Rule>(
        &mut self,
        rule: &R,
        buffers: &mut Buffers<'_, R::State, R::Letter>,
        p: usize,
    ) -> Result<usize, Refusal>
        ensures call { ComesTo result (world_of self.new buffers.new)
            (crash_call (R.Rule.behaviour rule.now) (world_of self.old buffers.old) p) }
        ensures lent { StillLent buffers.old buffers.new }
    {
        self.ready(buffers)?;
        let mut station = self.standing(p)?;
        station.stand = Stand::Down;
        self.table.change(p, station);
        Ok(0)
    }

    /// What station p shows: its stand, its round, and its hull or none. The buffers are lent one by one, as whoever only
    /// looks may share them.
    pub fn look<R: Rule>(
        &self,
        rule: &R,
        states: &[R::State],
        letters: &[R::Letter],
        pool: &[u64],
        book: &[u64],
        p: usize,
    ) -> Result<Sight, Refusal>
        ensures { ComesTo result (world self.now states.now letters.now pool.now book.now)
            (look_call (R.Rule.behaviour rule.now)
            (world self.now states.now letters.now pool.now book.now) p) }
    {
        self.fits(states, letters, pool, book)?;
        let station = self.station(p)?;
        Ok(Sight {
            stand: station.stand,
            round: station.round,
            hull: rule.hull(&states[p]),
        })
    }

    /// How many entries the book has.
    pub fn entries(&self) -> usize
        ensures { result ≡ self.now.entries }
    {
        self.entries
    }
}
