//! What the calls ask for before they act.
ghost use Rattle.std.specs.Prelude.{[], ◌∷◌};
ghost use Rattle.protocol.specs.Tests.{ready_tests, station_tests, standing_tests, speaker_tests, turner_tests};
ghost use Rattle.shed_core.specs.Of.{world, world_of};
ghost use Rattle.shed_core.specs.Checks.{Checked, is_in, record_of};

use crate::buffers::Buffers;
use crate::rows::letter_cells;
use crate::shed::Shed;
use protocol::refusal::Refusal;
use protocol::types::{Stand, StationRecord};
use rules::LAST_ROUND;

// The station's record, unless the station is in the stand.
fn not_in(stand: Stand, station: StationRecord, refusal: Refusal) -> Result<StationRecord, Refusal>
    ensures { Checked ((is_in stand station.stand, refusal) ∷ []) station result }
{
    if station.stand == stand {
        return Err(refusal);
    }
    Ok(station)
}

impl Shed {
    // The shed is open; none of the four buffers is too short, and the pool and the book have the lengths that they had at
    // opening.
    pub(super) fn fits<S, L>(
        &self,
        states: &[S],
        letters: &[L],
        pool: &[u64],
        book: &[u64],
    ) -> Result<(), Refusal>
        ensures { Checked (ready_tests (world self.now states.now letters.now pool.now book.now)) tt result }
    {
        if self.count == 0 {
            return Err(Refusal::Shut);
        }
        if states.len() < self.count || letters.len() < letter_cells(self.count) {
            return Err(Refusal::BufferMismatch);
        }
        if pool.len() != self.pool_len || book.len() != self.book_len {
            return Err(Refusal::BufferMismatch);
        }
        Ok(())
    }

    // The shed is open, and the buffers fit it.
    pub(super) fn ready<S, L>(&self, buffers: &Buffers<'_, S, L>) -> Result<(), Refusal>
        ensures { Checked (ready_tests (world_of self.now buffers.now)) tt result }
    {
        self.fits(buffers.states, buffers.letters, buffers.pool, buffers.book)
    }

    // The record of station p.
    pub(super) fn station(&self, p: usize) -> Result<StationRecord, Refusal>
        ensures { Checked (station_tests self.now.count p) (record_of self.now p) result }
    {
        if p >= self.count {
            return Err(Refusal::NoSuchStation);
        }
        Ok(self.table.record(p))
    }

    // The record of station p, which is not down.
    pub(super) fn standing(&self, p: usize) -> Result<StationRecord, Refusal>
        ensures { Checked (standing_tests self.now.count p (record_of self.now p)) (record_of self.now p) result }
    {
        not_in(Stand::Down, self.station(p)?, Refusal::StationDown)
    }

    // The record of station p, which may send.
    pub(super) fn speaker(&self, p: usize) -> Result<StationRecord, Refusal>
        ensures { Checked (speaker_tests self.now.count p (record_of self.now p)) (record_of self.now p) result }
    {
        not_in(Stand::Listening, self.standing(p)?, Refusal::AlreadySent)
    }

    // The record of station p, which may turn.
    pub(super) fn turner(&self, p: usize) -> Result<StationRecord, Refusal>
        ensures { Checked (turner_tests self.now.count p (record_of self.now p) self.now.entries self.now.book_len) (record_of self.now p) result }
    {
        let station = not_in(Stand::Fresh, self.standing(p)?, Refusal::NotListening)?;
        if self.entries == self.book_len {
            return Err(Refusal::BookFull);
        }
        if station.round == LAST_ROUND {
            return Err(Refusal::LastRound);
        }
        Ok(station)
    }
}
