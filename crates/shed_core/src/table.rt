//! The stations' records.
ghost use Rattle.std.specs.Prelude.{◌≡◌, ◌<◌, replicate, slice_index_or, slice_set};
ghost use Rattle.stations.specs.declared.TheConstants.{STATIONS};
ghost use Rattle.protocol.specs.Records.{blank, hearing, holding};

use crate::cells::store;
use protocol::types::{Held, Stand, StationRecord};
use stations::{STATIONS, StationSet};

/// One record for each of sixteen stations; a shed with fewer uses the first.
#[derive(Clone, Copy, Debug, PartialEq, Eq)]
pub struct Table {
    records: [StationRecord; STATIONS],
}

/// A station in round 0 that has sent, heard and held nothing.
pub fn blank_record() -> StationRecord
    ensures { result ≡ blank }
{
    StationRecord {
        round: 0,
        stand: Stand::Fresh,
        heard: StationSet::empty(),
        hold: None,
    }
}

impl Table {
    /// A table in which no station has done anything.
    pub fn new() -> Table
        ensures { result.records ≡ replicate STATIONS blank }
    {
        Table {
            records: [blank_record(); STATIONS],
        }
    }

    /// The record of station p; past the last station, one that did nothing yet.
    pub fn record(&self, p: usize) -> StationRecord
        ensures { result ≡ slice_index_or self.now.records p blank }
    {
        self.records.get(p).copied().unwrap_or_else(blank_record)
    }

    // The record of station p, lent.
    pub(crate) fn lend(&self, p: usize) -> &StationRecord
        requires { p < STATIONS }
        ensures { result.now ≡ slice_index_or self.now.records p blank }
    {
        &self.records[p]
    }

    /// Gives station p another record.
    pub fn change(&mut self, p: usize, new: StationRecord)
        ensures { self.new.records ≡ slice_set self.old.records p new }
    {
        store(&mut self.records, p, new);
    }

    // Station p heard q.
    pub(crate) fn hear(&mut self, p: usize, q: usize)
        ensures { self.new.records ≡ slice_set self.old.records p (hearing (slice_index_or self.old.records p blank) q) }
    {
        if p < self.records.len() {
            self.records[p].heard.insert(q);
        }
    }

    // Station p holds a letter.
    pub(crate) fn hold(&mut self, p: usize, held: Held)
        ensures { self.new.records ≡ slice_set self.old.records p (holding (slice_index_or self.old.records p blank) held) }
    {
        if p < self.records.len() {
            self.records[p].hold = Some(held);
        }
    }
}
