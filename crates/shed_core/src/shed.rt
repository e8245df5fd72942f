//! The shed: the number of stations, its buffers' lengths, its counts and a record for each station.
ghost use Rattle.std.specs.Prelude.{◌≤◌};
ghost use Rattle.stations.specs.declared.TheConstants.{STATIONS};
ghost use Rattle.protocol.specs.Sound.{AllSound};

use crate::table::Table;

mod calls;
mod checks;
mod delivery;
mod opening;
mod sending;
mod turning;

/// A shed: a new one is shut, and one that was opened stays open. Its buffers are lent to it anew for each call.
#[derive(Clone, Copy, Debug, PartialEq, Eq)]
pub struct Shed {
    // The number of stations, 0 while the shed is shut.
    count: usize,
    // The lengths that the pool and the book had at opening.
    pool_len: usize,
    book_len: usize,
    // How many frames the pool has, and how many entries the book.
    frames: usize,
    entries: usize,
    table: Table,
    ghost few: { count ≤ STATIONS },
    ghost framed: { frames ≤ pool_len },
    ghost entered: { entries ≤ book_len },
    ghost sound: { AllSound count table.records },
}
