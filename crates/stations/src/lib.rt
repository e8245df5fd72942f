//! Sets of stations.
#![tactic(auto)]

ghost use Rattle.std.specs.Prelude.{◌≡◌, ℕ, ◌^◌, ◌<◌, ◌≤◌, false, ◌||◌, ◌&&◌, ◌==◌, nat_lt};
ghost use Rattle.stations.specs.Stations.{contains, none, with_station, size, Within, SameMembers};
ghost use Rattle.stations.specs.declared.StationSet.{StationSet as Set};

/// How many stations there can be. Their numbers are those below it.
pub const STATIONS: usize = 16;

/// A set of stations. None is in it whose number is too large.
#[derive(Clone, Copy, Debug, PartialEq, Eq)]
pub struct StationSet {
    // A bit for each station, station 0 highest.
    bits: u16,
}

impl StationSet {
    /// The set of no stations.
    pub fn empty() -> StationSet
        ensures set { result ≡ none }
        ensures members { (q : ℕ) → contains result q ≡ false }
    {
        StationSet { bits: 0 }
    }

    /// The set whose bits these are, station 0 highest.
    pub fn from_bits(bits: u16) -> StationSet
        ensures { result.bits ≡ bits }
    {
        StationSet { bits }
    }

    /// The set as bits, station 0 highest. They tell its members, and no other set's bits are the same.
    pub fn bits(self) -> u16
        ensures bits { result ≡ self.bits }
        ensures told { (other : Set) → Within other → SameMembers self other → result ≡ other.bits }
    {
        self.bits
    }

    /// Whether a station is in the set.
    pub fn contains(self, station: usize) -> bool
        ensures { result ≡ contains self station }
    {
        station < STATIONS && (self.bits >> (STATIONS - 1 - station)) % 2 == 1
    }

    /// A station joins the set. One whose number is too large does not.
    pub fn insert(&mut self, station: usize)
        ensures set { self.new ≡ with_station self.old station }
        ensures members { (q : ℕ) → contains self.new q ≡ (contains self.old q || (q == station && nat_lt q STATIONS)) }
    {
        if station < STATIONS {
            self.bits |= 1 << (STATIONS - 1 - station);
        }
    }

    /// How many stations are in the set.
    pub fn len(self) -> usize
        ensures size { result ≡ size self }
        ensures few { result ≤ STATIONS }
    {
        self.bits.count_ones() as usize
    }
}
