//! What the shed keeps of a station, what it is asked to do, and what it answers.
ghost use Rattle.std.specs.Prelude.{◌≡◌};
ghost use Rattle.protocol.specs.Records.{judged};

use crate::refusal::Refusal;
use stations::StationSet;
use std::cmp::Ordering;

/// Where a station is in its round: it has not sent yet, it has sent and takes letters, or it has crashed for good.
#[derive(Clone, Copy, Debug, PartialEq, Eq)]
pub enum Stand {
    Fresh,
    Listening,
    Down,
}

/// A letter that came before its round: who sent it, and the round that it is for.
#[derive(Clone, Copy, Debug, PartialEq, Eq)]
pub struct Held {
    pub sender: usize,
    pub round: u16,
}

/// A station: its round, its stand, the senders that it heard in that round, and the letter that it holds or none.
#[derive(Clone, Copy, Debug, PartialEq, Eq)]
pub struct StationRecord {
    pub round: u16,
    pub stand: Stand,
    pub heard: StationSet,
    pub hold: Option<Held>,
}

impl StationRecord {
    /// The fate of a frame of a round from a sender, or why the station does not take it: it is down, it has not sent in
    /// its round, or it holds a letter.
    pub fn judge(&self, sender: usize, round: u16) -> Result<Fate, Refusal>
        ensures { result ≡ judged self.now sender round }
    {
        match (self.stand, round.cmp(&self.round)) {
            (Stand::Down, _) => Err(Refusal::StationDown),
            (Stand::Fresh, _) => Err(Refusal::NotListening),
            (Stand::Listening, _) if self.hold.is_some() => Err(Refusal::HoldsLetter),
            (Stand::Listening, Ordering::Less) => Ok(Fate::Late),
            (Stand::Listening, Ordering::Greater) => Ok(Fate::Early),
            (Stand::Listening, Ordering::Equal) if self.heard.contains(sender) => Ok(Fate::Again),
            (Stand::Listening, Ordering::Equal) => Ok(Fate::Taken),
        }
    }
}

/// What becomes of a frame that is delivered: it is of an older round; it is of the station's round and its sender was
/// heard already; it is of the station's round and is taken in; or it is of a newer round and is held.
#[derive(Clone, Copy, Debug, PartialEq, Eq)]
pub enum Fate {
    Late,
    Again,
    Taken,
    Early,
}

/// A planner's call, with the station or the place in the pool that it names.
#[derive(Clone, Copy, Debug, PartialEq, Eq)]
pub enum Step {
    Send(usize),
    Deliver(usize),
    Drop(usize),
    Repeat(usize),
    Turn(usize),
    Crash(usize),
}

/// What is seen of a station: its stand, its round, and the hull that it shows or none.
#[derive(Clone, Copy, Debug, PartialEq, Eq)]
pub struct Sight {
    pub stand: Stand,
    pub round: u16,
    pub hull: Option<u16>,
}
