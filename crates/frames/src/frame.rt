//! A frame: a letter with its sender, its receiver and its round, as one word.
ghost use Rattle.std.specs.Prelude.{◌≡◌, ◌<◌, ◌≤◌, is_some, IfSome};
ghost use Rattle.rules.specs.declared.TheConstants.{LAST_ROUND};
ghost use Rattle.frames.specs.Frame.{packed_frame, read_frame, readable, ReadsBack, PacksAgain};

use crate::ROUNDS;
use rules::Rule;
use stations::STATIONS;

/// The word of a frame, most significant bits first: sender 4, receiver 4, round 12, packed letter 44.
/// None if the sender, the receiver or the round is too large for its bits. A word reads back as its frame among any
/// number of stations that has both, if the letter is within its ranges.
pub fn pack_frame<R: Rule>(
    rule: &R,
    sender: usize,
    receiver: usize,
    round: u16,
    letter: &R::Letter,
) -> Option<u64>
    ensures word { result ≡ packed_frame (R.Rule.behaviour rule.now) (sender, receiver, round, letter.now) }
    ensures reads_back { ReadsBack (R.Rule.behaviour rule.now) R.Rule.letter_fits (sender, receiver, round, letter.now) result }
{
    if sender >= STATIONS || receiver >= STATIONS || round >= ROUNDS {
        return None;
    }
    let address = (sender * STATIONS + receiver) as u64;
    let head = address * u64::from(ROUNDS) + u64::from(round);
    Some(head * (1 << 44) + rule.pack(letter))
}

/// The sender, the receiver, the round and the letter of a word among n stations, or none if it is not readable: it is
/// readable exactly when its sender and its receiver are below n and the rest unpacks. What is read packs again into the
/// same word.
#[tactic(auto, unfolding(crate::specs::Frame::read_frame))]
pub fn read_frame<R: Rule>(rule: &R, n: usize, word: u64) -> Option<(usize, usize, u16, R::Letter)>
    ensures frame { result ≡ read_frame (R.Rule.behaviour rule.now) n word }
    ensures readable { is_some result ≡ readable (R.Rule.behaviour rule.now) n word }
    ensures below { IfSome result (λ f. (f.0 < n) × (f.1 < n) × (f.2 ≤ LAST_ROUND)) }
    ensures packs_again { PacksAgain (R.Rule.behaviour rule.now) n word result }
{
    let sender = (word >> 60) as usize;
    let receiver = (word >> 56) as usize % STATIONS;
    let round = ((word >> 44) % u64::from(ROUNDS)) as u16;
    if sender >= n || receiver >= n {
        return None;
    }
    let letter = rule.unpack(word % (1 << 44))?;
    Some((sender, receiver, round, letter))
}
