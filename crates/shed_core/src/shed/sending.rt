//! A station writes its letters.
ghost use Rattle.std.specs.Prelude.{◌≡◌, ◌<◌, ◌≤◌, IfSome, slice_set};
ghost use Rattle.rules.specs.declared.TheConstants.{LAST_ROUND};
ghost use Rattle.protocol.specs.Records.{due, listened};
ghost use Rattle.protocol.specs.Calls.{frames_from, send_call, copied, taken_in};
ghost use Rattle.shed_core.specs.Of.{world_of, ComesTo, StillLent, SameCounts};
ghost use Rattle.shed_core.specs.Checks.{record_of};

use crate::buffers::Buffers;
use crate::cells::store;
use crate::rows::{held_cell, letter_cell};
use crate::shed::Shed;
use arrayvec::ArrayVec;
use frames::frame::pack_frame;
use frames::pool::add;
use protocol::refusal::Refusal;
use protocol::types::Stand;
use rules::Rule;
use stations::STATIONS;

// Copies the letter of one cell into another.
fn copy_letter<L: Copy>(letters: &mut [L], from: usize, to: usize)
    ensures { letters.new ≡ copied letters.old from to }
{
    if let Some(letter) = letters.get(from).copied() {
        store(letters, to, letter);
    }
}

impl Shed {
    // The frames of the letters that station p writes in a round, by rising receiver.
    fn gather<R: Rule>(
        &self,
        rule: &R,
        p: usize,
        round: u16,
        state: &R::State,
    ) -> ArrayVec<u64, STATIONS>
        requires { (p < self.now.count) × (round ≤ LAST_ROUND) }
        ensures { result.items ≡ frames_from (R.Rule.behaviour rule.now) self.now.count p round state.now 0 self.now.count }
    {
        let mut frames = ArrayVec::new();
        for q in 0..self.count {
            if let Some(letter) = rule.letter(self.count, p, round, state, q) {
                frames.push(pack_frame(rule, p, q, round, &letter).unwrap());
            }
        }
        frames
    }

    // The sender of a letter that station p holds for its own round.
    fn due_sender(&self, p: usize) -> Option<usize>
        ensures sender { result ≡ due (record_of self.now p) }
        ensures below { IfSome result (λ q. q < self.now.count) }
    {
        let station = self.table.record(p);
        let held = station.hold?;
        if held.round == station.round {
            Some(held.sender)
        } else {
            None
        }
    }

    // Station p listens. A held letter of its own round moves into its sender's cell, and the sender is heard.
    fn listen<L: Copy>(&mut self, letters: &mut [L], p: usize)
        requires { p < self.old.count }
        ensures counts { SameCounts self.old self.new }
        ensures table { self.new.table.records ≡ slice_set self.old.table.records p
            (listened (record_of self.old p) (due (record_of self.old p))) }
        ensures row { letters.new ≡ taken_in self.old.count p (due (record_of self.old p)) letters.old }
    {
        let mut station = self.table.record(p);
        if let Some(sender) = self.due_sender(p) {
            let held = held_cell(self.count, p);
            copy_letter(letters, held, letter_cell(self.count, p, sender));
            station.heard.insert(sender);
            station.hold = None;
        }
        station.stand = Stand::Listening;
        self.table.change(p, station);
    }

    /// Station p's letters of its round join the pool, by rising receiver, and p listens; answers their number.
    pub fn send<R: Rule>(
        &mut self,
        rule: &R,
        buffers: &mut Buffers<'_, R::State, R::Letter>,
        p: usize,
    ) -> Result<usize, Refusal>
        ensures call { ComesTo result (world_of self.new buffers.new)
            (send_call (R.Rule.behaviour rule.now) (world_of self.old buffers.old) p) }
        ensures lent { StillLent buffers.old buffers.new }
    {
        self.ready(buffers)?;
        let round = self.speaker(p)?.round;
        let frames = self.gather(rule, p, round, &buffers.states[p]);
        self.frames = add(buffers.pool, self.frames, frames.as_slice())?;
        self.listen(buffers.letters, p);
        Ok(frames.len())
    }
}
