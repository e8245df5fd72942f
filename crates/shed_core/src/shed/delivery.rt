//! A frame reaches its receiver.
ghost use Rattle.std.specs.Prelude.{◌≡◌, ◌<◌, ◌≤◌};
ghost use Rattle.rules.specs.declared.TheConstants.{LAST_ROUND};
ghost use Rattle.shed_core.specs.Of.{world_of, ComesTo, StillLent, SameCounts};
ghost use Rattle.protocol.specs.Calls.{deliver_call, received_stations, received_letters};

use crate::buffers::Buffers;
use crate::cells::store;
use crate::rows::{held_cell, letter_cell};
use crate::shed::Shed;
use frames::pool::{frame_at, take_out};
use protocol::refusal::Refusal;
use protocol::types::{Fate, Held};
use rules::Rule;

impl Shed {
    // A letter meets its fate: it goes into its sender's cell and the sender is heard, or it is held, or it is gone.
    #[inline(always)]
    fn receive<L: Copy>(&mut self, letters: &mut [L], frame: (usize, usize, u16, L), fate: Fate)
        requires { (frame.0 < self.old.count) × (frame.1 < self.old.count) × (frame.2 ≤ LAST_ROUND) }
        ensures counts { SameCounts self.old self.new }
        ensures table { self.new.table.records ≡ received_stations self.old.table.records frame fate }
        ensures row { letters.new ≡ received_letters self.old.count letters.old frame fate }
    {
        let (sender, receiver, round, letter) = frame;
        match fate {
            Fate::Late | Fate::Again => {}
            Fate::Taken => {
                store(letters, letter_cell(self.count, receiver, sender), letter);
                self.table.hear(receiver, sender);
            }
            Fate::Early => {
                store(letters, held_cell(self.count, receiver), letter);
                self.table.hold(receiver, Held { sender, round });
            }
        }
    }

    /// The frame at place k leaves the pool and meets its fate, which is the answer.
    pub fn deliver<R: Rule>(
        &mut self,
        rule: &R,
        buffers: &mut Buffers<'_, R::State, R::Letter>,
        k: usize,
    ) -> Result<Fate, Refusal>
        ensures call { ComesTo result (world_of self.new buffers.new)
            (deliver_call (R.Rule.behaviour rule.now) (world_of self.old buffers.old) k) }
        ensures lent { StillLent buffers.old buffers.new }
    {
        self.ready(buffers)?;
        let pool = &mut *buffers.pool;
        let frame = frame_at(rule, self.count, pool, self.frames, k)?;
        let (sender, receiver, round, _) = frame;
        let fate = self.table.lend(receiver).judge(sender, round)?;
        self.frames = take_out(pool, self.frames, k)?;
        self.receive(buffers.letters, frame, fate);
        Ok(fate)
    }
}
