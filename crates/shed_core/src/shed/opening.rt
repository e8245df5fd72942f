//! A new shed, and its opening.
ghost use Rattle.std.specs.Prelude.{◌≡◌, Some, None, MatchResult};
ghost use Rattle.shed_core.specs.Of.{world_of, ComesTo, StillLent, IsNew};
ghost use Rattle.protocol.specs.Calls.{open_refusal, open_call};

use crate::buffers::Buffers;
use crate::rows::letter_cells;
use crate::shed::Shed;
use crate::table::Table;
use frames::pool::clear;
use protocol::refusal::Refusal;
use protocol::{MAX_BOOK, MAX_POOL};
use rules::{Rule, first_states};

impl Shed {
    /// A shed that is shut.
    pub fn new() -> Shed
        ensures { IsNew result }
    {
        Shed {
            count: 0,
            pool_len: 0,
            book_len: 0,
            frames: 0,
            entries: 0,
            table: Table::new(),
        }
    }

    // Whether the shed opens on the buffers with the values.
    fn openable<R: Rule>(
        &self,
        rule: &R,
        buffers: &Buffers<'_, R::State, R::Letter>,
        values: &[u16],
    ) -> Result<(), Refusal>
        ensures { MatchResult result
            (λ _. open_refusal (R.Rule.behaviour rule.now) (world_of self.now buffers.now) values.now ≡ None)
            (λ f. open_refusal (R.Rule.behaviour rule.now) (world_of self.now buffers.now) values.now ≡ Some f) }
    {
        let n = values.len();
        if self.count != 0 {
            return Err(Refusal::AlreadyOpen);
        }
        if n == 0 || n > R::MAX_STATIONS {
            return Err(Refusal::ValueCount);
        }
        let pool = buffers.pool.len();
        if pool == 0 || pool > MAX_POOL || buffers.book.len() > MAX_BOOK {
            return Err(Refusal::BufferSize);
        }
        if buffers.states.len() < n || buffers.letters.len() < letter_cells(n) {
            return Err(Refusal::BufferMismatch);
        }
        Ok(())
    }

    /// Opens the shed for as many stations as there are opening values; answers their number.
    pub fn open<R: Rule>(
        &mut self,
        rule: &R,
        buffers: &mut Buffers<'_, R::State, R::Letter>,
        values: &[u16],
    ) -> Result<usize, Refusal>
        ensures call { ComesTo result (world_of self.new buffers.new)
            (open_call (R.Rule.behaviour rule.now) (world_of self.old buffers.old) values.now) }
        ensures lent { StillLent buffers.old buffers.new }
    {
        self.openable(rule, buffers, values)?;
        first_states(rule, values, buffers.states);
        clear(buffers.pool);
        clear(buffers.book);
        *self = Shed {
            count: values.len(),
            pool_len: buffers.pool.len(),
            book_len: buffers.book.len(),
            frames: 0,
            entries: 0,
            table: Table::new(),
        };
        Ok(values.len())
    }
}
