//! From the text of a schedule to what is printed of it.
ghost use Rattle.std.specs.Prelude.{◌≡◌, IfOk, Ok};
ghost use Rattle.schedule_text.specs.Reading.{plan};
ghost use Rattle.schedule_text.specs.Writing.{PlanFits};
ghost use Rattle.schedule.specs.Program.{new_shed, printed, PrintedSafely};
ghost use Rattle.schedule.specs.Running.{Runs, Unrefused, Plays};

use crate::running::run;
use catalogue::{WithRule, with_rule};
use listing::printer::fault_listing;
use protocol::refusal::Refusal;
use protocol::types::Step;
use rules::Rule;
use schedule_text::halt::Halt;
use schedule_text::reader::read_schedule;
use schedule_text::types::{ReadError, Schedule};
use std::alloc::{AllocError, Global};

// The words of a new shed's pool.
const POOL_WORDS: usize = 256;

// The words of a new shed's book.
const BOOK_WORDS: usize = 1024;

// A run in a new shed, whichever the rule is: the opening values, and the steps in their order.
#[derive(Clone, Copy)]
struct NewRun<'a> {
    heap: Global,
    values: &'a [u16],
    steps: &'a [Step],
}

impl WithRule for NewRun<'_> {
    type Answer = Result<Vec<u8>, Halt<Refusal>>;

    ghost promises = { λ asked R states letters out. Runs R (new_shed states letters) asked.values.now asked.steps.now out };

    #[tactic(auto, unfolding(crate::specs::Program::new_shed))]
    fn with<R: Rule>(
        self,
        rule: &R,
        states: &mut [R::State],
        letters: &mut [R::Letter],
    ) -> Result<Vec<u8>, Halt<Refusal>> {
        let mut pool = [0; POOL_WORDS];
        let mut book = [0; BOOK_WORDS];
        run(
            self.heap,
            rule,
            states,
            letters,
            &mut pool,
            &mut book,
            self.values,
            self.steps,
        )
    }
}

// A run whose opening is not refused ends with its listing, or out of memory.
fn unrefused(out: Result<Vec<u8>, Halt<Refusal>>) -> Result<Vec<u8>, AllocError>
    requires { Unrefused out }
    ensures { IfOk result (λ v. out ≡ Ok v) }
{
    match out {
        Ok(listing) => Ok(listing),
        Err(Halt::NoMemory) => Err(AllocError),
        Err(Halt::Refused(_)) => unreachable(),
    }
}

// The listing of a schedule.
fn play(heap: Global, schedule: &Schedule) -> Result<Vec<u8>, AllocError>
    requires { PlanFits (plan schedule.now) }
    ensures { IfOk result (λ v. Plays (plan schedule.now) v.items) }
{
    let values = schedule.values.as_slice();
    let steps = schedule.steps.as_slice();
    let out = with_rule(
        schedule.rule,
        NewRun {
            heap,
            values,
            steps,
        },
    );
    unrefused(out)
}

/// What the program prints of a text: its fault, or the listing of its schedule. Fails only out of memory.
pub fn answer(heap: Global, text: &[u8]) -> Result<Vec<u8>, AllocError>
    ensures prints { IfOk result (λ v. v.items ≡ printed text.now) }
    ensures safely { IfOk result (λ v. PrintedSafely text.now v.items) }
{
    match read_schedule(heap, text) {
        Ok(schedule) => play(heap, &schedule),
        Err(ReadError::Refused(fault)) => fault_listing(heap, fault),
        Err(ReadError::NoMemory) => Err(AllocError),
    }
}
