//! A run of a list of steps in a new shed, and its listing.
ghost use Rattle.std.specs.Prelude.{◌≡◌, IfOk};
ghost use Rattle.protocol.specs.World.{shut};
ghost use Rattle.shed_core.specs.Of.{world_of};
ghost use Rattle.schedule_text.specs.declared.reader.TheConstants.{FIRST_STEP};
ghost use Rattle.schedule.specs.Program.{refused_from};
ghost use Rattle.schedule.specs.Running.{Seen, Runs};

use conduct::conduct;
use listing::printer::{RefusedStep, Report};
use protocol::refusal::Refusal;
use protocol::types::{Sight, Step};
use rules::Rule;
use schedule_text::halt::Halt;
use schedule_text::reader::FIRST_STEP;
use shed_core::buffers::Buffers;
use shed_core::shed::Shed;
use std::alloc::{AllocError, Global};

// The refused ones of the steps, each with its line, from the outcomes in the order of the lines.
#[inline(never)]
fn refused_steps(heap: Global, refusals: &[Option<Refusal>]) -> Result<Vec<RefusedStep>, AllocError>
    ensures { IfOk result (λ v. v.items ≡ refused_from FIRST_STEP refusals.now) }
{
    let mut refused = Vec::new(heap);
    for (i, outcome) in refusals.iter().enumerate() {
        if let Some(refusal) = outcome {
            let line = i + FIRST_STEP;
            refused.push(RefusedStep {
                line,
                refusal: *refusal,
            })?;
        }
    }
    Ok(refused)
}

// What is seen of each station below n, in their order.
fn look_around<R: Rule>(
    heap: Global,
    shed: &Shed,
    rule: &R,
    buffers: &Buffers<'_, R::State, R::Letter>,
    n: usize,
) -> Result<Vec<Sight>, Halt<Refusal>>
    ensures { Seen (R.Rule.behaviour rule.now) (world_of shed.now buffers.now) n result }
{
    let Buffers {
        states,
        letters,
        pool,
        book,
    } = buffers;
    let mut sights = Vec::new(heap);
    for station in 0..n {
        let sight = shed.look(rule, states, letters, pool, book, station)?;
        sights.push(sight)?;
    }
    Ok(sights)
}

// Opens a new shed on these buffers, makes the steps past refusals too, and answers the listing. Refused is only the
// opening.
pub(crate) fn run<R: Rule>(
    heap: Global,
    rule: &R,
    states: &mut [R::State],
    letters: &mut [R::Letter],
    pool: &mut [u64],
    book: &mut [u64],
    values: &[u16],
    steps: &[Step],
) -> Result<Vec<u8>, Halt<Refusal>>
    ensures { Runs (R.Rule.behaviour rule.now) (shut states.old letters.old pool.old book.old) values.now steps.now result }
{
    let mut buffers = Buffers {
        states,
        letters,
        pool,
        book,
    };
    let none: Option<Refusal> = None;
    let mut outcomes = vec![in heap; none; steps.len()]?;
    let shed = conduct(rule, &mut buffers, values, steps, outcomes.as_mut_slice())?;
    let refused = refused_steps(heap, outcomes.as_slice())?;
    let stations = look_around(heap, &shed, rule, &buffers, values.len())?;
    let entries = shed.entries();
    let report = Report {
        refused,
        stations,
        book: &buffers.book[..entries],
    };
    Ok(report.print(heap)?)
}
