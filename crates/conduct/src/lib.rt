//! A new shed is opened and takes a list of steps.
#![tactic(auto)]

ghost use Rattle.std.specs.Prelude.{◌≡◌};
ghost use Rattle.shed_core.specs.Of.{shut_with, StillLent};
ghost use Rattle.conduct.specs.Conduct.{Conducted};

use protocol::refusal::Refusal;
use protocol::types::Step;
use rules::Rule;
use shed_core::buffers::Buffers;
use shed_core::shed::Shed;
use steps::take_steps;

pub mod steps;

/// Opens a new shed on the buffers with the opening values and makes the steps, one after another and past refusals.
/// Answers the shed, and writes each step's refusal or none into the outcomes, as far as there are cells. Only the opening
/// is refused, for open's own reasons; then nothing is written, the outcomes neither.
pub fn conduct<R: Rule>(
    rule: &R,
    buffers: &mut Buffers<'_, R::State, R::Letter>,
    values: &[u16],
    steps: &[Step],
    outcomes: &mut [Option<Refusal>],
) -> Result<Shed, Refusal>
    ensures conducted { Conducted (R.Rule.behaviour rule.now) values.now steps.now (shut_with buffers.old) outcomes.old
        result buffers.new outcomes.new }
    ensures lent { StillLent buffers.old buffers.new }
{
    let mut shed = Shed::new();
    shed.open(rule, buffers, values)?;
    take_steps(&mut shed, rule, buffers, steps, outcomes);
    Ok(shed)
}
