//! Steps, one by one and as a list.
ghost use Rattle.std.specs.Prelude.{◌≡◌};
ghost use Rattle.std.specs.Result.{result_err};
ghost use Rattle.lists.specs.Lists.{put};
ghost use Rattle.shed_core.specs.Of.{world_of, ComesTo, StillLent};
ghost use Rattle.protocol.specs.Steps.{step, after, refusals};

use protocol::refusal::Refusal;
use protocol::types::Step;
use rules::Rule;
use shed_core::buffers::Buffers;
use shed_core::shed::Shed;

/// Makes the call that a step names. Refused for the call's own reasons; then nothing is written.
#[tactic(auto, using(crate::proofs::StepByStep::stepped), unfolding(protocol::specs::Steps::step))]
pub fn take_step<R: Rule>(
    shed: &mut Shed,
    rule: &R,
    buffers: &mut Buffers<'_, R::State, R::Letter>,
    made: Step,
) -> Result<(), Refusal>
    ensures call { ComesTo (result_err result) (world_of shed.new buffers.new)
        (step (R.Rule.behaviour rule.now) (world_of shed.old buffers.old) made) }
    ensures lent { StillLent buffers.old buffers.new }
{
    match made {
        Step::Send(p) => {
            shed.send(rule, buffers, p)?;
        }
        Step::Deliver(k) => {
            shed.deliver(rule, buffers, k)?;
        }
        Step::Drop(k) => {
            shed.drop(rule, buffers, k)?;
        }
        Step::Repeat(k) => {
            shed.repeat(rule, buffers, k)?;
        }
        Step::Turn(p) => {
            shed.turn(rule, buffers, p)?;
        }
        Step::Crash(p) => {
            shed.crash(rule, buffers, p)?;
        }
    }
    Ok(())
}

/// Makes the steps of a list, one after another and past refusals. Writes each one's refusal or none into the outcomes, as
/// far as there are cells.
pub fn take_steps<R: Rule>(
    shed: &mut Shed,
    rule: &R,
    buffers: &mut Buffers<'_, R::State, R::Letter>,
    steps: &[Step],
    outcomes: &mut [Option<Refusal>],
)
    ensures leaves { world_of shed.new buffers.new
        ≡ after (R.Rule.behaviour rule.now) (world_of shed.old buffers.old) steps.now }
    ensures tells { outcomes.new ≡ put outcomes.old 0
        (refusals (R.Rule.behaviour rule.now) (world_of shed.old buffers.old) steps.now) }
    ensures lent { StillLent buffers.old buffers.new }
{
    for (i, made) in steps.iter().enumerate() {
        let outcome = take_step(shed, rule, buffers, *made).err();
        if i < outcomes.len() {
            outcomes[i] = outcome;
        }
    }
}
