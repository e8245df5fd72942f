//! Whether a run goes ahead.
ghost use Rattle.std.specs.Prelude.{◌≡◌, Some, None, MatchResult};
ghost use Rattle.recount.specs.Recount.{run_refusal};

use protocol::refusal::Refusal;
use rules::Rule;

/// Whether a run of n stations goes ahead, in this order: there are some and no more than the rule's most; the shortest buffer
/// has a cell for each; the round is not too late, which each caller tells, as they differ in which is the last.
pub fn check<R: Rule>(rule: &R, n: usize, shortest: usize, late: bool) -> Result<(), Refusal>
    ensures { MatchResult result (λ _. run_refusal (R.Rule.behaviour rule.now).most n shortest late ≡ None)
        (λ f. run_refusal (R.Rule.behaviour rule.now).most n shortest late ≡ Some f) }
{
    if n == 0 || n > R::MAX_STATIONS {
        return Err(Refusal::ValueCount);
    }
    if shortest < n {
        return Err(Refusal::BufferMismatch);
    }
    if late {
        return Err(Refusal::LastRound);
    }
    Ok(())
}
