//! The lockstep run, counted again from the words of a book.
#![tactic(auto)]

ghost use Rattle.std.specs.Prelude.{◌≡◌, false, is_ok};
ghost use Rattle.recount.specs.Recount.{recount_call};
ghost use Rattle.recount.specs.Agreeing.{Agrees};

use check::check;
use protocol::refusal::Refusal;
use rules::{LAST_ROUND, Rule};
use run::run_rounds;

mod advance;
mod check;
pub mod round;
mod run;

/// Leaves the lockstep run at the round in the first cells of `states`, one for each opening value, and answers the round.
/// Whom a station heard in a round is what the book's first word for both says, and nobody where there is none. The cells
/// after those are as they were. `scratch` is scratch, and so is `row`, of which only the length counts: the letters that
/// a station hears pass through a mailbox of sixteen places. Refused, nothing is written: for the number of opening
/// values, then for a buffer with fewer cells, then for a round past the last one.
/// Over a shed's own book, at the round that a station is in, it leaves that station's state in its cell.
pub fn recount<R: Rule>(
    rule: &R,
    values: &[u16],
    book: &[u64],
    round: u16,
    states: &mut [R::State],
    scratch: &mut [R::State],
    row: &mut [R::Letter],
) -> Result<u16, Refusal>
    ensures call { (result, states.new) ≡ recount_call (R.Rule.behaviour rule.now) values.now book.now round
        (record { states = states.old; scratch = scratch.old; row = row.old }) }
    ensures refused { is_ok result ≡ false → (scratch.new ≡ scratch.old) × (row.new ≡ row.old) }
    ensures agrees { Agrees (R.Rule.behaviour rule.now) values.now book.now round
        (record { states = states.old; scratch = scratch.old; row = row.old }) result states.new }
{
    let shortest = states.len().min(scratch.len()).min(row.len());
    check(rule, values.len(), shortest, round > LAST_ROUND)?;
    run_rounds(rule, values, book, round, states, scratch);
    Ok(round)
}
