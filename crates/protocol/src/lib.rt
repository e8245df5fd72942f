//! The shed's calls as definitions, the tally, and what holds after every list of calls.
#![tactic(auto)]

ghost use Rattle.std.specs.Prelude.{◌≡◌};
ghost use Rattle.protocol.specs.Guarantee.{Guaranteed};

use rules::Rule;

pub mod refusal;
pub mod types;

/// The most words of a pool.
pub const MAX_POOL: usize = 4096;

/// The most words of a book.
pub const MAX_BOOK: usize = 65536;

/// The guarantee holds for every rule, by its interface, its laws and its ranges alone. It answers 0.
pub fn guarantee_holds<R: Rule>(rule: &R) -> u8
    ensures guarantee { Guaranteed (R.Rule.behaviour rule.now) }
    ensures nothing_else { result ≡ 0 }
{
    0
}
