//! The library for a caller in C or Rust, so that the peer in plain Rust can compare its own results with it: one
//! function, which makes a list of requests.
#![tactic(auto)]

ghost use Rattle.std.specs.Prelude.{◌≡◌};
ghost use Rattle.std.specs.Borrow.{Array};
ghost use Rattle.std.specs.Mem.{FitsInMemory};
ghost use Rattle.peer_bridge.specs.Requests.{course, course_by};

use last::Last;
use request::{Reply, Request, as_reply, make};
use rules::Rule;
use shed_core::shed::Shed;
use third::Third;

pub mod request;

// The number of the rule third.
const THIRD: u8 = 0;

// One cell more than sixteen stations need.
const STATES: usize = 17;

const LETTERS: usize = 273;

// Makes the requests of a new shed, with a first state in every cell for states, and with this letter in every cell for
// letters.
fn make_all<R: Rule>(
    rule: &R,
    letter: R::Letter,
    values: &[u16],
    requests: &[Request],
    replies: &mut [Reply],
    pool: &mut [u64],
    book: &mut [u64],
)
    requires states { FitsInMemory (Array R.State.row STATES) }
    requires letters { FitsInMemory (Array R.Letter.row LETTERS) }
    requires row { FitsInMemory (Array R.Letter.row STATES) }
    ensures { (replies.new, pool.new, book.new) ≡ course (R.Rule.behaviour rule.now) letter values.now requests.now replies.old pool.old book.old }
{
    let state = rule.first(1, 0, 0);
    let mut states = [state; STATES];
    let mut scratch = [state; STATES];
    let mut letters = [letter; LETTERS];
    let mut row = [letter; STATES];
    let mut shed = Shed::new();
    for (i, request) in requests.iter().enumerate() {
        let reply = make(
            &mut shed,
            rule,
            &mut states,
            &mut letters,
            pool,
            book,
            values,
            request,
            &mut scratch,
            &mut row,
        );
        if i < replies.len() {
            replies[i] = as_reply(reply);
        }
    }
}

/// Makes the requests of a new shed, one after another, and writes the reply to each as far as there are cells. The rule
/// goes by its number, 0 for third and any other for last. The pool and the book are the caller's; the cells for states
/// and letters are the bridge's own.
#[unsafe(no_mangle)]
pub extern "C" fn peer_bridge_run(
    rule: u8,
    values: &[u16],
    requests: &[Request],
    replies: &mut [Reply],
    pool: &mut [u64],
    book: &mut [u64],
)
    ensures { (replies.new, pool.new, book.new) ≡ course_by rule values.now requests.now replies.old pool.old book.old }
{
    if rule == THIRD {
        let letter = third::Letter { value: 0 };
        make_all(&Third, letter, values, requests, replies, pool, book);
    } else {
        let letter = last::Letter { value: 0, stamp: 0 };
        make_all(&Last, letter, values, requests, replies, pool, book);
    }
}
