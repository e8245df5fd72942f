//! A request, its answer, and the reply that tells it.
ghost use Rattle.std.specs.Prelude.{◌≡◌, length, slice_get, slice_set};
ghost use Rattle.protocol.specs.Calls.{look_call};
ghost use Rattle.shed_core.specs.Of.{world, world_of, ComesTo, StillLent};
ghost use Rattle.peer_bridge.specs.Requests.{hull_number, letter_number, sight_number, as_number, reply_of, letter_written, hull_shown, called, answered, made};

use crate::STATES;
use protocol::refusal::Refusal;
use protocol::types::Sight;
use recount::recount;
use rules::Rule;
use shed_core::buffers::Buffers;
use shed_core::shed::Shed;

/// What is requested. By its kind this is
/// - a call of the shed: 0 open, with the first `at` opening values; 1 send, 5 turn, 6 crash and 7 look, of station `at`; 2
///   deliver, 3 drop and 4 repeat, of the frame at place `at`;
/// - 8 recount, of the run of all opening values up to `round`, from the words of the book into the states;
/// - 9 what the state in cell `at` writes to `receiver`, where it is one of n stations in `round`;
/// - 10 the hull that the state in cell `at` shows;
/// - 11 the letter in cell `at`;
/// - any other: others than the shed write `word` into the pool, at place `at`.
/// The last four are how many cells of each buffer are lent to it. Recount's second buffer has as many cells as letters are
/// lent, and its row as many as words of the pool, 17 at most.
#[repr(C)]
#[derive(Clone, Copy)]
pub struct Request {
    pub kind: u8,
    pub at: usize,
    pub n: usize,
    pub station: usize,
    pub round: u16,
    pub receiver: usize,
    pub word: u64,
    pub states: usize,
    pub letters: usize,
    pub pool: usize,
    pub book: usize,
}

/// A refusal's number and 0, or 0 and the answer. An answer that is no number is told by one: a fate by its place among late,
/// again, taken and early; a hull or a packed letter by one more than its number, and none by 0; and what look shows by its
/// hull, times 65,536, and its round, times 3, and its stand, which is 0, 1 or 2.
#[repr(C)]
#[derive(Clone, Copy)]
pub struct Reply {
    pub refusal: u8,
    pub answer: usize,
}

pub(crate) fn as_reply(answer: Result<usize, Refusal>) -> Reply
    ensures { result ≡ reply_of answer }
{
    match answer {
        Ok(answer) => Reply { refusal: 0, answer },
        Err(refusal) => Reply {
            refusal: refusal.number(),
            answer: 0,
        },
    }
}

fn hull_number(hull: Option<u16>) -> usize
    ensures { result ≡ hull_number hull }
{
    match hull {
        Some(hull) => usize::from(hull) + 1,
        None => 0,
    }
}

fn letter_number<R: Rule>(rule: &R, letter: Option<R::Letter>) -> usize
    ensures { result ≡ letter_number (R.Rule.behaviour rule.now) letter }
{
    match letter {
        Some(letter) => rule.pack(&letter) as usize + 1,
        None => 0,
    }
}

fn sight_number(sight: Sight) -> usize
    ensures { result ≡ sight_number sight }
{
    (hull_number(sight.hull) * 65536 + usize::from(sight.round)) * 3 + sight.stand as usize
}

// What is seen of a station.
fn look<R: Rule>(
    shed: &Shed,
    rule: &R,
    lent: &Buffers<'_, R::State, R::Letter>,
    p: usize,
) -> Result<usize, Refusal>
    ensures { ComesTo result (world_of shed.now lent.now)
        (as_number sight_number (look_call (R.Rule.behaviour rule.now) (world_of shed.now lent.now) p)) }
{
    let Buffers {
        states,
        letters,
        pool,
        book,
    } = lent;
    Ok(sight_number(shed.look(rule, states, letters, pool, book, p)?))
}

// A call of the shed.
fn call<R: Rule>(
    shed: &mut Shed,
    rule: &R,
    lent: &mut Buffers<'_, R::State, R::Letter>,
    values: &[u16],
    request: &Request,
) -> Result<usize, Refusal>
    ensures call { ComesTo result (world_of shed.new lent.new)
        (called (R.Rule.behaviour rule.now) values.now (world_of shed.old lent.old) request.now) }
    ensures lent { StillLent lent.old lent.new }
{
    let k = request.at;
    match request.kind {
        0 => shed.open(rule, lent, &values[..k.min(values.len())]),
        1 => shed.send(rule, lent, k),
        2 => Ok(shed.deliver(rule, lent, k)? as usize),
        3 => shed.drop(rule, lent, k),
        4 => shed.repeat(rule, lent, k),
        5 => Ok(usize::from(shed.turn(rule, lent, k)?)),
        6 => shed.crash(rule, lent, k),
        _ => look(shed, rule, lent, k),
    }
}

// What the state in a cell writes to the receiver.
fn letter_of<R: Rule>(rule: &R, states: &[R::State], request: &Request) -> usize
    ensures { result ≡ letter_written (R.Rule.behaviour rule.now) states.now request.now }
{
    let Request {
        n,
        station,
        round,
        receiver,
        ..
    } = *request;
    match states.get(request.at) {
        Some(state) => letter_number(rule, rule.letter(n, station, round, state, receiver)),
        None => 0,
    }
}

// The hull that the state in a cell shows.
fn hull_of<R: Rule>(rule: &R, states: &[R::State], k: usize) -> usize
    ensures { result ≡ hull_shown (R.Rule.behaviour rule.now) states.now k }
{
    match states.get(k) {
        Some(state) => hull_number(rule.hull(state)),
        None => 0,
    }
}

// The letter in a cell.
fn letter_in<R: Rule>(rule: &R, letters: &[R::Letter], k: usize) -> usize
    ensures { result ≡ letter_number (R.Rule.behaviour rule.now) (slice_get letters.now k) }
{
    letter_number(rule, letters.get(k).copied())
}

// Others than the shed write a word.
fn write(words: &mut [u64], k: usize, word: u64)
    ensures { words.new ≡ slice_set words.old k word }
{
    if k < words.len() {
        words[k] = word;
    }
}

// What is requested, of buffers as they are lent; the last two are recount's.
fn answer<R: Rule>(
    shed: &mut Shed,
    rule: &R,
    states: &mut [R::State],
    letters: &mut [R::Letter],
    pool: &mut [u64],
    book: &mut [u64],
    values: &[u16],
    request: &Request,
    scratch: &mut [R::State],
    row: &mut [R::Letter],
) -> Result<usize, Refusal>
    ensures { ComesTo result (world shed.new states.new letters.new pool.new book.new)
        (answered (R.Rule.behaviour rule.now) values.now (length scratch.old) (length row.old)
        (world shed.old states.old letters.old pool.old book.old) request.now) }
{
    let k = request.at;
    match request.kind {
        0..=7 => {
            let mut lent = Buffers {
                states,
                letters,
                pool,
                book,
            };
            call(shed, rule, &mut lent, values, request)
        }
        8 => {
            let round = recount(rule, values, book, request.round, states, scratch, row)?;
            Ok(usize::from(round))
        }
        9 => Ok(letter_of(rule, states, request)),
        10 => Ok(hull_of(rule, states, k)),
        11 => Ok(letter_in(rule, letters, k)),
        _ => {
            write(pool, k, request.word);
            Ok(0)
        }
    }
}

// The same, with as many cells of each buffer as the request is lent.
pub(crate) fn make<R: Rule>(
    shed: &mut Shed,
    rule: &R,
    states: &mut [R::State],
    letters: &mut [R::Letter],
    pool: &mut [u64],
    book: &mut [u64],
    values: &[u16],
    request: &Request,
    scratch: &mut [R::State],
    row: &mut [R::Letter],
) -> Result<usize, Refusal>
    requires scratch { length scratch.old ≡ STATES }
    requires row { length row.old ≡ STATES }
    ensures { ComesTo result (world shed.new states.new letters.new pool.new book.new)
        (made (R.Rule.behaviour rule.now) values.now (world shed.old states.old letters.old pool.old book.old) request.now) }
{
    let s = request.states.min(states.len());
    let l = request.letters.min(letters.len());
    let p = request.pool.min(pool.len());
    let b = request.book.min(book.len());
    answer(
        shed,
        rule,
        &mut states[..s],
        &mut letters[..l],
        &mut pool[..p],
        &mut book[..b],
        values,
        request,
        &mut scratch[..request.letters.min(STATES)],
        &mut row[..request.pool.min(STATES)],
    )
}
