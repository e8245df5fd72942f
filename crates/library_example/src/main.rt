//! Two stations settle one number by a list of calls; then one call more, and an audit from the book.
#![tactic(auto)]

use conduct::conduct;
use protocol::refusal::Refusal;
use protocol::types::Step;
use recount::recount;
use shed_core::buffers::Buffers;
use third::{Letter, State, Third};

// What the stations begin with.
const VALUES: [u16; 2] = [9, 7];

// The run of the first page.
const STEPS: [Step; 17] = [
    Step::Send(0),
    Step::Turn(1),
    Step::Send(1),
    Step::Deliver(0),
    Step::Deliver(0),
    Step::Deliver(0),
    Step::Drop(0),
    Step::Turn(0),
    Step::Turn(1),
    Step::Send(0),
    Step::Send(1),
    Step::Deliver(0),
    Step::Deliver(0),
    Step::Deliver(0),
    Step::Deliver(0),
    Step::Turn(0),
    Step::Turn(1),
];

// What the two stations show, and what they show by the book alone.
#[derive(Clone, Copy, Debug)]
struct Settled {
    shown: [Option<u16>; 2],
    by_the_book: [Option<u16>; 2],
}

// Makes the steps on a new shed, crashes station 1, looks at both stations, and recounts the book at round 2.
fn settle(outcomes: &mut [Option<Refusal>]) -> Result<Settled, Refusal> {
    let blank = State {
        value: 0,
        hull: None,
    };
    let mut states = [blank; 2];
    let mut letters = [Letter { value: 0 }; 6];
    let mut pool = [0; 8];
    let mut book = [0; 4];
    let mut buffers = Buffers {
        states: &mut states,
        letters: &mut letters,
        pool: &mut pool,
        book: &mut book,
    };
    let mut shed = conduct(&Third, &mut buffers, &VALUES, &STEPS, outcomes)?;
    shed.crash(&Third, &mut buffers, 1)?;
    let zero = shed.look(&Third, &states, &letters, &pool, &book, 0)?;
    let one = shed.look(&Third, &states, &letters, &pool, &book, 1)?;
    let mut again = [blank; 2];
    let mut scratch = [blank; 2];
    let mut row = [Letter { value: 0 }; 2];
    recount(
        &Third,
        &VALUES,
        &book,
        2,
        &mut again,
        &mut scratch,
        &mut row,
    )?;
    Ok(Settled {
        shown: [zero.hull, one.hull],
        by_the_book: [again[0].hull, again[1].hull],
    })
}

fn main(rt: HostRuntime) -> anyhow::Result<()> {
    let mut outcomes = [None; 17];
    let settled = settle(&mut outcomes);
    println!(rt; "{settled:?}")?;
    for (at, outcome) in outcomes.iter().enumerate() {
        if let Some(refusal) = *outcome {
            let number = refusal.number();
            println!(rt; "step {at} refused {number}")?;
        }
    }
    Ok(())
}
