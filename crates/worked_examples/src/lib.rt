//! The worked examples of the documents. All hold of the definitions, and each function here runs the library's code on
//! some of them and promises the values that they compute.
#![tactic(auto)]

ghost use Rattle.std.specs.Prelude.{◌≡◌, [], ◌∷◌, Some, map};
ghost use Rattle.worked_examples.specs.Rules.{ThirdExamples, LastExamples, LastRuns, third_states, last_states, unpacked};
ghost use Rattle.worked_examples.specs.Words.{WordExamples, words};
ghost use Rattle.worked_examples.specs.Calls.{CallExamples, run_outcomes, run_hulls, book_words};
ghost use Rattle.worked_examples.specs.Texts.{TextExamples, IsPlanned, two_steps_plan};
ghost use Rattle.worked_examples.specs.Numbers.{ProgramWords};

use conduct::conduct;
use frames::book::pack_entry;
use frames::frame::pack_frame;
use last::Last;
use protocol::refusal::Refusal;
use protocol::types::Step;
use protocol::{MAX_BOOK, MAX_POOL};
use rules::{LAST_ROUND, Rule};
use schedule_text::reader::{FIRST_STEP, MAX_BYTES, MAX_VALUES, read_schedule};
use schedule_text::types::{ReadError, Schedule};
use shed_core::buffers::Buffers;
use stations::{STATIONS, StationSet};
use std::alloc::Global;
use third::Third;

/// Four rounds of OneThirdRule.
pub fn third_rounds() -> [third::State; 4]
    ensures states { result ≡ third_states }
    ensures examples { ThirdExamples }
{
    let station = third::State {
        value: 9,
        hull: None,
    };
    let nine = Some(third::Letter { value: 9 });
    let seven = Some(third::Letter { value: 7 });
    [
        Third.next(2, 0, 0, &station, &[nine, seven]),
        Third.next(3, 0, 0, &station, &[seven, seven, nine]),
        Third.next(3, 0, 0, &station, &[seven, seven, seven]),
        Third.next(3, 0, 0, &station, &[seven, seven, None]),
    ]
}

// A letter of LastVoting.
fn stamped(value: u16, stamp: u16) -> Option<last::Letter>
    ensures { result ≡ Some (record { value = value; stamp = stamp }) }
{
    Some(last::Letter { value, stamp })
}

/// Three first rounds of LastVoting.
pub fn last_rounds() -> [last::State; 3]
    ensures states { result ≡ last_states }
    ensures examples { LastExamples }
    ensures runs { LastRuns }
{
    let station = Last.first(4, 0, 5);
    let two = [stamped(5, 0), stamped(6, 0), None, None];
    let three = [stamped(5, 0), stamped(6, 0), None, stamped(7, 0)];
    let tie = [stamped(300, 1), stamped(200, 2), stamped(100, 2), None];
    [
        Last.next(4, 0, 0, &station, &two),
        Last.next(4, 0, 0, &station, &three),
        Last.next(4, 0, 0, &station, &tie),
    ]
}

/// The last stamp unpacks, and one more does not.
pub fn unpacked_stamps() -> [Option<last::Letter>; 2]
    ensures { result ≡ unpacked }
{
    let value = 300 << 28;
    [
        Last.unpack(value + (1024 << 17)),
        Last.unpack(value + (1025 << 17)),
    ]
}

/// A frame of each rule, and an entry.
#[tactic(auto, unfolding(frames::specs::Frame::frame_word, frames::specs::Book::entry_word))]
pub fn packed_words() -> [Option<u64>; 3]
    ensures packed { result ≡ map Some words }
    ensures examples { WordExamples }
{
    let seven = third::Letter { value: 7 };
    let latest = last::Letter {
        value: 300,
        stamp: 1,
    };
    let mut heard = StationSet::empty();
    heard.insert(0);
    heard.insert(1);
    [
        pack_frame(&Third, 0, 1, 1, &seven),
        pack_frame(&Last, 2, 0, 4, &latest),
        pack_entry(1, 1, heard),
    ]
}

/// What a run of sixteen steps of two stations comes to.
#[derive(Clone, Copy)]
pub struct RunOutcome {
    /// Of each step, or none.
    pub refusals: [Option<Refusal>; 16],
    /// Of each station, or none.
    pub hulls: [Option<u16>; 2],
    /// The four entries, and what is left.
    pub book: [u64; 6],
}

/// Two stations that open with 9 and 7 under OneThirdRule and settle 7: the eighth step finds a station that holds a letter,
/// and the last one a fresh station.
pub fn two_stations() -> RunOutcome
    ensures refusals { result.refusals ≡ run_outcomes }
    ensures hulls { result.hulls ≡ run_hulls }
    ensures book { result.book ≡ book_words }
    ensures examples { CallExamples }
{
    let steps = [
        Step::Send(0),
        Step::Send(1),
        Step::Deliver(0),
        Step::Deliver(2),
        Step::Turn(0),
        Step::Send(0),
        Step::Deliver(3),
        Step::Deliver(0),
        Step::Turn(1),
        Step::Send(1),
        Step::Deliver(2),
        Step::Deliver(3),
        Step::Turn(0),
        Step::Deliver(2),
        Step::Turn(1),
        Step::Deliver(0),
    ];
    let mut states = [third::State {
        value: 0,
        hull: None,
    }; 2];
    let mut letters = [third::Letter { value: 0 }; 6];
    let mut pool = [0; 8];
    let mut book = [0; 6];
    let mut refusals = [None; 16];
    let mut buffers = Buffers {
        states: &mut states,
        letters: &mut letters,
        pool: &mut pool,
        book: &mut book,
    };
    let _opened = conduct(&Third, &mut buffers, &[9, 7], &steps, &mut refusals);
    let [first, second] = states;
    RunOutcome {
        refusals,
        hulls: [first.hull, second.hull],
        book,
    }
}

/// A schedule of two steps from its text. Fails only out of memory.
#[tactic(auto, using(crate::proofs::Planned::planned))]
pub fn read_two_steps(heap: Global) -> Result<Schedule, ReadError>
    ensures planned { IsPlanned two_steps_plan result }
    ensures examples { TextExamples }
{
    read_schedule(heap, b"rule third\nvalues 9 7\ns 0\nd 12\n")
}

/// How many stations there can be, the last round, the most words of a pool and of a book, and of a schedule the most bytes,
/// the most opening values and the line of the first step.
pub fn bounds() -> [usize; 7]
    ensures bounds { result ≡ 16 ∷ 4095 ∷ 4096 ∷ 65536 ∷ 65536 ∷ 16 ∷ 3 ∷ [] }
    ensures words { ProgramWords }
{
    [
        STATIONS,
        usize::from(LAST_ROUND),
        MAX_POOL,
        MAX_BOOK,
        MAX_BYTES,
        MAX_VALUES,
        FIRST_STEP,
    ]
}
