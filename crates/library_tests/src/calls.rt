//! The shed's calls, one by one and as lists of steps.
use conduct::conduct;
use conduct::steps::take_steps;
use last::Last;
use protocol::refusal::Refusal;
use protocol::types::{Fate, Sight, Stand, Step};
use shed_core::buffers::Buffers;
use shed_core::shed::Shed;
use std::test::Fail;
use third::Third;

// What each call answers among two stations that open with 9 and 7.
#[test]
fn answers(rt: HostRuntime) {
    let mut states = [third::State {
        value: 0,
        hull: None,
    }; 2];
    let mut letters = [third::Letter { value: 0 }; 6];
    let mut pool = [1; 8];
    let mut book = [1; 3];
    let mut buffers = Buffers {
        states: &mut states,
        letters: &mut letters,
        pool: &mut pool,
        book: &mut book,
    };
    let mut shed = Shed::new();
    assert_eq!(rt; shed.open(&Third, &mut buffers, &[9, 7]), Ok(2));
    assert_eq!(rt; shed.send(&Third, &mut buffers, 0), Ok(2));
    assert_eq!(rt; shed.send(&Third, &mut buffers, 1), Ok(2));
    // a copy of the frame from 1 to 0
    assert_eq!(rt; shed.repeat(&Third, &mut buffers, 2), Ok(4));
    assert_eq!(rt; shed.deliver(&Third, &mut buffers, 0), Ok(Fate::Taken));
    assert_eq!(rt; shed.deliver(&Third, &mut buffers, 0), Ok(Fate::Taken));
    assert_eq!(rt; shed.deliver(&Third, &mut buffers, 2), Ok(Fate::Again));
    assert_eq!(rt; shed.turn(&Third, &mut buffers, 0), Ok(1));
    assert_eq!(rt; shed.send(&Third, &mut buffers, 0), Ok(2));
    assert_eq!(rt; shed.deliver(&Third, &mut buffers, 3), Ok(Fate::Early));
    assert_eq!(rt; shed.drop(&Third, &mut buffers, 0), Ok(0));
    assert_eq!(rt; shed.turn(&Third, &mut buffers, 1), Ok(1));
    // the held letter is heard in its own round, and the frame of round 0 is late
    assert_eq!(rt; shed.send(&Third, &mut buffers, 1), Ok(2));
    assert_eq!(rt; shed.deliver(&Third, &mut buffers, 1), Ok(Fate::Late));
    assert_eq!(rt; shed.turn(&Third, &mut buffers, 1), Ok(2));
    assert_eq!(rt; shed.crash(&Third, &mut buffers, 0), Ok(0));
    assert_eq!(rt; shed.entries(), 3);
    assert_eq!(rt;
        book,
        [
            0x0000_C000_0000_0000,
            0x1000_0000_0000_0000,
            0x1001_8000_0000_0000,
        ]
    );
    for (station, stand, round) in [(0, Stand::Down, 1), (1, Stand::Fresh, 2)] {
        let sight = Sight {
            stand,
            round,
            hull: None,
        };
        assert_eq!(rt;
            shed.look(&Third, &states, &letters, &pool, &book, station),
            Ok(sight)
        );
    }
}

// A round of two stations under LastVoting in which each letter arrives: there are two, to the coordinator or from it.
const ROUND: [Step; 6] = [
    Step::Send(0),
    Step::Send(1),
    Step::Deliver(0),
    Step::Deliver(0),
    Step::Turn(0),
    Step::Turn(1),
];

// An opening that was refused, as a test's failure.
fn refused(_refusal: Refusal) -> Fail {
    Fail::new("refused")
}

// A phase of four rounds settles the coordinator's value.
#[test]
fn phase_in_steps(rt: HostRuntime) -> Result<(), Fail> {
    let blank = last::State {
        value: 0,
        stamp: 0,
        vote: 0,
        committed: false,
        ready: false,
        hull: None,
    };
    let mut states = [blank; 2];
    let mut letters = [last::Letter { value: 0, stamp: 0 }; 6];
    let mut pool = [1; 2];
    let mut book = [1; 8];
    let mut buffers = Buffers {
        states: &mut states,
        letters: &mut letters,
        pool: &mut pool,
        book: &mut book,
    };
    let mut outcomes = [Some(Refusal::Shut); 6];
    let done = conduct(&Last, &mut buffers, &[9, 7], &ROUND, &mut outcomes);
    let mut shed = done.map_err(refused)?;
    assert_eq!(rt; outcomes, [None; 6]);
    for _ in 0..3 {
        outcomes = [Some(Refusal::Shut); 6];
        take_steps(&mut shed, &Last, &mut buffers, &ROUND, &mut outcomes);
        assert_eq!(rt; outcomes, [None; 6]);
    }
    for station in 0..2 {
        let sight = Sight {
            stand: Stand::Fresh,
            round: 4,
            hull: Some(9),
        };
        assert_eq!(rt;
            shed.look(&Last, &states, &letters, &pool, &book, station),
            Ok(sight)
        );
    }
    Ok(())
}
