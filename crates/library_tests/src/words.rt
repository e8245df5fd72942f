//! Frames, entries and the pool's words.
use frames::book::{heard_in_round, pack_entry, read_entry, senders};
use frames::frame::{pack_frame, read_frame};
use frames::index::Index;
use frames::pool::{add, clear, frame_at, repeat, take_out};
use last::Last;
use third::Third;

// The largest numbers of a frame under each rule.
#[test]
fn frames_in_words(rt: HostRuntime) {
    let word = 0xFFFF_FFFF_F000_0000;
    let letter = third::Letter { value: 65535 };
    assert_eq!(rt; pack_frame(&Third, 15, 15, 4095, &letter), Some(word));
    assert_eq!(rt; read_frame(&Third, 16, word), Some((15, 15, 4095, letter)));
    let word = 0x31FF_FFFF_F800_0000;
    let letter = last::Letter {
        value: 65535,
        stamp: 1024,
    };
    assert_eq!(rt; pack_frame(&Last, 3, 1, 4095, &letter), Some(word));
    assert_eq!(rt; frame_at(&Last, 4, &[word], 1, 0), Ok((3, 1, 4095, letter)));
}

// Of two words for station 1 in round 1 the first counts, without its low bits.
#[test]
fn entries_in_words(rt: HostRuntime) {
    let words = [
        0x1001_4001_FFFF_FFFF,
        0x1002_2000_0000_0000,
        0x1001_8000_0000_0000,
    ];
    let (station, round, heard) = read_entry(words[0]);
    assert_eq!(rt; (station, round), (1, 1));
    assert_eq!(rt;
        pack_entry(station, round, heard),
        Some(0x1001_4001_0000_0000)
    );
    assert_eq!(rt; senders(&words, 1, 1), heard);
    assert_eq!(rt; heard_in_round(&words, 1)[1], heard);
    assert_eq!(rt; Index::of(&words).heard_in_round(1)[1], heard);
}

#[test]
fn words_of_a_pool(rt: HostRuntime) {
    let mut pool = [0; 4];
    assert_eq!(rt; add(&mut pool, 0, &[5, 6, 7]), Ok(3));
    assert_eq!(rt; take_out(&mut pool, 3, 0), Ok(2));
    assert_eq!(rt; repeat(&mut pool, 2, 1), Ok(2));
    assert_eq!(rt; pool, [7, 6, 6, 0]);
    clear(&mut pool);
    assert_eq!(rt; pool, [0; 4]);
}
