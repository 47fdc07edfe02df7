//! Turns that are written and read back.

use fields::Bytes;
use journal::{EventFault, Heard, Turn, read_turn, write_turn};
use std::test::Fail;

/// A turn's line for each thing that may be heard.
const TURNS: [&str; 6] = [
    "turn 1 nothing ticks 0",
    "turn 2 nothing ticks 2",
    "turn 1000000 failed ticks 64",
    "turn 3 got 46460101 ticks 1",
    "turn 4 got - ticks 0",
    "turn 4294967295 got 00ff7a ticks 64",
];

#[test]
fn turns_are_written_as_they_are_read(rt: HostRuntime) -> Result<(), Fail> {
    for text in TURNS {
        let Ok(turn) = read_turn(rt.alloc(), text.as_bytes()) else {
            panic!(rt; "a turn: {text}");
        };
        let mut out = Vec::new(rt.alloc());
        write_turn(&turn, &mut out)?;
        assert_eq!(rt; out.as_slice(), text.as_bytes());
    }
    Ok(())
}

#[test]
fn a_turn_is_written_behind_what_stands(rt: HostRuntime) -> Result<(), Fail> {
    let bytes = Bytes::from_vec(Vec::from_slice(rt.alloc(), b"\x00\xff")?);
    let turn = Turn {
        number: 7,
        heard: Heard::Got(bytes),
        ticks: 3,
    };
    let mut out = Vec::from_slice(rt.alloc(), b"x,")?;
    write_turn(&turn, &mut out)?;
    assert_eq!(rt; out.as_slice(), b"x,turn 7 got 00ff ticks 3".as_slice());
    Ok(())
}

#[test]
fn a_fault_of_a_turn_is_at_its_word(rt: HostRuntime) {
    for (text, place) in [
        ("turn 0 nothing ticks 0", 5usize),
        ("turn 1 nothing ticks 65", 21),
        ("turn 1 got FF ticks 0", 11),
        ("turn 1 nothing", 14),
    ] {
        assert_eq!(rt;
            read_turn(rt.alloc(), text.as_bytes()).err(),
            Some(EventFault::BadEvent { place })
        );
    }
}
