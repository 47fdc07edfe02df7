//! Workloads of seed 7. Their tag and their draws were computed by another program.

ghost use Rattle.std.specs.Prelude.{◌≤◌};

use schedule_world::WorldLine;
use soak_lines::Soak;
use std::alloc::Global;
use std::test::Fail;

/// The victim and the ring of each accusation in ten rounds of twenty members, in order.
const DRAWN: [(u16, u8); 20] = [
    (5, 0),
    (1, 1),
    (4, 4),
    (6, 0),
    (6, 3),
    (6, 0),
    (0, 3),
    (7, 2),
    (4, 4),
    (3, 0),
    (14, 3),
    (12, 2),
    (6, 2),
    (11, 2),
    (15, 0),
    (16, 0),
    (2, 4),
    (17, 3),
    (6, 0),
    (9, 4),
];

/// How many lines the workload has.
fn count(alloc: Global, nodes: u16, rounds: u16) -> Result<u32, Fail>
    requires nodes { (3 ≤ nodes) × (nodes ≤ 32) }
    requires rounds { (1 ≤ rounds) × (rounds ≤ 1000) }
{
    let mut soak = Soak::open(alloc, 7, nodes, rounds)?;
    for lines in 0..100_000u32 {
        if soak.next(alloc)?.is_none() {
            return Ok(lines);
        }
    }
    Err(Fail::from("no end"))
}

#[test]
fn workloads_have_so_many_lines(rt: HostRuntime) -> Result<(), Fail> {
    assert_eq!(rt; count(rt.alloc(), 3, 1)?, 15);
    assert_eq!(rt; count(rt.alloc(), 20, 10)?, 277);
    assert_eq!(rt; count(rt.alloc(), 20, 200)?, 4723);
    Ok(())
}

/// The victim and the ring, where the line signs an accusation.
fn drawn_in(line: &WorldLine) -> Option<(u16, u8)> {
    match line {
        WorldLine::SignAccusation { accused, ring, .. } => Some((accused.get(), ring.0)),
        _ => None,
    }
}

#[test]
fn the_draws_are_those_of_the_seed(rt: HostRuntime) -> Result<(), Fail> {
    let alloc = rt.alloc();
    let mut soak = Soak::open(alloc, 7, 20, 10)?;
    let mut drawn = Vec::new(alloc);
    for _ in 0..277 {
        let line = soak.next(alloc)?.ok_or("no line")?;
        if let Some(pair) = drawn_in(&line) {
            drawn.push(pair)?;
        }
    }
    assert_eq!(rt; drawn.as_slice(), DRAWN.as_slice());
    assert!(rt; soak.next(alloc)?.is_none());
    Ok(())
}

/// The tag, where the line is that of the group.
fn tag_in(line: &WorldLine) -> Option<[u8; 16]> {
    match line {
        WorldLine::Group { group } => Some(group.tag),
        _ => None,
    }
}

/// Whether the line is the first note of member 18.
fn is_first_note(line: &WorldLine) -> bool {
    match line {
        WorldLine::SignNote { key, note, name } => {
            key.get() == 18
                && note.epoch.get() == 1
                && note.mask.0 == 31
                && name.as_slice() == b"n18".as_slice()
        }
        _ => false,
    }
}

#[test]
fn the_group_and_the_notes_are_those_of_the_workload(rt: HostRuntime) -> Result<(), Fail> {
    let alloc = rt.alloc();
    let mut soak = Soak::open(alloc, 7, 20, 1)?;
    let _header = soak.next(alloc)?;
    let group = soak.next(alloc)?.ok_or("no group")?;
    let tag = b"\x60\x9d\x87\x64\x29\xd8\xf4\x65\x6b\x78\x4d\x93\x02\x7e\x67\xe4";
    assert_eq!(rt; tag_in(&group), Some(*tag));
    for _ in 2..42 {
        let _line = soak.next(alloc)?;
    }
    let note = soak.next(alloc)?.ok_or("no note")?;
    assert!(rt; is_first_note(&note));
    Ok(())
}
