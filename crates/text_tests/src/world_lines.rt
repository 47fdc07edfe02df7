//! Lines that are read, those that take memory above all, and lines at the limits.

use ff_ids::{Epoch, Heal, MemberId, RingNo};
use line_text::{BadWord, LineFault, Reader};
use lms_ots::OtsKind;
use lms_tree::TreeKind;
use schedule_world::{WorldLine, WorldText};
use std::alloc::Global;
use std::test::Fail;

/// A reader that has read a group of tolerance 1 and its kinds.
fn below_kinds(alloc: Global) -> Result<Reader<WorldText>, Fail> {
    let mut lines = Reader::open(WorldText::Start);
    lines.line(alloc, b"fireflies 1 world\n")?;
    lines.line(alloc, b"group 1 4 1 2 000102030405060708090a0b0c0d0e0F\n")?;
    let line = lines.line(alloc, b"kinds 8 5\n")?;
    if !matches!(
        line,
        WorldLine::Kinds {
            ots: OtsKind::W8,
            tree: TreeKind::H5,
            bottom: None
        }
    ) {
        return Err(Fail::from("other kinds"));
    }
    Ok(lines)
}

/// A reader that has read a whole roster.
fn below_begin(alloc: Global) -> Result<Reader<WorldText>, Fail> {
    let mut lines = below_kinds(alloc)?;
    lines.line(alloc, b"node 1\n")?;
    lines.line(alloc, b"liar 2\n")?;
    lines.line(alloc, b"begin\n")?;
    Ok(lines)
}

fn bad(word: BadWord) -> Option<LineFault> {
    Some(LineFault::Bad(word))
}

#[test]
fn the_group_is_read(rt: HostRuntime) -> Result<(), Fail> {
    let alloc = rt.alloc();
    let mut lines = Reader::open(WorldText::Start);
    lines.line(alloc, b"fireflies 1 world\n")?;
    let line = lines.line(alloc, b"group 2 40 1 3 a0a1a2a3a4a5a6a7a8a9AAABACADAEAF\n")?;
    let WorldLine::Group { group } = line else {
        return Err(Fail::from("no group"));
    };
    assert_eq!(rt; group.tag[15], 0xaf);
    assert_eq!(rt; group.timeout, 40);
    assert_eq!(rt; group.misses, 3);
    Ok(())
}

#[test]
fn a_line_heal_is_read_once(rt: HostRuntime) -> Result<(), Fail> {
    let alloc = rt.alloc();
    let mut lines = below_kinds(alloc)?;
    assert_eq!(rt;
        lines.line(alloc, b"heal 2 1001\n").err(),
        bad(BadWord::Limit)
    );
    let WorldLine::Heal { heal } = lines.line(alloc, b"heal 2 1000\n")? else {
        return Err(Fail::from("no option"));
    };
    assert_eq!(rt; Some(heal), Heal::new(2, 1_000));
    assert_eq!(rt;
        lines.line(alloc, b"heal 2 1000\n").err(),
        bad(BadWord::Order)
    );
    lines.line(alloc, b"node 1\n")?;
    Ok(())
}

#[test]
fn a_roster_has_no_more_than_32(rt: HostRuntime) -> Result<(), Fail> {
    let alloc = rt.alloc();
    let mut lines = below_kinds(alloc)?;
    lines.line(alloc, b"liar 7\n")?;
    assert_eq!(rt; lines.line(alloc, b"begin\n").err(), bad(BadWord::Order));
    assert_eq!(rt; lines.line(alloc, b"node 7\n").err(), bad(BadWord::Limit));
    for number in 100..131u16 {
        let line = format!(in alloc; "node {number}\n")?;
        lines.line(alloc, line.as_bytes())?;
    }
    assert_eq!(rt; lines.line(alloc, b"node 8\n").err(), bad(BadWord::Limit));
    lines.line(alloc, b"begin\n")?;
    assert_eq!(rt; lines.line(alloc, b"node 8\n").err(), bad(BadWord::Order));
    Ok(())
}

#[test]
fn bytes_are_read(rt: HostRuntime) -> Result<(), Fail> {
    let alloc = rt.alloc();
    let mut lines = below_begin(alloc)?;
    let WorldLine::Raw { member, bytes } = lines.line(alloc, b"raw 1 4646fF\n")? else {
        return Err(Fail::from("no bytes"));
    };
    assert_eq!(rt; member, MemberId::new(1));
    assert_eq!(rt; bytes.as_slice(), b"\x46\x46\xff".as_slice());
    for (bytes, wanted) in [(32_769u32, None), (32_770, bad(BadWord::Limit))] {
        let mut text = String::from_str(alloc, "raw 1 ")?;
        for _ in 0..bytes {
            text.push_str("5a")?;
        }
        text.push_str("\n")?;
        assert_eq!(rt;
            lines.line(alloc, text.as_bytes()).err(),
            wanted,
            "for {bytes}"
        );
    }
    Ok(())
}

#[test]
fn signed_notes_and_accusations_are_read(rt: HostRuntime) -> Result<(), Fail> {
    let alloc = rt.alloc();
    let mut lines = below_begin(alloc)?;
    let line = lines.line(alloc, b"sign-note 2 3 18446744073709551615 7 n-18\n")?;
    let WorldLine::SignNote { key, note, name } = line else {
        return Err(Fail::from("no note"));
    };
    assert_eq!(rt; key, MemberId::new(2));
    assert_eq!(rt; note.epoch, Epoch::new(u64::MAX));
    assert_eq!(rt; name.as_slice(), b"n-18".as_slice());
    let line = lines.line(alloc, b"sign-accusation 2 3 4 now 255 a\n")?;
    let WorldLine::SignAccusation {
        accused,
        epoch,
        ring,
        name,
        ..
    } = line
    else {
        return Err(Fail::from("no accusation"));
    };
    assert_eq!(rt; accused, MemberId::new(4));
    assert_eq!(rt; epoch, None);
    assert_eq!(rt; ring, RingNo(255));
    assert_eq!(rt; name.as_slice(), b"a".as_slice());
    Ok(())
}

#[test]
fn records_are_given_and_ticks_are_summed(rt: HostRuntime) -> Result<(), Fail> {
    let alloc = rt.alloc();
    let mut lines = below_begin(alloc)?;
    let WorldLine::Give { name, member } = lines.line(alloc, b"give a 1\n")? else {
        return Err(Fail::from("no gift"));
    };
    assert_eq!(rt; name.as_slice(), b"a".as_slice());
    assert_eq!(rt; member, MemberId::new(1));
    let WorldLine::GiveAll { name } = lines.line(alloc, b"give-all b\n")? else {
        return Err(Fail::from("no gift to all"));
    };
    assert_eq!(rt; name.as_slice(), b"b".as_slice());
    for _ in 0..9 {
        lines.line(alloc, b"tick 1 10000\n")?;
    }
    lines.line(alloc, b"tick 3 9999\n")?;
    assert_eq!(rt; lines.line(alloc, b"tick 1 2\n").err(), bad(BadWord::Limit));
    lines.line(alloc, b"tick 1 1\n")?;
    lines.line(alloc, b"end\n")?;
    assert_eq!(rt; lines.end().err(), None);
    Ok(())
}
