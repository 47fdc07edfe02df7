//! A text for each command.

use line_text::{BadWord, LineFault};
use schedule::{Command, Line, Lines};
use schedule_direct::DirectLine;
use schedule_texts::{KitLine, RosterLine, SecretLine};
use schedule_world::WorldLine;
use std::alloc::Global;
use verify_text::VerifyLine;

/// The texts, and the two lines behind a header that are asked for.
#[derive(Clone, Copy, PartialEq, Eq, Debug, Drop)]
enum Kind {
    Direct,
    DirectGroup { t: u8, timeout: u32 },
    World,
    Verify,
    Secret,
    SecretGroup { timeout: u32 },
    Roster,
    Kit,
    Other,
}

fn kind_of(line: &Line) -> Kind {
    match line {
        Line::Direct(DirectLine::Header) => Kind::Direct,
        Line::Direct(DirectLine::Group { t, timeout }) => Kind::DirectGroup {
            t: *t,
            timeout: *timeout,
        },
        Line::World(WorldLine::Header) => Kind::World,
        Line::Verify(VerifyLine::Header) => Kind::Verify,
        Line::Secret(SecretLine::Header) => Kind::Secret,
        Line::Secret(SecretLine::Group(group)) => Kind::SecretGroup {
            timeout: group.timeout,
        },
        Line::Roster(RosterLine::Header) => Kind::Roster,
        Line::Kit(KitLine::Header) => Kind::Kit,
        _ => Kind::Other,
    }
}

/// What the line is, or its fault.
fn read(alloc: Global, lines: &mut Lines, bytes: &[u8]) -> Result<Kind, LineFault> {
    let line = lines.line(alloc, bytes)?;
    Ok(kind_of(&line))
}

fn bad(word: BadWord) -> Result<Kind, LineFault> {
    Err(LineFault::Bad(word))
}

#[test]
fn the_command_says_which_form(rt: HostRuntime) {
    let alloc = rt.alloc();
    let mut lines = Lines::open(Command::Replay);
    assert_eq!(rt;
        read(alloc, &mut lines, b"fireflies 1 direct\n"),
        Ok(Kind::Direct)
    );
    assert_eq!(rt;
        read(alloc, &mut lines, b"group 2 7\n"),
        Ok(Kind::DirectGroup { t: 2, timeout: 7 })
    );
    assert_eq!(rt; lines.number(), 3);
}

#[test]
fn a_replay_is_of_a_world_or_direct(rt: HostRuntime) {
    let alloc = rt.alloc();
    let mut lines = Lines::open(Command::Replay);
    assert_eq!(rt;
        read(alloc, &mut lines, b"fireflies 1 verify\n"),
        bad(BadWord::Header)
    );
    assert_eq!(rt;
        read(alloc, &mut lines, b"fireflies 1 world\n"),
        Ok(Kind::World)
    );
    assert_eq!(rt;
        read(alloc, &mut lines, b"group 2 7\n"),
        bad(BadWord::Count)
    );
}

#[test]
fn verify_has_a_text_of_its_own(rt: HostRuntime) {
    let alloc = rt.alloc();
    let mut lines = Lines::open(Command::Verify);
    assert_eq!(rt;
        read(alloc, &mut lines, b"fireflies 1 direct\n"),
        bad(BadWord::Header)
    );
    assert_eq!(rt;
        read(alloc, &mut lines, b"fireflies 1 verify\n"),
        Ok(Kind::Verify)
    );
    assert_eq!(rt; lines.end(), Err(LineFault::Bad(BadWord::End)));
}

#[test]
fn operators_have_texts_of_their_own(rt: HostRuntime) {
    let alloc = rt.alloc();
    let mut lines = Lines::open(Command::Secret);
    assert_eq!(rt;
        read(alloc, &mut lines, b"fireflies 1 secret\n"),
        Ok(Kind::Secret)
    );
    assert_eq!(rt;
        read(
            alloc,
            &mut lines,
            b"group 1 3 1 2 00112233445566778899aabbccddeeff\n"
        ),
        Ok(Kind::SecretGroup { timeout: 3 })
    );

    let mut lines = Lines::open(Command::Roster);
    assert_eq!(rt;
        read(alloc, &mut lines, b"fireflies 1 roster\n"),
        Ok(Kind::Roster)
    );
}

#[test]
fn a_member_has_a_text_of_its_own(rt: HostRuntime) {
    let alloc = rt.alloc();
    let mut lines = Lines::open(Command::Kit);
    assert_eq!(rt;
        read(alloc, &mut lines, b"fireflies 1 roster\n"),
        bad(BadWord::Header)
    );
    assert_eq!(rt;
        read(alloc, &mut lines, b"fireflies 1 kit\n"),
        Ok(Kind::Kit)
    );
    assert_eq!(rt; lines.number(), 2);
}
