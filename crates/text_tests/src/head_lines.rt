//! The head of a text that asks for an audit.

use crate::two_levels::signed::{AUTHORITY, OF_PAIR, OF_TOP};
use crate::two_levels::word_for;
use line_text::{BadWord, LineFault};
use schedule::{Command, Line, Lines};
use schedule_texts::HeadLine;
use std::alloc::Global;
use std::process::Abort;
use std::test::Fail;

const HEADER: &str = "fireflies 1 audit\n";

const GROUP: &str = "group 1 4 1 2 00000000000000000000000000000000\n";

const STATE: &str = "state 0 0 7\n";

/// The lines of a head without a certificate.
const HEAD: [&str; 5] = [HEADER, GROUP, "heal 2 1\n", "self 1\n", AUTHORITY];

/// How many of those lines are read, and what the next one is refused for.
const ROWS: [(usize, &str, Option<BadWord>); 29] = [
    (0, "fireflies 1 kit\n", Some(BadWord::Header)),
    (1, HEADER, Some(BadWord::Word)),
    (1, "self 1\n", Some(BadWord::Order)),
    (1, "heal 2 1\n", Some(BadWord::Order)),
    (2, "kinds 4 5\n", Some(BadWord::Word)),
    (2, "heal 1 1\n", Some(BadWord::Limit)),
    (2, "self 1\n", None),
    (3, "heal 2 1\n", Some(BadWord::Order)),
    (3, "self 1024\n", Some(BadWord::Limit)),
    (3, "self 1 00\n", Some(BadWord::Count)),
    (4, STATE, Some(BadWord::Order)),
    (5, "journal\n", Some(BadWord::Order)),
    (5, "end\n", Some(BadWord::Order)),
    (5, "at 0 entered 1\n", Some(BadWord::Word)),
    (5, "turn 1 nothing ticks 0\n", Some(BadWord::Word)),
    (5, "state 32768 32768 9223372036854775807\n", None),
    (5, "state 32769 0 7\n", Some(BadWord::Limit)),
    (5, "state 5 6 7\n", Some(BadWord::Limit)),
    (5, "state 5 6 x\n", Some(BadWord::Limit)),
    (5, "state x 6 7\n", Some(BadWord::Number)),
    (5, "state 5 5 9223372036854775808\n", Some(BadWord::Limit)),
    (5, "state 5 5 07\n", Some(BadWord::Number)),
    (5, "state 5 5\n", Some(BadWord::Count)),
    (5, "state 0 0 7 5\n", Some(BadWord::Count)),
    (5, "cert 1 20001 00 00\n", Some(BadWord::Limit)),
    (5, "cert 1 20001\n", Some(BadWord::Count)),
    (5, OF_PAIR, None),
    (5, OF_TOP, None),
    (4, OF_TOP, Some(BadWord::Order)),
];

#[test]
fn lines_of_a_head(rt: HostRuntime) -> Result<(), Fail> {
    let lines = &HEAD;
    for (count, line, wanted) in ROWS {
        let Some(head) = lines.get(..count) else {
            return Err("more lines than a head has".into());
        };
        let word = word_for(rt.alloc(), Command::Audit, head, line)?;
        assert_eq!(rt; word, wanted, "{line}");
    }
    Ok(())
}

/// What the line is refused for below the head with this certificate and the others.
fn word_below(
    alloc: Global,
    cert: &'static str,
    others: &[&'static str],
    line: &str,
) -> Result<Option<BadWord>, Fail> {
    let mut head = HEAD.to_vec(alloc)?;
    head.push(cert)?;
    for other in others {
        head.push(other)?;
    }
    word_for(alloc, Command::Audit, &head, line)
}

/// The own key, whether it has two levels, says whether there is a height below.
#[test]
fn a_state_has_the_height_below(rt: HostRuntime) -> Result<(), Fail> {
    for (cert, line, wanted) in [
        (OF_TOP, STATE, None),
        (OF_TOP, "state 0 0 7 5\n", Some(BadWord::Count)),
        (OF_PAIR, STATE, Some(BadWord::Count)),
        (OF_PAIR, "state 0 0 7 5\n", None),
        (OF_PAIR, "state 0 0 7 10\n", None),
        (OF_PAIR, "state 0 0 7 15\n", Some(BadWord::Limit)),
        (OF_PAIR, "state 0 1 7 x\n", Some(BadWord::Limit)),
        (OF_PAIR, OF_PAIR, Some(BadWord::Cert)),
    ] {
        let word = word_below(rt.alloc(), cert, &[], line)?;
        assert_eq!(rt; word, wanted, "{line}");
    }
    Ok(())
}

/// The line `journal` wants the own certificate.
#[test]
fn a_journal_is_of_a_certified_member(rt: HostRuntime) -> Result<(), Fail> {
    let alloc = rt.alloc();
    let word = word_below(alloc, STATE, &[], "journal\n")?;
    assert_eq!(rt; word, Some(BadWord::OwnKey));
    let word = word_below(alloc, STATE, &[], OF_TOP)?;
    assert_eq!(rt; word, Some(BadWord::Order));
    for (line, wanted) in [
        ("journal\n", None),
        ("journal 1\n", Some(BadWord::Count)),
        ("end\n", Some(BadWord::Order)),
        (STATE, Some(BadWord::Order)),
    ] {
        let word = word_below(alloc, OF_TOP, &[STATE], line)?;
        assert_eq!(rt; word, wanted, "{line}");
    }
    Ok(())
}

/// Whether the line is the last of a head.
fn is_journal(alloc: Global, lines: &mut Lines, bytes: &[u8]) -> Result<bool, LineFault> {
    Ok(matches!(lines.line(alloc, bytes)?, Line::Head(HeadLine::Journal)))
}

/// With the line `journal` the head has ended, and no line before it ends it.
fn compare_end(rt: &impl Abort, alloc: Global, lines: &mut Lines) -> Result<(), Fail> {
    for line in HEAD {
        lines.line(alloc, line.as_bytes())?;
    }
    lines.line(alloc, OF_PAIR.as_bytes())?;
    lines.line(alloc, b"state 3 2 7 5\n")?;
    assert_eq!(rt; lines.end(), Err(LineFault::Bad(BadWord::End)));
    assert_eq!(rt; is_journal(alloc, lines, b"journal\n"), Ok(true));
    assert_eq!(rt; lines.end(), Ok(()));
    Ok(())
}

#[test]
fn a_head_ends_with_its_journal(rt: HostRuntime) -> Result<(), Fail> {
    let mut lines = Lines::open(Command::Audit);
    compare_end(&rt, rt.alloc(), &mut lines)
}
