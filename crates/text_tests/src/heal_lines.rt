//! The line `heal` of a member's text and of a schedule of a world.

use crate::two_levels::word_for;
use line_text::BadWord;
use schedule::Command;
use std::alloc::Global;
use std::process::Abort;
use std::test::Fail;

const GROUP: &str = "group 1 4 1 2 00000000000000000000000000000000\n";

const KINDS: &str = "kinds 2 5\n";

const HEAL: &str = "heal 2 1\n";

/// The texts that have such a line, each with its first one.
const TEXTS: [(Command, &str); 2] = [
    (Command::Kit, "fireflies 1 kit\n"),
    (Command::Replay, "fireflies 1 world\n"),
];

/// Lines below that of the kinds, and what they are refused for.
const ROWS: [(&str, Option<BadWord>); 11] = [
    ("heal 2 0\n", None),
    ("heal 1000 1000\n", None),
    ("heal 1 1\n", Some(BadWord::Limit)),
    ("heal 1001 1\n", Some(BadWord::Limit)),
    ("heal 2 1001\n", Some(BadWord::Limit)),
    ("heal x 1\n", Some(BadWord::Number)),
    ("heal 2 -\n", Some(BadWord::Number)),
    ("heal 1 x\n", Some(BadWord::Limit)),
    ("heal 2\n", Some(BadWord::Count)),
    ("heal 2 1 1\n", Some(BadWord::Count)),
    ("Heal 2 1\n", Some(BadWord::Word)),
];

#[test]
fn the_numbers_of_a_line_heal(rt: HostRuntime) -> Result<(), Fail> {
    for (line, wanted) in ROWS {
        for (command, header) in TEXTS {
            let word = word_for(rt.alloc(), command, &[header, GROUP, KINDS], line)?;
            assert_eq!(rt; word, wanted, "{line}");
        }
    }
    Ok(())
}

/// Below these lines one `heal` is out of order.
fn is_misplaced(
    rt: &impl Abort,
    alloc: Global,
    command: Command,
    head: &[&str],
) -> Result<(), Fail> {
    let word = word_for(alloc, command, head, HEAL)?;
    assert_eq!(rt; word, Some(BadWord::Order));
    Ok(())
}

/// It stands directly below the kinds, once.
#[test]
fn a_line_heal_elsewhere(rt: HostRuntime) -> Result<(), Fail> {
    let alloc = rt.alloc();
    for (command, header) in TEXTS {
        is_misplaced(&rt, alloc, command, &[header])?;
        is_misplaced(&rt, alloc, command, &[header, GROUP])?;
        is_misplaced(&rt, alloc, command, &[header, GROUP, KINDS, HEAL])?;
    }
    let own = "self 1 5a5a5a5a5a5a5a5a5a5a5a5a5a5a5a5a5a5a5a5a5a5a5a5a5a5a5a5a5a5a5a5a\n";
    is_misplaced(
        &rt,
        alloc,
        Command::Kit,
        &["fireflies 1 kit\n", GROUP, KINDS, own],
    )?;
    for line in ["node 1\n", "liar 1\n"] {
        let head = ["fireflies 1 world\n", GROUP, KINDS, line];
        is_misplaced(&rt, alloc, Command::Replay, &head)?;
    }
    Ok(())
}

/// The other texts have no such line.
#[test]
fn a_line_heal_of_another_text(rt: HostRuntime) -> Result<(), Fail> {
    let secret = ["fireflies 1 secret\n", GROUP, KINDS];
    let roster = ["fireflies 1 roster\n", GROUP, KINDS];
    for (command, head) in [(Command::Secret, secret), (Command::Roster, roster)] {
        assert_eq!(rt;
            word_for(rt.alloc(), command, &head, HEAL)?,
            Some(BadWord::Word)
        );
    }
    Ok(())
}
