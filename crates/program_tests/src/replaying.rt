//! Worked texts, played by `run` over objects in memory.

use crate::runs::{Run, answers, run_failing};
use std::alloc::Global;
use std::process::Abort;
use std::test::Fail;

/// Three members with their notes, and what is written for them.
const BASE: &str =
    "fireflies 1 direct\ngroup 1 3\nmember 1 10 10 10\nmember 2 20 20 20\nmember 3 30 30 30\n\
        note 1 1 7\nnote 2 1 7\nnote 3 1 7\n";

const BASE_TRACE: &str =
    "fireflies 1 direct\ngroup 1 3\nmember 1 10 10 10 : joined\nmember 2 20 20 20 : joined\n\
        member 3 30 30 30 : joined\nnote 1 1 7 : accepted\nat 0 entered 1\nnote 2 1 7 : accepted\n\
        at 0 entered 2\nnote 3 1 7 : accepted\nat 0 entered 3\n";

/// The shortest text, which is its own trace.
const SHORT: &str = "fireflies 1 direct\ngroup 1 3\nend\n";

const HEAD: &str = "fireflies 1 direct\ngroup 1 3\n";

/// Where a text begins, and what is written for that.
#[derive(Clone, Copy)]
enum Front {
    /// Nothing stands before the row.
    None,
    /// The header and a group of tolerance 1 and timeout 3.
    Head,
    /// Three members with their notes.
    Base,
}

impl Front {
    fn text(self) -> &'static str {
        match self {
            Front::None => "",
            Front::Head => HEAD,
            Front::Base => BASE,
        }
    }

    fn trace(self) -> &'static str {
        match self {
            Front::None => "",
            Front::Head => HEAD,
            Front::Base => BASE_TRACE,
        }
    }
}

/// What stands behind the front, what is written for it, and the number of the answer.
type Row = (Front, &'static str, &'static str, u8);

/// Plays the row, and compares what was written and the number.
fn play_row(rt: &impl Abort, alloc: Global, row: &Row) -> Result<(), Fail> {
    let (front, rest, trace, number) = row;
    let text = format!(in alloc; "{}{rest}", front.text())?;
    let wanted = format!(in alloc; "{}{trace}", front.trace())?;
    answers(rt, alloc, "replay", text.as_str(), wanted.as_str(), *number)
}

/// Plays each row.
fn play_rows(rt: &impl Abort, alloc: Global, rows: &[Row]) -> Result<(), Fail> {
    for row in rows {
        play_row(rt, alloc, row)?;
    }
    Ok(())
}

#[test]
fn texts_are_played_or_refused(rt: HostRuntime) -> Result<(), Fail> {
    play_rows(&rt, rt.alloc(), &TEXTS)
}

const TEXTS: [Row; 36] = [
    (Front::None, SHORT, SHORT, 0),
    (Front::None, "", "bad 1 end\n", 3),
    (Front::Head, "end", "bad 3 line-feed\n", 3),
    (Front::Head, "end\nx\n", "end\nbad 4 after-end\n", 3),
    (Front::Head, "", "bad 3 end\n", 3),
    (
        Front::None,
        "fireflies 1 world\n",
        "fireflies 1 world\nbad 2 end\n",
        3,
    ),
    (Front::None, "fireflies 2 direct\n", "bad 1 header\n", 3),
    (
        Front::None,
        "fireflies 1 direct\ngroup 32 3\n",
        "fireflies 1 direct\nbad 2 limit\n",
        3,
    ),
    (
        Front::None,
        "fireflies 1 direct\ngroup 1 0\n",
        "fireflies 1 direct\nbad 2 limit\n",
        3,
    ),
    (
        Front::None,
        "fireflies 1 direct\ngroup 1 10001\n",
        "fireflies 1 direct\nbad 2 limit\n",
        3,
    ),
    (
        Front::None,
        "fireflies 1 direct\nview\n",
        "fireflies 1 direct\nbad 2 order\n",
        3,
    ),
    (
        Front::None,
        "fireflies 1 direct\ngrup 1 3\n",
        "fireflies 1 direct\nbad 2 word\n",
        3,
    ),
    (
        Front::None,
        "fireflies 1 direct\ngroup 1\n",
        "fireflies 1 direct\nbad 2 count\n",
        3,
    ),
    (Front::Head, "member 1024 0 0 0\n", "bad 3 limit\n", 3),
    (Front::Head, "member 1 0 0 4294967296\n", "bad 3 limit\n", 3),
    (Front::Head, "member 1 0 0\n", "bad 3 count\n", 3),
    (Front::Head, "note 2 0 7\n", "bad 3 limit\n", 3),
    (Front::Head, "note 2 01 7\n", "bad 3 number\n", 3),
    (
        Front::Head,
        "note 2 18446744073709551616 7\n",
        "bad 3 number\n",
        3,
    ),
    (
        Front::Head,
        "note 2 1 18446744073709551616\n",
        "bad 3 number\n",
        3,
    ),
    (Front::Head, "note  2 1 7\n", "bad 3 spaces\n", 3),
    (Front::Head, "view\0\n", "bad 3 spaces\n", 3),
    (Front::Head, "view\u{7f}\n", "bad 3 spaces\n", 3),
    (Front::Head, "monitor 3 1\n", "bad 3 limit\n", 3),
    (Front::Head, "tick 0\n", "bad 3 limit\n", 3),
    (Front::Head, "tick 10001\n", "bad 3 limit\n", 3),
    (Front::Head, "accuse 1 2 1 256\n", "bad 3 limit\n", 3),
    (Front::Head, "accuse 1 2 0 0\n", "bad 3 limit\n", 3),
    (
        Front::Head,
        "accuse 1 2 18446744073709551616 0\n",
        "bad 3 number\n",
        3,
    ),
    (Front::Head, "life 1\n", "bad 3 count\n", 3),
    (Front::Head, "group 1 3\n", "bad 3 order\n", 3),
    (Front::Head, "fireflies 1 direct\n", "bad 3 word\n", 3),
    (Front::Head, "view\nend\n", "view : nobody\nend\n", 0),
    (
        Front::Base,
        "monitor 0 2\nmonitor 0 1\nend\n",
        "monitor 0 2 : 1\nmonitor 0 1 : 3\nend\n",
        0,
    ),
    (
        Front::Head,
        "monitor 0 1\nmember 1 10 10 10\nnote 1 1 7\nmonitor 0 1\nend\n",
        "monitor 0 1 : refused unknown-member\nmember 1 10 10 10 : joined\nnote 1 1 7 : accepted\n\
            at 0 entered 1\nmonitor 0 1 : none\nend\n",
        0,
    ),
    (
        Front::Base,
        "note 1 1 7\nmember 1 9 9 9\nnote 9 1 7\nnote 2 2 1\nnote 2 3 15\nend\n",
        "note 1 1 7 : refused known\nmember 1 9 9 9 : refused already-member\n\
            note 9 1 7 : refused unknown-member\nnote 2 2 1 : refused bad-mask\n\
            note 2 3 15 : refused bad-mask\nend\n",
        0,
    ),
];

#[test]
fn the_newest_note_and_ties(rt: HostRuntime) -> Result<(), Fail> {
    play_rows(&rt, rt.alloc(), &NEWEST)
}

const NEWEST: [Row; 3] = [
    (
        Front::Head,
        "member 1 10 10 10\nmember 2 20 20 20\nmember 3 30 30 30\nnote 1 1 7\nnote 3 1 7\n\
            note 2 1 5\nnote 2 1 6\nview\nend\n",
        "member 1 10 10 10 : joined\nmember 2 20 20 20 : joined\nmember 3 30 30 30 : joined\n\
            note 1 1 7 : accepted\nat 0 entered 1\nnote 3 1 7 : accepted\nat 0 entered 3\n\
            note 2 1 5 : accepted\nat 0 entered 2\nnote 2 1 6 : accepted\nview : 1 2 3\nend\n",
        0,
    ),
    (
        Front::Head,
        "member 2 20 20 20\nnote 2 1 6\nnote 2 1 5\nview\nend\n",
        "member 2 20 20 20 : joined\nnote 2 1 6 : accepted\nat 0 entered 2\n\
            note 2 1 5 : refused older 1 6\nview : 2\nend\n",
        0,
    ),
    (
        Front::Head,
        "member 5 50 50 50\nmember 6 50 50 50\nmember 7 60 60 60\nnote 5 1 7\nnote 6 1 7\n\
            note 7 1 7\nmonitor 0 6\nmonitor 0 5\nmonitor 0 7\nnote 5 18446744073709551615 7\n\
            note 5 18446744073709551615 7\nnote 5 1 7\nend\n",
        "member 5 50 50 50 : joined\nmember 6 50 50 50 : joined\nmember 7 60 60 60 : joined\n\
            note 5 1 7 : accepted\nat 0 entered 5\nnote 6 1 7 : accepted\nat 0 entered 6\n\
            note 7 1 7 : accepted\nat 0 entered 7\nmonitor 0 6 : 5\nmonitor 0 5 : 7\n\
            monitor 0 7 : 6\nnote 5 18446744073709551615 7 : accepted\n\
            note 5 18446744073709551615 7 : refused known\n\
            note 5 1 7 : refused older 18446744073709551615 7\nend\n",
        0,
    ),
];

#[test]
fn accusations_and_time(rt: HostRuntime) -> Result<(), Fail> {
    play_rows(&rt, rt.alloc(), &ACCUSED)
}

const ACCUSED: [Row; 10] = [
    // an accusation stands for three ticks, and no fewer
    (
        Front::Base,
        "accuse 1 2 1 0\ntick 2\nview\ntick 1\nview\naccuse 1 2 1 0\nend\n",
        "accuse 1 2 1 0 : accepted\ntick 2\nview : 1 2 3\ntick 1\nat 3 expired 1 2 1 0\n\
            at 3 removed 2\nview : 1 3\naccuse 1 2 1 0 : refused not-in-view\nend\n",
        0,
    ),
    // a newer note rebuts it
    (
        Front::Base,
        "accuse 1 2 1 0\ntick 2\nnote 2 2 7\ntick 5\naccuse 1 2 1 0\nview\nend\n",
        "accuse 1 2 1 0 : accepted\ntick 2\nnote 2 2 7 : accepted\nat 2 fell 1 2 1 0\ntick 5\n\
            accuse 1 2 1 0 : refused other-epoch 2\nview : 1 2 3\nend\n",
        0,
    ),
    // a newcomer takes the place of the monitor
    (
        Front::Base,
        "accuse 1 2 1 0\ntick 1\nmember 4 15 15 15\nnote 4 1 7\naccuse 1 4 1 0\ntick 3\n\
            accuse 1 2 1 0\ntick 2\nview\ntick 1\nend\n",
        "accuse 1 2 1 0 : accepted\ntick 1\nmember 4 15 15 15 : joined\nnote 4 1 7 : accepted\n\
            at 1 entered 4\nat 1 fell 1 2 1 0\naccuse 1 4 1 0 : accepted\ntick 3\n\
            at 4 expired 1 4 1 0\nat 4 removed 4\naccuse 1 2 1 0 : accepted\ntick 2\n\
            view : 1 2 3\ntick 1\nat 7 expired 1 2 1 0\nat 7 removed 2\nend\n",
        0,
    ),
    // each fault before all that come after it
    (
        Front::Base,
        "note 2 2 6\naccuse 1 2 2 0\nnote 2 2 1\nnote 2 3 15\naccuse 3 2 2 1\naccuse 2 2 2 1\n\
            accuse 1 2 2 3\naccuse 9 9 9 255\nend\n",
        "note 2 2 6 : accepted\naccuse 1 2 2 0 : refused ring-disabled\n\
            note 2 2 1 : refused bad-mask\nnote 2 3 15 : refused bad-mask\n\
            accuse 3 2 2 1 : refused not-monitor 1\naccuse 2 2 2 1 : refused self-accusation\n\
            accuse 1 2 2 3 : refused bad-ring\naccuse 9 9 9 255 : refused unknown-member\nend\n",
        0,
    ),
    // two that are due expire together
    (
        Front::Base,
        "accuse 1 2 1 0\naccuse 3 1 1 0\ntick 3\nview\nend\n",
        "accuse 1 2 1 0 : accepted\naccuse 3 1 1 0 : accepted\ntick 3\nat 3 expired 3 1 1 0\n\
            at 3 expired 1 2 1 0\nat 3 removed 1\nat 3 removed 2\nview : 3\nend\n",
        0,
    ),
    // a removed accuser accuses nobody
    (
        Front::Base,
        "accuse 3 1 1 0\ntick 1\naccuse 1 2 1 0\ntick 2\nmonitor 0 2\nend\n",
        "accuse 3 1 1 0 : accepted\ntick 1\naccuse 1 2 1 0 : accepted\ntick 2\n\
            at 3 expired 3 1 1 0\nat 3 removed 1\nat 3 fell 1 2 1 0\nmonitor 0 2 : 3\nend\n",
        0,
    ),
    // the greater mask of one epoch disables the ring
    (
        Front::Head,
        "member 1 10 10 10\nmember 2 20 20 20\nmember 3 30 30 30\nnote 1 1 7\nnote 3 1 7\n\
            note 2 1 5\nnote 2 1 6\naccuse 1 2 1 0\nview\nend\n",
        "member 1 10 10 10 : joined\nmember 2 20 20 20 : joined\nmember 3 30 30 30 : joined\n\
            note 1 1 7 : accepted\nat 0 entered 1\nnote 3 1 7 : accepted\nat 0 entered 3\n\
            note 2 1 5 : accepted\nat 0 entered 2\nnote 2 1 6 : accepted\n\
            accuse 1 2 1 0 : refused ring-disabled\nview : 1 2 3\nend\n",
        0,
    ),
    // what comes again is refused
    (
        Front::Base,
        "note 1 1 7\nnote 1 1 7\naccuse 1 2 1 0\naccuse 1 2 1 0\naccuse 9 2 1 0\n\
            member 4 40 40 40\naccuse 3 4 1 0\nend\n",
        "note 1 1 7 : refused known\nnote 1 1 7 : refused known\naccuse 1 2 1 0 : accepted\n\
            accuse 1 2 1 0 : refused standing\naccuse 9 2 1 0 : refused unknown-member\n\
            member 4 40 40 40 : joined\naccuse 3 4 1 0 : refused no-note\nend\n",
        0,
    ),
    // a new life keeps the members alone
    (
        Front::Base,
        "accuse 1 2 1 0\ntick 1\nnote 2 2 7\nlife\nnote 1 1 7\nnote 2 1 7\nnote 3 1 7\n\
            accuse 1 2 1 0\ntick 3\nend\n",
        "accuse 1 2 1 0 : accepted\ntick 1\nnote 2 2 7 : accepted\nat 1 fell 1 2 1 0\nlife : 2\n\
            note 1 1 7 : accepted\nat 0 entered 1\nnote 2 1 7 : accepted\nat 0 entered 2\n\
            note 3 1 7 : accepted\nat 0 entered 3\naccuse 1 2 1 0 : accepted\ntick 3\n\
            at 3 expired 1 2 1 0\nat 3 removed 2\nend\n",
        0,
    ),
    // nobody monitors one who is alone
    (
        Front::Head,
        "member 1 10 10 10\nmember 2 20 20 20\nnote 1 1 7\naccuse 2 1 1 0\nend\n",
        "member 1 10 10 10 : joined\nmember 2 20 20 20 : joined\nnote 1 1 7 : accepted\n\
            at 0 entered 1\naccuse 2 1 1 0 : refused not-monitor none\nend\n",
        0,
    ),
];

/// Words that name no command, of which some are near to one.
const NO_COMMAND: [&str; 22] = [
    "",
    "replay x",
    "verify x",
    "node s",
    "node s 0",
    "node s 1000001",
    "node s 01",
    "node s 1 2",
    "node s 1 left",
    "node s 0 leave",
    "node s leave 1",
    "node s 1 leave leave",
    "soak",
    "soak x 3 1",
    "soak 7 2 1",
    "soak 7 33 1",
    "soak 7 3 0",
    "soak 7 3 1001",
    "soak 7 3",
    "soak 18446744073709551616 3 1",
    "soak 7 3 1 1",
    "--help",
];

#[test]
fn words_that_name_no_command(rt: HostRuntime) -> Result<(), Fail> {
    for words in NO_COMMAND {
        let got = run_failing(rt.alloc(), words, SHORT, 1, &[], &[])?;
        is_run(&rt, &got, b"", 2, 0);
    }
    Ok(())
}

/// Compares what was written and the number of a run whose call fails.
fn is_run(rt: &impl Abort, got: &Run, written: &[u8], number: u8, call: u64) {
    assert_eq!(rt; got.written.as_slice(), written, "at call {call}");
    assert_eq!(rt; got.number, number, "at call {call}");
}

/// The lines of the shortest text that a source gave whole before this call.
fn whole_lines(call: u64) -> &'static str {
    match call {
        0..19 => "",
        19..29 => "fireflies 1 direct\n",
        29..33 => HEAD,
        _ => SHORT,
    }
}

/// Plays the shortest text from a source that fails at this call.
fn fail_source(rt: &impl Abort, alloc: Global, call: u64) -> Result<(), Fail> {
    let wanted = format!(in alloc; "{}read fault\n", whole_lines(call))?;
    let got = run_failing(alloc, "replay", SHORT, 1, &[call], &[])?;
    is_run(rt, &got, wanted.as_bytes(), 5, call);
    Ok(())
}

#[test]
fn a_source_that_fails_at_each_call(rt: HostRuntime) -> Result<(), Fail> {
    for call in 0..34u64 {
        fail_source(&rt, rt.alloc(), call)?;
    }
    let past_the_end = run_failing(rt.alloc(), "replay", SHORT, 1, &[34], &[])?;
    is_run(&rt, &past_the_end, SHORT.as_bytes(), 0, 34);
    Ok(())
}

/// Plays the shortest text to a sink that fails at this call.
fn fail_sink(rt: &impl Abort, alloc: Global, call: u64) -> Result<(), Fail> {
    let wanted = SHORT
        .as_bytes()
        .iter()
        .take(call as usize)
        .copied()
        .collect::<Vec<u8>>(alloc)?;
    let got = run_failing(alloc, "replay", SHORT, 1, &[], &[call])?;
    is_run(rt, &got, wanted.as_slice(), 6, call);
    Ok(())
}

#[test]
fn a_sink_that_fails_at_each_call(rt: HostRuntime) -> Result<(), Fail> {
    for call in 0..33u64 {
        fail_sink(&rt, rt.alloc(), call)?;
    }
    let past_the_end = run_failing(rt.alloc(), "replay", SHORT, 1, &[], &[33])?;
    is_run(&rt, &past_the_end, SHORT.as_bytes(), 0, 33);
    Ok(())
}

/// The head, then a line so many times, then the rest.
fn repeated(alloc: Global, line: &str, times: u32, rest: &str) -> Result<String, Fail> {
    let mut text = String::from_str(alloc, HEAD)?;
    for _ in 0..times {
        text.push_str(line)?;
    }
    text.push_str(rest)?;
    Ok(text)
}

/// A line and its times, the rest behind it, what is written last, and the number of the answer.
type Limit = (&'static str, u32, &'static str, &'static str, u8);

const LIMITS: [Limit; 5] = [
    ("monitor 0 1\n", 99_997, "end\n", "unknown-member\nend\n", 0),
    (
        "monitor 0 1\n",
        99_998,
        "view\n",
        "unknown-member\nbad 100001 lines\n",
        3,
    ),
    (
        "tick 10000\n",
        100,
        "tick 1\n",
        "tick 10000\nbad 103 limit\n",
        3,
    ),
    ("v", 65_600, "\n", "group 1 3\nbad 3 word\n", 3),
    ("v", 65_601, "\n", "group 1 3\nbad 3 long\n", 3),
];

/// Plays a text that is as long as a text may be, or longer.
fn play_limit(rt: &impl Abort, alloc: Global, limit: &Limit) -> Result<(), Fail> {
    let (line, times, rest, last, number) = limit;
    let text = repeated(alloc, line, *times, rest)?;
    let got = run_failing(alloc, "replay", text.as_str(), 65_536, &[], &[])?;
    assert!(rt;
        got.written.ends_with(last.as_bytes()),
        "for {times} times {line}"
    );
    assert_eq!(rt; got.number, *number, "for {times} times {line}");
    Ok(())
}

#[test]
fn texts_at_the_limits(rt: HostRuntime) -> Result<(), Fail> {
    for limit in &LIMITS {
        play_limit(&rt, rt.alloc(), limit)?;
    }
    Ok(())
}
