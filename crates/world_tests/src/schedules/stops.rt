//! Stops at each call of a disk, and keys that are used up.

use super::{PAIR, STARTED, plays};
use std::alloc::Global;
use std::process::Abort;
use std::test::Fail;

/// A stop in the answer to an accusation: the next life begins with this index and this note.
fn stops_answering(
    rt: &impl Abort,
    alloc: Global,
    calls: u64,
    outcome: u16,
    first: &str,
) -> Result<(), Fail> {
    plays(
        rt,
        alloc,
        format!(in alloc;
            "{PAIR}start 1\nsign-note 2 2 1 7 a\ngive a 1\nsign-accusation 2 2 1 1 0 b\n\
arm 1 {calls} {outcome}\ngive b 1\nstart 1\n"
        )?
        .as_str(),
        format!(in alloc;
            "{PAIR}{STARTED}sign-note 2 2 1 7 a : signed 0\n\
give a 1\n\
@1 at 0 took note 2 1 7 : accepted\n\
@1 at 0 entered 2\n\
sign-accusation 2 2 1 1 0 b : signed 1\n\
arm 1 {calls} {outcome}\n\
give b 1\n\
@1 at 0 took accuse 2 1 1 0 : accepted\n\
@1 at 0 stopped\n\
start 1 : life 2\n\
@1 at 0 spent {first}\n\
@1 at 0 entered 1\n"
        )?
        .as_str(),
    )
}

#[test]
fn a_stop_in_an_answer_leaves_the_store_of_before_or_after(rt: HostRuntime) -> Result<(), Fail> {
    let alloc = rt.alloc();
    for calls in 0..4u64 {
        for outcome in [0u16, 1, 2, 183] {
            let first = if calls >= 2 && (outcome == 1 || outcome == 183) {
                "2 note 1 3 6"
            } else {
                "1 note 1 2 7"
            };
            stops_answering(&rt, alloc, calls, outcome, first)?;
        }
    }
    Ok(())
}

/// A stop in a start: the next one begins with this index and this note.
fn stops_starting(
    rt: &impl Abort,
    alloc: Global,
    calls: u64,
    outcome: u16,
    first: &str,
) -> Result<(), Fail> {
    plays(
        rt,
        alloc,
        format!(in alloc; "{PAIR}arm 1 {calls} {outcome}\nstart 1\nstart 1\n")?.as_str(),
        format!(in alloc;
            "{PAIR}arm 1 {calls} {outcome}\nstart 1 : stopped\nstart 1 : life 1\n\
@1 at 0 spent {first}\n\
@1 at 0 entered 1\n"
        )?
        .as_str(),
    )
}

#[test]
fn a_stop_in_a_start_leaves_the_store_of_before_or_after(rt: HostRuntime) -> Result<(), Fail> {
    let alloc = rt.alloc();
    for calls in 0..9u64 {
        for outcome in [0u16, 1, 2, 200] {
            let first = if calls >= 7 && (outcome == 1 || outcome == 200) {
                "1 note 1 2 7"
            } else {
                "0 note 1 1 7"
            };
            stops_starting(&rt, alloc, calls, outcome, first)?;
        }
    }
    Ok(())
}

const TWO: &str =
    "node 1\nnode 2\nbegin\nstart 1\nstart 2\ntick 1 1\nflow 100\nstop 2 0\ntick 1 2\n";

/// A stop in an accusation: the next life begins with this index.
fn stops_accusing(
    rt: &impl Abort,
    alloc: Global,
    calls: u64,
    outcome: u16,
    first: u32,
) -> Result<(), Fail> {
    let text = format!(in alloc;
        "{}{TWO}arm 1 {calls} {outcome}\ntick 1 1\nstart 1\nend\n",
        super::HEAD
    )?;
    let played = crate::player::play(alloc, text.as_bytes())?;
    let tail = format!(in alloc;
        "tick 1 1\n@1 at 4 silent 2\n@1 at 4 stopped\nstart 1 : life 2\n\
@1 at 0 spent {first} note 1 2 7\n@1 at 0 entered 1\nend\n"
    )?;
    assert!(rt; played.trace.ends_with(tail.as_bytes()));
    Ok(())
}

#[test]
fn a_stop_in_an_accusation_leaves_the_store_of_before_or_after(
    rt: HostRuntime,
) -> Result<(), Fail> {
    let alloc = rt.alloc();
    for calls in 0..4u64 {
        for outcome in [0u16, 1, 2, 183] {
            let first = if calls >= 2 && (outcome == 1 || outcome == 183) {
                2
            } else {
                1
            };
            stops_accusing(&rt, alloc, calls, outcome, first)?;
        }
    }
    Ok(())
}

/// The lines of as many lives of the node as its key has indexes, and what is written for them.
pub fn all_lives(alloc: Global) -> Result<(String, String), Fail> {
    let mut text = format!(in alloc; "{PAIR}start 1\n")?;
    let mut wanted = format!(in alloc; "{PAIR}{STARTED}")?;
    for life in 2..33u32 {
        text.push_str("stop 1 0\nstart 1\n")?;
        let index = life - 1;
        wanted.push_str(format!(in alloc;
            "stop 1 0\nstart 1 : life {life}\n\
@1 at 0 spent {index} note 1 {life} 7\n@1 at 0 entered 1\n"
        )?
        .as_str())?;
    }
    Ok((text, wanted))
}

#[test]
fn a_key_is_used_up_by_lives(rt: HostRuntime) -> Result<(), Fail> {
    let alloc = rt.alloc();
    let (mut text, mut wanted) = all_lives(alloc)?;
    text.push_str(
        "sign-note 2 2 1 7 a\ngive a 1\nsign-accusation 2 2 1 32 0 b\ngive b 1\nstop 1 0\nstart 1\n",
    )?;
    wanted.push_str(
        "sign-note 2 2 1 7 a : signed 0\n\
give a 1\n\
@1 at 0 took note 2 1 7 : accepted\n\
@1 at 0 entered 2\n\
sign-accusation 2 2 1 32 0 b : signed 1\n\
give b 1\n\
@1 at 0 took accuse 2 1 32 0 : accepted\n\
@1 at 0 exhausted 32\n\
stop 1 0\n\
start 1 : refused exhausted 32\n",
    )?;
    text.push_str("arm 1 37 0\nstart 1\nstart 1\nstart 1\n")?;
    wanted.push_str(
        "arm 1 37 0\n\
start 1 : refused exhausted 32\n\
start 1 : stopped\n\
start 1 : refused exhausted 32\n",
    )?;
    plays(&rt, alloc, text.as_str(), wanted.as_str())
}
