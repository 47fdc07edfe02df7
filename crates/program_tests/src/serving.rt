//! A member that is run for two turns, over objects in memory.

use crate::members::{
    First, ONE_LEVEL, OfSecond, TWO_LEVELS, first_alone, first_of_kinds, first_of_two, own_disk,
};
use crate::runs::{Run, compare, run_on};
use fields::Bytes;
use ports::{LinkAnswer, MemoryClock, MemoryLink};
use std::alloc::Global;
use std::process::Abort;
use std::test::Fail;

/// What a member reports of its start.
const STARTED: &str = "at 0 spent 0 note 1 1 7\nat 0 entered 1\n";

/// The turns of a member that hears nothing.
const QUIET: &str = "turn 1 nothing ticks 0\nturn 2 nothing ticks 2\n";

/// The summary of member 1 that has its first note and none of 2.
const SUMMARY: &str =
    "464601030001000002000100000000000000010000000700000000000200000000000000000000000000000000";

/// A ping of 2 with nonce 258, and the pong of 1.
const PING: [u8; 14] = *b"\x46\x46\x01\x01\x00\x02\x00\x00\x00\x00\x00\x00\x01\x02";

const PINGED: &str = "got 4646010100020000000000000102";

const PONG: &str = "4646010200010000000000000102";

/// A link on which nothing comes, and nothing fails.
fn quiet_link(alloc: Global) -> MemoryLink {
    link_with(alloc, Vec::new(alloc))
}

/// A link on which these come, and nothing fails.
fn link_with(alloc: Global, answers: Vec<LinkAnswer>) -> MemoryLink {
    MemoryLink::new(alloc, answers, Vec::new(alloc), false)
}

/// Runs member 1 by these words, on a disk that fails at these calls. The clock reads 0, 50 and 250.
fn serve_by(
    alloc: Global,
    words: &[&str],
    first: &First,
    disk_fails: &[u64],
    link: &mut MemoryLink,
) -> Result<Run, Fail> {
    let mut clock = MemoryClock::new([0u64, 50, 250].to_vec(alloc)?);
    let mut disk = own_disk(alloc, &first.key, disk_fails)?;
    run_on(
        alloc,
        words,
        first.text.as_str(),
        60_000,
        &mut disk,
        link,
        &mut clock,
    )
}

/// Runs member 1 for two turns.
fn serve(
    alloc: Global,
    first: &First,
    disk_fails: &[u64],
    link: &mut MemoryLink,
) -> Result<Run, Fail> {
    serve_by(alloc, &["node", "n.st", "2"], first, disk_fails, link)
}

/// Runs member 1 so, and compares the number and what was written.
fn serves(
    rt: &impl Abort,
    alloc: Global,
    first: &First,
    disk_fails: &[u64],
    link: &mut MemoryLink,
    number: u8,
    written: &str,
) -> Result<(), Fail> {
    let got = serve(alloc, first, disk_fails, link)?;
    compare(rt, &got, number, written.as_bytes());
    Ok(())
}

/// Runs a member that hears nothing.
fn serves_alone(rt: &impl Abort, alloc: Global, first: &First) -> Result<(), Fail> {
    let wanted = format!(in alloc; "{STARTED}{QUIET}end\n")?;
    serves(
        rt,
        alloc,
        first,
        &[],
        &mut quiet_link(alloc),
        0,
        wanted.as_str(),
    )
}

#[test]
fn a_member_alone_writes_its_journal(rt: HostRuntime) -> Result<(), Fail> {
    for kinds in [ONE_LEVEL, TWO_LEVELS] {
        let first = first_of_kinds(rt.alloc(), kinds)?;
        serves_alone(&rt, rt.alloc(), &first)?;
    }
    Ok(())
}

/// Runs a member that hears nothing, and leaves behind its second turn.
fn leaves_alone(rt: &impl Abort, alloc: Global, first: &First) -> Result<(), Fail> {
    let wanted = format!(in alloc;
        "{STARTED}{QUIET}at 2 spent 1 note 1 2 0\nat 2 removed 1\nend\n"
    )?;
    let words = ["node", "n.st", "2", "leave"];
    let got = serve_by(alloc, &words, first, &[], &mut quiet_link(alloc))?;
    compare(rt, &got, 0, wanted.as_bytes());
    Ok(())
}

#[test]
fn a_member_alone_leaves_behind_its_turns(rt: HostRuntime) -> Result<(), Fail> {
    let first = first_alone(rt.alloc())?;
    leaves_alone(&rt, rt.alloc(), &first)
}

#[test]
fn a_port_that_cannot_be_bound(rt: HostRuntime) -> Result<(), Fail> {
    let alloc = rt.alloc();
    let first = first_alone(alloc)?;
    let mut link = MemoryLink::new(alloc, Vec::new(alloc), Vec::new(alloc), true);
    serves(&rt, alloc, &first, &[4], &mut link, 9, "link fault\n")
}

/// Runs member 1 of two, whose sends with these numbers fail: what it reports behind its turns is reported here.
fn lose(
    rt: &impl Abort,
    alloc: Global,
    first: &First,
    fails: &[u64],
    told: (&str, &str),
) -> Result<(), Fail> {
    let (one, other) = told;
    let wanted = format!(in alloc;
        "{STARTED}{QUIET}at 1 sent 0 2 {SUMMARY}\n{one}at 2 sent 1 2 {SUMMARY}\n{other}end\n"
    )?;
    let mut link = MemoryLink::new(alloc, Vec::new(alloc), fails.to_vec(alloc)?, false);
    serves(rt, alloc, first, &[], &mut link, 0, wanted.as_str())
}

/// Loses the first send, and then both.
fn lose_one_and_both(rt: &impl Abort, alloc: Global, first: &First) -> Result<(), Fail> {
    lose(rt, alloc, first, &[0], ("at 1 lost 0\n", ""))?;
    lose(
        rt,
        alloc,
        first,
        &[1, 0],
        ("at 1 lost 0\n", "at 2 lost 1\n"),
    )
}

#[test]
fn sends_that_fail_are_lost(rt: HostRuntime) -> Result<(), Fail> {
    let first = first_of_two(rt.alloc())?;
    lose_one_and_both(&rt, rt.alloc(), &first)
}

/// A link on which a receive fails, and then a ping of 2 comes.
fn failure_and_ping(alloc: Global) -> Result<MemoryLink, Fail> {
    let ping = Bytes::from_vec(PING.to_vec(alloc)?);
    let answers = vec![in alloc; LinkAnswer::Failed, LinkAnswer::Got(ping)]?;
    Ok(link_with(alloc, answers))
}

/// Runs member 1 with this link, and it answers the ping.
fn answers_ping(
    rt: &impl Abort,
    alloc: Global,
    first: &First,
    link: &mut MemoryLink,
) -> Result<(), Fail> {
    let wanted = format!(in alloc;
        "{STARTED}turn 1 failed ticks 0\nturn 2 {PINGED} ticks 2\nat 0 ping 2 258\nat 0 sent 0 2 {PONG}\n\
        at 1 sent 1 2 {SUMMARY}\nat 2 sent 2 2 {SUMMARY}\nend\n"
    )?;
    serves(rt, alloc, first, &[], link, 0, wanted.as_str())
}

#[test]
fn a_receive_that_fails_ends_nothing(rt: HostRuntime) -> Result<(), Fail> {
    let first = first_of_two(rt.alloc())?;
    let mut link = failure_and_ping(rt.alloc())?;
    answers_ping(&rt, rt.alloc(), &first, &mut link)
}

/// Runs member 1 on disks that fail at each of these calls: five open the store that is there, and four sign the first
/// note.
fn fail_at_each(rt: &impl Abort, alloc: Global, first: &First, calls: &[u64]) -> Result<(), Fail> {
    for call in calls {
        serves(
            rt,
            alloc,
            first,
            &[*call],
            &mut quiet_link(alloc),
            7,
            "store fault\n",
        )?;
    }
    Ok(())
}

#[test]
fn a_disk_that_fails_as_the_store_is_opened(rt: HostRuntime) -> Result<(), Fail> {
    let first = first_alone(rt.alloc())?;
    fail_at_each(&rt, rt.alloc(), &first, &[4, 5, 6, 7, 8])
}

#[test]
fn a_disk_that_fails_as_the_first_note_is_signed(rt: HostRuntime) -> Result<(), Fail> {
    let first = first_alone(rt.alloc())?;
    fail_at_each(&rt, rt.alloc(), &first, &[9, 10, 11, 12])
}

/// What member 1 reports last of the accusation.
const STOPPED: &[u8] =
    b" ticks 2\nat 0 took accuse 2 1 1 0 : accepted\nat 0 stopped\nstore fault\n";

/// Runs member 1, which hears of 2 and then that 2 accuses it, on a disk that fails at this call: four answer.
fn fail_in_answer(
    rt: &impl Abort,
    alloc: Global,
    first: &First,
    second: &OfSecond,
    call: u64,
) -> Result<(), Fail> {
    let mut link = link_with(alloc, second.answers(alloc)?);
    let got = serve(alloc, first, &[call], &mut link)?;
    assert_eq!(rt; got.number, 7);
    assert!(rt; got.written.as_slice().starts_with(STARTED.as_bytes()));
    assert!(rt; got.written.as_slice().ends_with(STOPPED));
    Ok(())
}

/// Each of those four fails.
fn fail_in_answers(
    rt: &impl Abort,
    alloc: Global,
    first: &First,
    second: &OfSecond,
) -> Result<(), Fail> {
    for call in 13..17u64 {
        fail_in_answer(rt, alloc, first, second, call)?;
    }
    Ok(())
}

#[test]
fn a_disk_that_fails_at_a_rebuttal_ends_the_life(rt: HostRuntime) -> Result<(), Fail> {
    let first = first_of_two(rt.alloc())?;
    let second = OfSecond::signed(rt.alloc())?;
    fail_in_answers(&rt, rt.alloc(), &first, &second)
}
