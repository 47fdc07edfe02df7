//! Datagrams that a correct member wouldn't send, or that come late.

use crate::scene::{
    GROUP, OTHER, append, first_of_two, head, key_of, note, teach, tells, tells_and_sends,
};
use fixtures::Player;
use std::alloc::Global;
use std::process::Abort;
use std::test::Fail;

/// A summary of page 0 from 1, without an entry.
const OWN_SUMMARY: [u8; 9] = *b"\x46\x46\x01\x03\x00\x01\x00\x00\x00";

/// A summary of page 31 from 2, without an entry, and the same of 1 as an answer.
const LAST_PAGE: [u8; 9] = *b"\x46\x46\x01\x03\x00\x02\x1f\x00\x00";

const LAST_PAGE_OF_1: [u8; 9] = *b"\x46\x46\x01\x03\x00\x01\x1f\x01\x00";

/// A ping from 9.
const PING_FROM_9: [u8; 14] = *b"\x46\x46\x01\x01\x00\x09\x00\x00\x00\x00\x00\x00\x01\x02";

fn hears_itself_and_a_stranger(
    rt: &impl Abort,
    alloc: Global,
    node: &mut Player,
) -> Result<(), Fail> {
    tells(rt, alloc, node, &OWN_SUMMARY, "at 0 summary 1 0 0\n")?;
    tells(rt, alloc, node, &PING_FROM_9, "at 0 ping 9 258\n")
}

#[test]
fn a_summary_from_itself_and_a_ping_from_a_stranger_are_told_alone(
    rt: HostRuntime,
) -> Result<(), Fail> {
    let mut node = first_of_two(rt.alloc())?;
    let done = hears_itself_and_a_stranger(&rt, rt.alloc(), &mut node);
    node.end();
    done
}

#[test]
fn a_summary_of_the_last_page_is_answered(rt: HostRuntime) -> Result<(), Fail> {
    let mut node = first_of_two(rt.alloc())?;
    let lines = "at 0 summary 2 31 0\n";
    let done = tells_and_sends(
        &rt,
        rt.alloc(),
        &mut node,
        &LAST_PAGE,
        lines,
        &LAST_PAGE_OF_1,
    );
    node.end();
    done
}

/// A datagram of 2 with its note signed for another group, and with the same note signed for this one.
fn foreign_and_good(alloc: Global) -> Result<Vec<u8>, Fail> {
    let mut key = key_of(alloc, 2)?;
    let mut bytes = head(alloc, 2, 2)?;
    append(alloc, &mut key, &OTHER, note(2, 1, 7), &mut bytes)?;
    append(alloc, &mut key, &GROUP, note(2, 1, 7), &mut bytes)?;
    Ok(bytes)
}

/// What is reported of it.
const REFUSED_AND_ACCEPTED: &str = "at 0 took note 2 1 7 : refused bad-signature\n\
    at 0 took note 2 1 7 : accepted\nat 0 entered 2\n";

#[test]
fn records_behind_a_refused_one_are_judged(rt: HostRuntime) -> Result<(), Fail> {
    let bytes = foreign_and_good(rt.alloc())?;
    let mut node = first_of_two(rt.alloc())?;
    let done = tells(&rt, rt.alloc(), &mut node, &bytes, REFUSED_AND_ACCEPTED);
    node.end();
    done
}

/// A datagram of a good note and a record of kind 0, which begins behind the head of 8 bytes and the note's 8,701.
fn good_and_bad(alloc: Global) -> Result<Vec<u8>, Fail> {
    let mut bytes = head(alloc, 2, 2)?;
    let mut key = key_of(alloc, 2)?;
    append(alloc, &mut key, &GROUP, note(2, 1, 7), &mut bytes)?;
    bytes.push(0)?;
    Ok(bytes)
}

/// So many zeros.
fn zeros(alloc: Global, count: usize) -> Result<Vec<u8>, Fail> {
    Ok(vec![in alloc; 0; count]?)
}

fn finds_bad_form(rt: &impl Abort, alloc: Global, node: &mut Player) -> Result<(), Fail> {
    let bytes = good_and_bad(alloc)?;
    tells(rt, alloc, node, &bytes, "at 0 bad-form 8709\n")?;
    let long = zeros(alloc, 32_769)?;
    tells(rt, alloc, node, &long, "at 0 bad-form 32768\n")
}

#[test]
fn a_datagram_with_a_bad_record_is_none(rt: HostRuntime) -> Result<(), Fail> {
    let mut node = first_of_two(rt.alloc())?;
    let done = finds_bad_form(&rt, rt.alloc(), &mut node);
    node.end();
    done
}

/// A pong of 2 with the first nonce of a life whose seed has 32 bytes of 7, by another implementation of ChaCha.
const PONG: [u8; 14] = *b"\x46\x46\x01\x02\x00\x02\x78\x92\x00\xf4\x41\xf6\xaa\x57";

/// The node takes the note of 2 of this epoch, and makes a tick; the pong then comes, of which this is reported.
fn tick_and_pong(
    rt: &impl Abort,
    alloc: Global,
    node: &mut Player,
    epoch: u8,
    wanted: &str,
) -> Result<(), Fail> {
    teach(alloc, node, 2, epoch)?;
    node.tick(alloc)?;
    tells(rt, alloc, node, &PONG, wanted)
}

fn counts_and_forgets(rt: &impl Abort, alloc: Global, node: &mut Player) -> Result<(), Fail> {
    let counted = "at 1 pong 2 8688007680229812823 counted\n";
    tick_and_pong(rt, alloc, node, 1, counted)?;
    let stray = "at 2 pong 2 8688007680229812823 stray\n";
    tick_and_pong(rt, alloc, node, 2, stray)
}

/// A ping is forgotten at the tick that finds another epoch.
#[test]
fn a_pong_counts_while_its_ping_is_kept(rt: HostRuntime) -> Result<(), Fail> {
    let mut node = first_of_two(rt.alloc())?;
    let done = counts_and_forgets(&rt, rt.alloc(), &mut node);
    node.end();
    done
}
