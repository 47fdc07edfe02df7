//! A node of a world of two: pings, notes and accusations.

ghost use Rattle.records.specs.Spelling.{HasPort};

use crate::scene::{
    GROUP, accusation, append, first_of_two, head, key_of, note, own_key, single, tells,
    tells_and_sends, told,
};
use fixtures::{Key, Player};
use node_core::NodeFault;
use records::Body;
use std::alloc::Global;
use std::process::Abort;
use std::test::Fail;

/// Ping from 2 with nonce 258, and the pong of 1.
const PING: [u8; 14] = *b"\x46\x46\x01\x01\x00\x02\x00\x00\x00\x00\x00\x00\x01\x02";

const PONG: [u8; 14] = *b"\x46\x46\x01\x02\x00\x01\x00\x00\x00\x00\x00\x00\x01\x02";

/// The head of a records datagram of 1 with one record.
const HEAD: [u8; 8] = *b"\x46\x46\x01\x04\x00\x01\x00\x01";

/// The notes (1, 2, 6), (1, 3, 5) and (1, 2, 3), each with the length of a signature.
const NOTE_2: [u8; 17] = *b"\x02\x00\x01\x00\x00\x00\x00\x00\x00\x00\x02\x00\x00\x00\x06\x21\xec";

const NOTE_3: [u8; 17] = *b"\x02\x00\x01\x00\x00\x00\x00\x00\x00\x00\x03\x00\x00\x00\x05\x21\xec";

const NOTE_ON_RING_2: [u8; 17] =
    *b"\x02\x00\x01\x00\x00\x00\x00\x00\x00\x00\x02\x00\x00\x00\x03\x21\xec";

fn hears_pings(rt: &impl Abort, alloc: Global, node: &mut Player) -> Result<(), Fail> {
    told(rt, alloc, node, "at 0 spent 0 note 1 1 7\nat 0 entered 1\n")?;
    tells_and_sends(rt, alloc, node, &PING, "at 0 ping 2 258\n", &PONG)?;
    tells(rt, alloc, node, b"FF", "at 0 bad-form 2\n")
}

#[test]
fn a_ping_is_answered_and_what_is_no_datagram_is_told(rt: HostRuntime) -> Result<(), Fail> {
    let mut node = first_of_two(rt.alloc())?;
    let done = hears_pings(&rt, rt.alloc(), &mut node);
    node.end();
    done
}

/// The first note of 2.
fn first_note(alloc: Global, key: &mut Key) -> Result<Vec<u8>, Fail> {
    single(alloc, 2, key, note(2, 1, 7))
}

fn takes_once(rt: &impl Abort, alloc: Global, node: &mut Player) -> Result<(), Fail> {
    let bytes = first_note(alloc, &mut key_of(alloc, 2)?)?;
    let accepted = "at 0 took note 2 1 7 : accepted\nat 0 entered 2\n";
    tells(rt, alloc, node, &bytes, accepted)?;
    for _ in 0..4 {
        let refused = "at 0 took note 2 1 7 : refused known\n";
        tells(rt, alloc, node, &bytes, refused)?;
    }
    Ok(())
}

#[test]
fn a_note_is_taken_once(rt: HostRuntime) -> Result<(), Fail> {
    let mut node = first_of_two(rt.alloc())?;
    let done = takes_once(&rt, rt.alloc(), &mut node);
    node.end();
    done
}

/// The node takes the first note of 2.
fn learns_of_2(alloc: Global, node: &mut Player, key: &mut Key) -> Result<(), Fail> {
    Ok(node.deliver(alloc, &first_note(alloc, key)?)?)
}

/// Appends the note that stands in these bytes, and the signature of the key's next leaf.
fn push_signed(
    alloc: Global,
    key: &mut Key,
    note_bytes: &[u8],
    body: Body,
    bytes: &mut Vec<u8>,
) -> Result<(), Fail>
    requires { HasPort body }
{
    let record = key.sign(alloc, &GROUP, body)?;
    bytes.extend_from_slice(note_bytes)?;
    Ok(bytes.extend_from_slice(record.rec().signature.as_slice())?)
}

/// A records datagram of 1 with the note that stands in these bytes, signed by its leaf of this index.
fn answer(alloc: Global, index: u8, note_bytes: &[u8], body: Body) -> Result<Vec<u8>, Fail>
    requires { HasPort body }
{
    let mut bytes = Vec::from_slice(alloc, &HEAD)?;
    push_signed(
        alloc,
        &mut own_key(alloc, index)?,
        note_bytes,
        body,
        &mut bytes,
    )?;
    Ok(bytes)
}

/// The datagram that answers the first accusation.
fn first_answer(alloc: Global) -> Result<Vec<u8>, Fail> {
    answer(alloc, 1, &NOTE_2, note(1, 2, 6))
}

/// The datagram that answers the second.
fn second_answer(alloc: Global) -> Result<Vec<u8>, Fail> {
    answer(alloc, 2, &NOTE_3, note(1, 3, 5))
}

/// An accusation of 1 by 2.
fn accuses(alloc: Global, key: &mut Key, epoch: u8, ring: u8) -> Result<Vec<u8>, Fail> {
    single(alloc, 2, key, accusation(2, 1, epoch, ring))
}

/// What is reported of the first accusation, of the second, and of a first one on the last ring, before the datagram with the
/// answer.
const FIRST: &str =
    "at 0 took accuse 2 1 1 0 : accepted\nat 0 spent 1 note 1 2 6\nat 0 fell 2 1 1 0\n";

const SECOND: &str =
    "at 0 took accuse 2 1 2 1 : accepted\nat 0 spent 2 note 1 3 5\nat 0 fell 2 1 2 1\n";

const LAST: &str =
    "at 0 took accuse 2 1 1 2 : accepted\nat 0 spent 1 note 1 2 3\nat 0 fell 2 1 1 2\n";

fn answers_twice(
    rt: &impl Abort,
    alloc: Global,
    node: &mut Player,
    key: &mut Key,
) -> Result<(), Fail> {
    learns_of_2(alloc, node, key)?;
    let bytes = accuses(alloc, key, 1, 0)?;
    tells_and_sends(rt, alloc, node, &bytes, FIRST, &first_answer(alloc)?)?;
    let bytes = accuses(alloc, key, 2, 1)?;
    tells_and_sends(rt, alloc, node, &bytes, SECOND, &second_answer(alloc)?)?;
    let bytes = accuses(alloc, key, 3, 1)?;
    let refused = "at 0 took accuse 2 1 3 1 : refused ring-disabled\n";
    tells(rt, alloc, node, &bytes, refused)
}

#[test]
fn accusations_are_answered(rt: HostRuntime) -> Result<(), Fail> {
    let mut key = key_of(rt.alloc(), 2)?;
    let mut node = first_of_two(rt.alloc())?;
    let done = answers_twice(&rt, rt.alloc(), &mut node, &mut key);
    node.end();
    done
}

fn answers_on_the_last_ring(
    rt: &impl Abort,
    alloc: Global,
    node: &mut Player,
    key: &mut Key,
) -> Result<(), Fail> {
    learns_of_2(alloc, node, key)?;
    let bytes = accuses(alloc, key, 1, 2)?;
    let wanted = answer(alloc, 1, &NOTE_ON_RING_2, note(1, 2, 3))?;
    tells_and_sends(rt, alloc, node, &bytes, LAST, &wanted)
}

#[test]
fn an_accusation_on_the_last_ring_is_answered(rt: HostRuntime) -> Result<(), Fail> {
    let mut key = key_of(rt.alloc(), 2)?;
    let mut node = first_of_two(rt.alloc())?;
    let done = answers_on_the_last_ring(&rt, rt.alloc(), &mut node, &mut key);
    node.end();
    done
}

/// Both accusations in one datagram. The second is of the epoch of the answer to the first.
fn both(alloc: Global, key: &mut Key) -> Result<Vec<u8>, Fail> {
    let mut bytes = head(alloc, 2, 2)?;
    append(alloc, key, &GROUP, accusation(2, 1, 1, 0), &mut bytes)?;
    append(alloc, key, &GROUP, accusation(2, 1, 2, 1), &mut bytes)?;
    Ok(bytes)
}

/// What is reported of both in one datagram.
fn told_of_both(alloc: Global) -> Result<String, Fail> {
    let first = hex::encode(alloc, first_answer(alloc)?.as_slice())?;
    let second = hex::encode(alloc, second_answer(alloc)?.as_slice())?;
    Ok(format!(in alloc; "{FIRST}at 0 sent 0 2 {first}\n{SECOND}at 0 sent 1 2 {second}\n")?)
}

fn answers_both(
    rt: &impl Abort,
    alloc: Global,
    node: &mut Player,
    key: &mut Key,
) -> Result<(), Fail> {
    learns_of_2(alloc, node, key)?;
    node.deliver(alloc, &both(alloc, key)?)?;
    told(rt, alloc, node, told_of_both(alloc)?.as_str())
}

#[test]
fn an_accusation_is_answered_before_the_next_record(rt: HostRuntime) -> Result<(), Fail> {
    let mut key = key_of(rt.alloc(), 2)?;
    let mut node = first_of_two(rt.alloc())?;
    let done = answers_both(&rt, rt.alloc(), &mut node, &mut key);
    node.end();
    done
}

/// A node that is over answers so, and changes nothing.
fn is_over(rt: &impl Abort, alloc: Global, node: &mut Player) -> Result<(), Fail> {
    let length = node.image().len();
    assert_eq!(rt; node.deliver(alloc, &PING), Err(NodeFault::Ended));
    told(rt, alloc, node, "")?;
    assert_eq!(rt; node.tick(alloc), Err(NodeFault::Ended));
    told(rt, alloc, node, "")?;
    assert_eq!(rt; node.sent().len(), 0);
    assert_eq!(rt; node.now(), 0);
    assert_eq!(rt; node.image().len(), length);
    Ok(())
}

/// What is reported where the disk fails at the first answer.
const STOPPED: &str = "at 0 took accuse 2 1 1 0 : accepted\nat 0 stopped\n";

fn fails_at_an_answer(
    rt: &impl Abort,
    alloc: Global,
    node: &mut Player,
    key: &mut Key,
) -> Result<(), Fail> {
    learns_of_2(alloc, node, key)?;
    let bytes = both(alloc, key)?;
    node.arm(0, 0);
    assert_eq!(rt; node.deliver(alloc, &bytes), Err(NodeFault::StoreFault));
    assert_eq!(rt; node.sent().len(), 0);
    told(rt, alloc, node, STOPPED)?;
    is_over(rt, alloc, node)
}

#[test]
fn a_node_is_over_where_its_disk_fails_at_an_answer(rt: HostRuntime) -> Result<(), Fail> {
    let mut key = key_of(rt.alloc(), 2)?;
    let mut node = first_of_two(rt.alloc())?;
    let done = fails_at_an_answer(&rt, rt.alloc(), &mut node, &mut key);
    node.end();
    done
}
