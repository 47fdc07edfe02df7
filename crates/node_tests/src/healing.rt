//! A node of a group whose nodes come together again: whom it tells that it was removed, and how it comes back.

use crate::scene::{
    GROUP, accusation, append, first_healing, head, key_of, member, note, own_key, single, teach,
    tells, tells_and_sends, tells_and_sends_at,
};
use fixtures::{Key, Player};
use std::alloc::Global;
use std::process::Abort;
use std::test::Fail;

/// A summary of page 0 from 2 that answers one: it has its own first note, and none of 1.
const LACKS_NOTE: [u8; 45] = *b"\x46\x46\x01\x03\x00\x02\x00\x01\x02\
    \x00\x01\x00\x00\x00\x00\x00\x00\x00\x00\x00\x00\x00\x00\x00\x00\x00\x00\
    \x00\x02\x00\x00\x00\x00\x00\x00\x00\x01\x00\x00\x00\x07\x00\x00\x00\x00";

/// So many ticks.
fn pass(alloc: Global, node: &mut Player, ticks: u8) -> Result<(), Fail> {
    for _ in 0..ticks {
        node.tick(alloc)?;
    }
    Ok(())
}

/// What 2 lacks by its summary, and last the accusation by which it was removed.
fn lacking(alloc: Global) -> Result<Vec<u8>, Fail> {
    let mut own = key_of(alloc, 1)?;
    let mut bytes = head(alloc, 1, 2)?;
    append(alloc, &mut own, &GROUP, note(1, 1, 7), &mut bytes)?;
    append(alloc, &mut own, &GROUP, accusation(1, 2, 1, 0), &mut bytes)?;
    Ok(bytes)
}

/// Nothing is heard of 2, until its summary comes behind its removal at the seventh tick.
fn removes_and_tells(rt: &impl Abort, alloc: Global, node: &mut Player) -> Result<(), Fail> {
    teach(alloc, node, 2, 1)?;
    pass(alloc, node, 7)?;
    assert!(rt; !node.sees(member(2)));
    let lines = "at 7 summary 2 0 1\n";
    tells_and_sends_at(rt, alloc, node, &LACKS_NOTE, 7, lines, &lacking(alloc)?)
}

#[test]
fn who_was_removed_is_told(rt: HostRuntime) -> Result<(), Fail> {
    let mut node = first_healing(rt.alloc(), 2, 0)?;
    let done = removes_and_tells(&rt, rt.alloc(), &mut node);
    node.end();
    done
}

/// An accusation of 1 on the first ring.
fn accuses(alloc: Global, key: &mut Key, accuser: u8, epoch: u8) -> Result<Vec<u8>, Fail> {
    single(alloc, accuser, key, accusation(accuser, 1, epoch, 0))
}

/// The note of 1 of this epoch, by its leaf of this index. All rings are enabled.
fn own_note(alloc: Global, index: u8, epoch: u8) -> Result<Vec<u8>, Fail> {
    single(alloc, 1, &mut own_key(alloc, index)?, note(1, epoch, 7))
}

/// What is reported where 3 accuses 1, whose monitor is 2, before the datagram with the note.
const BACK: &str = "at 0 took accuse 3 1 1 0 : refused not-monitor 2\nat 0 spent 1 note 1 2 7\n";

/// The same behind the removal of 1 from its own view. It accused 2 with another leaf.
const BACK_AGAIN: &str =
    "at 4 took accuse 3 1 2 0 : refused not-in-view\nat 4 spent 3 note 1 3 7\nat 4 entered 1\n";

/// One note is signed for others' sake. Then none is, also for an accusation that is accepted.
fn comes_back_once(rt: &impl Abort, alloc: Global, node: &mut Player) -> Result<(), Fail> {
    let mut key = key_of(alloc, 3)?;
    let bytes = accuses(alloc, &mut key, 3, 1)?;
    tells_and_sends(rt, alloc, node, &bytes, BACK, &own_note(alloc, 1, 2)?)?;
    let bytes = accuses(alloc, &mut key, 3, 2)?;
    let refused = "at 0 took accuse 3 1 2 0 : refused not-monitor 2\n";
    tells(rt, alloc, node, &bytes, refused)?;
    let bytes = accuses(alloc, &mut key_of(alloc, 2)?, 2, 2)?;
    tells(
        rt,
        alloc,
        node,
        &bytes,
        "at 0 took accuse 2 1 2 0 : accepted\n",
    )
}

/// At the fourth tick 1 leaves its own view, and the next timeout begins.
fn comes_back_again(rt: &impl Abort, alloc: Global, node: &mut Player) -> Result<(), Fail> {
    pass(alloc, node, 4)?;
    let bytes = accuses(alloc, &mut key_of(alloc, 3)?, 3, 2)?;
    tells_and_sends_at(
        rt,
        alloc,
        node,
        &bytes,
        4,
        BACK_AGAIN,
        &own_note(alloc, 3, 3)?,
    )
}

fn comes_back(rt: &impl Abort, alloc: Global, node: &mut Player) -> Result<(), Fail> {
    teach(alloc, node, 2, 1)?;
    comes_back_once(rt, alloc, node)?;
    comes_back_again(rt, alloc, node)
}

#[test]
fn who_is_told_comes_back_as_often_as_it_may(rt: HostRuntime) -> Result<(), Fail> {
    let mut node = first_healing(rt.alloc(), 3, 1)?;
    let done = comes_back(&rt, rt.alloc(), &mut node);
    node.end();
    done
}
