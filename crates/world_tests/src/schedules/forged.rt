//! A record that nobody has signed in the schedule.

use super::{HEAD, PAIR, STARTED, compare};
use crate::player::{Ended, play};
use ff_ids::{Epoch, Group, Mask, MemberId, NoteBody};
use lms_ots::OtsKind;
use lms_tree::TreeKind;
use records::Body;
use sign_keys::Kinds;
use std::alloc::Global;
use std::process::Abort;
use std::test::Fail;
use world_host::{SigningKey, key_of};

const GROUP: Group = Group {
    tag: [0; 16],
    t: 1,
    timeout: 4,
    period: 1,
    misses: 2,
};

const KINDS: Kinds = Kinds {
    ots: OtsKind::W2,
    tree: TreeKind::H5,
    bottom: None,
};

/// A datagram from member 2 with one record, up to its signature: the note of member 1 with epoch 9 and mask 7.
const FRONT: [u8; 25] = [
    0x46, 0x46, 1, 4, 0, 2, 0, 1, 2, 0, 1, 0, 0, 0, 0, 0, 0, 0, 9, 0, 0, 0, 7, 0x11, 0x6c,
];

/// That note, which node 1 doesn't sign in the schedule.
fn forged_note() -> NoteBody {
    NoteBody {
        member: MemberId::new(1),
        epoch: Epoch::new(9),
        mask: Mask(7),
    }
}

/// The datagram, with a signature by the sixth leaf of the key of this number.
fn datagram_signed_by(alloc: Global, number: u16) -> Result<Vec<u8>, Fail> {
    let mut key = SigningKey::of(key_of(alloc, &GROUP, KINDS, number)?);
    for _index in 0..5 {
        key.sign(alloc, &GROUP, Body::Note(forged_note()))?;
    }
    let Some(checked) = key.sign(alloc, &GROUP, Body::Note(forged_note()))? else {
        return Err(Fail::from("no leaf"));
    };
    let mut bytes = FRONT.to_vec(alloc)?;
    bytes.extend_from_slice(checked.rec().signature.as_slice())?;
    Ok(bytes)
}

/// Handing the note over is forged for the owner of the key of this number, and the node takes nothing.
fn is_forged(
    rt: &impl Abort,
    alloc: Global,
    number: u16,
    owner: Option<MemberId>,
) -> Result<(), Fail> {
    let bytes = datagram_signed_by(alloc, number)?;
    let hex = hex::encode(alloc, bytes.as_slice())?;
    let text = format!(in alloc; "{HEAD}{PAIR}start 1\nraw 1 {hex}\nend\n")?;
    let wanted = format!(in alloc; "{HEAD}{PAIR}{STARTED}")?;
    let played = play(alloc, text.as_bytes())?;
    compare(rt, &played.trace, wanted.as_str());
    assert_eq!(rt;
        played.ended,
        Ended::Forged(8, owner, Body::Note(forged_note()))
    );
    Ok(())
}

#[test]
fn a_note_that_a_node_never_signed_is_forged(rt: HostRuntime) -> Result<(), Fail> {
    is_forged(&rt, rt.alloc(), 1, Some(MemberId::new(1)))?;
    is_forged(&rt, rt.alloc(), 65_535, None)
}
