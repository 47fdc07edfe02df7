//! A key at work.

use ff_ids::{AccBody, Epoch, Group, Mask, MemberId, RingNo};
use fields::Reader;
use lms_ots::OtsKind;
use lms_tree::TreeKind;
use records::{Checked, Record, signed_bytes};
use sign_keys::Kinds;
use signer::key_lives::{Act, Holder, play};
use std::alloc::Global;
use std::test::Fail;

const GROUP: Group = Group {
    tag: [0; 16],
    t: 1,
    timeout: 3,
    period: 1,
    misses: 2,
};

const OTHER_GROUP: Group = Group {
    tag: [4; 16],
    t: 2,
    ..GROUP
};

const TAG: [u8; 32] = [5; 32];

const OTHER_TAG: [u8; 32] = [6; 32];

const OPEN: Act = Act::Open(GROUP, TAG);

const OPEN_OTHER: Act = Act::Open(OTHER_GROUP, OTHER_TAG);

const MOVE: Act = Act::Move(TAG, OTHER_TAG, Mask(31));

const HOLDER: Holder = Holder {
    kinds: Kinds {
        ots: OtsKind::W2,
        tree: TreeKind::H5,
        bottom: None,
    },
    id: [1; 16],
    seed: [2; 32],
};

fn accusation() -> AccBody {
    AccBody {
        accuser: MemberId::new(1),
        accused: MemberId::new(2),
        epoch: Epoch::new(1),
        ring: RingNo(0),
    }
}

fn note() -> Act {
    Act::SignNote(MemberId::new(1), Mask(7))
}

fn accuse() -> Act {
    Act::SignAccusation(accusation())
}

/// A note that no signer is there for, a note, an accusation, a note whose gate is written and not synced, a note
/// that no signer is there for, and an accusation.
fn stopped_within_a_signature() -> [Act; 10] {
    [
        note(),
        OPEN,
        note(),
        accuse(),
        Act::Arm(2, 1),
        note(),
        Act::Crash(0),
        note(),
        OPEN,
        accuse(),
    ]
}

/// A note and an accusation, a move and a note that no signer is there for, an opening under the tag that was left, and
/// an accusation and a note in the other group.
fn moved_once() -> [Act; 10] {
    [
        OPEN,
        note(),
        accuse(),
        MOVE,
        note(),
        OPEN,
        accuse(),
        OPEN_OTHER,
        accuse(),
        note(),
    ]
}

/// A note, a move that stops in the write of its gate, where the outcome picks the file, an accusation in the group that
/// is left, another move, and an accusation in the other group.
fn stopped_within_a_move(outcome: u16) -> [Act; 10] {
    [
        OPEN,
        note(),
        Act::Arm(8, outcome),
        MOVE,
        Act::Crash(0),
        OPEN,
        accuse(),
        MOVE,
        OPEN_OTHER,
        accuse(),
    ]
}

fn index_of(record: &Checked) -> Result<u32, Fail> {
    Ok(
        Reader::new(record.rec().signature.as_slice())
            .u32()
            .or(Err("short"))?,
    )
}

fn is_signed_for(group: &Group, record: &Checked) -> bool {
    let Record { body, signature } = record.rec();
    let signed = signed_bytes(group, body);
    record
        .key()
        .verify(signed.as_slice(), signature.as_slice())
        .is_ok()
}

/// The index of each record that was handed out, and whether it is one of the other group, and not of the first.
fn handed_out(alloc: Global, acts: &[Act]) -> Result<Vec<(u32, bool)>, Fail> {
    let records = play(alloc, &HOLDER, &TAG, 700, 200, Vec::new(alloc), acts).or(Err("no memory"))?;
    let mut handed = Vec::new(alloc);
    for record in &records {
        let is_other = is_signed_for(&OTHER_GROUP, record);
        if is_other == is_signed_for(&GROUP, record) {
            return Err("of both groups, or of none".into());
        }
        handed
            .push((index_of(record)?, is_other))
            .or(Err("no memory"))?;
    }
    Ok(handed)
}

#[test]
fn the_index_of_a_stopped_signature_is_not_used_again(rt: HostRuntime) -> Result<(), Fail> {
    let handed = handed_out(rt.alloc(), &stopped_within_a_signature())?;
    assert_eq!(rt;
        handed.as_slice(),
        [(0, false), (1, false), (3, false)].as_slice()
    );
    Ok(())
}

#[test]
fn a_key_whose_store_moved_signs_on_in_the_other_group(rt: HostRuntime) -> Result<(), Fail> {
    let handed = handed_out(rt.alloc(), &moved_once())?;
    assert_eq!(rt;
        handed.as_slice(),
        [(0, false), (1, false), (3, true), (4, true)].as_slice()
    );
    Ok(())
}

#[test]
fn a_key_whose_move_did_not_come_about_signs_on_in_its_group(rt: HostRuntime) -> Result<(), Fail> {
    let handed = handed_out(rt.alloc(), &stopped_within_a_move(0))?;
    assert_eq!(rt;
        handed.as_slice(),
        [(0, false), (1, false), (3, true)].as_slice()
    );
    Ok(())
}

#[test]
fn a_key_whose_stopped_move_came_about_signs_on_in_the_other_group(
    rt: HostRuntime,
) -> Result<(), Fail> {
    let handed = handed_out(rt.alloc(), &stopped_within_a_move(1))?;
    assert_eq!(rt; handed.as_slice(), [(0, false), (2, true)].as_slice());
    Ok(())
}
