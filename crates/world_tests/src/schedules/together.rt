//! Several records in one datagram, leaving notes among them.

ghost use Rattle.records.specs.Spelling.{HasPort};

use super::{STARTED, plays};
use ff_ids::{AccBody, Epoch, Group, Mask, MemberId, NoteBody, RingNo};
use fixtures::{Key, Kinds};
use lms_ots::OtsKind;
use lms_tree::TreeKind;
use records::{Body, write_record};
use std::alloc::Global;
use std::process::Abort;
use std::test::Fail;

const GROUP: Group = Group {
    tag: [0; 16],
    t: 1,
    timeout: 4,
    period: 1,
    misses: 2,
};

const KINDS: Kinds = Kinds {
    tree: TreeKind::H5,
    ots: OtsKind::W2,
    bottom: None,
};

/// A node and two liars.
const LIARS: &str = "node 1\nliar 2\nliar 3\nbegin\n";

fn key_of(alloc: Global, number: u16) -> Result<Key, Fail> {
    Ok(Key::of(alloc, &GROUP.tag, number, KINDS)?)
}

/// A note; epoch 0 stands for 1.
fn note(of: u8, epoch: u8, mask: u64) -> Body
    ensures { HasPort result }
{
    Body::Note(NoteBody {
        member: MemberId::new(u16::from(of)),
        epoch: Epoch::new(u64::from(epoch).max(1)),
        mask: Mask(mask),
    })
}

/// An accusation; epoch 0 stands for 1.
fn accusation(accuser: u8, accused: u8, epoch: u8, ring: u8) -> Body
    ensures { HasPort result }
{
    Body::Accusation(AccBody {
        accuser: MemberId::new(u16::from(accuser)),
        accused: MemberId::new(u16::from(accused)),
        epoch: Epoch::new(u64::from(epoch).max(1)),
        ring: RingNo(ring),
    })
}

/// The head of a datagram of 2 with so many records.
fn head(alloc: Global, count: u8) -> Result<Vec<u8>, Fail> {
    Ok(Vec::from_slice(alloc, &[0x46, 0x46, 1, 4, 0, 2, 0, count])?)
}

/// Appends the body, signed by the next leaf of the key.
fn append(alloc: Global, key: &mut Key, body: Body, bytes: &mut Vec<u8>) -> Result<(), Fail>
    requires { HasPort body }
{
    let record = key.sign(alloc, &GROUP, body)?;
    Ok(write_record(record.rec(), bytes)?)
}

/// Handed to node 1, the datagram gives these lines.
fn takes(rt: &impl Abort, alloc: Global, bytes: &[u8], wanted: &str) -> Result<(), Fail> {
    let digits = hex::encode(alloc, bytes)?;
    plays(
        rt,
        alloc,
        format!(in alloc; "{LIARS}start 1\nraw 1 {digits}\nview 1\n")?.as_str(),
        format!(in alloc; "{LIARS}{STARTED}raw 1 HEX\n{wanted}")?.as_str(),
    )
}

/// Appends the first notes of both liars.
fn append_notes(
    alloc: Global,
    second: &mut Key,
    third: &mut Key,
    bytes: &mut Vec<u8>,
) -> Result<(), Fail> {
    append(alloc, second, note(2, 1, 7), bytes)?;
    append(alloc, third, note(3, 1, 7), bytes)
}

/// Appends an accusation of 3, one by 3, and the note by which 3 leaves.
fn append_leaving_last(
    alloc: Global,
    second: &mut Key,
    third: &mut Key,
    bytes: &mut Vec<u8>,
) -> Result<(), Fail> {
    append(alloc, second, accusation(2, 3, 1, 0), bytes)?;
    append(alloc, third, accusation(3, 2, 1, 1), bytes)?;
    append(alloc, third, note(3, 2, 0), bytes)
}

/// Appends the note by which 3 leaves, accusations of it at both of its epochs, and one by it.
fn append_leaving_first(
    alloc: Global,
    second: &mut Key,
    third: &mut Key,
    bytes: &mut Vec<u8>,
) -> Result<(), Fail> {
    append(alloc, third, note(3, 2, 0), bytes)?;
    append(alloc, second, accusation(2, 3, 1, 0), bytes)?;
    append(alloc, second, accusation(2, 3, 2, 0), bytes)?;
    append(alloc, third, accusation(3, 2, 1, 1), bytes)
}

const BOTH_ENTER: &str = "@1 at 0 took note 2 1 7 : accepted\n\
@1 at 0 entered 2\n\
@1 at 0 took note 3 1 7 : accepted\n\
@1 at 0 entered 3\n";

/// A datagram in which the leaving note comes last.
fn leaving_last(alloc: Global) -> Result<Vec<u8>, Fail> {
    let mut second = key_of(alloc, 2)?;
    let mut third = key_of(alloc, 3)?;
    let mut bytes = head(alloc, 5)?;
    append_notes(alloc, &mut second, &mut third, &mut bytes)?;
    append_leaving_last(alloc, &mut second, &mut third, &mut bytes)?;
    Ok(bytes)
}

#[test]
fn accusations_fall_by_a_leaving_note_behind_them(rt: HostRuntime) -> Result<(), Fail> {
    let alloc = rt.alloc();
    let wanted = format!(in alloc;
        "{BOTH_ENTER}@1 at 0 took accuse 2 3 1 0 : accepted\n\
@1 at 0 took accuse 3 2 1 1 : accepted\n\
@1 at 0 took note 3 2 0 : accepted\n\
@1 at 0 removed 3\n\
@1 at 0 fell 3 2 1 1\n\
@1 at 0 fell 2 3 1 0\n\
view 1 : 1 2\n"
    )?;
    takes(&rt, alloc, &leaving_last(alloc)?, wanted.as_str())
}

/// A datagram in which the leaving note comes before the accusations.
fn leaving_first(alloc: Global) -> Result<Vec<u8>, Fail> {
    let mut second = key_of(alloc, 2)?;
    let mut third = key_of(alloc, 3)?;
    let mut bytes = head(alloc, 6)?;
    append_notes(alloc, &mut second, &mut third, &mut bytes)?;
    append_leaving_first(alloc, &mut second, &mut third, &mut bytes)?;
    Ok(bytes)
}

#[test]
fn accusations_are_refused_behind_a_leaving_note(rt: HostRuntime) -> Result<(), Fail> {
    let alloc = rt.alloc();
    let wanted = format!(in alloc;
        "{BOTH_ENTER}@1 at 0 took note 3 2 0 : accepted\n\
@1 at 0 removed 3\n\
@1 at 0 took accuse 2 3 1 0 : refused other-epoch 2\n\
@1 at 0 took accuse 2 3 2 0 : refused not-in-view\n\
@1 at 0 took accuse 3 2 1 1 : refused not-monitor 1\n\
view 1 : 1 2\n"
    )?;
    takes(&rt, alloc, &leaving_first(alloc)?, wanted.as_str())
}

/// Appends the first note of 2 and its leaving notes: one, the same again, a greater, and the first once more.
fn append_leavings(alloc: Global, second: &mut Key, bytes: &mut Vec<u8>) -> Result<(), Fail> {
    append(alloc, second, note(2, 1, 7), bytes)?;
    append(alloc, second, note(2, 2, 0), bytes)?;
    append(alloc, second, note(2, 2, 0), bytes)?;
    append(alloc, second, note(2, 3, 0), bytes)?;
    append(alloc, second, note(2, 2, 0), bytes)
}

/// A datagram with these.
fn leavings(alloc: Global) -> Result<Vec<u8>, Fail> {
    let mut second = key_of(alloc, 2)?;
    let mut bytes = head(alloc, 5)?;
    append_leavings(alloc, &mut second, &mut bytes)?;
    Ok(bytes)
}

const LEAVINGS: &str = "@1 at 0 took note 2 1 7 : accepted\n\
@1 at 0 entered 2\n\
@1 at 0 took note 2 2 0 : accepted\n\
@1 at 0 removed 2\n\
@1 at 0 took note 2 2 0 : refused known\n\
@1 at 0 took note 2 3 0 : accepted\n\
@1 at 0 took note 2 2 0 : refused older 3 0\n\
view 1 : 1\n";

#[test]
fn the_first_of_several_leaving_notes_removes(rt: HostRuntime) -> Result<(), Fail> {
    takes(&rt, rt.alloc(), &leavings(rt.alloc())?, LEAVINGS)
}
