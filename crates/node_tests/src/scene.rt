//! A world of W1 keys with 32 leaves, all of whose secrets are stated, and datagrams by hand.

ghost use Rattle.records.specs.Spelling.{HasPort};

use datagram::records_head;
use ff_ids::{AccBody, Epoch, Group, Heal, Mask, MemberId, NoteBody, RingNo};
use fixtures::{Crew, Key, Kinds, Player};
use lms_ots::OtsKind;
use lms_tree::TreeKind;
use ports::MemoryDisk;
use records::{Body, write_record};
use std::alloc::Global;
use std::process::Abort;
use std::test::Fail;

pub const GROUP: Group = Group {
    tag: [0; 16],
    t: 1,
    timeout: 4,
    period: 1,
    misses: 2,
};

/// The same group but for its tag.
pub const OTHER: Group = Group {
    tag: [1; 16],
    t: 1,
    timeout: 4,
    period: 1,
    misses: 2,
};

const KINDS: Kinds = Kinds {
    ots: OtsKind::W1,
    tree: TreeKind::H5,
    bottom: None,
};

pub fn member(number: u8) -> MemberId {
    MemberId::new(u16::from(number))
}

/// The member's key, with all its leaves.
pub fn key_of(alloc: Global, number: u8) -> Result<Key, Fail> {
    Ok(Key::of(alloc, &GROUP.tag, u16::from(number), KINDS)?)
}

/// The key of 1, of which so many leaves are spent.
pub fn own_key(alloc: Global, spent: u8) -> Result<Key, Fail> {
    let mut own = key_of(alloc, 1)?;
    spend(alloc, &mut own, spent)?;
    Ok(own)
}

/// So many leaves of the key sign.
fn spend(alloc: Global, key: &mut Key, count: u8) -> Result<(), Fail> {
    for _ in 0..count {
        key.sign(alloc, &GROUP, note(1, 1, 7))?;
    }
    Ok(())
}

/// A note; epoch 0 stands for 1.
pub fn note(of: u8, epoch: u8, mask: u64) -> Body
    ensures { HasPort result }
{
    Body::Note(NoteBody {
        member: member(of),
        epoch: Epoch::new(u64::from(epoch).max(1)),
        mask: Mask(mask),
    })
}

/// An accusation; epoch 0 stands for 1.
pub fn accusation(accuser: u8, accused: u8, epoch: u8, ring: u8) -> Body
    ensures { HasPort result }
{
    Body::Accusation(AccBody {
        accuser: member(accuser),
        accused: member(accused),
        epoch: Epoch::new(u64::from(epoch).max(1)),
        ring: RingNo(ring),
    })
}

/// Members 1 to `count`, certified.
pub fn crew_of(alloc: Global, count: u8) -> Result<Crew, Fail> {
    let mut crew = Crew::open(alloc, GROUP, KINDS)?;
    for number in 1..=count {
        let public = key_of(alloc, number)?.public();
        crew.certify(alloc, member(number), public)?;
    }
    Ok(crew)
}

/// A disk on which nothing fails.
fn disk(alloc: Global) -> Result<MemoryDisk, Fail> {
    Ok(MemoryDisk::new(alloc, 700, 200, Vec::new(alloc))?)
}

/// The member, started.
pub fn start(alloc: Global, crew: &Crew, number: u8) -> Result<Player, Fail> {
    let key = key_of(alloc, number)?;
    Ok(crew.start(alloc, member(number), key, disk(alloc)?)?)
}

/// Member 1, started in a world of it and 2.
pub fn first_of_two(alloc: Global) -> Result<Player, Fail> {
    start(alloc, &crew_of(alloc, 2)?, 1)
}

/// Member 1, started in a world of so many whose nodes come together again: each second round goes out of the view, and so many
/// notes are signed for others' sake in a timeout.
pub fn first_healing(alloc: Global, count: u8, most: u16) -> Result<Player, Fail> {
    let mut crew = crew_of(alloc, count)?;
    crew.set_heal(Heal::new(2, most));
    start(alloc, &crew, 1)
}

/// The head of a records datagram of so many records; 0 stands for 1.
pub fn head(alloc: Global, from: u8, count: u8) -> Result<Vec<u8>, Fail> {
    let head = records_head(member(from), u16::from(count).max(1));
    Ok(Vec::from_slice(alloc, &head)?)
}

/// Appends the body, signed in the group by the next leaf of the key.
pub fn append(
    alloc: Global,
    key: &mut Key,
    group: &Group,
    body: Body,
    bytes: &mut Vec<u8>,
) -> Result<(), Fail>
    requires { HasPort body }
{
    let record = key.sign(alloc, group, body)?;
    Ok(write_record(record.rec(), bytes)?)
}

/// A records datagram of the one record.
pub fn single(alloc: Global, from: u8, key: &mut Key, body: Body) -> Result<Vec<u8>, Fail>
    requires { HasPort body }
{
    let mut bytes = head(alloc, from, 1)?;
    append(alloc, key, &GROUP, body, &mut bytes)?;
    Ok(bytes)
}

/// A records datagram of the member with its note of this epoch, which its key signs.
fn own_note(alloc: Global, of: u8, epoch: u8) -> Result<Vec<u8>, Fail> {
    let mut key = key_of(alloc, of)?;
    single(alloc, of, &mut key, note(of, epoch, 7))
}

/// The node takes this note, which its member's key signs.
pub fn teach(alloc: Global, node: &mut Player, of: u8, epoch: u8) -> Result<(), Fail> {
    let bytes = own_note(alloc, of, epoch)?;
    Ok(node.deliver(alloc, &bytes)?)
}

/// The last call reported this, each event with a line feed.
pub fn told(rt: &impl Abort, alloc: Global, node: &Player, wanted: &str) -> Result<(), Fail> {
    let text = node.told(alloc)?;
    assert_eq!(rt; text.as_slice(), wanted.as_bytes());
    Ok(())
}

/// The bytes are delivered: the node reports this, and sends nothing.
pub fn tells(
    rt: &impl Abort,
    alloc: Global,
    node: &mut Player,
    bytes: &[u8],
    wanted: &str,
) -> Result<(), Fail> {
    node.deliver(alloc, bytes)?;
    assert_eq!(rt; node.sent().len(), 0);
    told(rt, alloc, node, wanted)
}

/// The last call sent these bytes to member 2, and nothing else.
fn sent_to_2(rt: &impl Abort, node: &Player, bytes: &[u8]) {
    assert_eq!(rt; node.sent().len(), 1);
    for (to, sent) in node.sent() {
        assert_eq!(rt; *to, member(2));
        assert_eq!(rt; sent.as_slice(), bytes);
    }
}

/// The bytes are delivered: the node reports these lines, and then that it sent this datagram to member 2, its first one.
pub fn tells_and_sends(
    rt: &impl Abort,
    alloc: Global,
    node: &mut Player,
    bytes: &[u8],
    lines: &str,
    answer: &[u8],
) -> Result<(), Fail> {
    tells_and_sends_at(rt, alloc, node, bytes, 0, lines, answer)
}

/// The same at this moment.
pub fn tells_and_sends_at(
    rt: &impl Abort,
    alloc: Global,
    node: &mut Player,
    bytes: &[u8],
    moment: u8,
    lines: &str,
    answer: &[u8],
) -> Result<(), Fail> {
    node.deliver(alloc, bytes)?;
    sent_to_2(rt, node, answer);
    let digits = hex::encode(alloc, answer)?;
    let wanted = format!(in alloc; "{lines}at {moment} sent 0 2 {digits}\n")?;
    told(rt, alloc, node, wanted.as_str())
}
