//! Member 1 in a world of two, just before the call.

ghost use Rattle.records.specs.Spelling.{HasPort};

use datagram::records_head;
use ff_ids::{AccBody, Epoch, Group, Mask, MemberId, NoteBody, RingNo};
use fixtures::{Crew, Key, Kinds, Player, SceneFault};
use lms_ots::OtsKind;
use lms_tree::TreeKind;
use ports::MemoryDisk;
use records::{Body, Checked, write_record};
use std::alloc::Global;

const GROUP: Group = Group {
    tag: [0; 16],
    t: 1,
    timeout: 4,
    period: 1,
    misses: 1,
};

const KINDS: Kinds = Kinds {
    ots: OtsKind::W2,
    tree: TreeKind::H5,
    bottom: None,
};

/// A summary of page 0 from 2, without an entry: it lacks all that the node holds.
const SUMMARY: [u8; 9] = *b"\x46\x46\x01\x03\x00\x02\x00\x00\x00";

/// The call that is made.
#[derive(Clone, Copy)]
pub enum Call {
    /// A delivery of a note that is accepted, and of an accusation of the node, which it answers.
    Records,
    /// A delivery of a summary that is answered by records and by a summary.
    Summary,
    /// A tick at which a silent member is accused, and a ping and a summary go out.
    Tick,
}

/// The note of member 2 of this epoch.
fn note(epoch: u64) -> Body
    ensures { HasPort result }
{
    Body::Note(NoteBody {
        member: MemberId::new(2),
        epoch: Epoch::new(epoch.max(1)),
        mask: Mask(7),
    })
}

fn accusation() -> Body
    ensures { HasPort result }
{
    Body::Accusation(AccBody {
        accuser: MemberId::new(2),
        accused: MemberId::new(1),
        epoch: Epoch::new(1),
        ring: RingNo(0),
    })
}

/// A datagram of 2 with these records.
fn datagram_of(alloc: Global, records: &[Checked]) -> Result<Vec<u8>, SceneFault> {
    let count = (records.len() % 100) as u16;
    let mut bytes = Vec::from_slice(alloc, &records_head(MemberId::new(2), count.max(1)))?;
    for checked in records {
        write_record(checked.rec(), &mut bytes)?;
    }
    Ok(bytes)
}

/// The node, started, and the key of 2.
fn started(alloc: Global) -> Result<(Player, Key), SceneFault> {
    let own = Key::of(alloc, &GROUP.tag, 1, KINDS)?;
    let other = Key::of(alloc, &GROUP.tag, 2, KINDS)?;
    let mut crew = Crew::open(alloc, GROUP, KINDS)?;
    crew.certify(alloc, MemberId::new(1), own.public())?;
    crew.certify(alloc, MemberId::new(2), other.public())?;
    let disk = MemoryDisk::new(alloc, 700, 200, Vec::new(alloc))?;
    let player = crew.start(alloc, MemberId::new(1), own, disk)?;
    Ok((player, other))
}

/// The node learns the note of 2, and pings it. Answered is what is delivered then.
fn lead_up(
    alloc: Global,
    call: Call,
    player: &mut Player,
    key: &mut Key,
) -> Result<Vec<u8>, SceneFault> {
    let first = key.sign(alloc, &GROUP, note(1))?;
    let second = key.sign(alloc, &GROUP, note(2))?;
    let third = key.sign(alloc, &GROUP, accusation())?;
    let known = vec![in alloc; first]?;
    player.deliver(alloc, &datagram_of(alloc, &known)?)?;
    player.tick(alloc)?;
    match call {
        Call::Records => datagram_of(alloc, &vec![in alloc; second, third]?),
        Call::Summary => Ok(Vec::from_slice(alloc, &SUMMARY)?),
        Call::Tick => Ok(Vec::new(alloc)),
    }
}

/// The node just before the call, which knows the note of 2 and has pinged it; and what is delivered.
pub fn prepared(alloc: Global, call: Call) -> Result<(Player, Vec<u8>), SceneFault> {
    let (mut player, mut key) = started(alloc)?;
    match lead_up(alloc, call, &mut player, &mut key) {
        Ok(bytes) => Ok((player, bytes)),
        Err(fault) => {
            player.end();
            Err(fault)
        }
    }
}
