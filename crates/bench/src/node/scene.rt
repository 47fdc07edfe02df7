//! A node among members that share one key.

ghost use Rattle.std.specs.Prelude.{◌≡◌, ◌<◌, IfOk};

use datagram::records_head;
use ff_ids::{Epoch, Group, Mask, MemberId, NoteBody};
use fixtures::{Crew, Key, Kinds, Player};
use lms_ots::OtsKind;
use lms_tree::TreeKind;
use ports::MemoryDisk;
use records::{Body, Checked, write_record};
use std::alloc::Global;
use std::io;

/// Ten ticks from one that is due to the next.
pub const GROUP: Group = Group {
    tag: [0; 16],
    t: 2,
    timeout: 10_000,
    period: 10,
    misses: 16,
};

const KINDS: Kinds = Kinds {
    ots: OtsKind::W4,
    tree: TreeKind::H10,
    bottom: None,
};

/// Member 0 as a node, and the key of all others, of which each has a note in the view.
#[derive(Drop)]
pub struct Scene {
    pub player: Player,
    pub key: Key,
}

pub fn failed() -> io::Error {
    io::Error::from(io::ErrorKind::Other)
}

/// The number of a member; 1,023 stands for all above.
pub fn member(number: u16) -> MemberId {
    MemberId::new(number.min(1023))
}

/// The note of the member of this epoch; epoch 0 stands for 1.
pub fn note(number: u16, epoch: u64) -> NoteBody {
    NoteBody {
        member: member(number),
        epoch: Epoch::new(epoch.max(1)),
        mask: Mask(31),
    }
}

/// The datagram with this note alone.
pub fn datagram_of(alloc: Global, checked: &Checked) -> io::Result<Vec<u8>> {
    let mut bytes = Vec::from_slice(alloc, &records_head(member(1), 1))?;
    write_record(checked.rec(), &mut bytes).or(Err(failed()))?;
    Ok(bytes)
}

/// So many members with certificates: the first has a key of its own, and the others share one.
fn crew_of(alloc: Global, members: u16, own: &Key, shared: &Key) -> io::Result<Crew> {
    let mut crew = Crew::open(alloc, GROUP, KINDS).or(Err(failed()))?;
    crew.certify(alloc, member(0), own.public())
        .or(Err(failed()))?;
    for number in 1..members {
        crew.certify(alloc, member(number), shared.public())
            .or(Err(failed()))?;
    }
    Ok(crew)
}

fn key_of(alloc: Global, number: u16) -> io::Result<Key> {
    Key::of(alloc, &GROUP.tag, number, KINDS).or(Err(failed()))
}

fn start(alloc: Global, members: u16, shared: &Key) -> io::Result<Player> {
    let own = key_of(alloc, 0)?;
    let crew = crew_of(alloc, members, &own, shared)?;
    let disk = MemoryDisk::new(alloc, 700, 200, Vec::new(alloc)).or(Err(failed()))?;
    crew.start(alloc, member(0), own, disk).or(Err(failed()))
}

impl Scene {
    /// Each of so many members has its first note in the node's view.
    pub fn open(alloc: Global, members: u16) -> io::Result<Scene> {
        let key = key_of(alloc, 1)?;
        let player = start(alloc, members, &key)?;
        let mut scene = Scene { player, key };
        match scene.fill(alloc, members) {
            Ok(()) => Ok(scene),
            Err(fault) => {
                scene.end();
                Err(fault)
            }
        }
    }

    /// Each of so many members gets its first note into the node's view.
    fn fill(&mut self, alloc: Global, members: u16) -> io::Result<()> {
        for number in 1..members {
            let bytes = self.sign(alloc, note(number, 1))?;
            self.deliver(alloc, &bytes)?;
        }
        Ok(())
    }

    /// The datagram with this note, signed.
    pub fn sign(&mut self, alloc: Global, note: NoteBody) -> io::Result<Vec<u8>> {
        let checked = self
            .key
            .sign(alloc, &GROUP, Body::Note(note))
            .or(Err(failed()))?;
        datagram_of(alloc, &checked)
    }

    pub fn deliver(&mut self, alloc: Global, bytes: &[u8]) -> io::Result<()> {
        self.player.deliver(alloc, bytes).or(Err(failed()))
    }

    /// How many members are in the node's view.
    pub fn members_in_view(&self) -> usize {
        let mut count = 0usize;
        for number in 0..1024u16 {
            if self.player.sees(member(number)) {
                count = count.saturating_add(1);
            }
        }
        count
    }

    /// The node is let go.
    pub fn end(self) {
        let Scene { player, .. } = self;
        player.end();
    }
}
