//! Member 1 of a world of two, and what it is served with.

ghost use Rattle.std.specs.Prelude.{◌≡◌, IfOk, [], false};
ghost use Rattle.ports.specs.MemoryClock.{NeverFalls};
ghost use Rattle.records.specs.Spelling.{HasPort};

use datagram::records_head;
use ff_ids::{Group, Heal, MemberId};
use fields::{Bytes, NoMemory};
use fixtures::{Crew, Key, Kinds};
use lms_ots::OtsKind;
use lms_tree::TreeKind;
use node_core::{Events, Node};
use node_loop::{ServeFault, serve};
use ports::{LinkAnswer, MemoryClock, MemoryDisk, MemoryLink, MemorySink};
use records::{Body, write_record};
use std::alloc::Global;
use std::marker::Model;
use std::test::Fail;

/// Of 100 ticks the last is due.
pub const GROUP: Group = Group {
    tag: [0; 16],
    t: 1,
    timeout: 400,
    period: 100,
    misses: 2,
};

const KINDS: Kinds = Kinds {
    ots: OtsKind::W1,
    tree: TreeKind::H5,
    bottom: None,
};

/// The member's key, with all its leaves.
pub fn key_of(alloc: Global, number: u16) -> Result<Key, Fail> {
    Ok(Key::of(alloc, &GROUP.tag, number, KINDS)?)
}

/// Members 1 and 2 of this group, whose ports are 20,001 and 20,002.
fn crew_of_two(alloc: Global, group: Group, heal: Option<Heal>) -> Result<Crew, Fail> {
    let mut crew = Crew::open(alloc, group, KINDS)?;
    crew.set_heal(heal);
    for number in 1..=2 {
        let public = key_of(alloc, number)?.public();
        crew.certify(alloc, MemberId::new(number), public)?;
    }
    Ok(crew)
}

/// Member 1 of this crew begins its first life.
fn begin_in(
    alloc: Global,
    crew: &Crew,
    disk: &mut MemoryDisk,
    events: &mut Events,
) -> Result<Node, Fail>
    ensures { IfOk result (λ node. node.ended ≡ false) }
{
    let key = key_of(alloc, 1)?;
    Ok(crew.begin(alloc, MemberId::new(1), key, disk, events)?)
}

/// Member 1 of such a group begins its first life.
fn begin(
    alloc: Global,
    group: Group,
    heal: Option<Heal>,
    disk: &mut MemoryDisk,
) -> Result<Node, Fail>
    ensures { IfOk result (λ node. node.ended ≡ false) }
{
    let crew = crew_of_two(alloc, group, heal)?;
    begin_in(alloc, &crew, disk, &mut Events::new(alloc))
}

/// What a node of which group is served with: what comes on its link, which sends fail, what the clock reads, and whether its
/// disk stops in the next call.
#[derive(Drop)]
pub struct Turns {
    pub group: Group,
    pub heal: Option<Heal>,
    pub answers: Vec<LinkAnswer>,
    pub fail_sends: Vec<u64>,
    pub times: Vec<u64>,
    pub turns: u32,
    pub stops: bool,
}

impl Turns {
    /// So many turns in which these come; no time passes, and nothing fails.
    pub fn of(alloc: Global, answers: Vec<LinkAnswer>, turns: u32) -> Turns
        ensures { result.times.items ≡ [] }
    {
        Turns {
            group: GROUP,
            heal: None,
            answers,
            fail_sends: Vec::new(alloc),
            times: Vec::new(alloc),
            turns,
            stops: false,
        }
    }
}

/// How a call of `serve` ended, the journal that it wrote, what the link was given, and how many ticks the life had.
/// Contracts see nothing of it.
#[derive(Drop)]
pub struct Served {
    done: Result<(), ServeFault>,
    journal: MemorySink,
    link: MemoryLink,
    now: u64,
}

impl Model for Served {
    ghost Value = { Unit {0} };

    ghost view = { λ s. tt };
}

impl Served {
    pub fn done(&self) -> Result<(), ServeFault> {
        self.done
    }

    pub fn journal(&self) -> &[u8] {
        self.journal.bytes()
    }

    pub fn given(&self) -> &[(u16, Bytes)] {
        self.link.sent()
    }

    pub fn now(&self) -> u64 {
        self.now
    }
}

/// Serves the node, with a tick each 100 milliseconds.
fn serve_node(
    alloc: Global,
    node: &mut Node,
    disk: &mut MemoryDisk,
    with: Turns,
) -> Result<Served, NoMemory>
    requires going { node.old.ended ≡ false }
    requires times { NeverFalls 0 with.times.items }
{
    let mut journal = MemorySink::new(alloc, 60_000, 64, Vec::new(alloc))?;
    let mut link = MemoryLink::new(alloc, with.answers, with.fail_sends, false);
    let mut clock = MemoryClock::new(with.times);
    if with.stops {
        disk.arm(0, 0);
    }
    let done = serve(
        alloc,
        node,
        &mut link,
        &mut clock,
        disk,
        &mut journal,
        100,
        with.turns,
        false,
    );
    let now = node.membership().now();
    Ok(Served {
        done,
        journal,
        link,
        now,
    })
}

/// The first life of member 1, whose disk this is, served so.
fn serve_on(alloc: Global, disk: &mut MemoryDisk, with: Turns) -> Result<Served, Fail>
    requires times { NeverFalls 0 with.times.items }
{
    let mut node = begin(alloc, with.group, with.heal, disk)?;
    let served = serve_node(alloc, &mut node, disk, with);
    drop(node);
    Ok(served?)
}

/// The first life of member 1, served so.
pub fn serve_first_life(alloc: Global, with: Turns) -> Result<Served, Fail>
    requires times { NeverFalls 0 with.times.items }
{
    let mut disk = MemoryDisk::new(alloc, 700, 200, Vec::new(alloc))?;
    let served = serve_on(alloc, &mut disk, with);
    drop(disk);
    served
}

/// This datagram comes.
pub fn got(alloc: Global, bytes: &[u8]) -> Result<LinkAnswer, Fail> {
    Ok(LinkAnswer::Got(Bytes::from_vec(bytes.to_vec(alloc)?)))
}

/// A records datagram of 2, of one record, which the next leaf of its key signs.
pub fn record_of_2(alloc: Global, key: &mut Key, body: Body) -> Result<LinkAnswer, Fail>
    requires { HasPort body }
{
    let record = key.sign(alloc, &GROUP, body)?;
    let mut bytes = records_head(MemberId::new(2), 1).to_vec(alloc)?;
    write_record(record.rec(), &mut bytes)?;
    Ok(LinkAnswer::Got(Bytes::from_vec(bytes)))
}
