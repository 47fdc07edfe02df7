//! One member: a node of the library over a disk of its own.

use crate::certificates::Directory;
use crate::keys::{GROUP, Opened, make_store, new_disk, open};
use anyhow::{Result, ensure};
use ff_ids::MemberId;
use membership::Membership;
use node_core::{Events, Kit, Node, Outbox};
use ports::MemoryDisk;
use records::Key;
use std::alloc::Global;
use std::marker::Model;

/// A member that runs. It is a value: nothing happens in it but by its calls, and no call waits.
#[derive(Drop)]
pub struct Member {
    number: MemberId,
    node: Node,
    disk: MemoryDisk,
}

impl Model for Member {
    ghost Value = { Unit {0} };

    ghost view = { λ m. tt };
}

/// What a call reports, and the datagrams that it wants sent, each with its addressee.
#[derive(Drop)]
pub struct Answer {
    pub events: Events,
    pub out: Outbox,
}

/// The secret of a member. A real one has 32 random bytes, and nobody else has it.
fn secret_of(number: MemberId) -> [u8; 32] {
    [(number.get() % 256) as u8; 32]
}

/// Makes the member's key and, on a new disk, its store.
pub fn enroll(alloc: Global, number: MemberId) -> Result<(Key, MemoryDisk)> {
    let mut disk = new_disk(alloc)?;
    let public = make_store(alloc, &secret_of(number), &mut disk)?;
    Ok((public, disk))
}

impl Member {
    /// A life begins: a first note is signed, and sent by gossip later.
    pub fn start(
        alloc: Global,
        number: MemberId,
        directory: &Directory,
        mut disk: MemoryDisk,
    ) -> Result<(Member, Answer)> {
        let Opened {
            signer,
            public,
            nonce_seed,
        } = open(alloc, &secret_of(number), &mut disk)?;
        let kit = Kit {
            group: GROUP,
            me: number,
            authority: directory.authority,
            certificates: directory.check(alloc)?,
            nonce_seed,
            heal: None,
        };
        ensure!(kit.is_sound(&public), "no certificate of this member's key");
        let mut answer = Answer::new(alloc);
        let node = Node::start(alloc, kit, signer, &mut disk, &mut answer.events)?;
        Ok((Member { number, node, disk }, answer))
    }

    /// A datagram came, from whomever.
    pub fn deliver(&mut self, alloc: Global, bytes: &[u8]) -> Result<Answer> {
        let mut answer = Answer::new(alloc);
        let Answer { events, out } = &mut answer;
        self.node
            .deliver(alloc, &mut self.disk, bytes, out, events)?;
        Ok(answer)
    }

    /// A tick has passed. The clock is the application's.
    pub fn tick(&mut self, alloc: Global) -> Result<Answer> {
        let mut answer = Answer::new(alloc);
        if self.node.membership().now() < u64::MAX {
            let Answer { events, out } = &mut answer;
            self.node.tick(alloc, &mut self.disk, out, events)?;
        }
        Ok(answer)
    }

    /// What the member knows of the group.
    pub fn membership(&self) -> &Membership {
        self.node.membership()
    }

    pub fn number(&self) -> MemberId {
        self.number
    }

    /// The life ends, as in a crash: nothing is sent. The disk is what is left.
    pub fn stop(self) -> MemoryDisk {
        self.disk
    }
}

impl Answer {
    fn new(alloc: Global) -> Answer {
        Answer {
            events: Events::new(alloc),
            out: Outbox::new(alloc),
        }
    }
}
