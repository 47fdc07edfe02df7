//! What lasts of a node: its key, its disk, and what it has signed.

ghost use Rattle.std.specs.Prelude.{◌≡◌, ◌≤◌, [], IfOk, IfSome, List, None, Some, false, filter_map, is_some, true};
ghost use Rattle.std.specs.Option.{option_map, option_map_or};
ghost use Rattle.ff_ids.specs.declared.TheConstants.{MAX_TOLERANCE};
ghost use Rattle.ff_ids.specs.Masks.{ring_count};
ghost use Rattle.sign_keys.specs.declared.kinds.Kinds.{Kinds as KeyKinds};
ghost use Rattle.sign_keys.specs.Keys.{public_key};
ghost use Rattle.sign_keys.specs.Kinds.{is_in_profile};
ghost use Rattle.world_host.specs.Held.{crashed};
ghost use Rattle.world_host.specs.DiskLaws.{IsNew};
ghost use Rattle.world_host.specs.Bodies.{is_among as is_one_of};
ghost use Rattle.world_rules.specs.Keys.{owner_key};
ghost use Rattle.world_rules.specs.Refusals.{epoch_of_note, greatest, has_left_in};
ghost use Rattle.world_rules.specs.Settings.{Setting};
ghost use Rattle.world_rules.specs.Worlds.{Host as Place};
ghost use Rattle.signer.specs.Lives.{Spent};
ghost use Rattle.world_host.specs.Holding.{HoldsHost, IsWorld, made_place};
ghost use Rattle.world_host.specs.Hosts.{HaveJoined};

use crate::{index_count_of, is_among, key_of, newest_of};
use epoch_store::{make, store_len};
use ff_ids::{Epoch, Group, MemberId, all_rings};
use fields::NoMemory;
use membership::Membership;
use node_core::Node;
use node_rules::{own_note_is_kept, what_is_held_is_the_life};
use ports::MemoryDisk;
use records::{Body, Key};
use secrets::store_tag;
use sign_keys::{Kinds, SignKey};
use std::alloc::Global;
use std::marker::Model;

/// What the one file of a disk is called.
pub(crate) const FILE: &str = "store";

/// A node's place in a world. Contracts see all that it keeps; which place of the rules that may stand for is said by
/// `HoldsHost`.
#[derive(Drop)]
pub struct Host {
    pub(crate) member: MemberId,
    /// The kinds of its key.
    pub(crate) kinds: Kinds,
    /// The public half of its key.
    pub(crate) public: Key,
    /// The key, until a life takes it.
    pub(crate) key: Option<SignKey>,
    /// The mark of its store.
    pub(crate) tag: [u8; 32],
    pub(crate) disk: MemoryDisk,
    /// How many lives began.
    pub(crate) lives: u64,
    /// The node that runs, if one does.
    pub(crate) node: Option<Node>,
    /// What its key has signed.
    pub(crate) signed: Vec<Body>,
}

impl Model for Host {
    ghost use Rattle.std.specs.Prelude.{◌≡◌, IfSome, true};
    ghost use Rattle.std.specs.Coded.{codes};
    ghost use Rattle.std.specs.FinMap.{code};
    ghost use Rattle.sign_keys.specs.Kinds.{is_in_profile};
    ghost use Rattle.world_host.specs.Hosts.{HostState, IsGoing, IsUntaken};

    ghost Value = { HostState };

    ghost coded = { Prim.hlevel (codes, code) };

    ghost view = { λ x. record {
      member = x.member;
      kinds = x.kinds;
      public = x.public;
      key = x.key;
      tag = x.tag;
      disk = x.disk;
      lives = x.lives;
      node = x.node;
      signed = x.signed.items;
    } };

    ghost invariant = { λ x. (is_in_profile x.kinds ≡ true)
        × IfSome x.key (IsUntaken x.kinds x.public)
        × IfSome x.node IsGoing };
}

/// A disk with room for each entry that a key with so many indexes allows, and for each change: a new store is a write and a
/// sync, and each entry two of both.
fn open_disk(alloc: Global, indexes: u32) -> Result<MemoryDisk, NoMemory>
    requires { indexes ≤ 32768 }
    ensures { IfOk result (λ disk. IsNew indexes disk) }
{
    let indexes = indexes as usize;
    MemoryDisk::new(
        alloc,
        store_len(indexes + 1),
        2 + 4 * indexes,
        Vec::new(alloc),
    )
}

impl Host {
    /// The place of a member of the group's world, with its key of these kinds: its store is new and enables all rings, and
    /// no life has begun.
    pub fn open(
        alloc: Global,
        group: &Group,
        kinds: Kinds,
        member: MemberId,
    ) -> Result<Host, NoMemory>
        requires profile { is_in_profile kinds ≡ true }
        requires tolerance { group.now.t ≤ MAX_TOLERANCE }
        ensures member { IfOk result (λ host. host.member ≡ member) }
        ensures public { IfOk result
            (λ host. host.public ≡ public_key (owner_key group.now kinds (Some member))) }
        ensures holds { IfOk result
            (λ host. (s : Setting) → IsWorld s group.now kinds
            → HoldsHost s kinds (made_place s) [] host) }
    {
        let key = key_of(alloc, group, kinds, member.get())?;
        let public = key.public();
        let tag = store_tag(group, &key);
        let mut disk = open_disk(alloc, index_count_of(&kinds))?;
        if make(&mut disk, FILE, &tag, all_rings(group.t)).is_err() {
            unreachable!();
        }
        Ok(Host {
            member,
            kinds,
            public,
            key: Some(key),
            tag,
            disk,
            lives: 0,
            node: None,
            signed: Vec::new(alloc),
        })
    }

    /// Whose place it is.
    pub fn member(&self) -> MemberId
        ensures { result ≡ self.now.member }
    {
        self.member
    }

    /// The public half of its key.
    pub fn public(&self) -> &Key
        ensures { result.now ≡ self.now.public }
    {
        &self.public
    }

    /// Whether its key has signed the body.
    pub fn has_signed(&self, body: &Body) -> bool
        ensures { result ≡ is_one_of self.now.signed body.now }
    {
        is_among(&self.signed, body)
    }

    /// The greatest epoch among the notes of its own that the key has signed.
    pub fn newest_signed(&self) -> Option<Epoch>
        ensures { result ≡ greatest (filter_map (epoch_of_note self.now.member) self.now.signed) }
    {
        newest_of(self.member, &self.signed)
    }

    pub fn is_running(&self) -> bool
        ensures { result ≡ is_some self.now.node }
    {
        self.node.is_some()
    }

    /// Whether the node runs and has left: its own newest note is a leaving one.
    pub fn has_left(&self) -> bool
        ensures { (s : Setting) (kinds : KeyKinds) (place : Place)
            (spent : List Spent) → HoldsHost s kinds place spent self.now
            → result ≡ option_map_or (has_left_in s self.now.member) place.current false }
    {
        own_note_is_kept();
        match &self.node {
            Some(node) => node.has_left(),
            None => false,
        }
    }

    /// How many ticks the life had that runs, or 0.
    pub fn moment(&self) -> u64
        ensures { result ≡ option_map_or (λ n. n.membership.moment) self.now.node 0 }
    {
        match &self.node {
            Some(node) => node.membership().now(),
            None => 0,
        }
    }

    /// The node that runs, if one does.
    pub fn node(&self) -> Option<&Node>
        ensures same { option_map (λ n. n.now) result ≡ self.now.node }
        ensures joined { IfSome result (λ n. HaveJoined n.now) }
    {
        what_is_held_is_the_life();
        self.node.as_ref()
    }

    /// The life that runs is over, and the disk crashes with this outcome.
    pub fn stop(&mut self, outcome: u16)
        ensures { self.new ≡ record self.old { node = None; disk = crashed outcome self.old.disk } }
    {
        drop(self.node.take());
        self.disk.crash(outcome);
    }

    /// Arms a stop of the disk, in place of one that was armed before.
    pub fn arm(&mut self, calls: u64, outcome: u16)
        ensures { self.new
            ≡ record self.old {
              disk = record self.old.disk
                  { armed = Some (record { calls = calls; outcome = outcome }) };
            } }
    {
        self.disk.arm(calls, outcome);
    }
}
