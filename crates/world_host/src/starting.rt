//! Lives that begin.

ghost use Rattle.std.specs.Prelude.{◌≡◌, ◌<◌, ◌≤◌, ℕ, List, [], None, Some, IfErr, IfOk, IfSome, false};
ghost use Rattle.sign_keys.specs.declared.kinds.Kinds.{Kinds};
ghost use Rattle.sign_keys.specs.Keys.{IsNew, index_count, public_key, secret_of};
ghost use Rattle.signer.specs.Lives.{Spent};
ghost use Rattle.node_core.specs.Answers.{MayStop};
ghost use Rattle.world_rules.specs.Disks.{Disk, seat_of};
ghost use Rattle.world_rules.specs.Keys.{indexes_of, owner_key};
ghost use Rattle.world_rules.specs.Settings.{Setting};
ghost use Rattle.world_rules.specs.Worlds.{Host as Place};
ghost use Rattle.world_host.specs.Held.{HoldsDisk};
ghost use Rattle.world_host.specs.Answers.{BeginsLife, BeginsNode, IsStart, OpensStore, StartsNode};
ghost use Rattle.world_host.specs.Hosts.{IsGoing};
ghost use Rattle.world_host.specs.Holding.{Certifies, HoldsHost, IsPlaceOf, IsWorld};

use crate::host::{FILE, Host};
use crate::{Authority, index_count_of, key_of};
use epoch_store::{Store, StoreError};
use ff_ids::{Group, MemberId};
use fields::NoMemory;
use node_core::{Events, Node, NodeFault};
use ports::MemoryDisk;
use sign_keys::SignKey;
use signer::Signer;
use std::alloc::Global;

/// How a start went: a life of this number began, which reports this; the disk stopped; or the key is used up, of which this
/// is the next index.
#[derive(Drop)]
pub enum Started {
    Began { life: u64, events: Events },
    DiskStopped,
    UsedUp { next: u32 },
}

impl Host {
    /// Opens the store; none where the disk stops. The file is then the one that the stop has picked.
    fn open_store(&mut self) -> Result<Option<Store>, NoMemory>
        ensures runs { IfOk result (λ opened. IfSome opened (λ store. store.failed ≡ false)) }
        ensures opens { (indexes : ℕ) (e : Disk) → HoldsDisk self.old.tag indexes self.old.disk e
            → OpensStore self.old.tag indexes e self.new.disk result }
        ensures frame { self.new ≡ record self.old { disk = self.new.disk } }
    {
        match Store::open(&mut self.disk, FILE, &self.tag) {
            Ok(store) => Ok(Some(store)),
            Err(StoreError::OutOfMemory) => Err(NoMemory),
            Err(_) => {
                self.disk.crash(0);
                Ok(None)
            }
        }
    }

    /// The key with no index handed out. It is made again where a life has taken it.
    fn take_key(&mut self, alloc: Global, group: &Group) -> Result<SignKey, NoMemory>
        ensures key { (s : Setting) (kinds : Kinds) (place : Place) (spent : List Spent)
            → IsWorld s group.now kinds → HoldsHost s kinds place spent self.old
            → IfOk result
            (λ key. secret_of key ≡ owner_key group.now kinds (Some self.old.member)) }
        ensures fresh { IfOk result (λ key. IsNew key (secret_of key)) }
        ensures indexes { IfOk result
            (λ key. index_count (secret_of key) ≡ indexes_of self.old.kinds) }
        ensures own { self.old.public
            ≡ public_key (owner_key group.now self.old.kinds (Some self.old.member))
            → IfOk result (λ key. public_key (secret_of key) ≡ self.old.public) }
        ensures frame { self.new ≡ record self.old { key = None } }
    {
        if let Some(key) = self.key.take() {
            return Ok(key);
        }
        key_of(alloc, group, self.kinds, self.member.get())
    }
}

/// How the start of a node went whose key is not used up: none where the disk stopped.
fn start_of(started: Result<Node, NodeFault>) -> Result<Option<Node>, NoMemory>
    requires { IfErr started MayStop }
    ensures { IsStart started result }
{
    match started {
        Ok(node) => Ok(Some(node)),
        Err(NodeFault::StoreFault) => Ok(None),
        Err(NodeFault::OutOfMemory) => Err(NoMemory),
        Err(NodeFault::Exhausted { .. } | NodeFault::Ended) => unreachable!(),
    }
}

/// The life of a member's node begins over its store, which is open: its first note is signed; none where the disk stops in
/// that.
fn begin_node(
    alloc: Global,
    authority: &Authority,
    member: MemberId,
    key: SignKey,
    store: Store,
    disk: &mut MemoryDisk,
    events: &mut Events,
) -> Result<Option<Node>, NoMemory>
    requires runs { store.failed ≡ false }
    requires fresh { IsNew key (secret_of key) }
    requires left { store.state.next < index_count (secret_of key) }
    requires place { (kinds : Kinds)
        × IsPlaceOf authority.now kinds member (public_key (secret_of key)) }
    ensures going { IfOk result (λ node. IfSome node IsGoing) }
    ensures begins { (s : Setting) (kinds : Kinds) (tag : List ℕ) (e : Disk)
        → IsWorld s authority.now.group kinds → Certifies s authority.now
        → secret_of key ≡ owner_key authority.now.group kinds (Some member)
        → store ≡ record { state = e.state; seat = seat_of tag e; failed = false }
        → HoldsDisk tag s.indexes disk.old e → events.old ≡ []
        → BeginsNode s tag member e disk.new events.new result }
{
    let kit = authority.kit(alloc, member, store.state().next)?;
    let signer = Signer::open(*authority.group(), key, store);
    start_of(Node::start(alloc, kit, signer, disk, events))
}

impl Host {
    /// The store is open, and the key isn't used up: a life begins.
    fn begin_life(
        &mut self,
        alloc: Global,
        authority: &Authority,
        store: Store,
    ) -> Result<Started, NoMemory>
        requires runs { store.failed ≡ false }
        requires left { store.state.next < indexes_of self.old.kinds }
        requires place { IsPlaceOf authority.now self.old.kinds self.old.member self.old.public }
        ensures member { self.new.member ≡ self.old.member }
        ensures begins { (s : Setting) (kinds : Kinds) (place : Place)
            (spent : List Spent) → IsWorld s authority.now.group kinds
            → Certifies s authority.now
            → HoldsHost s kinds place spent self.old → place.current ≡ None
            → store ≡ record
            { state = place.disk.state; seat = seat_of self.old.tag place.disk; failed = false }
            → BeginsLife s kinds place spent self.new result }
    {
        let life = self.lives.checked_add(1).ok_or(NoMemory)?;
        let key = self.take_key(alloc, authority.group())?;
        let mut events = Events::new(alloc);
        let begun = begin_node(
            alloc,
            authority,
            self.member,
            key,
            store,
            &mut self.disk,
            &mut events,
        )?;
        match begun {
            Some(node) => {
                self.node = Some(node);
                self.lives = life;
                self.keep_bodies(events.as_slice())?;
                Ok(Started::Began { life, events })
            }
            None => {
                self.stop(0);
                Ok(Started::DiskStopped)
            }
        }
    }

    /// Starts the node, which is one of the authority's world and doesn't run: opens its store and begins a life, whose number
    /// and events are given. A stop of the disk in the middle, or a key that is used up, begins none. Once memory is refused,
    /// nothing is said of the place.
    pub fn start(&mut self, alloc: Global, authority: &Authority) -> Result<Started, NoMemory>
        requires { IsPlaceOf authority.now self.old.kinds self.old.member self.old.public }
        ensures member { self.new.member ≡ self.old.member }
        ensures starts { (s : Setting) (kinds : Kinds) (place : Place)
            (spent : List Spent) → IsWorld s authority.now.group kinds
            → Certifies s authority.now
            → HoldsHost s kinds place spent self.old → place.current ≡ None
            → StartsNode s kinds place spent self.new result }
    {
        let Some(store) = self.open_store()? else {
            return Ok(Started::DiskStopped);
        };
        let next = store.state().next;
        if next >= index_count_of(&self.kinds) {
            return Ok(Started::UsedUp { next });
        }
        self.begin_life(alloc, authority, store)
    }
}
