//! Floor: node. What an audit knows of the records that a node holds: the last that was put under each key, the
//! summaries of pages, which are kept ready, and how many fit a room. Records that came are held as they were
//! checked, the node's own with the lengths of their signatures.
#![tactic(auto)]

ghost use Rattle.std.specs.Prelude.{◌≡◌, ◌≤◌, IfOk, IsSome, All};
ghost use Rattle.std.specs.Option.{option_copied};
ghost use Rattle.std.specs.FinMap as map;
ghost use Rattle.ff_ids.specs.declared.summary.RecordKey.TheVariants.{Accusation, Removal};
ghost use Rattle.record_slots.specs.Held.{held_under, key_of, retired, changed};
ghost use Rattle.record_slots.specs.Pages.{summary_of};
ghost use Rattle.record_slots.specs.Slots.{HasSlot};
ghost use Rattle.record_slots.specs.Picks.{held_all, fitting, IsLongestFit};
ghost use Rattle.audit_set.specs.Knowns.{body_of, long, shown};

mod known;

use ff_ids::{MemberId, RecordKey, RingNo, Summary};
use fields::NoMemory;
pub use known::{Known, Shown, Unseen};
use record_slots::Slots;
use std::alloc::Global;
use std::marker::Model;

/// What is known of the records that a node holds. Contracts see the finite map from keys to what is known.
#[derive(Drop)]
pub struct AuditSet {
    slots: Slots<Known>,
}

impl Model for AuditSet {
    ghost use Rattle.std.specs.Coded.{codes};
    ghost use Rattle.std.specs.FinMap.{code};
    ghost use Rattle.audit_set.specs.Sets.{HeldKnown};

    ghost Value = { HeldKnown };

    ghost coded = { Prim.hlevel (codes, code) };

    ghost view = { λ s. s.slots };
}

impl AuditSet {
    /// Nothing is held. The room for all that may come, but for the signatures, is taken here.
    pub fn open(alloc: Global) -> Result<AuditSet, NoMemory>
        ensures { IfOk result (λ s. s ≡ map.empty) }
    {
        let slots = Slots::open(alloc)?;
        Ok(AuditSet { slots })
    }

    /// Holds this in place of what its key held. The ring of an accusation is one of those that a mask has.
    pub fn put(&mut self, known: Known)
        requires { HasSlot (key_of (body_of known)) }
        ensures { self.new ≡ map.insert self.old (key_of (body_of known)) known }
    {
        self.slots.put(known);
    }

    /// Holds no accusation against the member on this ring any more.
    pub fn drop_accusation(&mut self, accused: MemberId, ring: RingNo)
        ensures { self.new ≡ map.remove self.old (Accusation accused ring) }
    {
        self.slots.drop_accusation(accused, ring);
    }

    /// Holds no accusation by which the member was removed any more.
    pub fn drop_removal(&mut self, member: MemberId)
        ensures { self.new ≡ map.remove self.old (Removal member) }
    {
        self.slots.drop_removal(member);
    }

    /// Holds the accusation against the member on this ring as the one by which it was removed, in place of any
    /// such; where there is none, none of either.
    pub fn retire(&mut self, accused: MemberId, ring: RingNo)
        ensures { self.new ≡ retired self.old accused ring }
    {
        self.slots.retire(accused, ring);
    }

    /// Whether something is held under the key.
    pub fn contains(&self, key: &RecordKey) -> bool
        ensures { result ≡ map.contains_key self.now key.now }
    {
        self.slots.contains(key)
    }

    /// What is held under the key, if anything is.
    pub fn get(&self, key: &RecordKey) -> Option<&Known>
        ensures { option_copied result ≡ held_under self.now key.now }
    {
        self.slots.get(key)
    }

    /// A line has shown the signature with this index, of so many bytes: the node's own records with the index are
    /// held with that length, under whichever keys.
    pub fn show(&mut self, index: u32, length: u16)
        ensures { self.new ≡ changed (shown (record { index = index; length = length })) self.old }
    {
        self.slots.learn(&Shown { index, length });
    }

    /// Makes `out` the summary of the page: an entry for each member of it whose certificate is held.
    pub fn page(&self, page: u8, out: &mut Summary)
        ensures { out.new ≡ summary_of body_of self.now page }
    {
        self.slots.page(page, out);
    }

    /// How many of the records under the keys, each of which has one, fit into the room, in bytes, one behind the
    /// other in their order, up to the first that doesn't.
    pub fn fitting(&self, keys: &[RecordKey], room: usize) -> usize
        requires { All (λ k. IsSome (held_under self.now k)) keys.now }
        ensures count { result ≡ fitting long room (held_all self.now keys.now) }
        ensures few { result ≤ room }
        ensures longest { IsLongestFit long room (held_all self.now keys.now) result }
    {
        self.slots.fitting(keys, room)
    }
}
