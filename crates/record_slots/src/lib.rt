//! Floor: node. What is held of records by their keys: the last that was put under each, the summaries of pages,
//! which are kept ready, and how many fit a room. What is kept is of any type that tells what its record says and how
//! long it is. `record_set` and `audit_set` call it.
#![tactic(auto)]

ghost use Rattle.std.specs.Prelude.{◌≡◌, ℕ, ◌<◌, ◌≤◌, IfOk, IsSome, is_some, All, length};
ghost use Rattle.std.specs.Option.{option_copied};
ghost use Rattle.std.specs.FinMap as map;
ghost use Rattle.ff_ids.specs.declared.summary.RecordKey.TheVariants.{Accusation, Removal};
ghost use Rattle.record_slots.specs.Held.{held_under, key_of, retired, changed};
ghost use Rattle.record_slots.specs.Pages.{summary_of};
ghost use Rattle.record_slots.specs.Slots.{HasSlot};
ghost use Rattle.record_slots.specs.Picks.{held_all, fitting, IsLongestFit};

mod layout;
mod lengths;
mod slotted;

use ff_ids::{MemberId, PAGE_MEMBERS, PAGES, RecordKey, RingNo, Summary, SummaryEntry};
use fields::NoMemory;
use layout::{
    SLOTS, clear, fresh_entry, has_slot, kept_in, key_of, learn_all, member_of, no_entries,
    push_certified, reach, slot_of,
};
pub use lengths::body_length;
pub use slotted::{Learns, Slotted};
use std::alloc::Global;
use std::marker::Model;

/// What is held of records. Contracts see the finite map from keys to what is held.
#[derive(Drop)]
pub struct Slots<R: Slotted> {
    slots: Vec<Option<R>>,
    entries: Vec<SummaryEntry>,
}

impl<R: Slotted> Model for Slots<R> {
    ghost use Rattle.std.specs.Coded.{codes};
    ghost use Rattle.std.specs.FinMap.{code};
    ghost use Rattle.std.specs.Prelude.{◌≤◌, vec_capacity};
    ghost use Rattle.record_slots.specs.declared.layout.TheConstants.{SLOTS};
    ghost use Rattle.record_slots.specs.Held.{HeldOf};
    ghost use Rattle.record_slots.specs.Slots.{held_in, IsReady};

    ghost Value = { HeldOf R };

    ghost coded = { Prim.hlevel (codes, code, R.code) };

    ghost view = { λ s. held_in s.slots.items };

    ghost invariant = { λ s. IsReady R.body s.slots.items s.entries.items
        × (SLOTS ≤ vec_capacity s.slots) };
}

impl<R: Slotted> Slots<R> {
    /// Nothing is held. The room for all that may come is taken here, but for what it owns.
    pub fn open(alloc: Global) -> Result<Slots<R>, NoMemory>
        ensures { IfOk result (λ s. s ≡ map.empty) }
    {
        let slots = Vec::with_capacity(alloc, SLOTS)?;
        let entries = no_entries(alloc)?;
        Ok(Slots { slots, entries })
    }

    /// Holds this in place of what its key held. The ring of an accusation is one of those that a mask has.
    pub fn put(&mut self, kept: R)
        requires { HasSlot (key_of (R.body kept)) }
        ensures { self.new ≡ map.insert self.old (key_of (R.body kept)) kept }
    {
        let key = key_of(kept.body());
        self.hold(&key, kept);
    }

    /// Holds no accusation against the member on this ring any more.
    pub fn drop_accusation(&mut self, accused: MemberId, ring: RingNo)
        ensures { self.new ≡ map.remove self.old (Accusation accused ring) }
    {
        self.take_out(&RecordKey::Accusation(accused, ring));
    }

    /// Holds no accusation by which the member was removed any more.
    pub fn drop_removal(&mut self, member: MemberId)
        ensures { self.new ≡ map.remove self.old (Removal member) }
    {
        self.take_out(&RecordKey::Removal(member));
    }

    /// Holds the accusation against the member on this ring as the one by which it was removed, in place of any
    /// such; where there is none, none of either.
    pub fn retire(&mut self, accused: MemberId, ring: RingNo)
        ensures { self.new ≡ retired self.old accused ring }
    {
        match self.take_out(&RecordKey::Accusation(accused, ring)) {
            Some(kept) => self.hold(&RecordKey::Removal(accused), kept),
            None => self.drop_removal(accused),
        }
    }

    /// Whether something is held under the key.
    pub fn contains(&self, key: &RecordKey) -> bool
        ensures { result ≡ map.contains_key self.now key.now }
    {
        self.get(key).is_some()
    }

    /// What is held under the key, if anything is.
    pub fn get(&self, key: &RecordKey) -> Option<&R>
        ensures value { option_copied result ≡ held_under self.now key.now }
        ensures variant { is_some result ≡ is_some (held_under self.now key.now) }
    {
        if has_slot(key) {
            kept_in(&self.slots, slot_of(key))
        } else {
            None
        }
    }

    /// Holds this in place of what the key held.
    fn hold(&mut self, key: &RecordKey, kept: R)
        requires { HasSlot key.now }
        ensures { self.new ≡ map.insert self.old key.now kept }
    {
        let member = member_of(key);
        let slot = slot_of(key);
        reach(&mut self.slots, slot);
        self.slots[slot] = Some(kept);
        self.entries[member.get() as usize] = fresh_entry(&self.slots, member);
    }

    /// Holds nothing under the key any more; the answer is what it held.
    fn take_out(&mut self, key: &RecordKey) -> Option<R>
        ensures held { self.new ≡ map.remove self.old key.now }
        ensures taken { result ≡ held_under self.old key.now }
    {
        if has_slot(key) {
            let member = member_of(key);
            let taken = clear(&mut self.slots, slot_of(key));
            self.entries[member.get() as usize] = fresh_entry(&self.slots, member);
            taken
        } else {
            None
        }
    }

    /// Makes `out` the summary of the page: an entry for each member of it whose certificate is held.
    pub fn page(&self, page: u8, out: &mut Summary)
        ensures { out.new ≡ summary_of R.body self.now page }
    {
        *out = Summary::new();
        out.page = page;
        if page < PAGES {
            let count = PAGE_MEMBERS as usize;
            push_certified(
                &self.slots,
                &self.entries,
                count * page as usize,
                count,
                out,
            );
        }
    }

    /// How many of the records under the keys, each of which has one, fit into the room, in bytes, one behind the
    /// other in their order, up to the first that doesn't.
    pub fn fitting(&self, keys: &[RecordKey], room: usize) -> usize
        requires { All (λ k. IsSome (held_under self.now k)) keys.now }
        ensures count { result ≡ fitting R.spelled_length room (held_all self.now keys.now) }
        ensures within { result ≤ length keys.now }
        ensures longest { IsLongestFit R.spelled_length room (held_all self.now keys.now) result }
    {
        let mut left = room;
        for (count, key) in keys.iter().enumerate() {
            let length = self.get(key).unwrap().spelled_length();
            if length > left {
                return count;
            }
            left -= length;
        }
        keys.len()
    }
}

impl<R: Learns> Slots<R> {
    /// Tells all that is held the news.
    pub fn learn(&mut self, news: &R::News)
        ensures { self.new ≡ changed (R.learned news.now) self.old }
    {
        learn_all(&mut self.slots, news);
    }
}
