//! Floor: node. The signed records that a node holds: the last that was put under each key, the summaries of pages,
//! which are kept ready, and the bytes of as many as fit a room. Only records whose signature was checked are held.
//! `node_core` calls it.
#![tactic(auto)]

ghost use Rattle.std.specs.Prelude.{◌≡◌, ◌<◌, ◌≤◌, ◌++◌, IfOk, OnOk, OnErr, IsSome, All, take};
ghost use Rattle.std.specs.FinMap as map;
ghost use Rattle.ff_ids.specs.declared.TheConstants.{MAX_TOLERANCE};
ghost use Rattle.ff_ids.specs.declared.summary.RecordKey.TheVariants.{Accusation, Removal};
ghost use Rattle.records.specs.Signing.{IsChecked};
ghost use Rattle.record_set.specs.Held.{held_under, key_of, retired};
ghost use Rattle.record_set.specs.Pages.{summary_of};
ghost use Rattle.record_set.specs.Picks.{HasRing, held_all, spelled, fitting, IsLongestFit, IsFront};

pub mod laws;

use ff_ids::{MemberId, RecordKey, RingNo, Summary};
use fields::NoMemory;
use record_slots::Slots;
use records::{Checked, write_record};
use std::alloc::Global;
use std::marker::Model;

/// The records that a node holds. Contracts see the finite map from keys to records as they were checked.
#[derive(Drop)]
pub struct RecordSet {
    slots: Slots<Checked>,
}

impl Model for RecordSet {
    ghost use Rattle.std.specs.Coded.{codes};
    ghost use Rattle.std.specs.FinMap.{code};
    ghost use Rattle.record_set.specs.Held.{Held};

    ghost Value = { Held };

    ghost coded = { Prim.hlevel (codes, code) };

    ghost view = { λ s. s.slots };
}

impl RecordSet {
    /// Nothing is held. The room for all that may come, but for the signatures, is taken here.
    pub fn open(alloc: Global) -> Result<RecordSet, NoMemory>
        ensures { IfOk result (λ s. s ≡ map.empty) }
    {
        let slots = Slots::open(alloc)?;
        Ok(RecordSet { slots })
    }

    /// Holds the record in place of what its key held. The group that it was checked for has a tolerance of at
    /// most `MAX_TOLERANCE`, and the ring of an accusation is one of its rings.
    pub fn put(&mut self, rec: Checked)
        requires tolerance { rec.t ≤ MAX_TOLERANCE }
        requires ring { HasRing rec.t rec.rec.body }
        ensures held { self.new ≡ map.insert self.old (key_of rec.rec.body) rec }
        ensures checked { IsChecked rec }
    {
        // Looked at for what holds of it.
        rec.rec();
        self.slots.put(rec);
    }

    /// Holds no accusation against the member on this ring any more.
    pub fn drop_accusation(&mut self, accused: MemberId, ring: RingNo)
        ensures { self.new ≡ map.remove self.old (Accusation accused ring) }
    {
        self.slots.drop_accusation(accused, ring);
    }

    /// Holds no accusation by which the member was removed any more.
    pub fn drop_removal(&mut self, member: MemberId)
        ensures { self.new ≡ map.remove self.old (Removal member) }
    {
        self.slots.drop_removal(member);
    }

    /// Holds the accusation against the member on this ring as the one by which it was removed, in place of any
    /// such; where there is none, none of either.
    pub fn retire(&mut self, accused: MemberId, ring: RingNo)
        ensures { self.new ≡ retired self.old accused ring }
    {
        self.slots.retire(accused, ring);
    }

    /// Whether a record is held under the key.
    pub fn contains(&self, key: &RecordKey) -> bool
        ensures { result ≡ map.contains_key self.now key.now }
    {
        self.slots.contains(key)
    }

    /// Makes `out` the summary of the page: an entry for each member of it whose certificate is held.
    pub fn page(&self, page: u8, out: &mut Summary)
        ensures { out.new ≡ summary_of self.now page }
    {
        self.slots.page(page, out);
    }

    /// Appends the records under the keys, each of which has one, in their order, up to the first that would make
    /// them longer than the room, in bytes. The answer is how many there are. After want of memory `out` holds
    /// what it held and some of the first of them, each whole.
    pub fn pick(
        &self,
        keys: &[RecordKey],
        room: usize,
        out: &mut Vec<u8>,
    ) -> Result<usize, NoMemory>
        requires { All (λ k. IsSome (held_under self.now k)) keys.now }
        ensures count { IfOk result (λ n. n ≡ fitting room (held_all self.now keys.now)) }
        ensures bytes { IfOk result
            (λ n. out.new.items
            ≡ out.old.items ++ spelled (take n (held_all self.now keys.now))) }
        ensures few { IfOk result (λ n. n ≤ room) }
        ensures longest { IfOk result (λ n. IsLongestFit room (held_all self.now keys.now) n) }
        ensures checked { IfOk result (λ n. All IsChecked (take n (held_all self.now keys.now))) }
        ensures front { OnErr result
            (IsFront out.old.items out.new.items (held_all self.now keys.now)) }
    {
        let count = self.slots.fitting(keys, room);
        self.write_all(&keys[..count], out)?;
        Ok(count)
    }

    /// Appends the records under the keys, each of which has one, in their order. After want of memory `out` holds
    /// what it held and some of the first of them, each whole.
    fn write_all(&self, keys: &[RecordKey], out: &mut Vec<u8>) -> Result<(), NoMemory>
        requires { All (λ k. IsSome (held_under self.now k)) keys.now }
        ensures bytes { OnOk result
            (out.new.items ≡ out.old.items ++ spelled (held_all self.now keys.now)) }
        ensures checked { OnOk result (All IsChecked (held_all self.now keys.now)) }
        ensures front { OnErr result
            (IsFront out.old.items out.new.items (held_all self.now keys.now)) }
    {
        for key in keys {
            write_record(self.slots.get(key).unwrap().rec(), out)?;
        }
        Ok(())
    }
}
