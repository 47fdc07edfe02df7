//! The places of those that have joined, by number.

ghost use Rattle.std.specs.Prelude.{◌≡◌, ℕ, ◌+◌, ◌<◌, ◌≤◌, true, None, Some, length, is_some, slice_index_or, slice_set, vec_capacity, IfOk, IfSome};
ghost use Rattle.std.specs.Option.{IsSomeAnd};
ghost use Rattle.ff_ids.specs.declared.TheConstants.{MEMBERS};
ghost use Rattle.ff_ids.specs.Rings.{is_below};
ghost use Rattle.ff_ids.specs.Views.{key_at};
ghost use Rattle.monitor_rule.specs.Sorted.{key_in, numbers_in};

use ff_ids::{MAX_RINGS, MEMBERS, MemberId, RingNo};
use ring_order::steps::Steps;
use ring_order::{Places, is_telling, key_before, number_places};
use std::alloc::{AllocError, Global};
use std::marker::Model;
use std::sync::ledger::Ledger;

/// Places of a member that their hints tell. Contracts see the list of the places.
#[derive(Drop)]
struct Hints {
    count: u8,
    list: [u32; MAX_RINGS as usize],
}

impl Model for Hints {
    ghost use Rattle.std.specs.Prelude.{ℕ, List, ◌≤◌, map, take};
    ghost use Rattle.ff_ids.specs.declared.TheConstants.{MAX_RINGS};
    ghost use Rattle.ring_order.specs.Rows.{place_of_number};

    ghost Value = { List (List ℕ) };

    ghost view = { λ h. map place_of_number (take h.count h.list) };

    ghost invariant = { λ h. h.count ≤ MAX_RINGS };
}

impl Hints {
    /// The places by their hints, if each of these tells.
    fn of(places: &Places) -> Option<Hints>
        ensures { IfSome result (λ h. h ≡ places.now) }
    {
        let mut list = [0; MAX_RINGS as usize];
        let count = places.rings();
        for ring in 0..count {
            let hint = places.hint(RingNo(ring));
            if !is_telling(hint) {
                return None;
            }
            list[ring as usize] = hint;
        }
        Some(Hints { count, list })
    }

    fn places(&self) -> Places
        ensures { result ≡ self.now }
    {
        number_places(&self.list[..self.count as usize])
    }
}

/// The places of those that have joined, found by number at once. Where their hints tell all places of a member, these alone
/// are kept, in a tenth of the memory. Contracts see a list with a slot for each number.
#[derive(Drop)]
pub struct Slots {
    /// By number, of each that has joined and whose hints tell.
    hinted: Vec<Option<Hints>>,
    /// By number, of each other that has joined, up to the greatest at which one did.
    whole: Vec<Option<Places>>,
}

impl Model for Slots {
    ghost use Rattle.std.specs.Prelude.{ℕ, List, Option, vec_capacity};
    ghost use Rattle.monitor_rule.specs.Slots.{HasSlots, slots_of};

    ghost Value = { List (Option (List (List ℕ))) };

    ghost view = { λ s. slots_of s.hinted.items s.whole.items };

    ghost invariant = { λ s. HasSlots s.hinted.items s.whole.items (vec_capacity s.whole) };
}

/// Makes the slots reach this one, for which they have room. Those that are new are empty.
fn reach(slots: &mut Vec<Option<Places>>, index: usize)
    requires within { index < MEMBERS }
    requires few { length slots.old.items ≤ MEMBERS }
    requires room { MEMBERS ≤ vec_capacity slots.old }
    ensures reached { index < length slots.new.items }
    ensures few { length slots.new.items ≤ MEMBERS }
    ensures room { MEMBERS ≤ vec_capacity slots.new }
    ensures same { (n : ℕ) → slice_index_or slots.new.items n None
        ≡ slice_index_or slots.old.items n None }
{
    'growing: while slots.len() <= index {
        slots.push_reserved(None);
    }
}

/// The places in a slot that is filled.
fn filled_at(slots: &[Option<Places>], index: usize) -> &Places
    requires within { index < length slots.now }
    requires filled { is_some (slice_index_or slots.now index None) ≡ true }
    ensures { slice_index_or slots.now index None ≡ Some result.now }
{
    match &slots[index] {
        Some(places) => places,
        None => unreachable!(),
    }
}

impl Slots {
    /// Nobody has joined. The room for every member is taken here.
    pub fn new(alloc: Global) -> Result<Slots, AllocError>
        ensures long { IfOk result (λ s. length s ≡ MEMBERS) }
        ensures none { IfOk result (λ s. (n : ℕ) → slice_index_or s n None ≡ None) }
    {
        let mut hinted = Vec::with_capacity(alloc, MEMBERS as usize)?;
        for _number in 0..MEMBERS {
            hinted.push(None)?;
        }
        Ok(Slots {
            hinted,
            whole: Vec::with_capacity(alloc, MEMBERS as usize)?,
        })
    }

    /// Fills the slot of the member.
    pub fn fill(&mut self, member: MemberId, places: &Places)
        requires free { slice_index_or self.old member None ≡ None }
        ensures value { self.new ≡ slice_set self.old member (Some places.now) }
        ensures range { member < MEMBERS }
    {
        let index = member.get() as usize;
        match Hints::of(places) {
            Some(hints) => self.hinted[index] = Some(hints),
            None => {
                reach(&mut self.whole, index);
                self.whole[index] = Some(*places);
            }
        }
    }

    /// Empties the slot of the member.
    pub fn empty(&mut self, member: MemberId)
        ensures value { self.new ≡ slice_set self.old member None }
        ensures range { member < MEMBERS }
    {
        let index = member.get() as usize;
        self.hinted[index] = None;
        if index < self.whole.len() {
            self.whole[index] = None;
        }
    }

    /// Empties the slots of these numbers, which are those of all that are filled.
    pub fn forget(&mut self, numbers: &[MemberId])
        requires long { length self.old ≡ MEMBERS }
        requires all { numbers.now ≡ numbers_in self.old }
        ensures long { length self.new ≡ length self.old }
        ensures none { (n : ℕ) → slice_index_or self.new n None ≡ None }
    {
        for number in numbers {
            self.empty(*number);
        }
    }

    /// Whether a member that has joined comes before the other one on the ring. It counts one step.
    pub fn is_before<L: Ledger>(
        &self,
        ring: RingNo,
        joined: MemberId,
        member: MemberId,
        places: &Places,
        steps: &mut Steps<L>,
    ) -> bool
        requires joined { IsSomeAnd (slice_index_or self.now joined None)
            (λ own. ring.0 < length own) }
        requires placed { ring.0 < length places.now }
        ensures value { result
            ≡ is_below (key_in self.now ring.0 joined) (key_at ring.0 places.now member) }
        ensures step { steps.new ≡ steps.old + 1 }
    {
        let index = joined.get() as usize;
        match &self.hinted[index] {
            Some(hints) => key_before(ring, &hints.places(), joined, places, member, steps),
            None => {
                let own = filled_at(&self.whole, index);
                key_before(ring, own, joined, places, member, steps)
            }
        }
    }
}
