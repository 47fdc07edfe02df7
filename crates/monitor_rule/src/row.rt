//! One ring: the joined members in order of their keys there, found by halving.

ghost use Rattle.std.specs.Prelude.{◌≡◌, ℕ, List, Option, ◌+◌, ◌-◌, ◌*◌, ◌/◌, ◌^◌, ◌<◌, ◌≤◌, ◌==◌, true, None, Some, [], length, is_some, slice_index, slice_index_or, slice_set, vec_capacity, IfOk, if◌then◌else◌};
ghost use Rattle.std.specs.Option.{IsSomeAnd};
ghost use Rattle.ff_ids.specs.declared.TheConstants.{MEMBERS};
ghost use Rattle.ff_ids.specs.Rings.{Key, is_below, nearest_before as number_before, nearest_after as number_after};
ghost use Rattle.ff_ids.specs.Views.{key_at};
ghost use Rattle.ring_order.specs.Ranks.{Ranked};
ghost use Rattle.monitor_rule.specs.Joined.{keys_on};
ghost use Rattle.monitor_rule.specs.Sorted.{places_at, members_from, key_in, key_of_index, hint_on, IsRow, IsBetween};

use crate::slots::Slots;
use ff_ids::{MEMBERS, MemberId, RingNo};
use ring_order::steps::Steps;
use ring_order::{Places, Rank, is_telling};
use std::alloc::{AllocError, Global};
use std::marker::{Brand, Model};
use std::sync::ledger::{Blank, Ledger};

/// The members that have joined, in order of their keys on one ring.
#[derive(Drop)]
pub struct Row {
    ring: RingNo,
    order: Vec<MemberId>,
    /// By number the hint of the member's place beside the number, for each that has joined, up to the greatest that did.
    ranks: Vec<Rank>,
    /// Whether each of these hints tells.
    told: bool,
    /// Where in the order the last member joined.
    near: usize,
}

impl Model for Row {
    ghost use Rattle.std.specs.Prelude.{◌≡◌, ◌≤◌, length, vec_capacity};
    ghost use Rattle.ff_ids.specs.declared.TheConstants.{MEMBERS};
    ghost use Rattle.monitor_rule.specs.Sorted.{RingOrder};

    ghost Value = { RingOrder };

    ghost view = { λ r. record
        { ring = r.ring.0; order = r.order.items; ranks = r.ranks.items; told = r.told } };

    ghost invariant = { λ r. (MEMBERS ≤ vec_capacity r.order)
        × ((MEMBERS ≤ vec_capacity r.ranks) × (length r.ranks.items ≤ MEMBERS)) };
}

/// The second of two numbers where `behind` is 1, and the first where it is 0. It is reckoned, and no branch tells it.
#[inline]
fn one_of(behind: usize, near: usize, far: usize) -> usize
    requires { behind ≤ 1 }
    ensures { result ≡ (if behind == 1 then far else near) }
{
    near.wrapping_add(far.wrapping_sub(near).wrapping_mul(behind))
}

/// Makes the list reach this member, for which it has room.
fn reach(ranks: &mut Vec<Rank>, member: MemberId)
    requires few { length ranks.old.items ≤ MEMBERS }
    requires room { MEMBERS ≤ vec_capacity ranks.old }
    ensures reached { member < length ranks.new.items }
    ensures few { length ranks.new.items ≤ MEMBERS }
    ensures room { MEMBERS ≤ vec_capacity ranks.new }
    ensures same { (n : ℕ) (d : Ranked) → n < length ranks.old.items
        → slice_index_or ranks.new.items n d ≡ slice_index_or ranks.old.items n d }
{
    'growing: while ranks.len() <= member.get() as usize {
        ranks.push_reserved(Rank::new(0, member));
    }
}

impl Row {
    /// Nobody has joined yet. The room for every member is taken here.
    pub fn open(alloc: Global, ring: RingNo) -> Result<Row, AllocError>
        ensures ring { IfOk result (λ r. r.ring ≡ ring.0) }
        ensures nobody { IfOk result (λ r. r.order ≡ []) }
    {
        Ok(Row {
            ring,
            order: Vec::with_capacity(alloc, MEMBERS as usize)?,
            ranks: Vec::with_capacity(alloc, MEMBERS as usize)?,
            told: true,
            near: 0,
        })
    }

    /// Puts in a member that isn't there, at its place. The slots are those before it joins.
    pub fn join(&mut self, place: usize, slots: &Slots, member: MemberId, places: &Places)
        requires in_order { IsRow slots.now self.old }
        requires long { length slots.now ≡ MEMBERS }
        requires number { member < MEMBERS }
        requires free { places_at slots.now member ≡ None }
        requires placed { self.old.ring < length places.now }
        requires found { IsBetween slots.now self.old (key_at self.old.ring places.now member) place
            place }
        ensures in_order { IsRow (slice_set slots.now member (Some places.now)) self.new }
        ensures ring { self.new.ring ≡ self.old.ring }
    {
        let hint = places.hint(self.ring);
        let _ = self.order.insert(place, member);
        reach(&mut self.ranks, member);
        self.ranks[member.get() as usize] = Rank::new(hint, member);
        self.told &= is_telling(hint);
        self.near = place;
    }

    /// Takes out a member that is there, at its place. The slots are those before it leaves.
    pub fn leave(&mut self, place: usize, _slots: &Slots, _member: MemberId, _places: &Places)
        requires in_order { IsRow _slots.now self.old }
        requires long { length _slots.now ≡ MEMBERS }
        requires number { _member < MEMBERS }
        requires there { places_at _slots.now _member ≡ Some _places.now }
        requires found { IsBetween _slots.now self.old (key_at self.old.ring _places.now _member) place
            place }
        ensures in_order { IsRow (slice_set _slots.now _member None) self.new }
        ensures ring { self.new.ring ≡ self.old.ring }
    {
        let _ = self.order.remove(place);
    }

    /// Takes out everybody.
    pub fn clear(&mut self)
        ensures { self.new ≡ record self.old { order = []; told = true } }
    {
        self.order.clear();
        self.told = true;
    }

    /// The nearest joined member before this one, or none where no other has joined.
    pub fn before<L: Ledger>(
        &self,
        slots: &Slots,
        member: MemberId,
        places: &Places,
        steps: &mut Steps<L>,
    ) -> Option<MemberId>
        requires in_order { IsRow slots.now self.now }
        requires long { length slots.now ≡ MEMBERS }
        requires placed { self.now.ring < length places.now }
        ensures value { result
            ≡ number_before (keys_on self.now.ring (members_from 0 slots.now))
            (key_at self.now.ring places.now member) }
        ensures counted { steps.old ≤ steps.new }
        ensures most { 2 ^ (steps.new - steps.old) ≤ 2 * length self.now.order + 1 }
        ensures least { length self.now.order + 2 ≤ 2 * 2 ^ (steps.new - steps.old) }
    {
        let place = self.search(slots, member, places, true, steps);
        if self.order.is_empty() {
            return None;
        }
        let first = self.back(place);
        self.first_other(first, self.back(first), member)
    }

    /// The nearest joined member after this one, or none where no other has joined.
    pub fn after<L: Ledger>(
        &self,
        slots: &Slots,
        member: MemberId,
        places: &Places,
        steps: &mut Steps<L>,
    ) -> Option<MemberId>
        requires in_order { IsRow slots.now self.now }
        requires long { length slots.now ≡ MEMBERS }
        requires placed { self.now.ring < length places.now }
        ensures value { result
            ≡ number_after (keys_on self.now.ring (members_from 0 slots.now))
            (key_at self.now.ring places.now member) }
        ensures counted { steps.old ≤ steps.new }
        ensures most { 2 ^ (steps.new - steps.old) ≤ 2 * length self.now.order + 1 }
        ensures least { length self.now.order + 2 ≤ 2 * 2 ^ (steps.new - steps.old) }
    {
        let place = self.search(slots, member, places, true, steps);
        self.behind(place, member)
    }

    /// As `after`, of which no step counts. The member's place is looked for where it was last, and told.
    pub fn after_near<L: Ledger>(
        &self,
        slots: &Slots,
        member: MemberId,
        places: &Places,
        near: &mut usize,
        steps: &mut Steps<L>,
    ) -> Option<MemberId>
        requires in_order { IsRow slots.now self.now }
        requires long { length slots.now ≡ MEMBERS }
        requires placed { self.now.ring < length places.now }
        ensures { result
            ≡ number_after (keys_on self.now.ring (members_from 0 slots.now))
            (key_at self.now.ring places.now member) }
    {
        *near = self.place_near(slots, *near, member, places, steps);
        self.behind(*near, member)
    }

    /// As `after`, of which no step counts. The member's place is looked for first where the last member joined.
    pub fn after_last<L: Ledger>(
        &self,
        slots: &Slots,
        member: MemberId,
        places: &Places,
        steps: &mut Steps<L>,
    ) -> Option<MemberId>
        requires in_order { IsRow slots.now self.now }
        requires long { length slots.now ≡ MEMBERS }
        requires placed { self.now.ring < length places.now }
        ensures { result
            ≡ number_after (keys_on self.now.ring (members_from 0 slots.now))
            (key_at self.now.ring places.now member) }
    {
        let place = self.place_near(slots, self.near, member, places, steps);
        self.behind(place, member)
    }

    /// The member from this place on, going round, that is another than this one.
    fn behind(&self, place: usize, member: MemberId) -> Option<MemberId>
        requires within { place ≤ length self.now.order }
        ensures { (slots : List (Option (List (List ℕ)))) (q : Key) → IsRow slots self.now
            → IsBetween slots self.now q place place → q.number ≡ member
            → result ≡ number_after (keys_on self.now.ring (members_from 0 slots)) q }
    {
        if self.order.is_empty() {
            return None;
        }
        let first = self.round(place);
        self.first_other(first, self.round(first + 1), member)
    }

    /// The index before this one, going round.
    fn back(&self, index: usize) -> usize
        requires some { 0 < length self.now.order }
        requires within { index ≤ length self.now.order }
        ensures value { result ≡ (if index == 0 then length self.now.order - 1 else index - 1) }
        ensures range { result < length self.now.order }
    {
        if index == 0 {
            self.order.len() - 1
        } else {
            index - 1
        }
    }

    /// The index itself, or the first one where it is behind the last.
    fn round(&self, index: usize) -> usize
        requires some { 0 < length self.now.order }
        requires within { index ≤ length self.now.order }
        ensures value { result ≡ (if index == length self.now.order then 0 else index) }
        ensures range { result < length self.now.order }
    {
        if index == self.order.len() { 0 } else { index }
    }

    /// The first of the members at two indexes that isn't this one.
    fn first_other(&self, first: usize, second: usize, member: MemberId) -> Option<MemberId>
        requires first { first < length self.now.order }
        requires second { second < length self.now.order }
        ensures { result
            ≡ (if slice_index self.now.order first == member then
            (if slice_index self.now.order second == member then None else Some
            (slice_index self.now.order second)) else Some (slice_index self.now.order first)) }
    {
        let other = self.order[first];
        if other != member {
            return Some(other);
        }
        let other = self.order[second];
        if other != member { Some(other) } else { None }
    }

    /// How many of the ring's members come before this one, found in a ledger of its own.
    pub fn place_of(&self, slots: &Slots, member: MemberId, places: &Places) -> usize
        requires in_order { IsRow slots.now self.now }
        requires long { length slots.now ≡ MEMBERS }
        requires placed { self.now.ring < length places.now }
        ensures { IsBetween slots.now self.now (key_at self.now.ring places.now member) result
            result }
    {
        self.place_in::<Brand>(Blank::new(1), slots, member, places)
    }

    fn place_in<L: Ledger>(
        &self,
        blank: Blank,
        slots: &Slots,
        member: MemberId,
        places: &Places,
    ) -> usize
        requires name { blank.name ≡ L.name }
        requires parts { blank.parts ≡ L.parts }
        requires some { 0 < blank.parts }
        requires in_order { IsRow slots.now self.now }
        requires long { length slots.now ≡ MEMBERS }
        requires placed { self.now.ring < length places.now }
        ensures { IsBetween slots.now self.now (key_at self.now.ring places.now member) result
            result }
    {
        self.search(slots, member, places, false, &mut Steps::<L>::open(blank))
    }

    /// How many of the ring's members come before this one. Each step halves what is left. Where the search is alone, its
    /// steps wait for less and do more; several, one for each ring, wait together, and what they do counts.
    fn search<L: Ledger>(
        &self,
        slots: &Slots,
        member: MemberId,
        places: &Places,
        alone: bool,
        steps: &mut Steps<L>,
    ) -> usize
        requires in_order { IsRow slots.now self.now }
        requires long { length slots.now ≡ MEMBERS }
        requires placed { self.now.ring < length places.now }
        ensures place { IsBetween slots.now self.now (key_at self.now.ring places.now member) result
            result }
        ensures counted { steps.old ≤ steps.new }
        ensures most { 2 ^ (steps.new - steps.old) ≤ 2 * length self.now.order + 1 }
        ensures least { length self.now.order + 2 ≤ 2 * 2 ^ (steps.new - steps.old) }
    {
        let hint = places.hint(self.ring);
        let count = self.order.len();
        self.halve(slots, 0, count, member, places, hint, alone, steps)
    }

    /// Whether the member is at the index, with this place.
    fn is_at(&self, slots: &Slots, index: usize, member: MemberId, places: &Places) -> bool
        requires in_order { IsRow slots.now self.now }
        requires long { length slots.now ≡ MEMBERS }
        requires placed { self.now.ring < length places.now }
        ensures { result ≡ true
            → IsBetween slots.now self.now (key_at self.now.ring places.now member) index index }
    {
        let _ = slots;
        if !self.told || self.order.len() <= index {
            return false;
        }
        let other = self.order[index];
        other == member && self.ranks[other.get() as usize].hint() == places.hint(self.ring)
    }

    /// As `search`. Where the member is at this index no step is made.
    fn place_near<L: Ledger>(
        &self,
        slots: &Slots,
        near: usize,
        member: MemberId,
        places: &Places,
        steps: &mut Steps<L>,
    ) -> usize
        requires in_order { IsRow slots.now self.now }
        requires long { length slots.now ≡ MEMBERS }
        requires placed { self.now.ring < length places.now }
        ensures { IsBetween slots.now self.now (key_at self.now.ring places.now member) result
            result }
    {
        if self.is_at(slots, near, member, places) {
            return near;
        }
        self.search_near(slots, near, member, places, steps)
    }

    /// As `search`. Two steps are enough where this index is the place.
    fn search_near<L: Ledger>(
        &self,
        slots: &Slots,
        near: usize,
        member: MemberId,
        places: &Places,
        steps: &mut Steps<L>,
    ) -> usize
        requires in_order { IsRow slots.now self.now }
        requires long { length slots.now ≡ MEMBERS }
        requires placed { self.now.ring < length places.now }
        ensures { IsBetween slots.now self.now (key_at self.now.ring places.now member) result
            result }
    {
        let hint = places.hint(self.ring);
        let before = near.saturating_sub(1);
        let count = self.order.len();
        let (low, high) = self.split_at(slots, 0, before, count, member, places, hint, steps);
        let (low, high) = self.split_at(slots, low, near, high, member, places, hint, steps);
        self.halve(slots, low, high - low, member, places, hint, false, steps)
    }

    /// How many of the ring's members come before this one: those up to an index do, and of those behind it so many at
    /// most. How many steps it takes is told by how many these are, and not by which of them do.
    fn halve<L: Ledger>(
        &self,
        slots: &Slots,
        from: usize,
        count: usize,
        member: MemberId,
        places: &Places,
        hint: u32,
        alone: bool,
        steps: &mut Steps<L>,
    ) -> usize
        requires in_order { IsRow slots.now self.now }
        requires long { length slots.now ≡ MEMBERS }
        requires placed { self.now.ring < length places.now }
        requires hinted { hint ≡ hint_on self.now.ring places.now }
        requires between { IsBetween slots.now self.now (key_at self.now.ring places.now member)
            from (from + count) }
        ensures place { IsBetween slots.now self.now (key_at self.now.ring places.now member) result
            result }
        ensures counted { steps.old ≤ steps.new }
        ensures most { 2 ^ (steps.new - steps.old) ≤ 2 * count + 1 }
        ensures least { count < 2 ^ (steps.new - steps.old) }
    {
        if !self.told || !is_telling(hint) {
            self.halve_by_places(slots, from, count, member, places, hint, steps)
        } else if alone {
            self.halve_ahead(slots, from, count, member, places, hint, steps)
        } else {
            self.halve_by_hints(slots, from, count, member, places, hint, steps)
        }
    }

    /// As `halve`, where hints tell.
    fn halve_by_hints<L: Ledger>(
        &self,
        slots: &Slots,
        from: usize,
        count: usize,
        member: MemberId,
        places: &Places,
        hint: u32,
        steps: &mut Steps<L>,
    ) -> usize
        requires in_order { IsRow slots.now self.now }
        requires long { length slots.now ≡ MEMBERS }
        requires hinted { hint ≡ hint_on self.now.ring places.now }
        requires told { self.now.told ≡ true }
        requires tells { hint < 2 ^ 32 - 1 }
        requires between { IsBetween slots.now self.now (key_at self.now.ring places.now member)
            from (from + count) }
        ensures place { IsBetween slots.now self.now (key_at self.now.ring places.now member) result
            result }
        ensures counted { steps.old ≤ steps.new }
        ensures most { 2 ^ (steps.new - steps.old) ≤ 2 * count + 1 }
        ensures least { count < 2 ^ (steps.new - steps.old) }
    {
        let mut low = from;
        let mut left = count;
        while 0 < left {
            low += self.skipped_by_hints(slots, low, left, member, places, hint, steps);
            left /= 2;
        }
        low
    }

    /// As `halve_by_hints`, for a search that is the only one: it waits for as little as it can, and does more.
    fn halve_ahead<L: Ledger>(
        &self,
        slots: &Slots,
        from: usize,
        count: usize,
        member: MemberId,
        places: &Places,
        hint: u32,
        steps: &mut Steps<L>,
    ) -> usize
        requires in_order { IsRow slots.now self.now }
        requires long { length slots.now ≡ MEMBERS }
        requires hinted { hint ≡ hint_on self.now.ring places.now }
        requires told { self.now.told ≡ true }
        requires tells { hint < 2 ^ 32 - 1 }
        requires between { IsBetween slots.now self.now (key_at self.now.ring places.now member)
            from (from + count) }
        ensures place { IsBetween slots.now self.now (key_at self.now.ring places.now member) result
            result }
        ensures counted { steps.old ≤ steps.new }
        ensures most { 2 ^ (steps.new - steps.old) ≤ 2 * count + 1 }
        ensures least { count < 2 ^ (steps.new - steps.old) }
    {
        // A list of members is short enough for the sums.
        let _ = &self.order;
        if count == 0 {
            return from;
        }
        let mut low = from;
        let mut left = count;
        let mut other = self.middle(low, left);
        while 1 < left {
            let half = left - left / 2;
            // Both are looked up before it is told which comes next, so that no step waits for a look at the order.
            let near = self.middle(low, left / 2);
            let far = self.middle(low + half, left / 2);
            let behind = self.is_middle_behind(
                slots, low, left, other, member, places, hint, steps,
            );
            other = one_of(behind, near, far);
            low += half * behind;
            left /= 2;
        }
        low + self.is_middle_behind(slots, low, left, other, member, places, hint, steps)
    }

    /// As `halve`, where some hints may not tell. Apart, so that a search by hints saves no registers.
    #[cold]
    #[inline(never)]
    fn halve_by_places<L: Ledger>(
        &self,
        slots: &Slots,
        from: usize,
        count: usize,
        member: MemberId,
        places: &Places,
        hint: u32,
        steps: &mut Steps<L>,
    ) -> usize
        requires in_order { IsRow slots.now self.now }
        requires long { length slots.now ≡ MEMBERS }
        requires placed { self.now.ring < length places.now }
        requires hinted { hint ≡ hint_on self.now.ring places.now }
        requires between { IsBetween slots.now self.now (key_at self.now.ring places.now member)
            from (from + count) }
        ensures place { IsBetween slots.now self.now (key_at self.now.ring places.now member) result
            result }
        ensures counted { steps.old ≤ steps.new }
        ensures most { 2 ^ (steps.new - steps.old) ≤ 2 * count + 1 }
        ensures least { count < 2 ^ (steps.new - steps.old) }
    {
        let mut low = from;
        let mut left = count;
        while 0 < left {
            low += self.skipped_by_places(slots, low, left, member, places, hint, steps);
            left /= 2;
        }
        low
    }

    /// The number of the middle one of so many members from an index on.
    #[inline]
    fn middle(&self, low: usize, left: usize) -> usize
        requires some { 0 < left }
        requires within { low + left ≤ length self.now.order }
        ensures { result ≡ slice_index self.now.order (low + (left - left / 2) - 1) }
    {
        self.order[low + (left - left / 2) - 1].get() as usize
    }

    /// 1 where the middle one, which has this number, of so many members from an index on among which the place is comes
    /// before this one, and else 0. The search goes on behind it, or where it was, and half as many are left.
    #[inline]
    fn is_middle_behind<L: Ledger>(
        &self,
        slots: &Slots,
        low: usize,
        left: usize,
        other: usize,
        member: MemberId,
        places: &Places,
        hint: u32,
        steps: &mut Steps<L>,
    ) -> usize
        requires in_order { IsRow slots.now self.now }
        requires long { length slots.now ≡ MEMBERS }
        requires hinted { hint ≡ hint_on self.now.ring places.now }
        requires told { self.now.told ≡ true }
        requires tells { hint < 2 ^ 32 - 1 }
        requires between { IsBetween slots.now self.now (key_at self.now.ring places.now member) low
            (low + left) }
        requires some { 0 < left }
        requires middle { other ≡ slice_index self.now.order (low + (left - left / 2) - 1) }
        ensures between { IsBetween slots.now self.now (key_at self.now.ring places.now member)
            (low + (left - left / 2) * result) (low + (left - left / 2) * result + left / 2) }
        ensures range { result ≤ 1 }
        ensures step { steps.new ≡ steps.old + 1 }
    {
        let _ = &self.order;
        let index = low + (left - left / 2) - 1;
        self.is_number_behind(slots, index, other, member, places, hint, steps)
    }

    /// How far the search goes on, of so many members from an index on among which the place is: behind the middle one of
    /// them, or nowhere. Then half as many are left.
    #[inline]
    fn skipped_by_hints<L: Ledger>(
        &self,
        slots: &Slots,
        low: usize,
        left: usize,
        member: MemberId,
        places: &Places,
        hint: u32,
        steps: &mut Steps<L>,
    ) -> usize
        requires in_order { IsRow slots.now self.now }
        requires long { length slots.now ≡ MEMBERS }
        requires hinted { hint ≡ hint_on self.now.ring places.now }
        requires told { self.now.told ≡ true }
        requires tells { hint < 2 ^ 32 - 1 }
        requires between { IsBetween slots.now self.now (key_at self.now.ring places.now member) low
            (low + left) }
        requires some { 0 < left }
        ensures between { IsBetween slots.now self.now (key_at self.now.ring places.now member)
            (low + result) (low + result + left / 2) }
        ensures fits { low + result < 2 ^ 64 }
        ensures step { steps.new ≡ steps.old + 1 }
    {
        // A list of members is short enough for the sum.
        let _ = &self.order;
        let half = left - left / 2;
        half * self.is_behind_by_hint(slots, low + half - 1, member, places, hint, steps)
    }

    /// As `skipped_by_hints`, where some hints may not tell.
    fn skipped_by_places<L: Ledger>(
        &self,
        slots: &Slots,
        low: usize,
        left: usize,
        member: MemberId,
        places: &Places,
        hint: u32,
        steps: &mut Steps<L>,
    ) -> usize
        requires in_order { IsRow slots.now self.now }
        requires long { length slots.now ≡ MEMBERS }
        requires placed { self.now.ring < length places.now }
        requires hinted { hint ≡ hint_on self.now.ring places.now }
        requires between { IsBetween slots.now self.now (key_at self.now.ring places.now member) low
            (low + left) }
        requires some { 0 < left }
        ensures between { IsBetween slots.now self.now (key_at self.now.ring places.now member)
            (low + result) (low + result + left / 2) }
        ensures fits { low + result < 2 ^ 64 }
        ensures step { steps.new ≡ steps.old + 1 }
    {
        let _ = &self.order;
        let half = left - left / 2;
        if self.is_behind(slots, low + half - 1, member, places, hint, steps) {
            half
        } else {
            0
        }
    }

    /// As `part_at`, where the index is one between the two.
    fn split_at<L: Ledger>(
        &self,
        slots: &Slots,
        low: usize,
        index: usize,
        high: usize,
        member: MemberId,
        places: &Places,
        hint: u32,
        steps: &mut Steps<L>,
    ) -> (usize, usize)
        requires in_order { IsRow slots.now self.now }
        requires long { length slots.now ≡ MEMBERS }
        requires placed { self.now.ring < length places.now }
        requires hinted { hint ≡ hint_on self.now.ring places.now }
        requires between { IsBetween slots.now self.now (key_at self.now.ring places.now member) low
            high }
        ensures { IsBetween slots.now self.now (key_at self.now.ring places.now member) result.0
            result.1 }
    {
        if low <= index && index < high {
            self.part_at(slots, low, index, high, member, places, hint, steps)
        } else {
            (low, high)
        }
    }

    /// The part in which the member's place is, of those between the two: behind the index, or up to it.
    fn part_at<L: Ledger>(
        &self,
        slots: &Slots,
        low: usize,
        index: usize,
        high: usize,
        member: MemberId,
        places: &Places,
        hint: u32,
        steps: &mut Steps<L>,
    ) -> (usize, usize)
        requires in_order { IsRow slots.now self.now }
        requires long { length slots.now ≡ MEMBERS }
        requires placed { self.now.ring < length places.now }
        requires hinted { hint ≡ hint_on self.now.ring places.now }
        requires between { IsBetween slots.now self.now (key_at self.now.ring places.now member) low
            high }
        requires from { low ≤ index }
        requires until { index < high }
        ensures between { IsBetween slots.now self.now (key_at self.now.ring places.now member)
            result.0 result.1 }
    {
        if self.is_behind(slots, index, member, places, hint, steps) {
            (index + 1, high)
        } else {
            (low, index)
        }
    }

    /// Whether the member at the index comes before this one: the places are looked at where the hints don't tell.
    fn is_behind<L: Ledger>(
        &self,
        slots: &Slots,
        index: usize,
        member: MemberId,
        places: &Places,
        hint: u32,
        steps: &mut Steps<L>,
    ) -> bool
        requires in_order { IsRow slots.now self.now }
        requires long { length slots.now ≡ MEMBERS }
        requires placed { self.now.ring < length places.now }
        requires hinted { hint ≡ hint_on self.now.ring places.now }
        requires within { index < length self.now.order }
        ensures value { result
            ≡ is_below (key_of_index slots.now self.now index)
            (key_at self.now.ring places.now member) }
        ensures step { steps.new ≡ steps.old + 1 }
    {
        if self.told && is_telling(hint) {
            0 < self.is_behind_by_hint(slots, index, member, places, hint, steps)
        } else {
            slots.is_before(self.ring, self.order[index], member, places, steps)
        }
    }

    /// 1 where the member at the index comes before this one, and else 0, where hints tell.
    #[inline]
    fn is_behind_by_hint<L: Ledger>(
        &self,
        slots: &Slots,
        index: usize,
        member: MemberId,
        places: &Places,
        hint: u32,
        steps: &mut Steps<L>,
    ) -> usize
        requires in_order { IsRow slots.now self.now }
        requires long { length slots.now ≡ MEMBERS }
        requires hinted { hint ≡ hint_on self.now.ring places.now }
        requires told { self.now.told ≡ true }
        requires tells { hint < 2 ^ 32 - 1 }
        requires within { index < length self.now.order }
        ensures value { result
            ≡ (if is_below (key_of_index slots.now self.now index)
            (key_at self.now.ring places.now member) then 1 else 0) }
        ensures step { steps.new ≡ steps.old + 1 }
    {
        let other = self.order[index].get() as usize;
        self.is_number_behind(slots, index, other, member, places, hint, steps)
    }

    /// As `is_behind_by_hint`, where the member at the index has this number.
    #[inline]
    fn is_number_behind<L: Ledger>(
        &self,
        slots: &Slots,
        index: usize,
        other: usize,
        member: MemberId,
        places: &Places,
        hint: u32,
        steps: &mut Steps<L>,
    ) -> usize
        requires in_order { IsRow slots.now self.now }
        requires long { length slots.now ≡ MEMBERS }
        requires hinted { hint ≡ hint_on self.now.ring places.now }
        requires told { self.now.told ≡ true }
        requires tells { hint < 2 ^ 32 - 1 }
        requires within { index < length self.now.order }
        requires at { other ≡ slice_index self.now.order index }
        ensures value { result
            ≡ (if is_below (key_of_index slots.now self.now index)
            (key_at self.now.ring places.now member) then 1 else 0) }
        ensures range { result ≤ 1 }
        ensures step { steps.new ≡ steps.old + 1 }
    {
        let own = Rank::new(hint, member);
        self.ranks[other].precedes(own, steps)
    }
}
