//! Floor: membership. Who monitors whom among the members that are on the rings. Each ring is kept in order, and a
//! question is answered by halving. After opening no call takes memory. `membership` alone calls it.
#![tactic(auto)]

ghost use Rattle.std.specs.Prelude.{◌≡◌, ℕ, ◌+◌, ◌-◌, ◌*◌, ◌^◌, ◌<◌, ◌≤◌, true, false, None, Some, List, [], length, map, All, is_some, slice_set, IfOk};
ghost use Rattle.ff_ids.specs.declared.TheConstants.{MAX_RINGS, MAX_TOLERANCE, MEMBERS};
ghost use Rattle.ff_ids.specs.Masks.{ring_count};
ghost use Rattle.ff_ids.specs.Rings.{nearest_before as number_before, nearest_after as number_after};
ghost use Rattle.ff_ids.specs.Views.{key_at};
ghost use Rattle.monitor_rule.specs.Joined.{with_member, without_member, is_joined, keys_on};
ghost use Rattle.monitor_rule.specs.Sorted.{places_at, emptied, AreFound, IsRow};

mod numbers;
mod row;
mod slots;

use ff_ids::{Group, MAX_RINGS, MemberId, RingNo};
use fields::NoMemory;
use numbers::Numbers;
use ring_order::Places;
use ring_order::steps::Steps;
use row::Row;
use slots::Slots;
use std::alloc::Global;
use std::marker::{Brand, Model};
use std::sync::ledger::{Blank, Ledger};

/// The members that have joined the rings of a group. Contracts see how many rings there are, and the
/// members with their places, in order of number.
#[derive(Drop)]
pub struct Rings {
    slots: Slots,
    /// Those of the slots that are filled.
    numbers: Numbers,
    rows: Vec<Row>,
}

impl Model for Rings {
    ghost use Rattle.std.specs.Prelude.{◌≡◌, length};
    ghost use Rattle.monitor_rule.specs.Joined.{Joined};
    ghost use Rattle.monitor_rule.specs.Sorted.{members_from, numbers_in, IsKept};

    ghost Value = { Joined };

    ghost view = { λ r. record
        { rings = length r.rows.items; members = members_from 0 r.slots } };

    ghost invariant = { λ r. IsKept r.slots r.rows.items
        × (r.numbers ≡ numbers_in r.slots) };
}

impl Rings {
    /// Nobody has joined yet. The room for every member is taken here.
    pub fn open(alloc: Global, group: &Group) -> Result<Rings, NoMemory>
        requires { group.now.t ≤ MAX_TOLERANCE }
        ensures { IfOk result (λ r. r ≡ record { rings = ring_count group.now.t; members = [] }) }
    {
        let rings = 2 * group.t + 1;
        let mut rows = Vec::with_capacity(alloc, rings as usize)?;
        for ring in 0..rings {
            rows.push(Row::open(alloc, RingNo(ring))?)?;
        }
        Ok(Rings {
            slots: Slots::new(alloc)?,
            numbers: Numbers::new(alloc)?,
            rows,
        })
    }

    /// Puts the member on the rings.
    pub fn join(&mut self, member: MemberId, places: &Places)
        requires absent { is_joined self.old.members member ≡ false }
        requires placed { length places.now ≡ self.old.rings }
        ensures { self.new
            ≡ record self.old {
              members = with_member (record { number = member; places = places.now })
                  self.old.members;
            } }
    {
        join_each(&mut self.rows, &self.slots, member, places);
        self.slots.fill(member, places);
        self.numbers.put(member);
    }

    /// Takes the member off the rings. The places are those with which it joined.
    pub fn leave(&mut self, member: MemberId, places: &Places)
        requires joined { is_joined self.old.members member ≡ true }
        requires placed { All (λ x. x.number ≡ member → x.places ≡ places.now) self.old.members }
        ensures { self.new
            ≡ record self.old { members = without_member member self.old.members } }
    {
        leave_each(&mut self.rows, &self.slots, member, places);
        self.slots.empty(member);
        self.numbers.take_out(member);
    }

    /// Takes all members off the rings.
    pub fn clear(&mut self)
        ensures { self.new ≡ record self.old { members = [] } }
    {
        clear_each(&mut self.rows);
        self.slots.forget(self.numbers.all());
        self.numbers.clear();
    }

    /// The numbers of the joined members, rising.
    pub fn numbers(&self) -> &[MemberId]
        ensures { result.now ≡ map (λ x. x.number) self.now.members }
    {
        self.numbers.all()
    }

    /// The nearest joined member before this one on the ring, or none where no other has joined. The member
    /// itself need not have joined.
    pub fn monitor(&self, ring: RingNo, member: MemberId, places: &Places) -> Option<MemberId>
        requires ring { ring.0 < self.now.rings }
        requires placed { length places.now ≡ self.now.rings }
        ensures { result
            ≡ number_before (keys_on ring.0 self.now.members) (key_at ring.0 places.now member) }
    {
        self.monitor_in::<Brand>(Blank::new(1), ring, member, places)
    }

    /// The nearest joined member after this one on the ring, or none where no other has joined. The member
    /// itself need not have joined.
    pub fn successor(&self, ring: RingNo, member: MemberId, places: &Places) -> Option<MemberId>
        requires ring { ring.0 < self.now.rings }
        requires placed { length places.now ≡ self.now.rings }
        ensures { result
            ≡ number_after (keys_on ring.0 self.now.members) (key_at ring.0 places.now member) }
    {
        self.successor_in::<Brand>(Blank::new(1), ring, member, places)
    }

    /// As `successor`. The member's place on the ring is looked for first where it was found last, at the index `near`, and
    /// what is found is kept there: so where nobody joined or left, few members are looked at, however many have joined.
    pub fn successor_near(
        &self,
        ring: RingNo,
        member: MemberId,
        places: &Places,
        near: &mut usize,
    ) -> Option<MemberId>
        requires ring { ring.0 < self.now.rings }
        requires placed { length places.now ≡ self.now.rings }
        ensures { result
            ≡ number_after (keys_on ring.0 self.now.members) (key_at ring.0 places.now member) }
    {
        self.successor_near_in::<Brand>(Blank::new(1), ring, member, places, near)
    }

    /// As `successor`. The member's place on the ring is looked for first where the last member joined: so for that one few
    /// members are looked at.
    pub fn successor_of_last(
        &self,
        ring: RingNo,
        member: MemberId,
        places: &Places,
    ) -> Option<MemberId>
        requires ring { ring.0 < self.now.rings }
        requires placed { length places.now ≡ self.now.rings }
        ensures { result
            ≡ number_after (keys_on ring.0 self.now.members) (key_at ring.0 places.now member) }
    {
        self.successor_of_last_in::<Brand>(Blank::new(1), ring, member, places)
    }

    /// As `monitor`. Among n joined members d steps are counted, with `2^d <= 2n + 1` and `n + 2 <= 2 * 2^d`.
    pub fn monitor_counted<L: Ledger>(
        &self,
        ring: RingNo,
        member: MemberId,
        places: &Places,
        steps: &mut Steps<L>,
    ) -> Option<MemberId>
        requires ring { ring.0 < self.now.rings }
        requires placed { length places.now ≡ self.now.rings }
        ensures value { result
            ≡ number_before (keys_on ring.0 self.now.members) (key_at ring.0 places.now member) }
        ensures counted { steps.old ≤ steps.new }
        ensures most { 2 ^ (steps.new - steps.old) ≤ 2 * length self.now.members + 1 }
        ensures least { length self.now.members + 2 ≤ 2 * 2 ^ (steps.new - steps.old) }
    {
        self.rows[ring.0 as usize].before(&self.slots, member, places, steps)
    }

    /// As `successor`. Among n joined members d steps are counted, with `2^d <= 2n + 1` and `n + 2 <= 2 * 2^d`.
    pub fn successor_counted<L: Ledger>(
        &self,
        ring: RingNo,
        member: MemberId,
        places: &Places,
        steps: &mut Steps<L>,
    ) -> Option<MemberId>
        requires ring { ring.0 < self.now.rings }
        requires placed { length places.now ≡ self.now.rings }
        ensures value { result
            ≡ number_after (keys_on ring.0 self.now.members) (key_at ring.0 places.now member) }
        ensures counted { steps.old ≤ steps.new }
        ensures most { 2 ^ (steps.new - steps.old) ≤ 2 * length self.now.members + 1 }
        ensures least { length self.now.members + 2 ≤ 2 * 2 ^ (steps.new - steps.old) }
    {
        self.rows[ring.0 as usize].after(&self.slots, member, places, steps)
    }

    /// The monitor, counted in a ledger of its own.
    fn monitor_in<L: Ledger>(
        &self,
        blank: Blank,
        ring: RingNo,
        member: MemberId,
        places: &Places,
    ) -> Option<MemberId>
        requires name { blank.name ≡ L.name }
        requires parts { blank.parts ≡ L.parts }
        requires some { 0 < blank.parts }
        requires ring { ring.0 < self.now.rings }
        requires placed { length places.now ≡ self.now.rings }
        ensures { result
            ≡ number_before (keys_on ring.0 self.now.members) (key_at ring.0 places.now member) }
    {
        self.monitor_counted(ring, member, places, &mut Steps::<L>::open(blank))
    }

    /// The successor, counted in a ledger of its own.
    fn successor_in<L: Ledger>(
        &self,
        blank: Blank,
        ring: RingNo,
        member: MemberId,
        places: &Places,
    ) -> Option<MemberId>
        requires name { blank.name ≡ L.name }
        requires parts { blank.parts ≡ L.parts }
        requires some { 0 < blank.parts }
        requires ring { ring.0 < self.now.rings }
        requires placed { length places.now ≡ self.now.rings }
        ensures { result
            ≡ number_after (keys_on ring.0 self.now.members) (key_at ring.0 places.now member) }
    {
        self.successor_counted(ring, member, places, &mut Steps::<L>::open(blank))
    }

    /// The successor, looked for where the last member joined, counted in a ledger of its own.
    fn successor_of_last_in<L: Ledger>(
        &self,
        blank: Blank,
        ring: RingNo,
        member: MemberId,
        places: &Places,
    ) -> Option<MemberId>
        requires name { blank.name ≡ L.name }
        requires parts { blank.parts ≡ L.parts }
        requires some { 0 < blank.parts }
        requires ring { ring.0 < self.now.rings }
        requires placed { length places.now ≡ self.now.rings }
        ensures { result
            ≡ number_after (keys_on ring.0 self.now.members) (key_at ring.0 places.now member) }
    {
        let mut steps = Steps::<L>::open(blank);
        self.rows[ring.0 as usize].after_last(&self.slots, member, places, &mut steps)
    }

    /// The successor, found from an index on, counted in a ledger of its own.
    fn successor_near_in<L: Ledger>(
        &self,
        blank: Blank,
        ring: RingNo,
        member: MemberId,
        places: &Places,
        near: &mut usize,
    ) -> Option<MemberId>
        requires name { blank.name ≡ L.name }
        requires parts { blank.parts ≡ L.parts }
        requires some { 0 < blank.parts }
        requires ring { ring.0 < self.now.rings }
        requires placed { length places.now ≡ self.now.rings }
        ensures { result
            ≡ number_after (keys_on ring.0 self.now.members) (key_at ring.0 places.now member) }
    {
        let mut steps = Steps::<L>::open(blank);
        self.rows[ring.0 as usize].after_near(&self.slots, member, places, near, &mut steps)
    }
}

/// Where the member is, or would be, on each ring. All are looked for before any ring changes, so that no search waits for
/// another one.
fn places_on(
    rows: &[Row],
    slots: &Slots,
    member: MemberId,
    places: &Places,
) -> [usize; MAX_RINGS as usize]
    requires few { length rows.now ≤ MAX_RINGS }
    requires in_order { All (IsRow slots.now) rows.now }
    requires long { length slots.now ≡ MEMBERS }
    requires placed { All (λ r. r.ring < length places.now) rows.now }
    ensures { AreFound slots.now places.now member result rows.now 0 }
{
    let mut found = [0; MAX_RINGS as usize];
    for index in 0..rows.len() {
        found[index] = rows[index].place_of(slots, member, places);
    }
    found
}

/// Puts the member on each ring. The slots are those before it joins.
fn join_each(rows: &mut [Row], slots: &Slots, member: MemberId, places: &Places)
    requires few { length rows.old ≤ MAX_RINGS }
    requires in_order { All (IsRow slots.now) rows.old }
    requires long { length slots.now ≡ MEMBERS }
    requires number { member < MEMBERS }
    requires free { places_at slots.now member ≡ None }
    requires placed { All (λ r. r.ring < length places.now) rows.old }
    ensures in_order { All (IsRow (slice_set slots.now member (Some places.now))) rows.new }
    ensures rings { map (λ r. r.ring) rows.new ≡ map (λ r. r.ring) rows.old }
{
    let found = places_on(rows, slots, member, places);
    for index in 0..rows.len() {
        rows[index].join(found[index], slots, member, places);
    }
}

/// Takes the member off each ring. The slots are those before it leaves.
fn leave_each(rows: &mut [Row], slots: &Slots, member: MemberId, places: &Places)
    requires few { length rows.old ≤ MAX_RINGS }
    requires in_order { All (IsRow slots.now) rows.old }
    requires long { length slots.now ≡ MEMBERS }
    requires number { member < MEMBERS }
    requires there { places_at slots.now member ≡ Some places.now }
    requires placed { All (λ r. r.ring < length places.now) rows.old }
    ensures in_order { All (IsRow (slice_set slots.now member None)) rows.new }
    ensures rings { map (λ r. r.ring) rows.new ≡ map (λ r. r.ring) rows.old }
{
    let found = places_on(rows, slots, member, places);
    for index in 0..rows.len() {
        rows[index].leave(found[index], slots, member, places);
    }
}

/// Takes everybody off each ring.
fn clear_each(rows: &mut [Row])
    ensures { rows.new ≡ map emptied rows.old }
{
    for row in rows.iter_mut() {
        row.clear();
    }
}
