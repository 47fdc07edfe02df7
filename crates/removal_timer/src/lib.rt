//! Floor: membership. For each member and ring the accusation that is kept there, and since when; and which of them
//! were kept for the timeout. All memory is taken at opening, and each call costs what it touches, not what is kept.
//! `membership` alone calls it.
#![tactic(auto)]

ghost use Rattle.std.specs.Prelude.{◌≡◌, ℕ, ◌+◌, ◌-◌, ◌*◌, min, ◌<◌, ◌≤◌, true, false, [], ◌++◌, ◌==◌, not, IfOk, IfSome, IsNone, None, Some, is_some, List, length, filter, map, vec_len, vec_capacity, slice_set};
ghost use Rattle.std.specs.Bool.{OnTrue};
ghost use Rattle.std.specs.List.{AllByRecursion, list_any};
ghost use Rattle.std.specs.List.Sorted.{IsPermutation};
ghost use Rattle.ff_ids.specs.declared.TheConstants.{MAX_RINGS, MAX_TOLERANCE};
ghost use Rattle.ff_ids.specs.declared.AccBody.{AccBody as Accusation};
ghost use Rattle.ff_ids.specs.Masks.{ring_count};
ghost use Rattle.ff_ids.specs.Steps.{is_due, with_kept};
ghost use Rattle.removal_timer.specs.Kept.{entry_at, is_at, entries_in, slot_at, pair_number, slot_number, AreQueued, AreRising, AreUntil, HasGained};
ghost use Rattle.removal_timer.specs.Queue.{is_queued, without};
ghost use Rattle.removal_timer.specs.Tally.{is_against, is_by, AreTallied};

mod queue;
mod tally;

use ff_ids::{AccBody, Group, MAX_RINGS, MemberId, RingNo};
use fields::NoMemory;
use queue::{END, Queue};
use std::alloc::Global;
use std::marker::Model;
use tally::Tallies;

/// An accusation, and the tick since when it stands.
type Entry = (AccBody, u64);

/// The accusations that stand, at most one for each member and ring, each with the tick of its acceptance.
/// Contracts see the number of rings, the timeout and the list of entries, in order of the accused, then of
/// the ring.
#[derive(Drop)]
pub struct Timers {
    rings: u8,
    timeout: u32,
    /// By the number of the member and the ring among the group's, up to the greatest at which something stood.
    slots: Vec<Option<Entry>>,
    /// The numbers of the filled slots, in order of the time since when their entries stand.
    queue: Queue,
    /// How many of the entries are against each member, and on which rings, and how many by it: who has none is found
    /// without a look at the slots.
    tallies: Tallies,
}

impl Model for Timers {
    ghost use Rattle.std.specs.Prelude.{vec_capacity};
    ghost use Rattle.removal_timer.specs.Kept.{Kept, IsHeld, entries_in};

    ghost Value = { Kept };

    ghost view = { λ x. record
        { rings = x.rings; timeout = x.timeout; entries = entries_in x.slots.items } };

    ghost invariant = { λ x. IsHeld x.rings x.slots.items x.queue x.tallies
        (vec_capacity x.slots) };
}

/// The number of the member and the ring among all pairs of them.
fn number_of(accused: MemberId, ring: RingNo) -> u16
    ensures { result ≡ pair_number accused ring.0 }
{
    u16::from(MAX_RINGS) * accused.get() + u16::from(ring.0)
}

/// The number of the slot of the member and the ring, where there are so many rings: no more slots lie between those of
/// two members than the group has rings.
fn slot_of(rings: u8, accused: MemberId, ring: RingNo) -> u16
    requires { rings ≤ MAX_RINGS }
    ensures value { result ≡ slot_number rings accused ring.0 }
    ensures range { ring.0 < rings → result < END }
{
    accused.get() * u16::from(rings) + u16::from(ring.0)
}

fn is_due(entry: &Entry, timeout: u32, now: u64) -> bool
    ensures { result ≡ is_due timeout now entry.now }
{
    u64::from(timeout) <= now.saturating_sub(entry.1)
}

/// What is in the slot of this number.
fn kept_in(slots: &[Option<Entry>], number: u16) -> Option<Entry>
    ensures value { result ≡ slot_at slots.now number }
    ensures reached { is_some result ≡ true → number < length slots.now }
{
    let index = number as usize;
    if index < slots.len() {
        slots[index]
    } else {
        None
    }
}

/// Makes the slots reach this one, for which they have room. Those that are new are empty: the memory of numbers greater than
/// any at which something stood stays untouched.
fn reach(slots: &mut Vec<Option<Entry>>, number: u16)
    requires number { number < END }
    requires few { length slots.old.items ≤ END }
    requires room { END ≤ vec_capacity slots.old }
    ensures reached { number < length slots.new.items }
    ensures few { length slots.new.items ≤ END }
    ensures room { END ≤ vec_capacity slots.new }
    ensures same { (n : ℕ) → slot_at slots.new.items n ≡ slot_at slots.old.items n }
{
    'growing: while slots.len() <= number as usize {
        slots.push_reserved(None);
    }
}

/// Empties the slot of this number, and gives what was in it.
fn take_out(
    _rings: u8,
    slots: &mut [Option<Entry>],
    queue: &mut Queue,
    tallies: &mut Tallies,
    number: u16,
) -> Option<Entry>
    requires queued { AreQueued _rings slots.old queue.old }
    requires tallied { AreTallied (entries_in slots.old) tallies.old }
    requires range { number < END }
    ensures value { result ≡ slot_at slots.old number }
    ensures emptied { slots.new ≡ slice_set slots.old number None }
    ensures left { queue.new ≡ without number queue.old }
    ensures queued { AreQueued _rings slots.new queue.new }
    ensures tallied { AreTallied (entries_in slots.new) tallies.new }
{
    match kept_in(slots, number) {
        Some(entry) => {
            slots[number as usize] = None;
            queue.remove(number);
            tallies.take(&entry.0);
            Some(entry)
        }
        None => None,
    }
}

/// Empties each slot that is filled.
fn take_all(rings: u8, slots: &mut [Option<Entry>], queue: &mut Queue, tallies: &mut Tallies)
    requires queued { AreQueued rings slots.old queue.old }
    requires tallied { AreTallied (entries_in slots.old) tallies.old }
    ensures none { entries_in slots.new ≡ [] }
    ensures queued { AreQueued rings slots.new queue.new }
    ensures tallied { AreTallied (entries_in slots.new) tallies.new }
{
    while let Some(number) = queue.first() {
        take_out(rings, slots, queue, tallies, number);
    }
}

/// The number of the entry that stands for the longest time, if that is due.
fn first_due(
    _rings: u8,
    slots: &[Option<Entry>],
    queue: &Queue,
    timeout: u32,
    now: u64,
) -> Option<u16>
    requires { AreQueued _rings slots.now queue.now }
    ensures range { IfSome result (λ n. n < END) }
    ensures filled { IfSome result (λ n. is_some (slot_at slots.now n) ≡ true) }
    ensures due { IfSome result
        (λ n. IfSome (slot_at slots.now n) (λ p. is_due timeout now p ≡ true)) }
    ensures none { IsNone result → filter (is_due timeout now) (entries_in slots.now) ≡ [] }
{
    let number = queue.first()?;
    let entry = kept_in(slots, number)?;
    if is_due(&entry, timeout, now) {
        Some(number)
    } else {
        None
    }
}

/// Since when the entry stands that stands for the longest time.
fn first_since(_rings: u8, slots: &[Option<Entry>], queue: &Queue) -> Option<u64>
    requires { AreQueued _rings slots.now queue.now }
    ensures none { IsNone result → entries_in slots.now ≡ [] }
    ensures first { IfSome result
        (λ since. AllByRecursion (λ p. since ≤ p.1) (entries_in slots.now)) }
    ensures there { IfSome result
        (λ since. list_any (λ p. p.1 == since) (entries_in slots.now) ≡ true) }
{
    let number = queue.first()?;
    let entry = kept_in(slots, number)?;
    Some(entry.1)
}

/// How many of the next ticks pass before what stands since then is due, of at most so many.
fn ticks_before(timeout: u32, since: u64, now: u64, most: u32) -> u32
    ensures { result ≡ min most (timeout - (now - since) - 1) }
{
    let left = u64::from(timeout)
        .saturating_sub(now.saturating_sub(since))
        .saturating_sub(1);
    if left < u64::from(most) {
        left as u32
    } else {
        most
    }
}

/// Takes out the entries that are due, and appends them, those first that stand for the longest time. Only these are
/// looked at, and the one behind them.
fn take_due(
    rings: u8,
    slots: &mut [Option<Entry>],
    queue: &mut Queue,
    tallies: &mut Tallies,
    timeout: u32,
    now: u64,
    out: &mut Vec<AccBody>,
)
    requires queued { AreQueued rings slots.old queue.old }
    requires tallied { AreTallied (entries_in slots.old) tallies.old }
    requires room { vec_len out.old + length
        (filter (is_due timeout now) (entries_in slots.old)) ≤ vec_capacity out.old }
    ensures taken { HasGained out.old.items out.new.items
        (map (λ p. p.0) (filter (is_due timeout now) (entries_in slots.old))) }
    ensures left { entries_in slots.new
        ≡ filter (λ p. not (is_due timeout now p)) (entries_in slots.old) }
    ensures queued { AreQueued rings slots.new queue.new }
    ensures tallied { AreTallied (entries_in slots.new) tallies.new }
    ensures capacity { vec_capacity out.old ≤ vec_capacity out.new }
{
    while let Some(number) = first_due(rings, slots, queue, timeout, now) {
        if let Some((acc, _since)) = take_out(rings, slots, queue, tallies, number) {
            out.push_reserved(acc);
        }
    }
}

/// Puts the accusations from this index on into order of the accused, then of the ring.
fn sort_behind(out: &mut Vec<AccBody>, from: usize)
    requires { from ≤ vec_len out.old }
    ensures sorted { (before gained rising : List Accusation) → out.old.items ≡ before ++ gained
        → length before ≡ from → AreRising rising → IsPermutation rising gained
        → out.new.items ≡ before ++ rising }
    ensures capacity { vec_capacity out.old ≤ vec_capacity out.new }
{
    out[from..].sort_unstable_by_key(|acc| number_of(acc.accused, acc.ring));
}

impl Timers {
    /// Nothing stands. Takes the room for all entries that a group can have.
    pub fn open(alloc: Global, group: &Group) -> Result<Timers, NoMemory>
        requires { group.now.t ≤ MAX_TOLERANCE }
        ensures { IfOk result
            (λ x. x ≡ record
            { rings = ring_count group.now.t; timeout = group.now.timeout; entries = [] }) }
    {
        Ok(Timers {
            rings: 2 * group.t + 1,
            timeout: group.timeout,
            slots: Vec::with_capacity(alloc, END as usize)?,
            queue: Queue::new(alloc)?,
            tallies: Tallies::new(alloc)?,
        })
    }

    /// The accusation stands from this tick on, which isn't before that of any other.
    pub fn set(&mut self, acc: AccBody, now: u64)
        requires free { entry_at acc.accused acc.ring.0 self.old.entries ≡ None }
        requires ring { acc.ring.0 < self.old.rings }
        requires in_time { AreUntil now self.old.entries }
        ensures { self.new ≡ record self.old { entries = with_kept (acc, now) self.old.entries } }
    {
        let number = slot_of(self.rings, acc.accused, acc.ring);
        reach(&mut self.slots, number);
        self.tallies.add(&acc);
        self.slots[number as usize] = Some((acc, now));
        self.queue.push(number);
    }

    /// What stands against the member on the ring falls, if anything does.
    pub fn clear(&mut self, accused: MemberId, ring: RingNo)
        ensures { self.new
            ≡ record self.old
            { entries = filter (λ p. not (is_at accused ring.0 p)) self.old.entries } }
    {
        if ring.0 < self.rings {
            take_out(
                self.rings,
                &mut self.slots,
                &mut self.queue,
                &mut self.tallies,
                slot_of(self.rings, accused, ring),
            );
        }
    }

    /// Everything falls.
    pub fn clear_all(&mut self)
        ensures { self.new ≡ record self.old { entries = [] } }
    {
        take_all(
            self.rings,
            &mut self.slots,
            &mut self.queue,
            &mut self.tallies,
        );
    }

    /// Takes out the accusations that have stood for the timeout, and appends them to `out`, in order. No other is
    /// looked at but the one that has stood for the longest time.
    pub fn due(&mut self, now: u64, out: &mut Vec<AccBody>)
        requires { vec_len out.old + length
            (filter (is_due self.old.timeout now) self.old.entries) ≤ vec_capacity out.old }
        ensures taken { out.new.items
            ≡ out.old.items ++ map (λ p. p.0)
            (filter (is_due self.old.timeout now) self.old.entries) }
        ensures left { self.new
            ≡ record self.old
            { entries = filter (λ p. not (is_due self.old.timeout now p)) self.old.entries } }
        ensures capacity { vec_capacity out.old ≤ vec_capacity out.new }
    {
        let from = out.len();
        take_due(
            self.rings,
            &mut self.slots,
            &mut self.queue,
            &mut self.tallies,
            self.timeout,
            now,
            out,
        );
        sort_behind(out, from);
    }

    /// At how many of the next ticks nothing is due, of at most so many. Only the entry is looked at that has stood for the
    /// longest time.
    pub fn quiet_ticks(&self, now: u64, most: u32) -> u32
        requires { AreUntil now self.now.entries }
        ensures most { result ≤ most }
        ensures quiet { (n : ℕ) → n < result
            → filter (is_due self.now.timeout (now + n + 1)) self.now.entries ≡ [] }
        ensures next { result < most
            → 0 < length (filter (is_due self.now.timeout (now + result + 1)) self.now.entries) }
    {
        match first_since(self.rings, &self.slots, &self.queue) {
            Some(since) => ticks_before(self.timeout, since, now, most),
            None => most,
        }
    }

    /// Whether nothing stands.
    pub fn is_empty(&self) -> bool
        ensures value { result ≡ (length self.now.entries == 0) }
        ensures empty { OnTrue result (self.now.entries ≡ []) }
    {
        self.queue.first().is_none()
    }

    /// What stands against the member on the ring, and since when.
    pub fn standing(&self, accused: MemberId, ring: RingNo) -> Option<(AccBody, u64)>
        ensures { result ≡ entry_at accused ring.0 self.now.entries }
    {
        if ring.0 < self.rings && self.tallies.marks.is_set(accused, ring) {
            kept_in(&self.slots, slot_of(self.rings, accused, ring))
        } else {
            None
        }
    }

    /// Whether an accusation against the member stands. No entry is looked at.
    pub fn is_accused(&self, member: MemberId) -> bool
        ensures value { result ≡ list_any (is_against member) self.now.entries }
        ensures none { result ≡ false → (ring : ℕ)
            → entry_at member ring self.now.entries ≡ None }
    {
        self.tallies.against.is_any(member)
    }

    /// A ring from which on no accusation against the member stands. No entry is looked at.
    pub fn rings_against(&self, member: MemberId) -> u8
        ensures { (ring : ℕ) → result ≤ ring → entry_at member ring self.now.entries ≡ None }
    {
        self.tallies.marks.rings(member)
    }

    /// Whether an accusation by the member stands. No entry is looked at.
    pub fn is_accuser(&self, member: MemberId) -> bool
        ensures { result ≡ list_any (is_by member) self.now.entries }
    {
        self.tallies.by.is_any(member)
    }
}
