//! How many of the accusations that stand are against each member, and how many by each; and on which rings those are that are
//! against it.

ghost use Rattle.std.specs.Prelude.{◌≡◌, ℕ, ◌+◌, ◌-◌, ◌^◌, ◌<◌, ◌≤◌, false, [], IfOk, length, nat_lt, slice_index_or, slice_set};
ghost use Rattle.ff_ids.specs.declared.TheConstants.{MEMBERS, MAX_RINGS};
ghost use Rattle.ff_ids.specs.Masks.{enables};
ghost use Rattle.removal_timer.specs.Tally.{one_more, one_less, AreTallied};

use ff_ids::{AccBody, MEMBERS, Mask, MemberId, RingNo};
use std::alloc::{AllocError, Global};
use std::marker::Model;

/// A count for each member. Contracts see the list of them, by number.
#[derive(Drop)]
pub struct Tally {
    counts: Vec<u16>,
}

impl Model for Tally {
    ghost use Rattle.std.specs.Prelude.{◌≡◌, ℕ, List, length};
    ghost use Rattle.ff_ids.specs.declared.TheConstants.{MEMBERS};

    ghost Value = { List ℕ };

    ghost view = { λ t. t.counts.items };

    ghost invariant = { λ t. length t.counts.items ≡ MEMBERS };
}

impl Tally {
    fn new(alloc: Global) -> Result<Tally, AllocError>
        ensures long { IfOk result (λ t. length t ≡ MEMBERS) }
        ensures zero { IfOk result (λ t. (n : ℕ) → slice_index_or t n 0 ≡ 0) }
    {
        let mut counts = Vec::with_capacity(alloc, MEMBERS as usize)?;
        for _number in 0..MEMBERS {
            counts.push(0)?;
        }
        Ok(Tally { counts })
    }

    /// Whether the member's count isn't 0.
    pub fn is_any(&self, member: MemberId) -> bool
        ensures value { result ≡ nat_lt 0 (slice_index_or self.now member 0) }
        ensures range { member < MEMBERS }
    {
        0 < self.counts[member.get() as usize]
    }

    /// One more for the member.
    pub fn more(&mut self, member: MemberId)
        requires { member < MEMBERS → slice_index_or self.old member 0 < 2 ^ 16 - 1 }
        ensures value { self.new
            ≡ slice_set self.old member (slice_index_or self.old member 0 + 1) }
        ensures range { member < MEMBERS }
    {
        self.counts[member.get() as usize] += 1;
    }

    /// One less for the member.
    pub fn less(&mut self, member: MemberId)
        requires { member < MEMBERS → 0 < slice_index_or self.old member 0 }
        ensures value { self.new
            ≡ slice_set self.old member (slice_index_or self.old member 0 - 1) }
        ensures range { member < MEMBERS }
    {
        self.counts[member.get() as usize] -= 1;
    }
}

/// A bit for each member and ring. Contracts see the list of the members' bits, by number.
#[derive(Drop)]
pub struct Marks {
    masks: Vec<u64>,
}

impl Model for Marks {
    ghost use Rattle.std.specs.Prelude.{◌≡◌, ℕ, List, length};
    ghost use Rattle.ff_ids.specs.declared.TheConstants.{MEMBERS};

    ghost Value = { List ℕ };

    ghost view = { λ m. m.masks.items };

    ghost invariant = { λ m. length m.masks.items ≡ MEMBERS };
}

impl Marks {
    fn new(alloc: Global) -> Result<Marks, AllocError>
        ensures long { IfOk result (λ m. length m ≡ MEMBERS) }
        ensures zero { IfOk result (λ m. (n : ℕ) → slice_index_or m n 0 ≡ 0) }
    {
        let mut masks = Vec::with_capacity(alloc, MEMBERS as usize)?;
        for _number in 0..MEMBERS {
            masks.push(0)?;
        }
        Ok(Marks { masks })
    }

    /// Whether the bit of the member and the ring is set.
    pub fn is_set(&self, member: MemberId, ring: RingNo) -> bool
        requires { ring.0 < MAX_RINGS }
        ensures value { result ≡ enables (slice_index_or self.now member 0) ring.0 }
        ensures range { member < MEMBERS }
    {
        Mask(self.masks[member.get() as usize]).enables(ring)
    }

    /// A ring from which on the member has no bit.
    pub fn rings(&self, member: MemberId) -> u8
        ensures none { (ring : ℕ) → result ≤ ring
            → enables (slice_index_or self.now member 0) ring ≡ false }
        ensures range { member < MEMBERS }
    {
        (u64::BITS - self.masks[member.get() as usize].leading_zeros()) as u8
    }

    /// Sets the bit of the member and the ring, which isn't set.
    fn set(&mut self, member: MemberId, ring: RingNo)
        requires ring { ring.0 < MAX_RINGS }
        requires room { member < MEMBERS → slice_index_or self.old member 0 + 2 ^ ring.0 < 2 ^ 64 }
        ensures value { self.new
            ≡ slice_set self.old member (slice_index_or self.old member 0 + 2 ^ ring.0) }
        ensures range { member < MEMBERS }
    {
        self.masks[member.get() as usize] += 1 << ring.0;
    }

    /// Clears the bit of the member and the ring, which is set.
    fn clear(&mut self, member: MemberId, ring: RingNo)
        requires ring { ring.0 < MAX_RINGS }
        requires is_set { member < MEMBERS → 2 ^ ring.0 ≤ slice_index_or self.old member 0 }
        ensures value { self.new
            ≡ slice_set self.old member (slice_index_or self.old member 0 - 2 ^ ring.0) }
        ensures range { member < MEMBERS }
    {
        self.masks[member.get() as usize] -= 1 << ring.0;
    }
}

/// How many of the accusations that stand are against each member, and on which rings, and how many are by it.
#[derive(Drop)]
pub struct Tallies {
    pub against: Tally,
    pub by: Tally,
    pub marks: Marks,
}

impl Tallies {
    /// Nothing stands. The room for every count is taken here.
    pub fn new(alloc: Global) -> Result<Tallies, AllocError>
        ensures { IfOk result (AreTallied []) }
    {
        Ok(Tallies {
            against: Tally::new(alloc)?,
            by: Tally::new(alloc)?,
            marks: Marks::new(alloc)?,
        })
    }

    /// One more stands.
    pub fn add(&mut self, acc: &AccBody)
        requires ring { acc.now.ring.0 < MAX_RINGS }
        requires against { acc.now.accused < MEMBERS
            → slice_index_or self.old.against acc.now.accused 0 < 2 ^ 16 - 1 }
        requires by { acc.now.accuser < MEMBERS
            → slice_index_or self.old.by acc.now.accuser 0 < 2 ^ 16 - 1 }
        requires room { acc.now.accused < MEMBERS
            → slice_index_or self.old.marks acc.now.accused 0 + 2 ^ acc.now.ring.0 < 2 ^ 64 }
        ensures value { self.new ≡ one_more acc.now self.old }
        ensures accused { acc.now.accused < MEMBERS }
        ensures accuser { acc.now.accuser < MEMBERS }
    {
        self.against.more(acc.accused);
        self.by.more(acc.accuser);
        self.marks.set(acc.accused, acc.ring);
    }

    /// One stands no more.
    pub fn take(&mut self, acc: &AccBody)
        requires ring { acc.now.ring.0 < MAX_RINGS }
        requires against { acc.now.accused < MEMBERS
            → 0 < slice_index_or self.old.against acc.now.accused 0 }
        requires by { acc.now.accuser < MEMBERS
            → 0 < slice_index_or self.old.by acc.now.accuser 0 }
        requires is_set { acc.now.accused < MEMBERS
            → 2 ^ acc.now.ring.0 ≤ slice_index_or self.old.marks acc.now.accused 0 }
        ensures value { self.new ≡ one_less acc.now self.old }
        ensures accused { acc.now.accused < MEMBERS }
        ensures accuser { acc.now.accuser < MEMBERS }
    {
        self.against.less(acc.accused);
        self.by.less(acc.accuser);
        self.marks.clear(acc.accused, acc.ring);
    }
}
