//! A member on a ring as a search sees it.

ghost use Rattle.std.specs.Prelude.{◌≡◌, ◌+◌, ◌-◌, ◌^◌, ◌<◌, ◌≤◌, if◌then◌else◌};
ghost use Rattle.ff_ids.specs.Rings.{Key, is_below};
ghost use Rattle.ring_order.specs.Rows.{hint_of};

use crate::steps::Steps;
use ff_ids::MemberId;
use std::marker::Model;
use std::sync::ledger::Ledger;

/// The bits of a number are below this one.
const NUMBERS: u64 = 1 << 16;

/// The bits of each rank are below this one.
const RANKS: u64 = 1 << 48;

/// The hint of a member's place and the member's number. They are kept in one number, in the order of keys where hints
/// tell. Contracts see the two.
#[derive(Clone, Copy)]
pub struct Rank {
    bits: u64,
}

impl Model for Rank {
    ghost use Rattle.std.specs.Prelude.{ℕ, ◌<◌, ◌+◌, ◌*◌, ◌/◌, ◌%◌, ◌^◌};
    ghost use Rattle.std.proofs.Common.{ap};
    ghost use Rattle.std.proofs.lemmas.Nat.{div-add-mod'};
    ghost use Rattle.ff_ids.specs.declared.TheConstants.{MEMBERS};
    ghost use Rattle.ring_order.specs.Ranks.{Ranked};

    ghost Value = { Ranked };

    ghost view = { λ r. record { hint = r.bits / 2 ^ 16; number = r.bits % 2 ^ 16 } };

    ghost invariant = { λ r. (r.bits < 2 ^ 48) × (r.bits % 2 ^ 16 < MEMBERS) };

    ghost inverse = { λ v. record { bits = v.hint * 2 ^ 16 + v.number } };

    ghost inverse_ok = { λ r h. ap (λ (b : ℕ). record { bits = b }) (div-add-mod' r.bits (2 ^ 16)) };
}

impl Rank {
    /// The rank of a member with this hint of its place and this number.
    #[inline]
    pub fn new(hint: u32, number: MemberId) -> Rank
        ensures { result ≡ record { hint = hint; number = number } }
    {
        Rank {
            bits: u64::from(hint) * NUMBERS + u64::from(number.get()),
        }
    }

    /// The hint of the member's place.
    #[inline]
    pub fn hint(self) -> u32
        ensures { result ≡ self.hint }
    {
        (self.bits / NUMBERS) as u32
    }

    /// 1 where this member comes before the other one, and else 0. It counts one step. The answer is a difference and no
    /// branch: which way a search goes can't be foretold.
    #[inline]
    pub fn precedes<L: Ledger>(self, other: Rank, steps: &mut Steps<L>) -> usize
        requires own_tells { self.hint < 2 ^ 32 - 1 }
        requires other_tells { other.hint < 2 ^ 32 - 1 }
        ensures value { (j k : Key) → self.hint ≡ hint_of j.place → self.number ≡ j.number
            → other.hint ≡ hint_of k.place → other.number ≡ k.number
            → result ≡ (if is_below j k then 1 else 0) }
        ensures range { result ≤ 1 }
        ensures step { steps.new ≡ steps.old + 1 }
    {
        steps.add_one();
        ((other.bits + (RANKS - 1) - self.bits) / RANKS) as usize
    }
}
