//! The numbers of members, rising.

ghost use Rattle.std.specs.Prelude.{◌≡◌, ℕ, ◌+◌, ◌<◌, ◌≤◌, true, [], length, IfOk};
ghost use Rattle.std.specs.List.Sorted.{IsNonDecreasing, IsPartitionPoint};
ghost use Rattle.ff_ids.specs.declared.TheConstants.{MEMBERS};
ghost use Rattle.monitor_rule.specs.Listed.{is_listed, with_number, without_number};

use ff_ids::{MEMBERS, MemberId};
use std::alloc::{AllocError, Global};
use std::marker::Model;

/// Numbers of members, rising. Contracts see the list of them.
#[derive(Drop)]
pub struct Numbers {
    list: Vec<MemberId>,
}

impl Model for Numbers {
    ghost use Rattle.std.specs.Prelude.{ℕ, List, ◌≤◌, vec_capacity};
    ghost use Rattle.std.specs.List.Sorted.{IsNonDecreasing};
    ghost use Rattle.ff_ids.specs.declared.TheConstants.{MEMBERS};

    ghost Value = { List ℕ };

    ghost view = { λ n. n.list.items };

    ghost invariant = { λ n. IsNonDecreasing n.list.items × (MEMBERS ≤ vec_capacity n.list) };
}

/// How many of the numbers, which rise, are below this one.
fn place_among(numbers: &[MemberId], number: MemberId) -> usize
    requires { IsNonDecreasing numbers.now }
    ensures place { IsPartitionPoint (λ n. n < number) (λ n. number ≤ n) numbers.now result }
    ensures range { result ≤ length numbers.now }
{
    numbers.partition_point(|other| other.get() < number.get())
}

impl Numbers {
    /// None yet. The room for every number is taken here.
    pub fn new(alloc: Global) -> Result<Numbers, AllocError>
        ensures { IfOk result (λ n. n ≡ []) }
    {
        Ok(Numbers {
            list: Vec::with_capacity(alloc, MEMBERS as usize)?,
        })
    }

    /// All of them.
    pub fn all(&self) -> &[MemberId]
        ensures { result.now ≡ self.now }
    {
        &self.list
    }

    /// Puts the number in, at its place.
    pub fn put(&mut self, number: MemberId)
        requires { length self.old < MEMBERS }
        ensures { self.new ≡ with_number number self.old }
    {
        let place = place_among(&self.list, number);
        let _ = self.list.insert(place, number);
    }

    /// Takes out a number that is there.
    pub fn take_out(&mut self, number: MemberId)
        requires { is_listed self.old number ≡ true }
        ensures { self.new ≡ without_number number self.old }
    {
        let place = place_among(&self.list, number);
        let _ = self.list.remove(place);
    }

    /// Takes out all of them.
    pub fn clear(&mut self)
        ensures { self.new ≡ [] }
    {
        self.list.clear();
    }
}
