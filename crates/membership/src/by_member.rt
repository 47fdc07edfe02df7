//! A value for each member that has one, as a finite map by number.

ghost use Rattle.std.specs.Prelude.{◌≡◌, ◌<◌, ◌≤◌, IfOk, is_some, length, vec_capacity};
ghost use Rattle.std.specs.Option.{option_copied};
ghost use Rattle.std.specs.FinMap as map;
ghost use Rattle.ff_ids.specs.declared.TheConstants.{MEMBERS};
ghost use Rattle.membership.specs.Slots.{map_of, taken_from};

use ff_ids::{MEMBERS, MemberId};
use std::alloc::{AllocError, Global};
use std::marker::Model;

/// A value for each member that has one, found by its number at once. Contracts see the finite map from numbers
/// to values.
#[derive(Drop)]
pub struct ByMember<T> {
    /// By number, up to the greatest that had a value: the memory of greater ones stays untouched.
    slots: Vec<Option<T>>,
}

impl<T> Model for ByMember<T> {
    ghost use Rattle.std.specs.Prelude.{◌≤◌, length, vec_capacity};
    ghost use Rattle.std.specs.Ordering.{nat_cmp};
    ghost use Rattle.std.specs.FinMap as map;
    ghost use Rattle.std.specs.Coded.{coded_ℕ};
    ghost use Rattle.ff_ids.specs.declared.TheConstants.{MEMBERS};
    ghost use Rattle.membership.specs.Slots.{taken_from};

    ghost Value = { map.FinMap nat_cmp T };

    ghost coded = { map.code coded_ℕ T.code };

    ghost view = { λ b. map.from_entries (taken_from 0 b.slots.items) };

    ghost invariant = { λ b. (length b.slots.items ≤ MEMBERS)
        × (MEMBERS ≤ vec_capacity b.slots) };
}

/// Makes the slots reach up to this one, for which they have room. Those that are new are empty.
fn reach<T: Drop>(slots: &mut Vec<Option<T>>, index: usize)
    requires within { index < MEMBERS }
    requires few { length slots.old.items ≤ MEMBERS }
    requires room { MEMBERS ≤ vec_capacity slots.old }
    ensures reached { index ≤ length slots.new.items }
    ensures few { length slots.new.items ≤ MEMBERS }
    ensures room { MEMBERS ≤ vec_capacity slots.new }
    ensures same { taken_from 0 slots.new.items ≡ taken_from 0 slots.old.items }
{
    'growing: while slots.len() < index {
        slots.push_reserved(None);
    }
}

/// Writes the value into this slot, up to which the slots reach. A slot that is new is written once.
fn fill<T: Drop>(slots: &mut Vec<Option<T>>, index: usize, value: T)
    requires within { index < MEMBERS }
    requires reached { index ≤ length slots.old.items }
    requires few { length slots.old.items ≤ MEMBERS }
    requires room { MEMBERS ≤ vec_capacity slots.old }
    ensures value { map_of slots.new.items ≡ map.insert (map_of slots.old.items) index value }
    ensures few { length slots.new.items ≤ MEMBERS }
    ensures room { MEMBERS ≤ vec_capacity slots.new }
{
    if index < slots.len() {
        slots[index] = Some(value);
    } else {
        slots.push_reserved(Some(value));
    }
}

impl<T: Drop> ByMember<T> {
    /// No member has a value. The room for all of them is taken here.
    pub fn new(alloc: Global) -> Result<ByMember<T>, AllocError>
        ensures { IfOk result (λ b. b ≡ map.empty) }
    {
        Ok(ByMember {
            slots: Vec::with_capacity(alloc, MEMBERS as usize)?,
        })
    }

    /// The value of the member.
    pub fn get(&self, member: MemberId) -> Option<&T>
        ensures { option_copied result ≡ map.get self.now member }
    {
        let index = member.get() as usize;
        if index < self.slots.len() {
            self.slots[index].as_ref()
        } else {
            None
        }
    }

    /// Whether the member has a value.
    pub fn contains(&self, member: MemberId) -> bool
        ensures { result ≡ map.contains_key self.now member }
    {
        self.get(member).is_some()
    }

    /// Gives the member this value, in place of any that it has.
    pub fn set(&mut self, member: MemberId, value: T)
        ensures value { self.new ≡ map.insert self.old member value }
        ensures range { member < MEMBERS }
    {
        let index = member.get() as usize;
        reach(&mut self.slots, index);
        fill(&mut self.slots, index, value);
    }

    /// Takes away each value.
    pub fn clear(&mut self)
        ensures { self.new ≡ map.empty }
    {
        self.slots.clear();
    }
}
