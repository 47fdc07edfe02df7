//! The members that a roster has named.

ghost use Rattle.std.specs.Prelude.{◌≡◌, ◌<◌, ◌==◌, [], ◌∷◌, ◌++◌, length, nat_lt};
ghost use Rattle.std.specs.List.{list_any};

use ff_ids::MemberId;
use std::marker::Model;

/// How many members a world may have.
const MEMBERS: usize = 32;

/// Up to 32 members, in the order in which they were named. Contracts see their list.
#[derive(Debug, Drop)]
pub struct Named {
    slots: [MemberId; 32],
    held: usize,
}

impl Model for Named {
    ghost use Rattle.std.specs.Prelude.{ℕ, List, ◌≤◌, take};

    ghost Value = { List ℕ };

    ghost view = { λ n. take n.held n.slots };

    ghost invariant = { λ n. n.held ≤ 32 };
}

impl Named {
    /// Nobody is named.
    pub fn new() -> Named
        ensures { result ≡ [] }
    {
        Named {
            slots: [MemberId::new(0); 32],
            held: 0,
        }
    }

    fn as_slice(&self) -> &[MemberId]
        ensures { result.now ≡ self.now }
    {
        &self.slots[..self.held]
    }

    /// Whether nobody is named.
    pub fn is_empty(&self) -> bool
        ensures { result ≡ (length self.now == 0) }
    {
        self.as_slice().is_empty()
    }

    /// Whether one more may be named.
    pub fn has_room(&self) -> bool
        ensures { result ≡ nat_lt (length self.now) 32 }
    {
        self.as_slice().len() < MEMBERS
    }

    /// Whether the member is named.
    pub fn contains(&self, member: MemberId) -> bool
        ensures { result ≡ list_any (λ m. member == m) self.now }
    {
        self.as_slice().iter().any(|m| member == *m)
    }

    /// Names one more. Fewer than 32 are named.
    pub fn push(&mut self, member: MemberId)
        requires { length self.old < 32 }
        ensures { self.new ≡ self.old ++ member ∷ [] }
    {
        self.slots[self.held] = member;
        self.held += 1;
    }
}
