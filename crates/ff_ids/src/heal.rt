//! The option by which nodes that lost each other come together again.

ghost use Rattle.std.specs.Prelude.{◌≡◌, ◌↔◌, ◌≤◌, is_some, true, IfSome};
ghost use Rattle.ff_ids.specs.Heals.{IsWithinRanges};

use std::marker::Model;

/// How the nodes of a group come together again: how often each asks a member that is out of its view, and how many notes
/// it signs for others' sake. Contracts see the two numbers.
#[derive(Clone, Copy, Debug, PartialEq, Eq)]
pub struct Heal {
    every: u16,
    most: u16,
}

impl Model for Heal {
    ghost use Rattle.std.specs.Prelude.{ℕ, ◌≤◌};
    ghost use Rattle.ff_ids.specs.Heals.{Heal};

    ghost Value = { Heal };

    ghost view = { λ h. record { every = h.every; most = h.most } };

    ghost invariant = { λ h. (2 ≤ h.every) × ((h.every ≤ 1000) × (h.most ≤ 1000)) };

    ghost inverse = { λ v. record { every = v.every; most = v.most } };
}

impl Heal {
    /// One round of each `every`, which is 2 to 1,000, goes to a member out of the view; and `most`, 0 to 1,000, is how many
    /// notes a node signs within one timeout as answers and to come back, 0 for any number of them. None for other numbers.
    pub fn new(every: u16, most: u16) -> Option<Heal>
        ensures value { IfSome result (λ h. h ≡ record { every = every; most = most }) }
        ensures range { (is_some result ≡ true) ↔ IsWithinRanges (record { every = every; most = most }) }
    {
        if (2..=1_000).contains(&every) && most <= 1_000 {
            Some(Heal { every, most })
        } else {
            None
        }
    }

    /// Of how many rounds one goes to a member out of the view.
    pub fn every(self) -> u16
        ensures value { result ≡ self.every }
        ensures range { 2 ≤ result }
    {
        self.every
    }

    /// How many notes are signed within one timeout at most; any number where it is 0.
    pub fn most(self) -> u16
        ensures { result ≡ self.most }
    {
        self.most
    }
}
