//! Leaves that sign once.

ghost use Rattle.std.specs.Prelude.{◌≡◌, ◌+◌, ◌<◌, ◌≤◌, ◌↔◌, IsNone, IfSome, IfNone, OnSome};
ghost use Rattle.lms_tree.specs.Kinds.{leaf_count};

use crate::secret::Secret;
use std::marker::Model;
use std::sync::ledger::Blank;

/// The leaves of a key that were not handed out, in order. Where a number was skipped or handed out, it
/// does not come again.
#[derive(Drop)]
pub struct Leaves {
    secret: Secret,
    next: u32,
    // Takes no bytes. Its type has no copy, so that no derive gives the leaves one.
    unique: Blank,
}

impl Model for Leaves {
    ghost use Rattle.std.specs.Prelude.{◌≤◌};
    ghost use Rattle.lms_tree.specs.Kinds.{leaf_count};
    ghost use Rattle.lms_tree.specs.Leaves.{LeavesOf};

    ghost Value = { LeavesOf };

    ghost view = { λ l. record { key = l.secret; next = l.next } };

    ghost invariant = { λ l. l.next ≤ leaf_count l.secret.tree };
}

impl Leaves {
    /// All leaves of a key.
    pub(crate) fn all(secret: Secret) -> Leaves
        ensures { result ≡ record { key = secret; next = 0 } }
    {
        Leaves {
            secret,
            next: 0,
            unique: Blank::new(1),
        }
    }

    /// The number of the next leaf, or the number of all leaves where none is left.
    pub fn next(&self) -> u32
        ensures value { result ≡ self.now.next }
        ensures bound { result ≤ leaf_count self.now.key.tree }
    {
        self.next
    }

    /// Goes on to leaf `q`, and gives up those before it.
    pub fn skip_to(&mut self, q: u32)
        requires forward { self.old.next ≤ q }
        requires within { q ≤ leaf_count self.old.key.tree }
        ensures { self.new ≡ record self.old { next = q } }
    {
        self.next = q;
    }

    /// The next leaf, or none where all are gone.
    pub fn take(&mut self) -> Option<Leaf>
        ensures none { IsNone result ↔ (self.old.next ≡ leaf_count self.old.key.tree) }
        ensures leaf { IfSome result
            (λ leaf. leaf ≡ record { key = self.old.key; index = self.old.next }) }
        ensures risen { OnSome result (self.new ≡ record self.old { next = self.old.next + 1 }) }
        ensures same { IfNone result (self.new ≡ self.old) }
    {
        if self.next == self.secret.tree.leaf_count() {
            return None;
        }
        let index = self.next;
        self.next += 1;
        Some(Leaf {
            secret: self.secret,
            index,
            unique: Blank::new(1),
        })
    }
}

/// A leaf of a key, which signs one message. It can be neither copied nor let go: it is spent by
/// `Tree::sign` or by `retire`.
pub struct Leaf {
    secret: Secret,
    index: u32,
    // As in the leaves.
    unique: Blank,
}

impl Model for Leaf {
    ghost use Rattle.std.specs.Prelude.{◌<◌};
    ghost use Rattle.lms_tree.specs.Kinds.{leaf_count};
    ghost use Rattle.lms_tree.specs.Leaves.{LeafOf};

    ghost Value = { LeafOf };

    ghost view = { λ l. record { key = l.secret; index = l.index } };

    ghost invariant = { λ l. l.index < leaf_count l.secret.tree };
}

impl Leaf {
    /// The leaf's number.
    pub fn index(&self) -> u32
        ensures value { result ≡ self.now.index }
        ensures bound { result < leaf_count self.now.key.tree }
    {
        self.index
    }

    /// Gives the leaf up without a signature.
    pub fn retire(self) {
        let Leaf {
            secret: _,
            index: _,
            unique: _,
        } = self;
    }

    /// Spends the leaf on a signature, which has its number.
    pub(crate) fn spend(self) -> u32
        ensures value { result ≡ self.index }
        ensures bound { result < leaf_count self.key.tree }
    {
        let Leaf {
            secret: _,
            index,
            unique: _,
        } = self;
        index
    }
}
