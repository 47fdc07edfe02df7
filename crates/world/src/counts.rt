//! How often things came.

ghost use Rattle.std.specs.Prelude.{◌≡◌, ℕ, ◌+◌};
ghost use Rattle.world_rules.specs.Settings.{Setting};
ghost use Rattle.world_rules.specs.Counts.{Counts as Counted, nothing_counted, with_event};
ghost use Rattle.world.specs.Counting.{AreKept, kept, removes_node};

use journal::What;
use records::Body;

/// How often things came in a world. A count stands still at its type's end.
#[derive(Clone, Copy, Debug, PartialEq, Eq)]
pub struct Counts {
    /// Datagrams that nodes sent.
    pub sent: u64,
    /// Notes that were delivered and accepted.
    pub notes: u64,
    /// Accusations that were delivered and accepted.
    pub accusations: u64,
    /// Records that were delivered and refused.
    pub refused: u64,
    /// Members that were removed from a node's view.
    pub removed: u64,
    /// Those of them that are nodes.
    pub removed_correct: u64,
    /// Indexes that nodes spent.
    pub spent: u64,
}

/// One more, unless the count is at its type's end.
fn one_more(count: u64) -> u64
    ensures { (n : ℕ) → count ≡ kept n → result ≡ kept (n + 1) }
{
    count.saturating_add(1)
}

impl Counts {
    /// Nothing was counted.
    pub fn new() -> Counts
        ensures { AreKept result nothing_counted }
    {
        Counts {
            sent: 0,
            notes: 0,
            accusations: 0,
            refused: 0,
            removed: 0,
            removed_correct: 0,
            spent: 0,
        }
    }

    /// Counts what a node reported. Where a member was removed, `correct` says whether it is a node.
    pub fn count(&mut self, what: &What, correct: bool)
        ensures { (s : Setting) (c : Counted) → AreKept self.old c
            → correct ≡ removes_node s what.now → AreKept self.new (with_event s c what.now) }
    {
        match what {
            What::Sent { .. } => self.sent = one_more(self.sent),
            What::Took {
                body: Body::Note(_),
                fault: None,
            } => self.notes = one_more(self.notes),
            What::Took {
                body: Body::Accusation(_),
                fault: None,
            } => self.accusations = one_more(self.accusations),
            What::Took { fault: Some(_), .. } => self.refused = one_more(self.refused),
            What::Removed(_) => {
                self.removed = one_more(self.removed);
                if correct {
                    self.removed_correct = one_more(self.removed_correct);
                }
            }
            What::Spent { .. } => self.spent = one_more(self.spent),
            _ => {}
        }
    }
}
