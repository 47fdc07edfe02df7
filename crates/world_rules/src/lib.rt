//! Floor: world. What a world of nodes does with each line of a schedule, as definitions and theorems: the disks and
//! calls of its nodes, its lines with their verdicts and events, and the one walk over a text. Each theorem is the
//! contract of a function that does nothing; of the code, only the types of verdicts and of causes
//! stand here. The contracts of all
//! crates of worlds cite it.
#![tactic(auto)]

ghost use Rattle.world_rules.specs.Laws.{CallsComeSoFar, EachRemovalIsJustified, NodesSpendOnce};

mod cause;
mod verdict;

pub use cause::Cause;
pub use verdict::{MemberList, RefusalReason, Verdict};

/// A call of a node over its disk is the node's call, whole; or, where an armed stop comes, the call up to the put in
/// which it does.
pub fn calls_come_so_far()
    ensures { CallsComeSoFar }
{}

/// Over all lives of a node, whatever stops it and whatever its disk is left as, the indexes that its key spends rise
/// strictly, and so do the epochs of its notes.
pub fn nodes_spend_once()
    ensures { NodesSpendOnce }
{}

/// What was reported of a node's view, line after line, is what its lives report, one after another; and in each of them each
/// member that goes out of the view does so by an accepted note of its own that leaves, or at a tick, and then an accusation
/// accepted earlier against it stood in each state between, for the timeout at least.
pub fn each_removal_is_justified()
    ensures { EachRemovalIsJustified }
{}
