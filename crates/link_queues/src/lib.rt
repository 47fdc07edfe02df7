//! Floor: program. The queues behind a link that serves the ports of its members fairly: one for each port at which a
//! member is expected, and one for all other ports. It knows no sockets and no members' keys. `edges` puts its socket's
//! datagrams here.
#![tactic(auto)]

ghost use Rattle.link_queues.specs.Runs.{CountsWhatIsLost, HandsOnWhatCame};

mod queue;
mod queues;
mod senders;

pub use queues::{Queues, Sizes};

/// What is handed on from a queue had come for it: in order, each once, and nothing else.
pub fn hands_on_what_came()
    ensures { HandsOnWhatCame }
{}

/// The count of what was lost rises by just what came or waited and was neither handed on nor waits.
pub fn counts_what_is_lost()
    ensures { CountsWhatIsLost }
{}
