//! Floor: node. The loop that runs a node: turn after turn it hears the link and reads the clock, calls the node,
//! writes the node's events as the journal of the life, and sends its datagrams. `node_command` calls it.
#![tactic(auto)]

ghost use Rattle.node_loop.specs.Journals.{JournalsAreOfTurns};
ghost use Rattle.node_loop.specs.Turns.{LivesFollowTheClock, TicksFollowTheClock};

mod calls;
mod expecting;
mod fault;
mod serving;
mod telling;
mod turns;
mod unsigned;
mod writing;

pub use fault::ServeFault;
pub use serving::serve;
pub use telling::tell_all;

/// Behind a turn a life has made or forgotten a tick for each `millis` milliseconds of its reading since the base, unless the
/// turn made 64; and no more than those, if there were no more before the turn.
pub fn ticks_follow_the_clock()
    ensures { TicksFollowTheClock }
{}

/// In so many turns a life makes no more ticks than its clock gives: one for each `millis` milliseconds from the base to the
/// last reading. It makes just as many where none may be forgotten, unless its last turn made 64. Whether it leaves
/// behind them changes nothing of that.
pub fn lives_follow_the_clock()
    ensures { LivesFollowTheClock }
{}

/// A life that is served has come to the node, and has written the lines, of the turns which its link and its clock bring, where
/// the datagrams are lost whose sends the link fails.
pub fn journals_are_of_turns()
    ensures { JournalsAreOfTurns }
{}
