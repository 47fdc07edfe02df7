//! Floor: program. What the journal of a life gives: each line that gives a removal, an expiry, an acceptance, an accusation of the
//! node's own or a datagram rests on what the turns have brought, as `turn_rules` says; and each accusation that the node signs
//! is shown by a line. Each theorem is the contract of a function that does nothing. `node_command` proves by the lemmas what a
//! run has written.
#![tactic(auto)]

ghost use Rattle.turn_laws.specs.Resting.{JournalsRestOnLives};
ghost use Rattle.turn_laws.specs.Showing.{GivenAccusationsAreShown, SignedAccusationsAreShown};

/// Whatever the turns of a life bring, whichever of its datagrams are lost, and whether it leaves: each line of its journal that
/// gives a removal, an expiry, an accepted record, an own accusation or a datagram rests on the life. Of own signatures it says
/// that those verify of which that is claimed.
pub fn journals_rest_on_lives()
    ensures { JournalsRestOnLives }
{}

/// Each accusation that a node signs goes to the accused in the very tick that signs it. So the journal has a line that shows the
/// record, wherever a tick of the life spends an index on an accusation, and wherever a line gives that index.
pub fn own_accusations_are_shown()
    ensures signed { SignedAccusationsAreShown }
    ensures given { GivenAccusationsAreShown }
{}
