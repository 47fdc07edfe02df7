//! Floor: membership. Theorems on the rules that hold in every life, whatever its events are. Each is the contract of a
//! function that does nothing. The theorems on traces, nodes and worlds cite them.
#![tactic(auto)]

ghost use Rattle.life_laws.specs.Newest.{NewestIsGreatest, OrderOfNotes, OrderOfAllowedNotes};
ghost use Rattle.life_laws.specs.Sameness.{OneView, OneViewOfLives};
ghost use Rattle.life_laws.specs.Removals.{AnswerEndsAcceptance, AnswersHold, AnswersRevoke, EachLifeIsJustified};

/// The newest note of a member is the greatest of its notes, and there is none exactly where it has no note.
pub fn newest_is_greatest()
    ensures { NewestIsGreatest }
{}

/// Whatever the order and the repeats in which notes come, the newest kept note of each member is the
/// greatest of those that have an allowed mask and whose member has joined.
pub fn order_of_notes()
    ensures all { OrderOfNotes }
    ensures allowed { OrderOfAllowedNotes }
{}

/// Two states with the same notes and the same expired accusations have the same view. So have two lives of a group that
/// accept the same notes and report the same accusations as expired, whatever their order and repeats.
pub fn one_view()
    ensures states { OneView }
    ensures lives { OneViewOfLives }
{}

/// In every life each member that goes out of the view does so by an accepted note of its own that leaves, or at a tick, and
/// then an accusation accepted earlier against it stood in each state between, for the timeout at least.
pub fn each_life_is_justified()
    ensures { EachLifeIsJustified }
{}

/// Once a note is accepted, no accusation of an older epoch against its member is accepted or expires. One that it answers
/// otherwise expires only where it was accepted again, and stood for the timeout since.
pub fn answers_hold()
    ensures older { AnswersHold }
    ensures answered { AnswersRevoke }
{}

/// An accepted note ends the acceptance of each accusation against its member that has another epoch or is on
/// a ring which the note disables.
pub fn answer_ends_acceptance()
    ensures { AnswerEndsAcceptance }
{}
