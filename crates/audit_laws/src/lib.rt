//! Floor: audit. What is still to come of a journal whose lines so far have come, and how that unfolds line by line; and
//! what lines have shown of a life that they leave open. The laws are the contracts of functions that do nothing. `audit`
//! proves by their lemmas that it judges each line as the definitions say.
#![tactic(auto)]

ghost use Rattle.audit_laws.specs.Apart.{SendingsAreApart, TextsTellSendings, LossesAreApart, TurnsAreApart, EndsAreApart, TurnsAreNoEnds};
ghost use Rattle.audit_laws.specs.Bodies.{BodiesAreTested};
ghost use Rattle.audit_laws.specs.Learning.{FatesAreLearned, PingsAreLearned, TurnsAreLearned, TurnsAreAdded, LeavingIsLearned, LeavingIsAdded, SignaturesAreLearned, OneIsTheLeast};
ghost use Rattle.audit_laws.specs.Unfolding.{LossesComeFirst, NothingElseIsLost, OwedEventsCome, OwedDatagramsCome, TicksAreMade, TicksAreLeftOut, TurnsCome, LeavingComes, JournalsEnd, JournalsComeWhole};

use fields::Bytes;
use records::Body;

/// An own signature that a line has shown: of this body, with this index.
#[derive(Drop)]
pub struct Signed {
    pub index: u32,
    pub body: Body,
    pub signature: Bytes,
}

/// Behind the line of a datagram its loss comes next, where it was lost.
pub fn losses_come_first()
    ensures lost { LossesComeFirst }
    ensures kept { NothingElseIsLost }
{}

/// What a call has reported comes line by line.
pub fn what_is_owed_comes()
    ensures events { OwedEventsCome }
    ensures datagrams { OwedDatagramsCome }
{}

/// Where nothing is owed, the ticks of the turn are made, then the next turn comes, then the leaving, and then the end.
pub fn turns_come()
    ensures made { TicksAreMade }
    ensures left_out { TicksAreLeftOut }
    ensures turns { TurnsCome }
    ensures leaving { LeavingComes }
    ensures ends { JournalsEnd }
{}

/// A journal is what is to come as its life begins.
pub fn journals_come_whole()
    ensures { JournalsComeWhole }
{}

/// What each thing that is learned of a life rules out.
pub fn what_is_learned()
    ensures fates { FatesAreLearned }
    ensures pings { PingsAreLearned }
    ensures turns { TurnsAreLearned }
    ensures added { TurnsAreAdded }
    ensures leaving { LeavingIsLearned }
    ensures left { LeavingIsAdded }
    ensures signatures { SignaturesAreLearned }
{}

/// Where of each body with an index one signature was shown, what was learned is learned of the life in which nothing else
/// happens.
pub fn one_is_the_least()
    ensures { OneIsTheLeast }
{}

/// Lines of other kinds are apart by their texts.
pub fn lines_are_apart()
    ensures sendings { SendingsAreApart }
    ensures told { TextsTellSendings }
    ensures losses { LossesAreApart }
    ensures turns { TurnsAreApart }
    ensures ends { EndsAreApart }
    ensures no_ends { TurnsAreNoEnds }
{}

/// Two bodies are found the same exactly where they are.
pub fn bodies_are_tested()
    ensures { BodiesAreTested }
{}
