//! Floor: program. The journal of each life that the command `node` serves to its end is one that an audit with the right head
//! calls good; and what such a journal gives rests on the life that it is of. Each theorem is the contract of a function that does
//! nothing.
#![tactic(auto)]

ghost use Rattle.shown_laws.specs.Own.{OwnJournalsAreShown};
ghost use Rattle.shown_laws.specs.Resting.{OwnHeadsAreCertified, ShownJournalsRest};
ghost use Rattle.shown_laws.specs.Runs.{OwnRunsAreShown};

use node_rules::own_records_verify;

/// The journal of a member's life, cut at its line feeds, is Shown from the head that gives the member's group, its
/// certificates, what its store kept, and the kind of its key's bottom trees. The member is one that a text sets up, an index of
/// its key is left, and its store's epoch isn't above its next index. What comes over the link is bytes.
pub fn own_journals_are_shown()
    ensures { OwnJournalsAreShown }
{
    own_records_verify();
}

/// Each journal that a run of the command has written under Ok is so, from the head of the member that was read and of what the
/// store kept that was found; its turns are those that the link and the clock of the run brought.
pub fn own_runs_are_shown()
    ensures { OwnRunsAreShown }
{
    own_journals_are_shown();
}

/// What a journal gives that is Shown rests on a life that began with the head, with no trust in its writer: each removal is that
/// of a life by its rules, and rests on an accusation that was accepted, verified, and stood for the timeout, or on a leaving note;
/// each accepted record verifies. Of the member's own signatures it says so of those that verify, as each does that a line shows.
/// The head is certified, as that of each member is that a text sets up.
pub fn shown_journals_rest()
    ensures rest { ShownJournalsRest }
    ensures certified { OwnHeadsAreCertified }
{}
