//! Which kept accusations a step can end, as laws of the definitions.

ghost use Rattle.membership.specs.Touched.{LeavingNoteEnds, NewcomerEnds, NewerNoteEnds, OutsiderEnds, RemovalEnds};

/// A member that enters can end only the kept accusation against its successor on each ring. A newer note of a member
/// in the view can end only those against it, and where its mask is 0 also those by it; a note of one that is out of the
/// view and stays out ends none. A removal can end only those by or against a removed member.
pub fn only_the_touched_end()
    ensures newcomer { NewcomerEnds }
    ensures note { NewerNoteEnds }
    ensures leaving { LeavingNoteEnds }
    ensures outside { OutsiderEnds }
    ensures removal { RemovalEnds }
{}
