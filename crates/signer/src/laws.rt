//! Laws of what a key spends, over any lives: the contracts of functions that do nothing.

ghost use Rattle.signer.specs.Lives.{OnceOverLives, NothingSpent, KeptByOpening, KeptByMove, KeptByCrash, KeptBehindMove, SpentOnce};

/// Over any lives of a key and moves of its store, under whatever tags, each of which finds the store that a crash of
/// the one before has left, whatever it is: the indexes spent rise strictly, and so do the epochs of the notes.
pub fn once_over_lives()
    ensures { OnceOverLives }
{}

/// Opens, signatures, moves, stops and crashes in any order, step by step. `Signer::open` and the calls that sign say
/// what they add; these say the rest: where a key begins, what an opening, a move of the store and a crash leave of
/// it, and that what was spent in all, was spent once.
pub fn once_over_any_calls()
    ensures begins { NothingSpent }
    ensures opening { KeptByOpening }
    ensures moving { KeptByMove }
    ensures crash { KeptByCrash }
    ensures behind { KeptBehindMove }
    ensures once { SpentOnce }
{}
