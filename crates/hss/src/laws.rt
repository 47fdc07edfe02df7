//! Laws of pairs.

ghost use Rattle.hss.specs.Pairs.{LeavesDiffer, TopSignsOneKey};

/// Each top leaf signs one message, the public key of its own bottom tree, however often the pair is made again; and no two
/// indexes have one leaf of a bottom tree. So where indexes are spent once, leaves of both levels sign once.
pub fn leaves_sign_once()
    ensures top { TopSignsOneKey }
    ensures bottom { LeavesDiffer }
{}
