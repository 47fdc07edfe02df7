//! When a disk in memory with a node's store matches a disk of the rules of worlds, as definitions and theorems alone.
//! Each theorem is the contract of a function that does nothing.

ghost use Rattle.world_host.specs.DiskLaws.{ArmsAsTold, CallsAsTold, CrashesAsTold, MakesAsTold, OpensAsTold, PutsAsTold, ReadsAsTold, StartsAsTold};

/// The calls that make a store on a new disk pass, and leave it.
pub fn stores_are_made_as_told()
    ensures { MakesAsTold }
{}

/// The calls that open a store pass or meet the armed stop as the rules say, and leave the store.
pub fn stores_open_as_told()
    ensures { OpensAsTold }
{}

/// A store that is opened on such a disk is the one that the disk has; or the armed stop came.
pub fn stores_are_read_as_told()
    ensures { ReadsAsTold }
{}

/// The calls that put an entry pass or meet the armed stop as the rules say; and then the store has the entry or not, as
/// they say too.
pub fn entries_are_put_as_told()
    ensures { PutsAsTold }
{}

/// A crash between two calls leaves the store.
pub fn crashes_leave_the_store()
    ensures { CrashesAsTold }
{}

/// A stop that is armed takes the place of one that was.
pub fn stops_are_armed_as_told()
    ensures { ArmsAsTold }
{}

/// A call of a node comes as far over a disk in memory as over the disk of the rules, reports and sends the same, and leaves
/// disks that stand for one another.
pub fn calls_come_as_told()
    ensures { CallsAsTold }
{}

/// What a life's first note leaves is put, or the armed stop comes, as the rules say.
pub fn lives_begin_as_told()
    ensures { StartsAsTold }
{}
