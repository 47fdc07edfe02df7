//! Why a world can't go on.

ghost use Rattle.std.specs.Prelude.{◌≡◌};
ghost use Rattle.world.specs.declared.fault.WorldFault.TheVariants as faults;

use ff_ids::MemberId;
use fields::NoMemory;
use records::Body;
use std::alloc::{AllocError, AllocFailed};

/// Why a world can't go on.
#[derive(Clone, Copy, Debug, PartialEq, Eq)]
pub enum WorldFault {
    /// A record verifies under the key of this node, or of the authority where there is none, that was never signed with
    /// it.
    Forged { who: Option<MemberId>, body: Body },
    OutOfMemory,
}

impl From<NoMemory> for WorldFault {
    ghost from_gives = { λ _ fault. fault ≡ faults.OutOfMemory };

    fn from(_refused: NoMemory) -> WorldFault {
        WorldFault::OutOfMemory
    }
}

impl From<AllocError> for WorldFault {
    ghost from_gives = { λ _ fault. fault ≡ faults.OutOfMemory };

    fn from(_refused: AllocError) -> WorldFault {
        WorldFault::OutOfMemory
    }
}

impl<T: Drop> From<AllocFailed<T>> for WorldFault {
    ghost from_gives = { λ _ fault. fault ≡ faults.OutOfMemory };

    fn from(_refused: AllocFailed<T>) -> WorldFault {
        WorldFault::OutOfMemory
    }
}
