//! Why bytes are not read.

ghost use Rattle.std.specs.Prelude.{◌≡◌};
ghost use Rattle.records.specs.declared.fault.FormFault.TheVariants.{BadForm, OutOfMemory};

use crate::steps::Misread;
use fields::NoMemory;
use std::alloc::{AllocError, AllocFailed};

/// Why bytes are not read as what they should be.
#[derive(Clone, Copy, Debug, PartialEq, Eq)]
pub enum FormFault {
    /// At `place` begins the first field that is cut short or breaks its rule, counted from 0.
    BadForm { place: usize },
    OutOfMemory,
}

impl From<Misread> for FormFault {
    ghost from_gives = { λ misread fault. fault ≡ BadForm misread.place };

    fn from(misread: Misread) -> FormFault {
        FormFault::BadForm {
            place: misread.place,
        }
    }
}

impl From<NoMemory> for FormFault {
    ghost from_gives = { λ _ fault. fault ≡ OutOfMemory };

    fn from(_refused: NoMemory) -> FormFault {
        FormFault::OutOfMemory
    }
}

impl From<AllocError> for FormFault {
    ghost from_gives = { λ _ fault. fault ≡ OutOfMemory };

    fn from(_refused: AllocError) -> FormFault {
        FormFault::OutOfMemory
    }
}
