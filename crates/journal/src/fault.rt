//! Why a text is not read as an event.

ghost use Rattle.std.specs.Prelude.{◌≡◌};
ghost use Rattle.journal.specs.declared.fault.EventFault.TheVariants.{BadEvent};

use crate::words::Misread;

/// Why a text is not read as what it should be.
#[derive(Clone, Copy, Debug, PartialEq, Eq)]
pub enum EventFault {
    /// At `place` begins the first word that fails, counted from 0; it is the text's length where no word fails
    /// and one is missing.
    BadEvent { place: usize },
    /// What the event holds found no memory.
    OutOfMemory,
}

impl From<Misread> for EventFault {
    ghost from_gives = { λ misread fault. fault ≡ BadEvent misread.place };

    fn from(misread: Misread) -> EventFault {
        EventFault::BadEvent {
            place: misread.place,
        }
    }
}
