//! Why a command of an authority stopped.

ghost use Rattle.std.specs.Prelude.{◌≡◌};
ghost use Rattle.authority.specs.Halts.{halt_for, halt_of};

use epoch_store::StoreError;
use line_text::BadWord;
use play::Stop;

/// Why a command stopped before it did all.
#[derive(Clone, Copy, Debug, PartialEq, Eq)]
pub enum Halt {
    /// The line of this number was refused, or with no line left the text's end.
    Refused { line: u32, word: BadWord },
    /// A read failed.
    ReadFault,
    /// A write failed.
    WriteFault,
    /// The disk failed.
    StoreFault,
    /// The file is no store of the key: it breaks, or differs, at this place, where this byte stands, or none past the end.
    StoreBroken { place: u64, byte: Option<u8> },
    /// The file has so many bytes already.
    StoreTaken { len: u64 },
    /// The key has no leaf from this number on.
    Exhausted { next: u32 },
    /// Memory was refused.
    OutOfMemory,
}

impl From<Stop<BadWord>> for Halt {
    ghost from_gives = { λ stop halt. halt ≡ halt_of stop };

    fn from(stop: Stop<BadWord>) -> Halt {
        match stop {
            Stop::Refused { line, cause } => Halt::Refused { line, word: cause },
            Stop::ReadFault => Halt::ReadFault,
            Stop::WriteFault => Halt::WriteFault,
            Stop::OutOfMemory => Halt::OutOfMemory,
        }
    }
}

impl From<StoreError> for Halt {
    ghost from_gives = { λ error halt. halt ≡ halt_for error };

    fn from(error: StoreError) -> Halt {
        match error {
            StoreError::Fault => Halt::StoreFault,
            StoreError::Taken { len } => Halt::StoreTaken { len },
            StoreError::Broken { place, byte } => Halt::StoreBroken { place, byte },
            StoreError::OtherKey { place, byte } => Halt::StoreBroken {
                place,
                byte: Some(byte),
            },
            StoreError::OutOfMemory => Halt::OutOfMemory,
        }
    }
}
