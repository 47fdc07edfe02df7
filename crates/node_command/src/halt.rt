//! Why the run of a member stopped.

ghost use Rattle.std.specs.Prelude.{◌≡◌};
ghost use Rattle.node_command.specs.Halts.{IsOfOpening, IsOfStart, halt_by, halt_for, halt_of, halt_served};

use epoch_store::StoreError;
use line_text::BadWord;
use node_core::NodeFault;
use node_loop::ServeFault;
use play::Stop;

/// Why the run of a member stopped before it did all.
#[derive(Clone, Copy, Debug, PartialEq, Eq)]
pub enum NodeHalt {
    /// The line of this number was refused, or with no line left the text's end.
    Refused { line: u32, word: BadWord },
    /// A read failed.
    ReadFault,
    /// A write failed.
    WriteFault,
    /// The disk failed.
    StoreFault,
    /// The file is no store of the key: it breaks, or differs, at this place, where this byte stands, or none past the end.
    StoreBroken { place: u64, byte: Option<u8> },
    /// The port could not be bound.
    LinkFault,
    /// The key has no index from this number on.
    Exhausted { next: u32 },
    /// Memory was refused.
    OutOfMemory,
}

impl From<Stop<BadWord>> for NodeHalt {
    ghost from_gives = { λ stop halt. halt ≡ halt_of stop };

    fn from(stop: Stop<BadWord>) -> NodeHalt {
        match stop {
            Stop::Refused { line, cause } => NodeHalt::Refused { line, word: cause },
            Stop::ReadFault => NodeHalt::ReadFault,
            Stop::WriteFault => NodeHalt::WriteFault,
            Stop::OutOfMemory => NodeHalt::OutOfMemory,
        }
    }
}

impl NodeHalt {
    /// Why a store was not opened.
    pub(crate) fn unopened(error: StoreError) -> NodeHalt
        requires { IsOfOpening error }
        ensures { result ≡ halt_for error }
    {
        match error {
            StoreError::Fault => NodeHalt::StoreFault,
            StoreError::Taken { .. } => unreachable!(),
            StoreError::Broken { place, byte } => NodeHalt::StoreBroken { place, byte },
            StoreError::OtherKey { place, byte } => NodeHalt::StoreBroken {
                place,
                byte: Some(byte),
            },
            StoreError::OutOfMemory => NodeHalt::OutOfMemory,
        }
    }

    /// Why a life did not start.
    pub(crate) fn unstarted(fault: NodeFault) -> NodeHalt
        requires { IsOfStart fault }
        ensures { result ≡ halt_by fault }
    {
        match fault {
            NodeFault::StoreFault => NodeHalt::StoreFault,
            NodeFault::OutOfMemory => NodeHalt::OutOfMemory,
            NodeFault::Exhausted { next } => NodeHalt::Exhausted { next },
            NodeFault::Ended => unreachable!(),
        }
    }
}

impl From<ServeFault> for NodeHalt {
    ghost from_gives = { λ fault halt. halt ≡ halt_served fault };

    fn from(fault: ServeFault) -> NodeHalt {
        match fault {
            ServeFault::StoreFault => NodeHalt::StoreFault,
            ServeFault::WriteFault => NodeHalt::WriteFault,
            ServeFault::OutOfMemory => NodeHalt::OutOfMemory,
        }
    }
}
