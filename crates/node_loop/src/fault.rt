//! Why a node is served no longer.

ghost use Rattle.std.specs.Prelude.{◌≡◌, ◌≢◌};
ghost use Rattle.node_core.specs.Answers.{MayStop};
ghost use Rattle.node_core.specs.declared.NodeFault.TheVariants as node;

use fields::NoMemory;
use node_core::NodeFault;
use thiserror::Error;

/// Why a node is served no longer.
#[derive(Clone, Copy, Debug, PartialEq, Eq, Error)]
pub enum ServeFault {
    /// The disk failed in a signature of the node.
    #[error("the store failed")]
    StoreFault,
    /// The journal could not be written.
    #[error("the journal could not be written")]
    WriteFault,
    #[error("out of memory")]
    OutOfMemory,
}

/// A running node ends by its store or by want of memory: `Exhausted` comes as it starts, and `Ended` behind its end.
pub fn fault_of(fault: NodeFault) -> ServeFault
    requires { MayStop fault }
    ensures store { result ≡ ServeFault.StoreFault → fault ≡ node.StoreFault }
    ensures writes { result ≢ ServeFault.WriteFault }
    ensures other { fault ≡ node.StoreFault → result ≡ ServeFault.StoreFault }
{
    match fault {
        NodeFault::StoreFault => ServeFault::StoreFault,
        NodeFault::OutOfMemory => ServeFault::OutOfMemory,
        NodeFault::Exhausted { .. } | NodeFault::Ended => unreachable!(),
    }
}
