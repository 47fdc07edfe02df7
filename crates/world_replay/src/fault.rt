//! Why a workload isn't played to its end.

use ff_ids::MemberId;
use records::Body;

/// Why a workload isn't played to its end.
#[derive(Clone, Copy, Debug, PartialEq, Eq)]
pub enum SoakFault {
    /// The line of this number hands over a record that verifies under the key of this node, or of the authority where
    /// there is none, and was never signed with it.
    Forged {
        line: u32,
        who: Option<MemberId>,
        body: Body,
    },
    OutOfMemory,
}
