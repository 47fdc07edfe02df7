//! Floor: node. Datagrams: what one member sends to another in one piece, of at most 32,768 bytes. Their bytes, both
//! ways. `node_core` calls it, and `world` to look for forged records.
#![tactic(auto)]

ghost use Rattle.std.specs.Prelude.{◌≡◌};
ghost use Rattle.datagram.specs.Spelling.{is_wide as is_wide_summary};

pub use reading::read;
pub use writing::{bytes_of, records_head, write};

mod fields_in;
pub mod laws;
mod reading;
mod writing;

use ff_ids::{MemberId, Summary, is_wide};
use records::RecordList;

/// What a member sends to another.
#[derive(Drop, Debug)]
pub enum Datagram {
    /// Asks for an answer with the same nonce.
    Ping {
        from: MemberId,
        nonce: u64,
    },
    /// Answers the ping with this nonce.
    Pong {
        from: MemberId,
        nonce: u64,
    },
    /// What the sender holds of the members of one page, in order of number. Where the flag is set it answers
    /// another summary, and wants none back.
    Summary {
        from: MemberId,
        flag: bool,
        summary: Summary,
    },
    /// At least one record.
    Records {
        from: MemberId,
        records: RecordList,
    },
}

/// Whether a mask or the rings of an entry need eight bytes, since four don't hold them.
fn needs_eight(summary: &Summary) -> bool
    ensures { result ≡ is_wide_summary summary.now }
{
    summary
        .entries()
        .iter()
        .any(|entry| is_wide(entry.mask.0) || is_wide(entry.rings))
}
