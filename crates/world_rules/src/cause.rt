//! What ends a schedule of a world early.

use ff_ids::MemberId;
use line_text::BadWord;
use records::Body;

/// Why a line isn't taken.
#[derive(Clone, Copy, Debug)]
pub enum Cause {
    /// The first bad word of the line.
    Bad(BadWord),
    /// A record that it hands over is forged: whose key seems to have signed it, none for the authority's, and what it says.
    Forged { who: Option<MemberId>, body: Body },
}
