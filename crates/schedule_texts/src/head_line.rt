//! The lines that are read.

use ff_ids::{Group, Heal, Mask, MemberId};
use lms_tree::{PublicKey, TreeKind};
use records::Checked;

/// One line of the head of a text that asks for an audit.
#[derive(Drop)]
pub enum HeadLine {
    /// `fireflies 1 audit`
    Header,
    /// `group T TIMEOUT PERIOD MISSES TAG`, as in the text of a member.
    Group(Group),
    /// `heal N A`, as in the text of a member.
    Heal(Heal),
    /// `self M`: the number of the member whose journal is judged.
    Own(MemberId),
    /// `authority KEY`: a public key in 56 bytes.
    Authority(PublicKey),
    /// `cert M PORT KEY SIGNATURE`, as in the text of a member.
    Cert(Checked),
    /// `state NEXT EPOCH MASK`: what the member's store keeps as its life begins: the next index, 0 to 32,768; the
    /// epoch, 0 to the next index; and the mask, with no bit at or above 63. Or `state NEXT EPOCH MASK H1`, exactly
    /// where the own certificate is above the line and its key has two levels: H1 is the height of its bottom trees,
    /// and both heights are at most 15 together.
    State {
        next: u32,
        epoch: u64,
        mask: Mask,
        bottom: Option<TreeKind>,
    },
    /// `journal`: the own number has a certificate. The head ends here, and the journal's lines follow.
    Journal,
    /// `end`, which may stand nowhere in a head: it ends the journal.
    End,
}

/// The first words of the lines below the header.
#[derive(Clone, Copy, Debug, PartialEq, Eq)]
pub enum LineWord {
    Group,
    Heal,
    Own,
    Authority,
    Cert,
    State,
    Journal,
    End,
}
