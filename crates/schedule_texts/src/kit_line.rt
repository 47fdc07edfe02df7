//! The lines that are read.

use ff_ids::{Group, Heal, MemberId};
use lms_tree::PublicKey;
use records::Checked;
use sign_keys::{Kinds, SignKey};

/// One line of the text.
#[derive(Drop)]
pub enum KitLine {
    /// `fireflies 1 kit`
    Header,
    /// `group T TIMEOUT PERIOD MISSES TAG`: the tolerance, 1 to 31; the timeout in ticks, 1 to 10,000; the period,
    /// 1 to 1,000; the misses, 1 to 16; and the tag in 16 bytes.
    Group(Group),
    /// `kinds W H`: the width, 1, 2, 4 or 8, and the height, 5, 10 or 15. Or `kinds W H H1`, of a key of two levels:
    /// H1 is the height of its bottom trees, its width is 4 or 8, and its heights are at most 15 together.
    Kinds(Kinds),
    /// `heal N A`: nodes that lost each other come together again. Of each N rounds, 2 to 1,000, one goes to a member
    /// out of the view; and within one timeout a node signs at most A notes, 0 to 1,000, as answers and to come back,
    /// 0 for any number of them.
    Heal(Heal),
    /// `self M SECRET`: the own number and the own secret in 32 bytes; and the key of these kinds that the secret
    /// gives, of which no index was handed out.
    Own {
        member: MemberId,
        secret: [u8; 32],
        key: SignKey,
    },
    /// `authority KEY`: a public key in 56 bytes.
    Authority(PublicKey),
    /// `tick MILLIS`: how many milliseconds a tick lasts, 1 to 60,000.
    Tick {
        millis: u32,
    },
    /// `cert M PORT KEY SIGNATURE`: the certificate of a member that none of the lines before certifies, with a
    /// signature of 1 to 9,004 bytes that verifies under the authority's key in the group.
    Cert(Checked),
    /// `end`: the own number has a certificate of the own key.
    End,
}

/// The first words of the lines below the header.
#[derive(Clone, Copy, Debug, PartialEq, Eq)]
pub enum LineWord {
    Group,
    Kinds,
    Heal,
    Own,
    Authority,
    Tick,
    Cert,
    End,
}
