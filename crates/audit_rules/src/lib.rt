//! Floor: audit. What a journal is judged by: the head with which an audit begins, which journals are lives of a correct
//! member from there, and which line goes on with those before it. Definitions alone. `audit` cites them.
#![tactic(auto)]

use epoch_store::Stored;
use ff_ids::{Group, Heal, MemberId};
use lms_tree::{PublicKey, TreeKind};
use records::Checked;
use thiserror::Error;

/// What an audit begins with, which its asker supplies: the group, with the option that nodes which lost each other come
/// together again or without it; whose journal it is; the authority's key; the certificates that the member's text had, in
/// order, its own among them; what its store kept as the life began; and where its key is of two levels the kind of its bottom
/// trees, which the public half doesn't show.
#[derive(Drop)]
pub struct Head {
    pub group: Group,
    pub heal: Option<Heal>,
    pub me: MemberId,
    pub authority: PublicKey,
    pub certificates: Vec<Checked>,
    pub stored: Stored,
    pub bottom: Option<TreeKind>,
}

/// Why a line doesn't go on with the journal before it.
#[derive(Clone, Copy, Debug, PartialEq, Eq, Error)]
pub enum AuditFault {
    /// It is no line of a journal.
    #[error("no line of a journal")]
    Form,
    /// It would go on but for an own signature, which doesn't verify, or isn't the one that a line before it showed.
    #[error("an own signature that doesn't verify, or isn't the one shown before")]
    Signature,
    /// A correct member doesn't write it there.
    #[error("not what a correct member writes there")]
    Differs,
    #[error("out of memory")]
    OutOfMemory,
}
