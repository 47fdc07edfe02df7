//! The verdicts on the lines of a world.

ghost use Rattle.std.specs.Prelude.{◌≡◌, Some};
ghost use Rattle.world_rules.specs.Verdicts.{why_text};

use ff_ids::MemberId;
use std::fmt;
use std::marker::Model;

/// Why a line can't be done.
#[derive(Clone, Copy, Debug, PartialEq, Eq)]
pub enum RefusalReason {
    /// The member is no node.
    NotNode,
    /// The owner of the key is no liar.
    NotLiar,
    /// No record is kept under the name.
    NoName,
    /// No datagram of this number was sent.
    NoDatagram,
    /// The node runs already.
    Running,
    /// The node doesn't run.
    NotRunning,
    /// The node has left: its own newest note is a leaving one.
    Left,
    /// The key of the accused has signed no note of it.
    NoNote,
    /// The key that is to sign has no index from `first` on.
    UsedUp { first: u32 },
    /// The node holds no certificate of the member.
    UnknownMember,
}

impl fmt::Display for RefusalReason {
    ghost output = { λ why. Some (why_text why) };

    fn fmt<W: fmt::Write>(&self, f: &mut fmt::Formatter<W>) -> fmt::Result {
        match self {
            RefusalReason::NotNode => write!(f, "not-node"),
            RefusalReason::NotLiar => write!(f, "not-liar"),
            RefusalReason::NoName => write!(f, "no-name"),
            RefusalReason::NoDatagram => write!(f, "no-datagram"),
            RefusalReason::Running => write!(f, "running"),
            RefusalReason::NotRunning => write!(f, "stopped"),
            RefusalReason::Left => write!(f, "left"),
            RefusalReason::NoNote => write!(f, "no-note"),
            RefusalReason::UsedUp { first } => write!(f, "exhausted {first}"),
            RefusalReason::UnknownMember => write!(f, "unknown-member"),
        }
    }
}

/// Members in order, which contracts see as their list.
#[derive(Drop, Debug)]
pub struct MemberList {
    members: Vec<MemberId>,
}

impl Model for MemberList {
    ghost use Rattle.std.specs.Prelude.{ℕ, List};

    ghost Value = { List ℕ };

    ghost view = { λ l. l.members.items };
}

impl MemberList {
    pub fn from_vec(members: Vec<MemberId>) -> MemberList
        ensures { result ≡ members.items }
    {
        MemberList { members }
    }

    pub fn as_slice(&self) -> &[MemberId]
        ensures { result.now ≡ self.now }
    {
        self.members.as_slice()
    }
}

/// The verdict on a line.
#[derive(Drop, Debug)]
pub enum Verdict {
    /// A life of this number began, the first being 1.
    Began { life: u64 },
    /// The disk stopped as a life was to begin.
    DiskStopped,
    /// A liar spent this index.
    Spends { index: u32 },
    /// These are in the node's view.
    Sees(MemberList),
    /// The monitor that was asked for, if there is one.
    MonitoredBy(Option<MemberId>),
    /// The line can't be done.
    Refused(RefusalReason),
}
