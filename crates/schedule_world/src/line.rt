//! The lines of the world form.

use ff_ids::{Epoch, Group, Heal, MemberId, NoteBody, RingNo};
use fields::{Bytes, Name};
use lms_ots::OtsKind;
use lms_tree::TreeKind;

/// One line of a schedule in the world form.
#[derive(Debug, Drop)]
pub enum WorldLine {
    /// `fireflies 1 world`
    Header,
    /// `group T TIMEOUT PERIOD MISSES TAG`
    Group {
        group: Group,
    },
    /// `kinds W H` or `kinds W H H1`: of the keys of all members; the authority's has one level, of W and H. Trees
    /// have a height of 5 or 10; of keys of two levels W is 4 or 8, and the heights are at most 15 together.
    Kinds {
        ots: OtsKind,
        tree: TreeKind,
        bottom: Option<TreeKind>,
    },
    /// `heal N A`: nodes that lost each other come together again. Of each N rounds, 2 to 1,000, one goes to a member
    /// out of the view; and within one timeout a node signs at most A notes, 0 to 1,000, as answers and to come back,
    /// 0 for any number of them.
    Heal {
        heal: Heal,
    },
    /// `node M`: a correct member.
    Node {
        member: MemberId,
    },
    /// `liar M`: a member whose key the schedule uses.
    Liar {
        member: MemberId,
    },
    /// `begin`: the roster is whole.
    Begin,
    /// `start M`: a new life.
    Start {
        member: MemberId,
    },
    /// `stop M C`: the node stops, and its disk crashes with this outcome.
    Stop {
        member: MemberId,
        outcome: u16,
    },
    /// `arm M N C`: the node's disk lets this many calls pass, up to 1,000, and stops in the next with this outcome.
    Arm {
        member: MemberId,
        calls: u64,
        outcome: u16,
    },
    /// `tick M N`: 1 to 10,000 ticks of the node.
    Tick {
        member: MemberId,
        ticks: u32,
    },
    /// `leave M`: the node signs a note with mask 0, by which it leaves the view.
    Leave {
        member: MemberId,
    },
    /// `deliver S M`: hands the datagram that was sent with this number to the node.
    Deliver {
        datagram: u64,
        member: MemberId,
    },
    /// `flow N`: hands over up to so many datagrams, 1 to 100,000.
    Flow {
        most: u32,
    },
    /// `raw M HEX`: hands up to 32,769 bytes to the node.
    Raw {
        member: MemberId,
        bytes: Bytes,
    },
    /// `sign-note KEY M EPOCH MASK NAME`: the liar `key` signs the note, which is kept under the name.
    SignNote {
        key: MemberId,
        note: NoteBody,
        name: Name,
    },
    /// `sign-accusation KEY A B EPOCH RING NAME`: likewise. The ring is 0 to 255. No epoch is `now`.
    SignAccusation {
        key: MemberId,
        accuser: MemberId,
        accused: MemberId,
        epoch: Option<Epoch>,
        ring: RingNo,
        name: Name,
    },
    /// `give NAME M`: hands the record of this name to the node.
    Give {
        name: Name,
        member: MemberId,
    },
    /// `give-all NAME`: hands it to each running node.
    GiveAll {
        name: Name,
    },
    /// `view M`
    View {
        member: MemberId,
    },
    /// `monitor M RING A`: the monitor of `of`, as the node sees it. The ring is 0 to 2t.
    Monitor {
        member: MemberId,
        ring: RingNo,
        of: MemberId,
    },
    /// `end`
    End,
}

/// The first words of the lines below the header.
#[derive(Clone, Copy, Debug, PartialEq, Eq)]
pub enum LineWord {
    Group,
    Kinds,
    Heal,
    Node,
    Liar,
    Begin,
    Start,
    Stop,
    Arm,
    Tick,
    Leave,
    Deliver,
    Flow,
    Raw,
    SignNote,
    SignAccusation,
    Give,
    GiveAll,
    View,
    Monitor,
    End,
}
