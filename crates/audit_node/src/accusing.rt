//! Accusations of the silent.

ghost use Rattle.std.specs.Prelude.{◌≡◌, List, true};
ghost use Rattle.journal.specs.declared.event.Event as journal;
ghost use Rattle.node_rules.specs.Nodes.{Setting};
ghost use Rattle.node_rules.specs.Calls.{Call};
ghost use Rattle.node_rules.specs.Ticking.{accuses, accuses_all};
ghost use Rattle.audit_node.specs.Playing.{Plays, Grows};

use crate::Mirror;
use ff_ids::{AccBody, MemberId};
use journal::What;
use peers::{has_accused, ring_for};
use std::alloc::Global;

impl Mirror {
    /// The silent member is accused, unless an accusation by this one against it is kept.
    pub(crate) fn accuse(&mut self, alloc: Global, member: MemberId)
        ensures plays { (s : Setting) (es : List journal.Event) (c : Call)
            → Plays s es self.old c → Plays s es self.new (accuses true s c member) }
        ensures grows { Grows self.old self.new }
    {
        if has_accused(&self.membership, self.me, member) {
            return;
        }
        self.tell(What::Silent(member));
        let Some(note) = self.membership.note_of(member) else {
            return;
        };
        let Some(ring) = ring_for(&self.membership, self.me, member, &note) else {
            return;
        };
        let acc = AccBody {
            accuser: self.me,
            accused: member,
            epoch: note.epoch,
            ring,
        };
        self.want_accusation(alloc, &acc);
    }

    /// The silent members are accused in turn.
    pub(crate) fn accuse_all(&mut self, alloc: Global, silent: Vec<MemberId>)
        ensures plays { (s : Setting) (es : List journal.Event) (c : Call)
            → Plays s es self.old c → Plays s es self.new (accuses_all s silent.items c) }
        ensures grows { Grows self.old self.new }
    {
        for member in silent {
            self.accuse(alloc, member);
        }
    }
}
