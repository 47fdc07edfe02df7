//! How a node leaves: a note of the next epoch with no ring is signed, accepted and sent.

ghost use Rattle.std.specs.Prelude.{◌≡◌, ◌↔◌, true, false, Some, IfErr, OnOk, is_err};
ghost use Rattle.std.specs.FinMap.{get};
ghost use Rattle.ff_ids.specs.declared.NoteBody.{NoteBody as Noting};
ghost use Rattle.ff_ids.specs.Notes.{is_leaving};
ghost use Rattle.ports.specs.Count.{Rose};
ghost use Rattle.ports.specs.MemoryDisk.{DiskState};
ghost use Rattle.node_rules.specs.Nodes.{Setting, Node as RulesNode};
ghost use Rattle.node_rules.specs.OnDisks.{Leaves, left_on};
ghost use Rattle.node_core.specs.declared.NodeFault.TheVariants as faults;
ghost use Rattle.node_core.specs.Playing.{IsNode, KeepsCertificates};
ghost use Rattle.node_core.specs.Spending.{SpendsIn};
ghost use Rattle.node_core.specs.Answers.{GivesCall, Stands, IsEnded, MayStop};
ghost use Rattle.node_core.specs.OnDisks.{FollowsDisk, storage};

use crate::telling::CallOutput;
use crate::{Events, Node, NodeFault, Outbox};
use ff_ids::Mask;
use ports::Disk;
use std::alloc::Global;

impl Node {
    /// Whether the node has left: its own newest note is one by which it leaves.
    pub fn has_left(&self) -> bool
        ensures newest { (note : Noting) → get self.now.membership.notes self.now.me ≡ Some note
            → result ≡ is_leaving note }
        ensures kept { (s : Setting) (n : RulesNode) → IsNode s self.now n
            → (result ≡ true) ↔ (n.stored.mask.0 ≡ 0) }
    {
        self.signer.state().mask.0 == 0
    }

    /// Leaves: appends what that reports to `events` and what it sends to `out`. The node goes out of its own view, and its
    /// note of the next epoch with no ring goes to its neighbours; a node that has left spends one more index on such a
    /// note. Where the key is used up that is reported, and nothing is signed. After `StoreFault` these are those of the call
    /// that the disk ended; after `OutOfMemory` a front of those of the whole call. `Ended` comes exactly where an earlier
    /// call answered a fault, and nothing is added. After a fault what was given stands, and the node is over. Each index
    /// that the call spends is reported; where memory was refused, all but perhaps the last. The disk is the one on which
    /// the signer's store was opened.
    pub fn leave<D: Disk>(
        &mut self,
        alloc: Global,
        disk: &mut D,
        out: &mut Outbox,
        events: &mut Events,
    ) -> Result<(), NodeFault>
        ensures step { (s : Setting) (n : RulesNode) → IsNode s self.old n → self.old.ended ≡ false
            → GivesCall s n Leaves self.new (record { events = events.old; sent = out.old })
            (record { events = events.new; sent = out.new }) result }
        ensures over { (self.old.ended ≡ true) ↔ IsEnded result }
        ensures stops { self.old.ended ≡ false → IfErr result MayStop }
        ensures ended { self.new.ended ≡ is_err result }
        ensures unchanged_after_end { self.old.ended ≡ true
            → (self.new ≡ self.old) × (disk.new ≡ disk.old) × (events.new ≡ events.old)
            × (out.new ≡ out.old) }
        ensures stands { Stands (record { events = events.old; sent = out.old })
            (record { events = events.new; sent = out.new }) }
        ensures spends { SpendsIn result self.old.signer self.new.signer (D.state disk.old).moments
            (D.state disk.new).moments events.old events.new }
        ensures closed { OnOk result (self.new.signer.closed ≡ self.old.signer.closed) }
        ensures kept { KeepsCertificates self.old.roster self.new.roster }
        ensures faults { IfErr result (λ e. e ≡ faults.StoreFault
            → Rose (D.state disk.old).faults (D.state disk.new).faults) }
        ensures no_disk_fault { OnOk result
            ((D.state disk.new).faults ≡ (D.state disk.old).faults) }
        ensures follows { (s : Setting) (n : RulesNode) (d : DiskState) → IsNode s self.old n
            → self.old.ended ≡ false → (D.state disk.old).model ≡ Some d
            → FollowsDisk s self.new (record { events = events.old; sent = out.old })
            (record { events = events.new; sent = out.new }) (D.state disk.new).model
            (left_on storage s n (record { disk = d; seat = self.old.signer.seat })) result }
    {
        if self.ended {
            return Err(NodeFault::Ended);
        }
        // Until the call is known to have ended well.
        self.ended = true;
        self.telling = CallOutput::over(alloc, events, out);
        let left = self.want_note(alloc, disk, Mask(0));
        self.finish(left, out, events)
    }
}
