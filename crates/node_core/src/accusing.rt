//! Accusations of the silent.

ghost use Rattle.std.specs.Prelude.{◌≡◌, ℕ, ◌∷◌, List, Option, Some, true, take, IfErr, is_err, OnOk, false, fold};
ghost use Rattle.ports.specs.Count.{counted};
ghost use Rattle.ports.specs.MemoryDisk.{DiskState};
ghost use Rattle.journal.specs.declared.event.Event as journal;
ghost use Rattle.node_rules.specs.Nodes.{Setting};
ghost use Rattle.node_rules.specs.Calls.{Call};
ghost use Rattle.node_rules.specs.Ticking.{accuses};
ghost use Rattle.node_core.specs.declared.NodeFault.TheVariants as faults;
ghost use Rattle.node_core.specs.Playing.{Plays, Stops, Grows, IsInCall};
ghost use Rattle.node_core.specs.Spending.{Spends};
ghost use Rattle.node_rules.specs.OnDisks.{accuses_on};
ghost use Rattle.node_core.specs.OnDisks.{ComesTo, FailsIn, Stores, on_disk, storage};
ghost use Rattle.node_core.specs.Signatures.{Runs};
ghost use Rattle.node_core.specs.Ticks.{RunsAccusing};

use crate::{Node, NodeFault};
use ff_ids::{AccBody, MemberId};
use journal::What;
use peers::{has_accused, ring_for};
use ports::Disk;
use std::alloc::Global;

impl Node {
    /// The silent member is accused, unless an accusation by this one against it is kept.
    pub(crate) fn accuse<D: Disk>(
        &mut self,
        alloc: Global,
        disk: &mut D,
        member: MemberId,
    ) -> Result<(), NodeFault>
        requires open { IsInCall self.old }
        ensures plays { (s : Setting) (es : List journal.Event) (os : List (ℕ × List ℕ)) (c : Call)
            → Plays s es os self.old c
            → Runs (Plays s es os self.new) (Stops s es os self.new)
            (λ works. accuses works s c member) result }
        ensures grows { Grows self.old self.new }
        ensures spends { Spends self.old self.new (D.state disk.old).moments
            (D.state disk.new).moments }
        ensures closed { OnOk result (self.new.signer.closed ≡ self.old.signer.closed) }
        ensures faults { (D.state disk.new).faults
            ≡ counted (is_err result) (D.state disk.old).faults }
        ensures cause { IfErr result (λ e. e ≡ faults.StoreFault) }
        ensures stores { OnOk result (Stores self.old.signer self.new.signer
            (D.state disk.old).model (D.state disk.new).model) }
        ensures fails { (s : Setting) (es : List journal.Event) (os : List (ℕ × List ℕ)) (c : Call)
            → Plays s es os self.old c
            → FailsIn (accuses true s c member) self.old self.new (D.state disk.old).model
            (D.state disk.new).model result }
    {
        if has_accused(&self.membership, self.me, member) {
            return Ok(());
        }
        self.tell(What::Silent(member));
        let Some(note) = self.membership.note_of(member) else {
            return Ok(());
        };
        let Some(ring) = ring_for(&self.membership, self.me, member, &note) else {
            return Ok(());
        };
        let acc = AccBody {
            accuser: self.me,
            accused: member,
            epoch: note.epoch,
            ring,
        };
        self.want_accusation(alloc, disk, &acc)
    }

    /// The silent members are accused in turn, up to one in whose accusation the disk fails, or behind which memory was
    /// refused.
    pub(crate) fn accuse_all<D: Disk>(
        &mut self,
        alloc: Global,
        disk: &mut D,
        silent: Vec<MemberId>,
    ) -> Result<(), NodeFault>
        requires open { IsInCall self.old }
        ensures plays { (s : Setting) (es : List journal.Event) (os : List (ℕ × List ℕ)) (c : Call)
            → Plays s es os self.old c
            → RunsAccusing (Plays s es os self.new) (Stops s es os self.new) s silent.items c
            result }
        ensures grows { Grows self.old self.new }
        ensures spends { Spends self.old self.new (D.state disk.old).moments
            (D.state disk.new).moments }
        ensures closed { OnOk result (self.new.signer.closed ≡ self.old.signer.closed) }
        ensures faults { (D.state disk.new).faults
            ≡ counted (is_err result) (D.state disk.old).faults }
        ensures cause { IfErr result (λ e. e ≡ faults.StoreFault) }
        ensures follows { (s : Setting) (es : List journal.Event) (os : List (ℕ × List ℕ))
            (c : Call) (d : DiskState) → Plays s es os self.old c → c.ended ≡ false
            → (D.state disk.old).model ≡ Some d → self.new.telling.failed ≡ false
            → ComesTo s es os self.new (D.state disk.new).model (is_err result)
            (fold (accuses_on storage s) (on_disk c d self.old.signer.seat) silent.items) }
    {
        for member in silent {
            if self.telling.has_failed() {
                return Ok(());
            }
            self.accuse(alloc, disk, member)?;
        }
        Ok(())
    }
}
