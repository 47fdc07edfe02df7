//! One tick: that of the life, and where it is due the news, the accusations of the silent, the pings and the summary.

ghost use Rattle.std.specs.Prelude.{◌≡◌, ℕ, ◌<◌, ◌-◌, ◌^◌, List, true, false, Some, ◌↔◌, IfOk, OnOk, IfErr, is_err, if◌then◌else◌};
ghost use Rattle.ports.specs.Count.{counted as counts_faults, Rose};
ghost use Rattle.ports.specs.MemoryDisk.{DiskState};
ghost use Rattle.node_rules.specs.Nodes.{Node as RulesNode};
ghost use Rattle.node_rules.specs.Calls.{begun};
ghost use Rattle.node_core.specs.declared.NodeFault.TheVariants as faults;
ghost use Rattle.node_core.specs.Playing.{IsNode, KeepsCertificates};
ghost use Rattle.node_core.specs.Spending.{SignsNothing, Spends, SpendsIn};
ghost use Rattle.node_core.specs.Answers.{GivesCall, Stands, IsEnded, MayStop};
ghost use Rattle.node_core.specs.Ticks.{RunsDue, RunsTick};
ghost use Rattle.node_rules.specs.OnDisks.{Ticks, due_on, ticked_on};
ghost use Rattle.node_core.specs.OnDisks.{ComesTo, FollowsDisk, on_disk, storage};
ghost use Rattle.journal.specs.declared.event.Event as journal;
ghost use Rattle.node_rules.specs.Nodes.{Setting};
ghost use Rattle.node_rules.specs.Calls.{Call};
ghost use Rattle.node_rules.specs.Ticking.{pings_all};
ghost use Rattle.node_core.specs.Playing.{Plays, Stops, Grows, IsInCall};

use crate::telling::CallOutput;
use crate::{Events, Node, NodeFault, Outbox};
use detector::Found;
use ff_ids::MemberId;
use fields::NoMemory;
use ports::Disk;
use std::alloc::Global;

/// What a due tick finds: the silent, and the pings to send.
#[derive(Drop)]
pub struct Due {
    pub silent: Vec<MemberId>,
    pub pings: Vec<(MemberId, u64)>,
}

/// Copies what was found.
fn copied(alloc: Global, found: &Found) -> Result<Due, NoMemory>
    ensures silent { IfOk result (λ due. due.silent.items ≡ found.now.silent) }
    ensures pings { IfOk result (λ due. due.pings.items ≡ found.now.pings) }
{
    Ok(Due {
        silent: found.silent().to_vec(alloc)?,
        pings: found.pings().to_vec(alloc)?,
    })
}

/// From which epoch the node's rise counts: from this one where a span begins.
fn since_after(since: u64, epoch: u64, begins_span: bool) -> u64
    ensures { result ≡ (if begins_span then epoch else since) }
{
    if begins_span { epoch } else { since }
}

impl Node {
    /// The pings go out, each to a member with its nonce, in order.
    pub(crate) fn ping_all(&mut self, alloc: Global, pings: &[(MemberId, u64)])
        ensures plays { (s : Setting) (es : List journal.Event) (os : List (ℕ × List ℕ)) (c : Call)
            → Plays s es os self.old c
            → Plays s es os self.new (pings_all s pings.now c) }
        ensures grows { Grows self.old self.new }
        ensures signs_nothing { SignsNothing self.old self.new }
    {
        for ping in pings {
            let (to, nonce) = *ping;
            self.send_ping(alloc, to, nonce);
        }
    }

    /// What a due tick brings behind that of the life: the news, the accusations, then the pings, then the summary. Behind a
    /// refusal of memory none goes out.
    fn pass_due<D: Disk>(
        &mut self,
        alloc: Global,
        disk: &mut D,
        round: u64,
        due: Due,
    ) -> Result<(), NodeFault>
        requires open { IsInCall self.old }
        ensures plays { (s : Setting) (es : List journal.Event) (os : List (ℕ × List ℕ)) (c : Call)
            → Plays s es os self.old c
            → RunsDue (Plays s es os self.new) (Stops s es os self.new) s due.silent.items
            due.pings.items round c result }
        ensures grows { Grows self.old self.new }
        ensures spends { Spends self.old self.new (D.state disk.old).moments
            (D.state disk.new).moments }
        ensures closed { OnOk result (self.new.signer.closed ≡ self.old.signer.closed) }
        ensures faults { (D.state disk.new).faults
            ≡ counts_faults (is_err result) (D.state disk.old).faults }
        ensures cause { IfErr result (λ e. e ≡ faults.StoreFault) }
        ensures follows { (s : Setting) (es : List journal.Event) (os : List (ℕ × List ℕ))
            (c : Call) (d : DiskState) → Plays s es os self.old c → c.ended ≡ false
            → (D.state disk.old).model ≡ Some d → self.new.telling.failed ≡ false
            → ComesTo s es os self.new (D.state disk.new).model (is_err result)
            (due_on storage s due.silent.items due.pings.items round
            (on_disk c d self.old.signer.seat)) }
    {
        let Due { silent, pings } = due;
        self.spread(alloc);
        self.accuse_all(alloc, disk, silent)?;
        if self.telling.has_failed() {
            return Ok(());
        }
        self.ping_all(alloc, &pings);
        self.gossip(alloc, round);
        Ok(())
    }

    /// One tick.
    fn pass<D: Disk>(&mut self, alloc: Global, disk: &mut D) -> Result<(), NodeFault>
        requires more { self.old.membership.moment < 2 ^ 64 - 1 }
        requires open { IsInCall self.old }
        ensures plays { (s : Setting) (es : List journal.Event) (os : List (ℕ × List ℕ))
            (n : RulesNode) → Plays s es os self.old (begun n)
            → RunsTick (self.new.telling.failed ≡ false) (Plays s es os self.new)
            (Stops s es os self.new) s n result }
        ensures grows { Grows self.old self.new }
        ensures spends { Spends self.old self.new (D.state disk.old).moments
            (D.state disk.new).moments }
        ensures closed { OnOk result (self.new.signer.closed ≡ self.old.signer.closed) }
        ensures faults { (D.state disk.new).faults
            ≡ counts_faults (is_err result) (D.state disk.old).faults }
        ensures cause { IfErr result (λ e. e ≡ faults.StoreFault) }
        ensures follows { (s : Setting) (es : List journal.Event) (os : List (ℕ × List ℕ))
            (n : RulesNode) (d : DiskState) → Plays s es os self.old (begun n)
            → (D.state disk.old).model ≡ Some d → self.new.telling.failed ≡ false
            → ComesTo s es os self.new (D.state disk.new).model (is_err result)
            (ticked_on storage s n (record { disk = d; seat = self.old.signer.seat })) }
    {
        self.live_tick();
        let now = self.membership.now();
        let period = u64::from(self.group.period);
        let is_due = now % period == 0;
        self.detector
            .tick(is_due, &self.membership, self.me, &mut self.found);
        let begins_span = now % u64::from(self.group.timeout) == 0;
        let epoch = self.signer.state().epoch;
        self.since = since_after(self.since, epoch, begins_span);
        if !is_due {
            return Ok(());
        }
        match copied(alloc, &self.found) {
            Ok(due) => self.pass_due(alloc, disk, (now / period).saturating_sub(1), due),
            Err(_) => {
                self.telling.fail();
                Ok(())
            }
        }
    }

    /// One tick: appends what it reports to `events` and what it sends to `out`. After `StoreFault` these are those of the
    /// call that the disk ended, in the accusation of a silent member; after `OutOfMemory` a front of those of the whole
    /// call. `Ended` comes exactly where an earlier call answered a fault, and nothing is added. After a fault what was
    /// given stands, and the node is over. Each index that the call spends is reported, in order; where memory was refused,
    /// all but perhaps the last. The disk is the one on which the signer's store was opened.
    pub fn tick<D: Disk>(
        &mut self,
        alloc: Global,
        disk: &mut D,
        out: &mut Outbox,
        events: &mut Events,
    ) -> Result<(), NodeFault>
        requires { self.old.membership.moment < 2 ^ 64 - 1 }
        ensures step { (s : Setting) (n : RulesNode) → IsNode s self.old n → self.old.ended ≡ false
            → GivesCall s n Ticks self.new (record { events = events.old; sent = out.old })
            (record { events = events.new; sent = out.new }) result }
        ensures over { (self.old.ended ≡ true) ↔ IsEnded result }
        ensures stops { self.old.ended ≡ false → IfErr result MayStop }
        ensures ended { self.new.ended ≡ is_err result }
        ensures unchanged_after_end { self.old.ended ≡ true
            → (self.new ≡ self.old) × (disk.new ≡ disk.old) × (events.new ≡ events.old)
            × (out.new ≡ out.old) }
        ensures stands { Stands (record { events = events.old; sent = out.old })
            (record { events = events.new; sent = out.new }) }
        ensures spends { SpendsIn result self.old.signer self.new.signer (D.state disk.old).moments
            (D.state disk.new).moments events.old events.new }
        ensures closed { OnOk result (self.new.signer.closed ≡ self.old.signer.closed) }
        ensures kept { KeepsCertificates self.old.roster self.new.roster }
        ensures faults { IfErr result (λ e. e ≡ faults.StoreFault
            → Rose (D.state disk.old).faults (D.state disk.new).faults) }
        ensures no_disk_fault { OnOk result
            ((D.state disk.new).faults ≡ (D.state disk.old).faults) }
        ensures follows { (s : Setting) (n : RulesNode) (d : DiskState) → IsNode s self.old n
            → self.old.ended ≡ false → (D.state disk.old).model ≡ Some d
            → FollowsDisk s self.new (record { events = events.old; sent = out.old })
            (record { events = events.new; sent = out.new }) (D.state disk.new).model
            (ticked_on storage s n (record { disk = d; seat = self.old.signer.seat })) result }
    {
        if self.ended {
            return Err(NodeFault::Ended);
        }
        // Until the call is known to have ended well.
        self.ended = true;
        self.telling = CallOutput::over(alloc, events, out);
        let passed = self.pass(alloc, disk);
        self.finish(passed, out, events)
    }
}
