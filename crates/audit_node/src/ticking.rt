//! One tick: that of the life, and where it is due the news, the accusations of the silent, the pings and the summary.

ghost use Rattle.std.specs.Prelude.{◌≡◌, ◌<◌, ◌-◌, ◌^◌, List, IfOk, OnOk, if◌then◌else◌};
ghost use Rattle.journal.specs.declared.event.Event as journal;
ghost use Rattle.node_rules.specs.Nodes.{Setting, Node as RulesNode};
ghost use Rattle.node_rules.specs.Calls.{Call, begun};
ghost use Rattle.node_rules.specs.Ticking.{due_tick, pings_all, ticked};
ghost use Rattle.audit_node.specs.Playing.{IsMirror, Plays, Grows};
ghost use Rattle.audit_node.specs.Answers.{Passes};
ghost use Rattle.audit_node.specs.Learning.{Gives};

use crate::Mirror;
use crate::owing::OwedEvent;
use crate::telling::CallOutput;
use detector::Found;
use ff_ids::MemberId;
use fields::NoMemory;
use std::alloc::Global;

/// What a due tick finds: the silent, and the pings to send.
#[derive(Drop)]
pub struct Due {
    pub silent: Vec<MemberId>,
    pub pings: Vec<(MemberId, u64)>,
}

/// Copies what was found.
fn copied(alloc: Global, found: &Found) -> Result<Due, NoMemory>
    ensures silent { IfOk result (λ due. due.silent.items ≡ found.now.silent) }
    ensures pings { IfOk result (λ due. due.pings.items ≡ found.now.pings) }
{
    Ok(Due {
        silent: found.silent().to_vec(alloc)?,
        pings: found.pings().to_vec(alloc)?,
    })
}

/// From which epoch the node's rise counts: from this one where a span begins.
fn since_after(since: u64, epoch: u64, begins_span: bool) -> u64
    ensures { result ≡ (if begins_span then epoch else since) }
{
    if begins_span { epoch } else { since }
}

impl Mirror {
    /// The pings go out, each to a member with its nonce, in order.
    pub(crate) fn ping_all(&mut self, pings: &[(MemberId, u64)])
        ensures plays { (s : Setting) (es : List journal.Event) (c : Call)
            → Plays s es self.old c
            → Plays s es self.new (pings_all s pings.now c) }
        ensures grows { Grows self.old self.new }
    {
        for ping in pings {
            let (to, nonce) = *ping;
            self.send_ping(to, nonce);
        }
    }

    /// What a due tick brings behind that of the life: the news, the accusations, then the pings, then the summary.
    fn pass_due(&mut self, alloc: Global, round: u64, due: Due)
        ensures plays { (s : Setting) (es : List journal.Event) (c : Call)
            → Plays s es self.old c
            → Plays s es self.new (due_tick s due.silent.items due.pings.items round c) }
        ensures grows { Grows self.old self.new }
    {
        let Due { silent, pings } = due;
        self.spread(alloc);
        self.accuse_all(alloc, silent);
        self.ping_all(&pings);
        self.gossip(alloc, round);
    }

    /// One tick, whose pings have the nonces that are drawn.
    fn pass(&mut self, alloc: Global)
        requires { self.old.membership.moment < 2 ^ 64 - 1 }
        ensures passes { (s : Setting) (es : List journal.Event) (n : RulesNode)
            → Plays s es self.old (begun n) → Passes s es self.new n }
        ensures grows { Grows self.old self.new }
    {
        self.live_tick();
        let now = self.membership.now();
        let period = u64::from(self.group.period);
        let is_due = now % period == 0;
        self.detector
            .tick(is_due, &self.membership, self.me, &mut self.found);
        let begins_span = now % u64::from(self.group.timeout) == 0;
        self.since = since_after(self.since, self.stored.epoch, begins_span);
        if !is_due {
            return;
        }
        match copied(alloc, &self.found) {
            Ok(due) => self.pass_due(alloc, (now / period).saturating_sub(1), due),
            Err(_) => self.telling.fail(),
        }
    }

    /// One tick: appends what the node must have reported of it. After a refusal of memory the mirror stands for no node.
    pub fn tick(&mut self, alloc: Global, owed: &mut Vec<OwedEvent>) -> Result<(), NoMemory>
        requires { self.old.membership.moment < 2 ^ 64 - 1 }
        ensures { OnOk result ((s : Setting) (n : RulesNode) → IsMirror s self.old n
            → Gives s n self.new owed.old.items owed.new.items (ticked s n)) }
    {
        self.telling = CallOutput::over(alloc, owed);
        self.pass(alloc);
        self.finish(owed)
    }
}
