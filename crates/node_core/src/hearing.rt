//! What is heard: records, pings and pongs.

ghost use Rattle.std.specs.Prelude.{◌≡◌, ℕ, ◌≤◌, ◌<◌, ◌++◌, ◌∷◌, List, IfOk, IfErr, is_err, All, OnOk, false, Some, fold};
ghost use Rattle.ff_ids.specs.declared.TheConstants.{PAGES};
ghost use Rattle.ports.specs.Count.{counted as counts_faults};
ghost use Rattle.ports.specs.MemoryDisk.{DiskState};
ghost use Rattle.journal.specs.declared.event.Event as journal;
ghost use Rattle.records.specs.Spelling.{HasPort};
ghost use Rattle.datagram.specs.Spelling.{datagram_bytes, IsWritable};
ghost use Rattle.node_rules.specs.Nodes.{Setting, Node as RulesNode};
ghost use Rattle.node_rules.specs.Calls.{Call, sends};
ghost use Rattle.datagram.specs.declared.Datagram.TheVariants as kinds;
ghost use Rattle.node_rules.specs.Deliveries.{is_other, pinged, ponged_by, exchanges, gives, replies};
ghost use Rattle.node_rules.specs.Pages.{page as page_of, lacking};
ghost use Rattle.node_core.specs.declared.NodeFault.TheVariants as faults;
ghost use Rattle.node_core.specs.Playing.{Plays, Stops, Grows, IsInCall, IsNode};
ghost use Rattle.node_core.specs.Spending.{SignsNothing, Spends};
ghost use Rattle.node_core.specs.Signatures.{RunsAll};
ghost use Rattle.node_rules.specs.OnDisks.{handles_on};
ghost use Rattle.node_core.specs.OnDisks.{ComesTo, on_disk, storage};

use crate::exchange::{lacking_bytes, page_bytes};
use crate::{Node, NodeFault};
use datagram::{Datagram, write};
use ff_ids::{MemberId, Summary};
use fields::NoMemory;
use journal::What;
use ports::Disk;
use records::Record;
use std::alloc::Global;

/// The bytes of the datagram.
pub(crate) fn bytes_of(alloc: Global, datagram: &Datagram) -> Result<Vec<u8>, NoMemory>
    requires { IsWritable datagram.now }
    ensures { IfOk result (λ bytes. bytes.items ≡ datagram_bytes datagram.now) }
{
    let mut bytes = Vec::new(alloc);
    write(datagram, &mut bytes)?;
    Ok(bytes)
}

impl Node {
    /// The records are handled in turn, up to one in whose answer the disk fails, or behind which memory was refused.
    pub(crate) fn handle_all<D: Disk>(
        &mut self,
        alloc: Global,
        disk: &mut D,
        records: Vec<Record>,
    ) -> Result<(), NodeFault>
        requires ports { All (λ r. HasPort r.body) records.items }
        requires open { IsInCall self.old }
        ensures plays { (s : Setting) (es : List journal.Event) (os : List (ℕ × List ℕ)) (c : Call)
            → Plays s es os self.old c
            → RunsAll (Plays s es os self.new) (Stops s es os self.new) s records.items c result }
        ensures grows { Grows self.old self.new }
        ensures spends { Spends self.old self.new (D.state disk.old).moments
            (D.state disk.new).moments }
        ensures closed { OnOk result (self.new.signer.closed ≡ self.old.signer.closed) }
        ensures faults { (D.state disk.new).faults
            ≡ counts_faults (is_err result) (D.state disk.old).faults }
        ensures cause { IfErr result (λ e. e ≡ faults.StoreFault) }
        ensures follows { (s : Setting) (es : List journal.Event) (os : List (ℕ × List ℕ))
            (c : Call) (d : DiskState) → Plays s es os self.old c → c.ended ≡ false
            → (D.state disk.old).model ≡ Some d → self.new.telling.failed ≡ false
            → ComesTo s es os self.new (D.state disk.new).model (is_err result)
            (fold (handles_on storage s) (on_disk c d self.old.signer.seat) records.items) }
    {
        for rec in records {
            if self.telling.has_failed() {
                return Ok(());
            }
            self.handle(alloc, disk, rec)?;
        }
        Ok(())
    }

    /// Whether this is a certified member other than the node.
    pub(crate) fn is_other(&self, member: MemberId) -> bool
        ensures { (s : Setting) (n : RulesNode) → IsNode s self.now n
            → result ≡ is_other s n member }
    {
        member != self.me && self.roster.get(member).is_some()
    }

    /// Answers a ping.
    fn send_pong(&mut self, alloc: Global, to: MemberId, nonce: u64)
        ensures plays { (s : Setting) (es : List journal.Event) (os : List (ℕ × List ℕ)) (c : Call)
            → Plays s es os self.old c
            → Plays s es os self.new (sends s (kinds.Pong s.me nonce) c to) }
        ensures grows { Grows self.old self.new }
        ensures signs_nothing { SignsNothing self.old self.new }
    {
        let pong = Datagram::Pong {
            from: self.me,
            nonce,
        };
        match bytes_of(alloc, &pong) {
            Ok(bytes) => self.send(alloc, bytes, to),
            Err(_) => self.telling.fail(),
        }
    }

    /// A ping came: a certified member other than the node gets a pong.
    pub(crate) fn hear_ping(&mut self, alloc: Global, from: MemberId, nonce: u64)
        ensures plays { (s : Setting) (es : List journal.Event) (os : List (ℕ × List ℕ)) (c : Call)
            → Plays s es os self.old c
            → Plays s es os self.new (pinged s from nonce c) }
        ensures grows { Grows self.old self.new }
        ensures signs_nothing { SignsNothing self.old self.new }
    {
        let answers = self.is_other(from);
        self.tell(What::Ping { from, nonce });
        if answers {
            self.send_pong(alloc, from, nonce);
        }
    }

    /// A pong came, which may count.
    pub(crate) fn hear_pong(&mut self, from: MemberId, nonce: u64)
        ensures plays { (s : Setting) (es : List journal.Event) (os : List (ℕ × List ℕ)) (c : Call)
            → Plays s es os self.old c
            → Plays s es os self.new (ponged_by s from nonce c) }
        ensures grows { Grows self.old self.new }
        ensures signs_nothing { SignsNothing self.old self.new }
    {
        let counted = self.detector.pong(from, nonce);
        self.tell(What::Pong {
            from,
            nonce,
            counted,
        });
    }
}

impl Node {
    /// A summary came: a certified member other than the node gets what it lacks, and where the summary answers
    /// none, the same page.
    pub(crate) fn hear_summary(
        &mut self,
        alloc: Global,
        from: MemberId,
        flag: bool,
        theirs: &Summary,
    )
        requires { theirs.now.page < PAGES }
        ensures plays { (s : Setting) (es : List journal.Event) (os : List (ℕ × List ℕ)) (c : Call)
            → Plays s es os self.old c
            → Plays s es os self.new (exchanges s from flag theirs.now c) }
        ensures grows { Grows self.old self.new }
        ensures signs_nothing { SignsNothing self.old self.new }
    {
        let answers = self.is_other(from);
        self.tell(What::Summary {
            from,
            page: theirs.page,
            flag,
        });
        if answers {
            self.give_lacking(alloc, from, theirs);
            self.reply_page(alloc, from, flag, theirs.page);
        }
    }

    /// What the other side lacks goes to it, if anything.
    fn give_lacking(&mut self, alloc: Global, to: MemberId, theirs: &Summary)
        ensures plays { (s : Setting) (es : List journal.Event) (os : List (ℕ × List ℕ)) (c : Call)
            → Plays s es os self.old c
            → Plays s es os self.new (gives s to (lacking c.node to theirs.now) c) }
        ensures grows { Grows self.old self.new }
        ensures signs_nothing { SignsNothing self.old self.new }
    {
        match lacking_bytes(alloc, &self.records, self.me, to, theirs) {
            Ok(Some(bytes)) => self.send(alloc, bytes, to),
            Ok(None) => {}
            Err(_) => self.telling.fail(),
        }
    }

    /// The same page goes to the member, unless its summary was an answer.
    fn reply_page(&mut self, alloc: Global, to: MemberId, flag: bool, page: u8)
        requires { page < PAGES }
        ensures plays { (s : Setting) (es : List journal.Event) (os : List (ℕ × List ℕ)) (c : Call)
            → Plays s es os self.old c
            → Plays s es os self.new (replies s to flag page c) }
        ensures grows { Grows self.old self.new }
        ensures signs_nothing { SignsNothing self.old self.new }
    {
        if !flag {
            self.send_page(alloc, to, true, page);
        }
    }

    /// The node's summary of the page goes to the member.
    pub(crate) fn send_page(&mut self, alloc: Global, to: MemberId, flag: bool, page: u8)
        requires { page < PAGES }
        ensures plays { (s : Setting) (es : List journal.Event) (os : List (ℕ × List ℕ)) (c : Call)
            → Plays s es os self.old c
            → Plays s es os self.new
            (sends s (kinds.Summary s.me flag (page_of c.node page)) c to) }
        ensures grows { Grows self.old self.new }
        ensures signs_nothing { SignsNothing self.old self.new }
    {
        match page_bytes(alloc, &self.records, self.me, flag, page) {
            Ok(bytes) => self.send(alloc, bytes, to),
            Err(_) => self.telling.fail(),
        }
    }
}
