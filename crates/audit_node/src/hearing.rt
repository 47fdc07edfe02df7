//! What is heard: records, pings, pongs and summaries.

ghost use Rattle.std.specs.Prelude.{◌≡◌, ◌<◌, List, IfOk, All, length, map};
ghost use Rattle.ff_ids.specs.declared.TheConstants.{PAGES};
ghost use Rattle.journal.specs.declared.event.Event as journal;
ghost use Rattle.records.specs.Spelling.{HasPort};
ghost use Rattle.records.specs.declared.Record.{Record as Recorded};
ghost use Rattle.datagram.specs.Spelling.{datagram_bytes, IsWritable};
ghost use Rattle.node_rules.specs.Nodes.{Setting, Node as RulesNode};
ghost use Rattle.node_rules.specs.Calls.{Call, sends};
ghost use Rattle.datagram.specs.declared.Datagram.TheVariants as kinds;
ghost use Rattle.node_rules.specs.Deliveries.{is_other, pinged, ponged_by, exchanges, gives, handles_all, replies};
ghost use Rattle.node_rules.specs.Pages.{page as page_of, lacking};
ghost use Rattle.audit_node.specs.Owing.{item_of};
ghost use Rattle.audit_node.specs.Sendable.{AreSendable};
ghost use Rattle.audit_node.specs.Playing.{Plays, Grows, IsMirror};

use crate::Mirror;
use crate::exchange::{lacking_items, page_bytes};
use crate::owing::Item;
use datagram::{Datagram, write};
use ff_ids::{MemberId, Summary};
use fields::NoMemory;
use journal::What;
use records::Record;
use std::alloc::Global;

/// The bytes of the datagram.
pub(crate) fn bytes_of(alloc: Global, datagram: &Datagram) -> Result<Vec<u8>, NoMemory>
    requires { IsWritable datagram.now }
    ensures { IfOk result (λ bytes. bytes.items ≡ datagram_bytes datagram.now) }
{
    let mut bytes = Vec::new(alloc);
    write(datagram, &mut bytes)?;
    Ok(bytes)
}

impl Mirror {
    /// The records are handled in turn.
    pub(crate) fn handle_all(&mut self, alloc: Global, records: Vec<Record>)
        requires { All (λ r. HasPort r.body) records.items }
        ensures plays { (s : Setting) (es : List journal.Event) (c : Call)
            → Plays s es self.old c
            → Plays s es self.new (handles_all s records.items c) }
        ensures grows { Grows self.old self.new }
    {
        for rec in records {
            self.handle(alloc, rec);
        }
    }

    /// Whether this is a certified member other than the node.
    pub(crate) fn is_other(&self, member: MemberId) -> bool
        ensures { (s : Setting) (n : RulesNode) → IsMirror s self.now n
            → result ≡ is_other s n member }
    {
        member != self.me && self.roster.get(member).is_some()
    }

    /// Answers a ping.
    fn send_pong(&mut self, alloc: Global, to: MemberId, nonce: u64)
        ensures plays { (s : Setting) (es : List journal.Event) (c : Call)
            → Plays s es self.old c
            → Plays s es self.new (sends s (kinds.Pong s.me nonce) c to) }
        ensures grows { Grows self.old self.new }
    {
        let pong = Datagram::Pong {
            from: self.me,
            nonce,
        };
        match bytes_of(alloc, &pong) {
            Ok(bytes) => self.send(bytes, to),
            Err(_) => self.telling.fail(),
        }
    }

    /// A ping came: a certified member other than the node gets a pong.
    pub(crate) fn hear_ping(&mut self, alloc: Global, from: MemberId, nonce: u64)
        ensures plays { (s : Setting) (es : List journal.Event) (c : Call)
            → Plays s es self.old c
            → Plays s es self.new (pinged s from nonce c) }
        ensures grows { Grows self.old self.new }
    {
        let answers = self.is_other(from);
        self.tell(What::Ping { from, nonce });
        if answers {
            self.send_pong(alloc, from, nonce);
        }
    }

    /// A pong came, which may count.
    pub(crate) fn hear_pong(&mut self, from: MemberId, nonce: u64)
        ensures plays { (s : Setting) (es : List journal.Event) (c : Call)
            → Plays s es self.old c
            → Plays s es self.new (ponged_by s from nonce c) }
        ensures grows { Grows self.old self.new }
    {
        let counted = self.detector.pong(from, nonce);
        self.tell(What::Pong {
            from,
            nonce,
            counted,
        });
    }
}

impl Mirror {
    /// A summary came: a certified member other than the node gets what it lacks, and where the summary answers
    /// none, the same page.
    pub(crate) fn hear_summary(
        &mut self,
        alloc: Global,
        from: MemberId,
        flag: bool,
        theirs: &Summary,
    )
        requires { theirs.now.page < PAGES }
        ensures plays { (s : Setting) (es : List journal.Event) (c : Call)
            → Plays s es self.old c
            → Plays s es self.new (exchanges s from flag theirs.now c) }
        ensures grows { Grows self.old self.new }
    {
        let answers = self.is_other(from);
        self.tell(What::Summary {
            from,
            page: theirs.page,
            flag,
        });
        if answers {
            self.give_lacking(alloc, from, theirs);
            self.reply_page(alloc, from, flag, theirs.page);
        }
    }

    /// What the other side lacks goes to it, if anything.
    fn give_lacking(&mut self, alloc: Global, to: MemberId, theirs: &Summary)
        ensures plays { (s : Setting) (es : List journal.Event) (c : Call)
            → Plays s es self.old c
            → Plays s es self.new (gives s to (lacking c.node to theirs.now) c) }
        ensures grows { Grows self.old self.new }
    {
        match lacking_items(alloc, &self.records, to, theirs) {
            Ok(items) => self.send_some(items, to),
            Err(_) => self.telling.fail(),
        }
    }

    /// The records go to the member in one datagram, if there are any.
    fn send_some(&mut self, items: Vec<Item>, to: MemberId)
        ensures plays { (s : Setting) (es : List journal.Event) (c : Call) (rs : List Recorded)
            → Plays s es self.old c → map (item_of s) items.items ≡ rs
            → (0 < length items.items → AreSendable s items.items)
            → Plays s es self.new (gives s to rs c) }
        ensures grows { Grows self.old self.new }
    {
        if !items.is_empty() {
            self.send_items(items, to);
        }
    }

    /// The same page goes to the member, unless its summary was an answer.
    fn reply_page(&mut self, alloc: Global, to: MemberId, flag: bool, page: u8)
        requires { page < PAGES }
        ensures plays { (s : Setting) (es : List journal.Event) (c : Call)
            → Plays s es self.old c
            → Plays s es self.new (replies s to flag page c) }
        ensures grows { Grows self.old self.new }
    {
        if !flag {
            self.send_page(alloc, to, true, page);
        }
    }

    /// The node's summary of the page goes to the member.
    pub(crate) fn send_page(&mut self, alloc: Global, to: MemberId, flag: bool, page: u8)
        requires { page < PAGES }
        ensures plays { (s : Setting) (es : List journal.Event) (c : Call)
            → Plays s es self.old c
            → Plays s es self.new
            (sends s (kinds.Summary s.me flag (page_of c.node page)) c to) }
        ensures grows { Grows self.old self.new }
    {
        match page_bytes(alloc, &self.records, self.me, flag, page) {
            Ok(bytes) => self.send(bytes, to),
            Err(_) => self.telling.fail(),
        }
    }
}
