//! Datagrams that go out.

ghost use Rattle.std.specs.Prelude.{◌≡◌, ◌<◌, ℕ, true, List, slice_index, map, if◌then◌else◌};
ghost use Rattle.std.specs.List.{list_any};
ghost use Rattle.ff_ids.specs.Views.{is_number};
ghost use Rattle.journal.specs.declared.event.Event as journal;
ghost use Rattle.records.specs.declared.Record.{Record as Recorded};
ghost use Rattle.datagram.specs.declared.Datagram.{Datagram as Sending};
ghost use Rattle.datagram.specs.declared.Datagram.TheVariants as kinds;
ghost use Rattle.datagram.specs.Spelling.{datagram_bytes};
ghost use Rattle.node_rules.specs.Nodes.{Setting, state_of};
ghost use Rattle.node_rules.specs.Calls.{Call, sends, sends_to_all};
ghost use Rattle.audit_node.specs.Owing.{item_of};
ghost use Rattle.audit_node.specs.Sendable.{AreSendable, is_bare};
ghost use Rattle.audit_node.specs.Playing.{Plays, Grows};
ghost use Rattle.audit_node.specs.Neighbours.{addressees};

use crate::Mirror;
use crate::owing::{Item, copy_items};
use ff_ids::{MEMBERS, MemberId};
use peers::{is_listed, list_successors};
use std::alloc::Global;

/// Each of them is below 256.
fn are_bytes(bytes: &[u8])
    ensures { (i : ℕ) → slice_index bytes.now i < 256 }
{}

impl Mirror {
    /// Sends the datagram of these bytes, which is no ping and has no records, to the member.
    pub(crate) fn send(&mut self, bytes: Vec<u8>, to: MemberId)
        ensures plays { (s : Setting) (es : List journal.Event) (c : Call) (d : Sending)
            → Plays s es self.old c → bytes.items ≡ datagram_bytes d → is_bare d ≡ true
            → Plays s es self.new (sends s d c to) }
        ensures grows { Grows self.old self.new }
        ensures frame { self.new ≡ record self.old { telling = self.new.telling } }
    {
        are_bytes(bytes.as_slice());
        self.telling.send_bytes(self.membership.now(), bytes, to);
    }

    /// Sends the datagram with these records to the member.
    pub(crate) fn send_items(&mut self, items: Vec<Item>, to: MemberId)
        ensures plays { (s : Setting) (es : List journal.Event) (c : Call) (rs : List Recorded)
            → Plays s es self.old c → map (item_of s) items.items ≡ rs → AreSendable s items.items
            → Plays s es self.new (sends s (kinds.Records s.me rs) c to) }
        ensures grows { Grows self.old self.new }
        ensures frame { self.new ≡ record self.old { telling = self.new.telling } }
    {
        self.telling.send_items(self.membership.now(), items, to);
    }

    /// Sends a datagram with copies of these records to the member.
    fn send_copy(&mut self, alloc: Global, items: &[Item], to: MemberId)
        ensures plays { (s : Setting) (es : List journal.Event) (c : Call) (rs : List Recorded)
            → Plays s es self.old c → map (item_of s) items.now ≡ rs → AreSendable s items.now
            → Plays s es self.new (sends s (kinds.Records s.me rs) c to) }
        ensures grows { Grows self.old self.new }
        ensures frame { self.new ≡ record self.old { telling = self.new.telling } }
    {
        match copy_items(alloc, items) {
            Ok(copied) => self.send_items(copied, to),
            Err(_) => self.telling.fail(),
        }
    }

    /// Sends the records to the member, if it is listed.
    fn send_if_listed(
        &mut self,
        alloc: Global,
        items: &[Item],
        listed: &[Option<MemberId>],
        to: MemberId,
    )
        ensures plays { (s : Setting) (es : List journal.Event) (c : Call) (rs : List Recorded)
            → Plays s es self.old c → map (item_of s) items.now ≡ rs → AreSendable s items.now
            → Plays s es self.new
            (if list_any (λ o. is_number o to) listed.now then sends s (kinds.Records s.me rs) c to
            else c) }
        ensures grows { Grows self.old self.new }
        ensures frame { self.new ≡ record self.old { telling = self.new.telling } }
    {
        if is_listed(listed, to) {
            self.send_copy(alloc, items, to);
        }
    }

    /// Sends the records to each neighbour and one more, in order of number.
    pub(crate) fn send_to_neighbours(
        &mut self,
        alloc: Global,
        items: &[Item],
        also: Option<MemberId>,
    )
        ensures plays { (s : Setting) (es : List journal.Event) (c : Call) (rs : List Recorded)
            → Plays s es self.old c → map (item_of s) items.now ≡ rs → AreSendable s items.now
            → Plays s es self.new (sends_to_all s (addressees s also (state_of s c.node))
            (kinds.Records s.me rs) c) }
        ensures grows { Grows self.old self.new }
    {
        let listed = list_successors(&self.membership, self.me, also);
        for number in 0..MEMBERS {
            let member = MemberId::new(number);
            self.send_if_listed(alloc, items, listed.as_slice(), member);
        }
    }
}
