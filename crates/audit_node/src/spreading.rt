//! News: what was accepted since the last due tick, and that it goes to the neighbours.

ghost use Rattle.std.specs.Prelude.{◌≡◌, ◌<◌, List, length, map};
ghost use Rattle.std.specs.List.{list_any};
ghost use Rattle.std.specs.Ordering.{eq_by_cmp};
ghost use Rattle.record_slots.specs.Held.{key_cmp};
ghost use Rattle.records.specs.declared.Record.{Record as Recorded};
ghost use Rattle.audit_node.specs.Owing.{item_of};
ghost use Rattle.audit_node.specs.Sendable.{AreSendable};
ghost use Rattle.journal.specs.declared.event.Event as journal;
ghost use Rattle.node_rules.specs.Nodes.{Setting};
ghost use Rattle.node_rules.specs.Calls.{Call};
ghost use Rattle.node_rules.specs.Ticking.{fresh, spreads_all, spreads};
ghost use Rattle.audit_node.specs.News.{with_fresh};
ghost use Rattle.audit_node.specs.Playing.{Plays, Grows};

use crate::Mirror;
use crate::exchange::given_items;
use crate::owing::Item;
use ff_ids::RecordKey;
use std::alloc::Global;

/// Whether the key is listed.
fn is_listed(listed: &[RecordKey], key: &RecordKey) -> bool
    ensures { result ≡ list_any (eq_by_cmp key_cmp key.now) listed.now }
{
    listed.contains(key)
}

impl Mirror {
    /// With the option the note or the accusation of this key is news.
    pub(crate) fn add_news(&mut self, key: RecordKey)
        ensures plays { (s : Setting) (es : List journal.Event) (c : Call)
            → Plays s es self.old c
            → Plays s es self.new (with_fresh s key c) }
        ensures grows { Grows self.old self.new }
        ensures stored { self.new.stored ≡ self.old.stored }
    {
        if self.heal.is_none() {
            return;
        }
        if is_listed(&self.news, &key) {
            return;
        }
        if self.news.push(key).is_err() {
            self.telling.fail();
        }
    }

    /// What is new and still held goes to each of the neighbours in one datagram, as much as fits.
    fn send_news(&mut self, alloc: Global)
        ensures plays { (s : Setting) (es : List journal.Event) (c : Call)
            → Plays s es self.old c
            → Plays s es self.new (spreads_all s (fresh c.node) c) }
        ensures grows { Grows self.old self.new }
    {
        match given_items(alloc, &self.records, &self.news) {
            Ok(items) => self.send_any(alloc, &items),
            Err(_) => self.telling.fail(),
        }
    }

    /// The records go to each of the neighbours in one datagram, if there are any.
    fn send_any(&mut self, alloc: Global, items: &[Item])
        ensures plays { (s : Setting) (es : List journal.Event) (c : Call) (rs : List Recorded)
            → Plays s es self.old c → map (item_of s) items.now ≡ rs
            → (0 < length items.now → AreSendable s items.now)
            → Plays s es self.new (spreads_all s rs c) }
        ensures grows { Grows self.old self.new }
    {
        if !items.is_empty() {
            self.send_to_neighbours(alloc, items, None);
        }
    }

    /// What is new and still held goes to each of the neighbours in one datagram, as much as fits, and is news no more.
    pub(crate) fn spread(&mut self, alloc: Global)
        ensures plays { (s : Setting) (es : List journal.Event) (c : Call)
            → Plays s es self.old c
            → Plays s es self.new (spreads s c) }
        ensures grows { Grows self.old self.new }
    {
        self.send_news(alloc);
        self.news.clear();
    }
}
