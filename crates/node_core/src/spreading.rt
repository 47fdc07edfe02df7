//! News: what was accepted since the last due tick, and that it goes to the neighbours.

ghost use Rattle.std.specs.Prelude.{◌≡◌, ℕ, List};
ghost use Rattle.std.specs.List.{list_any};
ghost use Rattle.std.specs.Ordering.{eq_by_cmp};
ghost use Rattle.record_set.specs.Held.{key_cmp};
ghost use Rattle.journal.specs.declared.event.Event as journal;
ghost use Rattle.node_rules.specs.Nodes.{Setting};
ghost use Rattle.node_rules.specs.Calls.{Call};
ghost use Rattle.node_rules.specs.Ticking.{fresh, spreads_all, spreads};
ghost use Rattle.node_core.specs.News.{with_fresh};
ghost use Rattle.node_core.specs.Playing.{Plays, Grows};
ghost use Rattle.node_core.specs.Spending.{SignsNothing};

use crate::Node;
use crate::exchange::given_bytes;
use ff_ids::RecordKey;
use std::alloc::Global;

/// Whether the key is listed.
fn is_listed(listed: &[RecordKey], key: &RecordKey) -> bool
    ensures { result ≡ list_any (eq_by_cmp key_cmp key.now) listed.now }
{
    listed.contains(key)
}

impl Node {
    /// With the option the note or the accusation of this key is news.
    pub(crate) fn add_news(&mut self, key: RecordKey)
        ensures plays { (s : Setting) (es : List journal.Event) (os : List (ℕ × List ℕ)) (c : Call)
            → Plays s es os self.old c
            → Plays s es os self.new (with_fresh s key c) }
        ensures grows { Grows self.old self.new }
        ensures signs_nothing { SignsNothing self.old self.new }
    {
        if self.heal.is_none() {
            return;
        }
        if is_listed(&self.news, &key) {
            return;
        }
        if self.news.push(key).is_err() {
            self.telling.fail();
        }
    }

    /// What is new and still held goes to each of the neighbours in one datagram, as much as fits.
    fn send_news(&mut self, alloc: Global)
        ensures plays { (s : Setting) (es : List journal.Event) (os : List (ℕ × List ℕ)) (c : Call)
            → Plays s es os self.old c
            → Plays s es os self.new (spreads_all s (fresh c.node) c) }
        ensures grows { Grows self.old self.new }
        ensures signs_nothing { SignsNothing self.old self.new }
    {
        match given_bytes(alloc, &self.records, self.me, &self.news) {
            Ok(Some(bytes)) => self.send_to_neighbours(alloc, &bytes, None),
            Ok(None) => {}
            Err(_) => self.telling.fail(),
        }
    }

    /// What is new and still held goes to each of the neighbours in one datagram, as much as fits, and is news no more.
    pub(crate) fn spread(&mut self, alloc: Global)
        ensures plays { (s : Setting) (es : List journal.Event) (os : List (ℕ × List ℕ)) (c : Call)
            → Plays s es os self.old c
            → Plays s es os self.new (spreads s c) }
        ensures grows { Grows self.old self.new }
        ensures signs_nothing { SignsNothing self.old self.new }
    {
        self.send_news(alloc);
        self.news.clear();
    }
}
