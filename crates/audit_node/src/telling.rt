//! What one call owes.

ghost use Rattle.std.specs.Prelude.{◌≡◌, [], ◌∷◌, ◌++◌, ◌≤◌, false, true, length};
ghost use Rattle.journal.specs.declared.event.What.TheVariants as kinds;
ghost use Rattle.audit_node.specs.declared.owing.Owed.TheVariants as owings;
ghost use Rattle.audit_node.specs.Told.{Adds, with_event, with_report, with_sent, with_each};

use crate::owing::{Item, Owed, OwedEvent};
use ff_ids::{AccBody, MemberId};
use fields::Bytes;
use journal::What;
use membership::Changes;
use records::Body;
use std::alloc::Global;
use std::marker::Model;
use std::mem::{replace, swap};

/// The owed events so far, behind what was there before the call, and how many datagrams it has sent. Once memory is
/// refused nothing more is added.
#[derive(Drop)]
pub struct CallOutput {
    events: Vec<OwedEvent>,
    sent: usize,
    failed: bool,
}

impl Model for CallOutput {
    ghost use Rattle.std.specs.Prelude.{length, ◌≤◌};
    ghost use Rattle.audit_node.specs.Told.{Tellings};

    ghost Value = { Tellings };

    ghost view = { λ t. record {
      events = t.events.items;
      sent = t.sent;
      failed = t.failed;
    } };

    ghost invariant = { λ t. t.sent ≤ length t.events.items };
}

impl CallOutput {
    /// What is owed goes behind these, which are taken out meanwhile.
    pub fn over(alloc: Global, owed: &mut Vec<OwedEvent>) -> CallOutput
        ensures { result ≡ record { events = owed.old.items; sent = 0; failed = false } }
    {
        CallOutput {
            events: replace(owed, Vec::new(alloc)),
            sent: 0,
            failed: false,
        }
    }

    /// Puts all of them back, and says whether memory was refused.
    pub fn give_back(&mut self, owed: &mut Vec<OwedEvent>) -> bool
        ensures events { owed.new.items ≡ self.old.events }
        ensures failed { result ≡ self.old.failed }
    {
        swap(&mut self.events, owed);
        self.sent = 0;
        self.failed
    }

    /// Adds the event.
    pub fn tell(&mut self, moment: u64, what: What)
        ensures { Adds (with_event moment what) self.old self.new }
    {
        if self.failed {
            return;
        }
        let event = OwedEvent {
            moment,
            owed: Owed::What(what),
        };
        match self.events.push(event) {
            Ok(()) => {}
            Err(_) => self.failed = true,
        }
    }

    fn tell_expired(&mut self, moment: u64, list: &[AccBody])
        ensures { Adds (with_each moment kinds.Expired list.now) self.old self.new }
    {
        for acc in list {
            self.tell(moment, What::Expired(*acc));
        }
    }

    fn tell_removed(&mut self, moment: u64, list: &[MemberId])
        ensures { Adds (with_each moment kinds.Removed list.now) self.old self.new }
    {
        for member in list {
            self.tell(moment, What::Removed(*member));
        }
    }

    fn tell_entered(&mut self, moment: u64, list: &[MemberId])
        ensures { Adds (with_each moment kinds.Entered list.now) self.old self.new }
    {
        for member in list {
            self.tell(moment, What::Entered(*member));
        }
    }

    fn tell_fell(&mut self, moment: u64, list: &[AccBody])
        ensures { Adds (with_each moment kinds.Fell list.now) self.old self.new }
    {
        for acc in list {
            self.tell(moment, What::Fell(*acc));
        }
    }

    /// Adds the events of what a step of the membership reports.
    pub fn tell_changes(&mut self, moment: u64, changes: &Changes)
        ensures { Adds (with_report moment changes.now) self.old self.new }
    {
        self.tell_expired(moment, changes.expired());
        self.tell_removed(moment, changes.removed());
        self.tell_entered(moment, changes.entered());
        self.tell_fell(moment, changes.fell());
    }

    /// Adds that a datagram was sent, whose number is that of those before it.
    fn send(&mut self, moment: u64, owed: Owed)
        ensures { Adds (with_sent moment (λ n. owed)) self.old self.new }
    {
        if self.failed {
            return;
        }
        match self.events.push(OwedEvent { moment, owed }) {
            Ok(()) => {
                let _length = self.events.len();
                self.sent += 1;
            }
            Err(_) => self.failed = true,
        }
    }

    /// Adds that the bytes went to the member.
    pub fn send_bytes(&mut self, moment: u64, bytes: Vec<u8>, to: MemberId)
        ensures { Adds (with_sent moment (λ n. owings.What (kinds.Sent n to bytes.items)))
            self.old self.new }
    {
        let what = What::Sent {
            number: self.sent as u64,
            to,
            bytes: Bytes::from_vec(bytes),
        };
        self.send(moment, Owed::What(what));
    }

    /// Adds that a ping with this nonce went to the member.
    pub fn send_ping(&mut self, moment: u64, nonce: u64, to: MemberId)
        ensures { Adds (with_sent moment (λ n. owings.Ping n to nonce)) self.old self.new }
    {
        let number = self.sent as u64;
        self.send(moment, Owed::Ping { number, to, nonce });
    }

    /// Adds that the records went to the member.
    pub fn send_items(&mut self, moment: u64, items: Vec<Item>, to: MemberId)
        ensures { Adds (with_sent moment (λ n. owings.Records n to items)) self.old self.new }
    {
        let number = self.sent as u64;
        self.send(moment, Owed::Records { number, to, items });
    }

    /// Whether memory was refused.
    pub fn has_failed(&self) -> bool
        ensures { result ≡ self.now.failed }
    {
        self.failed
    }

    /// Memory was refused elsewhere.
    pub fn fail(&mut self)
        ensures { self.new ≡ record self.old { failed = true } }
    {
        self.failed = true;
    }
}
