//! What one call reports and sends.

ghost use Rattle.std.specs.Prelude.{◌≡◌, [], ◌∷◌, ◌++◌, ◌-◌, ◌≤◌, false, true, length, OnOk};
ghost use Rattle.journal.specs.declared.event.What.TheVariants as kinds;
ghost use Rattle.node_core.specs.Told.{Adds, IsPrefix, is_loss, with_event, with_report, with_sent, with_each};

use crate::kit::{Events, Outbox};
use ff_ids::{AccBody, MemberId};
use fields::{Bytes, NoMemory};
use journal::{Event, What};
use membership::Changes;
use records::Body;
use std::alloc::Global;
use std::marker::Model;
use std::mem::{replace, swap};

/// The events and datagrams so far, each list behind what was there before the call. Once memory is refused nothing
/// more is added.
#[derive(Drop)]
pub struct CallOutput {
    events: Vec<Event>,
    sent: Vec<(MemberId, Bytes)>,
    before: usize,
    failed: bool,
}

impl Model for CallOutput {
    ghost use Rattle.std.specs.Prelude.{All, length, ◌≤◌};
    ghost use Rattle.node_core.specs.Told.{Tellings, IsNoLoss};

    ghost Value = { Tellings };

    ghost view = { λ t. record {
      events = t.events.items;
      sent = t.sent.items;
      before = t.before;
      failed = t.failed;
    } };

    ghost invariant = { λ t. (t.before ≤ length t.sent.items)
        × All IsNoLoss t.events.items };
}

impl CallOutput {
    /// What is reported goes behind these events, and what is sent behind these datagrams, which are taken out meanwhile.
    pub fn over(alloc: Global, events: &mut Events, out: &mut Outbox) -> CallOutput
        ensures { result ≡ record
            { events = events.old; sent = out.old; before = length out.old; failed = false } }
    {
        let events = replace(&mut events.events, Vec::new(alloc));
        let sent = replace(&mut out.datagrams, Vec::new(alloc));
        CallOutput {
            before: sent.len(),
            events,
            sent,
            failed: false,
        }
    }

    /// Puts all of them back, and says whether memory was refused.
    pub fn give_back(&mut self, events: &mut Events, out: &mut Outbox) -> bool
        ensures events { events.new ≡ self.old.events }
        ensures sent { out.new ≡ self.old.sent }
        ensures failed { result ≡ self.old.failed }
    {
        swap(&mut self.events, &mut events.events);
        swap(&mut self.sent, &mut out.datagrams);
        self.before = 0;
        self.failed
    }

    /// Adds the event.
    pub fn tell(&mut self, moment: u64, what: What)
        requires { is_loss what ≡ false }
        ensures adds { Adds (with_event moment what) self.old self.new }
        ensures refused { self.new.failed ≡ true → self.new ≡ record self.old { failed = true } }
    {
        if self.failed {
            return;
        }
        match self.events.push(Event { moment, what }) {
            Ok(()) => {}
            Err(_) => self.failed = true,
        }
    }

    /// Adds that the index was spent on the body.
    pub fn tell_spent(&mut self, moment: u64, index: u32, body: Body)
        ensures { Adds (with_event moment (kinds.Spent index body)) self.old self.new }
    {
        self.tell(moment, What::Spent { index, body });
    }

    fn tell_expired(&mut self, moment: u64, list: &[AccBody])
        ensures { Adds (with_each moment kinds.Expired list.now) self.old self.new }
    {
        for acc in list {
            self.tell(moment, What::Expired(*acc));
        }
    }

    fn tell_removed(&mut self, moment: u64, list: &[MemberId])
        ensures { Adds (with_each moment kinds.Removed list.now) self.old self.new }
    {
        for member in list {
            self.tell(moment, What::Removed(*member));
        }
    }

    fn tell_entered(&mut self, moment: u64, list: &[MemberId])
        ensures { Adds (with_each moment kinds.Entered list.now) self.old self.new }
    {
        for member in list {
            self.tell(moment, What::Entered(*member));
        }
    }

    fn tell_fell(&mut self, moment: u64, list: &[AccBody])
        ensures { Adds (with_each moment kinds.Fell list.now) self.old self.new }
    {
        for acc in list {
            self.tell(moment, What::Fell(*acc));
        }
    }

    /// Adds the events of what a step of the membership reports.
    pub fn tell_changes(&mut self, moment: u64, changes: &Changes)
        ensures { Adds (with_report moment changes.now) self.old self.new }
    {
        self.tell_expired(moment, changes.expired());
        self.tell_removed(moment, changes.removed());
        self.tell_entered(moment, changes.entered());
        self.tell_fell(moment, changes.fell());
    }

    fn try_send(
        &mut self,
        alloc: Global,
        moment: u64,
        bytes: Vec<u8>,
        to: MemberId,
    ) -> Result<(), NoMemory>
        ensures sent { OnOk result (self.new ≡ with_sent moment bytes.items to self.old) }
        ensures events { IsPrefix self.old.events self.new.events }
        ensures front { IsPrefix self.old.sent self.new.sent }
        ensures events_due { IsPrefix self.new.events
            (with_sent moment bytes.items to self.old).events }
        ensures sent_due { IsPrefix self.new.sent (with_sent moment bytes.items to self.old).sent }
        ensures before { self.new.before ≡ self.old.before }
        ensures failed { self.new.failed ≡ self.old.failed }
    {
        let told = Bytes::from_vec(Vec::from_slice(alloc, &bytes)?);
        let what = What::Sent {
            number: (self.sent.len() - self.before) as u64,
            to,
            bytes: told,
        };
        self.events.push(Event { moment, what })?;
        self.sent.push((to, Bytes::from_vec(bytes)))?;
        Ok(())
    }

    /// Adds the datagram, and the event that it went to the member. Its bytes are copied once: for the event.
    pub fn send(&mut self, alloc: Global, moment: u64, bytes: Vec<u8>, to: MemberId)
        ensures { Adds (with_sent moment bytes.items to) self.old self.new }
    {
        if self.failed {
            return;
        }
        if self.try_send(alloc, moment, bytes, to).is_err() {
            self.failed = true;
        }
    }

    /// Whether memory was refused.
    pub fn has_failed(&self) -> bool
        ensures { result ≡ self.now.failed }
    {
        self.failed
    }

    /// Memory was refused elsewhere.
    pub fn fail(&mut self)
        ensures { self.new ≡ record self.old { failed = true } }
    {
        self.failed = true;
    }
}
