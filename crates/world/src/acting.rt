//! Calls and starts of nodes, and what they report.

ghost use Rattle.std.specs.Prelude.{◌≡◌, ◌<◌, ℕ, List, Ok, IfOk, OnOk, false, fold, length};
ghost use Rattle.datagram.specs.Grammar.{GivesDatagram, read_of};
ghost use Rattle.datagram.specs.Spelling.{IsWritable};
ghost use Rattle.node_rules.specs.Lives.{Delivers, Leaves, Ticks};
ghost use Rattle.world_host.specs.Answers.{IsRead};
ghost use Rattle.world_rules.specs.Counts.{Counts as Counted, with_event};
ghost use Rattle.world_rules.specs.Settings.{Setting, nodes};
ghost use Rattle.world_rules.specs.Steps.{Execution, NodeEvent, calls};
ghost use Rattle.world_rules.specs.Worlds.{World as ModelWorld, is_running};
ghost use Rattle.world.specs.Counting.{AreKept, removes_node as removes_of};
ghost use Rattle.world.specs.Courses.{At, Goes, IsPlace, Replies, WritesLines, WritesText, began_text, starts_if_left};
ghost use Rattle.world.specs.Holding.{Holds, StandsForWorld, numbers};
ghost use Rattle.world.specs.Telling.{call_lines};

use crate::telling::add_events;
use crate::{World, WorldFault};
use datagram::Datagram;
use fields::NoMemory;
use journal::{Event, What};
use node_core::Events;
use records::FormFault;
use world_host::Started;
use world_rules::{RefusalReason, Verdict};

impl World {
    /// Whether the event reports the removal of a node.
    fn removes_node(&self, what: &What) -> bool
        ensures { (s : Setting) → numbers self.now ≡ nodes s → result ≡ removes_of s what.now }
    {
        match what {
            What::Removed(member) => self.host_of(*member).is_some(),
            _ => false,
        }
    }

    /// Counts what a node reported.
    fn count(&mut self, what: &What)
        ensures counts { (s : Setting) (c : Counted) → numbers self.old ≡ nodes s
            → AreKept self.old.counts c
            → AreKept self.new.counts (with_event s c what.now) }
        ensures frame { self.new ≡ record self.old { counts = self.new.counts } }
    {
        let correct = self.removes_node(what);
        self.counts.count(what, correct);
    }

    fn count_all(&mut self, events: &[Event])
        ensures counts { (s : Setting) (c : Counted) → numbers self.old ≡ nodes s
            → AreKept self.old.counts c
            → AreKept self.new.counts (fold (λ c e. with_event s c e.what) c events.now) }
        ensures frame { self.new ≡ record self.old { counts = self.new.counts } }
    {
        for event in events {
            self.count(&event.what);
        }
    }

    /// Tells the events of a call of the node at this host, before which so many datagrams were sent.
    fn tell_all(
        &mut self,
        at: usize,
        before: usize,
        events: &[Event],
        out: &mut Vec<u8>,
    ) -> Result<(), NoMemory>
        requires { at < length self.old.hosts }
        ensures counts { (s : Setting) (c : Counted) → numbers self.old ≡ nodes s
            → AreKept self.old.counts c
            → AreKept self.new.counts (fold (λ c e. with_event s c e.what) c events.now) }
        ensures frame { self.new ≡ record self.old { counts = self.new.counts } }
        ensures lines { (m : ℕ) → IsPlace self.old at m
            → WritesLines out.old.items out.new.items (call_lines m before events.now) result }
    {
        self.count_all(events);
        add_events(self.alloc, self.hosts[at].member(), before, events, out)
    }

    /// Hands what was read of the bytes of a datagram to the node at this host, if it runs.
    pub(crate) fn call(
        &mut self,
        at: usize,
        heard: Result<Datagram, FormFault>,
        out: &mut Vec<u8>,
    ) -> Result<(), WorldFault>
        requires at { at < length self.old.hosts }
        requires writable { IfOk heard (λ d. IsWritable d) }
        requires read { IsRead heard }
        ensures numbers { numbers self.new ≡ numbers self.old }
        ensures calls { (bytes : List ℕ) → GivesDatagram (read_of bytes) heard
            → (s : Setting) (before : List NodeEvent) (base : List ℕ) (c : Execution)
            (m : ℕ) → At s before base self.old out.old.items c → IsPlace self.old at m
            → Goes s before base self.new out.new.items (Ok (calls s m (Delivers bytes) c))
            result }
    {
        let before = self.sent.as_slice().len();
        let events = self.hosts[at].deliver(self.alloc, heard, &mut self.sent)?;
        self.tell_all(at, before, events.as_slice(), out)?;
        Ok(())
    }

    /// A tick of the node at this host, if it runs.
    pub(crate) fn tick_once(&mut self, at: usize, out: &mut Vec<u8>) -> Result<(), WorldFault>
        requires { at < length self.old.hosts }
        ensures numbers { numbers self.new ≡ numbers self.old }
        ensures calls { (s : Setting) (before : List NodeEvent) (base : List ℕ) (c : Execution)
            (m : ℕ) → At s before base self.old out.old.items c → IsPlace self.old at m
            → Goes s before base self.new out.new.items (Ok (calls s m Ticks c)) result }
    {
        let before = self.sent.as_slice().len();
        let events = self.hosts[at].tick(self.alloc, &mut self.sent)?;
        self.tell_all(at, before, events.as_slice(), out)?;
        Ok(())
    }

    /// The node at this host leaves, if it runs.
    pub(crate) fn leave(&mut self, at: usize, out: &mut Vec<u8>) -> Result<(), WorldFault>
        requires { at < length self.old.hosts }
        ensures numbers { numbers self.new ≡ numbers self.old }
        ensures calls { (s : Setting) (before : List NodeEvent) (base : List ℕ) (c : Execution)
            (m : ℕ) → At s before base self.old out.old.items c → IsPlace self.old at m
            → Goes s before base self.new out.new.items (Ok (calls s m Leaves c)) result }
    {
        let before = self.sent.as_slice().len();
        let events = self.hosts[at].leave(self.alloc, &mut self.sent)?;
        self.tell_all(at, before, events.as_slice(), out)?;
        Ok(())
    }

    /// A life began at this host, which reported this.
    fn tell_began(
        &mut self,
        at: usize,
        life: u64,
        events: &Events,
        out: &mut Vec<u8>,
    ) -> Result<(), WorldFault>
        requires { at < length self.old.hosts }
        ensures counts { (s : Setting) (c : Counted) → numbers self.old ≡ nodes s
            → AreKept self.old.counts c
            → OnOk result
            (AreKept self.new.counts (fold (λ c e. with_event s c e.what) c events.now)) }
        ensures frame { self.new ≡ record self.old { counts = self.new.counts } }
        ensures lines { (m : ℕ) → IsPlace self.old at m
            → WritesText out.old.items out.new.items
            (began_text life m (length self.old.sent) events.now) result }
    {
        let before = self.sent.as_slice().len();
        let answered = self.answer(&Verdict::Began { life }, out);
        if answered.is_err() {
            return answered;
        }
        self.tell_all(at, before, events.as_slice(), out)?;
        Ok(())
    }

    /// The line `start`, of a node that doesn't run.
    pub(crate) fn start(&mut self, at: usize, out: &mut Vec<u8>) -> Result<(), WorldFault>
        requires host { at < length self.old.hosts }
        requires stands { StandsForWorld self.old }
        ensures numbers { numbers self.new ≡ numbers self.old }
        ensures starts { (s : Setting) (w : ModelWorld) (before : List NodeEvent) (m : ℕ)
            → Holds s w before self.old → IsPlace self.old at m → is_running w m ≡ false
            → Replies s before self.new out.old.items out.new.items (Ok (starts_if_left s m w))
            result }
    {
        match self.hosts[at].start(self.alloc, &self.authority)? {
            Started::Began { life, events } => self.tell_began(at, life, &events, out),
            Started::DiskStopped => self.answer(&Verdict::DiskStopped, out),
            Started::UsedUp { next } => {
                self.answer(
                    &Verdict::Refused(RefusalReason::UsedUp { first: next }),
                    out,
                )
            }
        }
    }
}
