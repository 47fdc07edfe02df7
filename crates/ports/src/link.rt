//! A link: datagrams between ports of this machine, and one in memory.

ghost use Rattle.std.specs.Prelude.{◌≡◌, true, false, if◌then◌else◌, Option, Some, None, List, [], length};
ghost use Rattle.ports.specs.Count.{counted};
ghost use Rattle.ports.specs.Device.{open_failed, receive_failed, ReceivedAtMost, send_failed};
ghost use Rattle.ports.specs.Link.{Binds, Receives, Sends};
ghost use Rattle.ports.specs.MemoryLink.{MemoryLinkState};
ghost use Rattle.ports.specs.Outside.{OfLink};
ghost use Rattle.ports.specs.declared.Opened as opened;

use crate::{Opened, Received, Sent};
use fields::Bytes;
use std::alloc::Global;
use std::marker::Model;

/// Datagrams between ports of this machine.
pub trait Link {
    /// What it holds, and its faults.
    ghost state: { Self → OfLink };

    /// Makes this port the one to receive at.
    fn bind(&mut self, port: u16) -> Opened
        ensures faults { (state self.new).faults
            ≡ counted (open_failed result) (state self.old).faults }
        ensures binds { Binds port (state self.old).contents (state self.new).contents result };

    /// Takes the next datagram into the front of the buffer, cut to its length.
    fn receive(&mut self, buf: &mut [u8]) -> Received
        ensures faults { (state self.new).faults
            ≡ counted (receive_failed result) (state self.old).faults }
        ensures fits { ReceivedAtMost result (length buf.old) }
        ensures receives { Receives (state self.old).contents (state self.new).contents buf.old
            buf.new result };

    /// Sends a datagram to a port.
    fn send(&mut self, port: u16, bytes: &[u8]) -> Sent
        ensures faults { (state self.new).faults
            ≡ counted (send_failed result) (state self.old).faults }
        ensures sends { Sends port bytes.now (state self.old).contents (state self.new).contents
            result };

    /// Takes note that this member sends from this port, so that a link may serve that port by itself. A link that
    /// doesn't tell ports apart has nothing to do.
    fn expect(&mut self, _member: u16, _port: u16)
        ensures { state self.new ≡ state self.old }
    {}
}

/// What a link in memory answers to a receive.
#[derive(Drop, Debug)]
pub enum LinkAnswer {
    /// This datagram came.
    Got(Bytes),
    /// None is there.
    Nothing,
    /// The receive fails.
    Failed,
}

/// A link in memory. Contracts see what it holds as a link, whether its `bind` fails, and how many calls failed.
#[derive(Drop)]
pub struct MemoryLink {
    bound: Option<u16>,
    answers: Vec<LinkAnswer>,
    place: usize,
    fail_sends: Vec<u64>,
    fail_bind: bool,
    sent: Vec<(u16, Bytes)>,
    failures: u64,
}

impl Model for MemoryLink {
    ghost use Rattle.std.specs.Prelude.{◌≤◌, drop, length};
    ghost use Rattle.ports.specs.MemoryLink.{MemoryLinkState};

    ghost Value = { MemoryLinkState };

    ghost view = { λ l. record {
      link = record {
        bound = l.bound;
        coming = drop l.place l.answers.items;
        failing = l.fail_sends.items;
        given = l.sent.items;
      };
      bind_fails = l.fail_bind;
      failures = l.failures;
    } };

    ghost invariant = { λ l. l.place ≤ length l.answers.items };
}

impl MemoryLink {
    /// A link that gives these answers to receives, in order, and then nothing; its sends of these numbers, from 0,
    /// fail, and so does each `bind` where `fail_bind` says so.
    pub fn new(
        alloc: Global,
        answers: Vec<LinkAnswer>,
        fail_sends: Vec<u64>,
        fail_bind: bool,
    ) -> MemoryLink
        ensures { result ≡ record {
          link = record {
            bound = None;
            coming = answers.items;
            failing = fail_sends.items;
            given = [];
          };
          bind_fails = fail_bind;
          failures = 0;
        } }
    {
        MemoryLink {
            bound: None,
            answers,
            place: 0,
            fail_sends,
            fail_bind,
            sent: Vec::new(alloc),
            failures: 0,
        }
    }

    /// The datagrams that were given to be sent, each with its port.
    pub fn sent(&self) -> &[(u16, Bytes)]
        ensures { result.now ≡ self.now.link.given }
    {
        self.sent.as_slice()
    }

    fn count_failure(&mut self)
        ensures { self.new ≡ record self.old { failures = counted true self.old.failures } }
    {
        self.failures = self.failures.saturating_add(1);
    }
}

impl Link for MemoryLink {
    ghost state = { λ l. record { contents = Some l.link; faults = l.failures } };

    fn bind(&mut self, port: u16) -> Opened
        ensures faults { self.new.failures ≡ counted (open_failed result) self.old.failures }
        ensures binds { Binds port (Some self.old.link) (Some self.new.link) result }
        ensures answer { result ≡ (if self.old.bind_fails then Opened.Failed else Opened.Done) }
        ensures kept { self.new.bind_fails ≡ self.old.bind_fails }
    {
        if self.fail_bind {
            self.count_failure();
            return Opened::Failed;
        }
        self.bound = Some(port);
        Opened::Done
    }

    fn receive(&mut self, buf: &mut [u8]) -> Received
        ensures faults { self.new.failures ≡ counted (receive_failed result) self.old.failures }
        ensures fits { ReceivedAtMost result (length buf.old) }
        ensures receives { Receives (Some self.old.link) (Some self.new.link) buf.old buf.new
            result }
        ensures kept { self.new.bind_fails ≡ self.old.bind_fails }
    {
        let place = self.place;
        if place == self.answers.len() {
            return Received::Nothing;
        }
        self.place = place + 1;
        match &self.answers[place] {
            LinkAnswer::Got(bytes) => {
                let bytes = bytes.as_slice();
                let count = bytes.len().min(buf.len());
                buf[..count].copy_from_slice(&bytes[..count]);
                Received::Got(count)
            }
            LinkAnswer::Nothing => Received::Nothing,
            LinkAnswer::Failed => {
                self.count_failure();
                Received::Failed
            }
        }
    }

    fn send(&mut self, port: u16, bytes: &[u8]) -> Sent
        ensures faults { self.new.failures ≡ counted (send_failed result) self.old.failures }
        ensures sends { Sends port bytes.now (Some self.old.link) (Some self.new.link) result }
        ensures kept { self.new.bind_fails ≡ self.old.bind_fails }
    {
        let number = self.sent.len() as u64;
        let fails = self.fail_sends.as_slice().contains(&number);
        let Ok(datagram) = bytes.to_vec(*self.sent.allocator()) else {
            return Sent::OutOfMemory;
        };
        if self.sent.push((port, Bytes::from_vec(datagram))).is_err() {
            return Sent::OutOfMemory;
        }
        if fails {
            self.count_failure();
            return Sent::Failed;
        }
        Sent::Done
    }
}
