//! A UDP socket of this machine as a link.

ghost use Rattle.std.specs.Prelude.{◌≡◌, ◌≤◌, ◌<◌, ◌==◌, if◌then◌else◌, min, true, None, Some, length, IfOk, IfSome, OnOk, option_map};
ghost use Rattle.ports.specs.Count.{counted};
ghost use Rattle.ports.specs.Link.{Binds, Receives, Sends};
ghost use Rattle.ports.specs.Device.{open_failed, receive_failed, ReceivedAtMost, send_failed};
ghost use Rattle.link_queues.specs.Waiting.{filled};
ghost use Rattle.link_queues.specs.Queues.{after_handing, handed_on, nothing_yet};
ghost use Rattle.edges.specs.Sockets.{FoundAtMost};
ghost use Rattle.edges.specs.Looks.{Empties, Looks, Reaches, answer_of, kept_found};
ghost use Rattle.edges.specs.UdpLinks.{AfterReceive, EmptiesFirst, HandsNext, after_bind, after_expect, after_send, bytes_taken, lost_in, sizes};

use crate::RealClock;
use crate::socket::{Found, PortSocket, Socket};
use fields::NoMemory;
use link_queues::{Queues, Sizes};
use ports::{Clock, Failed, Link, Opened, Received, Sent};
use std::alloc::Global;
use std::marker::Model;
use std::net::Net;
use std::time;

/// How long a receive waits for a datagram, in milliseconds.
const PATIENCE: u64 = 20;

/// How often a receive empties the socket, at most, while it waits.
const LOOKS: u32 = 65_536;

/// How many datagrams are taken from the socket in one look.
const BATCH: u32 = 512;

/// How many bytes are taken of a datagram: one more than the longest has.
const ROOM: usize = 32_769;

/// A queue holds two of the longest datagrams. From ports at which nobody is expected ten datagrams a second are handed on.
const SIZES: Sizes = Sizes {
    members: 1_024,
    slots: 64,
    room: 65_538,
    gap: 100,
};

/// A socket, and what came there.
#[derive(Drop)]
struct Bound<S: Drop> {
    socket: S,
    queues: Queues,
    datagram: Vec<u8>,
    /// The reading of the clock at which the socket was emptied last.
    emptied: u64,
}

/// A UDP socket of 127.0.0.1. What comes there is not modelled; what waits in the queues is. Before a `bind` that was `Done`
/// the other calls fail. A receive waits for at most 20 milliseconds, and then answers `Nothing`.
///
/// What comes is put into queues, of which each port at which a member is expected has its own: so what one sends does not
/// push out what another sent, and they are served in turn.
#[derive(Drop)]
pub struct UdpLink<'a, R: Net + time::Clock> {
    alloc: Global,
    net: &'a R,
    clock: RealClock<'a, R>,
    bound: Option<Bound<PortSocket>>,
    faults: u64,
}

impl<'a, R: Net + time::Clock> Model for UdpLink<'a, R> {
    ghost use Rattle.std.specs.Prelude.{option_map};
    ghost use Rattle.edges.specs.UdpLinks.{UdpState};

    ghost Value = { UdpState };

    ghost view = { λ l. record { queues = option_map (λ b. b.queues) l.bound; faults = l.faults } };
}

/// Why a port isn't bound.
enum BindFault {
    Socket,
    Memory,
}

/// Room for what comes.
fn room(alloc: Global) -> Result<(Queues, Vec<u8>), NoMemory>
    ensures queues { IfOk result (λ r. r.0 ≡ nothing_yet sizes) }
    ensures datagram { IfOk result (λ r. length r.1.items ≡ bytes_taken) }
{
    Ok((Queues::new(alloc, &SIZES)?, vec![in alloc; 0u8; ROOM]?))
}

fn bind_at<R: Net>(alloc: Global, net: &R, port: u16) -> Result<Bound<PortSocket>, BindFault>
    ensures queues { IfOk result (λ b. b.queues ≡ nothing_yet sizes) }
    ensures datagram { IfOk result (λ b. length b.datagram.items ≡ bytes_taken) }
{
    let Ok((queues, datagram)) = room(alloc) else {
        return Err(BindFault::Memory);
    };
    match PortSocket::bind(net, port) {
        Ok(socket) => Ok(Bound {
            socket,
            queues,
            datagram,
            emptied: 0,
        }),
        Err(_) => Err(BindFault::Socket),
    }
}

impl<S: Socket + Drop> Bound<S> {
    /// Puts what was found into its queue, and says whether that was a datagram.
    fn keep(&mut self, found: Found) -> Result<bool, Failed>
        requires { FoundAtMost found (length self.old.datagram.items) }
        ensures answer { result ≡ answer_of found }
        ensures kept { self.new
            ≡ record self.old { queues = kept_found found self.old.datagram.items self.old.queues } }
    {
        match found {
            Found::Datagram { port, count } => {
                self.queues.put(port, &self.datagram[..count]);
                Ok(true)
            }
            Found::Nothing => Ok(false),
            Found::Failed => Err(Failed),
        }
    }

    /// Puts the next datagram of the socket into its queue, if there is one.
    fn take_in(&mut self) -> Result<bool, Failed>
        ensures reaches { Reaches self.old.queues self.new.queues }
        ensures looks { Looks (length self.old.datagram.items) (S.coming self.old.socket)
            (S.coming self.new.socket) self.old.queues self.new.queues result }
        ensures room { length self.new.datagram.items ≡ length self.old.datagram.items }
        ensures time { self.new.emptied ≡ self.old.emptied }
    {
        let found = self.socket.take(self.datagram.as_mut_slice());
        self.keep(found)
    }

    /// Waits for a datagram for so many milliseconds, and puts it into its queue.
    fn wait(&mut self, millis: u64) -> Result<bool, Failed>
        requires some { 0 < millis }
        ensures reaches { Reaches self.old.queues self.new.queues }
        ensures looks { Looks (length self.old.datagram.items) (S.coming self.old.socket)
            (S.coming self.new.socket) self.old.queues self.new.queues result }
        ensures room { length self.new.datagram.items ≡ length self.old.datagram.items }
        ensures time { self.new.emptied ≡ self.old.emptied }
    {
        let found = self.socket.wait(millis, self.datagram.as_mut_slice());
        self.keep(found)
    }

    /// Empties the socket into the queues, up to as many datagrams as one look takes.
    fn empty(&mut self) -> Result<(), Failed>
        ensures reaches { Reaches self.old.queues self.new.queues }
        ensures empties { Empties (length self.old.datagram.items) (S.coming self.old.socket)
            (S.coming self.new.socket) self.old.queues self.new.queues result }
        ensures room { length self.new.datagram.items ≡ length self.old.datagram.items }
    {
        for _look in 0..BATCH {
            if !self.take_in()? {
                break;
            }
        }
        Ok(())
    }

    /// What is handed on without a look at the socket, which was emptied in this millisecond.
    fn next_at_once(&mut self, now: u64, buf: &mut [u8]) -> Option<usize>
        ensures handed { result ≡ (if now == self.old.emptied
            then option_map (λ d. min (length d) (length buf.old)) (handed_on now self.old.queues)
            else None) }
        ensures fits { IfSome result (λ n. n ≤ length buf.old) }
        ensures lies { buf.new ≡ (if now == self.old.emptied
            then filled (handed_on now self.old.queues) buf.old
            else buf.old) }
        ensures after { self.new.queues ≡ (if now == self.old.emptied
            then after_handing now self.old.queues
            else self.old.queues) }
        ensures rest { self.new ≡ record self.old { queues = self.new.queues } }
    {
        if now != self.emptied {
            return None;
        }
        self.queues.next(now, buf)
    }

    /// What is handed on once the socket was emptied.
    fn next_emptied(&mut self, now: u64, buf: &mut [u8]) -> Result<Option<usize>, Failed>
        ensures fits { IfOk result (λ got. IfSome got (λ n. n ≤ length buf.old)) }
        ensures hands { HandsNext self.old.queues self.new.queues buf.old buf.new result }
        ensures empties { EmptiesFirst (length self.old.datagram.items) now
            (S.coming self.old.socket) (S.coming self.new.socket) self.old.queues self.new.queues
            buf.old buf.new result }
        ensures time { OnOk result (self.new.emptied ≡ now) }
        ensures room { length self.new.datagram.items ≡ length self.old.datagram.items }
    {
        self.empty()?;
        self.emptied = now;
        Ok(self.queues.next(now, buf))
    }
}

/// The number of bytes received, if something can be handed on in time.
fn receive<S: Socket + Drop, C: Clock>(
    bound: &mut Bound<S>,
    clock: &mut C,
    buf: &mut [u8],
) -> Result<Option<usize>, Failed>
    ensures fits { IfOk result (λ got. IfSome got (λ n. n ≤ length buf.old)) }
    ensures hands { HandsNext bound.old.queues bound.new.queues buf.old buf.new result }
{
    let start = clock.now();
    if let Some(count) = bound.next_at_once(start, buf) {
        return Ok(Some(count));
    }
    let mut now = start;
    for _look in 0..LOOKS {
        if let Some(count) = bound.next_emptied(now, buf)? {
            return Ok(Some(count));
        }
        let waited = now.saturating_sub(start);
        if waited >= PATIENCE {
            break;
        }
        bound.wait(PATIENCE - waited)?;
        now = clock.now();
        // What came may be handed on before another look, which the next receive takes.
        if let Some(count) = bound.queues.next(now, buf) {
            return Ok(Some(count));
        }
    }
    Ok(None)
}

impl<'a, R: Net + time::Clock> UdpLink<'a, R> {
    /// A link with no port bound yet.
    pub fn new(alloc: Global, net: &'a R) -> UdpLink<'a, R>
        ensures { result ≡ record { queues = None; faults = 0 } }
    {
        UdpLink {
            alloc,
            net,
            clock: RealClock::new(net),
            bound: None,
            faults: 0,
        }
    }

    /// How many datagrams came since the port was bound and were lost here.
    pub fn lost(&self) -> u64
        ensures { result ≡ lost_in self.now.queues }
    {
        match &self.bound {
            Some(bound) => bound.queues.lost(),
            None => 0,
        }
    }

    fn count_fault(&mut self)
        ensures { self.new ≡ after_send true self.old }
    {
        self.faults = self.faults.saturating_add(1);
    }

    fn failed_receive(&mut self) -> Received
        ensures answer { receive_failed result ≡ true }
        ensures after { self.new ≡ after_send true self.old }
    {
        self.count_fault();
        Received::Failed
    }
}

impl<'a, R: Net + time::Clock> Link for UdpLink<'a, R> {
    ghost state = { λ l. record { contents = None; faults = l.faults } };

    fn bind(&mut self, port: u16) -> Opened
        ensures faults { self.new.faults ≡ counted (open_failed result) self.old.faults }
        ensures binds { Binds port None None result }
        ensures after { self.new ≡ after_bind result self.old }
    {
        match bind_at(self.alloc, self.net, port) {
            Ok(bound) => {
                self.bound = Some(bound);
                Opened::Done
            }
            Err(BindFault::Socket) => {
                self.count_fault();
                Opened::Failed
            }
            Err(BindFault::Memory) => Opened::OutOfMemory,
        }
    }

    fn receive(&mut self, buf: &mut [u8]) -> Received
        ensures faults { self.new.faults ≡ counted (receive_failed result) self.old.faults }
        ensures fits { ReceivedAtMost result (length buf.old) }
        ensures receives { Receives None None buf.old buf.new result }
        ensures after { AfterReceive self.old self.new buf.old buf.new result }
        ensures shut { self.old.queues ≡ None → receive_failed result ≡ true }
    {
        let Some(bound) = &mut self.bound else {
            return self.failed_receive();
        };
        match receive(bound, &mut self.clock, buf) {
            Ok(Some(count)) => Received::Got(count),
            Ok(None) => Received::Nothing,
            Err(Failed) => self.failed_receive(),
        }
    }

    fn send(&mut self, port: u16, bytes: &[u8]) -> Sent
        ensures faults { self.new.faults ≡ counted (send_failed result) self.old.faults }
        ensures sends { Sends port bytes.now None None result }
        ensures after { self.new ≡ after_send (send_failed result) self.old }
        ensures shut { self.old.queues ≡ None → send_failed result ≡ true }
    {
        if let Some(bound) = &self.bound {
            if bound.socket.send(port, bytes) {
                return Sent::Done;
            }
        }
        self.count_fault();
        Sent::Failed
    }

    /// From then on the port has a queue of its own, and what names the member as its sender and comes from another port is
    /// lost, where it carries no signature. Before a `bind` that was `Done` it does nothing.
    fn expect(&mut self, member: u16, port: u16)
        ensures { self.new ≡ after_expect member port self.old }
    {
        if let Some(bound) = &mut self.bound {
            bound.queues.expect(member, port);
        }
    }
}
