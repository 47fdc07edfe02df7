//! A socket at a port of this machine: what it finds as it is looked at. One of the system, of which nothing is modelled.

ghost use Rattle.std.specs.Prelude.{◌≡◌, ◌<◌, ◌↔◌, Option, None, List, Ok, length, IfOk, OnOk, IsTrue};
ghost use Rattle.std.specs.Net.Addr.{ipv4_octets};
ghost use Rattle.edges.specs.Sockets.{Arrival, Finds, FoundAtMost, found_from, is_here, is_quiet, port_from};

use crate::TRIES;
use std::io;
use std::net::{Ipv4Addr, Net, SocketAddr, UdpSocket};
use std::time::Duration;

/// What a look at a socket finds.
#[derive(Clone, Copy, Debug, PartialEq, Eq)]
pub enum Found {
    /// A datagram from this port. So many of its bytes lie in front of the buffer.
    Datagram { port: u16, count: usize },
    /// None is there.
    Nothing,
    /// The look failed.
    Failed,
}

/// Where datagrams come from.
pub trait Socket {
    /// What it is to find, where that is modelled.
    ghost coming: { Self → Option (List Arrival) };

    /// Takes the next datagram into the front of the buffer, cut to its length, if one is there.
    fn take(&mut self, buf: &mut [u8]) -> Found
        ensures fits { FoundAtMost result (length buf.old) }
        ensures finds { Finds (coming self.old) (coming self.new) buf.old buf.new result };

    /// The same, but waits for one so many milliseconds.
    fn wait(&mut self, millis: u64, buf: &mut [u8]) -> Found
        requires some { 0 < millis }
        ensures fits { FoundAtMost result (length buf.old) }
        ensures finds { Finds (coming self.old) (coming self.new) buf.old buf.new result };
}

/// A UDP socket of 127.0.0.1. A look at it waits for nothing.
#[derive(Drop)]
pub struct PortSocket {
    socket: UdpSocket,
    /// How many milliseconds a read of the socket waits where it does, 0 where that was not set.
    timeout: u64,
}

/// Whether the address is 127.0.0.1.
fn is_here(ip: &Ipv4Addr) -> bool
    ensures { result ≡ is_here (ipv4_octets ip.now) }
{
    let octets = ip.octets();
    octets[0] == 127 && octets[1] == 0 && octets[2] == 0 && octets[3] == 1
}

/// The port that a datagram came from, and 0, at which nobody is expected, where it came from another address.
fn port_of(from: SocketAddr) -> u16
    ensures { result ≡ port_from from }
{
    match from {
        SocketAddr::V4(at) if is_here(at.ip()) => at.port(),
        _ => 0,
    }
}

/// Whether a call that failed so tells that nothing is there. A signal interrupts the call of a process that was stopped and
/// goes on.
fn is_quiet(kind: io::ErrorKind) -> bool
    ensures { result ≡ is_quiet kind }
{
    matches!(kind, io::ErrorKind::WouldBlock | io::ErrorKind::Interrupted)
}

/// What was found, by the answer of the system.
fn found_by(answer: io::Result<(usize, SocketAddr)>) -> Found
    ensures { result ≡ found_from answer }
{
    match answer {
        Ok((count, from)) => Found::Datagram {
            port: port_of(from),
            count,
        },
        Err(error) if is_quiet(error.kind()) => Found::Nothing,
        Err(_) => Found::Failed,
    }
}

/// Whether a datagram of this length was sent: one that was cut short was not.
fn is_whole(answer: io::Result<usize>, length: usize) -> bool
    ensures { IsTrue result ↔ (answer ≡ Ok length) }
{
    match answer {
        Ok(count) => count == length,
        Err(_) => false,
    }
}

impl PortSocket {
    /// The socket of this port.
    pub fn bind<R: Net>(net: &R, port: u16) -> io::Result<PortSocket> {
        let socket = UdpSocket::bind(net, (Ipv4Addr::LOCALHOST, port))?;
        socket.set_nonblocking(true)?;
        Ok(PortSocket { socket, timeout: 0 })
    }

    /// A read of the socket waits for so many milliseconds.
    fn set_timeout(&mut self, millis: u64) -> io::Result<()>
        ensures { OnOk result (self.new.timeout ≡ millis) }
    {
        if millis != self.timeout {
            self.socket
                .set_read_timeout(Some(Duration::from_millis(millis)))?;
            self.timeout = millis;
        }
        Ok(())
    }

    fn wait_for(&mut self, millis: u64, buf: &mut [u8]) -> io::Result<Found>
        requires some { 0 < millis }
        ensures fits { IfOk result (λ found. FoundAtMost found (length buf.old)) }
        ensures waits { OnOk result (self.new.timeout ≡ millis) }
    {
        self.set_timeout(millis)?;
        self.socket.set_nonblocking(false)?;
        let found = self.take(buf);
        self.socket.set_nonblocking(true)?;
        Ok(found)
    }

    /// Sends a datagram to the port, and says whether that was done. A call that a signal interrupts is made again.
    pub fn send(&self, port: u16, bytes: &[u8]) -> bool {
        for _ in 0..TRIES {
            match self.socket.send_to(bytes, (Ipv4Addr::LOCALHOST, port)) {
                Err(error) if error.kind() == io::ErrorKind::Interrupted => {}
                answer => return is_whole(answer, bytes.len()),
            }
        }
        false
    }
}

impl Socket for PortSocket {
    ghost coming = { λ _. None };

    fn take(&mut self, buf: &mut [u8]) -> Found
        ensures fits { FoundAtMost result (length buf.old) }
        ensures finds { Finds None None buf.old buf.new result }
        ensures same { self.new ≡ self.old }
    {
        found_by(self.socket.recv_from(buf))
    }

    fn wait(&mut self, millis: u64, buf: &mut [u8]) -> Found
        requires some { 0 < millis }
        ensures fits { FoundAtMost result (length buf.old) }
        ensures finds { Finds None None buf.old buf.new result }
    {
        match self.wait_for(millis, buf) {
            Ok(found) => found,
            Err(_) => Found::Failed,
        }
    }
}
