//! The plain side of the times of a node that is served: a loop that receives, writes the lines that a node writes for a
//! ping or for a note that it knows, and does no more.

mod lines;

ghost use Rattle.std.specs.Prelude.{◌≡◌, true, OnOk};

use edges::{StdSink, UdpLink};
use lines::{is_ping, note_line, ping_lines, turn_line};
use ports::{Failed, Link, Opened, Received, Sink, write_all};
use std::alloc::Global;
use std::io;

/// As many bytes as a node has room for.
const ROOM: usize = 32_769;

fn failed() -> io::Error {
    io::Error::from(io::ErrorKind::Other)
}

/// Writes the line in one piece, as a node does.
fn write_line<O: Sink>(out: &mut O, line: &str) -> io::Result<()>
    requires open { (O.state out.old).is_open ≡ true }
    ensures going { OnOk result ((O.state out.new).is_open ≡ true) }
{
    match write_all(out, line.as_bytes()) {
        Ok(()) => Ok(()),
        Err(Failed) => Err(failed()),
    }
}

/// Writes the lines of a turn in which these bytes came.
fn write_turn<O: Sink>(alloc: Global, out: &mut O, turn: u32, bytes: &[u8]) -> io::Result<()>
    requires open { (O.state out.old).is_open ≡ true }
    ensures going { OnOk result ((O.state out.new).is_open ≡ true) }
{
    write_line(out, turn_line(alloc, turn, bytes)?.as_str())?;
    if !is_ping(bytes) {
        return write_line(out, note_line(alloc, bytes)?.as_str());
    }
    let (came, went) = ping_lines(alloc, turn, bytes)?;
    write_line(out, came.as_str())?;
    write_line(out, went.as_str())
}

/// Receives once, and writes the lines of the turn.
fn receive_once<L: Link, O: Sink>(
    alloc: Global,
    link: &mut L,
    out: &mut O,
    buf: &mut [u8],
    turn: u32,
) -> io::Result<()>
    requires open { (O.state out.old).is_open ≡ true }
    ensures going { OnOk result ((O.state out.new).is_open ≡ true) }
{
    match link.receive(buf) {
        Received::Got(count) => write_turn(alloc, out, turn, &buf[..count]),
        Received::Nothing => write_line(out, "turn nothing\n"),
        Received::Failed => Err(failed()),
    }
}

/// Receives so many times, and writes the lines of each turn.
fn receive_turns<L: Link, O: Sink>(
    alloc: Global,
    link: &mut L,
    out: &mut O,
    buf: &mut [u8],
    turns: u32,
) -> io::Result<()>
    requires open { (O.state out.old).is_open ≡ true }
{
    for turn in 0..turns {
        receive_once(alloc, link, out, buf, turn)?;
    }
    Ok(())
}

/// Binds the port, says so, and serves it for so many turns. Member 2 sends from a port of its own, as to a node.
pub fn receive_and_write(rt: &HostRuntime, port: u16, turns: u32, from: u16) -> io::Result<()> {
    let mut link = UdpLink::new(rt.alloc(), rt);
    let mut out = StdSink::new(io::writer(rt));
    if link.bind(port) != Opened::Done {
        return Err(failed());
    }
    link.expect(2, from);
    let Ok(mut buf) = vec![in rt.alloc(); 0u8; ROOM] else {
        return Err(failed());
    };
    write_line(&mut out, "bound\n")?;
    receive_turns(rt.alloc(), &mut link, &mut out, &mut buf, turns)
}
