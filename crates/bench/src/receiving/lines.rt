//! The lines that a node writes at its moment 0.

use fields::{Reader, Short};
use std::alloc::Global;
use std::io;

/// The kinds of datagrams that are told apart.
const PING: u8 = 1;

fn failed() -> io::Error {
    io::Error::from(io::ErrorKind::Other)
}

fn digits(alloc: Global, bytes: &[u8]) -> io::Result<String> {
    hex::encode(alloc, bytes).or(Err(failed()))
}

/// The line of a turn in which these bytes came.
pub fn turn_line(alloc: Global, turn: u32, bytes: &[u8]) -> io::Result<String> {
    let digits = digits(alloc, bytes)?;
    Ok(format!(in alloc; "turn {turn} got {digits} ticks 0\n")?)
}

/// Whether the bytes are a ping.
pub fn is_ping(bytes: &[u8]) -> bool {
    bytes.get(3) == Some(&PING)
}

/// Whom a ping is from, and its nonce.
fn ping_in(bytes: &[u8]) -> Result<(u16, u64), Short> {
    let mut reader = Reader::new(bytes);
    reader.bytes(4)?;
    Ok((reader.u16()?, reader.u64()?))
}

/// The lines of a ping and of the pong of member 1, which is the datagram of this number.
pub fn ping_lines(alloc: Global, number: u32, bytes: &[u8]) -> io::Result<(String, String)> {
    let (from, nonce) = ping_in(bytes).or(Err(failed()))?;
    let mut pong = *b"\x46\x46\x01\x02\x00\x01\x00\x00\x00\x00\x00\x00\x00\x00";
    pong[6..].copy_from_slice(&nonce.to_be_bytes());
    let digits = digits(alloc, &pong)?;
    Ok((
        format!(in alloc; "at 0 ping {from} {nonce}\n")?,
        format!(in alloc; "at 0 sent {number} {from} {digits}\n")?,
    ))
}

/// Whose note the one record of a datagram is, its epoch and its mask.
fn note_in(bytes: &[u8]) -> Result<(u16, u64, u32), Short> {
    let mut reader = Reader::new(bytes);
    reader.bytes(9)?;
    Ok((reader.u16()?, reader.u64()?, reader.u32()?))
}

/// The line of a note that is known.
pub fn note_line(alloc: Global, bytes: &[u8]) -> io::Result<String> {
    let (member, epoch, mask) = note_in(bytes).or(Err(failed()))?;
    Ok(format!(in alloc; "at 0 took note {member} {epoch} {mask} : refused known\n")?)
}
