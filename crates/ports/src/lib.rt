//! Floor: base. The outside as traits: where bytes come from and go to, a disk, a link and a clock; and one of each in
//! memory. Code that reads, writes, stores or sends is generic over these traits; `edges` has the real ones.
//!
//! Each but the clock has a count of faults that contracts see: a call that answers `Failed` raises it
//! by one, or finds it at the end of its type, and any other answer leaves it. Objects may reveal their
//! contents; those in memory do. Nothing is called on a source behind its end or a fault, nor on a sink
//! behind a fault; a disk and a link go on after a failure.
#![tactic(auto)]

ghost use Rattle.std.specs.Prelude.{◌≡◌, ◌≤◌, true, length, vec_capacity};
ghost use Rattle.std.specs.Result.{is_err, is_ok};
ghost use Rattle.ports.specs.Count.{counted};
ghost use Rattle.ports.specs.Contents.{Wrote};
ghost use Rattle.ports.specs.Outside.{OfSink, OfSource};
ghost use Rattle.ports.specs.Reading.{has_got, read_failed, GotAtMost, GotSome, Reads, EndsUsedUp};
ghost use Rattle.ports.specs.LineReading.{Passes, ReadsLine, has_passed, is_going};
ghost use Rattle.text_trace.specs.Lines.{seen_bytes};
ghost use Rattle.ports.specs.Writing.{has_taken, write_failed, TookAtMost, TookSome, Gives};

mod clock;
mod disk;
mod link;
mod memory;
mod memory_disk;

pub use clock::{Clock, MemoryClock};
pub use disk::Disk;
pub use link::{Link, LinkAnswer, MemoryLink};
pub use memory::{MemorySink, MemorySource};
pub use memory_disk::MemoryDisk;
use text_trace::SEEN_BYTES;

/// The answer of a read.
#[derive(Clone, Copy, Debug, PartialEq, Eq)]
pub enum Taken {
    /// So many bytes lie in front of the buffer: at least one, if the buffer holds any.
    Got(usize),
    /// No byte is left.
    End,
    /// Nothing was read.
    Failed,
}

/// What ended the bytes that were taken for a line.
#[derive(Clone, Copy, Debug, PartialEq, Eq)]
pub enum Ending {
    /// Its line feed, which is the last of them.
    Feed,
    /// More than 65,600 bytes stand before the line feed, and 65,601 of them were taken.
    Limit,
    /// The input.
    Input,
}

/// The answer of a write.
#[derive(Clone, Copy, Debug, PartialEq, Eq)]
pub enum Given {
    /// So many bytes in front of the piece were taken: at least one, if the piece has any.
    Took(usize),
    /// Nothing was taken.
    Failed,
}

/// The answer of opening a file or a port.
#[derive(Clone, Copy, Debug, PartialEq, Eq)]
pub enum Opened {
    /// It is open.
    Done,
    /// It is not.
    Failed,
    /// Memory was refused.
    OutOfMemory,
}

/// The answer of a receive.
#[derive(Clone, Copy, Debug, PartialEq, Eq)]
pub enum Received {
    /// So many bytes of a datagram lie in front of the buffer.
    Got(usize),
    /// No datagram is there.
    Nothing,
    /// Nothing was received.
    Failed,
}

/// The answer of a send.
#[derive(Clone, Copy, Debug, PartialEq, Eq)]
pub enum Sent {
    /// The datagram was handed over.
    Done,
    /// It may not have been.
    Failed,
    /// Memory was refused.
    OutOfMemory,
}

/// A call of the outside failed, and the count of faults rose in it.
#[derive(Clone, Copy, Debug, PartialEq, Eq)]
pub struct Failed;

/// Where bytes come from.
pub trait Source {
    /// The bytes left, its faults, and that it may be read.
    ghost state: { Self → OfSource };

    /// Takes bytes that are left into the front of the buffer.
    fn read(&mut self, buf: &mut [u8]) -> Taken
        requires open { (state self.old).is_open ≡ true }
        ensures going { (state self.new).is_open ≡ has_got result }
        ensures faults { (state self.new).faults
            ≡ counted (read_failed result) (state self.old).faults }
        ensures fits { GotAtMost result (length buf.old) }
        ensures some { GotSome result (length buf.old) }
        ensures reads { Reads (state self.old).left (state self.new).left buf.new result }
        ensures end { EndsUsedUp (state self.new).left result };

    /// Reads the next line up to and including its line feed; where the input ends inside it, what is left; and
    /// of a line with more than 65,600 bytes before its line feed the first 65,601. Takes no memory, and nothing
    /// behind these bytes: so a byte at a time, unless a source knows better.
    fn read_line(&mut self, line: &mut Vec<u8>) -> Result<Ending, Failed>
        requires open { (state self.old).is_open ≡ true }
        requires room { seen_bytes ≤ vec_capacity line.old }
        ensures room { vec_capacity line.old ≤ vec_capacity line.new }
        ensures going { (state self.new).is_open ≡ is_going result }
        ensures faults { (state self.new).faults ≡ counted (is_err result) (state self.old).faults }
        ensures reads { ReadsLine (state self.old).left (state self.new).left line.new.items result }
    {
        line.clear();
        'bytes: while line.len() < SEEN_BYTES {
            let mut byte = [0u8; 1];
            match self.read(&mut byte) {
                Taken::Got(_) => {
                    line.push_reserved(byte[0]);
                    if byte[0] == b'\n' {
                        return Ok(Ending::Feed);
                    }
                }
                Taken::End => return Ok(Ending::Input),
                Taken::Failed => return Err(Failed),
            }
        }
        Ok(Ending::Limit)
    }

    /// Passes over the rest of a line: the bytes up to and including the next line feed, or where none comes all that are
    /// left. Says whether a line feed came. Takes no memory, and nothing behind these bytes.
    fn pass_line(&mut self) -> Result<bool, Failed>
        requires open { (state self.old).is_open ≡ true }
        ensures going { (state self.new).is_open ≡ has_passed result }
        ensures faults { (state self.new).faults ≡ counted (is_err result) (state self.old).faults }
        ensures passes { Passes (state self.old).left (state self.new).left result };
}

/// Where bytes go to.
pub trait Sink {
    /// The bytes taken, its faults, and that it may be written to.
    ghost state: { Self → OfSink };

    /// Takes bytes from the front of the piece. Taking none of a piece that has some is a fault.
    fn write(&mut self, bytes: &[u8]) -> Given
        requires open { (state self.old).is_open ≡ true }
        ensures going { (state self.new).is_open ≡ has_taken result }
        ensures faults { (state self.new).faults
            ≡ counted (write_failed result) (state self.old).faults }
        ensures fits { TookAtMost result (length bytes.now) }
        ensures some { TookSome result (length bytes.now) }
        ensures gives { Gives (state self.old).taken (state self.new).taken bytes.now result };
}

/// Writes the whole slice. Where the bytes taken are modelled, they gained the slice; after
/// `Failed`, a front of it that is not the whole. A failed write is not tried again.
pub fn write_all<O: Sink>(out: &mut O, bytes: &[u8]) -> Result<(), Failed>
    requires open { (O.state out.old).is_open ≡ true }
    ensures going { (O.state out.new).is_open ≡ is_ok result }
    ensures faults { (O.state out.new).faults ≡ counted (is_err result) (O.state out.old).faults }
    ensures wrote { Wrote (O.state out.old).taken (O.state out.new).taken bytes.now result }
{
    let mut written = 0;
    while written < bytes.len() {
        match out.write(&bytes[written..]) {
            Given::Took(count) => written += count,
            Given::Failed => return Err(Failed),
        }
    }
    Ok(())
}
