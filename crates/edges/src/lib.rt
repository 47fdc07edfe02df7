//! Floor: program. The outside of the program: standard input as a source, standard output as a sink, a file as a disk,
//! a UDP socket as a link, the monotonic clock, and what is there in place of these three where a run needs none. The
//! program and `bench` alone make them.
//!
//! The source and the sink reveal what their reader and writer reveal: over the toolchain's own standard input and
//! output that is nothing. A file, a socket and the clock reveal nothing: their clauses say when a call fails and is
//! counted, those of the link what becomes of its queues, and tests move real bytes.
#![tactic(auto)]

ghost use Rattle.std.specs.Prelude.{◌≡◌, ◌+◌, ◌<◌, ◌≤◌, true, false, [], length, IfOk, vec_len, vec_capacity};
ghost use Rattle.std.specs.Result.{is_err};
ghost use Rattle.std.specs.Io.{ReadsAtMost, WritesAtMost};
ghost use Rattle.std.specs.Io.KnownBytes.{ReadConsumes, WriteAppends};
ghost use Rattle.std.specs.Io.Buffered.{reader_remaining};
ghost use Rattle.ports.specs.Count.{counted, next_count};
ghost use Rattle.ports.specs.LineReading.{Passes, ReadsLine, has_passed, is_going};
ghost use Rattle.ports.specs.Writing.{Gives, TookAtMost, TookSome, has_taken, write_failed};
ghost use Rattle.text_trace.specs.Lines.{seen_bytes};
ghost use Rattle.edges.specs.Parts.{PassesOver, TakesPart, took_part};

mod absent;
mod file_disk;
mod line_part;
mod real_clock;
mod socket;
mod udp_link;

pub use absent::{Absent, NoClock};
use fields::NoMemory;
pub use file_disk::FileDisk;
use line_part::{Part, pass_buffered, take_buffered, take_line};
use ports::{Ending, Failed, Given, Sink, Source, Taken};
pub use real_clock::RealClock;
use std::alloc::Global;
use std::io::{self, BufReader, Read, Write};
use text_trace::SEEN_BYTES;
pub use udp_link::UdpLink;

/// How many bytes a source reads at a time.
const BUFFER: usize = 65_536;

/// How often a call is made that a signal interrupts each time.
const TRIES: u32 = 8;

/// One read, made again where a signal interrupts it.
fn read_uninterrupted<R: Read>(reader: &mut R, buf: &mut [u8]) -> io::Result<usize>
    ensures bound { ReadsAtMost result buf.new }
    ensures room { length buf.new ≡ length buf.old }
    ensures bytes { ReadConsumes (R.remaining reader.old) (R.remaining reader.new) result buf.new }
{
    for _ in 0..TRIES {
        match reader.read(buf) {
            Err(error) if error.kind() == io::ErrorKind::Interrupted => {}
            answer => return answer,
        }
    }
    Err(io::ErrorKind::Interrupted.into())
}

/// One write, made again where a signal interrupts it: as often as a call is made but for once.
fn write_uninterrupted<W: Write>(writer: &mut W, bytes: &[u8]) -> io::Result<usize>
    ensures bound { WritesAtMost result bytes.now }
    ensures bytes { WriteAppends (W.contents writer.old) (W.contents writer.new) result bytes.now }
{
    for _ in 1..TRIES {
        match writer.write(bytes) {
            Err(error) if error.kind() == io::ErrorKind::Interrupted => {}
            answer => return answer,
        }
    }
    Err(io::ErrorKind::Interrupted.into())
}

/// A reader as a source, through a buffer of 64 KiB.
#[derive(Drop)]
pub struct StdSource<R: Read + Drop> {
    reader: BufReader<R>,
    is_open: bool,
    faults: u64,
}

impl<R: Read + Drop> StdSource<R> {
    /// The source of a reader that has had no fault and gave no end.
    pub fn new(alloc: Global, reader: R) -> Result<StdSource<R>, NoMemory>
        ensures open { IfOk result (λ s. s.is_open ≡ true) }
        ensures faults { IfOk result (λ s. s.faults ≡ 0) }
        ensures left { IfOk result
            (λ s. reader_remaining R.remaining s.reader ≡ R.remaining reader) }
    {
        match BufReader::with_capacity(alloc, BUFFER, reader) {
            Ok(reader) => Ok(StdSource {
                reader,
                is_open: true,
                faults: 0,
            }),
            Err(_) => Err(NoMemory),
        }
    }

    fn end(&mut self) -> Taken
        ensures answer { result ≡ Taken.End }
        ensures shut { self.new ≡ record self.old { is_open = false } }
    {
        self.is_open = false;
        Taken::End
    }

    fn fail(&mut self) -> Taken
        ensures answer { result ≡ Taken.Failed }
        ensures shut { self.new ≡ record self.old {
          is_open = false;
          faults = next_count self.old.faults;
        } }
    {
        self.is_open = false;
        self.faults = self.faults.saturating_add(1);
        Taken::Failed
    }

    /// Takes a byte of a line, through the buffer. At the end there is none.
    fn take_byte(&mut self, line: &mut Vec<u8>) -> Result<Option<Part>, Failed>
        requires open { self.old.is_open ≡ true }
        requires reserved { vec_len line.old < vec_capacity line.old }
        ensures fits { vec_len line.new ≤ vec_len line.old + 1 }
        ensures reserved { vec_capacity line.new ≡ vec_capacity line.old }
        ensures going { self.new.is_open ≡ took_part result }
        ensures faults { self.new.faults ≡ counted (is_err result) self.old.faults }
        ensures takes { TakesPart (reader_remaining R.remaining self.old.reader)
            (reader_remaining R.remaining self.new.reader) line.old.items line.new.items result }
    {
        let mut byte = [0u8; 1];
        match self.read(&mut byte) {
            Taken::Got(_) => {
                line.push_reserved(byte[0]);
                if byte[0] == b'\n' {
                    Ok(Some(Part::Last))
                } else {
                    Ok(Some(Part::Front))
                }
            }
            Taken::End => Ok(None),
            Taken::Failed => Err(Failed),
        }
    }

    /// Takes a part of a line: what the buffer has of it, or where it is empty a byte.
    fn take_part(&mut self, room: usize, line: &mut Vec<u8>) -> Result<Option<Part>, Failed>
        requires open { self.old.is_open ≡ true }
        requires room { 0 < room }
        requires most { room ≤ seen_bytes }
        requires reserved { vec_len line.old + room ≤ vec_capacity line.old }
        ensures fits { vec_len line.new ≤ vec_len line.old + room }
        ensures reserved { vec_capacity line.old ≤ vec_capacity line.new }
        ensures going { self.new.is_open ≡ took_part result }
        ensures faults { self.new.faults ≡ counted (is_err result) self.old.faults }
        ensures takes { TakesPart (reader_remaining R.remaining self.old.reader)
            (reader_remaining R.remaining self.new.reader) line.old.items line.new.items result }
    {
        if self.reader.buffer().is_empty() {
            self.take_byte(line)
        } else {
            Ok(Some(take_buffered(&mut self.reader, room, line)))
        }
    }

    /// Reads a line in parts. Apart: most lines stand in the buffer whole.
    #[cold]
    #[inline(never)]
    fn read_parts(&mut self, line: &mut Vec<u8>) -> Result<Ending, Failed>
        requires open { self.old.is_open ≡ true }
        requires empty { line.old.items ≡ [] }
        requires room { seen_bytes ≤ vec_capacity line.old }
        ensures room { vec_capacity line.old ≤ vec_capacity line.new }
        ensures going { self.new.is_open ≡ is_going result }
        ensures faults { self.new.faults ≡ counted (is_err result) self.old.faults }
        ensures reads { ReadsLine (reader_remaining R.remaining self.old.reader)
            (reader_remaining R.remaining self.new.reader) line.new.items result }
    {
        'parts: while line.len() < SEEN_BYTES {
            match self.take_part(SEEN_BYTES - line.len(), line) {
                Ok(Some(Part::Last)) => return Ok(Ending::Feed),
                Ok(Some(Part::Front)) => {}
                Ok(None) => return Ok(Ending::Input),
                Err(Failed) => return Err(Failed),
            }
        }
        Ok(Ending::Limit)
    }

    /// Passes over a byte, through the buffer. At the end there is none.
    fn pass_byte(&mut self) -> Result<Option<Part>, Failed>
        requires open { self.old.is_open ≡ true }
        ensures going { self.new.is_open ≡ took_part result }
        ensures faults { self.new.faults ≡ counted (is_err result) self.old.faults }
        ensures passes { PassesOver (reader_remaining R.remaining self.old.reader)
            (reader_remaining R.remaining self.new.reader) result }
    {
        let mut byte = [0u8; 1];
        match self.read(&mut byte) {
            Taken::Got(_) => {
                if byte[0] == b'\n' {
                    Ok(Some(Part::Last))
                } else {
                    Ok(Some(Part::Front))
                }
            }
            Taken::End => Ok(None),
            Taken::Failed => Err(Failed),
        }
    }

    /// Passes over a part of a line: what the buffer has of it, or where it is empty a byte.
    fn pass_part(&mut self) -> Result<Option<Part>, Failed>
        requires open { self.old.is_open ≡ true }
        ensures going { self.new.is_open ≡ took_part result }
        ensures faults { self.new.faults ≡ counted (is_err result) self.old.faults }
        ensures passes { PassesOver (reader_remaining R.remaining self.old.reader)
            (reader_remaining R.remaining self.new.reader) result }
    {
        if self.reader.buffer().is_empty() {
            self.pass_byte()
        } else {
            Ok(Some(pass_buffered(&mut self.reader)))
        }
    }
}

impl<R: Read + Drop> Source for StdSource<R> {
    ghost state = { λ s. record {
      left = reader_remaining R.remaining s.reader;
      faults = s.faults;
      is_open = s.is_open;
    } };

    fn read(&mut self, buf: &mut [u8]) -> Taken {
        if buf.is_empty() {
            return Taken::Got(0);
        }
        match read_uninterrupted(&mut self.reader, buf) {
            Ok(0) => self.end(),
            Ok(count) => Taken::Got(count),
            Err(_) => self.fail(),
        }
    }

    /// The line feed is looked for in the buffer, and what stands up to it is taken at once.
    fn read_line(&mut self, line: &mut Vec<u8>) -> Result<Ending, Failed> {
        line.clear();
        if take_line(&mut self.reader, line) {
            Ok(Ending::Feed)
        } else {
            self.read_parts(line)
        }
    }

    /// In parts, and of a rest that comes to no end so many that it counts as a failed read.
    fn pass_line(&mut self) -> Result<bool, Failed> {
        'parts: for _ in 0..u64::MAX {
            match self.pass_part() {
                Ok(Some(Part::Last)) => return Ok(true),
                Ok(Some(Part::Front)) => {}
                Ok(None) => return Ok(false),
                Err(Failed) => return Err(Failed),
            }
        }
        self.fail();
        Err(Failed)
    }
}

/// A writer as a sink, with no buffer, so that what was written is out when the program ends.
#[derive(Drop)]
pub struct StdSink<W: Write + Drop> {
    writer: W,
    is_open: bool,
    faults: u64,
}

impl<W: Write + Drop> StdSink<W> {
    /// The sink of a writer that has had no fault.
    pub fn new(writer: W) -> StdSink<W>
        ensures { result ≡ record {
          writer = writer;
          is_open = true;
          faults = 0;
        } }
    {
        StdSink {
            writer,
            is_open: true,
            faults: 0,
        }
    }

    fn fail(&mut self) -> Given
        ensures answer { result ≡ Given.Failed }
        ensures shut { self.new ≡ record self.old {
          is_open = false;
          faults = next_count self.old.faults;
        } }
    {
        self.is_open = false;
        self.faults = self.faults.saturating_add(1);
        Given::Failed
    }

    /// What comes of a write that had this error: one that a signal interrupted is made again. Apart, since it is rare.
    #[cold]
    #[inline(never)]
    fn write_again(&mut self, error: &io::Error, bytes: &[u8]) -> Given
        requires open { self.old.is_open ≡ true }
        ensures going { self.new.is_open ≡ has_taken result }
        ensures faults { self.new.faults ≡ counted (write_failed result) self.old.faults }
        ensures fits { TookAtMost result (length bytes.now) }
        ensures some { TookSome result (length bytes.now) }
        ensures gives { Gives (W.contents self.old.writer) (W.contents self.new.writer) bytes.now
            result }
    {
        if error.kind() != io::ErrorKind::Interrupted {
            return self.fail();
        }
        match write_uninterrupted(&mut self.writer, bytes) {
            Ok(count) if 0 < count => Given::Took(count),
            _ => self.fail(),
        }
    }
}

impl<W: Write + Drop> Sink for StdSink<W> {
    ghost state = { λ s. record {
      taken = W.contents s.writer;
      faults = s.faults;
      is_open = s.is_open;
    } };

    fn write(&mut self, bytes: &[u8]) -> Given {
        if bytes.is_empty() {
            return Given::Took(0);
        }
        match self.writer.write(bytes) {
            Ok(count) if count > 0 => Given::Took(count),
            Ok(_) => self.fail(),
            Err(error) => self.write_again(&error, bytes),
        }
    }
}
