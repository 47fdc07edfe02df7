//! A line, taken from the buffer of a reader a part at a time.

ghost use Rattle.std.specs.Prelude.{◌≡◌, ◌+◌, ◌<◌, ◌≤◌, false, [], length, take, vec_len, vec_capacity, IfSome};
ghost use Rattle.std.specs.Io.Buffered.{reader_buffer, reader_remaining};
ghost use Rattle.text_trace.specs.Lines.{seen_bytes, IsFed};
ghost use Rattle.edges.specs.Parts.{Gained, IsPart, PassesAs, TakesLine};

use memchr::memchr;
use std::io::{BufRead, BufReader, Read};
use text_trace::SEEN_BYTES;

/// What a part of a line is.
#[derive(Clone, Copy, Debug, PartialEq, Eq)]
pub(crate) enum Part {
    /// Its end: a line feed is the last of its bytes, and no other of them is one.
    Last,
    /// Bytes of which none is a line feed.
    Front,
}

/// How many of the bytes belong to a line that has room for so many, and what part of it they are.
fn part_of(bytes: &[u8], room: usize) -> (usize, Part)
    requires some { 0 < length bytes.now }
    requires room { 0 < room }
    requires most { room ≤ seen_bytes }
    ensures within { result.0 ≤ length bytes.now }
    ensures fits { result.0 ≤ room }
    ensures some { 0 < result.0 }
    ensures part { IsPart result.1 (take result.0 bytes.now) }
{
    let front = &bytes[..bytes.len().min(room)];
    match memchr(b'\n', front) {
        Some(place) => (place + 1, Part::Last),
        None => (front.len(), Part::Front),
    }
}

/// Takes the part of a line that the buffer has: as many bytes as there is room for, and none behind a line feed.
pub(crate) fn take_buffered<R: Read>(
    reader: &mut BufReader<R>,
    room: usize,
    line: &mut Vec<u8>,
) -> Part
    requires some { 0 < length (reader_buffer reader.old) }
    requires room { 0 < room }
    requires most { room ≤ seen_bytes }
    requires reserved { vec_len line.old + room ≤ vec_capacity line.old }
    ensures fits { vec_len line.new ≤ vec_len line.old + room }
    ensures reserved { vec_capacity line.old ≤ vec_capacity line.new }
    ensures gained { Gained (reader_remaining R.remaining reader.old)
        (reader_remaining R.remaining reader.new) line.old.items line.new.items result }
{
    let bytes = reader.buffer();
    let (count, part) = part_of(bytes, room);
    let Ok(()) = line.extend_from_slice(&bytes[..count]) else {
        unreachable!()
    };
    reader.consume(count);
    part
}

/// Passes over the part of a line that the buffer has: none of the bytes behind a line feed.
pub(crate) fn pass_buffered<R: Read>(reader: &mut BufReader<R>) -> Part
    requires some { 0 < length (reader_buffer reader.old) }
    ensures passes { PassesAs result (reader_remaining R.remaining reader.old)
        (reader_remaining R.remaining reader.new) }
{
    let bytes = reader.buffer();
    let (count, part) = part_of(bytes, SEEN_BYTES);
    reader.consume(count);
    part
}

/// How many bytes the line has that stands in front, where its line feed is among those that are seen of it.
fn line_in(bytes: &[u8]) -> Option<usize>
    ensures within { IfSome result (λ n. n ≤ length bytes.now) }
    ensures seen { IfSome result (λ n. n ≤ seen_bytes) }
    ensures line { IfSome result (λ n. IsFed (take n bytes.now)) }
{
    let front = &bytes[..bytes.len().min(SEEN_BYTES)];
    match memchr(b'\n', front) {
        Some(place) => Some(place + 1),
        None => None,
    }
}

/// Takes the line in front where the buffer has it whole, and says whether it has.
pub(crate) fn take_line<R: Read>(reader: &mut BufReader<R>, line: &mut Vec<u8>) -> bool
    requires empty { line.old.items ≡ [] }
    requires reserved { seen_bytes ≤ vec_capacity line.old }
    ensures reserved { vec_capacity line.old ≤ vec_capacity line.new }
    ensures takes { TakesLine (reader_remaining R.remaining reader.old)
        (reader_remaining R.remaining reader.new) line.new.items result }
    ensures same { result ≡ false → reader.new ≡ reader.old }
{
    let bytes = reader.buffer();
    match line_in(bytes) {
        Some(count) => {
            let Ok(()) = line.extend_from_slice(&bytes[..count]) else {
                unreachable!()
            };
            reader.consume(count);
            true
        }
        None => false,
    }
}
