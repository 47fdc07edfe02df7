//! Runs of a command over objects in memory.

ghost use Rattle.std.specs.Prelude.{◌≡◌, ◌≤◌, true};

use command_line::run;
use edges::{Absent, NoClock};
use fixtures::{failing_sink, failing_source};
use ports::{Clock, Disk, Link, MemoryDisk, MemorySink, MemorySource};
use std::alloc::Global;
use std::process::Abort;
use std::test::Fail;

/// What `run` wrote, and the number of its answer.
#[derive(Drop)]
pub struct Run {
    pub written: Vec<u8>,
    pub number: u8,
}

/// Runs the command from the source to the sink, over these.
fn run_between<D: Disk, L: Link, C: Clock>(
    alloc: Global,
    words: &[String],
    input: &mut MemorySource,
    mut out: MemorySink,
    disk: &mut D,
    link: &mut L,
    clock: &mut C,
) -> Result<Run, Fail>
    requires source { input.old.is_open ≡ true }
    requires sink { out.is_open ≡ true }
{
    let number = run(alloc, words, input, &mut out, disk, link, clock).number();
    Ok(Run {
        written: out.bytes().to_vec(alloc)?,
        number,
    })
}

/// Runs the command over a text, at most so many bytes at each call; the source and the sink fail at the
/// given calls.
pub fn run_failing(
    alloc: Global,
    words: &str,
    text: &str,
    step: usize,
    source_fails: &[u64],
    sink_fails: &[u64],
) -> Result<Run, Fail>
    requires { 1 ≤ step }
{
    let words = split(alloc, words)?;
    let mut input = failing_source(alloc, text, step, source_fails)?;
    let out = failing_sink(alloc, 8_000_000, step, sink_fails)?;
    let (mut disk, mut link, mut clock) = (Absent::new(), Absent::new(), NoClock);
    run_between(
        alloc, &words, &mut input, out, &mut disk, &mut link, &mut clock,
    )
}

/// The words of a command, which stand in a text.
fn split(alloc: Global, words: &str) -> Result<Vec<String>, Fail> {
    let mut all = Vec::new(alloc);
    for word in words.split_whitespace() {
        all.push(String::from_str(alloc, word)?)?;
    }
    Ok(all)
}

/// The words of a command.
fn words_of(alloc: Global, words: &[&str]) -> Result<Vec<String>, Fail> {
    let mut all = Vec::new(alloc);
    for word in words {
        all.push(String::from_str(alloc, word)?)?;
    }
    Ok(all)
}

/// Runs the command over the text and these, with so much room for what it writes.
pub fn run_on<D: Disk, L: Link, C: Clock>(
    alloc: Global,
    words: &[&str],
    text: &str,
    room: usize,
    disk: &mut D,
    link: &mut L,
    clock: &mut C,
) -> Result<Run, Fail> {
    let words = words_of(alloc, words)?;
    let mut input = failing_source(alloc, text, 4_096, &[])?;
    let out = failing_sink(alloc, room, 4_096, &[])?;
    run_between(alloc, &words, &mut input, out, disk, link, clock)
}

/// Runs the command over the text and the disk.
pub fn run_over(
    alloc: Global,
    words: &[&str],
    text: &str,
    disk: &mut MemoryDisk,
) -> Result<Run, Fail> {
    run_on(
        alloc,
        words,
        text,
        400_000,
        disk,
        &mut Absent::new(),
        &mut NoClock,
    )
}

/// Compares the number of the answer and what was written.
pub fn compare(rt: &impl Abort, got: &Run, number: u8, written: &[u8]) {
    assert_eq!(rt; got.number, number);
    assert_eq!(rt; got.written.as_slice(), written);
}

/// Runs the command over the text, and compares what was written and the number.
pub fn answers(
    rt: &impl Abort,
    alloc: Global,
    words: &str,
    text: &str,
    written: &str,
    number: u8,
) -> Result<(), Fail> {
    let got = run_failing(alloc, words, text, 65_536, &[], &[])?;
    assert_eq!(rt; got.written.as_slice(), written.as_bytes(), "for {text}");
    assert_eq!(rt; got.number, number, "for {text}");
    Ok(())
}
