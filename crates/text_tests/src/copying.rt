//! The loop at work, over a script that writes each line again.

ghost use Rattle.std.specs.Prelude.{◌≡◌};
ghost use Rattle.text_trace.specs.Trace.{Every};
ghost use Rattle.text_tests.specs.Copying.{copied, waits};

use fixtures::{failing_sink, failing_source};
use play::{Refusal, Script, Stop, play, play_past};
use std::alloc::Global;
use std::process::Abort;
use std::test::Fail;

/// Writes each line again, so many at the most. A line that begins with `#` is refused.
#[derive(Drop)]
struct Copier {
    room: u32,
}

impl Script for Copier {
    type Cause = u8;

    ghost judged = { Every };

    ghost owes = { λ s f. f ≡ copied s.room };

    ghost room = { λ s. s.room };

    ghost reaches = { λ _ _ _. Unit {0} };

    fn line(
        &mut self,
        _alloc: Global,
        bytes: &[u8],
        text: &mut Vec<u8>,
    ) -> Result<(), Refusal<u8>> {
        if self.room == 0 {
            return Err(Refusal::Refused(1));
        }
        if bytes.is_empty() || bytes[bytes.len() - 1] != b'\n' {
            return Err(Refusal::Refused(2));
        }
        if bytes[0] == b'#' {
            return Err(Refusal::Refused(3));
        }
        if text.extend_from_slice(bytes).is_err() {
            return Err(Refusal::OutOfMemory);
        }
        self.room -= 1;
        Ok(())
    }

    fn end(&self, _alloc: Global, text: &mut Vec<u8>) -> Result<(), Refusal<u8>> {
        if text.extend_from_slice(b"end").is_err() {
            return Err(Refusal::OutOfMemory);
        }
        Ok(())
    }

    ghost waits = { λ s f same. waits s.room f same };

    ghost reaches_itself = { λ _. tt };

    ghost reaches_on = { λ _ _ _ _ _ _ _. tt };
}

#[test]
fn text_is_copied_to_its_end(rt: HostRuntime) -> Result<(), Fail> {
    let mut input = failing_source(rt.alloc(), "ab\nc\n", 1, &[])?;
    let mut out = failing_sink(rt.alloc(), 100, 7, &[])?;
    let mut copier = Copier { room: 5 };
    assert_eq!(rt; play(rt.alloc(), &mut copier, &mut input, &mut out), Ok(()));
    assert_eq!(rt; out.bytes(), b"ab\nc\nend".as_slice());
    assert_eq!(rt; copier.room, 3);
    Ok(())
}

#[test]
fn refused_line_ends_the_run_and_nothing_is_read_behind_it(rt: HostRuntime) -> Result<(), Fail> {
    let mut input = failing_source(rt.alloc(), "ab\n#\nc", 1, &[5])?;
    let mut out = failing_sink(rt.alloc(), 100, 7, &[])?;
    let mut copier = Copier { room: 5 };
    let stop = Stop::Refused { line: 2, cause: 3 };
    assert_eq!(rt;
        play(rt.alloc(), &mut copier, &mut input, &mut out),
        Err(stop)
    );
    assert_eq!(rt; out.bytes(), b"ab\n".as_slice());
    Ok(())
}

#[test]
fn failed_read_leaves_the_trace_of_whole_lines(rt: HostRuntime) -> Result<(), Fail> {
    let mut input = failing_source(rt.alloc(), "ab\n#\n", 1, &[4])?;
    let mut out = failing_sink(rt.alloc(), 100, 7, &[])?;
    let mut copier = Copier { room: 5 };
    assert_eq!(rt;
        play(rt.alloc(), &mut copier, &mut input, &mut out),
        Err(Stop::ReadFault)
    );
    assert_eq!(rt; out.bytes(), b"ab\n".as_slice());
    Ok(())
}

#[test]
fn failed_write_leaves_a_front(rt: HostRuntime) -> Result<(), Fail> {
    let mut input = failing_source(rt.alloc(), "abcdefghij\n", 1, &[])?;
    let mut out = failing_sink(rt.alloc(), 100, 7, &[1])?;
    let mut copier = Copier { room: 5 };
    assert_eq!(rt;
        play(rt.alloc(), &mut copier, &mut input, &mut out),
        Err(Stop::WriteFault)
    );
    assert_eq!(rt; out.bytes(), b"abcdefg".as_slice());
    Ok(())
}

/// So many letters.
fn letters(alloc: Global, count: usize) -> Result<String, Fail> {
    let mut line = String::new(alloc);
    for _ in 0..count {
        line.push('v')?;
    }
    Ok(line)
}

/// A run past the long lines of the text, of which these reads fail, ends so and writes this.
fn passes(
    rt: &impl Abort,
    alloc: Global,
    text: &str,
    fail: &[u64],
    ended: Result<(), Stop<u8>>,
    written: &str,
) -> Result<(), Fail> {
    let mut input = failing_source(alloc, text, 1, fail)?;
    let mut out = failing_sink(alloc, 200_000, 50_000, &[])?;
    let mut copier = Copier { room: 5 };
    assert_eq!(rt; play_past(alloc, &mut copier, &mut input, &mut out), ended);
    assert_eq!(rt; out.bytes(), written.as_bytes());
    Ok(())
}

/// Behind a first line, a line of which 65,601 letters are seen and this stands behind them, and then a third.
fn takes_long(rt: &impl Abort, alloc: Global, seen: &str, tail: &str) -> Result<(), Fail> {
    let text = format!(in alloc; "ab\n{seen}{tail}\nc\n")?;
    let written = format!(in alloc; "ab\n{seen}\nc\nend")?;
    passes(rt, alloc, text.as_str(), &[], Ok(()), written.as_str())
}

#[test]
fn long_line_is_taken_and_its_tail_is_no_line(rt: HostRuntime) -> Result<(), Fail> {
    let seen = letters(rt.alloc(), 65_601)?;
    for tail in ["", "v", "#", "end", "v\r"] {
        takes_long(&rt, rt.alloc(), seen.as_str(), tail)?;
    }
    Ok(())
}

/// The same without a line feed at its end.
fn refuses_long(rt: &impl Abort, alloc: Global, seen: &str, tail: &str) -> Result<(), Fail> {
    let text = format!(in alloc; "ab\n{seen}{tail}")?;
    let stop = Stop::Refused { line: 2, cause: 2 };
    passes(rt, alloc, text.as_str(), &[], Err(stop), "ab\n")
}

#[test]
fn long_line_without_its_feed_is_given_without_it(rt: HostRuntime) -> Result<(), Fail> {
    let seen = letters(rt.alloc(), 65_601)?;
    for tail in ["", "end"] {
        refuses_long(&rt, rt.alloc(), seen.as_str(), tail)?;
    }
    Ok(())
}

/// A line that is as long as a line may be is given whole, and so is what stands behind it.
fn takes_longest(rt: &impl Abort, alloc: Global, seen: &str) -> Result<(), Fail> {
    let text = format!(in alloc; "{seen}\nend\n")?;
    let written = format!(in alloc; "{seen}\nend\nend")?;
    passes(rt, alloc, text.as_str(), &[], Ok(()), written.as_str())?;
    let stop = Stop::Refused { line: 1, cause: 2 };
    passes(rt, alloc, seen, &[], Err(stop), "")
}

#[test]
fn longest_line_that_is_not_long_is_given_whole(rt: HostRuntime) -> Result<(), Fail> {
    let seen = letters(rt.alloc(), 65_600)?;
    takes_longest(&rt, rt.alloc(), seen.as_str())
}

#[test]
fn read_that_fails_in_the_tail_of_a_long_line_ends_the_run(rt: HostRuntime) -> Result<(), Fail> {
    let text = letters(rt.alloc(), 65_700)?;
    passes(
        &rt,
        rt.alloc(),
        text.as_str(),
        &[65_650],
        Err(Stop::ReadFault),
        "",
    )
}

#[test]
fn long_line_is_refused_where_long_lines_are_cut(rt: HostRuntime) -> Result<(), Fail> {
    let text = letters(rt.alloc(), 65_700)?;
    let mut input = failing_source(rt.alloc(), text.as_str(), 1, &[65_601])?;
    let mut out = failing_sink(rt.alloc(), 100, 7, &[])?;
    let mut copier = Copier { room: 5 };
    let stop = Stop::Refused { line: 1, cause: 2 };
    assert_eq!(rt;
        play(rt.alloc(), &mut copier, &mut input, &mut out),
        Err(stop)
    );
    Ok(())
}
