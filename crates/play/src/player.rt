//! The loop.

ghost use Rattle.std.specs.Prelude.{◌≡◌, ◌≤◌, ◌<◌, ◌+◌, [], true, false, None, Ok, OnOk, vec_capacity, vec_len};
ghost use Rattle.std.specs.Result.{is_err};
ghost use Rattle.ports.specs.Count.{counted};
ghost use Rattle.ports.specs.LineReading.{is_going};
ghost use Rattle.text_trace.specs.Lines.{seen_bytes};
ghost use Rattle.text_trace.specs.Long.{most_lines};
ghost use Rattle.text_trace.specs.Trace.{Admits, Owing};
ghost use Rattle.play.specs.declared.long_lines.LongLines.TheVariants.{Cut, Passed};
ghost use Rattle.play.specs.Plays.{ConsumedLines, Continues, Runs, Turns};
ghost use Rattle.play.specs.PlaysBy.{ConsumedBy, ContinuesBy, RunsBy, TurnsBy, has_written, io};
ghost use Rattle.play.specs.Taking.{PassesRest, TakesLine};

use crate::buffers::Buffers;
use crate::long_lines::LongLines;
use crate::script::{Refusal, Script};
use crate::stop::Stop;
use ports::{Ending, Failed, Sink, Source, write_all};
use std::alloc::Global;

/// Passes over the rest of a line that was cut, and puts its line feed behind it, where it has one.
fn pass_rest<S: Source>(input: &mut S, line: &mut Vec<u8>) -> Result<Ending, Failed>
    requires open { (S.state input.old).is_open ≡ true }
    requires room { vec_len line.old < vec_capacity line.old }
    ensures room { vec_capacity line.old ≤ vec_capacity line.new }
    ensures going { (S.state input.new).is_open ≡ is_going result }
    ensures faults { (S.state input.new).faults
        ≡ counted (is_err result) (S.state input.old).faults }
    ensures passes { PassesRest (S.state input.old).left (S.state input.new).left line.old.items
        line.new.items result }
{
    match input.pass_line() {
        Ok(true) => {
            line.push_reserved(b'\n');
            Ok(Ending::Feed)
        }
        Ok(false) => Ok(Ending::Input),
        Err(Failed) => Err(Failed),
    }
}

/// Takes the next line, so that what is to be given of it stands in the buffer, and says what ended it.
fn take_line<S: Source>(
    input: &mut S,
    long: LongLines,
    line: &mut Vec<u8>,
) -> Result<Ending, Failed>
    requires open { (S.state input.old).is_open ≡ true }
    requires room { seen_bytes < vec_capacity line.old }
    ensures room { vec_capacity line.old ≤ vec_capacity line.new }
    ensures going { (S.state input.new).is_open ≡ is_going result }
    ensures faults { (S.state input.new).faults
        ≡ counted (is_err result) (S.state input.old).faults }
    ensures takes { TakesLine long (S.state input.old).left (S.state input.new).left line.new.items
        result }
{
    match input.read_line(line) {
        Ok(Ending::Limit) => match long {
            LongLines::Cut => Ok(Ending::Limit),
            LongLines::Passed => pass_rest(input, line),
        },
        Ok(Ending::Feed) => Ok(Ending::Feed),
        Ok(Ending::Input) => Ok(Ending::Input),
        Err(Failed) => Err(Failed),
    }
}

/// Takes the line of this number, and writes what it brings; behind the last line, what the end brings. Answers
/// whether there was a line.
fn play_one<P: Script, S: Source, O: Sink>(
    alloc: Global,
    script: &mut P,
    input: &mut S,
    out: &mut O,
    long: LongLines,
    number: u32,
    buffers: &mut Buffers,
) -> Result<bool, Stop<P::Cause>>
    requires source { (S.state input.old).is_open ≡ true }
    requires sink { (O.state out.old).is_open ≡ true }
    requires owing { Owing P.Cause (P.owes script.old) }
    ensures source { result ≡ Ok true → (S.state input.new).is_open ≡ true }
    ensures sink { (O.state out.new).is_open ≡ has_written result }
    ensures came { OnOk result (ConsumedBy long (λ lines. P.reaches script.old lines script.new)
        (P.room script.old) (P.room script.new) (S.state input.old).left (S.state input.new).left) }
    ensures ended { result ≡ Ok false → Admits P.Cause P.judged (P.owes script.new) [] None }
    ensures turns { TurnsBy long P.Cause P.judged (P.owes script.old) (P.owes script.new) number
        (P.room script.old) (P.room script.new)
        (io (S.state input.old) (O.state out.old))
        (io (S.state input.new) (O.state out.new)) result }
{
    buffers.text.clear();
    match take_line(input, long, &mut buffers.line) {
        Ok(_) => {}
        Err(Failed) => return Err(Stop::ReadFault),
    }
    if buffers.line.is_empty() {
        return match script.end(alloc, &mut buffers.text) {
            Ok(()) => match write_all(out, &buffers.text) {
                Ok(()) => Ok(false),
                Err(Failed) => Err(Stop::WriteFault),
            },
            Err(Refusal::Refused(cause)) => Err(Stop::Refused {
                line: number,
                cause,
            }),
            Err(Refusal::OutOfMemory) => Err(Stop::OutOfMemory),
        };
    }
    match script.line(alloc, &buffers.line, &mut buffers.text) {
        Ok(()) => match write_all(out, &buffers.text) {
            Ok(()) => Ok(true),
            Err(Failed) => Err(Stop::WriteFault),
        },
        Err(Refusal::Refused(cause)) => Err(Stop::Refused {
            line: number,
            cause,
        }),
        Err(Refusal::OutOfMemory) => Err(Stop::OutOfMemory),
    }
}

/// Plays the lines from the one of this number on.
fn play_from<P: Script, S: Source, O: Sink>(
    alloc: Global,
    script: &mut P,
    input: &mut S,
    out: &mut O,
    long: LongLines,
    first: u32,
    buffers: &mut Buffers,
) -> Result<(), Stop<P::Cause>>
    requires source { (S.state input.old).is_open ≡ true }
    requires sink { (O.state out.old).is_open ≡ true }
    requires owing { Owing P.Cause (P.owes script.old) }
    requires few { first + P.room script.old ≤ most_lines + 1 }
    ensures sink { (O.state out.new).is_open ≡ has_written result }
    ensures came { OnOk result (ConsumedBy long (λ lines. P.reaches script.old lines script.new)
        (P.room script.old) (P.room script.new) (S.state input.old).left (S.state input.new).left) }
    ensures ended { OnOk result (Admits P.Cause P.judged (P.owes script.new) [] None) }
    ensures continues { ContinuesBy long P.Cause P.judged (P.owes script.old) first
        (P.room script.old)
        (io (S.state input.old) (O.state out.old))
        (io (S.state input.new) (O.state out.new)) result }
{
    let mut number = first;
    'lines: while play_one(alloc, script, input, out, long, number, buffers)? {
        number += 1;
    }
    Ok(())
}

/// Takes the line of this number, and writes what it brings; behind the last line, what the end brings. Answers
/// whether there was a line.
pub fn play_line<P: Script, S: Source, O: Sink>(
    alloc: Global,
    script: &mut P,
    input: &mut S,
    out: &mut O,
    number: u32,
    buffers: &mut Buffers,
) -> Result<bool, Stop<P::Cause>>
    requires source { (S.state input.old).is_open ≡ true }
    requires sink { (O.state out.old).is_open ≡ true }
    requires owing { Owing P.Cause (P.owes script.old) }
    ensures source { result ≡ Ok true → (S.state input.new).is_open ≡ true }
    ensures sink { (O.state out.new).is_open ≡ has_written result }
    ensures came { OnOk result (ConsumedLines (λ lines. P.reaches script.old lines script.new)
        (P.room script.old) (P.room script.new) (S.state input.old).left (S.state input.new).left) }
    ensures ended { result ≡ Ok false → Admits P.Cause P.judged (P.owes script.new) [] None }
    ensures turns { Turns P.Cause P.judged (P.owes script.old) (P.owes script.new) number
        (P.room script.old) (P.room script.new)
        (io (S.state input.old) (O.state out.old))
        (io (S.state input.new) (O.state out.new)) result }
{
    play_one(alloc, script, input, out, LongLines::Cut, number, buffers)
}

/// Plays the lines behind those that were taken, from the line of this number on, as `play` does those of a whole text.
pub fn play_on<P: Script, S: Source, O: Sink>(
    alloc: Global,
    script: &mut P,
    input: &mut S,
    out: &mut O,
    first: u32,
    buffers: &mut Buffers,
) -> Result<(), Stop<P::Cause>>
    requires source { (S.state input.old).is_open ≡ true }
    requires sink { (O.state out.old).is_open ≡ true }
    requires owing { Owing P.Cause (P.owes script.old) }
    requires few { first + P.room script.old ≤ most_lines + 1 }
    ensures sink { (O.state out.new).is_open ≡ has_written result }
    // Where the text is at its end, what the script has learned of its lines.
    ensures came { OnOk result (ConsumedLines (λ lines. P.reaches script.old lines script.new)
        (P.room script.old) (P.room script.new) (S.state input.old).left (S.state input.new).left) }
    ensures ended { OnOk result (Admits P.Cause P.judged (P.owes script.new) [] None) }
    ensures continues { Continues P.Cause P.judged (P.owes script.old) first (P.room script.old)
        (io (S.state input.old) (O.state out.old))
        (io (S.state input.new) (O.state out.new)) result }
{
    play_from(alloc, script, input, out, LongLines::Cut, first, buffers)
}

/// Plays the text that the source gives, to its end or up to the first cause that stops it, and writes its trace: of
/// each line before the next is taken. Of the source nothing is taken behind a line that is refused, and nothing is
/// read behind its end or a fault. At most one line more is taken than the script has room for. Memory is refused
/// before anything is read, or for a line that no judged cause refuses, or an end that isn't refused.
pub fn play<P: Script, S: Source, O: Sink>(
    alloc: Global,
    script: &mut P,
    input: &mut S,
    out: &mut O,
) -> Result<(), Stop<P::Cause>>
    requires source { (S.state input.old).is_open ≡ true }
    requires sink { (O.state out.old).is_open ≡ true }
    requires owing { Owing P.Cause (P.owes script.old) }
    requires few { P.room script.old ≤ most_lines }
    ensures sink { (O.state out.new).is_open ≡ has_written result }
    // Where the text is at its end, what the script has learned of its lines.
    ensures came { OnOk result (ConsumedLines (λ lines. P.reaches script.old lines script.new)
        (P.room script.old) (P.room script.new) (S.state input.old).left (S.state input.new).left) }
    ensures ended { OnOk result (Admits P.Cause P.judged (P.owes script.new) [] None) }
    ensures runs { Runs P.Cause P.judged (P.owes script.old) (P.room script.old)
        (io (S.state input.old) (O.state out.old))
        (io (S.state input.new) (O.state out.new)) result }
{
    let Ok(mut buffers) = Buffers::new(alloc) else {
        return Err(Stop::OutOfMemory);
    };
    play_from(alloc, script, input, out, LongLines::Cut, 1, &mut buffers)
}

/// Plays a text as `play` does, past its long lines: a line with more than 65,600 bytes before its line feed is taken
/// whole, and the script is given its first 65,601 bytes and that line feed; where the input ends inside it, no line
/// feed. No more than that is kept of a line, and what was passed over is no line.
pub fn play_past<P: Script, S: Source, O: Sink>(
    alloc: Global,
    script: &mut P,
    input: &mut S,
    out: &mut O,
) -> Result<(), Stop<P::Cause>>
    requires source { (S.state input.old).is_open ≡ true }
    requires sink { (O.state out.old).is_open ≡ true }
    requires owing { Owing P.Cause (P.owes script.old) }
    requires few { P.room script.old ≤ most_lines }
    ensures sink { (O.state out.new).is_open ≡ has_written result }
    // Where the text is at its end, what the script has learned of its lines, as they were given.
    ensures came { OnOk result (ConsumedBy Passed (λ lines. P.reaches script.old lines script.new)
        (P.room script.old) (P.room script.new) (S.state input.old).left (S.state input.new).left) }
    ensures ended { OnOk result (Admits P.Cause P.judged (P.owes script.new) [] None) }
    ensures runs { RunsBy Passed P.Cause P.judged (P.owes script.old) (P.room script.old)
        (io (S.state input.old) (O.state out.old))
        (io (S.state input.new) (O.state out.new)) result }
{
    let Ok(mut buffers) = Buffers::new(alloc) else {
        return Err(Stop::OutOfMemory);
    };
    play_from(
        alloc,
        script,
        input,
        out,
        LongLines::Passed,
        1,
        &mut buffers,
    )
}
