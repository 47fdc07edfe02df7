//! Lines of the journal.

ghost use Rattle.std.specs.Prelude.{◌≡◌, ◌≢◌, ◌++◌, ◌≤◌, [], true, length, take, OnOk, OnErr, IfErr};
ghost use Rattle.ports.specs.Count.{counted};
ghost use Rattle.journal.specs.Turns.{turn_text};
ghost use Rattle.journal.specs.declared.event.What.TheVariants as kinds;
ghost use Rattle.turn_rules.specs.Lines.{line_of, with_feed};
ghost use Rattle.node_loop.specs.Gathering.{GathersLine, WritesBehind};
ghost use Rattle.node_loop.specs.Writing.{WritesLine, is_open_after, is_write_fault};

use crate::fault::ServeFault;
use ff_ids::MemberId;
use fields::NoMemory;
use journal::{Event, Turn, write_event, write_sent, write_turn};
use ports::{Failed, Sink, write_all};

/// Writes the bytes in one piece.
fn write_piece<O: Sink>(out: &mut O, bytes: &[u8]) -> Result<(), ServeFault>
    requires open { (O.state out.old).is_open ≡ true }
    ensures going { (O.state out.new).is_open ≡ is_open_after result }
    ensures faults { (O.state out.new).faults
        ≡ counted (is_write_fault result) (O.state out.old).faults }
    ensures cause { IfErr result (λ e. e ≡ ServeFault.WriteFault) }
    ensures wrote { WritesLine (O.state out.old).taken (O.state out.new).taken bytes.now result }
{
    match write_all(out, bytes) {
        Ok(()) => Ok(()),
        Err(Failed) => Err(ServeFault::WriteFault),
    }
}

/// Writes what was gathered, and gathers anew.
pub fn write_gathered<O: Sink>(out: &mut O, lines: &mut Vec<u8>) -> Result<(), ServeFault>
    requires open { (O.state out.old).is_open ≡ true }
    ensures going { (O.state out.new).is_open ≡ is_open_after result }
    ensures faults { (O.state out.new).faults
        ≡ counted (is_write_fault result) (O.state out.old).faults }
    ensures cause { IfErr result (λ e. e ≡ ServeFault.WriteFault) }
    ensures wrote { WritesLine (O.state out.old).taken (O.state out.new).taken lines.old.items
        result }
    ensures empty { lines.new.items ≡ [] }
{
    let written = write_piece(out, lines);
    lines.clear();
    written
}

/// Ends the line. Where memory is refused, `lines` is cut to this length.
fn end_line(held: usize, lines: &mut Vec<u8>) -> Result<(), NoMemory>
    requires held { held ≤ length lines.old.items }
    ensures ok { OnOk result (lines.new.items ≡ with_feed lines.old.items) }
    ensures refused { OnErr result (lines.new.items ≡ take held lines.old.items) }
{
    if lines.push(b'\n').is_err() {
        lines.truncate(held);
        return Err(NoMemory);
    }
    Ok(())
}

/// Gathers the turn's line, and it alone.
pub fn gather_turn(turn: &Turn, lines: &mut Vec<u8>) -> Result<(), NoMemory>
    ensures { OnOk result (lines.new.items ≡ with_feed (turn_text turn.now)) }
{
    lines.clear();
    write_turn(turn, lines)?;
    end_line(0, lines)
}

/// Adds the event's line. Where memory is refused, `lines` is as it was.
fn add_event(event: &Event, lines: &mut Vec<u8>) -> Result<(), NoMemory>
    ensures ok { OnOk result (lines.new.items ≡ lines.old.items ++ line_of event.now) }
    ensures refused { OnErr result (lines.new.items ≡ lines.old.items) }
{
    let held = lines.len();
    write_event(event, lines)?;
    end_line(held, lines)
}

/// Adds the line of the event that the datagram of this number went to the member. Where memory is refused, `lines` is as
/// it was.
fn add_sent(
    moment: u64,
    number: u64,
    to: MemberId,
    bytes: &[u8],
    lines: &mut Vec<u8>,
) -> Result<(), NoMemory>
    ensures ok { OnOk result (lines.new.items
        ≡ lines.old.items
        ++ line_of (record { moment = moment; what = kinds.Sent number to bytes.now })) }
    ensures refused { OnErr result (lines.new.items ≡ lines.old.items) }
{
    let held = lines.len();
    write_sent(moment, number, to, bytes, lines)?;
    end_line(held, lines)
}

/// Adds the event's line to those that were gathered. Where memory is refused for it, these are written.
pub fn gather<O: Sink>(out: &mut O, lines: &mut Vec<u8>, event: &Event) -> Result<(), ServeFault>
    requires open { (O.state out.old).is_open ≡ true }
    ensures going { (O.state out.new).is_open ≡ is_open_after result }
    ensures faults { (O.state out.new).faults
        ≡ counted (is_write_fault result) (O.state out.old).faults }
    ensures cause { IfErr result (λ e. e ≢ ServeFault.StoreFault) }
    ensures gathers { GathersLine (O.state out.old).taken (O.state out.new).taken lines.old.items
        lines.new.items (line_of event.now) result }
{
    match add_event(event, lines) {
        Ok(()) => Ok(()),
        Err(NoMemory) => write_gathered(out, lines).and(Err(ServeFault::OutOfMemory)),
    }
}

/// Writes what was gathered, and with it the line that the datagram of this number went to the member.
pub fn write_with_sent<O: Sink>(
    out: &mut O,
    lines: &mut Vec<u8>,
    moment: u64,
    number: u64,
    to: MemberId,
    bytes: &[u8],
) -> Result<(), ServeFault>
    requires open { (O.state out.old).is_open ≡ true }
    ensures going { (O.state out.new).is_open ≡ is_open_after result }
    ensures faults { (O.state out.new).faults
        ≡ counted (is_write_fault result) (O.state out.old).faults }
    ensures cause { IfErr result (λ e. e ≢ ServeFault.StoreFault) }
    ensures wrote { WritesBehind (O.state out.old).taken (O.state out.new).taken lines.old.items
        (line_of (record { moment = moment; what = kinds.Sent number to bytes.now })) result }
    ensures empty { lines.new.items ≡ [] }
{
    match add_sent(moment, number, to, bytes, lines) {
        Ok(()) => write_gathered(out, lines),
        Err(NoMemory) => write_gathered(out, lines).and(Err(ServeFault::OutOfMemory)),
    }
}
