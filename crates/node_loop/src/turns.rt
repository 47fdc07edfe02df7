//! Turns: what each hears, and how many ticks it makes.

ghost use Rattle.std.specs.Prelude.{◌≡◌, ◌≢◌, ◌≤◌, ◌+◌, false, true, OnOk, IfErr, length};
ghost use Rattle.ports.specs.Count.{counted, Rose};
ghost use Rattle.node_rules.specs.Nodes.{Setting};
ghost use Rattle.journal.specs.Turns.{turn_text};
ghost use Rattle.node_loop.specs.Turns.{Outlook, after_turn, kept_of, room, ticks_forgotten, ticks_owed, turn_in};
ghost use Rattle.turn_rules.specs.Turns.{delivery_of, turn_acts};
ghost use Rattle.node_loop.specs.Courses.{ServeState, served};
ghost use Rattle.turn_rules.specs.Lines.{with_feed};
ghost use Rattle.node_loop.specs.Lines.{GoesOn};
ghost use Rattle.node_loop.specs.Writing.{Before, Hears, Stands, WritesLine, has_failed, is_open_after, is_write_fault, standing};
ghost use Rattle.node_loop.specs.Serving.{Sees, Serves};

use crate::calls::{deliver, tick_times};
use crate::fault::ServeFault;
use crate::unsigned::{deliver_unsigned, quiet_bytes};
use crate::writing::{gather_turn, write_gathered};
use fields::{Bytes, NoMemory};
use journal::{Heard, Turn};
use node_core::Node;
use ports::{Clock, Disk, Link, Received, Sink};
use std::alloc::Global;

/// The most ticks that one turn makes.
const MOST_TICKS: u64 = 64;

/// How the ticks of a life follow its clock.
#[derive(Clone, Copy, Debug, PartialEq, Eq)]
pub struct Pace {
    /// A tick is owed for each so many milliseconds.
    pub millis: u32,
    /// Of those owed at a turn no more than this are kept, where a pause is no silence; the others are forgotten.
    pub most: Option<u32>,
}

impl Pace {
    /// How many of the ticks that are owed are kept.
    fn kept(self, owed: u64) -> u64
        ensures value { result ≡ kept_of self.most owed }
        ensures few { result ≤ owed }
    {
        match self.most {
            Some(most) => u64::from(most).min(owed),
            None => owed,
        }
    }
}

/// How far a life has come.
#[derive(Drop)]
pub struct Progress {
    /// The clock's reading before the first turn.
    pub base: u64,
    /// How ticks follow the readings since then.
    pub pace: Pace,
    /// How many ticks were made or forgotten.
    pub made: u64,
    /// How many datagrams were sent.
    pub sent: u64,
}

impl Progress {
    /// How many ticks the turn makes that reads the clock so. They count as made, and so do those that are forgotten.
    fn next_ticks(&mut self, reading: u64) -> u8
        requires { 1 ≤ self.old.pace.millis }
        ensures ticks { result ≡ ticks_owed self.old.pace self.old.base self.old.made reading }
        ensures made { self.new ≡ record self.old {
          made = self.old.made + result
              + ticks_forgotten self.old.pace self.old.base self.old.made reading;
        } }
    {
        let due = reading.saturating_sub(self.base) / u64::from(self.pace.millis);
        let owed = due.saturating_sub(self.made);
        let kept = self.pace.kept(owed);
        let ticks = kept.min(MOST_TICKS);
        self.made += ticks + (owed - kept);
        ticks as u8
    }
}

/// Hears the link, through the buffer.
fn hear<L: Link>(alloc: Global, link: &mut L, buf: &mut [u8]) -> Result<Heard, NoMemory>
    requires { length buf.old ≡ room }
    ensures faults { (L.state link.new).faults
        ≡ counted (has_failed result) (L.state link.old).faults }
    ensures hears { Hears (L.state link.old).contents (L.state link.new).contents result }
{
    match link.receive(buf) {
        Received::Got(count) => match Vec::from_slice(alloc, &buf[..count]) {
            Ok(bytes) => Ok(Heard::Got(Bytes::from_vec(bytes))),
            Err(_) => Err(NoMemory),
        },
        Received::Nothing => Ok(Heard::Nothing),
        Received::Failed => Ok(Heard::Failed),
    }
}

/// Writes the turn's line, which is made in this room.
fn write_turn_line<O: Sink>(out: &mut O, lines: &mut Vec<u8>, turn: &Turn) -> Result<(), ServeFault>
    requires open { (O.state out.old).is_open ≡ true }
    ensures going { (O.state out.new).is_open ≡ is_open_after result }
    ensures faults { (O.state out.new).faults
        ≡ counted (is_write_fault result) (O.state out.old).faults }
    ensures cause { IfErr result (λ e. e ≢ ServeFault.StoreFault) }
    ensures wrote { WritesLine (O.state out.old).taken (O.state out.new).taken
        (with_feed (turn_text turn.now)) result }
{
    match gather_turn(turn, lines) {
        Ok(()) => write_gathered(out, lines),
        Err(NoMemory) => Err(ServeFault::OutOfMemory),
    }
}

/// Delivers what was got.
fn deliver_heard<D: Disk, L: Link, O: Sink>(
    alloc: Global,
    node: &mut Node,
    disk: &mut D,
    link: &mut L,
    out: &mut O,
    sent: &mut u64,
    lines: &mut Vec<u8>,
    heard: &Heard,
) -> Result<(), ServeFault>
    requires going { node.old.ended ≡ false }
    requires open { (O.state out.old).is_open ≡ true }
    ensures open { (O.state out.new).is_open ≡ is_open_after result }
    ensures going { OnOk result (node.new.ended ≡ false) }
    ensures faults { (O.state out.new).faults
        ≡ counted (is_write_fault result) (O.state out.old).faults }
    ensures no_disk_fault { OnOk result ((D.state disk.new).faults ≡ (D.state disk.old).faults) }
    ensures store { IfErr result (λ e. e ≡ ServeFault.StoreFault
        → Rose (D.state disk.old).faults (D.state disk.new).faults) }
    ensures closed { OnOk result (node.new.signer.closed ≡ node.old.signer.closed) }
    ensures spends { GoesOn node.old.signer node.new.signer
        (D.state disk.old).moments (D.state disk.new).moments
        (O.state out.old).taken (O.state out.new).taken
        (L.state link.old).faults (L.state link.new).faults result }
    ensures serves { (s : Setting) (before : Before) (r : ServeState)
        → Stands s before (standing node.old (L.state link.old).contents (O.state out.old).taken
        (D.state disk.old).moments sent.old) r
        → Serves s before (delivery_of heard.now) r
        (standing node.new (L.state link.new).contents (O.state out.new).taken
        (D.state disk.new).moments sent.new) result }
{
    match heard {
        Heard::Got(bytes) => deliver(alloc, node, disk, link, out, sent, lines, bytes.as_slice()),
        Heard::Nothing | Heard::Failed => Ok(()),
    }
}

/// One turn: hears the link, reads the clock, writes the turn's line, delivers what was got, and makes the ticks that are
/// owed. Where what was got has the kind of a ping, a pong or a summary, and no ticks are owed, the line is written with what
/// the delivery reports.
pub fn turn<D: Disk, L: Link, C: Clock, O: Sink>(
    alloc: Global,
    node: &mut Node,
    disk: &mut D,
    link: &mut L,
    clock: &mut C,
    out: &mut O,
    progress: &mut Progress,
    buf: &mut [u8],
    lines: &mut Vec<u8>,
    number: u32,
) -> Result<(), ServeFault>
    requires going { node.old.ended ≡ false }
    requires open { (O.state out.old).is_open ≡ true }
    requires some { 1 ≤ progress.old.pace.millis }
    requires room { length buf.old ≡ room }
    ensures open { (O.state out.new).is_open ≡ is_open_after result }
    ensures going { OnOk result (node.new.ended ≡ false) }
    ensures faults { (O.state out.new).faults
        ≡ counted (is_write_fault result) (O.state out.old).faults }
    ensures no_disk_fault { OnOk result ((D.state disk.new).faults ≡ (D.state disk.old).faults) }
    ensures store { IfErr result (λ e. e ≡ ServeFault.StoreFault
        → Rose (D.state disk.old).faults (D.state disk.new).faults) }
    ensures kept { (progress.new.base ≡ progress.old.base)
        × (progress.new.pace ≡ progress.old.pace) }
    ensures closed { OnOk result (node.new.signer.closed ≡ node.old.signer.closed) }
    ensures spends { GoesOn node.old.signer node.new.signer
        (D.state disk.old).moments (D.state disk.new).moments
        (O.state out.old).taken (O.state out.new).taken
        (L.state link.old).faults (L.state link.new).faults result }
    ensures serves { (s : Setting) (before : Before) (r : ServeState) (o : Outlook)
        → Stands s before (standing node.old (L.state link.old).contents (O.state out.old).taken
        (D.state disk.old).moments progress.old.sent) r
        → Sees o r (C.state clock.old).reading (C.state clock.old).coming progress.old.made
        → Serves s before (turn_acts (turn_in progress.old.pace progress.old.base number o)) r
        (standing node.new (L.state link.new).contents (O.state out.new).taken
        (D.state disk.new).moments progress.new.sent) result }
    ensures sees { (s : Setting) (before : Before) (r : ServeState) (o : Outlook)
        → Stands s before (standing node.old (L.state link.old).contents (O.state out.old).taken
        (D.state disk.old).moments progress.old.sent) r
        → Sees o r (C.state clock.old).reading (C.state clock.old).coming progress.old.made
        → OnOk result (Sees (after_turn progress.old.pace progress.old.base o)
        (served s (turn_acts (turn_in progress.old.pace progress.old.base number o)) r)
        (C.state clock.new).reading (C.state clock.new).coming progress.new.made) }
{
    let Ok(heard) = hear(alloc, link, buf) else {
        return Err(ServeFault::OutOfMemory);
    };
    let ticks = progress.next_ticks(clock.now());
    let turn = Turn {
        number,
        heard,
        ticks,
    };
    if let Some(bytes) = quiet_bytes(&turn) {
        let sent = &mut progress.sent;
        return deliver_unsigned(alloc, node, disk, link, out, sent, lines, &turn, bytes);
    }
    write_turn_line(out, lines, &turn)?;
    let sent = &mut progress.sent;
    deliver_heard(alloc, node, disk, link, out, sent, lines, &turn.heard)?;
    tick_times(alloc, node, disk, link, out, sent, lines, turn.ticks)
}
