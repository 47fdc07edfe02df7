//! Turns that can bring no signature. Where one may be made, the turn's line is written before: nothing is spent that stands
//! behind no line. Where none can be, the line is written with what the delivery reports.

ghost use Rattle.std.specs.Prelude.{◌≡◌, ℕ, true, false, List, ◌∷◌, OnOk, IfErr, IfSome};
ghost use Rattle.ports.specs.Count.{counted, Rose};
ghost use Rattle.datagram.specs.Grammar.{read_of};
ghost use Rattle.node_core.specs.Hears.{brings_records};
ghost use Rattle.node_rules.specs.Nodes.{Setting};
ghost use Rattle.turn_rules.specs.Turns.{Writes, delivery_of};
ghost use Rattle.node_loop.specs.Courses.{ServeState};
ghost use Rattle.node_loop.specs.Lines.{GoesOn};
ghost use Rattle.node_loop.specs.Unsigned.{IsQuiet, is_unsigned, is_unsigned_kind};
ghost use Rattle.node_loop.specs.Writing.{Before, Stands, is_open_after, is_write_fault, standing};
ghost use Rattle.node_loop.specs.Serving.{Serves};

use crate::calls::settle;
use crate::fault::ServeFault;
use crate::telling::tell_each;
use crate::writing::{gather_turn, write_gathered};
use journal::{Heard, Turn};
use node_core::{Events, Node, Outbox};
use ports::{Disk, Link, Sink};
use std::alloc::Global;

/// Whether it is the kind of a ping, a pong or a summary, which bring no records.
fn is_unsigned_kind(kind: u8) -> bool
    ensures { result ≡ is_unsigned_kind kind }
{
    kind > 0 && kind < 4 || kind == 5
}

/// Whether such a kind stands where a datagram has its own. How datagrams begin is in `crates/datagram/specs/Spelling.antt`.
fn is_unsigned(bytes: &[u8]) -> bool
    ensures kind { result ≡ is_unsigned bytes.now }
    ensures plain { result ≡ true → brings_records (read_of bytes.now) ≡ false }
{
    bytes.len() > 3 && is_unsigned_kind(bytes[3])
}

/// The bytes that the turn heard, where they bring no records and the turn makes no ticks.
pub fn quiet_bytes(turn: &Turn) -> Option<&[u8]>
    ensures { IfSome result (λ bytes. IsQuiet turn.now bytes.now) }
{
    if turn.ticks > 0 {
        return None;
    }
    let Heard::Got(bytes) = &turn.heard else {
        return None;
    };
    let got = bytes.as_slice();
    if is_unsigned(got) { Some(got) } else { None }
}

/// Delivers bytes that bring no records. The turn's line is gathered in front of what the delivery reports: the lines up to
/// and with that of the first datagram are one write. Where the delivery ends in a fault the line is written by itself.
pub fn deliver_unsigned<D: Disk, L: Link, O: Sink>(
    alloc: Global,
    node: &mut Node,
    disk: &mut D,
    link: &mut L,
    out: &mut O,
    sent: &mut u64,
    lines: &mut Vec<u8>,
    turn: &Turn,
    bytes: &[u8],
) -> Result<(), ServeFault>
    requires going { node.old.ended ≡ false }
    requires open { (O.state out.old).is_open ≡ true }
    requires quiet { IsQuiet turn.now bytes.now }
    ensures open { (O.state out.new).is_open ≡ is_open_after result }
    ensures going { OnOk result (node.new.ended ≡ false) }
    ensures faults { (O.state out.new).faults
        ≡ counted (is_write_fault result) (O.state out.old).faults }
    ensures no_disk_fault { OnOk result ((D.state disk.new).faults ≡ (D.state disk.old).faults) }
    ensures store { IfErr result (λ e. e ≡ ServeFault.StoreFault
        → Rose (D.state disk.old).faults (D.state disk.new).faults) }
    ensures closed { OnOk result (node.new.signer.closed ≡ node.old.signer.closed) }
    ensures spends { GoesOn node.old.signer node.new.signer
        (D.state disk.old).moments (D.state disk.new).moments
        (O.state out.old).taken (O.state out.new).taken
        (L.state link.old).faults (L.state link.new).faults result }
    ensures serves { (s : Setting) (before : Before) (r : ServeState)
        → Stands s before (standing node.old (L.state link.old).contents (O.state out.old).taken
        (D.state disk.old).moments sent.old) r
        → Serves s before (Writes turn.now ∷ delivery_of turn.now.heard) r
        (standing node.new (L.state link.new).contents (O.state out.new).taken
        (D.state disk.new).moments sent.new) result }
{
    if gather_turn(turn, lines).is_err() {
        return Err(ServeFault::OutOfMemory);
    }
    let mut outbox = Outbox::new(alloc);
    let mut events = Events::new(alloc);
    match node.deliver(alloc, disk, bytes, &mut outbox, &mut events) {
        Ok(()) => tell_each(node, link, out, sent, lines, events.without_loss()),
        Err(fault) => {
            write_gathered(out, lines)?;
            settle(node, link, out, sent, lines, &events, Err(fault))
        }
    }
}
