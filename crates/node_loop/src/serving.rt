//! The loop over the turns.

ghost use Rattle.std.specs.Prelude.{◌≡◌, ◌≤◌, ℕ, false, true, List, Option, Some, OnOk, IfErr};
ghost use Rattle.ports.specs.Count.{counted, Rose};
ghost use Rattle.ports.specs.Link.{LinkState};
ghost use Rattle.node_core.specs.Playing.{IsNode};
ghost use Rattle.node_rules.specs.Nodes.{Setting, Node as RulesNode};
ghost use Rattle.node_loop.specs.Turns.{life_acts, pace_for};
ghost use Rattle.node_loop.specs.Courses.{served_from};
ghost use Rattle.node_loop.specs.Lines.{GoesOn};
ghost use Rattle.node_loop.specs.Writing.{before_all, is_open_after, is_write_fault, standing};
ghost use Rattle.node_loop.specs.Serving.{Serves};

use crate::calls;
use crate::expecting::expect_certified;
use crate::fault::ServeFault;
use crate::turns::{Pace, Progress, turn};
use node_core::Node;
use ports::{Clock, Disk, Link, Sink};
use std::alloc::Global;

/// How many bytes a receive has room for: one more than the longest datagram has.
const ROOM: usize = 32_769;

/// Runs a node for so many turns, and writes the journal of its life. In each turn it hears the link once and reads the
/// clock once, writes the turn's line, delivers what was got, and makes the ticks that are owed: one for each `millis`
/// milliseconds since the call began, of which a turn makes 64 at the most and leaves the rest to the next. Where the group
/// has the option by which nodes come together again, a turn keeps no more of those owed than the period has, and forgets
/// the others: behind a pause nobody is silent who wasn't heard in it. Where it is to leave, it does so behind the last
/// turn, once.
///
/// What the node reports is written: the lines up to and with that of a datagram in one piece, and those behind the last
/// in one. The turn's line is in the first of these pieces where what was got has the kind of a ping, a pong or a
/// summary, and no ticks are owed; else it is a piece of its own, in front of what may bring a signature. A datagram has
/// the number of those sent before it in this call: it is given to the link once its line is written, for the port in its
/// addressee's certificate. A send that fails is followed by the line `lost`, and a receive that fails is the turn's word
/// `failed`: neither ends the loop. The link is told from which port each certified member sends, those whose
/// certificates are accepted in a turn among them.
///
/// Where the disk fails in a call of the node, what that reported until then is still written and sent, and the answer is
/// `StoreFault`. `WriteFault` comes where a write failed. The node is over behind a `StoreFault`, and where memory was
/// refused in one of its calls.
pub fn serve<D: Disk, L: Link, C: Clock, O: Sink>(
    alloc: Global,
    node: &mut Node,
    link: &mut L,
    clock: &mut C,
    disk: &mut D,
    out: &mut O,
    millis: u32,
    turns: u32,
    leave: bool,
) -> Result<(), ServeFault>
    requires going { node.old.ended ≡ false }
    requires open { (O.state out.old).is_open ≡ true }
    requires some { 1 ≤ millis }
    ensures open { (O.state out.new).is_open ≡ is_open_after result }
    ensures going { OnOk result (node.new.ended ≡ false) }
    ensures write_fault { (O.state out.new).faults
        ≡ counted (is_write_fault result) (O.state out.old).faults }
    ensures no_disk_fault { OnOk result ((D.state disk.new).faults ≡ (D.state disk.old).faults) }
    ensures store_fault { IfErr result (λ e. e ≡ ServeFault.StoreFault
        → Rose (D.state disk.old).faults (D.state disk.new).faults) }
    ensures closed { OnOk result (node.new.signer.closed ≡ node.old.signer.closed) }
    ensures spends { GoesOn node.old.signer node.new.signer
        (D.state disk.old).moments (D.state disk.new).moments
        (O.state out.old).taken (O.state out.new).taken
        (L.state link.old).faults (L.state link.new).faults result }
    ensures serves { (s : Setting) (n : RulesNode) (link_told : LinkState) (readings : List ℕ)
        → IsNode s node.old n → (L.state link.old).contents ≡ Some link_told
        → (C.state clock.old).coming ≡ Some readings
        → (sent : ℕ) × Serves s (before_all (O.state out.old).taken node.old.signer
        (D.state disk.old).moments) (life_acts (pace_for s millis) turns leave
        link_told.coming (C.state clock.old).reading readings) (served_from n link_told)
        (standing node.new (L.state link.new).contents (O.state out.new).taken
        (D.state disk.new).moments sent) result }
{
    let base = clock.now();
    let Ok(mut buf) = vec![in alloc; 0u8; ROOM] else {
        return Err(ServeFault::OutOfMemory);
    };
    let pace = Pace {
        millis,
        most: node.most_owed(),
    };
    let mut progress = Progress {
        base,
        pace,
        made: 0,
        sent: 0,
    };
    let mut lines = Vec::new(alloc);
    expect_certified(node, link);
    for done in 0..turns {
        turn(
            alloc,
            node,
            disk,
            link,
            clock,
            out,
            &mut progress,
            &mut buf,
            &mut lines,
            done + 1,
        )?;
    }
    if leave {
        let sent = &mut progress.sent;
        return calls::leave(alloc, node, disk, link, out, sent, &mut lines);
    }
    Ok(())
}
