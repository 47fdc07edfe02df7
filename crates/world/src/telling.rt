//! What nodes report, as lines of the trace.

ghost use Rattle.std.specs.Prelude.{◌≡◌, ◌+◌, ◌++◌, OnOk, OnErr};
ghost use Rattle.journal.specs.declared.event.What.TheVariants as kinds;
ghost use Rattle.world_rules.specs.Walk.{told_text};
ghost use Rattle.node_core.specs.Told.{IsPrefix};
ghost use Rattle.world_text.specs.Lines.{Began};
ghost use Rattle.world.specs.Telling.{call_lines, numbered, told_line};

use ff_ids::MemberId;
use fields::{Bytes, NoMemory};
use journal::{Event, What};
use std::alloc::Global;
use world_text::write_told;

/// Adds that the datagram was sent with this number in its call, before which so many were sent.
fn add_sent(
    alloc: Global,
    who: MemberId,
    before: usize,
    moment: u64,
    number: u64,
    to: MemberId,
    bytes: &[u8],
    out: &mut Vec<u8>,
) -> Result<(), NoMemory>
    ensures ok { OnOk result (out.new.items ≡ out.old.items
        ++ told_text
        (record {
          who = who;
          event = record
              { moment = moment; what = kinds.Sent (before + number) to bytes.now };
        })) }
    ensures refused { OnErr result (out.new.items ≡ out.old.items) }
{
    let number = number.checked_add(before as u64).ok_or(NoMemory)?;
    let bytes = Bytes::from_vec(bytes.to_vec(alloc)?);
    let what = What::Sent { number, to, bytes };
    write_told(who, &Event { moment, what }, out)
}

/// Adds the event of this node, its datagram with the number that it has in the world.
fn add_numbered(
    alloc: Global,
    who: MemberId,
    before: usize,
    event: &Event,
    out: &mut Vec<u8>,
) -> Result<(), NoMemory>
    ensures ok { OnOk result
        (out.new.items ≡ out.old.items ++ told_text (numbered who before event.now)) }
    ensures refused { OnErr result (out.new.items ≡ out.old.items) }
{
    match &event.what {
        What::Sent { number, to, bytes } => add_sent(
            alloc,
            who,
            before,
            event.moment,
            *number,
            *to,
            bytes.as_slice(),
            out,
        ),
        _ => write_told(who, event, out),
    }
}

/// Adds a line for the event of this node. A call counts its datagrams from 0, and the world has sent so many before. Where
/// memory is refused, a part of it may be there.
pub fn add_event(
    alloc: Global,
    who: MemberId,
    before: usize,
    event: &Event,
    out: &mut Vec<u8>,
) -> Result<(), NoMemory>
    ensures ok { OnOk result
        (out.new.items ≡ out.old.items ++ told_line (numbered who before event.now)) }
    ensures refused { OnErr result (Began out.old.items out.new.items) }
{
    add_numbered(alloc, who, before, event, out)?;
    out.push(b'\n')?;
    Ok(())
}

/// Adds a line for each event of this node, as above. Where memory is refused, a part may be there.
pub fn add_events(
    alloc: Global,
    who: MemberId,
    before: usize,
    events: &[Event],
    out: &mut Vec<u8>,
) -> Result<(), NoMemory>
    ensures ok { OnOk result (out.new.items ≡ out.old.items ++ call_lines who before events.now) }
    ensures front { IsPrefix out.old.items out.new.items }
{
    for event in events {
        add_event(alloc, who, before, event, out)?;
    }
    Ok(())
}
