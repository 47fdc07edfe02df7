//! What a node of a world reports.

ghost use Rattle.std.specs.Prelude.{◌≡◌, ◌++◌, OnOk, OnErr};
ghost use Rattle.world_rules.specs.Walk.{told_text};
ghost use Rattle.world_text.specs.Lines.{Began};

use ff_ids::MemberId;
use fields::NoMemory;
use journal::{Event, write_event};
use life_events::{add_of_number, write_bytes};

fn add_told(who: MemberId, event: &Event, out: &mut Vec<u8>) -> Result<(), NoMemory>
    ensures ok { OnOk result
        (out.new.items ≡ out.old.items ++ told_text (record { who = who; event = event.now })) }
    ensures refused { OnErr result (Began out.old.items out.new.items) }
{
    add_of_number(b"@", who.get().into(), out)?;
    write_bytes(b" ", out)?;
    write_event(event, out)
}

/// Adds the event of this node, as `@1 at 0 entered 1`, without a line feed.
pub fn write_told(who: MemberId, event: &Event, out: &mut Vec<u8>) -> Result<(), NoMemory>
    ensures ok { OnOk result
        (out.new.items ≡ out.old.items ++ told_text (record { who = who; event = event.now })) }
    ensures refused { OnErr result (out.new.items ≡ out.old.items) }
{
    let held = out.len();
    let written = add_told(who, event, out);
    if written.is_err() {
        out.truncate(held);
    }
    written
}
