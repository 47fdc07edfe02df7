// Lists of members as text.

ghost use Rattle.std.specs.Prelude.{◌≡◌, ◌++◌, OnOk, OnErr, length, take};
ghost use Rattle.life_events.specs.Events.{members_text};

use crate::number::{write_bytes, write_number};
use ff_ids::MemberId;
use fields::NoMemory;

/// Adds the numbers in order with one space between two, or `nobody`. Where memory is refused, `out` begins
/// with what it held.
#[tactic(auto, using(crate::proofs::TextLemmas::begins, crate::proofs::TextLemmas::begins_so))]
pub fn add_members(members: &[MemberId], out: &mut Vec<u8>) -> Result<(), NoMemory>
    ensures ok { OnOk result (out.new.items ≡ out.old.items ++ members_text members.now) }
    ensures refused { OnErr result (take (length out.old.items) out.new.items ≡ out.old.items) }
{
    let Some((first, others)) = members.split_first() else {
        return write_bytes(b"nobody", out);
    };
    write_number(first.get().into(), out)?;
    for member in others {
        write_bytes(b" ", out)?;
        write_number(member.get().into(), out)?;
    }
    Ok(())
}
