// Events, and how they are written.

ghost use Rattle.std.specs.Prelude.{◌≡◌, ◌++◌, OnOk, OnErr, length, take};
ghost use Rattle.ff_ids.specs.Texts.{accusation_text};
ghost use Rattle.life_events.specs.Events.{event_text, what_text};

use crate::number::{add_of_number, write_bytes, write_number};
use ff_ids::{AccBody, MemberId};
use fields::NoMemory;

/// Something that happened in a life, and the moment at which it did.
#[derive(Clone, Copy, Debug, PartialEq, Eq)]
pub struct Event {
    /// How many ticks the life had had.
    pub moment: u64,
    pub what: What,
}

/// What may happen.
#[derive(Clone, Copy, Debug, PartialEq, Eq)]
pub enum What {
    /// An accepted note brought the member into the view.
    Entered(MemberId),
    /// The accusation stood until its timeout.
    Expired(AccBody),
    /// The member left the view.
    Removed(MemberId),
    /// A kept accusation no longer stands.
    Fell(AccBody),
}

/// Adds the accuser, the accused, the epoch and the ring. Where memory is refused, `out` begins with what it held.
#[tactic(auto, using(crate::proofs::TextLemmas::begins, crate::proofs::TextLemmas::begins_so))]
fn add_accusation(accusation: &AccBody, out: &mut Vec<u8>) -> Result<(), NoMemory>
    ensures ok { OnOk result (out.new.items ≡ out.old.items ++ accusation_text accusation.now) }
    ensures refused { OnErr result (take (length out.old.items) out.new.items ≡ out.old.items) }
{
    write_number(accusation.accuser.get().into(), out)?;
    write_bytes(b" ", out)?;
    write_number(accusation.accused.get().into(), out)?;
    write_bytes(b" ", out)?;
    write_number(accusation.epoch.get(), out)?;
    write_bytes(b" ", out)?;
    write_number(accusation.ring.0.into(), out)
}

/// Adds a word and an accusation. Where memory is refused, `out` begins with what it held.
#[tactic(auto, using(crate::proofs::TextLemmas::begins, crate::proofs::TextLemmas::begins_so, crate::proofs::TextLemmas::begins_on))]
pub fn add_of_accusation(
    word: &[u8],
    accusation: &AccBody,
    out: &mut Vec<u8>,
) -> Result<(), NoMemory>
    ensures ok { OnOk result
        (out.new.items ≡ out.old.items ++ word.now ++ accusation_text accusation.now) }
    ensures refused { OnErr result (take (length out.old.items) out.new.items ≡ out.old.items) }
{
    write_bytes(word, out)?;
    add_accusation(accusation, out)?;
    Ok(())
}

/// Adds what happened. Where memory is refused, `out` begins with what it held.
pub fn add_what(what: &What, out: &mut Vec<u8>) -> Result<(), NoMemory>
    ensures ok { OnOk result (out.new.items ≡ out.old.items ++ what_text what.now) }
    ensures refused { OnErr result (take (length out.old.items) out.new.items ≡ out.old.items) }
{
    match what {
        What::Entered(member) => add_of_number(b"entered ", member.get().into(), out),
        What::Expired(accusation) => add_of_accusation(b"expired ", accusation, out),
        What::Removed(member) => add_of_number(b"removed ", member.get().into(), out),
        What::Fell(accusation) => add_of_accusation(b"fell ", accusation, out),
    }
}

/// Adds the moment and what happened. Where memory is refused, `out` begins with what it held.
#[tactic(auto, using(crate::proofs::TextLemmas::begins, crate::proofs::TextLemmas::begins_so, crate::proofs::TextLemmas::begins_on))]
pub fn add_event(event: &Event, out: &mut Vec<u8>) -> Result<(), NoMemory>
    ensures ok { OnOk result (out.new.items ≡ out.old.items ++ event_text event.now) }
    ensures refused { OnErr result (take (length out.old.items) out.new.items ≡ out.old.items) }
{
    write_bytes(b"at ", out)?;
    write_number(event.moment, out)?;
    write_bytes(b" ", out)?;
    add_what(&event.what, out)?;
    Ok(())
}
