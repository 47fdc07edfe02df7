//! Floor: node. The texts of the events of a life, of verdicts, faults and lists of members. Each call adds one text to
//! the end of a list of bytes; where memory is refused, that list is as it was. The crates that write traces and
//! journals call it.
#![tactic(auto)]

ghost use Rattle.std.specs.Prelude.{◌≡◌, ◌++◌, OnOk, OnErr, take};
ghost use Rattle.life_events.specs.Events.{event_text, members_text};
ghost use Rattle.life_events.specs.Verdicts.{verdict_words};

mod digits;
mod event;
mod fault;
mod members;
mod number;
mod told;
mod verdict;

pub use digits::add_of_digits;
use event::add_event;
pub use event::{Event, What, add_of_accusation};
use ff_ids::MemberId;
use fields::NoMemory;
use members::add_members;
pub use number::{add_of_number, add_of_two, write_bytes, write_number};
pub use told::Told;
use verdict::add_verdict;
pub use verdict::{Verdict, add_refused};

/// Takes back what was added behind the first `held` bytes, where an answer is want of memory.
fn settle(added: Result<(), NoMemory>, held: usize, out: &mut Vec<u8>) -> Result<(), NoMemory>
    ensures answer { result ≡ added }
    ensures ok { OnOk result (out.new.items ≡ out.old.items) }
    ensures refused { OnErr result (out.new.items ≡ take held out.old.items) }
{
    if added.is_err() {
        out.truncate(held);
    }
    added
}

/// Adds `at NOW ` and what happened, without a line feed.
pub fn write_event(event: &Event, out: &mut Vec<u8>) -> Result<(), NoMemory>
    ensures ok { OnOk result (out.new.items ≡ out.old.items ++ event_text event.now) }
    ensures refused { OnErr result (out.new.items ≡ out.old.items) }
{
    let held = out.len();
    let added = add_event(event, out);
    settle(added, held, out)
}

/// Adds the words of a verdict, as `accepted` or `refused older 5 31`.
pub fn write_verdict(verdict: &Verdict, out: &mut Vec<u8>) -> Result<(), NoMemory>
    ensures ok { OnOk result (out.new.items ≡ out.old.items ++ verdict_words verdict.now) }
    ensures refused { OnErr result (out.new.items ≡ out.old.items) }
{
    let held = out.len();
    let added = add_verdict(verdict, out);
    settle(added, held, out)
}

/// Adds the numbers of the members in their order, with one space between two, or `nobody`.
pub fn write_members(members: &[MemberId], out: &mut Vec<u8>) -> Result<(), NoMemory>
    ensures ok { OnOk result (out.new.items ≡ out.old.items ++ members_text members.now) }
    ensures refused { OnErr result (out.new.items ≡ out.old.items) }
{
    let held = out.len();
    let added = add_members(members, out);
    settle(added, held, out)
}
