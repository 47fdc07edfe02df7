//! What a line of a recorded text is answered with.

ghost use Rattle.std.specs.Prelude.{◌≡◌, ◌++◌, OnOk, OnErr, length, take, codes};
ghost use Rattle.ff_ids.specs.Texts.{fault_text};
ghost use Rattle.life_events.specs.Verdicts.{verdict_words};

use crate::fault::add_fault;
use crate::number::{write_bytes, write_number};
use ff_ids::{Fault, MemberId};
use fields::NoMemory;

/// The verdict on a line.
#[derive(Clone, Copy, Debug, PartialEq, Eq)]
pub enum Verdict {
    /// The member joined.
    Joined,
    /// The note or the accusation was accepted.
    Accepted,
    /// The line was refused, for the fault.
    Refused(Fault),
    /// The member that was asked for, if there is one.
    Monitor(Option<MemberId>),
    /// Another life began, of this number.
    Life(u64),
}

/// Adds that it was refused, and why. Where memory is refused, `out` begins with what it held.
#[tactic(auto, using(crate::proofs::TextLemmas::begins, crate::proofs::TextLemmas::begins_so, crate::proofs::TextLemmas::begins_on))]
pub fn add_refused(fault: &Fault, out: &mut Vec<u8>) -> Result<(), NoMemory>
    ensures ok { OnOk result
        (out.new.items ≡ out.old.items ++ codes "refused " ++ fault_text fault.now) }
    ensures refused { OnErr result (take (length out.old.items) out.new.items ≡ out.old.items) }
{
    write_bytes(b"refused ", out)?;
    add_fault(fault, out)?;
    Ok(())
}

/// Adds the words of a verdict. Where memory is refused, `out` begins with what it held.
pub fn add_verdict(verdict: &Verdict, out: &mut Vec<u8>) -> Result<(), NoMemory>
    ensures ok { OnOk result (out.new.items ≡ out.old.items ++ verdict_words verdict.now) }
    ensures refused { OnErr result (take (length out.old.items) out.new.items ≡ out.old.items) }
{
    match verdict {
        Verdict::Joined => write_bytes(b"joined", out),
        Verdict::Accepted => write_bytes(b"accepted", out),
        Verdict::Refused(fault) => add_refused(fault, out),
        Verdict::Monitor(Some(member)) => write_number(member.get().into(), out),
        Verdict::Monitor(None) => write_bytes(b"none", out),
        Verdict::Life(number) => write_number(*number, out),
    }
}
