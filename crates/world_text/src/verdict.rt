//! The words of verdicts.

ghost use Rattle.std.specs.Prelude.{◌≡◌, ◌++◌, OnOk, OnErr, codes};
ghost use Rattle.world_rules.specs.Verdicts.{verdict_text, why_text};
ghost use Rattle.world_text.specs.Lines.{Began};

use fields::NoMemory;
use life_events::{add_of_number, write_bytes, write_members, write_number};
use world_rules::{RefusalReason, Verdict};

fn add_why(why: &RefusalReason, out: &mut Vec<u8>) -> Result<(), NoMemory>
    ensures ok { OnOk result (out.new.items ≡ out.old.items ++ why_text why.now) }
    ensures refused { OnErr result (Began out.old.items out.new.items) }
{
    match why {
        RefusalReason::NotNode => write_bytes(b"not-node", out),
        RefusalReason::NotLiar => write_bytes(b"not-liar", out),
        RefusalReason::NoName => write_bytes(b"no-name", out),
        RefusalReason::NoDatagram => write_bytes(b"no-datagram", out),
        RefusalReason::Running => write_bytes(b"running", out),
        RefusalReason::NotRunning => write_bytes(b"stopped", out),
        RefusalReason::Left => write_bytes(b"left", out),
        RefusalReason::NoNote => write_bytes(b"no-note", out),
        RefusalReason::UsedUp { first } => add_of_number(b"exhausted ", (*first).into(), out),
        RefusalReason::UnknownMember => write_bytes(b"unknown-member", out),
    }
}

fn add_refused(why: &RefusalReason, out: &mut Vec<u8>) -> Result<(), NoMemory>
    ensures ok { OnOk result
        (out.new.items ≡ out.old.items ++ (codes "refused " ++ why_text why.now)) }
    ensures refused { OnErr result (Began out.old.items out.new.items) }
{
    write_bytes(b"refused ", out)?;
    add_why(why, out)
}

fn add_verdict(verdict: &Verdict, out: &mut Vec<u8>) -> Result<(), NoMemory>
    ensures ok { OnOk result (out.new.items ≡ out.old.items ++ verdict_text verdict.now) }
    ensures refused { OnErr result (Began out.old.items out.new.items) }
{
    match verdict {
        Verdict::Began { life } => add_of_number(b"life ", *life, out),
        Verdict::DiskStopped => write_bytes(b"stopped", out),
        Verdict::Spends { index } => add_of_number(b"signed ", (*index).into(), out),
        Verdict::Sees(members) => write_members(members.as_slice(), out),
        Verdict::MonitoredBy(Some(monitor)) => write_number(monitor.get().into(), out),
        Verdict::MonitoredBy(None) => write_bytes(b"none", out),
        Verdict::Refused(why) => add_refused(why, out),
    }
}

/// Adds the verdict's words. Where memory is refused, `out` is as it was.
pub fn write_verdict(verdict: &Verdict, out: &mut Vec<u8>) -> Result<(), NoMemory>
    ensures ok { OnOk result (out.new.items ≡ out.old.items ++ verdict_text verdict.now) }
    ensures refused { OnErr result (out.new.items ≡ out.old.items) }
{
    let held = out.len();
    let written = add_verdict(verdict, out);
    if written.is_err() {
        out.truncate(held);
    }
    written
}
