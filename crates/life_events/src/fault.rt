// How the faults of records are written.

ghost use Rattle.std.specs.Prelude.{◌≡◌, ◌++◌, OnOk, OnErr, length, take, codes};
ghost use Rattle.std.specs.Fmt.{decimal};
ghost use Rattle.hex.specs.Hex.{encode_lower};
ghost use Rattle.ff_ids.specs.Texts.{fault_text, monitor_text};

use crate::digits::add_of_digits;
use crate::number::{add_of_number, add_of_two, write_bytes};
use ff_ids::{Fault, MemberId, NoteBody};
use fields::NoMemory;

/// Adds the port and the key of another certificate. Where memory is refused, `out` begins with what it held.
#[tactic(auto, using(crate::proofs::TextLemmas::begins, crate::proofs::TextLemmas::begins_so, crate::proofs::TextLemmas::begins_on))]
fn add_other_certificate(port: u16, key: &[u8], out: &mut Vec<u8>) -> Result<(), NoMemory>
    ensures ok { OnOk result (out.new.items
        ≡ out.old.items ++ codes "other-certificate " ++ decimal port ++ codes " "
        ++ encode_lower key.now) }
    ensures refused { OnErr result (take (length out.old.items) out.new.items ≡ out.old.items) }
{
    add_of_number(b"other-certificate ", port.into(), out)?;
    add_of_digits(b" ", key, out)?;
    Ok(())
}

/// Adds the epochs and masks of a note that is kept and of one that was seen. Where memory is refused, `out` begins
/// with what it held.
#[tactic(auto, using(crate::proofs::TextLemmas::begins, crate::proofs::TextLemmas::begins_so, crate::proofs::TextLemmas::begins_on))]
fn add_own_ahead(stored: &NoteBody, seen: &NoteBody, out: &mut Vec<u8>) -> Result<(), NoMemory>
    ensures ok { OnOk result (out.new.items
        ≡ out.old.items ++ codes "own-ahead " ++ decimal stored.now.epoch ++ codes " "
        ++ decimal stored.now.mask.0 ++ codes " " ++ decimal seen.now.epoch ++ codes " "
        ++ decimal seen.now.mask.0) }
    ensures refused { OnErr result (take (length out.old.items) out.new.items ≡ out.old.items) }
{
    add_of_two(b"own-ahead ", stored.epoch.get(), stored.mask.0.into(), out)?;
    add_of_two(b" ", seen.epoch.get(), seen.mask.0.into(), out)?;
    Ok(())
}

/// Adds the monitor where there is one. Where memory is refused, `out` begins with what it held.
fn add_not_monitor(monitor: Option<MemberId>, out: &mut Vec<u8>) -> Result<(), NoMemory>
    ensures ok { OnOk result
        (out.new.items ≡ out.old.items ++ codes "not-monitor " ++ monitor_text monitor) }
    ensures refused { OnErr result (take (length out.old.items) out.new.items ≡ out.old.items) }
{
    match monitor {
        Some(member) => add_of_number(b"not-monitor ", member.get().into(), out),
        None => write_bytes(b"not-monitor none", out),
    }
}

/// Adds the fault with what it gives. Where memory is refused, `out` begins with what it held.
pub fn add_fault(fault: &Fault, out: &mut Vec<u8>) -> Result<(), NoMemory>
    ensures ok { OnOk result (out.new.items ≡ out.old.items ++ fault_text fault.now) }
    ensures refused { OnErr result (take (length out.old.items) out.new.items ≡ out.old.items) }
{
    match fault {
        Fault::AlreadyMember => write_bytes(b"already-member", out),
        Fault::UnknownMember => write_bytes(b"unknown-member", out),
        Fault::BadMask => write_bytes(b"bad-mask", out),
        Fault::Known => write_bytes(b"known", out),
        Fault::Older { epoch, mask } => add_of_two(b"older ", epoch.get(), mask.0.into(), out),
        Fault::SelfAccusation => write_bytes(b"self-accusation", out),
        Fault::BadRing => write_bytes(b"bad-ring", out),
        Fault::NoNote => write_bytes(b"no-note", out),
        Fault::OtherEpoch { kept } => add_of_number(b"other-epoch ", kept.get(), out),
        Fault::NotInView => write_bytes(b"not-in-view", out),
        Fault::RingDisabled => write_bytes(b"ring-disabled", out),
        Fault::NotMonitor { monitor } => add_not_monitor(*monitor, out),
        Fault::Standing => write_bytes(b"standing", out),
        Fault::BadSignature => write_bytes(b"bad-signature", out),
        Fault::OtherCertificate { port, key } => add_other_certificate(*port, key.as_slice(), out),
        Fault::OwnAhead { stored, seen } => add_own_ahead(stored, seen, out),
    }
}
