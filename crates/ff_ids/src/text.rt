// How members, epochs, rings, masks, accusations and faults are written.

ghost use Rattle.std.specs.Prelude.{Some};
ghost use Rattle.std.specs.Fmt.{decimal};
ghost use Rattle.hex.specs.Hex.{encode_lower};
ghost use Rattle.ff_ids.specs.Keys.{listed};
ghost use Rattle.ff_ids.specs.Texts.{accusation_text, fault_text};

use crate::{AccBody, Digits, Epoch, Fault, KeyBytes, Mask, MemberId, RingNo};
use std::fmt;

impl fmt::Display for MemberId {
    ghost output = { λ m. Some (decimal m) };

    fn fmt<W: fmt::Write>(&self, f: &mut fmt::Formatter<W>) -> fmt::Result {
        let number = self.get();
        write!(f, "{number}")
    }
}

impl fmt::Display for Epoch {
    ghost output = { λ e. Some (decimal e) };

    fn fmt<W: fmt::Write>(&self, f: &mut fmt::Formatter<W>) -> fmt::Result {
        let number = self.get();
        write!(f, "{number}")
    }
}

impl fmt::Display for RingNo {
    ghost output = { λ r. Some (decimal r.0) };

    fn fmt<W: fmt::Write>(&self, f: &mut fmt::Formatter<W>) -> fmt::Result {
        let number = self.0;
        write!(f, "{number}")
    }
}

impl fmt::Display for Mask {
    ghost output = { λ m. Some (decimal m.0) };

    fn fmt<W: fmt::Write>(&self, f: &mut fmt::Formatter<W>) -> fmt::Result {
        let rings = self.0;
        write!(f, "{rings}")
    }
}

/// The accuser, the accused, the epoch and the ring.
impl fmt::Display for AccBody {
    ghost output = { λ a. Some (accusation_text a) };

    fn fmt<W: fmt::Write>(&self, f: &mut fmt::Formatter<W>) -> fmt::Result {
        let (accuser, accused) = (self.accuser, self.accused);
        let (epoch, ring) = (self.epoch, self.ring);
        write!(f, "{accuser} {accused} {epoch} {ring}")
    }
}

/// The bytes of a key as digits.
#[derive(Drop)]
struct KeyDigits(KeyBytes);

impl fmt::Display for KeyDigits {
    ghost output = { λ key. Some (encode_lower (listed key.0)) };

    fn fmt<W: fmt::Write>(&self, f: &mut fmt::Formatter<W>) -> fmt::Result {
        Digits(self.0.as_slice()).fmt(f)
    }
}

impl fmt::Display for Fault {
    ghost output = { λ fault. Some (fault_text fault) };

    fn fmt<W: fmt::Write>(&self, f: &mut fmt::Formatter<W>) -> fmt::Result {
        match *self {
            Fault::AlreadyMember => f.write_str("already-member"),
            Fault::UnknownMember => f.write_str("unknown-member"),
            Fault::BadMask => f.write_str("bad-mask"),
            Fault::Known => f.write_str("known"),
            Fault::Older { epoch, mask } => write!(f, "older {epoch} {mask}"),
            Fault::SelfAccusation => f.write_str("self-accusation"),
            Fault::BadRing => f.write_str("bad-ring"),
            Fault::NoNote => f.write_str("no-note"),
            Fault::OtherEpoch { kept } => write!(f, "other-epoch {kept}"),
            Fault::NotInView => f.write_str("not-in-view"),
            Fault::RingDisabled => f.write_str("ring-disabled"),
            Fault::NotMonitor {
                monitor: Some(monitor),
            } => write!(f, "not-monitor {monitor}"),
            Fault::NotMonitor { monitor: None } => f.write_str("not-monitor none"),
            Fault::Standing => f.write_str("standing"),
            Fault::BadSignature => f.write_str("bad-signature"),
            Fault::OtherCertificate { port, key } => {
                let key = KeyDigits(key);
                write!(f, "other-certificate {port} {key}")
            }
            Fault::OwnAhead { stored, seen } => {
                let (old_epoch, old_mask) = (stored.epoch, stored.mask);
                let (epoch, mask) = (seen.epoch, seen.mask);
                write!(f, "own-ahead {old_epoch} {old_mask} {epoch} {mask}")
            }
        }
    }
}
