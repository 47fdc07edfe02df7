//! Where each who has joined has a certificate, no record without a fault before its signature lacks a key. The
//! function does nothing: what it ensures holds of all lives, certificates and records.

ghost use Rattle.std.specs.Prelude.{◌≡◌, ℕ, None};
ghost use Rattle.ff_ids.specs.declared.NoteBody.{NoteBody};
ghost use Rattle.ff_ids.specs.declared.AccBody.{AccBody};
ghost use Rattle.ff_ids.specs.Faults.{note_fault, accusation_fault};
ghost use Rattle.ff_ids.specs.Views.{State};
ghost use Rattle.membership.specs.Holds.{Holds};
ghost use Rattle.membership.specs.Life.{Life};
ghost use Rattle.validate.specs.Certified.{Certificates, AreCertified, certificate_of};

/// Who a note without a fault is of has a certificate, and so has who made an accusation without a fault.
pub fn authors_are_certified()
    ensures notes { (l : Life) (s : State) (certificates : Certificates) (t : ℕ) (n : NoteBody)
        → Holds l s → AreCertified l certificates
        → note_fault t s n ≡ None → certificate_of certificates n.member ≡ None → ⊥ }
    ensures accusations { (l : Life) (s : State) (certificates : Certificates) (t : ℕ) (a : AccBody)
        → Holds l s → AreCertified l certificates
        → accusation_fault t s a ≡ None → certificate_of certificates a.accuser ≡ None → ⊥ }
{}
