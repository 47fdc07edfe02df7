//! The ordered table of faults.

ghost use Rattle.std.specs.Prelude.{◌≡◌, IfOk, OnOk, None, Some};
ghost use Rattle.std.specs.Option.{option_or};
ghost use Rattle.ff_ids.specs.Views.{State};
ghost use Rattle.membership.specs.Holds.{Holds};
ghost use Rattle.membership.specs.Life.{note_fault_in, accusation_fault_in};
ghost use Rattle.records.specs.declared.Body.TheVariants.{Certificate, Note, Accusation};
ghost use Rattle.records.specs.Spelling.{HasPort};
ghost use Rattle.records.specs.declared.keys.Key.TheVariants as keys;
ghost use Rattle.validate.specs.Certified.{key_of, certificate_of, signing_key};
ghost use Rattle.validate.specs.Table.{certificate_fault, signature_fault, own_ahead, first_fault, known_by, verifies_in, fault_in, IsCheckOf, IsUnrefused, IsUnrefusedBy};
ghost use Rattle.ff_ids.specs.Notes.{newest};
ghost use Rattle.ff_ids.specs.Faults.{note_fault, accusation_fault};

use crate::Roster;
use ff_ids::{AccBody, Fault, Group, MemberId, NoteBody};
use lms_tree::PublicKey;
use membership::Membership;
use records::{Body, CertBody, Checked, Key, Record};

/// What an observer knows when it checks a record.
#[derive(Clone, Copy)]
struct Observer<'a> {
    group: &'a Group,
    roster: &'a Roster,
    membership: &'a Membership,
}

impl<'a> Observer<'a> {
    /// The record as checked under the key, or `BadSignature`. No record comes here that is refused without a look at
    /// its signature.
    fn check_signature(&self, key: &Key, rec: Record) -> Result<Checked, Fault>
        requires port { HasPort rec.body }
        requires unrefused { (s : State) → Holds self.now.membership.now s
            → IsUnrefused self.now.group.now self.now.roster.now s rec.body }
        ensures checked { IfOk result (IsCheckOf self.now.group.now (Some key.now) rec) }
        ensures fault { fault_in result
            ≡ signature_fault (verifies_in self.now.group.now) (Some key.now) rec }
    {
        match Checked::new(self.group, key, rec) {
            Ok(checked) => Ok(checked),
            Err(_) => Err(Fault::BadSignature),
        }
    }

    /// Why the certificate is refused by what is kept for its number.
    fn certificate_fault(&self, cert: &CertBody) -> Option<Fault>
        ensures { result ≡ certificate_fault (certificate_of self.now.roster.now cert.now.member)
            cert.now }
    {
        let kept = self.roster.get(cert.member)?;
        if kept == cert {
            return Some(Fault::Known);
        }
        Some(Fault::OtherCertificate {
            port: kept.port,
            key: kept.key.write(),
        })
    }

    /// The fault of a note whose signature is good: it is the observer's own, and greater than the one it had last.
    fn own_note_fault(&self, own: MemberId, note: &NoteBody) -> Option<Fault>
        ensures { (s : State) → Holds self.now.membership.now s
            → result ≡ own_ahead own (newest s.notes own) note.now }
    {
        if note.member != own {
            return None;
        }
        let stored = self.membership.note_of(own)?;
        Some(Fault::OwnAhead {
            stored,
            seen: *note,
        })
    }

    fn check_certificate(
        &self,
        authority: &PublicKey,
        cert: &CertBody,
        rec: Record,
    ) -> Result<Checked, Fault>
        requires body { rec.body ≡ Certificate cert.now }
        requires port { HasPort rec.body }
        ensures checked { IfOk result (IsCheckOf self.now.group.now (Some (keys.Lms authority.now)) rec) }
        ensures unrefused { OnOk result
            (certificate_of self.now.roster.now cert.now.member ≡ None) }
        ensures fault { fault_in result
            ≡ option_or
            (certificate_fault (certificate_of self.now.roster.now cert.now.member) cert.now)
            (signature_fault (verifies_in self.now.group.now) (Some (keys.Lms authority.now)) rec) }
    {
        if let Some(fault) = self.certificate_fault(cert) {
            return Err(fault);
        }
        self.check_signature(&Key::Lms(*authority), rec)
    }

    fn check_note(&self, own: MemberId, note: &NoteBody, rec: Record) -> Result<Checked, Fault>
        requires body { rec.body ≡ Note note.now }
        requires group { self.now.membership.now.group ≡ self.now.group.now }
        requires port { HasPort rec.body }
        ensures checked { IfOk result
            (IsCheckOf self.now.group.now (key_of self.now.roster.now note.now.member) rec) }
        ensures unrefused { OnOk result (note_fault_in self.now.membership.now note.now ≡ None) }
        ensures fault { (s : State) → Holds self.now.membership.now s → fault_in result
            ≡ option_or (note_fault self.now.group.now.t s note.now)
            (option_or
            (signature_fault (verifies_in self.now.group.now)
            (key_of self.now.roster.now note.now.member) rec)
            (own_ahead own (newest s.notes own) note.now)) }
    {
        if let Some(fault) = self.membership.note_fault(note) {
            return Err(fault);
        }
        let Some(cert) = self.roster.get(note.member) else {
            return Err(Fault::UnknownMember);
        };
        let checked = self.check_signature(&cert.key, rec)?;
        match self.own_note_fault(own, note) {
            Some(fault) => Err(fault),
            None => Ok(checked),
        }
    }

    fn check_accusation(&self, acc: &AccBody, rec: Record) -> Result<Checked, Fault>
        requires body { rec.body ≡ Accusation acc.now }
        requires group { self.now.membership.now.group ≡ self.now.group.now }
        requires port { HasPort rec.body }
        ensures checked { IfOk result
            (IsCheckOf self.now.group.now (key_of self.now.roster.now acc.now.accuser) rec) }
        ensures unrefused { OnOk result
            (accusation_fault_in self.now.membership.now acc.now ≡ None) }
        ensures fault { (s : State) → Holds self.now.membership.now s → fault_in result
            ≡ option_or (accusation_fault self.now.group.now.t s acc.now)
            (signature_fault (verifies_in self.now.group.now)
            (key_of self.now.roster.now acc.now.accuser) rec) }
    {
        if let Some(fault) = self.membership.accusation_fault(acc) {
            return Err(fault);
        }
        let Some(cert) = self.roster.get(acc.accuser) else {
            return Err(Fault::UnknownMember);
        };
        self.check_signature(&cert.key, rec)
    }
}

/// The record as checked, or its first fault: what its kind is refused for without a look at the signature; then
/// `BadSignature`; then, of a note of `own`, that it is greater than the newest. A certificate is verified under
/// the authority's key, a note under its member's, and an accusation under its accuser's.
pub fn check(
    group: &Group,
    authority: &PublicKey,
    roster: &Roster,
    membership: &Membership,
    own: MemberId,
    rec: Record,
) -> Result<Checked, Fault>
    requires group { membership.now.group ≡ group.now }
    requires port { HasPort rec.body }
    ensures checked { IfOk result
        (IsCheckOf group.now (signing_key (keys.Lms authority.now) roster.now rec.body) rec) }
    ensures unrefused { OnOk result (IsUnrefusedBy membership.now roster.now rec.body) }
    ensures fault { (s : State) → Holds membership.now s
        → fault_in result ≡ first_fault (known_by group.now (keys.Lms authority.now) roster.now s own) rec }
{
    let observer = Observer {
        group,
        roster,
        membership,
    };
    let body = rec.body;
    match body {
        Body::Certificate(cert) => observer.check_certificate(authority, &cert, rec),
        Body::Note(note) => observer.check_note(own, &note, rec),
        Body::Accusation(acc) => observer.check_accusation(&acc, rec),
    }
}
