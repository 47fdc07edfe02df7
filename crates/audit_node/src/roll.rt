//! Who is certified as a life begins.

ghost use Rattle.std.specs.Prelude.{◌≡◌, ◌≤◌, ℕ, true, false, List, [], None, IfOk, map, fold, All};
ghost use Rattle.std.specs.FinMap.{empty, insert};
ghost use Rattle.ff_ids.specs.declared.TheConstants.{MAX_TOLERANCE};
ghost use Rattle.ff_ids.specs.Lives.{opening};
ghost use Rattle.membership.specs.Holds.{Holds};
ghost use Rattle.journal.specs.declared.event.Event as journal;
ghost use Rattle.records.specs.declared.Body.TheVariants as bodies;
ghost use Rattle.node_rules.specs.Nodes.{Setting, certificate_of};
ghost use Rattle.node_rules.specs.Calls.{Call, takes};
ghost use Rattle.audit_node.specs.Playing.{Kept, IsAt};
ghost use Rattle.audit_node.specs.Noted.{HoldsNotes};
ghost use Rattle.audit_node.specs.Rolls.{with_roll, IsCertificate, AreApart, AreNew, recs_of, takes_all};
ghost use Rattle.validate.specs.Certified.{certificate_of as kept_certificate};

use audit_set::{AuditSet, Known};
use ff_ids::Group;
use fields::NoMemory;
use membership::Membership;
use records::{Body, CertBody, Checked};
use ring_order::hash_places;
use std::alloc::Global;
use validate::Roster;

/// The members that have a certificate, the certificates, and the records that hold these.
#[derive(Drop)]
pub struct Roll {
    pub membership: Membership,
    pub roster: Roster,
    pub records: AuditSet,
}

impl Roll {
    /// Nobody is certified yet. The room for all is taken here.
    pub fn open(alloc: Global, group: Group) -> Result<Roll, NoMemory>
        requires { group.t ≤ MAX_TOLERANCE }
        ensures group { IfOk result (λ r. r.membership.group ≡ group) }
        ensures holds { IfOk result (λ r. Holds r.membership (opening [])) }
        ensures roster { IfOk result (λ r. r.roster ≡ empty) }
        ensures records { IfOk result (λ r. r.records ≡ empty) }
        ensures notes { IfOk result (λ r. HoldsNotes r.membership r.records) }
    {
        Ok(Roll {
            membership: Membership::open(alloc, group)?,
            roster: Roster::open(alloc)?,
            records: AuditSet::open(alloc)?,
        })
    }

    /// Takes the certificate of a number that has none.
    fn take(&mut self, rec: Checked, cert: CertBody)
        requires certificate { rec.rec.body ≡ bodies.Certificate cert }
        requires few { self.old.membership.group.t ≤ MAX_TOLERANCE }
        requires fresh { kept_certificate self.old.roster cert.member ≡ None }
        requires notes { HoldsNotes self.old.membership self.old.records }
        ensures plays { (s : Setting) (es : List journal.Event) (v : Kept)
            (c : Call) → IsAt s es (with_roll v self.old) c
            → v.group ≡ self.old.membership.group → v.telling.failed ≡ false
            → certificate_of c.node cert.member ≡ None
            → IsAt s es (with_roll v self.new) (takes s rec.rec c) }
        ensures group { self.new.membership.group ≡ self.old.membership.group }
        ensures roster { self.new.roster ≡ insert self.old.roster cert.member cert }
        ensures notes { HoldsNotes self.new.membership self.new.records }
    {
        let _checked = rec.rec();
        let places = hash_places(self.membership.group(), cert.member);
        let _fault = self.membership.add_member(cert.member, places);
        self.roster.put(cert);
        self.records.put(Known::Came(rec));
    }

    /// Takes the certificates, in order. None was taken before, and no two have one number.
    pub fn take_all(&mut self, certificates: Vec<Checked>)
        requires all { All IsCertificate certificates.items }
        requires few { self.old.membership.group.t ≤ MAX_TOLERANCE }
        requires none { self.old.roster ≡ empty }
        requires apart { AreApart (recs_of certificates.items) }
        requires notes { HoldsNotes self.old.membership self.old.records }
        ensures plays { (s : Setting) (es : List journal.Event) (v : Kept)
            (c : Call) → IsAt s es (with_roll v self.old) c
            → v.group ≡ self.old.membership.group → v.telling.failed ≡ false
            → AreNew s c (map (λ x. x.rec) certificates.items)
            → IsAt s es (with_roll v self.new)
            (takes_all s (map (λ x. x.rec) certificates.items) c) }
        ensures group { self.new.membership.group ≡ self.old.membership.group }
        ensures notes { HoldsNotes self.new.membership self.new.records }
    {
        for rec in certificates {
            match rec.rec().body {
                Body::Certificate(cert) => self.take(rec, cert),
                Body::Note(_) | Body::Accusation(_) => unreachable!(),
            }
        }
    }
}
