//! Whether certificates are such as a life may begin with.

ghost use Rattle.std.specs.Prelude.{◌≡◌, ◌↔◌, true};
ghost use Rattle.std.specs.List.{list_all, list_any};
ghost use Rattle.node_rules.specs.Lives.{is_certificate_for as is_of_member};
ghost use Rattle.audit_node.specs.Rolls.{AreApart, IsApart, recs_of};
ghost use Rattle.audit_node.specs.Begins.{AreCertificatesOf, is_of_other as is_of_another};

use ff_ids::MemberId;
use records::{Body, Checked};

/// Whether it is the member's certificate.
fn is_certificate_for(member: MemberId, rec: &Checked) -> bool
    ensures { result ≡ is_of_member member rec.now.rec.body }
{
    match rec.rec().body {
        Body::Certificate(cert) => cert.member == member,
        Body::Note(_) | Body::Accusation(_) => false,
    }
}

/// Whether it is a certificate of another member.
fn is_of_other(member: MemberId, rec: &Checked) -> bool
    ensures { result ≡ is_of_another member rec.now.rec.body }
{
    match rec.rec().body {
        Body::Certificate(cert) => cert.member != member,
        Body::Note(_) | Body::Accusation(_) => false,
    }
}

/// Whether all are certificates of other members.
fn are_of_others(member: MemberId, certificates: &[Checked]) -> bool
    ensures { result ≡ list_all (λ x. is_of_another member x.rec.body) certificates.now }
{
    certificates.iter().all(|rec| is_of_other(member, rec))
}

/// Whether it is a certificate, and those behind it are of other members.
fn is_apart(rec: &Checked, behind: &[Checked]) -> bool
    ensures { (result ≡ true) ↔ IsApart rec.now.rec (recs_of behind.now) }
{
    match rec.rec().body {
        Body::Certificate(cert) => are_of_others(cert.member, behind),
        Body::Note(_) | Body::Accusation(_) => false,
    }
}

/// Whether all are certificates, no two of one member.
fn are_apart(certificates: &[Checked]) -> bool
    ensures { (result ≡ true) ↔ AreApart (recs_of certificates.now) }
{
    let mut rest = certificates;
    while let [first, behind @ ..] = rest {
        if !is_apart(first, behind) {
            return false;
        }
        rest = behind;
    }
    true
}

/// Whether the member's certificate is among them.
fn have_member(member: MemberId, certificates: &[Checked]) -> bool
    ensures { result ≡ list_any (λ x. is_of_member member x.rec.body) certificates.now }
{
    certificates
        .iter()
        .any(|rec| is_certificate_for(member, rec))
}

/// Whether all are certificates, no two of one member, and the member's own is among them.
pub fn are_certificates_of(member: MemberId, certificates: &[Checked]) -> bool
    ensures { (result ≡ true) ↔ AreCertificatesOf member (recs_of certificates.now) }
{
    are_apart(certificates) && have_member(member, certificates)
}
