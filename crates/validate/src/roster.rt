//! The certificates that are kept.

ghost use Rattle.std.specs.Prelude.{◌≡◌, None, IfOk};
ghost use Rattle.std.specs.Option.{option_copied};
ghost use Rattle.std.specs.FinMap as map;
ghost use Rattle.validate.specs.Certified.{certificate_of};

use ff_ids::MemberId;
use fields::NoMemory;
use membership::ByMember;
use records::CertBody;
use std::alloc::Global;
use std::marker::Model;

/// One certificate for each member that has one. Contracts see the finite map from numbers to certificates.
#[derive(Drop)]
pub struct Roster {
    certificates: ByMember<CertBody>,
}

impl Model for Roster {
    ghost use Rattle.std.specs.Coded.{codes};
    ghost use Rattle.std.specs.FinMap.{code};
    ghost use Rattle.validate.specs.Certified.{Certificates};

    ghost Value = { Certificates };

    ghost coded = { Prim.hlevel (codes, code) };

    ghost view = { λ r. r.certificates };
}

impl Roster {
    /// No certificates. The room for all members is taken here.
    pub fn open(alloc: Global) -> Result<Roster, NoMemory>
        ensures { IfOk result (λ r. r ≡ map.empty) }
    {
        Ok(Roster {
            certificates: ByMember::new(alloc)?,
        })
    }

    /// Keeps the certificate of a member that has none yet.
    pub fn put(&mut self, cert: CertBody)
        requires { certificate_of self.old cert.member ≡ None }
        ensures { self.new ≡ map.insert self.old cert.member cert }
    {
        let CertBody { member, port, key } = cert;
        let cert = CertBody { member, port, key };
        self.certificates.set(member, cert);
    }

    /// The certificate of the member.
    pub fn get(&self, member: MemberId) -> Option<&CertBody>
        ensures { option_copied result ≡ certificate_of self.now member }
    {
        self.certificates.get(member)
    }
}
