//! Certificates: the authority signs one for each member, and each member checks them all.

ghost use Rattle.std.specs.Prelude.{◌≡◌, IfOk, All};
ghost use Rattle.records.specs.declared.keys.Key.TheVariants as keys;
ghost use Rattle.node_core.specs.Begins.{IsCheckedIn};
ghost use Rattle.example_node.specs.declared.keys.TheConstants.{GROUP};

use crate::keys::{GROUP, make_store, new_disk, open};
use anyhow::{Result, anyhow};
use ff_ids::MemberId;
use lms_tree::PublicKey;
use records::{CertBody, Checked, Key, read_record, write_record};
use std::alloc::Global;

/// What each member is given before it starts: the authority's key, and the certificates as bytes. Whoever carries
/// them need not be trusted.
#[derive(Drop)]
pub struct Directory {
    pub authority: PublicKey,
    certificates: Vec<Vec<u8>>,
}

/// The authority's secret. A real one has 32 random bytes.
const SECRET: [u8; 32] = [0; 32];

impl Directory {
    /// The authority certifies these keys, each with its member's number.
    pub fn make(alloc: Global, keys: &[(MemberId, Key)]) -> Result<Directory> {
        let mut disk = new_disk(alloc)?;
        let Key::Lms(authority) = make_store(alloc, &SECRET, &mut disk)? else {
            return Err(anyhow!("an authority's key has one level"));
        };
        let mut signer = open(alloc, &SECRET, &mut disk)?.signer;
        let mut certificates = Vec::new(alloc);
        for (member, key) in keys {
            // The network here goes by numbers; a port is part of each certificate.
            let cert = CertBody {
                member: *member,
                port: 20_000 + member.get(),
                key: *key,
            };
            let signed = signer.sign_certificate(alloc, &mut disk, cert)?;
            let mut bytes = Vec::new(alloc);
            write_record(signed.rec(), &mut bytes).or(Err(anyhow!("no memory for a record")))?;
            certificates.push(bytes)?;
        }
        Ok(Directory {
            authority,
            certificates,
        })
    }

    /// The certificates, each checked under the authority's key.
    pub fn check(&self, alloc: Global) -> Result<Vec<Checked>>
        ensures { IfOk result (λ cs. All (IsCheckedIn GROUP (keys.Lms self.now.authority)) cs.items) }
    {
        let mut checked = Vec::new(alloc);
        let authority = Key::Lms(self.authority);
        for bytes in &self.certificates {
            checked.push(check_one(alloc, &authority, bytes)?)?;
        }
        Ok(checked)
    }
}

/// The record in these bytes, if the authority has signed it.
fn check_one(alloc: Global, authority: &Key, bytes: &[u8]) -> Result<Checked>
    ensures { IfOk result (λ checked. IsCheckedIn GROUP authority.now checked) }
{
    let Ok((record, _length)) = read_record(alloc, bytes) else {
        return Err(anyhow!("a certificate is no record"));
    };
    match Checked::new(&GROUP, authority, record) {
        Ok(checked) => Ok(checked),
        Err(_) => Err(anyhow!("a certificate is not the authority's")),
    }
}
