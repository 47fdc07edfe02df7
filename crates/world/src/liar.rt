//! A liar: a member whose key the schedule uses.

ghost use Rattle.std.specs.Prelude.{◌≡◌, ◌∷◌, [], IfNone, IfOk, IfSome};
ghost use Rattle.datagram.specs.declared.Datagram.TheVariants as datagrams;
ghost use Rattle.datagram.specs.Spelling.{datagram_bytes};
ghost use Rattle.records.specs.Spelling.{HasPort};
ghost use Rattle.sign_keys.specs.Keys.{IsNew, index_count, secret_of};
ghost use Rattle.signer.specs.Signing.{signed_by};
ghost use Rattle.world.specs.Lying.{Lied};

use datagram::records_head;
use ff_ids::{Group, MemberId};
use fields::{Bytes, NoMemory};
use records::{Body, Checked, write_record};
use sign_keys::SignKey;
use std::alloc::Global;
use world_host::SigningKey;

/// A liar's key, and what it has signed.
#[derive(Drop)]
pub struct Liar {
    pub member: MemberId,
    pub key: SigningKey,
    pub signed: Vec<Body>,
}

/// A datagram with one record of a liar's making.
#[derive(Drop)]
pub struct Given {
    pub bytes: Bytes,
}

impl Given {
    /// The datagram with this record, from this member.
    pub fn of(alloc: Global, from: MemberId, checked: &Checked) -> Result<Given, NoMemory>
        ensures { IfOk result
            (λ given. given.bytes
            ≡ datagram_bytes (datagrams.Records from (checked.now.rec ∷ []))) }
    {
        let mut bytes = Vec::new(alloc);
        bytes.extend_from_slice(&records_head(from, 1))?;
        write_record(checked.rec(), &mut bytes)?;
        Ok(Given {
            bytes: Bytes::from_vec(bytes),
        })
    }
}

impl Liar {
    /// A liar that has signed nothing, with a key of which no index was handed out.
    pub fn open(alloc: Global, member: MemberId, key: SignKey) -> Liar
        requires { IsNew key (secret_of key) }
        ensures member { result.member ≡ member }
        ensures key { result.key ≡ record { key = secret_of key; next = 0 } }
        ensures signed { result.signed.items ≡ [] }
    {
        Liar {
            member,
            key: SigningKey::of(key),
            signed: Vec::new(alloc),
        }
    }

    /// Signs the body in the group; none where no index is left.
    pub fn sign(
        &mut self,
        alloc: Global,
        group: &Group,
        body: Body,
    ) -> Result<Option<Checked>, NoMemory>
        requires { HasPort body }
        ensures member { self.new.member ≡ self.old.member }
        ensures signed { IfOk result
            (λ checked. IfSome checked
            (λ c. c ≡ signed_by group.now self.old.key.key self.old.key.next body)) }
        ensures used_up { IfOk result
            (λ checked. IfNone checked (self.old.key.next ≡ index_count self.old.key.key)) }
        ensures lied { IfOk result (λ checked. IfSome checked (λ _c. Lied self.old self.new body)) }
    {
        let signed = self.key.sign(alloc, group, body)?;
        let Some(checked) = signed else {
            return Ok(None);
        };
        self.signed.push(checked.rec().body)?;
        Ok(Some(checked))
    }
}
