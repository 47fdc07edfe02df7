//! A group of two members with their texts, stores and records, made without a run. The authority's key is of the least
//! kinds.

ghost use Rattle.std.specs.Prelude.{IfOk};
ghost use Rattle.sign_keys.specs.Keys.{IsOfOneKey};

use epoch_store::{Store, make};
use ff_ids::{AccBody, Epoch, Group, Mask, MemberId, RingNo};
use fields::Bytes;
use fixtures::disk;
use lms_ots::OtsKind;
use lms_tree::TreeKind;
use ports::{LinkAnswer, MemoryDisk};
use records::{CertBody, Checked, Key, write_record};
use secrets::{make_key, store_tag};
use sign_keys::{Kinds, SignKey};
use signer::Signer;
use std::alloc::Global;
use std::test::Fail;

const GROUP: Group = Group {
    tag: [0; 16],
    t: 1,
    timeout: 4,
    period: 1,
    misses: 2,
};

const HEAD: &str = "fireflies 1 kit\ngroup 1 4 1 2 00000000000000000000000000000000\n";

const OWN: &str = "self 1 a5a5a5a5a5a5a5a5a5a5a5a5a5a5a5a5a5a5a5a5a5a5a5a5a5a5a5a5a5a5a5a5\n";

/// The kinds of members' keys, and their line.
pub type OfKinds = (Kinds, &'static str);

/// One level, of the least kinds.
pub const ONE_LEVEL: OfKinds = (
    Kinds {
        ots: OtsKind::W2,
        tree: TreeKind::H5,
        bottom: None,
    },
    "kinds 2 5\n",
);

/// Two levels.
pub const TWO_LEVELS: OfKinds = (
    Kinds {
        ots: OtsKind::W4,
        tree: TreeKind::H5,
        bottom: Some(TreeKind::H5),
    },
    "kinds 4 5 5\n",
);

/// Of which each byte of a secret is.
const AUTHORITY: u8 = 0x5a;

const FIRST: u8 = 0xa5;

const SECOND: u8 = 0x77;

/// What a datagram of 2 with one record begins with.
const RECORD: [u8; 8] = *b"\x46\x46\x01\x04\x00\x02\x00\x01";

/// The key of a secret of this byte.
fn key_of(alloc: Global, kinds: Kinds, byte: u8) -> Result<SignKey, Fail>
    ensures { IfOk result (λ key. IsOfOneKey key) }
{
    if !kinds.is_in_profile() {
        return Err("no such keys".into());
    }
    Ok(make_key(alloc, kinds, &[byte; 32])?)
}

/// A signer with the key over a store that is made on the disk.
fn signer_of(key: SignKey, disk: &mut MemoryDisk) -> Result<Signer, Fail>
    requires { IsOfOneKey key }
{
    let tag = store_tag(&GROUP, &key);
    make(disk, "s.st", &tag, Mask(7)).or(Err("no store is made"))?;
    let store = Store::open(disk, "s.st", &tag).or(Err("no store"))?;
    if key.next() > 0 || store.state().next > 0 {
        return Err("an index is spent".into());
    }
    Ok(Signer::open(GROUP, key, store))
}

/// The digits of the authority's signature of the certificate of this member.
fn signature_of(
    alloc: Global,
    authority: &mut Signer,
    disk: &mut MemoryDisk,
    member: u8,
    key: Key,
) -> Result<String, Fail> {
    let cert = CertBody {
        member: MemberId::new(u16::from(member)),
        port: 20_000 + u16::from(member),
        key,
    };
    let signed = authority
        .sign_certificate(alloc, disk, cert)
        .or(Err("no certificate"))?;
    Ok(hex::encode(alloc, signed.rec().signature.as_slice())?)
}

/// The text up to the certificates, with this line of the kinds and this key of the authority.
fn head(alloc: Global, kinds: &str, authority: &Key) -> Result<String, Fail> {
    let digits = hex::encode(alloc, authority.write().as_slice())?;
    Ok(format!(in alloc; "{HEAD}{kinds}{OWN}authority {digits}\ntick 100\n")?)
}

/// Writes the line of a certificate of this member.
fn write_cert(
    alloc: Global,
    authority: &mut Signer,
    disk: &mut MemoryDisk,
    member: u8,
    key: Key,
    text: &mut String,
) -> Result<(), Fail> {
    let digits = hex::encode(alloc, key.write().as_slice())?;
    let signature = signature_of(alloc, authority, disk, member, key)?;
    let line = format!(in alloc; "cert {member} 2000{member} {digits} {signature}\n")?;
    text.push_str(&line)?;
    Ok(())
}

/// Writes the certificates of these members, and the end of the text.
fn write_certs(
    alloc: Global,
    authority: &mut Signer,
    disk: &mut MemoryDisk,
    members: &[(u8, Key)],
    text: &mut String,
) -> Result<(), Fail> {
    for (member, key) in members {
        write_cert(alloc, authority, disk, *member, *key, text)?;
    }
    text.push_str("end\n")?;
    Ok(())
}

/// Writes what stands behind the head, signed by the authority of this key.
fn certify(
    alloc: Global,
    key: SignKey,
    members: &[(u8, Key)],
    text: &mut String,
) -> Result<(), Fail>
    requires { IsOfOneKey key }
{
    let mut disk = disk(alloc, &[])?;
    let mut authority = signer_of(key, &mut disk)?;
    write_certs(alloc, &mut authority, &mut disk, members, text)
}

/// The text of member 1 with certificates of these members.
fn text_of(alloc: Global, kinds: &str, members: &[(u8, Key)]) -> Result<String, Fail> {
    let key = key_of(alloc, ONE_LEVEL.0, AUTHORITY)?;
    let mut text = head(alloc, kinds, &key.public())?;
    certify(alloc, key, members, &mut text)?;
    Ok(text)
}

/// Member 1: its text, with the certificates of those that are there, and its key.
#[derive(Drop)]
pub struct First {
    pub text: String,
    pub key: SignKey,
}

/// Member 1, which is alone, with a key of these kinds.
pub fn first_of_kinds(alloc: Global, kinds: OfKinds) -> Result<First, Fail> {
    let key = key_of(alloc, kinds.0, FIRST)?;
    let text = text_of(alloc, kinds.1, &[(1, key.public())])?;
    Ok(First { text, key })
}

/// Member 1, which is alone.
pub fn first_alone(alloc: Global) -> Result<First, Fail> {
    first_of_kinds(alloc, ONE_LEVEL)
}

/// Member 1, where member 2 is certified too.
pub fn first_of_two(alloc: Global) -> Result<First, Fail> {
    let key = key_of(alloc, ONE_LEVEL.0, FIRST)?;
    let second = key_of(alloc, ONE_LEVEL.0, SECOND)?.public();
    let text = text_of(alloc, ONE_LEVEL.1, &[(1, key.public()), (2, second)])?;
    Ok(First { text, key })
}

/// A disk with the store of this key, which four calls made, and that fails at the calls with these numbers.
pub fn own_disk(alloc: Global, key: &SignKey, fail: &[u64]) -> Result<MemoryDisk, Fail> {
    let mut own = disk(alloc, fail)?;
    make(&mut own, "n.st", &store_tag(&GROUP, key), Mask(7)).or(Err("no store is made"))?;
    Ok(own)
}

/// A datagram of 2 with this record.
fn datagram_with(alloc: Global, record: &Checked) -> Result<LinkAnswer, Fail> {
    let mut bytes = RECORD.to_vec(alloc)?;
    write_record(record.rec(), &mut bytes)?;
    Ok(LinkAnswer::Got(Bytes::from_vec(bytes)))
}

/// The first note of 2, and its accusation of 1, as datagrams.
#[derive(Drop)]
pub struct OfSecond {
    pub note: Checked,
    pub accusation: Checked,
}

impl OfSecond {
    /// Signed by its key.
    pub fn signed(alloc: Global) -> Result<OfSecond, Fail> {
        let mut disk = disk(alloc, &[])?;
        let mut signer = signer_of(key_of(alloc, ONE_LEVEL.0, SECOND)?, &mut disk)?;
        OfSecond::signed_with(alloc, &mut signer, &mut disk)
    }

    fn signed_with(
        alloc: Global,
        signer: &mut Signer,
        disk: &mut MemoryDisk,
    ) -> Result<OfSecond, Fail> {
        let accusation = AccBody {
            accuser: MemberId::new(2),
            accused: MemberId::new(1),
            epoch: Epoch::new(1),
            ring: RingNo(0),
        };
        let note = signer
            .sign_note(alloc, disk, MemberId::new(2), Mask(7))
            .or(Err("no note"))?;
        let accusation = signer
            .sign_accusation(alloc, disk, accusation)
            .or(Err("no accusation"))?;
        Ok(OfSecond { note, accusation })
    }

    /// They come one after the other.
    pub fn answers(&self, alloc: Global) -> Result<Vec<LinkAnswer>, Fail> {
        let note = datagram_with(alloc, &self.note)?;
        let accusation = datagram_with(alloc, &self.accusation)?;
        Ok(vec![in alloc; note, accusation]?)
    }
}
