//! Writing records.

ghost use Rattle.std.specs.Prelude.{◌≡◌, ◌<◌, ◌≤◌, ◌+◌, ◌^◌, true, false, [], ◌++◌, length, IfOk, IfSome, IfNone, OnOk, OnErr};
ghost use Rattle.arrayvec.specs.ArrayVec.{array_vec_len};
ghost use Rattle.ff_ids.specs.Masks.{is_wide};
ghost use Rattle.records.specs.Spelling.{IsWritable, HasPort, IsBody, IsCertificate, IsNote, IsAccusation, body_bytes, certificate_bytes, certificate_kind, note_bytes, accusation_bytes, record_bytes};

use crate::{Body, CertBody, Key, Record};
use arrayvec::ArrayVec;
use ff_ids::{AccBody, Mask, NoteBody};
use fields::{NoMemory, Writer};

/// The bytes of a body, of which a certificate has the most.
type BodyBytes = ArrayVec<u8, 65>;

/// Appends bytes for which there is room.
pub(crate) fn put<const N: usize>(out: &mut ArrayVec<u8, N>, bytes: &[u8])
    requires { array_vec_len out.old + length bytes.now ≤ N }
    ensures { out.new.items ≡ out.old.items ++ bytes.now }
{
    for byte in bytes {
        out.push(*byte);
    }
}

/// The kind of certificates of such a key.
fn certificate_kind(key: &Key) -> u8
    ensures { result ≡ certificate_kind key.now }
{
    match key {
        Key::Lms(_) => 1,
        Key::Hss(_) => 5,
    }
}

#[tactic(auto, unfolding(crate::specs::Spelling::certificate_bytes))]
fn certificate_bytes(certificate: &CertBody) -> BodyBytes
    ensures value { result.items ≡ certificate_bytes certificate.now }
    ensures body { 0 < certificate.now.port → IsCertificate certificate.now }
{
    let mut out = ArrayVec::new();
    out.push(certificate_kind(&certificate.key));
    put(&mut out, &certificate.member.get().to_be_bytes());
    put(&mut out, &certificate.port.to_be_bytes());
    put(&mut out, certificate.key.write().as_slice());
    out
}

/// The mask as a number of four bytes, if they hold it.
fn narrow(mask: Mask) -> Option<u32>
    ensures narrow { IfSome result (λ rings. (rings ≡ mask.0) × (is_wide mask.0 ≡ false)) }
    ensures wide { IfNone result (is_wide mask.0 ≡ true) }
{
    u32::try_from(mask.0).ok()
}

#[tactic(auto, unfolding(crate::specs::Spelling::note_bytes))]
fn note_bytes(note: &NoteBody) -> BodyBytes
    ensures value { result.items ≡ note_bytes note.now }
    ensures body { IsNote note.now }
{
    let mut out = ArrayVec::new();
    let narrow = narrow(note.mask);
    out.push(if narrow.is_some() { 2 } else { 4 });
    put(&mut out, &note.member.get().to_be_bytes());
    put(&mut out, &note.epoch.get().to_be_bytes());
    match narrow {
        Some(rings) => put(&mut out, &rings.to_be_bytes()),
        None => put(&mut out, &note.mask.0.to_be_bytes()),
    }
    out
}

#[tactic(auto, unfolding(crate::specs::Spelling::accusation_bytes))]
fn accusation_bytes(acc: &AccBody) -> BodyBytes
    ensures value { result.items ≡ accusation_bytes acc.now }
    ensures body { IsAccusation acc.now }
{
    let mut out = ArrayVec::new();
    out.push(3);
    put(&mut out, &acc.accuser.get().to_be_bytes());
    put(&mut out, &acc.accused.get().to_be_bytes());
    put(&mut out, &acc.epoch.get().to_be_bytes());
    out.push(acc.ring.0);
    out
}

/// The bytes of a body.
pub(crate) fn body_bytes(body: &Body) -> BodyBytes
    ensures value { result.items ≡ body_bytes body.now }
    ensures few { array_vec_len result ≤ 65 }
    ensures body { HasPort body.now → IsBody body.now }
{
    match body {
        Body::Certificate(certificate) => certificate_bytes(certificate),
        Body::Note(note) => note_bytes(note),
        Body::Accusation(acc) => accusation_bytes(acc),
    }
}

/// The bytes of a record, in memory of their own.
fn record_bytes(rec: &Record, mut writer: Writer) -> Result<Vec<u8>, NoMemory>
    requires writable { IsWritable rec.now }
    requires empty { writer ≡ [] }
    ensures { IfOk result (λ bytes. bytes.items ≡ record_bytes rec.now) }
{
    let signature = rec.signature.as_slice();
    writer.put_bytes(body_bytes(&rec.body).as_slice())?;
    writer.put_u16(signature.len() as u16)?;
    writer.put_bytes(signature)?;
    Ok(writer.finish())
}

/// Appends the record's one spelling. Where memory is refused, `out` is as it was.
pub fn write_record(rec: &Record, out: &mut Vec<u8>) -> Result<(), NoMemory>
    requires { IsWritable rec.now }
    ensures ok { OnOk result (out.new.items ≡ out.old.items ++ record_bytes rec.now) }
    ensures refused { OnErr result (out.new.items ≡ out.old.items) }
{
    let bytes = record_bytes(rec, Writer::new(*out.allocator()))?;
    out.extend_from_slice(bytes.as_slice())?;
    Ok(())
}
