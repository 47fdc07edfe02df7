//! How many bytes the spellings of bodies and records have.

ghost use Rattle.std.specs.Prelude.{◌≡◌, ◌+◌, ◌*◌, ◌≤◌, length};
ghost use Rattle.records.specs.Spelling.{HasLength, body_bytes, certificate_bytes, note_bytes, record_bytes};

use ff_ids::{NoteBody, is_wide};
use records::{Body, CertBody, Record};

/// How many bytes the note's spelling has: its mask has four of them, or where they don't hold it eight.
#[tactic(auto, using(crate::proofs::LengthLemmas::note_long))]
fn note_length(note: &NoteBody) -> usize
    ensures value { result ≡ length (note_bytes note.now) }
    ensures few { result ≤ 19 }
{
    if is_wide(note.mask.0) { 19 } else { 15 }
}

/// How many bytes the certificate's spelling has: its key has 56 of them, or where it is of two levels 60.
#[tactic(auto, using(crate::proofs::LengthLemmas::certificate_long))]
fn certificate_length(certificate: &CertBody) -> usize
    ensures value { result ≡ length (certificate_bytes certificate.now) }
    ensures few { result ≤ 65 }
{
    5 + certificate.key.write().as_slice().len()
}

/// How many bytes the body's spelling has.
pub fn body_length(body: &Body) -> usize
    ensures value { result ≡ length (body_bytes body.now) }
    ensures few { result ≤ 65 }
{
    match body {
        Body::Certificate(certificate) => certificate_length(certificate),
        Body::Note(note) => note_length(note),
        Body::Accusation(_) => 14,
    }
}

/// How many bytes the record's spelling has: the body, the length of the signature in two bytes, and the signature.
pub(crate) fn spelled_length(rec: &Record) -> usize
    requires signature { HasLength rec.now.signature }
    ensures { result ≡ length (record_bytes rec.now) }
{
    body_length(&rec.body) + 2 + rec.signature.as_slice().len()
}
