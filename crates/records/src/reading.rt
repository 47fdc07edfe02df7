//! Reading records, field by field.

ghost use Rattle.std.specs.Prelude.{◌≡◌, ℕ, ◌++◌, List, take, length, IfOk};
ghost use Rattle.fields.specs.Reading.{reading_of};
ghost use Rattle.records.specs.declared.Record.{Record as Signed};
ghost use Rattle.records.specs.Spelling.{IsRecord};
ghost use Rattle.records.specs.Grammar.{Reads, Passes, ReadsRecord, GivesRecord, IsGiven, certificate_at, hss_certificate_at, note_at, wide_note_at, accusation_at, body_at, signature_at, record_at};

use crate::fault::FormFault;
use crate::steps::{Misread, epoch, hss_key, key, mask, member, port, ring, wide_mask};
use crate::{Body, CertBody, Key, Record};
use ff_ids::{AccBody, NoteBody};
use fields::{Bytes, Reader};
use std::alloc::Global;

/// The greatest length of a signature: a one-time signature of width 1 in a tree of height 15.
const LONGEST_SIGNATURE: u16 = 9004;

#[tactic(auto, unfolding(crate::specs::Grammar::certificate_at))]
fn certificate(reader: &mut Reader) -> Result<CertBody, Misread>
    ensures { Reads (λ c. c) result reader.new (certificate_at reader.old) }
{
    let member = member(reader)?;
    let port = port(reader)?;
    let key = key(reader)?;
    Ok(CertBody {
        member,
        port,
        key: Key::Lms(key),
    })
}

#[tactic(auto, unfolding(crate::specs::Grammar::hss_certificate_at))]
fn hss_certificate(reader: &mut Reader) -> Result<CertBody, Misread>
    ensures { Reads (λ c. c) result reader.new (hss_certificate_at reader.old) }
{
    let member = member(reader)?;
    let port = port(reader)?;
    let key = hss_key(reader)?;
    Ok(CertBody {
        member,
        port,
        key: Key::Hss(key),
    })
}

#[tactic(auto, unfolding(crate::specs::Grammar::note_at))]
fn note(reader: &mut Reader) -> Result<NoteBody, Misread>
    ensures { Reads (λ n. n) result reader.new (note_at reader.old) }
{
    let member = member(reader)?;
    let epoch = epoch(reader)?;
    let mask = mask(reader)?;
    Ok(NoteBody {
        member,
        epoch,
        mask,
    })
}

#[tactic(auto, unfolding(crate::specs::Grammar::wide_note_at))]
fn wide_note(reader: &mut Reader) -> Result<NoteBody, Misread>
    ensures { Reads (λ n. n) result reader.new (wide_note_at reader.old) }
{
    let member = member(reader)?;
    let epoch = epoch(reader)?;
    let mask = wide_mask(reader)?;
    Ok(NoteBody {
        member,
        epoch,
        mask,
    })
}

#[tactic(auto, unfolding(crate::specs::Grammar::accusation_at))]
fn accusation(reader: &mut Reader) -> Result<AccBody, Misread>
    ensures { Reads (λ a. a) result reader.new (accusation_at reader.old) }
{
    let accuser = member(reader)?;
    let accused = member(reader)?;
    let epoch = epoch(reader)?;
    let ring = ring(reader)?;
    Ok(AccBody {
        accuser,
        accused,
        epoch,
        ring,
    })
}

#[tactic(auto, unfolding(crate::specs::Grammar::body_at))]
fn body(reader: &mut Reader) -> Result<Body, Misread>
    ensures { Reads (λ b. b) result reader.new (body_at reader.old) }
{
    let place = reader.place();
    match reader.u8() {
        Ok(1) => Ok(Body::Certificate(certificate(reader)?)),
        Ok(2) => Ok(Body::Note(note(reader)?)),
        Ok(3) => Ok(Body::Accusation(accusation(reader)?)),
        Ok(4) => Ok(Body::Note(wide_note(reader)?)),
        Ok(5) => Ok(Body::Certificate(hss_certificate(reader)?)),
        _ => Err(Misread { place }),
    }
}

#[tactic(auto, unfolding(crate::specs::Grammar::signature_at))]
fn signature<'a>(reader: &mut Reader<'a>) -> Result<&'a [u8], Misread>
    ensures { Reads (λ s. s.now) result reader.new (signature_at reader.old) }
{
    let place = reader.place();
    let length = match reader.u16() {
        Ok(length) if 0 < length && length <= LONGEST_SIGNATURE => length,
        _ => return Err(Misread { place }),
    };
    let place = reader.place();
    match reader.bytes(length as usize) {
        Ok(signature) => Ok(signature),
        Err(_) => Err(Misread { place }),
    }
}

/// The next record, in a text of several things. Where it is refused, the place is counted from the reader's
/// first byte, and the reader may have moved.
#[tactic(auto, unfolding(crate::specs::Grammar::record_at))]
pub fn next_record(alloc: Global, reader: &mut Reader) -> Result<Record, FormFault>
    ensures { ReadsRecord result reader.new (record_at reader.old) }
{
    let body = body(reader)?;
    let signature = signature(reader)?;
    let signature = Bytes::from_vec(Vec::from_slice(alloc, signature)?);
    Ok(Record { body, signature })
}

/// Goes past the next record. It takes no memory. Where it is refused, the place is counted from the reader's
/// first byte, and the reader may have moved.
#[tactic(auto, unfolding(crate::specs::Grammar::record_at))]
pub fn pass_record(reader: &mut Reader) -> Result<(), Misread>
    ensures { Passes result reader.new (record_at reader.old) }
{
    if let Err(fault) = body(reader) {
        return Err(fault);
    }
    signature(reader)?;
    Ok(())
}

/// The record at the front of the bytes and how many it takes, or why there is none.
fn front_record(alloc: Global, bytes: &[u8]) -> Result<(Record, usize), FormFault>
    ensures { GivesRecord (record_at (reading_of bytes.now)) result }
{
    let mut reader = Reader::new(bytes);
    let rec = next_record(alloc, &mut reader)?;
    Ok((rec, reader.place()))
}

/// The record at the front of the bytes, and how many of them it takes. Bytes behind it are not read. The
/// fault is at the first byte of the first field that is cut short or breaks its rule.
pub fn read_record(alloc: Global, bytes: &[u8]) -> Result<(Record, usize), FormFault>
    // What is read is spelled so.
    ensures found { IfOk result (λ x. IsRecord (take x.1 bytes.now) x.0) }
    // What is spelled so is read, whatever follows it.
    ensures only { (r : Signed) (spelled rest : List ℕ) → IsRecord spelled r
        → bytes.now ≡ spelled ++ rest → IsGiven r (length spelled) result }
    // Which fault it is.
    ensures exact { GivesRecord (record_at (reading_of bytes.now)) result }
{
    front_record(alloc, bytes)
}
