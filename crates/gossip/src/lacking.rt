//! What the other side of an exchange lacks.

ghost use Rattle.std.specs.Prelude.{◌≡◌, ◌<◌, ◌&&◌, ◌++◌, OnOk, OnErr};
ghost use Rattle.std.specs.Option.{option_copied};
ghost use Rattle.ff_ids.specs.declared.TheConstants.{MASK_BITS};
ghost use Rattle.ff_ids.specs.Masks.{enables};
ghost use Rattle.gossip.specs.Differ.{entry_of, entry_cmp, is_behind, lacks_ring, certificates_lacking, notes_lacking, rings_lacking, accusations_lacking, differ, IsFront};

use ff_ids::{MASK_BITS, Mask, MemberId, RecordKey, RingNo, Summary, SummaryEntry};
use fields::NoMemory;
use std::cmp::Ordering;

/// The entry of the member.
fn entry_of(entries: &[SummaryEntry], member: MemberId) -> Option<&SummaryEntry>
    ensures { option_copied result ≡ entry_of entries.now member }
{
    entries.iter().find(|entry| entry.member == member)
}

/// The order of two entries: by epoch, and of one epoch by mask.
fn entry_order(there: &SummaryEntry, here: &SummaryEntry) -> Ordering
    ensures { result ≡ entry_cmp there.now here.now }
{
    there
        .epoch
        .cmp(&here.epoch)
        .then(there.mask.0.cmp(&here.mask.0))
}

/// Whether the entry there is missing or less than the one here.
fn is_behind(there: Option<&SummaryEntry>, here: &SummaryEntry) -> bool
    ensures { result ≡ is_behind (option_copied there.entry) here.now }
{
    match there {
        None => true,
        Some(there) => entry_order(there, here) == Ordering::Less,
    }
}

/// Whether the side of the entry there lacks the accusation on this ring.
fn lacks_ring(there: Option<&SummaryEntry>, here: &SummaryEntry, ring: RingNo) -> bool
    requires { ring.0 < MASK_BITS }
    ensures { result ≡ lacks_ring (option_copied there.entry) here.now ring.0 }
{
    let Some(there) = there else {
        return true;
    };
    match entry_order(there, here) {
        Ordering::Less => true,
        Ordering::Equal => !Mask(there.rings).enables(ring),
        Ordering::Greater => false,
    }
}

/// Whether an accusation on this ring is kept here and lacked there.
fn is_wanted(there: Option<&SummaryEntry>, here: &SummaryEntry, ring: RingNo) -> bool
    requires { ring.0 < MASK_BITS }
    ensures { result ≡ (enables here.now.rings ring.0 && lacks_ring (option_copied there.entry)
        here.now ring.0) }
{
    Mask(here.rings).enables(ring) && lacks_ring(there, here, ring)
}

/// Appends the certificate of each member without an entry there.
fn push_certificates(
    mine: &[SummaryEntry],
    theirs: &[SummaryEntry],
    out: &mut Vec<RecordKey>,
) -> Result<(), NoMemory>
    ensures ok { OnOk result
        (out.new.items ≡ out.old.items ++ certificates_lacking mine.now theirs.now) }
    ensures front { OnErr result
        (IsFront out.old.items out.new.items (certificates_lacking mine.now theirs.now)) }
{
    for here in mine {
        if entry_of(theirs, here.member).is_none() {
            out.push(RecordKey::Certificate(here.member))?;
        }
    }
    Ok(())
}

/// Appends the note of each member that has one here, and whose entry there is missing or less.
fn push_notes(
    mine: &[SummaryEntry],
    theirs: &[SummaryEntry],
    out: &mut Vec<RecordKey>,
) -> Result<(), NoMemory>
    ensures ok { OnOk result (out.new.items ≡ out.old.items ++ notes_lacking mine.now theirs.now) }
    ensures front { OnErr result
        (IsFront out.old.items out.new.items (notes_lacking mine.now theirs.now)) }
{
    for here in mine {
        if here.epoch > 0 && is_behind(entry_of(theirs, here.member), here) {
            out.push(RecordKey::Note(here.member))?;
        }
    }
    Ok(())
}

/// Appends the accusations against one member that the side of the entry there lacks.
fn push_rings(
    there: Option<&SummaryEntry>,
    here: &SummaryEntry,
    out: &mut Vec<RecordKey>,
) -> Result<(), NoMemory>
    ensures ok { OnOk result
        (out.new.items ≡ out.old.items ++ rings_lacking (option_copied there.entry) here.now) }
    ensures front { OnErr result
        (IsFront out.old.items out.new.items
        (rings_lacking (option_copied there.entry) here.now)) }
{
    for number in 0..MASK_BITS {
        let ring = RingNo(number);
        if is_wanted(there, here, ring) {
            out.push(RecordKey::Accusation(here.member, ring))?;
        }
    }
    Ok(())
}

/// Appends the accusations against each member that the other side lacks.
fn push_accusations(
    mine: &[SummaryEntry],
    theirs: &[SummaryEntry],
    out: &mut Vec<RecordKey>,
) -> Result<(), NoMemory>
    ensures ok { OnOk result
        (out.new.items ≡ out.old.items ++ accusations_lacking mine.now theirs.now) }
    ensures front { OnErr result
        (IsFront out.old.items out.new.items (accusations_lacking mine.now theirs.now)) }
{
    for here in mine {
        push_rings(entry_of(theirs, here.member), here, out)?;
    }
    Ok(())
}

/// Appends the keys of all that the other side lacks.
fn push_lacking(
    mine: &[SummaryEntry],
    theirs: &[SummaryEntry],
    out: &mut Vec<RecordKey>,
) -> Result<(), NoMemory>
    ensures ok { OnOk result (out.new.items ≡ out.old.items ++ differ mine.now theirs.now) }
    ensures front { OnErr result
        (IsFront out.old.items out.new.items (differ mine.now theirs.now)) }
{
    push_certificates(mine, theirs, out)?;
    push_notes(mine, theirs, out)?;
    push_accusations(mine, theirs, out)
}

/// Appends the keys of the records that this side holds of a page and the other side lacks, by the summaries of
/// both: the certificate of each member without an entry there, then the note of each member that has one here
/// and whose entry there is missing or less, then the accusations against each member, all of them where its
/// entry there is missing or less, and those on other rings than it names where it is equal. Each part is in
/// the order of the entries here, then of the rings. After want of memory `out` holds a front of them behind what
/// it held.
pub fn lacks(mine: &Summary, theirs: &Summary, out: &mut Vec<RecordKey>) -> Result<(), NoMemory>
    ensures ok { OnOk result
        (out.new.items ≡ out.old.items ++ differ mine.now.listed theirs.now.listed) }
    ensures front { OnErr result
        (IsFront out.old.items out.new.items (differ mine.now.listed theirs.now.listed)) }
{
    push_lacking(mine.entries(), theirs.entries(), out)
}
