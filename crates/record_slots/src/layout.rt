//! The slots in which what is held is kept: for each member one for its certificate, one for its note, one for
//! an accusation against it on each ring, and one for the accusation that removed it.

ghost use Rattle.std.specs.Prelude.{◌≡◌, ℕ, map, ◌+◌, ◌*◌, ◌<◌, ◌≤◌, ◌++◌, ◌↔◌, length, true, IfOk, None, slice_index_or, slice_set, is_some, vec_capacity};
ghost use Rattle.std.specs.Option.{option_copied, option_map};
ghost use Rattle.ff_ids.specs.declared.TheConstants.{MAX_RINGS, MEMBERS, PAGE_MEMBERS};
ghost use Rattle.ff_ids.specs.Masks.{bits_where};
ghost use Rattle.record_slots.specs.Held.{key_of};
ghost use Rattle.record_slots.specs.Pages.{note_of_body, note_in, entry_with};
ghost use Rattle.record_slots.specs.Slots.{slot_of, member_of, HasSlot, entry_in, no_entry, ready_entries};

use crate::{Learns, Slotted};
use ff_ids::{
    Bits, MAX_RINGS, MEMBERS, Mask, MemberId, NoteBody, RecordKey, Summary, SummaryEntry,
};
use records::Body;
use std::alloc::{AllocError, Global};

/// How many slots a member has: one for each ring, and three.
const SLOTS_EACH: usize = MAX_RINGS as usize + 3;
/// How many slots there are at most.
pub(crate) const SLOTS: usize = SLOTS_EACH * MEMBERS as usize;

/// The slot of the certificate of the member of this number.
pub(crate) fn certificate_slot(number: usize) -> usize
    requires { number < MEMBERS }
    ensures { result ≡ SLOTS_EACH * number }
{
    SLOTS_EACH * number
}

/// The member of a key: of an accusation the accused.
pub(crate) fn member_of(key: &RecordKey) -> MemberId
    ensures { result ≡ member_of key.now }
{
    match key {
        RecordKey::Certificate(member) | RecordKey::Note(member) => *member,
        RecordKey::Accusation(accused, _) | RecordKey::Removal(accused) => *accused,
    }
}

/// Whether there is a slot for the key: there are as many rings as a mask has.
pub(crate) fn has_slot(key: &RecordKey) -> bool
    ensures { (result ≡ true) ↔ HasSlot key.now }
{
    match key {
        RecordKey::Accusation(_, ring) => ring.0 < MAX_RINGS,
        _ => true,
    }
}

/// The slot of a key.
pub(crate) fn slot_of(key: &RecordKey) -> usize
    requires { HasSlot key.now }
    ensures value { result ≡ slot_of key.now }
    ensures range { result < SLOTS }
{
    match key {
        RecordKey::Certificate(member) => certificate_slot(member.get() as usize),
        RecordKey::Note(member) => certificate_slot(member.get() as usize) + 1,
        RecordKey::Accusation(accused, ring) => {
            certificate_slot(accused.get() as usize) + 2 + ring.0 as usize
        }
        RecordKey::Removal(member) => {
            certificate_slot(member.get() as usize) + 2 + MAX_RINGS as usize
        }
    }
}

/// The key under which what a record says is held.
pub(crate) fn key_of(body: &Body) -> RecordKey
    ensures { result ≡ key_of body.now }
{
    match body {
        Body::Certificate(certificate) => RecordKey::Certificate(certificate.member),
        Body::Note(note) => RecordKey::Note(note.member),
        Body::Accusation(acc) => RecordKey::Accusation(acc.accused, acc.ring),
    }
}

/// Makes the slots reach this one, for which they have room. Those that are new hold nothing: the memory of members
/// with greater numbers than any of which something is held stays untouched.
pub(crate) fn reach<R: Drop>(slots: &mut Vec<Option<R>>, slot: usize)
    requires slot { slot < SLOTS }
    requires few { length slots.old.items ≤ SLOTS }
    requires room { SLOTS ≤ vec_capacity slots.old }
    ensures reached { slot < length slots.new.items }
    ensures few { length slots.new.items ≤ SLOTS }
    ensures room { SLOTS ≤ vec_capacity slots.new }
    ensures same { (k : ℕ) → slice_index_or slots.new.items k None
        ≡ slice_index_or slots.old.items k None }
{
    'growing: while slots.len() <= slot {
        slots.push_reserved(None);
    }
}

/// Holds nothing in this slot any more; the answer is what it held, if the slots reach it.
pub(crate) fn clear<R: Drop>(slots: &mut Vec<Option<R>>, slot: usize) -> Option<R>
    ensures value { result ≡ slice_index_or slots.old.items slot None }
    ensures items { slots.new.items ≡ slice_set slots.old.items slot None }
    ensures room { vec_capacity slots.new ≡ vec_capacity slots.old }
{
    if slot < slots.len() {
        slots[slot].take()
    } else {
        None
    }
}

/// What is held in the slot, if anything is.
pub(crate) fn kept_in<R>(slots: &[Option<R>], slot: usize) -> Option<&R>
    ensures value { option_copied result ≡ slice_index_or slots.now slot None }
    ensures variant { is_some result ≡ is_some (slice_index_or slots.now slot None) }
{
    if slot < slots.len() {
        slots[slot].as_ref()
    } else {
        None
    }
}

/// The entry of a member of which nothing is held.
fn no_entry(number: u16) -> SummaryEntry
    requires { number < MEMBERS }
    ensures { result ≡ no_entry number }
{
    SummaryEntry {
        member: MemberId::new(number),
        epoch: 0,
        mask: Mask(0),
        rings: 0,
    }
}

/// The entries of all members, of none of which anything is held.
pub(crate) fn no_entries(alloc: Global) -> Result<Vec<SummaryEntry>, AllocError>
    ensures all { IfOk result (λ v. length v.items ≡ MEMBERS) }
    ensures none { IfOk result
        (λ v. (k : ℕ) → k < MEMBERS → slice_index_or v.items k (no_entry k) ≡ no_entry k) }
{
    let mut entries = Vec::with_capacity(alloc, MEMBERS as usize)?;
    for number in 0..MEMBERS {
        entries.push_reserved(no_entry(number));
    }
    Ok(entries)
}

/// The note that a record is.
fn note_of(body: &Body) -> Option<NoteBody>
    ensures { result ≡ note_of_body body.now }
{
    match body {
        Body::Note(note) => Some(*note),
        _ => None,
    }
}

/// The note in its slot.
fn note_in<R: Slotted>(slots: &[Option<R>], slot: usize) -> Option<NoteBody>
    ensures { result ≡ note_in R.body (slice_index_or slots.now slot None) }
{
    match kept_in(slots, slot) {
        Some(kept) => note_of(kept.body()),
        None => None,
    }
}

/// The set of the rings whose slots, from this one on, hold an accusation.
fn rings_in<R: Drop>(slots: &[Option<R>], first: usize) -> Bits
    requires { first ≤ SLOTS }
    ensures { result ≡ bits_where (λ r. is_some (slice_index_or slots.now (first + r) None))
        MAX_RINGS }
{
    let mut rings = 0;
    for ring in 0..MAX_RINGS {
        if kept_in(slots, first + ring as usize).is_some() {
            rings += 1 << ring;
        }
    }
    rings
}

/// Appends the ready entries of those of `count` members, from this number on, whose certificate is held.
pub(crate) fn push_certified<R: Drop>(
    slots: &[Option<R>],
    entries: &[SummaryEntry],
    first: usize,
    count: usize,
    out: &mut Summary,
)
    requires entries { length entries.now ≡ MEMBERS }
    requires members { first + count ≤ MEMBERS }
    requires room { length out.old.listed + count ≤ PAGE_MEMBERS }
    ensures page { out.new.page ≡ out.old.page }
    ensures listed { out.new.listed
        ≡ out.old.listed ++ ready_entries slots.now entries.now first count }
{
    for index in 0..count {
        let number = first + index;
        if kept_in(slots, certificate_slot(number)).is_some() {
            out.push(entries[number]);
        }
    }
}

/// The entry of the member, whose note and rings these are.
fn entry_with(member: MemberId, note: Option<NoteBody>, rings: Bits) -> SummaryEntry
    ensures { result ≡ entry_with member note rings }
{
    let (epoch, mask) = match note {
        Some(note) => (note.epoch.get(), note.mask),
        None => (0, Mask(0)),
    };
    SummaryEntry {
        member,
        epoch,
        mask,
        rings,
    }
}

/// What the slots hold of the member.
pub(crate) fn fresh_entry<R: Slotted>(slots: &[Option<R>], member: MemberId) -> SummaryEntry
    ensures value { result ≡ entry_in R.body slots.now member }
    ensures range { member < MEMBERS }
{
    let first = certificate_slot(member.get() as usize);
    entry_with(
        member,
        note_in(slots, first + 1),
        rings_in(slots, first + 2),
    )
}

/// Tells what the slot holds the news.
fn learn_in<R: Learns>(slot: &mut Option<R>, news: &R::News)
    ensures { slot.new ≡ option_map (R.learned news.now) slot.old }
{
    if let Some(kept) = slot {
        kept.learn(news);
    }
}

/// Tells all that the slots hold the news.
pub(crate) fn learn_all<R: Learns>(slots: &mut [Option<R>], news: &R::News)
    ensures { slots.new ≡ map (option_map (R.learned news.now)) slots.old }
{
    for slot in slots.iter_mut() {
        learn_in(slot, news);
    }
}
