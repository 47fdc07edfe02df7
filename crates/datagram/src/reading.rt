//! Reading datagrams.

ghost use Rattle.std.specs.Prelude.{◌≡◌, ◌+◌, ◌*◌, ◌<◌, ◌≤◌, [], List, ℕ, IfOk, Result, Ok};
ghost use Rattle.ff_ids.specs.declared.TheConstants.{PAGES, PAGE_MEMBERS};
ghost use Rattle.fields.specs.Reading.{Reading, reading_of};
ghost use Rattle.records.specs.Grammar.{Reads, Passes};
ghost use Rattle.datagram.specs.declared.Datagram.{Datagram as Sent};
ghost use Rattle.datagram.specs.Spelling.{IsDatagram, IsWritable};
ghost use Rattle.datagram.specs.Grammar.{greatest_bits, most_bits, entry_at, entries_at, summary_at, counted_at, records_at, headed_records_at, whole_of, read_of, Ends, GivesDatagram, GivesList, IsReadAs};

use crate::fields_in::{bits_up_to, byte_within, head, u16_within, u64_any};
use crate::{Datagram, needs_eight};
use ff_ids::{ALL_BITS, Bits, LAST_PAGE, Mask, MemberId, PAGE_MEMBERS, Summary, SummaryEntry};
use fields::Reader;
use records::steps::Misread;
use records::{FormFault, RecordList, next_record, pass_record};
use std::alloc::Global;

/// The greatest number of bytes of a datagram.
const LONGEST: usize = 32768;

/// All bits that a mask or rings of a summary may have.
fn most_bits(wide: bool) -> Bits
    ensures { result ≡ most_bits wide }
{
    if wide { ALL_BITS } else { Bits::from(u32::MAX) }
}

/// The greatest mask and the greatest set of rings of an entry: none without a note.
fn greatest_bits(wide: bool, epoch: u64) -> Bits
    ensures { result ≡ greatest_bits wide epoch }
{
    if epoch == 0 { 0 } else { most_bits(wide) }
}

/// An entry of this page whose member is at least `least`.
#[tactic(auto, unfolding(crate::specs::Grammar::entry_at))]
fn entry(reader: &mut Reader, wide: bool, page: u8, least: u16) -> Result<SummaryEntry, Misread>
    requires { page < PAGES }
    ensures { Reads (λ e. e) result reader.new (entry_at wide page least reader.old) }
{
    let member = u16_within(
        reader,
        least,
        PAGE_MEMBERS * page as u16 + (PAGE_MEMBERS - 1),
    )?;
    let epoch = u64_any(reader)?;
    let most = greatest_bits(wide, epoch);
    let mask = bits_up_to(reader, wide, most)?;
    let rings = bits_up_to(reader, wide, most)?;
    Ok(SummaryEntry {
        member: MemberId::new(member),
        epoch,
        mask: Mask(mask),
        rings,
    })
}

/// So many entries of this page, at most `PAGE_MEMBERS`.
#[tactic(auto, unfolding(crate::specs::Grammar::entries_at))]
fn entries(reader: &mut Reader, wide: bool, page: u8, count: u8) -> Result<Summary, Misread>
    requires page { page < PAGES }
    requires few { count ≤ PAGE_MEMBERS }
    ensures { Reads (λ s. s) result reader.new (entries_at wide page count reader.old) }
{
    let mut summary = Summary::new();
    summary.page = page;
    let mut least = PAGE_MEMBERS * page as u16;
    for _entry in 0..count {
        let entry = entry(reader, wide, page, least)?;
        least = entry.member.get() + 1;
        summary.push(entry);
    }
    Ok(summary)
}

/// The flag and the summary of a summary datagram, a wide one or not.
#[tactic(auto, unfolding(crate::specs::Grammar::summary_at))]
fn summary(reader: &mut Reader, wide: bool) -> Result<(bool, Summary), Misread>
    ensures { Reads (λ s. s) result reader.new (summary_at wide reader.old) }
{
    let page = byte_within(reader, 0, LAST_PAGE)?;
    let flag = byte_within(reader, 0, 1)?;
    let place = reader.place();
    let count = byte_within(reader, 0, PAGE_MEMBERS as u8)?;
    let summary = entries(reader, wide, page, count)?;
    if wide && !needs_eight(&summary) {
        return Err(Misread { place });
    }
    Ok((flag == 1, summary))
}

/// Goes past the records of a records datagram. It takes no memory.
#[tactic(auto, unfolding(crate::specs::Grammar::records_at, crate::specs::Grammar::counted_at))]
fn pass_records(reader: &mut Reader) -> Result<(), Misread>
    ensures { Passes result reader.new (records_at reader.old) }
{
    let count = u16_within(reader, 1, u16::MAX)?;
    for _record in 0..count {
        pass_record(reader)?;
    }
    Ok(())
}

/// So many records.
#[tactic(auto, unfolding(crate::specs::Grammar::counted_at))]
fn counted(alloc: Global, reader: &mut Reader, count: u16) -> Result<RecordList, FormFault>
    ensures { GivesList (λ l. l) result (counted_at count reader.old) }
{
    let mut records = Vec::with_capacity(alloc, count as usize)?;
    for _record in 0..count {
        records.push_reserved(next_record(alloc, reader)?);
    }
    Ok(RecordList::from_vec(records))
}

/// The records of a records datagram.
#[tactic(auto, unfolding(crate::specs::Grammar::headed_records_at, crate::specs::Grammar::records_at))]
fn records(alloc: Global, bytes: &[u8]) -> Result<RecordList, FormFault>
    ensures { GivesList (λ l. l) result (headed_records_at (reading_of bytes.now)) }
{
    let mut reader = Reader::new(bytes);
    head(&mut reader)?;
    let count = u16_within(&mut reader, 1, u16::MAX)?;
    counted(alloc, &mut reader, count)
}

/// Nothing is left.
fn end(reader: &mut Reader) -> Result<(), Misread>
    ensures { Ends result reader.old }
{
    let place = reader.place();
    match reader.u8() {
        Ok(_) => Err(Misread { place }),
        Err(_) => Ok(()),
    }
}

/// The datagram that the bytes are, of which there are not too many. Memory is taken for records alone, once it
/// is known that nothing is wrong with the bytes.
#[tactic(auto, unfolding(crate::specs::Grammar::whole_of, crate::specs::Grammar::headed_records_at, crate::specs::Grammar::datagram_at, crate::specs::Grammar::content_at))]
fn datagram(alloc: Global, bytes: &[u8]) -> Result<Datagram, FormFault>
    ensures { GivesDatagram (whole_of bytes.now) result }
{
    let mut reader = Reader::new(bytes);
    let (kind, from) = head(&mut reader)?;
    match kind {
        1 => {
            let nonce = u64_any(&mut reader)?;
            end(&mut reader)?;
            Ok(Datagram::Ping { from, nonce })
        }
        2 => {
            let nonce = u64_any(&mut reader)?;
            end(&mut reader)?;
            Ok(Datagram::Pong { from, nonce })
        }
        4 => {
            pass_records(&mut reader)?;
            end(&mut reader)?;
            let records = records(alloc, bytes)?;
            Ok(Datagram::Records { from, records })
        }
        _ => {
            let (flag, summary) = summary(&mut reader, kind == 5)?;
            end(&mut reader)?;
            Ok(Datagram::Summary {
                from,
                flag,
                summary,
            })
        }
    }
}

/// The datagram that the bytes are, or why they are none.
#[tactic(auto, unfolding(crate::specs::Grammar::read_of))]
fn read_whole(alloc: Global, bytes: &[u8]) -> Result<Datagram, FormFault>
    ensures { GivesDatagram (read_of bytes.now) result }
{
    if bytes.len() > LONGEST {
        return Err(FormFault::BadForm { place: LONGEST });
    }
    datagram(alloc, bytes)
}

/// The datagram that the bytes are, all of them. The fault is at the first byte of the first field that is cut
/// short or breaks its rule, also within a record, counted from the first byte of the datagram; at the first byte
/// left over; or at 32,768, before anything else, where there are more bytes than that. No memory is taken before
/// it is known that nothing is wrong with the bytes, and then for records alone.
pub fn read(alloc: Global, bytes: &[u8]) -> Result<Datagram, FormFault>
    // What is read is spelled so.
    ensures found { IfOk result (λ d. IsDatagram bytes.now d) }
    // What is read can be written.
    ensures writable { IfOk result (λ d. IsWritable d) }
    // What is spelled so is read.
    ensures only { (d : Sent) → IsDatagram bytes.now d → IsReadAs d result }
    // Which fault it is.
    ensures exact { GivesDatagram (read_of bytes.now) result }
{
    read_whole(alloc, bytes)
}
