//! Writing datagrams.

ghost use Rattle.std.specs.Prelude.{◌≡◌, ◌<◌, ◌≤◌, [], ◌++◌, List, length, All, IfOk, OnOk, OnErr};
ghost use Rattle.std.specs.List.{flat_map};
ghost use Rattle.std.specs.Int.{w16, w64, to_be_bytes};
ghost use Rattle.ff_ids.specs.Summaries.{IsSummary};
ghost use Rattle.records.specs.Spelling.{record_bytes, IsWritable as IsWritableRecord};
ghost use Rattle.datagram.specs.declared.Datagram.TheVariants as kinds;
ghost use Rattle.datagram.specs.Spelling.{head_bytes, bits_width, entry_bytes, flag_number, summary_bytes, summary_kind as kind_of_summary, records_bytes, datagram_bytes, HasContent, IsWritable};

use crate::{Datagram, needs_eight};
use ff_ids::{Bits, MemberId, Summary, SummaryEntry};
use fields::{NoMemory, Writer};
use records::{Record, write_record};
use std::alloc::Global;

/// What a datagram of this kind from this member begins with.
#[tactic(auto, unfolding(crate::specs::Spelling::head_bytes))]
fn head(kind: u8, from: MemberId) -> [u8; 6]
    ensures { result ≡ head_bytes kind from }
{
    let [high, low] = from.get().to_be_bytes();
    [0x46, 0x46, 1, kind, high, low]
}

/// The first 8 bytes of a records datagram from this member with so many records, at least 1. The spellings of the
/// records follow them.
#[tactic(auto, unfolding(crate::specs::Spelling::head_bytes))]
pub fn records_head(from: MemberId, count: u16) -> [u8; 8]
    requires { 0 < count }
    ensures { result ≡ head_bytes 4 from ++ to_be_bytes w16 count }
{
    let [high, low] = from.get().to_be_bytes();
    let [count_high, count_low] = count.to_be_bytes();
    [0x46, 0x46, 1, 4, high, low, count_high, count_low]
}

/// The bytes of a ping or a pong.
fn probe(kind: u8, from: MemberId, nonce: u64, mut writer: Writer) -> Result<Vec<u8>, NoMemory>
    requires { writer ≡ [] }
    ensures { IfOk result (λ bytes. bytes.items ≡ head_bytes kind from ++ to_be_bytes w64 nonce) }
{
    writer.put_bytes(&head(kind, from))?;
    writer.put_u64(nonce)?;
    Ok(writer.finish())
}

/// Puts a mask or rings: their lowest four bytes, or in a wide summary all eight.
fn put_bits(writer: &mut Writer, wide: bool, bits: Bits) -> Result<(), NoMemory>
    ensures { OnOk result (writer.new ≡ writer.old ++ to_be_bytes (bits_width wide) bits) }
{
    let bytes = bits.to_be_bytes();
    if wide {
        writer.put_bytes(&bytes)
    } else {
        writer.put_bytes(&bytes[4..])
    }
}

#[tactic(auto, unfolding(crate::specs::Spelling::entry_bytes))]
fn put_entry(writer: &mut Writer, wide: bool, entry: &SummaryEntry) -> Result<(), NoMemory>
    ensures { OnOk result (writer.new ≡ writer.old ++ entry_bytes wide entry.now) }
{
    writer.put_u16(entry.member.get())?;
    writer.put_u64(entry.epoch)?;
    put_bits(writer, wide, entry.mask.0)?;
    put_bits(writer, wide, entry.rings)?;
    Ok(())
}

/// The kind of the datagram of a summary, a wide one or not.
fn summary_kind(wide: bool) -> u8
    ensures { result ≡ kind_of_summary wide }
{
    if wide { 5 } else { 3 }
}

fn flag_number(flag: bool) -> u8
    ensures { result ≡ flag_number flag }
{
    if flag { 1 } else { 0 }
}

#[tactic(auto, using(crate::proofs::Entries::listed_few), unfolding(crate::specs::Spelling::summary_bytes))]
fn put_summary(
    writer: &mut Writer,
    wide: bool,
    flag: bool,
    summary: &Summary,
) -> Result<(), NoMemory>
    requires { IsSummary summary.now }
    ensures { OnOk result (writer.new ≡ writer.old ++ summary_bytes wide flag summary.now) }
{
    let entries = summary.entries();
    writer.put_u8(summary.page)?;
    writer.put_u8(flag_number(flag))?;
    writer.put_u8(entries.len() as u8)?;
    for entry in entries {
        put_entry(writer, wide, entry)?;
    }
    Ok(())
}

fn put_records(bytes: &mut Vec<u8>, records: &[Record]) -> Result<(), NoMemory>
    requires { All IsWritableRecord records.now }
    ensures { OnOk result (bytes.new.items ≡ bytes.old.items ++ flat_map record_bytes records.now) }
{
    for rec in records {
        write_record(rec, bytes)?;
    }
    Ok(())
}

/// The bytes of a datagram, put one field after the other.
#[tactic(auto, unfolding(crate::specs::Spelling::records_bytes))]
fn datagram_bytes(datagram: &Datagram, mut writer: Writer) -> Result<Vec<u8>, NoMemory>
    requires content { HasContent datagram.now }
    requires empty { writer ≡ [] }
    ensures { IfOk result (λ bytes. bytes.items ≡ datagram_bytes datagram.now) }
{
    match datagram {
        Datagram::Ping { from, nonce } => probe(1, *from, *nonce, writer),
        Datagram::Pong { from, nonce } => probe(2, *from, *nonce, writer),
        Datagram::Summary {
            from,
            flag,
            summary,
        } => {
            let wide = needs_eight(summary);
            writer.put_bytes(&head(summary_kind(wide), *from))?;
            put_summary(&mut writer, wide, *flag, summary)?;
            Ok(writer.finish())
        }
        Datagram::Records { from, records } => {
            let records = records.as_slice();
            writer.put_bytes(&records_head(*from, records.len() as u16))?;
            let mut bytes = writer.finish();
            put_records(&mut bytes, records)?;
            Ok(bytes)
        }
    }
}

/// The datagram's one spelling, of at most 32,768 bytes, in memory of its own.
pub fn bytes_of(alloc: Global, datagram: &Datagram) -> Result<Vec<u8>, NoMemory>
    requires { IsWritable datagram.now }
    ensures { IfOk result (λ bytes. bytes.items ≡ datagram_bytes datagram.now) }
{
    datagram_bytes(datagram, Writer::new(alloc))
}

/// Appends the datagram's one spelling, of at most 32,768 bytes. Where memory is refused, `out` is as it was.
pub fn write(datagram: &Datagram, out: &mut Vec<u8>) -> Result<(), NoMemory>
    requires { IsWritable datagram.now }
    ensures ok { OnOk result (out.new.items ≡ out.old.items ++ datagram_bytes datagram.now) }
    ensures refused { OnErr result (out.new.items ≡ out.old.items) }
{
    let bytes = bytes_of(*out.allocator(), datagram)?;
    out.extend_from_slice(bytes.as_slice())?;
    Ok(())
}
