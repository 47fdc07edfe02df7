//! Pages as datagrams, and what the other side of an exchange lacks.

ghost use Rattle.std.specs.Prelude.{◌≡◌, ◌<◌, All, IfOk, IsSome};
ghost use Rattle.ff_ids.specs.declared.TheConstants.{PAGES};
ghost use Rattle.datagram.specs.declared.Datagram.TheVariants as kinds;
ghost use Rattle.datagram.specs.Spelling.{datagram_bytes};
ghost use Rattle.record_set.specs.Held.{held_under};
ghost use Rattle.record_set.specs.Pages.{summary_of, AreNoted};
ghost use Rattle.record_set.specs.Picks.{held_all};
ghost use Rattle.node_core.specs.Exchanging.{IsGivenOf, IsLacking};

use crate::hearing::bytes_of;
use datagram::{Datagram, records_head};
use ff_ids::{MemberId, RecordKey, Summary};
use fields::NoMemory;
use gossip::lacks;
use record_set::RecordSet;
use std::alloc::Global;

/// How many bytes the records of a datagram have at most.
const ROOM: usize = 32760;

/// The bytes of the summary of the page.
pub(crate) fn page_bytes(
    alloc: Global,
    records: &RecordSet,
    from: MemberId,
    flag: bool,
    page: u8,
) -> Result<Vec<u8>, NoMemory>
    requires page { page < PAGES }
    requires noted { AreNoted records.now }
    ensures { IfOk result
        (λ bytes. bytes.items
        ≡ datagram_bytes (kinds.Summary from flag (summary_of records.now page))) }
{
    let mut summary = Summary::new();
    records.page(page, &mut summary);
    bytes_of(
        alloc,
        &Datagram::Summary {
            from,
            flag,
            summary,
        },
    )
}

/// Those of the keys under which a record is held, in their order.
fn held_keys(
    alloc: Global,
    records: &RecordSet,
    keys: &[RecordKey],
) -> Result<Vec<RecordKey>, NoMemory>
    ensures all { IfOk result (λ held. All (λ k. IsSome (held_under records.now k)) held.items) }
    ensures same { IfOk result
        (λ held. held_all records.now held.items ≡ held_all records.now keys.now) }
{
    let mut held = Vec::new(alloc);
    for key in keys {
        if records.contains(key) {
            held.push(*key)?;
        }
    }
    Ok(held)
}

/// The bytes of the datagram with the records that are held under these keys, in their order, as many as fit; none where
/// there are none.
pub(crate) fn given_bytes(
    alloc: Global,
    records: &RecordSet,
    from: MemberId,
    keys: &[RecordKey],
) -> Result<Option<Vec<u8>>, NoMemory>
    ensures { IfOk result (λ bytes. IsGivenOf from records.now keys.now bytes) }
{
    let held = held_keys(alloc, records, keys)?;
    let mut picked = Vec::new(alloc);
    let count = records.pick(&held, ROOM, &mut picked)?;
    if count == 0 {
        return Ok(None);
    }
    let mut bytes = Vec::new(alloc);
    bytes.extend_from_slice(&records_head(from, count as u16))?;
    bytes.extend_from_slice(&picked)?;
    Ok(Some(bytes))
}

/// The bytes of the datagram with what the member `to` lacks by its summary, and last that by which it was removed, as much as
/// fits; none where that is nothing.
pub(crate) fn lacking_bytes(
    alloc: Global,
    records: &RecordSet,
    from: MemberId,
    to: MemberId,
    theirs: &Summary,
) -> Result<Option<Vec<u8>>, NoMemory>
    ensures { IfOk result (λ bytes. IsLacking from records.now to theirs.now bytes) }
{
    let mut mine = Summary::new();
    records.page(theirs.page, &mut mine);
    let mut keys = Vec::new(alloc);
    lacks(&mine, theirs, &mut keys)?;
    keys.push(RecordKey::Removal(to))?;
    given_bytes(alloc, records, from, &keys)
}
