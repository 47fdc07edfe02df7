//! Pages as datagrams, and what the other side of an exchange lacks.

ghost use Rattle.std.specs.Prelude.{◌≡◌, ◌<◌, All, IfOk, IsSome, IfSome, map};
ghost use Rattle.ff_ids.specs.declared.TheConstants.{PAGES};
ghost use Rattle.datagram.specs.declared.Datagram.TheVariants as kinds;
ghost use Rattle.datagram.specs.Spelling.{datagram_bytes};
ghost use Rattle.record_slots.specs.Held.{held_under};
ghost use Rattle.record_slots.specs.Pages.{summary_of, AreNoted};
ghost use Rattle.record_slots.specs.Picks.{held_all};
ghost use Rattle.audit_set.specs.Knowns.{body_of};
ghost use Rattle.audit_node.specs.Exchanging.{item_as, items_of, wanted};

use crate::hearing::bytes_of;
use crate::owing::{Item, copy_record};
use audit_set::{AuditSet, Known};
use datagram::Datagram;
use ff_ids::{MemberId, RecordKey, Summary};
use fields::NoMemory;
use gossip::lacks;
use std::alloc::Global;

/// How many bytes the records of a datagram have at most.
const ROOM: usize = 32760;

/// The bytes of the summary of the page.
pub(crate) fn page_bytes(
    alloc: Global,
    records: &AuditSet,
    from: MemberId,
    flag: bool,
    page: u8,
) -> Result<Vec<u8>, NoMemory>
    requires page { page < PAGES }
    requires noted { AreNoted body_of records.now }
    ensures { IfOk result
        (λ bytes. bytes.items
        ≡ datagram_bytes (kinds.Summary from flag (summary_of body_of records.now page))) }
{
    let mut summary = Summary::new();
    records.page(page, &mut summary);
    bytes_of(
        alloc,
        &Datagram::Summary {
            from,
            flag,
            summary,
        },
    )
}

/// Those of the keys under which a record is held, in their order.
fn held_keys(
    alloc: Global,
    records: &AuditSet,
    keys: &[RecordKey],
) -> Result<Vec<RecordKey>, NoMemory>
    ensures all { IfOk result (λ held. All (λ k. IsSome (held_under records.now k)) held.items) }
    ensures same { IfOk result
        (λ held. held_all records.now held.items ≡ held_all records.now keys.now) }
{
    let mut held = Vec::new(alloc);
    for key in keys {
        if records.contains(key) {
            held.push(*key)?;
        }
    }
    Ok(held)
}

/// What is known, as it is owed.
fn item_known(alloc: Global, known: &Known) -> Result<Item, NoMemory>
    ensures { IfOk result (λ x. x ≡ item_as known.now) }
{
    match known {
        Known::Came(rec) => Ok(Item::Came(copy_record(alloc, rec.rec())?)),
        Known::Own(own) => Ok(Item::Own {
            index: own.index,
            body: own.body,
        }),
    }
}

/// What is held under the keys, each of which has a record, as it is owed.
fn items_under(alloc: Global, records: &AuditSet, keys: &[RecordKey]) -> Result<Vec<Item>, NoMemory>
    ensures { IfOk result (λ xs. xs.items ≡ map item_as (held_all records.now keys.now)) }
{
    let mut items = Vec::new(alloc);
    for key in keys {
        if let Some(known) = records.get(key) {
            items.push(item_known(alloc, known)?)?;
        }
    }
    Ok(items)
}

/// The records that are held under these keys, in their order, as many as fit into a datagram.
pub(crate) fn given_items(
    alloc: Global,
    records: &AuditSet,
    keys: &[RecordKey],
) -> Result<Vec<Item>, NoMemory>
    ensures { IfOk result (λ xs. xs.items ≡ items_of records.now keys.now) }
{
    let held = held_keys(alloc, records, keys)?;
    let count = records.fitting(&held, ROOM);
    let mut items = items_under(alloc, records, &held)?;
    items.truncate(count);
    Ok(items)
}

/// What the member `to` lacks by its summary, and last that by which it was removed, as much as fits into a datagram.
pub(crate) fn lacking_items(
    alloc: Global,
    records: &AuditSet,
    to: MemberId,
    theirs: &Summary,
) -> Result<Vec<Item>, NoMemory>
    ensures { IfOk result
        (λ xs. xs.items ≡ items_of records.now (wanted records.now to theirs.now)) }
{
    let mut mine = Summary::new();
    records.page(theirs.page, &mut mine);
    let mut keys = Vec::new(alloc);
    lacks(&mine, theirs, &mut keys)?;
    keys.push(RecordKey::Removal(to))?;
    given_items(alloc, records, &keys)
}
