//! What a node must have reported: its events, but for its own signatures and its nonces.

ghost use Rattle.std.specs.Prelude.{◌≡◌, IfOk};

use ff_ids::MemberId;
use fields::{Bytes, NoMemory};
use journal::What;
use records::{Body, Record};
use std::alloc::Global;

/// A record of a datagram.
#[derive(Drop)]
pub enum Item {
    /// It came, and is as it was.
    Came(Record),
    /// The node's own, signed with this index.
    Own { index: u32, body: Body },
}

/// What the node must have reported. A `number` is that of the datagram among those of the call, from 0.
#[derive(Drop)]
pub enum Owed {
    /// This, exactly.
    What(What),
    /// That a ping went to the member: with this nonce, if the node's nonces come from the mirror's source.
    Ping {
        number: u64,
        to: MemberId,
        nonce: u64,
    },
    /// That these records went to the member in one datagram.
    Records {
        number: u64,
        to: MemberId,
        items: Vec<Item>,
    },
}

/// An event of the node's, at this tick.
#[derive(Drop)]
pub struct OwedEvent {
    pub moment: u64,
    pub owed: Owed,
}

/// A copy of the record.
pub(crate) fn copy_record(alloc: Global, rec: &Record) -> Result<Record, NoMemory>
    ensures { IfOk result (λ r. r ≡ rec.now) }
{
    let signature = Vec::from_slice(alloc, rec.signature.as_slice())?;
    Ok(Record {
        body: rec.body,
        signature: Bytes::from_vec(signature),
    })
}

/// A copy of the record.
pub(crate) fn copy_item(alloc: Global, item: &Item) -> Result<Item, NoMemory>
    ensures { IfOk result (λ x. x ≡ item.now) }
{
    match item {
        Item::Came(rec) => Ok(Item::Came(copy_record(alloc, rec)?)),
        Item::Own { index, body } => Ok(Item::Own {
            index: *index,
            body: *body,
        }),
    }
}

/// A copy of the records.
pub(crate) fn copy_items(alloc: Global, items: &[Item]) -> Result<Vec<Item>, NoMemory>
    ensures { IfOk result (λ xs. xs.items ≡ items.now) }
{
    let mut copied = Vec::new(alloc);
    for item in items {
        copied.push(copy_item(alloc, item)?)?;
    }
    Ok(copied)
}
