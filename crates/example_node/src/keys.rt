//! The group, and keys with the stores that keep an index from signing twice.

ghost use Rattle.std.specs.Prelude.{◌≡◌, IfOk, false};
ghost use Rattle.secrets.specs.Secrets.{key_from};
ghost use Rattle.sign_keys.specs.Keys.{IsNew, public_key};
ghost use Rattle.example_node.specs.declared.keys.TheConstants.{GROUP, KINDS};

use anyhow::{Result, anyhow};
use epoch_store::{Store, make};
use ff_ids::{Group, Mask};
use lms_ots::OtsKind;
use lms_tree::TreeKind;
use ports::MemoryDisk;
use records::Key;
use secrets::{make_key, nonce_seed, store_tag};
use sign_keys::{Kinds, SignKey};
use signer::Signer;
use std::alloc::Global;

/// What all members agree on: one of a member's three monitors may lie, an accusation stands for 3 ticks before it
/// removes, each tick is due, and two pings in a row may go unanswered.
pub const GROUP: Group = Group {
    tag: *b"an example group",
    t: 1,
    timeout: 3,
    period: 1,
    misses: 2,
};

/// The kinds of each key: one tree of 32 one-time keys. With `bottom`, a key has two levels, and so many more indexes.
const KINDS: Kinds = Kinds {
    ots: OtsKind::W4,
    tree: TreeKind::H5,
    bottom: None,
};

/// The mask that enables all three rings.
const ALL_RINGS: Mask = Mask(7);

/// The name of a store's file.
const STORE: &str = "store";

/// An empty disk in memory. A real one is a file: `edges::FileDisk`, or one of the application's own.
pub fn new_disk(alloc: Global) -> Result<MemoryDisk> {
    MemoryDisk::new(alloc, 700, 200, Vec::new(alloc)).or(Err(anyhow!("no memory for a disk")))
}

/// The key of a secret: 32 indexes, each of which signs once. The same secret gives the same key at each start.
fn key_of(alloc: Global, secret: &[u8; 32]) -> Result<SignKey>
    ensures { IfOk result (λ key. IsNew key (key_from KINDS secret.now)) }
{
    make_key(alloc, KINDS, secret).or(Err(anyhow!("no memory for a key")))
}

/// Makes the store of a key that has never signed. Once for each secret, and never again.
pub fn make_store(alloc: Global, secret: &[u8; 32], disk: &mut MemoryDisk) -> Result<Key> {
    let key = key_of(alloc, secret)?;
    make(disk, STORE, &store_tag(&GROUP, &key), ALL_RINGS)?;
    Ok(key.public())
}

/// A key that signs over its store.
#[derive(Drop)]
pub struct Opened {
    pub signer: Signer,
    pub public: Key,
    pub nonce_seed: [u8; 32],
}

/// Opens the store: the key goes on at the first index that is not spent.
pub fn open(alloc: Global, secret: &[u8; 32], disk: &mut MemoryDisk) -> Result<Opened>
    ensures group { IfOk result (λ o. o.signer.group ≡ GROUP) }
    ensures key { IfOk result (λ o. o.public ≡ public_key o.signer.key) }
    ensures open { IfOk result (λ o. o.signer.closed ≡ false) }
{
    let key = key_of(alloc, secret)?;
    let public = key.public();
    let store = Store::open(disk, STORE, &store_tag(&GROUP, &key))?;
    let next = store.state().next;
    if next > key.index_count() {
        return Err(anyhow!("the store is of a longer key"));
    }
    Ok(Opened {
        signer: Signer::open(GROUP, key, store),
        public,
        nonce_seed: nonce_seed(secret, next),
    })
}
