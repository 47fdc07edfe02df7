//! Signing through a signer over a disk in memory, beside the tree's signing alone, of the same body by the same leaves.

ghost use Rattle.std.specs.Prelude.{◌≡◌, ◌≤◌, IfOk, length, false};
ghost use Rattle.lms_tree.specs.Kinds.{signature_length, leaf_count};

use crate::timing::{ratio, since};
use epoch_store::{Store, make};
use ff_ids::{AccBody, Epoch, Group, Mask, MemberId, RingNo};
use lms_ots::OtsKind;
use lms_tree::{Leaves, SecretKey, Tree, TreeKind};
use ports::MemoryDisk;
use records::{Body, signed_bytes};
use sign_keys::SignKey;
use signer::Signer;
use std::alloc::Global;
use std::io;
use std::time::{Clock, Instant};

const TREE: TreeKind = TreeKind::H10;

const OTS: OtsKind = OtsKind::W4;

const LEAVES: u32 = 1024;

const ROUNDS: u32 = 7;

const NAME: &str = "store";

const TAG: [u8; 32] = [5; 32];

/// The nanoseconds of signing with each leaf of a key: through a signer, and by its tree alone.
#[derive(Clone, Copy)]
struct Work {
    signer: u64,
    tree: u64,
}

fn failed() -> io::Error {
    io::Error::from(io::ErrorKind::OutOfMemory)
}

fn group() -> Group {
    Group {
        tag: [0; 16],
        t: 1,
        timeout: 3,
        period: 1,
        misses: 2,
    }
}

fn accusation() -> AccBody {
    AccBody {
        accuser: MemberId::new(1),
        accused: MemberId::new(2),
        epoch: Epoch::new(1),
        ring: RingNo(0),
    }
}

/// The key that is timed, with no leaf spent.
fn key(alloc: Global) -> io::Result<SecretKey> {
    SecretKey::make(alloc, TREE, OTS, [7; 16], [9; 32]).or(Err(failed()))
}

/// Signs the message with each leaf that is left.
fn sign_by_tree(tree: &Tree, leaves: &mut Leaves, message: &[u8], signature: &mut [u8])
    requires key { leaves.old.key ≡ tree.now }
    requires long { length signature.old ≡ signature_length tree.now.tree tree.now.ots }
{
    'leaves: for _ in 0..LEAVES {
        if let Some(leaf) = leaves.take() {
            tree.sign(leaf, message, signature);
        }
    }
}

/// The time of signing with each leaf by the tree alone.
#[tactic(auto, unfolding(lms_tree::specs::Lms::public_of))]
fn time_tree(clock: &impl Clock, alloc: Global) -> io::Result<u64> {
    let (tree, mut leaves) = key(alloc)?.split();
    let message = signed_bytes(&group(), &Body::Accusation(accusation()));
    let public = tree.public();
    let length = 8 + public.ots.signature_length() + 32 * public.tree.height();
    let mut signature = vec![in alloc; 0u8; length]?;
    let start = Instant::now(clock)?;
    sign_by_tree(
        &tree,
        &mut leaves,
        message.as_slice(),
        signature.as_mut_slice(),
    );
    since(clock, &start)
}

/// Signs with each leaf through the signer.
fn sign_by_signer(alloc: Global, signer: &mut Signer, disk: &mut MemoryDisk) -> io::Result<()> {
    for _ in 0..LEAVES {
        if signer.sign_accusation(alloc, disk, accusation()).is_err() {
            return Err(failed());
        }
    }
    Ok(())
}

/// A signer over a store that is made in the file of the disk.
fn open_signer(alloc: Global, disk: &mut MemoryDisk) -> io::Result<Signer> {
    make(disk, NAME, &TAG, Mask(7)).or(Err(failed()))?;
    let Ok(store) = Store::open(disk, NAME, &TAG) else {
        return Err(failed());
    };
    let (tree, leaves) = key(alloc)?.split();
    if store.state().next > 0 {
        return Err(failed());
    }
    Ok(Signer::open(group(), SignKey::Lms(tree, leaves), store))
}

/// The time of signing with each leaf through a signer.
fn time_signer(clock: &impl Clock, alloc: Global) -> io::Result<u64> {
    let mut disk = MemoryDisk::new(alloc, 20_000, 5_000, Vec::new(alloc)).or(Err(failed()))?;
    let mut signer = open_signer(alloc, &mut disk)?;
    let start = Instant::now(clock)?;
    sign_by_signer(alloc, &mut signer, &mut disk)?;
    since(clock, &start)
}

/// The least times of seven rounds.
fn measure(clock: &impl Clock, alloc: Global) -> io::Result<Work> {
    let mut least = Work {
        signer: u64::MAX,
        tree: u64::MAX,
    };
    for _ in 0..ROUNDS {
        least.tree = least.tree.min(time_tree(clock, alloc)?);
        least.signer = least.signer.min(time_signer(clock, alloc)?);
    }
    Ok(least)
}

/// Prints the times.
pub fn print(rt: &HostRuntime) -> io::Result<()> {
    let Work { signer, tree } = measure(rt, rt.alloc())?;
    let (ones, rest) = ratio(signer, tree);
    println!(rt;
        "sign W4 H10, 1024 times: through a signer {signer} ns, by the tree alone {tree} ns, ratio {ones}.{rest:03}"
    )
}
