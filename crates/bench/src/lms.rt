//! Keys, signatures and verifications, beside as many plain calls of SHA-256 as they have compressions.

ghost use Rattle.std.specs.Prelude.{◌≡◌, ◌+◌, ◌*◌, length};
ghost use Rattle.lms_tree.specs.Kinds.{signature_length};

use crate::timing::{plain_calls, ratio, since};
use lms_cost::{making, signing_and_verifying};
use lms_ots::OtsKind;
use lms_tree::{Leaves, SecretKey, Tree, TreeKind, verify};
use std::alloc::Global;
use std::io;
use std::time::{Clock, Instant};

const ID: [u8; 16] = [7; 16];

const SEED: [u8; 32] = [9; 32];

const MESSAGE: [u8; 64] = [3; 64];

const ROUNDS: u32 = 7;

const NONE: Work = Work {
    compressions: 0,
    nanoseconds: 0,
    plain: 0,
};

/// Some work: its compressions by the definition, the time that it took, and the time of as many plain calls.
#[derive(Clone, Copy)]
struct Work {
    compressions: u64,
    nanoseconds: u64,
    plain: u64,
}

impl Work {
    fn add(&mut self, compressions: u64, nanoseconds: u64) {
        self.compressions = self.compressions.saturating_add(compressions);
        self.nanoseconds = self.nanoseconds.saturating_add(nanoseconds);
    }

    /// The same, with the time of as many plain calls.
    fn beside_plain(self, clock: &impl Clock) -> io::Result<Work> {
        Ok(Work {
            plain: plain_calls(clock, self.compressions)?,
            ..self
        })
    }

    /// The least times of two rounds.
    fn least(self, other: Work) -> Work {
        Work {
            compressions: self.compressions,
            nanoseconds: self.nanoseconds.min(other.nanoseconds),
            plain: self.plain.min(other.plain),
        }
    }
}

/// Signs with the next leaf, if one is left.
fn sign(tree: &Tree, leaves: &mut Leaves, signature: &mut [u8])
    requires key { leaves.old.key ≡ tree.now }
    requires long { length signature.old ≡ signature_length tree.now.tree tree.now.ots }
    ensures { leaves.new.key ≡ leaves.old.key }
{
    if let Some(leaf) = leaves.take() {
        tree.sign(leaf, &MESSAGE, signature);
    }
}

/// Signs with each leaf, and verifies each signature.
fn sign_and_verify(
    clock: &impl Clock,
    tree: &Tree,
    leaves: &mut Leaves,
    signature: &mut [u8],
) -> io::Result<[Work; 2]>
    requires key { leaves.old.key ≡ tree.now }
    requires long { length signature.old ≡ signature_length tree.now.tree tree.now.ots }
{
    let public = tree.public();
    let (mut signing, mut verifying) = (NONE, NONE);
    'leaves: for _ in 0..public.tree.leaf_count() {
        let start = Instant::now(clock)?;
        sign(tree, leaves, signature);
        let signed = since(clock, &start)?;
        let start = Instant::now(clock)?;
        let good = verify(&public, &MESSAGE, signature).is_ok();
        let verified = since(clock, &start)?;
        let counted = signing_and_verifying(public.tree, public.ots, &ID, &MESSAGE, signature);
        signing.add(counted.0, signed);
        // A signature that is not good would cost nothing.
        verifying.add(if good { counted.1 } else { 0 }, verified);
    }
    Ok([signing, verifying])
}

/// Makes a key, and then signs with each leaf and verifies each signature.
fn one_round(
    clock: &impl Clock,
    alloc: Global,
    tree: TreeKind,
    ots: OtsKind,
) -> io::Result<[Work; 3]> {
    let start = Instant::now(clock)?;
    let Ok(key) = SecretKey::make(alloc, tree, ots, ID, SEED) else {
        return Err(io::Error::from(io::ErrorKind::OutOfMemory));
    };
    let making = Work {
        compressions: making(tree, ots),
        nanoseconds: since(clock, &start)?,
        plain: 0,
    };
    let length = 8 + ots.signature_length() + 32 * tree.height();
    let (signer, mut leaves) = key.split();
    let mut signature = vec![in alloc; 0u8; length]?;
    let [signing, verifying] = sign_and_verify(
        clock,
        &signer,
        &mut leaves,
        signature.as_mut_slice(),
    )?;
    Ok([
        making.beside_plain(clock)?,
        signing.beside_plain(clock)?,
        verifying.beside_plain(clock)?,
    ])
}

/// The least times of seven rounds: of making a key, of signing with each leaf, and of verifying.
fn measure(
    clock: &impl Clock,
    alloc: Global,
    tree: TreeKind,
    ots: OtsKind,
) -> io::Result<[Work; 3]> {
    let [mut making, mut signing, mut verifying] = one_round(clock, alloc, tree, ots)?;
    for _ in 1..ROUNDS {
        let [made, signed, verified] = one_round(clock, alloc, tree, ots)?;
        making = making.least(made);
        signing = signing.least(signed);
        verifying = verifying.least(verified);
    }
    Ok([making, signing, verifying])
}

/// Prints a line for each of the three, of two kinds of keys.
pub fn print(rt: &HostRuntime) -> io::Result<()> {
    for (name, tree, ots) in [
        ("W4 H10", TreeKind::H10, OtsKind::W4),
        ("W8 H5", TreeKind::H5, OtsKind::W8),
    ] {
        let [making, signing, verifying] = measure(rt, rt.alloc(), tree, ots)?;
        for (task, work) in [("make", making), ("sign", signing), ("verify", verifying)] {
            let Work {
                compressions,
                nanoseconds,
                plain,
            } = work;
            let (ones, rest) = ratio(nanoseconds, plain);
            println!(rt;
                "{task} {name}: {compressions} compressions, {nanoseconds} ns, plain {plain} ns, ratio {ones}.{rest:03}"
            )?;
        }
    }
    Ok(())
}
