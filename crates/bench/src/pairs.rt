//! Keys of two levels, beside as many plain calls of SHA-256 as they have compressions: making one, signing over the border
//! of a bottom tree and within one, and verifying. Times are of the processor, since a machine may be busy, and medians
//! of nine rounds.

ghost use Rattle.std.specs.Prelude.{◌≡◌, ◌+◌, ◌≤◌, true, IfOk, length};
ghost use Rattle.lms_tree.specs.Kinds.{height};
ghost use Rattle.hss.specs.Keys.{is_in_profile};
ghost use Rattle.hss.specs.Pairs.{signature_length};

use crate::timing::{plain_calls_used, thousandths, used};
use hss::{Pair, verify};
use lms_cost::{PairCost, making, pair_cost};
use lms_ots::OtsKind;
use lms_tree::TreeKind;
use std::alloc::Global;
use std::io;
use std::time::CpuClock;

const ID: [u8; 16] = [7; 16];

const SEED: [u8; 32] = [9; 32];

const MESSAGE: [u8; 64] = [3; 64];

const ROUNDS: usize = 9;

/// How many bottom trees a round signs with. The first is made with the key.
const TREES: u32 = 4;

const TASKS: [&str; 4] = ["make", "sign over a border", "sign", "verify"];

const NONE: Work = Work {
    calls: 0,
    compressions: 0,
    used: 0,
    plain: 0,
};

/// The kinds of a pair.
#[derive(Clone, Copy)]
struct Kinds {
    top: TreeKind,
    bottom: TreeKind,
    ots: OtsKind,
}

/// Some calls: their compressions by the definition, the time that they took, and the time of as many plain calls.
#[derive(Clone, Copy)]
struct Work {
    calls: u32,
    compressions: u64,
    used: u64,
    plain: u64,
}

impl Work {
    fn add(&mut self, compressions: u64, used: u64) {
        self.calls = self.calls.saturating_add(1);
        self.compressions = self.compressions.saturating_add(compressions);
        self.used = self.used.saturating_add(used);
    }

    /// The same, with the time of as many plain calls.
    fn beside_plain(self, clock: &impl CpuClock) -> io::Result<Work> {
        Ok(Work {
            plain: plain_calls_used(clock, self.compressions)?,
            ..self
        })
    }
}

fn out_of_memory() -> io::Error {
    io::Error::from(io::ErrorKind::OutOfMemory)
}

/// A pair with the bottom tree of its first index.
fn make(alloc: Global, kinds: Kinds) -> io::Result<Pair>
    requires fits { height kinds.top + height kinds.bottom ≤ 15 }
    requires profile { is_in_profile kinds.ots ≡ true }
{
    let made = Pair::make(alloc, kinds.top, kinds.bottom, kinds.ots, ID, SEED);
    let mut pair = made.or(Err(out_of_memory()))?;
    pair.prepare(alloc).or(Err(out_of_memory()))?;
    Ok(pair)
}

/// Signs with the next index, and makes its bottom tree first where that is due.
fn sign(alloc: Global, pair: &mut Pair, signature: &mut [u8]) -> io::Result<()>
    requires long { length signature.old ≡ signature_length pair.old.key }
    ensures { pair.new.key ≡ pair.old.key }
{
    pair.prepare(alloc).or(Err(out_of_memory()))?;
    if let Some(leaf) = pair.take() {
        pair.sign(leaf, &MESSAGE, signature);
    }
    Ok(())
}

/// What the signature costs.
fn cost_of(kinds: Kinds, signature: &[u8]) -> PairCost {
    pair_cost(kinds.top, kinds.bottom, kinds.ots, &ID, &MESSAGE, signature)
}

/// Signs with each index that is left of some bottom trees, over borders and within trees, and verifies each signature.
fn sign_and_verify(
    clock: &impl CpuClock,
    alloc: Global,
    kinds: Kinds,
    pair: &mut Pair,
    signature: &mut [u8],
) -> io::Result<[Work; 3]>
    requires long { length signature.old ≡ signature_length pair.old.key }
{
    let public = pair.public();
    let leaves = kinds.bottom.leaf_count();
    let (mut over, mut within, mut verifying) = (NONE, NONE, NONE);
    'indexes: for index in 1..TREES * leaves {
        let start = used(clock)?;
        sign(alloc, pair, signature)?;
        let signed = used(clock)?;
        let good = verify(&public, &MESSAGE, signature).is_ok();
        let verified = used(clock)?;
        let cost = cost_of(kinds, signature);
        if index % leaves == 0 {
            over.add(
                cost.bottom.saturating_add(cost.signing),
                signed.saturating_sub(start),
            );
        } else {
            within.add(cost.signing, signed.saturating_sub(start));
        }
        // A signature that is not good would cost nothing.
        verifying.add(
            if good { cost.verifying } else { 0 },
            verified.saturating_sub(signed),
        );
    }
    Ok([over, within, verifying])
}

/// Makes a key, and then signs and verifies.
fn one_round(clock: &impl CpuClock, alloc: Global, kinds: Kinds) -> io::Result<[Work; 4]>
    requires fits { height kinds.top + height kinds.bottom ≤ 15 }
    requires profile { is_in_profile kinds.ots ≡ true }
{
    let start = used(clock)?;
    let mut pair = make(alloc, kinds)?;
    let made = used(clock)?.saturating_sub(start);
    let mut signature = vec![in alloc; 0u8; pair.signature_length()]?;
    sign(alloc, &mut pair, &mut signature)?;
    let first = cost_of(kinds, &signature);
    let mut makes = NONE;
    makes.add(
        making(kinds.top, kinds.ots).saturating_add(first.bottom),
        made,
    );
    let [over, within, verifying] = sign_and_verify(
        clock,
        alloc,
        kinds,
        &mut pair,
        &mut signature,
    )?;
    Ok([
        makes.beside_plain(clock)?,
        over.beside_plain(clock)?,
        within.beside_plain(clock)?,
        verifying.beside_plain(clock)?,
    ])
}

/// The value in the middle.
fn median(mut values: [u64; ROUNDS]) -> u64 {
    values.sort_unstable();
    values[ROUNDS / 2]
}

/// Prints a line for each task, in nine rounds.
fn print_pair(rt: &HostRuntime, name: &str, kinds: Kinds) -> io::Result<()>
    requires fits { height kinds.top + height kinds.bottom ≤ 15 }
    requires profile { is_in_profile kinds.ots ≡ true }
{
    let mut tasks = [[NONE; ROUNDS]; 4];
    for round in 0..ROUNDS {
        let found = one_round(rt, rt.alloc(), kinds)?;
        for (works, work) in tasks.iter_mut().zip(found) {
            works[round] = work;
        }
    }
    for (task, works) in TASKS.iter().zip(tasks) {
        let Work {
            calls,
            compressions,
            ..
        } = works[0];
        let used = median(works.map(|work| work.used));
        let plain = median(works.map(|work| work.plain));
        let middle = median(works.map(|work| thousandths(work.used, work.plain)));
        let (ones, rest) = (middle / 1000, middle % 1000);
        println!(rt;
            "{task} {name}, {calls} times: {compressions} compressions, {used} ns, plain {plain} ns, ratio {ones}.{rest:03}"
        )?;
    }
    Ok(())
}

/// Prints the times of two kinds of pairs.
pub fn print(rt: &HostRuntime) -> io::Result<()> {
    let greatest = Kinds {
        top: TreeKind::H10,
        bottom: TreeKind::H5,
        ots: OtsKind::W4,
    };
    print_pair(rt, "W4 H10 H5", greatest)?;
    let wide = Kinds {
        top: TreeKind::H5,
        bottom: TreeKind::H5,
        ots: OtsKind::W8,
    };
    print_pair(rt, "W8 H5 H5", wide)
}
