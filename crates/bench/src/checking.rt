//! Checks of records, beside the work that they can't do without.

mod scene;

ghost use Rattle.std.specs.Prelude.{◌≡◌};

use crate::timing::{ratio, since};
use ff_ids::MemberId;
use fields::Bytes;
use lms_tree::verify;
use records::{Body, Record, signed_bytes};
use scene::{GROUP, Scene, note};
use std::alloc::{AllocError, Global};
use std::io;
use std::time::{Clock, Instant};
use validate::check;

const ROUNDS: u32 = 200;

/// How many calls are timed at once that take some nanoseconds each.
const CALLS: u32 = 200;

/// The time since then for each of so many calls, in nanoseconds.
fn for_each(clock: &impl Clock, start: &Instant, calls: u32) -> io::Result<u64> {
    Ok(since(clock, start)? / u64::from(calls.max(1)))
}

/// So many signatures, each in its own memory.
fn copies(alloc: Global, signature: &[u8], count: u32) -> Result<Vec<Vec<u8>>, AllocError> {
    let mut copies = Vec::new(alloc);
    for _ in 0..count {
        copies.push(Vec::from_slice(alloc, signature)?)?;
    }
    Ok(copies)
}

/// The time of a check of the note of this epoch, of so many, which answers Ok where `is_good`.
fn checks(
    clock: &impl Clock,
    alloc: Global,
    scene: &Scene,
    epoch: u8,
    calls: u32,
    is_good: bool,
) -> io::Result<u64>
    requires { scene.now.life.group ≡ GROUP }
{
    let signatures = copies(alloc, &scene.signature, calls)?;
    let own = MemberId::new(0);
    let mut others = 0u32;
    let start = Instant::now(clock)?;
    for signature in signatures {
        let rec = Record {
            body: Body::Note(note(epoch)),
            signature: Bytes::from_vec(signature),
        };
        let answer = check(&GROUP, &scene.key, &scene.roster, &scene.life, own, rec);
        if answer.is_ok() != is_good {
            others = others.saturating_add(1);
        }
    }
    let time = for_each(clock, &start, calls)?;
    if others > 0 {
        return Err(io::Error::from(io::ErrorKind::InvalidData));
    }
    Ok(time)
}

/// The time of verifying the note's signature over the bytes that were signed.
fn verification(clock: &impl Clock, scene: &Scene) -> io::Result<u64> {
    let signed = signed_bytes(&GROUP, &Body::Note(note(2)));
    let start = Instant::now(clock)?;
    let answer = verify(&scene.key, signed.as_slice(), &scene.signature);
    let time = for_each(clock, &start, 1)?;
    if answer.is_err() {
        return Err(io::Error::from(io::ErrorKind::InvalidData));
    }
    Ok(time)
}

/// The time of comparing a signature with an equal one.
fn compares(clock: &impl Clock, alloc: Global, scene: &Scene) -> io::Result<u64> {
    let signatures = copies(alloc, &scene.signature, CALLS)?;
    let mut others = 0u32;
    let start = Instant::now(clock)?;
    for signature in signatures {
        if signature.as_slice() != scene.signature.as_slice() {
            others = others.saturating_add(1);
        }
    }
    let time = for_each(clock, &start, CALLS)?;
    if others > 0 {
        return Err(io::Error::from(io::ErrorKind::InvalidData));
    }
    Ok(time)
}

/// The least times of 200 rounds: of a check that answers Ok, of verifying alone, of a check of a note that is
/// known, and of a compare of as many bytes.
fn measure(clock: &impl Clock, alloc: Global) -> io::Result<[u64; 4]> {
    let scene = Scene::open(alloc)?;
    let mut least = [u64::MAX; 4];
    for _ in 0..ROUNDS {
        let round = [
            checks(clock, alloc, &scene, 2, 1, true)?,
            verification(clock, &scene)?,
            checks(clock, alloc, &scene, 1, CALLS, false)?,
            compares(clock, alloc, &scene)?,
        ];
        for (time, other) in least.iter_mut().zip(round) {
            *time = other.min(*time);
        }
    }
    Ok(least)
}

/// Prints the times.
pub fn print(rt: &HostRuntime) -> io::Result<()> {
    let [check, verify, refuse, compare] = measure(rt, rt.alloc())?;
    let (ones, rest) = ratio(check, verify);
    println!(rt; "check of a note: {check} ns, verify alone: {verify} ns, ratio {ones}.{rest:03}")?;
    println!(rt;
        "check of a note that is known: {refuse} ns, a compare of as many bytes: {compare} ns"
    )
}
