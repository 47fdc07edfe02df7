//! A node among 10, 100 and 1,000 members: deliveries of notes, and ticks.

mod scene;

use crate::timing::{plain_calls, ratio, since};
use ff_ids::NoteBody;
use lms_cost::signing_and_verifying;
use records::{Body, signed_bytes};
use scene::{GROUP, Scene, failed, note};
use std::alloc::Global;
use std::io;
use std::time::{Clock, Instant};

/// How many deliveries are timed at once.
const DELIVERIES: u32 = 200;

/// How many due ticks are timed, and how many notes that are accepted.
const ROUNDS: u64 = 10;

/// The least nanoseconds of a delivery of a note that is known, of one that is older and of one that is accepted, with
/// the compressions of the last and the time of as many plain calls; and of a tick that isn't due and of one that is.
#[derive(Clone, Copy)]
struct Times {
    known: u64,
    older: u64,
    accepted: u64,
    compressions: u64,
    plain: u64,
    waiting: u64,
    due: u64,
}

/// The time of a delivery of these bytes, of many.
fn deliveries(
    clock: &impl Clock,
    alloc: Global,
    scene: &mut Scene,
    bytes: &[u8],
) -> io::Result<u64> {
    let start = Instant::now(clock)?;
    for _ in 0..DELIVERIES {
        scene.deliver(alloc, bytes)?;
    }
    Ok(since(clock, &start)? / u64::from(DELIVERIES))
}

/// The compressions of the signature in the datagram with this note alone.
fn compressions_of(scene: &Scene, note: NoteBody, bytes: &[u8]) -> u64 {
    let body = Body::Note(note);
    let message = signed_bytes(&GROUP, &body);
    let signature = bytes.get(25..).unwrap_or(&[]);
    let Some(key) = scene.key.one_level() else {
        return 0;
    };
    signing_and_verifying(key.tree, key.ots, &key.id, message.as_slice(), signature).1
}

/// A note of this epoch is accepted: the time of its delivery, its bytes, and the compressions of its signature.
fn acceptance(
    clock: &impl Clock,
    alloc: Global,
    scene: &mut Scene,
    epoch: u64,
) -> io::Result<(u64, Vec<u8>, u64)> {
    let bytes = scene.sign(alloc, note(1, epoch))?;
    let compressions = compressions_of(scene, note(1, epoch), &bytes);
    let start = Instant::now(clock)?;
    scene.deliver(alloc, &bytes)?;
    let time = since(clock, &start)?;
    Ok((time, bytes, compressions))
}

/// Notes: the least times of some rounds.
fn notes(
    clock: &impl Clock,
    alloc: Global,
    scene: &mut Scene,
    times: &mut Times,
) -> io::Result<()> {
    let mut older = Vec::new(alloc);
    for epoch in 2..2 + ROUNDS {
        let (time, bytes, compressions) = acceptance(clock, alloc, scene, epoch)?;
        if time < times.accepted {
            times.accepted = time;
            times.compressions = compressions;
        }
        times.known = times.known.min(deliveries(clock, alloc, scene, &bytes)?);
        if !older.is_empty() {
            times.older = times.older.min(deliveries(clock, alloc, scene, &older)?);
        }
        older = bytes;
    }
    Ok(())
}

/// One tick.
fn tick(clock: &impl Clock, alloc: Global, scene: &mut Scene) -> io::Result<u64> {
    let start = Instant::now(clock)?;
    scene.player.tick(alloc).or(Err(failed()))?;
    since(clock, &start)
}

/// Ticks: the least times of some rounds of nine that aren't due and one that is.
fn ticks(
    clock: &impl Clock,
    alloc: Global,
    scene: &mut Scene,
    times: &mut Times,
) -> io::Result<()> {
    for _ in 0..ROUNDS {
        for _ in 0..9u8 {
            times.waiting = times.waiting.min(tick(clock, alloc, scene)?);
        }
        times.due = times.due.min(tick(clock, alloc, scene)?);
    }
    Ok(())
}

/// Notes, then ticks, then plain calls.
fn time_all(clock: &impl Clock, alloc: Global, scene: &mut Scene) -> io::Result<Times> {
    let mut times = Times {
        known: u64::MAX,
        older: u64::MAX,
        accepted: u64::MAX,
        compressions: 0,
        plain: 0,
        waiting: u64::MAX,
        due: u64::MAX,
    };
    notes(clock, alloc, scene, &mut times)?;
    ticks(clock, alloc, scene, &mut times)?;
    times.plain = plain_calls(clock, times.compressions)?;
    Ok(times)
}

/// The times of a node among so many members.
fn measure(clock: &impl Clock, alloc: Global, members: u16) -> io::Result<Times> {
    let mut scene = Scene::open(alloc, members)?;
    let times = time_all(clock, alloc, &mut scene);
    scene.end();
    times
}

/// Prints the times of a node among so many members.
fn print_among(rt: &HostRuntime, members: u16) -> io::Result<()> {
    let Times {
        known,
        older,
        accepted,
        compressions,
        plain,
        waiting,
        due,
    } = measure(rt, rt.alloc(), members)?;
    let (ones, rest) = ratio(accepted, plain);
    println!(rt;
        "{members} members: note known {known} ns, older {older} ns, 0 compressions each; accepted {accepted} ns, {compressions} compressions, plain {plain} ns, ratio {ones}.{rest:03}"
    )?;
    println!(rt; "{members} members: tick not due {waiting} ns, due {due} ns, 0 compressions each")
}

/// Prints the times of a node among few members and among many.
pub fn print(rt: &HostRuntime) -> io::Result<()> {
    for members in [10u16, 100, 1000] {
        print_among(rt, members)?;
    }
    Ok(())
}

/// Prints how many members the node sees, and waits for a line.
fn wait(rt: &HostRuntime, scene: &Scene) -> io::Result<()> {
    println!(rt; "{}", scene.members_in_view())?;
    let mut line = String::new(rt.alloc());
    rt.stdin().read_line(&mut line)?;
    Ok(())
}

/// Keeps a node among 1,000 members until a line comes, so that its memory can be read.
pub fn hold(rt: &HostRuntime) -> io::Result<()> {
    let scene = Scene::open(rt.alloc(), 1000)?;
    let held = wait(rt, &scene);
    scene.end();
    held
}
