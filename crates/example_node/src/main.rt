//! Floor: checks. A first reading for an application's author: three members in one process, over disks and a network
//! of the application's own. They find each other; one stops, and the others remove it; it comes back over the store
//! that it left. `docs/APPLICATIONS.md` goes with it, and nothing stands on it.
#![tactic(auto)]

mod certificates;
mod keys;
mod member;
mod network;
mod report;

use anyhow::Result;
use certificates::Directory;
use ff_ids::MemberId;
use member::{Member, enroll};
use network::Network;
use ports::MemoryDisk;
use report::{print_changes, print_monitors, print_views};

/// Rounds in which a member is found, or found silent and removed.
const ROUNDS: u8 = 8;

fn pass_time(rt: &HostRuntime, network: &mut Network) -> Result<()> {
    for _ in 0..ROUNDS {
        network.round(rt)?;
    }
    print_views(rt, network.members())
}

/// The member starts, over the store on its disk.
fn start(
    rt: &HostRuntime,
    network: &mut Network,
    number: MemberId,
    directory: &Directory,
    disk: MemoryDisk,
) -> Result<()> {
    let (member, answer) = Member::start(rt.alloc(), number, directory, disk)?;
    print_changes(rt, member.number(), &answer.events)?;
    network.join(member)
}

/// What happens, from the keys to the return of the third.
fn play(rt: &HostRuntime, network: &mut Network) -> Result<()> {
    let (one, two, three) = (MemberId::new(1), MemberId::new(2), MemberId::new(3));
    // Once, before any member runs: each makes a key with its store, and the authority certifies the keys.
    let (first, first_disk) = enroll(rt.alloc(), one)?;
    let (second, second_disk) = enroll(rt.alloc(), two)?;
    let (third, third_disk) = enroll(rt.alloc(), three)?;
    let keys = [(one, first), (two, second), (three, third)];
    let directory = Directory::make(rt.alloc(), &keys)?;

    println!(rt; "1, 2 and 3 start, each alone in its view")?;
    start(rt, network, one, &directory, first_disk)?;
    start(rt, network, two, &directory, second_disk)?;
    start(rt, network, three, &directory, third_disk)?;
    pass_time(rt, network)?;
    if let Some(member) = network.members().first() {
        print_monitors(rt, member.membership())?;
    }

    println!(rt; "3 stops, without a word")?;
    let Some(left) = network.stop_last() else {
        return Ok(());
    };
    pass_time(rt, network)?;

    println!(rt; "3 starts again, over the store that it left")?;
    start(rt, network, three, &directory, left)?;
    pass_time(rt, network)
}

fn main(rt: HostRuntime) -> Result<()> {
    let mut network = Network::new(rt.alloc());
    let played = play(&rt, &mut network);
    network.end();
    played
}
