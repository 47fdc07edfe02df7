//! What an application asks of a member, in lines.

use crate::keys::GROUP;
use crate::member::Member;
use anyhow::Result;
use ff_ids::{MEMBERS, MemberId, RingNo};
use journal::What;
use membership::Membership;
use node_core::Events;

/// The changes of this member's view among the events of a call, as they came.
pub fn print_changes(rt: &HostRuntime, observer: MemberId, events: &Events) -> Result<()> {
    let observer = observer.get();
    for event in events.as_slice() {
        let moment = event.moment;
        match event.what {
            What::Entered(member) => {
                println!(rt; "    {observer}, at {moment}: {} entered", member.get())?;
            }
            What::Removed(member) => {
                println!(rt; "    {observer}, at {moment}: {} removed", member.get())?;
            }
            _ => {}
        }
    }
    Ok(())
}

/// Who is in the view of each member.
pub fn print_views(rt: &HostRuntime, members: &[Member]) -> Result<()> {
    for member in members {
        print!(rt; "view of {}:", member.number().get())?;
        print_view(rt, member.membership())?;
    }
    Ok(())
}

fn print_view(rt: &HostRuntime, membership: &Membership) -> Result<()> {
    for number in 0..MEMBERS {
        if membership.in_view(MemberId::new(number)) {
            print!(rt; " {number}")?;
        }
    }
    println!(rt; "")?;
    Ok(())
}

/// Who monitors whom on each ring, in the view of this member.
pub fn print_monitors(rt: &HostRuntime, membership: &Membership) -> Result<()> {
    for ring in 0..2 * GROUP.t + 1 {
        print!(rt; "ring {ring}:")?;
        for number in 0..MEMBERS {
            print_monitor(rt, membership, RingNo(ring), MemberId::new(number))?;
        }
        println!(rt; "")?;
    }
    Ok(())
}

/// The monitor of a member of the view, on a ring of the group. Who has no certificate has no place on it.
fn print_monitor(
    rt: &HostRuntime,
    membership: &Membership,
    ring: RingNo,
    member: MemberId,
) -> Result<()> {
    let rings = 2 * u16::from(membership.group().t) + 1;
    let asked = membership.in_view(member) && membership.is_member(member);
    if asked && u16::from(ring.0) < rings {
        if let Some(monitor) = membership.monitor(ring, member) {
            print!(rt; " {} monitors {};", monitor.get(), member.get())?;
        }
    }
    Ok(())
}
