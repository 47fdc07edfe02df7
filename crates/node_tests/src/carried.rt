//! Nodes between which datagrams are carried by hand.

use crate::scene::{crew_of, member, start, teach};
use ff_ids::{MemberId, NoteBody};
use fixtures::{Crew, Player, Players};
use std::alloc::Global;
use std::process::Abort;
use std::test::Fail;

/// Datagrams on their way, each with its addressee.
type UnderWay = Vec<(MemberId, Vec<u8>)>;

/// What the node's last call sent is on its way.
fn collect(alloc: Global, node: &Player, under_way: &mut UnderWay) -> Result<(), Fail> {
    for (to, bytes) in node.sent() {
        let copy = bytes.as_slice().to_vec(alloc)?;
        under_way.push((*to, copy)).or(Err("memory"))?;
    }
    Ok(())
}

/// Hands the datagram to its addressee, if it is one of these nodes, members 1 and so on.
fn hand_over(
    alloc: Global,
    nodes: &mut Players,
    to: MemberId,
    bytes: &[u8],
    under_way: &mut UnderWay,
) -> Result<(), Fail> {
    let place = usize::from(to.get()).wrapping_sub(1);
    if let Some(node) = nodes.get(place) {
        node.deliver(alloc, bytes)?;
        collect(alloc, node, under_way)?;
    }
    Ok(())
}

/// Hands over each datagram that is on its way, and those that follow from it, up to 100.
fn flow(alloc: Global, nodes: &mut Players, under_way: &mut UnderWay) -> Result<(), Fail> {
    for _ in 0..100u8 {
        if under_way.is_empty() {
            return Ok(());
        }
        let (to, bytes) = under_way.remove(0);
        hand_over(alloc, nodes, to, &bytes, under_way)?;
    }
    Err("datagrams follow without end".into())
}

/// A tick of the node at this place, with all that follows from it.
fn turn(alloc: Global, nodes: &mut Players, place: usize) -> Result<(), Fail> {
    let mut under_way = Vec::new(alloc);
    if let Some(node) = nodes.get(place) {
        node.tick(alloc)?;
        collect(alloc, node, &mut under_way)?;
    }
    flow(alloc, nodes, &mut under_way)
}

/// The member of this number starts, and is the last of the nodes.
fn join(alloc: Global, crew: &Crew, nodes: &mut Players, number: u8) -> Result<(), Fail> {
    Ok(nodes.push(start(alloc, crew, number)?)?)
}

/// Members 1, 2 and 3 start.
fn start_three(alloc: Global, nodes: &mut Players) -> Result<(), Fail> {
    let crew = crew_of(alloc, 3)?;
    for number in 1..=3 {
        join(alloc, &crew, nodes, number)?;
    }
    Ok(())
}

/// Three rounds, each with a tick of each node in order.
fn three_rounds(alloc: Global, nodes: &mut Players) -> Result<(), Fail> {
    for _ in 0..3u8 {
        for place in 0..3 {
            turn(alloc, nodes, place)?;
        }
    }
    Ok(())
}

/// Which of the members 0 to 4 each node sees, a line for each.
fn views(alloc: Global, nodes: &mut Players) -> Result<String, Fail> {
    let mut text = String::new(alloc);
    for place in 0..nodes.count() {
        if let Some(node) = nodes.get(place) {
            push_view(node, &mut text)?;
        }
    }
    Ok(text)
}

fn push_view(node: &Player, text: &mut String) -> Result<(), Fail> {
    for number in 0..5 {
        text.push(if node.sees(member(number)) { 'x' } else { '-' })?;
    }
    Ok(text.push('\n')?)
}

fn meet(rt: &impl Abort, alloc: Global, nodes: &mut Players) -> Result<(), Fail> {
    start_three(alloc, nodes)?;
    three_rounds(alloc, nodes)?;
    let seen = views(alloc, nodes)?;
    assert_eq!(rt; seen.as_str(), "-xxx-\n-xxx-\n-xxx-\n");
    Ok(())
}

#[test]
fn three_nodes_see_each_other_after_three_rounds(rt: HostRuntime) -> Result<(), Fail> {
    let mut nodes = Players::new(rt.alloc());
    let done = meet(&rt, rt.alloc(), &mut nodes);
    nodes.end();
    done
}

/// The epoch and the mask of the newest note of each of 1 to 4, a line for each.
fn notes(alloc: Global, node: &Player) -> Result<String, Fail> {
    let mut text = String::new(alloc);
    for number in 1..=4 {
        if let Some(NoteBody { epoch, mask, .. }) = node.note_of(member(number)) {
            let line = format!(in alloc; "{} {}\n", epoch.get(), mask.0)?;
            text.push_str(line.as_str())?;
        }
    }
    Ok(text)
}

/// Members 1 and 2 of four start.
fn start_two(alloc: Global, nodes: &mut Players) -> Result<(), Fail> {
    let crew = crew_of(alloc, 4)?;
    join(alloc, &crew, nodes, 1)?;
    join(alloc, &crew, nodes, 2)
}

/// 1 has the second note of 3, and 2 has the first, and the one of 4.
fn teach_two(alloc: Global, nodes: &mut Players) -> Result<(), Fail> {
    if let Some(first) = nodes.get(0) {
        teach(alloc, first, 3, 2)?;
    }
    if let Some(second) = nodes.get(1) {
        teach(alloc, second, 3, 1)?;
        teach(alloc, second, 4, 1)?;
    }
    Ok(())
}

/// The last datagram that the node's last call sent.
fn last_sent(alloc: Global, node: &Player) -> Result<Vec<u8>, Fail> {
    let Some((_, bytes)) = node.sent().last() else {
        return Err("no summary".into());
    };
    Ok(bytes.as_slice().to_vec(alloc)?)
}

/// The summary that the first node sends at its next tick is on its way, as if it went to member 2.
fn push_summary(alloc: Global, nodes: &mut Players, under_way: &mut UnderWay) -> Result<(), Fail> {
    let Some(node) = nodes.get(0) else {
        return Err("no node".into());
    };
    node.tick(alloc)?;
    let copy = last_sent(alloc, node)?;
    Ok(under_way.push((member(2), copy)).or(Err("memory"))?)
}

/// Hands over that summary, with all that follows from it.
fn carry_summary(alloc: Global, nodes: &mut Players) -> Result<(), Fail> {
    let mut under_way = Vec::new(alloc);
    push_summary(alloc, nodes, &mut under_way)?;
    flow(alloc, nodes, &mut under_way)
}

/// The node has the newest note of all four.
fn knows_all(rt: &impl Abort, alloc: Global, node: &Player) -> Result<(), Fail> {
    let found = notes(alloc, node)?;
    assert_eq!(rt; found.as_str(), "1 7\n1 7\n2 7\n1 7\n");
    Ok(())
}

/// Each node has them.
fn know_all(rt: &impl Abort, alloc: Global, nodes: &mut Players) -> Result<(), Fail> {
    for place in 0..2 {
        if let Some(node) = nodes.get(place) {
            knows_all(rt, alloc, node)?;
        }
    }
    Ok(())
}

fn exchange(rt: &impl Abort, alloc: Global, nodes: &mut Players) -> Result<(), Fail> {
    start_two(alloc, nodes)?;
    teach_two(alloc, nodes)?;
    carry_summary(alloc, nodes)?;
    know_all(rt, alloc, nodes)
}

#[test]
fn one_summary_makes_the_notes_of_two_equal(rt: HostRuntime) -> Result<(), Fail> {
    let mut nodes = Players::new(rt.alloc());
    let done = exchange(&rt, rt.alloc(), &mut nodes);
    nodes.end();
    done
}
