//! A member that is run, over objects in memory.

ghost use Rattle.std.specs.Prelude.{◌<◌};
ghost use Rattle.ports.specs.MemoryClock.{NeverFalls};

mod crossing;
mod kits;

use epoch_store::make;
use ff_ids::Mask;
use fixtures::{Kinds, failing_source, sink};
use journal::{Event, EventFault, Turn, read_event, read_turn, write_event, write_turn};
use kits::{HEAD, kit, mark_of_1};
use line_text::BadWord;
use lms_ots::OtsKind;
use lms_tree::TreeKind;
use node_command::{NodeHalt, Stay, run_node};
use ports::{LinkAnswer, MemoryClock, MemoryDisk, MemoryLink, MemorySink};
use std::alloc::Global;
use std::process::Abort;
use std::test::Fail;

const NAME: &str = "n.st";

const KINDS: Kinds = Kinds {
    ots: OtsKind::W1,
    tree: TreeKind::H5,
    bottom: None,
};

/// The line of these kinds.
const LINE: &str = "kinds 1 5\n";

/// The journal of a life that hears nothing and is alone, in two turns, without its last line.
const ALONE: &[u8] =
    b"at 0 spent 0 note 1 1 7\nat 0 entered 1\nturn 1 nothing ticks 0\nturn 2 nothing ticks 2\n";

/// The same of one that leaves behind them, with its last line.
const LEFT: &[u8] =
    b"at 0 spent 0 note 1 1 7\nat 0 entered 1\nturn 1 nothing ticks 0\nturn 2 nothing ticks 2\nat 2 spent 1 note 1 2 0\nat 2 removed 1\nend\n";

/// The disk and the link over which member 1 is run.
#[derive(Drop)]
struct Host {
    disk: MemoryDisk,
    link: MemoryLink,
}

/// A disk and a link whose calls with these numbers fail. On the link nothing comes.
fn bare_host(
    alloc: Global,
    fail: &[u64],
    fail_sends: &[u64],
    fail_bind: bool,
) -> Result<Host, Fail> {
    let answers: Vec<LinkAnswer> = Vec::new(alloc);
    let link = MemoryLink::new(alloc, answers, fail_sends.to_vec(alloc)?, fail_bind);
    let disk = fixtures::disk(alloc, fail)?;
    Ok(Host { disk, link })
}

/// Makes a store with this mark.
fn make_store(disk: &mut MemoryDisk, mark: &[u8; 32]) -> Result<(), Fail> {
    Ok(make(disk, NAME, mark, Mask(7)).or(Err("no store"))?)
}

/// The same where a store with this mark was made, by the first calls of the disk.
fn host_of(
    alloc: Global,
    mark: &[u8; 32],
    fail: &[u64],
    fail_sends: &[u64],
    fail_bind: bool,
) -> Result<Host, Fail> {
    let mut host = bare_host(alloc, fail, fail_sends, fail_bind)?;
    make_store(&mut host.disk, mark)?;
    Ok(host)
}

/// What a run came to: how it ended, and what was written.
#[derive(Drop)]
struct Ran {
    done: Result<(), NodeHalt>,
    out: MemorySink,
}

/// Runs member 1 for two turns, behind which it may leave. The clock reads 0, 50 and 250.
fn run_to(alloc: Global, leave: bool, text: &str, host: &mut Host) -> Result<Ran, Fail> {
    let mut clock = MemoryClock::new([0u64, 50, 250].to_vec(alloc)?);
    let mut input = failing_source(alloc, text, 4096, &[])?;
    let mut out = sink(alloc, 4000)?;
    let done = run_node(
        alloc,
        NAME,
        Stay { turns: 2, leave },
        &mut input,
        &mut out,
        &mut host.disk,
        &mut host.link,
        &mut clock,
    );
    Ok(Ran { done, out })
}

/// Runs member 1 for two turns, and it stays.
fn run(alloc: Global, text: &str, host: &mut Host) -> Result<Ran, Fail> {
    run_to(alloc, false, text, host)
}

/// Runs member 1 for two turns, with the certificates of so many others.
fn run_among(alloc: Global, others: u16, host: &mut Host) -> Result<Ran, Fail>
    requires { others < 1000 }
{
    run(alloc, &kit(alloc, KINDS, LINE, others)?, host)
}

fn is_alone(rt: &impl Abort, alloc: Global, host: &mut Host) -> Result<(), Fail> {
    let ran = run_among(alloc, 0, host)?;
    assert_eq!(rt; ran.done, Ok(()));
    assert!(rt; ran.out.bytes().starts_with(ALONE));
    assert_eq!(rt; &ran.out.bytes()[ALONE.len()..], b"end\n".as_slice());
    assert_eq!(rt; host.link.sent().len(), 0);
    Ok(())
}

#[test]
fn a_member_alone_writes_its_journal(rt: HostRuntime) -> Result<(), Fail> {
    let mut host = host_of(rt.alloc(), &mark_of_1(rt.alloc(), KINDS)?, &[], &[], false)?;
    let done = is_alone(&rt, rt.alloc(), &mut host);
    drop(host);
    done
}

fn is_left(rt: &impl Abort, alloc: Global, host: &mut Host) -> Result<(), Fail> {
    let ran = run_to(alloc, true, &kit(alloc, KINDS, LINE, 0)?, host)?;
    assert_eq!(rt; ran.done, Ok(()));
    assert_eq!(rt; ran.out.bytes(), LEFT);
    assert_eq!(rt; host.link.sent().len(), 0);
    Ok(())
}

#[test]
fn a_member_alone_leaves_behind_its_turns(rt: HostRuntime) -> Result<(), Fail> {
    let mut host = host_of(rt.alloc(), &mark_of_1(rt.alloc(), KINDS)?, &[], &[], false)?;
    let done = is_left(&rt, rt.alloc(), &mut host);
    drop(host);
    done
}

/// What a line of a journal says.
#[derive(Clone, Copy, Debug, PartialEq, Eq)]
enum Said {
    Event,
    /// A turn of this number, with so many ticks.
    Turn(u32, u8),
    /// Something else.
    Other,
}

/// The text that was written of what the line says is the line.
fn is_line(text: &[u8], line: &[u8]) -> Result<(), Fail> {
    if text != line {
        return Err("another text".into());
    }
    Ok(())
}

fn is_text_of_event(alloc: Global, event: &Event, line: &[u8]) -> Result<(), Fail> {
    let mut text = Vec::new(alloc);
    write_event(event, &mut text)?;
    is_line(text.as_slice(), line)
}

fn is_text_of_turn(alloc: Global, turn: &Turn, line: &[u8]) -> Result<(), Fail> {
    let mut text = Vec::new(alloc);
    write_turn(turn, &mut text)?;
    is_line(text.as_slice(), line)
}

/// What a line that is no event says, if it is the one text of that.
fn said_by_turn(alloc: Global, line: &[u8]) -> Result<Said, Fail> {
    let Ok(turn) = read_turn(alloc, line) else {
        return Ok(Said::Other);
    };
    is_text_of_turn(alloc, &turn, line)?;
    Ok(Said::Turn(turn.number, turn.ticks))
}

/// What the line says, if it is the one text of that.
fn said_by(alloc: Global, line: &str) -> Result<Said, Fail> {
    match read_event(alloc, line.as_bytes()) {
        Ok(event) => {
            is_text_of_event(alloc, &event, line.as_bytes())?;
            Ok(Said::Event)
        }
        Err(EventFault::OutOfMemory) => Err("no memory".into()),
        Err(EventFault::BadEvent { .. }) => said_by_turn(alloc, line.as_bytes()),
    }
}

/// What each line of the journal says.
fn said_in(alloc: Global, journal: &[u8]) -> Result<Vec<Said>, Fail> {
    let text = String::from_utf8(journal.to_vec(alloc)?).or(Err("no text"))?;
    let mut said = Vec::new(alloc);
    for line in text.as_str().lines() {
        said.push(said_by(alloc, line)?)?;
    }
    Ok(said)
}

/// The journal of member 1, of whom so many others are certified, says this.
fn says(
    rt: &impl Abort,
    alloc: Global,
    others: u16,
    host: &mut Host,
    wanted: &[Said],
) -> Result<(), Fail>
    requires { others < 1000 }
{
    let ran = run_among(alloc, others, host)?;
    let said = said_in(alloc, ran.out.bytes())?;
    assert_eq!(rt; said.as_slice(), wanted);
    Ok(())
}

/// The same of a life whose first send fails.
fn life_says(rt: &impl Abort, alloc: Global, others: u16, wanted: &[Said]) -> Result<(), Fail>
    requires { others < 1000 }
{
    let mut host = host_of(alloc, &mark_of_1(alloc, KINDS)?, &[], &[0], false)?;
    let done = says(rt, alloc, others, &mut host, wanted);
    drop(host);
    done
}

const SAID_ALONE: [Said; 5] = [
    Said::Event,
    Said::Event,
    Said::Turn(1, 0),
    Said::Turn(2, 2),
    Said::Other,
];

const SAID_OF_TWO: [Said; 8] = [
    Said::Event,
    Said::Event,
    Said::Turn(1, 0),
    Said::Turn(2, 2),
    Said::Event,
    Said::Event,
    Said::Event,
    Said::Other,
];

#[test]
fn each_line_of_a_journal_is_read_back(rt: HostRuntime) -> Result<(), Fail> {
    life_says(&rt, rt.alloc(), 0, &SAID_ALONE)?;
    life_says(&rt, rt.alloc(), 1, &SAID_OF_TWO)
}

/// The run ends so, and writes nothing.
fn halts(
    rt: &impl Abort,
    alloc: Global,
    text: &str,
    host: &mut Host,
    wanted: NodeHalt,
) -> Result<(), Fail> {
    let ran = run(alloc, text, host)?;
    assert_eq!(rt; ran.done, Err(wanted));
    assert_eq!(rt; ran.out.bytes(), b"".as_slice());
    Ok(())
}

fn leaves_all(rt: &impl Abort, alloc: Global, host: &mut Host) -> Result<(), Fail> {
    halts(
        rt,
        alloc,
        &kit(alloc, KINDS, LINE, 0)?,
        host,
        NodeHalt::LinkFault,
    )?;
    assert_eq!(rt; host.disk.image().len(), 58);
    Ok(())
}

#[test]
fn a_port_that_is_taken_leaves_all(rt: HostRuntime) -> Result<(), Fail> {
    let mut host = host_of(rt.alloc(), &mark_of_1(rt.alloc(), KINDS)?, &[4], &[], true)?;
    let done = leaves_all(&rt, rt.alloc(), &mut host);
    drop(host);
    done
}

/// The life does not begin where the disk fails at this call.
fn halts_at(
    rt: &impl Abort,
    alloc: Global,
    mark: &[u8; 32],
    text: &str,
    call: u64,
) -> Result<(), Fail> {
    let mut host = host_of(alloc, mark, &[call], &[], false)?;
    let done = halts(rt, alloc, text, &mut host, NodeHalt::StoreFault);
    drop(host);
    done
}

/// The run ends well.
fn ends(rt: &impl Abort, alloc: Global, text: &str, host: &mut Host) -> Result<(), Fail> {
    let ran = run(alloc, text, host)?;
    assert_eq!(rt; ran.done, Ok(()));
    Ok(())
}

/// The run ends well where the disk fails at this call.
fn ends_at(
    rt: &impl Abort,
    alloc: Global,
    mark: &[u8; 32],
    text: &str,
    call: u64,
) -> Result<(), Fail> {
    let mut host = host_of(alloc, mark, &[call], &[], false)?;
    let done = ends(rt, alloc, text, &mut host);
    drop(host);
    done
}

#[test]
fn a_disk_that_fails_ends_the_life_before_it_begins(rt: HostRuntime) -> Result<(), Fail> {
    let alloc = rt.alloc();
    let mark = mark_of_1(alloc, KINDS)?;
    let text = kit(alloc, KINDS, LINE, 0)?;
    for call in [4u64, 12] {
        halts_at(&rt, alloc, &mark, text.as_str(), call)?;
    }
    ends_at(&rt, alloc, &mark, text.as_str(), 13)
}

/// The link was given two datagrams, each for the port of 2.
fn gave_two(rt: &impl Abort, link: &MemoryLink) {
    assert_eq!(rt; link.sent().len(), 2);
    for (port, _) in link.sent() {
        assert_eq!(rt; *port, 20_002);
    }
}

fn loses(rt: &impl Abort, alloc: Global, host: &mut Host) -> Result<(), Fail> {
    let ran = run_among(alloc, 1, host)?;
    assert_eq!(rt; ran.done, Ok(()));
    assert!(rt; ran.out.bytes().starts_with(ALONE));
    let rest = &ran.out.bytes()[ALONE.len()..];
    assert!(rt; rest.starts_with(b"at 1 sent 0 2 4646"));
    assert!(rt; rest.ends_with(b"\nend\n"));
    gave_two(rt, &host.link);
    Ok(())
}

#[test]
fn a_send_that_fails_is_lost(rt: HostRuntime) -> Result<(), Fail> {
    let mut host = host_of(rt.alloc(), &mark_of_1(rt.alloc(), KINDS)?, &[], &[0], false)?;
    let done = loses(&rt, rt.alloc(), &mut host);
    drop(host);
    done
}

fn refuses(rt: &impl Abort, alloc: Global, host: &mut Host) -> Result<(), Fail> {
    let ran = run(alloc, HEAD, host)?;
    let refused = NodeHalt::Refused {
        line: 3,
        word: BadWord::End,
    };
    assert_eq!(rt; ran.done, Err(refused));
    Ok(())
}

#[test]
fn a_text_without_its_end_starts_nothing(rt: HostRuntime) -> Result<(), Fail> {
    let mut host = host_of(rt.alloc(), &mark_of_1(rt.alloc(), KINDS)?, &[4], &[], true)?;
    let done = refuses(&rt, rt.alloc(), &mut host);
    drop(host);
    done
}
