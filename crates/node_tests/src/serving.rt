//! What the journal says and what the link is given, turn by turn.

mod scene;

ghost use Rattle.std.specs.Prelude.{◌≡◌, IfOk, []};
ghost use Rattle.ports.specs.MemoryClock.{NeverFalls};
ghost use Rattle.records.specs.Spelling.{HasPort};

use ff_ids::{AccBody, Epoch, Group, Heal, Mask, MemberId, NoteBody, RingNo};
use fixtures::Key;
use node_loop::ServeFault;
use ports::LinkAnswer;
use records::Body;
use scene::{GROUP, Served, Turns, got, key_of, record_of_2, serve_first_life};
use std::alloc::Global;
use std::process::Abort;
use std::test::Fail;

/// Ping from 2 with nonce 258, and the pong of 1.
const PING: [u8; 14] = *b"\x46\x46\x01\x01\x00\x02\x00\x00\x00\x00\x00\x00\x01\x02";

const PONG: [u8; 14] = *b"\x46\x46\x01\x02\x00\x01\x00\x00\x00\x00\x00\x00\x01\x02";

const PINGED: &str =
    "got 4646010100020000000000000102 ticks 0\nat 0 ping 2 258\nat 0 sent 0 2 4646010200010000000000000102\n";

/// The link was given one datagram, the pong for the port of 2.
fn gave_pong(rt: &impl Abort, served: &Served) {
    assert_eq!(rt; served.given().len(), 1);
    for (port, bytes) in served.given() {
        assert_eq!(rt; *port, 20_002);
        assert_eq!(rt; bytes.as_slice(), PONG.as_slice());
    }
}

/// The journal is what stands before a ping that was answered, that, and what stands behind it.
fn wrote_around_ping(
    rt: &impl Abort,
    alloc: Global,
    served: &Served,
    before: &str,
    behind: &str,
) -> Result<(), Fail> {
    let wanted = format!(in alloc; "{before}{PINGED}{behind}")?;
    assert_eq!(rt; served.done(), Ok(()));
    assert_eq!(rt; served.journal(), wanted.as_bytes());
    gave_pong(rt, served);
    Ok(())
}

/// What comes is one ping.
fn one_ping(alloc: Global) -> Result<Vec<LinkAnswer>, Fail> {
    let mut answers = Vec::new(alloc);
    answers.push(got(alloc, &PING)?)?;
    Ok(answers)
}

#[test]
fn a_ping_is_answered_at_the_port_of_its_sender(rt: HostRuntime) -> Result<(), Fail> {
    let with = Turns::of(rt.alloc(), one_ping(rt.alloc())?, 1);
    let served = serve_first_life(rt.alloc(), with)?;
    let done = wrote_around_ping(&rt, rt.alloc(), &served, "turn 1 ", "");
    drop(served);
    done
}

/// The one ping comes in the first of two turns, and the send of its answer fails.
fn ping_without_answer(alloc: Global) -> Result<Turns, Fail>
    ensures { IfOk result (λ with. with.times.items ≡ []) }
{
    let fail_sends = [0u64].to_vec(alloc)?;
    let answers = one_ping(alloc)?;
    let mut with = Turns::of(alloc, answers, 2);
    with.fail_sends = fail_sends;
    Ok(with)
}

#[test]
fn a_send_that_fails_is_lost(rt: HostRuntime) -> Result<(), Fail> {
    let served = serve_first_life(rt.alloc(), ping_without_answer(rt.alloc())?)?;
    let behind = "at 0 lost 0\nturn 2 nothing ticks 0\n";
    let done = wrote_around_ping(&rt, rt.alloc(), &served, "turn 1 ", behind);
    drop(served);
    done
}

/// A receive fails, and then the ping comes.
fn fault_and_ping(alloc: Global) -> Result<Vec<LinkAnswer>, Fail> {
    let mut answers = Vec::new(alloc);
    answers.push(LinkAnswer::Failed)?;
    answers.push(got(alloc, &PING)?)?;
    Ok(answers)
}

#[test]
fn a_receive_that_fails_ends_nothing(rt: HostRuntime) -> Result<(), Fail> {
    let with = Turns::of(rt.alloc(), fault_and_ping(rt.alloc())?, 2);
    let served = serve_first_life(rt.alloc(), with)?;
    let before = "turn 1 failed ticks 0\nturn 2 ";
    let done = wrote_around_ping(&rt, rt.alloc(), &served, before, "");
    drop(served);
    done
}

const TICKED: &[u8] = b"turn 1 nothing ticks 64\nturn 2 nothing ticks 1\nturn 3 nothing ticks 0\n";

fn ticked(rt: &impl Abort, served: &Served) {
    assert_eq!(rt; served.done(), Ok(()));
    assert_eq!(rt; served.journal(), TICKED);
    assert_eq!(rt; served.now(), 65);
}

#[test]
fn ticks_that_a_turn_leaves_come_in_the_next(rt: HostRuntime) -> Result<(), Fail> {
    let alloc = rt.alloc();
    let mut with = Turns::of(alloc, Vec::new(alloc), 3);
    with.times = [1_000u64, 7_500].to_vec(alloc)?;
    let served = serve_first_life(alloc, with)?;
    ticked(&rt, &served);
    drop(served);
    Ok(())
}

/// A datagram of 2 with the record that its key signs comes next.
fn push_record(
    alloc: Global,
    key: &mut Key,
    body: Body,
    answers: &mut Vec<LinkAnswer>,
) -> Result<(), Fail>
    requires { HasPort body }
{
    Ok(answers.push(record_of_2(alloc, key, body)?)?)
}

/// The first note of 2 comes.
fn push_note(alloc: Global, key: &mut Key, answers: &mut Vec<LinkAnswer>) -> Result<(), Fail> {
    let note = NoteBody {
        member: MemberId::new(2),
        epoch: Epoch::new(1),
        mask: Mask(7),
    };
    push_record(alloc, key, Body::Note(note), answers)
}

/// The first note of 2 comes, and its accusation of 1.
fn push_note_and_accusation(
    alloc: Global,
    key: &mut Key,
    answers: &mut Vec<LinkAnswer>,
) -> Result<(), Fail> {
    let acc = AccBody {
        accuser: MemberId::new(2),
        accused: MemberId::new(1),
        epoch: Epoch::new(1),
        ring: RingNo(0),
    };
    push_note(alloc, key, answers)?;
    push_record(alloc, key, Body::Accusation(acc), answers)
}

/// These come in three turns, and the disk stops.
fn note_and_accusation(alloc: Global) -> Result<Turns, Fail>
    ensures { IfOk result (λ with. with.times.items ≡ []) }
{
    let mut answers = Vec::new(alloc);
    push_note_and_accusation(alloc, &mut key_of(alloc, 2)?, &mut answers)?;
    let mut with = Turns::of(alloc, answers, 3);
    with.stops = true;
    Ok(with)
}

fn stopped(rt: &impl Abort, served: &Served) {
    let last = b" ticks 0\nat 0 took accuse 2 1 1 0 : accepted\nat 0 stopped\n";
    assert_eq!(rt; served.done(), Err(ServeFault::StoreFault));
    assert!(rt; served.journal().ends_with(last.as_slice()));
    assert_eq!(rt; served.given().len(), 0);
}

#[test]
fn a_store_that_fails_at_a_rebuttal_ends_the_life(rt: HostRuntime) -> Result<(), Fail> {
    let served = serve_first_life(rt.alloc(), note_and_accusation(rt.alloc())?)?;
    stopped(&rt, &served);
    drop(served);
    Ok(())
}

/// Of ten ticks the last is due.
const SHORT: Group = Group {
    period: 10,
    ..GROUP
};

/// The pongs of 2 to the first two pings, whose nonces are another implementation's of ChaCha.
const PONGS: [[u8; 14]; 2] = [
    *b"\x46\x46\x01\x02\x00\x02\x78\x92\x00\xf4\x41\xf6\xaa\x57",
    *b"\x46\x46\x01\x02\x00\x02\xba\x61\xf5\x14\x70\x79\xb3\xac",
];

/// The first note of 2 comes, and then its pongs.
fn note_and_pongs(alloc: Global) -> Result<Vec<LinkAnswer>, Fail> {
    let mut answers = Vec::new(alloc);
    push_note(alloc, &mut key_of(alloc, 2)?, &mut answers)?;
    for pong in &PONGS {
        answers.push(got(alloc, pong)?)?;
    }
    Ok(answers)
}

/// Three turns, before the second of which a pause lasts for 90 ticks. The pong to the first ping waits in the link.
fn with_pause(alloc: Global, heal: Option<Heal>) -> Result<Turns, Fail>
    ensures { IfOk result (λ with. NeverFalls 0 with.times.items) }
{
    let mut with = Turns::of(alloc, note_and_pongs(alloc)?, 3);
    with.group = SHORT;
    with.heal = heal;
    with.times = [0u64, 1_000, 10_000, 11_000].to_vec(alloc)?;
    Ok(with)
}

/// The lines of fewer than 100 bytes that tell of no datagram which was sent.
fn short_lines(alloc: Global, journal: &[u8]) -> Result<String, Fail> {
    let text = String::from_utf8(journal.to_vec(alloc)?).or(Err("no text"))?;
    let mut short = String::new(alloc);
    for line in text.as_str().lines() {
        if line.len() < 100 && !line.contains(" sent ") {
            short.push_str(line)?;
            short.push('\n')?;
        }
    }
    Ok(short)
}

/// The journal says this in its short lines, and there were so many ticks.
fn says(
    rt: &impl Abort,
    alloc: Global,
    served: &Served,
    wanted: &str,
    now: u64,
) -> Result<(), Fail> {
    let short = short_lines(alloc, served.journal())?;
    assert_eq!(rt; served.done(), Ok(()));
    assert_eq!(rt; short.as_str(), wanted);
    assert_eq!(rt; served.now(), now);
    Ok(())
}

/// A life with that pause says this.
fn pauses(
    rt: &impl Abort,
    alloc: Global,
    heal: Option<Heal>,
    wanted: &str,
    now: u64,
) -> Result<(), Fail> {
    let served = serve_first_life(alloc, with_pause(alloc, heal)?)?;
    let done = says(rt, alloc, &served, wanted, now);
    drop(served);
    done
}

/// Of the 90 ticks one turn makes 64, in which 2 can't be heard.
const ACCUSED: &str = "at 0 took note 2 1 7 : accepted\nat 0 entered 2\n\
    turn 2 got 464601020002789200f441f6aa57 ticks 64\nat 10 pong 2 8688007680229812823 counted\n\
    at 40 silent 2\nat 40 spent 1 accuse 1 2 1 0\n\
    turn 3 got 464601020002ba61f5147079b3ac ticks 36\nat 74 pong 2 13430285031930704812 stray\n";

/// Of the 90 ticks 80 are forgotten, and each pong comes before the next due tick.
const HEARD: &str = "at 0 took note 2 1 7 : accepted\nat 0 entered 2\n\
    turn 2 got 464601020002789200f441f6aa57 ticks 10\nat 10 pong 2 8688007680229812823 counted\n\
    turn 3 got 464601020002ba61f5147079b3ac ticks 10\nat 20 pong 2 13430285031930704812 counted\n";

#[test]
fn with_the_option_a_pause_is_no_silence(rt: HostRuntime) -> Result<(), Fail> {
    pauses(&rt, rt.alloc(), None, ACCUSED, 110)?;
    pauses(&rt, rt.alloc(), Heal::new(2, 0), HEARD, 30)
}
