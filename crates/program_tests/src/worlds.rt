//! Worlds, by `replay` and by `soak`.

ghost use Rattle.records.specs.Spelling.{HasPort};

use crate::runs::{answers, run_failing, run_on};
use ff_ids::{Epoch, Group, Mask, MemberId, NoteBody};
use fields::Bytes;
use fixtures::disk;
use hss::HssKey;
use journal::{read_event, write_event};
use lms_ots::OtsKind;
use lms_tree::{PublicKey, TreeKind};
use ports::{Clock, Disk, Link, LinkAnswer, MemoryClock, MemoryDisk, MemoryLink, Received};
use records::{Body, CertBody, Key, Record, signed_bytes, write_record};
use secrets::{make_key, world_secret};
use sign_keys::Kinds;
use std::alloc::Global;
use std::process::Abort;
use std::test::Fail;

/// A node that runs, and a liar.
const WORLD: &str =
    "fireflies 1 world\ngroup 1 4 1 2 00000000000000000000000000000000\nkinds 8 5\nnode 1\nliar 2\nbegin\nstart 1\n";

const WORLD_TRACE: &str =
    "fireflies 1 world\ngroup 1 4 1 2 00000000000000000000000000000000\nkinds 8 5\nnode 1\nliar 2\nbegin\n\
        start 1 : life 1\n@1 at 0 spent 0 note 1 1 7\n@1 at 0 entered 1\n";

/// Replays what stands behind the world, and compares what was written behind its trace, and the number.
fn replays(
    rt: &impl Abort,
    alloc: Global,
    rest: &str,
    trace: &str,
    number: u8,
) -> Result<(), Fail> {
    let text = format!(in alloc; "{WORLD}{rest}")?;
    let wanted = format!(in alloc; "{WORLD_TRACE}{trace}")?;
    answers(rt, alloc, "replay", text.as_str(), wanted.as_str(), number)
}

#[test]
fn any_bytes_are_handed_to_a_node(rt: HostRuntime) -> Result<(), Fail> {
    replays(
        &rt,
        rt.alloc(),
        "raw 1 4646010100020000000000000102\nraw 1 4646\nraw 2 00\nend\n",
        "raw 1 4646010100020000000000000102\n@1 at 0 ping 2 258\n\
            @1 at 0 sent 0 2 4646010200010000000000000102\nraw 1 4646\n@1 at 0 bad-form 2\n\
            raw 2 00 : refused not-node\nend\n",
        0,
    )?;
    replays(&rt, rt.alloc(), "raw 1 4\n", "bad 8 hex\n", 3)
}

/// Whether the text is an event's, which is written as it is read.
fn is_event(alloc: Global, text: &str) -> bool {
    let mut out = Vec::new(alloc);
    match read_event(alloc, text.as_bytes()) {
        Ok(event) => write_event(&event, &mut out).is_ok() && out.as_slice() == text.as_bytes(),
        Err(_) => false,
    }
}

/// A liar accuses a node three times, of which two stand, and are answered.
const LIES: &str = "sign-note 2 2 1 7 a\ngive a 1\nsign-accusation 2 2 1 1 0 b\ngive b 1\n\
        sign-accusation 2 2 1 2 1 c\ngive c 1\nsign-accusation 2 2 1 now 1 d\ngive d 1\nend\n";

/// Each line of what node 1 told is an event's, and there are so many.
fn tells(rt: &impl Abort, alloc: Global, written: &[u8], count: u32) {
    let mut events = 0u32;
    for line in std::str::from_utf8(written).unwrap_or("").lines() {
        if let Some(event) = line.strip_prefix("@1 ") {
            assert!(rt; is_event(alloc, event), "{line}");
            events = events.wrapping_add(1);
        }
    }
    assert_eq!(rt; events, count);
}

#[test]
fn what_is_told_in_a_world_is_read(rt: HostRuntime) -> Result<(), Fail> {
    let alloc = rt.alloc();
    let text = format!(in alloc; "{WORLD}{LIES}")?;
    let got = run_failing(alloc, "replay", text.as_str(), 65_536, &[], &[])?;
    assert_eq!(rt; got.number, 0);
    tells(&rt, alloc, &got.written, 13);
    Ok(())
}

/// A note of node 1.
fn note() -> Body
    ensures { HasPort result }
{
    Body::Note(NoteBody {
        member: MemberId::new(1),
        epoch: Epoch::new(9),
        mask: Mask(7),
    })
}

/// A certificate of a key of two levels.
fn certificate() -> Body
    ensures { HasPort result }
{
    Body::Certificate(CertBody {
        member: MemberId::new(3),
        port: 65_535,
        key: Key::Hss(HssKey {
            top: PublicKey {
                tree: TreeKind::H5,
                ots: OtsKind::W4,
                id: [0xa1; 16],
                root: [0xb2; 32],
            },
        }),
    })
}

/// The signature of the body in the group by the key of this number, which has signed less.
fn signature(alloc: Global, group: &Group, number: u16, body: &Body) -> Result<Vec<u8>, Fail> {
    let kinds = Kinds {
        ots: OtsKind::W8,
        tree: TreeKind::H5,
        bottom: None,
    };
    let mut key = make_key(alloc, kinds, &world_secret(&group.tag, number))?;
    if key.index_count() <= 5 {
        return Err("no index".into());
    }
    key.skip_to(5);
    key.prepare(alloc)?;
    let mut signature = vec![in alloc; 0; key.signature_length()]?;
    key.sign_next(signed_bytes(group, body).as_slice(), &mut signature);
    Ok(signature)
}

/// A datagram with the body that the schedule never signed, by the key of this number, as digits.
fn forged(alloc: Global, number: u16, body: Body) -> Result<String, Fail>
    requires { HasPort body }
{
    let group = Group {
        tag: [0; 16],
        t: 1,
        timeout: 4,
        period: 1,
        misses: 2,
    };
    let signature = signature(alloc, &group, number, &body)?;
    if signature.is_empty() || signature.len() > 9_004 {
        return Err("no length of a signature".into());
    }
    let forged = Record {
        body,
        signature: Bytes::from_vec(signature),
    };
    let mut bytes = [0x46, 0x46, 1, 4, 0, 2, 0, 1].to_vec(alloc)?;
    write_record(&forged, &mut bytes)?;
    Ok(hex::encode(alloc, bytes.as_slice())?)
}

/// The body that the schedule never signed ends the run with this line.
fn is_named(rt: &impl Abort, alloc: Global, number: u16, body: Body, line: &str) -> Result<(), Fail>
    requires { HasPort body }
{
    let digits = forged(alloc, number, body)?;
    let rest = format!(in alloc; "raw 1 {digits}\nend\n")?;
    replays(rt, alloc, rest.as_str(), line, 4)
}

/// A note of a node, and a certificate of the longest key by the authority.
#[test]
fn a_forged_record_ends_the_run(rt: HostRuntime) -> Result<(), Fail> {
    is_named(&rt, rt.alloc(), 1, note(), "forged 8 1 note 1 9 7\n")?;
    let line =
        "forged 8 authority cert 3 65535 000000020000000500000003a1a1a1a1a1a1a1a1a1a1a1a1a1a1a1a1\
        b2b2b2b2b2b2b2b2b2b2b2b2b2b2b2b2b2b2b2b2b2b2b2b2b2b2b2b2b2b2b2b2\n";
    is_named(&rt, rt.alloc(), 65_535, certificate(), line)
}

/// A forged record ends a run over these.
fn replay_forged(
    rt: &impl Abort,
    alloc: Global,
    disk: &mut MemoryDisk,
    link: &mut MemoryLink,
    clock: &mut MemoryClock,
) -> Result<(), Fail> {
    let digits = forged(alloc, 1, note())?;
    let text = format!(in alloc; "{WORLD}raw 1 {digits}\nend\n")?;
    let got = run_on(alloc, &["replay"], text.as_str(), 4_000, disk, link, clock)?;
    assert_eq!(rt; got.number, 4);
    assert!(rt; got.written.ends_with(b"\nforged 8 1 note 1 9 7\n"));
    Ok(())
}

/// No call was made of these: at their first call disk and link fail, and the clock reads 7; at a second they do not.
fn are_untouched(
    rt: &impl Abort,
    disk: &mut MemoryDisk,
    link: &mut MemoryLink,
    clock: &mut MemoryClock,
) {
    assert!(rt; disk.len().is_err());
    assert!(rt; matches!(link.receive(&mut [0; 8]), Received::Failed));
    assert!(rt; link.sent().is_empty());
    assert_eq!(rt; clock.now(), 7);
}

#[test]
fn a_forged_record_leaves_the_outside(rt: HostRuntime) -> Result<(), Fail> {
    let alloc = rt.alloc();
    let mut clock = MemoryClock::new([7u64, 9].to_vec(alloc)?);
    let mut disk = disk(alloc, &[0])?;
    let coming = vec![in alloc; LinkAnswer::Failed]?;
    let mut link = MemoryLink::new(alloc, coming, Vec::new(alloc), false);
    replay_forged(&rt, alloc, &mut disk, &mut link, &mut clock)?;
    are_untouched(&rt, &mut disk, &mut link, &mut clock);
    Ok(())
}

/// The head of a world with small keys.
const SMALL: &str =
    "fireflies 1 world\ngroup 1 4 1 2 00000000000000000000000000000000\nkinds 2 5\n";

/// Lines behind the head, which are written back, and those of a line that is refused behind them.
const REFUSED: [(&str, &str, &str); 25] = [
    ("", "kinds 2 5\n", "bad 4 order\n"),
    ("", "heal 1 1\n", "bad 4 limit\n"),
    ("", "heal 1001 1\n", "bad 4 limit\n"),
    ("", "heal 2 1001\n", "bad 4 limit\n"),
    ("", "heal x 1\n", "bad 4 number\n"),
    ("", "heal 2\n", "bad 4 count\n"),
    ("heal 2 0\n", "heal 2 0\n", "bad 5 order\n"),
    ("heal 1000 1000\n", "kinds 2 5\n", "bad 5 order\n"),
    ("node 1\n", "heal 2 0\n", "bad 5 order\n"),
    ("liar 1\n", "heal 2 0\n", "bad 5 order\n"),
    ("node 1\n", "node 1\n", "bad 5 limit\n"),
    ("node 1\n", "node 1024\n", "bad 5 limit\n"),
    ("node 1\n", "start 1\n", "bad 5 order\n"),
    ("liar 1\n", "begin\n", "bad 5 order\n"),
    ("node 1\nbegin\n", "liar 2\n", "bad 6 order\n"),
    ("node 1\nbegin\n", "leaves 1\n", "bad 6 word\n"),
    ("node 1\nbegin\n", "leave\n", "bad 6 count\n"),
    ("node 1\nbegin\n", "stop 1 65536\n", "bad 6 limit\n"),
    ("node 1\nbegin\n", "arm 1 1001 0\n", "bad 6 limit\n"),
    ("node 1\nbegin\n", "flow 0\n", "bad 6 limit\n"),
    ("node 1\nbegin\n", "monitor 1 3 1\n", "bad 6 limit\n"),
    ("node 1\nbegin\n", "give A 1\n", "bad 6 name\n"),
    (
        "node 1\nbegin\n",
        "give a23456789-123456789-123456789-123 1\n",
        "bad 6 name\n",
    ),
    (
        "node 1\nbegin\n",
        "sign-accusation 1 1 then 0 a 1\n",
        "bad 6 number\n",
    ),
    ("node 1\nbegin\n", "", "bad 6 end\n"),
];

/// The lines are kept, and the one behind them is refused.
fn refuses(
    rt: &impl Abort,
    alloc: Global,
    kept: &str,
    line: &str,
    refusal: &str,
) -> Result<(), Fail> {
    let text = format!(in alloc; "{SMALL}{kept}{line}")?;
    let wanted = format!(in alloc; "{SMALL}{kept}{refusal}")?;
    answers(rt, alloc, "replay", text.as_str(), wanted.as_str(), 3)
}

#[test]
fn lines_that_a_world_refuses(rt: HostRuntime) -> Result<(), Fail> {
    for (kept, line, refusal) in &REFUSED {
        refuses(&rt, rt.alloc(), kept, line, refusal)?;
    }
    Ok(())
}

/// The words so many times.
fn repeated(alloc: Global, words: &str, times: u32) -> Result<String, Fail> {
    let mut text = String::new(alloc);
    for _ in 0..times {
        text.push_str(words)?;
    }
    Ok(text)
}

/// Replays the text, and compares what was written last.
fn ends(rt: &impl Abort, alloc: Global, text: &str, end: &[u8]) -> Result<(), Fail> {
    let got = run_failing(alloc, "replay", text, 65_536, &[], &[])?;
    assert!(rt; got.written.ends_with(end));
    Ok(())
}

/// The members of a world, of which there is one too many.
fn too_many_members(rt: &impl Abort, alloc: Global) -> Result<(), Fail> {
    let mut text = String::from_str(alloc, SMALL)?;
    for member in 0..32u8 {
        text.push_str(format!(in alloc; "node {member}\n")?.as_str())?;
    }
    text.push_str("liar 32\n")?;
    ends(rt, alloc, text.as_str(), b"node 31\nbad 36 limit\n")
}

/// One tick more than a world may have.
fn too_many_ticks(rt: &impl Abort, alloc: Global) -> Result<(), Fail> {
    let ticks = repeated(alloc, "tick 1 10000\n", 10)?;
    let text = format!(in alloc; "{SMALL}node 1\nbegin\n{ticks}tick 1 1\n")?;
    let end = b"tick 1 10000 : refused stopped\nbad 16 limit\n";
    ends(rt, alloc, text.as_str(), end)
}

/// The longest datagram, and one that is longer.
fn too_many_bytes(rt: &impl Abort, alloc: Global) -> Result<(), Fail> {
    let bytes = repeated(alloc, "00", 32_769)?;
    let text = format!(in alloc; "{WORLD}raw 1 {bytes}\nraw 1 {bytes}00\n")?;
    let end = b"00\n@1 at 0 bad-form 32768\nbad 9 limit\n";
    ends(rt, alloc, text.as_str(), end)
}

#[test]
fn a_world_at_its_limits(rt: HostRuntime) -> Result<(), Fail> {
    too_many_members(&rt, rt.alloc())?;
    too_many_ticks(&rt, rt.alloc())?;
    too_many_bytes(&rt, rt.alloc())
}

#[test]
fn a_workload_is_counted(rt: HostRuntime) -> Result<(), Fail> {
    let got = run_failing(rt.alloc(), "soak 7 3 1", "", 65_536, &[0], &[])?;
    assert_eq!(rt; got.number, 0);
    assert!(rt; got.written.starts_with(b"soak 7 3 1\nlines 15\nsent "));
    assert!(rt;
        got.written
            .ends_with(b"removed 0 correct 0\nspent 3\nend\n")
    );
    Ok(())
}
