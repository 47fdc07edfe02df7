//! Texts with keys of two levels.

pub mod signed;

use ff_ids::KeyBytes;
use fixtures::sink;
use line_text::{BadWord, LineFault};
use ports::MemorySource;
use schedule::{Command, Line, Lines};
use schedule_texts::KitLine;
use signed::{AUTHORITY, KEY, MESSAGE, OF_PAIR, OF_TOP, OWN, PAIR, SIGNATURE};
use std::alloc::Global;
use std::process::Abort;
use std::test::Fail;
use verifier::verify_input;

const GROUP: &str = "group 1 4 1 2 00000000000000000000000000000000\n";

const WIDE: &str = "group 16 4 1 2 00000000000000000000000000000000\n";

/// What the line is refused for below those of the head.
pub fn word_for(
    alloc: Global,
    command: Command,
    head: &[&str],
    line: &str,
) -> Result<Option<BadWord>, Fail> {
    let mut lines = Lines::open(command);
    for line in head {
        lines.line(alloc, line.as_bytes())?;
    }
    match lines.line(alloc, line.as_bytes()) {
        Ok(_) => Ok(None),
        Err(LineFault::Bad(word)) => Ok(Some(word)),
        Err(LineFault::OutOfMemory) => Err("no memory".into()),
    }
}

/// Lines of kinds, and what they are refused for. The last number is what breaks the profile, whichever does.
const KINDS: [(&str, Option<BadWord>); 18] = [
    ("kinds 4 5 5\n", None),
    ("kinds 8 10 5\n", None),
    ("kinds 4 5 10\n", None),
    ("kinds 2 5 5\n", Some(BadWord::Limit)),
    ("kinds 1 10 5\n", Some(BadWord::Limit)),
    ("kinds 4 10 10\n", Some(BadWord::Limit)),
    ("kinds 8 15 5\n", Some(BadWord::Limit)),
    ("kinds 4 5 15\n", Some(BadWord::Limit)),
    ("kinds 4 5 1\n", Some(BadWord::Limit)),
    ("kinds 4 5 6\n", Some(BadWord::Limit)),
    ("kinds 4 0 5\n", Some(BadWord::Limit)),
    ("kinds 3 5 5\n", Some(BadWord::Limit)),
    ("kinds 4 5 05\n", Some(BadWord::Number)),
    ("kinds 4 5 -\n", Some(BadWord::Number)),
    ("kinds x 5 16\n", Some(BadWord::Number)),
    ("kinds 2 5 x\n", Some(BadWord::Number)),
    ("kinds 4 5 5 5\n", Some(BadWord::Count)),
    ("kinds 4\n", Some(BadWord::Count)),
];

#[test]
fn kinds_have_a_height_below(rt: HostRuntime) -> Result<(), Fail> {
    let alloc = rt.alloc();
    let heads: [(Command, &[&str]); 4] = [
        (Command::Secret, &["fireflies 1 secret\n", GROUP]),
        (Command::Kit, &["fireflies 1 kit\n", GROUP]),
        (Command::Migrate, &["fireflies 1 migrate\n", GROUP, WIDE]),
        (Command::Replay, &["fireflies 1 world\n", GROUP]),
    ];
    for (line, wanted) in KINDS {
        for (command, head) in heads {
            assert_eq!(rt; word_for(alloc, command, head, line)?, wanted, "{line}");
        }
    }
    // An authority's key has one level.
    let head = ["fireflies 1 roster\n", GROUP];
    for line in ["kinds 4 5 5\n", "kinds 4 5 x\n"] {
        let word = word_for(alloc, Command::Roster, &head, line)?;
        assert_eq!(rt; word, Some(BadWord::Count));
    }
    Ok(())
}

/// What the digits of a key begin with, how many there are, and what the word is refused for.
const KEYS: [(&str, usize, Option<BadWord>); 22] = [
    ("0000000700000001", 112, None),
    ("000000020000000700000003", 120, None),
    ("000000020000000500000004", 120, None),
    // W1, W2 and no kind at all
    ("000000020000000500000001", 120, Some(BadWord::Limit)),
    ("000000020000000500000002", 120, Some(BadWord::Limit)),
    ("000000020000000500000005", 120, Some(BadWord::Limit)),
    // trees of no kind
    ("000000020000000400000003", 120, Some(BadWord::Limit)),
    ("000000020000000800000003", 120, Some(BadWord::Limit)),
    // no levels, one and three
    ("000000000000000500000003", 120, Some(BadWord::Limit)),
    ("000000010000000500000003", 120, Some(BadWord::Limit)),
    ("000000030000000500000003", 120, Some(BadWord::Limit)),
    // a key of one level with the digits of one of two, and the other way round
    ("0000000500000003", 120, Some(BadWord::Limit)),
    ("000000020000000500000003", 112, Some(BadWord::Limit)),
    // other even numbers of digits, odd ones, and what is no digit
    ("0000000500000003", 110, Some(BadWord::Limit)),
    ("0000000500000003", 114, Some(BadWord::Limit)),
    ("000000020000000500000003", 118, Some(BadWord::Limit)),
    ("000000020000000500000003", 122, Some(BadWord::Limit)),
    ("0000000500000003", 113, Some(BadWord::Hex)),
    ("000000020000000500000003", 119, Some(BadWord::Hex)),
    ("000000020000000500000003", 121, Some(BadWord::Hex)),
    ("00000002000000050000000g", 120, Some(BadWord::Hex)),
    ("-", 1, Some(BadWord::Hex)),
];

/// So many digits, which begin with these.
fn digits(alloc: Global, front: &str, count: usize) -> Result<String, Fail> {
    let mut digits = String::from_str(alloc, front)?;
    for _ in front.len()..count {
        digits.push_str("a")?;
    }
    Ok(digits)
}

/// The key in the texts of a question, of a roster and of a member, where a signature that isn't good is behind it.
fn compare_keys(
    rt: &impl Abort,
    alloc: Global,
    key: &str,
    wanted: Option<BadWord>,
) -> Result<(), Fail> {
    let line = format!(in alloc; "key {key}\n")?;
    let head = ["fireflies 1 verify\n"];
    assert_eq!(rt;
        word_for(alloc, Command::Verify, &head, line.as_str())?,
        wanted
    );
    let line = format!(in alloc; "cert 7 20007 {key}\n")?;
    let secret = "secret 5a5a5a5a5a5a5a5a5a5a5a5a5a5a5a5a5a5a5a5a5a5a5a5a5a5a5a5a5a5a5a5a\n";
    let head = ["fireflies 1 roster\n", GROUP, "kinds 8 5\n", secret];
    assert_eq!(rt;
        word_for(alloc, Command::Roster, &head, line.as_str())?,
        wanted
    );
    let line = format!(in alloc; "cert 7 20007 {key} 00\n")?;
    let head = [
        "fireflies 1 kit\n",
        GROUP,
        "kinds 1 5\n",
        OWN,
        AUTHORITY,
        "tick 1\n",
    ];
    let word = word_for(alloc, Command::Kit, &head, line.as_str())?;
    assert_eq!(rt; word, wanted.or(Some(BadWord::Cert)));
    Ok(())
}

#[test]
fn keys_have_112_digits_or_120(rt: HostRuntime) -> Result<(), Fail> {
    let alloc = rt.alloc();
    for (front, count, wanted) in KEYS {
        let key = digits(alloc, front, count)?;
        compare_keys(&rt, alloc, key.as_str(), wanted)?;
    }
    // An authority's has one level.
    let key = digits(alloc, "000000020000000500000003", 120)?;
    let line = format!(in alloc; "authority {key}\n")?;
    let head = ["fireflies 1 kit\n", GROUP, "kinds 1 5\n", OWN];
    let word = word_for(alloc, Command::Kit, &head, line.as_str())?;
    assert_eq!(rt; word, Some(BadWord::Limit));
    Ok(())
}

/// What the line `end` is refused for below these kinds and this certificate.
fn end_below(alloc: Global, kinds: &str, cert: &str) -> Result<Option<BadWord>, Fail> {
    let head = [
        "fireflies 1 kit\n",
        GROUP,
        kinds,
        OWN,
        AUTHORITY,
        "tick 1\n",
        cert,
    ];
    word_for(alloc, Command::Kit, &head, "end\n")
}

/// The keys are the same tree, in one level or in two.
#[test]
fn the_own_key_is_compared_whole(rt: HostRuntime) -> Result<(), Fail> {
    let alloc = rt.alloc();
    let other = Some(BadWord::OwnKey);
    for (kinds, cert, wanted) in [
        ("kinds 4 5 5\n", OF_PAIR, None),
        ("kinds 4 5 5\n", OF_TOP, other),
        ("kinds 4 5\n", OF_TOP, None),
        ("kinds 4 5\n", OF_PAIR, other),
        // The public key doesn't show the height below.
        ("kinds 4 5 10\n", OF_PAIR, None),
    ] {
        assert_eq!(rt; end_below(alloc, kinds, cert)?, wanted);
    }
    let mut lines = Lines::open(Command::Kit);
    for line in ["fireflies 1 kit\n", GROUP, "kinds 4 5 5\n"] {
        lines.line(alloc, line.as_bytes())?;
    }
    let Line::Kit(KitLine::Own { key, .. }) = lines.line(alloc, OWN.as_bytes())? else {
        panic!(rt; "the own number and secret");
    };
    assert_eq!(rt; key.public().write(), KeyBytes::Hss(PAIR));
    Ok(())
}

/// The question of test case 1 of RFC 8554, and the place in it at which the signature's digits begin.
fn question(alloc: Global) -> Result<(Vec<u8>, usize), Fail> {
    let head = format!(in alloc; "fireflies 1 verify\nkey {KEY}\nmessage {MESSAGE}\nsignature ")?;
    let text = format!(in alloc; "{head}{SIGNATURE}\nend\n")?;
    Ok((text.as_bytes().to_vec(alloc)?, head.len()))
}

/// Digits of the signature that are set, and what is answered. Its parts begin at the digits 0 (the level), 8 (the top
/// signature: its leaf, its type, its hashes, at 2,264 the tree's type, and the path), 2,592 (the bottom key) and 2,704
/// (the bottom signature).
const ANSWERS: [(usize, u8, &[u8]); 16] = [
    (7, b'1', b"signature good\n"),
    (7, b'0', b"signature refused levels\n"),
    (7, b'2', b"signature refused levels\n"),
    (2_599, b'8', b"signature refused key-type\n"),
    (2_607, b'1', b"signature refused key-type\n"),
    (2_607, b'2', b"signature refused key-type\n"),
    (2_607, b'3', b"signature refused length\n"),
    (2_599, b'6', b"signature refused length\n"),
    (14, b'2', b"signature refused top index\n"),
    (23, b'3', b"signature refused top ots-type\n"),
    (2_271, b'6', b"signature refused top tree-type\n"),
    (2_272, b'0', b"signature refused top root\n"),
    (2_710, b'2', b"signature refused bottom index\n"),
    (2_719, b'3', b"signature refused bottom ots-type\n"),
    (4_967, b'6', b"signature refused bottom tree-type\n"),
    (5_287, b'f', b"signature refused bottom root\n"),
];

fn compare_answer(
    rt: &impl Abort,
    alloc: Global,
    (place, digit, answer): (usize, u8, &[u8]),
) -> Result<(), Fail> {
    let (mut text, begin) = question(alloc)?;
    let place = begin.wrapping_add(place);
    assert!(rt; place < text.len());
    text[place] = digit;
    let mut input = MemorySource::new(text, 64, Vec::new(alloc));
    let mut out = sink(alloc, 100)?;
    assert_eq!(rt; verify_input(alloc, &mut input, &mut out), Ok(()));
    assert_eq!(rt; out.bytes(), answer);
    Ok(())
}

#[test]
fn a_signature_of_two_levels_is_answered(rt: HostRuntime) -> Result<(), Fail> {
    for row in ANSWERS {
        compare_answer(&rt, rt.alloc(), row)?;
    }
    Ok(())
}
