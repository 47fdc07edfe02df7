//! Texts that ask whether a signature is good, answered by `run`.

use crate::runs::{answers, run_failing};
use lms_ots::OtsKind;
use lms_tree::{PublicKey, SecretKey, TreeKind};
use std::alloc::Global;
use std::process::Abort;
use std::test::Fail;

/// A key with 32 leaves, and its signature of a message by leaf 0, which has 2,348 bytes.
fn signed(alloc: Global, message: &[u8]) -> Result<(PublicKey, Vec<u8>), Fail> {
    let key = SecretKey::make(alloc, TreeKind::H5, OtsKind::W4, [5; 16], [6; 32])?;
    let public = key.public();
    let (tree, mut leaves) = key.split();
    let mut signature = vec![in alloc; 0u8; 2348]?;
    if let Some(leaf) = leaves.take() {
        tree.sign(leaf, message, signature.as_mut_slice());
    }
    Ok((public, signature))
}

fn text_of(
    alloc: Global,
    key: &PublicKey,
    message: &[u8],
    signature: &[u8],
) -> Result<String, Fail> {
    let key = hex::encode(alloc, key.write().as_slice())?;
    let message = match message {
        [] => String::from_str(alloc, "-")?,
        _ => hex::encode(alloc, message)?,
    };
    let signature = match signature {
        [] => String::from_str(alloc, "-")?,
        _ => hex::encode(alloc, signature)?,
    };
    Ok(format!(in alloc;
        "fireflies 1 verify\nkey {key}\nmessage {message}\nsignature {signature}\nend\n"
    )?)
}

/// A byte at a place, and what is answered to a signature that has it there.
type Set = (usize, u8, &'static str);

const SETS: [Set; 8] = [
    (0, 0, "signature good\n"),
    (2184, 1, "signature refused tree-type\n"),
    (2187, 6, "signature refused tree-type\n"),
    (4, 1, "signature refused ots-type\n"),
    (7, 4, "signature refused ots-type\n"),
    (3, 32, "signature refused index\n"),
    (3, 1, "signature refused root\n"),
    (3, 31, "signature refused root\n"),
];

/// The signature is answered so.
fn is_answered(
    rt: &impl Abort,
    alloc: Global,
    key: &PublicKey,
    signature: &[u8],
    wanted: &str,
) -> Result<(), Fail> {
    let text = text_of(alloc, key, b"message", signature)?;
    answers(rt, alloc, "verify", text.as_str(), wanted, 0)
}

/// The signature with this byte at the place is answered so.
fn set_is_answered(
    rt: &impl Abort,
    alloc: Global,
    key: &PublicKey,
    signature: &[u8],
    set: Set,
) -> Result<(), Fail> {
    let (place, byte, wanted) = set;
    let mut changed = signature.to_vec(alloc)?;
    if let Some(there) = changed.as_mut_slice().get_mut(place) {
        *there = byte;
    }
    is_answered(rt, alloc, key, changed.as_slice(), wanted)
}

/// A bit is changed at each of these places.
fn flips_are_refused(
    rt: &impl Abort,
    alloc: Global,
    key: &PublicKey,
    signature: &[u8],
) -> Result<(), Fail> {
    for place in [8usize, 40, 2183, 2188, 2347] {
        let byte = signature.get(place).copied().unwrap_or(0) ^ 1;
        let set = (place, byte, "signature refused root\n");
        set_is_answered(rt, alloc, key, signature, set)?;
    }
    Ok(())
}

/// A signature that is shorter, one that is longer, and none.
fn lengths_are_refused(
    rt: &impl Abort,
    alloc: Global,
    key: &PublicKey,
    signature: &[u8],
) -> Result<(), Fail> {
    let refused = "signature refused length\n";
    let shorter = signature.get(..2347).unwrap_or(&[]);
    is_answered(rt, alloc, key, shorter, refused)?;
    is_answered(rt, alloc, key, &[], refused)?;
    let mut longer = signature.to_vec(alloc)?;
    longer.push(0)?;
    is_answered(rt, alloc, key, longer.as_slice(), refused)
}

/// Each of the changed signatures is answered so.
fn changes_are_answered(
    rt: &impl Abort,
    alloc: Global,
    key: &PublicKey,
    signature: &[u8],
) -> Result<(), Fail> {
    for set in SETS {
        set_is_answered(rt, alloc, key, signature, set)?;
    }
    flips_are_refused(rt, alloc, key, signature)?;
    lengths_are_refused(rt, alloc, key, signature)
}

#[test]
fn a_signature_and_changed_ones(rt: HostRuntime) -> Result<(), Fail> {
    let (key, signature) = signed(rt.alloc(), b"message")?;
    changes_are_answered(&rt, rt.alloc(), &key, signature.as_slice())
}

/// The signature of the empty message is good.
fn is_good(rt: &impl Abort, alloc: Global, key: &PublicKey, signature: &[u8]) -> Result<(), Fail> {
    let text = text_of(alloc, key, b"", signature)?;
    answers(rt, alloc, "verify", text.as_str(), "signature good\n", 0)
}

/// It is good in upper case.
fn is_good_in_upper_case(
    rt: &impl Abort,
    alloc: Global,
    key: &PublicKey,
    signature: &[u8],
) -> Result<(), Fail> {
    let key = hex::encode_upper(alloc, key.write().as_slice())?;
    let signature = hex::encode_upper(alloc, signature)?;
    let text = format!(in alloc;
        "fireflies 1 verify\nkey {key}\nmessage -\nsignature {signature}\nend\n"
    )?;
    answers(rt, alloc, "verify", text.as_str(), "signature good\n", 0)
}

#[test]
fn an_empty_message_and_upper_case(rt: HostRuntime) -> Result<(), Fail> {
    let (key, signature) = signed(rt.alloc(), b"")?;
    is_good(&rt, rt.alloc(), &key, signature.as_slice())?;
    is_good_in_upper_case(&rt, rt.alloc(), &key, signature.as_slice())
}

const KEY: &str =
    "key 0000000500000003000102030405060708090a0b0c0d0e0f000102030405060708090a0b0c0d0e0f101112131415161718191a1b1c1d1e1f\n";

const KEY_OF_NO_TREE: &str =
    "key 0000000900000003000102030405060708090a0b0c0d0e0f000102030405060708090a0b0c0d0e0f101112131415161718191a1b1c1d1e1f\n";

/// What stands below the header, with the line of a key for `KEY`, and the line that is answered.
const REFUSED: [(&str, &str); 13] = [
    ("key 0\n", "bad 2 hex\n"),
    ("key -\n", "bad 2 hex\n"),
    ("key 00\n", "bad 2 limit\n"),
    ("key\n", "bad 2 count\n"),
    ("message -\n", "bad 2 order\n"),
    ("fireflies 1 verify\n", "bad 2 word\n"),
    ("", "bad 2 end\n"),
    ("KEYmessage 000\n", "bad 3 hex\n"),
    ("KEYmessage 0x\n", "bad 3 hex\n"),
    ("KEYmessage -\nend\n", "bad 4 order\n"),
    ("KEYmessage -\nsignature -\n", "bad 5 end\n"),
    ("KEYmessage -\nsignature -\nend", "bad 5 line-feed\n"),
    ("KEYmessage -\nsignature -\nend\nx", "bad 6 after-end\n"),
];

/// The text with these parts below its header is refused.
fn refuse(rt: &impl Abort, alloc: Global, key: &str, rest: &str, wanted: &str) -> Result<(), Fail> {
    let text = format!(in alloc; "fireflies 1 verify\n{key}{rest}")?;
    answers(rt, alloc, "verify", text.as_str(), wanted, 3)
}

#[test]
fn texts_that_are_refused(rt: HostRuntime) -> Result<(), Fail> {
    for (below_header, wanted) in REFUSED {
        let (key, rest) = match below_header.strip_prefix("KEY") {
            Some(rest) => (KEY, rest),
            None => ("", below_header),
        };
        refuse(&rt, rt.alloc(), key, rest, wanted)?;
    }
    refuse(&rt, rt.alloc(), KEY_OF_NO_TREE, "", "bad 2 limit\n")?;
    answers(&rt, rt.alloc(), "verify", "", "bad 1 end\n", 3)?;
    answers(
        &rt,
        rt.alloc(),
        "verify",
        "fireflies 1 direct\n",
        "bad 1 header\n",
        3,
    )
}

/// Answers a text with a message and a signature of so many bytes.
fn answer_lengths(
    rt: &impl Abort,
    alloc: Global,
    key: &PublicKey,
    lengths: (usize, usize),
    wanted: &str,
    number: u8,
) -> Result<(), Fail> {
    let message = vec![in alloc; 7u8; lengths.0]?;
    let signature = vec![in alloc; 8u8; lengths.1]?;
    let text = text_of(alloc, key, message.as_slice(), signature.as_slice())?;
    answers(rt, alloc, "verify", text.as_str(), wanted, number)
}

#[test]
fn bytes_at_the_limits(rt: HostRuntime) -> Result<(), Fail> {
    let (key, _) = signed(rt.alloc(), b"")?;
    for (lengths, wanted, number) in [
        ((16_384usize, 10_000usize), "signature refused length\n", 0),
        ((16_384, 2_348), "signature refused tree-type\n", 0),
        ((16_385, 2_348), "bad 3 limit\n", 3),
        ((16_384, 10_001), "bad 4 limit\n", 3),
    ] {
        answer_lengths(&rt, rt.alloc(), &key, lengths, wanted, number)?;
    }
    Ok(())
}

/// The source fails in the last line of the text.
fn cut(rt: &impl Abort, alloc: Global, text: &str) -> Result<(), Fail> {
    let got = run_failing(alloc, "verify", text, 1, &[160], &[])?;
    assert_eq!(rt; got.written.as_slice(), b"read fault\n".as_slice());
    assert_eq!(rt; got.number, 5);
    Ok(())
}

/// The sink fails in the answer.
fn cut_answer(rt: &impl Abort, alloc: Global, text: &str) -> Result<(), Fail> {
    let got = run_failing(alloc, "verify", text, 1, &[], &[9])?;
    assert_eq!(rt; got.written.as_slice(), b"signature".as_slice());
    assert_eq!(rt; got.number, 6);
    Ok(())
}

#[test]
fn nothing_is_written_before_the_end(rt: HostRuntime) -> Result<(), Fail> {
    let alloc = rt.alloc();
    let text = format!(in alloc; "fireflies 1 verify\n{KEY}message -\nsignature -\nend\n")?;
    cut(&rt, alloc, text.as_str())?;
    cut_answer(&rt, alloc, text.as_str())
}
