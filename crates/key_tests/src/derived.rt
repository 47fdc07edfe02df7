//! Values of another implementation, for the tag of zeros.

use ff_ids::{Group, KeyBytes};
use lms_ots::OtsKind;
use lms_tree::TreeKind;
use secrets::{make_key, nonce_seed, store_tag, world_secret};
use sign_keys::Kinds;
use std::alloc::Global;
use std::process::Abort;
use std::test::Fail;

const SECRET_OF_1: [u8; 32] =
    *b"\xb9\x42\xc8\x48\x3e\x67\x51\x1c\xff\x72\xd3\x74\x6b\x01\xd7\x71\x35\x4b\x5d\x46\xf4\xa5\xd9\x2a\x43\xbb\xd8\x2d\x71\xe5\x99\x95";

const KEY_OF_1: [u8; 56] =
    *b"\x00\x00\x00\x05\x00\x00\x00\x02\x63\x00\xc9\x57\x19\xa9\xfe\x3c\x48\x6e\x88\x9c\x7a\xdc\x37\x0e\x44\x70\x97\xd9\x46\x98\xe1\x3f\xf9\xcc\xff\xdc\xff\xae\x03\x9f\x94\xb4\xdf\x48\x0f\xa4\x15\xd9\xd6\xe0\x0e\x51\x47\x6c\x4e\x30";

/// The same secret's key of two levels, of W4 under a top tree of height 5.
const PAIR_OF_1: [u8; 60] =
    *b"\x00\x00\x00\x02\x00\x00\x00\x05\x00\x00\x00\x03\x63\x00\xc9\x57\x19\xa9\xfe\x3c\x48\x6e\x88\x9c\
    \x7a\xdc\x37\x0e\x1b\xcc\xb5\x9e\xc1\x4a\xc9\xf6\x4a\x2b\x21\xdc\x0a\x41\xe6\xcf\x55\x5b\x33\x75\
    \x0f\x13\xbe\xb3\x02\x8d\xa5\x9e\x2b\x06\x6e\x7b";

const GROUP: Group = Group {
    tag: [0; 16],
    t: 1,
    timeout: 4,
    period: 1,
    misses: 2,
};

/// Kinds, the public key, and the mark of its store in the group: it tells the heights of bottom trees apart.
const KEYS: [(Kinds, KeyBytes, [u8; 32]); 3] = [
    (
        Kinds {
            ots: OtsKind::W2,
            tree: TreeKind::H5,
            bottom: None,
        },
        KeyBytes::Lms(KEY_OF_1),
        *b"\xd2\xe8\xfd\x30\x23\x19\x47\x8c\xcf\x96\xe1\xf0\x72\xee\xcb\x11\xcc\xc2\xcc\x03\x46\xe6\xfa\xc5\xcf\x9f\x09\x93\x05\x30\xfe\x9a",
    ),
    (
        Kinds {
            ots: OtsKind::W4,
            tree: TreeKind::H5,
            bottom: Some(TreeKind::H5),
        },
        KeyBytes::Hss(PAIR_OF_1),
        *b"\xc7\x77\x70\xb0\x73\xf1\xff\x4e\xed\x91\x85\x78\x85\x8d\xb2\xd4\xad\x18\xe7\xa0\xbb\x9a\x91\x12\xb6\xcf\xb8\x9b\xc0\xd4\x1c\xb8",
    ),
    (
        Kinds {
            ots: OtsKind::W4,
            tree: TreeKind::H5,
            bottom: Some(TreeKind::H10),
        },
        KeyBytes::Hss(PAIR_OF_1),
        *b"\xc9\x3e\xb9\x26\x65\xbc\x63\x56\xe5\xf3\x4d\x92\xcd\x3b\x56\xe3\x41\x88\x65\x27\xff\x3f\x58\x70\xfb\xf1\xde\x26\xf9\x75\x5d\x1a",
    ),
];

fn compare(
    rt: &impl Abort,
    alloc: Global,
    kinds: Kinds,
    public: &KeyBytes,
    tag: &[u8; 32],
) -> Result<(), Fail> {
    assert!(rt; kinds.is_in_profile());
    let made = make_key(alloc, kinds, &SECRET_OF_1)?;
    assert_eq!(rt; made.public().write(), *public);
    assert_eq!(rt; store_tag(&GROUP, &made), *tag);
    Ok(())
}

#[test]
fn a_secret_gives_a_key(rt: HostRuntime) -> Result<(), Fail> {
    for (kinds, public, tag) in &KEYS {
        compare(&rt, rt.alloc(), *kinds, public, tag)?;
    }
    Ok(())
}

#[test]
fn secrets_and_seeds(rt: HostRuntime) {
    assert_eq!(rt; world_secret(&[0; 16], 1), SECRET_OF_1);
    let authority =
        *b"\xa4\x29\x9f\x07\x8f\xf4\x8d\x18\x6e\x99\x1a\x91\x37\xab\x1f\x9c\x94\x27\x9f\x24\x86\xeb\xc2\x0b\xf2\x03\x3d\xbb\x74\xe9\x8b\xfc";
    assert_eq!(rt; world_secret(&[0; 16], 65_535), authority);
    let seed =
        *b"\xb3\xba\x5f\xc5\xb2\x2a\x4b\x00\x9f\x8c\xd6\x5e\xb2\xc9\x2e\x08\x9c\x74\x08\x91\xa0\x4b\x61\xfd\x46\xdc\x59\xbd\x66\xad\x88\xfc";
    assert_eq!(rt; nonce_seed(&SECRET_OF_1, 258), seed);
}
