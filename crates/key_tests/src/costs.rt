//! The formulas against the calls of SHA-256 that another implementation of RFC 8554 counted as it made a key, signed
//! and verified, with one level and with two.

use lms_cost::{PairCost, making, pair_cost, signing_and_verifying};
use lms_ots::OtsKind;
use lms_tree::TreeKind;
use std::process::Abort;

const ID: [u8; 16] = [0, 1, 2, 3, 4, 5, 6, 7, 8, 9, 10, 11, 12, 13, 14, 15];

// What a signature begins with: its leaf, the type of the one-time signature, and the randomizer.
const BY_LEAF_7: &[u8] =
    b"\x00\x00\x00\x07\x00\x00\x00\x00\x26\x9d\x47\x4a\xd9\x66\x4a\x0d\x49\x0b\xbf\x74\x20\x20\x82\x4a\
    \x6e\xea\xf0\x95\x35\xc2\xf3\x08\x6e\x28\x58\x08\x2a\xc4\x7f\x76";

const BY_LEAF_700: &[u8] =
    b"\x00\x00\x02\xbc\x00\x00\x00\x00\x9a\xf4\xe4\x8d\x2d\xb8\x00\x62\x77\xe5\xe3\xe1\x7d\x1f\xc6\x38\
    \x80\x95\xd8\x48\x07\x72\x8a\xde\x34\xcb\xb5\xf2\xcd\x8d\x6b\x23";

// The compressions of making a key of height 5, and of its leaf 7 over "abc": signing and verifying.
fn compare(rt: &impl Abort, kind: OtsKind, made: u64, signed: u64, verified: u64) {
    assert_eq!(rt; making(TreeKind::H5, kind), made);
    let counted = signing_and_verifying(TreeKind::H5, kind, &ID, b"abc", BY_LEAF_7);
    assert_eq!(rt; counted, (signed, verified));
}

#[test]
fn counts_what_another_implementation_counted(rt: HostRuntime) {
    compare(&rt, OtsKind::W1, 21_310, 394, 285);
    compare(&rt, OtsKind::W2, 19_262, 328, 287);
    compare(&rt, OtsKind::W4, 35_486, 580, 542);
    compare(&rt, OtsKind::W8, 279_198, 4117, 4621);
    assert_eq!(rt; making(TreeKind::H10, OtsKind::W2), 616_446);
    let counted = signing_and_verifying(TreeKind::H10, OtsKind::W2, &ID, &[0; 100], BY_LEAF_700);
    assert_eq!(rt; counted, (349, 280));
}

// A signature of two levels, of heights 5 and 5, by what its cost depends on: what the top key's signature begins with, the
// bottom key, and what its signature of the message begins with.
struct Pair {
    kind: OtsKind,
    id: [u8; 16],
    message: &'static [u8],
    by_top: [u8; 40],
    key: [u8; 56],
    by_bottom: [u8; 40],
}

const PAIR_W4: Pair = Pair {
    kind: OtsKind::W4,
    id: *b"\xf5\x7f\x32\x9a\x77\x32\x41\xca\x83\x92\xc5\xd6\xd1\x8f\xa5\xf6",
    message: b"\xed",
    by_top: *b"\x00\x00\x00\x01\x00\x00\x00\x03\x9f\x4c\xaf\x0b\xf3\x1c\x29\x60\x2d\x4d\xa7\xac\xdb\xa4\xb5\x6d\
        \x36\x84\x8c\x1a\x6c\xf9\x1c\x1d\x48\xe0\xed\x7e\x41\x5e\xf1\x2f",
    key: *b"\x00\x00\x00\x05\x00\x00\x00\x03\x69\x4b\xab\x44\x07\xca\x1a\x0f\xee\x07\xd7\x05\x97\x18\xc4\x2c\
        \x26\x58\x89\x80\x13\xef\x60\x56\x76\x07\xeb\xa0\xa9\xc4\xc4\xb4\x17\x45\xc1\x7a\xf0\x94\xa2\x46\
        \x38\xda\xdd\x08\x79\x26\xca\x5e",
    by_bottom: *b"\x00\x00\x00\x00\x00\x00\x00\x03\x06\xf8\xff\xde\x38\x33\xd7\xb5\x4c\x73\xb0\xdb\xd3\xe5\x81\x78\
        \x2a\x94\xd3\x14\x65\x3f\xd8\x86\x86\xfe\xb4\x1d\x83\x82\xb4\x6d",
};

const PAIR_W8: Pair = Pair {
    kind: OtsKind::W8,
    id: *b"\x90\x95\x31\xee\xfd\x0e\x30\x4d\x15\xa5\xf2\x38\xc9\xe9\x6a\xfd",
    message: b"\xcc\x0d",
    by_top: *b"\x00\x00\x00\x01\x00\x00\x00\x04\x5c\x97\x98\x16\xcd\x70\xe5\xc4\x43\x29\x1f\xe3\x8a\xa6\xc3\x75\
        \xe5\x73\xe5\xf3\xd9\x92\xbb\xe0\x0f\x99\xaa\x27\x12\xc0\xe9\x93",
    key: *b"\x00\x00\x00\x05\x00\x00\x00\x04\x26\x87\x18\x05\xb0\xbd\xda\xc0\x2b\xbc\xf0\x64\x49\x49\x0c\xdf\
        \xe9\xb6\x2f\x6a\x9b\xcc\x17\x44\x86\x64\x35\xbd\x6b\x39\x0c\xe9\x30\x95\x1a\x9d\x4b\x1e\x6a\xca\
        \x9f\x7d\xfe\x86\xa6\x78\x0d\x24",
    by_bottom: *b"\x00\x00\x00\x01\x00\x00\x00\x04\x0d\x6b\xf5\x4d\x9a\x23\xfe\x02\xc0\x03\x4f\x3a\x0d\x89\x28\xdd\
        \xfc\xd5\x68\x02\xcd\x25\x94\xb0\x99\x0c\x00\xdf\xd1\xa5\xed\x00",
};

// The compressions of the bottom tree with the top key's signature, of signing and of verifying.
fn compare_pair(rt: &impl Abort, pair: &Pair, bottom: u64, signing: u64, verifying: u64) {
    let mut signature = [0u8; 8784];
    let key_at = 172 + pair.kind.signature_length();
    signature[4..44].copy_from_slice(&pair.by_top);
    signature[key_at..key_at + 56].copy_from_slice(&pair.key);
    signature[key_at + 56..key_at + 96].copy_from_slice(&pair.by_bottom);
    let (top, below) = (TreeKind::H5, TreeKind::H5);
    let counted = pair_cost(top, below, pair.kind, &pair.id, pair.message, &signature);
    let wanted = PairCost {
        bottom,
        signing,
        verifying,
    };
    assert_eq!(rt; counted, wanted);
}

#[test]
fn counts_what_another_implementation_counted_of_two_levels(rt: HostRuntime) {
    compare_pair(&rt, &PAIR_W4, 36_114, 549, 1068);
    compare_pair(&rt, &PAIR_W8, 284_083, 3607, 8987);
}
