//! Keys of two levels: the whole test cases of RFC 8554, each fault of a key and of a signature, and pairs that sign.

mod signed;

ghost use Rattle.std.specs.Prelude.{◌≡◌, ◌≢◌, Some, length};
ghost use Rattle.hss.specs.Pairs.{index_count, signature_length, tree_of};

use crate::trees::vectors;
use hss::{HssFault, HssKey, HssKeyFault, Pair, is_in_profile, verify};
use lms_ots::OtsKind;
use lms_ots::places::{number_at, put};
use lms_tree::{SigFault, TreeKind};
use sha2::{Digest, Sha256};
use signed::Case;
use std::alloc::Global;
use std::process::Abort;
use std::test::Fail;

/// A key of two levels and its signature, in bytes.
#[derive(Drop)]
struct Vector {
    key: Vec<u8>,
    signature: Vec<u8>,
}

/// The two levels as one: the upper key and its signature, the lower key and its.
fn whole(alloc: Global, upper: (&[u8], &[u8]), lower: (&[u8], &[u8])) -> Result<Vector, Fail> {
    let mut key = Vec::from_slice(alloc, b"\x00\x00\x00\x02")?;
    key.extend_from_slice(upper.0)?;
    let mut signature = Vec::from_slice(alloc, b"\x00\x00\x00\x01")?;
    signature.extend_from_slice(upper.1)?;
    signature.extend_from_slice(lower.0)?;
    signature.extend_from_slice(lower.1)?;
    Ok(Vector { key, signature })
}

/// Test case 1: W8 and height 5 at both levels.
fn case_1(alloc: Global) -> Result<Vector, Fail> {
    whole(
        alloc,
        (vectors::UPPER_1_KEY, vectors::UPPER_1_SIGNATURE),
        (vectors::LOWER_1_KEY, vectors::LOWER_1_SIGNATURE),
    )
}

/// Test case 2: W4 and height 10 above W8 and height 5.
fn case_2(alloc: Global) -> Result<Vector, Fail> {
    whole(
        alloc,
        (vectors::UPPER_2_KEY, vectors::UPPER_2_SIGNATURE),
        (vectors::LOWER_2_KEY, vectors::LOWER_2_SIGNATURE),
    )
}

/// The signature is good, and one over another message is not.
fn compare(rt: &impl Abort, case: &Vector, message: &[u8]) {
    let key = HssKey::read(&case.key).expect(rt, "a key of two levels");
    assert_eq!(rt; key.write().as_slice(), case.key.as_slice());
    assert_eq!(rt; verify(&key, message, &case.signature), Ok(()));
    assert_eq!(rt;
        verify(&key, b"another", &case.signature),
        Err(HssFault::Bottom(SigFault::Root))
    );
}

#[test]
fn verifies_the_test_cases_of_rfc8554(rt: HostRuntime) -> Result<(), Fail> {
    compare(&rt, &case_1(rt.alloc())?, vectors::LOWER_1_MESSAGE);
    compare(&rt, &case_2(rt.alloc())?, vectors::LOWER_2_MESSAGE);
    Ok(())
}

/// Places in the key of test case 1, bits that are flipped there, and what the key is then refused for.
const KEY_FAULTS: [(usize, u8, HssKeyFault); 10] = [
    (0, 1, HssKeyFault::Levels { found: 0x0100_0002 }),
    (3, 2, HssKeyFault::Levels { found: 0 }),
    (3, 3, HssKeyFault::Levels { found: 1 }),
    (3, 1, HssKeyFault::Levels { found: 3 }),
    (7, 1, HssKeyFault::TreeType { found: 4 }),
    (7, 13, HssKeyFault::TreeType { found: 8 }),
    (11, 4, HssKeyFault::OtsType { found: 0 }),
    (11, 5, HssKeyFault::OtsType { found: 1 }),
    (11, 6, HssKeyFault::OtsType { found: 2 }),
    (11, 1, HssKeyFault::OtsType { found: 5 }),
];

/// The bits at the place are flipped.
fn flip(rt: &impl Abort, bytes: &mut [u8], place: usize, bits: u8) {
    assert!(rt; place < bytes.len());
    bytes[place] ^= bits;
}

fn refuses_keys(rt: &impl Abort, key: &mut [u8]) {
    for (place, bits, fault) in &KEY_FAULTS {
        flip(rt, key, *place, *bits);
        assert_eq!(rt; HssKey::read(key), Err(*fault));
        flip(rt, key, *place, *bits);
    }
    assert!(rt; HssKey::read(key).is_ok());
}

/// Each pair of faults, of which the first in the order is answered.
fn refuses_two_in_keys(rt: &impl Abort, key: &mut [u8]) {
    for (place, bits) in [(3usize, 3u8), (7, 1), (11, 5)] {
        flip(rt, key, place, bits);
    }
    assert_eq!(rt; HssKey::read(key), Err(HssKeyFault::Levels { found: 1 }));
    flip(rt, key, 3, 3);
    assert_eq!(rt; HssKey::read(key), Err(HssKeyFault::TreeType { found: 4 }));
    flip(rt, key, 7, 1);
    assert_eq!(rt; HssKey::read(key), Err(HssKeyFault::OtsType { found: 1 }));
    flip(rt, key, 11, 5);
}

/// The first bytes, so many.
fn front<'a>(rt: &impl Abort, bytes: &'a [u8], count: usize) -> &'a [u8] {
    assert!(rt; count <= bytes.len());
    &bytes[..count]
}

/// The length is looked at first.
fn refuses_lengths(rt: &impl Abort, key: &mut Vec<u8>) -> Result<(), Fail> {
    flip(rt, key, 3, 1);
    assert_eq!(rt;
        HssKey::read(front(rt, key, 59)),
        Err(HssKeyFault::Length { found: 59 })
    );
    assert_eq!(rt; HssKey::read(b""), Err(HssKeyFault::Length { found: 0 }));
    key.push(0)?;
    assert_eq!(rt; HssKey::read(key), Err(HssKeyFault::Length { found: 61 }));
    Ok(())
}

#[test]
fn keys_are_refused_for_their_first_fault(rt: HostRuntime) -> Result<(), Fail> {
    let mut case = case_1(rt.alloc())?;
    refuses_keys(&rt, &mut case.key);
    refuses_two_in_keys(&rt, &mut case.key);
    refuses_lengths(&rt, &mut case.key)
}

/// Places in the signature of test case 1, bits that are flipped there, and what it is then refused for. Its parts begin at
/// 0 (the level), 4 (the top signature: its leaf, its type, its hashes, at 1,132 the tree's type, and the path), 1,296
/// (the bottom key: its types, identifier and root) and 1,352 (the bottom signature).
const SIGNATURE_FAULTS: [(usize, u8, HssFault); 25] = [
    (3, 1, HssFault::Levels { found: 0 }),
    (3, 3, HssFault::Levels { found: 2 }),
    (0, 1, HssFault::Levels { found: 0x0100_0001 }),
    (7, 0x25, HssFault::Top(SigFault::Index { q: 32 })),
    (7, 1, HssFault::Top(SigFault::Root)),
    (11, 7, HssFault::Top(SigFault::OtsType { found: 3 })),
    (12, 1, HssFault::Top(SigFault::Root)),
    (44, 1, HssFault::Top(SigFault::Root)),
    (1_135, 3, HssFault::Top(SigFault::TreeType { found: 6 })),
    (1_136, 1, HssFault::Top(SigFault::Root)),
    (1_295, 128, HssFault::Top(SigFault::Root)),
    (1_299, 1, HssFault::KeyType),
    (1_299, 13, HssFault::KeyType),
    (1_299, 3, HssFault::Length { found: 2_644 }),
    (1_303, 5, HssFault::KeyType),
    (1_303, 6, HssFault::KeyType),
    (1_303, 4, HssFault::KeyType),
    (1_303, 7, HssFault::Length { found: 2_644 }),
    (1_304, 1, HssFault::Top(SigFault::Root)),
    (1_351, 1, HssFault::Top(SigFault::Root)),
    (1_355, 0x2a, HssFault::Bottom(SigFault::Index { q: 32 })),
    (1_359, 7, HssFault::Bottom(SigFault::OtsType { found: 3 })),
    (1_360, 1, HssFault::Bottom(SigFault::Root)),
    (2_483, 3, HssFault::Bottom(SigFault::TreeType { found: 6 })),
    (2_643, 1, HssFault::Bottom(SigFault::Root)),
];

fn refuses_signatures(rt: &impl Abort, key: &HssKey, signature: &mut [u8]) {
    for (place, bits, fault) in &SIGNATURE_FAULTS {
        flip(rt, signature, *place, *bits);
        assert_eq!(rt;
            verify(key, vectors::LOWER_1_MESSAGE, signature),
            Err(*fault)
        );
        flip(rt, signature, *place, *bits);
    }
    assert!(rt; verify(key, vectors::LOWER_1_MESSAGE, signature).is_ok());
}

/// Each pair of faults, of which the first in the order is answered.
fn refuses_two(rt: &impl Abort, key: &HssKey, signature: &mut [u8]) {
    for (place, bits) in [(1_355usize, 0x2au8), (1_136, 1), (1_299, 13), (3, 3)] {
        flip(rt, signature, place, bits);
    }
    let message = vectors::LOWER_1_MESSAGE;
    assert_eq!(rt;
        verify(key, message, signature),
        Err(HssFault::Levels { found: 2 })
    );
    flip(rt, signature, 3, 3);
    assert_eq!(rt; verify(key, message, signature), Err(HssFault::KeyType));
    flip(rt, signature, 1_299, 13);
    assert_eq!(rt;
        verify(key, message, signature),
        Err(HssFault::Top(SigFault::Root))
    );
    flip(rt, signature, 1_136, 1);
    let index = HssFault::Bottom(SigFault::Index { q: 32 });
    assert_eq!(rt; verify(key, message, signature), Err(index));
}

/// How many bytes are left of the signature of test case 1, a place and bits that are flipped there, and what it is
/// then refused for: a length that ends before the bottom key does comes first, and one that its kinds don't have
/// comes between the faults of the key and those of the top signature.
const CUT_FAULTS: [(usize, usize, u8, HssFault); 4] = [
    (1_351, 3, 3, HssFault::Length { found: 1_351 }),
    (2_643, 3, 3, HssFault::Levels { found: 2 }),
    (2_643, 1_299, 13, HssFault::KeyType),
    (2_643, 1_136, 1, HssFault::Length { found: 2_643 }),
];

fn refuses_cut(rt: &impl Abort, key: &HssKey, signature: &mut [u8]) {
    for (count, place, bits, fault) in &CUT_FAULTS {
        flip(rt, signature, *place, *bits);
        assert_eq!(rt;
            verify(key, vectors::LOWER_1_MESSAGE, front(rt, signature, *count)),
            Err(*fault)
        );
        flip(rt, signature, *place, *bits);
    }
}

/// A signature of another length, too short for the bottom key or not.
fn refuses_signature_lengths(
    rt: &impl Abort,
    key: &HssKey,
    signature: &mut Vec<u8>,
) -> Result<(), Fail> {
    assert!(rt; signature.len() == 2_644);
    for found in [0usize, 1_351, 1_352, 2_643] {
        assert!(rt; found <= signature.len());
        assert_eq!(rt;
            verify(key, b"", &signature[..found]),
            Err(HssFault::Length { found })
        );
    }
    signature.push(0)?;
    assert_eq!(rt;
        verify(key, b"", signature),
        Err(HssFault::Length { found: 2_645 })
    );
    flip(rt, signature, 3, 1);
    assert_eq!(rt;
        verify(key, b"", signature),
        Err(HssFault::Levels { found: 0 })
    );
    Ok(())
}

#[test]
fn signatures_are_refused_for_their_first_fault(rt: HostRuntime) -> Result<(), Fail> {
    let mut case = case_1(rt.alloc())?;
    let key = HssKey::read(&case.key).expect(&rt, "a key of two levels");
    refuses_signatures(&rt, &key, &mut case.signature);
    refuses_two(&rt, &key, &mut case.signature);
    refuses_cut(&rt, &key, &mut case_1(rt.alloc())?.signature);
    refuses_signature_lengths(&rt, &key, &mut case_1(rt.alloc())?.signature)
}

/// A pair that goes on at the index.
fn pair_at(rt: &impl Abort, alloc: Global, case: &Case, index: u32) -> Result<Pair, Fail> {
    assert!(rt; case.top.height() + case.bottom.height() <= 15);
    assert!(rt; is_in_profile(case.ots));
    let mut pair = Pair::make(alloc, case.top, case.bottom, case.ots, case.id, case.seed)?;
    assert!(rt; index <= pair.index_count());
    pair.skip_to(index);
    Ok(pair)
}

/// Signs with the next index, whose bottom tree is made.
fn sign_next(rt: &impl Abort, pair: &mut Pair, message: &[u8], out: &mut [u8])
    requires made { pair.old.next ≢ index_count pair.old.key
        → pair.old.made ≡ Some (tree_of pair.old.key pair.old.next) }
    requires long { length out.old ≡ signature_length pair.old.key }
{
    match pair.take() {
        Some(leaf) => pair.sign(leaf, message, out),
        None => panic!(rt; "an index is left"),
    }
}

/// The signature of the message with the next index.
fn signature(
    rt: &impl Abort,
    alloc: Global,
    pair: &mut Pair,
    message: &[u8],
) -> Result<Vec<u8>, Fail> {
    let mut out = vec![in alloc; 0u8; pair.signature_length()]?;
    pair.prepare(alloc)?;
    sign_next(rt, pair, message, &mut out);
    Ok(out)
}

/// The key and the next signature are those that another implementation made.
fn compare_next(rt: &impl Abort, alloc: Global, pair: &mut Pair, case: &Case) -> Result<(), Fail> {
    assert_eq!(rt; pair.next(), case.index);
    let public = pair.public();
    assert_eq!(rt; public.write().as_slice(), case.public);
    let signature = signature(rt, alloc, pair, case.message)?;
    assert_eq!(rt; Sha256::digest(&signature), case.digest);
    assert_eq!(rt; verify(&public, case.message, &signature), Ok(()));
    assert_eq!(rt; u64::from(pair.next()), u64::from(case.index) + 1);
    Ok(())
}

/// The same of a pair that was just made.
fn compare_signed(rt: &impl Abort, alloc: Global, case: &Case) -> Result<(), Fail> {
    let mut pair = pair_at(rt, alloc, case, case.index)?;
    compare_next(rt, alloc, &mut pair, case)
}

/// The same of one pair, by two of its indexes.
fn compare_both(rt: &impl Abort, alloc: Global, first: &Case, second: &Case) -> Result<(), Fail> {
    let mut pair = pair_at(rt, alloc, first, first.index)?;
    compare_next(rt, alloc, &mut pair, first)?;
    assert!(rt; pair.next() <= second.index);
    assert!(rt; second.index <= pair.index_count());
    pair.skip_to(second.index);
    compare_next(rt, alloc, &mut pair, second)
}

#[test]
fn signs_as_another_implementation_does(rt: HostRuntime) -> Result<(), Fail> {
    compare_signed(&rt, rt.alloc(), &signed::FIRST_INDEX)?;
    compare_both(
        &rt,
        rt.alloc(),
        &signed::LAST_OF_A_TREE,
        &signed::FIRST_OF_THE_NEXT,
    )?;
    compare_signed(&rt, rt.alloc(), &signed::LAST_INDEX)?;
    compare_both(
        &rt,
        rt.alloc(),
        &signed::SECOND_TREE_W8,
        &signed::TREE_16_W8,
    )?;
    compare_signed(&rt, rt.alloc(), &signed::BOTTOM_OF_HEIGHT_10)?;
    compare_both(
        &rt,
        rt.alloc(),
        &signed::SECOND_OF_32768,
        &signed::LAST_OF_32768,
    )
}

/// Trees of W8 and height 10, of which each takes nine million compressions: the top one, and two bottom ones in turn.
#[test]
fn signs_with_tall_trees_as_another_implementation_does(rt: HostRuntime) -> Result<(), Fail> {
    compare_signed(&rt, rt.alloc(), &signed::TALL_TOP_W8)?;
    compare_both(
        &rt,
        rt.alloc(),
        &signed::LAST_OF_A_TALL_TREE_W8,
        &signed::FIRST_OF_THE_NEXT_TALL_TREE_W8,
    )
}

/// The first index of the second bottom tree, where both levels are of W8 and height 5: leaf 1 of the top tree stands
/// at byte 4, and leaf 0 of the bottom tree behind the bottom key.
#[test]
fn a_signature_shows_the_leaf_of_each_level(rt: HostRuntime) -> Result<(), Fail> {
    let mut pair = pair_at(&rt, rt.alloc(), &signed::SECOND_TREE_W8, 32)?;
    let public = pair.public();
    let mut signature = signature(&rt, rt.alloc(), &mut pair, b"message")?;
    assert!(rt; signature.len() == 2_644);
    assert_eq!(rt; number_at(&signature, 4), 1);
    assert_eq!(rt; number_at(&signature, 1_352), 0);
    assert_eq!(rt; verify(&public, b"message", &signature), Ok(()));
    flip(&rt, &mut signature, 3, 3);
    assert_eq!(rt;
        verify(&public, b"message", &signature),
        Err(HssFault::Levels { found: 2 })
    );
    Ok(())
}

/// The signature with the bytes of another from byte 4 up to the end, refused for this.
fn refuses_mixed(
    rt: &impl Abort,
    alloc: Global,
    key: &HssKey,
    (signature, other): (&[u8], &[u8]),
    end: usize,
    fault: HssFault,
) -> Result<(), Fail> {
    assert!(rt; 4 <= end && end <= other.len() && end <= signature.len());
    let mut mixed = Vec::from_slice(alloc, signature)?;
    put(&mut mixed, 4, &other[4..end]);
    assert_eq!(rt; verify(key, b"message", &mixed), Err(fault));
    Ok(())
}

/// Signatures of one message by one pair, with the first leaves of two bottom trees: neither the top signature of the
/// one before the bottom key of the other is good, nor both before the bottom signature of the other.
#[test]
fn parts_of_two_bottom_trees_do_not_fit(rt: HostRuntime) -> Result<(), Fail> {
    let alloc = rt.alloc();
    let case = &signed::FIRST_INDEX;
    let mut pair = pair_at(&rt, alloc, case, 0)?;
    let key = pair.public();
    let first = signature(&rt, alloc, &mut pair, b"message")?;
    let mut pair = pair_at(&rt, alloc, case, 32)?;
    let second = signature(&rt, alloc, &mut pair, b"message")?;
    let (top, bottom) = (
        HssFault::Top(SigFault::Root),
        HssFault::Bottom(SigFault::Root),
    );
    // The bottom key begins and ends there, since both levels are of W4 and height 5.
    for (end, fault) in [(2_352usize, top), (2_408, bottom)] {
        refuses_mixed(&rt, alloc, &key, (&first, &second), end, fault)?;
        refuses_mixed(&rt, alloc, &key, (&second, &first), end, fault)?;
    }
    Ok(())
}

/// The fronts of two signatures, of a pair and of the same made again, with indexes of one bottom tree, are the same: the top
/// leaf signs one message.
#[test]
fn a_pair_made_again_signs_the_same_key(rt: HostRuntime) -> Result<(), Fail> {
    let alloc = rt.alloc();
    let case = &signed::FIRST_INDEX;
    let first = signature(&rt, alloc, &mut pair_at(&rt, alloc, case, 33)?, b"first")?;
    let second = signature(&rt, alloc, &mut pair_at(&rt, alloc, case, 63)?, b"second")?;
    let next = signature(&rt, alloc, &mut pair_at(&rt, alloc, case, 64)?, b"second")?;
    // The level, the top signature and the bottom key, where both levels are of W4 and height 5.
    let bytes = 2_408;
    assert_eq!(rt; front(&rt, &first, bytes), front(&rt, &second, bytes));
    assert!(rt; front(&rt, &first, bytes) != front(&rt, &next, bytes));
    Ok(())
}

/// Behind the last index there is none.
fn is_used_up(rt: &impl Abort, alloc: Global, pair: &mut Pair) -> Result<(), Fail> {
    pair.prepare(alloc)?;
    match pair.take() {
        None => Ok(()),
        Some(leaf) => {
            leaf.retire();
            panic!(rt; "no index is left");
        }
    }
}

/// The border between two bottom trees, and the last index.
#[test]
fn a_pair_goes_on_to_its_last_index(rt: HostRuntime) -> Result<(), Fail> {
    let alloc = rt.alloc();
    let mut pair = pair_at(&rt, alloc, &signed::FIRST_INDEX, 31)?;
    let public = pair.public();
    // The last index of a tree, and two of the next, which is kept for the second.
    for message in [b"before", b"behind", b"within"] {
        let signature = signature(&rt, alloc, &mut pair, message)?;
        assert_eq!(rt; verify(&public, message, &signature), Ok(()));
    }
    assert_eq!(rt; pair.next(), 34);
    pair.skip_to(1_023);
    let last = signature(&rt, alloc, &mut pair, b"last")?;
    assert_eq!(rt; verify(&public, b"last", &last), Ok(()));
    assert_eq!(rt; pair.next(), 1_024);
    is_used_up(&rt, alloc, &mut pair)
}
