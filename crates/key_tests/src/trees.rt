//! The LMS signatures of RFC 8554's test cases, and keys of each kind that sign.

mod signed;
pub mod vectors;

ghost use Rattle.std.specs.Prelude.{◌≡◌, length};
ghost use Rattle.lms_tree.specs.Kinds.{signature_length};

use lms_ots::OtsKind;
use lms_tree::{Leaves, PublicKey, SecretKey, SigFault, Tree, TreeKind, verify};
use sha2::{Digest, Sha256};
use signed::Case;
use std::alloc::Global;
use std::process::Abort;
use std::test::Fail;

// The signature is good, and one over another message is not.
fn compare(rt: &impl Abort, key: &[u8], message: &[u8], signature: &[u8]) {
    let key = PublicKey::read(key).expect(rt, "a public key");
    assert_eq!(rt; verify(&key, message, signature), Ok(()));
    assert_eq!(rt; verify(&key, b"another", signature), Err(SigFault::Root));
}

#[test]
fn verifies_the_signatures_of_rfc8554(rt: HostRuntime) {
    compare(
        &rt,
        vectors::UPPER_1_KEY,
        vectors::LOWER_1_KEY,
        vectors::UPPER_1_SIGNATURE,
    );
    compare(
        &rt,
        vectors::LOWER_1_KEY,
        vectors::LOWER_1_MESSAGE,
        vectors::LOWER_1_SIGNATURE,
    );
    compare(
        &rt,
        vectors::UPPER_2_KEY,
        vectors::LOWER_2_KEY,
        vectors::UPPER_2_SIGNATURE,
    );
    compare(
        &rt,
        vectors::LOWER_2_KEY,
        vectors::LOWER_2_MESSAGE,
        vectors::LOWER_2_SIGNATURE,
    );
}

// The lower key of test case 2, from its seed and identifier.
#[test]
fn makes_a_key_of_rfc8554_and_signs_with_its_last_leaf(rt: HostRuntime) -> Result<(), Fail> {
    let key = SecretKey::make(
        rt.alloc(),
        TreeKind::H5,
        OtsKind::W8,
        vectors::BOTTOM_ID,
        vectors::BOTTOM_SEED,
    )?;
    let public = key.public();
    assert_eq!(rt; public.write().as_slice(), vectors::LOWER_2_KEY);

    let (tree, mut leaves) = key.split();
    leaves.skip_to(31);
    let Some(leaf) = leaves.take() else {
        panic!(rt; "a leaf is left");
    };
    assert_eq!(rt; leaf.index(), 31);
    let mut signature = [0; 1292];
    tree.sign(leaf, b"message", &mut signature);
    assert_eq!(rt; verify(&public, b"message", &signature), Ok(()));
    match leaves.take() {
        None => Ok(()),
        Some(leaf) => {
            leaf.retire();
            panic!(rt; "no leaf is left");
        }
    }
}

// Signs with the next leaf.
fn sign_next(rt: &impl Abort, tree: &Tree, leaves: &mut Leaves, message: &[u8], out: &mut [u8])
    requires key { leaves.old.key ≡ tree.now }
    requires long { length out.old ≡ signature_length tree.now.tree tree.now.ots }
{
    match leaves.take() {
        Some(leaf) => tree.sign(leaf, message, out),
        None => panic!(rt; "a leaf is left"),
    }
}

// The key and the signature are those that another implementation made.
#[tactic(auto, unfolding(lms_tree::specs::Lms::public_of))]
fn compare_signed(rt: &impl Abort, alloc: Global, case: &Case) -> Result<(), Fail> {
    let key = SecretKey::make(alloc, case.tree, case.ots, case.id, case.seed)?;
    let public = key.public();
    assert_eq!(rt; public.write().as_slice(), case.public);

    let mut signature = vec![in alloc; 0u8; public.signature_length()]?;
    let (tree, mut leaves) = key.split();
    assert!(rt; case.q <= case.tree.leaf_count());
    leaves.skip_to(case.q);
    sign_next(rt, &tree, &mut leaves, case.message, &mut signature);
    assert_eq!(rt; Sha256::digest(&signature), case.digest);
    assert_eq!(rt; verify(&public, case.message, &signature), Ok(()));
    Ok(())
}

#[test]
fn signs_as_another_implementation_does(rt: HostRuntime) -> Result<(), Fail> {
    compare_signed(&rt, rt.alloc(), &signed::FIRST_LEAF_W4)?;
    compare_signed(&rt, rt.alloc(), &signed::LAST_LEAF_W8)?;
    compare_signed(&rt, rt.alloc(), &signed::HEIGHT_10)?;
    compare_signed(&rt, rt.alloc(), &signed::NARROW_W1)?;
    compare_signed(&rt, rt.alloc(), &signed::NARROW_W2)
}
