//! What the lines of several texts have in common, read word by word.

ghost use Rattle.std.specs.Prelude.{◌≡◌, ◌<◌, IfOk, IfSome, length};
ghost use Rattle.line_text.specs.Answers.{refusal};
ghost use Rattle.line_text.specs.Fields.{number_in};
ghost use Rattle.line_text.specs.Frame.{behind, fields_line, first_word, whole_line};
ghost use Rattle.schedule_texts.specs.Shared.{group_fields, group_in, height, key, key_in_word, lms_key, lms_key_in_word, kinds_fault_in, kinds_fields, kinds_in, one_level_fields, one_level_in, ots_in_word, ots_of_width, port, secret_fields, secret_in, tree_in_word, tree_of_height, two_level_fault, two_level_fields, two_level_in, width};

use ff_ids::{Group, MAX_TOLERANCE};
use line_text::{BadWord, Words};
use lms_ots::OtsKind;
use lms_tree::{PublicKey, TreeKind};
use records::Key;
use sign_keys::Kinds;

/// The group that the words behind `group` are.
pub fn read_group(args: Words) -> Result<Group, BadWord>
    ensures { result ≡ fields_line group_fields group_in args.entry }
{
    let mut args = args.exactly(5)?;
    let t = args.number(1, MAX_TOLERANCE as u64)?;
    let timeout = args.number(1, 10_000)?;
    let period = args.number(1, 1_000)?;
    let misses = args.number(1, 16)?;
    let tag = args.bytes::<16>()?;
    Ok(Group {
        tag,
        t: t as u8,
        timeout: timeout as u32,
        period: period as u32,
        misses: misses as u8,
    })
}

/// The kind of one-time signatures of this width.
fn ots_of_width(width: u64) -> Option<OtsKind>
    ensures { result ≡ ots_of_width width }
{
    match width {
        1 => Some(OtsKind::W1),
        2 => Some(OtsKind::W2),
        4 => Some(OtsKind::W4),
        8 => Some(OtsKind::W8),
        _ => None,
    }
}

/// The kind of trees of this height.
fn tree_of_height(height: u64) -> Option<TreeKind>
    ensures { result ≡ tree_of_height height }
{
    match height {
        5 => Some(TreeKind::H5),
        10 => Some(TreeKind::H10),
        15 => Some(TreeKind::H15),
        _ => None,
    }
}

/// Takes the width of a kind of one-time signatures.
#[tactic(auto, using(crate::proofs::FieldLemmas::no_width, crate::proofs::FieldLemmas::other_width, crate::proofs::FieldLemmas::a_width))]
fn take_width(words: &mut Words) -> Result<OtsKind, BadWord>
    ensures refused { width (first_word words.old) ≡ refusal result }
    ensures value { IfOk result (λ kind. kind ≡ ots_in_word (first_word words.old)) }
    ensures moved { words.new ≡ behind words.old }
{
    let number = words.number(1, 8)?;
    ots_of_width(number).ok_or(BadWord::Limit)
}

/// Takes the height of a kind of trees.
#[tactic(auto, using(crate::proofs::FieldLemmas::no_height, crate::proofs::FieldLemmas::other_height, crate::proofs::FieldLemmas::a_height))]
pub(crate) fn take_height(words: &mut Words) -> Result<TreeKind, BadWord>
    ensures refused { height (first_word words.old) ≡ refusal result }
    ensures value { IfOk result (λ kind. kind ≡ tree_in_word (first_word words.old)) }
    ensures moved { words.new ≡ behind words.old }
{
    let number = words.number(5, 15)?;
    tree_of_height(number).ok_or(BadWord::Limit)
}

/// The kinds of a key of one level that the words behind `kinds` are.
pub fn read_one_level(args: Words) -> Result<Kinds, BadWord>
    ensures { result ≡ fields_line one_level_fields one_level_in args.entry }
{
    let mut args = args.exactly(2)?;
    let ots = take_width(&mut args)?;
    let tree = take_height(&mut args)?;
    Ok(Kinds {
        ots,
        tree,
        bottom: None,
    })
}

/// The kinds of a key of two levels that the words are.
fn read_two_levels(args: Words) -> Result<Kinds, BadWord>
    ensures { result ≡ whole_line two_level_fields two_level_fault two_level_in args.entry }
{
    let mut args = args.exactly(3)?;
    let ots = take_width(&mut args)?;
    let tree = take_height(&mut args)?;
    let bottom = Some(take_height(&mut args)?);
    let kinds = Kinds { ots, tree, bottom };
    if kinds.is_in_profile() {
        Ok(kinds)
    } else {
        Err(BadWord::Limit)
    }
}

/// The kinds that the words behind `kinds` are: of a key of one level, or of two.
#[tactic(auto, using(crate::proofs::KindLemmas::kinds_short, crate::proofs::KindLemmas::kinds_long))]
pub fn read_kinds(args: Words) -> Result<Kinds, BadWord>
    ensures { result ≡ whole_line (kinds_fields args.entry) kinds_fault_in kinds_in args.entry }
{
    if args.count() == 3 {
        read_two_levels(args)
    } else {
        read_one_level(args)
    }
}

/// The secret that the word behind `secret` is.
pub fn read_secret(args: Words) -> Result<[u8; 32], BadWord>
    ensures { result ≡ fields_line secret_fields secret_in args.entry }
{
    args.exactly(1)?.bytes::<32>()
}

/// Takes a port.
pub fn take_port(words: &mut Words) -> Result<u16, BadWord>
    ensures refused { port (first_word words.old) ≡ refusal result }
    ensures value { IfOk result (λ n. n ≡ number_in (first_word words.old)) }
    ensures some { IfOk result (λ n. 0 < n) }
    ensures moved { words.new ≡ behind words.old }
{
    let number = words.number(1, 65_535)?;
    Ok(number as u16)
}

/// Takes a public key of one level in 56 bytes, whose two types are known.
#[tactic(auto, using(crate::proofs::FieldLemmas::no_lms_key))]
pub fn take_lms_key(words: &mut Words) -> Result<PublicKey, BadWord>
    ensures refused { lms_key (first_word words.old) ≡ refusal result }
    ensures value { IfOk result (λ k. k ≡ lms_key_in_word (first_word words.old)) }
    ensures moved { words.new ≡ behind words.old }
{
    let bytes = words.bytes::<56>()?;
    match PublicKey::read(&bytes) {
        Ok(key) => Ok(key),
        Err(_) => Err(BadWord::Limit),
    }
}

/// Takes a key of two levels, whose word has 120 digits.
#[tactic(auto, using(crate::proofs::FieldLemmas::no_long_key))]
fn take_long_key(words: &mut Words) -> Result<Key, BadWord>
    requires { length (first_word words.old) ≡ 120 }
    ensures refused { key (first_word words.old) ≡ refusal result }
    ensures value { IfOk result (λ k. k ≡ key_in_word (first_word words.old)) }
    ensures moved { words.new ≡ behind words.old }
{
    let bytes = words.bytes::<60>()?;
    match Key::read(&bytes) {
        Ok(key) => Ok(key),
        Err(_) => Err(BadWord::Limit),
    }
}

/// Takes the public key of a member: of two levels where its word has 120 digits, and else of one.
#[tactic(auto, using(crate::proofs::FieldLemmas::no_key))]
pub fn take_key(words: &mut Words) -> Result<Key, BadWord>
    ensures refused { key (first_word words.old) ≡ refusal result }
    ensures value { IfOk result (λ k. k ≡ key_in_word (first_word words.old)) }
    ensures moved { words.new ≡ behind words.old }
{
    if words.next_length() == 120 {
        return take_long_key(words);
    }
    let bytes = words.bytes::<56>()?;
    match Key::read(&bytes) {
        Ok(key) => Ok(key),
        Err(_) => Err(BadWord::Limit),
    }
}
