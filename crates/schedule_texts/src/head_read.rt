//! The lines that no earlier line decides but that of the state, read word by word.

ghost use Rattle.std.specs.Prelude.{◌≡◌, [], None};
ghost use Rattle.line_text.specs.Frame.{fields_line, whole_line, word_or_bad};
ghost use Rattle.records.specs.declared.keys.Key.TheVariants.{Hss};
ghost use Rattle.schedule_texts.specs.declared.head_line.HeadLine.TheVariants.{Journal};
ghost use Rattle.schedule_texts.specs.HeadRows.{authority_fields, authority_line, journal_fault, line_word, own_fields, own_line, state_fault_in, state_fields, state_in};

use crate::head_line::{HeadLine, LineWord};
use crate::kit_read::take_member;
use crate::shared::take_height;
use crate::take_lms_key;
use ff_ids::Mask;
use hss::HssKey;
use line_text::{BadWord, Words};
use records::Key;
use sign_keys::Kinds;

/// The greatest next index of a store.
const LAST_NEXT: u64 = 32_768;

/// The greatest mask of a store: one with no bit at or above 63.
const LAST_MASK: u64 = 9_223_372_036_854_775_807;

/// The line word that a word is.
pub(crate) fn line_word(word: &[u8]) -> Result<LineWord, BadWord>
    ensures { result ≡ word_or_bad (line_word word.now) }
{
    if word == b"group".as_slice() {
        Ok(LineWord::Group)
    } else if word == b"heal".as_slice() {
        Ok(LineWord::Heal)
    } else if word == b"self".as_slice() {
        Ok(LineWord::Own)
    } else if word == b"authority".as_slice() {
        Ok(LineWord::Authority)
    } else if word == b"cert".as_slice() {
        Ok(LineWord::Cert)
    } else if word == b"state".as_slice() {
        Ok(LineWord::State)
    } else if word == b"journal".as_slice() {
        Ok(LineWord::Journal)
    } else if word == b"end".as_slice() {
        Ok(LineWord::End)
    } else {
        Err(BadWord::Word)
    }
}

pub(crate) fn own_line(args: Words) -> Result<HeadLine, BadWord>
    ensures { result ≡ fields_line own_fields own_line args.entry }
{
    let mut args = args.exactly(1)?;
    let member = take_member(&mut args)?;
    Ok(HeadLine::Own(member))
}

pub(crate) fn authority_line(args: Words) -> Result<HeadLine, BadWord>
    ensures { result ≡ fields_line authority_fields authority_line args.entry }
{
    let mut args = args.exactly(1)?;
    let key = take_lms_key(&mut args)?;
    Ok(HeadLine::Authority(key))
}

/// The state that the words are, where the own key isn't known to have two levels.
fn short_state(args: Words) -> Result<HeadLine, BadWord>
    ensures { result ≡ fields_line (state_fields None args.entry) (state_in None) args.entry }
{
    let mut args = args.exactly(3)?;
    let next = args.number(0, LAST_NEXT)?;
    let epoch = args.number(0, next)?;
    let mask = args.number(0, LAST_MASK)?;
    Ok(HeadLine::State {
        next: next as u32,
        epoch,
        mask: Mask(mask),
        bottom: None,
    })
}

/// The state that the words are, where the own key is this one of two levels.
fn long_state(key: &HssKey, args: Words) -> Result<HeadLine, BadWord>
    ensures { result
        ≡ whole_line (state_fields (Some (Hss key.now)) args.entry)
        (state_fault_in (Some (Hss key.now))) (state_in (Some (Hss key.now))) args.entry }
{
    let mut args = args.exactly(4)?;
    let next = args.number(0, LAST_NEXT)?;
    let epoch = args.number(0, next)?;
    let mask = args.number(0, LAST_MASK)?;
    let bottom = take_height(&mut args)?;
    let kinds = Kinds {
        ots: key.top.ots,
        tree: key.top.tree,
        bottom: Some(bottom),
    };
    if kinds.is_in_profile() {
        Ok(HeadLine::State {
            next: next as u32,
            epoch,
            mask: Mask(mask),
            bottom: Some(bottom),
        })
    } else {
        Err(BadWord::Limit)
    }
}

/// The state that the words behind `state` are, where this is the key in the own certificate.
#[tactic(auto, using(crate::proofs::StateLemmas::of_none, crate::proofs::StateLemmas::of_one_level, crate::proofs::StateLemmas::of_two_levels))]
pub(crate) fn state_line(own: &Option<Key>, args: Words) -> Result<HeadLine, BadWord>
    ensures { result
        ≡ whole_line (state_fields own.now args.entry) (state_fault_in own.now) (state_in own.now)
        args.entry }
{
    match own {
        Some(Key::Hss(key)) => long_state(key, args),
        Some(Key::Lms(_)) => short_state(args),
        None => short_state(args),
    }
}

/// The line `journal`, where the own number has a certificate or hasn't.
pub(crate) fn journal_line(is_owned: bool, args: Words) -> Result<HeadLine, BadWord>
    ensures { result
        ≡ whole_line [] (λ _. journal_fault is_owned) (λ _. Journal) args.entry }
{
    args.exactly(0)?;
    if is_owned {
        Ok(HeadLine::Journal)
    } else {
        Err(BadWord::OwnKey)
    }
}
