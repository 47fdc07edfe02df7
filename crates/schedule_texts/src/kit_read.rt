//! The lines that no earlier line decides, read word by word.

ghost use Rattle.std.specs.Prelude.{◌≡◌, true, IfOk};
ghost use Rattle.sign_keys.specs.Kinds.{is_in_profile};
ghost use Rattle.line_text.specs.Answers.{AnswersBy, refusal};
ghost use Rattle.line_text.specs.Fields.{number_in};
ghost use Rattle.line_text.specs.Frame.{behind, fields_line, first_word, word_or_bad};
ghost use Rattle.schedule_texts.specs.KitRows.{TakesMemory, authority_line, fields_of, heal_fields, heal_in, line_word, member, own_line, tick_line};

use crate::kit_line::{KitLine, LineWord};
use crate::take_lms_key;
use ff_ids::{Heal, LAST_MEMBER, MemberId};
use line_text::{BadWord, LineFault, Words};
use secrets::make_key;
use sign_keys::Kinds;
use std::alloc::Global;

/// The line word that a word is.
pub(crate) fn line_word(word: &[u8]) -> Result<LineWord, BadWord>
    ensures { result ≡ word_or_bad (line_word word.now) }
{
    if word == b"group".as_slice() {
        Ok(LineWord::Group)
    } else if word == b"kinds".as_slice() {
        Ok(LineWord::Kinds)
    } else if word == b"heal".as_slice() {
        Ok(LineWord::Heal)
    } else if word == b"self".as_slice() {
        Ok(LineWord::Own)
    } else if word == b"authority".as_slice() {
        Ok(LineWord::Authority)
    } else if word == b"tick".as_slice() {
        Ok(LineWord::Tick)
    } else if word == b"cert".as_slice() {
        Ok(LineWord::Cert)
    } else if word == b"end".as_slice() {
        Ok(LineWord::End)
    } else {
        Err(BadWord::Word)
    }
}

/// Takes the number of a member.
pub(crate) fn take_member(words: &mut Words) -> Result<MemberId, BadWord>
    ensures refused { member (first_word words.old) ≡ refusal result }
    ensures value { IfOk result (λ m. m ≡ number_in (first_word words.old)) }
    ensures moved { words.new ≡ behind words.old }
{
    let number = words.number(0, LAST_MEMBER as u64)?;
    Ok(MemberId::new(number as u16))
}

/// The option that the words behind `heal` are.
pub(crate) fn read_heal(args: Words) -> Result<Heal, BadWord>
    ensures { result ≡ fields_line heal_fields heal_in args.entry }
{
    let mut args = args.exactly(2)?;
    let every = args.number(2, 1_000)?;
    let most = args.number(0, 1_000)?;
    match Heal::new(every as u16, most as u16) {
        Some(heal) => Ok(heal),
        None => unreachable!(),
    }
}

/// The own number and secret, and the key that it gives. The words are judged before memory is asked for.
#[tactic(auto, using(sign_keys::proofs::NewKeys::is_new_key))]
pub(crate) fn own_line(alloc: Global, kinds: Kinds, args: Words) -> Result<KitLine, LineFault>
    requires { is_in_profile kinds ≡ true }
    ensures { AnswersBy TakesMemory
        (fields_line (fields_of LineWord.Own) (own_line kinds) args.entry) result }
{
    let mut args = args.exactly(2)?;
    let member = take_member(&mut args)?;
    let secret = args.bytes::<32>()?;
    match make_key(alloc, kinds, &secret) {
        Ok(key) => Ok(KitLine::Own {
            member,
            secret,
            key,
        }),
        Err(_) => Err(LineFault::OutOfMemory),
    }
}

pub(crate) fn authority_line(args: Words) -> Result<KitLine, BadWord>
    ensures { result ≡ fields_line (fields_of LineWord.Authority) authority_line args.entry }
{
    let mut args = args.exactly(1)?;
    let key = take_lms_key(&mut args)?;
    Ok(KitLine::Authority(key))
}

pub(crate) fn tick_line(args: Words) -> Result<KitLine, BadWord>
    ensures { result ≡ fields_line (fields_of LineWord.Tick) tick_line args.entry }
{
    let mut args = args.exactly(1)?;
    let millis = args.number(1, 60_000)?;
    Ok(KitLine::Tick {
        millis: millis as u32,
    })
}
