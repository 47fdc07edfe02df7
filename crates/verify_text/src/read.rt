//! The lines, read word by word.

ghost use Rattle.std.specs.Prelude.{◌≡◌, IfOk, length};
ghost use Rattle.line_text.specs.Answers.{AnswersBy, refusal};
ghost use Rattle.line_text.specs.Frame.{behind, fields_line, first_word};
ghost use Rattle.verify_text.specs.Rows.{TakesMemory, fields_of, key, key_in_word, line_of};

use crate::line::{LineWord, VerifyLine};
use line_text::{BadWord, LineFault, Words};
use records::Key;
use std::alloc::Global;

/// How many bytes a message may have.
const MESSAGE: usize = 16_384;

/// How many bytes a signature may have.
const SIGNATURE: usize = 10_000;

/// Takes a key of two levels, whose word has 120 digits.
#[tactic(auto, using(crate::proofs::ReadingLemmas::no_long_key))]
fn take_long_key(words: &mut Words) -> Result<Key, BadWord>
    requires { length (first_word words.old) ≡ 120 }
    ensures refused { key (first_word words.old) ≡ refusal result }
    ensures value { IfOk result (λ k. k ≡ key_in_word (first_word words.old)) }
    ensures moved { words.new ≡ behind words.old }
{
    let bytes = words.bytes::<60>()?;
    match Key::read(&bytes) {
        Ok(key) => Ok(key),
        Err(_) => Err(BadWord::Limit),
    }
}

/// Takes a public key: of two levels where its word has 120 digits, and else of one.
#[tactic(auto, using(crate::proofs::ReadingLemmas::no_key))]
fn take_key(words: &mut Words) -> Result<Key, BadWord>
    ensures refused { key (first_word words.old) ≡ refusal result }
    ensures value { IfOk result (λ k. k ≡ key_in_word (first_word words.old)) }
    ensures moved { words.new ≡ behind words.old }
{
    if words.next_length() == 120 {
        return take_long_key(words);
    }
    let bytes = words.bytes::<56>()?;
    match Key::read(&bytes) {
        Ok(key) => Ok(key),
        Err(_) => Err(BadWord::Limit),
    }
}

pub(crate) fn key_line(args: Words) -> Result<VerifyLine, BadWord>
    ensures { result ≡ fields_line (fields_of LineWord.Key) (line_of LineWord.Key) args.entry }
{
    let mut args = args.exactly(1)?;
    let key = take_key(&mut args)?;
    Ok(VerifyLine::Key(key))
}

pub(crate) fn message_line(alloc: Global, args: Words) -> Result<VerifyLine, LineFault>
    ensures { AnswersBy TakesMemory
        (fields_line (fields_of LineWord.Message) (line_of LineWord.Message) args.entry)
        result }
{
    let mut args = args.exactly(1)?;
    let bytes = args.bytes_up_to(alloc, MESSAGE)?;
    Ok(VerifyLine::Message(bytes))
}

pub(crate) fn signature_line(alloc: Global, args: Words) -> Result<VerifyLine, LineFault>
    ensures { AnswersBy TakesMemory
        (fields_line (fields_of LineWord.Signature) (line_of LineWord.Signature) args.entry)
        result }
{
    let mut args = args.exactly(1)?;
    let bytes = args.bytes_up_to(alloc, SIGNATURE)?;
    Ok(VerifyLine::Signature(bytes))
}

pub(crate) fn end_line(args: Words) -> Result<VerifyLine, BadWord>
    ensures { result ≡ fields_line (fields_of LineWord.End) (line_of LineWord.End) args.entry }
{
    args.exactly(0)?;
    Ok(VerifyLine::End)
}
