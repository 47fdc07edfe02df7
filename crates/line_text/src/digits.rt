//! Bytes that are spelled in hexadecimal digits.

ghost use Rattle.std.specs.Prelude.{◌≡◌, ⊤, is_ok, IfOk};
ghost use Rattle.std.specs.List.{list_all};
ghost use Rattle.hex.specs.Hex.{decode_of, is_hex_digit};
ghost use Rattle.line_text.specs.Answers.{AnswersBy, read_bytes, refusal};
ghost use Rattle.line_text.specs.Fields.{hex, hex_of};

use crate::bad_word::{BadWord, LineFault};
use fields::Bytes;
use hex::FromHex;
use std::alloc::Global;

fn is_hex_digit(c: u8) -> bool
    ensures { result ≡ is_hex_digit c }
{
    matches!(c, b'0'..=b'9' | b'a'..=b'f' | b'A'..=b'F')
}

fn are_hex_digits(word: &[u8]) -> bool
    ensures { result ≡ list_all is_hex_digit word.now }
{
    word.iter().all(|c| is_hex_digit(*c))
}

/// Whether the word is an even number of hexadecimal digits.
#[tactic(auto, using(crate::proofs::HexWords::is_spelled))]
fn is_hex(word: &[u8]) -> bool
    ensures { result ≡ is_ok (decode_of word.now) }
{
    word.len() % 2 == 0 && are_hex_digits(word)
}

/// The bytes that the word spells, no more than `most`; `-` for none. The word is judged before memory is
/// asked for.
pub(crate) fn bytes_up_to(alloc: Global, most: usize, word: &[u8]) -> Result<Bytes, LineFault>
    ensures { AnswersBy (λ _. ⊤) (read_bytes most word.now) result }
{
    if word == b"-".as_slice() {
        return Ok(Bytes::from_vec(Vec::new(alloc)));
    }
    if !is_hex(word) {
        return Err(LineFault::Bad(BadWord::Hex));
    }
    if word.len() / 2 > most {
        return Err(LineFault::Bad(BadWord::Limit));
    }
    match hex::decode(alloc, word) {
        Ok(bytes) => Ok(Bytes::from_vec(bytes)),
        Err(_) => Err(LineFault::OutOfMemory),
    }
}

/// The `N` bytes that the word spells.
pub(crate) fn exact_bytes<const N: usize>(word: &[u8]) -> Result<[u8; N], BadWord>
    ensures refused { hex N word.now ≡ refusal result }
    ensures value { IfOk result (λ bytes. hex_of word.now ≡ Some bytes) }
{
    if !is_hex(word) {
        return Err(BadWord::Hex);
    }
    match <[u8; N] as FromHex>::from_hex(word) {
        Ok(bytes) => Ok(bytes),
        Err(_) => Err(BadWord::Limit),
    }
}
