// Words of hexadecimal digits, in lower case.

ghost use Rattle.std.specs.Prelude.{◌≡◌, ◌*◌, IfOk, IsTrue, length};
ghost use Rattle.std.specs.List.{list_all};
ghost use Rattle.journal.specs.Words.{Reads, bytes_of, is_lower_digit, is_spelled, key_of, token_at};
ghost use Rattle.journal.specs.Turns.{bytes_or_dash, or_no_bytes};

use crate::words::{Misread, Words};
use fields::{Bytes, NoMemory};
use hex::FromHex;
use records::Key;
use std::alloc::Global;
use std::marker::Model;

/// The digits of one or more bytes, in lower case. Contracts see the bytes.
#[derive(Drop)]
pub struct HexWord<'a> {
    digits: &'a [u8],
}

impl<'a> Model for HexWord<'a> {
    ghost use Rattle.std.specs.Prelude.{ℕ, List, IsTrue};
    ghost use Rattle.journal.specs.Words.{bytes_in, is_spelled};

    ghost Value = { List ℕ };

    ghost view = { λ w. bytes_in w.digits.now };

    ghost invariant = { λ w. IsTrue (is_spelled w.digits.now) };
}

fn is_lower_digit(c: u8) -> bool
    ensures { result ≡ is_lower_digit c }
{
    matches!(c, b'0'..=b'9' | b'a'..=b'f')
}

fn are_lower_digits(word: &[u8]) -> bool
    ensures { result ≡ list_all is_lower_digit word.now }
{
    word.iter().all(|c| is_lower_digit(*c))
}

/// Whether the word is the digits of one or more bytes, in lower case.
fn is_spelled(word: &[u8]) -> bool
    ensures { result ≡ is_spelled word.now }
{
    !word.is_empty() && word.len() % 2 == 0 && are_lower_digits(word)
}

impl<'a> HexWord<'a> {
    /// The bytes of which the word is the digits.
    #[tactic(auto, using(crate::proofs::HexWords::spelled_bytes))]
    fn of(word: &'a [u8]) -> Option<HexWord<'a>>
        ensures { result ≡ bytes_of word.now }
    {
        if is_spelled(word) {
            Some(HexWord { digits: word })
        } else {
            None
        }
    }

    /// The bytes, in memory of their own.
    #[tactic(auto, using(crate::proofs::HexWords::decodes_in))]
    pub fn decode(&self, alloc: Global) -> Result<Bytes, NoMemory>
        ensures { IfOk result (λ bytes. bytes ≡ self.now) }
    {
        match hex::decode(alloc, self.digits) {
            Ok(bytes) => Ok(Bytes::from_vec(bytes)),
            Err(_) => Err(NoMemory),
        }
    }
}

/// The digits of one or more bytes.
pub fn digits<'a>(words: &mut Words<'a>) -> Result<HexWord<'a>, Misread>
    ensures { Reads (λ w. w) result words.new (token_at bytes_of words.old) }
{
    let place = words.place();
    let word = words.next().ok_or(Misread { place })?;
    HexWord::of(word).ok_or(Misread { place })
}

/// The digits of one or more bytes, or none for `-`.
pub fn digits_or_dash<'a>(words: &mut Words<'a>) -> Result<Option<HexWord<'a>>, Misread>
    ensures { Reads or_no_bytes result words.new (token_at bytes_or_dash words.old) }
{
    let place = words.place();
    let word = words.next().ok_or(Misread { place })?;
    if word == b"-".as_slice() {
        return Ok(None);
    }
    match HexWord::of(word) {
        Some(digits) => Ok(Some(digits)),
        None => Err(Misread { place }),
    }
}

/// The key in the `N` bytes of which the word is the digits.
fn key_of_length<const N: usize>(word: &[u8]) -> Option<Key>
    requires spelled { IsTrue (is_spelled word.now) }
    requires long { length word.now ≡ 2 * N }
    ensures { result ≡ key_of word.now }
{
    match <[u8; N] as FromHex>::from_hex(word) {
        Ok(bytes) => Key::read(&bytes).ok(),
        Err(_) => None,
    }
}

/// The key of whose bytes the word is the digits: 112 for one level, 120 for two.
fn key_of(word: &[u8]) -> Option<Key>
    ensures { result ≡ key_of word.now }
{
    if !is_spelled(word) {
        return None;
    }
    if word.len() == 112 {
        return key_of_length::<56>(word);
    }
    if word.len() == 120 {
        return key_of_length::<60>(word);
    }
    None
}

/// The digits of a key's 56 or 60 bytes.
pub fn key(words: &mut Words) -> Result<Key, Misread>
    ensures { Reads (λ k. k) result words.new (token_at key_of words.old) }
{
    let place = words.place();
    let word = words.next().ok_or(Misread { place })?;
    key_of(word).ok_or(Misread { place })
}
