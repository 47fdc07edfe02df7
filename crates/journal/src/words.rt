//! The words of an event's text, one step of a reader each. A refused step gives the place at which its word
//! begins, or the text's length where there is none; the reader may then have moved.

ghost use Rattle.std.specs.Prelude.{◌≡◌, ◌+◌, ◌<◌, ◌≤◌, [], ◌∷◌, length, MatchOption, IfOk, IfSome, position};
ghost use Rattle.ff_ids.specs.declared.TheConstants.{LAST_MEMBER, ALL_BITS, LAST_PAGE};
ghost use Rattle.line_text.specs.Words.{is_space, parts, parts_left};
ghost use Rattle.journal.specs.Words.{EndsAs, Reads, is_literal, monitor_of, number, number_of, one_of, passed, reading_of, token_at};

use ff_ids::{ALL_BITS, Epoch, LAST_MEMBER, LAST_PAGE, Mask, MemberId, RingNo};
use itoa::Buffer;
use std::marker::Model;

/// Where the first word begins that fails, or the text's length where no word fails and one is missing.
#[derive(Clone, Copy, Debug, PartialEq, Eq)]
pub struct Misread {
    pub place: usize,
}

/// The words of a text that are still to be read, with one space between two.
#[derive(Drop)]
pub struct Words<'a> {
    rest: Option<&'a [u8]>,
    whole: usize,
}

impl<'a> Model for Words<'a> {
    ghost use Rattle.std.specs.Prelude.{◌≤◌, length, IfSome};
    ghost use Rattle.line_text.specs.Words.{parts_left};
    ghost use Rattle.journal.specs.Words.{Reading, place_of};

    ghost Value = { Reading };

    ghost view = { λ w. record { place = place_of w.whole w.rest; words = parts_left w.rest } };

    ghost invariant = { λ w. IfSome w.rest (λ rest. length rest.now ≤ w.whole) };
}

fn first_space(text: &[u8]) -> Option<usize>
    ensures { result ≡ position is_space text.now }
{
    text.iter().position(|byte| *byte == b' ')
}

/// The part before the first space, and what stands behind that space.
#[tactic(auto, using(line_text::proofs::WordLemmas::parts_alone, line_text::proofs::WordLemmas::parts_at))]
fn first_part(text: &[u8]) -> (&[u8], Option<&[u8]>)
    ensures parts { parts text.now ≡ result.0.now ∷ parts_left result.1 }
    ensures lengths { MatchOption result.1 (length result.0.now ≡ length text.now)
        (λ rest. length text.now ≡ length result.0.now + 1 + length rest.now) }
{
    match first_space(text) {
        None => (text, None),
        Some(at) => (&text[..at], Some(&text[at + 1..])),
    }
}

impl<'a> Words<'a> {
    pub fn of(text: &'a [u8]) -> Words<'a>
        ensures { result ≡ reading_of text.now }
    {
        Words {
            rest: Some(text),
            whole: text.len(),
        }
    }

    /// Where the next word begins, or the text's length where there is none.
    pub fn place(&self) -> usize
        ensures { result ≡ self.now.place }
    {
        match self.rest {
            None => self.whole,
            Some(rest) => self.whole - rest.len(),
        }
    }

    /// Takes the next word.
    #[tactic(auto, using(crate::proofs::WordLemmas::passed_on))]
    pub fn next(&mut self) -> Option<&'a [u8]>
        ensures word { MatchOption result (self.old.words ≡ [])
            (λ w. self.old.words ≡ w.now ∷ self.new.words) }
        ensures moved { IfSome result (λ w. self.new ≡ passed self.old.place w.now self.new.words) }
    {
        let (word, rest) = first_part(self.rest?);
        self.rest = rest;
        Some(word)
    }
}

/// The number of which the text is the decimal digits.
fn number_in(text: &str) -> Option<u64>
    ensures { result ≡ number_of text.now }
{
    match text.parse::<u64>() {
        Ok(number) => {
            let mut digits = Buffer::new();
            if digits.format(number) == text {
                Some(number)
            } else {
                None
            }
        }
        Err(_) => None,
    }
}

/// The number of which the word is the decimal digits.
fn number_of(word: &[u8]) -> Option<u64>
    ensures { result ≡ number_of word.now }
{
    match std::str::from_utf8(word) {
        Ok(text) => number_in(text),
        Err(_) => None,
    }
}

/// A number from `low` to `high`.
pub fn number(words: &mut Words, low: u64, high: u64) -> Result<u64, Misread>
    ensures read { Reads (λ n. n) result words.new (token_at (number low high) words.old) }
    ensures low { IfOk result (λ n. low ≤ n) }
    ensures high { IfOk result (λ n. n ≤ high) }
{
    let place = words.place();
    let word = words.next().ok_or(Misread { place })?;
    match number_of(word) {
        Some(number) if low <= number && number <= high => Ok(number),
        _ => Err(Misread { place }),
    }
}

/// The number of a member.
pub fn member(words: &mut Words) -> Result<MemberId, Misread>
    ensures { Reads (λ m. m) result words.new (token_at (number 0 LAST_MEMBER) words.old) }
{
    Ok(MemberId::new(number(words, 0, LAST_MEMBER as u64)? as u16))
}

pub fn epoch(words: &mut Words) -> Result<Epoch, Misread>
    ensures { Reads (λ e. e) result words.new (token_at (number 1 18446744073709551615) words.old) }
{
    Ok(Epoch::new(number(words, 1, u64::MAX)?))
}

pub fn mask(words: &mut Words) -> Result<Mask, Misread>
    ensures { Reads (λ m. m.0) result words.new (token_at (number 0 ALL_BITS) words.old) }
{
    Ok(Mask(number(words, 0, ALL_BITS)?))
}

pub fn ring(words: &mut Words) -> Result<RingNo, Misread>
    ensures { Reads (λ r. r.0) result words.new (token_at (number 0 255) words.old) }
{
    Ok(RingNo(number(words, 0, 255)? as u8))
}

pub fn port(words: &mut Words) -> Result<u16, Misread>
    ensures { Reads (λ p. p) result words.new (token_at (number 1 65535) words.old) }
{
    Ok(number(words, 1, 65_535)? as u16)
}

pub fn page(words: &mut Words) -> Result<u8, Misread>
    ensures { Reads (λ p. p) result words.new (token_at (number 0 LAST_PAGE) words.old) }
{
    Ok(number(words, 0, LAST_PAGE as u64)? as u8)
}

pub fn number_32(words: &mut Words) -> Result<u32, Misread>
    ensures { Reads (λ n. n) result words.new (token_at (number 0 4294967295) words.old) }
{
    Ok(number(words, 0, 4_294_967_295)? as u32)
}

pub fn number_64(words: &mut Words) -> Result<u64, Misread>
    ensures { Reads (λ n. n) result words.new (token_at (number 0 18446744073709551615) words.old) }
{
    number(words, 0, u64::MAX)
}

fn monitor_of(word: &[u8]) -> Option<Option<MemberId>>
    ensures { result ≡ monitor_of word.now }
{
    if word == b"none".as_slice() {
        return Some(None);
    }
    match number_of(word) {
        Some(number) if number <= LAST_MEMBER as u64 => Some(Some(MemberId::new(number as u16))),
        _ => None,
    }
}

/// The number of a member, or `none`.
pub fn monitor(words: &mut Words) -> Result<Option<MemberId>, Misread>
    ensures { Reads (λ m. m) result words.new (token_at monitor_of words.old) }
{
    let place = words.place();
    let word = words.next().ok_or(Misread { place })?;
    monitor_of(word).ok_or(Misread { place })
}

/// This very word.
pub fn literal(words: &mut Words, text: &[u8]) -> Result<(), Misread>
    ensures { Reads (λ x. x) result words.new (token_at (is_literal text.now) words.old) }
{
    let place = words.place();
    let word = words.next().ok_or(Misread { place })?;
    if word == text {
        Ok(())
    } else {
        Err(Misread { place })
    }
}

fn one_of(word: &[u8], yes: &[u8], no: &[u8]) -> Option<bool>
    ensures { result ≡ one_of yes.now no.now word.now }
{
    if word == yes {
        Some(true)
    } else if word == no {
        Some(false)
    } else {
        None
    }
}

/// Whether it is the first of these two words, of which it has to be one.
pub fn either(words: &mut Words, yes: &[u8], no: &[u8]) -> Result<bool, Misread>
    ensures { Reads (λ x. x) result words.new (token_at (one_of yes.now no.now) words.old) }
{
    let place = words.place();
    let word = words.next().ok_or(Misread { place })?;
    one_of(word, yes, no).ok_or(Misread { place })
}

/// No word is left.
pub fn end(words: Words) -> Result<(), Misread>
    ensures { EndsAs result words.entry }
{
    let place = words.place();
    let mut words = words;
    match words.next() {
        None => Ok(()),
        Some(_) => Err(Misread { place }),
    }
}
