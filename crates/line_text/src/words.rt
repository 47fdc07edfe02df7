//! The words of a line.

ghost use Rattle.std.specs.Prelude.{◌≡◌, ◌≤◌, ◌==◌, [], ◌∷◌, length, not, position, is_some, ⊤, MatchOption, IfNone, IfSome, IfOk};
ghost use Rattle.line_text.specs.Answers.{AnswersBy, read_bytes, read_name, refusal};
ghost use Rattle.line_text.specs.Fields.{bad_where, hex, hex_of, number, number_32, number_in};
ghost use Rattle.line_text.specs.Frame.{behind, first_word, is_header};
ghost use Rattle.line_text.specs.Numbers.{number_of};
ghost use Rattle.line_text.specs.Words.{is_space, is_printable, is_spaced, parts, parts_left, words_of};

use crate::bad_word::{BadWord, LineFault};
use crate::digits::{bytes_up_to, exact_bytes};
use crate::names::name_of;
use crate::numbers::{head_number, number_of, number_within};
use fields::{Bytes, Name};
use std::alloc::Global;
use std::marker::Model;

fn is_printable(byte: u8) -> bool
    ensures { result ≡ is_printable byte }
{
    33 <= byte && byte <= 126
}

/// How many words the text is, if it is words with one space between two and none elsewhere.
fn count_words(text: &[u8]) -> Option<usize>
    ensures spaced { is_some result ≡ is_spaced text.now }
    ensures count { IfSome result (λ n. n ≡ length (parts text.now)) }
{
    let mut spaces = 0;
    let mut has_begun = false;
    for byte in text {
        if is_printable(*byte) {
            has_begun = true;
        } else if *byte == b' ' {
            if !has_begun {
                return None;
            }
            spaces += 1;
            has_begun = false;
        } else {
            return None;
        }
    }
    if has_begun { Some(spaces + 1) } else { None }
}

fn first_space(text: &[u8]) -> Option<usize>
    ensures { result ≡ position is_space text.now }
{
    for at in 0..text.len() {
        if text[at] == b' ' {
            return Some(at);
        }
    }
    None
}

/// The part before the first space, and what stands behind that space.
#[tactic(auto, using(crate::proofs::WordLemmas::parts_alone, crate::proofs::WordLemmas::parts_at))]
#[inline(always)]
pub(crate) fn first_part(text: &[u8]) -> (&[u8], Option<&[u8]>)
    ensures { parts text.now ≡ result.0.now ∷ parts_left result.1 }
{
    match first_space(text) {
        None => (text, None),
        Some(at) => (&text[..at], Some(&text[at + 1..])),
    }
}

/// The words of a line that are still to be read. Contracts see the list of them.
#[derive(Drop)]
pub struct Words<'a> {
    left: Option<&'a [u8]>,
    count: usize,
}

impl<'a> Model for Words<'a> {
    ghost use Rattle.std.specs.Prelude.{◌≡◌, ℕ, List, length};
    ghost use Rattle.line_text.specs.Words.{parts_left};

    ghost Value = { List (List ℕ) };

    ghost view = { λ w. parts_left w.left };

    ghost invariant = { λ w. w.count ≡ length (parts_left w.left) };
}

impl<'a> Words<'a> {
    /// The words of the text, if it is words with one space between two and none elsewhere.
    pub fn of(text: &'a [u8]) -> Option<Words<'a>>
        ensures { result ≡ words_of text.now }
    {
        let count = count_words(text)?;
        Some(Words {
            left: Some(text),
            count,
        })
    }

    /// Whether no word is left.
    pub fn is_empty(&self) -> bool
        ensures { result ≡ (length self.now == 0) }
    {
        self.count == 0
    }

    /// Whether the words are `fireflies 1 FORM`, which head a text of this form.
    pub fn is_header(self, form: &[u8]) -> bool
        ensures { result ≡ is_header form.now self.entry }
    {
        let (first, mut args) = self.split();
        first == b"fireflies".as_slice()
            && args.count() == 2
            && args.take() == b"1".as_slice()
            && args.take() == form
    }

    /// The same words.
    pub fn again(&self) -> Words<'a>
        ensures { result ≡ self.now }
    {
        Words {
            left: self.left,
            count: self.count,
        }
    }

    /// How many words are left.
    pub fn count(&self) -> usize
        ensures { result ≡ length self.now }
    {
        self.count
    }

    /// Takes the next word.
    pub fn next(&mut self) -> Option<&'a [u8]>
        ensures word { MatchOption result (self.old ≡ []) (λ w. self.old ≡ w.now ∷ self.new) }
        ensures end { IfNone result (self.new ≡ []) }
    {
        let (word, left) = first_part(self.left?);
        self.left = left;
        self.count -= 1;
        Some(word)
    }

    /// The first word, and the words behind it. A line has a first word.
    pub fn split(mut self) -> (&'a [u8], Words<'a>)
        ensures first { result.0.now ≡ first_word self.entry }
        ensures behind { result.1 ≡ behind self.entry }
    {
        let first = self.take();
        (first, self)
    }

    /// The same words, if they are so many.
    pub fn exactly(self, many: usize) -> Result<Words<'a>, BadWord>
        ensures refused { bad_where BadWord.Count (not (length self.entry == many))
            ≡ refusal result }
        ensures same { IfOk result (λ words. words ≡ self.entry) }
    {
        if self.count() == many {
            Ok(self)
        } else {
            Err(BadWord::Count)
        }
    }

    /// Takes a number that the next word spells, from `low` to `high`.
    #[inline(always)]
    pub fn number(&mut self, low: u64, high: u64) -> Result<u64, BadWord>
        ensures refused { number low high (first_word self.old) ≡ refusal result }
        ensures value { IfOk result (λ n. n ≡ number_in (first_word self.old)) }
        ensures low { IfOk result (λ n. low ≤ n) }
        ensures high { IfOk result (λ n. n ≤ high) }
        ensures moved { self.new ≡ behind self.old }
    {
        number_within(self.take_number(), low, high)
    }

    /// How many bytes the next word has: 0 where none is left.
    pub fn next_length(&self) -> usize
        ensures { result ≡ length (first_word self.now) }
    {
        match self.left {
            Some(text) => first_part(text).0.len(),
            None => 0,
        }
    }

    /// Takes a number that 32 bits hold.
    pub fn number_32(&mut self) -> Result<u32, BadWord>
        ensures refused { number_32 (first_word self.old) ≡ refusal result }
        ensures value { IfOk result (λ n. n ≡ number_in (first_word self.old)) }
        ensures moved { self.new ≡ behind self.old }
    {
        let number = self.number(0, u64::from(u32::MAX))?;
        Ok(number as u32)
    }

    /// Takes exactly `N` bytes that the next word spells in hexadecimal digits, of either case.
    pub fn bytes<const N: usize>(&mut self) -> Result<[u8; N], BadWord>
        ensures refused { hex N (first_word self.old) ≡ refusal result }
        ensures value { IfOk result (λ bytes. hex_of (first_word self.old) ≡ Some bytes) }
        ensures moved { self.new ≡ behind self.old }
    {
        exact_bytes(self.take())
    }

    /// Takes the bytes that the next word spells in hexadecimal digits, of either case, or `-` for none: no more
    /// than `most`. The word is judged before memory is asked for.
    pub fn bytes_up_to(&mut self, alloc: Global, most: usize) -> Result<Bytes, LineFault>
        ensures answer { AnswersBy (λ _. ⊤) (read_bytes most (first_word self.old)) result }
        ensures moved { self.new ≡ behind self.old }
    {
        bytes_up_to(alloc, most, self.take())
    }

    /// Takes the name that the next word is. The word is judged before memory is asked for.
    pub fn name(&mut self, alloc: Global) -> Result<Name, LineFault>
        ensures answer { AnswersBy (λ _. ⊤) (read_name (first_word self.old)) result }
        ensures moved { self.new ≡ behind self.old }
    {
        name_of(alloc, self.take())
    }

    // Takes the number that the next word spells.
    #[inline(always)]
    fn take_number(&mut self) -> Option<u64>
        ensures number { result ≡ number_of (first_word self.old) }
        ensures moved { self.new ≡ behind self.old }
    {
        let text = self.left?;
        match head_number(text) {
            Some((number, left)) => {
                self.left = left;
                self.count -= 1;
                Some(number)
            }
            None => {
                let (word, left) = first_part(text);
                self.left = left;
                self.count -= 1;
                number_of(word)
            }
        }
    }

    // The next word; an empty one, which is no number, no bytes and no name, where none is left.
    fn take(&mut self) -> &'a [u8]
        ensures word { result.now ≡ first_word self.old }
        ensures moved { self.new ≡ behind self.old }
    {
        self.next().unwrap_or(b"")
    }
}
