//! A text whose words are taken as numbers in one pass.

ghost use Rattle.std.specs.Prelude.{◌≡◌, ◌≤◌, ◌==◌, ◌∷◌, true, None, length, IfSome};
ghost use Rattle.line_text.specs.Fields.{number, number_in};
ghost use Rattle.line_text.specs.Frame.{first_word};
ghost use Rattle.line_text.specs.Words.{is_word, parts};

use crate::numbers::head_number;
use crate::words::first_part;
use std::marker::Model;

/// What is still to be read of a text, of which only that is known to be words which was taken. Contracts see the parts of
/// it between its spaces.
#[derive(Drop)]
pub struct Glance<'a> {
    left: Option<&'a [u8]>,
}

impl<'a> Model for Glance<'a> {
    ghost use Rattle.std.specs.Prelude.{ℕ, List};
    ghost use Rattle.line_text.specs.Words.{parts_left};

    ghost Value = { List (List ℕ) };

    ghost view = { λ g. parts_left g.left };
}

impl<'a> Glance<'a> {
    /// The first part of the text, and what stands behind it.
    #[inline(always)]
    pub fn of(text: &'a [u8]) -> (&'a [u8], Glance<'a>)
        ensures { parts text.now ≡ result.0.now ∷ result.1 }
    {
        let (first, left) = first_part(text);
        (first, Glance { left })
    }

    /// Takes the number that the next part spells, where it is one from `low` to `high`.
    #[inline(always)]
    pub fn number(&mut self, low: u64, high: u64) -> Option<u64>
        ensures part { IfSome result (λ _. self.old ≡ first_word self.old ∷ self.new) }
        ensures word { IfSome result (λ _. is_word (first_word self.old) ≡ true) }
        ensures good { IfSome result (λ _. number low high (first_word self.old) ≡ None) }
        ensures value { IfSome result (λ n. n ≡ number_in (first_word self.old)) }
        ensures low { IfSome result (λ n. low ≤ n) }
        ensures high { IfSome result (λ n. n ≤ high) }
    {
        let (number, left) = head_number(self.left?)?;
        if low <= number && number <= high {
            self.left = left;
            Some(number)
        } else {
            None
        }
    }

    /// Whether nothing is left.
    #[inline(always)]
    pub fn is_empty(&self) -> bool
        ensures { result ≡ (length self.now == 0) }
    {
        self.left.is_none()
    }
}
