//! Turns of a node, as values and as lines of text, both ways.

ghost use Rattle.std.specs.Prelude.{◌≡◌, ◌++◌, IfOk, IfErr, OnOk, OnErr, length, take, codes, decimal};
ghost use Rattle.journal.specs.declared.fault.EventFault.TheVariants.{OutOfMemory};
ghost use Rattle.journal.specs.declared.turn.Turn.{Turn as OneTurn};
ghost use Rattle.journal.specs.Words.{Reads, among, number, token_at, whole};
ghost use Rattle.journal.specs.Turns.{FindsTurn, GivesTurn, HeardTakesMemory, IsGivenTurn, IsTurn, TurnFailsAs, bytes_or_dash, every_heard, heard_at, heard_found, heard_text, heard_word, or_no_bytes, turn_at, turn_text};

use crate::fault::EventFault;
use crate::hex_word::{HexWord, digits_or_dash};
use crate::words::{Misread, Words, end, literal, number};
use crate::writing::{ROOM, room_of_digits};
use fields::{Bytes, NoMemory};
use life_events::{add_of_digits, add_of_number, write_bytes};
use std::alloc::Global;

/// One turn of a node: what it heard, and how many ticks it then made. The type holds any values; what is read back
/// keeps the ranges that are said of each field.
#[derive(Drop, Debug)]
pub struct Turn {
    /// From 1 on.
    pub number: u32,
    pub heard: Heard,
    /// 0 to 64.
    pub ticks: u8,
}

/// What a turn's one receive gave.
#[derive(Drop, Debug)]
pub enum Heard {
    /// `got HEX`: a datagram, `-` for one of no bytes.
    Got(Bytes),
    /// `nothing`
    Nothing,
    /// `failed`
    Failed,
}

/// What was heard, by its first word.
#[derive(Clone, Copy, Drop)]
pub enum HeardKind {
    Got,
    Nothing,
    Failed,
}

/// What a turn's text says of what was heard, before it takes memory.
#[derive(Drop)]
pub enum FoundHeard<'a> {
    /// A datagram, with its digits, if it has bytes.
    Got(Option<HexWord<'a>>),
    Nothing,
    Failed,
}

fn heard_kind_in(word: &[u8]) -> Option<HeardKind>
    ensures { result ≡ among heard_word every_heard word.now }
{
    if word == b"got".as_slice() {
        Some(HeardKind::Got)
    } else if word == b"nothing".as_slice() {
        Some(HeardKind::Nothing)
    } else if word == b"failed".as_slice() {
        Some(HeardKind::Failed)
    } else {
        None
    }
}

/// The next word, as the first of what was heard.
fn kind_of_heard(words: &mut Words) -> Result<HeardKind, Misread>
    ensures { Reads (λ k. k) result words.new (token_at (among heard_word every_heard) words.old) }
{
    let place = words.place();
    let word = words.next().ok_or(Misread { place })?;
    heard_kind_in(word).ok_or(Misread { place })
}

#[tactic(auto, unfolding(crate::specs::Turns::heard_at))]
fn what_was_heard<'a>(words: &mut Words<'a>) -> Result<FoundHeard<'a>, Misread>
    ensures { Reads heard_found result words.new (heard_at words.old) }
{
    match kind_of_heard(words)? {
        HeardKind::Got => Ok(FoundHeard::Got(digits_or_dash(words)?)),
        HeardKind::Nothing => Ok(FoundHeard::Nothing),
        HeardKind::Failed => Ok(FoundHeard::Failed),
    }
}

fn turn_number(words: &mut Words) -> Result<u32, Misread>
    ensures { Reads (λ n. n) result words.new (token_at (number 1 4294967295) words.old) }
{
    Ok(number(words, 1, 4_294_967_295)? as u32)
}

fn ticks(words: &mut Words) -> Result<u8, Misread>
    ensures { Reads (λ n. n) result words.new (token_at (number 0 64) words.old) }
{
    Ok(number(words, 0, 64)? as u8)
}

#[tactic(auto, unfolding(crate::specs::Turns::turn_at))]
fn turn_parts<'a>(words: &mut Words<'a>) -> Result<(u32, FoundHeard<'a>, u8), Misread>
    ensures { Reads (λ x. record { number = x.0; heard = heard_found x.1; ticks = x.2 }) result
        words.new (turn_at words.old) }
{
    literal(words, b"turn")?;
    let number = turn_number(words)?;
    let heard = what_was_heard(words)?;
    literal(words, b"ticks")?;
    let ticks = ticks(words)?;
    Ok((number, heard, ticks))
}

/// The parts of a turn, where the whole text is one's. No memory is taken.
fn whole_turn(text: &[u8]) -> Result<(u32, FoundHeard, u8), Misread>
    ensures { FindsTurn result (whole turn_at text.now) }
{
    let mut words = Words::of(text);
    let found = turn_parts(&mut words)?;
    end(words)?;
    Ok(found)
}

/// What was heard, with what it takes of memory.
fn kept(alloc: Global, found: FoundHeard) -> Result<Heard, EventFault>
    ensures value { IfOk result (λ heard. heard ≡ heard_found found.entry) }
    ensures memory { IfErr result
        (λ e. (e ≡ OutOfMemory) × HeardTakesMemory (heard_found found.entry)) }
{
    match found {
        FoundHeard::Got(Some(digits)) => match digits.decode(alloc) {
            Ok(bytes) => Ok(Heard::Got(bytes)),
            Err(_) => Err(EventFault::OutOfMemory),
        },
        FoundHeard::Got(None) => Ok(Heard::Got(Bytes::from_vec(Vec::new(alloc)))),
        FoundHeard::Nothing => Ok(Heard::Nothing),
        FoundHeard::Failed => Ok(Heard::Failed),
    }
}

fn turn_in(alloc: Global, text: &[u8]) -> Result<Turn, EventFault>
    ensures { GivesTurn (whole turn_at text.now) result }
{
    let (number, found, ticks) = whole_turn(text)?;
    let heard = kept(alloc, found)?;
    Ok(Turn {
        number,
        heard,
        ticks,
    })
}

/// The turn whose line this is, whole and without a line feed, as `write_turn` writes it. The text is judged before
/// memory is asked for, and only a datagram takes some.
pub fn read_turn(alloc: Global, bytes: &[u8]) -> Result<Turn, EventFault>
    // What is read is spelled so.
    ensures found { IfOk result (λ t. IsTurn bytes.now t) }
    // What is spelled so is read.
    ensures only { (t : OneTurn) → IsTurn bytes.now t → IsGivenTurn t result }
    // A fault is at the first word that fails.
    ensures first { IfErr result (TurnFailsAs bytes.now) }
    // The same, by reading.
    ensures exact { GivesTurn (whole turn_at bytes.now) result }
{
    turn_in(alloc, bytes)
}

/// Adds what was heard. Where memory is refused, `out` begins with what it held.
fn add_heard(heard: &Heard, out: &mut Vec<u8>) -> Result<(), NoMemory>
    ensures ok { OnOk result (out.new.items ≡ out.old.items ++ heard_text heard.now) }
    ensures refused { OnErr result (take (length out.old.items) out.new.items ≡ out.old.items) }
{
    match heard {
        Heard::Got(bytes) => {
            let bytes = bytes.as_slice();
            if bytes.is_empty() {
                return write_bytes(b"got -", out);
            }
            add_of_digits(b"got ", bytes, out)
        }
        Heard::Nothing => write_bytes(b"nothing", out),
        Heard::Failed => write_bytes(b"failed", out),
    }
}

/// Adds the number of a turn and what was heard. Where memory is refused, `out` begins with what it held.
#[tactic(auto, using(life_events::proofs::TextLemmas::begins, life_events::proofs::TextLemmas::begins_so, life_events::proofs::TextLemmas::begins_on, life_events::proofs::TextLemmas::begins_then))]
fn add_turn_heard(number: u32, heard: &Heard, out: &mut Vec<u8>) -> Result<(), NoMemory>
    ensures ok { OnOk result
        (out.new.items
        ≡ out.old.items ++ (codes "turn " ++ decimal number ++ codes " " ++ heard_text heard.now)) }
    ensures refused { OnErr result (take (length out.old.items) out.new.items ≡ out.old.items) }
{
    add_of_number(b"turn ", number.into(), out)?;
    write_bytes(b" ", out)?;
    add_heard(heard, out)?;
    Ok(())
}

/// Adds the turn's line. Where memory is refused, `out` begins with what it held.
#[tactic(auto, using(life_events::proofs::TextLemmas::begins, life_events::proofs::TextLemmas::begins_so, life_events::proofs::TextLemmas::begins_on, life_events::proofs::TextLemmas::begins_then))]
fn add_turn(turn: &Turn, out: &mut Vec<u8>) -> Result<(), NoMemory>
    ensures ok { OnOk result (out.new.items ≡ out.old.items ++ turn_text turn.now) }
    ensures refused { OnErr result (take (length out.old.items) out.new.items ≡ out.old.items) }
{
    add_turn_heard(turn.number, &turn.heard, out)?;
    add_of_number(b" ticks ", turn.ticks.into(), out)?;
    Ok(())
}

/// As many bytes as a turn's line has at most, and its line feed.
fn room_of(heard: &Heard) -> usize {
    match heard {
        Heard::Got(bytes) => room_of_digits(bytes.as_slice()),
        Heard::Nothing | Heard::Failed => ROOM,
    }
}

/// Adds the turn's line, as `turn 3 nothing ticks 2`, without a line feed. Where memory is refused, `out` is as it was.
pub fn write_turn(turn: &Turn, out: &mut Vec<u8>) -> Result<(), NoMemory>
    ensures ok { OnOk result (out.new.items ≡ out.old.items ++ turn_text turn.now) }
    ensures refused { OnErr result (out.new.items ≡ out.old.items) }
{
    out.reserve(room_of(&turn.heard))?;
    let held = out.len();
    let written = add_turn(turn, out);
    if written.is_err() {
        out.truncate(held);
    }
    written
}
