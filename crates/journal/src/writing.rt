//! Events as they are written.

ghost use Rattle.std.specs.Prelude.{◌≡◌, ◌++◌, OnOk, OnErr, length, take, codes, decimal};
ghost use Rattle.hex.specs.Hex.{encode_lower};
ghost use Rattle.journal.specs.declared.event.What.TheVariants as kinds;
ghost use Rattle.journal.specs.Texts.{answer_text, body_text, certificate_text, event_text, flag_text, note_text, verdict_text, what_text};

use crate::event::{Event, What};
use ff_ids::{Fault, MemberId, NoteBody};
use fields::NoMemory;
use life_events::{
    add_of_accusation, add_of_digits, add_of_number, add_of_two, add_refused, write_bytes,
};
use records::{Body, CertBody};

/// Room for most lines without digits of bytes, taken at once so that a line grows in one step.
pub(crate) const ROOM: usize = 64;

/// Room for a line with the digits of these bytes.
pub(crate) fn room_of_digits(bytes: &[u8]) -> usize {
    bytes.len().saturating_mul(2).saturating_add(ROOM)
}

/// Adds a certificate. Where memory is refused, `out` begins with what it held.
#[tactic(auto, using(life_events::proofs::TextLemmas::begins, life_events::proofs::TextLemmas::begins_so, life_events::proofs::TextLemmas::begins_on, life_events::proofs::TextLemmas::begins_then))]
fn add_certificate(certificate: &CertBody, out: &mut Vec<u8>) -> Result<(), NoMemory>
    ensures ok { OnOk result (out.new.items ≡ out.old.items ++ certificate_text certificate.now) }
    ensures refused { OnErr result (take (length out.old.items) out.new.items ≡ out.old.items) }
{
    let (member, port) = (certificate.member.get(), certificate.port);
    add_of_two(b"cert ", member.into(), port.into(), out)?;
    add_of_digits(b" ", certificate.key.write().as_slice(), out)?;
    Ok(())
}

/// Adds a note. Where memory is refused, `out` begins with what it held.
#[tactic(auto, using(life_events::proofs::TextLemmas::begins, life_events::proofs::TextLemmas::begins_so, life_events::proofs::TextLemmas::begins_on, life_events::proofs::TextLemmas::begins_then))]
fn add_note(note: &NoteBody, out: &mut Vec<u8>) -> Result<(), NoMemory>
    ensures ok { OnOk result (out.new.items ≡ out.old.items ++ note_text note.now) }
    ensures refused { OnErr result (take (length out.old.items) out.new.items ≡ out.old.items) }
{
    add_of_two(b"note ", note.member.get().into(), note.epoch.get(), out)?;
    add_of_number(b" ", note.mask.0.into(), out)?;
    Ok(())
}

/// Adds a body as a line of its kind. Where memory is refused, `out` begins with what it held.
fn add_body(body: &Body, out: &mut Vec<u8>) -> Result<(), NoMemory>
    ensures ok { OnOk result (out.new.items ≡ out.old.items ++ body_text body.now) }
    ensures refused { OnErr result (take (length out.old.items) out.new.items ≡ out.old.items) }
{
    match body {
        Body::Certificate(certificate) => add_certificate(certificate, out),
        Body::Note(note) => add_note(note, out),
        Body::Accusation(accusation) => add_of_accusation(b"accuse ", accusation, out),
    }
}

/// Adds a word and a body. Where memory is refused, `out` begins with what it held.
#[tactic(auto, using(life_events::proofs::TextLemmas::begins, life_events::proofs::TextLemmas::begins_so, life_events::proofs::TextLemmas::begins_on, life_events::proofs::TextLemmas::begins_then))]
fn add_of_body(word: &[u8], body: &Body, out: &mut Vec<u8>) -> Result<(), NoMemory>
    ensures ok { OnOk result (out.new.items ≡ out.old.items ++ word.now ++ body_text body.now) }
    ensures refused { OnErr result (take (length out.old.items) out.new.items ≡ out.old.items) }
{
    write_bytes(word, out)?;
    add_body(body, out)?;
    Ok(())
}

/// Adds an index and a body. Where memory is refused, `out` begins with what it held.
#[tactic(auto, using(life_events::proofs::TextLemmas::begins, life_events::proofs::TextLemmas::begins_so, life_events::proofs::TextLemmas::begins_on, life_events::proofs::TextLemmas::begins_then))]
fn add_spent(index: u32, body: &Body, out: &mut Vec<u8>) -> Result<(), NoMemory>
    ensures ok { OnOk result
        (out.new.items
        ≡ out.old.items ++ (codes "spent " ++ decimal index ++ codes " " ++ body_text body.now)) }
    ensures refused { OnErr result (take (length out.old.items) out.new.items ≡ out.old.items) }
{
    add_of_number(b"spent ", index.into(), out)?;
    add_of_body(b" ", body, out)?;
    Ok(())
}

/// Adds what is said of a record. Where memory is refused, `out` begins with what it held.
fn add_verdict(fault: &Option<Fault>, out: &mut Vec<u8>) -> Result<(), NoMemory>
    ensures ok { OnOk result (out.new.items ≡ out.old.items ++ verdict_text fault.now) }
    ensures refused { OnErr result (take (length out.old.items) out.new.items ≡ out.old.items) }
{
    match fault {
        None => write_bytes(b"accepted", out),
        Some(fault) => add_refused(fault, out),
    }
}

/// Adds a record and what is said of it. Where memory is refused, `out` begins with what it held.
#[tactic(auto, using(life_events::proofs::TextLemmas::begins, life_events::proofs::TextLemmas::begins_so, life_events::proofs::TextLemmas::begins_on, life_events::proofs::TextLemmas::begins_then))]
fn add_took(body: &Body, fault: &Option<Fault>, out: &mut Vec<u8>) -> Result<(), NoMemory>
    ensures ok { OnOk result
        (out.new.items
        ≡ out.old.items ++ (codes "took " ++ body_text body.now ++ codes " : " ++ verdict_text
        fault.now)) }
    ensures refused { OnErr result (take (length out.old.items) out.new.items ≡ out.old.items) }
{
    add_of_body(b"took ", body, out)?;
    write_bytes(b" : ", out)?;
    add_verdict(fault, out)?;
    Ok(())
}

fn answer_word(counted: bool) -> &'static [u8]
    ensures { result.now ≡ answer_text counted }
{
    if counted { b"counted" } else { b"stray" }
}

fn flag_word(flag: bool) -> &'static [u8]
    ensures { result.now ≡ flag_text flag }
{
    if flag { b"1" } else { b"0" }
}

/// Adds two numbers and a word behind a word. Where memory is refused, `out` begins with what it held.
#[tactic(auto, using(life_events::proofs::TextLemmas::begins, life_events::proofs::TextLemmas::begins_so, life_events::proofs::TextLemmas::begins_on, life_events::proofs::TextLemmas::begins_then))]
fn add_of_two_and(
    word: &[u8],
    first: u64,
    second: u64,
    last: &[u8],
    out: &mut Vec<u8>,
) -> Result<(), NoMemory>
    ensures ok { OnOk result
        (out.new.items
        ≡ out.old.items ++ (word.now ++ decimal first ++ codes " " ++ decimal second ++ codes " "
        ++ last.now)) }
    ensures refused { OnErr result (take (length out.old.items) out.new.items ≡ out.old.items) }
{
    add_of_two(word, first, second, out)?;
    write_bytes(b" ", out)?;
    write_bytes(last, out)?;
    Ok(())
}

/// Adds a datagram that went out. Where memory is refused, `out` begins with what it held.
#[tactic(auto, using(life_events::proofs::TextLemmas::begins, life_events::proofs::TextLemmas::begins_so, life_events::proofs::TextLemmas::begins_on, life_events::proofs::TextLemmas::begins_then))]
fn add_sent(number: u64, to: MemberId, bytes: &[u8], out: &mut Vec<u8>) -> Result<(), NoMemory>
    ensures ok { OnOk result
        (out.new.items
        ≡ out.old.items ++ (codes "sent " ++ decimal number ++ codes " " ++ decimal to ++ codes
        " " ++ encode_lower bytes.now)) }
    ensures refused { OnErr result (take (length out.old.items) out.new.items ≡ out.old.items) }
{
    add_of_two(b"sent ", number, to.get().into(), out)?;
    add_of_digits(b" ", bytes, out)?;
    Ok(())
}

/// Adds what happened. Where memory is refused, `out` begins with what it held.
fn add_what(what: &What, out: &mut Vec<u8>) -> Result<(), NoMemory>
    ensures ok { OnOk result (out.new.items ≡ out.old.items ++ what_text what.now) }
    ensures refused { OnErr result (take (length out.old.items) out.new.items ≡ out.old.items) }
{
    match what {
        What::Entered(member) => add_of_number(b"entered ", member.get().into(), out),
        What::Expired(accusation) => add_of_accusation(b"expired ", accusation, out),
        What::Removed(member) => add_of_number(b"removed ", member.get().into(), out),
        What::Fell(accusation) => add_of_accusation(b"fell ", accusation, out),
        What::Spent { index, body } => add_spent(*index, body, out),
        What::Took { body, fault } => add_took(body, fault, out),
        What::BadForm { place } => add_of_number(b"bad-form ", *place as u64, out),
        What::Ping { from, nonce } => add_of_two(b"ping ", from.get().into(), *nonce, out),
        What::Pong {
            from,
            nonce,
            counted,
        } => add_of_two_and(
            b"pong ",
            from.get().into(),
            *nonce,
            answer_word(*counted),
            out,
        ),
        What::Summary { from, page, flag } => add_of_two_and(
            b"summary ",
            from.get().into(),
            (*page).into(),
            flag_word(*flag),
            out,
        ),
        What::Silent(member) => add_of_number(b"silent ", member.get().into(), out),
        What::Exhausted { next } => add_of_number(b"exhausted ", (*next).into(), out),
        What::Sent { number, to, bytes } => add_sent(*number, *to, bytes.as_slice(), out),
        What::Lost { number } => add_of_number(b"lost ", *number, out),
        What::Got { number } => add_of_number(b"got ", *number, out),
        What::Stopped => write_bytes(b"stopped", out),
    }
}

/// Adds the moment, and what happened. Where memory is refused, `out` begins with what it held.
#[tactic(auto, using(life_events::proofs::TextLemmas::begins, life_events::proofs::TextLemmas::begins_so, life_events::proofs::TextLemmas::begins_on, life_events::proofs::TextLemmas::begins_then))]
fn add_event(event: &Event, out: &mut Vec<u8>) -> Result<(), NoMemory>
    ensures ok { OnOk result (out.new.items ≡ out.old.items ++ event_text event.now) }
    ensures refused { OnErr result (take (length out.old.items) out.new.items ≡ out.old.items) }
{
    add_of_number(b"at ", event.moment, out)?;
    write_bytes(b" ", out)?;
    add_what(&event.what, out)?;
    Ok(())
}

/// Adds the event's text, as `at 3 removed 2`: without a line feed, and in a world without the node's number
/// before it. Where memory is refused, `out` is as it was.
pub fn write_event(event: &Event, out: &mut Vec<u8>) -> Result<(), NoMemory>
    ensures ok { OnOk result (out.new.items ≡ out.old.items ++ event_text event.now) }
    ensures refused { OnErr result (out.new.items ≡ out.old.items) }
{
    out.reserve(ROOM)?;
    let held = out.len();
    let written = add_event(event, out);
    if written.is_err() {
        out.truncate(held);
    }
    written
}

/// Adds the moment, and that the datagram of this number went to the member. Where memory is refused, `out` begins with
/// what it held.
#[tactic(auto, using(life_events::proofs::TextLemmas::begins, life_events::proofs::TextLemmas::begins_so, life_events::proofs::TextLemmas::begins_on, life_events::proofs::TextLemmas::begins_then))]
fn add_sent_event(
    moment: u64,
    number: u64,
    to: MemberId,
    bytes: &[u8],
    out: &mut Vec<u8>,
) -> Result<(), NoMemory>
    ensures ok { OnOk result (out.new.items ≡ out.old.items ++ event_text
        (record { moment = moment; what = kinds.Sent number to bytes.now })) }
    ensures refused { OnErr result (take (length out.old.items) out.new.items ≡ out.old.items) }
{
    add_of_number(b"at ", moment, out)?;
    write_bytes(b" ", out)?;
    add_sent(number, to, bytes, out)?;
    Ok(())
}

/// As `write_event`, of the event that the datagram of this number went to the member. Its bytes are only read.
pub fn write_sent(
    moment: u64,
    number: u64,
    to: MemberId,
    bytes: &[u8],
    out: &mut Vec<u8>,
) -> Result<(), NoMemory>
    ensures ok { OnOk result (out.new.items ≡ out.old.items ++ event_text
        (record { moment = moment; what = kinds.Sent number to bytes.now })) }
    ensures refused { OnErr result (out.new.items ≡ out.old.items) }
{
    out.reserve(room_of_digits(bytes))?;
    let held = out.len();
    let written = add_sent_event(moment, number, to, bytes, out);
    if written.is_err() {
        out.truncate(held);
    }
    written
}
