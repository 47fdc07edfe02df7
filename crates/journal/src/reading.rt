//! Reading events, word by word.

ghost use Rattle.std.specs.Prelude.{◌≡◌, IfOk, IfErr};
ghost use Rattle.journal.specs.declared.fault.EventFault.TheVariants.{OutOfMemory};
ghost use Rattle.journal.specs.declared.event.Event.{Event as Happened};
ghost use Rattle.journal.specs.Places.{FailsAs};
ghost use Rattle.journal.specs.Spelling.{IsEvent, IsGiven};
ghost use Rattle.journal.specs.Words.{Reads, whole};
ghost use Rattle.journal.specs.Grammar.{FindsEvent, GivesEvent, TakesMemory, about, accusation_at, body_at, certificate_at, event_at, fault_at, fault_behind, note_at, older_at, other_certificate_at, verdict_at, what_at, what_behind, what_found};

use crate::event::{Event, What};
use crate::fault::EventFault;
use crate::hex_word::{HexWord, digits, key};
use crate::kinds::{BodyKind, FaultKind, Kind, kind_of_body, kind_of_event, kind_of_fault};
use crate::words::{
    Misread, Words, either, end, epoch, literal, mask, member, monitor, number_32, number_64, page,
    port, ring,
};
use ff_ids::{AccBody, Fault, MemberId, NoteBody};
use fields::Bytes;
use records::{Body, CertBody, Key};
use std::alloc::Global;

/// What an event's text says, before it takes memory.
#[derive(Drop)]
pub enum Found<'a> {
    Plain(What),
    /// A datagram that was sent, with its digits.
    Sent {
        number: u64,
        to: MemberId,
        digits: HexWord<'a>,
    },
}

#[tactic(auto, unfolding(crate::specs::Grammar::certificate_at))]
fn certificate(words: &mut Words) -> Result<CertBody, Misread>
    ensures { Reads (λ c. c) result words.new (certificate_at words.old) }
{
    let member = member(words)?;
    let port = port(words)?;
    let key = key(words)?;
    Ok(CertBody { member, port, key })
}

#[tactic(auto, unfolding(crate::specs::Grammar::note_at))]
fn note(words: &mut Words) -> Result<NoteBody, Misread>
    ensures { Reads (λ n. n) result words.new (note_at words.old) }
{
    let member = member(words)?;
    let epoch = epoch(words)?;
    let mask = mask(words)?;
    Ok(NoteBody {
        member,
        epoch,
        mask,
    })
}

#[tactic(auto, unfolding(crate::specs::Grammar::accusation_at))]
fn accusation(words: &mut Words) -> Result<AccBody, Misread>
    ensures { Reads (λ a. a) result words.new (accusation_at words.old) }
{
    let accuser = member(words)?;
    let accused = member(words)?;
    let epoch = epoch(words)?;
    let ring = ring(words)?;
    Ok(AccBody {
        accuser,
        accused,
        epoch,
        ring,
    })
}

#[tactic(auto, unfolding(crate::specs::Grammar::body_at))]
fn body(words: &mut Words) -> Result<Body, Misread>
    ensures { Reads (λ b. b) result words.new (body_at words.old) }
{
    match kind_of_body(words)? {
        BodyKind::Certificate => Ok(Body::Certificate(certificate(words)?)),
        BodyKind::Note => Ok(Body::Note(note(words)?)),
        BodyKind::Accusation => Ok(Body::Accusation(accusation(words)?)),
    }
}

/// The member that a record is about.
fn about(body: &Body) -> MemberId
    ensures { result ≡ about body.now }
{
    match body {
        Body::Certificate(certificate) => certificate.member,
        Body::Note(note) => note.member,
        Body::Accusation(accusation) => accusation.accused,
    }
}

fn other_certificate(words: &mut Words) -> Result<Fault, Misread>
    ensures { Reads (λ f. f) result words.new (other_certificate_at words.old) }
{
    let port = port(words)?;
    let key = key(words)?.write();
    Ok(Fault::OtherCertificate { port, key })
}

fn older(words: &mut Words) -> Result<Fault, Misread>
    ensures { Reads (λ f. f) result words.new (older_at words.old) }
{
    let epoch = epoch(words)?;
    let mask = mask(words)?;
    Ok(Fault::Older { epoch, mask })
}

fn own_ahead(words: &mut Words, own: MemberId) -> Result<Fault, Misread>
    ensures { Reads (λ f. f) result words.new (fault_behind own FaultKind.OwnAhead words.old) }
{
    let stored = NoteBody {
        member: own,
        epoch: epoch(words)?,
        mask: mask(words)?,
    };
    let seen = NoteBody {
        member: own,
        epoch: epoch(words)?,
        mask: mask(words)?,
    };
    Ok(Fault::OwnAhead { stored, seen })
}

/// The fault of a record about the member.
#[tactic(auto, unfolding(crate::specs::Grammar::fault_at))]
fn fault(words: &mut Words, about: MemberId) -> Result<Fault, Misread>
    ensures { Reads (λ f. f) result words.new (fault_at about words.old) }
{
    match kind_of_fault(words)? {
        FaultKind::AlreadyMember => Ok(Fault::AlreadyMember),
        FaultKind::UnknownMember => Ok(Fault::UnknownMember),
        FaultKind::BadMask => Ok(Fault::BadMask),
        FaultKind::Known => Ok(Fault::Known),
        FaultKind::OtherCertificate => other_certificate(words),
        FaultKind::Older => older(words),
        FaultKind::SelfAccusation => Ok(Fault::SelfAccusation),
        FaultKind::BadRing => Ok(Fault::BadRing),
        FaultKind::NoNote => Ok(Fault::NoNote),
        FaultKind::OtherEpoch => Ok(Fault::OtherEpoch {
            kept: epoch(words)?,
        }),
        FaultKind::NotInView => Ok(Fault::NotInView),
        FaultKind::RingDisabled => Ok(Fault::RingDisabled),
        FaultKind::NotMonitor => Ok(Fault::NotMonitor {
            monitor: monitor(words)?,
        }),
        FaultKind::Standing => Ok(Fault::Standing),
        FaultKind::BadSignature => Ok(Fault::BadSignature),
        FaultKind::OwnAhead => own_ahead(words, about),
    }
}

#[tactic(auto, unfolding(crate::specs::Grammar::verdict_at))]
fn verdict(words: &mut Words, about: MemberId) -> Result<Option<Fault>, Misread>
    ensures { Reads (λ f. f) result words.new (verdict_at about words.old) }
{
    if either(words, b"accepted", b"refused")? {
        Ok(None)
    } else {
        Ok(Some(fault(words, about)?))
    }
}

fn spent(words: &mut Words) -> Result<What, Misread>
    ensures { Reads (λ w. w) result words.new (what_behind Kind.Spent words.old) }
{
    let index = number_32(words)?;
    let body = body(words)?;
    Ok(What::Spent { index, body })
}

fn took(words: &mut Words) -> Result<What, Misread>
    ensures { Reads (λ w. w) result words.new (what_behind Kind.Took words.old) }
{
    let body = body(words)?;
    literal(words, b":")?;
    let fault = verdict(words, about(&body))?;
    Ok(What::Took { body, fault })
}

fn ping(words: &mut Words) -> Result<What, Misread>
    ensures { Reads (λ w. w) result words.new (what_behind Kind.Ping words.old) }
{
    let from = member(words)?;
    let nonce = number_64(words)?;
    Ok(What::Ping { from, nonce })
}

fn pong(words: &mut Words) -> Result<What, Misread>
    ensures { Reads (λ w. w) result words.new (what_behind Kind.Pong words.old) }
{
    let from = member(words)?;
    let nonce = number_64(words)?;
    let counted = either(words, b"counted", b"stray")?;
    Ok(What::Pong {
        from,
        nonce,
        counted,
    })
}

fn summary(words: &mut Words) -> Result<What, Misread>
    ensures { Reads (λ w. w) result words.new (what_behind Kind.Summary words.old) }
{
    let from = member(words)?;
    let page = page(words)?;
    let flag = either(words, b"1", b"0")?;
    Ok(What::Summary { from, page, flag })
}

fn sent<'a>(words: &mut Words<'a>) -> Result<Found<'a>, Misread>
    ensures { Reads what_found result words.new (what_behind Kind.Sent words.old) }
{
    let number = number_64(words)?;
    let to = member(words)?;
    let digits = digits(words)?;
    Ok(Found::Sent { number, to, digits })
}

/// What stands behind the first word.
fn behind<'a>(words: &mut Words<'a>, kind: Kind) -> Result<Found<'a>, Misread>
    ensures { Reads what_found result words.new (what_behind kind words.old) }
{
    let what = match kind {
        Kind::Entered => What::Entered(member(words)?),
        Kind::Expired => What::Expired(accusation(words)?),
        Kind::Removed => What::Removed(member(words)?),
        Kind::Fell => What::Fell(accusation(words)?),
        Kind::Spent => spent(words)?,
        Kind::Took => took(words)?,
        Kind::BadForm => What::BadForm {
            place: number_64(words)? as usize,
        },
        Kind::Ping => ping(words)?,
        Kind::Pong => pong(words)?,
        Kind::Summary => summary(words)?,
        Kind::Silent => What::Silent(member(words)?),
        Kind::Exhausted => What::Exhausted {
            next: number_32(words)?,
        },
        Kind::Sent => return sent(words),
        Kind::Lost => What::Lost {
            number: number_64(words)?,
        },
        Kind::Got => What::Got {
            number: number_64(words)?,
        },
        Kind::Stopped => What::Stopped,
    };
    Ok(Found::Plain(what))
}

#[tactic(auto, unfolding(crate::specs::Grammar::what_at))]
fn what<'a>(words: &mut Words<'a>) -> Result<Found<'a>, Misread>
    ensures { Reads what_found result words.new (what_at words.old) }
{
    let kind = kind_of_event(words)?;
    behind(words, kind)
}

#[tactic(auto, unfolding(crate::specs::Grammar::event_at))]
fn moment_and_what<'a>(words: &mut Words<'a>) -> Result<(u64, Found<'a>), Misread>
    ensures { Reads (λ x. record { moment = x.0; what = what_found x.1 }) result words.new
        (event_at words.old) }
{
    literal(words, b"at")?;
    let moment = number_64(words)?;
    let what = what(words)?;
    Ok((moment, what))
}

/// The moment and what happened then, where the whole text is an event's. No memory is taken.
fn whole_event(text: &[u8]) -> Result<(u64, Found), Misread>
    ensures { FindsEvent result (whole event_at text.now) }
{
    let mut words = Words::of(text);
    let found = moment_and_what(&mut words)?;
    end(words)?;
    Ok(found)
}

/// What was found, with what it takes of memory.
fn kept(alloc: Global, found: Found) -> Result<What, EventFault>
    ensures value { IfOk result (λ what. what ≡ what_found found.entry) }
    ensures memory { IfErr result (λ e. (e ≡ OutOfMemory) × TakesMemory (what_found found.entry)) }
{
    match found {
        Found::Plain(what) => Ok(what),
        Found::Sent { number, to, digits } => match digits.decode(alloc) {
            Ok(bytes) => Ok(What::Sent { number, to, bytes }),
            Err(_) => Err(EventFault::OutOfMemory),
        },
    }
}

fn event_in(alloc: Global, text: &[u8]) -> Result<Event, EventFault>
    ensures { GivesEvent (whole event_at text.now) result }
{
    let (moment, found) = whole_event(text)?;
    let what = kept(alloc, found)?;
    Ok(Event { moment, what })
}

/// The event whose text this is, whole and without a line feed, as `write_event` writes it. The text is judged
/// before memory is asked for, and only a datagram that was sent takes some.
pub fn read_event(alloc: Global, bytes: &[u8]) -> Result<Event, EventFault>
    // What is read is spelled so.
    ensures found { IfOk result (λ e. IsEvent bytes.now e) }
    // What is spelled so is read.
    ensures only { (e : Happened) → IsEvent bytes.now e → IsGiven e result }
    // A fault is at the first word that fails.
    ensures first { IfErr result (FailsAs bytes.now) }
    // The same, by reading.
    ensures exact { GivesEvent (whole event_at bytes.now) result }
{
    event_in(alloc, bytes)
}
