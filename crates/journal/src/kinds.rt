// The words that say what stands behind them.

ghost use Rattle.std.specs.Prelude.{◌≡◌};
ghost use Rattle.journal.specs.Words.{Reads, among, token_at};
ghost use Rattle.journal.specs.Kinds.{every_body_kind, body_word, every_fault_kind, fault_word, every_kind, kind_word};

use crate::words::{Misread, Words};

/// What happened, by its first word.
#[derive(Clone, Copy, Drop)]
pub enum Kind {
    Entered,
    Expired,
    Removed,
    Fell,
    Spent,
    Took,
    BadForm,
    Ping,
    Pong,
    Summary,
    Silent,
    Exhausted,
    Sent,
    Lost,
    Got,
    Stopped,
}

/// A body, by its first word.
#[derive(Clone, Copy, Drop)]
pub enum BodyKind {
    Certificate,
    Note,
    Accusation,
}

/// A fault, by its first word.
#[derive(Clone, Copy, Drop)]
pub enum FaultKind {
    AlreadyMember,
    UnknownMember,
    BadMask,
    Known,
    OtherCertificate,
    Older,
    SelfAccusation,
    BadRing,
    NoNote,
    OtherEpoch,
    NotInView,
    RingDisabled,
    NotMonitor,
    Standing,
    BadSignature,
    OwnAhead,
}

fn what_kind_in(word: &[u8]) -> Option<Kind>
    ensures { result ≡ among kind_word every_kind word.now }
{
    if word == b"entered".as_slice() {
        Some(Kind::Entered)
    } else if word == b"expired".as_slice() {
        Some(Kind::Expired)
    } else if word == b"removed".as_slice() {
        Some(Kind::Removed)
    } else if word == b"fell".as_slice() {
        Some(Kind::Fell)
    } else if word == b"spent".as_slice() {
        Some(Kind::Spent)
    } else if word == b"took".as_slice() {
        Some(Kind::Took)
    } else if word == b"bad-form".as_slice() {
        Some(Kind::BadForm)
    } else if word == b"ping".as_slice() {
        Some(Kind::Ping)
    } else if word == b"pong".as_slice() {
        Some(Kind::Pong)
    } else if word == b"summary".as_slice() {
        Some(Kind::Summary)
    } else if word == b"silent".as_slice() {
        Some(Kind::Silent)
    } else if word == b"exhausted".as_slice() {
        Some(Kind::Exhausted)
    } else if word == b"sent".as_slice() {
        Some(Kind::Sent)
    } else if word == b"lost".as_slice() {
        Some(Kind::Lost)
    } else if word == b"got".as_slice() {
        Some(Kind::Got)
    } else if word == b"stopped".as_slice() {
        Some(Kind::Stopped)
    } else {
        None
    }
}

fn body_kind_in(word: &[u8]) -> Option<BodyKind>
    ensures { result ≡ among body_word every_body_kind word.now }
{
    if word == b"cert".as_slice() {
        Some(BodyKind::Certificate)
    } else if word == b"note".as_slice() {
        Some(BodyKind::Note)
    } else if word == b"accuse".as_slice() {
        Some(BodyKind::Accusation)
    } else {
        None
    }
}

fn fault_kind_in(word: &[u8]) -> Option<FaultKind>
    ensures { result ≡ among fault_word every_fault_kind word.now }
{
    if word == b"already-member".as_slice() {
        Some(FaultKind::AlreadyMember)
    } else if word == b"unknown-member".as_slice() {
        Some(FaultKind::UnknownMember)
    } else if word == b"bad-mask".as_slice() {
        Some(FaultKind::BadMask)
    } else if word == b"known".as_slice() {
        Some(FaultKind::Known)
    } else if word == b"other-certificate".as_slice() {
        Some(FaultKind::OtherCertificate)
    } else if word == b"older".as_slice() {
        Some(FaultKind::Older)
    } else if word == b"self-accusation".as_slice() {
        Some(FaultKind::SelfAccusation)
    } else if word == b"bad-ring".as_slice() {
        Some(FaultKind::BadRing)
    } else if word == b"no-note".as_slice() {
        Some(FaultKind::NoNote)
    } else if word == b"other-epoch".as_slice() {
        Some(FaultKind::OtherEpoch)
    } else if word == b"not-in-view".as_slice() {
        Some(FaultKind::NotInView)
    } else if word == b"ring-disabled".as_slice() {
        Some(FaultKind::RingDisabled)
    } else if word == b"not-monitor".as_slice() {
        Some(FaultKind::NotMonitor)
    } else if word == b"standing".as_slice() {
        Some(FaultKind::Standing)
    } else if word == b"bad-signature".as_slice() {
        Some(FaultKind::BadSignature)
    } else if word == b"own-ahead".as_slice() {
        Some(FaultKind::OwnAhead)
    } else {
        None
    }
}

/// The next word, as the first of an event.
pub fn kind_of_event(words: &mut Words) -> Result<Kind, Misread>
    ensures { Reads (λ k. k) result words.new (token_at (among kind_word every_kind) words.old) }
{
    let place = words.place();
    let word = words.next().ok_or(Misread { place })?;
    what_kind_in(word).ok_or(Misread { place })
}

/// The next word, as the first of a body.
pub fn kind_of_body(words: &mut Words) -> Result<BodyKind, Misread>
    ensures { Reads (λ k. k) result words.new
        (token_at (among body_word every_body_kind) words.old) }
{
    let place = words.place();
    let word = words.next().ok_or(Misread { place })?;
    body_kind_in(word).ok_or(Misread { place })
}

/// The next word, as the first of a fault.
pub fn kind_of_fault(words: &mut Words) -> Result<FaultKind, Misread>
    ensures { Reads (λ k. k) result words.new
        (token_at (among fault_word every_fault_kind) words.old) }
{
    let place = words.place();
    let word = words.next().ok_or(Misread { place })?;
    fault_kind_in(word).ok_or(Misread { place })
}
