// The line that names a forged record. It takes no memory.

ghost use Rattle.std.specs.Prelude.{◌≡◌, ◌≤◌, ◌+◌, ◌*◌, ◌++◌, ◌∷◌, [], codes, decimal, length};
ghost use Rattle.hex.specs.Hex.{encode_lower};
ghost use Rattle.ff_ids.specs.Texts.{accusation_text};
ghost use Rattle.journal.specs.Texts.{body_text, certificate_text, note_text};
ghost use Rattle.world_rules.specs.Walk.{owner_text};

use arrayvec::ArrayString;
use ff_ids::{AccBody, MemberId, NoteBody, digit};
use itoa::Buffer;
use records::{Body, CertBody};

/// Adds a number.
fn add_number(number: u64, text: &mut ArrayString<256>)
    requires { length text.old.bytes + 20 ≤ 256 }
    ensures text { text.new.bytes ≡ text.old.bytes ++ decimal number }
    ensures short { length text.new.bytes ≤ length text.old.bytes + 20 }
{
    let mut digits = Buffer::new();
    text.push_str(digits.format(number));
}

/// Adds a space and a number.
fn add_next(number: u64, text: &mut ArrayString<256>)
    requires { length text.old.bytes + 21 ≤ 256 }
    ensures text { text.new.bytes ≡ text.old.bytes ++ codes " " ++ decimal number }
    ensures short { length text.new.bytes ≤ length text.old.bytes + 21 }
{
    text.push_str(" ");
    add_number(number, text);
}

/// Adds the two digits of each byte.
fn add_digits(bytes: &[u8], text: &mut ArrayString<256>)
    requires { length text.old.bytes + 2 * length bytes.now ≤ 256 }
    ensures text { text.new.bytes ≡ text.old.bytes ++ encode_lower bytes.now }
    ensures long { length text.new.bytes ≡ length text.old.bytes + 2 * length bytes.now }
{
    for byte in bytes {
        text.push(digit(*byte / 16));
        text.push(digit(*byte % 16));
    }
}

fn add_certificate(certificate: &CertBody, text: &mut ArrayString<256>)
    requires { length text.old.bytes + 168 ≤ 256 }
    ensures text { text.new.bytes ≡ text.old.bytes ++ certificate_text certificate.now }
    ensures short { length text.new.bytes ≤ length text.old.bytes + 168 }
{
    text.push_str("cert ");
    add_number(u64::from(certificate.member.get()), text);
    add_next(u64::from(certificate.port), text);
    text.push_str(" ");
    let key = certificate.key.write();
    add_digits(key.as_slice(), text);
}

fn add_note(note: &NoteBody, text: &mut ArrayString<256>)
    requires { length text.old.bytes + 168 ≤ 256 }
    ensures text { text.new.bytes ≡ text.old.bytes ++ note_text note.now }
    ensures short { length text.new.bytes ≤ length text.old.bytes + 168 }
{
    text.push_str("note ");
    add_number(u64::from(note.member.get()), text);
    add_next(note.epoch.get(), text);
    add_next(u64::from(note.mask.0), text);
}

fn add_accusation(accusation: &AccBody, text: &mut ArrayString<256>)
    requires { length text.old.bytes + 168 ≤ 256 }
    ensures text { text.new.bytes
        ≡ text.old.bytes ++ codes "accuse " ++ accusation_text accusation.now }
    ensures short { length text.new.bytes ≤ length text.old.bytes + 168 }
{
    text.push_str("accuse ");
    add_number(u64::from(accusation.accuser.get()), text);
    add_next(u64::from(accusation.accused.get()), text);
    add_next(accusation.epoch.get(), text);
    add_next(u64::from(accusation.ring.0), text);
}

/// Adds a body as its kind is written.
fn add_body(body: &Body, text: &mut ArrayString<256>)
    requires { length text.old.bytes + 168 ≤ 256 }
    ensures text { text.new.bytes ≡ text.old.bytes ++ body_text body.now }
    ensures short { length text.new.bytes ≤ length text.old.bytes + 168 }
{
    match body {
        Body::Certificate(certificate) => add_certificate(certificate, text),
        Body::Note(note) => add_note(note, text),
        Body::Accusation(accusation) => add_accusation(accusation, text),
    }
}

/// Adds whose key it is: a member's, or the authority's.
fn add_owner(who: Option<MemberId>, text: &mut ArrayString<256>)
    requires { length text.old.bytes + 20 ≤ 256 }
    ensures text { text.new.bytes ≡ text.old.bytes ++ owner_text who }
    ensures short { length text.new.bytes ≤ length text.old.bytes + 20 }
{
    match who {
        Some(member) => add_number(u64::from(member.get()), text),
        None => text.push_str("authority"),
    }
}

/// The line that says which line hands over a forged record, whose key seems to have signed it, and what it says.
pub(crate) fn forged_line(line: u32, who: Option<MemberId>, body: &Body) -> ArrayString<256>
    ensures { result.bytes
        ≡ codes "forged " ++ decimal line ++ codes " " ++ owner_text who ++ codes " " ++ body_text
        body.now ++ 10 ∷ [] }
{
    let mut text = ArrayString::new();
    text.push_str("forged ");
    add_number(u64::from(line), &mut text);
    text.push_str(" ");
    add_owner(who, &mut text);
    text.push_str(" ");
    add_body(body, &mut text);
    text.push_str("\n");
    text
}
