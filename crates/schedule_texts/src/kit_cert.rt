//! The `cert` line. All of it is judged, the signature too, before memory is asked for.

ghost use Rattle.std.specs.Prelude.{◌≡◌, ◌≤◌, take, true, is_ok, ⊤, IfOk, Some};
ghost use Rattle.hex.specs.Hex.{decode_of};
ghost use Rattle.line_text.specs.Answers.{AnswersBy, refusal};
ghost use Rattle.line_text.specs.Fields.{hex_of};
ghost use Rattle.line_text.specs.Frame.{behind, first_word, whole_line};
ghost use Rattle.records.specs.declared.Body.TheVariants.{Certificate};
ghost use Rattle.records.specs.Signing.{signed_bytes};
ghost use Rattle.records.specs.Keys.{Verifies};
ghost use Rattle.records.specs.declared.keys.Key.TheVariants as keys;
ghost use Rattle.schedule_texts.specs.KitRows.{cert_fault_in, cert_fields, cert_in, is_good, signature};

use crate::kit_read::take_member;
use crate::{take_key, take_port};
use ff_ids::{Group, MEMBERS};
use fields::Bytes;
use hex::decode_to_slice;
use line_text::{BadWord, LineFault, Words};
use lms_tree::PublicKey;
use records::{Body, CertBody, Checked, Key, Record, signed_bytes};
use std::alloc::Global;

/// The greatest length of a signature: a one-time signature of width 1 in a tree of height 15.
const LONGEST: usize = 9_004;

/// Whether the next word is an even number of hexadecimal digits.
fn is_hex(words: &Words) -> bool
    ensures { result ≡ is_ok (decode_of (first_word words.now)) }
{
    !matches!(words.again().bytes::<0>(), Err(BadWord::Hex))
}

/// Takes the signature that the next word spells into the room, and answers its length. It takes no memory.
fn take_signature(words: &mut Words, room: &mut [u8; 9_004]) -> Result<usize, BadWord>
    ensures refused { signature (first_word words.old) ≡ refusal result }
    ensures value { IfOk result (λ n. hex_of (first_word words.old) ≡ Some (take n room.new)) }
    ensures some { IfOk result (λ n. 1 ≤ n) }
    ensures few { IfOk result (λ n. n ≤ 9004) }
    ensures moved { words.new ≡ behind words.old }
{
    let is_hex = is_hex(words);
    let word = words.next().unwrap_or(b"");
    if !is_hex {
        return Err(BadWord::Hex);
    }
    let length = word.len() / 2;
    if length == 0 || length > LONGEST {
        return Err(BadWord::Limit);
    }
    match decode_to_slice(word, &mut room[..length]) {
        Ok(()) => Ok(length),
        Err(_) => Err(BadWord::Hex),
    }
}

/// Whether the number has no certificate yet, and the signature verifies under the authority's key in the group.
fn is_good(
    group: &Group,
    authority: &PublicKey,
    named: &[bool; MEMBERS as usize],
    cert: &CertBody,
    signature: &[u8],
) -> bool
    ensures value { result ≡ is_good group.now authority.now named.now cert.now signature.now }
    ensures verified { result ≡ true
        → Verifies (keys.Lms authority.now) (signed_bytes group.now.tag group.now.t (Certificate cert.now))
        signature.now }
{
    let signed = signed_bytes(group, &Body::Certificate(*cert));
    let verdict = Key::Lms(*authority).verify(signed.as_slice(), signature);
    !named[cert.member.get() as usize] && verdict.is_ok()
}

/// The certificate that the words behind `cert` are.
pub(crate) fn read_cert(
    alloc: Global,
    group: &Group,
    authority: &PublicKey,
    named: &[bool; MEMBERS as usize],
    args: Words,
) -> Result<Checked, LineFault>
    ensures { AnswersBy (λ _. ⊤)
        (whole_line cert_fields (cert_fault_in group.now authority.now named.now)
        (cert_in group.now authority.now) args.entry) result }
{
    let mut args = args.exactly(4)?;
    let member = take_member(&mut args)?;
    let port = take_port(&mut args)?;
    let key = take_key(&mut args)?;
    let mut room = [0; 9_004];
    let length = take_signature(&mut args, &mut room)?;
    let signature = &room[..length];
    let cert = CertBody { member, port, key };
    if !is_good(group, authority, named, &cert, signature) {
        return Err(LineFault::Bad(BadWord::Cert));
    }
    let signature = Bytes::from_vec(Vec::from_slice(alloc, signature)?);
    let rec = Record {
        body: Body::Certificate(cert),
        signature,
    };
    Ok(Checked::from_signed(group, &Key::Lms(*authority), rec))
}
