//! Texts of member 1 of a group, and the mark of its store.

ghost use Rattle.std.specs.Prelude.{◌≡◌, ◌<◌, true};
ghost use Rattle.sign_keys.specs.Kinds.{is_in_profile};

use ff_ids::{Group, MemberId};
use fixtures::{AUTHORITY, Key, Kinds};
use records::{Body, CertBody};
use secrets::{store_tag, world_secret};
use std::alloc::Global;
use std::test::Fail;

const GROUP: Group = Group {
    tag: [0; 16],
    t: 1,
    timeout: 4,
    period: 1,
    misses: 2,
};

/// The lines before that of the kinds.
pub const HEAD: &str = "fireflies 1 kit\ngroup 1 4 1 2 00000000000000000000000000000000\n";

/// The digits of the authority's signature under the certificate of this member, which has this key, and the port 20,000 and
/// its number.
fn signature_digits(
    alloc: Global,
    authority: &mut Key,
    number: u16,
    key: records::Key,
) -> Result<String, Fail>
    requires { number < 1024 }
{
    let cert = CertBody {
        member: MemberId::new(number),
        port: 20_000 + number,
        key,
    };
    let checked = authority.sign(alloc, &GROUP, Body::Certificate(cert))?;
    Ok(hex::encode(alloc, checked.rec().signature.as_slice())?)
}

/// The public key of this member.
fn public_of(alloc: Global, kinds: Kinds, number: u16) -> Result<records::Key, Fail>
    requires { is_in_profile kinds ≡ true }
{
    Ok(Key::of(alloc, &GROUP.tag, number, kinds)?.public())
}

/// The line of the certificate of this member, of which this is the public key.
fn cert_line(
    alloc: Global,
    authority: &mut Key,
    number: u16,
    key: records::Key,
) -> Result<String, Fail>
    requires { number < 1024 }
{
    let signature = signature_digits(alloc, authority, number, key)?;
    let digits = hex::encode(alloc, key.write().as_slice())?;
    let port = 20_000 + number;
    Ok(format!(in alloc; "cert {number} {port} {digits} {signature}\n")?)
}

/// The lines before those of the certificates, which this key signs. The line of the kinds is given.
fn own_lines(alloc: Global, kinds_line: &str, authority: &records::Key) -> Result<String, Fail> {
    let secret = hex::encode(alloc, world_secret(&GROUP.tag, 1).as_slice())?;
    let key = hex::encode(alloc, authority.write().as_slice())?;
    Ok(format!(in alloc; "{HEAD}{kinds_line}self 1 {secret}\nauthority {key}\ntick 100\n")?)
}

/// Appends the certificates of member 1 and of so many others, whose keys have these kinds, and the end.
fn push_certs(
    alloc: Global,
    authority: &mut Key,
    kinds: Kinds,
    others: u16,
    text: &mut String,
) -> Result<(), Fail>
    requires profile { is_in_profile kinds ≡ true }
    requires few { others < 1000 }
{
    for other in 0..others + 1 {
        let key = public_of(alloc, kinds, other + 1)?;
        text.push_str(&cert_line(alloc, authority, other + 1, key)?)?;
    }
    Ok(text.push_str("end\n")?)
}

/// The text of member 1, whose key has these kinds, with the certificates of it and of so many others.
pub fn kit(alloc: Global, kinds: Kinds, kinds_line: &str, others: u16) -> Result<String, Fail>
    requires profile { is_in_profile kinds ≡ true }
    requires few { others < 1000 }
{
    let one_level = Kinds {
        bottom: None,
        ..kinds
    };
    let mut authority = Key::of(alloc, &GROUP.tag, AUTHORITY, one_level)?;
    let mut text = own_lines(alloc, kinds_line, &authority.public())?;
    push_certs(alloc, &mut authority, kinds, others, &mut text)?;
    Ok(text)
}

/// The mark of the store of member 1, whose key has these kinds.
pub fn mark_of_1(alloc: Global, kinds: Kinds) -> Result<[u8; 32], Fail>
    requires { is_in_profile kinds ≡ true }
{
    let key = Key::of(alloc, &GROUP.tag, 1, kinds)?;
    Ok(store_tag(&GROUP, key.as_sign_key()))
}
