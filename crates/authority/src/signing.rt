//! Certificates that are signed and written, one after the other.

ghost use Rattle.std.specs.Prelude.{◌≡◌, ◌<◌, ◌≤◌, true, false, IfOk, string_bytes};
ghost use Rattle.authority.specs.Telling.{is_writable};
ghost use Rattle.authority.specs.Settings.{asked_in};
ghost use Rattle.authority.specs.Texts.{HavePorts, HasPort};
ghost use Rattle.play.specs.Plays.{io};
ghost use Rattle.ports.specs.Outside.{OfSource};
ghost use Rattle.authority.specs.Lines.{cert_line};
ghost use Rattle.authority.specs.Signing.{SignsAll, SignsLine, SignsOne, halt_of_fault};

use crate::Halt;
use fields::NoMemory;
use ports::{Disk, Failed, Sink, write_all};
use records::CertBody;
use schedule_texts::RosterLine;
use signer::{SignFault, Signer};
use std::alloc::Global;

/// The line of a certificate with its signature.
fn cert_line(alloc: Global, cert: &CertBody, signature: &[u8]) -> Result<String, NoMemory>
    ensures { IfOk result (λ line. string_bytes line ≡ cert_line cert.now signature.now) }
{
    let bytes = cert.key.write();
    let key = hex::encode(alloc, bytes.as_slice())?;
    let digits = hex::encode(alloc, signature)?;
    let (member, port) = (cert.member, cert.port);
    Ok(format!(in alloc; "cert {member} {port} {key} {digits}\n")?)
}

/// Why nothing more is signed.
fn halt_of(fault: SignFault) -> Halt
    ensures { result ≡ halt_of_fault fault }
{
    match fault {
        SignFault::OutOfMemory => Halt::OutOfMemory,
        SignFault::Closed => Halt::StoreFault,
        SignFault::Exhausted { next } => Halt::Exhausted { next },
        SignFault::StoreFault => Halt::StoreFault,
    }
}

/// Signs one certificate, and writes its line.
fn sign_one<O: Sink, D: Disk>(
    alloc: Global,
    signer: &mut Signer,
    cert: CertBody,
    out: &mut O,
    disk: &mut D,
) -> Result<(), Halt>
    requires port { 0 < cert.port }
    requires going { signer.old.closed ≡ false }
    requires sink { (O.state out.old).is_open ≡ true }
    ensures sink { (O.state out.new).is_open ≡ is_writable result }
    ensures signs { (source : OfSource) → SignsOne cert signer.old signer.new
        (io source (O.state out.old))
        (io source (O.state out.new))
        (D.state disk.old) (D.state disk.new) result }
{
    let signed = match signer.sign_certificate(alloc, disk, cert) {
        Ok(signed) => signed,
        Err(fault) => return Err(halt_of(fault)),
    };
    let line = match cert_line(alloc, &cert, signed.rec().signature.as_slice()) {
        Ok(line) => line,
        Err(NoMemory) => return Err(Halt::OutOfMemory),
    };
    match write_all(out, line.as_bytes()) {
        Ok(()) => Ok(()),
        Err(Failed) => Err(Halt::WriteFault),
    }
}

/// Signs the certificate that the line asks for, if it asks for one, and writes its line.
fn sign_line<O: Sink, D: Disk>(
    alloc: Global,
    signer: &mut Signer,
    line: RosterLine,
    out: &mut O,
    disk: &mut D,
) -> Result<(), Halt>
    requires port { HasPort line }
    requires going { signer.old.closed ≡ false }
    requires sink { (O.state out.old).is_open ≡ true }
    ensures sink { (O.state out.new).is_open ≡ is_writable result }
    ensures signs { (source : OfSource) → SignsLine line signer.old signer.new
        (io source (O.state out.old))
        (io source (O.state out.new))
        (D.state disk.old) (D.state disk.new) result }
{
    match line {
        RosterLine::Cert(cert) => sign_one(alloc, signer, cert, out, disk),
        _ => Ok(()),
    }
}

/// Signs each certificate that the lines ask for, in turn, and writes its line before the next is signed.
pub(crate) fn sign_all<O: Sink, D: Disk>(
    alloc: Global,
    signer: &mut Signer,
    lines: Vec<RosterLine>,
    out: &mut O,
    disk: &mut D,
) -> Result<(), Halt>
    requires ports { HavePorts lines.items }
    requires going { signer.old.closed ≡ false }
    requires sink { (O.state out.old).is_open ≡ true }
    ensures sink { (O.state out.new).is_open ≡ is_writable result }
    ensures signs { (source : OfSource) → SignsAll (asked_in lines.items) signer.old
        (io source (O.state out.old))
        (io source (O.state out.new))
        (D.state disk.old) (D.state disk.new) result }
{
    for line in lines {
        match sign_line(alloc, signer, line, out, disk) {
            Ok(()) => {}
            Err(halt) => return Err(halt),
        }
    }
    Ok(())
}
