//! From the text of a secret to the store of its key.

ghost use Rattle.std.specs.Prelude.{◌≡◌, ◌≤◌, true, IfOk, string_bytes};
ghost use Rattle.ff_ids.specs.declared.TheConstants.{MAX_TOLERANCE};
ghost use Rattle.authority.specs.Telling.{is_writable};
ghost use Rattle.play.specs.Plays.{io};
ghost use Rattle.ports.specs.Outside.{OfSource};
ghost use Rattle.sign_keys.specs.Kinds.{is_in_profile};
ghost use Rattle.authority.specs.Making.{IsPrepared, MakesBehind, Makes, key_line};

use crate::{Halt, Setting, read_secret_text};
use epoch_store::make;
use ff_ids::all_rings;
use fields::NoMemory;
use ports::{Disk, Failed, Sink, Source, write_all};
use records::Key;
use std::alloc::Global;

/// What marks the store of a key, and the line that gives its public half.
#[derive(Drop)]
struct Prepared {
    tag: [u8; 32],
    line: String,
}

/// The line that gives a key.
fn key_line(alloc: Global, key: &Key) -> Result<String, NoMemory>
    ensures { IfOk result (λ line. string_bytes line ≡ key_line key.now) }
{
    let bytes = key.write();
    let digits = hex::encode(alloc, bytes.as_slice())?;
    Ok(format!(in alloc; "key {digits}\n")?)
}

/// The mark of the store of the setting's key, and the key's line.
fn prepare(alloc: Global, setting: &Setting) -> Result<Prepared, NoMemory>
    requires { is_in_profile setting.now.kinds ≡ true }
    ensures { IfOk result (λ prepared. IsPrepared setting.now prepared) }
{
    let key = setting.make_key(alloc)?;
    let line = key_line(alloc, &key.public())?;
    Ok(Prepared {
        tag: setting.store_tag(&key),
        line,
    })
}

/// Makes the store in the file of that name, and then writes the line.
fn make_and_tell<O: Sink, D: Disk>(
    name: &str,
    setting: &Setting,
    prepared: &Prepared,
    out: &mut O,
    disk: &mut D,
) -> Result<(), Halt>
    requires tolerance { setting.now.group.t ≤ MAX_TOLERANCE }
    requires prepared { IsPrepared setting.now prepared.now }
    requires sink { (O.state out.old).is_open ≡ true }
    ensures sink { (O.state out.new).is_open ≡ is_writable result }
    ensures makes { (source : OfSource) → MakesBehind name.now setting.now
        (io source (O.state out.old))
        (io source (O.state out.new))
        (D.state disk.old) (D.state disk.new) result }
{
    match make(disk, name, &prepared.tag, all_rings(setting.group.t)) {
        Ok(()) => match write_all(out, prepared.line.as_bytes()) {
            Ok(()) => Ok(()),
            Err(Failed) => Err(Halt::WriteFault),
        },
        Err(error) => Err(Halt::from(error)),
    }
}

/// Reads the text of a secret, makes the store of its key in the file of that name, and writes the key: in this order, each
/// only where what comes before it was done. Where memory is refused, nothing is written and the file is as it was.
pub fn make_store<S: Source, O: Sink, D: Disk>(
    alloc: Global,
    name: &str,
    input: &mut S,
    out: &mut O,
    disk: &mut D,
) -> Result<(), Halt>
    requires source { (S.state input.old).is_open ≡ true }
    requires sink { (O.state out.old).is_open ≡ true }
    ensures sink { (O.state out.new).is_open ≡ is_writable result }
    ensures makes { Makes name.now
        (io (S.state input.old) (O.state out.old))
        (io (S.state input.new) (O.state out.new))
        (D.state disk.old) (D.state disk.new) result }
{
    let setting = match read_secret_text(alloc, input, out) {
        Ok(setting) => setting,
        Err(stop) => return Err(Halt::from(stop)),
    };
    match prepare(alloc, &setting) {
        Ok(prepared) => make_and_tell(name, &setting, &prepared, out, disk),
        Err(NoMemory) => Err(Halt::OutOfMemory),
    }
}
