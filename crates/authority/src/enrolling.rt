//! From a roster to its signed certificates.

ghost use Rattle.std.specs.Prelude.{◌≡◌, ◌<◌, true, length, nat_lt};
ghost use Rattle.authority.specs.Settings.{asked_in, key_of};
ghost use Rattle.authority.specs.Telling.{is_writable};
ghost use Rattle.authority.specs.Texts.{HavePorts};
ghost use Rattle.play.specs.Plays.{io};
ghost use Rattle.ports.specs.Outside.{OfSource};
ghost use Rattle.sign_keys.specs.Kinds.{is_in_profile};
ghost use Rattle.authority.specs.Enrolling.{Enrols, EnrolsBehind, OpensStore};

use crate::signing::sign_all;
use crate::{Asked, Halt, Setting, read_roster};
use epoch_store::Store;
use fields::NoMemory;
use ports::{Disk, Sink, Source};
use schedule_texts::RosterLine;
use signer::{SignKey, Signer};
use std::alloc::Global;

/// A key that was made anew, and its store.
#[derive(Drop)]
pub(crate) struct Opened {
    pub(crate) key: SignKey,
    pub(crate) store: Store,
}

/// Makes the key of the setting, and opens its store in the file of that name.
pub(crate) fn open_store<D: Disk>(
    alloc: Global,
    name: &str,
    setting: &Setting,
    disk: &mut D,
) -> Result<Opened, Halt>
    requires { is_in_profile setting.now.kinds ≡ true }
    ensures opens { OpensStore name.now setting.now
        (D.state disk.old) (D.state disk.new) result }
{
    let key = match setting.make_key(alloc) {
        Ok(key) => key,
        Err(NoMemory) => return Err(Halt::OutOfMemory),
    };
    match Store::open(disk, name, &setting.store_tag(&key)) {
        Ok(store) => Ok(Opened { key, store }),
        Err(error) => Err(Halt::from(error)),
    }
}

/// Whether the lines ask for a certificate.
fn is_asked(lines: Vec<RosterLine>) -> bool
    ensures { result ≡ nat_lt 0 (length (asked_in lines.items)) }
{
    for line in lines {
        if let RosterLine::Cert(_) = line {
            return true;
        }
    }
    false
}

/// Opens the store, and then signs and writes what the lines ask for.
fn open_and_sign<O: Sink, D: Disk>(
    alloc: Global,
    name: &str,
    setting: &Setting,
    lines: Vec<RosterLine>,
    out: &mut O,
    disk: &mut D,
) -> Result<(), Halt>
    requires profile { is_in_profile setting.now.kinds ≡ true }
    requires ports { HavePorts lines.items }
    requires sink { (O.state out.old).is_open ≡ true }
    ensures sink { (O.state out.new).is_open ≡ is_writable result }
    ensures enrols { (source : OfSource) → EnrolsBehind name.now setting.now (asked_in lines.items)
        (io source (O.state out.old))
        (io source (O.state out.new))
        (D.state disk.old) (D.state disk.new) result }
{
    let Opened { key, store } = match open_store(alloc, name, setting, disk) {
        Ok(opened) => opened,
        Err(halt) => return Err(halt),
    };
    let next = store.state().next;
    if next > key.index_count() {
        if is_asked(lines) {
            return Err(Halt::Exhausted { next });
        }
        return Ok(());
    }
    let mut signer = Signer::open(setting.group, key, store);
    sign_all(alloc, &mut signer, lines, out, disk)
}

/// Reads a roster, opens the authority's store in the file of that name, and signs and writes each certificate that is asked
/// for: in this order, each only where what comes before it was done.
pub fn enroll<S: Source, O: Sink, D: Disk>(
    alloc: Global,
    name: &str,
    input: &mut S,
    out: &mut O,
    disk: &mut D,
) -> Result<(), Halt>
    requires source { (S.state input.old).is_open ≡ true }
    requires sink { (O.state out.old).is_open ≡ true }
    ensures sink { (O.state out.new).is_open ≡ is_writable result }
    ensures enrols { Enrols name.now
        (io (S.state input.old) (O.state out.old))
        (io (S.state input.new) (O.state out.new))
        (D.state disk.old) (D.state disk.new) result }
{
    let Asked { setting, lines } = match read_roster(alloc, input, out) {
        Ok(asked) => asked,
        Err(stop) => return Err(Halt::from(stop)),
    };
    open_and_sign(alloc, name, &setting, lines, out, disk)
}
