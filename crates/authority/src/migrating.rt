//! From a text that moves a store to the store of the key in another group.

ghost use Rattle.std.specs.Prelude.{◌≡◌, ◌<◌, ◌≤◌, ◌++◌, ◌∷◌, [], true, false, IfOk, codes, decimal, string_bytes};
ghost use Rattle.ff_ids.specs.declared.TheConstants.{MAX_TOLERANCE};
ghost use Rattle.play.specs.Plays.{io};
ghost use Rattle.ports.specs.Outside.{OfSource};
ghost use Rattle.sign_keys.specs.Kinds.{is_in_profile};
ghost use Rattle.authority.specs.Migrating.{Migrates, MigratesBehind, MovesOpened, new_tag};
ghost use Rattle.authority.specs.Telling.{is_writable};

use crate::enrolling::{Opened, open_store};
use crate::moving::read_migrate_text;
use crate::{Halt, Moving};
use epoch_store::Store;
use ff_ids::all_rings;
use fields::NoMemory;
use ports::{Disk, Failed, Sink, Source, write_all};
use std::alloc::Global;

/// The line of a store that moved.
fn migrated_line(alloc: Global, next: u32, epoch: u64) -> Result<String, NoMemory>
    ensures { IfOk result (λ line. string_bytes line
        ≡ codes "migrated " ++ decimal next ++ codes " " ++ decimal epoch ++ 10 ∷ []) }
{
    Ok(format!(in alloc; "migrated {next} {epoch}\n")?)
}

/// Moves the store to the new group, and then writes its line.
fn move_and_tell<O: Sink, D: Disk>(
    alloc: Global,
    moving: &Moving,
    tag: &[u8; 32],
    mut store: Store,
    out: &mut O,
    disk: &mut D,
) -> Result<(), Halt>
    requires tolerance { moving.now.setting.group.t ≤ MAX_TOLERANCE }
    requires tag { tag.now ≡ new_tag moving.now }
    requires going { store.failed ≡ false }
    requires left { store.state.next < 32768 }
    requires sink { (O.state out.old).is_open ≡ true }
    ensures sink { (O.state out.new).is_open ≡ is_writable result }
    ensures moves { (source : OfSource) → MovesOpened moving.now store.state store.seat
        (io source (O.state out.old))
        (io source (O.state out.new))
        (D.state disk.old) (D.state disk.new) result }
{
    let state = store.state();
    let line = match migrated_line(alloc, state.next + 1, state.epoch) {
        Ok(line) => line,
        Err(NoMemory) => return Err(Halt::OutOfMemory),
    };
    match store.migrate(disk, tag, all_rings(moving.setting.group.t)) {
        Ok(()) => match write_all(out, line.as_bytes()) {
            Ok(()) => Ok(()),
            Err(Failed) => Err(Halt::WriteFault),
        },
        Err(_fault) => Err(Halt::StoreFault),
    }
}

/// Opens the store of the old group, and then moves it where the key has an index left.
fn open_and_move<O: Sink, D: Disk>(
    alloc: Global,
    name: &str,
    moving: &Moving,
    out: &mut O,
    disk: &mut D,
) -> Result<(), Halt>
    requires tolerance { moving.now.setting.group.t ≤ MAX_TOLERANCE }
    requires profile { is_in_profile moving.now.setting.kinds ≡ true }
    requires sink { (O.state out.old).is_open ≡ true }
    ensures sink { (O.state out.new).is_open ≡ is_writable result }
    ensures migrates { (source : OfSource) → MigratesBehind name.now moving.now
        (io source (O.state out.old))
        (io source (O.state out.new))
        (D.state disk.old) (D.state disk.new) result }
{
    let Opened { key, store } = match open_store(alloc, name, &moving.left(), disk) {
        Ok(opened) => opened,
        Err(halt) => return Err(halt),
    };
    let next = store.state().next;
    if next >= key.index_count() {
        return Err(Halt::Exhausted { next });
    }
    let tag = moving.setting.store_tag(&key);
    move_and_tell(alloc, moving, &tag, store, out, disk)
}

/// Reads a text that moves a store, opens the store of the old group in the file of that name, moves it to the new group, and
/// writes the line of that: in this order, each only where what comes before it was done. Where memory is refused, nothing
/// is written and nothing put.
pub fn migrate_store<S: Source, O: Sink, D: Disk>(
    alloc: Global,
    name: &str,
    input: &mut S,
    out: &mut O,
    disk: &mut D,
) -> Result<(), Halt>
    requires source { (S.state input.old).is_open ≡ true }
    requires sink { (O.state out.old).is_open ≡ true }
    ensures sink { (O.state out.new).is_open ≡ is_writable result }
    ensures migrates { Migrates name.now
        (io (S.state input.old) (O.state out.old))
        (io (S.state input.new) (O.state out.new))
        (D.state disk.old) (D.state disk.new) result }
{
    let moving = match read_migrate_text(alloc, input, out) {
        Ok(moving) => moving,
        Err(stop) => return Err(Halt::from(stop)),
    };
    open_and_move(alloc, name, &moving, out, disk)
}
