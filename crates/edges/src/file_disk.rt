//! A file of the system as a disk.

ghost use Rattle.std.specs.Prelude.{◌≡◌, ◌≤◌, true, false, None, [], ◌∷◌, length, IfOk, OnOk, OnErr, IsNone, IsErr, is_err, is_some};
ghost use Rattle.ports.specs.Count.{counted};
ghost use Rattle.ports.specs.Device.{open_failed};
ghost use Rattle.ports.specs.Disk.{Opens, Measures, Fails, ReadsPart, KeepsRest, Settles, next, wrote, torn_at, stays};
ghost use Rattle.ports.specs.DiskCalls.{ToOpen};
ghost use Rattle.ports.specs.DiskSteps.{OpensOn};
ghost use Rattle.edges.specs.Device.{after_call, after_open, closed, untold};

use crate::TRIES;
use ports::{Disk, Failed, Opened};
use std::alloc::Global;
use std::fs::{File, Files, Metadata, OpenFile, OpenOptions};
use std::io;
use std::marker::Model;
use std::os::fd::{AsRawFd, RawFd};
use std::os::unix::fs::{FileExt, OpenOptionsExt};
use std::path::Path;

/// Who may read and write a file that is made: its owner.
const MODE: u32 = 0o600;

/// The first number of a file that is no standard stream.
const NO_STREAM: RawFd = 3;

/// A name that was opened.
#[derive(Drop)]
struct Named {
    name: String,
    /// None until the first write, where no file has the name.
    file: Option<File>,
    /// The folder in which the name stands, until the first sync of the file.
    folder: Option<File>,
}

/// A plain file of the system, which no other disk has open. Its content is not modelled. Before an `open` that was `Done` the
/// other calls fail.
///
/// Where there is no file of the name, the first write makes it; until then its length is 0. From then on, or from the
/// opening, the file is locked: an `open` fails where another disk has it. The first `sync` after an `open` also syncs
/// the folder in which the name stands, so that a crash leaves the name as well: whoever made the file may have been
/// stopped before that.
#[derive(Drop)]
pub struct FileDisk<'a, R: Files<File = File>> {
    alloc: Global,
    files: &'a R,
    named: Option<Named>,
    faults: u64,
}

impl<'a, R: Files<File = File>> Model for FileDisk<'a, R> {
    ghost use Rattle.std.specs.Prelude.{is_some};
    ghost use Rattle.edges.specs.Device.{Device};

    ghost Value = { Device };

    ghost view = { λ d. record { is_open = is_some d.named; faults = d.faults } };
}

/// The folder in which the file of that name stands.
fn folder_of(name: &str) -> &str {
    match Path::new(name).parent() {
        Some(folder) if !folder.as_str().is_empty() => folder.as_str(),
        _ => ".",
    }
}

/// To read and write, by the owner alone where the file is made.
fn options() -> OpenOptions {
    let mut options = OpenOptions::new();
    options.read(true).write(true).mode(MODE);
    options
}

/// Locks the file until it is closed, and says what it is then. Fails where another has locked it, or it is no plain
/// file: a device has length 0, and would be written over. Fails too where the program was started with a standard
/// stream closed, and the file has taken its number: what is meant for the stream would be written over the file.
fn lock(file: &File) -> io::Result<Metadata> {
    file.try_lock()?;
    let found = file.metadata()?;
    if found.is_file() && file.as_raw_fd() >= NO_STREAM {
        Ok(found)
    } else {
        Err(io::ErrorKind::InvalidInput.into())
    }
}

/// The file of that name, locked, if there is one.
fn find<R: Files<File = File>>(files: &R, name: &str) -> io::Result<Option<File>> {
    match options().open(files, name) {
        Ok(file) => {
            lock(&file)?;
            Ok(Some(file))
        }
        Err(error) if error.kind() == io::ErrorKind::NotFound => Ok(None),
        Err(error) => Err(error),
    }
}

/// A new file of that name, locked. Fails where there is one by now, and where another wrote to it before the lock.
fn make<R: Files<File = File>>(files: &R, name: &str) -> io::Result<File> {
    let file = options().create_new(true).open(files, name)?;
    if lock(&file)?.len() == 0 {
        Ok(file)
    } else {
        Err(io::ErrorKind::AlreadyExists.into())
    }
}

/// One read from the place on, made again where a signal interrupts it.
fn read_some(file: &File, place: u64, buf: &mut [u8]) -> io::Result<usize>
    ensures fits { IfOk result (λ n. n ≤ length buf.old) }
{
    for _ in 0..TRIES {
        match file.read_at(buf, place) {
            Err(error) if error.kind() == io::ErrorKind::Interrupted => {}
            answer => return answer,
        }
    }
    Err(io::ErrorKind::Interrupted.into())
}

/// Reads from the place on, up to the buffer's end or the file's, and gives the number of bytes.
fn read_whole(file: &File, place: u64, buf: &mut [u8]) -> io::Result<usize>
    ensures fits { IfOk result (λ n. n ≤ length buf.old) }
{
    let mut count = 0;
    while count < buf.len() {
        let from = place.saturating_add(count as u64);
        match read_some(file, from, &mut buf[count..])? {
            0 => break,
            read => count += read,
        }
    }
    Ok(count)
}

impl Named {
    /// The folder is opened here, so that no file is made where it can't be synced; and after the file, which is found
    /// in no pipe: to open a pipe as a folder would wait for a writer.
    fn open<R: Files<File = File>>(alloc: Global, files: &R, name: &str) -> io::Result<Named> {
        Ok(Named {
            name: String::from_str(alloc, name)?,
            file: find(files, name)?,
            folder: Some(File::open(files, folder_of(name))?),
        })
    }

    fn len(&self) -> io::Result<u64> {
        match &self.file {
            Some(file) => Ok(file.metadata()?.len()),
            None => Ok(0),
        }
    }

    fn read(&self, place: u64, buf: &mut [u8]) -> io::Result<usize>
        ensures fits { IfOk result (λ n. n ≤ length buf.old) }
    {
        match &self.file {
            Some(file) => read_whole(file, place, buf),
            None => Ok(0),
        }
    }

    fn write<R: Files<File = File>>(
        &mut self,
        files: &R,
        place: u64,
        bytes: &[u8],
    ) -> io::Result<()> {
        match &self.file {
            Some(file) => file.write_all_at(bytes, place),
            None => {
                let file = make(files, self.name.as_str())?;
                let written = file.write_all_at(bytes, place);
                self.file = Some(file);
                written
            }
        }
    }

    /// Syncs the file, if there is one, and then the folder, until that was done once.
    fn sync(&mut self) -> io::Result<()> {
        let Some(file) = &self.file else {
            return Ok(());
        };
        file.sync_all()?;
        if let Some(folder) = &self.folder {
            folder.sync_all()?;
            self.folder = None;
        }
        Ok(())
    }
}

fn not_open() -> io::Error {
    io::ErrorKind::NotConnected.into()
}

fn measure(named: &Option<Named>) -> io::Result<u64>
    ensures shut { IsNone named.now → IsErr result }
{
    named.as_ref().ok_or(not_open())?.len()
}

fn read(named: &Option<Named>, place: u64, buf: &mut [u8]) -> io::Result<usize>
    ensures shut { IsNone named.now → IsErr result }
    ensures fits { IfOk result (λ n. n ≤ length buf.old) }
{
    named.as_ref().ok_or(not_open())?.read(place, buf)
}

fn write<R: Files<File = File>>(
    files: &R,
    named: &mut Option<Named>,
    place: u64,
    bytes: &[u8],
) -> io::Result<()>
    ensures shut { IsNone named.old → IsErr result }
    ensures kept { is_some named.new ≡ is_some named.old }
{
    match named {
        Some(named) => named.write(files, place, bytes),
        None => Err(not_open()),
    }
}

fn sync(named: &mut Option<Named>) -> io::Result<()>
    ensures shut { IsNone named.old → IsErr result }
    ensures kept { is_some named.new ≡ is_some named.old }
{
    match named {
        Some(named) => named.sync(),
        None => Err(not_open()),
    }
}

impl<'a, R: Files<File = File>> FileDisk<'a, R> {
    /// A disk on which no file is open yet.
    pub fn new(alloc: Global, files: &'a R) -> FileDisk<'a, R>
        ensures { result ≡ record { is_open = false; faults = 0 } }
    {
        FileDisk {
            alloc,
            files,
            named: None,
            faults: 0,
        }
    }

    fn count_fault(&mut self)
        ensures { self.new ≡ after_call true self.old }
    {
        self.faults = self.faults.saturating_add(1);
    }
}

impl<'a, R: Files<File = File>> Disk for FileDisk<'a, R> {
    ghost state = { λ d. record {
      faults = d.faults;
      calls = None;
      moments = untold;
      model = None;
    } };

    /// What was open before is closed first.
    fn open(&mut self, name: &str) -> Opened
        ensures faults { self.new.faults ≡ counted (open_failed result) self.old.faults }
        ensures opens { Opens untold untold result }
        ensures follows { OpensOn (ToOpen name.now ∷ []) None None result }
        ensures after { self.new ≡ after_open result (closed self.old) }
    {
        self.named = None;
        match Named::open(self.alloc, self.files, name) {
            Ok(named) => {
                self.named = Some(named);
                Opened::Done
            }
            Err(error) if error.kind() == io::ErrorKind::OutOfMemory => Opened::OutOfMemory,
            Err(_) => {
                self.count_fault();
                Opened::Failed
            }
        }
    }

    fn len(&mut self) -> Result<u64, Failed>
        ensures faults { self.new.faults ≡ counted (is_err result) self.old.faults }
        ensures value { IfOk result (λ n. Measures untold n) }
        ensures same { OnOk result (untold ≡ untold) }
        ensures stays { OnErr result (Fails stays untold untold) }
        ensures after { self.new ≡ after_call (is_err result) self.old }
        ensures shut { self.old.is_open ≡ false → is_err result ≡ true }
    {
        match measure(&self.named) {
            Ok(len) => Ok(len),
            Err(_) => {
                self.count_fault();
                Err(Failed)
            }
        }
    }

    fn read_at(&mut self, place: u64, buf: &mut [u8]) -> Result<usize, Failed>
        ensures faults { self.new.faults ≡ counted (is_err result) self.old.faults }
        ensures fits { IfOk result (λ n. n ≤ length buf.old) }
        ensures value { IfOk result (λ n. ReadsPart untold place buf.new n) }
        ensures rest { IfOk result (λ n. KeepsRest untold n buf.old buf.new) }
        ensures same { OnOk result (untold ≡ untold) }
        ensures stays { OnErr result (Fails stays untold untold) }
        ensures after { self.new ≡ after_call (is_err result) self.old }
        ensures shut { self.old.is_open ≡ false → is_err result ≡ true }
    {
        match read(&self.named, place, buf) {
            Ok(count) => Ok(count),
            Err(_) => {
                self.count_fault();
                Err(Failed)
            }
        }
    }

    fn write_at(&mut self, place: u64, bytes: &[u8]) -> Result<(), Failed>
        ensures faults { self.new.faults ≡ counted (is_err result) self.old.faults }
        ensures writes { OnOk result (untold ≡ next (wrote place bytes.now) untold) }
        ensures tears { OnErr result (Fails (torn_at place (length bytes.now)) untold untold) }
        ensures after { self.new ≡ after_call (is_err result) self.old }
        ensures shut { self.old.is_open ≡ false → is_err result ≡ true }
    {
        match write(self.files, &mut self.named, place, bytes) {
            Ok(()) => Ok(()),
            Err(_) => {
                self.count_fault();
                Err(Failed)
            }
        }
    }

    /// A folder that could not be synced is tried again at the next sync.
    fn sync(&mut self) -> Result<(), Failed>
        ensures faults { self.new.faults ≡ counted (is_err result) self.old.faults }
        ensures settles { OnOk result (Settles untold untold) }
        ensures stays { OnErr result (Fails stays untold untold) }
        ensures after { self.new ≡ after_call (is_err result) self.old }
        ensures shut { self.old.is_open ≡ false → is_err result ≡ true }
    {
        match sync(&mut self.named) {
            Ok(()) => Ok(()),
            Err(_) => {
                self.count_fault();
                Err(Failed)
            }
        }
    }

    ghost image_left = { λ _. tt };
}
