// What stands in where a run needs no disk, link or clock: each call fails, and the clock stands still.

ghost use Rattle.std.specs.Prelude.{◌≡◌, true, None, [], is_err};
ghost use Rattle.ports.specs.Count.{next_count};

use ports::{Clock, Disk, Failed, Link, Opened, Received, Sent};

/// A disk, or a link, whose every call fails. No file is modelled.
#[derive(Drop)]
pub struct Absent {
    faults: u64,
}

impl Absent {
    pub fn new() -> Absent
        ensures { result.faults ≡ 0 }
    {
        Absent { faults: 0 }
    }

    fn fail(&mut self)
        ensures { self.new.faults ≡ next_count self.old.faults }
    {
        self.faults = self.faults.saturating_add(1);
    }
}

impl Disk for Absent {
    ghost state = { λ d. record { faults = d.faults; calls = None; moments = []; model = None } };

    fn open(&mut self, _name: &str) -> Opened
        ensures answer { result ≡ Opened.Failed }
        ensures counted { self.new.faults ≡ next_count self.old.faults }
    {
        self.fail();
        Opened::Failed
    }

    fn len(&mut self) -> Result<u64, Failed>
        ensures answer { is_err result ≡ true }
        ensures counted { self.new.faults ≡ next_count self.old.faults }
    {
        self.fail();
        Err(Failed)
    }

    fn read_at(&mut self, _place: u64, buf: &mut [u8]) -> Result<usize, Failed>
        ensures answer { is_err result ≡ true }
        ensures counted { self.new.faults ≡ next_count self.old.faults }
        ensures kept { buf.new ≡ buf.old }
    {
        let _ = buf;
        self.fail();
        Err(Failed)
    }

    fn write_at(&mut self, _place: u64, _bytes: &[u8]) -> Result<(), Failed>
        ensures answer { is_err result ≡ true }
        ensures counted { self.new.faults ≡ next_count self.old.faults }
    {
        self.fail();
        Err(Failed)
    }

    fn sync(&mut self) -> Result<(), Failed>
        ensures answer { is_err result ≡ true }
        ensures counted { self.new.faults ≡ next_count self.old.faults }
    {
        self.fail();
        Err(Failed)
    }

    ghost image_left = { λ _. tt };
}

impl Link for Absent {
    ghost state = { λ d. record { contents = None; faults = d.faults } };

    fn bind(&mut self, _port: u16) -> Opened
        ensures answer { result ≡ Opened.Failed }
        ensures counted { self.new.faults ≡ next_count self.old.faults }
    {
        self.fail();
        Opened::Failed
    }

    fn receive(&mut self, buf: &mut [u8]) -> Received
        ensures answer { result ≡ Received.Failed }
        ensures counted { self.new.faults ≡ next_count self.old.faults }
        ensures kept { buf.new ≡ buf.old }
    {
        let _ = buf;
        self.fail();
        Received::Failed
    }

    fn send(&mut self, _port: u16, _bytes: &[u8]) -> Sent
        ensures answer { result ≡ Sent.Failed }
        ensures counted { self.new.faults ≡ next_count self.old.faults }
    {
        self.fail();
        Sent::Failed
    }
}

/// A clock that stands at 0.
#[derive(Drop)]
pub struct NoClock;

impl Clock for NoClock {
    ghost state = { λ _. record { reading = 0; coming = None } };

    fn now(&mut self) -> u64
        ensures { result ≡ 0 }
    {
        0
    }
}
