//! A disk: a file whose writes last only once they are synced.

ghost use Rattle.std.specs.Prelude.{◌≡◌, ◌≤◌, [], ◌∷◌, length, IfOk, OnOk, OnErr, is_err};
ghost use Rattle.ports.specs.Count.{counted};
ghost use Rattle.ports.specs.Disk.{LeavesImage, Fails, Opens, Measures, ReadsPart, KeepsRest, Settles, next, wrote, torn_at, stays};
ghost use Rattle.ports.specs.Device.{open_failed};
ghost use Rattle.ports.specs.DiskCalls.{ToOpen, ToMeasure, ToRead, ToWrite, ToSync, with_call};
ghost use Rattle.ports.specs.DiskSteps.{OpensOn, came_to, runs_on};
ghost use Rattle.ports.specs.Outside.{OfDisk};

use crate::{Failed, Opened};

/// A file, and what a crash may leave of it. An object may have no modelled contents: it then says when its calls
/// fail, and no more.
pub trait Disk {
    /// Its faults, the calls made of it, its moments, and the state that these follow from. No call changes
    /// whether its moments are modelled.
    ghost state: { Self → OfDisk };

    /// Opens the file of that name, an empty one if there is none.
    fn open(&mut self, name: &str) -> Opened
        ensures faults { (state self.new).faults
            ≡ counted (open_failed result) (state self.old).faults }
        ensures called { (state self.new).calls
            ≡ with_call (ToOpen name.now) (state self.old).calls }
        ensures opens { Opens (state self.old).moments (state self.new).moments result }
        ensures follows { OpensOn (ToOpen name.now ∷ []) (state self.old).model
            (state self.new).model result };

    /// The file's length in bytes.
    fn len(&mut self) -> Result<u64, Failed>
        ensures faults { (state self.new).faults ≡ counted (is_err result) (state self.old).faults }
        ensures called { (state self.new).calls ≡ with_call ToMeasure (state self.old).calls }
        ensures value { IfOk result (λ n. Measures (state self.old).moments n) }
        ensures same { OnOk result ((state self.new).moments ≡ (state self.old).moments) }
        ensures stays { OnErr result (Fails stays (state self.old).moments
            (state self.new).moments) }
        ensures follows { came_to (state self.new).model (is_err result)
            ≡ runs_on (ToMeasure ∷ []) (state self.old).model };

    /// Reads from a place into the front of the buffer, up to its end or the file's, and gives the
    /// number of bytes.
    fn read_at(&mut self, place: u64, buf: &mut [u8]) -> Result<usize, Failed>
        ensures faults { (state self.new).faults ≡ counted (is_err result) (state self.old).faults }
        ensures called { (state self.new).calls
            ≡ with_call (ToRead place (length buf.old)) (state self.old).calls }
        ensures fits { IfOk result (λ n. n ≤ length buf.old) }
        ensures value { IfOk result (λ n. ReadsPart (state self.old).moments place buf.new n) }
        ensures rest { IfOk result (λ n. KeepsRest (state self.old).moments n buf.old buf.new) }
        ensures same { OnOk result ((state self.new).moments ≡ (state self.old).moments) }
        ensures stays { OnErr result (Fails stays (state self.old).moments
            (state self.new).moments) }
        ensures follows { came_to (state self.new).model (is_err result)
            ≡ runs_on (ToRead place (length buf.old) ∷ []) (state self.old).model };

    /// Writes the bytes at a place. Until a sync, a crash may leave anything of them.
    fn write_at(&mut self, place: u64, bytes: &[u8]) -> Result<(), Failed>
        ensures faults { (state self.new).faults ≡ counted (is_err result) (state self.old).faults }
        ensures called { (state self.new).calls
            ≡ with_call (ToWrite place bytes.now) (state self.old).calls }
        ensures writes { OnOk result ((state self.new).moments
            ≡ next (wrote place bytes.now) (state self.old).moments) }
        ensures tears { OnErr result (Fails (torn_at place (length bytes.now))
            (state self.old).moments (state self.new).moments) }
        ensures follows { came_to (state self.new).model (is_err result)
            ≡ runs_on (ToWrite place bytes.now ∷ []) (state self.old).model };

    /// After it, a crash leaves what was written.
    fn sync(&mut self) -> Result<(), Failed>
        ensures faults { (state self.new).faults ≡ counted (is_err result) (state self.old).faults }
        ensures called { (state self.new).calls ≡ with_call ToSync (state self.old).calls }
        ensures settles { OnOk result (Settles (state self.old).moments (state self.new).moments) }
        ensures stays { OnErr result (Fails stays (state self.old).moments
            (state self.new).moments) }
        ensures follows { came_to (state self.new).model (is_err result)
            ≡ runs_on (ToSync ∷ []) (state self.old).model };

    /// A crash at a moment may leave the file as it is at that moment.
    ghost image_left: { (disk : Self) → LeavesImage (state disk).moments };
}
