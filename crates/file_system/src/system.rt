// The calls of a system on its files.
ghost use Rattle.std.specs.Prelude.{◌≡◌, ◌≢◌, ◌≤◌, ◌<◌, ◌++◌, ℕ, Bool, List, true, false, [], Some, None, IsTrue, IfOk, IfErr, OnOk, OnErr, length, take, string_bytes};
ghost use Rattle.loom_host.specs.Bytes.{window};
ghost use Rattle.file_system.specs.World.{Entry, Moments, Opening, is_regular, left_of, part_ending};
ghost use Rattle.file_system.specs.Calls.{Appends, CanRename, ChangesBy, Closes, Does, FailsToOpen, FailsToSync, Finds, MayDo, Opens, Reads, Removes, Renames, Spoils, Syncs, emptied, is_in_order, written_at};
ghost use Rattle.file_system.specs.declared.system.Kind.TheVariants.{Link};
ghost use Rattle.file_system.specs.declared.system.Refusal.TheVariants.{Missing};
ghost use Rattle.file_system.specs.declared.system.Way.TheVariants.{Place};

use std::alloc::Global;

/// The descriptors of standard output and standard error, which are open from the start.
pub const OUTPUT: u32 = 1;

pub const ERRORS: u32 = 2;

/// How an open file is used: read in order; written in order, at its end or wherever the system has it; or read and written at any place.
#[derive(Clone, Copy, Debug, PartialEq, Eq)]
pub enum Way {
    Read,
    Append,
    Stream,
    Place,
}

/// Which file is opened: one that is there, one that is made where none is, or one that is made where none may be.
#[derive(Clone, Copy, Debug, PartialEq, Eq)]
pub enum Making {
    Old,
    May,
    New,
}

/// What a file is. A device is whatever keeps no bytes, as a terminal or a pipe.
#[derive(Clone, Copy, Debug, PartialEq, Eq)]
pub enum Kind {
    Regular,
    Folder,
    Link,
    Device,
}

/// What stands under a name: which file, by whatever name; whether no other name leads to it; and what it may be used for.
#[derive(Clone, Copy, Debug, PartialEq, Eq)]
pub struct Found {
    pub file: u128,
    pub kind: Kind,
    pub alone: bool,
    pub mode: u32,
}

/// An open file: its descriptor, and which file it is.
#[derive(Clone, Copy, Debug, PartialEq, Eq)]
pub struct Opened {
    pub descriptor: u32,
    pub found: Found,
}

/// Why a call failed.
#[derive(Clone, Copy, Debug, PartialEq, Eq)]
pub enum Refusal {
    Missing,
    Forbidden,
    Interrupted,
    Failed,
}

/// Files, names in folders, and open files. Each call is one call of the system, and no other process changes these files meanwhile.
pub trait System {
    /// Whether it tells of its files. This is a fact of the type.
    ghost tells: { Bool };

    /// Where a path leads, but for a link at its end. Folders stay where they are, so this is a fact of the type too.
    ghost entry: { List ℕ → Entry };

    /// The files now and at each earlier moment.
    ghost moments: { Self → Moments };

    /// Opens a file, through a link at the end of its path too. One that is made may be used for `mode`, which no clause speaks of.
    fn open(&mut self, path: &str, way: Way, making: Making, mode: u32) -> Result<Opened, Refusal>
        ensures opened { IsTrue tells → IfOk result (λ o. Does (Opens making (entry path.now) o.descriptor o.found.file (Some way)) (moments self.old) (moments self.new)) }
        ensures failed { IsTrue tells → OnErr result (FailsToOpen making (entry path.now) (moments self.old) (moments self.new)) }
        ensures kind { IsTrue tells → IfOk result (λ o. ((moments self.new).now.files o.found.file).kind ≡ o.found.kind) }
        ensures named { IsTrue tells → (i : ℕ) → (moments self.old).now.names (entry path.now) ≡ Some i → ((moments self.old).now.files i).kind ≢ Link → IfOk result (λ o. o.found.file ≡ i) };

    /// Opens the folder that the path lies in, to be synced.
    fn open_folder(&mut self, path: &str) -> Result<u32, Refusal>
        ensures opened { IsTrue tells → IfOk result (λ d. Does (Finds d (entry path.now).folder None) (moments self.old) (moments self.new)) }
        ensures failed { IsTrue tells → OnErr result (moments self.new ≡ moments self.old) };

    /// No answer says whether it was closed.
    fn close(&mut self, descriptor: u32)
        ensures { IsTrue tells → MayDo (Closes descriptor) (moments self.old) (moments self.new) };

    /// The next bytes in order, to the front of the buffer. For a buffer that isn't empty, 0 means that the end has come.
    fn read(&mut self, descriptor: u32, buf: &mut [u8]) -> Result<usize, Refusal>
        ensures bound { IfOk result (λ n. n ≤ length buf.old) }
        ensures bytes { IsTrue tells → (o : Opening) → (moments self.old).now.opened descriptor ≡ Some o → IfOk result (λ n. take n buf.new ≡ take n (left_of o (moments self.old).now)) }
        ensures enough { IsTrue tells → (o : Opening) → (moments self.old).now.opened descriptor ≡ Some o → IfOk result (λ n. n ≤ length (left_of o (moments self.old).now)) }
        ensures end { IsTrue tells → (o : Opening) → (moments self.old).now.opened descriptor ≡ Some o → 0 < length buf.old → IfOk result (λ n. n ≡ 0 → left_of o (moments self.old).now ≡ []) }
        ensures read { IsTrue tells → (o : Opening) → (moments self.old).now.opened descriptor ≡ Some o → IfOk result (λ n. Does (Reads descriptor o n) (moments self.old) (moments self.new)) }
        ensures failed { IsTrue tells → OnErr result (moments self.new ≡ moments self.old) };

    /// Puts some bytes, and at least one, of a piece that isn't empty in order. What was accepted before a failure is in the answer of an earlier
    /// call.
    fn append(&mut self, descriptor: u32, buf: &[u8]) -> Result<usize, Refusal>
        requires { 0 < length buf.now }
        ensures bound { IfOk result (λ n. n ≤ length buf.now) }
        ensures some { IfOk result (λ n. 0 < n) }
        ensures put { IsTrue tells → (o : Opening) → (moments self.old).now.opened descriptor ≡ Some o → is_in_order o.way ≡ true → IfOk result (λ n. Does (Appends descriptor o (take n buf.now)) (moments self.old) (moments self.new)) }
        ensures failed { IsTrue tells → (o : Opening) → (moments self.old).now.opened descriptor ≡ Some o → is_in_order o.way ≡ true → OnErr result (MayDo (Spoils o.file) (moments self.old) (moments self.new)) };

    /// Some bytes of a regular file from a place on, and none only behind the end.
    fn read_at(&mut self, descriptor: u32, place: u64, buf: &mut [u8]) -> Result<usize, Refusal>
        ensures bound { IfOk result (λ n. n ≤ length buf.old) }
        ensures bytes { IsTrue tells → (o : Opening) → (moments self.old).now.opened descriptor ≡ Some o → is_regular ((moments self.old).now.files o.file).kind ≡ true
            → IfOk result (λ n. take n buf.new ≡ window ((moments self.old).now.files o.file).bytes place n) }
        ensures end { IsTrue tells → (o : Opening) → (moments self.old).now.opened descriptor ≡ Some o → is_regular ((moments self.old).now.files o.file).kind ≡ true
            → 0 < length buf.old → IfOk result (λ n. n ≡ 0 → length ((moments self.old).now.files o.file).bytes ≤ place) }
        ensures still { IsTrue tells → moments self.new ≡ moments self.old };

    /// Puts some bytes, and at least one, of a piece that isn't empty from a place on.
    fn write_at(&mut self, descriptor: u32, place: u64, buf: &[u8]) -> Result<usize, Refusal>
        requires { 0 < length buf.now }
        ensures bound { IfOk result (λ n. n ≤ length buf.now) }
        ensures some { IfOk result (λ n. 0 < n) }
        ensures written { IsTrue tells → (o : Opening) → (moments self.old).now.opened descriptor ≡ Some o → o.way ≡ Some Place
            → IfOk result (λ n. Does (ChangesBy (written_at place (take n buf.now)) o) (moments self.old) (moments self.new)) }
        ensures failed { IsTrue tells → (o : Opening) → (moments self.old).now.opened descriptor ≡ Some o → o.way ≡ Some Place → OnErr result (MayDo (Spoils o.file) (moments self.old) (moments self.new)) };

    /// Cuts a regular file to no bytes.
    fn cut(&mut self, descriptor: u32) -> Result<(), Refusal>
        ensures cut { IsTrue tells → (o : Opening) → (moments self.old).now.opened descriptor ≡ Some o → OnOk result (Does (ChangesBy emptied o) (moments self.old) (moments self.new)) }
        ensures failed { IsTrue tells → (o : Opening) → (moments self.old).now.opened descriptor ≡ Some o → OnErr result (MayDo (Spoils o.file) (moments self.old) (moments self.new)) };

    /// Has the bytes of a file last, or the names of a folder. Where that failed for a file, no later one need do so.
    fn sync(&mut self, descriptor: u32) -> Result<(), Refusal>
        ensures synced { IsTrue tells → (o : Opening) → (moments self.old).now.opened descriptor ≡ Some o → OnOk result (Does (Syncs o.way o) (moments self.old) (moments self.new)) }
        ensures failed { IsTrue tells → (o : Opening) → (moments self.old).now.opened descriptor ≡ Some o → OnErr result (FailsToSync o.way o (moments self.old) (moments self.new)) };

    /// A file may be used for this. No clause speaks of modes.
    fn permit(&mut self, descriptor: u32, mode: u32) -> Result<(), Refusal>
        ensures { IsTrue tells → moments self.new ≡ moments self.old };

    /// Gives a regular file another name, in place of what stood there.
    fn rename(&mut self, from: &str, to: &str) -> Result<(), Refusal>
        ensures renamed { IsTrue tells → CanRename (entry from.now) (entry to.now) (moments self.old).now → OnOk result (Does (Renames (entry from.now) (entry to.now)) (moments self.old) (moments self.new)) }
        ensures failed { IsTrue tells → CanRename (entry from.now) (entry to.now) (moments self.old).now → OnErr result (MayDo (Renames (entry from.now) (entry to.now)) (moments self.old) (moments self.new)) };

    /// Removes a name that isn't a folder's.
    fn remove(&mut self, path: &str) -> Result<(), Refusal>
        ensures removed { IsTrue tells → OnOk result (Does (Removes (entry path.now)) (moments self.old) (moments self.new)) }
        ensures failed { IsTrue tells → OnErr result (MayDo (Removes (entry path.now)) (moments self.old) (moments self.new)) };

    /// What stands under the path, or behind the link that stands there.
    fn look(&mut self, path: &str, follow: bool) -> Result<Found, Refusal>
        ensures found { IsTrue tells → follow ≡ false → IfOk result (λ f. (moments self.old).now.names (entry path.now) ≡ Some f.file) }
        ensures followed { IsTrue tells → (i : ℕ) → (moments self.old).now.names (entry path.now) ≡ Some i → ((moments self.old).now.files i).kind ≢ Link → IfOk result (λ f. f.file ≡ i) }
        ensures kind { IsTrue tells → IfOk result (λ f. ((moments self.old).now.files f.file).kind ≡ f.kind) }
        ensures missing { IsTrue tells → follow ≡ false → IfErr result (λ r. r ≡ Missing → (moments self.old).now.names (entry path.now) ≡ None) }
        ensures still { IsTrue tells → moments self.new ≡ moments self.old };

    /// The path that a link stands for.
    fn read_link(&mut self, alloc: Global, path: &str) -> Result<String, Refusal>
        ensures leads { IsTrue tells → (i : ℕ) → (moments self.old).now.names (entry path.now) ≡ Some i → IfOk result (λ s. string_bytes s ≡ ((moments self.old).now.files i).bytes) }
        ensures still { IsTrue tells → moments self.new ≡ moments self.old };

    /// The path with an ending more is another name.
    ghost beside: { (path : List ℕ) → entry (path ++ part_ending) ≢ entry path };
}
