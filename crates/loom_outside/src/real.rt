// A host over files and the standard streams, by which nothing that was kept is lost:
//
// - A file is cut or replaced only where no other role has it, whatever it is called; else the attach fails. Saved alone may
//   replace what Image or Events read, unless it is told not to. Work, which is attached first, isn't cut where another role is expected
//   to have its file. A file that isn't of the roles can be protected from all of them.
// - Work takes a regular file alone, and none that begins as an image, an image's text or a picture. An old one is removed and made anew
//   where it has one name and its folder allows that, and cut otherwise.
// - Saved is written beside its file, and takes its name where a piece of no bytes ends it, and never without: what was written is on the
//   disk then, and so is the name, or that call fails. So at any moment, also after a kill or a loss of power, the file of that name is the
//   old one or the new one, whole. Only a file that is none of the kind, as a device, or one in a folder where none can be made, is written
//   in its place. One that isn't ended when Saved is attached again is given up.
// - What was written to Display is on the disk once each write is done, or that write fails. Work is never synced: nothing of it is wanted
//   after a stop. So each failure is one of the role that was called.
ghost use Rattle.std.specs.Prelude.{◌≡◌, false};
ghost use Rattle.loom_host.specs.Outside.{at_start};
ghost use Rattle.loom_outside.specs.Real.{faults_counted, writes_counted};
ghost use Rattle.loom_host.specs.declared.outside.Role.{Role};

mod attached;
mod expected;
mod identity;
mod modes;
mod paths;
mod saving;
mod scratch;
pub(crate) mod transfer;

use crate::per_role::PerRole;
use crate::real::attached::Attached;
use crate::{Failed, Host, Role};
pub use expected::Expected;
pub use identity::Identity;
use std::alloc::AllocError;
use std::io::Write;
use std::os::unix::fs::FileExt;
use std::rt::Files;

/// A host over files, and a writer each for Transcript and Notes. It tells nothing of bytes, and counts
/// each failure, a call on a role that isn't attached among them. It keeps no bytes back: each call goes
/// on to the file or the writer. A read or a write that a signal interrupts is made again, and
/// has failed only where that happened 1,000 times in a row. The opening of a file is made again by std.
/// Saved is attached until a piece of no bytes is put to it: then it has its name, and takes no more.
#[derive(Drop)]
pub struct RealHost<R: Files + Alloc, T: Write, N: Write> {
    files: Attached<R, T, N>,
    faults: PerRole<u64>,
    writes: u64,
}

impl<R: Files + Alloc, T: Write, N: Write> RealHost<R, T, N>
where
    R::File: FileExt,
{
    /// A host where nothing is attached and nothing failed. The writers are those of Transcript and Notes.
    pub fn new(rt: R, transcript: T, notes: N) -> RealHost<R, T, N>
        ensures faults { (r : Role) → ⟦<RealHost<R, T, N> as Host>⟧.faults result r ≡ 0 }
        ensures writes { ⟦<RealHost<R, T, N> as Host>⟧.writes result ≡ 0 }
    {
        RealHost {
            files: Attached::new(rt, transcript, notes),
            faults: PerRole::<u64>::zeros(),
            writes: 0,
        }
    }

    /// Tells by which name a role will be attached: from then on the attach of Work fails where its file is this one, by whatever name,
    /// and leaves it as it is. A name that no file has yet tells nothing.
    pub fn expect(&mut self, role: Role, name: &str)
        ensures faults { (r : Role) → ⟦<RealHost<R, T, N> as Host>⟧.faults self.new r ≡ ⟦<RealHost<R, T, N> as Host>⟧.faults self.old r }
        ensures writes { ⟦<RealHost<R, T, N> as Host>⟧.writes self.new ≡ ⟦<RealHost<R, T, N> as Host>⟧.writes self.old }
    {
        self.files.expect(role, name);
    }

    /// From then on the attach of Saved fails where its file is that of Image or Events, by whatever name, and leaves it as it is.
    pub fn keep_inputs(&mut self)
        ensures faults { (r : Role) → ⟦<RealHost<R, T, N> as Host>⟧.faults self.new r ≡ ⟦<RealHost<R, T, N> as Host>⟧.faults self.old r }
        ensures writes { ⟦<RealHost<R, T, N> as Host>⟧.writes self.new ≡ ⟦<RealHost<R, T, N> as Host>⟧.writes self.old }
    {
        self.files.keep_inputs();
    }

    /// From then on the attach of a role that is written fails where its file is the one that has this name at that time, and leaves it as
    /// it is. One name is kept, the last that was told.
    pub fn protect(&mut self, name: &str) -> Result<(), AllocError>
        ensures faults { (r : Role) → ⟦<RealHost<R, T, N> as Host>⟧.faults self.new r ≡ ⟦<RealHost<R, T, N> as Host>⟧.faults self.old r }
        ensures writes { ⟦<RealHost<R, T, N> as Host>⟧.writes self.new ≡ ⟦<RealHost<R, T, N> as Host>⟧.writes self.old }
    {
        self.files.protect(name)
    }
}

impl<R: Files + Alloc, T: Write, N: Write> Host for RealHost<R, T, N>
where
    R::File: FileExt,
{
    ghost tells = { λ _. false };

    ghost roles = { λ _ _. at_start };

    ghost faults = { faults_counted };

    ghost writes = { writes_counted };

    fn attach(&mut self, role: Role, name: &str) -> Result<(), Failed> {
        match self.files.attach(role, name) {
            Ok(()) => Ok(()),
            Err(_) => self.faults.fail(role),
        }
    }

    fn read(&mut self, role: Role, buf: &mut [u8]) -> Result<usize, Failed> {
        match self.files.read(role, buf) {
            Some(n) => Ok(n),
            None => self.faults.fail(role),
        }
    }

    fn write(&mut self, role: Role, buf: &[u8]) -> Result<usize, Failed> {
        match self.files.write(role, buf) {
            Some(n) => Ok(n),
            None => self.faults.fail(role),
        }
    }

    fn read_at(&mut self, place: u64, buf: &mut [u8]) -> Result<(), Failed> {
        if self.files.read_at(place, buf) {
            return Ok(());
        }
        self.faults.fail(Role::Work)
    }

    fn write_at(&mut self, place: u64, buf: &[u8]) -> Result<(), Failed> {
        self.writes = self.writes.saturating_add(1);
        if self.files.write_at(place, buf) {
            return Ok(());
        }
        self.faults.fail(Role::Work)
    }

    fn fault_count(&self, role: Role) -> u64 {
        *self.faults.at(role)
    }
}
