// A host over the files of a system. Saved is told; each other role is done, and nothing is told of it.
ghost use Rattle.std.specs.Prelude.{◌≡◌, ◌≢◌, ◌≤◌, ◌<◌, ℕ, List, Some, None, IsTrue, IfOk, OnOk, OnErr, length, take, string_bytes};
ghost use Rattle.file_system.specs.World.{Entry, Throughout, all, put_at};
ghost use Rattle.file_system.specs.declared.system.Way.TheVariants.{Stream};
ghost use Rattle.file_saving.specs.Saving.{IsMovedForGood, IsStillOrMoved, KeepsName, use_at};
ghost use Rattle.loom_host.specs.Outside.{Attached, HasCause, IsFresh, SameBut, at_start, ends, puts};
ghost use Rattle.loom_host.specs.declared.outside.Role.{Role};
ghost use Rattle.long_names.specs.Counting.{counted};
ghost use Rattle.file_host.specs.Faults.{faults_at};
ghost use Rattle.file_host.specs.Stands.{Stands};
ghost use Rattle.file_host.specs.Told.{role_state, saved_if, saved_state, tells_saved};

use crate::faults::Faults;
use crate::told::Told;
use file_roles::{
    Beside, Expected, Table, Used, attach, begin_saved, followed, open_old, put_some, put_through,
    read_whole, take_some, write_whole,
};
use file_saving::{Saving, discard, finish, give_up_for, write};
use file_system::{ERRORS, Found, OUTPUT, Refusal, System, Way};
use loom_host::{Failed, Host, Role};
use std::alloc::{AllocError, Global};

/// A host over the files of a system. Saved is written beside the file of its name, and has that name once it is ended.
#[derive(Drop)]
pub struct FileHost<S: System> {
    system: S,
    alloc: Global,
    saving: Option<Saving>,
    table: Table,
    told: Told,
    faults: Faults,
    writes: u64,
    // whether Saved may replace neither Image nor Events
    keeps_inputs: bool,
    // the name of a file that no role is written to, and the files that roles will have
    kept: Option<String>,
    expected: Expected,
    ghost stands: { IsTrue S.tells → Stands S.entry told.descriptor told.ended table saving (S.moments system).now },
}

// Which file has this name now.
fn named<S: System>(system: &mut S, path: &str) -> Option<u128>
    ensures { IsTrue S.tells → S.moments system.new ≡ S.moments system.old }
{
    match system.look(path, false) {
        Ok(found) => Some(found.file),
        Err(_) => None,
    }
}

// Which file has this name now, or is behind the link that has it.
fn behind<S: System>(system: &mut S, path: &str) -> Result<Option<u128>, Refusal>
    ensures still { IsTrue S.tells → S.moments system.new ≡ S.moments system.old }
{
    match system.look(path, true) {
        Ok(found) => Ok(Some(found.file)),
        Err(Refusal::Missing) => Ok(None),
        Err(refusal) => Err(refusal),
    }
}

// The files of Saved while it isn't ended, and those that roles may not have. The one that is kept is there, or this fails.
fn beside<S: System>(
    system: &mut S,
    saving: &Option<Saving>,
    kept: &Option<String>,
    expected: &Expected,
) -> Result<Beside, Refusal>
    ensures still { IsTrue S.tells → S.moments system.new ≡ S.moments system.old }
    ensures saving { (s : Saving) → saving.now ≡ Some s → IfOk result (λ b. b.saving ≡ Some s.file) }
{
    let kept = match kept {
        Some(path) => behind(system, path.as_str())?,
        None => None,
    };
    let (saving, named) = match saving {
        Some(saving) => (Some(saving.file), named(system, saving.path.as_str())),
        None => (None, None),
    };
    Ok(Beside {
        saving,
        named,
        kept,
        expected: *expected,
    })
}

// Where the file of Saved lies or will lie, and which it may not be.
fn place_of<S: System>(
    system: &mut S,
    alloc: Global,
    name: &str,
    saving: &Option<Saving>,
    kept: &Option<String>,
    expected: &Expected,
) -> Result<(String, Beside), Refusal>
    ensures { IsTrue S.tells → S.moments system.new ≡ S.moments system.old }
{
    let path = followed(system, alloc, name)?;
    let beside = beside(system, saving, kept, expected)?;
    Ok((path, beside))
}

impl<S: System> FileHost<S> {
    /// A host where nothing is attached and nothing failed. Transcript and Notes are the standard streams, which are open, and go to these files.
    pub fn new(system: S, alloc: Global, output: Found, errors: Found) -> FileHost<S>
        requires output { IsTrue S.tells → use_at 1 (S.moments system).now ≡ Some (record { file = output.file; way = Some Stream }) }
        requires errors { IsTrue S.tells → use_at 2 (S.moments system).now ≡ Some (record { file = errors.file; way = Some Stream }) }
        ensures roles { (r : Role) → ⟦<FileHost<S> as Host>⟧.roles result r ≡ at_start }
        ensures faults { (r : Role) → ⟦<FileHost<S> as Host>⟧.faults result r ≡ 0 }
        ensures writes { ⟦<FileHost<S> as Host>⟧.writes result ≡ 0 }
    {
        FileHost {
            system,
            alloc,
            saving: None,
            table: Table {
                image: None,
                events: None,
                work: None,
                display: None,
                saved: None,
                output: Used {
                    descriptor: OUTPUT,
                    way: Way::Stream,
                    found: output,
                },
                errors: Used {
                    descriptor: ERRORS,
                    way: Way::Stream,
                    found: errors,
                },
            },
            told: Told::none(),
            faults: Faults::none(),
            writes: 0,
            keeps_inputs: false,
            kept: None,
            expected: Expected::none(),
        }
    }

    /// From then on the attach of Saved fails where its file is that of Image or Events, by whatever name, and leaves it as it is.
    pub fn keep_inputs(&mut self)
        ensures roles { (r : Role) → ⟦<FileHost<S> as Host>⟧.roles self.new r ≡ ⟦<FileHost<S> as Host>⟧.roles self.old r }
        ensures faults { (r : Role) → ⟦<FileHost<S> as Host>⟧.faults self.new r ≡ ⟦<FileHost<S> as Host>⟧.faults self.old r }
        ensures writes { ⟦<FileHost<S> as Host>⟧.writes self.new ≡ ⟦<FileHost<S> as Host>⟧.writes self.old }
    {
        self.keeps_inputs = true;
    }

    /// Tells by which name a role will be attached: from then on the attach of Work fails where its file is this one, by whatever name, and
    /// leaves it as it is. A name that no file has yet tells nothing.
    pub fn expect(&mut self, role: Role, name: &str)
        ensures roles { (r : Role) → ⟦<FileHost<S> as Host>⟧.roles self.new r ≡ ⟦<FileHost<S> as Host>⟧.roles self.old r }
        ensures faults { (r : Role) → ⟦<FileHost<S> as Host>⟧.faults self.new r ≡ ⟦<FileHost<S> as Host>⟧.faults self.old r }
        ensures writes { ⟦<FileHost<S> as Host>⟧.writes self.new ≡ ⟦<FileHost<S> as Host>⟧.writes self.old }
    {
        if let Ok(file) = behind(&mut self.system, name) {
            self.expected.note(role, file);
        }
    }

    /// From then on the attach of a role that is written fails where its file is the one that has this name at that time, and leaves it as
    /// it is. One name is kept, the last that was told.
    pub fn protect(&mut self, name: &str) -> Result<(), AllocError>
        ensures roles { (r : Role) → ⟦<FileHost<S> as Host>⟧.roles self.new r ≡ ⟦<FileHost<S> as Host>⟧.roles self.old r }
        ensures faults { (r : Role) → ⟦<FileHost<S> as Host>⟧.faults self.new r ≡ ⟦<FileHost<S> as Host>⟧.faults self.old r }
        ensures writes { ⟦<FileHost<S> as Host>⟧.writes self.new ≡ ⟦<FileHost<S> as Host>⟧.writes self.old }
    {
        self.kept = Some(String::from_str(self.alloc, name)?);
        Ok(())
    }

    // One that wasn't ended is given up before another is begun at this path.
    fn give_up(&mut self, path: &str) -> Result<(), Refusal>
        ensures keeps { IsTrue S.tells → KeepsName (S.entry path.now) (S.moments self.old.system) (S.moments self.new.system) }
        ensures told { self.new.told ≡ self.old.told }
        ensures faults { self.new.faults ≡ self.old.faults }
        ensures writes { self.new.writes ≡ self.old.writes }
        ensures put { IsTrue S.tells → (d : ℕ) → put_at d (S.moments self.new.system).now ≡ put_at d (S.moments self.old.system).now }
        ensures none { OnOk result (self.new.saving ≡ None) }
    {
        let Some(saving) = self.saving.take() else {
            return Ok(());
        };
        match give_up_for(&mut self.system, &saving, path) {
            Ok(()) => Ok(()),
            Err(refusal) => {
                self.saving = Some(saving);
                Err(refusal)
            }
        }
    }

    // Begins to write beside the file of this path.
    fn attach_at(&mut self, name: &str, path: &str, beside: &Beside) -> Result<(), Failed>
        ensures keeps { IsTrue S.tells → KeepsName (S.entry path.now) (S.moments self.old.system) (S.moments self.new.system) }
        ensures attached { IsTrue S.tells → Attached name.now result (saved_state self.old.told (S.moments self.old.system).now) (saved_state self.new.told (S.moments self.new.system).now) }
        ensures fresh { IsTrue S.tells → OnOk result (IsFresh (saved_state self.new.told (S.moments self.new.system).now)) }
        ensures other_faults { SameBut Role.Saved (faults_at self.old.faults) (faults_at self.new.faults) }
        ensures writes { self.new.writes ≡ self.old.writes }
        ensures cause { HasCause (faults_at self.old.faults Role.Saved) (faults_at self.new.faults Role.Saved) result }
    {
        let given = self.give_up(path);
        self.told.attaching();
        if given.is_err() {
            return self.faults.fail(Role::Saved);
        }
        let Ok(name) = Vec::from_slice(self.alloc, name.as_bytes()) else {
            return self.faults.fail(Role::Saved);
        };
        match begin_saved(
            &mut self.system,
            self.alloc,
            path,
            &self.table,
            beside,
            !self.keeps_inputs,
        ) {
            Ok(saving) => {
                self.told.attached(name, saving.descriptor);
                self.saving = Some(saving);
                Ok(())
            }
            Err(_) => self.faults.fail(Role::Saved),
        }
    }

    // Where it fails, Saved is given up, and the file of its name stays as it was.
    fn write_saved(&mut self, buf: &[u8]) -> Result<usize, Failed>
        requires some { 0 < length buf.now }
        ensures bound { IfOk result (λ n. n ≤ length buf.now) }
        ensures some { IfOk result (λ n. 0 < n) }
        ensures keeps { IsTrue S.tells → (s : Saving) → self.old.saving ≡ Some s → (e : Entry) → e ≢ S.entry (string_bytes s.part) → KeepsName e (S.moments self.old.system) (S.moments self.new.system) }
        ensures put { IsTrue S.tells → IfOk result (λ n. saved_state self.new.told (S.moments self.new.system).now ≡ puts (take n buf.now) (saved_state self.old.told (S.moments self.old.system).now)) }
        ensures failed { IsTrue S.tells → OnErr result (saved_state self.new.told (S.moments self.new.system).now ≡ saved_state self.old.told (S.moments self.old.system).now) }
        ensures other_faults { SameBut Role.Saved (faults_at self.old.faults) (faults_at self.new.faults) }
        ensures writes { self.new.writes ≡ self.old.writes }
        ensures cause { HasCause (faults_at self.old.faults Role.Saved) (faults_at self.new.faults Role.Saved) result }
    {
        let Some(saving) = self.saving.take() else {
            return self.faults.fail(Role::Saved);
        };
        match write(&mut self.system, &saving, buf) {
            Ok(n) => {
                self.saving = Some(saving);
                Ok(n)
            }
            Err(_) => {
                discard(&mut self.system, &saving);
                self.faults.fail(Role::Saved)
            }
        }
    }

    // What was written is on the disk, and has its name. Where that fails the name leads to the old file or to the new one, whole.
    fn end_saved(&mut self) -> Result<usize, Failed>
        ensures none { IfOk result (λ n. n ≡ 0) }
        ensures moves { IsTrue S.tells → (s : Saving) → self.old.saving ≡ Some s → Throughout (IsStillOrMoved (S.entry (string_bytes s.path)) s.file (put_at s.descriptor (S.moments self.old.system).now) (S.moments self.old.system).now) (all (S.moments self.old.system)) (all (S.moments self.new.system)) }
        ensures moved { IsTrue S.tells → (s : Saving) → self.old.saving ≡ Some s → OnOk result (IsMovedForGood (S.entry (string_bytes s.path)) s.file (put_at s.descriptor (S.moments self.old.system).now) (S.moments self.old.system).now (S.moments self.new.system).now) }
        ensures ended { IsTrue S.tells → OnOk result (saved_state self.new.told (S.moments self.new.system).now ≡ ends (saved_state self.old.told (S.moments self.old.system).now)) }
        ensures still { IsTrue S.tells → OnErr result (saved_state self.new.told (S.moments self.new.system).now ≡ saved_state self.old.told (S.moments self.old.system).now) }
        ensures other_faults { SameBut Role.Saved (faults_at self.old.faults) (faults_at self.new.faults) }
        ensures writes { self.new.writes ≡ self.old.writes }
        ensures cause { HasCause (faults_at self.old.faults Role.Saved) (faults_at self.new.faults Role.Saved) result }
    {
        let Some(saving) = self.saving.take() else {
            return self.faults.fail(Role::Saved);
        };
        let file = saving.file;
        if finish(&mut self.system, saving).is_err() {
            return self.faults.fail(Role::Saved);
        }
        self.table.saved = Some(file);
        self.told.ended = true;
        Ok(0)
    }

    fn attach_image(&mut self, name: &str) -> Result<(), Failed>
        ensures saved { saved_if S.tells self.new.told (S.moments self.new.system).now ≡ saved_if S.tells self.old.told (S.moments self.old.system).now }
        ensures other_faults { SameBut Role.Image (faults_at self.old.faults) (faults_at self.new.faults) }
        ensures writes { self.new.writes ≡ self.old.writes }
        ensures cause { HasCause (faults_at self.old.faults Role.Image) (faults_at self.new.faults Role.Image) result }
    {
        match open_old(&mut self.system, name, Way::Read) {
            Ok(used) => {
                self.table.image = Some(used);
                Ok(())
            }
            Err(_) => self.faults.fail(Role::Image),
        }
    }

    fn read_image(&mut self, buf: &mut [u8]) -> Result<usize, Failed>
        ensures bound { IfOk result (λ n. n ≤ length buf.old) }
        ensures saved { saved_if S.tells self.new.told (S.moments self.new.system).now ≡ saved_if S.tells self.old.told (S.moments self.old.system).now }
        ensures other_faults { SameBut Role.Image (faults_at self.old.faults) (faults_at self.new.faults) }
        ensures writes { self.new.writes ≡ self.old.writes }
        ensures cause { HasCause (faults_at self.old.faults Role.Image) (faults_at self.new.faults Role.Image) result }
    {
        let Some(used) = self.table.image else {
            return self.faults.fail(Role::Image);
        };
        match take_some(&mut self.system, &used, buf) {
            Ok(n) => Ok(n),
            Err(_) => self.faults.fail(Role::Image),
        }
    }

    fn attach_events(&mut self, name: &str) -> Result<(), Failed>
        ensures saved { saved_if S.tells self.new.told (S.moments self.new.system).now ≡ saved_if S.tells self.old.told (S.moments self.old.system).now }
        ensures other_faults { SameBut Role.Events (faults_at self.old.faults) (faults_at self.new.faults) }
        ensures writes { self.new.writes ≡ self.old.writes }
        ensures cause { HasCause (faults_at self.old.faults Role.Events) (faults_at self.new.faults Role.Events) result }
    {
        match open_old(&mut self.system, name, Way::Read) {
            Ok(used) => {
                self.table.events = Some(used);
                Ok(())
            }
            Err(_) => self.faults.fail(Role::Events),
        }
    }

    fn read_events(&mut self, buf: &mut [u8]) -> Result<usize, Failed>
        ensures bound { IfOk result (λ n. n ≤ length buf.old) }
        ensures saved { saved_if S.tells self.new.told (S.moments self.new.system).now ≡ saved_if S.tells self.old.told (S.moments self.old.system).now }
        ensures other_faults { SameBut Role.Events (faults_at self.old.faults) (faults_at self.new.faults) }
        ensures writes { self.new.writes ≡ self.old.writes }
        ensures cause { HasCause (faults_at self.old.faults Role.Events) (faults_at self.new.faults Role.Events) result }
    {
        let Some(used) = self.table.events else {
            return self.faults.fail(Role::Events);
        };
        match take_some(&mut self.system, &used, buf) {
            Ok(n) => Ok(n),
            Err(_) => self.faults.fail(Role::Events),
        }
    }

    fn attach_work(&mut self, name: &str) -> Result<(), Failed>
        ensures saved { saved_if S.tells self.new.told (S.moments self.new.system).now ≡ saved_if S.tells self.old.told (S.moments self.old.system).now }
        ensures other_faults { SameBut Role.Work (faults_at self.old.faults) (faults_at self.new.faults) }
        ensures writes { self.new.writes ≡ self.old.writes }
        ensures cause { HasCause (faults_at self.old.faults Role.Work) (faults_at self.new.faults Role.Work) result }
    {
        let Ok(beside) = beside(&mut self.system, &self.saving, &self.kept, &self.expected) else {
            return self.faults.fail(Role::Work);
        };
        match attach(
            &mut self.system,
            self.alloc,
            name,
            Way::Place,
            Role::Work,
            &self.table,
            &beside,
        ) {
            Ok(used) => {
                self.table.work = Some(used);
                Ok(())
            }
            Err(_) => self.faults.fail(Role::Work),
        }
    }

    fn attach_display(&mut self, name: &str) -> Result<(), Failed>
        ensures saved { saved_if S.tells self.new.told (S.moments self.new.system).now ≡ saved_if S.tells self.old.told (S.moments self.old.system).now }
        ensures other_faults { SameBut Role.Display (faults_at self.old.faults) (faults_at self.new.faults) }
        ensures writes { self.new.writes ≡ self.old.writes }
        ensures cause { HasCause (faults_at self.old.faults Role.Display) (faults_at self.new.faults Role.Display) result }
    {
        let Ok(beside) = beside(&mut self.system, &self.saving, &self.kept, &self.expected) else {
            return self.faults.fail(Role::Display);
        };
        match attach(
            &mut self.system,
            self.alloc,
            name,
            Way::Append,
            Role::Display,
            &self.table,
            &beside,
        ) {
            Ok(used) => {
                self.table.display = Some(used);
                Ok(())
            }
            Err(_) => self.faults.fail(Role::Display),
        }
    }

    // Its bytes are on the disk when the call is done.
    fn write_display(&mut self, buf: &[u8]) -> Result<usize, Failed>
        ensures bound { IfOk result (λ n. n ≤ length buf.now) }
        ensures some { 0 < length buf.now → IfOk result (λ n. 0 < n) }
        ensures saved { saved_if S.tells self.new.told (S.moments self.new.system).now ≡ saved_if S.tells self.old.told (S.moments self.old.system).now }
        ensures other_faults { SameBut Role.Display (faults_at self.old.faults) (faults_at self.new.faults) }
        ensures writes { self.new.writes ≡ self.old.writes }
        ensures cause { HasCause (faults_at self.old.faults Role.Display) (faults_at self.new.faults Role.Display) result }
    {
        let Some(used) = self.table.display else {
            return self.faults.fail(Role::Display);
        };
        match put_through(&mut self.system, &used, buf) {
            Ok(n) => Ok(n),
            Err(_) => self.faults.fail(Role::Display),
        }
    }

    fn write_transcript(&mut self, buf: &[u8]) -> Result<usize, Failed>
        ensures bound { IfOk result (λ n. n ≤ length buf.now) }
        ensures some { 0 < length buf.now → IfOk result (λ n. 0 < n) }
        ensures saved { saved_if S.tells self.new.told (S.moments self.new.system).now ≡ saved_if S.tells self.old.told (S.moments self.old.system).now }
        ensures other_faults { SameBut Role.Transcript (faults_at self.old.faults) (faults_at self.new.faults) }
        ensures writes { self.new.writes ≡ self.old.writes }
        ensures cause { HasCause (faults_at self.old.faults Role.Transcript) (faults_at self.new.faults Role.Transcript) result }
    {
        match put_some(&mut self.system, &self.table.output, buf) {
            Ok(n) => Ok(n),
            Err(_) => self.faults.fail(Role::Transcript),
        }
    }

    fn write_notes(&mut self, buf: &[u8]) -> Result<usize, Failed>
        ensures bound { IfOk result (λ n. n ≤ length buf.now) }
        ensures some { 0 < length buf.now → IfOk result (λ n. 0 < n) }
        ensures saved { saved_if S.tells self.new.told (S.moments self.new.system).now ≡ saved_if S.tells self.old.told (S.moments self.old.system).now }
        ensures other_faults { SameBut Role.Notes (faults_at self.old.faults) (faults_at self.new.faults) }
        ensures writes { self.new.writes ≡ self.old.writes }
        ensures cause { HasCause (faults_at self.old.faults Role.Notes) (faults_at self.new.faults Role.Notes) result }
    {
        match put_some(&mut self.system, &self.table.errors, buf) {
            Ok(n) => Ok(n),
            Err(_) => self.faults.fail(Role::Notes),
        }
    }

    fn read_work(&mut self, place: u64, buf: &mut [u8]) -> Result<(), Failed>
        ensures saved { saved_if S.tells self.new.told (S.moments self.new.system).now ≡ saved_if S.tells self.old.told (S.moments self.old.system).now }
        ensures other_faults { SameBut Role.Work (faults_at self.old.faults) (faults_at self.new.faults) }
        ensures writes { self.new.writes ≡ self.old.writes }
        ensures cause { HasCause (faults_at self.old.faults Role.Work) (faults_at self.new.faults Role.Work) result }
    {
        let Some(used) = self.table.work else {
            return self.faults.fail(Role::Work);
        };
        match read_whole(&mut self.system, &used, place, buf) {
            Ok(()) => Ok(()),
            Err(_) => self.faults.fail(Role::Work),
        }
    }

    fn write_work(&mut self, place: u64, buf: &[u8]) -> Result<(), Failed>
        ensures saved { saved_if S.tells self.new.told (S.moments self.new.system).now ≡ saved_if S.tells self.old.told (S.moments self.old.system).now }
        ensures other_faults { SameBut Role.Work (faults_at self.old.faults) (faults_at self.new.faults) }
        ensures writes { self.new.writes ≡ self.old.writes }
        ensures cause { HasCause (faults_at self.old.faults Role.Work) (faults_at self.new.faults Role.Work) result }
    {
        let Some(used) = self.table.work else {
            return self.faults.fail(Role::Work);
        };
        match write_whole(&mut self.system, &used, place, buf) {
            Ok(()) => Ok(()),
            Err(_) => self.faults.fail(Role::Work),
        }
    }

    fn attach_saved(&mut self, name: &str) -> Result<(), Failed>
        ensures attached { IsTrue S.tells → Attached name.now result (saved_state self.old.told (S.moments self.old.system).now) (saved_state self.new.told (S.moments self.new.system).now) }
        ensures fresh { IsTrue S.tells → OnOk result (IsFresh (saved_state self.new.told (S.moments self.new.system).now)) }
        ensures other_faults { SameBut Role.Saved (faults_at self.old.faults) (faults_at self.new.faults) }
        ensures writes { self.new.writes ≡ self.old.writes }
        ensures cause { HasCause (faults_at self.old.faults Role.Saved) (faults_at self.new.faults Role.Saved) result }
    {
        match place_of(
            &mut self.system,
            self.alloc,
            name,
            &self.saving,
            &self.kept,
            &self.expected,
        ) {
            Ok((path, beside)) => self.attach_at(name, path.as_str(), &beside),
            Err(_) => {
                self.told.attaching();
                self.faults.fail(Role::Saved)
            }
        }
    }
}

impl<S: System> Host for FileHost<S> {
    ghost tells = { tells_saved S.tells };

    ghost roles = { λ h. role_state S.tells h.told (S.moments h.system).now };

    ghost faults = { λ h. faults_at h.faults };

    ghost writes = { λ h. h.writes };

    fn attach(&mut self, role: Role, name: &str) -> Result<(), Failed> {
        match role {
            Role::Image => self.attach_image(name),
            Role::Events => self.attach_events(name),
            Role::Work => self.attach_work(name),
            Role::Saved => self.attach_saved(name),
            Role::Display => self.attach_display(name),
            Role::Transcript | Role::Notes => self.faults.fail(role),
        }
    }

    fn read(&mut self, role: Role, buf: &mut [u8]) -> Result<usize, Failed> {
        match role {
            Role::Image => self.read_image(buf),
            Role::Events => self.read_events(buf),
            _ => self.faults.fail(role),
        }
    }

    fn write(&mut self, role: Role, buf: &[u8]) -> Result<usize, Failed> {
        match role {
            Role::Saved => {
                if buf.is_empty() {
                    self.end_saved()
                } else {
                    self.write_saved(buf)
                }
            }
            Role::Display => self.write_display(buf),
            Role::Transcript => self.write_transcript(buf),
            Role::Notes => self.write_notes(buf),
            Role::Image | Role::Events | Role::Work => self.faults.fail(role),
        }
    }

    fn read_at(&mut self, place: u64, buf: &mut [u8]) -> Result<(), Failed> {
        self.read_work(place, buf)
    }

    fn write_at(&mut self, place: u64, buf: &[u8]) -> Result<(), Failed> {
        self.writes = self.writes.saturating_add(1);
        self.write_work(place, buf)
    }

    fn fault_count(&self, role: Role) -> u64 {
        self.faults.of(role)
    }
}
