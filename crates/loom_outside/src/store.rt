// What a host in memory holds: its files, and for each role a place in them or bytes of its own.
ghost use Rattle.std.specs.Prelude.{◌+◌, ◌<◌, ◌≤◌, ◌≢◌, length, vec_capacity};
ghost use Rattle.loom_outside.specs.Files.{contents, kept};
ghost use Rattle.loom_outside.specs.Reading.{Stands};

use crate::contents::Contents;
use crate::files::{self, File};
use crate::reader::Reader;
use crate::writer::Writer;
use crate::{Failed, Role, reading};
use std::alloc::{AllocError, Global};

#[derive(Drop)]
pub struct Store {
    pub alloc: Global,
    // every file that there was, in the order in which they were made; only the one that Saved writes
    // and the one that Display writes still grow
    pub files: Vec<File>,
    pub image: Reader,
    pub events: Reader,
    pub saved: Writer,
    pub display: Writer,
    pub work: Contents,
    pub transcript: Vec<u8>,
    pub notes: Vec<u8>,
    ghost image_stands: { Stands (contents files.items) image },
    ghost events_stands: { Stands (contents files.items) events },
    ghost saved_there: { saved.file < length files.items },
    ghost display_there: { display.file < length files.items },
    ghost apart: { saved.file ≢ display.file },
    ghost places: { length files.items + (kept saved.place + kept display.place) ≤ vec_capacity files },
}

#[tactic(auto, unfolding(crate::specs::Store::held_of, crate::specs::Store::file_in, crate::specs::Store::shows, crate::specs::Store::room_in))]
impl Store {
    ghost use Rattle.loom_host.specs.declared.outside.Role.{Role};
    ghost use Rattle.std.specs.Prelude.{◌≡◌, ◌++◌, ℕ, List, [], true, false, None, Some, IsTrue, IsOk, IsSome, ◌&&◌, OnOk, OnErr, IfOk, option_copied, if◌then◌else◌, min};
    ghost use Rattle.std.specs.Str.{bytes_eq};
    ghost use Rattle.loom_host.specs.Outside.{SameBut, CanAttach, CanRead, CanWrite, makes_file, IsFresh, Took, at_start, unnamed, puts, holds};
    ghost use Rattle.loom_host.specs.Bytes.{window, overwritten};
    ghost use Rattle.loom_outside.specs.Rooms.{Widens, HasRoom};
    ghost use Rattle.loom_outside.specs.Store.{held_of, file_in, shows, room_in};

    pub fn new(alloc: Global) -> Result<Store, AllocError>
        ensures held { IfOk result (λ s. (role : Role) → unnamed (held_of s role) ≡ at_start) }
        ensures files { IfOk result (λ s. (name : List ℕ) → file_in s name ≡ None) }
        ensures shows { IfOk result (λ s. (role : Role) (name : List ℕ) → shows s role name ≡ false) }
    {
        let mut files = Vec::with_capacity(alloc, 2)?;
        files.push_reserved(File::nameless(alloc));
        files.push_reserved(File::nameless(alloc));
        let start = Reader {
            file: 0,
            taken: 0,
            end: 0,
        };
        Ok(Store {
            alloc,
            files,
            image: start,
            events: start,
            saved: Writer::new(alloc, 0),
            display: Writer::new(alloc, 1),
            work: Contents::new(alloc),
            transcript: Vec::new(alloc),
            notes: Vec::new(alloc),
        })
    }

    // Puts bytes behind those of a role that is written.
    #[tactic(auto, using(crate::proofs::Kept::put_steps), unfolding(crate::specs::Store::held_of, crate::specs::Store::file_in, crate::specs::Store::shows, crate::specs::Store::room_in))]
    pub fn put(&mut self, role: Role, bytes: &[u8]) -> Result<(), AllocError>
        requires { CanWrite role }
        ensures ok { OnOk result (held_of self.new role ≡ puts bytes.now (held_of self.old role)) }
        ensures err { OnErr result (held_of self.new role ≡ held_of self.old role) }
        ensures others { SameBut role (held_of self.old) (held_of self.new) }
        ensures files { OnOk result ((q : List ℕ) → file_in self.new q ≡ (if shows self.old role q then Some (held_of self.new role).put else file_in self.old q)) }
        ensures err_files { OnErr result ((q : List ℕ) → file_in self.new q ≡ file_in self.old q) }
        ensures shows { (r : Role) (q : List ℕ) → shows self.new r q ≡ shows self.old r q }
        ensures rooms { (r : Role) → Widens (room_in self.old r) (room_in self.new r) }
        ensures succeeds { length (held_of self.old role).put + length bytes.now ≤ (room_in self.old role).bytes → IsOk result }
    {
        match role {
            Role::Saved => files::put(&mut self.files, self.saved.file, bytes),
            Role::Display => files::put(&mut self.files, self.display.file, bytes),
            Role::Transcript => self.transcript.extend_from_slice(bytes),
            _ => self.notes.extend_from_slice(bytes),
        }
    }

    // Opens the last file of this name for a role that is read. Whether there is one.
    fn open(&mut self, role: Role, name: &str) -> bool
        requires { CanRead role }
        ensures name { IsTrue result → (held_of self.new role).name ≡ Some name.now }
        ensures fresh { IsTrue result → IsFresh (held_of self.new role) }
        ensures left { IsTrue result → file_in self.old name.now ≡ Some (held_of self.new role).left }
        ensures missing { result ≡ false → file_in self.old name.now ≡ None }
        ensures err { result ≡ false → held_of self.new role ≡ held_of self.old role }
        ensures others { SameBut role (held_of self.old) (held_of self.new) }
        ensures files { (q : List ℕ) → file_in self.new q ≡ file_in self.old q }
        ensures shows { (r : Role) (q : List ℕ) → shows self.new r q ≡ shows self.old r q }
        ensures rooms { (r : Role) → room_in self.new r ≡ room_in self.old r }
    {
        let Some(reader) = reading::open(&self.files, name.as_bytes()) else {
            return false;
        };
        match role {
            Role::Image => self.image = reader,
            _ => self.events = reader,
        }
        true
    }

    // Makes a new and empty file of this name for a role that is written.
    #[tactic(auto, using(crate::proofs::Kept::push_steps), unfolding(crate::specs::Store::held_of, crate::specs::Store::file_in, crate::specs::Store::shows, crate::specs::Store::room_in))]
    fn make(&mut self, role: Role, name: &str) -> Result<(), AllocError>
        requires { IsTrue (makes_file role) }
        ensures name { OnOk result ((held_of self.new role).name ≡ Some name.now) }
        ensures fresh { OnOk result (IsFresh (held_of self.new role)) }
        ensures err { OnErr result (held_of self.new role ≡ held_of self.old role) }
        ensures others { SameBut role (held_of self.old) (held_of self.new) }
        ensures files { OnOk result ((q : List ℕ) → file_in self.new q ≡ (if bytes_eq name.now q then Some [] else file_in self.old q)) }
        ensures err_files { OnErr result ((q : List ℕ) → file_in self.new q ≡ file_in self.old q) }
        ensures shows { OnOk result ((q : List ℕ) → shows self.new role q ≡ bytes_eq name.now q) }
        ensures other_shows { OnOk result ((r : Role) → r ≢ role → (q : List ℕ) → shows self.new r q ≡ (if bytes_eq name.now q then false else shows self.old r q)) }
        ensures err_shows { OnErr result ((r : Role) (q : List ℕ) → shows self.new r q ≡ shows self.old r q) }
        ensures room { OnOk result ((room_in self.old role).next_bytes ≤ (room_in self.new role).bytes) }
        ensures other_rooms { (r : Role) → r ≢ role → Widens (room_in self.old r) (room_in self.new r) }
        ensures err_rooms { OnErr result (Widens (room_in self.old role) (room_in self.new role)) }
        ensures succeeds { IsTrue (room_in self.old role).next_place → length name.now ≤ (room_in self.old role).next_name → IsOk result }
    {
        match role {
            Role::Saved => self
                .saved
                .make(self.alloc, &mut self.files, self.display.place, name)?,
            Role::Display => self
                .display
                .make(self.alloc, &mut self.files, self.saved.place, name)?,
            _ => unreachable!(),
        }
        Ok(())
    }

    // Empties Work, and takes this name for it.
    fn renew(&mut self, name: &str) -> Result<(), AllocError>
        ensures name { OnOk result ((held_of self.new Role.Work).name ≡ Some name.now) }
        ensures fresh { OnOk result (IsFresh (held_of self.new Role.Work)) }
        ensures err { OnErr result (unnamed (held_of self.new Role.Work) ≡ unnamed (held_of self.old Role.Work)) }
        ensures others { SameBut Role.Work (held_of self.old) (held_of self.new) }
        ensures files { (q : List ℕ) → file_in self.new q ≡ file_in self.old q }
        ensures shows { (r : Role) (q : List ℕ) → shows self.new r q ≡ shows self.old r q }
        ensures rooms { (r : Role) → Widens (room_in self.old r) (room_in self.new r) }
        ensures succeeds { length name.now ≤ (room_in self.old Role.Work).next_name → IsOk result }
    {
        self.work.open(name)
    }

    // Attaches the file of this name to a role, or a new one. Whether it could.
    pub fn attach(&mut self, role: Role, name: &str) -> bool
        requires { CanAttach role }
        ensures name { IsTrue result → (held_of self.new role).name ≡ Some name.now }
        ensures fresh { IsTrue result → IsFresh (held_of self.new role) }
        ensures left { IsTrue result → CanRead role → file_in self.old name.now ≡ Some (held_of self.new role).left }
        ensures err { result ≡ false → unnamed (held_of self.new role) ≡ unnamed (held_of self.old role) }
        ensures others { SameBut role (held_of self.old) (held_of self.new) }
        ensures files { IsTrue result → (q : List ℕ) → file_in self.new q ≡ (if makes_file role && bytes_eq name.now q then Some [] else file_in self.old q) }
        ensures err_files { result ≡ false → (q : List ℕ) → file_in self.new q ≡ file_in self.old q }
        ensures shows { IsTrue result → (q : List ℕ) → shows self.new role q ≡ (makes_file role && bytes_eq name.now q) }
        ensures other_shows { IsTrue result → (r : Role) → r ≢ role → (q : List ℕ) → shows self.new r q ≡ (if makes_file role && bytes_eq name.now q then false else shows self.old r q) }
        ensures err_shows { result ≡ false → (r : Role) (q : List ℕ) → shows self.new r q ≡ shows self.old r q }
        ensures room { IsTrue result → (room_in self.old role).next_bytes ≤ (room_in self.new role).bytes }
        ensures other_rooms { (r : Role) → r ≢ role → Widens (room_in self.old r) (room_in self.new r) }
        ensures err_rooms { result ≡ false → Widens (room_in self.old role) (room_in self.new role) }
        ensures found { CanRead role → IsSome (file_in self.old name.now) → IsTrue result }
        ensures succeeds { IsTrue (room_in self.old role).next_place → length name.now ≤ (room_in self.old role).next_name → IsTrue result }
    {
        match role {
            Role::Image | Role::Events => self.open(role, name),
            Role::Work => self.renew(name).is_ok(),
            Role::Saved | Role::Display => self.make(role, name).is_ok(),
            Role::Transcript | Role::Notes => unreachable!(),
        }
    }

    // At most so many of the bytes that are left of a role that is read go to the front of the buffer.
    pub fn take(&mut self, role: Role, most: usize, buf: &mut [u8]) -> usize
        requires { CanRead role }
        ensures moved { result ≡ min (length buf.old) (min most (length (held_of self.old role).left)) }
        ensures took { Took result buf.new (held_of self.old role) (held_of self.new role) }
        ensures others { SameBut role (held_of self.old) (held_of self.new) }
        ensures files { (q : List ℕ) → file_in self.new q ≡ file_in self.old q }
        ensures shows { (r : Role) (q : List ℕ) → shows self.new r q ≡ shows self.old r q }
        ensures rooms { (r : Role) → room_in self.new r ≡ room_in self.old r }
    {
        match role {
            Role::Image => reading::take(&self.files, &mut self.image, most, buf),
            _ => reading::take(&self.files, &mut self.events, most, buf),
        }
    }

    // Reads the bytes of Work from a place on.
    pub fn read_at(&self, place: u64, buf: &mut [u8])
        ensures { buf.new ≡ window (held_of self.now Role.Work).contents place (length buf.old) }
    {
        self.work.read_at(place, buf);
    }

    // Writes bytes to Work from a place on.
    pub fn write_at(&mut self, place: u64, bytes: &[u8]) -> Result<(), AllocError>
        ensures ok { OnOk result (held_of self.new Role.Work ≡ holds (overwritten (held_of self.old Role.Work).contents place bytes.now) (held_of self.old Role.Work)) }
        ensures err { OnErr result (held_of self.new Role.Work ≡ held_of self.old Role.Work) }
        ensures others { SameBut Role.Work (held_of self.old) (held_of self.new) }
        ensures files { (q : List ℕ) → file_in self.new q ≡ file_in self.old q }
        ensures shows { (r : Role) (q : List ℕ) → shows self.new r q ≡ shows self.old r q }
        ensures rooms { (r : Role) → Widens (room_in self.old r) (room_in self.new r) }
        ensures succeeds { place + length bytes.now ≤ (room_in self.old Role.Work).bytes → IsOk result }
    {
        self.work.write_at(place, bytes)
    }

    // Makes room for so many bytes, through one attach.
    #[tactic(auto, using(crate::proofs::Kept::put_steps), unfolding(crate::specs::Store::held_of, crate::specs::Store::file_in, crate::specs::Store::shows, crate::specs::Store::room_in))]
    pub fn reserve(&mut self, role: Role, most: usize) -> Result<(), AllocError>
        ensures room { OnOk result (HasRoom role most (room_in self.new role)) }
        ensures held { (r : Role) → held_of self.new r ≡ held_of self.old r }
        ensures files { (q : List ℕ) → file_in self.new q ≡ file_in self.old q }
        ensures shows { (r : Role) (q : List ℕ) → shows self.new r q ≡ shows self.old r q }
        ensures rooms { (r : Role) → Widens (room_in self.old r) (room_in self.new r) }
    {
        match role {
            Role::Image | Role::Events => Ok(()),
            Role::Work => self.work.widen(most),
            Role::Saved => {
                files::widen(&mut self.files, self.saved.file, most)?;
                self.saved.widen(&mut self.files, self.display.place, most)
            }
            Role::Display => {
                files::widen(&mut self.files, self.display.file, most)?;
                self.display.widen(&mut self.files, self.saved.place, most)
            }
            Role::Transcript => self
                .transcript
                .reserve(most.saturating_sub(self.transcript.len())),
            Role::Notes => self.notes.reserve(most.saturating_sub(self.notes.len())),
        }
    }

    // How many bytes were put to a role that is written.
    pub fn put_length(&self, role: Role) -> usize
        requires { CanWrite role }
        ensures { result ≡ length (held_of self.now role).put }
    {
        match role {
            Role::Saved => self.files[self.saved.file].bytes.len(),
            Role::Display => self.files[self.display.file].bytes.len(),
            Role::Transcript => self.transcript.len(),
            _ => self.notes.len(),
        }
    }

    pub fn transcript(&self) -> &[u8]
        ensures { result.now ≡ (held_of self.now Role.Transcript).put }
    {
        &self.transcript
    }

    pub fn notes(&self) -> &[u8]
        ensures { result.now ≡ (held_of self.now Role.Notes).put }
    {
        &self.notes
    }

    // The bytes of the file of this name.
    pub fn file(&self, name: &str) -> Option<&[u8]>
        ensures file { option_copied result ≡ file_in self.now name.now }
        ensures shown { (r : Role) → IsTrue (shows self.now r name.now) → option_copied result ≡ Some (held_of self.now r).put }
    {
        let place = files::find(&self.files, name.as_bytes())?;
        Some(&self.files[place].bytes)
    }

    // Puts a file last.
    #[tactic(auto, using(crate::proofs::Kept::push_steps), unfolding(crate::specs::Store::held_of, crate::specs::Store::file_in, crate::specs::Store::shows, crate::specs::Store::room_in))]
    pub fn add(&mut self, name: &str, bytes: &[u8]) -> Result<(), AllocError>
        ensures held { (r : Role) → held_of self.new r ≡ held_of self.old r }
        ensures ok { OnOk result ((q : List ℕ) → file_in self.new q ≡ (if bytes_eq name.now q then Some bytes.now else file_in self.old q)) }
        ensures err { OnErr result ((q : List ℕ) → file_in self.new q ≡ file_in self.old q) }
        ensures shows { OnOk result ((r : Role) (q : List ℕ) → shows self.new r q ≡ (if bytes_eq name.now q then false else shows self.old r q)) }
        ensures err_shows { OnErr result ((r : Role) (q : List ℕ) → shows self.new r q ≡ shows self.old r q) }
        ensures rooms { (r : Role) → Widens (room_in self.old r) (room_in self.new r) }
    {
        files::add(
            self.alloc,
            &mut self.files,
            self.saved.place,
            self.display.place,
            name.as_bytes(),
            bytes,
        )?;
        Ok(())
    }
}
