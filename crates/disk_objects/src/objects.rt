// A disk: what stands in Work of a host stands for a map of objects and a list of pending names.
ghost use Rattle.std.specs.Prelude.{◌≡◌, ◌≢◌, ◌<◌, ◌≤◌, ℕ, List, [], ◌∷◌, length, min, Option, None, Some, IsSome, is_some, IsOk, IsTrue, true, IfOk, IfErr, IsErr, OnOk, OnErr, option_map, ◌⊎◌, ◌+◌};
ghost use Rattle.std.specs.FinMap as map;
ghost use Rattle.loom_host.specs.declared.outside.Role.{Role};
ghost use Rattle.loom_host.specs.Outside.{Attached, CanAttach, CanRead, CanWrite, HasCause, IsFresh, PutPrefix, SameBut, Took, TookSome, puts};
ghost use Rattle.object_record.specs.Buffer.{HasRecord, raw_of};
ghost use Rattle.loom_host.specs.Work.{IsWorkOnly, IsWorkRead, work_of};

use crate::names::NamesFault;
use crate::rest::DiskRest;
use long_names::{Name, NameList};
use loom_host::{DiskFault, Failed, Host, Role, read_full, write_full};
use object_record::RecordBuf;
use std::alloc::Global;
use work_directory::MOST_NAMES;
use work_space::LAST_END;

/// Objects in the work file of a host, which it holds until it is taken apart: a finite map from names to records with counts, and a
/// list of pending names. After a fault nothing is known of the objects any more.
#[derive(Drop)]
pub struct DiskObjects<'h, H: Host> {
    pub(crate) host: &'h mut H,
    rest: DiskRest,
}

impl<'h, H: Host> DiskObjects<'h, H> {
    ghost use Rattle.work_directory.specs.Directory.{entries_of};
    ghost use Rattle.work_directory.specs.Table.{Entry};
    ghost use Rattle.disk_objects.specs.Calls.{AreHeldNames, CanChange, HoldsObjects, HoldsSuch, IsEitherFault, IsFault, IsGot, IsHeldName, IsIdle, IsNamesFault, IsPutFault, TookFirst, changed_by, swapped};
    ghost use Rattle.disk_objects.specs.Function.{ChangesCount, IsFetched, KeepsObjects, PutsObject, RemovesObject, SwapsObjects, counts_of, disk_of};
    ghost use Rattle.disk_objects.specs.Places.{IsReadPlace, IsSlotPlace};
    ghost use Rattle.disk_objects.specs.Disk.{DiskObject, IsDisk, Objects, disk_first, disk_held, disk_room, link_to, object_of};

    /// A disk without objects, with room for so many, over Work that is attached and empty.
    pub fn begin(host: &'h mut H, room: u32) -> DiskObjects<'h, H>
        requires some { 0 < room }
        requires most { room ≤ MOST_NAMES }
        requires empty { IsTrue (H.tells Role.Work) → work_of H.Host host.old ≡ [] }
        ensures disk { IsTrue (H.tells Role.Work) → IsDisk result.rest (work_of H.Host result.host.now) map.empty [] }
        ensures room { disk_room result.rest ≡ room }
        ensures none { disk_held result.rest ≡ 0 }
        ensures host { result.host.ghost_name ≡ host.entry.ghost_name }
        ensures now { result.host.now ≡ host.old }
    {
        DiskObjects {
            host,
            rest: DiskRest::new(room),
        }
    }

    /// Hands the host back, and what is known of the disk beside it.
    pub fn apart(self) -> (&'h mut H, DiskRest)
        ensures host { result.0.ghost_name ≡ self.entry.host.ghost_name }
        ensures now { result.0.now ≡ self.entry.host.now }
        ensures rest { result.1 ≡ self.entry.rest }
    {
        (self.host, self.rest)
    }

    /// Hands the host back and lets the disk go.
    pub fn into_host(self) -> &'h mut H
        ensures host { result.ghost_name ≡ self.entry.host.ghost_name }
        ensures now { result.now ≡ self.entry.host.now }
    {
        self.host
    }

    /// Joins a host to what was known of its disk. Work of this host has to hold what it held when they were taken apart.
    pub fn again(host: &'h mut H, rest: DiskRest) -> DiskObjects<'h, H>
        ensures host { result.host.ghost_name ≡ host.entry.ghost_name }
        ensures now { result.host.now ≡ host.old }
        ensures rest { result.rest ≡ rest }
    {
        DiskObjects { host, rest }
    }

    /// For how many objects there is room, as it was given at the beginning.
    #[inline(always)]
    pub fn room(&self) -> u32
        ensures { result ≡ disk_room self.now.rest }
    {
        self.rest.room()
    }

    /// How many objects there are.
    pub fn len(&self) -> u32
        ensures objects { IsTrue (H.tells Role.Work) → (objects : Objects) (pending : List ℕ) →
            IsDisk self.now.rest (work_of H.Host self.now.host.now) objects pending → result ≡ map.len objects }
        ensures value { result ≡ disk_held self.now.rest }
        ensures most { result ≤ disk_room self.now.rest }
    {
        self.rest.len()
    }

    /// Puts the record of a name into the buffer: false exactly where the name isn't held. The record's count is any number. After
    /// false or a fault the buffer may hold anything.
    #[inline(always)]
    pub fn get(&mut self, name: Name, buf: &mut RecordBuf) -> Result<bool, DiskFault>
        requires stands { HoldsObjects H.Host self.old.host.now self.old.rest }
        ensures got { IsTrue (H.tells Role.Work) → (objects : Objects) (pending : List ℕ) →
            IsDisk self.old.rest (work_of H.Host self.old.host.now) objects pending → IfOk result (IsGot buf.new (map.get objects name)) }
        ensures record { IfOk result (λ held. IsTrue held → HasRecord buf.new × ((raw_of buf.new).name ≡ name)) }
        ensures found { IsTrue (H.tells Role.Work) → IfOk result (IsFetched buf.new (disk_of H.Host self.old.host.now self.old.rest name)) }
        ensures keeps { IsTrue (H.tells Role.Work) → KeepsObjects H.Host self.old.host.now self.new.host.now self.old.rest self.new.rest }
        ensures rest { self.new.rest ≡ self.old.rest }
        ensures read { IsWorkRead H.Host self.old.host.now self.new.host.now }
        ensures same_host { self.new.host.ghost_name ≡ self.old.host.ghost_name }
        ensures fault { IfErr result (IsFault (H.tells Role.Work) (H.faults self.old.host.now Role.Work) (H.faults self.new.host.now Role.Work) (IsReadPlace self.old.rest) name) }
    {
        self.rest.get(self.host, name, buf)
    }

    /// Puts the record of a name into the buffer, and answers the name's count, by one search: None exactly where the name isn't held. The
    /// record's count is any number. After None or a fault the buffer may hold anything.
    pub fn get_counted(&mut self, name: Name, buf: &mut RecordBuf) -> Result<Option<u64>, DiskFault>
        requires stands { HoldsObjects H.Host self.old.host.now self.old.rest }
        ensures got { IsTrue (H.tells Role.Work) → (objects : Objects) (pending : List ℕ) →
            IsDisk self.old.rest (work_of H.Host self.old.host.now) objects pending → IfOk result (λ count. IsGot buf.new (map.get objects name) (is_some count)) }
        ensures count { IsTrue (H.tells Role.Work) → (objects : Objects) (pending : List ℕ) →
            IsDisk self.old.rest (work_of H.Host self.old.host.now) objects pending →
            IfOk result (λ count. count ≡ option_map (λ (o : DiskObject). o.count) (map.get objects name)) }
        ensures record { IfOk result (λ count. IsSome count → HasRecord buf.new × ((raw_of buf.new).name ≡ name)) }
        ensures found { IsTrue (H.tells Role.Work) → IfOk result (λ count. IsFetched buf.new (disk_of H.Host self.old.host.now self.old.rest name) (is_some count)) }
        ensures counted { IsTrue (H.tells Role.Work) → IfOk result (λ count. count ≡ counts_of H.Host self.old.host.now self.old.rest name) }
        ensures keeps { IsTrue (H.tells Role.Work) → KeepsObjects H.Host self.old.host.now self.new.host.now self.old.rest self.new.rest }
        ensures rest { self.new.rest ≡ self.old.rest }
        ensures read { IsWorkRead H.Host self.old.host.now self.new.host.now }
        ensures same_host { self.new.host.ghost_name ≡ self.old.host.ghost_name }
        ensures fault { IfErr result (IsFault (H.tells Role.Work) (H.faults self.old.host.now Role.Work) (H.faults self.new.host.now Role.Work) (IsReadPlace self.old.rest) name) }
    {
        self.rest.get_counted(self.host, name, buf)
    }

    /// Puts the record of a name that is held into the buffer, and answers the record's place in Work. After a fault the buffer may hold
    /// anything.
    #[inline(always)]
    pub fn get_held(&mut self, name: Name, buf: &mut RecordBuf) -> Result<u64, DiskFault>
        requires stands { HoldsSuch H.Host self.old.host.now self.old.rest (IsHeldName name) }
        ensures got { IsTrue (H.tells Role.Work) → (objects : Objects) (pending : List ℕ) →
            IsDisk self.old.rest (work_of H.Host self.old.host.now) objects pending → OnOk result (IsGot buf.new (map.get objects name) true) }
        ensures record { OnOk result (HasRecord buf.new × ((raw_of buf.new).name ≡ name)) }
        ensures at { IsTrue (H.tells Role.Work) → IfOk result (λ place. option_map (λ (e : Entry). e.place) (map.get (entries_of self.old.rest.directory (work_of H.Host self.old.host.now)) name) ≡ Some place) }
        ensures place { IfOk result (λ place. place ≤ LAST_END) }
        ensures rest { self.new.rest ≡ self.old.rest }
        ensures read { IsWorkRead H.Host self.old.host.now self.new.host.now }
        ensures same_host { self.new.host.ghost_name ≡ self.old.host.ghost_name }
        ensures fault { IfErr result (IsFault (H.tells Role.Work) (H.faults self.old.host.now Role.Work) (H.faults self.new.host.now Role.Work) (IsReadPlace self.old.rest) name) }
    {
        self.rest.get_held(self.host, name, buf)
    }

    /// Puts the buffer's record with a count, in place of what its name has. Full exactly where the name isn't held and as many are as
    /// there is room for; nothing changes then.
    #[inline(always)]
    pub fn put(&mut self, buf: &RecordBuf, count: u64) -> Result<(), DiskFault>
        requires record { HasRecord buf.now }
        requires stands { HoldsObjects H.Host self.old.host.now self.old.rest }
        ensures put { IsTrue (H.tells Role.Work) → (objects : Objects) (pending : List ℕ) →
            IsDisk self.old.rest (work_of H.Host self.old.host.now) objects pending →
            OnOk result (IsDisk self.new.rest (work_of H.Host self.new.host.now) (map.insert objects (raw_of buf.now).name (object_of (raw_of buf.now) count)) pending) }
        ensures full { IsTrue (H.tells Role.Work) → (objects : Objects) (pending : List ℕ) →
            IsDisk self.old.rest (work_of H.Host self.old.host.now) objects pending →
            disk_held self.old.rest ≡ disk_room self.old.rest → map.get objects (raw_of buf.now).name ≡ None → IsErr result }
        ensures stored { IsTrue (H.tells Role.Work) → OnOk result (PutsObject H.Host self.old.host.now self.new.host.now self.old.rest self.new.rest (raw_of buf.now) count) }
        ensures held { OnOk result ((disk_held self.new.rest ≡ disk_held self.old.rest) ⊎ (disk_held self.new.rest ≡ disk_held self.old.rest + 1)) }
        ensures failed { OnErr result (disk_held self.new.rest ≡ disk_held self.old.rest) }
        ensures room { disk_room self.new.rest ≡ disk_room self.old.rest }
        ensures work { IsWorkOnly H.Host self.old.host.now self.new.host.now }
        ensures same_host { self.new.host.ghost_name ≡ self.old.host.ghost_name }
        ensures fault { IfErr result (IsPutFault H.Host self.old.host.now self.new.host.now self.old.rest self.new.rest (raw_of buf.now)) }
    {
        self.rest.put(self.host, buf, count)
    }

    /// The count of a name: None exactly where it isn't held.
    #[inline(always)]
    pub fn count(&mut self, name: Name) -> Result<Option<u64>, DiskFault>
        requires stands { HoldsObjects H.Host self.old.host.now self.old.rest }
        ensures count { IsTrue (H.tells Role.Work) → (objects : Objects) (pending : List ℕ) →
            IsDisk self.old.rest (work_of H.Host self.old.host.now) objects pending →
            IfOk result (λ count. count ≡ option_map (λ (o : DiskObject). o.count) (map.get objects name)) }
        ensures found { IsTrue (H.tells Role.Work) → IfOk result (λ count. count ≡ counts_of H.Host self.old.host.now self.old.rest name) }
        ensures keeps { IsTrue (H.tells Role.Work) → KeepsObjects H.Host self.old.host.now self.new.host.now self.old.rest self.new.rest }
        ensures rest { self.new.rest ≡ self.old.rest }
        ensures read { IsWorkRead H.Host self.old.host.now self.new.host.now }
        ensures same_host { self.new.host.ghost_name ≡ self.old.host.ghost_name }
        ensures fault { IfErr result (IsFault (H.tells Role.Work) (H.faults self.old.host.now Role.Work) (H.faults self.new.host.now Role.Work) (IsSlotPlace self.old.rest) name) }
    {
        self.rest.count(self.host, name)
    }

    /// Changes the count of a name that is held, and answers it. The new count has to be from 0 to the greatest u64.
    #[inline(always)]
    pub fn add_count(&mut self, name: Name, change: i64) -> Result<u64, DiskFault>
        requires stands { HoldsSuch H.Host self.old.host.now self.old.rest (CanChange name change) }
        ensures counted { IsTrue (H.tells Role.Work) → (objects : Objects) (pending : List ℕ) →
            IsDisk self.old.rest (work_of H.Host self.old.host.now) objects pending → (o : DiskObject) → map.get objects name ≡ Some o →
            IfOk result (λ count. (count ≡ changed_by o.count change)
            × IsDisk self.new.rest (work_of H.Host self.new.host.now) (map.insert objects name (record { raw = o.raw; count = count })) pending) }
        ensures changed { IsTrue (H.tells Role.Work) → IfOk result (ChangesCount H.Host self.old.host.now self.new.host.now self.old.rest self.new.rest name change) }
        ensures held { disk_held self.new.rest ≡ disk_held self.old.rest }
        ensures room { disk_room self.new.rest ≡ disk_room self.old.rest }
        ensures work { IsWorkOnly H.Host self.old.host.now self.new.host.now }
        ensures same_host { self.new.host.ghost_name ≡ self.old.host.ghost_name }
        ensures fault { IfErr result (IsFault (H.tells Role.Work) (H.faults self.old.host.now Role.Work) (H.faults self.new.host.now Role.Work) (IsSlotPlace self.old.rest) name) }
    {
        self.rest.add_count(self.host, name, change)
    }

    /// Removes a name that is held and not pending.
    #[inline(always)]
    pub fn remove(&mut self, name: Name) -> Result<(), DiskFault>
        requires stands { HoldsSuch H.Host self.old.host.now self.old.rest (IsIdle name) }
        ensures removed { IsTrue (H.tells Role.Work) → (objects : Objects) (pending : List ℕ) →
            IsDisk self.old.rest (work_of H.Host self.old.host.now) objects pending → IsIdle name objects pending →
            OnOk result (IsDisk self.new.rest (work_of H.Host self.new.host.now) (map.remove objects name) pending) }
        ensures gone { IsTrue (H.tells Role.Work) → OnOk result (RemovesObject H.Host self.old.host.now self.new.host.now self.old.rest self.new.rest name) }
        ensures held { OnOk result (disk_held self.new.rest + 1 ≡ disk_held self.old.rest) }
        ensures failed { OnErr result ((disk_held self.new.rest ≡ disk_held self.old.rest) ⊎ (disk_held self.new.rest + 1 ≡ disk_held self.old.rest)) }
        ensures room { disk_room self.new.rest ≡ disk_room self.old.rest }
        ensures work { IsWorkOnly H.Host self.old.host.now self.new.host.now }
        ensures same_host { self.new.host.ghost_name ≡ self.old.host.ghost_name }
        ensures fault { IfErr result (IsFault (H.tells Role.Work) (H.faults self.old.host.now Role.Work) (H.faults self.new.host.now Role.Work) (IsReadPlace self.old.rest) name) }
    {
        self.rest.remove(self.host, name)
    }

    /// Exchanges the records of two names that are held. Each name keeps its count, and stays pending where it is. The buffer is for the
    /// records, and may hold anything afterwards.
    pub fn swap(&mut self, a: Name, b: Name, buf: &mut RecordBuf) -> Result<(), DiskFault>
        requires stands { HoldsSuch H.Host self.old.host.now self.old.rest (AreHeldNames a b) }
        ensures swapped { IsTrue (H.tells Role.Work) → (objects : Objects) (pending : List ℕ) →
            IsDisk self.old.rest (work_of H.Host self.old.host.now) objects pending →
            OnOk result (IsDisk self.new.rest (work_of H.Host self.new.host.now) (swapped objects a b) pending) }
        ensures exchanged { IsTrue (H.tells Role.Work) → OnOk result (SwapsObjects H.Host self.old.host.now self.new.host.now self.old.rest self.new.rest a b) }
        ensures held { disk_held self.new.rest ≡ disk_held self.old.rest }
        ensures room { disk_room self.new.rest ≡ disk_room self.old.rest }
        ensures work { IsWorkOnly H.Host self.old.host.now self.new.host.now }
        ensures same_host { self.new.host.ghost_name ≡ self.old.host.ghost_name }
        ensures fault { IfErr result (IsEitherFault (H.tells Role.Work) (H.faults self.old.host.now Role.Work) (H.faults self.new.host.now Role.Work) (IsReadPlace self.old.rest) a b) }
    {
        self.rest.swap(self.host, a, b, buf)
    }

    /// Makes a name that is held and not pending the first pending one.
    #[inline(always)]
    pub fn put_pending(&mut self, name: Name) -> Result<(), DiskFault>
        requires stands { HoldsSuch H.Host self.old.host.now self.old.rest (IsIdle name) }
        ensures put { IsTrue (H.tells Role.Work) → (objects : Objects) (pending : List ℕ) →
            IsDisk self.old.rest (work_of H.Host self.old.host.now) objects pending → IsIdle name objects pending →
            OnOk result (IsDisk self.new.rest (work_of H.Host self.new.host.now) objects (name ∷ pending)) }
        ensures keeps { IsTrue (H.tells Role.Work) → OnOk result (KeepsObjects H.Host self.old.host.now self.new.host.now self.old.rest self.new.rest) }
        ensures held { disk_held self.new.rest ≡ disk_held self.old.rest }
        ensures room { disk_room self.new.rest ≡ disk_room self.old.rest }
        ensures work { IsWorkOnly H.Host self.old.host.now self.new.host.now }
        ensures same_host { self.new.host.ghost_name ≡ self.old.host.ghost_name }
        ensures fault { IfErr result (IsFault (H.tells Role.Work) (H.faults self.old.host.now Role.Work) (H.faults self.new.host.now Role.Work) (IsSlotPlace self.old.rest) name) }
    {
        self.rest.put_pending(self.host, name)
    }

    /// Takes the first pending name, which stays held: None exactly where none is pending.
    #[inline(always)]
    pub fn take_pending(&mut self) -> Result<Option<Name>, DiskFault>
        requires stands { HoldsObjects H.Host self.old.host.now self.old.rest }
        ensures took { IsTrue (H.tells Role.Work) → (objects : Objects) (pending : List ℕ) →
            IsDisk self.old.rest (work_of H.Host self.old.host.now) objects pending →
            IfOk result (TookFirst pending (IsDisk self.new.rest (work_of H.Host self.new.host.now) objects)) }
        ensures first { IfOk result (λ name. name ≡ disk_first self.old.rest) }
        ensures keeps { IsTrue (H.tells Role.Work) → IsOk result → KeepsObjects H.Host self.old.host.now self.new.host.now self.old.rest self.new.rest }
        ensures held { disk_held self.new.rest ≡ disk_held self.old.rest }
        ensures room { disk_room self.new.rest ≡ disk_room self.old.rest }
        ensures read { IsWorkRead H.Host self.old.host.now self.new.host.now }
        ensures same_host { self.new.host.ghost_name ≡ self.old.host.ghost_name }
        ensures fault { IfErr result (IsFault (H.tells Role.Work) (H.faults self.old.host.now Role.Work) (H.faults self.new.host.now Role.Work) (IsReadPlace self.old.rest) (link_to (disk_first self.old.rest))) }
    {
        self.rest.take_pending(self.host)
    }

    /// The names of all objects, rising.
    pub fn names(&mut self, alloc: Global) -> Result<NameList, NamesFault>
        requires stands { HoldsObjects H.Host self.old.host.now self.old.rest }
        ensures names { IsTrue (H.tells Role.Work) → (objects : Objects) (pending : List ℕ) →
            IsDisk self.old.rest (work_of H.Host self.old.host.now) objects pending → IfOk result (λ names. names ≡ map.keys objects) }
        ensures keeps { IsTrue (H.tells Role.Work) → KeepsObjects H.Host self.old.host.now self.new.host.now self.old.rest self.new.rest }
        ensures rest { self.new.rest ≡ self.old.rest }
        ensures read { IsWorkRead H.Host self.old.host.now self.new.host.now }
        ensures same_host { self.new.host.ghost_name ≡ self.old.host.ghost_name }
        ensures fault { IfErr result (IsNamesFault (H.tells Role.Work) (H.faults self.old.host.now Role.Work) (H.faults self.new.host.now Role.Work) self.old.rest) }
    {
        self.rest.names(self.host, alloc)
    }

    /// `attach` of the host, for a role that isn't Work. The objects stay.
    pub fn attach(&mut self, role: Role, name: &str) -> Result<(), Failed>
        requires can { CanAttach role }
        requires other { role ≢ Role.Work }
        ensures attached { IsTrue (H.tells role) → Attached name.now result (H.roles self.old.host.now role) (H.roles self.new.host.now role) }
        ensures fresh { IsTrue (H.tells role) → OnOk result (IsFresh (H.roles self.new.host.now role)) }
        ensures others { SameBut role (H.roles self.old.host.now) (H.roles self.new.host.now) }
        ensures work { H.roles self.new.host.now Role.Work ≡ H.roles self.old.host.now Role.Work }
        ensures other_faults { SameBut role (H.faults self.old.host.now) (H.faults self.new.host.now) }
        ensures writes { H.writes self.new.host.now ≡ H.writes self.old.host.now }
        ensures cause { HasCause (H.faults self.old.host.now role) (H.faults self.new.host.now role) result }
        ensures keeps { HoldsObjects H.Host self.old.host.now self.old.rest → IsTrue (H.tells Role.Work) → KeepsObjects H.Host self.old.host.now self.new.host.now self.old.rest self.new.rest }
        ensures rest { self.new.rest ≡ self.old.rest }
        ensures same_host { self.new.host.ghost_name ≡ self.old.host.ghost_name }
    {
        self.host.attach(role, name)
    }

    /// `read_full` of the host: fills the buffer, or less exactly where the end came, and says how many bytes it took.
    pub fn read_from(&mut self, role: Role, buf: &mut [u8]) -> Result<usize, Failed>
        requires { CanRead role }
        ensures bound { IfOk result (λ n. n ≤ length buf.old) }
        ensures took { IsTrue (H.tells role) → IfOk result (λ n. Took n buf.new (H.roles self.old.host.now role) (H.roles self.new.host.now role)) }
        ensures full { IsTrue (H.tells role) → IfOk result (λ n. n ≡ min (length buf.old) (length (H.roles self.old.host.now role).left)) }
        ensures failed { IsTrue (H.tells role) → OnErr result (TookSome (length buf.old) (H.roles self.old.host.now role) (H.roles self.new.host.now role)) }
        ensures empty { length buf.old ≡ 0 → (self.new.host.now ≡ self.old.host.now) × IfOk result (λ n. n ≡ 0) × IsOk result }
        ensures others { SameBut role (H.roles self.old.host.now) (H.roles self.new.host.now) }
        ensures work { H.roles self.new.host.now Role.Work ≡ H.roles self.old.host.now Role.Work }
        ensures other_faults { SameBut role (H.faults self.old.host.now) (H.faults self.new.host.now) }
        ensures writes { H.writes self.new.host.now ≡ H.writes self.old.host.now }
        ensures cause { HasCause (H.faults self.old.host.now role) (H.faults self.new.host.now role) result }
        ensures keeps { HoldsObjects H.Host self.old.host.now self.old.rest → IsTrue (H.tells Role.Work) → KeepsObjects H.Host self.old.host.now self.new.host.now self.old.rest self.new.rest }
        ensures rest { self.new.rest ≡ self.old.rest }
        ensures same_host { self.new.host.ghost_name ≡ self.old.host.ghost_name }
    {
        read_full(self.host, role, buf)
    }

    /// `write_full` of the host: puts the whole piece. Where that failed, some of its first bytes may have been put.
    pub fn write_to(&mut self, role: Role, buf: &[u8]) -> Result<(), Failed>
        requires { CanWrite role }
        ensures put { IsTrue (H.tells role) → OnOk result (H.roles self.new.host.now role ≡ puts buf.now (H.roles self.old.host.now role)) }
        ensures failed { IsTrue (H.tells role) → OnErr result (PutPrefix buf.now (H.roles self.old.host.now role) (H.roles self.new.host.now role)) }
        ensures empty { length buf.now ≡ 0 → (self.new.host.now ≡ self.old.host.now) × IsOk result }
        ensures others { SameBut role (H.roles self.old.host.now) (H.roles self.new.host.now) }
        ensures work { H.roles self.new.host.now Role.Work ≡ H.roles self.old.host.now Role.Work }
        ensures other_faults { SameBut role (H.faults self.old.host.now) (H.faults self.new.host.now) }
        ensures writes { H.writes self.new.host.now ≡ H.writes self.old.host.now }
        ensures cause { HasCause (H.faults self.old.host.now role) (H.faults self.new.host.now role) result }
        ensures keeps { HoldsObjects H.Host self.old.host.now self.old.rest → IsTrue (H.tells Role.Work) → KeepsObjects H.Host self.old.host.now self.new.host.now self.old.rest self.new.rest }
        ensures rest { self.new.rest ≡ self.old.rest }
        ensures same_host { self.new.host.ghost_name ≡ self.old.host.ghost_name }
    {
        write_full(self.host, role, buf)
    }

    /// How often calls on this role failed, up to the greatest u64.
    pub fn fault_count(&self, role: Role) -> u64
        ensures { result ≡ H.faults self.now.host.now role }
    {
        self.host.fault_count(role)
    }
}
