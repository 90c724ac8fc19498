// What is known of a disk without its host, and what each call does with a host.
ghost use Rattle.std.specs.Prelude.{◌≡◌, ◌<◌, ◌≤◌, ◌+ℤ◌, ℕ, List, [], ◌∷◌, pos, unsigned_abs, Option, None, Some, IsSome, IsTrue, true, IfOk, IfErr, IsErr, OnOk, OnErr, option_map, is_some, ◌⊎◌, ◌+◌, ◌*◌};
ghost use Rattle.std.specs.FinMap as map;
ghost use Rattle.std.specs.Int.{FitsUnsigned, w64};
ghost use Rattle.std.specs.Option.{SomeIff};
ghost use Rattle.loom_host.specs.declared.outside.Role.{Role};
ghost use Rattle.object_record.specs.Buffer.{HasRecord, raw_of};
ghost use Rattle.disk_objects.specs.Disk.{link_to};
ghost use Rattle.disk_objects.specs.Inside.{check_place, held_slot};
ghost use Rattle.work_directory.specs.Directory.{EndsAt, StandsAt, found_entry, Holds, HoldsDirectory, IsChanged, entries_of, slots_of};
ghost use Rattle.work_directory.specs.Slots.{slot_place};
ghost use Rattle.work_directory.specs.Table.{Entry, entry_of};
ghost use Rattle.loom_host.specs.Work.{IsWorkOnly, IsWorkRead, work_of};

use crate::record::{
    Head, read_head, read_link, read_record, rename_record, size_class_for, store, write_link,
    write_record,
};
use long_names::Name;
use loom_host::{DiskFault, Host};
use object_record::RecordBuf;
use work_directory::{Directory, Found, MOST_NAMES, Slot, damaged};
use work_space::{LAST_END, Space};

/// What is left of a disk without its host: the directory, the blocks and the first pending name.
#[derive(Drop)]
pub struct DiskRest {
    pub(crate) directory: Directory,
    space: Space,
    first: Option<Name>,
}

// Where the object of a name stands, and which slot says so.
#[derive(Clone, Copy)]
pub(crate) struct Held {
    at: u32,
    count: u64,
    place: u64,
    head: Head,
}

// The slot of a name that is held, and which one it is.
#[derive(Clone, Copy)]
pub(crate) struct HeldSlot {
    at: u32,
    slot: Slot,
}

// What was found of a name: where its object stands, or the empty slot where the search for it ended.
#[derive(Clone, Copy)]
pub(crate) enum FoundObject {
    Held(Held),
    Vacant { at: u32 },
}

// What a search for a name found. Damage is told of a slot whose place can't be one.
fn check_place(found: Found, name: Name) -> Result<Found, DiskFault>
    ensures { result ≡ check_place found name }
{
    match found {
        Found::Held { at, slot } => {
            if slot.place <= LAST_END {
                Ok(Found::Held { at, slot })
            } else {
                Err(damaged(at, name))
            }
        }
        Found::Vacant { at } => Ok(Found::Vacant { at }),
    }
}

// The slot of a name that is to be held. Damage is told of the slot where the search ended.
fn held_slot(found: Found, name: Name) -> Result<HeldSlot, DiskFault>
    ensures { result ≡ held_slot found name }
{
    match found {
        Found::Held { at, slot } => {
            if slot.place <= LAST_END {
                Ok(HeldSlot { at, slot })
            } else {
                Err(damaged(at, name))
            }
        }
        Found::Vacant { at } => Err(damaged(at, name)),
    }
}

// A count after a change, where there is one.
#[inline(always)]
fn changed(count: u64, change: i64) -> Option<u64>
    ensures { SomeIff result (FitsUnsigned w64 (pos count +ℤ change)) (unsigned_abs (pos count +ℤ change)) }
{
    count.checked_add_signed(change)
}

// The count of slot `at` after a change. Where there is none, damage is told of the slot.
#[inline(always)]
fn recount(count: u64, change: i64, at: u32, name: Name) -> Result<u64, DiskFault>
    ensures count { IfOk result (λ n. n ≡ unsigned_abs (pos count +ℤ change)) }
    ensures fault { IfErr result (λ fault. (fault ≡ DiskFault.Damaged (slot_place at) name) × (FitsUnsigned w64 (pos count +ℤ change) → ⊥)) }
{
    match changed(count, change) {
        Some(count) => Ok(count),
        None => Err(damaged(at, name)),
    }
}

// The number that links to a name, 0 for none.
#[inline(always)]
fn number_of(name: &Option<Name>) -> u64
    ensures { result ≡ link_to name.now }
{
    match name {
        Some(name) => u64::from(name.get()),
        None => 0,
    }
}

impl DiskRest {
    ghost use Rattle.disk_objects.specs.Calls.{AreHeldNames, CanChange, HoldsObjects, HoldsSuch, IsEitherFault, IsFault, IsGot, IsHeldName, IsIdle, IsPutFault, TookFirst, changed_by, swapped};
    ghost use Rattle.disk_objects.specs.Places.{IsReadPlace, IsSlotPlace};
    ghost use Rattle.disk_objects.specs.Disk.{DiskObject, IsSizeClass, IsDisk, Objects, disk_first, disk_held, disk_room, object_of, record_size};
    ghost use Rattle.disk_objects.specs.Inside.{IsFound, IsHeld, IsPlaced, IsSizedFound, IsSizedHeld, IsStepFault, SearchEnds};

    pub(crate) fn new(room: u32) -> DiskRest
        requires some { 0 < room }
        requires most { room ≤ MOST_NAMES }
        ensures disk { IsDisk result [] map.empty [] }
        ensures room { disk_room result ≡ room }
        ensures none { disk_held result ≡ 0 }
    {
        let directory = Directory::new(room);
        let space = Space::new(directory.end());
        DiskRest {
            directory,
            space,
            first: None,
        }
    }

    // How many names are held.
    pub(crate) fn len(&self) -> u32
        ensures value { result ≡ disk_held self.now }
        ensures most { result ≤ disk_room self.now }
    {
        self.directory.len()
    }

    // For how many names there is room.
    #[inline(always)]
    pub(crate) fn room(&self) -> u32
        ensures { result ≡ disk_room self.now }
    {
        self.directory.room()
    }

    // Where the search for a name ends.
    fn find<H: Host>(&self, host: &mut H, name: Name) -> Result<Found, DiskFault>
        requires stands { HoldsObjects H.Host host.old self.now }
        ensures found { IfOk result (λ found. IsTrue (H.tells Role.Work) → found_entry found ≡ map.get (entries_of self.now.directory (work_of H.Host host.old)) name) }
        ensures end { IfOk result (EndsAt H.Host host.old self.now.directory name) }
        ensures place { IfOk result IsPlaced }
        ensures read { IsWorkRead H.Host host.old host.new }
        ensures fault { IfErr result (IsFault (H.tells Role.Work) (H.faults host.old Role.Work) (H.faults host.new Role.Work) (IsSlotPlace self.now) name) }
    {
        let found = self.directory.seek(host, name)?;
        check_place(found, name)
    }

    // The slot of a name that is held.
    fn find_held<H: Host>(&self, host: &mut H, name: Name) -> Result<HeldSlot, DiskFault>
        requires stands { HoldsSuch H.Host host.old self.now (IsHeldName name) }
        ensures found { IfOk result (λ held. IsTrue (H.tells Role.Work) → map.get (entries_of self.now.directory (work_of H.Host host.old)) name ≡ Some (entry_of held.slot)) }
        ensures place { IfOk result (λ held. held.slot.place ≤ LAST_END) }
        ensures at { IfOk result (λ held. held.at < slots_of self.now.directory) }
        ensures end { IfOk result (λ held. EndsAt H.Host host.old self.now.directory name (Found.Held held.at held.slot)) }
        ensures read { IsWorkRead H.Host host.old host.new }
        ensures fault { IfErr result (IsFault (H.tells Role.Work) (H.faults host.old Role.Work) (H.faults host.new Role.Work) (IsSlotPlace self.now) name) }
    {
        let found = self.directory.seek(host, name)?;
        held_slot(found, name)
    }

    // Where the object of a name stands, and what the first bytes of its record say.
    fn look<H: Host>(&self, host: &mut H, name: Name) -> Result<FoundObject, DiskFault>
        requires stands { HoldsObjects H.Host host.old self.now }
        ensures found { IsTrue (H.tells Role.Work) → IfOk result (IsFound self.now (work_of H.Host host.old) name) }
        ensures sized { IfOk result IsSizedFound }
        ensures end { IfOk result (SearchEnds H.Host host.old self.now name) }
        ensures read { IsWorkRead H.Host host.old host.new }
        ensures fault { IfErr result (IsFault (H.tells Role.Work) (H.faults host.old Role.Work) (H.faults host.new Role.Work) (IsReadPlace self.now) name) }
    {
        let found = self.find(host, name)?;
        match found {
            Found::Held { at, slot } => {
                let head = read_head(host, slot.place, name)?;
                Ok(FoundObject::Held(Held {
                    at,
                    count: slot.count,
                    place: slot.place,
                    head,
                }))
            }
            Found::Vacant { at } => Ok(FoundObject::Vacant { at }),
        }
    }

    // The same of a name that is held.
    fn look_held<H: Host>(&self, host: &mut H, name: Name) -> Result<Held, DiskFault>
        requires stands { HoldsSuch H.Host host.old self.now (IsHeldName name) }
        ensures found { IsTrue (H.tells Role.Work) → IfOk result (IsHeld self.now (work_of H.Host host.old) name) }
        ensures sized { IfOk result IsSizedHeld }
        ensures end { IfOk result (λ held. StandsAt H.Host host.old self.now.directory name held.at) }
        ensures read { IsWorkRead H.Host host.old host.new }
        ensures fault { IfErr result (IsFault (H.tells Role.Work) (H.faults host.old Role.Work) (H.faults host.new Role.Work) (IsReadPlace self.now) name) }
    {
        let held = self.find_held(host, name)?;
        let head = read_head(host, held.slot.place, name)?;
        Ok(Held {
            at: held.at,
            count: held.slot.count,
            place: held.slot.place,
            head,
        })
    }

    // The count of a name, whose record is put into the buffer; None where the name isn't held.
    pub(crate) fn get_counted<H: Host>(
        &self,
        host: &mut H,
        name: Name,
        buf: &mut RecordBuf,
    ) -> Result<Option<u64>, DiskFault>
        requires stands { HoldsObjects H.Host host.old self.now }
        ensures got { IsTrue (H.tells Role.Work) → (objects : Objects) (pending : List ℕ) → IsDisk self.now (work_of H.Host host.old) objects pending →
            IfOk result (λ count. IsGot buf.new (map.get objects name) (is_some count)) }
        ensures count { IsTrue (H.tells Role.Work) → (objects : Objects) (pending : List ℕ) → IsDisk self.now (work_of H.Host host.old) objects pending →
            IfOk result (λ count. count ≡ option_map (λ (o : DiskObject). o.count) (map.get objects name)) }
        ensures record { IfOk result (λ count. IsSome count → HasRecord buf.new × ((raw_of buf.new).name ≡ name)) }
        ensures read { IsWorkRead H.Host host.old host.new }
        ensures fault { IfErr result (IsFault (H.tells Role.Work) (H.faults host.old Role.Work) (H.faults host.new Role.Work) (IsReadPlace self.now) name) }
    {
        let found = self.find(host, name)?;
        let Found::Held { slot, .. } = found else {
            return Ok(None);
        };
        read_record(host, slot.place, name, buf)?;
        Ok(Some(slot.count))
    }

    pub(crate) fn get<H: Host>(
        &self,
        host: &mut H,
        name: Name,
        buf: &mut RecordBuf,
    ) -> Result<bool, DiskFault>
        requires stands { HoldsObjects H.Host host.old self.now }
        ensures got { IsTrue (H.tells Role.Work) → (objects : Objects) (pending : List ℕ) → IsDisk self.now (work_of H.Host host.old) objects pending →
            IfOk result (IsGot buf.new (map.get objects name)) }
        ensures record { IfOk result (λ held. IsTrue held → HasRecord buf.new × ((raw_of buf.new).name ≡ name)) }
        ensures read { IsWorkRead H.Host host.old host.new }
        ensures fault { IfErr result (IsFault (H.tells Role.Work) (H.faults host.old Role.Work) (H.faults host.new Role.Work) (IsReadPlace self.now) name) }
    {
        let count = self.get_counted(host, name, buf)?;
        Ok(count.is_some())
    }

    pub(crate) fn get_held<H: Host>(
        &self,
        host: &mut H,
        name: Name,
        buf: &mut RecordBuf,
    ) -> Result<u64, DiskFault>
        requires stands { HoldsSuch H.Host host.old self.now (IsHeldName name) }
        ensures got { IsTrue (H.tells Role.Work) → (objects : Objects) (pending : List ℕ) → IsDisk self.now (work_of H.Host host.old) objects pending →
            OnOk result (IsGot buf.new (map.get objects name) true) }
        ensures record { OnOk result (HasRecord buf.new × ((raw_of buf.new).name ≡ name)) }
        ensures at { IsTrue (H.tells Role.Work) → IfOk result (λ place. option_map (λ (e : Entry). e.place) (map.get (entries_of self.now.directory (work_of H.Host host.old)) name) ≡ Some place) }
        ensures place { IfOk result (λ place. place ≤ LAST_END) }
        ensures read { IsWorkRead H.Host host.old host.new }
        ensures fault { IfErr result (IsFault (H.tells Role.Work) (H.faults host.old Role.Work) (H.faults host.new Role.Work) (IsReadPlace self.now) name) }
    {
        let held = self.find_held(host, name)?;
        read_record(host, held.slot.place, name, buf)?;
        Ok(held.slot.place)
    }

    pub(crate) fn count<H: Host>(&self, host: &mut H, name: Name) -> Result<Option<u64>, DiskFault>
        requires stands { HoldsObjects H.Host host.old self.now }
        ensures count { IsTrue (H.tells Role.Work) → (objects : Objects) (pending : List ℕ) → IsDisk self.now (work_of H.Host host.old) objects pending →
            IfOk result (λ count. count ≡ option_map (λ (o : DiskObject). o.count) (map.get objects name)) }
        ensures read { IsWorkRead H.Host host.old host.new }
        ensures fault { IfErr result (IsFault (H.tells Role.Work) (H.faults host.old Role.Work) (H.faults host.new Role.Work) (IsSlotPlace self.now) name) }
    {
        match self.find(host, name)? {
            Found::Held { slot, .. } => Ok(Some(slot.count)),
            Found::Vacant { .. } => Ok(None),
        }
    }

    pub(crate) fn add_count<H: Host>(
        &mut self,
        host: &mut H,
        name: Name,
        change: i64,
    ) -> Result<u64, DiskFault>
        requires stands { HoldsSuch H.Host host.old self.old (CanChange name change) }
        ensures counted { IsTrue (H.tells Role.Work) → (objects : Objects) (pending : List ℕ) → IsDisk self.old (work_of H.Host host.old) objects pending →
            (o : DiskObject) → map.get objects name ≡ Some o → IfOk result (λ count. (count ≡ changed_by o.count change)
            × IsDisk self.new (work_of H.Host host.new) (map.insert objects name (record { raw = o.raw; count = count })) pending) }
        ensures held { disk_held self.new ≡ disk_held self.old }
        ensures room { disk_room self.new ≡ disk_room self.old }
        ensures work { IsWorkOnly H.Host host.old host.new }
        ensures fault { IfErr result (IsFault (H.tells Role.Work) (H.faults host.old Role.Work) (H.faults host.new Role.Work) (IsSlotPlace self.old) name) }
    {
        let held = self.find_held(host, name)?;
        let count = recount(held.slot.count, change, held.at, name)?;
        let slot = Slot {
            name,
            count,
            place: held.slot.place,
        };
        self.directory.set_at(host, held.at, slot)?;
        Ok(count)
    }

    pub(crate) fn put_pending<H: Host>(&mut self, host: &mut H, name: Name) -> Result<(), DiskFault>
        requires stands { HoldsSuch H.Host host.old self.old (IsIdle name) }
        ensures put { IsTrue (H.tells Role.Work) → (objects : Objects) (pending : List ℕ) → IsDisk self.old (work_of H.Host host.old) objects pending →
            IsIdle name objects pending → OnOk result (IsDisk self.new (work_of H.Host host.new) objects (name ∷ pending)) }
        ensures held { disk_held self.new ≡ disk_held self.old }
        ensures room { disk_room self.new ≡ disk_room self.old }
        ensures work { IsWorkOnly H.Host host.old host.new }
        ensures fault { IfErr result (IsFault (H.tells Role.Work) (H.faults host.old Role.Work) (H.faults host.new Role.Work) (IsSlotPlace self.old) name) }
    {
        let held = self.find_held(host, name)?;
        write_link(host, held.slot.place, number_of(&self.first))?;
        self.first = Some(name);
        Ok(())
    }

    pub(crate) fn take_pending<H: Host>(&mut self, host: &mut H) -> Result<Option<Name>, DiskFault>
        requires stands { HoldsObjects H.Host host.old self.old }
        ensures took { IsTrue (H.tells Role.Work) → (objects : Objects) (pending : List ℕ) → IsDisk self.old (work_of H.Host host.old) objects pending →
            IfOk result (TookFirst pending (IsDisk self.new (work_of H.Host host.new) objects)) }
        ensures first { IfOk result (λ name. name ≡ disk_first self.old) }
        ensures held { disk_held self.new ≡ disk_held self.old }
        ensures room { disk_room self.new ≡ disk_room self.old }
        ensures read { IsWorkRead H.Host host.old host.new }
        ensures fault { IfErr result (IsFault (H.tells Role.Work) (H.faults host.old Role.Work) (H.faults host.new Role.Work) (IsReadPlace self.old) (link_to (disk_first self.old))) }
    {
        let Some(name) = self.first else {
            return Ok(None);
        };
        // for the prover: a name is above 0
        let _word = name.get();
        let held = self.find_held(host, name)?;
        self.first = read_link(host, held.slot.place, name)?;
        Ok(Some(name))
    }

    // Adds the buffer's record with this count. Its name isn't held, and the search for it ends at this empty slot.
    fn add<H: Host>(
        &mut self,
        host: &mut H,
        at: u32,
        buf: &RecordBuf,
        count: u64,
    ) -> Result<(), DiskFault>
        requires record { HasRecord buf.now }
        requires stands { HoldsObjects H.Host host.old self.old }
        requires vacant { EndsAt H.Host host.old self.old.directory (raw_of buf.now).name (Found.Vacant at) }
        requires absent { IsTrue (H.tells Role.Work) → map.get (entries_of self.old.directory (work_of H.Host host.old)) (raw_of buf.now).name ≡ None }
        requires room { disk_held self.old < disk_room self.old }
        ensures put { IsTrue (H.tells Role.Work) → (objects : Objects) (pending : List ℕ) → IsDisk self.old (work_of H.Host host.old) objects pending →
            OnOk result (IsDisk self.new (work_of H.Host host.new) (map.insert objects (raw_of buf.now).name (object_of (raw_of buf.now) count)) pending) }
        ensures held { OnOk result (disk_held self.new ≡ disk_held self.old + 1) }
        ensures failed { OnErr result (disk_held self.new ≡ disk_held self.old) }
        ensures room { disk_room self.new ≡ disk_room self.old }
        ensures work { IsWorkOnly H.Host host.old host.new }
        ensures fault { IfErr result (IsStepFault (H.tells Role.Work) (H.faults host.old Role.Work) (H.faults host.new Role.Work) self.old (raw_of buf.now)) }
    {
        let place = store(&mut self.space, host, buf, 0)?;
        let name = buf.name();
        self.directory.add_at(host, at, Slot { name, count, place })
    }

    // Writes the buffer's record, which wants a block of the same class, in the place of the one that is held.
    fn rewrite<H: Host>(
        &mut self,
        host: &mut H,
        held: Held,
        buf: &RecordBuf,
        count: u64,
    ) -> Result<(), DiskFault>
        requires record { HasRecord buf.now }
        requires stands { HoldsObjects H.Host host.old self.old }
        requires held { IsTrue (H.tells Role.Work) → IsHeld self.old (work_of H.Host host.old) (raw_of buf.now).name held }
        requires at { StandsAt H.Host host.old self.old.directory (raw_of buf.now).name held.at }
        requires sized { IsSizedHeld held }
        requires class { IsSizeClass held.head.class (record_size (raw_of buf.now)) }
        ensures put { IsTrue (H.tells Role.Work) → (objects : Objects) (pending : List ℕ) → IsDisk self.old (work_of H.Host host.old) objects pending →
            OnOk result (IsDisk self.new (work_of H.Host host.new) (map.insert objects (raw_of buf.now).name (object_of (raw_of buf.now) count)) pending) }
        ensures held { disk_held self.new ≡ disk_held self.old }
        ensures room { disk_room self.new ≡ disk_room self.old }
        ensures work { IsWorkOnly H.Host host.old host.new }
        ensures fault { IfErr result (IsStepFault (H.tells Role.Work) (H.faults host.old Role.Work) (H.faults host.new Role.Work) self.old (raw_of buf.now)) }
    {
        let place = held.place;
        write_record(host, place, buf, held.head.link)?;
        let name = buf.name();
        self.directory
            .set_at(host, held.at, Slot { name, count, place })
    }

    // Stores the buffer's record, which wants a block of another class, and gives back the block of the one that is held.
    fn relocate<H: Host>(
        &mut self,
        host: &mut H,
        held: Held,
        buf: &RecordBuf,
        count: u64,
    ) -> Result<(), DiskFault>
        requires record { HasRecord buf.now }
        requires stands { HoldsObjects H.Host host.old self.old }
        requires held { IsTrue (H.tells Role.Work) → IsHeld self.old (work_of H.Host host.old) (raw_of buf.now).name held }
        requires at { StandsAt H.Host host.old self.old.directory (raw_of buf.now).name held.at }
        requires sized { IsSizedHeld held }
        requires class { IsSizeClass held.head.class (record_size (raw_of buf.now)) → ⊥ }
        ensures put { IsTrue (H.tells Role.Work) → (objects : Objects) (pending : List ℕ) → IsDisk self.old (work_of H.Host host.old) objects pending →
            OnOk result (IsDisk self.new (work_of H.Host host.new) (map.insert objects (raw_of buf.now).name (object_of (raw_of buf.now) count)) pending) }
        ensures held { disk_held self.new ≡ disk_held self.old }
        ensures room { disk_room self.new ≡ disk_room self.old }
        ensures work { IsWorkOnly H.Host host.old host.new }
        ensures fault { IfErr result (IsStepFault (H.tells Role.Work) (H.faults host.old Role.Work) (H.faults host.new Role.Work) self.old (raw_of buf.now)) }
    {
        let place = store(&mut self.space, host, buf, held.head.link)?;
        let name = buf.name();
        self.directory
            .set_at(host, held.at, Slot { name, count, place })?;
        self.space.give(host, held.place, held.head.class)
    }

    pub(crate) fn put<H: Host>(
        &mut self,
        host: &mut H,
        buf: &RecordBuf,
        count: u64,
    ) -> Result<(), DiskFault>
        requires record { HasRecord buf.now }
        requires stands { HoldsObjects H.Host host.old self.old }
        ensures put { IsTrue (H.tells Role.Work) → (objects : Objects) (pending : List ℕ) → IsDisk self.old (work_of H.Host host.old) objects pending →
            OnOk result (IsDisk self.new (work_of H.Host host.new) (map.insert objects (raw_of buf.now).name (object_of (raw_of buf.now) count)) pending) }
        ensures full { IsTrue (H.tells Role.Work) → (objects : Objects) (pending : List ℕ) → IsDisk self.old (work_of H.Host host.old) objects pending →
            disk_held self.old ≡ disk_room self.old → map.get objects (raw_of buf.now).name ≡ None → IsErr result }
        ensures held { OnOk result ((disk_held self.new ≡ disk_held self.old) ⊎ (disk_held self.new ≡ disk_held self.old + 1)) }
        ensures failed { OnErr result (disk_held self.new ≡ disk_held self.old) }
        ensures room { disk_room self.new ≡ disk_room self.old }
        ensures work { IsWorkOnly H.Host host.old host.new }
        ensures fault { IfErr result (IsPutFault H.Host host.old host.new self.old self.new (raw_of buf.now)) }
    {
        let found = self.look(host, buf.name())?;
        let held = match found {
            FoundObject::Held(held) => held,
            FoundObject::Vacant { at } => {
                let held = self.directory.len();
                let room = self.directory.room();
                if held == room {
                    return Err(DiskFault::Full { held, room });
                }
                return self.add(host, at, buf, count);
            }
        };
        if size_class_for(buf) == held.head.class {
            self.rewrite(host, held, buf, count)
        } else {
            self.relocate(host, held, buf, count)
        }
    }

    pub(crate) fn remove<H: Host>(&mut self, host: &mut H, name: Name) -> Result<(), DiskFault>
        requires stands { HoldsSuch H.Host host.old self.old (IsIdle name) }
        ensures removed { IsTrue (H.tells Role.Work) → (objects : Objects) (pending : List ℕ) → IsDisk self.old (work_of H.Host host.old) objects pending →
            IsIdle name objects pending → OnOk result (IsDisk self.new (work_of H.Host host.new) (map.remove objects name) pending) }
        ensures held { OnOk result (disk_held self.new + 1 ≡ disk_held self.old) }
        ensures failed { OnErr result ((disk_held self.new ≡ disk_held self.old) ⊎ (disk_held self.new + 1 ≡ disk_held self.old)) }
        ensures room { disk_room self.new ≡ disk_room self.old }
        ensures work { IsWorkOnly H.Host host.old host.new }
        ensures fault { IfErr result (IsFault (H.tells Role.Work) (H.faults host.old Role.Work) (H.faults host.new Role.Work) (IsReadPlace self.old) name) }
    {
        let held = self.look_held(host, name)?;
        self.directory.remove(host, name)?;
        let class = held.head.class;
        self.space.give(host, held.place, class)
    }

    pub(crate) fn swap<H: Host>(
        &mut self,
        host: &mut H,
        a: Name,
        b: Name,
        buf: &mut RecordBuf,
    ) -> Result<(), DiskFault>
        requires stands { HoldsSuch H.Host host.old self.old (AreHeldNames a b) }
        ensures swapped { IsTrue (H.tells Role.Work) → (objects : Objects) (pending : List ℕ) → IsDisk self.old (work_of H.Host host.old) objects pending →
            OnOk result (IsDisk self.new (work_of H.Host host.new) (swapped objects a b) pending) }
        ensures held { disk_held self.new ≡ disk_held self.old }
        ensures room { disk_room self.new ≡ disk_room self.old }
        ensures work { IsWorkOnly H.Host host.old host.new }
        ensures fault { IfErr result (IsEitherFault (H.tells Role.Work) (H.faults host.old Role.Work) (H.faults host.new Role.Work) (IsReadPlace self.old) a b) }
    {
        if a.get() == b.get() {
            return Ok(());
        }
        let one = self.look_held(host, a)?;
        let two = self.look_held(host, b)?;
        rename_record(host, one.place, a, b, two.head.link, buf)?;
        rename_record(host, two.place, b, a, one.head.link, buf)?;
        self.exchange(host, one, two, a, b)
    }

    // Exchanges the places of the slots of two names.
    fn exchange<H: Host>(
        &mut self,
        host: &mut H,
        one: Held,
        two: Held,
        a: Name,
        b: Name,
    ) -> Result<(), DiskFault>
        requires stands { HoldsDirectory H.Host host.old self.old.directory }
        requires one { StandsAt H.Host host.old self.old.directory a one.at }
        requires two { Holds H.Host host.old self.old.directory b }
        ensures exchanged { IsTrue (H.tells Role.Work) → OnOk result (IsChanged self.old.directory
            (map.insert (map.insert (entries_of self.old.directory (work_of H.Host host.old)) a (record { count = one.count; place = two.place })) b (record { count = two.count; place = one.place }))
            (work_of H.Host host.old) (work_of H.Host host.new)) }
        ensures still { self.new ≡ self.old }
        ensures work { IsWorkOnly H.Host host.old host.new }
        ensures fault { IfErr result (IsEitherFault (H.tells Role.Work) (H.faults host.old Role.Work) (H.faults host.new Role.Work) (IsReadPlace self.old) a b) }
    {
        let first = Slot {
            name: a,
            count: one.count,
            place: two.place,
        };
        self.directory.set_at(host, one.at, first)?;
        let second = Slot {
            name: b,
            count: two.count,
            place: one.place,
        };
        self.directory.set(host, second)
    }
}
