//! Laws of what stands on a disk. No code calls these functions: what each of them ensures is the law.
ghost use Rattle.std.specs.Prelude.{◌≡◌, ◌<◌, ◌≤◌, ℕ, List, Some, IsSome};
ghost use Rattle.std.specs.FinMap as map;
ghost use Rattle.object_record.specs.Objects.{object_in};
ghost use Rattle.object_record.specs.Raw.{IsRawRecord, RawRecord};
ghost use Rattle.work_space.specs.Blocks.{put, times};
ghost use Rattle.disk_objects.specs.declared.rest.DiskRest.{DiskRest};
ghost use Rattle.disk_objects.specs.Function.{count_held, counts_at, object_held, objects_at};
ghost use Rattle.disk_objects.specs.Disk.{DiskObject, IsDisk, Objects, disk_held, disk_room, object_of};

/// There are as many objects as are counted, and no more than there is room for. Each is a record of its name, with 0 where a record has
/// its count.
pub fn objects_are_records()
    ensures count { (rest : DiskRest) (work : List ℕ) (objects : Objects) (pending : List ℕ) → IsDisk rest work objects pending →
        (map.len objects ≡ disk_held rest) × (map.len objects ≤ disk_room rest) }
    ensures records { (rest : DiskRest) (work : List ℕ) (objects : Objects) (pending : List ℕ) → IsDisk rest work objects pending →
        (name : ℕ) (o : DiskObject) → map.get objects name ≡ Some o → IsRawRecord o.raw × (o.raw.name ≡ name) × (o.raw.count ≡ 0) }
{}

/// Each pending name is held, and none is pending twice.
pub fn pending_names_are_held()
    ensures held { (rest : DiskRest) (work : List ℕ) (objects : Objects) (pending : List ℕ) → IsDisk rest work objects pending →
        (name : ℕ) → 0 < times name pending → IsSome (map.get objects name) }
    ensures once { (rest : DiskRest) (work : List ℕ) (objects : Objects) (pending : List ℕ) → IsDisk rest work objects pending →
        (name : ℕ) → times name pending ≤ 1 }
{}

/// A disk as a function is its map, name by name, and so are its counts.
pub fn a_disk_is_its_objects()
    ensures objects { (rest : DiskRest) (work : List ℕ) (objects : Objects) (pending : List ℕ) (n : ℕ) → IsDisk rest work objects pending →
        objects_at rest work n ≡ object_held (map.get objects n) }
    ensures counts { (rest : DiskRest) (work : List ℕ) (objects : Objects) (pending : List ℕ) (n : ℕ) → IsDisk rest work objects pending →
        counts_at rest work n ≡ count_held (map.get objects n) }
{}

/// A record that is put is the object of its name, and no other name's object changes.
pub fn a_put_changes_one_name()
    ensures { (rest now : DiskRest) (work after : List ℕ) (objects : Objects) (pending left : List ℕ) (r : RawRecord) (count : ℕ) → IsDisk rest work objects pending →
        IsDisk now after (map.insert objects r.name (object_of r count)) left → objects_at now after ≡ put (objects_at rest work) r.name (Some (object_in r)) }
{}
