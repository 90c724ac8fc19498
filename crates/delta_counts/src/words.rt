// The words of a record that is freed.
ghost use Rattle.std.specs.Prelude.{◌≡◌, ℕ, List, [], ◌∷◌, map, IsTrue, OnOk, IfErr};
ghost use Rattle.long_names.specs.Words.{IsValue};
ghost use Rattle.long_names.specs.declared.value.Value.{Value as Meaning};
ghost use Rattle.loom_host.specs.declared.outside.Role.{Role};
ghost use Rattle.loom_host.specs.Work.{IsWorkOnly};
ghost use Rattle.object_record.specs.Raw.{longs_of};
ghost use Rattle.object_record.specs.Buffer.{HasRecord, raw_of};
ghost use Rattle.object_record.specs.Objects.{value_in, object_in};
ghost use Rattle.disk_objects.specs.Calls.{IsFault};
ghost use Rattle.disk_objects.specs.Disk.{disk_room, disk_held};
ghost use Rattle.disk_objects.specs.Places.{IsSlotPlace};
ghost use Rattle.core_segment.specs.Chunks.{Chunk};
ghost use Rattle.core_view.specs.Levels.{Levels};
ghost use Rattle.core_view.specs.Counted.{IsSound, words_of};
ghost use Rattle.delta_counts.specs.Parts.{IsNames, IsCounting};
ghost use Rattle.delta_counts.specs.At.{IsAt, AtSome, Owes, IsSoundWith, IsReached};
ghost use Rattle.delta_counts.specs.Faults.{AreValues, IsWordsFault};

use crate::changes::lower;
use disk_objects::DiskObjects;
use long_names::{Name, Value, value_of};
use loom_host::{DiskFault, Host, Role};
use object_record::RecordBuf;
use resident_table::Parts2;

// One word less is this value, if it is a name.
#[inline(always)]
fn lower_value<H: Host>(
    p: &mut Parts2,
    disk: &mut DiskObjects<'_, H>,
    v: &Value,
) -> Result<(), DiskFault>
    requires names { IsNames p.old }
    requires sound { AtSome H.Host p.old disk.old.host.now disk.old.rest (Owes v.now) }
    ensures lowered { IsTrue (H.tells Role.Work) → (chunks : ℕ → Chunk) (t : Levels) (owed : List Meaning) →
        IsAt H.Host chunks p.old disk.old.host.now disk.old.rest t → IsSound t (v.now ∷ owed) →
        OnOk result (IsReached H.Host chunks p.new disk.new.host.now disk.new.rest t owed) }
    ensures counting { IsCounting p.old p.new }
    ensures held { disk_held disk.new.rest ≡ disk_held disk.old.rest }
    ensures room { disk_room disk.new.rest ≡ disk_room disk.old.rest }
    ensures work { IsWorkOnly H.Host disk.old.host.now disk.new.host.now }
    ensures same_host { disk.new.host.ghost_name ≡ disk.old.host.ghost_name }
    ensures fault { (place name : ℕ) → IfErr result (IsWordsFault (H.tells Role.Work) (H.faults disk.old.host.now Role.Work) (H.faults disk.new.host.now Role.Work) disk.old.rest (v.now ∷ []) place name) }
{
    match v.name() {
        Some(name) => lower(p, disk, name),
        None => Ok(()),
    }
}

// One word less is what this long word names, if it is a name. It stands in the record of this name at this place.
fn lower_long<H: Host>(
    p: &mut Parts2,
    disk: &mut DiskObjects<'_, H>,
    long: u32,
    place: u64,
    of: Name,
) -> Result<(), DiskFault>
    requires names { IsNames p.old }
    requires value { IsTrue (H.tells Role.Work) → IsValue (value_in long) }
    requires sound { AtSome H.Host p.old disk.old.host.now disk.old.rest (Owes (value_in long)) }
    ensures lowered { IsTrue (H.tells Role.Work) → (chunks : ℕ → Chunk) (t : Levels) (owed : List Meaning) →
        IsAt H.Host chunks p.old disk.old.host.now disk.old.rest t → IsSound t (value_in long ∷ owed) →
        OnOk result (IsReached H.Host chunks p.new disk.new.host.now disk.new.rest t owed) }
    ensures counting { IsCounting p.old p.new }
    ensures held { disk_held disk.new.rest ≡ disk_held disk.old.rest }
    ensures room { disk_room disk.new.rest ≡ disk_room disk.old.rest }
    ensures work { IsWorkOnly H.Host disk.old.host.now disk.new.host.now }
    ensures same_host { disk.new.host.ghost_name ≡ disk.old.host.ghost_name }
    ensures fault { IfErr result (IsWordsFault (H.tells Role.Work) (H.faults disk.old.host.now Role.Work) (H.faults disk.new.host.now Role.Work) disk.old.rest (value_in long ∷ []) place of) }
{
    match value_of(long) {
        Some(v) => lower_value(p, disk, &v),
        None => Err(DiskFault::Damaged {
            place,
            name: of.get(),
        }),
    }
}

// One word less for each name among the fields of the record, which stands at this place.
fn lower_fields<H: Host>(
    p: &mut Parts2,
    disk: &mut DiskObjects<'_, H>,
    buf: &RecordBuf,
    place: u64,
) -> Result<(), DiskFault>
    requires names { IsNames p.old }
    requires record { HasRecord buf.now }
    requires values { IsTrue (H.tells Role.Work) → AreValues (map value_in (longs_of (raw_of buf.now).body)) }
    requires sound { AtSome H.Host p.old disk.old.host.now disk.old.rest (IsSoundWith (map value_in (longs_of (raw_of buf.now).body))) }
    ensures lowered { IsTrue (H.tells Role.Work) → (chunks : ℕ → Chunk) (t : Levels) →
        IsAt H.Host chunks p.old disk.old.host.now disk.old.rest t → IsSound t (map value_in (longs_of (raw_of buf.now).body)) →
        OnOk result (IsReached H.Host chunks p.new disk.new.host.now disk.new.rest t []) }
    ensures counting { IsCounting p.old p.new }
    ensures held { disk_held disk.new.rest ≡ disk_held disk.old.rest }
    ensures room { disk_room disk.new.rest ≡ disk_room disk.old.rest }
    ensures work { IsWorkOnly H.Host disk.old.host.now disk.new.host.now }
    ensures same_host { disk.new.host.ghost_name ≡ disk.old.host.ghost_name }
    ensures fault { IfErr result (IsWordsFault (H.tells Role.Work) (H.faults disk.old.host.now Role.Work) (H.faults disk.new.host.now Role.Work) disk.old.rest (map value_in (longs_of (raw_of buf.now).body)) place (raw_of buf.now).name) }
{
    let name = buf.name();
    let count = buf.field_count();
    for i in 0..count {
        lower_long(p, disk, buf.long_field(i), place, name)?;
    }
    Ok(())
}

// One word less for the class of the record.
#[inline(always)]
fn lower_class<H: Host>(
    p: &mut Parts2,
    disk: &mut DiskObjects<'_, H>,
    buf: &RecordBuf,
) -> Result<(), DiskFault>
    requires names { IsNames p.old }
    requires record { HasRecord buf.now }
    requires sound { AtSome H.Host p.old disk.old.host.now disk.old.rest (IsSoundWith (words_of (object_in (raw_of buf.now)))) }
    ensures lowered { IsTrue (H.tells Role.Work) → (chunks : ℕ → Chunk) (t : Levels) →
        IsAt H.Host chunks p.old disk.old.host.now disk.old.rest t → IsSound t (words_of (object_in (raw_of buf.now))) →
        OnOk result (IsReached H.Host chunks p.new disk.new.host.now disk.new.rest t (map value_in (longs_of (raw_of buf.now).body))) }
    ensures counting { IsCounting p.old p.new }
    ensures held { disk_held disk.new.rest ≡ disk_held disk.old.rest }
    ensures room { disk_room disk.new.rest ≡ disk_room disk.old.rest }
    ensures work { IsWorkOnly H.Host disk.old.host.now disk.new.host.now }
    ensures same_host { disk.new.host.ghost_name ≡ disk.old.host.ghost_name }
    ensures fault { IfErr result (IsFault (H.tells Role.Work) (H.faults disk.old.host.now Role.Work) (H.faults disk.new.host.now Role.Work) (IsSlotPlace disk.old.rest) (raw_of buf.now).class) }
{
    lower(p, disk, buf.class())
}

/// One word less for the class and for each name among the fields of the record. Damage in a field is told with this place and the
/// record's name.
#[inline(always)]
pub fn lower_words<H: Host>(
    p: &mut Parts2,
    disk: &mut DiskObjects<'_, H>,
    buf: &RecordBuf,
    place: u64,
) -> Result<(), DiskFault>
    requires names { IsNames p.old }
    requires record { HasRecord buf.now }
    requires values { IsTrue (H.tells Role.Work) → AreValues (map value_in (longs_of (raw_of buf.now).body)) }
    requires sound { AtSome H.Host p.old disk.old.host.now disk.old.rest (IsSoundWith (words_of (object_in (raw_of buf.now)))) }
    ensures lowered { IsTrue (H.tells Role.Work) → (chunks : ℕ → Chunk) (t : Levels) →
        IsAt H.Host chunks p.old disk.old.host.now disk.old.rest t → IsSound t (words_of (object_in (raw_of buf.now))) →
        OnOk result (IsReached H.Host chunks p.new disk.new.host.now disk.new.rest t []) }
    ensures counting { IsCounting p.old p.new }
    ensures held { disk_held disk.new.rest ≡ disk_held disk.old.rest }
    ensures room { disk_room disk.new.rest ≡ disk_room disk.old.rest }
    ensures work { IsWorkOnly H.Host disk.old.host.now disk.new.host.now }
    ensures same_host { disk.new.host.ghost_name ≡ disk.old.host.ghost_name }
    ensures fault { IfErr result (IsWordsFault (H.tells Role.Work) (H.faults disk.old.host.now Role.Work) (H.faults disk.new.host.now Role.Work) disk.old.rest (words_of (object_in (raw_of buf.now))) place (raw_of buf.now).name) }
{
    lower_class(p, disk, buf)?;
    lower_fields(p, disk, buf, place)
}
