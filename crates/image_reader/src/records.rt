// Records, one after the other from Image to the disk.
ghost use Rattle.std.specs.Prelude.{◌≡◌, ◌+◌, ◌≤◌, ◌<◌, ◌^◌, [], IsTrue, All, OnOk, IfOk, IfErr, length};
ghost use Rattle.long_names.specs.declared.limits.TheConstants.{LONGEST_RECORD};
ghost use Rattle.disk_objects.specs.Calls.{HoldsObjects};
ghost use Rattle.disk_objects.specs.Disk.{disk_held, disk_room};
ghost use Rattle.image_format.specs.Reading.{name_at};
ghost use Rattle.image_format.specs.Rules.{next_record_at, records_at};
ghost use Rattle.image_format.specs.declared.head.TheConstants.{MOST_OBJECTS};
ghost use Rattle.image_reader.specs.Frames.{IsHalted, IsLoading, IsPartFault};
ghost use Rattle.image_reader.specs.Inside as inside;
ghost use Rattle.image_reader.specs.Inside.{IsNext, IsRuleFault, IsTaken, name_in, TakesRecord, TakesRecords};
ghost use Rattle.image_reader.specs.Loaded.{IsStored};
ghost use Rattle.image_reader.specs.Window.{EndsTruly, file_end, unused};

use crate::fault::{LoadFault, fault_at};
use crate::window::Window;
use disk_objects::DiskObjects;
use image_format::{Opening, RecMeasure, measure_rec};
use long_names::{Name, NameList};
use loom_host::{Host, Role};
use object_record::RecordBuf;
use std::alloc::{AllocError, Global};

/// The names of the records that were read, and beside each the count that its record states.
#[derive(Drop)]
pub(crate) struct Listed {
    pub(crate) names: NameList,
    pub(crate) stated: Vec<u64>,
}

impl Listed {
    ghost use Rattle.std.specs.Prelude.{◌++◌, ◌∷◌};

    /// Notes what a record states.
    fn push(&mut self, measure: &RecMeasure) -> Result<(), AllocError>
        ensures names { OnOk result (self.new.names ≡ self.old.names ++ measure.now.name ∷ []) }
        ensures stated { OnOk result (self.new.stated.items ≡ self.old.stated.items ++ measure.now.count ∷ []) }
    {
        self.names.push(measure.name)?;
        self.stated.push(measure.count)?;
        Ok(())
    }
}

/// The name that the bytes begin with, if they begin with one.
#[tactic(auto, unfolding(image_format::specs::Reading::name_at, image_format::specs::Reading::number_at, image_format::specs::Reading::octets_at))]
fn front_name(bytes: &[u8]) -> Option<Name>
    ensures { result ≡ name_in (name_at 4 bytes.now) }
{
    if bytes.len() < 4 {
        return None;
    }
    let (front, _) = bytes.split_at(4);
    Name::new(u32::from_be_bytes([front[0], front[1], front[2], front[3]]))
}

/// Whether the bytes begin with a name that isn't above the one before it and below the next name.
fn is_out_of_order(bytes: &[u8], last: u32, next: u32) -> bool
    ensures { result ≡ inside.is_out_of_order last next (name_in (name_at 4 bytes.now)) }
{
    match front_name(bytes) {
        Some(name) => !(last < name.get() && name.get() < next),
        None => false,
    }
}

/// What the record states that the bytes begin with, which stand at this place of the file, or the first rule that it breaks. Its name is
/// judged before the rest of it.
fn judge_record(bytes: &[u8], place: u64, last: u32, next: u32) -> Result<RecMeasure, LoadFault>
    requires far { place + 2 ^ 32 ≤ 2 ^ 64 }
    ensures next { IfOk result (IsNext last next bytes.now) }
    ensures halted { IfErr result (IsHalted (place + length bytes.now) (next_record_at last next bytes.now)) }
    ensures range { All (λ b. b < 2 ^ 8) bytes.now }
    ensures fault { IfErr result IsRuleFault }
{
    if is_out_of_order(bytes, last, next) {
        return Err(LoadFault::Bad { rule: 4, place });
    }
    match measure_rec(bytes) {
        Ok(measure) => Ok(measure),
        Err(fault) => Err(fault_at(place, fault)),
    }
}

/// Takes the record that the window begins with, and puts its bytes into the buffer. What it states is the answer.
fn take_record(
    window: &mut Window,
    buf: &mut RecordBuf,
    last: u32,
    next: u32,
) -> Result<RecMeasure, LoadFault>
    requires far { window.old.place + 2 ^ 32 ≤ 2 ^ 64 }
    ensures taken { IfOk result (IsTaken last next window.old.bytes window.new.bytes buf.new) }
    ensures end { OnOk result (window.new.place + length window.new.bytes ≡ window.old.place + length window.old.bytes) }
    ensures near { OnOk result (window.new.place ≤ window.old.place + LONGEST_RECORD) }
    ensures ended { window.new.ended ≡ window.old.ended }
    ensures halted { IfErr result (IsHalted (window.old.place + length window.old.bytes) (next_record_at last next window.old.bytes)) }
    ensures range { All (λ b. b < 2 ^ 8) window.old.bytes }
    ensures fault { IfErr result IsRuleFault }
{
    let measure = judge_record(window.bytes(), window.place(), last, next)?;
    buf.fill(&window.bytes()[..measure.len]);
    window.skip(measure.len);
    Ok(measure)
}

/// Reads the next record and puts it to the disk, with the count that it states. What it states is the answer.
fn take_next<H: Host>(
    disk: &mut DiskObjects<'_, H>,
    window: &mut Window,
    buf: &mut RecordBuf,
    last: u32,
    next: u32,
) -> Result<RecMeasure, LoadFault>
    requires ends { IsTrue (H.tells Role.Image) → EndsTruly window.old (H.roles disk.old.host.now Role.Image) }
    requires far { window.old.place + 2 ^ 32 ≤ 2 ^ 64 }
    requires stands { HoldsObjects H.Host disk.old.host.now disk.old.rest }
    requires room { disk_held disk.old.rest < disk_room disk.old.rest }
    ensures takes { IfOk result (λ m. TakesRecord H.Host disk.old.host.now disk.new.host.now disk.old.rest disk.new.rest window.old window.new last next m.name m.count) }
    ensures ends { IsTrue (H.tells Role.Image) → OnOk result (EndsTruly window.new (H.roles disk.new.host.now Role.Image)) }
    ensures halted { IsTrue (H.tells Role.Image) → IfErr result (IsHalted (file_end window.old (H.roles disk.old.host.now Role.Image).left) (next_record_at last next (unused window.old (H.roles disk.old.host.now Role.Image)))) }
    ensures loading { IsLoading H.Host disk.old.host.now disk.new.host.now }
    ensures fault { IfErr result (IsPartFault H.Host disk.old.host.now disk.new.host.now) }
    ensures room { disk_room disk.new.rest ≡ disk_room disk.old.rest }
    ensures same_host { disk.new.host.ghost_name ≡ disk.old.host.ghost_name }
{
    window.fill(disk)?;
    let measure = take_record(window, buf, last, next)?;
    disk.put(buf, measure.count)?;
    Ok(measure)
}

/// Reads so many records and puts them to the disk. Their names and the counts that they state are the answer.
pub(crate) fn read_records<H: Host>(
    alloc: Global,
    disk: &mut DiskObjects<'_, H>,
    window: &mut Window,
    opening: &Opening,
) -> Result<Listed, LoadFault>
    requires ends { IsTrue (H.tells Role.Image) → EndsTruly window.old (H.roles disk.old.host.now Role.Image) }
    requires start { window.old.place ≤ 36 }
    requires empty { IsTrue (H.tells Role.Work) → IsStored H.Host disk.old.host.now disk.old.rest [] }
    requires none { disk_held disk.old.rest ≡ 0 }
    requires fits { opening.now.objects ≤ disk_room disk.old.rest }
    requires few { opening.now.objects ≤ MOST_OBJECTS }
    ensures takes { IfOk result (λ x. TakesRecords H.Host disk.old.host.now disk.new.host.now disk.new.rest window.old window.new opening.now.objects opening.now.next x.names x.stated.items) }
    ensures ends { IsTrue (H.tells Role.Image) → OnOk result (EndsTruly window.new (H.roles disk.new.host.now Role.Image)) }
    ensures halted { IsTrue (H.tells Role.Image) → IfErr result (IsHalted (file_end window.old (H.roles disk.old.host.now Role.Image).left) (records_at opening.now.objects 0 opening.now.next (unused window.old (H.roles disk.old.host.now Role.Image)))) }
    ensures loading { IsLoading H.Host disk.old.host.now disk.new.host.now }
    ensures fault { IfErr result (IsPartFault H.Host disk.old.host.now disk.new.host.now) }
    ensures room { disk_room disk.new.rest ≡ disk_room disk.old.rest }
    ensures same_host { disk.new.host.ghost_name ≡ disk.old.host.ghost_name }
{
    let mut buf = RecordBuf::new(alloc)?;
    let mut listed = Listed {
        names: NameList::new(alloc),
        stated: Vec::new(alloc),
    };
    let mut last = 0;
    'records: for _ in 0..opening.objects {
        let measure = take_next(disk, window, &mut buf, last, opening.next)?;
        last = measure.name.get();
        listed.push(&measure)?;
    }
    Ok(listed)
}
