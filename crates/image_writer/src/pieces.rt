// The pieces of an image: bytes, records, and what is kept of the state.
ghost use Rattle.std.specs.Prelude.{◌≡◌, ◌-◌, ◌^◌, [], IsTrue, IfOk, IfErr, OnOk};
ghost use Rattle.long_names.specs.Heap.{Heap, Has};
ghost use Rattle.object_record.specs.Buffer.{HasRecord, raw_of};
ghost use Rattle.object_record.specs.Raw.{raw_text};
ghost use Rattle.disk_objects.specs.Calls.{HoldsObjects};
ghost use Rattle.disk_objects.specs.Disk.{with_count};
ghost use Rattle.disk_objects.specs.Function.{disk_of};
ghost use Rattle.loom_host.specs.Work.{IsWorkRead};
ghost use Rattle.image_writer.specs.Inside.{Gathers, IsHeapOf};
ghost use Rattle.image_writer.specs.Puts.{IsDiskFault, Puts, name_text};
ghost use Rattle.image_writer.specs.Saved as saved;
ghost use Rattle.image_writer.specs.declared.fault.SaveFault.TheVariants as fault;
ghost use Rattle.loom_host.specs.declared.outside.DiskFault.TheVariants as disk_fault;
ghost use Rattle.loom_host.specs.declared.outside.Role.{Role};

use crate::fault::SaveFault;
use crate::gathered::{Gathered, PIECE};
use disk_objects::DiskObjects;
use image_format::{State, bytes_of_u64};
use long_names::Name;
use loom_host::{DiskFault, Host, Role};
use object_record::{COUNT_AT, KIND_AT, RecordBuf};

/// Puts bytes to Saved.
fn write<H: Host>(disk: &mut DiskObjects<'_, H>, bytes: &[u8]) -> Result<(), SaveFault>
    ensures puts { Puts H.Host disk.old.host.now disk.new.host.now bytes.now result }
    ensures rest { disk.new.rest ≡ disk.old.rest }
    ensures same_host { disk.new.host.ghost_name ≡ disk.old.host.ghost_name }
{
    match disk.write_to(Role::Saved, bytes) {
        Ok(()) => Ok(()),
        Err(_) => Err(SaveFault::Write {
            count: disk.fault_count(Role::Saved),
        }),
    }
}

/// Puts what is gathered to Saved.
pub fn flush<H: Host>(
    disk: &mut DiskObjects<'_, H>,
    gathered: &mut Gathered,
) -> Result<(), SaveFault>
    ensures gathers { Gathers H.Host disk.old.host.now disk.new.host.now gathered.old [] [] result }
    ensures none { OnOk result (gathered.new ≡ []) }
    ensures rest { disk.new.rest ≡ disk.old.rest }
    ensures same_host { disk.new.host.ghost_name ≡ disk.old.host.ghost_name }
{
    write(disk, gathered.bytes())?;
    gathered.clear();
    Ok(())
}

/// Puts bytes to Saved, or gathers them where there is room, behind those that are gathered.
pub fn put<H: Host>(
    disk: &mut DiskObjects<'_, H>,
    gathered: &mut Gathered,
    bytes: &[u8],
) -> Result<(), SaveFault>
    ensures gathers { Gathers H.Host disk.old.host.now disk.new.host.now gathered.old gathered.new bytes.now result }
    ensures rest { disk.new.rest ≡ disk.old.rest }
    ensures same_host { disk.new.host.ghost_name ≡ disk.old.host.ghost_name }
{
    if bytes.len() <= gathered.room() {
        gathered.push(bytes);
        return Ok(());
    }
    flush(disk, gathered)?;
    if bytes.len() <= PIECE {
        gathered.push(bytes);
        return Ok(());
    }
    write(disk, bytes)
}

/// Puts the buffer's record with this count.
pub(crate) fn put_counted<H: Host>(
    disk: &mut DiskObjects<'_, H>,
    gathered: &mut Gathered,
    buf: &RecordBuf,
    count: u64,
) -> Result<(), SaveFault>
    requires { HasRecord buf.now }
    ensures gathers { Gathers H.Host disk.old.host.now disk.new.host.now gathered.old gathered.new (raw_text (with_count (raw_of buf.now) count)) result }
    ensures rest { disk.new.rest ≡ disk.old.rest }
    ensures same_host { disk.new.host.ghost_name ≡ disk.old.host.ghost_name }
{
    let bytes = buf.bytes();
    let (_, tail) = bytes.split_at(KIND_AT);
    put(disk, gathered, &bytes[..COUNT_AT])?;
    put(disk, gathered, &bytes_of_u64(count))?;
    put(disk, gathered, tail)
}

/// A name that the disk told, and of which it tells no record.
fn lost(name: Name) -> SaveFault
    ensures { result ≡ fault.Disk (disk_fault.Damaged (2 ^ 64 - 1) name) }
{
    SaveFault::Disk(DiskFault::Damaged {
        place: u64::MAX,
        name: name.get(),
    })
}

/// Puts the record of a name with its count.
pub(crate) fn put_record<H: Host>(
    disk: &mut DiskObjects<'_, H>,
    gathered: &mut Gathered,
    buf: &mut RecordBuf,
    name: Name,
) -> Result<(), SaveFault>
    requires stands { HoldsObjects H.Host disk.old.host.now disk.old.rest }
    ensures gathers { (h : Heap) → (IsTrue (H.tells Role.Work) → IsHeapOf H.Host disk.old.host.now disk.old.rest h × Has h name)
        → Gathers H.Host disk.old.host.now disk.new.host.now gathered.old gathered.new (name_text h name) result }
    ensures work { H.roles disk.new.host.now Role.Work ≡ H.roles disk.old.host.now Role.Work }
    ensures rest { disk.new.rest ≡ disk.old.rest }
    ensures same_host { disk.new.host.ghost_name ≡ disk.old.host.ghost_name }
{
    let Some(count) = disk.get_counted(name, buf)? else {
        return Err(lost(name));
    };
    put_counted(disk, gathered, buf, count)
}

/// A word of the state, 0 where the disk doesn't hold the name.
fn kept_word<H: Host>(disk: &mut DiskObjects<'_, H>, word: u32) -> Result<u32, DiskFault>
    requires stands { HoldsObjects H.Host disk.old.host.now disk.old.rest }
    ensures word { IsTrue (H.tells Role.Work) → IfOk result (λ kept. kept ≡ saved.kept_word (disk_of H.Host disk.old.host.now disk.old.rest) word) }
    ensures read { IsWorkRead H.Host disk.old.host.now disk.new.host.now }
    ensures fault { IfErr result (IsDiskFault H.Host disk.old.host.now disk.new.host.now) }
    ensures rest { disk.new.rest ≡ disk.old.rest }
    ensures same_host { disk.new.host.ghost_name ≡ disk.old.host.ghost_name }
{
    let Some(name) = Name::new(word) else {
        return Ok(0);
    };
    match disk.count(name)? {
        Some(_) => Ok(word),
        None => Ok(0),
    }
}

/// What is kept of the state: a name that the disk doesn't hold is left out, and the tick with its timer.
pub fn kept_state<H: Host>(disk: &mut DiskObjects<'_, H>, state: &State) -> Result<State, DiskFault>
    requires stands { HoldsObjects H.Host disk.old.host.now disk.old.rest }
    ensures state { IsTrue (H.tells Role.Work) → IfOk result (λ kept. kept ≡ saved.kept_state (disk_of H.Host disk.old.host.now disk.old.rest) state.now) }
    ensures read { IsWorkRead H.Host disk.old.host.now disk.new.host.now }
    ensures fault { IfErr result (IsDiskFault H.Host disk.old.host.now disk.new.host.now) }
    ensures rest { disk.new.rest ≡ disk.old.rest }
    ensures same_host { disk.new.host.ghost_name ≡ disk.old.host.ghost_name }
{
    let display = kept_word(disk, state.display)?;
    let input = kept_word(disk, state.input)?;
    let timer = kept_word(disk, state.timer)?;
    let tick = if timer == 0 { 0 } else { state.tick };
    Ok(State {
        clock: state.clock,
        display,
        input,
        timer,
        tick,
    })
}
