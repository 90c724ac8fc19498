// Listing a disk.
ghost use Rattle.std.specs.Prelude.{◌≡◌, ◌-◌, ◌^◌, ◌++◌, IsTrue, All, length};
ghost use Rattle.std.specs.List.{flat_map};
ghost use Rattle.long_names.specs.Heap.{Heap, Has, IsBounded};
ghost use Rattle.long_names.specs.declared.object.Kind.TheVariants.{Method};
ghost use Rattle.loom_host.specs.declared.outside.DiskFault.TheVariants as disk_fault;
ghost use Rattle.loom_host.specs.declared.outside.Role.{Role};
ghost use Rattle.object_record.specs.Buffer.{HasRecord, raw_of};
ghost use Rattle.object_record.specs.Objects.{object_in};
ghost use Rattle.object_record.specs.Raw.{raw_kind};
ghost use Rattle.disk_objects.specs.Calls.{HoldsObjects};
ghost use Rattle.disk_objects.specs.Function.{disk_of};
ghost use Rattle.image_writer.specs.Inside.{Gathers};
ghost use Rattle.image_writer.specs.Puts.{Puts};
ghost use Rattle.image_writer.specs.Saved.{disk_heap};
ghost use Rattle.image_writer.specs.declared.fault.SaveFault.TheVariants as fault;
ghost use Rattle.image_text.specs.Items.{spaced_contents, item_text, items_of};
ghost use Rattle.text_lines.specs.Spelling.{head_parts, heap_text, line_of, name_line, object_parts};

use crate::spelling::{Items, first_line, item_part, object_head, value_part};
use disk_objects::DiskObjects;
use image_format::State;
use image_writer::{Gathered, SaveFault, flush, names_of, put};
use long_names::{Kind, Name, NameList};
use loom_host::{DiskFault, Host, Role};
use object_record::RecordBuf;
use std::alloc::Global;

/// Puts the items of the buffer's object, each with a space before it.
fn put_items<H: Host>(
    disk: &mut DiskObjects<'_, H>,
    gathered: &mut Gathered,
    buf: &RecordBuf,
    items: Items,
    count: u32,
) -> Result<(), SaveFault>
    requires record { HasRecord buf.now }
    requires count { count ≡ length (items_of items (raw_of buf.now).body) }
    ensures gathers { Gathers H.Host disk.old.host.now disk.new.host.now gathered.old gathered.new (flat_map (item_text items) (items_of items (raw_of buf.now).body)) result }
    ensures rest { disk.new.rest ≡ disk.old.rest }
    ensures same_host { disk.new.host.ghost_name ≡ disk.old.host.ghost_name }
{
    for i in 0..count {
        let part = item_part(buf, items, i);
        put(disk, gathered, part.as_str().as_bytes())?;
    }
    Ok(())
}

/// Puts the header, the literals and the code of the buffer's method.
fn put_method<H: Host>(
    disk: &mut DiskObjects<'_, H>,
    gathered: &mut Gathered,
    buf: &RecordBuf,
) -> Result<(), SaveFault>
    requires record { HasRecord buf.now }
    requires method { raw_kind (raw_of buf.now).body ≡ Method }
    ensures gathers { Gathers H.Host disk.old.host.now disk.new.host.now gathered.old gathered.new (spaced_contents (raw_of buf.now).body) result }
    ensures rest { disk.new.rest ≡ disk.old.rest }
    ensures same_host { disk.new.host.ghost_name ≡ disk.old.host.ghost_name }
{
    let header = value_part(buf.header());
    put(disk, gathered, header.as_str().as_bytes())?;
    put_items(disk, gathered, buf, Items::Values, buf.literals())?;
    put(disk, gathered, b" code")?;
    put_items(disk, gathered, buf, Items::Bytes, buf.len())
}

/// Puts the contents of the buffer's object.
fn put_contents<H: Host>(
    disk: &mut DiskObjects<'_, H>,
    gathered: &mut Gathered,
    buf: &RecordBuf,
) -> Result<(), SaveFault>
    requires { HasRecord buf.now }
    ensures gathers { Gathers H.Host disk.old.host.now disk.new.host.now gathered.old gathered.new (spaced_contents (raw_of buf.now).body) result }
    ensures rest { disk.new.rest ≡ disk.old.rest }
    ensures same_host { disk.new.host.ghost_name ≡ disk.old.host.ghost_name }
{
    match buf.kind() {
        Kind::Pointers => put_items(disk, gathered, buf, Items::Values, buf.len()),
        Kind::Words => put_items(disk, gathered, buf, Items::Words, buf.len()),
        Kind::Bytes => put_items(disk, gathered, buf, Items::Bytes, buf.len()),
        Kind::Method => put_method(disk, gathered, buf),
    }
}

/// Puts the line of the buffer's object.
fn put_line<H: Host>(
    disk: &mut DiskObjects<'_, H>,
    gathered: &mut Gathered,
    buf: &RecordBuf,
) -> Result<(), SaveFault>
    requires { HasRecord buf.now }
    ensures gathers { Gathers H.Host disk.old.host.now disk.new.host.now gathered.old gathered.new (line_of (object_parts (raw_of buf.now).name (object_in (raw_of buf.now)))) result }
    ensures rest { disk.new.rest ≡ disk.old.rest }
    ensures same_host { disk.new.host.ghost_name ≡ disk.old.host.ghost_name }
{
    let head = object_head(buf);
    put(disk, gathered, head.as_str().as_bytes())?;
    put_contents(disk, gathered, buf)?;
    put(disk, gathered, b"\n")
}

/// A name that the disk told, and of which it tells no record.
fn lost(name: Name) -> SaveFault
    ensures { result ≡ fault.Disk (disk_fault.Damaged (2 ^ 64 - 1) name) }
{
    SaveFault::Disk(DiskFault::Damaged {
        place: u64::MAX,
        name: name.get(),
    })
}

/// Puts the line of a name.
fn put_object<H: Host>(
    disk: &mut DiskObjects<'_, H>,
    gathered: &mut Gathered,
    buf: &mut RecordBuf,
    name: Name,
) -> Result<(), SaveFault>
    requires stands { HoldsObjects H.Host disk.old.host.now disk.old.rest }
    ensures gathers { (h : Heap) → (IsTrue (H.tells Role.Work) → (h.at ≡ disk_of H.Host disk.old.host.now disk.old.rest) × Has h name)
        → Gathers H.Host disk.old.host.now disk.new.host.now gathered.old gathered.new (name_line h name) result }
    ensures work { H.roles disk.new.host.now Role.Work ≡ H.roles disk.old.host.now Role.Work }
    ensures rest { disk.new.rest ≡ disk.old.rest }
    ensures same_host { disk.new.host.ghost_name ≡ disk.old.host.ghost_name }
{
    let held = disk.get(name, buf)?;
    if held {
        put_line(disk, gathered, buf)
    } else {
        Err(lost(name))
    }
}

/// Puts the lines of these names.
fn put_objects<H: Host>(
    disk: &mut DiskObjects<'_, H>,
    gathered: &mut Gathered,
    names: &NameList,
    buf: &mut RecordBuf,
) -> Result<(), SaveFault>
    requires stands { HoldsObjects H.Host disk.old.host.now disk.old.rest }
    ensures gathers { (h : Heap) → (IsTrue (H.tells Role.Work) → (h.at ≡ disk_of H.Host disk.old.host.now disk.old.rest) × All (Has h) names.now)
        → Gathers H.Host disk.old.host.now disk.new.host.now gathered.old gathered.new (flat_map (name_line h) names.now) result }
    ensures rest { disk.new.rest ≡ disk.old.rest }
    ensures same_host { disk.new.host.ghost_name ≡ disk.old.host.ghost_name }
{
    for i in 0..names.len() {
        let name = *names.item(i);
        put_object(disk, gathered, buf, name)?;
    }
    Ok(())
}

/// Puts the first line, and the lines of these names.
fn put_text<H: Host>(
    disk: &mut DiskObjects<'_, H>,
    next: u32,
    state: &State,
    names: &NameList,
    buf: &mut RecordBuf,
) -> Result<(), SaveFault>
    requires stands { HoldsObjects H.Host disk.old.host.now disk.old.rest }
    ensures puts { (h : Heap) → (IsTrue (H.tells Role.Work) → (h.at ≡ disk_of H.Host disk.old.host.now disk.old.rest) × All (Has h) names.now)
        → Puts H.Host disk.old.host.now disk.new.host.now (line_of (head_parts next state.now) ++ flat_map (name_line h) names.now) result }
    ensures rest { disk.new.rest ≡ disk.old.rest }
    ensures same_host { disk.new.host.ghost_name ≡ disk.old.host.ghost_name }
{
    let mut gathered = Gathered::new();
    let line = first_line(next, state);
    put(disk, &mut gathered, line.as_str().as_bytes())?;
    put_objects(disk, &mut gathered, names, buf)?;
    flush(disk, &mut gathered)
}

/// Puts the text of the disk's objects and of this state to Saved, which is attached: a line for the next name and the state, and a line
/// for each object, by rising name. After a refusal a prefix of the text was put. It takes memory for one record and for the names.
///
/// Its condition is that names are below the next name.
pub fn list<H: Host>(
    alloc: Global,
    disk: &mut DiskObjects<'_, H>,
    next: u32,
    state: &State,
) -> Result<(), SaveFault>
    requires stands { HoldsObjects H.Host disk.old.host.now disk.old.rest }
    requires bounded { IsTrue (H.tells Role.Work) → IsBounded (disk_heap H.Host disk.old.host.now disk.old.rest next) }
    ensures listed { Puts H.Host disk.old.host.now disk.new.host.now (heap_text (disk_heap H.Host disk.old.host.now disk.old.rest next) state.now) result }
    ensures rest { disk.new.rest ≡ disk.old.rest }
    ensures same_host { disk.new.host.ghost_name ≡ disk.old.host.ghost_name }
{
    let names = names_of(alloc, disk)?;
    let mut buf = RecordBuf::new(alloc)?;
    put_text(disk, next, state, &names, &mut buf)
}
