// Loading an image.
ghost use Rattle.std.specs.Prelude.{◌≡◌, ◌<◌, ◌^◌, ℕ, [], IsTrue, OnOk, IfOk, IfErr, length};
ghost use Rattle.std.specs.FinMap as map;
ghost use Rattle.disk_objects.specs.Disk.{IsDisk, disk_held, disk_room};
ghost use Rattle.loom_host.specs.Work.{work_of};
ghost use Rattle.image_format.specs.Rules as rules;
ghost use Rattle.image_reader.specs.Frames.{IsLoading};
ghost use Rattle.image_reader.specs.Judged.{IsReadFault, ReadsRecords};
ghost use Rattle.image_reader.specs.Loaded.{IsLoadFault, IsLoadedHeap, Loads};
ghost use Rattle.image_reader.specs.declared.fault.LoadFault.TheVariants as fault;

use crate::fault::LoadFault;
use crate::head::take_head;
use crate::judging::judge;
use crate::records::{Listed, read_records};
use crate::window::Window;
use disk_objects::DiskObjects;
use image_format::{ImageHead, State};
use loom_host::{Host, Role};
use std::alloc::Global;

/// What an image states that was loaded: how many objects it has, the next name, and the machine's state.
#[derive(Clone, Copy, Debug, PartialEq, Eq)]
pub struct Loaded {
    pub objects: u32,
    pub next: u32,
    pub state: State,
}

/// Judges that the file ends where the window stands (rule 9).
fn judge_end(window: &Window) -> Result<(), LoadFault>
    ensures ok { OnOk result (window.now.bytes ≡ []) }
    ensures bad { IfErr result (λ f. (f ≡ fault.Bad 9 window.now.place) × (0 < length window.now.bytes)) }
{
    if window.is_empty() {
        return Ok(());
    }
    Err(LoadFault::Bad {
        rule: 9,
        place: window.place(),
    })
}

/// Reads the head and the records, and puts these to the disk. The names and the counts that are stated are the answer, beside the head.
fn read_image<H: Host>(
    alloc: Global,
    disk: &mut DiskObjects<'_, H>,
    room: u32,
) -> Result<(ImageHead, Listed), LoadFault>
    requires room { room ≡ disk_room disk.old.rest }
    requires empty { IsTrue (H.tells Role.Work) → IsDisk disk.old.rest (work_of H.Host disk.old.host.now) map.empty [] }
    requires none { disk_held disk.old.rest ≡ 0 }
    ensures reads { IfOk result (λ x. ReadsRecords H.Host disk.old.host.now disk.new.host.now room disk.new.rest x.0 x.1.names x.1.stated.items) }
    ensures loading { IsLoading H.Host disk.old.host.now disk.new.host.now }
    ensures kept { disk_room disk.new.rest ≡ disk_room disk.old.rest }
    ensures same_host { disk.new.host.ghost_name ≡ disk.old.host.ghost_name }
    ensures fault { IfErr result (IsReadFault H.Host disk.old.host.now disk.new.host.now room) }
{
    let mut window = Window::new(alloc);
    window.fill(disk)?;
    let head = take_head(&mut window, room)?;
    let listed = read_records(alloc, disk, &mut window, &head.opening)?;
    window.fill(disk)?;
    judge_end(&window)?;
    Ok((head, listed))
}

/// Loads Image to the disk, record by record, and says which rule breaks first, and where, if one does. It takes memory for one record, a
/// window, and the names, each with the count that is stated and the one that is found.
///
/// Its condition is that Image is attached and the disk is as `begin` made it with this room. After Ok the disk holds the image's objects
/// with their counts, which are exact, and none is pending; Image was read to its end.
pub fn load<H: Host>(
    alloc: Global,
    disk: &mut DiskObjects<'_, H>,
    room: u32,
) -> Result<Loaded, LoadFault>
    requires room { room ≡ disk_room disk.old.rest }
    requires empty { IsTrue (H.tells Role.Work) → IsDisk disk.old.rest (work_of H.Host disk.old.host.now) map.empty [] }
    requires none { disk_held disk.old.rest ≡ 0 }
    ensures loads { IfOk result (λ x. (image : rules.Image) × Loads H.Host disk.old.host.now disk.new.host.now room disk.new.rest image
        × (x.objects ≡ image.head.opening.objects) × (x.next ≡ image.head.opening.next) × (x.state ≡ image.head.state)) }
    ensures heap { IsTrue (H.tells Role.Work) → IfOk result (λ x. IsLoadedHeap H.Host disk.new.host.now disk.new.rest x.next) }
    ensures loading { IsLoading H.Host disk.old.host.now disk.new.host.now }
    ensures kept { disk_room disk.new.rest ≡ disk_room disk.old.rest }
    ensures same_host { disk.new.host.ghost_name ≡ disk.old.host.ghost_name }
    ensures fault { IfErr result (IsLoadFault H.Host disk.old.host.now disk.new.host.now room) }
{
    let (head, listed) = read_image(alloc, disk, room)?;
    judge(alloc, disk, listed, &head.state)?;
    Ok(Loaded {
        objects: head.opening.objects,
        next: head.opening.next,
        state: head.state,
    })
}
