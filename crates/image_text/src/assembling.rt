// Assembling a text.
ghost use Rattle.std.specs.Prelude.{◌≡◌, [], true, IsTrue, OnOk, IfOk, IfErr};
ghost use Rattle.std.specs.FinMap as map;
ghost use Rattle.disk_objects.specs.Disk.{IsDisk, Objects, disk_held, disk_room};
ghost use Rattle.loom_host.specs.Work.{work_of};
ghost use Rattle.image_format.specs.declared.head.TheConstants.{MOST_OBJECTS};
ghost use Rattle.image_format.specs.Heads.{is_next};
ghost use Rattle.image_format.specs.Rules.{IsState};
ghost use Rattle.image_reader.specs.Frames.{IsLoading};
ghost use Rattle.image_reader.specs.Loaded.{IsLoadedHeap, heap_on};
ghost use Rattle.image_text.specs.Assembled.{IsReadAs, IsTextFault};
ghost use Rattle.image_text.specs.Judged.{HasFits};
ghost use Rattle.image_text.specs.Lines.{head_read};
ghost use Rattle.text_lines.specs.Texts.{IsTextOf};

use crate::fault::TextFault;
use crate::judging::judge_text;
use crate::reading::read_text;
use disk_objects::DiskObjects;
use image_reader::Loaded;
use loom_host::{Host, Role};
use std::alloc::Global;
use text_lines::Head;

/// What was assembled: so many objects, and what the first line states.
fn loaded(objects: u32, head: Head) -> Loaded
    ensures objects { result.objects ≡ objects }
    ensures next { result.next ≡ head.next }
    ensures state { result.state ≡ head.state }
    ensures fits { HasFits (head_read head) }
{
    Loaded {
        objects,
        next: head.next,
        state: head.state,
    }
}

/// Reads the text of an image from Image, line by line, puts its objects to the disk, and counts their references. It takes memory for a
/// line, a record, and the names with a count each.
///
/// Its condition is that Image is attached and the disk is as `begin` made it with room for the most objects that an image has. After Ok
/// the text was that of the disk's heap and this state, the disk's counts are exact, none is pending, and Image was read to its end. Over
/// a host that doesn't tell Work, Ok says that the text is read as an image with this next name, this state and at least so many objects.
/// Bad comes exactly where the text is that of no heap and state: `text_break` says for which line and rule.
pub fn assemble<H: Host>(
    alloc: Global,
    disk: &mut DiskObjects<'_, H>,
    room: u32,
) -> Result<Loaded, TextFault>
    requires room { room ≡ disk_room disk.old.rest }
    requires most { room ≡ MOST_OBJECTS }
    requires empty { IsTrue (H.tells Role.Work) → IsDisk disk.old.rest (work_of H.Host disk.old.host.now) map.empty [] }
    requires none { disk_held disk.old.rest ≡ 0 }
    ensures text { IsTrue (H.tells Role.Image) → IsTrue (H.tells Role.Work) → IfOk result (λ x. IsTextOf (H.roles disk.old.host.now Role.Image).left (heap_on H.Host disk.new.host.now disk.new.rest x.next) x.state) }
    ensures stated { IsTrue (H.tells Role.Image) → IfOk result (λ x. IsReadAs (H.roles disk.old.host.now Role.Image).left x.objects x.next x.state) }
    ensures heap { IsTrue (H.tells Role.Work) → IfOk result (λ x. IsLoadedHeap H.Host disk.new.host.now disk.new.rest x.next) }
    ensures state { IsTrue (H.tells Role.Work) → IfOk result (λ x. IsState (heap_on H.Host disk.new.host.now disk.new.rest x.next) x.state) }
    ensures idle { IsTrue (H.tells Role.Work) → OnOk result ((objects : Objects) × IsDisk disk.new.rest (work_of H.Host disk.new.host.now) objects []) }
    ensures objects { IfOk result (λ x. x.objects ≡ disk_held disk.new.rest) }
    ensures next { IfOk result (λ x. is_next x.next ≡ true) }
    ensures end { IsTrue (H.tells Role.Image) → OnOk result ((H.roles disk.new.host.now Role.Image).left ≡ []) }
    ensures loading { IsLoading H.Host disk.old.host.now disk.new.host.now }
    ensures kept { disk_room disk.new.rest ≡ disk_room disk.old.rest }
    ensures same_host { disk.new.host.ghost_name ≡ disk.old.host.ghost_name }
    ensures fault { IfErr result (IsTextFault H.Host disk.old.host.now disk.new.host.now) }
{
    let (head, names) = read_text(alloc, disk)?;
    judge_text(alloc, disk, names, &head)?;
    Ok(loaded(disk.len(), head))
}
