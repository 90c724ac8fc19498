// What is kept of a memory's heap is saved.
ghost use Rattle.std.specs.Prelude.{◌≡◌, IsTrue};
ghost use Rattle.long_names.specs.Heap.{Heap};
ghost use Rattle.long_names.specs.Kept.{kept, no_roots};
ghost use Rattle.loom_host.specs.declared.outside.Role.TheVariants.{Work};
ghost use Rattle.image_writer.specs.Puts.{Puts};
ghost use Rattle.image_writer.specs.Saved.{saved_text};
ghost use Rattle.image_memory.specs.Image.{HasEnded};

use disk_objects::DiskObjects;
use image_format::State;
use image_writer::{SaveFault, save};
use loom_host::Host;
use std::alloc::Global;

/// Puts the image of the objects that are kept with no roots to Saved, which is attached: of version 2, with their exact counts, the next name,
/// and this state, of which a name that isn't kept is left out, and the tick with its timer. After a refusal a prefix of the image was put.
pub fn save_kept<H: Host>(
    alloc: Global,
    disk: &mut DiskObjects<'_, H>,
    next: u32,
    state: &State,
) -> Result<(), SaveFault>
    requires ended { IsTrue (H.tells Work) → (h : Heap) × HasEnded H.Host disk.old.host.now disk.old.rest next h }
    ensures saved { (h : Heap) → (IsTrue (H.tells Work) → HasEnded H.Host disk.old.host.now disk.old.rest next h)
        → Puts H.Host disk.old.host.now disk.new.host.now (saved_text (kept h no_roots) state.now) result }
    ensures rest { disk.new.rest ≡ disk.old.rest }
    ensures same_host { disk.new.host.ghost_name ≡ disk.old.host.ghost_name }
{
    save(alloc, disk, next, state)
}
