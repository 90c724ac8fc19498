// Laws of an image on a disk. No code calls these functions: what each of them ensures is the law.
ghost use Rattle.std.specs.Prelude.{◌≡◌, ◌<◌, ◌^◌, ℕ, Bool, IsTrue, All};
ghost use Rattle.long_names.specs.Heap.{Heap};
ghost use Rattle.long_names.specs.Kept.{kept, no_roots};
ghost use Rattle.loom_host.specs.declared.outside.Role.TheVariants.{Image, Work};
ghost use Rattle.image_format.specs.Rules as rules;
ghost use Rattle.image_format.specs.Valid.{IsImageHeap};
ghost use Rattle.disk_objects.specs.declared.rest.DiskRest.{DiskRest};
ghost use Rattle.disk_objects.specs.Calls.{HoldsObjects};
ghost use Rattle.image_reader.specs.declared.loading.Loaded.{Loaded as Stated};
ghost use Rattle.image_reader.specs.Loaded.{IsLoadedHeap, Loads, heap_on};
ghost use Rattle.image_writer.specs.Saved.{IsExact, disk_heap};
ghost use Rattle.purger.specs.Closing.{HasKept};
ghost use Rattle.loom_memory.specs.Beginning.{HasLoaded, IsLoaded};
ghost use Rattle.loom_memory.specs.declared.memory.LoomMemory.{LoomMemory as Memory};
ghost use Rattle.loom_memory.specs.Memory.{loom_told, IsSound};
ghost use Rattle.image_memory.specs.Image.{HasEnded, HasImage, IsTextOf};

use loom_host::Host;

/// A disk to which an image was loaded has the image.
pub fn a_loaded_image_is_on_the_disk<H: Host>()
    ensures { (before now : H) (room : ℕ) (rest : DiskRest) (x : Stated) (image : rules.Image) → Loads H.Host before now room rest image
        → x.next ≡ image.head.opening.next → x.state ≡ image.head.state → (IsTrue (H.tells Work) → IsLoadedHeap H.Host now rest x.next)
        → HasImage H.Host now rest x }
{}

/// Where the host tells Image too, its bytes are the text of the heap that is on the disk then, with the state that was stated.
pub fn the_bytes_are_the_image<H: Host>()
    ensures { (before now : H) (room : ℕ) (rest : DiskRest) (x : Stated) (image : rules.Image) → IsTrue (H.tells Image) → IsTrue (H.tells Work)
        → Loads H.Host before now room rest image → x.next ≡ image.head.opening.next → x.state ≡ image.head.state
        → All (λ b. b < 2 ^ 8) (H.roles before Image).left → IsTextOf (H.roles before Image).left (heap_on H.Host now rest x.next) x.state }
{}

/// A memory may begin over a disk that has an image, and its heap is the image's.
pub fn a_memory_may_begin<H: Host>()
    ensures loaded { (now : H) (rest : DiskRest) (x : Stated) → HasImage H.Host now rest x → HasLoaded H.Host now rest x.next }
    ensures heap { (now : H) (rest : DiskRest) (x : Stated) → IsTrue (H.tells Work) → HasImage H.Host now rest x
        → IsLoaded H.Host now rest (heap_on H.Host now rest x.next) }
{}

/// A disk that has an image may be saved as it is.
pub fn a_loaded_image_can_be_saved<H: Host>()
    ensures holds { (now : H) (rest : DiskRest) (x : Stated) → HasImage H.Host now rest x → HoldsObjects H.Host now rest }
    ensures exact { (now : H) (rest : DiskRest) (x : Stated) → IsTrue (H.tells Work) → HasImage H.Host now rest x → IsExact H.Host now rest x.next }
{}

/// All objects of an image are kept, whatever the roots are.
pub fn an_image_is_kept()
    ensures { (h : Heap) (root : ℕ → Bool) → IsImageHeap h → kept h root ≡ h }
{}

/// A memory that was wound up has ended over its disk, with the heap that was told before.
pub fn a_memory_ends<H: Host>()
    ensures { (m : Memory H H.Host) (now : H) (rest : DiskRest) (next : ℕ) → IsTrue (H.tells Work) → IsSound H.Host m
        → HasKept H.Host now rest (loom_told H.Host m).heap → next ≡ m.ledger.next → HasEnded H.Host now rest next (loom_told H.Host m).heap }
{}

/// Where a memory has ended, the disk may be saved, and its heap is what is kept with no roots.
pub fn what_is_kept_can_be_saved<H: Host>()
    ensures holds { (now : H) (rest : DiskRest) (next : ℕ) (h : Heap) → HasEnded H.Host now rest next h → HoldsObjects H.Host now rest }
    ensures exact { (now : H) (rest : DiskRest) (next : ℕ) (h : Heap) → HasEnded H.Host now rest next h → IsExact H.Host now rest next }
    ensures heap { (now : H) (rest : DiskRest) (next : ℕ) (h : Heap) → HasEnded H.Host now rest next h → disk_heap H.Host now rest next ≡ kept h no_roots }
{}

/// Where a memory that was sound has ended, what is kept of its heap is the heap of an image: the next name is of 32 bits, and a disk has no
/// room for more objects than an image may have.
pub fn what_is_kept_is_an_image<H: Host>()
    ensures { (m : Memory H H.Host) (now : H) (rest : DiskRest) (next : ℕ) → IsTrue (H.tells Work) → IsSound H.Host m → HasEnded H.Host now rest next (loom_told H.Host m).heap
        → next < 2 ^ 32 → IsImageHeap (kept (loom_told H.Host m).heap no_roots) }
{}

/// What is done with other roles leaves what is on the disk.
pub fn other_roles_leave_the_disk<H: Host>()
    ensures image { (before now : H) (rest after : DiskRest) (x : Stated) → H.roles now Work ≡ H.roles before Work → after ≡ rest
        → HasImage H.Host before rest x → HasImage H.Host now after x }
    ensures ended { (before now : H) (rest after : DiskRest) (next : ℕ) (h : Heap) → H.roles now Work ≡ H.roles before Work → after ≡ rest
        → HasEnded H.Host before rest next h → HasEnded H.Host now after next h }
{}
