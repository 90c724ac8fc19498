// Memories of what a builder has.
ghost use Rattle.std.specs.Prelude.{◌≡◌, IfOk, None};
ghost use Rattle.object_memory.specs.Told.{IsReady};
ghost use Rattle.object_memory.specs.Plain.{plain_told, fresh};
ghost use Rattle.image_format.specs.Valid.{IsImageHeap};
ghost use Rattle.image_builder.specs.Builder.{objects_of, built_heap, Tells, IsRefused};
ghost use Rattle.image_builder.specs.Rules.{first_broken};

use image_builder::{BuildFault, Builder};
use object_memory::PlainMemory;
use std::alloc::Global;

/// The memory of the objects that were added, with this next name: every register holds 0, and nothing is pinned. It is refused as the
/// builder refuses it.
pub fn memory(alloc: Global, builder: &Builder, next: u32) -> Result<PlainMemory, BuildFault>
    ensures told { IfOk result (λ memory. plain_told memory ≡ fresh (built_heap builder.now next)) }
    ensures ready { IfOk result (λ memory. IsReady (plain_told memory)) }
    ensures slots { IfOk result (λ memory. (plain_told memory).slots ≡ (λ i. None)) }
    ensures broken { Tells result (first_broken (objects_of builder.now) (built_heap builder.now next)) }
    ensures refused { IsRefused result → IsImageHeap (built_heap builder.now next) → ⊥ }
{
    let recs = builder.records(alloc, next)?;
    let memory = PlainMemory::from_recs(alloc, &recs, next)?;
    Ok(memory)
}
