// Laws of what a memory holds. No code calls these functions: what each of them ensures is the law.
ghost use Rattle.std.specs.Prelude.{◌≤◌, ◌+◌, ◌*◌, IfSome};
ghost use Rattle.loom_memory.specs.Memory.{loom_told, IsSound};
ghost use Rattle.memory_size.specs.Held.{CONSTANT, ENTRY, WORD, held_by};
ghost use Rattle.memory_size.specs.Fields.{IsAllOf, IsAllOfCore, IsAllOfDisk};

use loom_host::Host;
use loom_memory::LoomMemory;

/// A sound memory holds at most two bytes for each word of its core, so many for each entry, and a constant. The two sizes are those that it tells,
/// which stay through every call.
pub fn a_memory_is_small<'h, H: Host>(memory: &LoomMemory<'h, H>)
    requires sound { IsSound H.Host memory.now }
    ensures small { IfSome (loom_told H.Host memory.now).bounds (λ b. held_by memory.now ≤ WORD * b.core + ENTRY * b.entries + CONSTANT) }
{
    let _ = memory;
}

/// The fields that are counted are all that there are.
pub fn nothing_else_is_held<'h, H: Host>(memory: &LoomMemory<'h, H>)
    ensures memory { IsAllOf memory.now }
    ensures core { IsAllOfCore memory.now.pager.levels.parts }
    ensures disk { IsAllOfDisk memory.now.pager.levels.disk.rest }
{
    let _ = memory;
}
