// Laws of accesses. No code calls these functions: what each of them ensures is the law.
ghost use Rattle.std.specs.Prelude.{IsOk};
ghost use Rattle.long_names.specs.Access.{Access, Answer};
ghost use Rattle.object_memory.specs.Told.{Told};
ghost use Rattle.object_memory.specs.Contract.{Accessed, Call, Refuses};
ghost use Rattle.object_memory.specs.declared.fault.MemFault.TheVariants.{Memory};
ghost use Rattle.loom_memory.specs.declared.memory.LoomMemory.{LoomMemory};
ghost use Rattle.loom_memory.specs.Memory.{loom_told};
ghost use Rattle.loom_memory.specs.Own.{IsAmple};

use loom_host::Host;
use object_memory::MemFault;

/// An access that has all that it asks for is answered: its rows fit the core, there are room and a name for what it makes, and no call
/// on Work or Transcript fails.
pub fn an_access_that_fits_is_answered<T>(answer: &Result<T, MemFault>)
    ensures { (old new : Told) (a : Access) (spell : T → Answer) → IsAmple old new a → Accessed old new a spell answer.now → IsOk answer.now }
{
    let _ = answer;
}

/// No call wants memory: over any host none is refused so.
pub fn no_call_wants_memory<H: Host>()
    ensures { (old : Told) (m : LoomMemory H H.Host) (call : Call) → Refuses old (loom_told H.Host m) call Memory → ⊥ }
{}
