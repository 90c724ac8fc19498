// A worked caller: generic in the memory, and proved from the clauses of the trait and of `shape` alone.
ghost use Rattle.std.specs.Prelude.{◌≡◌, ◌<◌, ◌+ℤ◌, pos, false, [], ◌∷◌, IsTrue, IfOk, IfErr, IfSome, Some};
ghost use Rattle.long_names.specs.Words.{IsSmallInteger};
ghost use Rattle.object_memory.specs.Calls.{IsFit, KeepsFit};
ghost use Rattle.object_memory.specs.Shape.{Looks};
ghost use Rattle.object_memory.specs.Caller.{IsBumped};

use crate::{MemFault, ObjectMemory, Reg, shape};
use long_names::SMALL_INTEGERS;

/// The next SmallInteger.
fn next_number(number: i16) -> Option<i16>
    requires { IsSmallInteger number }
    ensures next { IfSome result (λ n. n ≡ number +ℤ pos 1) }
    ensures range { IfSome result IsSmallInteger }
{
    if number == SMALL_INTEGERS as i16 - 1 {
        None
    } else {
        Some(number + 1)
    }
}

/// Adds 1 to the number in field 1 of the object that a register names. False where there is no such field, no number in it, or no next
/// number, and then it has only read.
pub fn bump<M: ObjectMemory>(m: &mut M, of: Reg) -> Result<bool, MemFault>
    requires of { of < 10 }
    requires fit { IsFit M.ObjectMemory m.old }
    ensures bumped { IfOk result (λ done. IsTrue done → IsTrue (M.told m.old).tells → IsBumped (M.told m.old) (M.told m.new) of) }
    ensures looked { IfOk result (λ done. done ≡ false → Looks (10 ∷ []) (M.told m.old) (M.told m.new)) }
    ensures last { IfErr result (λ f. (M.told m.new).last ≡ Some f) }
    ensures fit { KeepsFit M.ObjectMemory m.old m.new result }
{
    if !shape::has_field(m, of, 1)? {
        return Ok(false);
    }
    m.field(Reg::R10, of, 1)?;
    let Some(number) = m.as_int(Reg::R10) else {
        return Ok(false);
    };
    let Some(next) = next_number(number) else {
        return Ok(false);
    };
    m.int(Reg::R10, next);
    m.set_field(of, 1, Reg::R10)?;
    Ok(true)
}
