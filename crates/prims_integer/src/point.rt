// New points.
ghost use Rattle.std.specs.Prelude.{◌≡◌, OnOk};
ghost use Rattle.long_names.specs.Words.{IsSmallInteger};
ghost use Rattle.object_memory.specs.Told.{IsReady};
ghost use Rattle.blue_model.specs.declared.cpu.Cpu.{Cpu as Numbers};
ghost use Rattle.blue_model.specs.Arithmetic as model;
ghost use Rattle.contexts.specs.Serves.{Serves, StaysSound, with_value};
ghost use Rattle.object_memory.specs.Calls.{IsFit};
ghost use Rattle.contexts.specs.Calls.{StaysFit};

use blue_model::indexes::{X_INDEX, Y_INDEX};
use contexts::Stop;
use contexts::parts::{known, make_pointers, store_field};
use long_names::Name;
use object_memory::{ObjectMemory, Reg};

/// Makes the point x @ y in R11.
pub(crate) fn make_point<M: ObjectMemory>(m: &mut M, x: i16, y: i16) -> Result<(), Stop>
    requires fit { IsFit M.ObjectMemory m.old }
    requires x { IsSmallInteger x }
    requires y { IsSmallInteger y }
    ensures serves { (cpu : Numbers) → Serves (M.told m.old) cpu (M.told m.new) cpu (model.make_point x y) (with_value result ((M.told m.new).regs 11)) }
    ensures fit { StaysFit M.ObjectMemory m.old m.new result }
{
    known(m, Reg::R10, Name::POINT)?;
    make_pointers(m, Reg::R11, Reg::R10, 2)?;
    m.int(Reg::R10, x);
    store_field(m, Reg::R11, X_INDEX, Reg::R10)?;
    m.int(Reg::R10, y);
    store_field(m, Reg::R11, Y_INDEX, Reg::R10)?;
    Ok(())
}
