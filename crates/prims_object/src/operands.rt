// What primitives begin with: the receiver in R10, an index argument in R11, a value in R12. R19 is used.
ghost use Rattle.std.specs.Prelude.{◌≡◌, ℕ, [], ◌∷◌, OnOk};
ghost use Rattle.long_names.specs.declared.value.Value.{Value};
ghost use Rattle.object_memory.specs.Shape.{Looks};
ghost use Rattle.blue_model.specs.declared.answer.Answer.{Answer as Answers};
ghost use Rattle.blue_model.specs.declared.cpu.Cpu.{Cpu as Numbers};
ghost use Rattle.blue_model.specs.Machine.{Rule};
ghost use Rattle.object_memory.specs.Calls.{IsFit};
ghost use Rattle.contexts.specs.Calls.{StaysFit};
ghost use Rattle.prims_object.specs.Leads.{Leads, with_done};
ghost use Rattle.prims_object.specs.Operands as rules;

use crate::elements::{element_of, variable_of};
use crate::indexes::index_argument;
use blue_model::Spot;
use contexts::peeks::peek_size;
use contexts::{Cpu, Stop, stack};
use object_memory::{ObjectMemory, Reg};

/// Loads the receiver and the argument of a message.
pub(crate) fn one_argument<M: ObjectMemory>(m: &mut M, cpu: &Cpu) -> Result<(), Stop>
    requires fit { IsFit M.ObjectMemory m.old }
    ensures leads { Leads (M.told m.old) cpu.now (M.told m.new) rules.of_one (λ _ (rest : Value → Value → Rule Answers). rest ((M.told m.new).regs 10) ((M.told m.new).regs 11)) (with_done result) }
    ensures fit { StaysFit M.ObjectMemory m.old m.new result }
{
    stack(m, cpu, Reg::R10, 1)?;
    stack(m, cpu, Reg::R11, 0)?;
    Ok(())
}

/// Loads the receiver and the two arguments of a message.
pub(crate) fn two_arguments<M: ObjectMemory>(m: &mut M, cpu: &Cpu) -> Result<(), Stop>
    requires fit { IsFit M.ObjectMemory m.old }
    ensures leads { Leads (M.told m.old) cpu.now (M.told m.new) rules.of_two (λ _ (rest : Value → Value → Value → Rule Answers). rest ((M.told m.new).regs 10) ((M.told m.new).regs 11) ((M.told m.new).regs 12)) (with_done result) }
    ensures fit { StaysFit M.ObjectMemory m.old m.new result }
{
    stack(m, cpu, Reg::R10, 2)?;
    stack(m, cpu, Reg::R11, 1)?;
    stack(m, cpu, Reg::R12, 0)?;
    Ok(())
}

/// Where the element of the receiver stands that the index argument says, behind its fixed fields.
pub(crate) fn element_place<M: ObjectMemory>(m: &mut M) -> Result<Option<Spot>, Stop>
    requires fit { IsFit M.ObjectMemory m.old }
    ensures leads { (cpu : Numbers) → Leads (M.told m.old) cpu (M.told m.new) (rules.at_element ((M.told m.old).regs 10) ((M.told m.old).regs 11)) (λ spot rest. rest spot) result }
    ensures looks { OnOk result (Looks (19 ∷ []) (M.told m.old) (M.told m.new)) }
    ensures fit { StaysFit M.ObjectMemory m.old m.new result }
{
    let Some(i) = index_argument(m, Reg::R11)? else {
        return Ok(None);
    };
    element_of(m, Reg::R10, i)
}

/// Where the variable of the receiver stands that the index argument says.
pub(crate) fn variable_place<M: ObjectMemory>(m: &mut M) -> Result<Option<Spot>, Stop>
    requires fit { IsFit M.ObjectMemory m.old }
    ensures leads { (cpu : Numbers) → Leads (M.told m.old) cpu (M.told m.new) (rules.at_variable ((M.told m.old).regs 10) ((M.told m.old).regs 11)) (λ spot rest. rest spot) result }
    ensures looks { OnOk result (Looks (19 ∷ []) (M.told m.old) (M.told m.new)) }
    ensures fit { StaysFit M.ObjectMemory m.old m.new result }
{
    let Some(_) = peek_size(m, Reg::R10, 0)? else {
        return Ok(None);
    };
    let Some(i) = index_argument(m, Reg::R11)? else {
        return Ok(None);
    };
    variable_of(m, Reg::R10, i)
}
