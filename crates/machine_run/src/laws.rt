// Laws of what runs begin with and leave.
ghost use Rattle.std.specs.Prelude.{◌≡◌, ℕ, List};
ghost use Rattle.long_names.specs.declared.value.Value.TheVariants.{Ref};
ghost use Rattle.long_names.specs.Heap.{Heap};
ghost use Rattle.long_names.specs.Kept.{kept, no_roots};
ghost use Rattle.long_names.specs.State.{ACTIVE_CONTEXT};
ghost use Rattle.object_memory.specs.Contract.{IfBounds};
ghost use Rattle.object_memory.specs.Told.{Told};
ghost use Rattle.blue_model.specs.Earlier.{course_with_earlier};
ghost use Rattle.blue_model.specs.Law.{HasPins, IsWholeMachine};
ghost use Rattle.blue_model.specs.Logs.{course, AreWithin};
ghost use Rattle.blue_model.specs.Machine.{Machine, LogRow, Go};
ghost use Rattle.blue_model.specs.State.{State, state_of};
ghost use Rattle.blue_model.specs.declared.event.Line.{Line};
ghost use Rattle.machine_run.specs.Run.{GoesThrough};
ghost use Rattle.machine_run.specs.Sights.{sight_in};
ghost use Rattle.machine_run.specs.declared.running.Finished.{Finished};
ghost use Rattle.machine_run.specs.declared.tracing.Sight.{Sight};
ghost use Rattle.machine_run.specs.States.{HasLongNames, state_held, state_left};

/// What the kept objects leave of the state that a parked machine's registers and numbers say is the state that the model has of it. The
/// names of an image are of 32 bits.
#[tactic(auto, using(crate::proofs::StateLaws::left_held))]
pub fn what_is_kept_of_a_state()
    ensures { (m : Machine) → HasLongNames (kept m.heap no_roots) → state_left (kept m.heap no_roots) (state_held m.regs m.cpu) ≡ state_of m }
{}

/// Where a run went through over a memory that tells its bounds, no object that the model's run makes takes more words than the core has:
/// over a smaller core the run is answered with a stop.
pub fn no_object_of_a_run_is_larger_than_the_core()
    ensures { (earlier : List ℕ) (events : List Line) (steps : ℕ) (state : State) (h : Heap) (new : Told) (finished : Finished) → GoesThrough new finished (course_with_earlier earlier (course events steps state h)) → IfBounds new.bounds (λ b. (k : ℕ) → AreWithin b.core ((course events steps state h).rows k)) }
{}

/// What a trace tells is the active context. From a start on each machine of a run has its pins, and the names of an image are of 32 bits.
pub fn a_sight_names_the_active_context()
    ensures { (events : List Line) (m n : Machine) (seen : Sight) (log : List LogRow) → HasPins m → sight_in events m ≡ Go seen n log → IsWholeMachine n → HasLongNames n.heap → n.regs ACTIVE_CONTEXT ≡ Ref seen.context }
{}
