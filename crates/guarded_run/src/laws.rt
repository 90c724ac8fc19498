//! Laws of guarded courses. No code calls these functions: what each of them ensures is the law.
ghost use Rattle.std.specs.Prelude.{◌≡◌, ℕ, List, IsTrue};
ghost use Rattle.long_names.specs.Heap.{Heap};
ghost use Rattle.long_names.specs.Kept.{kept, no_roots};
ghost use Rattle.long_names.specs.Thin.{IsThinner};
ghost use Rattle.object_memory.specs.Told.{Told, IsReady};
ghost use Rattle.blue_model.specs.declared.cpu.Cpu.{Cpu};
ghost use Rattle.blue_model.specs.declared.event.Line.{Line};
ghost use Rattle.blue_model.specs.Earlier.{course_with_earlier};
ghost use Rattle.blue_model.specs.Endings.{OnParked};
ghost use Rattle.blue_model.specs.Guarded.{Guarded};
ghost use Rattle.blue_model.specs.Law.{IsWholeMachine, HasState};
ghost use Rattle.blue_model.specs.Machine.{Machine, at_rest};
ghost use Rattle.blue_model.specs.State.{State};
ghost use Rattle.machine_run.specs.States.{state_held};
ghost use Rattle.guarded_run.specs.Course.{course_on, guarded_course};
ghost use Rattle.guarded_run.specs.Legs.{HasWhole, IsToKeep, guarded_first};

/// What was said before a guarded run stands in front of what it says, and changes nothing else of its course.
pub fn a_guarded_run_speaks_behind_what_was_said()
    ensures { (events : List Line) (steps serial : ℕ) (said : List ℕ) (state : State) (h : Heap) → course_on events steps (guarded_first serial said state h) ≡ course_with_earlier said (guarded_course events steps serial state h) }
{}

/// Where the heap is whole and has the names of the state, the machine that a guarded run starts with is whole. Then a memory keeps what
/// the model's machine keeps: of a machine that is to be kept at a checkpoint, whose state its registers and numbers say, too; and of the
/// one that is parked at the end.
pub fn a_memory_keeps_what_the_machine_keeps()
    ensures starts { (serial : ℕ) (said : List ℕ) (state : State) (h : Heap) → IsWholeMachine (at_rest h) → HasState state h → HasWhole (guarded_first serial said state h) }
    ensures kept { (events : List Line) (g : Guarded) (serial : ℕ) (t : Told) (cpu : Cpu) (parked : Machine) → HasWhole g → IsToKeep events g serial t cpu parked → IsReady t → IsTrue t.tells → kept t.heap no_roots ≡ kept parked.heap no_roots }
    ensures state { (events : List Line) (g : Guarded) (serial : ℕ) (t : Told) (cpu : Cpu) (parked : Machine) → IsToKeep events g serial t cpu parked → state_held t.regs cpu ≡ state_held parked.regs parked.cpu }
    ensures ends { (events : List Line) (steps : ℕ) (g : Guarded) (t : Told) → HasWhole g → OnParked (course_on events steps g).ending (λ m. IsThinner m.heap t.heap) → IsReady t → IsTrue t.tells → OnParked (course_on events steps g).ending (λ m. kept t.heap no_roots ≡ kept m.heap no_roots) }
{}
