// Laws of what the slots have. No code calls these functions: what each of them ensures is the law.
ghost use Rattle.std.specs.Prelude.{◌≡◌, ℕ, true, List, ◌++◌};
ghost use Rattle.long_names.specs.declared.value.Value.{Value};
ghost use Rattle.long_names.specs.State.{ACTIVE_CONTEXT, HOME, METHOD};
ghost use Rattle.long_names.specs.Access.{with_swapped};
ghost use Rattle.blue_model.specs.declared.event.Line.{Line};
ghost use Rattle.blue_model.specs.declared.step.Step.{Step};
ghost use Rattle.blue_model.specs.Machine.{Machine, LogRow, Go, rows_at, swap};
ghost use Rattle.blue_model.specs.Contexts.{stack, start, park};
ghost use Rattle.blue_model.specs.Storage.{is_another};
ghost use Rattle.blue_model.specs.State.{State, begin};
ghost use Rattle.blue_model.specs.Cycle.{Stopping, Ran, Stopped, cycle, run};
ghost use Rattle.blue_model.specs.Law.{IsWholeMachine, HasPins};
ghost use Rattle.blue_model.specs.Loaded.{loaded};

/// From a start on, and all through a run, the slots have the active context, its home and its method.
pub fn slots_have_the_context_its_home_and_its_method()
    ensures start { (m s : Machine) (log : List LogRow) → start m ≡ Go tt s log → HasPins s }
    ensures begin { (state : State) (m s : Machine) (log : List LogRow) → begin state m ≡ Go tt s log → HasPins s }
    ensures loaded { (m s : Machine) (log : List LogRow) → loaded m ≡ Go tt s log → HasPins s }
    ensures cycle { (events : List Line) (m s : Machine) (end : Step) (log : List LogRow) → HasPins m → cycle events m ≡ Go end s log → HasPins s }
    ensures park { (m s : Machine) (log : List LogRow) → HasPins m → park m ≡ Go tt s log → HasPins s }
    ensures ran { (events : List Line) (k : ℕ) (m n : Machine) (end : Step) → HasPins m → run events k m ≡ Ran end n → HasPins n }
    ensures stopped { (events : List Line) (k : ℕ) (m n : Machine) (why : Stopping) (log : List LogRow) → HasPins m → run events k m ≡ Stopped n why log → HasPins n }
{}

/// So become never stops because an object is pinned: two values of the stack that are neither the active context nor its home nor its
/// method change places.
pub fn what_is_not_the_context_changes_places()
    ensures swaps { (m s n : Machine) (receiver argument : Value) (rows log : List LogRow) → HasPins m → IsWholeMachine m → stack 1 m ≡ Go receiver s rows → stack 0 m ≡ Go argument n log → is_another (m.regs ACTIVE_CONTEXT) (m.regs HOME) (m.regs METHOD) receiver ≡ true → is_another (m.regs ACTIVE_CONTEXT) (m.regs HOME) (m.regs METHOD) argument ≡ true → swap receiver argument m ≡ Go tt (record m { heap = with_swapped m.heap receiver argument }) (rows_at m receiver ++ rows_at m argument) }
{}
