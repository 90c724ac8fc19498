// Laws of what is kept and loaded again, and of guarded runs. No code calls these functions: what each of them ensures is the law.
ghost use Rattle.std.specs.Prelude.{◌≡◌, ℕ, ◌+◌, ◌-◌, ◌^◌, ◌<◌, ◌≤◌, nat_lt, true, false, List, [], ◌++◌, Some};
ghost use Rattle.long_names.specs.Kept.{kept, no_roots};
ghost use Rattle.long_names.specs.State.{ACTIVE_CONTEXT, NEW_PROCESS};
ghost use Rattle.long_names.specs.declared.value.Value.TheVariants.{Ref};
ghost use Rattle.long_names.specs.Names.{SCHEDULER_ASSOCIATION};
ghost use Rattle.blue_model.specs.declared.indexes.TheConstants.{SUSPENDED_CONTEXT_INDEX, PROCESS_SIZE};
ghost use Rattle.blue_model.specs.ClassList.{part_in};
ghost use Rattle.blue_model.specs.Parts.{field};
ghost use Rattle.blue_model.specs.declared.cause.Cause.{Cause};
ghost use Rattle.blue_model.specs.declared.event.Line.{Line};
ghost use Rattle.blue_model.specs.declared.limits.TheConstants.{LAST_SERIAL};
ghost use Rattle.blue_model.specs.declared.step.Step.{Step};
ghost use Rattle.blue_model.specs.declared.step.Step.TheVariants.{Next, Quit, Keep};
ghost use Rattle.blue_model.specs.Machine.{Machine, LogRow, Go, Halt, after, at_rest};
ghost use Rattle.blue_model.specs.Cycle.{Stopping, ByCause, Run, Ran, Stopped, cycle, run};
ghost use Rattle.blue_model.specs.Base.{context_at};
ghost use Rattle.blue_model.specs.Snaps.{SUBJECT, snapped, seen_in};
ghost use Rattle.blue_model.specs.Law.{IsWholeMachine, IsThinned, RespectsThinning};
ghost use Rattle.blue_model.specs.Contexts.{park};
ghost use Rattle.blue_model.specs.State.{state_of, begin};
ghost use Rattle.blue_model.specs.Loaded.{loaded, scheduler_in, HasLoaded};
ghost use Rattle.blue_model.specs.Guarded.{Stage, AtBytecode, AtParking, AtStart, Going, Broken, allowed, kept_after, guarded_on, guarded, GuardedAgree, guarded_of, rows_due, times_kept, times_unkept};

/// No cycle changes whether a checkpoint may be made. Where it may not, no run comes to a machine that is to be kept.
pub fn without_a_vault_nothing_is_kept()
    ensures stays { (events : List Line) (m s : Machine) (end : Step) (log : List LogRow) → cycle events m ≡ Go end s log → s.cpu.vault ≡ m.cpu.vault }
    ensures never { (events : List Line) (k : ℕ) (m n : Machine) → m.cpu.vault ≡ false → run events k m ≡ Ran Keep n → ⊥ }
{}

/// Loading what was saved goes the same way over a thinning, and a whole heap is whole again.
pub fn loading_respects_thinning()
    ensures thinned { RespectsThinning loaded }
    ensures whole { (m s : Machine) (log : List LogRow) → IsWholeMachine m → loaded m ≡ Go tt s log → IsWholeMachine s }
{}

/// A guarded run goes the same way over a thinning. One of j + k cycles is one of j and then k more.
pub fn a_guarded_run_respects_thinning()
    ensures thinned { (events : List Line) (k serial : ℕ) (m s : Machine) → IsThinned m s → GuardedAgree (guarded events k serial m) (guarded events k serial s) }
    ensures adds { (events : List Line) (j k serial : ℕ) (m : Machine) → guarded events (j + k) serial m ≡ guarded_on events k (guarded events j serial m) }
{}

/// Up to the next 97 that is done a guarded run is the ordinary run, and the rows of the loading before it belong to its first bytecode.
/// Where the ordinary run comes to a machine that is to be kept, the guarded run loads what is kept of it, under the next serial.
pub fn a_guarded_run_goes_from_one_checkpoint_to_the_next()
    ensures next { (events : List Line) (k serial : ℕ) (rows : List LogRow) (m n : Machine) → run events k m ≡ Ran Next n → guarded_on events k (Going Next m serial rows) ≡ Going Next n serial (rows_due m n rows) }
    ensures quit { (events : List Line) (k serial : ℕ) (rows : List LogRow) (m n : Machine) → run events k m ≡ Ran Quit n → guarded_on events k (Going Next m serial rows) ≡ Going Quit n serial [] }
    ensures stopped { (events : List Line) (k serial : ℕ) (rows : List LogRow) (m n : Machine) (why : Stopping) (log : List LogRow) → run events k m ≡ Stopped n why log → guarded_on events k (Going Next m serial rows) ≡ Broken AtBytecode n serial why (rows_due m n rows ++ log) }
    ensures kept { (events : List Line) (k serial : ℕ) (rows : List LogRow) (m n : Machine) → run events k m ≡ Ran Keep n → (j : ℕ) × (j < k) × (n.cpu.ran ≡ m.cpu.ran + (j + 1)) × (guarded_on events (j + 1) (Going Next m serial rows) ≡ kept_after serial n (loaded n)) }
{}

/// Where a guarded run broke after a 97 that was done, parking its machine stopped; or it went through, and the start on what was kept
/// stopped.
pub fn a_checkpoint_breaks_in_parking_or_in_the_start()
    ensures parking { (m : Machine) (serial : ℕ) (c : Cause) (log : List LogRow) → park m ≡ Halt c log → kept_after serial m (loaded m) ≡ Broken AtParking m serial (ByCause c) log }
    ensures start { (m p : Machine) (serial : ℕ) (c : Cause) (rows log : List LogRow) → park m ≡ Go tt p rows → loaded m ≡ Halt c log → kept_after serial m (loaded m) ≡ Broken AtStart m (serial + 1) (ByCause c) log }
{}

/// A guarded run in which no 97 is done is the ordinary run, and none is done from the last serial on.
pub fn a_guarded_run_that_keeps_nothing_is_a_run()
    ensures none { (events : List Line) (k serial : ℕ) (m : Machine) → ((n : Machine) → run events k (allowed serial m) ≡ Ran Keep n → ⊥) → guarded events k serial m ≡ guarded_of serial (run events k (allowed serial m)) }
    ensures last { (events : List Line) (k serial : ℕ) (m : Machine) → LAST_SERIAL ≤ serial → guarded events k serial m ≡ guarded_of serial (run events k (allowed serial m)) }
{}

/// The serial rises by one for each 97 that is done, and a checkpoint may be made as long as it is below the last one. A run that broke
/// says what was kept last: of the 97s that were done all were kept, but for one after which parking stopped. A run of k cycles that goes
/// on ran k bytecodes more.
pub fn a_guarded_run_counts_its_checkpoints()
    ensures serial { (events : List Line) (k serial last : ℕ) (m n : Machine) (end : Step) (rows : List LogRow) → guarded events k serial m ≡ Going end n last rows → last ≡ serial + times_kept events k (Going Next (allowed serial m) serial []) }
    ensures broken { (events : List Line) (k serial last : ℕ) (m n : Machine) (stage : Stage) (why : Stopping) (log : List LogRow) → guarded events k serial m ≡ Broken stage n last why log → last + times_unkept stage ≡ serial + times_kept events k (Going Next (allowed serial m) serial []) }
    ensures vault { (events : List Line) (k serial last : ℕ) (m n : Machine) (end : Step) (rows : List LogRow) → guarded events k serial m ≡ Going end n last rows → n.cpu.vault ≡ nat_lt last LAST_SERIAL }
    ensures end { LAST_SERIAL ≡ 2 ^ 62 - 1 }
    ensures ran { (events : List Line) (k serial last : ℕ) (m n : Machine) (rows : List LogRow) → guarded events k serial m ≡ Going Next n last rows → n.cpu.ran ≡ m.cpu.ran + k }
{}

/// A machine that isn't parked is parked, and then starts on its kept objects with its state (`loaded`). It is in the first context of
/// the kept objects then, with its home, its method and its receiver; the clock goes on. Where no switch waited, and it is in the context
/// that the machine was in, it has the machine's two pointers too. Where a switch waited, it is in the context of the new process, unless
/// the scheduler's association was its own value.
pub fn loading_goes_on_where_it_was()
    ensures starts { (m p : Machine) (rows : List LogRow) → park m ≡ Go tt p rows → loaded m ≡ after rows (begin (state_of p) (at_rest (kept p.heap no_roots))) }
    ensures found { (m p s : Machine) (rows log : List LogRow) → park m ≡ Go tt p rows → loaded m ≡ Go tt s log → HasLoaded p s }
    ensures here { (m s : Machine) (log : List LogRow) → loaded m ≡ Go tt s log → m.cpu.waiting ≡ false → s.regs ACTIVE_CONTEXT ≡ m.regs ACTIVE_CONTEXT → (s.cpu.ip ≡ m.cpu.ip) × (s.cpu.sp ≡ m.cpu.sp) }
    ensures switched { (m p s : Machine) (rows log : List LogRow) → park m ≡ Go tt p rows → loaded m ≡ Go tt s log → m.cpu.waiting ≡ true → (scheduler_in m.heap ≡ Some (Ref SCHEDULER_ASSOCIATION) → ⊥) → part_in p.heap (field PROCESS_SIZE SUSPENDED_CONTEXT_INDEX) (m.regs NEW_PROCESS) ≡ Some (s.regs ACTIVE_CONTEXT) }
{}

/// A method that sends snap, whose primitive is 97: its context after the push, and after the send, which kept the machine.
pub fn worked_checkpoint()
    ensures pushed { seen_in (snapped 1) ≡ Some (record { serial = 0; ran = 1; context = context_at 7 0 (Ref SUBJECT) }) }
    ensures kept { seen_in (snapped 2) ≡ Some (record { serial = 1; ran = 2; context = context_at 9 1 (Ref SUBJECT) }) }
{}
