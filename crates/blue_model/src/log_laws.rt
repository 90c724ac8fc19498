// Laws of logs. No code calls these functions: what each of them ensures is the law.
ghost use Rattle.std.specs.Prelude.{◌≡◌, ℕ, ◌+◌, ◌<◌, ◌≤◌, Bool, true, List, [], slice_get, Some, length};
ghost use Rattle.long_names.specs.Names.{is_known};
ghost use Rattle.long_names.specs.Heap.{Heap, Has, IsBounded, count_of};
ghost use Rattle.long_names.specs.Kept.{kept};
ghost use Rattle.blue_model.specs.declared.event.Line.{Line};
ghost use Rattle.blue_model.specs.Machine.{Machine, LogRow, Go, log_of};
ghost use Rattle.blue_model.specs.State.{State, begin};
ghost use Rattle.blue_model.specs.Cycle.{cycle, park_and_draw, Parked, ending};
ghost use Rattle.blue_model.specs.declared.step.Step.{Step};
ghost use Rattle.blue_model.specs.Law.{IsThinned};
ghost use Rattle.blue_model.specs.Logs.{made_in, names_from, living, lives, largest_after, AreWithin, rows_of_bytecode};

/// A cycle makes no more than 3 objects, whatever becomes of it, and they have the names from the next one on. The start, the state
/// that it goes on with, park and the picture make none.
pub fn a_cycle_makes_at_most_three()
    ensures cycle { (events : List Line) (m : Machine) → (k : ℕ) × (k ≤ 3) × (made_in (log_of (cycle events m)) ≡ names_from m.heap.next k) }
    ensures begin { (state : State) (m : Machine) → made_in (log_of (begin state m)) ≡ [] }
    ensures draw { (m : Machine) → made_in (log_of (park_and_draw m)) ≡ [] }
{}

/// A machine knows the words of the largest object that it made: after a cycle they are those of before, or of a making of its log. The
/// start, the state that it goes on with, park and the picture leave them. No making of a whole run took more words than those of the
/// machine that is parked in the end.
pub fn a_machine_knows_its_largest_object()
    ensures cycle { (events : List Line) (m s : Machine) (end : Step) (log : List LogRow) → cycle events m ≡ Go end s log → s.largest ≡ largest_after m.largest log }
    ensures begin { (state : State) (m s : Machine) (log : List LogRow) → begin state m ≡ Go tt s log → s.largest ≡ m.largest }
    ensures draw { (m s : Machine) (picture : List ℕ) (log : List LogRow) → park_and_draw m ≡ Go picture s log → s.largest ≡ m.largest }
    ensures whole { (events : List Line) (steps k : ℕ) (state : State) (h : Heap) (end : Step) (m : Machine) (picture : List ℕ) → ending events steps state h ≡ Parked end m picture → AreWithin m.largest (rows_of_bytecode events steps state h k) }
{}

/// At making i of a cycle, counted from 0, i + 1 objects more live than before the cycle. Over a thinning as many live, at each making.
pub fn lives_rise_by_one()
    ensures at { (events : List Line) (m : Machine) (i : ℕ) → i < length (made_in (log_of (cycle events m))) → slice_get (lives events m) i ≡ Some (living m + i + 1) }
    ensures living { (m s : Machine) → IsThinned m s → living s ≡ living m }
    ensures thinning { (events : List Line) (m s : Machine) → IsThinned m s → lives events s ≡ lives events m }
{}

/// Of a heap in which only known objects are held by nothing all objects are kept, whatever the roots are.
pub fn what_is_held_is_kept()
    ensures { (h : Heap) (root : ℕ → Bool) → IsBounded h → ((n : ℕ) → Has h n → count_of h n ≡ 0 → is_known n ≡ true) → kept h root ≡ h }
{}

/// The start, with the state that it goes on with, leaves the heap and the transcript.
pub fn a_start_leaves_the_heap()
    ensures { (state : State) (m n : Machine) (log : List LogRow) → begin state m ≡ Go tt n log → (n.heap ≡ m.heap) × (n.transcript ≡ m.transcript) }
{}
