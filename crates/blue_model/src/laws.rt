// Laws of the machine. No code calls these functions: what each of them ensures is the law.
ghost use Rattle.std.specs.Prelude.{◌≡◌, ℕ, ℤ, pos, ◌+◌, ◌-◌, ◌+ℤ◌, ◌*ℤ◌, ◌<◌, ◌≤◌, ◌^◌, true, List, [], ◌∷◌, ◌++◌, All, Contains, count_by, length, replicate, Option, Some, None, false};
ghost use Rattle.long_names.specs.declared.value.Value.{Value};
ghost use Rattle.long_names.specs.declared.value.Value.TheVariants.{Ref};
ghost use Rattle.long_names.specs.declared.object.Body.TheVariants.{Bytes};
ghost use Rattle.long_names.specs.Names.{NIL, SCHEDULER_ASSOCIATION, LARGE_POSITIVE_INTEGER, LARGE_NEGATIVE_INTEGER};
ghost use Rattle.long_names.specs.Objects.{int_of};
ghost use Rattle.long_names.specs.State.{object_at};
ghost use Rattle.long_names.specs.Heap.{Heap};
ghost use Rattle.blue_model.specs.declared.cause.Cause.TheVariants.{Pointer, Unused, Stack, Shape};
ghost use Rattle.blue_model.specs.declared.indexes.TheConstants.{NEXT_LINK_INDEX};
ghost use Rattle.blue_model.specs.declared.limits.TheConstants.{LONGEST_CHAIN};
ghost use Rattle.blue_model.specs.Machine.{Machine, LogRow, Go, at_rest};
ghost use Rattle.blue_model.specs.Contexts.{start, park, load, fetch, jump, push, pop, stated, store_registers};
ghost use Rattle.blue_model.specs.Pointers.{CanState, StatesSmall, RunsShort, store_untested};
ghost use Rattle.blue_model.specs.Arithmetic.{sum, divided, exact_quotient, rounded_down, quotient_down, remainder_down, quotient_to_zero, bits_and, shifted};
ghost use Rattle.blue_model.specs.LargeInts.{magnitude, fewest_bytes, in_range, large_value, number_at, large_operand, large_answer, large_and, large_result};
ghost use Rattle.blue_model.specs.Lookup.{lookup, find_from_register};
ghost use Rattle.blue_model.specs.ClassList.{class_list, taken};
ghost use Rattle.blue_model.specs.Processes.{add, take, current_process, resume, suspend_active, signal, wait};
ghost use Rattle.blue_model.specs.Queues.{IsAmong, IsNotAmong, AreApart, IsQueue, lists_of, Schedule, others_in, objects_in, HasSchedule, NobodyAbove, GoesOn};
ghost use Rattle.blue_model.specs.declared.answer.Answer.TheVariants.{Failed};
ghost use Rattle.blue_model.specs.Primitives.{primitive};
ghost use Rattle.blue_model.specs.Bytecodes.{Range, bytecodes, has_byte, bytecode};
ghost use Rattle.blue_model.specs.declared.step.Step.{Step};
ghost use Rattle.blue_model.specs.declared.step.Step.TheVariants.{Next, Keep};
ghost use Rattle.blue_model.specs.Endings.{is_last, said_in};
ghost use Rattle.blue_model.specs.Earlier.{with_earlier, run_with_earlier, ending_with_earlier, course_with_earlier, IgnoresEarlier, course_of, at_rest_after};
ghost use Rattle.blue_model.specs.Logs.{course};
ghost use Rattle.blue_model.specs.State.{State, no_state, restore, begin};
ghost use Rattle.blue_model.specs.Cycle.{step, cycle, run, Ran, Ending, ending, park_and_draw, Stuck, ByCause};
ghost use Rattle.blue_model.specs.declared.event.Line.{Line};
ghost use Rattle.blue_model.specs.BitBlt.{copy_bits, copied_words, black};
ghost use Rattle.blue_model.specs.Devices.{due, display_row, picture, take_lines, take_all, lines_at, AreRising};
ghost use Rattle.blue_model.specs.Forms.{picture_rows};
ghost use Rattle.blue_model.specs.Base.{one_right_and_down, small_form, small_words, moved_words, moved_picture};
ghost use Rattle.blue_model.specs.Law.{IsWholeMachine, IsThinned, RespectsThinning, Agree, HasState, RunsAgree, EndingsAgree, AllThere, go_on};
ghost use Rattle.blue_model.specs.Worked.{worked_heap, worked_schedule, current_after, field_after, GATE, RUNNER, LOW_SECOND, MIDDLE, HIGH, NEWCOMER};
ghost use Rattle.blue_model.specs.Base.{nil, heap_running, base_code, context_at, context_in, state_after, seven_before, full_state, minus, small_result};

/// A cycle over a thinning answers, stops and logs as over the heap, and leaves a thinning of what it leaves of the heap. So do its
/// bytecode alone, the start and park. A machine whose heap is whole is a thinning of itself.
pub fn a_cycle_respects_thinning()
    ensures cycle { (events : List Line) → RespectsThinning (cycle events) }
    ensures step { (events : List Line) → RespectsThinning (step events) }
    ensures start { RespectsThinning start }
    ensures park { RespectsThinning park }
    ensures draw { RespectsThinning park_and_draw }
    ensures picture { RespectsThinning picture }
    ensures whole { (m : Machine) → IsWholeMachine m → IsThinned m m }
{}

/// So do BitBlt and the rules that come before a bytecode.
pub fn devices_respect_thinning()
    ensures blit { RespectsThinning copy_bits }
    ensures due { (events : List Line) → RespectsThinning (due events) }
    ensures row { (y : ℕ) → RespectsThinning (display_row y) }
{}

/// Drawing the display, or a row of it, changes nothing.
pub fn a_picture_changes_nothing()
    ensures row { (y : ℕ) (m s : Machine) (bytes : List ℕ) (log : List LogRow) → display_row y m ≡ Go bytes s log → s ≡ m }
    ensures whole { (m s : Machine) (bytes : List ℕ) (log : List LogRow) → picture m ≡ Go bytes s log → s ≡ m }
{}

/// Of an event list whose counts never fall, the lines that are taken at a count are those that have it, in their order.
pub fn a_count_takes_its_lines()
    ensures { (count : ℕ) (lines : List Line) → AreRising count lines → take_lines count lines ≡ take_all (lines_at count lines) }
{}

/// A form of 17 by 3 pixels that is copied onto itself, one pixel to the right and one down, and clipped at its right; and its picture.
pub fn worked_pictures()
    ensures copied { copied_words one_right_and_down small_form (Some small_form) small_words small_words black ≡ moved_words }
    ensures drawn { picture_rows small_form moved_words ≡ moved_picture }
{}

/// So does the lookup from the class in a register.
pub fn lookup_respects_thinning()
    ensures { (r : ℕ) → RespectsThinning (find_from_register r) }
{}

/// A lookup leaves the machine as it is, and finds what the first class of the class list has whose slots hold the selector, at its
/// first place there.
pub fn a_lookup_takes_the_first_class()
    ensures { (m s : Machine) (selector class : Value) (found : Option Value) (log : List LogRow) → lookup selector class m ≡ Go found s log → (s ≡ m) × (found ≡ taken m.heap selector (class_list LONGEST_CHAIN m.heap class)) }
{}

/// A primitive that fails has changed nothing, and made nothing.
pub fn a_failed_primitive_changes_nothing()
    ensures table { (events : List Line) (index : ℕ) (m s : Machine) (log : List LogRow) → primitive events index m ≡ Go Failed s log → s ≡ m }
    ensures blit { (m s : Machine) (log : List LogRow) → copy_bits m ≡ Go Failed s log → s ≡ m }
{}

/// A list of processes is a queue: a process is added behind the others, and the one that is taken is the first. A list of other
/// objects stays as it is.
pub fn a_process_list_is_a_queue()
    ensures add { (m s : Machine) (list p : ℕ) (names : List ℕ) (log : List LogRow) → IsQueue m.heap list names → IsNotAmong p (NIL ∷ list ∷ names) → add (Ref p) (Ref list) m ≡ Go tt s log → IsQueue s.heap list (names ++ p ∷ []) }
    ensures take { (m s : Machine) (list p : ℕ) (names : List ℕ) (v : Value) (log : List LogRow) → IsQueue m.heap list (p ∷ names) → take (Ref list) m ≡ Go v s log → (v ≡ Ref p) × IsQueue s.heap list names }
    ensures add_elsewhere { (m s : Machine) (list p : ℕ) (names : List ℕ) (other : ℕ) (others : List ℕ) (log : List LogRow) → IsQueue m.heap list names → IsNotAmong p (NIL ∷ list ∷ names) → AreApart (other ∷ others) (list ∷ p ∷ names) → add (Ref p) (Ref list) m ≡ Go tt s log → IsQueue m.heap other others → IsQueue s.heap other others }
    ensures take_elsewhere { (m s : Machine) (list p : ℕ) (names : List ℕ) (other : ℕ) (others : List ℕ) (v : Value) (log : List LogRow) → IsQueue m.heap list (p ∷ names) → AreApart (other ∷ others) (list ∷ p ∷ names) → take (Ref list) m ≡ Go v s log → IsQueue m.heap other others → IsQueue s.heap other others }
{}

/// Where no process on the scheduler's lists has a priority above that of the current process, a resumption, a signal or a wait that
/// goes through leaves it so for the process that is current then, and a suspension makes it so. The lists and the semaphores are
/// queues again. No process is lost or stands twice, but for the suspended one, which stands nowhere.
pub fn nobody_above_the_current_process_waits()
    ensures current { (m s : Machine) (here : Schedule) (v : Value) (log : List LogRow) → HasSchedule m here → current_process m ≡ Go v s log → (s ≡ m) × (v ≡ Ref here.current) }
    ensures resume { (m s : Machine) (here : Schedule) (p : ℕ) (log : List LogRow) → HasSchedule m here → NobodyAbove m.heap here → IsNotAmong p (NIL ∷ SCHEDULER_ASSOCIATION ∷ objects_in here) → resume (Ref p) m ≡ Go tt s log → GoesOn here (p ∷ objects_in here) s }
    ensures suspend { (m s : Machine) (here : Schedule) (log : List LogRow) → HasSchedule m here → suspend_active m ≡ Go tt s log → GoesOn here (others_in here) s }
    ensures signal { (m s : Machine) (here : Schedule) (semaphore : ℕ) (log : List LogRow) → HasSchedule m here → NobodyAbove m.heap here → IsAmong semaphore (lists_of here.semaphores) → signal (Ref semaphore) m ≡ Go tt s log → GoesOn here (objects_in here) s }
    ensures wait { (m s : Machine) (here : Schedule) (semaphore : ℕ) (log : List LogRow) → HasSchedule m here → NobodyAbove m.heap here → IsAmong semaphore (lists_of here.semaphores) → wait (Ref semaphore) m ≡ Go tt s log → GoesOn here (objects_in here) s }
{}

/// A heap of which the law speaks, and what the rules leave of it. Two processes of priority 1 and one of priority 2 wait on the
/// scheduler's lists, one of priority 3 waits at a semaphore, one of priority 2 runs, and a newcomer has priority 1.
pub fn worked_schedule_is_one()
    ensures schedule { HasSchedule (at_rest worked_heap) worked_schedule }
    ensures above { NobodyAbove worked_heap worked_schedule }
    ensures signalled { current_after (signal (Ref GATE)) ≡ Some (Ref HIGH) }
    ensures behind_its_kind { field_after (signal (Ref GATE)) MIDDLE NEXT_LINK_INDEX ≡ Some (Ref RUNNER) }
    ensures waited { current_after (wait (Ref GATE)) ≡ Some (Ref MIDDLE) }
    ensures behind_the_waiting { field_after (wait (Ref GATE)) HIGH NEXT_LINK_INDEX ≡ Some (Ref RUNNER) }
    ensures suspended { current_after suspend_active ≡ Some (Ref MIDDLE) }
    ensures resumed { current_after (resume (Ref NEWCOMER)) ≡ Some (Ref RUNNER) }
    ensures behind_the_low { field_after (resume (Ref NEWCOMER)) LOW_SECOND NEXT_LINK_INDEX ≡ Some (Ref NEWCOMER) }
{}

/// A run of j + k cycles is a run of j and then, where that didn't end or stop, a run of k.
pub fn runs_add_up()
    ensures { (events : List Line) (j k : ℕ) (m : Machine) → run events (j + k) m ≡ go_on events k (run events j m) }
{}

/// A run of k cycles that goes through ran k bytecodes more, and one that its last bytecode ended no more than that.
pub fn runs_count_bytecodes()
    ensures through { (events : List Line) (k : ℕ) (m n : Machine) → run events k m ≡ Ran Next n → n.cpu.ran ≡ m.cpu.ran + k }
    ensures ended { (events : List Line) (k : ℕ) (end : Step) (m n : Machine) → is_last end ≡ true → run events k m ≡ Ran end n → n.cpu.ran ≤ m.cpu.ran + k }
{}

/// A run of k cycles over a thinning runs as over the heap, or stops for the same reason with the same log, and is over a thinning
/// again.
pub fn a_run_respects_thinning()
    ensures { (events : List Line) (k : ℕ) (m s : Machine) → IsThinned m s → RunsAgree (run events k m) (run events k s) }
{}

/// What was said before changes neither the way of a rule nor what it says: a cycle, its bytecode alone, the start, the state that it goes
/// on with, park and the picture. So it changes no run.
pub fn what_was_said_before_changes_nothing()
    ensures cycle { (events : List Line) → IgnoresEarlier (cycle events) }
    ensures step { (events : List Line) → IgnoresEarlier (step events) }
    ensures begin { (state : State) → IgnoresEarlier (begin state) }
    ensures restore { (state : State) → IgnoresEarlier (restore state) }
    ensures park { IgnoresEarlier park }
    ensures draw { IgnoresEarlier park_and_draw }
    ensures picture { IgnoresEarlier picture }
    ensures run { (events : List Line) (k : ℕ) (z : List ℕ) (m : Machine) → run events k (with_earlier z m) ≡ run_with_earlier z (run events k m) }
{}

/// And a whole run of a machine that had said something is that of the machine that hadn't, with what was said before in front of all
/// that it says. Of the machine at rest over a heap it is the course of the heap.
pub fn a_whole_run_says_after_what_was_said()
    ensures machine { (z : List ℕ) (events : List Line) (steps : ℕ) (state : State) (m : Machine) → course_of events steps state (with_earlier z m) ≡ course_with_earlier z (course_of events steps state m) }
    ensures rest { (events : List Line) (steps : ℕ) (state : State) (h : Heap) → course_of events steps state (at_rest h) ≡ course events steps state h }
    ensures after { (z : List ℕ) (events : List Line) (steps : ℕ) (state : State) (h : Heap) → course_of events steps state (at_rest_after z h) ≡ course_with_earlier z (course events steps state h) }
    ensures said { (z : List ℕ) (e : Ending) → said_in (ending_with_earlier z e) ≡ z ++ said_in e }
{}

/// A start on a state respects thinning where the names of the state have their objects in the thinner heap. On no state it is a start.
pub fn a_start_on_a_state()
    ensures thin { (state : State) (m s : Machine) → IsThinned m s → HasState state s.heap → Agree (begin state m) (begin state s) }
    ensures plain { (m : Machine) → begin no_state m ≡ start m }
{}

/// A whole run over a thinning that has the objects of the state's names is parked over a thinning of what is parked over the heap, or
/// is stuck for the same reason after as many bytecodes.
pub fn a_whole_run_respects_thinning()
    ensures { (events : List Line) (steps : ℕ) (state : State) (h s : Heap) → IsThinned (at_rest h) (at_rest s) → HasState state s → EndingsAgree (ending events steps state h) (ending events steps state s) }
{}

/// The tests of the rules that write a value down never say no over a whole heap.
pub fn tests_never_say_no()
    ensures { (m : Machine) → IsWholeMachine m → AllThere m }
{}

/// Where the active context can state both pointers, as SmallIntegers, storing them is what it is without the tests of that. It can where a
/// context is loaded whose numbers are SmallIntegers, as those of an image are, and each rule that changes a pointer leaves it so: a fetch, a
/// jump, a push and a pop. Behind a byte of a method with no more code than an image may have, a block's pointer can be stated too.
pub fn pointers_can_be_stated()
    ensures tests { (m : Machine) → CanState m → store_registers m ≡ store_untested m }
    ensures load { (context : Value) (m s : Machine) (log : List LogRow) → StatesSmall m context → load context m ≡ Go tt s log → CanState s }
    ensures fetch { (m s : Machine) (byte : ℕ) (log : List LogRow) → CanState m → fetch m ≡ Go byte s log → CanState s }
    ensures jump { (distance : ℤ) (m s : Machine) (log : List LogRow) → CanState m → jump distance m ≡ Go tt s log → CanState s }
    ensures push { (v : Value) (m s : Machine) (log : List LogRow) → CanState m → push v m ≡ Go tt s log → CanState s }
    ensures pop { (n : ℕ) (m s : Machine) (log : List LogRow) → CanState m → pop n m ≡ Go tt s log → CanState s }
    ensures block { (m s : Machine) (byte : ℕ) (log : List LogRow) → RunsShort m → fetch m ≡ Go byte s log → stated (s.cpu.ip +ℤ pos 3) ≡ Some (s.cpu.ip +ℤ pos 3) }
{}

/// Each byte is in one range of the table, and does what that range says.
pub fn each_byte_has_one_range()
    ensures one { (events : List Line) (byte : ℕ) → byte < 2 ^ 8 → count_by (has_byte byte) (bytecodes events) ≡ 1 }
    ensures rule { (events : List Line) (byte : ℕ) (r : Range) → byte < 2 ^ 8 → Contains (bytecodes events) r → has_byte byte r ≡ true → bytecode events byte ≡ r.rule (byte - r.first) }
{}

/// What // leaves is what \\ answers. It is 0 or has the sign of the divisor, and is less than it in size.
pub fn quotient_and_remainder()
    ensures above { (a : ℤ) (n : ℕ) → 0 < n → (k : ℕ) × (k < n) × (remainder_down a (pos n) ≡ Some (pos k)) × ((rounded_down a (pos n) *ℤ pos n) +ℤ pos k ≡ a) }
    ensures below { (a : ℤ) (n : ℕ) → 0 < n → (k : ℕ) × (k < n) × (remainder_down a (minus n) ≡ Some (minus k)) × ((rounded_down a (minus n) *ℤ minus n) +ℤ minus k ≡ a) }
{}

/// SmallIntegers that operations give, or not.
pub fn worked_arithmetic()
    ensures sum_past_the_end { small_result sum (pos 16383) (pos 1) ≡ None }
    ensures quotient_past_the_end { small_result (divided quotient_down) (minus 16384) (minus 1) ≡ None }
    ensures down { small_result (divided quotient_down) (minus 7) (pos 2) ≡ Some (minus 4) }
    ensures left_over { small_result (divided remainder_down) (pos 7) (minus 2) ≡ Some (minus 1) }
    ensures to_zero { small_result (divided quotient_to_zero) (minus 7) (pos 2) ≡ Some (minus 3) }
    ensures exact { small_result (divided exact_quotient) (pos 7) (pos 2) ≡ None }
    ensures by_zero { small_result (divided quotient_down) (pos 7) (pos 0) ≡ None }
    ensures bits { small_result bits_and (minus 4) (pos 7) ≡ Some (pos 4) }
    ensures shifted_right { small_result shifted (minus 1) (minus 20) ≡ Some (minus 1) }
    ensures shifted_left { small_result shifted (pos 1) (pos 14) ≡ None }
{}

/// What a rule answers for a large integer reads as it. Equal numbers have the same SmallInteger, or objects of one class and body, and
/// no fewer bytes are that number.
pub fn a_large_answer_is_its_number()
    ensures value { (z : ℤ) (m s : Machine) (v : Value) (log : List LogRow) → in_range z ≡ Some z → large_answer z m ≡ Go v s log → number_at s.heap v ≡ Some z }
    ensures read { (m s : Machine) (v : Value) (found : Option ℤ) (log : List LogRow) → large_operand v m ≡ Go found s log → (s ≡ m) × (found ≡ number_at m.heap v) }
    ensures one { (z : ℤ) (m n s t : Machine) (v w : Value) (log rows : List LogRow) → large_answer z m ≡ Go v s log → large_answer z n ≡ Go w t rows → (int_of v ≡ int_of w) × (object_at s.heap v ≡ object_at t.heap w) }
    ensures fewest { (bytes : List ℕ) → All (λ b. b < 256) bytes → length (fewest_bytes (magnitude bytes)) ≤ length bytes }
{}

/// Large integers that operations give, or not.
pub fn worked_large_integers()
    ensures carried { large_result sum (pos 18446744073709551615) (pos 1) ≡ Some (pos 18446744073709551616) }
    ensures down { large_result (divided quotient_down) (minus 32768) (pos 3) ≡ Some (minus 10923) }
    ensures to_zero { large_result (divided quotient_to_zero) (minus 32768) (pos 3) ≡ Some (minus 10922) }
    ensures left_over { large_result (divided remainder_down) (minus 32768) (pos 3) ≡ Some (pos 1) }
    ensures bits { large_result large_and (minus 32768) (pos 65535) ≡ Some (pos 32768) }
    ensures shifted_right { large_result shifted (minus (2 ^ 127)) (minus 16384) ≡ Some (minus 1) }
    ensures shifted_left { large_result shifted (pos 1) (pos 127) ≡ None }
    ensures nothing_shifted { large_result shifted (pos 0) (pos 16383) ≡ Some (pos 0) }
    ensures bytes { fewest_bytes 32768 ≡ 0 ∷ 128 ∷ [] }
    ensures zeros { large_value (record { class = LARGE_NEGATIVE_INTEGER; body = Bytes (5 ∷ 0 ∷ 0 ∷ []) }) ≡ Some (minus 5) }
    ensures too_long { large_value (record { class = LARGE_POSITIVE_INTEGER; body = Bytes (replicate 17 0) }) ≡ None }
{}

/// The two ends of the range of large integers, as operand and as answer: one past each is none. The lowest value by -1 has no quotient,
/// and nothing is left of it.
pub fn worked_ends_of_the_range()
    ensures highest { large_value (record { class = LARGE_POSITIVE_INTEGER; body = Bytes (replicate 15 255 ++ 127 ∷ []) }) ≡ Some (pos (2 ^ 127 - 1)) }
    ensures past_the_highest { large_value (record { class = LARGE_POSITIVE_INTEGER; body = Bytes (replicate 15 0 ++ 128 ∷ []) }) ≡ None }
    ensures lowest { large_value (record { class = LARGE_NEGATIVE_INTEGER; body = Bytes (replicate 15 0 ++ 128 ∷ []) }) ≡ Some (minus (2 ^ 127)) }
    ensures past_the_lowest { large_value (record { class = LARGE_NEGATIVE_INTEGER; body = Bytes (1 ∷ replicate 14 0 ++ 128 ∷ []) }) ≡ None }
    ensures up { (large_result sum (pos (2 ^ 127 - 2)) (pos 1) ≡ Some (pos (2 ^ 127 - 1))) × (large_result sum (pos (2 ^ 127 - 1)) (pos 1) ≡ None) }
    ensures down { (large_result sum (minus (2 ^ 127 - 1)) (minus 1) ≡ Some (minus (2 ^ 127))) × (large_result sum (minus (2 ^ 127)) (minus 1) ≡ None) }
    ensures bytes { (fewest_bytes (2 ^ 127 - 1) ≡ replicate 15 255 ++ 127 ∷ []) × (fewest_bytes (2 ^ 127) ≡ replicate 15 0 ++ 128 ∷ []) }
    ensures negated { (large_result (divided exact_quotient) (minus (2 ^ 127)) (minus 1) ≡ None) × (large_result (divided quotient_down) (minus (2 ^ 127)) (minus 1) ≡ None) × (large_result (divided quotient_to_zero) (minus (2 ^ 127)) (minus 1) ≡ None) × (large_result (divided remainder_down) (minus (2 ^ 127)) (minus 1) ≡ Some (pos 0)) }
{}

/// The heaps of the worked values below are whole: their laws speak of something.
pub fn worked_heaps_are_whole()
    ensures { (code : List ℕ) → IsWholeMachine (at_rest (heap_running code)) }
{}

/// A context whose method pushes the receiver, pops it and jumps back, after 0 to 4 bytecodes.
pub fn base_image()
    ensures none { context_in (ending [] 0 no_state (heap_running base_code)) ≡ context_at 3 0 nil }
    ensures one { context_in (ending [] 1 no_state (heap_running base_code)) ≡ context_at 4 1 nil }
    ensures two { context_in (ending [] 2 no_state (heap_running base_code)) ≡ context_at 5 0 nil }
    ensures three { context_in (ending [] 3 no_state (heap_running base_code)) ≡ context_at 3 0 nil }
    ensures four { context_in (ending [] 4 no_state (heap_running base_code)) ≡ context_at 4 1 nil }
{}

/// The state of that machine: the clock goes on from the state that it began with, and names and the tick stay.
pub fn base_states()
    ensures clock { state_after (ending [] 2 no_state (heap_running base_code)) ≡ Some (record no_state { clock = 2 }) }
    ensures goes_on { state_after (ending [] 2 seven_before (heap_running base_code)) ≡ Some (record no_state { clock = 9 }) }
    ensures names { state_after (ending [] 3 full_state (heap_running base_code)) ≡ Some (record full_state { clock = 10 }) }
    ensures nothing { state_after (ending [] 0 full_state (heap_running base_code)) ≡ Some full_state }
{}

/// Codes that stop at their first bytecode, and one that stops at its second.
pub fn stuck_codes()
    ensures unused { ending [] 5 no_state (heap_running (126 ∷ [])) ≡ Stuck (ByCause Unused) 0 [] }
    ensures empty_stack { ending [] 5 no_state (heap_running (135 ∷ [])) ≡ Stuck (ByCause Stack) 0 [] }
    ensures over_the_end { ending [] 5 no_state (heap_running (151 ∷ [])) ≡ Stuck (ByCause Pointer) 0 [] }
    ensures no_code { ending [] 5 no_state (heap_running []) ≡ Stuck (ByCause Pointer) 0 [] }
    ensures no_field { ending [] 5 no_state (heap_running (117 ∷ 0 ∷ [])) ≡ Stuck (ByCause Shape) 1 [] }
    ensures no_receiver { ending [] 5 no_state (heap_running (176 ∷ [])) ≡ Stuck (ByCause Stack) 0 [] }
{}
