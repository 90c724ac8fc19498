// Laws of the program. No code calls these functions: what each of them ensures is the law.
ghost use Rattle.std.specs.Prelude.{◌<◌, ◌^◌, Bool, true, IsTrue, List, [], None, ◌≡◌, ◌≢◌, ℕ};
ghost use Rattle.long_names.specs.Heap.{Heap};
ghost use Rattle.long_names.specs.Kept.{kept, no_roots};
ghost use Rattle.image_format.specs.declared.opening.ImageHead.{ImageHead};
ghost use Rattle.image_format.specs.Valid.{IsImageHeap};
ghost use Rattle.image_format.specs.Text.{image_text};
ghost use Rattle.blue_model.specs.Base.{heap_running, base_code};
ghost use Rattle.blue_model.specs.Cycle.{ending};
ghost use Rattle.blue_model.specs.declared.event.Line.{Line};
ghost use Rattle.blue_model.specs.Contexts.{park};
ghost use Rattle.blue_model.specs.Loaded.{HasLoaded, start_on_kept};
ghost use Rattle.blue_model.specs.Logs.{course};
ghost use Rattle.blue_model.specs.Machine.{Machine, LogRow, Go, at_rest};
ghost use Rattle.blue_model.specs.State.{begin, no_state, state_of};
ghost use Rattle.contexts.specs.declared.stop.Stop.TheVariants.{Mem};
ghost use Rattle.long_names.specs.Counting.{Rose};
ghost use Rattle.loom_memory.specs.declared.memory.LoomMemory.{LoomMemory};
ghost use Rattle.loom_memory.specs.Memory.{loom_told};
ghost use Rattle.machine_run.specs.Run.{HaltsBy};
ghost use Rattle.machine_run.specs.States.{model_state};
ghost use Rattle.machine_run.specs.declared.running.Reason.TheVariants.{ByStop};
ghost use Rattle.object_memory.specs.declared.fault.MemFault.TheVariants.{Memory};
ghost use Rattle.loom_run.specs.Base.{base_bytes, text_of_ending};
ghost use Rattle.loom_host.specs.declared.outside.Role.{Role};
ghost use Rattle.loom_host.specs.declared.outside.Role.TheVariants.{Image, Events, Work};
ghost use Rattle.loom_words.specs.declared.status.Status.{Status};
ghost use Rattle.loom_run.specs.Completes.{CanEnd, HasRoom, IsConverted, IsMadeOf, IsOwnEnd, IsSource};
ghost use Rattle.loom_run.specs.Converts.{bytes_by, head_under, verb_for};
ghost use Rattle.loom_run.specs.declared.converting.Way.{Way};
ghost use Rattle.loom_run.specs.declared.converting.Way.TheVariants.{Listing, Assembling};
ghost use Rattle.text_lines.specs.Texts.{IsTextOf};
ghost use Rattle.image_format.specs.declared.opening.State.{State as Words};
ghost use Rattle.image_format.specs.declared.opening.TheConstants.{STATE_VERSION};
ghost use Rattle.loom_run.specs.Ends.{IsImageOf, bytes_of, head_of, image_of};
ghost use Rattle.loom_run.specs.Headline.{HeadlineBy, IsSameRun, SmallBy, TellsHeadline};
ghost use Rattle.loom_run.specs.Meanings.{Meanings};
ghost use Rattle.loom_run.specs.Parts.{IsFinished};
ghost use Rattle.loom_run.specs.Promise.{Promise};
ghost use Rattle.loom_run.specs.Worked.{HasBaseFiles, base_after, base_before, base_words};
ghost use Rattle.loom_run.specs.Refusals.{CameTo, CameToTraced, LeavesFiles, LeavesTraced, role_of, traced_role_of};
ghost use Rattle.loom_run.specs.Shows.{ShowsBy, TellsTrace};
ghost use Rattle.loom_words.specs.Status.{usage_of};
ghost use Rattle.loom_words.specs.declared.status.Status.TheVariants.{Done};
ghost use Rattle.loom_words.specs.Words.{Row, ToMake, ToRun, ToTrace, bad_word, make_of, row_of, trace_row_of, verb_of};

use loom_host::Host;

/// The base image as bytes, before two bytecodes and after them: its context's instruction pointer is field 1, 3 and then 5.
pub fn base_text()
    ensures before { image_text (heap_running base_code) ≡ base_bytes 7 }
    ensures after { text_of_ending (ending [] 2 no_state (heap_running base_code)) ≡ base_bytes 11 }
{}

/// Two runs over hosts that tell these roles, of one image, the same events and as many bytecodes, came to the same where each answers Done or Quit: the answer, what each
/// put to Transcript, the saved image, and the picture, whatever their cores, tables and work files.
pub fn headline_determines_the_files()
    ensures { (old new before now : Meanings) (row other : Row) (result status : Status) → IsFinished result → HeadlineBy result old new row → IsFinished status → HeadlineBy status before now other
        → bytes_of (new.roles Image) ≡ bytes_of (now.roles Image) → bytes_of (new.roles Events) ≡ bytes_of (now.roles Events) → row.steps ≡ other.steps → IsSameRun old new before now result status }
{}

/// The base image, no events and two bytecodes. Whoever answers Done or Quit then answers Done and wrote these 672 bytes, nothing to Transcript and no picture. The
/// promise isn't empty: a host that tells all may mean what it says of such a run, before it and after it.
pub fn worked_headline()
    ensures wrote { (before now : Meanings) (row : Row) (result : Status) → HeadlineBy result before now row → IsFinished result → row.steps ≡ 2
        → bytes_of (now.roles Image) ≡ base_bytes 7 → bytes_of (now.roles Events) ≡ [] → (result ≡ Done 2) × HasBaseFiles before now }
    ensures tells { TellsHeadline (λ role. true) }
    ensures asks { (verb_of base_words ≡ ToRun) × (bad_word base_words ≡ None) × ((row_of base_words).steps ≡ 2) }
    ensures promised { Promise (λ role. true) base_before base_after base_words (Done 2) }
    ensures files { (bytes_of (base_after.roles Image) ≡ base_bytes 7) × (bytes_of (base_after.roles Events) ≡ []) }
{}

/// That run may come to its end: the image and the events are right, there is room for all that the model does, and no call failed.
pub fn worked_end()
    ensures can_end { CanEnd (bytes_of (base_after.roles Image)) (bytes_of (base_after.roles Events)) (row_of base_words) base_before.faults base_after.faults }
    ensures roomy { (head : ImageHead) (heap : Heap) → IsImageOf (base_bytes 7) head heap → HasRoom (row_of base_words) (course [] 2 (model_state head.state) heap) }
{}

/// Where the model makes an object that takes more words than the core has, the answer of a run is neither Done nor Quit.
pub fn no_object_is_larger_than_the_core()
    ensures { (tells : Role → Bool) (before now : Meanings) (words : List (List ℕ)) (result : Status) → IsTrue (tells Image) → IsTrue (tells Events) → IsTrue (tells Work)
        → Promise tells before now words result → verb_of words ≡ ToRun → bad_word words ≡ None → SmallBy result now (row_of words) }
{}

/// Right words of a run, an image and events that are right, a core and a work file with room for all that the model does with them, and no fault
/// give the model's own end, or want of memory.
pub fn a_run_comes_to_its_end()
    ensures { (tells : Role → Bool) (before now : Meanings) (words : List (List ℕ)) (result : Status) → IsTrue (tells Image) → IsTrue (tells Events) → IsTrue (tells Work) → verb_of words ≡ ToRun → bad_word words ≡ None
        → Promise tells before now words result → CanEnd (bytes_of (now.roles Image)) (bytes_of (now.roles Events)) (row_of words) before.faults now.faults → IsOwnEnd result }
{}

/// Right words of a trace, and the same image, events, room and no fault, give the model's own end, or want of memory, too.
pub fn a_trace_comes_to_its_end()
    ensures { (tells : Role → Bool) (before now : Meanings) (words : List (List ℕ)) (result : Status) → IsTrue (tells Image) → IsTrue (tells Events) → IsTrue (tells Work) → verb_of words ≡ ToTrace → bad_word words ≡ None
        → Promise tells before now words result → CanEnd (bytes_of (now.roles Image)) (bytes_of (now.roles Events)) (trace_row_of words) before.faults now.faults → IsOwnEnd result }
{}

/// Over a host that tells what Image, Events, Work, Saved and Transcript hold, what `loom` promises of a trace gives, with Done or Quit, what
/// `Shows` says: the image's heap and state, the events' lines, the model's machine before its first bytecode and after so many, a line for
/// each of them in Saved, and what they said in Transcript.
pub fn a_trace_shows_the_run()
    ensures { (tells : Role → Bool) (before now : Meanings) (words : List (List ℕ)) (result : Status) → TellsTrace tells → Promise tells before now words result → verb_of words ≡ ToTrace → bad_word words ≡ None
        → ShowsBy result before now (trace_row_of words) }
{}

/// Right words of a making and no fault give Made, with as many objects as the image of the number has, or want of memory.
pub fn a_making_comes_to_its_end()
    ensures { (tells : Role → Bool) (before now : Meanings) (words : List (List ℕ)) (result : Status) → verb_of words ≡ ToMake → bad_word words ≡ None → Promise tells before now words result
        → ((role : Role) → Rose (before.faults role) (now.faults role) → ⊥) → IsMadeOf (make_of words).number result }
{}

/// Right words of a listing or an assembling, an image or a text that is right, and no fault give Listed or Assembled, or want of memory.
pub fn a_conversion_comes_to_its_end()
    ensures { (tells : Role → Bool) (before now : Meanings) (words : List (List ℕ)) (result : Status) (way : Way) → IsTrue (tells Image) → IsTrue (tells Work) → verb_of words ≡ verb_for way → bad_word words ≡ None
        → Promise tells before now words result → IsSource way (bytes_of (now.roles Image)) → ((role : Role) → Rose (before.faults role) (now.faults role) → ⊥) → IsConverted way result }
{}

/// An image and a text are two spellings of one heap and one state. What a listing writes of an image is a text, and what an assembling writes
/// of a text is an image. An assembling of a listing writes the bytes of an image of version 2 again, and of one of version 1 its heap in
/// version 2; and a listing of what was assembled writes the text again.
pub fn each_spelling_gives_the_other()
    ensures listed { (bytes : List ℕ) (head : ImageHead) (heap : Heap) → IsImageOf bytes head heap → IsTextOf (bytes_by Listing heap head.state) heap head.state }
    ensures assembled { (text : List ℕ) (heap : Heap) (state : Words) → IsTextOf text heap state → IsImageOf (bytes_by Assembling heap state) (head_under heap state) heap }
    ensures image { (bytes : List ℕ) (head : ImageHead) (heap g : Heap) (state : Words) → IsImageOf bytes head heap → IsTextOf (bytes_by Listing heap head.state) g state → head.opening.version ≡ STATE_VERSION → bytes_by Assembling g state ≡ bytes }
    ensures text { (text : List ℕ) (heap g : Heap) (state : Words) (head : ImageHead) → IsTextOf text heap state → IsImageOf (bytes_by Assembling heap state) head g → bytes_by Listing g head.state ≡ text }
{}

/// No refusal of the memory for want of memory ends a run, over any host: no call in a cycle takes any. That the picture alone wants memory then is
/// said where Work is told (`Stops`).
pub fn no_cycle_wants_memory<H: Host>()
    ensures { (m n : LoomMemory H H.Host) → HaltsBy (loom_told H.Host m) (loom_told H.Host n) (ByStop (Mem Memory)) → ⊥ }
{}

/// No answer of a run but Usage comes at once: the role that it is about was attached before it, or the last one that a run attaches before it can come
/// to the answer.
pub fn nothing_at_once()
    ensures { (tells : Role → Bool) (before now : Meanings) (words : List (List ℕ)) (result : Status) → Promise tells before now words result → verb_of words ≡ ToRun → usage_of result ≡ None
        → CameTo tells before now (row_of words) (role_of result) }
{}

/// No answer of a trace but Usage comes at once either. Saved is attached for the lines before the machine starts: so the answers that only a machine
/// gives, and the write faults, come behind that.
pub fn nothing_of_a_trace_at_once()
    ensures { (tells : Role → Bool) (before now : Meanings) (words : List (List ℕ)) (result : Status) → Promise tells before now words result → verb_of words ≡ ToTrace → usage_of result ≡ None
        → CameToTraced tells before now (trace_row_of words) (traced_role_of result) }
{}

/// A refusal leaves Display as it was, unless it came in drawing or in the last line; and Saved too, unless it may come in saving. A trace always
/// leaves Display, and Saved unless the answer may come once that is attached for the lines.
pub fn what_a_refusal_leaves()
    ensures files { (tells : Role → Bool) (before now : Meanings) (words : List (List ℕ)) (result : Status) → Promise tells before now words result → verb_of words ≢ ToTrace → LeavesFiles result before now }
    ensures traced { (tells : Role → Bool) (before now : Meanings) (words : List (List ℕ)) (result : Status) → Promise tells before now words result → verb_of words ≡ ToTrace → LeavesTraced result before now }
{}

/// What is saved of a parked machine is an image, where what is kept of its heap is one's. And what is read of those bytes, as the image of a
/// run, is what was saved: the kept heap, and the machine's state. So the run starts as the machine does on what is kept of it, in the context
/// that it was parked in, with its home, its method and its receiver; and its course is the model's from there.
pub fn a_run_goes_on_from_what_was_saved()
    ensures image { (m : Machine) → IsImageHeap (kept m.heap no_roots) → (state_of m).tick < 2 ^ 32 → IsImageOf (image_of m) (head_of m) (kept m.heap no_roots) }
    ensures heap { (m : Machine) (head : ImageHead) (heap : Heap) → IsImageOf (image_of m) (head_of m) (kept m.heap no_roots) → IsImageOf (image_of m) head heap
        → heap ≡ kept m.heap no_roots }
    ensures state { (m : Machine) (head : ImageHead) (heap : Heap) → IsImageOf (image_of m) (head_of m) (kept m.heap no_roots) → IsImageOf (image_of m) head heap
        → model_state head.state ≡ state_of m }
    ensures starts { (m : Machine) (head : ImageHead) (heap : Heap) → IsImageOf (image_of m) (head_of m) (kept m.heap no_roots) → IsImageOf (image_of m) head heap
        → begin (model_state head.state) (at_rest heap) ≡ start_on_kept m }
    ensures registers { (before m s : Machine) (head : ImageHead) (heap : Heap) (rows log : List LogRow) → park before ≡ Go tt m rows → IsImageOf (image_of m) (head_of m) (kept m.heap no_roots)
        → IsImageOf (image_of m) head heap → begin (model_state head.state) (at_rest heap) ≡ Go tt s log → HasLoaded m s }
    ensures course { (m : Machine) (head : ImageHead) (heap : Heap) → IsImageOf (image_of m) (head_of m) (kept m.heap no_roots) → IsImageOf (image_of m) head heap
        → (lines : List Line) (steps : ℕ) → course lines steps (model_state head.state) heap ≡ course lines steps (state_of m) (kept m.heap no_roots) }
{}
