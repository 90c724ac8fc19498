// The whole program, in the order of a run. What the steps do stands in `reading`, `machine` and `writing`, a making in `making`, a listing
// and an assembling in `converting`, and a trace in `following`.
ghost use Rattle.std.specs.Prelude.{◌≡◌, Bool, false, IsTrue, IfOk, IfErr};
ghost use Rattle.loom_host.specs.declared.outside.Role.{Role};
ghost use Rattle.loom_host.specs.declared.outside.Role.TheVariants as role;
ghost use Rattle.blue_model.specs.Endings.{HasCounted};
ghost use Rattle.blue_model.specs.Logs.{Course, course};
ghost use Rattle.contexts.specs.Keeping.{is_kept};
ghost use Rattle.long_names.specs.Heap.{Heap};
ghost use Rattle.disk_objects.specs.Disk.{disk_room};
ghost use Rattle.image_reader.specs.Loaded.{heap_on};
ghost use Rattle.image_memory.specs.Image.{HasEnded, HasImage};
ghost use Rattle.loom_memory.specs.Memory.{loom_lender, loom_now, loom_rest, loom_told, IsSound};
ghost use Rattle.machine_run.specs.States.{model_state};
ghost use Rattle.object_memory.specs.Told.{IsReady};
ghost use Rattle.loom_words.specs.Command.{HasLimits, row_for};
ghost use Rattle.loom_run.specs.Headline.{HeadlineBy, TellsHeadline};
ghost use Rattle.loom_run.specs.Meanings.{meanings, LeavesBut, Meanings};
ghost use Rattle.loom_run.specs.Promise.{Promise};
ghost use Rattle.loom_run.specs.Stages.{Listening, Finishing, written_roles};
ghost use Rattle.loom_run.specs.Steps.{BeginsImage, Came, CameThrough, HasBounds, RunEnds, Uses, WrittenEnds};
ghost use Rattle.loom_words.specs.Words.{ToRun, row_of, texts_of, verb_of};

use crate::converting::{Way, convert};
use crate::following::trace_command;
use crate::machine::{run_machine, wind_up};
use crate::making::make_image;
use crate::reading::read_all;
use crate::status::status_of_end;
use crate::writing::{tell, write_display, write_saved};
use disk_objects::{DiskObjects, DiskRest};
use event_file::EventList;
use image_format::State;
use image_memory::begin_memory;
use image_reader::Loaded;
use loom_host::Host;
use loom_memory::{CoreTables, LoomMemory};
use loom_words::{Asked, Command, Status, asked_of};
use machine_run::{Finished, NoObserver, Observer};
use std::alloc::Global;

/// What a run that went through leaves to be written.
#[derive(Drop)]
pub struct Ended {
    pub finished: Finished,
    /// The name that the next new object takes.
    pub next: u32,
}

/// Does what the words after the program's name ask for: `run IMAGE EVENTS WORK SAVED DISPLAY CORE ENTRIES ROOM STEPS`,
/// `make NUMBER FILE`, `list IMAGE WORK TEXT`, `asm TEXT WORK IMAGE`, or `trace IMAGE EVENTS WORK TEXT CORE ENTRIES ROOM STEPS`. The words are
/// checked, and the last line goes to Notes.
///
/// A run: Work is attached; then Image, which is read to its end, its objects going to Work; then Events. The memory is
/// made. The machine starts, runs STEPS bytecodes, or fewer where one ends it, and parks; what it says goes to Transcript as it is said.
/// What nothing holds is freed. Saved is attached, the image is written to it, and it is ended; then Display is attached, and the picture written to it. The
/// first refusal ends the run: what comes later isn't attached, and only the line is still written.
///
/// A making: the image of the number is made; Saved is attached, the image is written to it, and it is ended.
///
/// A listing or an assembling: Work is attached; then Image, which is read to its end, as an image or as a text, its objects going to Work;
/// then Saved, the text or the image is written to it, and it is ended.
///
/// A trace: Work is attached; then Image, which is read as in a run; then Events; then Saved, for the lines. The memory is made. The machine
/// starts, and runs STEPS bytecodes, or fewer where one ends it; behind each its line is put to Saved, and what it says goes to Transcript as it
/// is said. Then Saved is ended, after a stop too, but not where a line couldn't be put. No image is saved, and nothing is drawn.
///
/// What a run comes to that answers Done or Quit is `headline`; what every answer says is `promise`.
pub fn loom<H: Host>(alloc: Global, host: &mut H, words: &[String]) -> Status
    ensures promise { Promise H.tells (meanings H.Host host.old) (meanings H.Host host.new) (texts_of words.now) result }
    ensures headline { TellsHeadline H.tells → verb_of (texts_of words.now) ≡ ToRun → HeadlineBy result (meanings H.Host host.old) (meanings H.Host host.new) (row_of (texts_of words.now)) }
{
    loom_observed(alloc, host, words, &mut NoObserver)
}

/// Does what `loom` does, and tells an observer of a run at every 65,536th bytecode.
pub fn loom_observed<H: Host, O: Observer>(
    alloc: Global,
    host: &mut H,
    words: &[String],
    observer: &mut O,
) -> Status
    ensures promise { Promise H.tells (meanings H.Host host.old) (meanings H.Host host.new) (texts_of words.now) result }
    ensures headline { TellsHeadline H.tells → verb_of (texts_of words.now) ≡ ToRun → HeadlineBy result (meanings H.Host host.old) (meanings H.Host host.new) (row_of (texts_of words.now)) }
{
    match asked_of(words) {
        Ok(Asked::Run(command)) => {
            let status = run_command(alloc, host, &command, observer);
            tell(host, status)
        }
        Ok(Asked::Make(making)) => {
            let status = make_image(alloc, host, &making);
            tell(host, status)
        }
        Ok(Asked::Trace(command)) => {
            let status = trace_command(alloc, host, &command);
            tell(host, status)
        }
        Ok(Asked::List(conversion)) => {
            let status = convert(alloc, host, &conversion, Way::Listing);
            tell(host, status)
        }
        Ok(Asked::Assemble(conversion)) => {
            let status = convert(alloc, host, &conversion, Way::Assembling);
            tell(host, status)
        }
        Err(word) => tell(host, Status::Usage { word }),
    }
}

// The run that a command asks for, without its last line.
fn run_command<H: Host, O: Observer>(
    alloc: Global,
    host: &mut H,
    command: &Command<'_>,
    observer: &mut O,
) -> Status
    requires limits { HasLimits command.now }
    ensures ends { RunEnds H.tells (meanings H.Host host.old) (meanings H.Host host.new) (row_for command.now) result }
{
    match read_all(alloc, host, command) {
        Ok(read) => run_under(
            alloc,
            host,
            read.rest,
            &read.loaded,
            &read.events,
            command,
            observer,
        ),
        Err(status) => status,
    }
}

// The memory is made, the machine runs, and the memory is wound up.
fn run_under<H: Host, O: Observer>(
    alloc: Global,
    host: &mut H,
    rest: DiskRest,
    loaded: &Loaded,
    events: &EventList,
    command: &Command<'_>,
    observer: &mut O,
) -> Status
    requires limits { HasLimits command.now }
    requires image { HasImage H.Host host.old rest loaded.now }
    requires room { command.now.room ≡ disk_room rest }
    ensures ends { (before : Meanings) → Came H.tells before (meanings H.Host host.old) (row_for command.now) Listening loaded.now.state (heap_on H.Host host.old rest loaded.now.next) events.now
        → RunEnds H.tells before (meanings H.Host host.new) (row_for command.now) result }
{
    let Ok(tables) = CoreTables::new(alloc, command.core, command.entries) else {
        return Status::OutOfMemory;
    };
    let disk = DiskObjects::again(host, rest);
    let mut memory = begin_memory(disk, loaded, tables, command.core, command.entries);
    let run = run_memory(alloc, &mut memory, events, &loaded.state, command, observer);
    let disk = memory.into_disk();
    match run {
        Ok(ended) => {
            let (host, rest) = disk.apart();
            write_kept(alloc, host, rest, &ended, command)
        }
        Err(status) => {
            let _host = disk.into_host();
            status
        }
    }
}

// The machine runs, and the memory is wound up.
fn run_memory<H: Host, O: Observer>(
    alloc: Global,
    memory: &mut LoomMemory<'_, H>,
    events: &EventList,
    state: &State,
    command: &Command<'_>,
    observer: &mut O,
) -> Result<Ended, Status>
    requires sound { IsSound H.Host memory.old }
    requires ready { IsReady (loom_told H.Host memory.old) }
    requires begins { IsTrue (H.tells role.Work) → (h : Heap) × BeginsImage h state.now (loom_told H.Host memory.old) }
    requires bounds { HasBounds (row_for command.now) (loom_told H.Host memory.old) }
    ensures counted { IfOk result (λ ended. HasCounted ended.finished.end ended.finished.ran command.now.steps) }
    ensures kept { IfOk result (λ ended. is_kept ended.finished.end ≡ false) }
    ensures through { IfOk result (λ ended. (left : Heap) × (IsTrue (H.tells role.Work) → HasEnded H.Host (loom_now memory.new) (loom_rest memory.new) ended.next left)
        × ((before : Meanings) (h : Heap) → Came H.tells before (meanings H.Host (loom_now memory.old)) (row_for command.now) Listening state.now h events.now
        → (IsTrue (H.tells role.Work) → BeginsImage h state.now (loom_told H.Host memory.old))
        → Came H.tells before (meanings H.Host (loom_now memory.new)) (row_for command.now) Finishing state.now h events.now
        × (IsTrue (H.tells role.Work) → CameThrough H.tells before (meanings H.Host (loom_now memory.new)) (row_for command.now) ended.finished left (course events.now command.now.steps (model_state state.now) h)))) }
    ensures ends { IfErr result (λ status. (before : Meanings) (h : Heap) → Came H.tells before (meanings H.Host (loom_now memory.old)) (row_for command.now) Listening state.now h events.now
        → (IsTrue (H.tells role.Work) → BeginsImage h state.now (loom_told H.Host memory.old))
        → RunEnds H.tells before (meanings H.Host (loom_now memory.new)) (row_for command.now) status) }
    ensures lender { loom_lender memory.new ≡ loom_lender memory.old }
{
    let finished = run_machine(alloc, memory, events, state, command, observer)?;
    let next = wind_up(memory, command, finished.ran)?;
    Ok(Ended { finished, next })
}

/// Attaches Saved by its word, writes the image of what the machine left, and ends it; then attaches Display by its word, and writes the picture. The answer
/// is that of the run, or of the first refusal. The host may tell more than is asked about: a run that reads no Image takes `tells` without it.
pub fn write_kept<H: Host>(
    alloc: Global,
    host: &mut H,
    rest: DiskRest,
    ended: &Ended,
    command: &Command<'_>,
) -> Status
    requires kept { is_kept ended.now.finished.end ≡ false }
    requires counted { HasCounted ended.now.finished.end ended.now.finished.ran command.now.steps }
    requires ended { IsTrue (H.tells role.Work) → (left : Heap) × HasEnded H.Host host.old rest ended.now.next left }
    ensures ends { (tells : Role → Bool) → ((role : Role) → IsTrue (tells role) → IsTrue (H.tells role))
        → (before : Meanings) (left : Heap) (c : Course) → Uses tells before (meanings H.Host host.old) (row_for command.now) Finishing
        → (IsTrue (tells role.Work) → HasEnded H.Host host.old rest ended.now.next left × CameThrough tells before (meanings H.Host host.old) (row_for command.now) ended.now.finished left c)
        → WrittenEnds tells before (meanings H.Host host.new) (row_for command.now) result c }
    ensures others { LeavesBut written_roles (meanings H.Host host.old) (meanings H.Host host.new) }
{
    let state = &ended.finished.state;
    if let Err(status) = write_saved(alloc, host, rest, ended.next, state, command) {
        return status;
    }
    match write_display(host, ended.finished.picture.bytes(), command) {
        Ok(()) => status_of_end(&ended.finished),
        Err(status) => status,
    }
}
