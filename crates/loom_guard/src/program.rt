// The whole program, over a host and a vault.
ghost use Rattle.std.specs.Prelude.{◌≡◌, ◌≤◌, [], Bool, IsTrue};
ghost use Rattle.loom_host.specs.declared.outside.Role.{Role};
ghost use Rattle.loom_host.specs.declared.outside.Role.TheVariants as role;
ghost use Rattle.disk_objects.specs.Disk.{disk_room};
ghost use Rattle.image_reader.specs.Loaded.{heap_on};
ghost use Rattle.image_memory.specs.Image.{HasImage};
ghost use Rattle.machine_run.specs.States.{model_state};
ghost use Rattle.checkpoint.specs.Keeping.{IsLast, serial_of};
ghost use Rattle.guarded_run.specs.Course.{guarded_course};
ghost use Rattle.guarded_run.specs.Legs.{guarded_first};
ghost use Rattle.loom_words.specs.Command.{HasLimits, row_for};
ghost use Rattle.loom_words.specs.Kept.{Else, ToGuard, ToResume, guard_row_of, kept_verb_of, resume_row_of};
ghost use Rattle.loom_words.specs.Words.{ToRun, row_of, texts_of, verb_of};
ghost use Rattle.loom_run.specs.Ends.{bytes_of};
ghost use Rattle.loom_run.specs.Headline.{HeadlineBy, TellsHeadline};
ghost use Rattle.loom_run.specs.Meanings.{meanings, LeavesBut, Meanings};
ghost use Rattle.loom_run.specs.Stages.{Listening};
ghost use Rattle.loom_run.specs.Steps.{Uses};
ghost use Rattle.loom_guard.specs.Headline.{GuardedHeadlineBy, ResumedHeadlineBy, TellsGuarded};
ghost use Rattle.loom_guard.specs.Promise.{KeptPromise};
ghost use Rattle.loom_guard.specs.Steps.{GuardedEnds, KeptRunEnds, later_roles};
ghost use Rattle.loom_guard.specs.Vaults.{vault_meanings};
ghost use Rattle.loom_guard.specs.Ways.{Guarding, Resuming};

use crate::guarded::run_legs;
use crate::resuming::read_kept;
use crate::vaults::{open_fresh, open_kept};
use checkpoint::{Point, Vault};
use loom_host::Host;
use loom_run::loom_observed;
use loom_run::steps::{Read, read_all, tell, write_kept};
use loom_words::{Command, Guarded, Kept, Status, kept_of};
use machine_run::{NoObserver, Observer};
use std::alloc::Global;

/// Does what the words after the program's name ask for, as `loom` of loom_run does, and two commands more:
/// `guard IMAGE EVENTS WORK SAVED DISPLAY CORE ENTRIES ROOM STEPS VAULT` and `resume VAULT EVENTS WORK SAVED DISPLAY CORE ENTRIES ROOM STEPS`. The words are
/// checked, and the last line goes to Notes.
///
/// A guarded run: the vault is opened, new, and its gates are closed. Then it is a run, in which each time that primitive 97 is done the machine is kept in the
/// vault, under the next serial, and goes on as what was loaded of it.
///
/// A resumed run: the vault is opened, and its last checkpoint is found and read, no more of it than tells what the whole is, whatever length its gate
/// states. Then it is a guarded run of this image, which has no Image to attach.
///
/// What a run comes to that answers Done or Quit is `headline`, `guarded` or `resumed`; what every answer says is `promise`.
pub fn loom_kept<H: Host, V: Vault>(
    alloc: Global,
    host: &mut H,
    vault: &mut V,
    words: &[String],
) -> Status
    ensures promise { KeptPromise H.tells V.tells (meanings H.Host host.old) (meanings H.Host host.new) (vault_meanings V.Vault vault.old) (vault_meanings V.Vault vault.new) (texts_of words.now) result }
    ensures headline { TellsHeadline H.tells → kept_verb_of (texts_of words.now) ≡ Else → verb_of (texts_of words.now) ≡ ToRun → HeadlineBy result (meanings H.Host host.old) (meanings H.Host host.new) (row_of (texts_of words.now)) }
    ensures guarded { TellsGuarded H.tells → IsTrue (H.tells role.Image) → kept_verb_of (texts_of words.now) ≡ ToGuard
        → GuardedHeadlineBy result (bytes_of (H.roles host.new role.Image)) V.tells (meanings H.Host host.old) (meanings H.Host host.new) (V.state vault.new) (guard_row_of (texts_of words.now)) }
    ensures resumed { TellsGuarded H.tells → IsTrue V.tells → kept_verb_of (texts_of words.now) ≡ ToResume
        → ResumedHeadlineBy result (V.state vault.old) (meanings H.Host host.old) (meanings H.Host host.new) (V.state vault.new) (resume_row_of (texts_of words.now)) }
{
    loom_kept_observed(alloc, host, vault, words, &mut NoObserver)
}

/// Does what `loom_kept` does, and tells an observer of a run, of all its legs, at every 65,536th bytecode.
pub fn loom_kept_observed<H: Host, V: Vault, O: Observer>(
    alloc: Global,
    host: &mut H,
    vault: &mut V,
    words: &[String],
    observer: &mut O,
) -> Status
    ensures promise { KeptPromise H.tells V.tells (meanings H.Host host.old) (meanings H.Host host.new) (vault_meanings V.Vault vault.old) (vault_meanings V.Vault vault.new) (texts_of words.now) result }
    ensures headline { TellsHeadline H.tells → kept_verb_of (texts_of words.now) ≡ Else → verb_of (texts_of words.now) ≡ ToRun → HeadlineBy result (meanings H.Host host.old) (meanings H.Host host.new) (row_of (texts_of words.now)) }
    ensures guarded { TellsGuarded H.tells → IsTrue (H.tells role.Image) → kept_verb_of (texts_of words.now) ≡ ToGuard
        → GuardedHeadlineBy result (bytes_of (H.roles host.new role.Image)) V.tells (meanings H.Host host.old) (meanings H.Host host.new) (V.state vault.new) (guard_row_of (texts_of words.now)) }
    ensures resumed { TellsGuarded H.tells → IsTrue V.tells → kept_verb_of (texts_of words.now) ≡ ToResume
        → ResumedHeadlineBy result (V.state vault.old) (meanings H.Host host.old) (meanings H.Host host.new) (V.state vault.new) (resume_row_of (texts_of words.now)) }
{
    match kept_of(words) {
        Ok(None) => loom_observed(alloc, host, words, observer),
        Ok(Some(Kept::Guard(guarded))) => {
            let status = guard(alloc, host, vault, &guarded, observer);
            tell(host, status)
        }
        Ok(Some(Kept::Resume(guarded))) => {
            let status = resume(alloc, host, vault, &guarded, observer);
            tell(host, status)
        }
        Err(word) => tell(host, Status::Usage { word }),
    }
}

// A run from an image, into a vault that is new, without its last line.
fn guard<H: Host, V: Vault, O: Observer>(
    alloc: Global,
    host: &mut H,
    vault: &mut V,
    guarded: &Guarded<'_>,
    observer: &mut O,
) -> Status
    requires limits { HasLimits guarded.now.command }
    ensures ends { KeptRunEnds Guarding H.tells V.tells (meanings H.Host host.old) (meanings H.Host host.new) (vault_meanings V.Vault vault.old) (vault_meanings V.Vault vault.new) (row_for guarded.now.command) guarded.now.vault.now result }
{
    if let Err(status) = open_fresh(vault, guarded.vault) {
        return status;
    }
    match read_all(alloc, host, &guarded.command) {
        Ok(read) => run_guarded(alloc, host, read, vault, None, &guarded.command, observer),
        Err(status) => status,
    }
}

// A run that goes on from the vault's last checkpoint, without its last line.
fn resume<H: Host, V: Vault, O: Observer>(
    alloc: Global,
    host: &mut H,
    vault: &mut V,
    guarded: &Guarded<'_>,
    observer: &mut O,
) -> Status
    requires limits { HasLimits guarded.now.command }
    ensures ends { KeptRunEnds Resuming H.tells V.tells (meanings H.Host host.old) (meanings H.Host host.new) (vault_meanings V.Vault vault.old) (vault_meanings V.Vault vault.new) (row_for guarded.now.command) guarded.now.vault.now result }
{
    match open_kept(alloc, vault, guarded.vault, guarded.command.room) {
        Ok((point, image)) => {
            match read_kept(alloc, host, image.bytes(), &guarded.command) {
                Ok(read) => run_guarded(
                    alloc,
                    host,
                    read,
                    vault,
                    Some(point),
                    &guarded.command,
                    observer,
                ),
                Err(status) => status,
            }
        }
        Err(status) => status,
    }
}

// The machine runs, leg by leg, and what it left is written.
fn run_guarded<H: Host, V: Vault, O: Observer>(
    alloc: Global,
    host: &mut H,
    read: Read,
    vault: &mut V,
    last: Option<Point>,
    command: &Command<'_>,
    observer: &mut O,
) -> Status
    requires limits { HasLimits command.now }
    requires image { HasImage H.Host host.old read.rest read.loaded }
    requires room { command.now.room ≡ disk_room read.rest }
    requires last { IsTrue V.tells → IsLast (V.state vault.old) last }
    ensures ends { (tells : Role → Bool) → ((role : Role) → IsTrue (tells role) → IsTrue (H.tells role)) → (before : Meanings) → Uses tells before (meanings H.Host host.old) (row_for command.now) Listening
        → GuardedEnds tells V.tells before (meanings H.Host host.new) (vault_meanings V.Vault vault.old) (vault_meanings V.Vault vault.new) (row_for command.now) read.events
        (guarded_first (serial_of last) [] (model_state read.loaded.state) (heap_on H.Host host.old read.rest read.loaded.next))
        (guarded_course read.events command.now.steps (serial_of last) (model_state read.loaded.state) (heap_on H.Host host.old read.rest read.loaded.next)) result }
    ensures others { LeavesBut later_roles (meanings H.Host host.old) (meanings H.Host host.new) }
    ensures vault_later { V.faults vault.old ≤ V.faults vault.new }
{
    match run_legs(
        alloc,
        host,
        read.rest,
        &read.loaded,
        &read.events,
        vault,
        last,
        command,
        observer,
    ) {
        Ok((rest, ended)) => write_kept(alloc, host, rest, &ended, command),
        Err(status) => status,
    }
}
