// The words of the commands that keep checkpoints in a vault.
ghost use Rattle.std.specs.Prelude.{◌≡◌, ◌≢◌, ◌∷◌, ◌++◌, codes, List, [], ℕ, IfOk, IfErr, Some, not};
ghost use Rattle.loom_words.specs.Command.{HasLimits, row_for};
ghost use Rattle.loom_words.specs.Kept.{IsGuard, IsKept, IsResume, bad_kept, guard_checks, resume_checks, vault_checks};
ghost use Rattle.loom_words.specs.Words.{Check, bad_from, error_of, is_none_at, texts_of};

use crate::words::{Command, Files, behind, files_of, next_word, numbers_of};

/// A run with a vault: the run, and the file of the vault. A resumed run has no image but the one in the vault, so its `command.image` is empty.
#[derive(Clone, Copy, Debug)]
pub struct Guarded<'a> {
    pub command: Command<'a>,
    pub vault: &'a str,
}

/// A command that keeps checkpoints.
#[derive(Clone, Copy, Debug)]
pub enum Kept<'a> {
    /// A run whose checkpoints go to a fresh vault.
    Guard(Guarded<'a>),
    /// A run that goes on from the last checkpoint in a vault.
    Resume(Guarded<'a>),
}

// Whether a word is one of the files of a run.
fn is_file(files: &Files<'_>, word: &str) -> bool
    ensures { (command : List ℕ) (others : List (List ℕ)) → is_none_at (1 ∷ 2 ∷ 3 ∷ 4 ∷ 5 ∷ []) (command ∷ files.now.image.now ∷ files.now.events.now ∷ files.now.work.now ∷ files.now.saved.now ∷ files.now.display.now ∷ others) word.now ≡ not result }
{
    word == files.image
        || word == files.events
        || word == files.work
        || word == files.saved
        || word == files.display
}

// The guarded run that the words behind `guard` state: `IMAGE EVENTS WORK SAVED DISPLAY CORE ENTRIES ROOM STEPS VAULT`. VAULT is none of the files.
// The error is the position of the first bad, missing or extra word.
fn guarded_of(words: &[String]) -> Result<Guarded<'_>, u32>
    ensures bad { error_of result ≡ bad_from 2 guard_checks (codes "guard" ∷ texts_of words.now) (texts_of words.now) }
    ensures row { IfOk result (λ g. IsGuard (codes "guard" ∷ texts_of words.now) (row_for g.command) g.vault.now) }
    ensures limits { IfOk result (λ g. HasLimits g.command) }
{
    let (files, words) = files_of(words)?;
    let (numbers, words) = numbers_of(words, 7)?;
    let (vault, words) = next_word(words, 11)?;
    if is_file(&files, vault) {
        return Err(11);
    }
    if !words.is_empty() {
        return Err(12);
    }
    Ok(Guarded {
        command: Command {
            image: files.image,
            events: files.events,
            work: files.work,
            saved: files.saved,
            display: files.display,
            core: numbers.core,
            entries: numbers.entries,
            room: numbers.room,
            steps: numbers.steps,
        },
        vault,
    })
}

// The files of a resumed run.
#[derive(Clone, Copy, Debug)]
struct VaultFiles<'a> {
    vault: &'a str,
    events: &'a str,
    work: &'a str,
    saved: &'a str,
    display: &'a str,
}

// The files that the words behind `resume` state, `VAULT EVENTS WORK SAVED DISPLAY`, and the words behind them. VAULT is none of the others, WORK
// neither, and DISPLAY none of those before it. The error is the position of the first bad or missing word.
fn vault_files_of(words: &[String]) -> Result<(VaultFiles<'_>, &[String]), u32>
    ensures bad { (command : List ℕ) (checks : List Check) → IfErr result (λ at. bad_from 2 (vault_checks ++ checks) (command ∷ texts_of words.now) (texts_of words.now) ≡ Some at) }
    ensures first { IfOk result (λ r. texts_of words.now ≡ r.0.vault.now ∷ r.0.events.now ∷ r.0.work.now ∷ r.0.saved.now ∷ r.0.display.now ∷ texts_of r.1.now) }
    ensures work_apart { IfOk result (λ r. (r.0.work.now ≢ r.0.events.now) × (r.0.work.now ≢ r.0.saved.now) × (r.0.work.now ≢ r.0.display.now)) }
    ensures display_apart { IfOk result (λ r. (r.0.display.now ≢ r.0.events.now) × (r.0.display.now ≢ r.0.saved.now)) }
    ensures vault_apart { IfOk result (λ r. (r.0.vault.now ≢ r.0.events.now) × (r.0.vault.now ≢ r.0.work.now) × (r.0.vault.now ≢ r.0.saved.now) × (r.0.vault.now ≢ r.0.display.now)) }
{
    let (vault, words) = next_word(words, 2)?;
    let (events, words) = next_word(words, 3)?;
    if events == vault {
        return Err(3);
    }
    let (work, words) = next_word(words, 4)?;
    if work == vault || work == events {
        return Err(4);
    }
    let (saved, words) = next_word(words, 5)?;
    if saved == vault || saved == work {
        return Err(5);
    }
    let (display, words) = next_word(words, 6)?;
    if display == vault || display == events || display == work || display == saved {
        return Err(6);
    }
    Ok((
        VaultFiles {
            vault,
            events,
            work,
            saved,
            display,
        },
        words,
    ))
}

// The resumed run that the words behind `resume` state: `VAULT EVENTS WORK SAVED DISPLAY CORE ENTRIES ROOM STEPS`. The error is the position of the
// first bad, missing or extra word.
fn resumed_of(words: &[String]) -> Result<Guarded<'_>, u32>
    ensures bad { error_of result ≡ bad_from 2 resume_checks (codes "resume" ∷ texts_of words.now) (texts_of words.now) }
    ensures row { IfOk result (λ g. IsResume (codes "resume" ∷ texts_of words.now) (row_for g.command) g.vault.now) }
    ensures limits { IfOk result (λ g. HasLimits g.command) }
{
    let (files, words) = vault_files_of(words)?;
    let (numbers, words) = numbers_of(words, 7)?;
    if !words.is_empty() {
        return Err(11);
    }
    Ok(Guarded {
        command: Command {
            image: "",
            events: files.events,
            work: files.work,
            saved: files.saved,
            display: files.display,
            core: numbers.core,
            entries: numbers.entries,
            room: numbers.room,
            steps: numbers.steps,
        },
        vault: files.vault,
    })
}

/// What the words after the program's name ask for, where the first is `guard` or `resume`: a guarded or a resumed run. None where it is neither, also
/// of no words. The error is the position, from 1, of the first bad, missing or extra word.
pub fn kept_of(words: &[String]) -> Result<Option<Kept<'_>>, u32>
    ensures bad { error_of result ≡ bad_kept (texts_of words.now) }
    ensures kept { IfOk result (IsKept (texts_of words.now)) }
{
    if let Some(others) = behind(words, "guard") {
        return Ok(Some(Kept::Guard(guarded_of(others)?)));
    }
    if let Some(others) = behind(words, "resume") {
        return Ok(Some(Kept::Resume(resumed_of(others)?)));
    }
    Ok(None)
}
