//! What follows from the promise.
ghost use Rattle.std.specs.Prelude.{◌≡◌, ◌≢◌, ◌++◌, ◌∷◌, [], ℕ, Bool, true, List, IsTrue, None, Some};
ghost use Rattle.loom_host.specs.declared.outside.Role.{Role};
ghost use Rattle.loom_host.specs.declared.outside.Role.TheVariants.{Image, Events, Work};
ghost use Rattle.checkpoint.specs.Layout.{bad_place, found, image_in};
ghost use Rattle.checkpoint.specs.Vault.{Opened, VaultState, contents_of};
ghost use Rattle.checkpoint.specs.declared.point.Point.{Point};
ghost use Rattle.loom_run.specs.Completes.{IsOwnEnd};
ghost use Rattle.loom_run.specs.Ends.{bytes_of};
ghost use Rattle.loom_run.specs.Meanings.{Meanings};
ghost use Rattle.loom_run.specs.Promise.{Promise};
ghost use Rattle.loom_words.specs.Kept.{Else, ToGuard, ToResume, bad_kept, guard_row_of, kept_verb_of, resume_row_of};
ghost use Rattle.loom_words.specs.declared.status.Status.{Status};
ghost use Rattle.loom_guard.specs.Completes.{CanEndKept};
ghost use Rattle.loom_guard.specs.Promise.{KeptPromise};
ghost use Rattle.loom_guard.specs.Vaults.{IsNew, VaultMeanings};

/// Right words of a guarded run, an image and events that are right, room for what the model's guarded run does with them, and no fault of a role or of the vault
/// give the model's own end, or want of memory.
pub fn a_guarded_run_comes_to_its_end()
    ensures { (tells : Role → Bool) (told : Bool) (before now : Meanings) (old new : VaultMeanings) (words : List (List ℕ)) (result : Status) → IsTrue (tells Image) → IsTrue (tells Events) → IsTrue (tells Work)
        → kept_verb_of words ≡ ToGuard → bad_kept words ≡ None → KeptPromise tells told before now old new words result
        → CanEndKept (bytes_of (now.roles Image)) (bytes_of (now.roles Events)) (guard_row_of words) 0 before now old new → IsOwnEnd result }
{}

/// So do right words of a resumed run, over a vault that tells what it holds, none of whose gates is bad, and which has a checkpoint.
pub fn a_resumed_run_comes_to_its_end()
    ensures { (tells : Role → Bool) (before now : Meanings) (old new : VaultMeanings) (words : List (List ℕ)) (point : Point) (result : Status) → IsTrue (tells Events) → IsTrue (tells Work)
        → kept_verb_of words ≡ ToResume → bad_kept words ≡ None → KeptPromise tells true before now old new words result
        → bad_place (contents_of old.state) ≡ None → found (contents_of old.state) ≡ Some point
        → CanEndKept (image_in (contents_of old.state) point) (bytes_of (now.roles Events)) (resume_row_of words) point.serial before now old new → IsOwnEnd result }
{}

/// A vault isn't new right behind its opening: both gates have to be written.
pub fn an_opening_alone_makes_no_vault()
    ensures { (old start : VaultState) → IsNew old start → start.calls ≢ old.calls ++ Opened true [] ∷ [] }
{}

/// Words of other commands: `loom_kept` promises of them what `loom` does, and does nothing with the vault.
pub fn other_words_are_those_of_loom()
    ensures { (tells : Role → Bool) (told : Bool) (before now : Meanings) (old new : VaultMeanings) (words : List (List ℕ)) (result : Status) → KeptPromise tells told before now old new words result
        → kept_verb_of words ≡ Else → Promise tells before now words result × (new ≡ old) }
{}
