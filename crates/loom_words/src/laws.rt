// Laws of the words. No code calls these functions: what each of them ensures is the law.
ghost use Rattle.std.specs.Prelude.{◌↔◌, ◌⊎◌, ◌∷◌, List, [], None, Some, ◌≡◌, ◌≢◌, ℕ, codes};
ghost use Rattle.loom_host.specs.declared.outside.Role.TheVariants.{Display, Events, Image, Saved, Work};
ghost use Rattle.loom_words.specs.Command.{IsAsked};
ghost use Rattle.loom_words.specs.Files.{Expects, HasFilesApart, KeepsInputs, Protects, roles_named, tellings, vault_named};
ghost use Rattle.loom_words.specs.FilesRead.{files_asked, files_kept, vault_kept};
ghost use Rattle.loom_words.specs.Kept.{Else, IsGuard, IsKept, IsResume, bad_kept, guard_row_of, kept_verb_of, resume_row_of, vault_of};
ghost use Rattle.loom_words.specs.Words.{ArePaths, IsMake, IsRow, IsTrace, bad_word, make_of, paths_of, row_of, trace_row_of};
ghost use Rattle.loom_words.specs.declared.files.Listener.TheVariants.{Host, Vault};
ghost use Rattle.loom_words.specs.declared.kept.Kept.{Kept};
ghost use Rattle.loom_words.specs.declared.words.Asked.{Asked};

/// Words of which none is bad are those of a run, of a making, of a listing, of an assembling or of a trace.
#[tactic(auto, using(crate::proofs::Rows::row_rules))]
pub fn right_words()
    ensures { (words : List (List ℕ)) → (bad_word words ≡ None) ↔ (IsRow words (row_of words) ⊎ (IsMake words (make_of words) ⊎ (ArePaths (codes "list") words (paths_of words) ⊎ (ArePaths (codes "asm") words (paths_of words) ⊎ IsTrace words (trace_row_of words))))) }
{}

/// Words of which none is bad to `kept_of` are another command's, or those of a guarded run or of a resumed one.
#[tactic(auto, using(crate::proofs::KeptRows::kept_rules))]
pub fn right_kept_words()
    ensures { (words : List (List ℕ)) → (bad_kept words ≡ None) ↔ ((kept_verb_of words ≡ Else) ⊎ (IsGuard words (guard_row_of words) (vault_of words) ⊎ IsResume words (resume_row_of words) (vault_of words))) }
{}

/// The files that the table finds among right words are those that were read of them, each for its role, and the vault's is the one that was read.
#[tactic(auto, using(crate::proofs::FileRows::named_rules))]
pub fn files_of_right_words()
    ensures asked { (words : List (List ℕ)) (asked : Asked) → bad_word words ≡ None → IsAsked words asked → (roles_named words ≡ files_asked asked) × (vault_named words ≡ None) }
    ensures kept { (words : List (List ℕ)) (kept : Kept) → bad_kept words ≡ None → IsKept words (Some kept) → (roles_named words ≡ files_kept kept) × (vault_named words ≡ Some (vault_kept kept)) }
{}

/// Where the files of two words may not be one, right words have not the same word for both.
pub fn right_words_are_apart()
    ensures asked { (words : List (List ℕ)) → bad_word words ≡ None → HasFilesApart words }
    ensures kept { (words : List (List ℕ)) → bad_kept words ≡ None → kept_verb_of words ≢ Else → HasFilesApart words }
{}

/// What the host and the vault are told of the words of each command.
pub fn told_of_each_command()
    ensures run { (image events work saved display : List ℕ) (numbers : List (List ℕ)) → tellings (codes "run" ∷ image ∷ events ∷ work ∷ saved ∷ display ∷ numbers)
        ≡ Expects Host Image image ∷ Expects Host Events events ∷ Expects Host Saved saved ∷ Expects Host Display display ∷ [] }
    ensures guard { (image events work saved display core entries room steps vault : List ℕ) → tellings (codes "guard" ∷ image ∷ events ∷ work ∷ saved ∷ display ∷ core ∷ entries ∷ room ∷ steps ∷ vault ∷ [])
        ≡ Expects Host Image image ∷ Expects Host Events events ∷ Expects Host Saved saved ∷ Expects Host Display display
        ∷ Expects Vault Work work ∷ Expects Vault Image image ∷ Expects Vault Events events ∷ Expects Vault Saved saved ∷ Expects Vault Display display ∷ Protects vault ∷ [] }
    ensures resume { (vault events work saved display : List ℕ) (numbers : List (List ℕ)) → tellings (codes "resume" ∷ vault ∷ events ∷ work ∷ saved ∷ display ∷ numbers)
        ≡ Expects Host Events events ∷ Expects Host Saved saved ∷ Expects Host Display display
        ∷ Expects Vault Work work ∷ Expects Vault Events events ∷ Expects Vault Saved saved ∷ Expects Vault Display display ∷ Protects vault ∷ [] }
    ensures trace { (image events work text : List ℕ) (numbers : List (List ℕ)) → tellings (codes "trace" ∷ image ∷ events ∷ work ∷ text ∷ numbers)
        ≡ Expects Host Image image ∷ Expects Host Events events ∷ Expects Host Saved text ∷ KeepsInputs ∷ [] }
    ensures list { (image work text : List ℕ) (others : List (List ℕ)) → tellings (codes "list" ∷ image ∷ work ∷ text ∷ others) ≡ Expects Host Image image ∷ Expects Host Saved text ∷ [] }
    ensures asm { (text work image : List ℕ) (others : List (List ℕ)) → tellings (codes "asm" ∷ text ∷ work ∷ image ∷ others) ≡ Expects Host Image text ∷ Expects Host Saved image ∷ [] }
    ensures make { (others : List (List ℕ)) → tellings (codes "make" ∷ others) ≡ [] }
{}

/// Words whose files may be one may be the same.
pub fn words_that_may_be_the_same()
    ensures run { bad_word (codes "run" ∷ codes "a" ∷ codes "a" ∷ codes "c" ∷ codes "a" ∷ codes "e" ∷ codes "4096" ∷ codes "512" ∷ codes "1024" ∷ codes "1" ∷ []) ≡ None }
    ensures guard { bad_kept (codes "guard" ∷ codes "a" ∷ codes "a" ∷ codes "c" ∷ codes "a" ∷ codes "e" ∷ codes "4096" ∷ codes "512" ∷ codes "1024" ∷ codes "1" ∷ codes "v" ∷ []) ≡ None }
    ensures resume { bad_kept (codes "resume" ∷ codes "v" ∷ codes "b" ∷ codes "c" ∷ codes "b" ∷ codes "e" ∷ codes "4096" ∷ codes "512" ∷ codes "1024" ∷ codes "1" ∷ []) ≡ None }
    ensures trace { bad_word (codes "trace" ∷ codes "a" ∷ codes "a" ∷ codes "c" ∷ codes "d" ∷ codes "4096" ∷ codes "512" ∷ codes "1024" ∷ codes "1" ∷ []) ≡ None }
    ensures list { bad_word (codes "list" ∷ codes "a" ∷ codes "c" ∷ codes "a" ∷ []) ≡ None }
    ensures asm { bad_word (codes "asm" ∷ codes "a" ∷ codes "c" ∷ codes "a" ∷ []) ≡ None }
{}
