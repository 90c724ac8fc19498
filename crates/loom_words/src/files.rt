// Which files the words of a command name, and who is told of them.
ghost use Rattle.std.specs.Prelude.{◌≡◌, ◌++◌, ◌∷◌, [], Bool, IsTrue, List, OnOk, map, option_map, ℕ};
ghost use Rattle.std.specs.Option.{option_copied};
ghost use Rattle.loom_host.specs.declared.outside.Role.{Role};
ghost use Rattle.loom_words.specs.Files.{Expects, KeepsInputs, Protects, Telling, behind_work as behind_the_work, expects, files_named, files_of_command, named_among, told_of_vault, tellings, word_there};
ghost use Rattle.loom_words.specs.FilesFor.{files_for};
ghost use Rattle.loom_words.specs.Words.{texts_of};

use loom_host::Role;
use std::alloc::AllocError;

/// The files that the words of a command name. The word of the command has place 0.
#[derive(Clone, Copy, Debug)]
struct CommandFiles {
    // the roles in the order in which they are attached, each with the place of its word
    roles: &'static [(Role, usize)],
    // the place of the vault's word
    vault: Option<usize>,
    // whether Saved keeps off what Image and Events read
    keeps_inputs: bool,
}

const RUN: CommandFiles = CommandFiles {
    roles: &[
        (Role::Work, 3),
        (Role::Image, 1),
        (Role::Events, 2),
        (Role::Saved, 4),
        (Role::Display, 5),
    ],
    vault: None,
    keeps_inputs: false,
};

const GUARD: CommandFiles = CommandFiles {
    roles: &[
        (Role::Work, 3),
        (Role::Image, 1),
        (Role::Events, 2),
        (Role::Saved, 4),
        (Role::Display, 5),
    ],
    vault: Some(10),
    keeps_inputs: false,
};

const RESUME: CommandFiles = CommandFiles {
    roles: &[
        (Role::Work, 3),
        (Role::Events, 2),
        (Role::Saved, 4),
        (Role::Display, 5),
    ],
    vault: Some(1),
    keeps_inputs: false,
};

const TRACE: CommandFiles = CommandFiles {
    roles: &[
        (Role::Work, 3),
        (Role::Image, 1),
        (Role::Events, 2),
        (Role::Saved, 4),
    ],
    vault: None,
    keeps_inputs: true,
};

// A listing, or an assembling.
const CONVERSION: CommandFiles = CommandFiles {
    roles: &[(Role::Work, 2), (Role::Image, 1), (Role::Saved, 3)],
    vault: None,
    keeps_inputs: false,
};

const MAKE: CommandFiles = CommandFiles {
    roles: &[(Role::Saved, 2)],
    vault: None,
    keeps_inputs: false,
};

const NONE: CommandFiles = CommandFiles {
    roles: &[],
    vault: None,
    keeps_inputs: false,
};

// By the word of the command.
fn files_of(command: &str) -> CommandFiles
    ensures { files_for result ≡ files_named command.now }
{
    match command {
        "run" => RUN,
        "guard" => GUARD,
        "resume" => RESUME,
        "trace" => TRACE,
        "list" | "asm" => CONVERSION,
        "make" => MAKE,
        _ => NONE,
    }
}

// The files of the command that some words begin with.
fn files_among(words: &[String]) -> CommandFiles
    ensures { files_for result ≡ files_of_command (texts_of words.now) }
{
    match words.first() {
        Some(word) => files_of(word.as_str()),
        None => NONE,
    }
}

/// Who is told of files.
#[derive(Clone, Copy, Debug, PartialEq, Eq)]
pub enum Listener {
    Host,
    Vault,
}

/// A host and a vault that are told of the files of a command, before any is opened. It may also tell what they were told.
pub trait KeepsApart {
    /// Whether it tells what they were told. This is a fact of the type, so it never changes.
    ghost tells: { Bool };

    /// What they were told, in order.
    ghost told: { Self → List Telling };

    /// Tells one of them by which name a role will be attached: the host, so that Work doesn't take that file, or the vault, so that it doesn't.
    fn expect(&mut self, listener: Listener, role: Role, name: &str)
        ensures told { IsTrue tells → told self.new ≡ told self.old ++ Expects listener role name.now ∷ [] };

    /// Tells the host that Saved takes the file of neither Image nor Events.
    fn keep_inputs(&mut self)
        ensures told { IsTrue tells → told self.new ≡ told self.old ++ KeepsInputs ∷ [] };

    /// Tells the host that no role takes the file of this name, which is the vault's.
    fn protect(&mut self, name: &str) -> Result<(), AllocError>
        ensures told { IsTrue tells → OnOk result (told self.new ≡ told self.old ++ Protects name.now ∷ []) };
}

// What is attached after Work; nothing where a command has no work file.
fn behind_work(roles: &[(Role, usize)]) -> &[(Role, usize)]
    ensures { result.now ≡ behind_the_work roles.now }
{
    match roles {
        [(Role::Work, _), others @ ..] => others,
        _ => &[],
    }
}

// One of them is told of a role's file, where its word is there.
fn tell_role<K: KeepsApart>(
    keeper: &mut K,
    listener: Listener,
    words: &[String],
    role: Role,
    place: usize,
)
    ensures told { IsTrue K.tells → K.told keeper.new ≡ K.told keeper.old ++ map (expects listener) (named_among (texts_of words.now) ((role, place) ∷ [])) }
{
    if let Some(word) = words.get(place) {
        keeper.expect(listener, role, word.as_str());
    }
}

// And of all of these.
fn tell_roles<K: KeepsApart>(
    keeper: &mut K,
    listener: Listener,
    words: &[String],
    roles: &[(Role, usize)],
)
    ensures told { IsTrue K.tells → K.told keeper.new ≡ K.told keeper.old ++ map (expects listener) (named_among (texts_of words.now) roles.now) }
{
    for &(role, place) in roles {
        tell_role(keeper, listener, words, role, place);
    }
}

// The name of the vault, where a command has one and its word is there.
fn vault_in(words: &[String], place: Option<usize>) -> Option<&str>
    ensures { option_copied result ≡ word_there (texts_of words.now) place }
{
    match words.get(place?) {
        Some(word) => Some(word.as_str()),
        None => None,
    }
}

// The vault is told of all roles, and the host of the vault.
fn tell_vault<K: KeepsApart>(
    keeper: &mut K,
    words: &[String],
    files: &CommandFiles,
) -> Result<(), AllocError>
    ensures told { IsTrue K.tells → OnOk result (K.told keeper.new ≡ K.told keeper.old ++ told_of_vault (texts_of words.now) (files_for files.now)) }
{
    match vault_in(words, files.vault) {
        Some(vault) => {
            tell_roles(keeper, Listener::Vault, words, files.roles);
            keeper.protect(vault)
        }
        None => Ok(()),
    }
}

/// Tells a host and a vault which files the words of a command name, so that no role and no vault takes a file that it must not. Words that are no
/// command's, or too few, are told of as far as they go. It fails only where memory is refused.
pub fn keep_apart<K: KeepsApart>(keeper: &mut K, words: &[String]) -> Result<(), AllocError>
    ensures told { IsTrue K.tells → OnOk result (K.told keeper.new ≡ K.told keeper.old ++ tellings (texts_of words.now)) }
{
    let files = files_among(words);
    tell_roles(keeper, Listener::Host, words, behind_work(files.roles));
    if files.keeps_inputs {
        keeper.keep_inputs();
    }
    tell_vault(keeper, words, &files)
}
