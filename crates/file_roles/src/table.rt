// What is open for the roles, and which files they may not share.
ghost use Rattle.std.specs.Prelude.{◌≡◌, ◌≢◌, ℕ, None, Some, true, false};
ghost use Rattle.loom_host.specs.Outside.{SameBut};
ghost use Rattle.file_roles.specs.Open.{IsElse};
ghost use Rattle.file_roles.specs.Share.{IsNoInput, IsNoInputOf, IsNoted, expected_at};
ghost use Rattle.loom_host.specs.declared.outside.Role.{Role};
ghost use Rattle.file_roles.specs.declared.files.Used.{Used};

use crate::files::Used;
use file_system::{Found, Kind};
use loom_host::Role;

// The roles that are written.
const WRITTEN: [Role; 5] = [
    Role::Work,
    Role::Saved,
    Role::Display,
    Role::Transcript,
    Role::Notes,
];

/// What is open for the roles. `saved` is the file that Saved became when it was ended.
#[derive(Clone, Copy)]
pub struct Table {
    pub image: Option<Used>,
    pub events: Option<Used>,
    pub work: Option<Used>,
    pub display: Option<Used>,
    pub saved: Option<u128>,
    pub output: Used,
    pub errors: Used,
}

/// Files that stand beside those of the roles: the one that is written to become Saved, and the one that has its name; one that no role is to
/// be written to; and those that the roles will have.
#[derive(Clone, Copy)]
pub struct Beside {
    pub saving: Option<u128>,
    pub named: Option<u128>,
    pub kept: Option<u128>,
    pub expected: Expected,
}

/// Which file it is, by whatever name. None for what keeps no bytes, as a terminal, a pipe or the null device: roles may share it.
pub fn identity(found: &Found) -> Option<u128> {
    match found.kind {
        Kind::Regular => Some(found.file),
        Kind::Folder | Kind::Link | Kind::Device => None,
    }
}

fn identity_in(used: &Option<Used>) -> Option<u128> {
    match used {
        Some(used) => identity(&used.found),
        None => None,
    }
}

impl Table {
    fn identity(&self, role: Role) -> Option<u128> {
        match role {
            Role::Image => identity_in(&self.image),
            Role::Events => identity_in(&self.events),
            Role::Work => identity_in(&self.work),
            Role::Saved => self.saved,
            Role::Display => identity_in(&self.display),
            Role::Transcript => identity(&self.output.found),
            Role::Notes => identity(&self.errors.found),
        }
    }

    // Whether Image or Events is read from the regular file of this number.
    fn is_read(&self, file: u128) -> bool
        ensures { result ≡ false → IsNoInput self.now file }
    {
        is_input(&self.image, file) || is_input(&self.events, file)
    }

    // Whether a role that is written has this file, other than this role itself.
    fn is_taken(&self, role: Role, file: u128) -> bool {
        for other in &WRITTEN {
            if *other != role && self.identity(*other) == Some(file) {
                return true;
            }
        }
        false
    }

    /// Whether a role may have this file: no other has it, but for one that is only read where `shares` is said, and it isn't kept. Work takes a
    /// regular one alone, and none that another role is expected to have.
    pub fn may_have(&self, role: Role, found: &Found, beside: &Beside, shares: bool) -> bool
        ensures saving { result ≡ true → (file : ℕ) → beside.now.saving ≡ Some file → found.now.file ≢ file }
        ensures kept { result ≡ true → (file : ℕ) → beside.now.kept ≡ Some file → found.now.file ≢ file }
        ensures expected { result ≡ true → role ≡ Role.Work → (r : Role) → expected_at beside.now.expected r ≢ Some found.now.file }
        ensures inputs { result ≡ true → shares ≡ false → IsNoInput self.now found.now.file }
    {
        if beside.saving == Some(found.file) || beside.kept == Some(found.file) {
            return false;
        }
        if role == Role::Work && beside.expected.has(found.file) {
            return false;
        }
        if !shares && self.is_read(found.file) {
            return false;
        }
        self.is_free(role, found, beside)
    }

    // Whether no role that is written has it, nor Saved by its name.
    fn is_free(&self, role: Role, found: &Found, beside: &Beside) -> bool {
        let Some(file) = identity(found) else {
            return role != Role::Work;
        };
        if role != Role::Saved && beside.named == Some(file) {
            return false;
        }
        !self.is_taken(role, file)
    }

    /// Whether what is written has no file of this number.
    pub fn is_apart(&self, file: u128) -> bool
        ensures { result ≡ true → IsElse self.now file }
    {
        !has_file(&self.work, file)
            && !has_file(&self.display, file)
            && self.output.found.file != file
            && self.errors.found.file != file
    }
}

fn has_file(used: &Option<Used>, file: u128) -> bool
    ensures { result ≡ false → (u : Used) → used.now ≡ Some u → u.found.file ≢ file }
{
    match used {
        Some(used) => used.found.file == file,
        None => false,
    }
}

fn is_input(used: &Option<Used>, file: u128) -> bool
    ensures { result ≡ false → IsNoInputOf file used.now }
{
    match used {
        Some(used) => used.found.kind == Kind::Regular && used.found.file == file,
        None => false,
    }
}

/// Which files the roles will have, as far as they are there.
#[derive(Clone, Copy)]
pub struct Expected {
    pub image: Option<u128>,
    pub events: Option<u128>,
    pub saved: Option<u128>,
    pub display: Option<u128>,
}

impl Expected {
    /// None is told.
    pub fn none() -> Expected
        ensures { (role : Role) → expected_at result role ≡ None }
    {
        Expected {
            image: None,
            events: None,
            saved: None,
            display: None,
        }
    }

    /// The role will have this file.
    pub fn note(&mut self, role: Role, file: Option<u128>)
        ensures noted { IsNoted role file (expected_at self.new role) }
        ensures others { SameBut role (expected_at self.old) (expected_at self.new) }
    {
        match role {
            Role::Image => self.image = file,
            Role::Events => self.events = file,
            Role::Saved => self.saved = file,
            Role::Display => self.display = file,
            Role::Work | Role::Transcript | Role::Notes => {}
        }
    }

    /// Whether a role will have this file.
    pub fn has(&self, file: u128) -> bool
        ensures { result ≡ false → (role : Role) → expected_at self.now role ≢ Some file }
    {
        self.image == Some(file)
            || self.events == Some(file)
            || self.saved == Some(file)
            || self.display == Some(file)
    }
}
