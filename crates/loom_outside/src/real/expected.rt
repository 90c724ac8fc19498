// Which files the roles will have, as far as they are there.
use crate::Role;
use crate::per_role::PerRole;
use crate::real::identity::Identity;
use std::rt::Files;

// The names of the standard streams.
const OUTPUT: &str = "/dev/stdout";

const ERRORS: &str = "/dev/stderr";

const ROLES: [Role; 7] = [
    Role::Image,
    Role::Events,
    Role::Work,
    Role::Saved,
    Role::Display,
    Role::Transcript,
    Role::Notes,
];

/// Which files the roles have or will have, by what the system calls them: those of the standard streams, and those of the names that were told.
#[derive(Drop)]
pub struct Expected {
    files: PerRole<Option<Identity>>,
}

impl Expected {
    /// The files that standard output and standard error go to, and no others.
    pub fn new<R: Files>(rt: &R) -> Expected {
        Expected {
            files: PerRole {
                image: None,
                events: None,
                work: None,
                saved: None,
                display: None,
                transcript: Identity::named(rt, OUTPUT),
                notes: Identity::named(rt, ERRORS),
            },
        }
    }

    /// The role will be attached by this name. One that no file has yet tells nothing.
    pub fn expect<R: Files>(&mut self, rt: &R, role: Role, name: &str) {
        *self.files.at_mut(role) = Identity::named(rt, name);
    }

    /// Whether a role will have this file.
    pub fn has(&self, identity: Option<Identity>) -> bool {
        for role in &ROLES {
            if identity.is_some() && self.of(*role) == identity {
                return true;
            }
        }
        false
    }

    pub fn of(&self, role: Role) -> Option<Identity> {
        *self.files.at(role)
    }
}
