// One value for each role.
ghost use Rattle.std.specs.Prelude.{◌≡◌, ◌≤◌, IsErr};
ghost use Rattle.std.specs.Borrow.{sem};
ghost use Rattle.loom_host.specs.Outside.{SameBut};
ghost use Rattle.long_names.specs.Counting.{counted};
ghost use Rattle.loom_outside.specs.PerRole.{at_role, lends_role};

use crate::{Failed, Role};

#[derive(Drop)]
pub struct PerRole<T> {
    pub image: T,
    pub events: T,
    pub work: T,
    pub saved: T,
    pub display: T,
    pub transcript: T,
    pub notes: T,
}

impl<T> PerRole<T> {
    pub fn at(&self, role: Role) -> &T
        ensures { result.now ≡ at_role self.now role }
    {
        match role {
            Role::Image => &self.image,
            Role::Events => &self.events,
            Role::Work => &self.work,
            Role::Saved => &self.saved,
            Role::Display => &self.display,
            Role::Transcript => &self.transcript,
            Role::Notes => &self.notes,
        }
    }

    pub fn at_mut(&mut self, role: Role) -> &mut T
        ensures* lends { sem 𝓛 (lends_role T.row self.entry role result) }
        ensures now { result.now ≡ at_role self.old role }
    {
        match role {
            Role::Image => &mut self.image,
            Role::Events => &mut self.events,
            Role::Work => &mut self.work,
            Role::Saved => &mut self.saved,
            Role::Display => &mut self.display,
            Role::Transcript => &mut self.transcript,
            Role::Notes => &mut self.notes,
        }
    }
}

// Counts of failures.
impl PerRole<u64> {
    pub fn zeros() -> PerRole<u64>
        ensures { (role : Role) → at_role result role ≡ 0 }
    {
        PerRole {
            image: 0,
            events: 0,
            work: 0,
            saved: 0,
            display: 0,
            transcript: 0,
            notes: 0,
        }
    }

    // Counts a failure, and answers it.
    pub fn fail<X: Drop>(&mut self, role: Role) -> Result<X, Failed>
        ensures err { IsErr result }
        ensures raised { at_role self.new role ≡ counted (at_role self.old role) }
        ensures later { at_role self.old role ≤ at_role self.new role }
        ensures others { SameBut role (at_role self.old) (at_role self.new) }
    {
        let count = self.at_mut(role);
        *count = count.saturating_add(1);
        Err(Failed)
    }
}
