// How often calls on each role failed.
ghost use Rattle.std.specs.Prelude.{◌≡◌, ◌≤◌, IsErr};
ghost use Rattle.loom_host.specs.Outside.{SameBut};
ghost use Rattle.long_names.specs.Counting.{counted};
ghost use Rattle.file_host.specs.Faults.{faults_at};
ghost use Rattle.loom_host.specs.declared.outside.Role.{Role};

use loom_host::{Failed, Role};

#[derive(Drop)]
pub struct Faults {
    pub image: u64,
    pub events: u64,
    pub work: u64,
    pub saved: u64,
    pub display: u64,
    pub transcript: u64,
    pub notes: u64,
}

impl Faults {
    pub fn none() -> Faults
        ensures { (role : Role) → faults_at result role ≡ 0 }
    {
        Faults {
            image: 0,
            events: 0,
            work: 0,
            saved: 0,
            display: 0,
            transcript: 0,
            notes: 0,
        }
    }

    pub fn of(&self, role: Role) -> u64
        ensures { result ≡ faults_at self.now role }
    {
        match role {
            Role::Image => self.image,
            Role::Events => self.events,
            Role::Work => self.work,
            Role::Saved => self.saved,
            Role::Display => self.display,
            Role::Transcript => self.transcript,
            Role::Notes => self.notes,
        }
    }

    // Counts a failure, and answers it.
    pub fn fail<X: Drop>(&mut self, role: Role) -> Result<X, Failed>
        ensures err { IsErr result }
        ensures raised { faults_at self.new role ≡ counted (faults_at self.old role) }
        ensures later { faults_at self.old role ≤ faults_at self.new role }
        ensures others { SameBut role (faults_at self.old) (faults_at self.new) }
    {
        match role {
            Role::Image => self.image = self.image.saturating_add(1),
            Role::Events => self.events = self.events.saturating_add(1),
            Role::Work => self.work = self.work.saturating_add(1),
            Role::Saved => self.saved = self.saved.saturating_add(1),
            Role::Display => self.display = self.display.saturating_add(1),
            Role::Transcript => self.transcript = self.transcript.saturating_add(1),
            Role::Notes => self.notes = self.notes.saturating_add(1),
        }
        Err(Failed)
    }
}
