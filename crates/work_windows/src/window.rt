// One window over Work.
ghost use Rattle.std.specs.Prelude.{◌≡◌, ◌+◌, ◌≤◌, ◌↔◌, ℕ, List, [], None, Some, IsTrue, OnOk, OnErr, length, replicate};
ghost use Rattle.loom_host.specs.Bytes.{window, overwritten};
ghost use Rattle.loom_host.specs.Outside.{HasCause};
ghost use Rattle.loom_host.specs.Work.{work_of, IsWorkRead, IsWorkOnly};
ghost use Rattle.loom_host.specs.declared.outside.Role.{Role};
ghost use Rattle.work_windows.specs.declared.window.TheConstants.{WIDTH};

use loom_host::{Failed, Host, Role};

/// The bytes of a window.
pub const WIDTH: usize = 4_096;

/// A page of Work, as it was read and written since.
#[derive(Clone, Copy)]
pub(crate) struct Window {
    // Its first byte, None where it shows nothing.
    pub place: Option<u64>,
    pub bytes: [u8; WIDTH],
    // Nothing was put to its bytes since they were made zeros.
    zeros: bool,
    ghost clean: { IsTrue zeros → bytes ≡ replicate 4096 0 },
}

impl Window {
    ghost use Rattle.work_windows.specs.Windows.{IsPageOf, Shows, saved};

    /// A window of nothing.
    pub fn unread() -> Window
        ensures { result.place ≡ None }
    {
        Window {
            place: None,
            bytes: [0; WIDTH],
            zeros: true,
        }
    }

    /// Whether it begins at this place.
    pub fn is_at(&self, place: u64) -> bool
        ensures { IsTrue result ↔ (self.now.place ≡ Some place) }
    {
        match self.place {
            Some(own) => own == place,
            None => false,
        }
    }

    /// Reads the page from a place on.
    pub fn fetch<H: Host>(&mut self, host: &mut H, place: u64) -> Result<(), Failed>
        ensures place { OnOk result (self.new.place ≡ Some place) }
        ensures none { OnErr result (self.new.place ≡ None) }
        ensures bytes { IsTrue (H.tells Role.Work) → OnOk result (self.new.bytes ≡ window (work_of H.Host host.old) place WIDTH) }
        ensures read { IsWorkRead H.Host host.old host.new }
        ensures cause { HasCause (H.faults host.old Role.Work) (H.faults host.new Role.Work) result }
    {
        self.place = None;
        self.zeros = false;
        host.read_at(place, &mut self.bytes)?;
        self.place = Some(place);
        Ok(())
    }

    /// Shows the page from a place on, which is all zeros.
    pub fn blank(&mut self, place: u64)
        ensures place { self.new.place ≡ Some place }
        ensures bytes { self.new.bytes ≡ window [] place WIDTH }
    {
        self.place = Some(place);
        if !self.zeros {
            self.bytes = [0; WIDTH];
            self.zeros = true;
        }
    }

    /// Shows what another window shows.
    pub fn take(&mut self, other: &Window)
        ensures place { self.new.place ≡ other.now.place }
        ensures bytes { self.new.bytes ≡ other.now.bytes }
    {
        self.place = other.place;
        self.zeros = false;
        self.bytes = other.bytes;
    }

    /// Writes its bytes up to a place, if it shows any, and is a window of nothing then.
    pub fn save<H: Host>(&mut self, host: &mut H, limit: u64) -> Result<(), Failed>
        ensures place { OnOk result (self.new.place ≡ None) }
        ensures work { IsTrue (H.tells Role.Work) → OnOk result (work_of H.Host host.new ≡ saved (work_of H.Host host.old) limit self.old) }
        ensures host { IsWorkOnly H.Host host.old host.new }
        ensures cause { HasCause (H.faults host.old Role.Work) (H.faults host.new Role.Work) result }
    {
        if let Some(place) = self.place
            && place < limit
        {
            let n = (limit - place).min(WIDTH as u64) as usize;
            host.write_at(place, &self.bytes[..n])?;
        }
        self.place = None;
        Ok(())
    }

    /// Takes over what was written so many bytes behind a place, if it is the page from this place on that it shows.
    pub fn follow(&mut self, place: u64, from: usize, piece: &[u8])
        requires { from + length piece.now ≤ WIDTH }
        ensures shows { (count : ℕ) (work : List ℕ) (i j : ℕ) → IsPageOf count i place → Shows count work j self.old → Shows count (overwritten work (place + from) piece.now) j self.new }
        ensures place { self.new.place ≡ self.old.place }
    {
        if self.is_at(place) {
            self.zeros = false;
            self.bytes[from..from + piece.len()].copy_from_slice(piece);
        }
    }
}
