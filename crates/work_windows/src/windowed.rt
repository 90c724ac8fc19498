// A host with windows over the Work of another host.
ghost use Rattle.std.specs.Prelude.{IsTrue};
ghost use Rattle.loom_host.specs.Work.{work_of};
ghost use Rattle.loom_host.specs.declared.outside.Role.TheVariants.{Work};
ghost use Rattle.work_windows.specs.Rows.{Stands};
ghost use Rattle.work_windows.specs.Windows.{overlaid};

use crate::windows::Windows;
use loom_host::{Failed, Host, Role};
use std::alloc::Global;

/// A host over another. A piece of at most `MOST` bytes of Work is read and written page by page in windows of `WIDTH` bytes; over an edge
/// it is two pieces. There are two rows of them: `WRITTEN` for pages that are written, which the host inside gets when their window makes place
/// for a write to another page, and `READ` for pages that are only read. A page that is asked for gets its window at once, since a whole page is
/// read by one call as a piece is; one that was never written since Work was attached isn't read at all. A longer piece goes on to the host
/// inside, and what is kept back is put over what is read. Where memory for the windows is refused there are none.
///
/// Nothing is written to the host inside but by `write_at`, so what was written last may never get there: Work is for the run alone.
#[derive(Drop)]
pub struct Windowed<H: Host + Drop> {
    inner: H,
    windows: Windows,
    // the calls of `write_at`, up to the greatest u64
    writes: u64,
    ghost current: { IsTrue (H.tells Work) → Stands (work_of H.Host inner) windows (overlaid (work_of H.Host inner) windows.written.items.items windows.limit) },
}

#[tactic(auto, unfolding(crate::specs::Windowed::inside, crate::specs::Windowed::written))]
impl<H: Host + Drop> Windowed<H> {
    ghost use Rattle.std.specs.Prelude.{◌≡◌};
    ghost use Rattle.loom_host.specs.declared.outside.Role.{Role};
    ghost use Rattle.work_windows.specs.Windowed.{inside, roles_over, written};

    /// A host over this one, with windows of nothing.
    pub fn new(alloc: Global, inner: H) -> Windowed<H>
        ensures inside { inside result ≡ inner }
        ensures roles { (r : Role) → roles_over H.Host result r ≡ H.roles inner r }
        ensures writes { written result ≡ 0 }
    {
        Windowed {
            inner,
            windows: Windows::new(alloc),
            writes: 0,
        }
    }

    /// The host inside.
    pub fn inner(&self) -> &H
        ensures { result.now ≡ inside self.now }
    {
        &self.inner
    }
}

#[tactic(auto, unfolding(crate::specs::Windowed::inside, crate::specs::Windowed::written))]
impl<H: Host + Drop> Host for Windowed<H> {
    ghost use Rattle.work_windows.specs.Windowed.{inside, roles_over, written};

    ghost tells = { H.tells };

    ghost roles = { roles_over H.Host };

    ghost faults = { λ w. H.faults (inside w) };

    ghost writes = { written };

    fn attach(&mut self, role: Role, name: &str) -> Result<(), Failed> {
        self.windows.attached(role);
        let went = self.inner.attach(role, name);
        self.windows.began(role, went.is_ok());
        went
    }

    fn read(&mut self, role: Role, buf: &mut [u8]) -> Result<usize, Failed> {
        self.inner.read(role, buf)
    }

    fn write(&mut self, role: Role, buf: &[u8]) -> Result<usize, Failed> {
        self.inner.write(role, buf)
    }

    fn read_at(&mut self, place: u64, buf: &mut [u8]) -> Result<(), Failed> {
        self.windows.read_at(&mut self.inner, place, buf)
    }

    fn write_at(&mut self, place: u64, buf: &[u8]) -> Result<(), Failed> {
        self.writes = self.writes.saturating_add(1);
        match self.windows.write_at(&mut self.inner, place, buf) {
            Ok(()) => Ok(()),
            Err(failed) => {
                self.windows.forget();
                Err(failed)
            }
        }
    }

    fn fault_count(&self, role: Role) -> u64 {
        self.inner.fault_count(role)
    }
}
