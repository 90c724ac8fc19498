// A host over another, which shows how much of the image was read, and of what is saved was written; and a vault over another, which shows how
// much was kept.
ghost use Rattle.std.specs.Prelude.{◌≡◌, false};
ghost use Rattle.checkpoint.specs.Vault as vault;
ghost use Rattle.loom_host.specs.Outside.{at_start};

use crate::progress::Screen;
use checkpoint::Vault;
use loom_outside::{Failed, Host, Role};

/// A host over another.
#[derive(Drop)]
pub(crate) struct Watched<'s, H: Host> {
    inner: H,
    screen: &'s Screen,
    bytes_in: u64,
    bytes_out: u64,
}

impl<'s, H: Host> Watched<'s, H> {
    pub(crate) fn new(inner: H, screen: &'s Screen) -> Watched<'s, H> {
        Watched {
            inner,
            screen,
            bytes_in: 0,
            bytes_out: 0,
        }
    }
}

impl<H: Host> Host for Watched<'_, H> {
    ghost tells = { λ _. false };

    ghost roles = { λ _ _. at_start };

    ghost faults = { λ h. H.faults h.inner };

    ghost writes = { λ h. H.writes h.inner };

    fn attach(&mut self, role: Role, name: &str) -> Result<(), Failed> {
        self.inner.attach(role, name)
    }

    fn read(&mut self, role: Role, buf: &mut [u8]) -> Result<usize, Failed> {
        let read = self.inner.read(role, buf)?;
        if role == Role::Image {
            self.bytes_in = self.bytes_in.saturating_add(read as u64);
            let _ = self.screen.show_bytes("read", self.bytes_in);
        }
        Ok(read)
    }

    fn write(&mut self, role: Role, buf: &[u8]) -> Result<usize, Failed> {
        let written = self.inner.write(role, buf)?;
        if role == Role::Saved {
            self.bytes_out = self.bytes_out.saturating_add(written as u64);
            let _ = self.screen.show_bytes("written", self.bytes_out);
        }
        Ok(written)
    }

    fn read_at(&mut self, place: u64, buf: &mut [u8]) -> Result<(), Failed> {
        self.inner.read_at(place, buf)
    }

    fn write_at(&mut self, place: u64, buf: &[u8]) -> Result<(), Failed> {
        self.inner.write_at(place, buf)
    }

    fn fault_count(&self, role: Role) -> u64 {
        self.inner.fault_count(role)
    }
}

/// A vault over another.
#[derive(Drop)]
pub(crate) struct WatchedVault<'s, V: Vault> {
    inner: V,
    screen: &'s Screen,
    bytes: u64,
}

impl<'s, V: Vault> WatchedVault<'s, V> {
    pub(crate) fn new(inner: V, screen: &'s Screen) -> WatchedVault<'s, V> {
        WatchedVault {
            inner,
            screen,
            bytes: 0,
        }
    }
}

impl<V: Vault> Vault for WatchedVault<'_, V> {
    ghost tells = { false };

    ghost state = { λ _. vault.at_start };

    ghost faults = { λ v. V.faults v.inner };

    fn open_named(&mut self, name: &str, fresh: bool) -> Result<(), Failed> {
        self.inner.open_named(name, fresh)
    }

    fn read_at(&mut self, place: u64, buf: &mut [u8]) -> Result<(), Failed> {
        self.inner.read_at(place, buf)
    }

    fn write_at(&mut self, place: u64, buf: &[u8]) -> Result<(), Failed> {
        self.inner.write_at(place, buf)?;
        self.bytes = self.bytes.saturating_add(buf.len() as u64);
        let _ = self.screen.show_bytes("kept", self.bytes);
        Ok(())
    }

    fn sync(&mut self) -> Result<(), Failed> {
        self.inner.sync()
    }

    fn fault_count(&self) -> u64 {
        self.inner.fault_count()
    }
}
