// A host whose Image is a slice, over another host.
ghost use Rattle.std.specs.Prelude.{◌≤◌, length};

use loom_host::{Failed, Host, Role};

/// A host over another, with a slice as its Image: so an image in memory is read as an image file is. A read of Image takes the slice's next
/// bytes, and never fails. Every other role is the other host's, call by call.
///
/// Image is there from the start, and nobody attaches it: an attach of Image fails, counts that, and leaves what is read as it was. These are
/// all of Image's faults. No call is made on Image of the host inside.
#[derive(Drop)]
pub struct ImageHost<'a, H: Host> {
    host: &'a mut H,
    image: &'a [u8],
    // how many of its bytes were taken
    at: usize,
    // how often an attach of Image was refused, up to the greatest u64
    refused: u64,
    ghost within: { at ≤ length image.now },
}

#[tactic(auto, unfolding(crate::specs::ImageHost::host_of, crate::specs::ImageHost::image_of))]
impl<'a, H: Host> ImageHost<'a, H> {
    ghost use Rattle.std.specs.Prelude.{◌≡◌, ◌≢◌, ℕ, min};
    ghost use Rattle.loom_host.specs.Outside.{RoleState, Took};
    ghost use Rattle.loom_host.specs.declared.outside.Role.{Role};
    ghost use Rattle.checkpoint.specs.ImageHost.{faults_over, host_of, image_of, carried, roles_over, unread};

    /// This host with a slice as its Image.
    pub fn new(host: &'a mut H, image: &'a [u8]) -> ImageHost<'a, H>
        ensures host { host_of result ≡ host.old }
        ensures image { image_of result ≡ unread (carried host.entry.ghost_name (H.roles host.old Role.Image) (H.faults host.old Role.Image)) image.now }
        ensures roles { (r : Role) → r ≢ Role.Image → roles_over H.Host result r ≡ H.roles host.old r }
        ensures faults { (r : Role) → r ≢ Role.Image → faults_over H.Host result r ≡ H.faults host.old r }
    {
        ImageHost {
            host,
            image,
            at: 0,
            refused: 0,
        }
    }

    /// Hands the host back. Its Image is as it was.
    pub fn into_host(self) -> &'a mut H
        ensures now { result.now ≡ host_of self.entry }
        ensures roles { (r : Role) → r ≢ Role.Image → H.roles result.now r ≡ roles_over H.Host self.entry r }
        ensures faults { (r : Role) → r ≢ Role.Image → H.faults result.now r ≡ faults_over H.Host self.entry r }

        // Whatever was called in between, `put` of Image is what it was at `new`.
        ensures same_host { (loan : ℕ) (s : RoleState) (count : ℕ) → (image_of self.entry).put ≡ carried loan s count → result.ghost_name ≡ loan }
        ensures image_left { (loan : ℕ) (s : RoleState) (count : ℕ) → (image_of self.entry).put ≡ carried loan s count → H.roles result.now Role.Image ≡ s }
        ensures image_faults { (loan : ℕ) (s : RoleState) (count : ℕ) → (image_of self.entry).put ≡ carried loan s count → H.faults result.now Role.Image ≡ count }
    {
        self.host
    }

    // Takes the next bytes of the slice to the front of the buffer.
    fn take(&mut self, buf: &mut [u8]) -> usize
        ensures moved { result ≡ min (length buf.old) (length (image_of self.old).left) }
        ensures took { Took result buf.new (image_of self.old) (image_of self.new) }
        ensures host { host_of self.new ≡ host_of self.old }
    {
        let n = buf.len().min(self.image.len() - self.at);
        buf[..n].copy_from_slice(&self.image[self.at..self.at + n]);
        self.at += n;
        n
    }
}

#[tactic(auto, unfolding(crate::specs::ImageHost::host_of, crate::specs::ImageHost::image_of))]
impl<'a, H: Host> Host for ImageHost<'a, H> {
    ghost use Rattle.std.specs.Prelude.{◌≡◌, ◌<◌, IfOk, OnErr, IsOk, IsTrue};
    ghost use Rattle.loom_host.specs.Outside.{CanRead, HasCause, SameBut, Took, TookSome};
    ghost use Rattle.loom_host.specs.declared.outside.Role.{Role};
    ghost use Rattle.checkpoint.specs.ImageHost.{faults_over, roles_over, tells_over, writes_over};

    ghost tells = { tells_over H.Host };

    ghost roles = { roles_over H.Host };

    ghost faults = { faults_over H.Host };

    ghost writes = { writes_over H.Host };

    fn attach(&mut self, role: Role, name: &str) -> Result<(), Failed> {
        if role != Role::Image {
            return self.host.attach(role, name);
        }
        self.refused = self.refused.saturating_add(1);
        Err(Failed)
    }

    fn read(&mut self, role: Role, buf: &mut [u8]) -> Result<usize, Failed>
        requires { CanRead role }
        ensures bound { IfOk result (λ n. n ≤ length buf.old) }
        ensures took { IsTrue (tells_over H.Host role) → IfOk result (λ n. Took n buf.new (roles_over H.Host self.old role) (roles_over H.Host self.new role)) }
        ensures end { IsTrue (tells_over H.Host role) → 0 < length buf.old → IfOk result (λ n. n ≡ 0 → length (roles_over H.Host self.old role).left ≡ 0) }
        ensures failed { IsTrue (tells_over H.Host role) → OnErr result (TookSome (length buf.old) (roles_over H.Host self.old role) (roles_over H.Host self.new role)) }
        ensures empty { length buf.old ≡ 0 → IfOk result (λ n. n ≡ 0) }
        ensures still { IsTrue (tells_over H.Host role) → length buf.old ≡ 0 → roles_over H.Host self.new role ≡ roles_over H.Host self.old role }
        ensures others { SameBut role (roles_over H.Host self.old) (roles_over H.Host self.new) }
        ensures work { roles_over H.Host self.new Role.Work ≡ roles_over H.Host self.old Role.Work }
        ensures other_faults { SameBut role (faults_over H.Host self.old) (faults_over H.Host self.new) }
        ensures writes { writes_over H.Host self.new ≡ writes_over H.Host self.old }
        ensures cause { HasCause (faults_over H.Host self.old role) (faults_over H.Host self.new role) result }

        // Image's bytes are there.
        ensures always { role ≡ Role.Image → IsOk result }
    {
        if role != Role::Image {
            return self.host.read(role, buf);
        }
        Ok(self.take(buf))
    }

    fn write(&mut self, role: Role, buf: &[u8]) -> Result<usize, Failed> {
        self.host.write(role, buf)
    }

    fn read_at(&mut self, place: u64, buf: &mut [u8]) -> Result<(), Failed> {
        self.host.read_at(place, buf)
    }

    fn write_at(&mut self, place: u64, buf: &[u8]) -> Result<(), Failed> {
        self.host.write_at(place, buf)
    }

    fn fault_count(&self, role: Role) -> u64 {
        if role != Role::Image {
            return self.host.fault_count(role);
        }
        self.refused
    }
}
