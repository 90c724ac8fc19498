// The seven roles, and what a host does with each.
ghost use Rattle.std.specs.Prelude.{◌≡◌, ◌+◌, ◌-◌, ◌^◌, ◌<◌, ◌≤◌, ℕ, Bool, IsTrue, IfOk, OnOk, OnErr, List, length, take, min};
ghost use Rattle.loom_host.specs.declared.outside.Role.{Role};
ghost use Rattle.loom_host.specs.Bytes.{window, overwritten};
ghost use Rattle.loom_host.specs.Outside.{RoleState, SameBut, HasCause, CanAttach, CanRead, CanWrite, Attached, IsFresh, Took, TookSome, PutPrefix, ends, puts, holds};
ghost use Rattle.long_names.specs.Counting.{counted};

/// What a run reads and writes. Image and Events are read in order, Saved and Display are written in
/// order, and Work is read and written at any place: each has a file, by its name. Transcript and
/// Notes are written in order and are there from the start.
#[derive(Clone, Copy, Debug, PartialEq, Eq)]
pub enum Role {
    Image,
    Events,
    Work,
    Saved,
    Display,
    Transcript,
    Notes,
}

/// A call of the host failed. The fault count of its role says so too.
#[derive(Clone, Copy, Debug, PartialEq, Eq)]
pub struct Failed;

/// What went wrong with the objects in Work.
#[derive(Clone, Copy, Debug, PartialEq, Eq)]
pub enum DiskFault {
    /// A call on Work failed; `count` is its fault count since then.
    Work { count: u64 },
    /// Work has no room for one more name: it holds `held` of at most `room`.
    Full { held: u32, room: u32 },
    /// What stands at byte `place` of Work cannot be so; it was met on the way to the object `name`.
    Damaged { place: u64, name: u32 },
}

/// What is outside of a run. For each role it counts its failures, and for Work the calls of
/// `write_at`; these counts stop at the greatest u64. A host may also tell what its roles hold.
/// A call on one role leaves all that is told of the others as it was.
pub trait Host {
    /// Whether it tells what a role holds. This is a fact of the type, so it never changes.
    ghost tells: { Role → Bool };

    /// What it tells of each role. It says nothing of a role that isn't told.
    ghost roles: { Self → Role → RoleState };

    /// How often calls on a role failed, up to the greatest u64.
    ghost faults: { Self → Role → ℕ };

    /// How often `write_at` was called, up to the greatest u64.
    ghost writes: { Self → ℕ };

    /// Opens the file of this name for a role: Image and Events to be read from its start, Work, Saved
    /// and Display as a new and empty file. It ends no role: what was put to another one and isn't ended
    /// stays so, and a failure is one of the role that was to be attached. Where it failed, the role is
    /// read and written on where it was; of what Work holds nothing is known.
    fn attach(&mut self, role: Role, name: &str) -> Result<(), Failed>
        requires { CanAttach role }
        ensures attached { IsTrue (tells role) → Attached name.now result (roles self.old role) (roles self.new role) }
        ensures fresh { IsTrue (tells role) → OnOk result (IsFresh (roles self.new role)) }
        ensures others { SameBut role (roles self.old) (roles self.new) }
        ensures other_faults { SameBut role (faults self.old) (faults self.new) }
        ensures writes { writes self.new ≡ writes self.old }
        ensures cause { HasCause (faults self.old role) (faults self.new role) result };

    /// Takes the next bytes of a role that is read, as many as it likes, to the front of the buffer.
    /// For a buffer that isn't empty, 0 means that the end has come.
    fn read(&mut self, role: Role, buf: &mut [u8]) -> Result<usize, Failed>
        requires { CanRead role }
        ensures bound { IfOk result (λ n. n ≤ length buf.old) }
        ensures took { IsTrue (tells role) → IfOk result (λ n. Took n buf.new (roles self.old role) (roles self.new role)) }
        ensures end { IsTrue (tells role) → 0 < length buf.old → IfOk result (λ n. n ≡ 0 → length (roles self.old role).left ≡ 0) }
        ensures failed { IsTrue (tells role) → OnErr result (TookSome (length buf.old) (roles self.old role) (roles self.new role)) }
        ensures empty { length buf.old ≡ 0 → IfOk result (λ n. n ≡ 0) }
        ensures still { IsTrue (tells role) → length buf.old ≡ 0 → roles self.new role ≡ roles self.old role }
        ensures others { SameBut role (roles self.old) (roles self.new) }
        ensures work { roles self.new Role.Work ≡ roles self.old Role.Work }
        ensures other_faults { SameBut role (faults self.old) (faults self.new) }
        ensures writes { writes self.new ≡ writes self.old }
        ensures cause { HasCause (faults self.old role) (faults self.new role) result };

    /// Puts the first bytes of a piece to a role that is written, as many as it likes, and at least one
    /// of a piece that isn't empty. Where it failed, some of the first bytes may have been put. A piece of
    /// no bytes puts none, and ends the role: what was put since its attach is whole, and a host may take
    /// it for that. `RealHost` gives Saved its name at that call and at no other, and what wasn't ended
    /// never has it. Where that failed, the role is as it was.
    fn write(&mut self, role: Role, buf: &[u8]) -> Result<usize, Failed>
        requires { CanWrite role }
        ensures bound { IfOk result (λ n. n ≤ length buf.now) }
        ensures some { 0 < length buf.now → IfOk result (λ n. 0 < n) }
        ensures put { IsTrue (tells role) → 0 < length buf.now → IfOk result (λ n. roles self.new role ≡ puts (take n buf.now) (roles self.old role)) }
        ensures failed { IsTrue (tells role) → OnErr result (PutPrefix buf.now (roles self.old role) (roles self.new role)) }
        ensures empty { length buf.now ≡ 0 → IfOk result (λ n. n ≡ 0) }
        ensures ended { IsTrue (tells role) → length buf.now ≡ 0 → OnOk result (roles self.new role ≡ ends (roles self.old role)) }
        ensures still { IsTrue (tells role) → length buf.now ≡ 0 → OnErr result (roles self.new role ≡ roles self.old role) }
        ensures others { SameBut role (roles self.old) (roles self.new) }
        ensures work { roles self.new Role.Work ≡ roles self.old Role.Work }
        ensures other_faults { SameBut role (faults self.old) (faults self.new) }
        ensures writes { writes self.new ≡ writes self.old }
        ensures cause { HasCause (faults self.old role) (faults self.new role) result };

    /// Reads the bytes of Work from a place on over the whole buffer. Past the end of Work they are 0.
    fn read_at(&mut self, place: u64, buf: &mut [u8]) -> Result<(), Failed>
        ensures bytes { IsTrue (tells Role.Work) → OnOk result (buf.new ≡ window (roles self.old Role.Work).contents place (length buf.old)) }
        ensures roles { (r : Role) → roles self.new r ≡ roles self.old r }
        ensures other_faults { SameBut Role.Work (faults self.old) (faults self.new) }
        ensures writes { writes self.new ≡ writes self.old }
        ensures cause { HasCause (faults self.old Role.Work) (faults self.new Role.Work) result };

    /// Writes the whole piece to Work from a place on. Where it failed, Work may hold anything.
    fn write_at(&mut self, place: u64, buf: &[u8]) -> Result<(), Failed>
        ensures contents { IsTrue (tells Role.Work) → OnOk result (roles self.new Role.Work ≡ holds (overwritten (roles self.old Role.Work).contents place buf.now) (roles self.old Role.Work)) }
        ensures failed { IsTrue (tells Role.Work) → OnErr result ((left : List ℕ) × (roles self.new Role.Work ≡ holds left (roles self.old Role.Work))) }
        ensures others { SameBut Role.Work (roles self.old) (roles self.new) }
        ensures other_faults { SameBut Role.Work (faults self.old) (faults self.new) }
        ensures writes { writes self.new ≡ counted (writes self.old) }
        ensures limit { writes self.old ≤ 2 ^ 64 - 1 }
        ensures cause { HasCause (faults self.old Role.Work) (faults self.new Role.Work) result };

    /// How often calls on this role failed, up to the greatest u64.
    fn fault_count(&self, role: Role) -> u64
        ensures { result ≡ faults self.now role };
}
