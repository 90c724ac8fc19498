// A host in memory whose Work isn't told: one read of it may lie.
ghost use Rattle.std.specs.Prelude.{◌≡◌, ◌≢◌, ◌+◌, ◌-◌, ◌^◌, ◌<◌, ◌≤◌, ◌&&◌, ℕ, false, [], None, Some, List, IsTrue, IfOk, OnOk, OnErr, IsErr, IsOk, IsSome, length, take, min, if◌then◌else◌};
ghost use Rattle.std.specs.Str.{bytes_eq};
ghost use Rattle.loom_host.specs.Bytes.{window, overwritten};
ghost use Rattle.loom_outside.specs.Lying.{but_work, inner_of, until_of, mask_of, masked, read_as, roles_in, faults_in, writes_in};
ghost use Rattle.loom_outside.specs.Marks.{marked, stored};
ghost use Rattle.loom_outside.specs.Memory.{OneCall, chunk_of, plan_of, marks_of, file_of, shown_of, room_of, refused};
ghost use Rattle.loom_host.specs.Outside.{SameBut, HasCause, CanAttach, CanRead, CanWrite, makes_file, Attached, IsFresh, Took, TookSome, PutPrefix, ends, puts, holds};
ghost use Rattle.long_names.specs.Counting.{counted};
ghost use Rattle.loom_outside.specs.Plans.{is_due};
ghost use Rattle.loom_host.specs.declared.outside.Role.{Role};
ghost use Rattle.loom_outside.specs.Rooms.{Widens};

use crate::{Failed, Host, MemoryHost, Role};

/// A host over one in memory that tells nothing of Work, so that anything may be read there, and the same as that one of every other
/// role. One call of `read_at` gives each byte with a mask xored in.
#[derive(Drop)]
pub struct LyingHost {
    inner: MemoryHost,
    // how many calls of `read_at` there are until the one that lies; 0 for none
    until: u64,
    mask: u8,
}

// Xors a mask into each byte.
fn mask_all(buf: &mut [u8], mask: u8)
    ensures { buf.new ≡ masked mask buf.old }
{
    for byte in buf.iter_mut() {
        *byte ^= mask;
    }
}

#[tactic(auto, unfolding(crate::specs::Lying::inner_of, crate::specs::Lying::until_of, crate::specs::Lying::mask_of))]
impl LyingHost {
    /// The nth call of `read_at` from now on gives each byte with the mask xored in, counted from 1. The 0th never comes, so with 0 it
    /// tells nothing of Work and never lies.
    pub fn new(inner: MemoryHost, nth: u64, mask: u8) -> LyingHost
        ensures inner { inner_of result ≡ inner }
        ensures until { until_of result ≡ nth }
        ensures mask { mask_of result ≡ mask }
    {
        LyingHost {
            inner,
            until: nth,
            mask,
        }
    }

    pub fn inner(&self) -> &MemoryHost
        ensures { result.now ≡ inner_of self.now }
    {
        &self.inner
    }
}

#[tactic(auto, unfolding(crate::specs::Lying::inner_of, crate::specs::Lying::until_of, crate::specs::Lying::mask_of))]
impl Host for LyingHost {
    ghost tells = { but_work };

    ghost roles = { roles_in };

    ghost faults = { faults_in };

    ghost writes = { writes_in };

    fn attach(&mut self, role: Role, name: &str) -> Result<(), Failed>
        requires { CanAttach role }
        ensures attached { Attached name.now result (roles_in self.old role) (roles_in self.new role) }
        ensures fresh { OnOk result (IsFresh (roles_in self.new role)) }
        ensures others { SameBut role (roles_in self.old) (roles_in self.new) }
        ensures other_faults { SameBut role (faults_in self.old) (faults_in self.new) }
        ensures writes { writes_in self.new ≡ writes_in self.old }
        ensures cause { HasCause (faults_in self.old role) (faults_in self.new role) result }

        // Which bytes are left of a role that is read, and what a failure leaves.
        ensures left { CanRead role → OnOk result (file_of (inner_of self.old) name.now ≡ Some (roles_in self.new role).left) }
        ensures refused { OnErr result (roles_in self.new role ≡ refused (roles_in self.old role)) }

        // When it fails.
        ensures call { OneCall role (inner_of self.old) (inner_of self.new) result }
        ensures missing { CanRead role → file_of (inner_of self.old) name.now ≡ None → IsErr result }
        ensures found { is_due (plan_of (inner_of self.old) role) ≡ false → CanRead role → IsSome (file_of (inner_of self.old) name.now) → IsOk result }
        ensures succeeds { is_due (plan_of (inner_of self.old) role) ≡ false → IsTrue (room_of (inner_of self.old) role).next_place → length name.now ≤ (room_of (inner_of self.old) role).next_name → IsOk result }

        // The files then, and the room.
        ensures files { OnOk result ((q : List ℕ) → file_of (inner_of self.new) q ≡ (if makes_file role && bytes_eq name.now q then Some [] else file_of (inner_of self.old) q)) }
        ensures err_files { OnErr result ((q : List ℕ) → file_of (inner_of self.new) q ≡ file_of (inner_of self.old) q) }
        ensures shown { OnOk result ((q : List ℕ) → shown_of (inner_of self.new) role q ≡ (makes_file role && bytes_eq name.now q)) }
        ensures other_shown { OnOk result ((r : Role) → r ≢ role → (q : List ℕ) → shown_of (inner_of self.new) r q ≡ (if makes_file role && bytes_eq name.now q then false else shown_of (inner_of self.old) r q)) }
        ensures err_shown { OnErr result ((r : Role) (q : List ℕ) → shown_of (inner_of self.new) r q ≡ shown_of (inner_of self.old) r q) }
        ensures room { OnOk result ((room_of (inner_of self.old) role).next_bytes ≤ (room_of (inner_of self.new) role).bytes) }
        ensures other_rooms { (r : Role) → r ≢ role → Widens (room_of (inner_of self.old) r) (room_of (inner_of self.new) r) }
        ensures err_room { OnErr result (Widens (room_of (inner_of self.old) role) (room_of (inner_of self.new) role)) }
        ensures marks { marks_of (inner_of self.new) ≡ marks_of (inner_of self.old) }

        ensures until { until_of self.new ≡ until_of self.old }
        ensures mask { mask_of self.new ≡ mask_of self.old }
    {
        self.inner.attach(role, name)
    }

    fn read(&mut self, role: Role, buf: &mut [u8]) -> Result<usize, Failed>
        requires { CanRead role }
        ensures bound { IfOk result (λ n. n ≤ length buf.old) }
        ensures took { IfOk result (λ n. Took n buf.new (roles_in self.old role) (roles_in self.new role)) }
        ensures end { 0 < length buf.old → IfOk result (λ n. n ≡ 0 → length (roles_in self.old role).left ≡ 0) }
        ensures failed { OnErr result (TookSome (length buf.old) (roles_in self.old role) (roles_in self.new role)) }
        ensures empty { length buf.old ≡ 0 → IfOk result (λ n. n ≡ 0) }
        ensures still { length buf.old ≡ 0 → roles_in self.new role ≡ roles_in self.old role }
        ensures others { SameBut role (roles_in self.old) (roles_in self.new) }
        ensures work { roles_in self.new Role.Work ≡ roles_in self.old Role.Work }
        ensures other_faults { SameBut role (faults_in self.old) (faults_in self.new) }
        ensures writes { writes_in self.new ≡ writes_in self.old }
        ensures cause { HasCause (faults_in self.old role) (faults_in self.new role) result }

        // How many bytes are taken.
        ensures moved { IfOk result (λ n. n ≡ min (length buf.old) (min (chunk_of (inner_of self.old)) (length (roles_in self.old role).left))) }
        ensures refused { OnErr result (roles_in self.new role ≡ roles_in self.old role) }

        ensures call { OneCall role (inner_of self.old) (inner_of self.new) result }
        ensures succeeds { is_due (plan_of (inner_of self.old) role) ≡ false → IsOk result }
        ensures files { (q : List ℕ) → file_of (inner_of self.new) q ≡ file_of (inner_of self.old) q }
        ensures shown { (r : Role) (q : List ℕ) → shown_of (inner_of self.new) r q ≡ shown_of (inner_of self.old) r q }
        ensures rooms { (r : Role) → Widens (room_of (inner_of self.old) r) (room_of (inner_of self.new) r) }
        ensures marks { marks_of (inner_of self.new) ≡ marks_of (inner_of self.old) }

        ensures until { until_of self.new ≡ until_of self.old }
        ensures mask { mask_of self.new ≡ mask_of self.old }
    {
        self.inner.read(role, buf)
    }

    fn write(&mut self, role: Role, buf: &[u8]) -> Result<usize, Failed>
        requires { CanWrite role }
        ensures bound { IfOk result (λ n. n ≤ length buf.now) }
        ensures some { 0 < length buf.now → IfOk result (λ n. 0 < n) }
        ensures put { 0 < length buf.now → IfOk result (λ n. roles_in self.new role ≡ puts (take n buf.now) (roles_in self.old role)) }
        ensures failed { OnErr result (PutPrefix buf.now (roles_in self.old role) (roles_in self.new role)) }
        ensures empty { length buf.now ≡ 0 → IfOk result (λ n. n ≡ 0) }
        ensures ended { length buf.now ≡ 0 → OnOk result (roles_in self.new role ≡ ends (roles_in self.old role)) }
        ensures still { length buf.now ≡ 0 → OnErr result (roles_in self.new role ≡ roles_in self.old role) }
        ensures others { SameBut role (roles_in self.old) (roles_in self.new) }
        ensures work { roles_in self.new Role.Work ≡ roles_in self.old Role.Work }
        ensures other_faults { SameBut role (faults_in self.old) (faults_in self.new) }
        ensures writes { writes_in self.new ≡ writes_in self.old }
        ensures cause { HasCause (faults_in self.old role) (faults_in self.new role) result }

        // How many bytes are put.
        ensures moved { IfOk result (λ n. n ≡ min (length buf.now) (chunk_of (inner_of self.old))) }
        ensures refused { OnErr result (roles_in self.new role ≡ roles_in self.old role) }

        ensures call { OneCall role (inner_of self.old) (inner_of self.new) result }
        ensures succeeds { is_due (plan_of (inner_of self.old) role) ≡ false → length (roles_in self.old role).put + min (length buf.now) (chunk_of (inner_of self.old)) ≤ (room_of (inner_of self.old) role).bytes → IsOk result }
        ensures files { OnOk result ((q : List ℕ) → file_of (inner_of self.new) q ≡ (if shown_of (inner_of self.old) role q then Some (roles_in self.new role).put else file_of (inner_of self.old) q)) }
        ensures err_files { OnErr result ((q : List ℕ) → file_of (inner_of self.new) q ≡ file_of (inner_of self.old) q) }
        ensures shown { (r : Role) (q : List ℕ) → shown_of (inner_of self.new) r q ≡ shown_of (inner_of self.old) r q }
        ensures rooms { (r : Role) → Widens (room_of (inner_of self.old) r) (room_of (inner_of self.new) r) }
        ensures marks { marks_of (inner_of self.new) ≡ marked role (marks_of (inner_of self.old)) }

        ensures until { until_of self.new ≡ until_of self.old }
        ensures mask { mask_of self.new ≡ mask_of self.old }
    {
        self.inner.write(role, buf)
    }

    fn read_at(&mut self, place: u64, buf: &mut [u8]) -> Result<(), Failed>
        ensures bytes { OnOk result (buf.new ≡ read_as self.old (window (roles_in self.old Role.Work).contents place (length buf.old))) }
        ensures roles { (r : Role) → roles_in self.new r ≡ roles_in self.old r }
        ensures other_faults { SameBut Role.Work (faults_in self.old) (faults_in self.new) }
        ensures writes { writes_in self.new ≡ writes_in self.old }
        ensures cause { HasCause (faults_in self.old Role.Work) (faults_in self.new Role.Work) result }

        ensures call { OneCall Role.Work (inner_of self.old) (inner_of self.new) result }
        ensures succeeds { is_due (plan_of (inner_of self.old) Role.Work) ≡ false → IsOk result }
        ensures files { (q : List ℕ) → file_of (inner_of self.new) q ≡ file_of (inner_of self.old) q }
        ensures shown { (r : Role) (q : List ℕ) → shown_of (inner_of self.new) r q ≡ shown_of (inner_of self.old) r q }
        ensures rooms { (r : Role) → Widens (room_of (inner_of self.old) r) (room_of (inner_of self.new) r) }
        ensures marks { marks_of (inner_of self.new) ≡ marks_of (inner_of self.old) }

        ensures until { until_of self.new ≡ until_of self.old - 1 }
        ensures mask { mask_of self.new ≡ mask_of self.old }
    {
        let lies = self.until == 1;
        self.until = self.until.saturating_sub(1);
        self.inner.read_at(place, buf)?;
        if lies {
            mask_all(buf, self.mask);
        }
        Ok(())
    }

    fn write_at(&mut self, place: u64, buf: &[u8]) -> Result<(), Failed>
        ensures contents { OnOk result (roles_in self.new Role.Work ≡ holds (overwritten (roles_in self.old Role.Work).contents place buf.now) (roles_in self.old Role.Work)) }
        ensures failed { OnErr result ((left : List ℕ) × (roles_in self.new Role.Work ≡ holds left (roles_in self.old Role.Work))) }
        ensures refused { OnErr result (roles_in self.new Role.Work ≡ roles_in self.old Role.Work) }
        ensures others { SameBut Role.Work (roles_in self.old) (roles_in self.new) }
        ensures other_faults { SameBut Role.Work (faults_in self.old) (faults_in self.new) }
        ensures writes { writes_in self.new ≡ counted (writes_in self.old) }
        ensures limit { writes_in self.old ≤ 2 ^ 64 - 1 }
        ensures cause { HasCause (faults_in self.old Role.Work) (faults_in self.new Role.Work) result }

        ensures call { OneCall Role.Work (inner_of self.old) (inner_of self.new) result }
        ensures succeeds { is_due (plan_of (inner_of self.old) Role.Work) ≡ false → place + length buf.now ≤ (room_of (inner_of self.old) Role.Work).bytes → IsOk result }
        ensures files { (q : List ℕ) → file_of (inner_of self.new) q ≡ file_of (inner_of self.old) q }
        ensures shown { (r : Role) (q : List ℕ) → shown_of (inner_of self.new) r q ≡ shown_of (inner_of self.old) r q }
        ensures rooms { (r : Role) → Widens (room_of (inner_of self.old) r) (room_of (inner_of self.new) r) }
        ensures marks { OnOk result (marks_of (inner_of self.new) ≡ stored (marks_of (inner_of self.old))) }
        ensures err_marks { OnErr result (marks_of (inner_of self.new) ≡ marks_of (inner_of self.old)) }

        ensures until { until_of self.new ≡ until_of self.old }
        ensures mask { mask_of self.new ≡ mask_of self.old }
    {
        self.inner.write_at(place, buf)
    }

    fn fault_count(&self, role: Role) -> u64 {
        self.inner.fault_count(role)
    }
}
