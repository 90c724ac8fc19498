// A host in memory, for tests. It tells all, and fails where it is told to.
ghost use Rattle.std.specs.Prelude.{◌≡◌, ◌≢◌, ◌+◌, ◌-◌, ◌^◌, ◌<◌, ◌≤◌, ◌++◌, ◌∷◌, ◌&&◌, ℕ, true, false, [], option_copied, None, Some, List, IsTrue, IfOk, OnOk, OnErr, IsErr, IsOk, IsSome, length, take, min, if◌then◌else◌};
ghost use Rattle.std.specs.Str.{bytes_eq};
ghost use Rattle.loom_host.specs.Bytes.{window, overwritten};
ghost use Rattle.loom_outside.specs.Marks.{marked, stored, unmarked};
ghost use Rattle.loom_outside.specs.Memory.{OneCall, roles_of, faults_of, writes_of, chunk_of, plan_of, marks_of, file_of, shown_of, room_of, refused};
ghost use Rattle.loom_host.specs.Outside.{SameBut, HasCause, CanAttach, CanRead, CanWrite, makes_file, Attached, IsFresh, Took, TookSome, PutPrefix, at_start, ends, puts, holds};
ghost use Rattle.long_names.specs.Counting.{counted};
ghost use Rattle.loom_outside.specs.Plans.{is_due};
ghost use Rattle.loom_host.specs.declared.outside.Role.{Role};
ghost use Rattle.loom_outside.specs.Rooms.{Widens, HasRoom};

use crate::calls::Calls;
use crate::chunk::Chunk;
use crate::marks::Marks;
use crate::per_role::PerRole;
use crate::store::Store;
use crate::{Failed, Host, Role};
use std::alloc::{AllocError, Global};

/// A host in memory, which tells all. It fails at the calls that it was told to fail at, and else only
/// for a file that isn't there, and for want of memory past what `reserve` took.
///
/// A file stays: one that is added, or made by an `attach` of Saved or Display, takes the place of an
/// older one of its name for `file` and for later attaches, and who reads the older one goes on with
/// its bytes. A file that is still written is read as far as it was written at the attach. Work is kept
/// apart, and is no file under its name. A role that was never attached has nothing to read, and takes
/// what is written to it. After an `attach` that failed no name is told, and the role goes on where it was.
#[derive(Drop)]
pub struct MemoryHost {
    chunk: Chunk,
    calls: PerRole<Calls>,
    faults: PerRole<u64>,
    store: Store,
    writes: u64,
    marks: Marks,
}

#[tactic(auto, unfolding(crate::specs::Memory::roles_of, crate::specs::Memory::faults_of, crate::specs::Memory::writes_of, crate::specs::Memory::chunk_of, crate::specs::Memory::plan_of, crate::specs::Memory::marks_of, crate::specs::Memory::file_of, crate::specs::Memory::shown_of, crate::specs::Memory::room_of))]
impl MemoryHost {
    /// A host with no file, where nothing is attached and nothing failed. One call of `read` or `write`
    /// moves at most `chunk` bytes.
    pub fn new(alloc: Global, chunk: usize) -> Result<MemoryHost, AllocError>
        requires { 0 < chunk }
        ensures chunk { IfOk result (λ h. chunk_of h ≡ chunk) }
        ensures roles { IfOk result (λ h. (r : Role) → roles_of h r ≡ at_start) }
        ensures faults { IfOk result (λ h. (r : Role) → faults_of h r ≡ 0) }
        ensures plans { IfOk result (λ h. (r : Role) → plan_of h r ≡ []) }
        ensures files { IfOk result (λ h. (name : List ℕ) → file_of h name ≡ None) }
        ensures writes { IfOk result (λ h. writes_of h ≡ 0) }
        ensures marks { IfOk result (λ h. marks_of h ≡ unmarked) }
    {
        Ok(MemoryHost {
            chunk: Chunk { most: chunk },
            calls: PerRole::<Calls>::none(alloc),
            faults: PerRole::<u64>::zeros(),
            store: Store::new(alloc)?,
            writes: 0,
            marks: Marks::new(),
        })
    }

    /// Adds a file. It takes the place of an older one of its name.
    pub fn add_file(&mut self, name: &str, bytes: &[u8]) -> Result<(), AllocError>
        ensures ok { OnOk result ((q : List ℕ) → file_of self.new q ≡ (if bytes_eq name.now q then Some bytes.now else file_of self.old q)) }
        ensures err { OnErr result ((q : List ℕ) → file_of self.new q ≡ file_of self.old q) }
        ensures shown { OnOk result ((r : Role) (q : List ℕ) → shown_of self.new r q ≡ (if bytes_eq name.now q then false else shown_of self.old r q)) }
        ensures err_shown { OnErr result ((r : Role) (q : List ℕ) → shown_of self.new r q ≡ shown_of self.old r q) }
        ensures roles { (r : Role) → roles_of self.new r ≡ roles_of self.old r }
        ensures faults { (r : Role) → faults_of self.new r ≡ faults_of self.old r }
        ensures plans { (r : Role) → plan_of self.new r ≡ plan_of self.old r }
        ensures rooms { (r : Role) → Widens (room_of self.old r) (room_of self.new r) }
        ensures rest { (writes_of self.new ≡ writes_of self.old) × (marks_of self.new ≡ marks_of self.old) × (chunk_of self.new ≡ chunk_of self.old) }
    {
        self.store.add(name, bytes)
    }

    /// The nth call on that role from now on fails, counted from 1. The 0th never comes.
    pub fn fail(&mut self, role: Role, nth: u64) -> Result<(), AllocError>
        ensures ok { OnOk result (plan_of self.new role ≡ plan_of self.old role ++ nth ∷ []) }
        ensures err { OnErr result (plan_of self.new role ≡ plan_of self.old role) }
        ensures other_plans { SameBut role (plan_of self.old) (plan_of self.new) }
        ensures roles { (r : Role) → roles_of self.new r ≡ roles_of self.old r }
        ensures faults { (r : Role) → faults_of self.new r ≡ faults_of self.old r }
        ensures files { (q : List ℕ) → file_of self.new q ≡ file_of self.old q }
        ensures shown { (r : Role) (q : List ℕ) → shown_of self.new r q ≡ shown_of self.old r q }
        ensures rooms { (r : Role) → room_of self.new r ≡ room_of self.old r }
        ensures rest { (writes_of self.new ≡ writes_of self.old) × (marks_of self.new ≡ marks_of self.old) × (chunk_of self.new ≡ chunk_of self.old) }
    {
        self.calls.list(role, nth)
    }

    /// Makes room: from now on, through one `attach`, no call on that role needs a growth while its name,
    /// the bytes put to it and, for Work, the end of what is written are each at most `bytes`.
    pub fn reserve(&mut self, role: Role, bytes: u64) -> Result<(), AllocError>
        ensures room { OnOk result (HasRoom role bytes (room_of self.new role)) }
        ensures rooms { (r : Role) → Widens (room_of self.old r) (room_of self.new r) }
        ensures roles { (r : Role) → roles_of self.new r ≡ roles_of self.old r }
        ensures faults { (r : Role) → faults_of self.new r ≡ faults_of self.old r }
        ensures plans { (r : Role) → plan_of self.new r ≡ plan_of self.old r }
        ensures files { (q : List ℕ) → file_of self.new q ≡ file_of self.old q }
        ensures shown { (r : Role) (q : List ℕ) → shown_of self.new r q ≡ shown_of self.old r q }
        ensures rest { (writes_of self.new ≡ writes_of self.old) × (marks_of self.new ≡ marks_of self.old) × (chunk_of self.new ≡ chunk_of self.old) }
    {
        self.store.reserve(role, bytes as usize)
    }

    /// The bytes of the file of this name.
    pub fn file(&self, name: &str) -> Option<&[u8]>
        ensures file { option_copied result ≡ file_of self.now name.now }
        ensures shown { (r : Role) → IsTrue (shown_of self.now r name.now) → option_copied result ≡ Some (roles_of self.now r).put }
    {
        self.store.file(name)
    }

    /// What was put to Transcript.
    pub fn transcript(&self) -> &[u8]
        ensures { result.now ≡ (roles_of self.now Role.Transcript).put }
    {
        self.store.transcript()
    }

    /// What was put to Notes.
    pub fn notes(&self) -> &[u8]
        ensures { result.now ≡ (roles_of self.now Role.Notes).put }
    {
        self.store.notes()
    }

    /// How many bytes had been put to a role when a piece of no bytes last ended it, since the last attach of it that answered Ok. None
    /// where none has ended it since then.
    pub fn ended(&self, role: Role) -> Option<usize>
        ensures { result ≡ (roles_of self.now role).ended }
    {
        self.calls.at(role).ended
    }

    /// How many calls of `write_at` had answered Ok before the first and before the last `write` on
    /// Transcript. Both are 0 where there was none.
    pub fn work_writes(&self) -> (u64, u64)
        ensures { result ≡ ((marks_of self.now).first, (marks_of self.now).last) }
    {
        (self.marks.first, self.marks.last)
    }
}

#[tactic(auto, unfolding(crate::specs::Memory::roles_of, crate::specs::Memory::faults_of, crate::specs::Memory::writes_of, crate::specs::Memory::chunk_of, crate::specs::Memory::plan_of, crate::specs::Memory::marks_of, crate::specs::Memory::file_of, crate::specs::Memory::shown_of, crate::specs::Memory::room_of))]
impl Host for MemoryHost {
    ghost tells = { λ _. true };

    ghost roles = { roles_of };

    ghost faults = { faults_of };

    ghost writes = { writes_of };

    fn attach(&mut self, role: Role, name: &str) -> Result<(), Failed>
        requires { CanAttach role }
        ensures attached { Attached name.now result (roles_of self.old role) (roles_of self.new role) }
        ensures fresh { OnOk result (IsFresh (roles_of self.new role)) }
        ensures others { SameBut role (roles_of self.old) (roles_of self.new) }
        ensures other_faults { SameBut role (faults_of self.old) (faults_of self.new) }
        ensures writes { writes_of self.new ≡ writes_of self.old }
        ensures cause { HasCause (faults_of self.old role) (faults_of self.new role) result }

        // Which bytes are left of a role that is read, and what a failure leaves.
        ensures left { CanRead role → OnOk result (file_of self.old name.now ≡ Some (roles_of self.new role).left) }
        ensures refused { OnErr result (roles_of self.new role ≡ refused (roles_of self.old role)) }

        // When it fails.
        ensures call { OneCall role self.old self.new result }
        ensures missing { CanRead role → file_of self.old name.now ≡ None → IsErr result }
        ensures found { is_due (plan_of self.old role) ≡ false → CanRead role → IsSome (file_of self.old name.now) → IsOk result }
        ensures succeeds { is_due (plan_of self.old role) ≡ false → IsTrue (room_of self.old role).next_place → length name.now ≤ (room_of self.old role).next_name → IsOk result }

        // The files then, and the room.
        ensures files { OnOk result ((q : List ℕ) → file_of self.new q ≡ (if makes_file role && bytes_eq name.now q then Some [] else file_of self.old q)) }
        ensures err_files { OnErr result ((q : List ℕ) → file_of self.new q ≡ file_of self.old q) }
        ensures shown { OnOk result ((q : List ℕ) → shown_of self.new role q ≡ (makes_file role && bytes_eq name.now q)) }
        ensures other_shown { OnOk result ((r : Role) → r ≢ role → (q : List ℕ) → shown_of self.new r q ≡ (if makes_file role && bytes_eq name.now q then false else shown_of self.old r q)) }
        ensures err_shown { OnErr result ((r : Role) (q : List ℕ) → shown_of self.new r q ≡ shown_of self.old r q) }
        ensures room { OnOk result ((room_of self.old role).next_bytes ≤ (room_of self.new role).bytes) }
        ensures other_rooms { (r : Role) → r ≢ role → Widens (room_of self.old r) (room_of self.new r) }
        ensures err_room { OnErr result (Widens (room_of self.old role) (room_of self.new role)) }
        ensures marks { marks_of self.new ≡ marks_of self.old }
    {
        if self.calls.begin_attach(role) || !self.store.attach(role, name) {
            return self.faults.fail(role);
        }
        self.calls.end_attach(role);
        Ok(())
    }

    fn read(&mut self, role: Role, buf: &mut [u8]) -> Result<usize, Failed>
        requires { CanRead role }
        ensures bound { IfOk result (λ n. n ≤ length buf.old) }
        ensures took { IfOk result (λ n. Took n buf.new (roles_of self.old role) (roles_of self.new role)) }
        ensures end { 0 < length buf.old → IfOk result (λ n. n ≡ 0 → length (roles_of self.old role).left ≡ 0) }
        ensures failed { OnErr result (TookSome (length buf.old) (roles_of self.old role) (roles_of self.new role)) }
        ensures empty { length buf.old ≡ 0 → IfOk result (λ n. n ≡ 0) }
        ensures still { length buf.old ≡ 0 → roles_of self.new role ≡ roles_of self.old role }
        ensures others { SameBut role (roles_of self.old) (roles_of self.new) }
        ensures work { roles_of self.new Role.Work ≡ roles_of self.old Role.Work }
        ensures other_faults { SameBut role (faults_of self.old) (faults_of self.new) }
        ensures writes { writes_of self.new ≡ writes_of self.old }
        ensures cause { HasCause (faults_of self.old role) (faults_of self.new role) result }

        // How many bytes are taken.
        ensures moved { IfOk result (λ n. n ≡ min (length buf.old) (min (chunk_of self.old) (length (roles_of self.old role).left))) }
        ensures refused { OnErr result (roles_of self.new role ≡ roles_of self.old role) }

        ensures call { OneCall role self.old self.new result }
        ensures succeeds { is_due (plan_of self.old role) ≡ false → IsOk result }
        ensures files { (q : List ℕ) → file_of self.new q ≡ file_of self.old q }
        ensures shown { (r : Role) (q : List ℕ) → shown_of self.new r q ≡ shown_of self.old r q }
        ensures rooms { (r : Role) → Widens (room_of self.old r) (room_of self.new r) }
        ensures marks { marks_of self.new ≡ marks_of self.old }
    {
        if self.calls.begin(role) {
            return self.faults.fail(role);
        }
        Ok(self.store.take(role, self.chunk.most, buf))
    }

    fn write(&mut self, role: Role, buf: &[u8]) -> Result<usize, Failed>
        requires { CanWrite role }
        ensures bound { IfOk result (λ n. n ≤ length buf.now) }
        ensures some { 0 < length buf.now → IfOk result (λ n. 0 < n) }
        ensures put { 0 < length buf.now → IfOk result (λ n. roles_of self.new role ≡ puts (take n buf.now) (roles_of self.old role)) }
        ensures failed { OnErr result (PutPrefix buf.now (roles_of self.old role) (roles_of self.new role)) }
        ensures empty { length buf.now ≡ 0 → IfOk result (λ n. n ≡ 0) }
        ensures ended { length buf.now ≡ 0 → OnOk result (roles_of self.new role ≡ ends (roles_of self.old role)) }
        ensures still { length buf.now ≡ 0 → OnErr result (roles_of self.new role ≡ roles_of self.old role) }
        ensures others { SameBut role (roles_of self.old) (roles_of self.new) }
        ensures work { roles_of self.new Role.Work ≡ roles_of self.old Role.Work }
        ensures other_faults { SameBut role (faults_of self.old) (faults_of self.new) }
        ensures writes { writes_of self.new ≡ writes_of self.old }
        ensures cause { HasCause (faults_of self.old role) (faults_of self.new role) result }

        // How many bytes are put.
        ensures moved { IfOk result (λ n. n ≡ min (length buf.now) (chunk_of self.old)) }
        ensures refused { OnErr result (roles_of self.new role ≡ roles_of self.old role) }

        ensures call { OneCall role self.old self.new result }
        ensures succeeds { is_due (plan_of self.old role) ≡ false → length (roles_of self.old role).put + min (length buf.now) (chunk_of self.old) ≤ (room_of self.old role).bytes → IsOk result }
        ensures files { OnOk result ((q : List ℕ) → file_of self.new q ≡ (if shown_of self.old role q then Some (roles_of self.new role).put else file_of self.old q)) }
        ensures err_files { OnErr result ((q : List ℕ) → file_of self.new q ≡ file_of self.old q) }
        ensures shown { (r : Role) (q : List ℕ) → shown_of self.new r q ≡ shown_of self.old r q }
        ensures rooms { (r : Role) → Widens (room_of self.old r) (room_of self.new r) }
        ensures marks { marks_of self.new ≡ marked role (marks_of self.old) }
    {
        self.marks.mark(role);
        if self.calls.begin(role) {
            return self.faults.fail(role);
        }
        let n = buf.len().min(self.chunk.most);
        if self.store.put(role, &buf[..n]).is_err() {
            return self.faults.fail(role);
        }
        self.calls.end_write(role, n, self.store.put_length(role));
        Ok(n)
    }

    fn read_at(&mut self, place: u64, buf: &mut [u8]) -> Result<(), Failed>
        ensures bytes { OnOk result (buf.new ≡ window (roles_of self.old Role.Work).contents place (length buf.old)) }
        ensures roles { (r : Role) → roles_of self.new r ≡ roles_of self.old r }
        ensures other_faults { SameBut Role.Work (faults_of self.old) (faults_of self.new) }
        ensures writes { writes_of self.new ≡ writes_of self.old }
        ensures cause { HasCause (faults_of self.old Role.Work) (faults_of self.new Role.Work) result }

        ensures call { OneCall Role.Work self.old self.new result }
        ensures succeeds { is_due (plan_of self.old Role.Work) ≡ false → IsOk result }
        ensures files { (q : List ℕ) → file_of self.new q ≡ file_of self.old q }
        ensures shown { (r : Role) (q : List ℕ) → shown_of self.new r q ≡ shown_of self.old r q }
        ensures rooms { (r : Role) → Widens (room_of self.old r) (room_of self.new r) }
        ensures marks { marks_of self.new ≡ marks_of self.old }
    {
        if self.calls.begin(Role::Work) {
            return self.faults.fail(Role::Work);
        }
        self.store.read_at(place, buf);
        Ok(())
    }

    fn write_at(&mut self, place: u64, buf: &[u8]) -> Result<(), Failed>
        ensures contents { OnOk result (roles_of self.new Role.Work ≡ holds (overwritten (roles_of self.old Role.Work).contents place buf.now) (roles_of self.old Role.Work)) }
        ensures failed { OnErr result ((left : List ℕ) × (roles_of self.new Role.Work ≡ holds left (roles_of self.old Role.Work))) }
        ensures refused { OnErr result (roles_of self.new Role.Work ≡ roles_of self.old Role.Work) }
        ensures others { SameBut Role.Work (roles_of self.old) (roles_of self.new) }
        ensures other_faults { SameBut Role.Work (faults_of self.old) (faults_of self.new) }
        ensures writes { writes_of self.new ≡ counted (writes_of self.old) }
        ensures limit { writes_of self.old ≤ 2 ^ 64 - 1 }
        ensures cause { HasCause (faults_of self.old Role.Work) (faults_of self.new Role.Work) result }

        ensures call { OneCall Role.Work self.old self.new result }
        ensures succeeds { is_due (plan_of self.old Role.Work) ≡ false → place + length buf.now ≤ (room_of self.old Role.Work).bytes → IsOk result }
        ensures files { (q : List ℕ) → file_of self.new q ≡ file_of self.old q }
        ensures shown { (r : Role) (q : List ℕ) → shown_of self.new r q ≡ shown_of self.old r q }
        ensures rooms { (r : Role) → Widens (room_of self.old r) (room_of self.new r) }
        ensures marks { OnOk result (marks_of self.new ≡ stored (marks_of self.old)) }
        ensures err_marks { OnErr result (marks_of self.new ≡ marks_of self.old) }
    {
        self.writes = self.writes.saturating_add(1);
        if self.calls.begin(Role::Work) {
            return self.faults.fail(Role::Work);
        }
        if self.store.write_at(place, buf).is_err() {
            return self.faults.fail(Role::Work);
        }
        self.marks.store();
        Ok(())
    }

    fn fault_count(&self, role: Role) -> u64 {
        *self.faults.at(role)
    }
}
