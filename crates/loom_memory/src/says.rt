// What an object says joins the transcript.
ghost use Rattle.std.specs.Prelude.{◌≡◌, ◌+◌, ◌≤◌, ◌<◌, ◌^◌, ℕ, Some, List, true, false, IsTrue, OnOk, IfErr, length, take, drop};
ghost use Rattle.long_names.specs.declared.object.Kind.TheVariants as kinds;

use crate::bodies::bytes_into;
use crate::memory::LoomMemory;
use long_names::Kind;
use loom_host::{Host, Role};
use object_memory::{MemFault, Reg};
use object_table::Short;

// How many bytes are said at once.
const PIECE: u32 = 256;

// How many bytes of those left are said next.
fn piece_of(left: u32) -> u32
    ensures most { result ≤ 256 }
    ensures within { result ≤ left }
    ensures some { 0 < left → 0 < result }
{
    if left < PIECE { left } else { PIECE }
}

// Whether an object of this kind says something.
fn has_text(kind: Kind) -> bool
    ensures has { result ≡ true → kind ≡ kinds.Bytes }
    ensures lacks { result ≡ false → kind ≡ kinds.Bytes → ⊥ }
{
    match kind {
        Kind::Bytes => true,
        _ => false,
    }
}

impl<'h, H: Host> LoomMemory<'h, H> {
    ghost use Rattle.loom_memory.specs.Effects.{Leaves};
    ghost use Rattle.object_memory.specs.Fit.{MayCall, StaysCallable};
    ghost use Rattle.std.specs.Prelude.{Ok};
    ghost use Rattle.long_names.specs.Counting.{Rose};
    ghost use Rattle.long_names.specs.State.{name_at};
    ghost use Rattle.loom_memory.specs.Damage.{IsDamaged, IsUndamaged};
    ghost use Rattle.loom_memory.specs.Freed.{IsFreedBy};
    ghost use Rattle.loom_memory.specs.Own.{BringsOne, IsHeard};
    ghost use Rattle.loom_memory.specs.Residents.{fetched, is_resident};
    ghost use Rattle.long_names.specs.Access.{Say, Nothing, said_by};
    ghost use Rattle.object_memory.specs.Told.{Told, IsReady};
    ghost use Rattle.object_memory.specs.Contract.{Accessed, ForBounds, MayDo, said_faults};
    ghost use Rattle.loom_memory.specs.Memory.{loom_told, loom_outside, loom_lender, loom_core, loom_parts, IsSound, IsRefused};
    ghost use Rattle.loom_memory.specs.Says.{IsPut, IsSaid, IsSpeech, IsText};

    // A run of bytes joins the transcript. Where that fails some of its first bytes may have, and how often calls on the transcript
    // failed is answered.
    fn put_run(&mut self, run: &[u8]) -> Result<(), u64>
        requires sound { IsSound H.Host self.old }
        ensures put { OnOk result (IsPut (loom_told H.Host self.old) (loom_told H.Host self.new) run.now) }
        ensures part { IfErr result (λ count. (n : ℕ) × IsPut (loom_told H.Host self.old) (loom_told H.Host self.new) (take n run.now)) }
        ensures count { IfErr result (λ count. ForBounds (loom_told H.Host self.new).bounds (λ b. b.said_faults ≡ count)) }
        ensures rose { IfErr result (λ count. Rose (said_faults (loom_told H.Host self.old).bounds) (said_faults (loom_told H.Host self.new).bounds)) }
        ensures leaves { Leaves H.Host self.old self.new (Ok result) }
        ensures parts { loom_parts self.new ≡ loom_parts self.old }
        ensures regs { self.new.regs ≡ self.old.regs }
        ensures speech { IsSpeech H.Host self.old self.new }
    {
        let levels = &mut self.pager.levels;
        match levels.disk.write_to(Role::Transcript, run) {
            Ok(()) => Ok(()),
            Err(_) => Err(levels.disk.fault_count(Role::Transcript)),
        }
    }

    // The next bytes of an object join the transcript, from byte i on.
    fn say_piece(&mut self, of: Reg, i: u32, run: &[u8]) -> Result<(), MemFault>
        requires sound { IsSound H.Host self.old }
        requires text { IsTrue (H.tells Role.Work) → (all : List ℕ) × (said_by (loom_told H.Host self.old).heap (loom_told H.Host self.old).regs (Say of) ≡ Some all) × (run.now ≡ take (length run.now) (drop i all)) }
        requires some { 0 < length run.now }
        ensures said { OnOk result ((t : Told) → IsSaid t (loom_told H.Host self.old) of i → IsSaid t (loom_told H.Host self.new) of (i + length run.now)) }
        ensures err { IfErr result (λ f. (t : Told) → IsReady t → IsSaid t (loom_told H.Host self.old) of i → IsRefused t (loom_told H.Host self.new) (Say of) f) }
        ensures undamaged { IfErr result IsUndamaged }
        ensures leaves { Leaves H.Host self.old self.new (Ok result) }
        ensures parts { OnOk result (loom_parts self.new ≡ loom_parts self.old) }
        ensures regs { OnOk result (self.new.regs ≡ self.old.regs) }
        ensures speech { OnOk result (IsSpeech H.Host self.old self.new) }
    {
        match self.put_run(run) {
            Ok(()) => Ok(()),
            Err(count) => Err(self.refuse(MemFault::Said { count })),
        }
    }

    // So many of the object's bytes from byte i on join the transcript. They go through a buffer.
    fn say_run(
        &mut self,
        of: Reg,
        s: Short,
        i: u32,
        count: u32,
        piece: &mut [u8],
    ) -> Result<(), MemFault>
        requires sound { IsSound H.Host self.old }
        requires text { IsText H.Host self.old of s.0 }
        requires within { i + count ≤ ((loom_core self.old).entries s.0).len }
        requires long { length piece.old ≡ count }
        requires some { 0 < count }
        ensures said { OnOk result ((t : Told) → IsSaid t (loom_told H.Host self.old) of i → IsSaid t (loom_told H.Host self.new) of (i + count)) }
        ensures err { IfErr result (λ f. (t : Told) → IsReady t → IsSaid t (loom_told H.Host self.old) of i → IsRefused t (loom_told H.Host self.new) (Say of) f) }
        ensures undamaged { IfErr result IsUndamaged }
        ensures leaves { Leaves H.Host self.old self.new (Ok result) }
        ensures parts { OnOk result (loom_parts self.new ≡ loom_parts self.old) }
        ensures speech { OnOk result (IsSpeech H.Host self.old self.new) }
    {
        let _all = bytes_into(&self.pager.levels.parts, s, i, piece);
        self.say_piece(of, i, piece)
    }

    // The same with a buffer of its own.
    fn say_from(&mut self, of: Reg, s: Short, i: u32, count: u32) -> Result<(), MemFault>
        requires sound { IsSound H.Host self.old }
        requires text { IsText H.Host self.old of s.0 }
        requires within { i + count ≤ ((loom_core self.old).entries s.0).len }
        requires few { count ≤ 256 }
        requires some { 0 < count }
        ensures said { OnOk result ((t : Told) → IsSaid t (loom_told H.Host self.old) of i → IsSaid t (loom_told H.Host self.new) of (i + count)) }
        ensures err { IfErr result (λ f. (t : Told) → IsReady t → IsSaid t (loom_told H.Host self.old) of i → IsRefused t (loom_told H.Host self.new) (Say of) f) }
        ensures undamaged { IfErr result IsUndamaged }
        ensures leaves { Leaves H.Host self.old self.new (Ok result) }
        ensures parts { OnOk result (loom_parts self.new ≡ loom_parts self.old) }
        ensures speech { OnOk result (IsSpeech H.Host self.old self.new) }
    {
        let mut piece = [0; PIECE as usize];
        self.say_run(of, s, i, count, &mut piece[..count as usize])
    }

    // All bytes of an object in the core join the transcript, a piece at a time.
    fn say_text(&mut self, of: Reg, s: Short, len: u32) -> Result<(), MemFault>
        requires sound { IsSound H.Host self.old }
        requires text { IsText H.Host self.old of s.0 }
        requires len { len ≡ ((loom_core self.old).entries s.0).len }
        ensures said { OnOk result ((t : Told) → IsSaid t (loom_told H.Host self.old) of 0 → IsSaid t (loom_told H.Host self.new) of len) }
        ensures err { IfErr result (λ f. (t : Told) → IsReady t → IsSaid t (loom_told H.Host self.old) of 0 → IsRefused t (loom_told H.Host self.new) (Say of) f) }
        ensures undamaged { IfErr result IsUndamaged }
        ensures leaves { Leaves H.Host self.old self.new (Ok result) }
        ensures speech { OnOk result (IsSpeech H.Host self.old self.new) }
    {
        let mut i = 0;
        while i < len {
            let count = piece_of(len - i);
            match self.say_from(of, s, i, count) {
                Ok(()) => {}
                Err(f) => return Err(f),
            }
            i += count;
        }
        Ok(())
    }

    /// The bytes of an object of bytes join the transcript.
    pub fn say(&mut self, of: Reg) -> Result<(), MemFault>
        requires fit { MayCall (IsSound H.Host) (loom_told H.Host) self.old }
        requires may { MayDo (loom_told H.Host self.old) (Say of) }
        ensures access { Accessed (loom_told H.Host self.old) (loom_told H.Host self.new) (Say of) (λ _. Nothing) result }
        ensures own { OnOk result (IsHeard H.Host self.old self.new (name_at ((loom_told H.Host self.old).regs of))) }
        ensures gone { OnOk result (IsFreedBy H.Host self.old self.new (name_at ((loom_told H.Host self.old).regs of)) (Say of)) }
        ensures damage { IsDamaged self.old self.new (name_at ((loom_told H.Host self.old).regs of)) result }
        ensures brings { BringsOne self.old self.new (is_resident self.old (name_at ((loom_told H.Host self.old).regs of)) ≡ false) }
        ensures fit { StaysCallable (IsSound H.Host) (loom_told H.Host) loom_lender (loom_outside H.Host) self.old self.new result }
    {
        match self.load(of) {
            Ok(s) => {
                let e = self.pager.levels.parts.names.table.used_entry(s);
                if has_text(e.kind) {
                    return self.say_text(of, s, e.len);
                }
                Err(self.amiss(s))
            }
            Err(f) => Err(f),
        }
    }
}
