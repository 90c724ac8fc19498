// The memory of two levels.
ghost use Rattle.std.specs.Prelude.{◌≡◌, ◌≢◌, ◌+◌, ◌%◌, ◌≤◌, ◌<◌, ℕ, Some, None, [], true, false, IsTrue, IfOk, IfErr, OnOk, IsOk};
ghost use Rattle.long_names.specs.Words.{IsSmallInteger};
ghost use Rattle.long_names.specs.State.{set_register};
ghost use Rattle.object_table.specs.Entries.{is_short, is_used, place_of};
ghost use Rattle.core_view.specs.Words.{meant, int_of_short};
ghost use Rattle.core_segment.specs.Segment.{largest_of};
ghost use Rattle.loom_host.specs.Work.{IsWorkOnly};
ghost use Rattle.disk_objects.specs.Disk.{disk_room};
ghost use Rattle.leaf_lambda.specs.Parts.{spare_of};

use crate::ledger::Ledger;
use crate::refusals::refusal_of;
use crate::thinned::note_gone;
use leaf_lambda::fields::{drop_word, hold_word};
use long_names::{Name, REGISTERS};
use loom_host::Host;
use object_memory::{MemFault, Reg};
use object_record::RecordBuf;
use object_table::Short;
use purger::{NOWHERE, Pager, RoomFault};

/// Objects on a disk, and a core of those that are at hand. Registers and slots hold short words.
#[derive(Drop)]
pub struct LoomMemory<'h, H: Host> {
    pub(crate) pager: Pager<'h, H>,
    // The record of the object of a call.
    pub(crate) buf: RecordBuf,
    pub(crate) regs: [u16; REGISTERS],
    // The next name from which on what is dead is looked for where room is short (`soon` of `IsSound`).
    pub(crate) due: u32,
    // Set where nothing is dead, and only as long as nothing can have died.
    pub(crate) thinned: bool,
    pub(crate) ledger: Ledger,
}

impl<'h, H: Host> LoomMemory<'h, H> {
    ghost use Rattle.loom_memory.specs.Effects.{LeavesBeside, Puts};
    ghost use Rattle.std.specs.Prelude.{Ok};
    ghost use Rattle.loom_memory.specs.Memory.{loom_told, loom_outside, word_in, loom_core, loom_lender, loom_rest, IsSound};
    ghost use Rattle.loom_memory.specs.Gentle.{IsSteady};
    ghost use Rattle.loom_memory.specs.Thinned.{StaysThinned};

    // Puts a word that is no lambda into a register.
    #[inline(always)]
    pub(crate) fn replace_word(&mut self, to: Reg, w: u16)
        requires sound { IsSound H.Host self.old }
        requires used { is_short w ≡ true → is_used ((loom_core self.old).entries w).state ≡ true }
        requires some { w ≢ 0 }
        ensures told { loom_told H.Host self.new ≡ record (loom_told H.Host self.old) { regs = set_register (loom_told H.Host self.old).regs to (meant (loom_core self.old).entries [] 0 w) } }
        ensures leaves { LeavesBeside H.Host self.old self.new (Ok result) }
        ensures disk { loom_rest self.new ≡ loom_rest self.old }
        ensures steady { IsSteady H.Host self.old self.new }
        ensures due { self.new.due ≡ self.old.due }
        ensures stays { StaysThinned self.old self.new (word_in self.old.regs to) }
    {
        let levels = &mut self.pager.levels;
        hold_word(&mut levels.parts, w);
        let old = self.regs[to.index()];
        self.regs[to.index()] = w;
        drop_word(&mut levels.parts, old);
        note_gone(&levels.parts, &mut self.thinned, old);
    }
}

impl<'h, H: Host> LoomMemory<'h, H> {
    ghost use Rattle.loom_memory.specs.Effects.{IsFaulted, Leaves, Makes, Pages, Rests};
    ghost use Rattle.object_memory.specs.Fit.{MayCall};
    ghost use Rattle.purger.specs.Purge.{HasRoom, OnShort, OnDisk, Undisturbed, IsShort, IsPurgeFault};
    ghost use Rattle.loom_memory.specs.Gentle.{IsResting, IsSpared};
    ghost use Rattle.loom_memory.specs.Own.{MindsCache};
    ghost use Rattle.loom_memory.specs.Gentle.{KeepsCache};
    ghost use Rattle.loom_memory.specs.Residents.{fetched};
    ghost use Rattle.loom_memory.specs.Thinned.{is_thinned};
    ghost use Rattle.long_names.specs.State.{IsRef};
    ghost use Rattle.long_names.specs.Counting.{counted};
    ghost use Rattle.long_names.specs.Access.{Access, target_of};
    ghost use Rattle.object_memory.specs.Told.{Told, IsReady};
    ghost use Rattle.object_memory.specs.Plain.{refused};
    ghost use Rattle.object_memory.specs.Contract.{Does, IsLater, KeepsSound, Refuses, makes};
    ghost use Rattle.loom_memory.specs.Memory.{loom_told, loom_outside, word_in, loom_core, loom_lender, loom_now, loom_parts, loom_pins, loom_rest, IsSound, IsSilent, IsRefused};
    ghost use Rattle.loom_memory.specs.Gentle.{IsQuiet, IsCalm};

    // Makes room for so many words and entries, beside the objects of the slots. That no more can go is no refusal: it answers whether there is room.
    pub(crate) fn page(&mut self, words: u32, entries: u16) -> Result<bool, MemFault>
        requires fit { MayCall (IsSound H.Host) (loom_told H.Host) self.old }
        ensures pages { OnOk result (Pages H.Host self.old self.new) }
        ensures room { IfOk result (λ enough. IsTrue enough → (words ≤ largest_of (loom_parts self.new).segment) × (entries ≤ spare_of (loom_parts self.new))) }
        ensures short { IfOk result (λ enough. enough ≡ false → IsShort (loom_parts self.new) (loom_pins self.new).a (loom_pins self.new).b (loom_pins self.new).d words entries) }
        ensures rests { OnOk result (HasRoom (loom_parts self.old) words entries → Rests H.Host self.old self.new) }
        ensures enough { IfOk result (λ enough. HasRoom (loom_parts self.old) words entries → IsTrue enough) }
        ensures sure { IfErr result (λ f. HasRoom (loom_parts self.old) words entries → ⊥) }
        ensures faulted { IfErr result (IsFaulted (loom_told H.Host self.old) (loom_told H.Host self.new)) }
        ensures buf { self.new.buf ≡ self.old.buf }
        ensures leaves { Leaves H.Host self.old self.new result }
    {
        match self.pager.make_room(words, entries) {
            Ok(()) => Ok(true),
            Err(f) => match f {
                RoomFault::Short => Ok(false),
                RoomFault::Disk(f) => {
                    let f = refusal_of(f);
                    Err(self.refuse(f))
                }
            },
        }
    }

    // Counts a refusal.
    #[cold]
    #[inline(never)]
    pub(crate) fn refuse(&mut self, f: MemFault) -> MemFault
        ensures result { result ≡ f }
        ensures told { loom_told H.Host self.new ≡ refused (loom_told H.Host self.old) f }
        ensures sound { IsSound H.Host self.old → IsSound H.Host self.new }
        ensures kept { (self.new.pager.levels.disk ≡ self.old.pager.levels.disk) × (self.new.ledger.held ≡ self.old.ledger.held) }
        ensures later { (loom_told H.Host self.old).refusals ≤ counted (loom_told H.Host self.old).refusals }
        ensures spared { IsSpared H.Host self.old self.new }
        ensures thinned { is_thinned self.new ≡ is_thinned self.old }
        ensures buf { self.new.buf ≡ self.old.buf }
        ensures rest { loom_rest self.new ≡ loom_rest self.old }
        ensures brings { fetched self.new ≡ fetched self.old }
        ensures due { self.new.due ≡ self.old.due }
        ensures flag { self.new.thinned ≡ self.old.thinned }
        ensures lender { loom_lender self.new ≡ loom_lender self.old }
        ensures outside { loom_outside H.Host self.new ≡ loom_outside H.Host self.old }
    {
        self.ledger.refuse(f);
        f
    }

    // Refuses: what was read of a name can't be so. Where the heap is told that can't be.
    pub(crate) fn wrong(&mut self, name: Name) -> MemFault
        ensures is { result ≡ MemFault.Damaged NOWHERE name }
        ensures err { (t : Told) (a : Access) → IsQuiet t (loom_told H.Host self.old) → IsReady t → IsSilent a → makes a ≡ 0 → (IsTrue t.tells → ⊥) → IsRefused t (loom_told H.Host self.new) a result }
        ensures brings { fetched self.new ≡ fetched self.old }
        ensures lender { loom_lender self.new ≡ loom_lender self.old }
        ensures outside { loom_outside H.Host self.new ≡ loom_outside H.Host self.old }
    {
        self.refuse(MemFault::Damaged {
            place: NOWHERE,
            name: name.get(),
        })
    }
}
