// A memory begins, over a disk that is loaded.
ghost use Rattle.std.specs.Prelude.{◌≡◌, ◌≤◌, ◌%◌, ℕ, IsTrue, IfOk, false};
ghost use Rattle.long_names.specs.Heap.{Heap};
ghost use Rattle.loom_host.specs.declared.outside.Role.TheVariants.{Work, Transcript};
ghost use Rattle.core_segment.specs.declared.segment.TheConstants.{HEADER, MOST_WORDS};
ghost use Rattle.object_table.specs.declared.table.TheConstants.{MOST_ENTRIES};
ghost use Rattle.disk_objects.specs.Disk.{disk_held, disk_room};
ghost use Rattle.loom_memory.specs.Beginning.{HasEmptyCore, IsEmptyCore};

use crate::ledger::Ledger;
use crate::memory::LoomMemory;
use delta_counts::TwoLevels;
use disk_objects::DiskObjects;
use leaf_lambda::Parts;
use long_names::REGISTERS;
use loom_host::Host;
use method_cache::Cache;
use object_record::RecordBuf;
use object_table::laws::entries_are_counted;
use purger::{Pager, Pinned};
use std::alloc::{AllocError, Global};

// An empty core.
fn empty_core(alloc: Global, core: u32, entries: u16) -> Result<Parts, AllocError>
    requires some { HEADER ≤ core }
    requires most { core ≤ MOST_WORDS }
    requires few { entries ≤ MOST_ENTRIES }
    ensures empty { IfOk result (λ p. IsEmptyCore p core entries) }
{
    let parts = Parts::new(alloc, core, entries)?;
    entries_are_counted(&parts.names.table);
    Ok(parts)
}

/// What a memory has beside its disk: an empty core, and two buffers. A memory that is joined of them takes no memory.
#[derive(Drop)]
pub struct CoreTables {
    parts: Parts,
    buf: RecordBuf,
    out: RecordBuf,
}

impl CoreTables {
    /// The tables for a core of so many words and entries.
    pub fn new(alloc: Global, core: u32, entries: u16) -> Result<CoreTables, AllocError>
        requires some { HEADER ≤ core }
        requires most { core ≤ MOST_WORDS }
        requires few { entries ≤ MOST_ENTRIES }
        ensures empty { IfOk result (λ t. HasEmptyCore t core entries) }
    {
        let parts = empty_core(alloc, core, entries)?;
        let buf = RecordBuf::new(alloc)?;
        let out = RecordBuf::new(alloc)?;
        Ok(CoreTables { parts, buf, out })
    }
}

impl<'h, H: Host> LoomMemory<'h, H> {
    ghost use Rattle.object_memory.specs.Told.{IsReady};
    ghost use Rattle.loom_memory.specs.Memory.{loom_told, loom_lender, loom_now, IsSound};
    ghost use Rattle.loom_memory.specs.Beginning.{HasLoaded, IsFirst, IsLoaded};
    ghost use Rattle.loom_memory.specs.Residents.{is_resident, fetched};

    /// A memory over a disk that is loaded, of tables that were made for a core of so many words and entries.
    pub fn joined(
        disk: DiskObjects<'h, H>,
        tables: CoreTables,
        next: u32,
        core: u32,
        entries: u16,
    ) -> LoomMemory<'h, H>
        requires loaded { HasLoaded H.Host disk.host.now disk.rest next }
        requires even { next % 2 ≡ 0 }
        requires empty { HasEmptyCore tables core entries }
        ensures first { IsFirst (loom_told H.Host result) core entries (disk_room disk.entry.rest) (disk_held disk.entry.rest) (H.faults disk.entry.host.now Work) (H.faults disk.entry.host.now Transcript) }
        ensures heap { IsTrue (H.tells Work) → (h : Heap) → IsLoaded H.Host disk.entry.host.now disk.entry.rest h → h.next ≡ next → (loom_told H.Host result).heap ≡ h }
        ensures sound { IsSound H.Host result }
        ensures ready { IsReady (loom_told H.Host result) }
        ensures now { loom_now result ≡ disk.entry.host.now }
        ensures lender { loom_lender result ≡ disk.entry.host.ghost_name }
        ensures none { (fetched result ≡ 0) × ((k : ℕ) → is_resident result k ≡ false) }
    {
        let held = disk.len();
        LoomMemory {
            pager: Pager {
                levels: TwoLevels {
                    disk,
                    parts: tables.parts,
                },
                out: tables.out,
                pinned: Pinned { a: 0, b: 0, d: 0 },
                hand: 0,
            },
            buf: tables.buf,
            regs: [1; REGISTERS],
            due: 0,
            thinned: false,
            ledger: Ledger {
                core,
                entries,
                next,
                base: Some(held),
                made: 0,
                held,
                fetches: 0,
                refusals: 0,
                last: None,
                rows: Cache::new(),
                begun: false,
                mark: 0,
            },
        }
    }

    /// A memory over a disk that is loaded, with a core of so many words and entries. Where there is no memory for its tables, the host is
    /// as it was.
    pub fn make(
        alloc: Global,
        disk: DiskObjects<'h, H>,
        next: u32,
        core: u32,
        entries: u16,
    ) -> Result<LoomMemory<'h, H>, AllocError>
        requires loaded { HasLoaded H.Host disk.host.now disk.rest next }
        requires even { next % 2 ≡ 0 }
        requires some { HEADER ≤ core }
        requires most { core ≤ MOST_WORDS }
        requires few { entries ≤ MOST_ENTRIES }
        ensures first { IfOk result (λ m. IsFirst (loom_told H.Host m) core entries (disk_room disk.entry.rest) (disk_held disk.entry.rest) (H.faults disk.entry.host.now Work) (H.faults disk.entry.host.now Transcript)) }
        ensures heap { IfOk result (λ m. IsTrue (H.tells Work) → (h : Heap) → IsLoaded H.Host disk.entry.host.now disk.entry.rest h → h.next ≡ next → (loom_told H.Host m).heap ≡ h) }
        ensures sound { IfOk result (IsSound H.Host) }
        ensures ready { IfOk result (λ m. IsReady (loom_told H.Host m)) }
        ensures now { IfOk result (λ m. (loom_now m) ≡ disk.entry.host.now) }
        ensures lender { IfOk result (λ m. loom_lender m ≡ disk.entry.host.ghost_name) }
        ensures none { IfOk result (λ m. (fetched m ≡ 0) × ((k : ℕ) → is_resident m k ≡ false)) }
    {
        match CoreTables::new(alloc, core, entries) {
            Ok(tables) => Ok(LoomMemory::joined(disk, tables, next, core, entries)),
            Err(e) => Err(e),
        }
    }
}
